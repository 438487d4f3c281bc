// The balance of each patch.
ghost use Rattle.std.specs.Prelude.{◌≡◌, ◌<◌, ◌^◌, length};
ghost use Rattle.duties.specs.Duties.{each};
ghost use Rattle.flux_system.specs.System.{patches};
ghost use Rattle.flux_system.specs.Validity.{IsSystem};
ghost use Rattle.flux_ledger.specs.Balance.{HasPatches, passed_to};
ghost use Rattle.ledger_audit.specs.Findings.{left_side, right_side, balance_duty};

use crate::{Finding, SCALE};
use flux_ledger::Ledger;
use flux_system::System;

// The first patch whose two sides are not one.
pub(crate) fn first_unbalanced(system: &System, ledger: &Ledger) -> Option<Finding>
    requires { HasPatches (patches system.now) ledger.now }
    ensures { result ≡ each (patches system.now) (balance_duty system.now ledger.now) }
{
    for patch in 0..system.len() {
        if let Some(finding) = unbalanced_at(system, ledger, patch) {
            return Some(finding);
        }
    }
    None
}

// The two sides of one patch, where they are not one.
fn unbalanced_at(system: &System, ledger: &Ledger, patch: usize) -> Option<Finding>
    requires system { IsSystem system.now }
    requires lengths { HasPatches (patches system.now) ledger.now }
    requires patch { patch < patches system.now }
    ensures { result ≡ balance_duty system.now ledger.now patch }
{
    let (left, right) = sides(system, ledger, patch);
    if left != right {
        return Some(Finding::Unbalanced {
            patch: patch as u32,
            left,
            right,
        });
    }
    None
}

// The two sides of one patch. Whatever the ledger says, they fit.
fn sides(system: &System, ledger: &Ledger, patch: usize) -> (u128, u128)
    requires system { IsSystem system.now }
    requires lengths { HasPatches (patches system.now) ledger.now }
    requires patch { patch < patches system.now }
    ensures left { result.0 ≡ left_side ledger.now patch }
    ensures right { result.1 ≡ right_side system.now ledger.now patch }
{
    let there = u128::from(ledger.taken.get(patch)) + u128::from(ledger.residual.get(patch));
    let left = u128::from(SCALE) * there + u128::from(ledger.err.get(patch));
    let right = u128::from(SCALE) * u128::from(ledger.direct.get(patch))
        + passed_to(system, ledger.taken.as_slice(), patch);
    (left, right)
}

// What all takes together passed on to patch j, in parts of a nanolumen. Only the patches of its column did.
fn passed_to(system: &System, taken: &[u64], j: usize) -> u128
    requires system { IsSystem system.now }
    requires taken { length taken.now ≡ patches system.now }
    requires patch { j < patches system.now }
    ensures value { result ≡ passed_to system.now taken.now j }
    ensures fits { result < 2 ^ 127 }
{
    let mut passed: u128 = 0;
    let column = system.column(j);
    for entry in column {
        let patch = entry.patch as usize;
        let coefficient = u64::from(system.reflectance(patch)) * u64::from(entry.share);
        passed += u128::from(taken[patch]) * u128::from(coefficient);
    }
    passed
}
