// The audit of a ledger.
ghost use Rattle.std.specs.Prelude.{◌≡◌, ◌≢◌, ℕ, None, length};
ghost use Rattle.duties.specs.Duties.{first, each};
ghost use Rattle.flux_system.specs.System.{patches};
ghost use Rattle.flux_system.specs.Validity.{IsSystem};
ghost use Rattle.flux_system.specs.Limits.{limit_duties};
ghost use Rattle.flux_ledger.specs.Balance.{HasPatches};
ghost use Rattle.enclosure.specs.Interval.{IsDone};
ghost use Rattle.ledger_audit.specs.declared.findings.Finding.TheVariants.{Balanced, Bounds};
ghost use Rattle.ledger_audit.specs.Findings.{direct_duty, err_duty, residual_duty, wins_duty, audit_duties, finding_of, IsAccountOf};

use crate::balances::first_unbalanced;
use crate::{Finding, SCALE};
use flux_ledger::Ledger;
use flux_system::System;

/// Audits a ledger for a flux system and a direct flux, in nanolumens for each patch of the system and within its
/// limits. The lists of the ledger have one length, and its numbers may be any.
pub fn audit(system: &System, direct: &[u64], ledger: &Ledger) -> Finding
    requires direct { length direct.now ≡ patches system.now }
    requires limits { first (limit_duties system.now direct.now) ≡ None }
    requires lengths { HasPatches (length ledger.now.direct) ledger.now }
    ensures finding { result ≡ finding_of system.now direct.now ledger.now }
    ensures balanced { result ≡ Balanced → IsAccountOf system.now direct.now ledger.now }
    ensures exactly { IsAccountOf system.now direct.now ledger.now → result ≡ Balanced }
    ensures done { result ≡ Balanced → IsDone system.now ledger.now }
    ensures never_bounds { (patch low high : ℕ) → result ≢ Bounds patch low high }
{
    first_failure(system, direct, ledger).unwrap_or(Finding::Balanced)
}

// What the first test tells that isn't passed.
fn first_failure(system: &System, direct: &[u64], ledger: &Ledger) -> Option<Finding>
    requires direct { length direct.now ≡ patches system.now }
    requires limits { first (limit_duties system.now direct.now) ≡ None }
    requires lengths { HasPatches (length ledger.now.direct) ledger.now }
    ensures failure { result ≡ first (audit_duties system.now direct.now ledger.now) }
    ensures system { IsSystem system.now }
{
    let patches = system.len();
    if ledger.direct.len() != patches {
        return Some(Finding::Size {
            left: patches as u64,
            right: ledger.direct.len() as u64,
        });
    }
    if let Some(finding) = first_direct(system, direct, ledger) {
        return Some(finding);
    }
    if let Some(finding) = first_err(system, ledger) {
        return Some(finding);
    }
    if let Some(finding) = first_residual(system, ledger) {
        return Some(finding);
    }
    if let Some(finding) = first_unbalanced(system, ledger) {
        return Some(finding);
    }
    too_many_wins(system, direct, ledger.wins)
}

// The first direct flux that the ledger has another for.
fn first_direct(system: &System, direct: &[u64], ledger: &Ledger) -> Option<Finding>
    requires direct { length direct.now ≡ patches system.now }
    requires lengths { HasPatches (patches system.now) ledger.now }
    ensures { result ≡ each (patches system.now) (direct_duty direct.now ledger.now) }
{
    for patch in 0..system.len() {
        let left = direct[patch];
        let right = ledger.direct.get(patch);
        if left != right {
            return Some(Finding::Direct {
                patch: patch as u32,
                left,
                right,
            });
        }
    }
    None
}

// The first fraction that is too great for the accounts.
fn first_err(system: &System, ledger: &Ledger) -> Option<Finding>
    requires { HasPatches (patches system.now) ledger.now }
    ensures { result ≡ each (patches system.now) (err_duty ledger.now) }
{
    let limit = u128::from(SCALE) * u128::from(ledger.parts);
    for patch in 0..system.len() {
        let value = ledger.err.get(patch);
        if u128::from(value) >= limit {
            return Some(Finding::Err {
                patch: patch as u32,
                value,
            });
        }
    }
    None
}

// The first residual that is still to be taken.
fn first_residual(system: &System, ledger: &Ledger) -> Option<Finding>
    requires { HasPatches (patches system.now) ledger.now }
    ensures { result ≡ each (patches system.now) (residual_duty system.now ledger.now) }
{
    for patch in 0..system.len() {
        let value = ledger.residual.get(patch);
        if value >= system.threshold() {
            return Some(Finding::Residual {
                patch: patch as u32,
                value,
            });
        }
    }
    None
}

// The wins, where they are more than a direct flux within the limits allows.
fn too_many_wins(system: &System, direct: &[u64], wins: u64) -> Option<Finding>
    requires direct { length direct.now ≡ patches system.now }
    requires limits { first (limit_duties system.now direct.now) ≡ None }
    ensures { result ≡ wins_duty system.now direct.now wins }
{
    let limit = system.takes_bound(direct).unwrap();
    if u128::from(wins) > limit {
        return Some(Finding::Wins { wins, limit });
    }
    None
}
