// The audit of the intervals that were given with a ledger.
ghost use Rattle.std.specs.Prelude.{◌≡◌, ◌<◌, ◌↔◌, IsTrue, length, slice_index_or};
ghost use Rattle.duties.specs.Duties.{each};
ghost use Rattle.flux_system.specs.System.{patches};
ghost use Rattle.flux_system.specs.Validity.{IsSystem};
ghost use Rattle.enclosure.specs.Interval.{intervals_of, IsDone};
ghost use Rattle.ledger_audit.specs.declared.findings.Finding.TheVariants.{Balanced};
ghost use Rattle.ledger_audit.specs.Findings.{bounds_duty, bounds_finding, is_of_bounds};

use crate::Finding;
use enclosure::interval;
use flux_ledger::Ledger;
use flux_system::System;

/// Audits the intervals, in nanolumens, that were given for the patches of a finished and balanced ledger. The first that
/// isn't the interval of its patch gives the finding `Bounds`, with the interval that it should be.
pub fn audit_bounds(system: &System, ledger: &Ledger, given: &[(u64, u64)]) -> Finding
    requires done { IsDone system.now ledger.now }
    requires pairs { length given.now ≡ patches system.now }
    ensures finding { result ≡ bounds_finding system.now ledger.now given.now }
    ensures exactly { (result ≡ Balanced) ↔ (given.now ≡ intervals_of system.now ledger.now) }
    ensures no_other { IsTrue (is_of_bounds result) }
{
    first_pair(system, ledger, given).unwrap_or(Finding::Balanced)
}

// What there is to tell of the first pair that isn't the interval of its patch.
fn first_pair(system: &System, ledger: &Ledger, given: &[(u64, u64)]) -> Option<Finding>
    requires done { IsDone system.now ledger.now }
    requires pairs { length given.now ≡ patches system.now }
    ensures { result ≡ each (patches system.now) (bounds_duty system.now ledger.now given.now) }
{
    for patch in 0..system.len() {
        let (low, high) = interval(system, ledger, patch);
        let (given_low, given_high) = given[patch];
        if given_low != low || given_high != high {
            return Some(Finding::Bounds {
                patch: patch as u32,
                low,
                high,
            });
        }
    }
    None
}
