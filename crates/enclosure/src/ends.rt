// The ends of intervals.
ghost use Rattle.std.specs.Prelude.{◌≡◌, ℕ, ◌+◌, ◌-◌, ◌*◌, ◌<◌, ◌≤◌, ◌^◌, IfOk, All, slice_index, sum};
ghost use Rattle.flux_system.specs.System.{patches};
ghost use Rattle.flux_system.specs.Validity.{IsSystem};
ghost use Rattle.exact_model.specs.Solution.{Encloses};
ghost use Rattle.enclosure.specs.Shapes.{IsGreatest};
ghost use Rattle.enclosure.specs.Interval.{spill_of, interval_of, intervals_of, IsDone, EnclosesAll};

use crate::fraction::Fraction;
use crate::rises::greatest_at;
use flux_ledger::Ledger;
use flux_system::System;
use std::alloc::{AllocError, Global};

/// The parts of a nanolumen that fractions are counted in.
const SCALE: u64 = 1_000_000_000_000;

/// What a finished and balanced ledger leaves unshot at all patches together, in nanolumens, rounded up.
pub fn spill(system: &System, ledger: &Ledger) -> u64
    requires { IsDone system.now ledger.now }
    ensures value { result ≡ spill_of system.now ledger.now }
    ensures few { result ≤ patches system.now * (system.now.threshold - 1 + ledger.now.parts) }
    ensures direct { result ≤ sum ledger.now.direct }
{
    let mut unshot: u128 = 0;
    for j in 0..system.len() {
        unshot += u128::from(SCALE) * u128::from(ledger.residual.get(j))
            + u128::from(ledger.err.get(j));
    }
    unshot.div_ceil(u128::from(SCALE)) as u64
}

// The interval of patch j, where so much spills in all.
fn ends(system: &System, ledger: &Ledger, spilled: u64, greatest: Fraction, j: usize) -> (u64, u64)
    requires done { IsDone system.now ledger.now }
    requires spilled { spilled ≡ spill_of system.now ledger.now }
    requires greatest { IsGreatest system.now j greatest }
    requires patch { j < patches system.now }
    ensures value { result ≡ interval_of system.now ledger.now j }
    ensures order { result.0 ≤ result.1 }
    ensures bound { result.1 ≤ 4 * 10 ^ 17 + 10 ^ 13 }
    ensures system { IsSystem system.now }
{
    prove!(j < system.len());
    let rise = greatest.of(spilled) as u64;
    let low = ledger.taken.get(j) + ledger.residual.get(j);
    let fraction = ledger.err.get(j).div_ceil(SCALE);
    (low, low + fraction + rise)
}

/// The interval of patch `j` of a finished and balanced ledger, in nanolumens: from what the ledger says is there to
/// what can come at most. Every solution of the system for the ledger's direct flux lies in it. It is no wider than a
/// nanolumen for each account and nineteen times what spills: a patch passes on less than nineteen times what it keeps.
pub fn interval(system: &System, ledger: &Ledger, j: usize) -> (u64, u64)
    requires done { IsDone system.now ledger.now }
    requires patch { j < patches system.now }
    ensures value { result ≡ interval_of system.now ledger.now j }
    ensures order { result.0 ≤ result.1 }
    ensures bound { result.1 ≤ 4 * 10 ^ 17 + 10 ^ 13 }
    ensures width { result.1 ≤ result.0 + ledger.now.parts + 19 * spill_of system.now ledger.now }
    ensures encloses { Encloses system.now (slice_index ledger.now.direct) j result.0 result.1 }
{
    let spilled = spill(system, ledger);
    ends(system, ledger, spilled, greatest_at(system, j), j)
}

/// The intervals of all patches, as [`interval`] gives each. Fails only if memory runs out.
pub fn all(alloc: Global, system: &System, ledger: &Ledger) -> Result<Vec<(u64, u64)>, AllocError>
    requires { IsDone system.now ledger.now }
    ensures value { IfOk result (λ intervals. intervals.items ≡ intervals_of system.now ledger.now) }
    ensures order { IfOk result (λ intervals. All (λ ends. ends.0 ≤ ends.1) intervals.items) }
    ensures bound { IfOk result (λ intervals. All (λ ends. ends.1 ≤ 4 * 10 ^ 17 + 10 ^ 13) intervals.items) }
    ensures width { IfOk result (λ intervals. All (λ ends. ends.1 ≤ ends.0 + ledger.now.parts + 19 * spill_of system.now ledger.now) intervals.items) }
    ensures encloses { IfOk result (λ _. EnclosesAll system.now ledger.now) }
{
    let spilled = spill(system, ledger);
    let mut intervals = Vec::with_capacity(alloc, system.len())?;
    for j in 0..system.len() {
        intervals.push(ends(system, ledger, spilled, greatest_at(system, j), j))?;
    }
    Ok(intervals)
}
