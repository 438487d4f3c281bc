// A shot of a ledger.
ghost use Rattle.std.specs.Prelude.{◌≡◌, ◌<◌, ◌≤◌, ◌+◌, ◌*◌, ◌^◌, ℕ, slice_index, slice_set, sum};
ghost use Rattle.flux_system.specs.System.{patches, scale};
ghost use Rattle.flux_ledger.specs.Balance.{IsBalanced, IsPaid};
ghost use Rattle.shot_core.specs.Shots.{parts_after, shot};
ghost use Rattle.shot_core.specs.Shapes.{AreSmall};

use crate::parts::{carry, pass_on};
use flux_ledger::Ledger;
use flux_system::System;

// The whole residual of a patch is taken, and what the patch passes on goes to the patches of its row: where all
// fractions are below a nanolumen.
pub(crate) fn shoot(system: &System, patch: usize, ledger: &mut Ledger)
    requires balanced { IsBalanced system.now ledger.old }
    requires paid { IsPaid system.now ledger.old }
    requires flux { sum ledger.old.direct ≤ 10 ^ 16 }
    requires patch { patch < patches system.now }
    requires enough { system.now.threshold ≤ slice_index ledger.old.residual patch }
    requires small { AreSmall ledger.old.err }
    ensures shot { ledger.new ≡ shot system.now ledger.old patch }
    ensures small { AreSmall ledger.new.err }
{
    let t = take(system, patch, ledger);
    pass_on(system, patch, t, &mut ledger.residual, &mut ledger.err);
}

// The same whatever the fractions are: their whole nanolumens go to the residuals first.
pub(crate) fn shoot_first(system: &System, patch: usize, ledger: &mut Ledger)
    requires balanced { IsBalanced system.now ledger.old }
    requires paid { IsPaid system.now ledger.old }
    requires flux { sum ledger.old.direct ≤ 10 ^ 16 }
    requires patch { patch < patches system.now }
    requires enough { system.now.threshold ≤ slice_index ledger.old.residual patch }
    ensures shot { ledger.new ≡ shot system.now ledger.old patch }
    ensures small { AreSmall ledger.new.err }
{
    let t = take(system, patch, ledger);
    carry(&mut ledger.residual, &mut ledger.err);
    pass_on(system, patch, t, &mut ledger.residual, &mut ledger.err);
}

// Takes the whole residual of a patch. All that is left and passed on fits.
fn take(system: &System, patch: usize, ledger: &mut Ledger) -> u64
    requires balanced { IsBalanced system.now ledger.old }
    requires paid { IsPaid system.now ledger.old }
    requires flux { sum ledger.old.direct ≤ 10 ^ 16 }
    requires patch { patch < patches system.now }
    requires enough { system.now.threshold ≤ slice_index ledger.old.residual patch }
    ensures value { result ≡ slice_index ledger.old.residual patch }
    ensures flux { result ≤ 10 ^ 16 }
    ensures fits { (j : ℕ) → j < patches system.now → scale * slice_index ledger.new.residual j + parts_after system.now patch result ledger.new.err j < scale * 2 ^ 64 }
    ensures ledger { let t = slice_index ledger.old.residual patch in ledger.new ≡ record ledger.old { taken = slice_set ledger.old.taken patch (slice_index ledger.old.taken patch + t); residual = slice_set ledger.old.residual patch 0; wins = ledger.old.wins + 1 } }
{
    prove!(patch < system.len());
    let t = ledger.residual.get(patch);
    let taken = ledger.taken.get(patch) + t;
    ledger.taken.set(patch, taken);
    ledger.residual.set(patch, 0);
    ledger.wins += 1;
    t
}
