// The brightest patch, by a tournament that follows the residuals.
ghost use Rattle.std.specs.Prelude.{◌≡◌, ◌≢◌, ◌<◌, ℕ, All, length, slice_index};
ghost use Rattle.flux_system.specs.Shapes.{share_in};

use flux_system::Entry;
use picker::Tournament;

/// To set one value costs about as much as to refill so many.
const REFILLED_FOR_ONE: usize = 8;

// Tells the tournament the residuals after a shot from a patch over its row: those of the row's patches and its own are
// new, and all others are as they were.
pub(crate) fn follow(tournament: &mut Tournament, patch: usize, row: &[Entry], residual: &[u64])
    requires length { length residual.now ≡ length tournament.old }
    requires patch { patch < length residual.now }
    requires row { All (λ entry. entry.patch < length residual.now) row.now }
    requires others { (j : ℕ) → j < length residual.now → j ≢ patch → share_in row.now j ≡ 0 → slice_index residual.now j ≡ slice_index tournament.old j }
    ensures { tournament.new ≡ residual.now }
{
    if row.len() >= residual.len() / REFILLED_FOR_ONE {
        tournament.refill(residual);
        return;
    }
    tournament.set(patch, residual[patch]);
    for entry in row {
        let target = entry.patch as usize;
        tournament.set(target, residual[target]);
    }
}
