// Whether given fractions solve a flux system.
ghost use Rattle.std.specs.Prelude.{◌≡◌, ◌+◌, ◌*◌, ◌<◌, ◌≤◌, ◌^◌, ◌↔◌, IsTrue, pos, length, slice_index, sum};
ghost use Rattle.flux_system.specs.Sums.{sum_below};
ghost use Rattle.flux_system.specs.System.{patches, scale, coefficient};
ghost use Rattle.flux_system.specs.Validity.{IsSystem};
ghost use Rattle.exact_model.specs.Solution.{IsSolution};

use flux_system::System;

/// What one nanolumen is counted in.
const SCALE: u128 = 1_000_000_000_000;

/// Whether the fractions `num[j] / den` are a solution for a direct flux: whether each is the flux of its patch, in
/// nanolumens. Both lists have one number for each patch, and the direct flux is at most 10^16 nanolumens in all.
/// A denominator of 0 is never one of a solution.
pub fn is_solution(system: &System, direct: &[u64], num: &[u64], den: u32) -> bool
    requires direct { length direct.now ≡ patches system.now }
    requires num { length num.now ≡ patches system.now }
    requires limit { sum direct.now ≤ 10 ^ 16 }
    ensures { IsTrue result ↔ IsSolution system.now (slice_index direct.now) (λ j. pos (slice_index num.now j)) den }
{
    if den == 0 {
        return false;
    }
    for patch in 0..system.len() {
        if !holds_at(system, direct[patch], num, den, patch) {
            return false;
        }
    }
    true
}

// Whether the equation of one patch holds, for its direct flux.
fn holds_at(system: &System, direct: u64, num: &[u64], den: u32, patch: usize) -> bool
    requires system { IsSystem system.now }
    requires patch { patch < patches system.now }
    requires num { length num.now ≡ patches system.now }
    requires limit { direct ≤ 10 ^ 16 }
    ensures { IsTrue result ↔ (scale * slice_index num.now patch
        ≡ den * (scale * direct) + sum_below (patches system.now) (λ i. coefficient system.now i patch * slice_index num.now i)) }
{
    let mut reaches = u128::from(den) * (SCALE * u128::from(direct));
    for (from, flux) in num.iter().enumerate() {
        reaches += u128::from(system.coef(from, patch)) * u128::from(*flux);
    }
    SCALE * u128::from(num[patch]) == reaches
}
