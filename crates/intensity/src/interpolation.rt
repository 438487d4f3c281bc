// Intensity between the stored directions of a web.
ghost use Rattle.std.specs.Prelude.{◌≡◌, ◌*◌, ◌/◌, ◌<◌, ◌≤◌, ◌^◌, IsTrue, length};
ghost use Rattle.photo_web.specs.Validity.{IsWeb};
ghost use Rattle.intensity.specs.Intensity.{IsWithin, between_planes, between_gammas, weighted_sum, in_cell, covers, interpolated_intensity};

use crate::stretch::{Stretch, last_up_to, stretch_from};
use photo_web::Web;

/// The intensity of a web in the direction of C-angle `c` and of `gamma` (millidegrees), in microcandela: interpolated
/// in the cell that the direction lies in, and 0 where `gamma` is outside the stored ones.
#[tactic(auto, unfolding(crate::specs::Intensity::interpolated_intensity))]
pub fn intensity(web: &Web, c: u32, gamma: u32) -> u64
    requires c { c < 360000 }
    requires gamma { gamma ≤ 180000 }
    ensures value { result ≡ interpolated_intensity web.now c gamma }
    ensures limited { result ≤ 10 ^ 15 }
{
    if !covers(web.gammas(), gamma) {
        return 0;
    }
    in_cell(web, between_planes(web, c), between_gammas(web, gamma))
}

// Whether an angle is neither below the first of some angles nor above the last.
fn covers(angles: &[u32], angle: u32) -> bool
    requires { 0 < length angles.now }
    ensures { result ≡ covers angles.now angle }
{
    angles[0] <= angle && angle <= angles[angles.len() - 1]
}

// Where an angle lies between the planes.
#[tactic(auto, using(crate::proofs::Places::within_a_turn))]
fn between_planes(web: &Web, c: u32) -> Stretch
    requires { c < 360000 }
    ensures value { result ≡ between_planes web.now c }
    ensures within { IsWithin web.now.planes result }
{
    let planes = web.planes();
    stretch_from(planes, last_up_to(planes, c), c)
}

// Where an angle lies between the gammas, of which the last begins no stretch.
fn between_gammas(web: &Web, gamma: u32) -> Stretch
    requires { IsTrue (covers web.now.gammas gamma) }
    ensures value { result ≡ between_gammas web.now gamma }
    ensures within { IsWithin web.now.gammas result }
{
    let gammas = web.gammas();
    let beginnings = &gammas[..gammas.len() - 1];
    stretch_from(gammas, last_up_to(beginnings, gamma), gamma)
}

// The intensity in a cell, which is a stretch of planes by one of gammas.
#[tactic(auto, using(crate::proofs::Cells::weighted_sum_limited, crate::proofs::Cells::mean_limited))]
fn in_cell(web: &Web, plane: Stretch, gamma: Stretch) -> u64
    requires web { IsWeb web.now }
    requires plane { IsWithin web.now.planes plane }
    requires gamma { IsWithin web.now.gammas gamma }
    ensures value { result ≡ in_cell web.now plane gamma }
    ensures limited { result ≤ 10 ^ 15 }
{
    let sum = weighted_sum(web, plane, gamma);
    let area = plane.width * gamma.width;
    // Most sums fit 64 bits, whose quotients are faster.
    if sum <= u64::MAX as u128 {
        sum as u64 / area
    } else {
        (sum / area as u128) as u64
    }
}

// The four corners of a cell, each by its weight.
#[tactic(auto, unfolding(crate::specs::Intensity::weighted_sum))]
fn weighted_sum(web: &Web, plane: Stretch, gamma: Stretch) -> u128
    requires web { IsWeb web.now }
    requires plane { IsWithin web.now.planes plane }
    requires gamma { IsWithin web.now.gammas gamma }
    ensures { result ≡ weighted_sum web.now plane gamma }
{
    let plane_left = plane.width - plane.past;
    let gamma_left = gamma.width - gamma.past;
    let (next_plane, next_gamma) = (plane.place + 1, gamma.place + 1);
    weighted_value(web.value(plane.place, gamma.place), plane_left * gamma_left)
        + weighted_value(web.value(next_plane, gamma.place), plane.past * gamma_left)
        + weighted_value(web.value(plane.place, next_gamma), plane_left * gamma.past)
        + weighted_value(web.value(next_plane, next_gamma), plane.past * gamma.past)
}

// A value by its weight.
fn weighted_value(value: u64, weight: u64) -> u128
    requires { value ≤ 10 ^ 15 }
    ensures product { result ≡ value * weight }
    ensures limited { result ≤ 10 ^ 15 * 2 ^ 64 }
{
    value as u128 * weight as u128
}
