// The luminous intensity of a placed luminaire towards a place.
ghost use Rattle.std.specs.Prelude.{◌≡◌, ◌<◌, ◌≤◌, ◌^◌, ◌-ℤ◌, unsigned_abs};
ghost use Rattle.room_patches.specs.Places.{IsCoordinate, IsPlace};
ghost use Rattle.fixtures.specs.Fixtures.{IsPlaced, place_of};
ghost use Rattle.direct_flux.specs.Beam.{plan_distance, gamma_towards, plane_towards, beam};

use direction_table::{angle, bearing};
use fixtures::Fixture;
use intensity::intensity;
use lux_num::isqrt;
use photo_web::{FULL_TURN, HALF_TURN, Web};

/// The luminous intensity, in microcandela, of a placed luminaire towards a place (three coordinates of 0 to 200,000
/// half-millimetres), at the luminaire's level. At most 10^15. Towards its own place a luminaire shines straight down.
#[tactic(auto, unfolding(crate::specs::Beam::beam))]
pub fn beam(fixture: &Fixture, web: &Web, at: [i32; 3]) -> u64
    requires placed { IsPlaced fixture.now }
    requires place { IsPlace at }
    ensures value { result ≡ beam fixture.now web.now at }
    ensures limited { result ≤ 10 ^ 15 }
{
    let plane = plane_towards(fixture, at);
    let gamma = gamma_towards(fixture, at);
    intensity(web, plane, gamma) * u64::from(fixture.level) / 1_000
}

// The C-plane in which a place lies, in millidegrees.
#[tactic(auto, unfolding(crate::specs::Beam::plane_towards))]
fn plane_towards(fixture: &Fixture, at: [i32; 3]) -> u32
    requires placed { IsPlaced fixture.now }
    requires place { IsPlace at }
    ensures value { result ≡ plane_towards fixture.now at }
    ensures limited { result < 360000 }
{
    let around = bearing(step(fixture.x, at[0]), step(fixture.y, at[1]));
    (around + FULL_TURN - fixture.rotation) % FULL_TURN
}

// The gamma angle at which a place lies, in millidegrees.
#[tactic(auto, unfolding(crate::specs::Beam::gamma_towards, crate::specs::Beam::tilt))]
fn gamma_towards(fixture: &Fixture, at: [i32; 3]) -> u32
    requires placed { IsPlaced fixture.now }
    requires place { IsPlace at }
    ensures value { result ≡ gamma_towards fixture.now at }
    ensures limited { result ≤ 180000 }
{
    let tilt = angle(
        1_000 * gap(fixture.z, at[2]) as u32,
        plan_distance(fixture, at),
    );
    if 0 < step(fixture.z, at[2]) {
        HALF_TURN - tilt
    } else {
        tilt
    }
}

// A thousand times the distance of a luminaire and a place in the plan, cut.
#[tactic(auto, using(crate::proofs::Bounds::squares_limited, crate::proofs::Bounds::root_fits), unfolding(crate::specs::Beam::plan_distance))]
fn plan_distance(fixture: &Fixture, at: [i32; 3]) -> u32
    requires placed { IsPlaced fixture.now }
    requires place { IsPlace at }
    ensures { result ≡ plan_distance fixture.now at }
{
    let x = gap(fixture.x, at[0]);
    let y = gap(fixture.y, at[1]);
    isqrt(u128::from((x * x + y * y) * 1_000_000)) as u32
}

// From one coordinate to another, below zero against the axis.
#[tactic(auto, using(std::proofs::lemmas::Int::ints))]
fn step(from: i32, to: i32) -> i32
    requires from { IsCoordinate from }
    requires to { IsCoordinate to }
    ensures { result ≡ to -ℤ from }
{
    to - from
}

// How far two coordinates lie apart.
#[tactic(auto, using(std::proofs::lemmas::Int::ints))]
fn gap(from: i32, to: i32) -> u64
    requires from { IsCoordinate from }
    requires to { IsCoordinate to }
    ensures apart { result ≡ unsigned_abs (to -ℤ from) }
    ensures near { result ≤ 200000 }
{
    u64::from(to.abs_diff(from))
}
