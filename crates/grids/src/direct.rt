// What luminaires send to points directly.
ghost use Rattle.std.specs.Prelude.{◌≡◌, ◌*◌, ◌<◌, ◌≤◌, ◌^◌, All, length, IfOk};
ghost use Rattle.room_patches.specs.Places.{IsPlace};
ghost use Rattle.fixtures.specs.Fixtures.{IsPlaced};
ghost use Rattle.direct_flux.specs.DirectFlux.{received_flux, flux_from};
ghost use Rattle.grids.specs.GridPoint.{square_metre_at, direct_at, direct_light};

use crate::Grid;
use crate::sight::height_over;
use direct_flux::{MOST_LUMINAIRES, beam};
use fixtures::Fixture;
use lux_num::isqrt;
use photo_web::Web;
use room_patches::squared_distance;
use std::alloc::{AllocError, Global};

/// The direct illuminance at each point of a grid in nanolux, from placed luminaires whose webs stand at their numbers.
pub fn direct_points(
    alloc: Global,
    grid: &Grid,
    fixtures: &[Fixture],
    webs: &[Web],
) -> Result<Vec<u128>, AllocError>
    requires placed { All IsPlaced fixtures.now }
    requires webs { All (λ fixture. fixture.web < length webs.now) fixtures.now }
    requires few { length fixtures.now ≤ MOST_LUMINAIRES }
    ensures direct { IfOk result (λ direct. direct.items ≡ direct_light grid.now fixtures.now webs.now) }
    ensures limited { IfOk result (λ direct. All (λ light. light ≤ 2 * 10 ^ 27) direct.items) }
{
    let mut direct = Vec::with_capacity(alloc, grid.len())?;
    for g in 0..grid.len() {
        direct.push(direct_at(grid.point(g), fixtures, webs))?;
    }
    Ok(direct)
}

// What all luminaires send to a point, in nanolux.
#[tactic(auto, unfolding(crate::specs::GridPoint::direct_at, direct_flux::specs::DirectFlux::flux_on))]
fn direct_at(point: [i32; 3], fixtures: &[Fixture], webs: &[Web]) -> u128
    requires point { IsPlace point }
    requires placed { All IsPlaced fixtures.now }
    requires webs { All (λ fixture. fixture.web < length webs.now) fixtures.now }
    requires few { length fixtures.now ≤ MOST_LUMINAIRES }
    ensures value { result ≡ direct_at webs.now fixtures.now point }
    ensures limited { result ≤ 2 * 10 ^ 27 }
{
    let mut light = 0;
    for fixture in fixtures {
        light += light_from(&webs[fixture.web as usize], fixture, point);
    }
    light
}

// What a luminaire sends to a point, in nanolux.
#[tactic(auto, using(room_patches::proofs::Distances::squared_distance_comm), unfolding(direct_flux::specs::DirectFlux::flux_from))]
fn light_from(web: &Web, fixture: &Fixture, point: [i32; 3]) -> u128
    requires point { IsPlace point }
    requires placed { IsPlaced fixture.now }
    ensures value { result ≡ flux_from web.now fixture.now (square_metre_at point) }
    ensures limited { result ≤ 4 * 10 ^ 24 }
{
    let place = fixture.place();
    let height = height_over(point, place);
    if height == 0 {
        return 0;
    }
    received_light(
        beam(fixture, web, point),
        height,
        squared_distance(place, point),
    )
}

// The illuminance that an intensity gives a level surface from a height over it, at a squared distance.
fn received_light(intensity: u64, height: u32, squared: u64) -> u128
    requires intensity { intensity ≤ 10 ^ 15 }
    requires over { 1 ≤ height }
    requires near { height ≤ 200000 }
    requires squared { height * height ≤ squared }
    requires limited { squared ≤ 120000000000 }
    ensures value { result ≡ received_flux intensity height squared (10 ^ 6) }
    ensures limited { result ≤ 4 * 10 ^ 24 }
{
    let sent = 4_000_000_000_000 * u128::from(intensity) * u128::from(height);
    let root = isqrt(u128::from(squared * 1_000_000));
    sent / (u128::from(squared) * u128::from(root))
}
