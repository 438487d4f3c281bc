// What luminaires send to the patches of a room.
ghost use Rattle.std.specs.Prelude.{◌≡◌, ◌+◌, ◌*◌, ◌<◌, ◌≤◌, ◌^◌, All, length, map, sum, take, IfOk, OnOk};
ghost use Rattle.duties.specs.Duties.{Answers};
ghost use Rattle.room_patches.specs.Patches.{IsPatch};
ghost use Rattle.fixtures.specs.Fixtures.{IsPlaced};
ghost use Rattle.direct_flux.specs.DirectFlux.{received_flux, flux_from, flux_on, direct_flux, flux_duty};

use crate::{DirectFault, beam};
use fixtures::Fixture;
use lux_num::isqrt;
use photo_web::Web;
use room_patches::{Patch, Room, squared_distance};
use std::alloc::{AllocError, Global};

/// The most direct flux over all patches, in nanolumens.
pub const MOST_FLUX: u128 = 10_000_000_000_000_000;

/// The most luminaires.
pub const MOST_LUMINAIRES: usize = 256;

/// The direct flux of each patch of the room in nanolumens, from placed luminaires whose webs stand at their numbers.
///
/// `FluxTooLarge` comes exactly where the sum over all patches, which it carries, is above `MOST_FLUX`; `Memory` may come
/// in the place of any answer.
#[tactic(auto, using(duties::proofs::Orders::steps))]
pub fn direct(
    alloc: Global,
    room: &Room,
    fixtures: &[Fixture],
    webs: &[Web],
) -> Result<Vec<u64>, DirectFault>
    requires placed { All IsPlaced fixtures.now }
    requires webs { All (λ fixture. fixture.web < length webs.now) fixtures.now }
    requires few { length fixtures.now ≤ MOST_LUMINAIRES }
    ensures flux { IfOk result (λ flux. flux.items ≡ direct_flux room.now fixtures.now webs.now) }
    ensures limited { IfOk result (λ flux. sum flux.items ≤ 10 ^ 16) }
    ensures answer { Answers DirectFault.Memory (flux_duty (direct_flux room.now fixtures.now webs.now)) result }
{
    let flux = all_flux(alloc, room, fixtures, webs)?;
    let sum = total(&flux);
    if sum > MOST_FLUX {
        return Err(DirectFault::FluxTooLarge { sum });
    }
    Ok(narrow_amounts(alloc, &flux)?)
}

// The direct flux of each patch, however much it is.
fn all_flux(
    alloc: Global,
    room: &Room,
    fixtures: &[Fixture],
    webs: &[Web],
) -> Result<Vec<u128>, AllocError>
    requires placed { All IsPlaced fixtures.now }
    requires webs { All (λ fixture. fixture.web < length webs.now) fixtures.now }
    requires few { length fixtures.now ≤ MOST_LUMINAIRES }
    ensures flux { IfOk result (λ flux. flux.items ≡ direct_flux room.now fixtures.now webs.now) }
    ensures few { IfOk result (λ flux. length flux.items ≤ 4096) }
    ensures limited { IfOk result (λ flux. All (λ amount. amount ≤ 256 * (4 * 10 ^ 28)) flux.items) }
{
    let mut flux = Vec::with_capacity(alloc, room.len())?;
    for patch in room.patches() {
        flux.push(flux_on(patch, fixtures, webs))?;
    }
    Ok(flux)
}

// All amounts together.
fn total(amounts: &[u128]) -> u128
    requires few { length amounts.now ≤ 4096 }
    requires limited { All (λ amount. amount ≤ 256 * (4 * 10 ^ 28)) amounts.now }
    ensures { result ≡ sum amounts.now }
{
    let mut total = 0;
    for amount in amounts {
        total += *amount;
    }
    total
}

// Amounts in 64 bits.
#[tactic(auto, using(crate::proofs::Bounds::below_sum))]
fn narrow_amounts(alloc: Global, amounts: &[u128]) -> Result<Vec<u64>, AllocError>
    requires { sum amounts.now ≤ 10 ^ 16 }
    ensures { IfOk result (λ narrow. narrow.items ≡ amounts.now) }
{
    let mut narrow = Vec::with_capacity(alloc, amounts.len())?;
    for amount in amounts {
        narrow.push(*amount as u64)?;
    }
    Ok(narrow)
}

// What all luminaires send to a patch, in nanolumens.
#[tactic(auto, unfolding(crate::specs::DirectFlux::flux_on))]
fn flux_on(patch: &Patch, fixtures: &[Fixture], webs: &[Web]) -> u128
    requires patch { IsPatch patch.now }
    requires placed { All IsPlaced fixtures.now }
    requires webs { All (λ fixture. fixture.web < length webs.now) fixtures.now }
    requires few { length fixtures.now ≤ MOST_LUMINAIRES }
    ensures value { result ≡ flux_on webs.now fixtures.now patch.now }
    ensures limited { result ≤ 256 * (4 * 10 ^ 28) }
{
    let mut flux = 0;
    for fixture in fixtures {
        flux += flux_from(&webs[fixture.web as usize], fixture, patch);
    }
    flux
}

// What a luminaire sends to a patch, in nanolumens.
#[tactic(auto, using(room_patches::proofs::Distances::squared_distance_comm), unfolding(crate::specs::DirectFlux::flux_from))]
fn flux_from(web: &Web, fixture: &Fixture, patch: &Patch) -> u128
    requires patch { IsPatch patch.now }
    requires placed { IsPlaced fixture.now }
    ensures value { result ≡ flux_from web.now fixture.now patch.now }
    ensures limited { result ≤ 4 * 10 ^ 28 }
{
    let place = fixture.place();
    let distance = u64::from(patch.in_front(place));
    if distance == 0 {
        return 0;
    }
    let squared = squared_distance(place, patch.centre);
    received_flux(
        beam(fixture, web, patch.centre),
        distance,
        squared,
        patch.area,
    )
}

// The flux that arrives with an intensity from a distance in front of a patch's plane, at a squared distance.
#[tactic(auto, using(crate::proofs::Bounds::received_flux_limited))]
fn received_flux(intensity: u64, distance: u64, squared: u64, area: u64) -> u128
    requires intensity { intensity ≤ 10 ^ 15 }
    requires in_front { 1 ≤ distance }
    requires near { distance ≤ 200000 }
    requires squared { distance * distance ≤ squared }
    requires limited { squared ≤ 120000000000 }
    requires area { area ≤ 10 ^ 10 }
    ensures value { result ≡ received_flux intensity distance squared area }
    ensures limited { result ≤ 4 * 10 ^ 28 }
{
    let sent = 4_000_000 * u128::from(intensity) * u128::from(distance) * u128::from(area);
    let root = isqrt(u128::from(squared * 1_000_000));
    sent / (u128::from(squared) * u128::from(root))
}
