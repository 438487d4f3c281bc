// The tests that a room passes.
ghost use Rattle.std.specs.Prelude.{◌≡◌, ◌<◌, ◌≤◌, ◌^◌, IfSome, length, not};
ghost use Rattle.std.specs.List.{position};
ghost use Rattle.duties.specs.Duties.{first};
ghost use Rattle.room_patches.specs.Rooms.{plain_room};
ghost use Rattle.room_patches.specs.Patches.{patches};
ghost use Rattle.room_patches.specs.Validity.{has_size, has_counts, has_reflectances, spec_duties, region_duty, is_region, fits_on};

use crate::surface::{SURFACES, Surface};
use crate::{
    LEAST_LENGTH, MOST_LENGTH, MOST_PARTS, MOST_PATCHES, MOST_REFLECTANCE, Region, RoomFault,
    RoomSpec,
};

// Why some numbers are no room, if they aren't.
#[tactic(auto, using(duties::proofs::Orders::steps), unfolding(crate::specs::Validity::spec_duties))]
pub(crate) fn spec_fault(room: RoomSpec) -> Option<RoomFault>
    ensures { result ≡ first (spec_duties room) }
{
    if !has_size(room) {
        return Some(RoomFault::Size);
    }
    if !has_counts(room) {
        return Some(RoomFault::Counts);
    }
    let n = patch_count(room);
    if n > MOST_PATCHES as u32 {
        return Some(RoomFault::Patches { n });
    }
    if !has_reflectances(room) {
        return Some(RoomFault::Reflectance);
    }
    None
}

// Why some rectangles are no regions of a room, if they aren't.
#[tactic(auto, unfolding(crate::specs::Validity::region_duty))]
pub(crate) fn region_fault(room: RoomSpec, regions: &[Region]) -> Option<RoomFault>
    requires { length regions.now < 2 ^ 32 }
    ensures { result ≡ region_duty room regions.now }
{
    match first_unfit(room, regions) {
        Some(at) => Some(RoomFault::Region { at: at as u32 }),
        None => None,
    }
}

// The first rectangle that is no region of a room.
fn first_unfit(room: RoomSpec, regions: &[Region]) -> Option<usize>
    ensures value { result ≡ position (λ region. not (is_region room region)) regions.now }
    ensures inside { IfSome result (λ at. at < length regions.now) }
{
    regions.iter().position(|region| !is_region(room, region))
}

// Whether a rectangle lies on a surface of a room, and its reflectance is within its limit.
fn is_region(room: RoomSpec, region: &Region) -> bool
    ensures { result ≡ is_region room region.now }
{
    match SURFACES.get(region.surface as usize) {
        Some(surface) => {
            region.reflectance <= MOST_REFLECTANCE && fits_on(room, *surface, region)
        }
        None => false,
    }
}

// Whether a rectangle is not empty, and reaches no farther than a surface.
fn fits_on(room: RoomSpec, surface: Surface, region: &Region) -> bool
    ensures { result ≡ fits_on room surface region.now }
{
    region.u0 < region.u1
        && region.u1 <= surface.across(room).whole
        && region.v0 < region.v1
        && region.v1 <= surface.upward(room).whole
}

// Whether each length is within its limits.
fn has_size(room: RoomSpec) -> bool
    ensures { result ≡ has_size room }
{
    let limits = LEAST_LENGTH..=MOST_LENGTH;
    limits.contains(&room.width) && limits.contains(&room.depth) && limits.contains(&room.height)
}

// Whether each length is cut into enough and not too many parts.
fn has_counts(room: RoomSpec) -> bool
    ensures { result ≡ has_counts room }
{
    let limits = 1..=MOST_PARTS;
    limits.contains(&room.nx) && limits.contains(&room.ny) && limits.contains(&room.nz)
}

// Whether each reflectance is within its limit.
fn has_reflectances(room: RoomSpec) -> bool
    ensures { result ≡ has_reflectances room }
{
    room.floor <= MOST_REFLECTANCE
        && room.ceiling <= MOST_REFLECTANCE
        && room.walls.iter().all(|wall| *wall <= MOST_REFLECTANCE)
}

// How many patches a room has.
pub(crate) fn patch_count(room: RoomSpec) -> u32
    requires nx { room.nx ≤ 64 }
    requires ny { room.ny ≤ 64 }
    requires nz { room.nz ≤ 64 }
    ensures { result ≡ length (patches (plain_room room)) }
{
    2 * (room.nx * room.ny + room.ny * room.nz + room.nx * room.nz)
}
