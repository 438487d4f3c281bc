// The tests that furniture passes.
ghost use Rattle.std.specs.Prelude.{◌≡◌, ◌≤◌, All, length};
ghost use Rattle.duties.specs.Duties.{first};
ghost use Rattle.boxes.specs.Boxes.{box_patches};
ghost use Rattle.boxes.specs.FurnishedRooms.{patches};
ghost use Rattle.boxes.specs.Validity.{has_bounds, has_counts, has_reflectance, box_duties, boxes_duties, IsBox};

use crate::{BoxFault, MOST_BOXES};
use room_patches::{BoxSpec, MOST_PARTS, MOST_REFLECTANCE, Room, RoomSpec};

// Why the first box that fails a test does so.
pub(crate) fn boxes_fault(room: RoomSpec, boxes: &[BoxSpec]) -> Option<BoxFault>
    requires { length boxes.now ≤ MOST_BOXES }
    ensures { result ≡ first (boxes_duties room 0 boxes.now) }
{
    for (at, spec) in boxes.iter().enumerate() {
        if let Some(fault) = box_fault(room, at as u32, *spec) {
            return Some(fault);
        }
    }
    None
}

// Why a box isn't furniture of a room, if it isn't.
#[tactic(auto, using(duties::proofs::Orders::steps), unfolding(crate::specs::Validity::box_duties))]
fn box_fault(room: RoomSpec, at: u32, spec: BoxSpec) -> Option<BoxFault>
    ensures { result ≡ first (box_duties room at spec) }
{
    if !has_bounds(room, spec) {
        return Some(BoxFault::Bounds { at });
    }
    if !has_counts(spec) {
        return Some(BoxFault::Counts { at });
    }
    if !has_reflectance(spec) {
        return Some(BoxFault::Reflectance { at });
    }
    None
}

// Whether along each axis a box is not empty and ends no farther than the room.
fn has_bounds(room: RoomSpec, spec: BoxSpec) -> bool
    ensures { result ≡ has_bounds room spec }
{
    spec.x0 < spec.x1
        && spec.x1 <= room.width
        && spec.y0 < spec.y1
        && spec.y1 <= room.depth
        && spec.z0 < spec.z1
        && spec.z1 <= room.height
}

// Whether each length is cut into enough and not too many parts.
fn has_counts(spec: BoxSpec) -> bool
    ensures { result ≡ has_counts spec }
{
    let limits = 1..=MOST_PARTS;
    limits.contains(&spec.nx) && limits.contains(&spec.ny) && limits.contains(&spec.nz)
}

// Whether the reflectance is within its limit.
fn has_reflectance(spec: BoxSpec) -> bool
    ensures { result ≡ has_reflectance spec }
{
    spec.reflectance <= MOST_REFLECTANCE
}

// How many patches a room and its boxes have.
pub(crate) fn patch_count(room: &Room, boxes: &[BoxSpec]) -> u32
    requires few { length boxes.now ≤ MOST_BOXES }
    requires valid { All (IsBox room.now.spec) boxes.now }
    ensures value { result ≡ length (patches (record { room = room.now; boxes = boxes.now })) }
    ensures some { 1 ≤ result }
{
    let mut n = room.len() as u32;
    for spec in boxes {
        n += box_patch_count(*spec);
    }
    n
}

// How many patches a box has.
#[tactic(auto, using(crate::proofs::Counts::few_patches))]
fn box_patch_count(spec: BoxSpec) -> u32
    requires nx { spec.nx ≤ 64 }
    requires ny { spec.ny ≤ 64 }
    requires nz { spec.nz ≤ 64 }
    ensures value { result ≡ length (box_patches spec) }
    ensures few { result ≤ 24576 }
{
    2 * (spec.nx * spec.ny + spec.ny * spec.nz + spec.nx * spec.nz)
}
