// The ways forth and back over stored planes that each symmetry takes.
ghost use Rattle.std.specs.Prelude.{◌≡◌, ◌==◌, ◌+◌, ◌<◌, ◌≤◌, IsTrue, OnOk, length, position, slice_index, vec_len};
ghost use Rattle.std.specs.List.{list_any};
ghost use Rattle.std.specs.List.Sorted.{IsStrictlyIncreasing};
ghost use Rattle.symmetry.specs.Images.{has_span};
ghost use Rattle.symmetry.specs.Growth.{IsGrown};

use crate::growing::{GrowingWeb, StoredPlanes};
use photo_web::{FULL_TURN, HALF_TURN, SymKind};
use std::alloc::AllocError;

// How many planes a web of some stored planes has at most.
pub(crate) fn most_planes(sym: SymKind, stored: usize) -> usize
    requires some { 1 ≤ stored }
    requires few { stored ≤ 361 }
    ensures { result ≤ 1441 }
{
    match sym {
        SymKind::Axis => 2,
        SymKind::Full => stored + 1,
        SymKind::Plane0 | SymKind::Plane90 => 2 * stored - 1,
        SymKind::Quadrant => 4 * stored - 3,
    }
}

// Appends all planes of the web in rising order. A mirror plane is appended once, on the way forth.
pub(crate) fn grow(
    sym: SymKind,
    stored: &StoredPlanes,
    grown: &mut GrowingWeb,
) -> Result<(), AllocError>
    requires some { 1 ≤ length stored.now.planes.now }
    requires few { length stored.now.planes.now ≤ 361 }
    requires rising { IsStrictlyIncreasing stored.now.planes.now }
    requires span { IsTrue (has_span sym stored.now.planes.now) }
    requires start { IsGrown 0 sym stored.now.planes.now stored.now.rows.now stored.now.width grown.old.planes.items grown.old.values.items }
    ensures all { OnOk result (IsGrown 360001 sym stored.now.planes.now stored.now.rows.now stored.now.width grown.new.planes.items grown.new.values.items) }
    ensures few { OnOk result (vec_len grown.new.planes ≤ vec_len grown.old.planes + 1441) }
{
    let count = stored.planes.len();
    match sym {
        SymKind::Axis => {
            grown.append(stored, 0, 0)?;
            grown.append(stored, 0, FULL_TURN)?;
            Ok(())
        }
        SymKind::Quadrant => {
            grown.rise(stored, 0, count, 0)?;
            grown.fall(stored, 0, count - 1, HALF_TURN)?;
            grown.rise(stored, 1, count, HALF_TURN)?;
            grown.fall(stored, 0, count - 1, FULL_TURN)?;
            Ok(())
        }
        SymKind::Plane0 => {
            grown.rise(stored, 0, count, 0)?;
            grown.fall(stored, 0, count - 1, FULL_TURN)?;
            Ok(())
        }
        SymKind::Plane90 => {
            let half = place_of_half(stored.planes);
            grown.fall(stored, 1, half + 1, HALF_TURN)?;
            grown.rise(stored, 0, count, 0)?;
            grown.fall(stored, half + 1, count - 1, FULL_TURN + HALF_TURN)?;
            grown.append(stored, half, FULL_TURN)?;
            Ok(())
        }
        SymKind::Full => {
            grown.rise(stored, 0, count, 0)?;
            if stored.planes[count - 1] == FULL_TURN {
                return Ok(());
            }
            grown.append(stored, 0, FULL_TURN)?;
            Ok(())
        }
    }
}

// The place of the plane at half a turn.
fn place_of_half(planes: &[u32]) -> usize
    requires { IsTrue (list_any (λ angle. angle == 180000) planes.now) }
    ensures inside { result < length planes.now }
    ensures half { slice_index planes.now result ≡ 180000 }
{
    half_among(planes).unwrap()
}

// The first place of half a turn among some planes.
fn half_among(planes: &[u32]) -> Option<usize>
    ensures { result ≡ position (λ angle. angle == 180000) planes.now }
{
    planes.iter().position(|angle| *angle == HALF_TURN)
}
