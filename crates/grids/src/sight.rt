// Points and the patches that they see.
ghost use Rattle.std.specs.Prelude.{◌≡◌, ◌*◌, ◌≤◌, All};
ghost use Rattle.std.specs.List.{position};
ghost use Rattle.room_patches.specs.Places.{IsPlace, squared_distance};
ghost use Rattle.room_patches.specs.Patches.{IsPatch};
ghost use Rattle.grids.specs.GridPoint.{height_over, is_seen};
ghost use Rattle.grids.specs.Validity.{is_too_near};

use crate::LEAST_SQUARE;
use room_patches::{Patch, squared_distance};

// How high a place lies over a level surface at a point, in half-millimetres: 0 beside it and below.
#[tactic(auto, using(std::proofs::lemmas::Int::ints), unfolding(room_patches::specs::Patches::in_front, room_patches::specs::Patches::distance_before))]
pub(crate) fn height_over(point: [i32; 3], place: [i32; 3]) -> u32
    requires point { IsPlace point }
    requires place { IsPlace place }
    ensures value { result ≡ height_over point place }
    ensures most { result ≤ 200000 }
    ensures no_farther { result * result ≤ squared_distance point place }
{
    (place[2] - point[2]).max(0).unsigned_abs()
}

// Whether the point lies in front of the patch, and the patch's middle over the point.
fn is_seen(patch: &Patch, point: [i32; 3]) -> bool
    requires patch { IsPatch patch.now }
    requires point { IsPlace point }
    ensures { result ≡ is_seen patch.now point }
{
    0 < patch.in_front(point) && 0 < height_over(point, patch.centre)
}

// Whether a point sees the patch, and it is less than 200 half-millimetres away. Almost no patch is that near, so the
// distance is tested first; and the point is lent, since to copy it for each patch took longer than the test.
fn is_too_near(point: &[i32; 3], patch: &Patch) -> bool
    requires patch { IsPatch patch.now }
    requires point { IsPlace point.now }
    ensures { result ≡ is_too_near point.now patch.now }
{
    squared_distance(patch.centre, *point) < LEAST_SQUARE && is_seen(patch, *point)
}

// The first patch that is too near to a point.
pub(crate) fn first_too_near(point: [i32; 3], patches: &[Patch]) -> Option<usize>
    requires point { IsPlace point }
    requires patches { All IsPatch patches.now }
    ensures { result ≡ position (is_too_near point) patches.now }
{
    patches.iter().position(|patch| is_too_near(&point, patch))
}
