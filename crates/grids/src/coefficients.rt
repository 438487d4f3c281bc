// What a point gets of the light that leaves a patch.
ghost use Rattle.std.specs.Prelude.{◌≡◌, ◌*◌, ◌≤◌, ◌^◌, false};
ghost use Rattle.room_patches.specs.Places.{IsPlace};
ghost use Rattle.room_patches.specs.Patches.{IsPatch};
ghost use Rattle.grids.specs.GridPoint.{coefficient};
ghost use Rattle.grids.specs.Validity.{is_too_near};

use crate::quotient::scaled_quotient;
use crate::sight::height_over;
use room_patches::{Patch, squared_distance};

// The illuminance at a point for each lumen that leaves a patch, in parts of 10^12 of a lux.
pub(crate) fn coefficient(patch: &Patch, point: [i32; 3]) -> u64
    requires patch { IsPatch patch.now }
    requires point { IsPlace point }
    requires apart { is_too_near point patch.now ≡ false }
    ensures value { result ≡ coefficient patch.now point }
    ensures most { result ≤ 318309886 * 10 ^ 5 }
{
    let there = u64::from(patch.in_front(point));
    let back = u64::from(height_over(point, patch.centre));
    if there == 0 || back == 0 {
        return 0;
    }
    scaled_quotient(there * back, squared_distance(patch.centre, point))
}
