// What the flux between two patches weighs.
ghost use Rattle.std.specs.Prelude.{◌≡◌, ◌≤◌, ◌*◌, ◌^◌, All, length};
ghost use Rattle.std.specs.List.{sum_by};
ghost use Rattle.room_patches.specs.Patches.{IsPatch};
ghost use Rattle.transfer_shares.specs.Shares.{weight};

use room_patches::{MOST_PATCHES, Patch, squared_distance};

/// What weights are counted in.
const SCALE: u128 = 1_000_000_000_000_000;

// What the flux from one patch to another weighs.
pub(crate) fn weight(from: &Patch, to: &Patch) -> u128
    requires from { IsPatch from.now }
    requires to { IsPatch to.now }
    ensures value { result ≡ weight from.now to.now }
    ensures most { result ≤ 10 ^ 25 }
{
    let there = u128::from(from.in_front(to.centre));
    let back = u128::from(to.in_front(from.centre));
    if there == 0 || back == 0 {
        return 0;
    }
    let square = u128::from(squared_distance(from.centre, to.centre));
    SCALE * there * back * u128::from(to.area) / (square * square)
}

// What the flux from one patch to all weighs together.
pub(crate) fn total_weight(from: &Patch, patches: &[Patch]) -> u128
    requires from { IsPatch from.now }
    requires patches { All IsPatch patches.now }
    requires few { length patches.now ≤ MOST_PATCHES }
    ensures total { result ≡ sum_by (weight from.now) patches.now }
    ensures most { result ≤ 4096 * 10 ^ 25 }
{
    let mut total = 0;
    for to in patches {
        total += weight(from, to);
    }
    total
}
