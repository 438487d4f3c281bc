// One row of the shares of a room, by the formulas of the definition.
ghost use Rattle.std.specs.Prelude.{◌≡◌, ◌-◌, ◌<◌, ◌≤◌, ◌^◌, IfOk, All, length, map, sum};
ghost use Rattle.room_patches.specs.Patches.{patches, IsPatch};
ghost use Rattle.transfer_shares.specs.Shares.{weight, shares_of, room_share_row, reflectances_of};

use crate::sharing::weight_share;
use crate::weighing::{total_weight, weight};
use room_patches::{MOST_PATCHES, Patch, Room};
use std::alloc::{AllocError, Global};

/// Writes the shares of the flux from patch `i` that fall on each patch, in parts of 10^9. [`all_rows`](crate::all_rows)
/// has faster ways, where many rows are wanted.
pub fn shares_row(room: &Room, i: usize, into: &mut [u32])
    requires row { i < length (patches room.now) }
    requires places { length into.old ≡ length (patches room.now) }
    ensures row { into.new ≡ room_share_row room.now i }
    ensures total { sum into.new ≤ 10 ^ 9 - 1 }
{
    prove_eq!(into.len(), room.len());
    let patches = room.patches();
    write_row(&patches[i], patches, into);
}

/// The reflectance of each patch in per mille.
#[tactic(auto, unfolding(crate::specs::Shares::reflectances_of))]
pub fn reflectances(alloc: Global, room: &Room) -> Result<Vec<u32>, AllocError>
    ensures { IfOk result (λ all. all.items ≡ reflectances_of room.now) }
{
    room.patches()
        .iter()
        .map(|patch| patch.reflectance)
        .collect(alloc)
}

// Writes the shares of the flux from one patch that fall on each of some patches. Each weight is found twice, so that none
// has to be kept.
pub(crate) fn write_row(from: &Patch, patches: &[Patch], into: &mut [u32])
    requires from { IsPatch from.now }
    requires patches { All IsPatch patches.now }
    requires few { length patches.now ≤ MOST_PATCHES }
    requires places { length into.old ≡ length patches.now }
    ensures shares { into.new ≡ shares_of (map (weight from.now) patches.now) }
    ensures total { sum into.new ≤ 10 ^ 9 - 1 }
{
    let total = total_weight(from, patches);
    for (i, to) in patches.iter().enumerate() {
        into[i] = weight_share(total, weight(from, to));
    }
}
