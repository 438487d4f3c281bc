// What the flux between two patches weighs, by what is remembered.
ghost use Rattle.std.specs.Prelude.{◌≡◌, ◌≤◌, ◌*◌, ◌^◌, pos, negsuc, ◌≤ℤ◌, All, length, map, sum};
ghost use Rattle.room_patches.specs.Patches.{IsPatch, distance_before};
ghost use Rattle.room_patches.specs.Places.{squared_distance};
ghost use Rattle.transfer_shares.specs.Shares.{distance_ahead, weight};

use crate::memory::{Remembered, SLOTS, remembered_quotient};
use crate::weighing::weight;
use room_patches::{MOST_PATCHES, Patch, squared_distance};

// How far the centre of the second patch lies before the plane of the first: what `Patch::distance_of` gives, without a
// copy of the place.
#[tactic(auto, unfolding(room_patches::specs::Patches::distance_before))]
fn distance_before(from: &Patch, to: &Patch) -> i32
    requires from { IsPatch from.now }
    requires to { IsPatch to.now }
    ensures value { result ≡ distance_before from.now to.now.centre }
    ensures least { negsuc 199999 ≤ℤ result }
    ensures most { result ≤ℤ pos 200000 }
{
    let axis = usize::from(from.axis);
    if from.rising {
        to.centre[axis] - from.centre[axis]
    } else {
        from.centre[axis] - to.centre[axis]
    }
}

// How far the centre of the second patch lies in front of the first.
#[tactic(auto, using(room_patches::proofs::Distances::in_front_squared_le), unfolding(room_patches::specs::Patches::in_front))]
fn distance_ahead(from: &Patch, to: &Patch) -> u32
    requires from { IsPatch from.now }
    requires to { IsPatch to.now }
    ensures value { result ≡ distance_ahead from.now to.now }
    ensures most { result ≤ 200000 }
    ensures no_farther { result * result ≤ squared_distance from.now.centre to.now.centre }
{
    distance_before(from, to).max(0).unsigned_abs()
}

// What the flux from one patch to another weighs.
fn quick_weight(memory: &mut [Remembered], from: &Patch, to: &Patch) -> u128
    requires slots { length memory.old ≡ SLOTS }
    requires from { IsPatch from.now }
    requires to { IsPatch to.now }
    ensures value { result ≡ weight from.now to.now }
    ensures most { result ≤ 10 ^ 25 }
{
    let there = u64::from(distance_ahead(from, to));
    let back = u64::from(distance_ahead(to, from));
    if there == 0 || back == 0 {
        return 0;
    }
    match (there * back).checked_mul(to.area) {
        Some(top) => {
            let square = squared_distance(from.centre, to.centre);
            remembered_quotient(memory, top, square)
        }
        None => large_weight(from, to),
    }
}

// The same, where the product of the distances and the area is too large for the memory: kept out of the loop over the
// patches, which seldom comes here.
#[cold]
#[inline(never)]
fn large_weight(from: &Patch, to: &Patch) -> u128
    requires from { IsPatch from.now }
    requires to { IsPatch to.now }
    ensures value { result ≡ weight from.now to.now }
    ensures most { result ≤ 10 ^ 25 }
{
    weight(from, to)
}

// Writes the weights from one patch to all, and gives their sum.
pub(crate) fn weigh_quickly(
    memory: &mut [Remembered],
    from: &Patch,
    patches: &[Patch],
    into: &mut [u128],
) -> u128
    requires slots { length memory.old ≡ SLOTS }
    requires from { IsPatch from.now }
    requires patches { All IsPatch patches.now }
    requires few { length patches.now ≤ MOST_PATCHES }
    requires places { length into.old ≡ length patches.now }
    ensures weights { into.new ≡ map (weight from.now) patches.now }
    ensures total { result ≡ sum into.new }
    ensures most { result ≤ 4096 * 10 ^ 25 }
{
    let mut total = 0;
    for (i, to) in patches.iter().enumerate() {
        let weight = quick_weight(memory, from, to);
        into[i] = weight;
        total += weight;
    }
    total
}
