// The shares of a room in bands of rows, which threads make side by side.
ghost use Rattle.std.specs.Prelude.{◌≡◌, ℕ, ◌+◌, ◌-◌, ◌*◌, ◌/◌, ◌%◌, ◌<◌, ◌≤◌, ◌^◌, None, IfOk, All, length, map, sum, take, drop};
ghost use Rattle.std.specs.List.{flat_map};
ghost use Rattle.duties.specs.Duties.{first};
ghost use Rattle.room_patches.specs.Patches.{patches, IsPatch};
ghost use Rattle.flux_system.specs.Validity.{system_duties};
ghost use Rattle.transfer_shares.specs.Shapes.{IsBand};
ghost use Rattle.transfer_shares.specs.Shares.{weight, shares_of, all_shares, room_system};

use crate::memory::{Remembered, SLOTS};
use crate::quick_sharing::share_quickly;
use crate::quick_weighing::weigh_quickly;
use crate::rows::write_row;
use rayon::prelude::*;
use room_patches::{MOST_PATCHES, Patch, Room};
use std::alloc::{AllocError, Global};
use std::thread::Threads;

/// The rows of a large room are made in so many bands.
const BANDS: usize = 16;

/// A band has at least so many rows, since each begins with a memory of its own.
const LEAST_ROWS: usize = 32;

/// From so many patches on, threads save more than they cost.
const LEAST_SHARED: usize = 200;

/// The shares of all patches, a row for each. With them and with the [`reflectances`](crate::reflectances) of the room a
/// flux system of any threshold within the limits is accepted.
pub fn all_rows(
    rt: &(impl Threads + Sync),
    alloc: Global,
    room: &Room,
) -> Result<Vec<u32>, AllocError>
    ensures rows { IfOk result (λ shares. shares.items ≡ all_shares room.now) }
    ensures accepted { (threshold : ℕ) → 1 ≤ threshold → threshold ≤ 10 ^ 16 → first (system_duties (room_system room.now threshold)) ≡ None }
{
    let n = room.len();
    let patches = room.patches();
    let mut shares = vec![in alloc; 0; n * n]?;
    write_all(rt, alloc, room, &mut shares);
    Ok(shares)
}

// Writes the shares of all patches, in threads where there are many.
fn write_all(rt: &(impl Threads + Sync), alloc: Global, room: &Room, into: &mut [u32])
    requires { length into.old ≡ length (patches room.now) * length (patches room.now) }
    ensures { into.new ≡ all_shares room.now }
{
    let n = room.len();
    if n < LEAST_SHARED {
        write_band(alloc, room, 0, into);
        return;
    }
    let rows = n.div_ceil(BANDS).max(LEAST_ROWS);
    par_chunks_mut_for_each(
        rt,
        into,
        rows * n,
        |start: usize, band: &mut [u32]|
            requires { IsBand (length (patches room.now)) start (length band.now) }
            ensures { band.exit.now ≡ take (length band.entry.now) (drop start (all_shares room.entry.now)) }
        { write_band(alloc, room, start, band) },
    );
}

// Writes the rows that stand from place `start` on, as many as there is room for.
fn write_band(alloc: Global, room: &Room, start: usize, into: &mut [u32])
    requires { IsBand (length (patches room.now)) start (length into.old) }
    ensures { into.new ≡ take (length into.old) (drop start (all_shares room.now)) }
{
    let n = room.len();
    let first = start / n;
    let count = into.len() / n;
    let patches = room.patches();
    write_rows(alloc, &patches[first..first + count], patches, into);
}

// Writes a row for each patch of a band: quickly where there is memory for the weights of a row.
fn write_rows(alloc: Global, band: &[Patch], patches: &[Patch], into: &mut [u32])
    requires band { All IsPatch band.now }
    requires patches { All IsPatch patches.now }
    requires few { length patches.now ≤ MOST_PATCHES }
    requires places { length into.old ≡ length band.now * length patches.now }
    ensures { into.new ≡ flat_map (λ from. shares_of (map (weight from) patches.now)) band.now }
{
    match vec![in alloc; 0u128; patches.len()] {
        Ok(mut weights) => write_rows_quickly(&mut weights, band, patches, into),
        Err(_) => write_rows_plainly(band, patches, into),
    }
}

// Writes a row for each patch of a band, with what one memory remembers.
fn write_rows_quickly(weights: &mut [u128], band: &[Patch], patches: &[Patch], into: &mut [u32])
    requires weights { length weights.old ≡ length patches.now }
    requires band { All IsPatch band.now }
    requires patches { All IsPatch patches.now }
    requires few { length patches.now ≤ MOST_PATCHES }
    requires places { length into.old ≡ length band.now * length patches.now }
    ensures { into.new ≡ flat_map (λ from. shares_of (map (weight from) patches.now)) band.now }
{
    let mut memory = [Remembered::nothing(); SLOTS];
    let n = patches.len();
    for (i, from) in band.iter().enumerate() {
        let total = weigh_quickly(&mut memory, from, patches, weights);
        share_quickly(weights, total, &mut into[i * n..i * n + n]);
    }
}

// The same without memory of any kind.
fn write_rows_plainly(band: &[Patch], patches: &[Patch], into: &mut [u32])
    requires band { All IsPatch band.now }
    requires patches { All IsPatch patches.now }
    requires few { length patches.now ≤ MOST_PATCHES }
    requires places { length into.old ≡ length band.now * length patches.now }
    ensures { into.new ≡ flat_map (λ from. shares_of (map (weight from) patches.now)) band.now }
{
    let n = patches.len();
    for (i, from) in band.iter().enumerate() {
        write_row(from, patches, &mut into[i * n..i * n + n]);
    }
}
