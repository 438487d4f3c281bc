// The rows and the columns of some shares, without zeros.
ghost use Rattle.std.specs.Prelude.{◌≡◌, ◌+◌, ◌-◌, ◌*◌, ◌<◌, ◌≤◌, ◌++◌, [], IfOk, OnOk, length, slice_index, slice_index_or, map};
ghost use Rattle.std.specs.List.{range_with_len};
ghost use Rattle.std.specs.Thread.{IsSync};
ghost use Rattle.flux_system.specs.Entries.{entry_of, entries_below, row_entries, column_entries};
ghost use Rattle.flux_system.specs.Shapes.{system_without_threshold, list_of};

use crate::MOST_PATCHES;
use crate::entries::{Entries, Entry};
use crate::kept::row_at;
use rayon::join;
use std::alloc::{AllocError, Global};
use std::thread::Threads;

// What a list has the entries of: what leaves a patch, or what falls on it.
#[derive(Clone, Copy)]
pub(crate) enum Side {
    Rows,
    Columns,
}

// So many rows or columns of shares, from that of one patch on, in threads: twice as many for each depth.
#[cycle(halves)]
pub(crate) fn lists_in_threads<R: Threads + Sync>(
    rt: &R,
    alloc: Global,
    side: Side,
    reflectance: &[u32],
    shares: &[u32],
    first: usize,
    many: usize,
    depth: u32,
) -> Result<Vec<Entries>, AllocError>
    requires few { length reflectance.now ≤ MOST_PATCHES }
    requires square { length shares.now ≡ length reflectance.now * length reflectance.now }
    requires inside { first + many ≤ length reflectance.now }
    ensures { IfOk result (λ lists. lists.items ≡ map (list_of side (system_without_threshold reflectance.now shares.now)) (range_with_len first many)) }
{
    if depth == 0 {
        return lists_from(alloc, side, reflectance, shares, first, many);
    }
    let half = many / 2;
    let (low, high) = join(
        rt,
        || -> Result<Vec<Entries>, AllocError>
            requires { IsSync R.row × (0 < depth) × (length reflectance.now ≤ MOST_PATCHES) × (length shares.now ≡ length reflectance.now * length reflectance.now) × (first + half ≤ length reflectance.now) }
            ensures { IfOk result (λ lists. lists.items ≡ map (list_of side (system_without_threshold reflectance.entry.now shares.entry.now)) (range_with_len first half)) }
        { lists_in_threads(rt, alloc, side, reflectance, shares, first, half, depth - 1) },
        || -> Result<Vec<Entries>, AllocError>
            requires { IsSync R.row × (0 < depth) × (length reflectance.now ≤ MOST_PATCHES) × (length shares.now ≡ length reflectance.now * length reflectance.now) × (half ≤ many) × (first + many ≤ length reflectance.now) }
            ensures { IfOk result (λ lists. lists.items ≡ map (list_of side (system_without_threshold reflectance.entry.now shares.entry.now)) (range_with_len (first + half) (many - half))) }
        {
            lists_in_threads(
                rt,
                alloc,
                side,
                reflectance,
                shares,
                first + half,
                many - half,
                depth - 1,
            )
        },
    );
    let mut lists = low?;
    lists.append(&mut high?)?;
    Ok(lists)
}

// The same on this thread.
pub(crate) fn lists_from(
    alloc: Global,
    side: Side,
    reflectance: &[u32],
    shares: &[u32],
    first: usize,
    many: usize,
) -> Result<Vec<Entries>, AllocError>
    requires few { length reflectance.now ≤ MOST_PATCHES }
    requires square { length shares.now ≡ length reflectance.now * length reflectance.now }
    requires inside { first + many ≤ length reflectance.now }
    ensures { IfOk result (λ lists. lists.items ≡ map (list_of side (system_without_threshold reflectance.now shares.now)) (range_with_len first many)) }
{
    match side {
        Side::Rows => rows_from(alloc, reflectance, shares, first, many),
        Side::Columns => columns_from(alloc, reflectance, shares, first, many),
    }
}

// So many rows, from that of one patch on.
fn rows_from(
    alloc: Global,
    reflectance: &[u32],
    shares: &[u32],
    first: usize,
    many: usize,
) -> Result<Vec<Entries>, AllocError>
    requires few { length reflectance.now ≤ MOST_PATCHES }
    requires square { length shares.now ≡ length reflectance.now * length reflectance.now }
    requires inside { first + many ≤ length reflectance.now }
    ensures { IfOk result (λ rows. rows.items ≡ map (row_entries (system_without_threshold reflectance.now shares.now)) (range_with_len first many)) }
{
    let n = reflectance.len();
    let mut rows = Vec::with_capacity(alloc, many)?;
    for k in 0..many {
        rows.push(entries_of(alloc, row_at(shares, n, first + k))?)?;
    }
    Ok(rows)
}

// The entries of one row.
fn entries_of(alloc: Global, row: &[u32]) -> Result<Entries, AllocError>
    requires { length row.now ≤ MOST_PATCHES }
    ensures { IfOk result (λ entries. entries ≡ entries_below (length row.now) (slice_index row.now)) }
{
    let count = row.iter().filter(|share| **share > 0).count();
    let mut entries = Entries::with_capacity(alloc, count)?;
    for (patch, share) in row.iter().enumerate() {
        if *share > 0 {
            entries.push(Entry {
                patch: patch as u32,
                share: *share,
            })?;
        }
    }
    Ok(entries)
}

/// Columns are made in groups of so many, whose shares of one row lie side by side in memory: a pass over all columns for
/// each row would wait for memory at each share.
const GROUP: usize = 16;

// So many columns, from that of one patch on.
fn columns_from(
    alloc: Global,
    reflectance: &[u32],
    shares: &[u32],
    first: usize,
    many: usize,
) -> Result<Vec<Entries>, AllocError>
    requires few { length reflectance.now ≤ MOST_PATCHES }
    requires square { length shares.now ≡ length reflectance.now * length reflectance.now }
    requires inside { first + many ≤ length reflectance.now }
    ensures { IfOk result (λ columns. columns.items ≡ map (column_entries (system_without_threshold reflectance.now shares.now)) (range_with_len first many)) }
{
    let n = reflectance.len();
    let mut columns = Vec::with_capacity(alloc, many)?;
    let mut done = 0;
    while done < many {
        let more = GROUP.min(many - done);
        let mut group = group_from(alloc, shares, n, first + done, more)?;
        columns.append(&mut group)?;
        done += more;
    }
    Ok(columns)
}

// The columns of a group.
fn group_from(
    alloc: Global,
    shares: &[u32],
    n: usize,
    first: usize,
    many: usize,
) -> Result<Vec<Entries>, AllocError>
    requires few { n ≤ MOST_PATCHES }
    requires square { length shares.now ≡ n * n }
    requires inside { first + many ≤ n }
    ensures { IfOk result (λ columns. columns.items ≡ map (λ j. entries_below n (λ i. slice_index shares.now (i * n + (first + j)))) (range_with_len 0 many)) }
{
    let counts = counts_from(alloc, shares, n, first, many)?;
    let mut columns = empty_columns(alloc, &counts)?;
    for i in 0..n {
        let row = part_of_row(shares, n, i, first, many);
        add_row(i as u32, row, columns.as_mut_slice())?;
    }
    Ok(columns)
}

// The shares of row i for some patches, from one on.
fn part_of_row(shares: &[u32], n: usize, i: usize, first: usize, many: usize) -> &[u32]
    requires few { n ≤ MOST_PATCHES }
    requires square { length shares.now ≡ n * n }
    requires row { i < n }
    requires inside { first + many ≤ n }
    ensures value { result.now ≡ map (λ j. slice_index shares.now (i * n + first + j)) (range_with_len 0 many) }
    ensures length { length result.now ≡ many }
{
    &shares[i * n + first..i * n + first + many]
}

// How many entries each of some columns will have, from that of one patch on, so that none has to grow.
fn counts_from(
    alloc: Global,
    shares: &[u32],
    n: usize,
    first: usize,
    many: usize,
) -> Result<Vec<usize>, AllocError>
    requires few { n ≤ MOST_PATCHES }
    requires square { length shares.now ≡ n * n }
    requires inside { first + many ≤ n }
    ensures { IfOk result (λ counts. length counts.items ≡ many) }
{
    let mut counts = vec![in alloc; 0usize; many]?;
    for i in 0..n {
        count_row(part_of_row(shares, n, i, first, many), &mut counts);
    }
    Ok(counts)
}

// Adds the shares of a row that aren't 0 to the counts of their columns.
fn count_row(row: &[u32], counts: &mut [usize])
    requires { length counts.old ≡ length row.now }
    ensures { length counts.new ≡ length counts.old }
{
    for (j, share) in row.iter().enumerate() {
        if *share > 0 {
            counts[j] = counts[j].saturating_add(1);
        }
    }
}

// Columns without entries, each with room for as many as its count says.
fn empty_columns(alloc: Global, counts: &[usize]) -> Result<Vec<Entries>, AllocError>
    ensures { IfOk result (λ columns. columns.items ≡ map (λ _. []) (range_with_len 0 (length counts.now))) }
{
    let mut columns = Vec::with_capacity(alloc, counts.len())?;
    for count in counts {
        columns.push(Entries::with_capacity(alloc, *count)?)?;
    }
    Ok(columns)
}

// Appends the shares of one patch's flux to the columns of the patches that it falls on.
fn add_row(patch: u32, row: &[u32], columns: &mut [Entries]) -> Result<(), AllocError>
    requires { length columns.old ≡ length row.now }
    ensures { OnOk result (columns.new ≡ map (λ j. slice_index_or columns.old j [] ++ entry_of patch (slice_index row.now j)) (range_with_len 0 (length row.now))) }
{
    for (j, share) in row.iter().enumerate() {
        if *share > 0 {
            columns[j].push(Entry {
                patch,
                share: *share,
            })?;
        }
    }
    Ok(())
}
