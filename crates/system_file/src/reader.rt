// The reader of a system text.
ghost use Rattle.std.specs.Prelude.{◌≡◌, ◌≢◌, ℕ, ◌+◌, ◌≤◌, ◌<◌, ◌^◌, Ok, Err, length, map, slice_index, nat_le, IfOk, IfErr, OnOk, bytes_eq, codes};
ghost use Rattle.std.specs.List.{range_with_len, flat_map};
ghost use Rattle.duties.specs.Duties.{Answers, first, each, unless};
ghost use Rattle.flux_system.specs.System.{patches};
ghost use Rattle.lux_lines.specs.Lines.{lines, line_text};
ghost use Rattle.system_file.specs.declared.faults.SysFault.TheVariants.{Memory, Header, Trailing};
ghost use Rattle.system_file.specs.Rows.{numbers, line_duty};
ghost use Rattle.system_file.specs.SystemText.{patch_count, head_duties, list_duties, shares_in, system_of};
ghost use Rattle.system_file.specs.Shapes.{narrow_number};

use crate::rows::{append_row, read_number, read_row};
use crate::{MOST_LISTED_PATCHES, SysFault};
use flux_system::System;
use lux_lines::Lines;
use std::alloc::Global;

// What the lines behind the head say, reflectances and shares in 32 bits.
#[derive(Drop)]
struct Lists {
    direct: Vec<u64>,
    reflectance: Vec<u32>,
    shares: Vec<u32>,
}

/// The flux system and the direct flux (nanolumens for each patch) that a text says. The first test that fails gives
/// the error; `Memory` may come in the place of any.
pub fn read_system(alloc: Global, text: &[u8]) -> Result<(System, Vec<u64>), SysFault>
    requires { length text.now < 2 ^ 31 }
    ensures ok { IfOk result (λ r. system_of text.now ≡ Ok (r.0, r.1.items)) }
    ensures fault { IfErr result (λ f. f ≢ Memory → system_of text.now ≡ Err f) }
    ensures direct { IfOk result (λ r. length r.1.items ≡ patches r.0) }
{
    let mut source = Lines::new(text);
    let mut row = Vec::new(alloc);
    let (count, threshold) = read_head(&mut source, &mut row)?;
    let lists = read_lists(alloc, &mut source, count, &mut row)?;
    let system = System::from_vecs(alloc, lists.reflectance, lists.shares, threshold)?;
    Ok((system, lists.direct))
}

// The number of patches and the threshold that the first three lines say.
#[tactic(auto, using(duties::proofs::Orders::steps), unfolding(crate::specs::SystemText::head_duties))]
fn read_head(source: &mut Lines, row: &mut Vec<u64>) -> Result<(usize, u64), SysFault>
    requires { source.old.read ≡ 0 }
    ensures answer { Answers Memory (first (head_duties source.old.text)) result }
    ensures count { IfOk result (λ r. r.0 ≡ patch_count source.old.text) }
    ensures few { IfOk result (λ r. r.0 ≤ 1024) }
    ensures threshold { IfOk result (λ r. r.1 ≡ slice_index (numbers (line_text source.old.text 2)) 0) }
    ensures same { OnOk result (source.new.text ≡ source.old.text) }
    ensures next { OnOk result (source.new.read ≡ 3) }
{
    read_header(source)?;
    let count = read_number(source, b"patches", row)?;
    if count < 1 || count > MOST_LISTED_PATCHES as u64 {
        return Err(SysFault::Size { n: count });
    }
    let threshold = read_number(source, b"threshold", row)?;
    Ok((count as usize, threshold))
}

#[tactic(auto, unfolding(duties::specs::Duties::unless))]
fn read_header(source: &mut Lines) -> Result<(), SysFault>
    ensures answer { Answers Memory (unless (bytes_eq (line_text source.old.text source.old.read) (codes "lux-system 1")) Header) result }
    ensures same { OnOk result (source.new.text ≡ source.old.text) }
    ensures next { OnOk result (source.new.read ≡ source.old.read + 1) }
{
    match source.next() {
        Some(line) if is_header(line.text) => Ok(()),
        _ => Err(SysFault::Header),
    }
}

fn is_header(line: &[u8]) -> bool
    ensures { result ≡ bytes_eq line.now (codes "lux-system 1") }
{
    line == b"lux-system 1".as_slice()
}

// What the lines behind the head say, for so many patches.
#[tactic(auto, using(duties::proofs::Orders::steps), unfolding(crate::specs::SystemText::list_duties))]
fn read_lists(
    alloc: Global,
    source: &mut Lines,
    count: usize,
    row: &mut Vec<u64>,
) -> Result<Lists, SysFault>
    requires place { source.old.read ≡ 3 }
    requires few { count ≤ 1024 }
    ensures answer { Answers Memory (first (list_duties source.old.text count)) result }
    ensures direct { IfOk result (λ lists. lists.direct.items ≡ numbers (line_text source.old.text 3)) }
    ensures reflectance { IfOk result (λ lists. lists.reflectance.items ≡ map narrow_number (numbers (line_text source.old.text 4))) }
    ensures shares { IfOk result (λ lists. lists.shares.items ≡ map narrow_number (shares_in source.old.text count)) }
    ensures lengths { IfOk result (λ lists. length lists.direct.items ≡ length lists.reflectance.items) }
{
    let direct = read_direct(alloc, source, count)?;
    let reflectance = read_reflectance(alloc, source, count, row)?;
    let shares = read_shares(alloc, source, count, row)?;
    read_end(source, count)?;
    Ok(Lists {
        direct,
        reflectance,
        shares,
    })
}

fn read_direct(alloc: Global, source: &mut Lines, count: usize) -> Result<Vec<u64>, SysFault>
    ensures answer { Answers Memory (line_duty source.old.text source.old.read (codes "direct") count) result }
    ensures value { IfOk result (λ direct. direct.items ≡ numbers (line_text source.old.text source.old.read)) }
    ensures len { IfOk result (λ direct. length direct.items ≡ count) }
    ensures same { OnOk result (source.new.text ≡ source.old.text) }
    ensures next { OnOk result (source.new.read ≡ source.old.read + 1) }
{
    let mut direct = Vec::with_capacity(alloc, count)?;
    read_row(source, b"direct", count, &mut direct)?;
    Ok(direct)
}

fn read_reflectance(
    alloc: Global,
    source: &mut Lines,
    count: usize,
    row: &mut Vec<u64>,
) -> Result<Vec<u32>, SysFault>
    ensures answer { Answers Memory (line_duty source.old.text source.old.read (codes "reflectance") count) result }
    ensures value { IfOk result (λ reflectance. reflectance.items ≡ map narrow_number (numbers (line_text source.old.text source.old.read))) }
    ensures len { IfOk result (λ reflectance. length reflectance.items ≡ count) }
    ensures same { OnOk result (source.new.text ≡ source.old.text) }
    ensures next { OnOk result (source.new.read ≡ source.old.read + 1) }
{
    let mut reflectance = Vec::with_capacity(alloc, count)?;
    append_row(source, b"reflectance", count, row, &mut reflectance)?;
    Ok(reflectance)
}

fn read_shares(
    alloc: Global,
    source: &mut Lines,
    count: usize,
    row: &mut Vec<u64>,
) -> Result<Vec<u32>, SysFault>
    requires place { source.old.read ≡ 5 }
    requires few { count ≤ 1024 }
    ensures answer { Answers Memory (each count (λ i. line_duty source.old.text (5 + i) (codes "shares") count)) result }
    ensures value { IfOk result (λ shares. shares.items ≡ map narrow_number (shares_in source.old.text count)) }
    ensures same { OnOk result (source.new.text ≡ source.old.text) }
    ensures next { OnOk result (source.new.read ≡ 5 + count) }
{
    let mut shares = Vec::with_capacity(alloc, count * count)?;
    for _i in 0..count {
        append_row(source, b"shares", count, row, &mut shares)?;
    }
    Ok(shares)
}

// That no line stands behind the last.
#[tactic(auto, using(std::proofs::lemmas::Bool::Decides::nat_tests), unfolding(duties::specs::Duties::unless))]
fn read_end(source: &mut Lines, count: usize) -> Result<(), SysFault>
    requires { source.old.read ≡ 5 + count }
    ensures { Answers Memory (unless (nat_le (length (lines source.old.text)) (5 + count)) (Trailing (6 + count))) result }
{
    match source.next() {
        None => Ok(()),
        Some(line) => Err(SysFault::Trailing { line: line.number }),
    }
}
