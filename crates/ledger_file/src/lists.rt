// The lines of a text that come for each patch.
ghost use Rattle.std.specs.Prelude.{◌≡◌, ℕ, ◌+◌, ◌==◌, ◌&&◌, ◌∷◌, [], ◌≤◌, ◌<◌, true, length, map, slice_index, bytes_eq, codes, is_some, IfOk, IfSome, OnOk};
ghost use Rattle.std.specs.List.{range_with_len};
ghost use Rattle.std.specs.Option.{option_map};
ghost use Rattle.duties.specs.Duties.{Answers, first, each};
ghost use Rattle.lux_lines.specs.Lines.{lines, line_text};
ghost use Rattle.lux_lines.specs.Words.{words, word_at};
ghost use Rattle.ledger_file.specs.declared.faults.LedgerFault.TheVariants.{Memory};
ghost use Rattle.ledger_file.specs.Forms.{patch_form, interval_form, have_form, numbers_of, line_numbers, line_duty};
ghost use Rattle.ledger_file.specs.LedgerFiles.{patch_duty, patch_numbers, interval_duty, intervals_duty, end_duty, ends_in, intervals_in};

use crate::LedgerFault;
use crate::forms::{IntervalLine, PatchLine, interval_line, patch_line};
use lux_lines::{Line, Lines, Words};
use std::alloc::Global;

/// What the lines of the patches say, in nanolumens and fractions of them.
#[derive(Drop)]
pub struct Lists {
    pub direct: Vec<u64>,
    pub taken: Vec<u64>,
    pub residual: Vec<u64>,
    pub err: Vec<u64>,
}

// The numbers of the next line, as that of a patch.
#[tactic(auto, unfolding(crate::specs::Forms::line_duty, crate::specs::Forms::line_numbers, duties::specs::Duties::unless))]
fn read_patch(source: &mut Lines, patch: usize) -> Result<PatchLine, LedgerFault>
    ensures answer { Answers Memory (line_duty source.old.text source.old.read (have_form patch_form (words (line_text source.old.text source.old.read)) && (slice_index (line_numbers patch_form source.old.text source.old.read) 0 == patch))) result }
    ensures numbers { IfOk result (λ p. line_numbers patch_form source.old.text source.old.read ≡ p.patch ∷ p.direct ∷ p.taken ∷ p.residual ∷ p.err ∷ []) }
    ensures same { OnOk result (source.new.text ≡ source.old.text) }
    ensures next { OnOk result (source.new.read ≡ source.old.read + 1) }
{
    let Some(line) = source.next() else {
        return Err(LedgerFault::Short);
    };
    match patch_line(line.text) {
        Some(numbers) if numbers.patch == patch as u64 => Ok(numbers),
        _ => Err(LedgerFault::Number { line: line.number }),
    }
}

/// The lists of a ledger of so many patches, a line for each.
pub fn read_patches(alloc: Global, source: &mut Lines, count: usize) -> Result<Lists, LedgerFault>
    requires place { source.old.read ≡ 4 }
    requires few { count ≤ 4096 }
    ensures answer { Answers Memory (each count (patch_duty source.old.text)) result }
    ensures direct { IfOk result (λ lists. lists.direct.items ≡ patch_numbers source.old.text count 1) }
    ensures taken { IfOk result (λ lists. lists.taken.items ≡ patch_numbers source.old.text count 2) }
    ensures residual { IfOk result (λ lists. lists.residual.items ≡ patch_numbers source.old.text count 3) }
    ensures err { IfOk result (λ lists. lists.err.items ≡ patch_numbers source.old.text count 4) }
    ensures same { OnOk result (source.new.text ≡ source.old.text) }
    ensures next { OnOk result (source.new.read ≡ 4 + count) }
{
    let mut direct = Vec::with_capacity(alloc, count)?;
    let mut taken = Vec::with_capacity(alloc, count)?;
    let mut residual = Vec::with_capacity(alloc, count)?;
    let mut err = Vec::with_capacity(alloc, count)?;
    for patch in 0..count {
        let numbers = read_patch(source, patch)?;
        direct.push(numbers.direct)?;
        taken.push(numbers.taken)?;
        residual.push(numbers.residual)?;
        err.push(numbers.err)?;
    }
    Ok(Lists {
        direct,
        taken,
        residual,
        err,
    })
}

// Whether the first word of a line opens the intervals.
fn opens_intervals(line: &[u8]) -> bool
    ensures { result ≡ bytes_eq (word_at (words line.now) 0) (codes "interval") }
{
    match Words::new(line).next() {
        Some(word) => word == b"interval".as_slice(),
        None => false,
    }
}

// The ends that a line says, as the interval line of a patch.
fn ends_on(line: &[u8], patch: usize) -> Option<(u64, u64)>
    ensures exactly { is_some result ≡ (have_form interval_form (words line.now) && (slice_index (numbers_of interval_form (words line.now)) 0 == patch)) }
    ensures ends { IfSome result (λ ends. ends ≡ (slice_index (numbers_of interval_form (words line.now)) 1, slice_index (numbers_of interval_form (words line.now)) 2)) }
{
    match interval_line(line) {
        Some(
            IntervalLine {
                patch: found,
                low,
                high,
            },
        ) if found == patch as u64 => { Some((low, high)) }
        _ => None,
    }
}

// The ends that the next line says, as the interval line of a patch.
#[tactic(auto, unfolding(crate::specs::Forms::line_duty, crate::specs::Forms::line_numbers, duties::specs::Duties::unless))]
fn read_ends(source: &mut Lines, patch: usize) -> Result<(u64, u64), LedgerFault>
    ensures answer { Answers Memory (line_duty source.old.text source.old.read (have_form interval_form (words (line_text source.old.text source.old.read)) && (slice_index (line_numbers interval_form source.old.text source.old.read) 0 == patch))) result }
    ensures ends { IfOk result (λ ends. ends ≡ (slice_index (line_numbers interval_form source.old.text source.old.read) 1, slice_index (line_numbers interval_form source.old.text source.old.read) 2)) }
    ensures same { OnOk result (source.new.text ≡ source.old.text) }
    ensures next { OnOk result (source.new.read ≡ source.old.read + 1) }
{
    let Some(line) = source.next() else {
        return Err(LedgerFault::Short);
    };
    match ends_on(line.text, patch) {
        Some(ends) => Ok(ends),
        None => Err(LedgerFault::Number { line: line.number }),
    }
}

// The intervals of so many patches, of which the first stands on this line and the others on the next ones.
fn read_opened(
    alloc: Global,
    source: &mut Lines,
    opening: Line,
    count: usize,
) -> Result<Vec<(u64, u64)>, LedgerFault>
    requires some { 1 ≤ count }
    requires few { count ≤ 4096 }
    requires there { 4 + count < length (lines source.old.text) }
    requires text { opening.text.now ≡ line_text source.old.text (4 + count) }
    requires number { opening.number ≡ 5 + count }
    requires place { source.old.read ≡ 5 + count }
    ensures answer { Answers Memory (each count (interval_duty source.old.text count)) result }
    ensures ends { IfOk result (λ ends. ends.items ≡ map (ends_in source.old.text count) (range_with_len 0 count)) }
    ensures same { OnOk result (source.new.text ≡ source.old.text) }
    ensures next { OnOk result (source.new.read ≡ 4 + count + count) }
{
    let Some(ends) = ends_on(opening.text, 0) else {
        return Err(LedgerFault::Number {
            line: opening.number,
        });
    };
    let mut intervals = Vec::with_capacity(alloc, count)?;
    intervals.push(ends)?;
    for patch in 1..count {
        intervals.push(read_ends(source, patch)?)?;
    }
    Ok(intervals)
}

/// The intervals of so many patches, where the next line opens them, and the end of the text.
pub fn read_intervals(
    alloc: Global,
    source: &mut Lines,
    count: usize,
) -> Result<Option<Vec<(u64, u64)>>, LedgerFault>
    requires some { 1 ≤ count }
    requires few { count ≤ 4096 }
    requires place { source.old.read ≡ 4 + count }
    ensures answer { Answers Memory (first (intervals_duty source.old.text count ∷ end_duty source.old.text count ∷ [])) result }
    ensures intervals { IfOk result (λ intervals. option_map (λ ends. ends.items) intervals ≡ intervals_in source.old.text count) }
{
    let Some(line) = source.next() else {
        return Ok(None);
    };
    if !opens_intervals(line.text) {
        return Err(LedgerFault::Trailing { line: line.number });
    }
    let intervals = read_opened(alloc, source, line, count)?;
    match source.next() {
        None => Ok(Some(intervals)),
        Some(line) => Err(LedgerFault::Trailing { line: line.number }),
    }
}
