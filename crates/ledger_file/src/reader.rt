// The reader of a ledger text.
ghost use Rattle.std.specs.Prelude.{◌≡◌, ◌≢◌, ℕ, ◌+◌, ◌&&◌, ◌≤◌, ◌<◌, ◌^◌, Ok, Err, None, length, slice_index, nat_lt, IfOk, IfErr, IfSome, OnOk, bytes_eq, codes};
ghost use Rattle.duties.specs.Duties.{Answers, first, unless};
ghost use Rattle.flux_ledger.specs.Balance.{HasPatches};
ghost use Rattle.flux_ledger.specs.LedgerText.{ledger_text};
ghost use Rattle.lux_lines.specs.Lines.{line_text};
ghost use Rattle.lux_lines.specs.Words.{words};
ghost use Rattle.ledger_file.specs.declared.faults.LedgerFault.TheVariants.{Memory, Header};
ghost use Rattle.ledger_file.specs.Forms.{count_form, have_form, line_numbers, line_duty, form_duty};
ghost use Rattle.ledger_file.specs.LedgerFiles.{patch_count, win_count, part_count, head_duties, ledger_of, IsWritable};

use crate::forms::count_line;
use crate::lists::{read_intervals, read_patches};
use crate::{LedgerFault, LedgerFile};
use flux_ledger::{Amounts, Ledger};
use flux_system::MOST_PATCHES;
use lux_lines::Lines;
use std::alloc::Global;

// What the first four lines say.
#[derive(Clone, Copy)]
struct Head {
    patches: usize,
    wins: u64,
    parts: u32,
}

/// The ledger that a text says, and the intervals of its patches, where it has them. The first test that fails gives the
/// error; `Memory` may come in the place of any. The lists of the ledger, and the intervals, have one length, which is 1 to
/// `MOST_PATCHES`; whether the ledger balances isn't tested. Of the text that `flux_ledger::ledger_text` writes of a ledger of
/// so many patches it gives this ledger.
pub fn read_ledger(alloc: Global, text: &[u8]) -> Result<LedgerFile, LedgerFault>
    requires { length text.now < 2 ^ 31 }
    ensures ok { IfOk result (λ file. ledger_of text.now ≡ Ok file) }
    ensures fault { IfErr result (λ f. f ≢ Memory → ledger_of text.now ≡ Err f) }
    ensures lengths { IfOk result (λ file. HasPatches (length file.ledger.direct) file.ledger) }
    ensures intervals { IfOk result (λ file. IfSome file.intervals (λ ends. length ends ≡ length file.ledger.direct)) }
    ensures inverse { (l : Ledger) → IsWritable l → text.now ≡ ledger_text l → IfOk result (λ file. file ≡ record { ledger = l; intervals = None }) }
    ensures accepted { (l : Ledger) → IsWritable l → text.now ≡ ledger_text l → IfErr result (λ f. f ≡ Memory) }
{
    let mut source = Lines::new(text);
    let head = read_head(&mut source)?;
    let lists = read_patches(alloc, &mut source, head.patches)?;
    let intervals = read_intervals(alloc, &mut source, head.patches)?;
    let ledger = Ledger {
        direct: Amounts::from_vec(lists.direct),
        taken: Amounts::from_vec(lists.taken),
        residual: Amounts::from_vec(lists.residual),
        err: Amounts::from_vec(lists.err),
        parts: head.parts,
        wins: head.wins,
    };
    Ok(LedgerFile { ledger, intervals })
}

// What the first four lines say.
#[tactic(auto, using(duties::proofs::Orders::steps), unfolding(crate::specs::LedgerFiles::head_duties))]
fn read_head(source: &mut Lines) -> Result<Head, LedgerFault>
    requires { source.old.read ≡ 0 }
    ensures answer { Answers Memory (first (head_duties source.old.text)) result }
    ensures patches { IfOk result (λ head. head.patches ≡ patch_count source.old.text) }
    ensures some { IfOk result (λ head. 1 ≤ head.patches) }
    ensures few { IfOk result (λ head. head.patches ≤ 4096) }
    ensures wins { IfOk result (λ head. head.wins ≡ win_count source.old.text) }
    ensures parts { IfOk result (λ head. head.parts ≡ part_count source.old.text) }
    ensures same { OnOk result (source.new.text ≡ source.old.text) }
    ensures next { OnOk result (source.new.read ≡ 4) }
{
    read_header(source)?;
    let patches = read_count(source, b"patches")?;
    if patches < 1 || patches > MOST_PATCHES as u64 {
        return Err(LedgerFault::Size { n: patches });
    }
    let wins = read_count(source, b"wins")?;
    let parts = read_parts(source)?;
    Ok(Head {
        patches: patches as usize,
        wins,
        parts,
    })
}

#[tactic(auto, unfolding(duties::specs::Duties::unless))]
fn read_header(source: &mut Lines) -> Result<(), LedgerFault>
    ensures answer { Answers Memory (unless (bytes_eq (line_text source.old.text source.old.read) (codes "lux-ledger 1")) Header) result }
    ensures same { OnOk result (source.new.text ≡ source.old.text) }
    ensures next { OnOk result (source.new.read ≡ source.old.read + 1) }
{
    match source.next() {
        Some(line) if is_header(line.text) => Ok(()),
        _ => Err(LedgerFault::Header),
    }
}

fn is_header(line: &[u8]) -> bool
    ensures { result ≡ bytes_eq line.now (codes "lux-ledger 1") }
{
    line == b"lux-ledger 1".as_slice()
}

// The number of the next line, as a keyword and a numeral.
#[tactic(auto, unfolding(crate::specs::Forms::line_duty, crate::specs::Forms::line_numbers, duties::specs::Duties::unless))]
fn read_count(source: &mut Lines, keyword: &[u8]) -> Result<u64, LedgerFault>
    ensures answer { Answers Memory (form_duty (count_form keyword.now) source.old.text source.old.read) result }
    ensures value { IfOk result (λ number. number ≡ slice_index (line_numbers (count_form keyword.now) source.old.text source.old.read) 0) }
    ensures same { OnOk result (source.new.text ≡ source.old.text) }
    ensures next { OnOk result (source.new.read ≡ source.old.read + 1) }
{
    let Some(line) = source.next() else {
        return Err(LedgerFault::Short);
    };
    match count_line(line.text, keyword) {
        Some(number) => Ok(number),
        None => Err(LedgerFault::Number { line: line.number }),
    }
}

// The number of accounts on the next line, in 32 bits.
#[tactic(auto, unfolding(crate::specs::Forms::line_duty, crate::specs::Forms::line_numbers, duties::specs::Duties::unless))]
fn read_parts(source: &mut Lines) -> Result<u32, LedgerFault>
    ensures answer { Answers Memory (line_duty source.old.text source.old.read (have_form (count_form (codes "parts")) (words (line_text source.old.text source.old.read)) && nat_lt (slice_index (line_numbers (count_form (codes "parts")) source.old.text source.old.read) 0) (2 ^ 32))) result }
    ensures value { IfOk result (λ parts. parts ≡ slice_index (line_numbers (count_form (codes "parts")) source.old.text source.old.read) 0) }
    ensures same { OnOk result (source.new.text ≡ source.old.text) }
    ensures next { OnOk result (source.new.read ≡ source.old.read + 1) }
{
    let Some(line) = source.next() else {
        return Err(LedgerFault::Short);
    };
    match count_line(line.text, b"parts") {
        Some(number) if number <= u64::from(u32::MAX) => Ok(number as u32),
        _ => Err(LedgerFault::Number { line: line.number }),
    }
}
