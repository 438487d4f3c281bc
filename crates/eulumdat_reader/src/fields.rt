// The fields of a text, each on a line.
ghost use Rattle.std.specs.Prelude.{◌≡◌, ◌+◌, ◌*◌, ◌≤◌, ◌^◌, IfOk, OnOk};
ghost use Rattle.duties.specs.Duties.{Answers, unless};
ghost use Rattle.lux_lines.specs.Pieces.{line_piece};
ghost use Rattle.lux_num.specs.Scaled.{cut_value, is_limited};
ghost use Rattle.photo_numbers.specs.Numbers.{count_of, is_whole_within};
ghost use Rattle.eulumdat_reader.specs.declared.faults.LdtFault.TheVariants.{Memory};
ghost use Rattle.eulumdat_reader.specs.Rows.{all_lines, number_at, number_duty, field, any_rows, blank_row, only_blanks};

use crate::LdtFault;
use crate::rows::Rows;
use lux_lines::{Line, trim};
use lux_num::Decimal;
use photo_numbers::whole_within;

/// The next line as a number.
pub(crate) fn read_number(source: &mut Rows) -> Result<Decimal, LdtFault>
    ensures answer { Answers Memory (number_duty (all_lines source.old) (source.old.read + 1)) result }
    ensures value { IfOk result (λ number. number ≡ number_at (all_lines source.old) (source.old.read + 1)) }
    ensures same { OnOk result (source.new.text ≡ source.old.text) }
    ensures next { OnOk result (source.new.read ≡ source.old.read + 1) }
{
    let line = source.row()?;
    source.number_of(&line)
}

/// So many lines, whatever they say.
pub(crate) fn skip_rows(source: &mut Rows, count: u32) -> Result<(), LdtFault>
    ensures answer { Answers Memory (any_rows (all_lines source.old) (source.old.read + 1) count) result }
    ensures same { OnOk result (source.new.text ≡ source.old.text) }
    ensures next { OnOk result (source.new.read ≡ source.old.read + count) }
{
    for _i in 0..count {
        source.row()?;
    }
    Ok(())
}

/// The next line as a whole number from `low` to `high`.
#[tactic(auto, using(duties::proofs::Orders::steps), unfolding(crate::specs::Rows::field))]
pub(crate) fn read_whole(
    source: &mut Rows,
    low: u32,
    high: u32,
    fault: LdtFault,
) -> Result<u32, LdtFault>
    ensures answer { Answers Memory (field (all_lines source.old) (source.old.read + 1) (λ x. unless (is_whole_within low high x) fault)) result }
    ensures value { IfOk result (λ whole. whole ≡ count_of (number_at (all_lines source.old) (source.old.read + 1))) }
    ensures within { IfOk result (λ whole. (low ≤ whole) × (whole ≤ high)) }
    ensures same { OnOk result (source.new.text ≡ source.old.text) }
    ensures next { OnOk result (source.new.read ≡ source.old.read + 1) }
{
    let number = read_number(source)?;
    match whole_within(&number, low, high) {
        Some(whole) => Ok(whole),
        None => Err(fault),
    }
}

/// The next line as a number from 0 to `most`, times ten to the power `places`.
#[tactic(auto, using(duties::proofs::Orders::steps), unfolding(crate::specs::Rows::field))]
pub(crate) fn read_factor(
    source: &mut Rows,
    places: u8,
    most: u64,
    fault: LdtFault,
) -> Result<u128, LdtFault>
    requires { places ≤ 9 }
    ensures answer { Answers Memory (field (all_lines source.old) (source.old.read + 1) (λ x. unless (is_limited most x) fault)) result }
    ensures value { IfOk result (λ factor. factor ≡ cut_value (number_at (all_lines source.old) (source.old.read + 1)) places) }
    ensures bound { IfOk result (λ factor. factor ≤ most * 10 ^ places) }
    ensures same { OnOk result (source.new.text ≡ source.old.text) }
    ensures next { OnOk result (source.new.read ≡ source.old.read + 1) }
{
    let number = read_number(source)?;
    match number.cut_within(places, most) {
        Some(factor) => Ok(factor),
        None => Err(fault),
    }
}

/// That only blank lines are left.
pub(crate) fn read_end(mut source: Rows) -> Result<(), LdtFault>
    ensures { Answers Memory (only_blanks (all_lines source.entry) (source.entry.read + 1)) result }
{
    while let Some(line) = source.next() {
        pass_blank(&line)?;
    }
    Ok(())
}

// That a line is blank.
#[tactic(auto, using(duties::proofs::Orders::steps), unfolding(crate::specs::Rows::blank_row))]
fn pass_blank(line: &Line) -> Result<(), LdtFault>
    ensures { Answers Memory (blank_row (line_piece line.now)) result }
{
    if trim(line.text).is_empty() {
        Ok(())
    } else {
        Err(LdtFault::Trailing { line: line.number })
    }
}
