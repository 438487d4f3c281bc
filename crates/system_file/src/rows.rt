// Rows: a keyword and some numerals on one line.
ghost use Rattle.std.specs.Prelude.{◌≡◌, ℕ, ◌+◌, ◌==◌, ◌&&◌, ◌++◌, true, false, length, map, slice_index, bytes_eq, IfOk, IfErr, OnOk, MatchOption};
ghost use Rattle.std.specs.List.{list_all};
ghost use Rattle.duties.specs.Duties.{Answers};
ghost use Rattle.lux_lines.specs.Lines.{line_text};
ghost use Rattle.lux_lines.specs.Words.{words};
ghost use Rattle.lux_lines.specs.Numerals.{is_numeral, numeral_value};
ghost use Rattle.system_file.specs.declared.faults.SysFault.TheVariants.{Memory};
ghost use Rattle.system_file.specs.Rows.{is_row, numbers, line_duty};
ghost use Rattle.system_file.specs.Shapes.{narrow_number};

use crate::SysFault;
use lux_lines::{Lines, Words, numeral};

/// The next line, as a keyword and so many numerals, whose numbers then stand in `row`.
#[tactic(auto, unfolding(crate::specs::Rows::line_duty, duties::specs::Duties::unless))]
pub fn read_row(
    source: &mut Lines,
    keyword: &[u8],
    count: usize,
    row: &mut Vec<u64>,
) -> Result<(), SysFault>
    ensures answer { Answers Memory (line_duty source.old.text source.old.read keyword.now count) result }
    ensures value { OnOk result (row.new.items ≡ numbers (line_text source.old.text source.old.read)) }
    ensures len { OnOk result (length row.new.items ≡ count) }
    ensures same { OnOk result (source.new.text ≡ source.old.text) }
    ensures next { OnOk result (source.new.read ≡ source.old.read + 1) }
{
    let Some(line) = source.next() else {
        return Err(SysFault::Short);
    };
    if read_numbers(line.text, keyword, count, row)? {
        Ok(())
    } else {
        Err(SysFault::Number { line: line.number })
    }
}

/// The next line, as a keyword and one numeral.
pub fn read_number(source: &mut Lines, keyword: &[u8], row: &mut Vec<u64>) -> Result<u64, SysFault>
    ensures answer { Answers Memory (line_duty source.old.text source.old.read keyword.now 1) result }
    ensures value { IfOk result (λ number. number ≡ slice_index (numbers (line_text source.old.text source.old.read)) 0) }
    ensures same { OnOk result (source.new.text ≡ source.old.text) }
    ensures next { OnOk result (source.new.read ≡ source.old.read + 1) }
{
    read_row(source, keyword, 1, row)?;
    Ok(row[0])
}

/// The next line, as a keyword and so many numerals, whose numbers are appended in 32 bits.
pub fn append_row(
    source: &mut Lines,
    keyword: &[u8],
    count: usize,
    row: &mut Vec<u64>,
    into: &mut Vec<u32>,
) -> Result<(), SysFault>
    ensures answer { Answers Memory (line_duty source.old.text source.old.read keyword.now count) result }
    ensures value { OnOk result (into.new.items ≡ into.old.items ++ map narrow_number (numbers (line_text source.old.text source.old.read))) }
    ensures len { OnOk result (length into.new.items ≡ length into.old.items + count) }
    ensures same { OnOk result (source.new.text ≡ source.old.text) }
    ensures next { OnOk result (source.new.read ≡ source.old.read + 1) }
{
    read_row(source, keyword, count, row)?;
    append_narrow(row, into)
}

// Whether the line is the keyword and so many numerals, whose numbers then stand in `row`.
fn read_numbers(
    line: &[u8],
    keyword: &[u8],
    count: usize,
    row: &mut Vec<u64>,
) -> Result<bool, SysFault>
    ensures tells { IfOk result (λ fits. fits ≡ is_row keyword.now count line.now) }
    ensures value { IfOk result (λ fits. fits ≡ true → row.new.items ≡ numbers line.now) }
    ensures len { IfOk result (λ fits. fits ≡ true → length row.new.items ≡ count) }
    ensures memory { IfErr result (λ fault. fault ≡ Memory) }
{
    let mut words = Words::new(line);
    match words.next() {
        Some(word) if word == keyword => read_numerals(words, count, row),
        _ => Ok(false),
    }
}

// Whether so many numerals and no more are left of the words, whose numbers then stand in `row`.
fn read_numerals(mut words: Words, count: usize, row: &mut Vec<u64>) -> Result<bool, SysFault>
    ensures tells { IfOk result (λ fits. fits ≡ ((length words.entry == count) && list_all is_numeral words.entry)) }
    ensures value { IfOk result (λ fits. fits ≡ true → row.new.items ≡ map numeral_value words.entry) }
    ensures memory { IfErr result (λ fault. fault ≡ Memory) }
{
    row.clear();
    while let Some(word) = words.next() {
        let Some(number) = numeral(word) else {
            return Ok(false);
        };
        if row.len() == count {
            return Ok(false);
        }
        row.push(number)?;
    }
    Ok(row.len() == count)
}

// Appends the numbers in 32 bits.
fn append_narrow(row: &[u64], into: &mut Vec<u32>) -> Result<(), SysFault>
    ensures value { OnOk result (into.new.items ≡ into.old.items ++ map narrow_number row.now) }
    ensures len { OnOk result (length into.new.items ≡ length into.old.items + length row.now) }
    ensures memory { IfErr result (λ fault. fault ≡ Memory) }
{
    for number in row {
        into.push(narrow(*number))?;
    }
    Ok(())
}

fn narrow(number: u64) -> u32
    ensures { result ≡ narrow_number number }
{
    if number < 4_294_967_295 {
        number as u32
    } else {
        4_294_967_295
    }
}
