// The numbers behind the TILT line, one after another.
ghost use Rattle.std.specs.Prelude.{◌≡◌, ◌+◌, ◌*◌, ◌<◌, ◌≤◌, ◌^◌, IfOk, OnOk, length};
ghost use Rattle.duties.specs.Duties.{Answers, unless};
ghost use Rattle.lux_lines.specs.Walks.{all_tokens};
ghost use Rattle.lux_lines.specs.TokenPieces.{token_piece};
ghost use Rattle.lux_num.specs.Scaled.{cut_value, is_limited};
ghost use Rattle.photo_numbers.specs.Numbers.{count_of, is_whole_within};
ghost use Rattle.lm63_reader.specs.declared.faults.LmFault.TheVariants.{Memory};
ghost use Rattle.lm63_reader.specs.Fields.{number_at, number_duty, token_number_duty, token_number, field, any_numbers, no_token};

use crate::LmFault;
use lux_lines::{Token, Tokens};
use lux_num::Decimal;
use photo_numbers::whole_within;

/// The next token as a number.
pub(crate) fn read_number(source: &mut Tokens) -> Result<Decimal, LmFault>
    ensures answer { Answers Memory (number_duty (all_tokens source.old) source.old.read) result }
    ensures value { IfOk result (λ number. number ≡ number_at (all_tokens source.old) source.old.read) }
    ensures same { OnOk result (all_tokens source.new ≡ all_tokens source.old) }
    ensures next { OnOk result (source.new.read ≡ source.old.read + 1) }
{
    match source.next() {
        Some(token) => number_of(&token),
        None => Err(LmFault::Short {
            found: source.count(),
        }),
    }
}

// What a token is as a number.
#[tactic(auto, unfolding(crate::specs::Fields::token_number_duty, crate::specs::Fields::token_number))]
fn number_of(token: &Token) -> Result<Decimal, LmFault>
    requires { length token.now.text.now < 2 ^ 31 }
    ensures answer { Answers Memory (token_number_duty (token_piece token.now)) result }
    ensures value { IfOk result (λ number. number ≡ token_number (token_piece token.now)) }
{
    match Decimal::read(token.text) {
        Ok(number) => Ok(number),
        Err(fault) => Err(LmFault::Number {
            line: token.number,
            fault,
        }),
    }
}

/// So many numbers, which may be any.
pub(crate) fn skip_numbers(source: &mut Tokens, count: u32) -> Result<(), LmFault>
    ensures answer { Answers Memory (any_numbers (all_tokens source.old) source.old.read count) result }
    ensures same { OnOk result (all_tokens source.new ≡ all_tokens source.old) }
    ensures next { OnOk result (source.new.read ≡ source.old.read + count) }
{
    for _i in 0..count {
        read_number(source)?;
    }
    Ok(())
}

/// The next token as a whole number from `low` to `high`.
#[tactic(auto, using(duties::proofs::Orders::steps), unfolding(crate::specs::Fields::field))]
pub(crate) fn read_whole(
    source: &mut Tokens,
    low: u32,
    high: u32,
    fault: LmFault,
) -> Result<u32, LmFault>
    ensures answer { Answers Memory (field (all_tokens source.old) source.old.read (λ x. unless (is_whole_within low high x) fault)) result }
    ensures value { IfOk result (λ whole. whole ≡ count_of (number_at (all_tokens source.old) source.old.read)) }
    ensures within { IfOk result (λ whole. (low ≤ whole) × (whole ≤ high)) }
    ensures same { OnOk result (all_tokens source.new ≡ all_tokens source.old) }
    ensures next { OnOk result (source.new.read ≡ source.old.read + 1) }
{
    let number = read_number(source)?;
    match whole_within(&number, low, high) {
        Some(whole) => Ok(whole),
        None => Err(fault),
    }
}

/// The next token as a number from 0 to `most`, in billionths.
#[tactic(auto, using(duties::proofs::Orders::steps), unfolding(crate::specs::Fields::field))]
pub(crate) fn read_factor(source: &mut Tokens, most: u64, fault: LmFault) -> Result<u128, LmFault>
    ensures answer { Answers Memory (field (all_tokens source.old) source.old.read (λ x. unless (is_limited most x) fault)) result }
    ensures value { IfOk result (λ factor. factor ≡ cut_value (number_at (all_tokens source.old) source.old.read) 9) }
    ensures bound { IfOk result (λ factor. factor ≤ most * 1000000000) }
    ensures same { OnOk result (all_tokens source.new ≡ all_tokens source.old) }
    ensures next { OnOk result (source.new.read ≡ source.old.read + 1) }
{
    let number = read_number(source)?;
    match number.cut_within(9, most) {
        Some(factor) => Ok(factor),
        None => Err(fault),
    }
}

/// That no token is left.
pub(crate) fn read_end(mut source: Tokens) -> Result<(), LmFault>
    ensures { Answers Memory (no_token (all_tokens source.entry) source.entry.read) result }
{
    match source.next() {
        None => Ok(()),
        Some(token) => Err(LmFault::Trailing { line: token.number }),
    }
}
