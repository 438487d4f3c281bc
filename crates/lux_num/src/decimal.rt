// Decimal numbers.
ghost use Rattle.std.specs.Prelude.{◌≡◌, ◌+◌, ◌*◌, ◌<◌, ◌≤◌, ◌^◌, true, length, is_some, IfSome, IfNone};
ghost use Rattle.std.specs.List.{list_all};
ghost use Rattle.std.specs.Char.{is_ascii_digit};
ghost use Rattle.lux_num.specs.Digits.{whole_digits, fraction_digits, tail, may_be_exponent};

use crate::digits::{behind_sign, exponent_of, has_minus, has_point, split_digits, with_digits};
use crate::scaled::{is_within, scaled_value, whole_value};
use thiserror::Error;

/// Why a text is no number. The variants stand in the order of the tests.
#[derive(Clone, Copy, Debug, PartialEq, Eq, Error)]
pub enum NumFault {
    /// This byte, counted from 0, stands behind the digits and is no exponent letter.
    #[error("byte {at} belongs to no number")]
    BadByte { at: u32 },
    /// There is no digit.
    #[error("no digit")]
    Empty,
    /// There are more than 30 digits.
    #[error("more than 30 digits")]
    TooManyDigits,
    /// The exponent isn't an optional sign and one or two digits.
    #[error("exponent")]
    Exponent,
}

/// A decimal number, exactly: `mantissa` times ten to the power `exponent`, below zero where `negative` is set and the
/// mantissa isn't 0.
#[derive(Clone, Copy, Debug, PartialEq, Eq)]
pub struct Decimal {
    pub negative: bool,
    pub mantissa: u128,
    pub exponent: i32,
}

impl Decimal {
    ghost use Rattle.lux_num.specs.Decimal.{number_of};
    ghost use Rattle.lux_num.specs.Scaled.{cut_value, fixed_value, whole_value, is_negative, is_at_most, is_limited};

    /// The number that a text is.
    pub fn read(text: &[u8]) -> Result<Decimal, NumFault>
        requires { length text.now < 2 ^ 31 }
        ensures { result ≡ number_of text.now }
    {
        let parts = parts_of(text);
        let count = parts.whole.len() + parts.fraction.len();
        if !may_be_exponent(parts.tail) {
            return Err(NumFault::BadByte {
                at: (text.len() - parts.tail.len()) as u32,
            });
        }
        if count == 0 {
            return Err(NumFault::Empty);
        }
        if count > 30 {
            return Err(NumFault::TooManyDigits);
        }
        let Some(power) = exponent_of(parts.tail) else {
            return Err(NumFault::Exponent);
        };
        Ok(Decimal {
            negative: has_minus(text),
            mantissa: with_digits(with_digits(0, parts.whole), parts.fraction),
            exponent: power - parts.fraction.len() as i32,
        })
    }

    /// Whether the number is below zero. `-0` isn't.
    pub fn is_negative(&self) -> bool
        ensures { result ≡ is_negative self.now }
    {
        self.negative && self.mantissa != 0
    }

    /// The magnitude times ten to the power `places`, cut toward zero. `None` exactly where it exceeds 10^38 uncut.
    pub fn to_fixed(&self, places: u8) -> Option<u128>
        requires { places ≤ 9 }
        ensures value { result ≡ fixed_value self.now places }
        ensures cut { IfSome result (λ value. value ≡ cut_value self.now places) }
        ensures past { IfNone result (10 ^ 38 ≤ cut_value self.now places) }
    {
        scaled_value(self.mantissa, i64::from(self.exponent) + i64::from(places))
    }

    /// The number times ten to the power `places`, cut. `None` exactly where it is below zero or above `most`, uncut.
    pub fn cut_within(&self, places: u8, most: u64) -> Option<u128>
        requires { places ≤ 9 }
        ensures exactly { is_some result ≡ is_limited most self.now }
        ensures value { IfSome result (λ value. value ≡ cut_value self.now places) }
        ensures bound { IfSome result (λ value. value ≤ most * 10 ^ places) }
    {
        if self.is_negative() || !self.is_at_most(most) {
            return None;
        }
        self.to_fixed(places)
    }

    /// The magnitude, where it is a whole number of at most 10^38.
    pub fn to_whole(&self) -> Option<u128>
        ensures { result ≡ whole_value self.now }
    {
        whole_value(self.mantissa, i64::from(self.exponent))
    }

    /// Whether the magnitude is at most `most`, uncut.
    pub fn is_at_most(&self, most: u64) -> bool
        ensures { result ≡ is_at_most most self.now }
    {
        is_within(most, self.mantissa, i64::from(self.exponent))
    }
}

// A text without its sign: the digits before the point and behind it, and what stands behind these.
#[derive(Clone, Copy)]
struct Parts<'a> {
    whole: &'a [u8],
    fraction: &'a [u8],
    tail: &'a [u8],
}

#[tactic(auto, unfolding(crate::specs::Digits::whole_digits, crate::specs::Digits::fraction_digits, crate::specs::Digits::tail))]
fn parts_of(text: &[u8]) -> Parts<'_>
    ensures whole { result.whole.now ≡ whole_digits text.now }
    ensures fraction { result.fraction.now ≡ fraction_digits text.now }
    ensures tail { result.tail.now ≡ tail text.now }
    ensures digits { (list_all is_ascii_digit result.whole.now ≡ true) × (list_all is_ascii_digit result.fraction.now ≡ true) }
    ensures len { length result.whole.now + length result.fraction.now + length result.tail.now ≤ length text.now }
{
    let (whole, behind) = split_digits(behind_sign(text));
    if has_point(behind) {
        let (fraction, tail) = split_digits(&behind[1..]);
        Parts {
            whole,
            fraction,
            tail,
        }
    } else {
        Parts {
            whole,
            fraction: &[],
            tail: behind,
        }
    }
}

fn may_be_exponent(text: &[u8]) -> bool
    ensures { result ≡ may_be_exponent text.now }
{
    text.is_empty() || text[0] == b'E' || text[0] == b'e'
}
