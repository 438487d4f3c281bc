//! Texts that grow at their end: numbers in their digits and words, each behind a text.
//!
//! A text is a vector of bytes. [`push_number`], [`push_numbers`] and [`push_word`] append to it, and each says in its
//! contract which bytes. The meaning of a whole text stands with the crate that writes it.
#![tactic(auto)]

ghost use Rattle.std.specs.Prelude.{◌≡◌, ◌++◌, OnOk};
ghost use Rattle.std.specs.List.{flat_map};

use itoa::{Buffer, Integer};
use std::alloc::AllocError;

/// Appends a text, and then a number in its digits.
pub fn push_number<N: Integer>(
    text: &mut Vec<u8>,
    before: &[u8],
    number: N,
) -> Result<(), AllocError>
    ensures { OnOk result (text.new.items ≡ text.old.items ++ before.now ++ N.text number) }
{
    text.extend_from_slice(before)?;
    text.extend_from_slice(Buffer::new().format(number).as_bytes())
}

/// Appends the digits of each number, each behind the same text.
pub fn push_numbers<N: Integer>(
    text: &mut Vec<u8>,
    before: &[u8],
    numbers: &[N],
) -> Result<(), AllocError>
    ensures { OnOk result (text.new.items ≡ text.old.items ++ flat_map (λ number. before.now ++ N.text number) numbers.now) }
{
    for number in numbers {
        push_number(text, before, *number)?;
    }
    Ok(())
}

/// Appends a text, and then a word.
pub fn push_word(text: &mut Vec<u8>, before: &[u8], word: &str) -> Result<(), AllocError>
    ensures { OnOk result (text.new.items ≡ text.old.items ++ before.now ++ word.now) }
{
    text.extend_from_slice(before)?;
    text.extend_from_slice(word.as_bytes())
}
