// Words told apart.
ghost use Rattle.std.specs.Prelude.{◌≡◌, ◌≤◌, ◌<◌, length, map, take, IfOk, string_bytes};
ghost use Rattle.std.specs.Option.{option_map};
ghost use Rattle.lux_words.specs.Words.{is_among, is_operand, is_value, is_option, is_argument, is_command, is_own_operand, operands_of, word_at};

use std::alloc::{AllocError, Global};
use std::marker::Model;

/// The options that a command takes: words that stand alone, and words whose value is the next word. Contracts see the
/// bytes of each.
#[derive(Drop)]
pub struct Options<'a> {
    pub flags: &'a [&'a str],
    pub settings: &'a [&'a str],
}

impl<'a> Model for Options<'a> {
    ghost use Rattle.std.specs.Prelude.{map};
    ghost use Rattle.lux_words.specs.Words.{Options};

    ghost Value = { Options };

    ghost view = { λ o. record { flags = map (λ word. word.now) o.flags.now; settings = map (λ word. word.now) o.settings.now } };
}

impl Options<'_> {
    ghost use Rattle.std.specs.Prelude.{◌≡◌};
    ghost use Rattle.lux_words.specs.Words.{no_options};

    /// The options of a command that takes none.
    pub fn none() -> Options<'static>
        ensures { result ≡ no_options }
    {
        Options {
            flags: &[],
            settings: &[],
        }
    }
}

/// The word at a place, or an empty one.
pub fn word(words: &[String], place: usize) -> &str
    ensures { result.now ≡ word_at (map string_bytes words.now) place }
{
    match words.get(place) {
        Some(word) => word.as_str(),
        None => "",
    }
}

// Whether a word may name a file or a number: 1 to 255 bytes, of which the first is no dash.
fn is_operand(word: &str) -> bool
    ensures { result ≡ is_operand word.now }
{
    let bytes = word.as_bytes();
    1 <= bytes.len() && bytes.len() <= 255 && bytes[0] != b'-'
}

// Whether a word is one of some options.
fn is_listed(options: &[&str], word: &str) -> bool
    ensures { result ≡ is_among (map (λ option. option.now) options.now) word.now }
{
    for option in options {
        if *option == word {
            return true;
        }
    }
    false
}

// Whether a word stands among the first words.
fn stands_before(words: &[String], place: usize, word: &str) -> bool
    requires { place ≤ length words.now }
    ensures { result ≡ is_among (take place (map string_bytes words.now)) word.now }
{
    for other in &words[..place] {
        if other.as_str() == word {
            return true;
        }
    }
    false
}

// Whether the word at a place is the value of the option before it.
fn is_value(words: &[String], options: &Options, place: usize) -> bool
    requires { 1 ≤ place }
    ensures { result ≡ is_value options.now (map string_bytes words.now) place }
{
    is_listed(options.settings, word(words, place - 1))
}

// Whether an option that the command takes stands at a place, and nowhere before it.
fn is_option(words: &[String], options: &Options, place: usize) -> bool
    requires { place < length words.now }
    ensures { result ≡ is_option options.now (map string_bytes words.now) place }
{
    let option = word(words, place);
    let has_value = place + 1 < words.len();
    let known = is_listed(options.flags, option)
        || is_listed(options.settings, option) && has_value;
    known && !stands_before(words, place, option)
}

// Whether the word at a place behind the keyword is an operand, or an option that is no value.
fn is_argument(words: &[String], options: &Options, place: usize) -> bool
    requires some { 1 ≤ place }
    requires inside { place < length words.now }
    ensures { result ≡ is_argument options.now (map string_bytes words.now) place }
{
    is_operand(word(words, place))
        || is_option(words, options, place) && !is_value(words, options, place)
}

// Whether an operand stands at a place, and is not the value of an option.
fn is_own_operand(words: &[String], options: &Options, place: usize) -> bool
    requires { 1 ≤ place }
    ensures { result ≡ is_own_operand options.now (map string_bytes words.now) place }
{
    is_operand(word(words, place)) && !is_value(words, options, place)
}

// Whether the words begin with the keyword, and all behind it are arguments.
fn is_command(words: &[String], keyword: &str, options: &Options) -> bool
    ensures { result ≡ is_command keyword.now options.now (map string_bytes words.now) }
{
    if word(words, 0) != keyword {
        return false;
    }
    for place in 1..words.len() {
        if !is_argument(words, options, place) {
            return false;
        }
    }
    true
}

/// The places of a command's operands among the words, in their order, or none where the words are not this command.
pub fn operands(
    alloc: Global,
    words: &[String],
    keyword: &str,
    options: &Options,
) -> Result<Option<Vec<usize>>, AllocError>
    ensures { IfOk result (λ places. option_map (λ places. map (word_at (map string_bytes words.now)) places.items) places ≡ operands_of keyword.now options.now (map string_bytes words.now)) }
{
    if !is_command(words, keyword, options) {
        return Ok(None);
    }
    let mut places = Vec::new(alloc);
    for place in 1..words.len() {
        if is_own_operand(words, options, place) {
            places.push(place)?;
        }
    }
    Ok(Some(places))
}
