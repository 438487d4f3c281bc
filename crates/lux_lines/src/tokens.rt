// The tokens of a text, one after another.
ghost use Rattle.std.specs.Prelude.{◌≡◌, ℕ, ◌+◌, ◌-◌, ◌<◌, ◌≤◌, ◌^◌, false, take, drop, length, position, slice_index, slice_get, option_map, is_some, nat_lt, IfSome, IfNone, OnSome};
ghost use Rattle.std.specs.List.{before_first, position_or_len};
ghost use Rattle.lux_lines.specs.Tokens.{tokens_from, is_separator};
ghost use Rattle.lux_lines.specs.Cursors.{IsBetweenTokens};

use std::marker::Model;

/// A token: the number of its line, the place of its first byte in the text, and its bytes.
#[derive(Clone, Copy, Debug)]
pub struct Token<'a> {
    pub number: u32,
    pub start: usize,
    pub text: &'a [u8],
}

/// The tokens of a text. Contracts see the text, the number of its first line, and how many tokens were read.
#[derive(Drop)]
pub struct Tokens<'a> {
    text: &'a [u8],
    first_line: u32,
    at: usize,
    number: u32,
    read: u32,
}

impl<'a> Model for Tokens<'a> {
    ghost use Rattle.lux_lines.specs.Walks.{TokensRead};
    ghost use Rattle.lux_lines.specs.Cursors.{IsAtToken};

    ghost Value = { TokensRead };

    ghost view = { λ s. record { text = s.text.now; first_line = s.first_line; read = s.read } };

    ghost invariant = { λ s. IsAtToken s.first_line s.text.now s.at s.number s.read };
}

impl<'a> Tokens<'a> {
    ghost use Rattle.lux_lines.specs.Walks.{all_tokens};
    ghost use Rattle.lux_lines.specs.TokenPieces.{token_piece};

    /// Before the first token of a text that begins on the line `first_line`.
    pub fn new(text: &'a [u8], first_line: u32) -> Tokens<'a>
        requires fits { length text.now < 2 ^ 31 }
        requires lines { first_line ≤ 2 ^ 31 }
        ensures { result ≡ record { text = text.now; first_line = first_line; read = 0 } }
    {
        Tokens {
            text,
            first_line,
            at: 0,
            number: first_line,
            read: 0,
        }
    }

    /// The next token, or `None` at the end of the text.
    pub fn next(&mut self) -> Option<Token<'a>>
        ensures token { option_map token_piece result ≡ slice_get (all_tokens self.old) self.old.read }
        ensures there { is_some result ≡ nat_lt self.old.read (length (all_tokens self.old)) }
        ensures slice { IfSome result (λ token. token.text.now ≡ take (length token.text.now) (drop token.start self.old.text)) }
        ensures short { IfSome result (λ token. length token.text.now ≤ length self.old.text) }
        ensures fits { length self.old.text < 2 ^ 31 }
        ensures same { all_tokens self.new ≡ all_tokens self.old }
        ensures text { self.new.text ≡ self.old.text }
        ensures first_line { self.new.first_line ≡ self.old.first_line }
        ensures next { OnSome result (self.new.read ≡ self.old.read + 1) }
        ensures end { IfNone result (self.new.read ≡ self.old.read) }
        ensures all { IfNone result (self.old.read ≡ length (all_tokens self.old)) }
    {
        let (at, number) = past_separators(self.text, self.at, self.number);
        self.at = at;
        self.number = number;
        if at >= self.text.len() {
            return None;
        }
        let text = front(self.text, at);
        self.at = at + text.len();
        self.read += 1;
        Some(Token {
            number,
            start: at,
            text,
        })
    }

    /// How many tokens were read.
    pub fn count(&self) -> u32
        ensures { result ≡ self.now.read }
    {
        self.read
    }
}

// The first place from `at` on that holds no separator, and its line.
fn past_separators(text: &[u8], at: usize, number: u32) -> (usize, u32)
    requires room { number + (length text.now - at) < 2 ^ 32 }
    requires within { at ≤ length text.now }
    ensures place { (first : ℕ) → IsBetweenTokens first text.now at number →
        IsBetweenTokens first text.now result.0 result.1 × (tokens_from first text.now at ≡ tokens_from first text.now result.0) }
    ensures forth { at ≤ result.0 }
    ensures stops { result.0 < length text.now → is_separator (slice_index text.now result.0) ≡ false }
{
    let mut at = at;
    let mut number = number;
    while at < text.len() && is_separator(text[at]) {
        if text[at] == b'\n' {
            number += 1;
        }
        at += 1;
    }
    (at, number)
}

// The bytes from `at` on up to the first separator.
fn front(text: &[u8], at: usize) -> &[u8]
    requires { at ≤ length text.now }
    ensures value { result.now ≡ before_first is_separator (drop at text.now) }
    ensures len { length result.now ≡ position_or_len is_separator (drop at text.now) }
{
    let rest = &text[at..];
    match first_separator(rest) {
        Some(len) => &rest[..len],
        None => rest,
    }
}

fn first_separator(rest: &[u8]) -> Option<usize>
    ensures { result ≡ position is_separator rest.now }
{
    rest.iter().position(|byte| is_separator(*byte))
}

fn is_separator(byte: u8) -> bool
    ensures { result ≡ is_separator byte }
{
    byte == b' ' || byte == b'\t' || byte == b',' || byte == b'\r' || byte == b'\n'
}
