// The lines of a text, one after another.
ghost use Rattle.std.specs.Prelude.{◌≡◌, ◌+◌, ◌<◌, ◌≤◌, ◌^◌, [], drop, take, length, position, slice_get, option_map, is_some, nat_lt, IfSome, IfNone, OnSome, MatchOption};
ghost use Rattle.std.specs.List.{before_first, position_or_len};
ghost use Rattle.lux_lines.specs.Places.{is_newline};
ghost use Rattle.lux_lines.specs.Lines.{without_return};

use std::marker::Model;

/// A line: its number, counted from 1, the place of its first byte in the text, and its bytes without CR and LF.
#[derive(Clone, Copy, Debug)]
pub struct Line<'a> {
    pub number: u32,
    pub start: usize,
    pub text: &'a [u8],
}

/// The lines of a text. Contracts see the text, and how many of its lines were read.
#[derive(Drop)]
pub struct Lines<'a> {
    text: &'a [u8],
    at: usize,
    read: u32,
}

impl<'a> Model for Lines<'a> {
    ghost use Rattle.lux_lines.specs.Walks.{LinesRead};
    ghost use Rattle.lux_lines.specs.Cursors.{IsAtLine};

    ghost Value = { LinesRead };

    ghost view = { λ s. record { text = s.text.now; read = s.read } };

    ghost invariant = { λ s. IsAtLine s.text.now s.at s.read };
}

impl<'a> Lines<'a> {
    ghost use Rattle.lux_lines.specs.Lines.{lines, line_text};
    ghost use Rattle.lux_lines.specs.Pieces.{line_piece};

    /// Before the first line.
    pub fn new(text: &'a [u8]) -> Lines<'a>
        requires { length text.now < 2 ^ 31 }
        ensures { result ≡ record { text = text.now; read = 0 } }
    {
        Lines {
            text,
            at: 0,
            read: 0,
        }
    }

    /// The next line, or `None` at the end of the text.
    pub fn next(&mut self) -> Option<Line<'a>>
        ensures line { option_map line_piece result ≡ slice_get (lines self.old.text) self.old.read }
        ensures there { is_some result ≡ nat_lt self.old.read (length (lines self.old.text)) }
        ensures number { IfSome result (λ line. line.number ≡ self.old.read + 1) }
        ensures text { MatchOption result (line_text self.old.text self.old.read ≡ []) (λ line. line.text.now ≡ line_text self.old.text self.old.read) }
        ensures slice { IfSome result (λ line. line.text.now ≡ take (length line.text.now) (drop line.start self.old.text)) }
        ensures same { self.new.text ≡ self.old.text }
        ensures next { OnSome result (self.new.read ≡ self.old.read + 1) }
        ensures end { IfNone result (self.new.read ≡ self.old.read) }
    {
        if self.at >= self.text.len() {
            return None;
        }
        let content = front(self.text, self.at);
        let line = Line {
            number: self.read + 1,
            start: self.at,
            text: without_return(content),
        };
        if content.len() < self.text.len() - self.at {
            self.at += content.len() + 1;
        } else {
            self.at += content.len();
        }
        self.read += 1;
        Some(line)
    }
}

// The bytes from `at` on up to the first LF.
fn front(text: &[u8], at: usize) -> &[u8]
    requires { at ≤ length text.now }
    ensures value { result.now ≡ before_first is_newline (drop at text.now) }
    ensures len { length result.now ≡ position_or_len is_newline (drop at text.now) }
{
    let rest = &text[at..];
    match first_newline(rest) {
        Some(len) => &rest[..len],
        None => rest,
    }
}

fn first_newline(rest: &[u8]) -> Option<usize>
    ensures { result ≡ position is_newline rest.now }
{
    rest.iter().position(|byte| *byte == b'\n')
}

// A line without a CR at its end.
fn without_return(line: &[u8]) -> &[u8]
    ensures value { result.now ≡ without_return line.now }
    ensures front { result.now ≡ take (length result.now) line.now }
{
    match line {
        [front @ .., b'\r'] => front,
        _ => line,
    }
}
