// The words of a line, one after another.
ghost use Rattle.std.specs.Prelude.{◌≡◌, ◌∷◌, [], position, MatchOption};
ghost use Rattle.lux_lines.specs.Words.{is_blank};

use std::marker::Model;

/// The words of a line. Contracts see the words that are still to come.
#[derive(Drop)]
pub struct Words<'a> {
    rest: Option<&'a [u8]>,
}

impl<'a> Model for Words<'a> {
    ghost use Rattle.std.specs.Prelude.{List, ℕ};
    ghost use Rattle.lux_lines.specs.Cursors.{words_left};

    ghost Value = { List (List ℕ) };

    ghost view = { λ s. words_left s.rest };
}

impl<'a> Words<'a> {
    ghost use Rattle.lux_lines.specs.Words.{words};

    /// Before the first word.
    pub fn new(line: &'a [u8]) -> Words<'a>
        ensures { result ≡ words line.now }
    {
        Words { rest: Some(line) }
    }

    /// The next word, or `None` behind the last.
    pub fn next(&mut self) -> Option<&'a [u8]>
        ensures { MatchOption result ((self.old ≡ []) × (self.new ≡ [])) (λ word. self.old ≡ word.now ∷ self.new) }
    {
        let rest = self.rest?;
        match first_blank(rest) {
            Some(len) => {
                self.rest = Some(&rest[len + 1..]);
                Some(&rest[..len])
            }
            None => {
                self.rest = None;
                Some(rest)
            }
        }
    }
}

fn first_blank(rest: &[u8]) -> Option<usize>
    ensures { result ≡ position is_blank rest.now }
{
    rest.iter().position(|byte| *byte == b' ')
}
