// The lines of a text as numbers, one after another.
ghost use Rattle.std.specs.Prelude.{◌≡◌, ◌+◌, ◌<◌, ◌^◌, Some, OnOk, IfOk, IfSome, length, position};
ghost use Rattle.duties.specs.Duties.{Answers};
ghost use Rattle.eulumdat_reader.specs.declared.faults.LdtFault.TheVariants.{Memory};
ghost use Rattle.eulumdat_reader.specs.Rows.{all_lines, row_number_duty, row_number, row_at, presence_duty, is_comma, reading};

use crate::LdtFault;
use lux_lines::{Line, Lines, trim};
use lux_num::{Decimal, NumFault};
use std::alloc::{AllocError, Global};
use std::marker::Model;

/// The lines of a text, and memory for a line whose first comma is to be a point. Contracts see the text and how many of
/// its lines were read.
#[derive(Drop)]
pub(crate) struct Rows<'a> {
    lines: Lines<'a>,
    read: u32,
    copy: Vec<u8>,
}

impl<'a> Model for Rows<'a> {
    ghost use Rattle.lux_lines.specs.Walks.{LinesRead};
    ghost use Rattle.eulumdat_reader.specs.Cursors.{IsCounted};

    ghost Value = { LinesRead };

    ghost view = { λ s. s.lines };

    ghost invariant = { λ s. IsCounted s.lines s.read };
}

impl<'a> Rows<'a> {
    ghost use Rattle.std.specs.Prelude.{option_map, slice_get, IfNone, OnSome};
    ghost use Rattle.lux_lines.specs.Pieces.{line_piece};

    /// Before the first line.
    pub(crate) fn new(alloc: Global, text: &'a [u8]) -> Rows<'a>
        requires { length text.now < 2 ^ 31 }
        ensures { result ≡ record { text = text.now; read = 0 } }
    {
        Rows {
            lines: Lines::new(text),
            read: 0,
            copy: Vec::new(alloc),
        }
    }

    /// The next line, or `None` at the end of the text.
    pub(crate) fn next(&mut self) -> Option<Line<'a>>
        ensures line { option_map line_piece result ≡ slice_get (all_lines self.old) self.old.read }
        ensures number { IfSome result (λ line. line.number ≡ self.old.read + 1) }
        ensures short { IfSome result (λ line. length line.text.now < 2 ^ 31) }
        ensures same { self.new.text ≡ self.old.text }
        ensures next { OnSome result (self.new.read ≡ self.old.read + 1) }
        ensures end { IfNone result (self.new.read ≡ self.old.read) }
    {
        let line = self.lines.next()?;
        self.read = line.number;
        Some(line)
    }

    /// The next line, which has to be there.
    pub(crate) fn row(&mut self) -> Result<Line<'a>, LdtFault>
        ensures answer { Answers Memory (presence_duty (all_lines self.old) (self.old.read + 1)) result }
        ensures line { IfOk result (λ line. row_at (all_lines self.old) (self.old.read + 1) ≡ Some (line_piece line)) }
        ensures number { IfOk result (λ line. line.number ≡ self.old.read + 1) }
        ensures short { IfOk result (λ line. length line.text.now < 2 ^ 31) }
        ensures same { OnOk result (self.new.text ≡ self.old.text) }
        ensures next { OnOk result (self.new.read ≡ self.old.read + 1) }
    {
        let Some(line) = self.next() else {
            return Err(LdtFault::Short {
                line: self.read + 1,
            });
        };
        Ok(line)
    }

    /// What a line says as a number.
    #[tactic(auto, unfolding(crate::specs::Rows::row_number_duty, crate::specs::Rows::row_number))]
    pub(crate) fn number_of(&mut self, line: &Line) -> Result<Decimal, LdtFault>
        requires { length line.now.text.now < 2 ^ 31 }
        ensures answer { Answers Memory (row_number_duty line.now.number line.now.text.now) result }
        ensures value { IfOk result (λ number. number ≡ row_number line.now.text.now) }
        ensures same { self.new ≡ self.old }
    {
        match reading(&mut self.copy, line.text)? {
            Ok(number) => Ok(number),
            Err(fault) => Err(LdtFault::Number {
                line: line.number,
                fault,
            }),
        }
    }
}

// What a line says as a number, without blanks and tabs at both ends, and with its first comma as a point.
#[tactic(auto, unfolding(crate::specs::Rows::with_point))]
fn reading(copy: &mut Vec<u8>, line: &[u8]) -> Result<Result<Decimal, NumFault>, AllocError>
    requires { length line.now < 2 ^ 31 }
    ensures { IfOk result (λ said. said ≡ reading line.now) }
{
    let text = trim(line);
    match first_comma(text) {
        Some(place) => {
            copy.clear();
            copy.extend_from_slice(text)?;
            copy[place] = b'.';
            Ok(Decimal::read(copy))
        }
        None => Ok(Decimal::read(text)),
    }
}

fn first_comma(text: &[u8]) -> Option<usize>
    ensures place { result ≡ position is_comma text.now }
    ensures inside { IfSome result (λ place. place < length text.now) }
{
    text.iter().position(|byte| *byte == b',')
}
