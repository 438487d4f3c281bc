// The notes of faults and findings: the name of each in lower case, and its numbers.
ghost use Rattle.std.specs.Prelude.{Some};
ghost use Rattle.lux_answers.specs.Notes.{project_note, room_note, fixture_note, grid_note, system_note, ledger_note, finding_note, number_note, lm_note, ldt_note, photometry_note, limit_note};

use crate::PhotoFault;
use eulumdat_reader::LdtFault;
use fixtures::FixtureFault;
use flux_system::LimitFault;
use grids::GridFault;
use ledger_audit::Finding;
use ledger_file::LedgerFault;
use lm63_reader::LmFault;
use lux_num::NumFault;
use project_file::ProjFault;
use room_patches::RoomFault;
use std::fmt;
use system_file::SysFault;

// A refusal of a system text in the words of a note.
#[derive(Clone, Copy)]
pub(crate) struct SystemNote(pub(crate) SysFault);

impl fmt::Display for SystemNote {
    ghost output = { λ note. Some (system_note note.0) };

    fn fmt<W: fmt::Write>(&self, f: &mut fmt::Formatter<W>) -> fmt::Result {
        match self.0 {
            SysFault::Header => write!(f, "header"),
            SysFault::Short => write!(f, "short"),
            SysFault::Number { line } => write!(f, "number {line}"),
            SysFault::Trailing { line } => write!(f, "trailing {line}"),
            SysFault::Size { n } => write!(f, "size {n}"),
            SysFault::Threshold => write!(f, "threshold"),
            SysFault::Reflectance { patch } => write!(f, "reflectance {patch}"),
            SysFault::RowTotal { patch } => write!(f, "row total {patch}"),
            SysFault::Memory => write!(f, "memory"),
        }
    }
}

// A refusal of a ledger text in the words of a note.
#[derive(Clone, Copy)]
pub(crate) struct LedgerNote(pub(crate) LedgerFault);

impl fmt::Display for LedgerNote {
    ghost output = { λ note. Some (ledger_note note.0) };

    fn fmt<W: fmt::Write>(&self, f: &mut fmt::Formatter<W>) -> fmt::Result {
        match self.0 {
            LedgerFault::Header => write!(f, "header"),
            LedgerFault::Short => write!(f, "short"),
            LedgerFault::Number { line } => write!(f, "number {line}"),
            LedgerFault::Trailing { line } => write!(f, "trailing {line}"),
            LedgerFault::Size { n } => write!(f, "size {n}"),
            LedgerFault::Memory => write!(f, "memory"),
        }
    }
}

// A finding of an audit in the words of a note.
#[derive(Clone, Copy)]
pub(crate) struct FindingNote(pub(crate) Finding);

impl fmt::Display for FindingNote {
    ghost output = { λ note. Some (finding_note note.0) };

    fn fmt<W: fmt::Write>(&self, f: &mut fmt::Formatter<W>) -> fmt::Result {
        match self.0 {
            Finding::Balanced => write!(f, "balanced"),
            Finding::Size { left, right } => write!(f, "size {left} {right}"),
            Finding::Direct { patch, left, right } => write!(f, "direct {patch} {left} {right}"),
            Finding::Err { patch, value } => write!(f, "err {patch} {value}"),
            Finding::Residual { patch, value } => write!(f, "residual {patch} {value}"),
            Finding::Unbalanced { patch, left, right } => {
                write!(f, "unbalanced {patch} {left} {right}")
            }
            Finding::Wins { wins, limit } => write!(f, "wins {wins} {limit}"),
            Finding::Bounds { patch, low, high } => write!(f, "bounds {patch} {low} {high}"),
        }
    }
}

// A refusal of a project in the words of a note.
#[derive(Clone, Copy)]
pub(crate) struct ProjectNote<'a>(pub(crate) &'a ProjFault);

impl fmt::Display for ProjectNote<'_> {
    ghost output = { λ note. Some (project_note note.0.now) };

    fn fmt<W: fmt::Write>(&self, f: &mut fmt::Formatter<W>) -> fmt::Result {
        let (before, name) = match self.0 {
            ProjFault::Toml => ("toml", ""),
            ProjFault::Version => ("version", ""),
            ProjFault::Key { name } => ("key ", name.as_str()),
            ProjFault::Missing { name } => ("missing ", name.as_str()),
            ProjFault::Kind { name } => ("kind ", name.as_str()),
            ProjFault::Range { name } => ("range ", name.as_str()),
            ProjFault::Memory => ("memory", ""),
        };
        write!(f, "{before}{name}")
    }
}

// A refusal of a room in the words of a note.
#[derive(Clone, Copy)]
pub(crate) struct RoomNote(pub(crate) RoomFault);

impl fmt::Display for RoomNote {
    ghost output = { λ note. Some (room_note note.0) };

    fn fmt<W: fmt::Write>(&self, f: &mut fmt::Formatter<W>) -> fmt::Result {
        match self.0 {
            RoomFault::Size => write!(f, "size"),
            RoomFault::Counts => write!(f, "counts"),
            RoomFault::Patches { n } => write!(f, "patches {n}"),
            RoomFault::Reflectance => write!(f, "reflectance"),
            RoomFault::Region { at } => write!(f, "region {at}"),
            RoomFault::Memory => write!(f, "memory"),
        }
    }
}

// A refusal of a luminaire in the words of a note.
#[derive(Clone, Copy)]
pub(crate) struct FixtureNote(pub(crate) FixtureFault);

impl fmt::Display for FixtureNote {
    ghost output = { λ note. Some (fixture_note note.0) };

    fn fmt<W: fmt::Write>(&self, f: &mut fmt::Formatter<W>) -> fmt::Result {
        match self.0 {
            FixtureFault::Outside { at } => write!(f, "outside {at}"),
            FixtureFault::Rotation { at } => write!(f, "rotation {at}"),
            FixtureFault::Level { at } => write!(f, "level {at}"),
            FixtureFault::Memory => write!(f, "memory"),
        }
    }
}

// A refusal of a check's grid in the words of a note.
#[derive(Clone, Copy)]
pub(crate) struct GridNote(pub(crate) GridFault);

impl fmt::Display for GridNote {
    ghost output = { λ note. Some (grid_note note.0) };

    fn fmt<W: fmt::Write>(&self, f: &mut fmt::Formatter<W>) -> fmt::Result {
        match self.0 {
            GridFault::Rectangle => write!(f, "rectangle"),
            GridFault::Counts => write!(f, "counts"),
            GridFault::TooNear { point, patch } => write!(f, "too near {point} {patch}"),
            GridFault::Memory => write!(f, "memory"),
        }
    }
}

// Why a word is no number, in the words of a note.
#[derive(Clone, Copy)]
pub(crate) struct NumberNote(pub(crate) NumFault);

impl fmt::Display for NumberNote {
    ghost output = { λ note. Some (number_note note.0) };

    fn fmt<W: fmt::Write>(&self, f: &mut fmt::Formatter<W>) -> fmt::Result {
        match self.0 {
            NumFault::BadByte { at } => write!(f, "bad byte {at}"),
            NumFault::Empty => write!(f, "empty"),
            NumFault::TooManyDigits => write!(f, "too many digits"),
            NumFault::Exponent => write!(f, "exponent"),
        }
    }
}

// A refusal of an LM-63 file in the words of a note.
#[derive(Clone, Copy)]
pub(crate) struct LmNote(pub(crate) LmFault);

impl fmt::Display for LmNote {
    ghost output = { λ note. Some (lm_note note.0) };

    fn fmt<W: fmt::Write>(&self, f: &mut fmt::Formatter<W>) -> fmt::Result {
        match self.0 {
            LmFault::Header => write!(f, "header"),
            LmFault::Tilt => write!(f, "tilt"),
            LmFault::TiltFile => write!(f, "tilt file"),
            LmFault::Number { line, fault } => {
                let fault = NumberNote(fault);
                write!(f, "number {line} {fault}")
            }
            LmFault::Short { found } => write!(f, "short {found}"),
            LmFault::PhotometricType => write!(f, "photometric type"),
            LmFault::Units => write!(f, "units"),
            LmFault::Count { field } => write!(f, "count {field}"),
            LmFault::Factor { field } => write!(f, "factor {field}"),
            LmFault::Angles { list, at } => write!(f, "angles {list} {at}"),
            LmFault::HorizontalSpan => write!(f, "horizontal span"),
            LmFault::NegativeIntensity { at } => write!(f, "negative intensity {at}"),
            LmFault::TooBright { at } => write!(f, "too bright {at}"),
            LmFault::Trailing { line } => write!(f, "trailing {line}"),
            LmFault::Memory => write!(f, "memory"),
        }
    }
}

// A refusal of a EULUMDAT file in the words of a note.
#[derive(Clone, Copy)]
pub(crate) struct LdtNote(pub(crate) LdtFault);

impl fmt::Display for LdtNote {
    ghost output = { λ note. Some (ldt_note note.0) };

    fn fmt<W: fmt::Write>(&self, f: &mut fmt::Formatter<W>) -> fmt::Result {
        match self.0 {
            LdtFault::Short { line } => write!(f, "short {line}"),
            LdtFault::Number { line, fault } => {
                let fault = NumberNote(fault);
                write!(f, "number {line} {fault}")
            }
            LdtFault::Symmetry => write!(f, "symmetry"),
            LdtFault::PlaneCount => write!(f, "plane count"),
            LdtFault::GammaCount => write!(f, "gamma count"),
            LdtFault::Factor { line } => write!(f, "factor {line}"),
            LdtFault::LampSets { n } => write!(f, "lamp sets {n}"),
            LdtFault::Angles { list, at } => write!(f, "angles {list} {at}"),
            LdtFault::Span => write!(f, "span"),
            LdtFault::NegativeIntensity { at } => write!(f, "negative intensity {at}"),
            LdtFault::TooBright { at } => write!(f, "too bright {at}"),
            LdtFault::Trailing { line } => write!(f, "trailing {line}"),
            LdtFault::Memory => write!(f, "memory"),
        }
    }
}

// A refusal of a photometry file in the words of a note.
#[derive(Clone, Copy)]
pub(crate) struct PhotometryNote(pub(crate) PhotoFault);

impl fmt::Display for PhotometryNote {
    ghost output = { λ note. Some (photometry_note note.0) };

    fn fmt<W: fmt::Write>(&self, f: &mut fmt::Formatter<W>) -> fmt::Result {
        match self.0 {
            PhotoFault::Lm(fault) => {
                let note = LmNote(fault);
                write!(f, "{note}")
            }
            PhotoFault::Ldt(fault) => {
                let note = LdtNote(fault);
                write!(f, "{note}")
            }
        }
    }
}

// A passed limit in the words of a note.
#[derive(Clone, Copy)]
pub(crate) struct LimitNote(pub(crate) LimitFault);

impl fmt::Display for LimitNote {
    ghost output = { λ note. Some (limit_note note.0) };

    fn fmt<W: fmt::Write>(&self, f: &mut fmt::Formatter<W>) -> fmt::Result {
        match self.0 {
            LimitFault::FluxTooLarge { sum } => write!(f, "flux too large {sum}"),
            LimitFault::TooManyTakes { bound } => write!(f, "too many takes {bound}"),
        }
    }
}
