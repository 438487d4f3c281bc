// The note of each answer.
ghost use Rattle.std.specs.Prelude.{◌≡◌, Some, IfOk, string_bytes};
ghost use Rattle.lux_answers.specs.Notes.{answer_note, note};

use crate::Answer;
use crate::fault_notes::{
    FindingNote, FixtureNote, GridNote, LedgerNote, LimitNote, PhotometryNote, ProjectNote,
    RoomNote, SystemNote,
};
use std::alloc::{AllocError, Global};
use std::fmt;

impl fmt::Display for Answer {
    ghost output = { λ answer. Some (answer_note answer) };

    fn fmt<W: fmt::Write>(&self, f: &mut fmt::Formatter<W>) -> fmt::Result {
        match self {
            Answer::Done { .. } => Ok(()),
            Answer::Usage => write!(
                f,
                "usage: lux solve FILE | photo FILE | run PROJECT [--shooters N] [--csv] | audit SYSTEM LEDGER | gen NUMBER"
            ),
            Answer::Read { name } => {
                let name = name.as_str();
                write!(f, "cannot read {name}")
            }
            Answer::TooLong { name } => {
                let name = name.as_str();
                write!(f, "file too long: {name}")
            }
            Answer::Project(fault) => {
                let note = ProjectNote(fault);
                write!(f, "project: {note}")
            }
            Answer::Room(fault) => {
                let note = RoomNote(*fault);
                write!(f, "room: {note}")
            }
            Answer::Fixture(fault) => {
                let note = FixtureNote(*fault);
                write!(f, "luminaire: {note}")
            }
            Answer::Grid { check, fault } => {
                let note = GridNote(*fault);
                write!(f, "check {check}: {note}")
            }
            Answer::System(fault) => {
                let note = SystemNote(*fault);
                write!(f, "system: {note}")
            }
            Answer::LedgerText(fault) => {
                let note = LedgerNote(*fault);
                write!(f, "ledger: {note}")
            }
            Answer::Photometry { name, fault } => {
                let name = name.as_str();
                let note = PhotometryNote(*fault);
                write!(f, "photometry {name}: {note}")
            }
            Answer::AuditNo(finding) => {
                let note = FindingNote(*finding);
                write!(f, "audit: {note}")
            }
            Answer::Limits(fault) => {
                let note = LimitNote(*fault);
                write!(f, "limit: {note}")
            }
            Answer::Write => write!(f, "cannot write"),
            Answer::Memory => write!(f, "out of memory"),
        }
    }
}

impl Answer {
    /// The line that the notes get for this answer.
    pub fn note(&self, alloc: Global) -> Result<String, AllocError>
        ensures { IfOk result (λ text. string_bytes text ≡ note self.now) }
    {
        format!(in alloc; "lux: {self}\n")
    }
}
