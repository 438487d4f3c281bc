// What a call may answer.
ghost use Rattle.std.specs.Prelude.{◌≡◌};
ghost use Rattle.lux_answers.specs.Answers.{outcome_of, status_of};
ghost use Rattle.lux_answers.specs.declared.answers.Answer.TheVariants.{Memory};

use compliance::Worst;
use eulumdat_reader::LdtFault;
use fixtures::FixtureFault;
use flux_ledger::Ledger;
use flux_system::LimitFault;
use grids::GridFault;
use ledger_audit::Finding;
use ledger_file::LedgerFault;
use lm63_reader::LmFault;
use lux_io::Name;
use project_file::ProjFault;
use room_patches::RoomFault;
use std::alloc::AllocFailed;
use system_file::SysFault;
use thiserror::Error;

/// Why a file is no photometry: the fault of the format that it is in.
#[derive(Clone, Copy, Debug, PartialEq, Eq, Error)]
pub enum PhotoFault {
    /// The fault of a file that begins as LM-63 (`IESNA` or `IES:`).
    #[error("{0}")]
    Lm(LmFault),
    /// The fault of any other file, as EULUMDAT.
    #[error("{0}")]
    Ldt(LdtFault),
}

/// How a command ended. Each answer has its status (0 to 10) and, but for `Done`, one line of note.
#[derive(Debug, Drop)]
pub enum Answer {
    /// All was written. The ledger is the one that it was written of.
    Done {
        ledger: Option<Ledger>,
        worst: Worst,
    },
    /// The words are no command.
    Usage,
    /// This file could not be read.
    Read {
        name: Name,
    },
    /// This file has more bytes than its limit.
    TooLong {
        name: Name,
    },
    /// The file is no project, for this reason.
    Project(ProjFault),
    /// The project's room is not valid, for this reason.
    Room(RoomFault),
    /// A luminaire of the project can't be placed in its room, for this reason.
    Fixture(FixtureFault),
    /// A check of the project, counted from 0, lays no grid in its room, for this reason.
    Grid {
        check: u32,
        fault: GridFault,
    },
    /// The file is no system text, for this reason.
    System(SysFault),
    /// The file is no ledger text, for this reason.
    LedgerText(LedgerFault),
    /// This file is no photometry, for this reason.
    Photometry {
        name: Name,
        fault: PhotoFault,
    },
    /// The ledger is not one of the flux system and its direct flux, or its intervals are others: this was found.
    AuditNo(Finding),
    /// A number of the flux system or its direct flux passes a limit.
    Limits(LimitFault),
    /// The output took a part of the bytes at most.
    Write,
    /// No memory was found.
    Memory,
}

impl<T: Drop> From<AllocFailed<T>> for Answer {
    ghost from_gives = { λ _ answer. answer ≡ Memory };

    fn from(_error: AllocFailed<T>) -> Answer {
        Answer::Memory
    }
}

/// An answer and its exit status.
#[derive(Debug, Drop)]
pub struct Outcome {
    pub status: u8,
    pub answer: Answer,
}

impl Answer {
    /// The exit status: 0 to 2 by the verdicts of a success, 3 to 10 otherwise.
    pub fn status(&self) -> u8
        ensures { result ≡ status_of self.now }
    {
        match self {
            Answer::Done { worst, .. } => worst.status(),
            Answer::Usage => 3,
            Answer::Project(_)
            | Answer::Room(_)
            | Answer::Fixture(_)
            | Answer::Grid { .. }
            | Answer::System(_)
            | Answer::LedgerText(_) => 4,
            Answer::Photometry { .. } => 5,
            Answer::Read { .. } | Answer::TooLong { .. } => 6,
            Answer::Write => 7,
            Answer::Memory => 8,
            Answer::AuditNo(_) => 9,
            Answer::Limits(_) => 10,
        }
    }
}

impl Outcome {
    /// An answer with its status.
    pub fn new(answer: Answer) -> Outcome
        ensures { result ≡ outcome_of answer }
    {
        Outcome {
            status: answer.status(),
            answer,
        }
    }
}
