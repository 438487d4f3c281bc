// Why a text is no ledger text.
ghost use Rattle.std.specs.Prelude.{◌≡◌};
ghost use Rattle.ledger_file.specs.declared.faults.LedgerFault.TheVariants.{Memory};

use std::alloc::{AllocError, AllocFailed};
use thiserror::Error;

/// Why a text is no ledger text: the first test that fails. Lines are numbered from 1.
#[derive(Clone, Copy, Debug, PartialEq, Eq, Error)]
pub enum LedgerFault {
    /// The first line isn't `lux-ledger 1`.
    #[error("no header")]
    Header,
    /// The text ends before all its lines.
    #[error("too short")]
    Short,
    /// This line isn't of the form that belongs there, or its patch has another number.
    #[error("line {line} is of another form")]
    Number { line: u32 },
    /// This line stands behind the last.
    #[error("line {line} stands behind the last")]
    Trailing { line: u32 },
    /// There are not 1 to `MOST_PATCHES` patches.
    #[error("{n} patches")]
    Size { n: u64 },
    /// No memory was found.
    #[error("out of memory")]
    Memory,
}

impl From<AllocError> for LedgerFault {
    ghost from_gives = { λ _ fault. fault ≡ Memory };

    fn from(_error: AllocError) -> LedgerFault {
        LedgerFault::Memory
    }
}

impl<T: Drop> From<AllocFailed<T>> for LedgerFault {
    ghost from_gives = { λ _ fault. fault ≡ Memory };

    fn from(_error: AllocFailed<T>) -> LedgerFault {
        LedgerFault::Memory
    }
}
