// Why a text is no EULUMDAT photometry.
ghost use Rattle.std.specs.Prelude.{◌≡◌};
ghost use Rattle.eulumdat_reader.specs.declared.faults.LdtFault.TheVariants.{Memory};

use lux_num::NumFault;
use std::alloc::{AllocError, AllocFailed};
use thiserror::Error;

/// Why a text is no EULUMDAT photometry: the first test that fails. Lines are numbered from 1, places in a list from 0;
/// list 0 has the C angles and list 1 the gamma angles.
#[derive(Clone, Copy, Debug, PartialEq, Eq, Error)]
pub enum LdtFault {
    /// This line is missing.
    #[error("line {line} is missing")]
    Short { line: u32 },
    /// This line is no number.
    #[error("line {line}: {fault}")]
    Number { line: u32, fault: NumFault },
    /// The symmetry indicator isn't 0 to 4.
    #[error("symmetry")]
    Symmetry,
    /// The number of C planes isn't 1 to 360, or the symmetry can't have it.
    #[error("number of planes")]
    PlaneCount,
    /// The number of gamma angles isn't 2 to 721.
    #[error("number of gammas")]
    GammaCount,
    /// The number on this line is no factor within its limits.
    #[error("factor on line {line}")]
    Factor { line: u32 },
    /// The number of lamp sets isn't 1 but this, without its sign and cut to a whole number of 64 bits.
    #[error("{n} lamp sets")]
    LampSets { n: u64 },
    /// The angle at this place of a list is out of range or isn't above the one read before it.
    #[error("angle {at} of list {list}")]
    Angles { list: u8, at: u32 },
    /// The C angles don't have the span of their symmetry.
    #[error("span of C angles")]
    Span,
    /// The value at this place is negative.
    #[error("value {at} is negative")]
    NegativeIntensity { at: u32 },
    /// The value at this place exceeds 10^7 or its intensity 10^15 microcandela.
    #[error("value {at} is too bright")]
    TooBright { at: u32 },
    /// This line stands behind the last value and isn't blank.
    #[error("line {line} stands behind the last value")]
    Trailing { line: u32 },
    /// No memory was found.
    #[error("out of memory")]
    Memory,
}

impl From<AllocError> for LdtFault {
    ghost from_gives = { λ _ fault. fault ≡ Memory };

    fn from(_error: AllocError) -> LdtFault {
        LdtFault::Memory
    }
}

impl<T: Drop> From<AllocFailed<T>> for LdtFault {
    ghost from_gives = { λ _ fault. fault ≡ Memory };

    fn from(_error: AllocFailed<T>) -> LdtFault {
        LdtFault::Memory
    }
}
