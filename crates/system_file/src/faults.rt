// Why a text is no system text.
ghost use Rattle.std.specs.Prelude.{◌≡◌};
ghost use Rattle.system_file.specs.declared.faults.SysFault.TheVariants.{Memory};
ghost use Rattle.system_file.specs.SystemText.{of_system};

use flux_system::SystemFault;
use std::alloc::{AllocError, AllocFailed};
use thiserror::Error;

/// Why a text is no system text: the first test that fails. Lines are numbered from 1, patches from 0.
#[derive(Clone, Copy, Debug, PartialEq, Eq, Error)]
pub enum SysFault {
    /// The first line isn't `lux-system 1`.
    #[error("no header")]
    Header,
    /// The text ends before all its lines.
    #[error("too short")]
    Short,
    /// This line isn't its keyword and as many numerals as belong there.
    #[error("line {line} is of another form")]
    Number { line: u32 },
    /// This line stands behind the last.
    #[error("line {line} stands behind the last")]
    Trailing { line: u32 },
    /// There are not 1 to `MOST_LISTED_PATCHES` patches.
    #[error("{n} patches")]
    Size { n: u64 },
    /// The threshold isn't 1 to 10^16 nanolumens.
    #[error("threshold")]
    Threshold,
    /// The first reflectance above 950 per mille is that of this patch.
    #[error("reflectance of patch {patch}")]
    Reflectance { patch: u32 },
    /// The first row of shares whose sum reaches 10^9 is that of this patch.
    #[error("row total of patch {patch}")]
    RowTotal { patch: u32 },
    /// No memory was found.
    #[error("out of memory")]
    Memory,
}

impl From<AllocError> for SysFault {
    ghost from_gives = { λ _ fault. fault ≡ Memory };

    fn from(_error: AllocError) -> SysFault {
        SysFault::Memory
    }
}

impl<T: Drop> From<AllocFailed<T>> for SysFault {
    ghost from_gives = { λ _ fault. fault ≡ Memory };

    fn from(_error: AllocFailed<T>) -> SysFault {
        SysFault::Memory
    }
}

impl From<SystemFault> for SysFault {
    ghost from_gives = { λ refusal fault. fault ≡ of_system refusal };

    fn from(refusal: SystemFault) -> SysFault {
        match refusal {
            SystemFault::Size { n } => SysFault::Size { n },
            SystemFault::Threshold => SysFault::Threshold,
            SystemFault::Reflectance { patch } => SysFault::Reflectance { patch },
            SystemFault::RowTotal { patch } => SysFault::RowTotal { patch },
            SystemFault::Memory => SysFault::Memory,
        }
    }
}
