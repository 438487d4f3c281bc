// Why there is no flux system, or why a direct flux is past the limits.
ghost use Rattle.std.specs.Prelude.{◌≡◌};
ghost use Rattle.flux_system.specs.declared.faults.SystemFault.TheVariants.{Memory};

use std::alloc::{AllocError, AllocFailed};
use thiserror::Error;

/// Why some numbers are no flux system. The variants stand in the order of the tests.
#[derive(Clone, Copy, Debug, PartialEq, Eq, Error)]
pub enum SystemFault {
    /// There are not 1 to `MOST_PATCHES` patches, or the shares aren't as many as the square of the `n` patches.
    #[error("{n} patches, or shares that are no square of them")]
    Size { n: u64 },
    /// The threshold isn't 1 to 10^16 nanolumens.
    #[error("threshold")]
    Threshold,
    /// The first reflectance above 950 per mille is that of this patch.
    #[error("reflectance of patch {patch}")]
    Reflectance { patch: u32 },
    /// The first row of shares whose sum reaches 10^9 is that of this patch.
    #[error("row total of patch {patch}")]
    RowTotal { patch: u32 },
    /// No memory was found.
    #[error("out of memory")]
    Memory,
}

impl From<AllocError> for SystemFault {
    ghost from_gives = { λ _ fault. fault ≡ Memory };

    fn from(_error: AllocError) -> SystemFault {
        SystemFault::Memory
    }
}

impl<T: Drop> From<AllocFailed<T>> for SystemFault {
    ghost from_gives = { λ _ fault. fault ≡ Memory };

    fn from(_error: AllocFailed<T>) -> SystemFault {
        SystemFault::Memory
    }
}

/// Why a direct flux is past the limits of a flux system. The variants stand in the order of the tests.
#[derive(Clone, Copy, Debug, PartialEq, Eq, Error)]
pub enum LimitFault {
    /// The direct flux over all patches, in nanolumens, exceeds 10^16.
    #[error("direct flux of {sum} nanolumens")]
    FluxTooLarge { sum: u128 },
    /// The bound of takes exceeds 10^8.
    #[error("bound of {bound} takes")]
    TooManyTakes { bound: u128 },
}
