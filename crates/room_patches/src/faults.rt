// Why there is no room.
ghost use Rattle.std.specs.Prelude.{◌≡◌};
ghost use Rattle.room_patches.specs.declared.faults.RoomFault.TheVariants.{Memory};

use std::alloc::{AllocError, AllocFailed};
use thiserror::Error;

/// Why some numbers are no room. The variants stand in the order of the tests.
#[derive(Clone, Copy, Debug, PartialEq, Eq, Error)]
pub enum RoomFault {
    /// A length isn't `LEAST_LENGTH` to `MOST_LENGTH` millimetres.
    #[error("size")]
    Size,
    /// A length isn't cut into 1 to `MOST_PARTS` parts.
    #[error("counts")]
    Counts,
    /// There are `n` patches, more than `MOST_PATCHES`.
    #[error("{n} patches")]
    Patches { n: u32 },
    /// A reflectance is above `MOST_REFLECTANCE` per mille.
    #[error("reflectance")]
    Reflectance,
    /// Region `at`, counted from 0, isn't a rectangle of one of the six surfaces with a reflectance of at most
    /// `MOST_REFLECTANCE` per mille.
    #[error("region {at}")]
    Region { at: u32 },
    /// No memory was found.
    #[error("out of memory")]
    Memory,
}

impl From<AllocError> for RoomFault {
    ghost from_gives = { λ _ fault. fault ≡ Memory };

    fn from(_error: AllocError) -> RoomFault {
        RoomFault::Memory
    }
}

impl<T: Drop> From<AllocFailed<T>> for RoomFault {
    ghost from_gives = { λ _ fault. fault ≡ Memory };

    fn from(_error: AllocFailed<T>) -> RoomFault {
        RoomFault::Memory
    }
}
