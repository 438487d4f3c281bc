// Why a room isn't furnished.
ghost use Rattle.std.specs.Prelude.{◌≡◌};
ghost use Rattle.boxes.specs.declared.faults.BoxFault.TheVariants.{Memory};

use std::alloc::{AllocError, AllocFailed};
use thiserror::Error;

/// Why some boxes aren't the furniture of a room. The variants stand in the order of the tests, of which those of one box
/// come before those of the next, and boxes are counted from 0.
#[derive(Clone, Copy, Debug, PartialEq, Eq, Error)]
pub enum BoxFault {
    /// Along an axis, the box doesn't end after its beginning, or it ends after the room does.
    #[error("bounds of box {at}")]
    Bounds { at: u32 },
    /// A length isn't cut into 1 to `MOST_PARTS` parts.
    #[error("counts of box {at}")]
    Counts { at: u32 },
    /// The reflectance is above `MOST_REFLECTANCE` per mille.
    #[error("reflectance of box {at}")]
    Reflectance { at: u32 },
    /// The room and its boxes have `n` patches, more than `MOST_PATCHES`.
    #[error("{n} patches")]
    Patches { n: u32 },
    /// No memory was found.
    #[error("out of memory")]
    Memory,
}

impl From<AllocError> for BoxFault {
    ghost from_gives = { λ _ fault. fault ≡ Memory };

    fn from(_error: AllocError) -> BoxFault {
        BoxFault::Memory
    }
}

impl<T: Drop> From<AllocFailed<T>> for BoxFault {
    ghost from_gives = { λ _ fault. fault ≡ Memory };

    fn from(_error: AllocFailed<T>) -> BoxFault {
        BoxFault::Memory
    }
}
