// Why there is no grid.
ghost use Rattle.std.specs.Prelude.{◌≡◌};
ghost use Rattle.grids.specs.declared.faults.GridFault.TheVariants.{Memory};

use std::alloc::{AllocError, AllocFailed};
use thiserror::Error;

/// Why a check lays no grid in a room. The variants stand in the order of the tests; points and patches are counted from 0.
#[derive(Clone, Copy, Debug, PartialEq, Eq, Error)]
pub enum GridFault {
    /// The rectangle is empty, or not within the room and below its ceiling.
    #[error("rectangle")]
    Rectangle,
    /// Not 1 to `MOST_ALONG` points stand along a side, or there are more than `MOST_POINTS`.
    #[error("counts")]
    Counts,
    /// A point sees a patch whose squared distance is below `LEAST_SQUARE`: the first such point, with its first such patch.
    #[error("point {point} is too near to patch {patch}")]
    TooNear { point: u32, patch: u32 },
    /// No memory was found.
    #[error("out of memory")]
    Memory,
}

impl From<AllocError> for GridFault {
    ghost from_gives = { λ _ fault. fault ≡ Memory };

    fn from(_error: AllocError) -> GridFault {
        GridFault::Memory
    }
}

impl<T: Drop> From<AllocFailed<T>> for GridFault {
    ghost from_gives = { λ _ fault. fault ≡ Memory };

    fn from(_error: AllocFailed<T>) -> GridFault {
        GridFault::Memory
    }
}
