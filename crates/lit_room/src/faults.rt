// Why a project and its webs give no lit room.
ghost use Rattle.std.specs.Prelude.{◌≡◌};
ghost use Rattle.lit_room.specs.declared.faults.LightFault.TheVariants.{Memory};

use fixtures::FixtureFault;
use flux_system::LimitFault;
use grids::GridFault;
use room_patches::RoomFault;
use std::alloc::{AllocError, AllocFailed};
use thiserror::Error;

/// Why a project and its webs give no lit room: the first test that fails.
#[derive(Clone, Copy, Debug, PartialEq, Eq, Error)]
pub enum LightFault {
    /// The room is not valid, for this reason.
    #[error("{0}")]
    Room(RoomFault),
    /// A luminaire can't be placed in the room, for this reason.
    #[error("{0}")]
    Fixture(FixtureFault),
    /// The direct flux or the bound of takes passes a limit.
    #[error("{0}")]
    Limits(LimitFault),
    /// A check, counted from 0, lays no grid in the room, for this reason.
    #[error("check {check}: {fault}")]
    Grid { check: u32, fault: GridFault },
    /// No memory was found.
    #[error("out of memory")]
    Memory,
}

impl From<AllocError> for LightFault {
    ghost from_gives = { λ _ fault. fault ≡ Memory };

    fn from(_error: AllocError) -> LightFault {
        LightFault::Memory
    }
}

impl<T: Drop> From<AllocFailed<T>> for LightFault {
    ghost from_gives = { λ _ fault. fault ≡ Memory };

    fn from(_error: AllocFailed<T>) -> LightFault {
        LightFault::Memory
    }
}
