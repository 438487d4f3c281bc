// Why there is no direct flux.
ghost use Rattle.std.specs.Prelude.{◌≡◌};
ghost use Rattle.direct_flux.specs.declared.faults.DirectFault.TheVariants.{Memory};

use std::alloc::{AllocError, AllocFailed};
use thiserror::Error;

/// Why there is no direct flux.
#[derive(Clone, Copy, Debug, PartialEq, Eq, Error)]
pub enum DirectFault {
    /// The direct flux over all patches is so many nanolumens, which is above `MOST_FLUX`.
    #[error("direct flux of {sum} nanolumens")]
    FluxTooLarge { sum: u128 },
    /// No memory was found.
    #[error("out of memory")]
    Memory,
}

impl From<AllocError> for DirectFault {
    ghost from_gives = { λ _ fault. fault ≡ Memory };

    fn from(_error: AllocError) -> DirectFault {
        DirectFault::Memory
    }
}

impl<T: Drop> From<AllocFailed<T>> for DirectFault {
    ghost from_gives = { λ _ fault. fault ≡ Memory };

    fn from(_error: AllocFailed<T>) -> DirectFault {
        DirectFault::Memory
    }
}
