// Why some numbers are no web.
ghost use Rattle.std.specs.Prelude.{◌≡◌};
ghost use Rattle.photo_web.specs.declared.faults.WebFault.TheVariants.{Memory};

use std::alloc::AllocError;
use thiserror::Error;

/// Why some numbers are no web. The variants stand in the order of the tests, and places are counted from 0.
#[derive(Clone, Copy, Debug, PartialEq, Eq, Error)]
pub enum WebFault {
    /// The planes don't rise strictly from 0 to 360,000 millidegrees: the first place that offends, or the count of
    /// planes where they aren't 2 to `MOST_PLANES`, or the last place where it isn't a full turn.
    #[error("plane {at}")]
    Planes { at: u32 },
    /// The gammas don't rise strictly within 0 to 180,000 millidegrees: the first place that offends, or the count of
    /// gammas where they aren't 2 to `MOST_GAMMAS`.
    #[error("gamma {at}")]
    Gammas { at: u32 },
    /// The values aren't as many as planes times gammas.
    #[error("number of values")]
    Values,
    /// The first value above 10^15 microcandela stands at this place.
    #[error("value {at} is too bright")]
    TooBright { at: u32 },
    /// No memory was found.
    #[error("out of memory")]
    Memory,
}

impl From<AllocError> for WebFault {
    ghost from_gives = { λ _ fault. fault ≡ Memory };

    fn from(_error: AllocError) -> WebFault {
        WebFault::Memory
    }
}
