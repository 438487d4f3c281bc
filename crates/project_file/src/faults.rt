// Why bytes are no project.
ghost use Rattle.std.specs.Prelude.{◌≡◌};
ghost use Rattle.project_file.specs.declared.faults.ProjFault.TheVariants.{Memory};

use lux_io::Name;
use std::alloc::{AllocError, AllocFailed};
use thiserror::Error;

/// Why bytes are no project: the first test that fails. A name is the path to the field, as `luminaire.3.file`.
#[derive(Debug, Drop, Error)]
pub enum ProjFault {
    /// The bytes aren't UTF-8, or the text is no TOML document.
    #[error("no TOML document")]
    Toml,
    /// The version is absent or isn't the number 1 or 2.
    #[error("version")]
    Version,
    /// A table has a key that is no field of it.
    #[error("unknown key {}", name.as_str())]
    Key { name: Name },
    /// A field is absent.
    #[error("{} is missing", name.as_str())]
    Missing { name: Name },
    /// A field, or an element of its list, is of another kind.
    #[error("{} is of another kind", name.as_str())]
    Kind { name: Name },
    /// A field is out of its range.
    #[error("{} is out of range", name.as_str())]
    Range { name: Name },
    /// No memory was found.
    #[error("out of memory")]
    Memory,
}

impl From<AllocError> for ProjFault {
    ghost from_gives = { λ _ fault. fault ≡ Memory };

    fn from(_error: AllocError) -> ProjFault {
        ProjFault::Memory
    }
}

impl<T: Drop> From<AllocFailed<T>> for ProjFault {
    ghost from_gives = { λ _ fault. fault ≡ Memory };

    fn from(_error: AllocFailed<T>) -> ProjFault {
        ProjFault::Memory
    }
}
