// Shares without zeros.
ghost use Rattle.std.specs.Prelude.{◌≡◌, ◌++◌, ◌∷◌, [], IfOk, OnOk, length};

use std::alloc::{AllocError, Global};
use std::marker::Model;

/// A share that isn't 0, and the patch at its other end.
#[derive(Clone, Copy, Debug, PartialEq, Eq)]
pub struct Entry {
    /// The number of the patch.
    pub patch: u32,
    /// The share, in parts of 10^9.
    pub share: u32,
}

// A list of entries. Contracts see it as such.
#[derive(Debug, Drop)]
pub(crate) struct Entries {
    list: Vec<Entry>,
}

impl Model for Entries {
    ghost use Rattle.std.specs.Prelude.{List};
    ghost use Rattle.flux_system.specs.declared.entries.Entry.{Entry};

    ghost Value = { List Entry };

    ghost view = { λ entries. entries.list.items };
}

impl Entries {
    // No entries, with room for some.
    pub(crate) fn with_capacity(alloc: Global, capacity: usize) -> Result<Entries, AllocError>
        ensures { IfOk result (λ entries. entries ≡ []) }
    {
        Ok(Entries {
            list: Vec::with_capacity(alloc, capacity)?,
        })
    }

    pub(crate) fn push(&mut self, entry: Entry) -> Result<(), AllocError>
        ensures { OnOk result (self.new ≡ self.old ++ entry ∷ []) }
    {
        match self.list.push(entry) {
            Ok(()) => Ok(()),
            Err(_) => Err(AllocError),
        }
    }

    pub(crate) fn as_slice(&self) -> &[Entry]
        ensures { result.now ≡ self.now }
    {
        self.list.as_slice()
    }
}
