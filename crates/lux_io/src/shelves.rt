// Where files are read from.
ghost use Rattle.lux_io.specs.Shelves.{ShelfState, Reads};

use crate::Name;
use thiserror::Error;

/// Why a read gave no bytes.
#[derive(Clone, Copy, Debug, PartialEq, Eq, Error)]
pub enum ShelfFault {
    /// The file couldn't be read.
    #[error("cannot read")]
    Failed,
    /// The file has more bytes than the limit.
    #[error("file too long")]
    TooLong,
    /// No memory was found.
    #[error("out of memory")]
    Memory,
}

/// Files by their names. Contracts see, where the shelf tells them, the bytes of each file, which no read changes; how
/// many reads failed and how many files were too long; and which read raised one of these counts last.
pub trait Shelf {
    ghost state: { Self → ShelfState };

    /// Replaces `into` by the bytes of the file, if there are at most `limit`. After an error `into` is as before:
    /// `Failed` comes only where the count of failed reads has risen, `TooLong` only where that of files that are too
    /// long has, and both leave this read as the blame.
    fn read(&mut self, name: &Name, into: &mut Vec<u8>, limit: usize) -> Result<(), ShelfFault>
        ensures { Reads (state self.old) (state self.new) name.now limit into.old.items into.new.items result };
}
