// Which read raised a count last.
ghost use Rattle.std.specs.Prelude.{◌≡◌};
ghost use Rattle.lux_io.specs.Shelves.{Blamed};

use crate::Name;
use std::marker::Model;

/// The two counts of a shelf.
#[derive(Clone, Copy, Debug, PartialEq, Eq)]
pub enum Count {
    /// How many reads failed.
    Faults,
    /// How many files were too long for their reads.
    Overlong,
}

/// A read that gave no bytes: the count that it raised, its name and its limit. It is kept without memory of its own.
#[derive(Drop)]
pub struct Blame {
    count: Count,
    name: [u8; 255],
    name_len: usize,
    limit: usize,
}

impl Model for Blame {
    ghost use Rattle.std.specs.Prelude.{◌≤◌, take};
    ghost use Rattle.lux_io.specs.Shelves.{Blamed};

    ghost Value = { Blamed };

    ghost view = { λ b. record { count = b.count; name = take b.name_len b.name; limit = b.limit } };

    ghost invariant = { λ b. b.name_len ≤ 255 };
}

impl Blame {
    /// The blame of a read. Takes no memory.
    pub fn new(count: Count, name: &Name, limit: usize) -> Blame
        ensures { result ≡ record { count = count; name = name.now; limit = limit } }
    {
        let text = name.as_str().as_bytes();
        let name_len = text.len();
        let mut bytes = [0; 255];
        bytes[..name_len].copy_from_slice(text);
        Blame {
            count,
            name: bytes,
            name_len,
            limit,
        }
    }
}
