// A sink in memory.
ghost use Rattle.std.specs.Prelude.{◌≡◌, IfOk, []};

use crate::{Failed, Sink};
use std::alloc::{AllocError, Global};
use std::marker::Model;

/// A sink in memory, of a room in bytes that is reserved when it is made. Pieces are numbered from 0, and those whose
/// number is listed fail. Contracts see what was written, the room, the list and the counts of pieces and of failures.
#[derive(Debug, Drop)]
pub struct MemSink {
    written: Vec<u8>,
    room: usize,
    failing: Vec<u64>,
    puts: u64,
    faults: u64,
}

impl Model for MemSink {
    ghost use Rattle.std.specs.Prelude.{◌≤◌, vec_capacity};
    ghost use Rattle.lux_io.specs.MemSinks.{MemSinkState};

    ghost Value = { MemSinkState };

    ghost view = { λ s. record { written = s.written.items; room = s.room; failing = s.failing.items; puts = s.puts; faults = s.faults } };

    ghost invariant = { λ s. s.room ≤ vec_capacity s.written };
}

impl MemSink {
    /// An empty sink of so many bytes, in which the pieces of these numbers fail.
    pub fn new(alloc: Global, room: usize, failing: &[u64]) -> Result<MemSink, AllocError>
        ensures { IfOk result (λ sink. sink ≡ record { written = []; room = room; failing = failing.now; puts = 0; faults = 0 }) }
    {
        Ok(MemSink {
            written: Vec::with_capacity(alloc, room)?,
            room,
            failing: failing.to_vec(alloc)?,
            puts: 0,
            faults: 0,
        })
    }

    /// How many pieces failed.
    pub fn faults(&self) -> u64
        ensures { result ≡ self.now.faults }
    {
        self.faults
    }

    /// All bytes that were written.
    pub fn written(&self) -> &[u8]
        ensures { result.now ≡ self.now.written }
    {
        self.written.as_slice()
    }
}

impl Sink for MemSink {
    ghost use Rattle.lux_io.specs.Sinks.{Puts};
    ghost use Rattle.lux_io.specs.MemSinks.{state_of, PutsExactly};

    ghost state = { state_of };

    // A listed piece fails, and the first half of its bytes is written as far as it fits; another that doesn't fit fails,
    // and the part that fits is written.
    fn put(&mut self, piece: &[u8]) -> Result<(), Failed>
        ensures puts { Puts (state_of self.old) (state_of self.new) piece.now result }
        ensures exact { PutsExactly self.old piece.now self.new result }
    {
        let number = self.puts;
        self.puts = number.saturating_add(1);
        let listed = self.failing.contains(&number);
        let wanted = if listed { piece.len() / 2 } else { piece.len() };
        let taken = wanted.min(self.room.saturating_sub(self.written.len()));
        self.written.extend_from_slice(&piece[..taken]).unwrap();
        if !listed && taken == piece.len() {
            return Ok(());
        }
        self.faults = self.faults.saturating_add(1);
        Err(Failed)
    }
}
