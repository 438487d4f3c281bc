// A reader whose reads are counted.
ghost use Rattle.std.specs.Prelude.{false, ◌≡◌, ◌<◌, ◌≤◌, ◌+◌, ◌^◌, length, take, IfOk, OnErr};
ghost use Rattle.std.specs.Io.KnownBytes.{Consumes, IsAtEnd, Keeps};
ghost use Rattle.lux.specs.CountedReads.{ends_reading, size_of_read};

use std::io::{ErrorKind, Read};

/// Why a read gave no bytes.
#[derive(Clone, Copy)]
pub enum ReadFault {
    /// A signal stopped it before it took any.
    Interrupted,
    /// The reader failed.
    Failed,
}

/// A reader that can be read in one way alone, so that no read goes uncounted.
#[derive(Drop)]
pub struct CountedReader<R> {
    reader: R,
    // How many reads were made.
    reads: u128,
    // How many bytes they took.
    taken: u128,
    // Whether one of them was at the end or failed.
    ended: bool,
}

impl<R: Read> CountedReader<R> {
    /// A reader from which nothing was read yet.
    pub fn new(reader: R) -> Self
        ensures same { result.reader ≡ reader }
        ensures none_made { result.reads ≡ 0 }
        ensures none_taken { result.taken ≡ 0 }
        ensures goes_on { result.ended ≡ false }
    {
        CountedReader {
            reader,
            reads: 0,
            taken: 0,
            ended: false,
        }
    }

    /// Reads once, into the front of the buffer. Behind the end, and behind a failure, nothing is to be read.
    pub fn read(&mut self, buffer: &mut [u8]) -> Result<usize, ReadFault>
        requires goes_on { self.old.ended ≡ false }
        requires few_reads { self.old.reads < 2 ^ 127 }
        requires few_bytes { self.old.taken < 2 ^ 127 }
        ensures few { IfOk result (λ count. count ≤ length buffer.old) }
        ensures taken { IfOk result (λ count. Consumes (R.remaining self.old.reader) (R.remaining self.new.reader) (take count buffer.new)) }
        ensures end { IfOk result (λ count. count ≡ 0 → 0 < length buffer.old → IsAtEnd (R.remaining self.new.reader)) }
        ensures err { OnErr result (Keeps (R.remaining self.old.reader) (R.remaining self.new.reader)) }
        ensures reads { self.new.reads ≡ self.old.reads + 1 }
        ensures bytes { self.new.taken ≡ self.old.taken + size_of_read result }
        ensures ended { self.new.ended ≡ ends_reading result }
    {
        self.reads += 1;
        match self.reader.read(buffer) {
            Ok(count) => {
                self.taken += count as u128;
                self.ended = count == 0;
                Ok(count)
            }
            Err(error) if error.kind() == ErrorKind::Interrupted => Err(ReadFault::Interrupted),
            Err(_) => {
                self.ended = true;
                Err(ReadFault::Failed)
            }
        }
    }
}
