// Real files.
ghost use Rattle.std.specs.Prelude.{true, false, ◌≡◌, ◌<◌, ◌≤◌, ◌+◌, ◌*◌, ◌^◌, length, take, IfOk, IfSome, IsErrOf, OnErr, OnOk};
ghost use Rattle.std.specs.Io.KnownBytes.{Consumes, IsAtEnd, Keeps};
ghost use Rattle.lux.specs.Loads.{TakesAtMost};

use crate::counted_readers::{CountedReader, ReadFault};
use crate::tries::MOST_TRIES;
use lux_io::{Blame, Count, Name, Shelf, ShelfFault};
use std::alloc::Global;
use std::fs;
use std::fs::OpenFile;
use std::io::Read;
use std::rt::Files;

// How many bytes one read takes at most.
const MOST_READ: usize = 65_536;

// Reads at most `room` bytes into the front of the buffer. A read that a signal stopped is tried again.
fn read_front<R: Read>(
    reader: &mut CountedReader<R>,
    buffer: &mut [u8],
    room: usize,
) -> Result<usize, ReadFault>
    requires enough { room ≤ length buffer.old }
    requires goes_on { reader.old.ended ≡ false }
    requires few_reads { reader.old.reads < 2 ^ 126 }
    requires few_bytes { reader.old.taken < 2 ^ 126 }
    ensures few { IfOk result (λ count. count ≤ room) }
    ensures taken { IfOk result (λ count. Consumes (R.remaining reader.old.reader) (R.remaining reader.new.reader) (take count buffer.new)) }
    ensures end { IfOk result (λ count. count ≡ 0 → 0 < room → IsAtEnd (R.remaining reader.new.reader)) }
    ensures err { OnErr result (Keeps (R.remaining reader.old.reader) (R.remaining reader.new.reader)) }
    ensures tries { reader.new.reads ≤ reader.old.reads + MOST_TRIES }
    ensures count { IfOk result (λ count. reader.new.taken ≡ reader.old.taken + count) }
    ensures none { OnErr result (reader.new.taken ≡ reader.old.taken) }
    ensures goes_on { IfOk result (λ count. 0 < count → reader.new.ended ≡ false) }
    ensures ended { IfOk result (λ count. count ≡ 0 → reader.new.ended ≡ true) }
{
    for _ in 0..MOST_TRIES {
        match reader.read(&mut buffer[..room]) {
            Ok(count) => return Ok(count),
            Err(ReadFault::Interrupted) => {}
            Err(ReadFault::Failed) => return Err(ReadFault::Failed),
        }
    }
    Err(ReadFault::Interrupted)
}

// All bytes of a reader, if there are at most `limit`. To tell whether there are more, one more is taken. Room for `size`
// bytes is reserved. Each turn but the last takes at least one byte.
fn load<R: Read>(
    alloc: Global,
    reader: &mut CountedReader<R>,
    buffer: &mut [u8],
    size: usize,
    limit: usize,
) -> Result<Vec<u8>, ShelfFault>
    requires some { 0 < length buffer.old }
    requires goes_on { reader.old.ended ≡ false }
    requires none_made { reader.old.reads ≡ 0 }
    requires none_taken { reader.old.taken ≡ 0 }
    ensures short { IfOk result (λ bytes. length bytes.items ≤ limit) }
    ensures whole { IfOk result (λ bytes. IfSome (R.remaining reader.old.reader) (λ all. bytes.items ≡ all)) }
    ensures too_long { IsErrOf result ShelfFault.TooLong → IfSome (R.remaining reader.old.reader) (λ all. limit < length all) }
    ensures taken { TakesAtMost (limit + 1) (R.remaining reader.old.reader) (R.remaining reader.new.reader) }
    ensures none_lost { IfOk result (λ bytes. length bytes.items ≡ reader.new.taken) }
    ensures ended { OnOk result (reader.new.ended ≡ true) }
    ensures few { reader.new.taken ≤ limit + 1 }
    ensures turns { reader.new.reads ≤ MOST_TRIES * (reader.new.taken + 1) }
{
    let Ok(mut bytes) = Vec::with_capacity(alloc, size.min(limit)) else {
        return Err(ShelfFault::Memory);
    };
    while bytes.len() <= limit {
        let room = (limit - bytes.len()).saturating_add(1).min(buffer.len());
        let count = match read_front(reader, buffer, room) {
            Ok(count) => count,
            Err(_) => return Err(ShelfFault::Failed),
        };
        if count == 0 {
            return Ok(bytes);
        }
        if bytes.extend_from_slice(&buffer[..count]).is_err() {
            return Err(ShelfFault::Memory);
        }
    }
    Err(ShelfFault::TooLong)
}

// The bytes of the file at a path from the current folder, if there are at most `limit`.
fn load_named<R: Files>(
    files: &R,
    alloc: Global,
    name: &Name,
    limit: usize,
) -> Result<Vec<u8>, ShelfFault>
    ensures { IfOk result (λ bytes. length bytes.items ≤ limit) }
{
    let Ok(file) = fs::open(files, name.as_str()) else {
        return Err(ShelfFault::Failed);
    };
    let size = match file.metadata() {
        Ok(metadata) => metadata.len() as usize,
        Err(_) => 0,
    };
    match vec![in alloc; 0; MOST_READ] {
        Ok(mut buffer) => load(
            alloc,
            &mut CountedReader::new(file),
            &mut buffer,
            size,
            limit,
        ),
        Err(_) => Err(ShelfFault::Memory),
    }
}

/// Files by their paths from the current folder. It tells no bytes.
#[derive(Drop)]
pub struct FileShelf<'a, R> {
    files: &'a R,
    alloc: Global,
    faults: u64,
    overlong: u64,
    blame: Option<Blame>,
}

impl<'a, R: Files> FileShelf<'a, R> {
    ghost use Rattle.std.specs.Prelude.{None};

    /// A shelf of all files, from which nothing was read yet.
    pub fn new(files: &'a R, alloc: Global) -> Self
        ensures none_failed { result.faults ≡ 0 }
        ensures none_overlong { result.overlong ≡ 0 }
        ensures no_blame { result.blame ≡ None }
    {
        FileShelf {
            files,
            alloc,
            faults: 0,
            overlong: 0,
            blame: None,
        }
    }
}

impl<'a, R: Files> Shelf for FileShelf<'a, R> {
    ghost use Rattle.std.specs.Prelude.{None};

    ghost state = { λ s. record { files = None; faults = s.faults; overlong = s.overlong; blame = s.blame } };

    fn read(&mut self, name: &Name, into: &mut Vec<u8>, limit: usize) -> Result<(), ShelfFault> {
        match load_named(self.files, self.alloc, name, limit) {
            Ok(bytes) => {
                *into = bytes;
                Ok(())
            }
            Err(ShelfFault::Failed) => {
                self.faults = self.faults.saturating_add(1);
                self.blame = Some(Blame::new(Count::Faults, name, limit));
                Err(ShelfFault::Failed)
            }
            Err(ShelfFault::TooLong) => {
                self.overlong = self.overlong.saturating_add(1);
                self.blame = Some(Blame::new(Count::Overlong, name, limit));
                Err(ShelfFault::TooLong)
            }
            Err(ShelfFault::Memory) => Err(ShelfFault::Memory),
        }
    }
}

#[cfg(test)]
mod tests {
    use super::*;
    use std::test::Fail;

    #[test]
    fn reads_files_up_to_a_limit(rt: HostRuntime) -> Result<(), Fail> {
        let alloc = rt.alloc();
        fs::write(&rt, "three_bytes", "abc")?;
        let held = Name::new(alloc, "three_bytes")?;
        let missing = Name::new(alloc, "no_such_file")?;
        let folder = Name::new(alloc, ".")?;
        let mut shelf = FileShelf::new(&rt, alloc);
        let mut bytes = Vec::new(alloc);
        assert_eq!(rt; shelf.read(&held, &mut bytes, 3), Ok(()));
        assert_eq!(rt; bytes.as_slice(), b"abc".as_slice());
        assert_eq!(rt; shelf.read(&held, &mut bytes, 2), Err(ShelfFault::TooLong));
        assert_eq!(rt;
            shelf.read(&missing, &mut bytes, 2),
            Err(ShelfFault::Failed)
        );
        assert_eq!(rt; shelf.read(&folder, &mut bytes, 2), Err(ShelfFault::Failed));
        assert_eq!(rt; (shelf.faults, shelf.overlong), (2, 1));
        assert_eq!(rt; bytes.as_slice(), b"abc".as_slice());
        fs::remove_file(&rt, "three_bytes")?;
        Ok(())
    }
}
