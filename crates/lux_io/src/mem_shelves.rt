// A shelf in memory.
ghost use Rattle.std.specs.Prelude.{◌≡◌, IfOk, IfNone, IfSome};
ghost use Rattle.lux_io.specs.MemShelves.{file_of, contents_of};

use crate::{Blame, Count, Name, Shelf, ShelfFault};
use std::alloc::{AllocError, Global};
use std::marker::Model;

/// A shelf in memory. Reads are numbered from 0, and those whose number is listed fail. Contracts see the files in their
/// order, the list, the number of the next read, both counts and the blame.
#[derive(Drop)]
pub struct MemShelf {
    alloc: Global,
    files: Vec<(Name, Vec<u8>)>,
    failing: Vec<u64>,
    reads: u64,
    faults: u64,
    overlong: u64,
    blame: Option<Blame>,
}

impl Model for MemShelf {
    ghost use Rattle.lux_io.specs.MemShelves.{MemShelfState, contents_of};

    ghost Value = { MemShelfState };

    ghost view = { λ s. record { files = contents_of s.files.items; failing = s.failing.items; reads = s.reads; faults = s.faults; overlong = s.overlong; blame = s.blame } };
}

// The first file of this name.
fn find<'a>(files: &'a [(Name, Vec<u8>)], name: &Name) -> Option<&'a Vec<u8>>
    ensures none { IfNone result (file_of (contents_of files.now) name.now ≡ None) }
    ensures some { IfSome result (λ bytes. file_of (contents_of files.now) name.now ≡ Some bytes.now.items) }
{
    for file in files {
        if file.0.as_str() == name.as_str() {
            return Some(&file.1);
        }
    }
    None
}

// The same files once more.
fn copies(alloc: Global, files: &[(Name, Vec<u8>)]) -> Result<Vec<(Name, Vec<u8>)>, AllocError>
    ensures { IfOk result (λ copies. contents_of copies.items ≡ contents_of files.now) }
{
    let mut copies = Vec::new(alloc);
    for file in files {
        copies.push(copy(alloc, file)?)?;
    }
    Ok(copies)
}

// A file once more.
fn copy(alloc: Global, file: &(Name, Vec<u8>)) -> Result<(Name, Vec<u8>), AllocError>
    ensures { IfOk result (λ copy. (copy.0 ≡ file.now.0) × (copy.1.items ≡ file.now.1.items)) }
{
    let bytes = file.1.to_vec(alloc)?;
    match Name::new(alloc, file.0.as_str()) {
        Ok(name) => Ok((name, bytes)),
        Err(_) => Err(AllocError),
    }
}

impl MemShelf {
    /// A shelf of these files, in which the reads of these numbers fail. Of two files of one name the first counts.
    pub fn new(
        alloc: Global,
        files: &[(Name, Vec<u8>)],
        failing: &[u64],
    ) -> Result<MemShelf, AllocError>
        ensures { IfOk result (λ shelf. shelf ≡ record { files = contents_of files.now; failing = failing.now; reads = 0; faults = 0; overlong = 0; blame = None }) }
    {
        Ok(MemShelf {
            alloc,
            files: copies(alloc, files)?,
            failing: failing.to_vec(alloc)?,
            reads: 0,
            faults: 0,
            overlong: 0,
            blame: None,
        })
    }

    /// How many reads failed.
    pub fn faults(&self) -> u64
        ensures { result ≡ self.now.faults }
    {
        self.faults
    }

    /// How many files were too long for their reads.
    pub fn overlong(&self) -> u64
        ensures { result ≡ self.now.overlong }
    {
        self.overlong
    }
}

impl Shelf for MemShelf {
    ghost use Rattle.lux_io.specs.Shelves.{Reads};
    ghost use Rattle.lux_io.specs.MemShelves.{state_of, ReadsExactly};

    ghost state = { state_of };

    // A listed read fails, and so does one of a name that the shelf doesn't hold.
    fn read(&mut self, name: &Name, into: &mut Vec<u8>, limit: usize) -> Result<(), ShelfFault>
        ensures reads { Reads (state_of self.old) (state_of self.new) name.now limit into.old.items into.new.items result }
        ensures exact { ReadsExactly self.old name.now limit self.new result }
    {
        let number = self.reads;
        self.reads = number.saturating_add(1);
        let listed = self.failing.contains(&number);
        match find(&self.files, name) {
            Some(bytes) if !listed && bytes.len() <= limit => {
                let Ok(bytes) = bytes.to_vec(self.alloc) else {
                    return Err(ShelfFault::Memory);
                };
                *into = bytes;
                Ok(())
            }
            Some(_) if !listed => {
                self.overlong = self.overlong.saturating_add(1);
                self.blame = Some(Blame::new(Count::Overlong, name, limit));
                Err(ShelfFault::TooLong)
            }
            _ => {
                self.faults = self.faults.saturating_add(1);
                self.blame = Some(Blame::new(Count::Faults, name, limit));
                Err(ShelfFault::Failed)
            }
        }
    }
}
