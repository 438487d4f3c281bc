// One file of a command.
ghost use Rattle.std.specs.Prelude.{◌≡◌, ◌≤◌, ◌⊎◌, length, IfOk};
ghost use Rattle.lux_plans.specs.Plans.{file, Takes, items_of};

use lux_answers::Answer;
use lux_io::{Name, Shelf, ShelfFault};
use std::alloc::{AllocError, Global};

/// A name once more.
pub fn copy_of(alloc: Global, name: &Name) -> Result<Name, AllocError>
    ensures { IfOk result (λ copy. copy ≡ name.now) }
{
    match Name::new(alloc, name.as_str()) {
        Ok(copy) => Ok(copy),
        Err(_) => Err(AllocError),
    }
}

// The answer for a file whose read failed.
fn failure(alloc: Global, name: &Name) -> Answer
    ensures { (result ≡ Answer.Read name.now) ⊎ (result ≡ Answer.Memory) }
{
    match copy_of(alloc, name) {
        Ok(name) => Answer::Read { name },
        Err(_) => Answer::Memory,
    }
}

// The answer for a file that is too long.
fn excess(alloc: Global, name: &Name) -> Answer
    ensures { (result ≡ Answer.TooLong name.now) ⊎ (result ≡ Answer.Memory) }
{
    match copy_of(alloc, name) {
        Ok(name) => Answer::TooLong { name },
        Err(_) => Answer::Memory,
    }
}

/// The bytes of a file, at most `limit` of them, or the answer for a file that was not read.
pub fn read_file<S: Shelf>(
    alloc: Global,
    name: &Name,
    limit: usize,
    shelf: &mut S,
) -> Result<Vec<u8>, Answer>
    ensures taken { Takes (file name.now limit) (S.state shelf.old) (S.state shelf.new) (items_of result) }
    ensures short { IfOk result (λ bytes. length bytes.items ≤ limit) }
{
    let mut bytes = Vec::new(alloc);
    match shelf.read(name, &mut bytes, limit) {
        Ok(()) => Ok(bytes),
        Err(ShelfFault::Failed) => Err(failure(alloc, name)),
        Err(ShelfFault::TooLong) => Err(excess(alloc, name)),
        Err(ShelfFault::Memory) => Err(Answer::Memory),
    }
}
