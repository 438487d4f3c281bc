// `lux` and `solve` over files in memory.
use crate::words::words_of;
use lux_io::{Gate, MemShelf, MemSink, Name};
use lux_top::{Outcome, lux, solve};
use std::alloc::Global;
use std::sync::Wait;
use std::test::Fail;
use std::thread::Threads;

/// A file of a shelf.
pub fn file(alloc: Global, name: &str, text: &str) -> Result<(Name, Vec<u8>), Fail> {
    Ok((Name::new(alloc, name)?, text.as_bytes().to_vec(alloc)?))
}

/// `lux` over files in memory, called in one place for all tests: each place costs a proof.
pub fn lux_in_memory<R: Threads + Wait + Sync, G: Gate>(
    rt: &R,
    alloc: Global,
    line: &str,
    shelf: &mut MemShelf,
    out: &mut MemSink,
    notes: &mut MemSink,
    gate: &G,
) -> Result<Outcome, Fail> {
    let words = words_of(alloc, line)?;
    Ok(lux(rt, alloc, &words, shelf, out, notes, gate))
}

/// `solve` likewise.
pub fn solve_in_memory(
    alloc: Global,
    name: &Name,
    shelf: &mut MemShelf,
    out: &mut MemSink,
    notes: &mut MemSink,
) -> Outcome {
    solve(alloc, name, shelf, out, notes)
}
