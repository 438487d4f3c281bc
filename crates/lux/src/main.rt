//! The program `lux`: it runs a command over real files, standard output and standard error.
//!
//! What a command does is `lux_top`'s; here stand the adapters to the outside, [`FileShelf`] and [`StreamSink`], whose
//! counts and limits are proved and whose bytes no contract can tell. `main` reads the words of the command line: a word
//! that isn't text is no word of a command, so the answer is then that of no command at all, and where there is no
//! memory for the words, the answer is the one for that.
#![tactic(auto)]

mod counted_readers;
mod file_shelves;
mod stream_sinks;
mod tries;

use file_shelves::FileShelf;
use lux_io::{FreeGate, Sink};
use lux_top::lux;
use std::alloc::AllocError;
use std::env;
use std::io::ErrorKind;
use std::process::ExitCode;
use stream_sinks::StreamSink;

// The status of an answer that memory was wanting.
const NO_MEMORY: u8 = 8;

fn main(rt: HostRuntime) -> ExitCode {
    let alloc = rt.alloc();
    let mut shelf = FileShelf::new(&rt, alloc);
    let mut out = StreamSink::new(rt.stdout());
    let mut notes = StreamSink::new(rt.stderr());
    let words = match env::args(&rt) {
        Ok(words) => words.skip(1).collect(alloc),
        Err(error) if error.kind() == ErrorKind::OutOfMemory => Err(AllocError),
        Err(_) => Ok(Vec::new(alloc)),
    };
    let Ok(words) = words else {
        let _ = notes.put(b"lux: out of memory\n");
        return ExitCode::from(NO_MEMORY);
    };
    let outcome = lux(
        &rt, alloc, &words, &mut shelf, &mut out, &mut notes, &FreeGate,
    );
    ExitCode::from(outcome.status)
}
