// What is put to the sinks once a command is decided. Nothing else touches the output and the notes.
ghost use Rattle.std.specs.Prelude.{◌⊎◌};
ghost use Rattle.lux_io.specs.Shelves.{ShelfState};
ghost use Rattle.lux_io.specs.Sinks.{SinkState, Puts, Wrote, WroteSome};
ghost use Rattle.lux_plans.specs.Runs.{world, Writes, Concludes};

use crate::Writing;
use lux_answers::{Answer, Outcome};
use lux_io::{Failed, Sink};
use std::alloc::Global;

/// How many bytes are put to the output at once.
const PIECE: usize = 4_096;

// Puts bytes in pieces, the last one shorter.
fn put_all<K: Sink>(bytes: &[u8], out: &mut K) -> Result<(), Failed>
    ensures { Puts (K.state out.old) (K.state out.new) bytes.now result }
{
    let mut start = 0;
    while start < bytes.len() {
        let size = PIECE.min(bytes.len() - start);
        match out.put(&bytes[start..start + size]) {
            Ok(()) => start += size,
            Err(fault) => return Err(fault),
        }
    }
    Ok(())
}

// Puts a line; its failure changes nothing.
fn put_line<N: Sink>(line: &[u8], notes: &mut N)
    ensures { Wrote (N.state notes.old) (N.state notes.new) line.now ⊎ WroteSome (N.state notes.old) (N.state notes.new) line.now }
{
    match notes.put(line) {
        Ok(()) => (),
        Err(_) => (),
    }
}

// Puts the answer's line. Where there is no memory for it, the answer is that.
fn refuse<N: Sink>(alloc: Global, answer: Answer, notes: &mut N) -> Outcome
    ensures { (before after : ShelfState) (out : SinkState) → Concludes (Err answer) (world before out (N.state notes.old)) (world after out (N.state notes.new)) result }
{
    match answer.note(alloc) {
        Ok(line) => {
            put_line(line.as_bytes(), notes);
            Outcome::new(answer)
        }
        Err(_) => {
            put_line(b"lux: out of memory\n", notes);
            Outcome::new(Answer::Memory)
        }
    }
}

// Puts all bytes to the output, or the line of what stopped it.
fn write<K: Sink, N: Sink>(writing: Writing, out: &mut K, notes: &mut N) -> Outcome
    ensures { (before after : ShelfState) → Writes writing (world before (K.state out.old) (N.state notes.old)) (world after (K.state out.new) (N.state notes.new)) result }
{
    match put_all(&writing.bytes, out) {
        Ok(()) => Outcome::new(writing.answer),
        Err(_) => {
            put_line(b"lux: cannot write\n", notes);
            Outcome::new(Answer::Write)
        }
    }
}

/// Writes what was decided, or puts the line of the refusal.
pub fn conclude<K: Sink, N: Sink>(
    alloc: Global,
    decided: Result<Writing, Answer>,
    out: &mut K,
    notes: &mut N,
) -> Outcome
    ensures { (before after : ShelfState) → Concludes decided (world before (K.state out.old) (N.state notes.old)) (world after (K.state out.new) (N.state notes.new)) result }
{
    match decided {
        Err(answer) => refuse(alloc, answer, notes),
        Ok(writing) => write(writing, out, notes),
    }
}
