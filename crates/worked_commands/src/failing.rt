// Reads, pieces of output and notes that fail, each in turn, for every command.
use crate::files::{file, lux_in_memory};
use crate::meetings::{OFFICE, OFFICE_PANEL};
use lux_io::{FreeGate, MemShelf, MemSink};
use std::alloc::Global;
use std::process::Abort;
use std::sync::Wait;
use std::test::Fail;
use std::thread::Threads;
use worked_texts::{ONE, TWO_PATCHES, TWO_PATCHES_LEDGER};

/// How many bytes are put to the output at once.
const PIECE: usize = 4_096;

// How a command ended.
#[derive(Drop)]
struct Ending {
    status: u8,
    written: Vec<u8>,
    noted: Vec<u8>,
}

// A file for each command, on a shelf in which the reads of these numbers fail.
fn shelf(alloc: Global, failing: &[u64]) -> Result<MemShelf, Fail> {
    let mut files = Vec::new(alloc);
    files.push(file(alloc, "s", TWO_PATCHES)?)?;
    files.push(file(alloc, "l", TWO_PATCHES_LEDGER)?)?;
    files.push(file(alloc, "one.ies", ONE)?)?;
    files.push(file(alloc, "office.toml", OFFICE)?)?;
    files.push(file(alloc, "office.ies", OFFICE_PANEL)?)?;
    Ok(MemShelf::new(alloc, &files, failing)?)
}

// How a command ends where reads, pieces of the output and notes of these numbers fail.
fn ending_of<R: Threads + Wait + Sync>(
    rt: &R,
    alloc: Global,
    line: &str,
    reads: &[u64],
    pieces: &[u64],
    notes: &[u64],
) -> Result<Ending, Fail> {
    let mut shelf = shelf(alloc, reads)?;
    let mut out = MemSink::new(alloc, 100_000, pieces)?;
    let mut notes = MemSink::new(alloc, 1_000, notes)?;
    let outcome = lux_in_memory(rt, alloc, line, &mut shelf, &mut out, &mut notes, &FreeGate)?;
    Ok(Ending {
        status: outcome.status,
        written: Vec::from_slice(alloc, out.written())?,
        noted: Vec::from_slice(alloc, notes.written())?,
    })
}

fn assert_ending(rt: &impl Abort, ending: &Ending, status: u8, written: &[u8], noted: &[u8]) {
    assert_eq!(rt; ending.status, status);
    assert_eq!(rt; ending.written.as_slice(), written);
    assert_eq!(rt; ending.noted.as_slice(), noted);
}

// A read that fails is noted by its file's name, and nothing is written; one more than the command makes doesn't come.
#[test]
fn each_read_that_fails_is_noted(rt: HostRuntime) -> Result<(), Fail> {
    let alloc = rt.alloc();
    let rows: [(&str, &[&str], u8); 5] = [
        ("solve s", &["s"], 0),
        ("photo one.ies", &["one.ies"], 0),
        ("run office.toml", &["office.toml", "office.ies"], 1),
        ("audit s l", &["s", "l"], 0),
        ("gen 0", &[], 0),
    ];
    for (line, names, status) in rows {
        for (read, name) in names.iter().enumerate() {
            let ending = ending_of(&rt, alloc, line, &[read as u64], &[], &[])?;
            let note = format!(in alloc; "lux: cannot read {name}\n")?;
            assert_ending(&rt, &ending, 6, b"", note.as_bytes());
        }
        let ending = ending_of(&rt, alloc, line, &[names.len() as u64], &[], &[])?;
        assert_eq!(rt; ending.status, status);
        assert!(rt; ending.noted.is_empty());
    }
    Ok(())
}

// Of a piece that fails the output takes the first half, behind all pieces before it.
#[test]
fn each_piece_that_fails_cuts_the_output_off(rt: HostRuntime) -> Result<(), Fail> {
    let alloc = rt.alloc();
    let rows: [(&str, usize); 5] = [
        ("solve s", 1),
        ("photo one.ies", 1),
        ("run office.toml --shooters 1", 13),
        ("audit s l", 1),
        ("gen 0", 1),
    ];
    for (line, pieces) in rows {
        let whole = ending_of(&rt, alloc, line, &[], &[], &[])?;
        assert_eq!(rt; whole.written.len().div_ceil(PIECE), pieces);
        for piece in 0..pieces {
            let ending = ending_of(&rt, alloc, line, &[], &[piece as u64], &[])?;
            let start = PIECE * piece;
            let size = PIECE.min(whole.written.len() - start);
            let front = &whole.written[..start + size / 2];
            assert_ending(&rt, &ending, 7, front, b"lux: cannot write\n");
        }
    }
    Ok(())
}

// A note that fails changes no answer.
#[test]
fn a_note_that_fails_is_cut_off(rt: HostRuntime) -> Result<(), Fail> {
    let alloc = rt.alloc();
    let rows: [(&str, u8, &str); 3] = [
        (
            "none",
            3,
            "lux: usage: lux solve FILE | photo FILE | run PROJECT [-",
        ),
        ("solve none", 6, "lux: cannot"),
        ("audit l l", 4, "lux: syste"),
    ];
    for (line, status, note) in rows {
        let ending = ending_of(&rt, alloc, line, &[], &[], &[0])?;
        assert_ending(&rt, &ending, status, b"", note.as_bytes());
    }
    Ok(())
}

#[test]
fn an_audit_finds_a_settled_ledger_balanced(rt: HostRuntime) -> Result<(), Fail> {
    let alloc = rt.alloc();
    let ending = ending_of(&rt, alloc, "audit s l", &[], &[], &[])?;
    let written = b"balanced\ninterval 0 1066 1069\ninterval 1 265 268\n";
    assert_ending(&rt, &ending, 0, written, b"");
    Ok(())
}
