// The top call.
ghost use Rattle.std.specs.Prelude.{map, string_bytes, Some};
ghost use Rattle.lux_plans.specs.Runs.{world, Follows};
ghost use Rattle.lux_top.specs.Commands.{command_of, plan_of, CommandRow};

use crate::audit_command::audit_files;
use crate::commands::{Command, read_words};
use crate::generate_command::generate;
use crate::photo_command::photo;
use crate::run_command::run;
use crate::solve_command::solve;
use lux_answers::{Answer, Outcome};
use lux_io::{Gate, Shelf, Sink};
use lux_plans::conclude;
use std::alloc::Global;
use std::sync::Wait;
use std::thread::Threads;

/// Does what the words say: reads the files of the command from the shelf, writes its text to `out`, and puts one line
/// to `notes` for each answer but `Done`. Words that are no command answer `Usage`.
///
/// The bytes are made whole and then put in pieces of 4,096, so that an answer other than `Done` and `Write` writes
/// nothing. `rt` starts the threads that make a room's shares and those of shooters; `gate` is called before each turn of a
/// shooter.
pub fn lux<R: Threads + Wait + Sync, S: Shelf, K: Sink, N: Sink, G: Gate>(
    rt: &R,
    alloc: Global,
    words: &[String],
    shelf: &mut S,
    out: &mut K,
    notes: &mut N,
    gate: &G,
) -> Outcome
    ensures follows { Follows (plan_of (command_of (map string_bytes words.now)))
        (world (S.state shelf.old) (K.state out.old) (N.state notes.old))
        (world (S.state shelf.new) (K.state out.new) (N.state notes.new))
        result }
    ensures row { CommandRow (command_of (map string_bytes words.now))
        (world (S.state shelf.old) (K.state out.old) (N.state notes.old))
        (world (S.state shelf.new) (K.state out.new) (N.state notes.new))
        result.answer }
{
    match read_words(alloc, words) {
        Err(_) => conclude(alloc, Err(Answer::Memory), out, notes),
        Ok(None) => conclude(alloc, Err(Answer::Usage), out, notes),
        Ok(Some(command)) => obey(rt, alloc, command, shelf, out, notes, gate),
    }
}

// Does a command.
fn obey<R: Threads + Sync, S: Shelf, K: Sink, N: Sink, G: Gate>(
    rt: &R,
    alloc: Global,
    command: Command,
    shelf: &mut S,
    out: &mut K,
    notes: &mut N,
    gate: &G,
) -> Outcome
    ensures follows { Follows (plan_of (Some command))
        (world (S.state shelf.old) (K.state out.old) (N.state notes.old))
        (world (S.state shelf.new) (K.state out.new) (N.state notes.new))
        result }
    ensures row { CommandRow (Some command)
        (world (S.state shelf.old) (K.state out.old) (N.state notes.old))
        (world (S.state shelf.new) (K.state out.new) (N.state notes.new))
        result.answer }
{
    match command {
        Command::Solve(name) => solve(alloc, &name, shelf, out, notes),
        Command::Photo(name) => photo(alloc, &name, shelf, out, notes),
        Command::Run(words) => run(rt, alloc, &words, shelf, out, notes, gate),
        Command::Audit { system, ledger } => {
            audit_files(alloc, &system, &ledger, shelf, out, notes)
        }
        Command::Generate(number) => generate(rt, alloc, number, out, notes, gate),
    }
}
