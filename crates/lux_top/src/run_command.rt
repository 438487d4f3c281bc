// `run PROJECT [--shooters N] [--csv]`: a project and the photometry of its luminaires are read, its room is lit, its flux
// shot by so many shooters and then settled, what is exact enclosed, its checks judged, and all of it reported.
ghost use Rattle.lux_plans.specs.Plans.{Takes};
ghost use Rattle.lux_plans.specs.Runs.{world, Follows};
ghost use Rattle.lux_top.specs.RunCommand.{run_plan, RunRow};

use crate::project_files::read_lit_room;
use crate::reports::report;
use lux_answers::{Answer, Outcome};
use lux_io::{Gate, Shelf, Sink};
use lux_plans::{Writing, conclude};
use run_words::RunWords;
use std::alloc::Global;
use std::thread::Threads;

/// Reads the project that the words name and each photometry file that it names, lights its room, has so many shooters shoot
/// its flux, each in a thread where one can be had, settles what they leave, and writes the report: an interval for each
/// patch, which encloses the exact solution, and for each check an interval for each point, for the average and for the
/// uniformity, with their verdicts. The gate is called before each turn of a shooter. The shares of a large room are made in
/// threads too.
///
/// With one shooter the report is always the same. With more it may be another in each run, since it depends on who took
/// what when; what is promised of it is the same.
///
/// The answers are `Done` with a finished ledger and what the verdicts come to, `Read`, `TooLong`, `Project`, `Photometry`,
/// `Room`, `Fixture`, `Limits`, `Grid`, `Write` and `Memory`.
pub fn run<R: Threads + Sync, S: Shelf, K: Sink, N: Sink, G: Gate>(
    rt: &R,
    alloc: Global,
    words: &RunWords,
    shelf: &mut S,
    out: &mut K,
    notes: &mut N,
    gate: &G,
) -> Outcome
    ensures follows { Follows (run_plan words.now)
        (world (S.state shelf.old) (K.state out.old) (N.state notes.old))
        (world (S.state shelf.new) (K.state out.new) (N.state notes.new))
        result }
    ensures row { RunRow words.now
        (world (S.state shelf.old) (K.state out.old) (N.state notes.old))
        (world (S.state shelf.new) (K.state out.new) (N.state notes.new))
        result.answer }
{
    let decided = decide(rt, alloc, words, shelf, gate);
    conclude(alloc, decided, out, notes)
}

fn decide<R: Threads + Sync, S: Shelf, G: Gate>(
    rt: &R,
    alloc: Global,
    words: &RunWords,
    shelf: &mut S,
    gate: &G,
) -> Result<Writing, Answer>
    ensures { Takes (run_plan words.now) (S.state shelf.old) (S.state shelf.new) result }
{
    match read_lit_room(rt, alloc, &words.project, shelf) {
        Ok(lit_room) => report(rt, alloc, &lit_room, words.shooters, words.form, gate),
        Err(answer) => Err(answer),
    }
}
