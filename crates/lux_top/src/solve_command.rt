// `solve FILE`: a system text is read, its flux settled on one thread, and what is exact enclosed.
ghost use Rattle.lux_plans.specs.Plans.{Takes};
ghost use Rattle.lux_plans.specs.Runs.{world, Follows};
ghost use Rattle.lux_top.specs.SolveCommand.{solve_plan, SolveRow};

use crate::settlements::settle;
use crate::system_files::read_problem;
use lux_answers::{Answer, Outcome};
use lux_io::{Name, Shelf, Sink};
use lux_plans::{Writing, conclude};
use std::alloc::Global;

/// Reads the system text of that name, settles its flux from nothing taken, and writes the ledger's text
/// with an interval for each patch, which encloses the exact solution.
///
/// The answers are `Done` with the settled ledger, `Read`, `TooLong`, `System`, `Limits`, `Write` and `Memory`.
pub fn solve<S: Shelf, K: Sink, N: Sink>(
    alloc: Global,
    name: &Name,
    shelf: &mut S,
    out: &mut K,
    notes: &mut N,
) -> Outcome
    ensures follows { Follows (solve_plan name.now)
        (world (S.state shelf.old) (K.state out.old) (N.state notes.old))
        (world (S.state shelf.new) (K.state out.new) (N.state notes.new))
        result }
    ensures row { SolveRow name.now
        (world (S.state shelf.old) (K.state out.old) (N.state notes.old))
        (world (S.state shelf.new) (K.state out.new) (N.state notes.new))
        result.answer }
{
    let decided = decide(alloc, name, shelf);
    conclude(alloc, decided, out, notes)
}

fn decide<S: Shelf>(alloc: Global, name: &Name, shelf: &mut S) -> Result<Writing, Answer>
    ensures { Takes (solve_plan name.now) (S.state shelf.old) (S.state shelf.new) result }
{
    match read_problem(alloc, name, shelf) {
        Ok(problem) => settle(alloc, &problem.system, &problem.flux),
        Err(answer) => Err(answer),
    }
}
