// `audit SYSTEM LEDGER`: a system text and a ledger text are read, and the ledger is found to be one of the system's problem, with the
// intervals that it has, or not.
ghost use Rattle.std.specs.Prelude.{◌≡◌, length, IfOk, IfSome, OnOk};
ghost use Rattle.std.specs.Option.{option_map};
ghost use Rattle.enclosure.specs.Interval.{IsDone, EnclosesAll};
ghost use Rattle.flux_ledger.specs.Balance.{HasPatches};
ghost use Rattle.flux_system.specs.System.{patches};
ghost use Rattle.ledger_audit.specs.declared.findings.Finding.TheVariants.{Balanced};
ghost use Rattle.lux_plans.specs.Plans.{Takes, Gives};
ghost use Rattle.lux_plans.specs.Runs.{world, Follows};
ghost use Rattle.lux_top.specs.AuditCommand.{audit_plan, audit_writing, file_audit, file_finding, intervals_finding, ledger_audit, AuditRow};
ghost use Rattle.lux_top.specs.SystemFiles.{IsWithinLimits};

use crate::ledger_files::read_ledger_file;
use crate::system_files::{Problem, read_problem};
use compliance::Worst;
use enclosure::all;
use flux_ledger::{Ledger, push_intervals};
use flux_system::System;
use ledger_audit::{Finding, audit, audit_bounds};
use ledger_file::LedgerFile;
use lux_answers::{Answer, Outcome};
use lux_io::{Name, Shelf, Sink};
use lux_plans::{Writing, conclude};
use std::alloc::{AllocError, Global};

/// Reads the system text and the ledger text of these names, and writes that the ledger is balanced, with an interval for
/// each patch, which encloses the exact solution. Nothing is assumed of who made the ledger.
///
/// The answers are `Done` with the ledger that was read, `Read`, `TooLong`, `System`, `Limits`, `LedgerText`, `AuditNo` with
/// what was found, `Write` and `Memory`. The intervals of the file, where it has some, are compared with the right ones.
pub fn audit_files<S: Shelf, K: Sink, N: Sink>(
    alloc: Global,
    system: &Name,
    ledger: &Name,
    shelf: &mut S,
    out: &mut K,
    notes: &mut N,
) -> Outcome
    ensures follows { Follows (audit_plan system.now ledger.now)
        (world (S.state shelf.old) (K.state out.old) (N.state notes.old))
        (world (S.state shelf.new) (K.state out.new) (N.state notes.new))
        result }
    ensures row { AuditRow system.now ledger.now
        (world (S.state shelf.old) (K.state out.old) (N.state notes.old))
        (world (S.state shelf.new) (K.state out.new) (N.state notes.new))
        result.answer }
{
    let decided = decide(alloc, system, ledger, shelf);
    conclude(alloc, decided, out, notes)
}

fn decide<S: Shelf>(
    alloc: Global,
    system: &Name,
    ledger: &Name,
    shelf: &mut S,
) -> Result<Writing, Answer>
    ensures { Takes (audit_plan system.now ledger.now) (S.state shelf.old) (S.state shelf.new) result }
{
    match read_problem(alloc, system, shelf) {
        Ok(problem) => audit_file(alloc, &problem, ledger, shelf),
        Err(answer) => Err(answer),
    }
}

// The ledger file is read, and audited.
fn audit_file<S: Shelf>(
    alloc: Global,
    problem: &Problem,
    name: &Name,
    shelf: &mut S,
) -> Result<Writing, Answer>
    ensures { Takes (ledger_audit name.now problem.now) (S.state shelf.old) (S.state shelf.new) result }
{
    match read_ledger_file(alloc, name, shelf) {
        Ok(file) => audit_ledger(alloc, problem, file),
        Err(answer) => Err(answer),
    }
}

// The audit of what a ledger file says.
fn audit_ledger(alloc: Global, problem: &Problem, file: LedgerFile) -> Result<Writing, Answer>
    requires lengths { HasPatches (length file.ledger.direct) file.ledger }
    requires intervals { IfSome file.intervals (λ ends. length ends ≡ length file.ledger.direct) }
    ensures { Gives (file_audit problem.now file) result }
{
    match find(&problem.system, &problem.flux, &file) {
        Finding::Balanced => match report(alloc, &problem.system, file.ledger) {
            Ok(writing) => Ok(writing),
            Err(_) => Err(Answer::Memory),
        },
        found => Err(Answer::AuditNo(found)),
    }
}

// What is found: of the ledger, and where that is balanced, of its intervals.
fn find(system: &System, flux: &[u64], file: &LedgerFile) -> Finding
    requires flux { length flux.now ≡ patches system.now }
    requires limited { IsWithinLimits (system.now, flux.now) }
    requires lengths { HasPatches (length file.now.ledger.direct) file.now.ledger }
    requires intervals { IfSome file.now.intervals (λ ends. length ends ≡ length file.now.ledger.direct) }
    ensures found { result ≡ file_finding (system.now, flux.now) file.now }
    ensures done { result ≡ Balanced → IsDone system.now file.now.ledger }
    ensures same_flux { result ≡ Balanced → file.now.ledger.direct ≡ flux.now }
{
    match audit(system, flux, &file.ledger) {
        Finding::Balanced => find_bounds(system, &file.ledger, &file.intervals),
        found => found,
    }
}

// What is found of the intervals of a balanced ledger, where it has some.
fn find_bounds(system: &System, ledger: &Ledger, intervals: &Option<Vec<(u64, u64)>>) -> Finding
    requires done { IsDone system.now ledger.now }
    requires intervals { IfSome intervals.now (λ ends. length ends.items ≡ length ledger.now.direct) }
    ensures { result ≡ intervals_finding system.now ledger.now (option_map (λ ends. ends.items) intervals.now) }
{
    match intervals {
        Some(given) => audit_bounds(system, ledger, given),
        None => Finding::Balanced,
    }
}

// That a ledger is balanced, and a line for the interval of each patch.
fn report(alloc: Global, system: &System, ledger: Ledger) -> Result<Writing, AllocError>
    requires { IsDone system.now ledger }
    ensures writing { IfOk result (λ writing. writing ≡ audit_writing (system.now, ledger.direct) ledger) }
    ensures encloses { OnOk result (EnclosesAll system.now ledger) }
{
    let ends = all(alloc, system, &ledger)?;
    let mut bytes = Vec::new(alloc);
    bytes.extend_from_slice(b"balanced\n")?;
    push_intervals(&mut bytes, &ends)?;
    let answer = Answer::Done {
        ledger: Some(ledger),
        worst: Worst::AllPass,
    };
    Ok(Writing { answer, bytes })
}
