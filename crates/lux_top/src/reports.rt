// The report on a lit room.
ghost use Rattle.std.specs.Prelude.{◌≡◌, ◌+◌, IfOk};
ghost use Rattle.enclosure.specs.Interval.{IsDone};
ghost use Rattle.flux_ledger.specs.Balance.{IsPaid};
ghost use Rattle.lit_room.specs.LitRooms.{system_of, flux_of};
ghost use Rattle.lux_plans.specs.Plans.{Gives};
ghost use Rattle.lux_top.specs.RunCommand.{IsRoomLedger, crew_report, report_bytes, report_writing};
ghost use Rattle.lux_report.specs.Facts.{AreWhole};
ghost use Rattle.lux_report.specs.Report.{report_text, report_csv};

use crate::crews::shoot;
use compliance::worst;
use flux_ledger::Ledger;
use lit_room::LitRoom;
use lux_answers::Answer;
use lux_io::Gate;
use lux_plans::Writing;
use lux_report::{Facts, report_csv, report_text};
use project_file::Project;
use room_facts::find_facts;
use run_words::{ReportForm, ShooterCount};
use std::alloc::{AllocError, Global};
use std::thread::Threads;

/// The report on a lit room, whose flux so many shooters shoot.
pub(crate) fn report<R: Threads + Sync, G: Gate>(
    rt: &R,
    alloc: Global,
    lit_room: &LitRoom,
    shooters: ShooterCount,
    form: ReportForm,
    gate: &G,
) -> Result<Writing, Answer>
    ensures { Gives (crew_report form shooters lit_room.now) result }
{
    let flux = lit_room.flux();
    let Ok(ledger) = shoot(rt, alloc, lit_room.system(), flux, shooters, gate) else {
        return Err(Answer::Memory);
    };
    match report_on(alloc, lit_room, shooters, form, ledger) {
        Ok(writing) => Ok(writing),
        Err(_) => Err(Answer::Memory),
    }
}

// What is written of a ledger of the lit room, which so many shooters left.
fn report_on(
    alloc: Global,
    lit_room: &LitRoom,
    shooters: ShooterCount,
    form: ReportForm,
    ledger: Ledger,
) -> Result<Writing, AllocError>
    requires done { IsDone (system_of lit_room.now) ledger }
    requires paid { IsPaid (system_of lit_room.now) ledger }
    requires direct { ledger.direct ≡ flux_of lit_room.now }
    requires parts { ledger.parts ≡ 1 + shooters }
    ensures writing { IfOk result (λ writing. writing ≡ report_writing form shooters lit_room.now ledger) }
    ensures ledger { IfOk result (λ _. IsRoomLedger shooters lit_room.now ledger) }
{
    let facts = find_facts(alloc, lit_room, shooters.get(), &ledger)?;
    let bytes = report_bytes(alloc, lit_room.project(), &ledger, &facts, form)?;
    let answer = Answer::Done {
        ledger: Some(ledger),
        worst: worst(facts.judged()),
    };
    Ok(Writing { answer, bytes })
}

// The report in its form.
fn report_bytes(
    alloc: Global,
    project: &Project,
    ledger: &Ledger,
    facts: &Facts,
    form: ReportForm,
) -> Result<Vec<u8>, AllocError>
    requires { AreWhole project.now ledger.now facts.now }
    ensures text { form ≡ ReportForm.Text → IfOk result (λ bytes. bytes.items ≡ report_text project.now ledger.now facts.now) }
    ensures csv { form ≡ ReportForm.Csv → IfOk result (λ bytes. bytes.items ≡ report_csv project.now ledger.now facts.now) }
{
    match form {
        ReportForm::Text => report_text(alloc, project, ledger, facts),
        ReportForm::Csv => report_csv(alloc, project, ledger, facts),
    }
}
