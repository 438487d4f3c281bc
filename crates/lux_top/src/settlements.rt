// The settled ledger of a problem, as text.
ghost use Rattle.std.specs.Prelude.{◌≡◌, length, IfOk, OnOk};
ghost use Rattle.enclosure.specs.Interval.{IsDone, EnclosesAll};
ghost use Rattle.flux_system.specs.System.{patches};
ghost use Rattle.lux_plans.specs.Plans.{Gives};
ghost use Rattle.lux_top.specs.SystemFiles.{IsWithinLimits};
ghost use Rattle.lux_top.specs.Settlements.{ledger_with_intervals, settled_writing, settlement};

use compliance::Worst;
use enclosure::all;
use flux_ledger::{Ledger, ledger_text, push_intervals};
use flux_system::System;
use lux_answers::Answer;
use lux_plans::Writing;
use shot_core::serial;
use std::alloc::{AllocError, Global};

/// The settled ledger of a flux system and a direct flux within the limits, and its text.
pub(crate) fn settle(alloc: Global, system: &System, flux: &[u64]) -> Result<Writing, Answer>
    requires lengths { length flux.now ≡ patches system.now }
    requires limited { IsWithinLimits (system.now, flux.now) }
    ensures { Gives (settlement (system.now, flux.now)) result }
{
    let Ok(ledger) = serial(alloc, system, flux) else {
        return Err(Answer::Memory);
    };
    match write_ledger(alloc, system, ledger) {
        Ok(writing) => Ok(writing),
        Err(_) => Err(Answer::Memory),
    }
}

// What is written of a finished ledger.
fn write_ledger(alloc: Global, system: &System, ledger: Ledger) -> Result<Writing, AllocError>
    requires { IsDone system.now ledger }
    ensures writing { IfOk result (λ writing. writing ≡ settled_writing (system.now, ledger.direct) ledger) }
    ensures encloses { OnOk result (EnclosesAll system.now ledger) }
{
    let bytes = ledger_with_intervals(alloc, system, &ledger)?;
    let answer = Answer::Done {
        ledger: Some(ledger),
        worst: Worst::AllPass,
    };
    Ok(Writing { answer, bytes })
}

// A ledger's text, and a line for the interval of each patch.
fn ledger_with_intervals(
    alloc: Global,
    system: &System,
    ledger: &Ledger,
) -> Result<Vec<u8>, AllocError>
    requires { IsDone system.now ledger.now }
    ensures text { IfOk result (λ text. text.items ≡ ledger_with_intervals system.now ledger.now) }
    ensures encloses { OnOk result (EnclosesAll system.now ledger.now) }
{
    let mut text = ledger_text(alloc, ledger)?;
    let ends = all(alloc, system, ledger)?;
    push_intervals(&mut text, &ends)?;
    Ok(text)
}
