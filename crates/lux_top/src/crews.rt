// A crew of shooters that settles a problem.
ghost use Rattle.std.specs.Prelude.{◌≡◌, ◌+◌, ◌<◌, ◌≤◌, ◌^◌, IfOk, length, sum};
ghost use Rattle.flux_system.specs.System.{patches};
ghost use Rattle.flux_ledger.specs.Balance.{IsBalanced, IsFinished, IsPaid};
ghost use Rattle.picker.specs.Picks.{IsPick};

use crew::Crew;
use flux_ledger::Ledger;
use flux_system::System;
use lux_io::Gate;
use picker::{Picker, greatest, striped};
use run_words::ShooterCount;
use std::alloc::{AllocError, Global};
use std::thread::Threads;

/// The ledger that so many shooters leave together, and what settles after them. The first goes to the greatest of the values
/// that it remembers, and each other to patches of its own stripe first.
pub(crate) fn shoot<R: Threads + Sync, G: Gate>(
    rt: &R,
    alloc: Global,
    system: &System,
    flux: &[u64],
    shooters: ShooterCount,
    gate: &G,
) -> Result<Ledger, AllocError>
    requires lengths { length flux.now ≡ patches system.now }
    requires few { sum flux.now ≤ 10 ^ 16 }
    ensures finished { IfOk result (λ ledger. IsFinished system.now ledger) }
    ensures balanced { IfOk result (λ ledger. IsBalanced system.now ledger) }
    ensures paid { IfOk result (λ ledger. IsPaid system.now ledger) }
    ensures direct { IfOk result (λ ledger. ledger.direct ≡ flux.now) }
    ensures parts { IfOk result (λ ledger. ledger.parts ≡ 1 + shooters) }
{
    let count = shooters.get() as usize;
    let mut pickers = Vec::with_capacity(alloc, count)?;
    for number in 0..count {
        let choice = move |values: &[u64], threshold: u64|
            requires { number < count }
            ensures pick { IsPick values.now threshold result }
        {
            if number == 0 {
                greatest(values, threshold)
            } else {
                striped(number, count, values, threshold)
            }
        };
        pickers.push(Picker::new(Box::new(alloc, choice)?))?;
    }
    let mut crew = Crew::start(alloc, system, flux, pickers)?;
    crew.work(rt, system, gate);
    crew.finish(system)
}
