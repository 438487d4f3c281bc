// The problem of a system file.
ghost use Rattle.std.specs.Prelude.{◌<◌, ◌^◌, length};
ghost use Rattle.lux_plans.specs.Plans.{Takes, Gives, and_then};
ghost use Rattle.lux_top.specs.SystemFiles.{system_text, within_limits, problem_file};

use flux_system::System;
use lux_answers::Answer;
use lux_io::{Name, Shelf};
use lux_plans::read_file;
use std::alloc::Global;
use std::marker::Model;
use system_file::{SysFault, read_system};

/// The most bytes of a system text.
const SYSTEM_LIMIT: usize = 16_777_216;

/// What a system text says: a flux system, and the direct flux of each patch in nanolumens, within the limits. Contracts
/// see it as a pair.
#[derive(Drop)]
pub(crate) struct Problem {
    pub system: System,
    pub flux: Vec<u64>,
}

impl Model for Problem {
    ghost use Rattle.std.specs.Prelude.{◌≡◌, length};
    ghost use Rattle.flux_system.specs.System.{patches};
    ghost use Rattle.lux_top.specs.SystemFiles.{Problem, IsWithinLimits};

    ghost Value = { Problem };

    ghost view = { λ p. (p.system, p.flux.items) };

    ghost invariant = { λ p. (length p.flux.items ≡ patches p.system) × IsWithinLimits (p.system, p.flux.items) };
}

/// The problem of a file.
pub(crate) fn read_problem<S: Shelf>(
    alloc: Global,
    name: &Name,
    shelf: &mut S,
) -> Result<Problem, Answer>
    ensures { Takes (problem_file name.now) (S.state shelf.old) (S.state shelf.new) result }
{
    match read_file(alloc, name, SYSTEM_LIMIT, shelf) {
        Ok(text) => accept_text(alloc, text),
        Err(answer) => Err(answer),
    }
}

// The problem of a text.
fn accept_text(alloc: Global, text: Vec<u8>) -> Result<Problem, Answer>
    requires { length text.items < 2 ^ 31 }
    ensures { Gives (and_then (system_text text.items) within_limits) result }
{
    match read_system(alloc, &text) {
        Ok((system, flux)) => match system.takes_bound(&flux) {
            Ok(_) => Ok(Problem { system, flux }),
            Err(fault) => Err(Answer::Limits(fault)),
        },
        Err(SysFault::Memory) => Err(Answer::Memory),
        Err(fault) => Err(Answer::System(fault)),
    }
}
