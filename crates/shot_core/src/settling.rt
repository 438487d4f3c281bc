// Settling on one thread.
ghost use Rattle.std.specs.Prelude.{◌≡◌, ◌≤◌, ◌^◌, IfOk, length, sum};
ghost use Rattle.flux_system.specs.System.{patches};
ghost use Rattle.flux_ledger.specs.Balance.{IsBalanced, IsFinished, IsPaid};
ghost use Rattle.shot_core.specs.Settling.{settled_ledger, untouched_ledger};
ghost use Rattle.shot_core.specs.Shapes.{AreSmall};

use crate::brightest::follow;
use crate::shots::{shoot, shoot_first};
use flux_ledger::{Amounts, Ledger};
use flux_system::System;
use picker::Tournament;
use std::alloc::{AllocError, Global};
use std::marker::Model;

/// What settling needs beside a ledger. Contracts see it as the number of patches that it was made for.
#[derive(Debug, Drop)]
pub struct Settler {
    tournament: Tournament,
}

impl Model for Settler {
    ghost use Rattle.std.specs.Prelude.{ℕ, length};

    ghost Value = { ℕ };

    ghost view = { λ settler. length settler.tournament };
}

impl Settler {
    /// A settler for systems of `n` patches.
    pub fn new(alloc: Global, n: usize) -> Result<Settler, AllocError>
        requires { 1 ≤ n }
        ensures { IfOk result (λ settler. settler ≡ n) }
    {
        let nothing = Vec::from_elem(alloc, 0, n)?;
        Ok(Settler {
            tournament: Tournament::new(alloc, nothing.as_slice())?,
        })
    }
}

/// Shoots the first patch of the greatest residual, again and again while that residual reaches the threshold. The
/// settler is one for as many patches as the system has. Takes no memory.
pub fn settle(system: &System, settler: &mut Settler, ledger: &mut Ledger)
    requires balanced { IsBalanced system.now ledger.old }
    requires paid { IsPaid system.now ledger.old }
    requires flux { sum ledger.old.direct ≤ 10 ^ 16 }
    requires settler { settler.old ≡ patches system.now }

    ensures settled { ledger.new ≡ settled_ledger system.now ledger.old }
    ensures finished { IsFinished system.now ledger.new }
    ensures balanced { IsBalanced system.now ledger.new }
    ensures paid { IsPaid system.now ledger.new }

    ensures direct { ledger.new.direct ≡ ledger.old.direct }
    ensures parts { ledger.new.parts ≡ ledger.old.parts }
    ensures settler { settler.new ≡ settler.old }
{
    prove_eq!(settler.tournament.len(), system.len());
    let tournament = &mut settler.tournament;
    tournament.refill(ledger.residual.as_slice());
    let (patch, flux) = tournament.best();
    if flux < system.threshold() {
        return;
    }
    // Fractions of more than one account may be whole nanolumens, until the first shot has carried them.
    shoot_first(system, patch, ledger);
    settle_on(system, tournament, ledger);
}

// Settles a ledger whose fractions are below a nanolumen.
fn settle_on(system: &System, tournament: &mut Tournament, ledger: &mut Ledger)
    requires balanced { IsBalanced system.now ledger.old }
    requires paid { IsPaid system.now ledger.old }
    requires flux { sum ledger.old.direct ≤ 10 ^ 16 }
    requires small { AreSmall ledger.old.err }
    requires tournament { length tournament.old ≡ patches system.now }
    ensures settled { ledger.new ≡ settled_ledger system.now ledger.old }
    ensures finished { IsFinished system.now ledger.new }
    ensures balanced { IsBalanced system.now ledger.new }
    ensures paid { IsPaid system.now ledger.new }
    ensures direct { ledger.new.direct ≡ ledger.old.direct }
    ensures parts { ledger.new.parts ≡ ledger.old.parts }
    ensures tournament { length tournament.new ≡ length tournament.old }
{
    prove_eq!(tournament.len(), system.len());
    let threshold = system.threshold();
    tournament.refill(ledger.residual.as_slice());
    let (mut patch, mut flux) = tournament.best();
    while flux >= threshold {
        shoot(system, patch, ledger);
        follow(
            tournament,
            patch,
            system.row(patch),
            ledger.residual.as_slice(),
        );
        (patch, flux) = tournament.best();
    }
}

/// Settles a direct flux, in nanolumens for each patch, of which nothing was taken yet.
pub fn serial(alloc: Global, system: &System, direct: &[u64]) -> Result<Ledger, AllocError>
    requires lengths { length direct.now ≡ patches system.now }
    requires flux { sum direct.now ≤ 10 ^ 16 }

    ensures settled { IfOk result (λ ledger. ledger ≡ settled_ledger system.now (untouched_ledger system.now direct.now)) }
    ensures finished { IfOk result (λ ledger. IsFinished system.now ledger) }
    ensures balanced { IfOk result (λ ledger. IsBalanced system.now ledger) }
    ensures paid { IfOk result (λ ledger. IsPaid system.now ledger) }

    ensures direct { IfOk result (λ ledger. ledger.direct ≡ direct.now) }
    ensures parts { IfOk result (λ ledger. ledger.parts ≡ 1) }
{
    let mut settler = Settler::new(alloc, system.len())?;
    let mut ledger = untouched_ledger(alloc, system, direct)?;
    settle(system, &mut settler, &mut ledger);
    Ok(ledger)
}

// The ledger of a direct flux of which nothing was taken yet.
fn untouched_ledger(alloc: Global, system: &System, direct: &[u64]) -> Result<Ledger, AllocError>
    ensures { IfOk result (λ ledger. ledger ≡ untouched_ledger system.now direct.now) }
{
    let n = system.len();
    Ok(Ledger {
        direct: Amounts::from_vec(Vec::from_slice(alloc, direct)?),
        taken: Amounts::from_vec(Vec::from_elem(alloc, 0, n)?),
        residual: Amounts::from_vec(Vec::from_slice(alloc, direct)?),
        err: Amounts::from_vec(Vec::from_elem(alloc, 0, n)?),
        parts: 1,
        wins: 0,
    })
}
