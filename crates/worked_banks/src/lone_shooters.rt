// A bank with one shooter over it.
ghost use Rattle.std.specs.Prelude.{◌≡◌};
ghost use Rattle.flux_accounts.specs.Banks.{IsDeskOf, IsSeatOf};

use crate::equations::assert_equations;
use crate::figures::Figures;
use crate::shooters::give_all;
use flux_accounts::{Bank, Desk, Take};
use flux_system::System;
use lux_io::Gate;
use picker::Picker;
use shooter::{PassReport, Shooter};
use std::alloc::Global;
use std::process::Abort;
use std::test::Fail;

// A bank with its system, its desk and the shooter over its one seat, so that tests can call it in tables: the type
// keeps that they belong together.
#[derive(Drop)]
pub(crate) struct LoneShooter {
    system: System,
    bank: Bank,
    desk: Desk,
    shooter: Shooter,
    ghost same_system: { system ≡ bank.system },
    ghost of_desk: { IsDeskOf bank desk },
    ghost of_seat: { IsSeatOf bank shooter.seat },
}

impl LoneShooter {
    #[tactic(auto, using(crate::proofs::Hired::hired_seats))]
    pub(crate) fn start(
        rt: &impl Abort,
        alloc: Global,
        figures: &Figures,
        picker: Picker,
    ) -> Result<LoneShooter, Fail> {
        let system = figures.lit_system(rt, alloc)?;
        let (bank, desk, seats) = Bank::start(alloc, &system, figures.direct.as_slice(), 1)?;
        let mut seat = seats.into_iter().next().ok_or("no seat")?;
        let had_nothing = give_all(&bank, &system, &mut seat);
        assert!(rt; had_nothing);
        let shooter = Shooter::new(alloc, &system, seat, picker)?;
        Ok(LoneShooter {
            system,
            bank,
            desk,
            shooter,
        })
    }

    pub(crate) fn shot(&mut self, rt: &impl Abort, patch: usize) -> Take {
        assert!(rt; patch < self.system.len());
        self.shooter.shot(&self.bank, &self.system, patch)
    }

    pub(crate) fn pass<G: Gate>(&mut self, gate: &G) -> PassReport {
        self.shooter.pass(&self.bank, &self.system, gate)
    }

    // The shooter gives up, and the bank is closed. Its ledger fulfils the equations.
    pub(crate) fn close(self, rt: &impl Abort, figures: &Figures) -> Result<(), Fail> {
        let LoneShooter {
            system: _,
            bank,
            mut desk,
            shooter,
        } = self;
        assert_eq!(rt; desk.out(), 1);
        bank.retire(&mut desk, shooter.give_up());
        assert_eq!(rt; desk.out(), 0);
        let ledger = bank.close(desk)?;
        assert_equations(rt, figures, &ledger, 1)
    }
}
