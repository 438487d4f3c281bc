// What shooters do.
ghost use Rattle.std.specs.Prelude.{◌≡◌, ◌<◌, ◌%◌, IfOk, replicate};
ghost use Rattle.flux_system.specs.System.{patches};
ghost use Rattle.flux_accounts.specs.Banks.{IsSeatOf, HasEmptyHand};
ghost use Rattle.shooter.specs.Shooters.{IsShot, IsPass, AreRounds};

use crate::passes::make_turns;
use crate::reports::PassReport;
use crate::shooters::Shooter;
use crate::turns::{give_all, take};
use flux_accounts::{Bank, Seat, Take};
use flux_ledger::Amounts;
use flux_system::{MOST_PATCHES, System};
use lux_io::Gate;
use picker::Picker;
use std::alloc::{AllocError, Global};

// The most passes of one call of `rounds`.
const MOST_PASSES: u64 = 1_000;

impl Shooter {
    /// A shooter that remembers nothing yet, over a seat of a bank of this system. Its cursor begins at the seat's number.
    pub fn new(
        alloc: Global,
        system: &System,
        seat: Seat,
        picker: Picker,
    ) -> Result<Shooter, AllocError>
        requires system { seat.history.account.system ≡ system.now }
        requires empty { HasEmptyHand seat }
        ensures { IfOk result (λ shooter. (shooter.seat ≡ seat) × ((shooter.remembered ≡ replicate (patches system.now) 0) × (shooter.cursor ≡ seat.number % patches system.now))) }
    {
        let n = system.len();
        let remembered = Amounts::from_vec(Vec::from_elem(alloc, 0, n)?);
        let cursor = seat.number() as usize % n;
        Ok(Shooter {
            seat,
            remembered,
            cursor,
            picker,
        })
    }

    /// A take of a patch, and then all that is in hand is given, patch by patch.
    pub fn shot(&mut self, bank: &Bank, system: &System, patch: usize) -> Take
        requires seat { IsSeatOf bank.now self.old.seat }
        requires system { system.now ≡ bank.now.system }
        requires patch { patch < patches system.now }
        ensures of { IsSeatOf bank.now self.new.seat }
        ensures shot { IsShot system.now patch (record { seat = self.old.seat; remembered = self.old.remembered; cursor = self.old.cursor }) result (record { seat = self.new.seat; remembered = self.new.remembered; cursor = self.new.cursor }) }
    {
        let answer = take(bank, system, &mut self.seat, &mut self.remembered, patch);
        give_all(bank, system, &mut self.seat, &mut self.remembered);
        answer
    }

    /// A pass: as many turns as there are patches, in groups of eight, each after a call of the gate.
    pub fn pass<G: Gate>(&mut self, bank: &Bank, system: &System, gate: &G) -> PassReport
        requires seat { IsSeatOf bank.now self.old.seat }
        requires system { system.now ≡ bank.now.system }
        ensures of { IsSeatOf bank.now self.new.seat }
        ensures pass { IsPass system.now (record { seat = self.old.seat; remembered = self.old.remembered; cursor = self.old.cursor }) result (record { seat = self.new.seat; remembered = self.new.remembered; cursor = self.new.cursor }) }
    {
        make_turns(
            bank,
            system,
            &mut self.seat,
            &mut self.remembered,
            self.cursor,
            &self.picker,
            gate,
        )
    }

    /// Passes until the first that wins nothing, and no more than a thousand. The answer has the sums of their reports.
    pub fn rounds<G: Gate>(&mut self, bank: &Bank, system: &System, gate: &G) -> PassReport
        requires seat { IsSeatOf bank.now self.old.seat }
        requires system { system.now ≡ bank.now.system }
        ensures of { IsSeatOf bank.now self.new.seat }
        ensures rounds { AreRounds system.now (record { seat = self.old.seat; remembered = self.old.remembered; cursor = self.old.cursor }) result (record { seat = self.new.seat; remembered = self.new.remembered; cursor = self.new.cursor }) }
    {
        prove!(system.len() <= MOST_PATCHES);
        let mut sums = self.pass(bank, system, gate);
        let mut last = sums.won;
        while last > 0 && sums.passes < MOST_PASSES {
            let report = self.pass(bank, system, gate);
            last = report.won;
            sums.passes += 1;
            sums.won += report.won;
            sums.low += report.low;
            sums.lost += report.lost;
        }
        sums
    }

    /// Its seat, whose hand is empty.
    pub fn give_up(self) -> Seat
        ensures seat { result ≡ self.seat }
        ensures empty { HasEmptyHand result }
    {
        self.seat
    }
}
