// Seats that keep count of what their takes answered.
ghost use Rattle.std.specs.Prelude.{◌≡◌, ◌<◌, ◌≤◌};
ghost use Rattle.flux_system.specs.System.{patches};
ghost use Rattle.flux_accounts.specs.Banks.{IsSeatOf, HasEmptyHand};

use flux_accounts::{Bank, Seat, Take};
use flux_system::System;

// A seat, how often it won and what it took. No proof speaks of the counts: the tests hold them against the ledger.
#[derive(Drop)]
pub(crate) struct Shooter {
    pub(crate) seat: Seat,
    pub(crate) wins: u64,
    pub(crate) taken: u64,
}

impl Shooter {
    fn count(&mut self, answer: Take)
        ensures { self.new.seat ≡ self.old.seat }
    {
        if let Take::Won { t } = answer {
            self.wins = self.wins.saturating_add(1);
            self.taken = self.taken.saturating_add(t);
        }
    }

    pub(crate) fn take(&mut self, bank: &Bank, system: &System, patch: usize) -> Take
        requires seat { IsSeatOf bank.now self.old.seat }
        requires system { system.now ≡ bank.now.system }
        requires patch { patch < patches system.now }
        ensures { IsSeatOf bank.now self.new.seat }
    {
        let answer = bank.take(system, &mut self.seat, patch);
        self.count(answer);
        answer
    }

    pub(crate) fn take_seen(
        &mut self,
        bank: &Bank,
        system: &System,
        patch: usize,
        seen: u64,
    ) -> Take
        requires seat { IsSeatOf bank.now self.old.seat }
        requires system { system.now ≡ bank.now.system }
        requires patch { patch < patches system.now }
        requires seen { system.now.threshold ≤ seen }
        ensures { IsSeatOf bank.now self.new.seat }
    {
        let answer = bank.take_seen(system, &mut self.seat, patch, seen);
        self.count(answer);
        answer
    }

    // Takes of the patches in turn, and gives away what came into the hand, after each take or after some together.
    pub(crate) fn work(&mut self, bank: &Bank, system: &System, turns: usize)
        requires seat { IsSeatOf bank.now self.old.seat }
        requires system { system.now ≡ bank.now.system }
        ensures of { IsSeatOf bank.now self.new.seat }
        ensures empty { HasEmptyHand self.new.seat }
    {
        let pooled = self.seat.number() as usize % 3 + 1;
        for turn in 0..turns {
            self.take(bank, system, turn % system.len());
            if turn % pooled == 0 {
                give_all(bank, system, &mut self.seat);
            }
        }
        give_all(bank, system, &mut self.seat);
    }
}

// Gives to every patch, so that nothing is left in hand. The answer is whether nothing was.
pub(crate) fn give_all(bank: &Bank, system: &System, seat: &mut Seat) -> bool
    requires seat { IsSeatOf bank.now seat.old }
    requires system { system.now ≡ bank.now.system }
    ensures of { IsSeatOf bank.now seat.new }
    ensures empty { HasEmptyHand seat.new }
{
    let mut had_nothing = true;
    for target in 0..system.len() {
        if bank.give(seat, target).is_some() {
            had_nothing = false;
        }
    }
    had_nothing
}
