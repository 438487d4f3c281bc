// A bank with all that belongs to it.
ghost use Rattle.std.specs.Prelude.{◌≡◌, All, IfOk};
ghost use Rattle.flux_accounts.specs.Banks.{IsDeskOf, IsSeatOf};

use crate::equations::assert_equations;
use crate::figures::Figures;
use crate::shooters::{Shooter, give_all};
use flux_accounts::{Bank, Desk, Given, Seat, Take};
use flux_ledger::Ledger;
use flux_system::{MOST_SEATS, System};
use std::alloc::{AllocError, Global};
use std::process::Abort;
use std::test::Fail;
use std::thread;
use std::thread::Threads;

// A bank with its system, its desk and its seats, so that tests can call it in tables and loops: the type keeps that
// they belong together.
#[derive(Drop)]
pub(crate) struct Hall {
    system: System,
    bank: Bank,
    desk: Desk,
    shooters: Vec<Shooter>,
    ghost same_system: { system ≡ bank.system },
    ghost of_desk: { IsDeskOf bank desk },
    ghost of_seats: { All (λ s. IsSeatOf bank s.seat) shooters.items },
}

// What all seats counted together.
#[derive(Clone, Copy, Debug, PartialEq, Eq)]
pub(crate) struct Counts {
    pub(crate) wins: u64,
    pub(crate) taken: u64,
}

// What a ledger says, and what the seats counted on their own.
#[derive(Drop)]
pub(crate) struct Closing {
    pub(crate) ledger: Ledger,
    pub(crate) counts: Counts,
}

impl Hall {
    #[tactic(auto, using(crate::proofs::Hired::hired_seats))]
    pub(crate) fn start(
        rt: &impl Abort,
        alloc: Global,
        figures: &Figures,
        seats: u32,
    ) -> Result<Hall, Fail> {
        let system = figures.lit_system(rt, alloc)?;
        assert!(rt; 1 <= seats && seats <= MOST_SEATS);
        let (bank, desk, seats) = Bank::start(alloc, &system, figures.direct.as_slice(), seats)?;
        let shooters = shooters_of(alloc, &bank, seats)?;
        Ok(Hall {
            system,
            bank,
            desk,
            shooters,
        })
    }

    pub(crate) fn look(&mut self, rt: &impl Abort, seat: usize, patch: usize) -> u64 {
        assert!(rt; seat < self.shooters.len());
        assert!(rt; patch < self.system.len());
        self.bank.look(&mut self.shooters[seat].seat, patch)
    }

    pub(crate) fn take(&mut self, rt: &impl Abort, seat: usize, patch: usize) -> Take {
        assert!(rt; seat < self.shooters.len());
        assert!(rt; patch < self.system.len());
        self.shooters[seat].take(&self.bank, &self.system, patch)
    }

    pub(crate) fn take_seen(
        &mut self,
        rt: &impl Abort,
        seat: usize,
        patch: usize,
        seen: u64,
    ) -> Take {
        assert!(rt; seat < self.shooters.len());
        assert!(rt; patch < self.system.len());
        assert!(rt; self.system.threshold() <= seen);
        self.shooters[seat].take_seen(&self.bank, &self.system, patch, seen)
    }

    pub(crate) fn give(&mut self, rt: &impl Abort, seat: usize, target: usize) -> Option<Given> {
        assert!(rt; seat < self.shooters.len());
        assert!(rt; target < self.system.len());
        self.bank.give(&mut self.shooters[seat].seat, target)
    }

    // All seats work at once, each in a thread.
    pub(crate) fn work<R: Threads + Sync>(&mut self, rt: &R, turns: usize) {
        all_work(
            rt,
            &self.bank,
            &self.system,
            self.shooters.as_mut_slice(),
            turns,
        );
    }

    // Retires all seats, none of which has anything in hand, and closes the bank. Its ledger fulfils the equations.
    pub(crate) fn close(self, rt: &impl Abort, figures: &Figures) -> Result<Closing, Fail> {
        let Hall {
            system,
            bank,
            mut desk,
            shooters,
        } = self;
        let seats = desk.out();
        let counts = retire_all(rt, &bank, &system, &mut desk, shooters);
        assert_eq!(rt; desk.out(), 0);
        let ledger = bank.close(desk)?;
        assert_equations(rt, figures, &ledger, seats)?;
        Ok(Closing { ledger, counts })
    }
}

// Seats that have counted nothing yet.
fn shooters_of(alloc: Global, bank: &Bank, seats: Vec<Seat>) -> Result<Vec<Shooter>, AllocError>
    requires { All (IsSeatOf bank.now) seats.items }
    ensures { IfOk result (λ all. All (λ s. IsSeatOf bank.now s.seat) all.items) }
{
    let mut all = Vec::new(alloc);
    for seat in seats {
        all.push(Shooter {
            seat,
            wins: 0,
            taken: 0,
        })?;
    }
    Ok(all)
}

fn all_work<R: Threads + Sync>(
    rt: &R,
    bank: &Bank,
    system: &System,
    shooters: &mut [Shooter],
    turns: usize,
)
    requires system { system.now ≡ bank.now.system }
    requires seats { All (λ s. IsSeatOf bank.now s.seat) shooters.old }
    ensures { All (λ s. IsSeatOf bank.now s.seat) shooters.new }
{
    thread::for_each_mut(
        rt,
        shooters,
        64,
        &|_, shooter| {
            shooter.work(bank, system, turns);
        },
    );
}

// Retires a seat that has nothing in hand.
fn retire(rt: &impl Abort, bank: &Bank, system: &System, desk: &mut Desk, mut seat: Seat)
    requires system { system.now ≡ bank.now.system }
    requires desk { IsDeskOf bank.now desk.old }
    requires seat { IsSeatOf bank.now seat }
    ensures { IsDeskOf bank.now desk.new }
{
    let had_nothing = give_all(bank, system, &mut seat);
    assert!(rt; had_nothing);
    assert!(rt; desk.out() > 0);
    bank.retire(desk, seat);
}

// Retires all seats of a bank, from number 0 on.
fn retire_all(
    rt: &impl Abort,
    bank: &Bank,
    system: &System,
    desk: &mut Desk,
    shooters: Vec<Shooter>,
) -> Counts
    requires system { system.now ≡ bank.now.system }
    requires desk { IsDeskOf bank.now desk.old }
    requires seats { All (λ s. IsSeatOf bank.now s.seat) shooters.items }
    ensures { IsDeskOf bank.now desk.new }
{
    let seats = desk.out();
    let mut counts = Counts { wins: 0, taken: 0 };
    let mut number = 0;
    for shooter in shooters {
        counts.wins = counts.wins.saturating_add(shooter.wins);
        counts.taken = counts.taken.saturating_add(shooter.taken);
        assert!(rt; number < seats);
        assert_eq!(rt; desk.out(), seats - number);
        assert_eq!(rt; shooter.seat.number(), number);
        retire(rt, bank, system, desk, shooter.seat);
        number += 1;
    }
    counts
}
