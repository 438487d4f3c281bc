// A crew and its calls.
ghost use Rattle.std.specs.Prelude.{◌≡◌, ◌+◌, ◌<◌, ◌≤◌, ◌^◌, ℕ, All, IfOk, length, map, replicate, slice_index, sum, sum_by};
ghost use Rattle.std.specs.List.{range_with_len};
ghost use Rattle.flux_system.specs.System.{patches};
ghost use Rattle.flux_system.specs.declared.TheConstants.{MOST_SEATS};
ghost use Rattle.flux_ledger.specs.Balance.{IsBalanced, IsFinished, IsPaid};
ghost use Rattle.shot_core.specs.Views.{taken_at};
ghost use Rattle.flux_accounts.specs.Banks.{IsSeatOf, desk_at_start};
ghost use Rattle.crew.specs.Crews.{shooter_at_start, no_rounds, HaveGoneRounds};

use crate::members::{Member, NO_ROUNDS, copy_reports, go_rounds, members_of, retire_all};
use flux_accounts::{Bank, Desk};
use flux_ledger::Ledger;
use flux_system::{MOST_SEATS, System};
use lux_io::Gate;
use picker::Picker;
use shooter::PassReport;
use shot_core::{Settler, settle};
use std::alloc::{AllocError, Global};
use std::thread::Threads;

/// A bank with a shooter for each of some pickers.
#[derive(Drop)]
pub struct Crew {
    alloc: Global,
    bank: Bank,
    desk: Desk,
    members: Vec<Member>,
    reports: Vec<PassReport>,
    ghost opened: { desk ≡ desk_at_start bank (length members.items) },
    ghost of_bank: { All (λ m. IsSeatOf bank m.shooter.seat) members.items },
    ghost some: { 0 < length members.items },
    ghost few: { length members.items ≤ MOST_SEATS },
    ghost lengths: { length reports.items ≡ length members.items },
    ghost flux: { sum bank.direct ≤ 10 ^ 16 },
}

impl Crew {
    /// Opens a bank over a system and its direct flux, in nanolumens for each patch, with as many shooters as pickers:
    /// shooter k has the seat of number k and picker k, and remembers nothing yet. It takes all memory that `work` and
    /// `reports` need.
    pub fn start(
        alloc: Global,
        system: &System,
        direct: &[u64],
        pickers: Vec<Picker>,
    ) -> Result<Crew, AllocError>
        requires lengths { length direct.now ≡ patches system.now }
        requires flux { sum direct.now ≤ 10 ^ 16 }
        requires some { 1 ≤ length pickers.items }
        requires few { length pickers.items ≤ MOST_SEATS }
        ensures bank { IfOk result (λ crew. (crew.bank.system ≡ system.now) × (crew.bank.direct ≡ direct.now)) }
        ensures number { IfOk result (λ crew. length crew.members.items ≡ length pickers.items) }
        ensures shooters { IfOk result (λ crew. map (λ m. record { seat = m.shooter.seat; remembered = m.shooter.remembered; cursor = m.shooter.cursor }) crew.members.items ≡ map (shooter_at_start crew.bank) (range_with_len 0 (length pickers.items))) }
        ensures reports { IfOk result (λ crew. crew.reports.items ≡ replicate (length pickers.items) no_rounds) }
    {
        let number = pickers.len();
        let reports = Vec::from_elem(alloc, NO_ROUNDS, number)?;
        let (bank, desk, seats) = Bank::start(alloc, system, direct, number as u32)?;
        let members = members_of(alloc, &bank, system, seats, pickers)?;
        Ok(Crew {
            alloc,
            bank,
            desk,
            members,
            reports,
        })
    }

    /// Every shooter goes its rounds once, calling the gate before each turn: each in a thread of its own where one can
    /// be had, and on the caller's otherwise. Returns when all have ended. Takes no memory but what threads need.
    pub fn work<R: Threads + Sync, G: Gate>(&mut self, rt: &R, system: &System, gate: &G)
        requires system { system.now ≡ self.old.bank.system }
        ensures bank { self.new.bank ≡ self.old.bank }
        ensures number { length self.new.members.items ≡ length self.old.members.items }
        ensures rounds { HaveGoneRounds system.now
            (map (λ m. record { seat = m.shooter.seat; remembered = m.shooter.remembered; cursor = m.shooter.cursor }) self.old.members.items)
            self.new.reports.items
            (map (λ m. record { seat = m.shooter.seat; remembered = m.shooter.remembered; cursor = m.shooter.cursor }) self.new.members.items) }
    {
        go_rounds(rt, &self.bank, system, gate, self.members.as_mut_slice());
        copy_reports(&self.members, self.reports.as_mut_slice());
    }

    /// What the rounds of each shooter came to in the last call of `work`. All numbers are 0 before the first.
    pub fn reports(&self) -> &[PassReport]
        ensures reports { result.now ≡ self.now.reports.items }
    {
        self.reports.as_slice()
    }

    /// Retires every shooter, closes the bank and settles what is left. The ledger has an account for each shooter and one
    /// more. Where there is no memory for it, the crew is dropped.
    pub fn finish(self, system: &System) -> Result<Ledger, AllocError>
        requires system { system.now ≡ self.bank.system }
        ensures finished { IfOk result (λ ledger. IsFinished system.now ledger) }
        ensures balanced { IfOk result (λ ledger. IsBalanced system.now ledger) }
        ensures paid { IfOk result (λ ledger. IsPaid system.now ledger) }
        ensures direct { IfOk result (λ ledger. ledger.direct ≡ self.bank.direct) }
        ensures parts { IfOk result (λ ledger. ledger.parts ≡ 1 + length self.members.items) }
        ensures wins { IfOk result (λ ledger. sum_by (λ m. m.shooter.seat.history.account.wins) self.members.items ≤ ledger.wins) }
        ensures taken { IfOk result (λ ledger. (j : ℕ) → j < patches system.now → sum_by (λ m. taken_at j m.shooter.seat.history.account) self.members.items ≤ slice_index ledger.taken j) }
    {
        let Crew {
            alloc,
            bank,
            mut desk,
            members,
            reports: _,
        } = self;
        let mut settler = Settler::new(alloc, system.len())?;
        retire_all(&bank, &mut desk, members);
        let mut ledger = bank.close(desk)?;
        settle(system, &mut settler, &mut ledger);
        Ok(ledger)
    }
}
