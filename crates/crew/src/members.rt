// The members of a crew.
ghost use Rattle.std.specs.Prelude.{◌≡◌, ◌+◌, ◌<◌, ◌≤◌, ℕ, All, IfOk, length, map, slice_index_or, sum_by};
ghost use Rattle.std.specs.List.{range_with_len};
ghost use Rattle.flux_system.specs.System.{patches};
ghost use Rattle.shot_core.specs.Views.{taken_at};
ghost use Rattle.flux_accounts.specs.Banks.{IsDeskOf, IsSeatOf, seat_at_start};
ghost use Rattle.shooter.specs.Shooters.{AreRounds};
ghost use Rattle.crew.specs.Crews.{shooter_at_start};

use flux_accounts::{Bank, Desk, Seat};
use flux_system::System;
use lux_io::Gate;
use picker::Picker;
use shooter::{PassReport, Shooter};
use std::alloc::{AllocError, Global};
use std::thread;
use std::thread::Threads;

// What a shooter that went no rounds yet reports.
pub(crate) const NO_ROUNDS: PassReport = PassReport {
    passes: 0,
    won: 0,
    low: 0,
    lost: 0,
};

// A shooter, and what its last rounds came to.
#[derive(Drop)]
pub(crate) struct Member {
    pub(crate) shooter: Shooter,
    pub(crate) report: PassReport,
}

// A member for each seat that a bank was started with, with the pickers in order.
pub(crate) fn members_of(
    alloc: Global,
    bank: &Bank,
    system: &System,
    seats: Vec<Seat>,
    pickers: Vec<Picker>,
) -> Result<Vec<Member>, AllocError>
    requires system { system.now ≡ bank.now.system }
    requires seats { seats.items ≡ map (seat_at_start bank.now) (range_with_len 0 (length pickers.items)) }
    ensures { IfOk result (λ all. map (λ m. record { seat = m.shooter.seat; remembered = m.shooter.remembered; cursor = m.shooter.cursor }) all.items ≡ map (shooter_at_start bank.now) (range_with_len 0 (length pickers.items))) }
{
    let mut all = Vec::with_capacity(alloc, seats.len())?;
    for (seat, picker) in seats.into_iter().zip(pickers) {
        let shooter = Shooter::new(alloc, system, seat, picker)?;
        all.push(Member {
            shooter,
            report: NO_ROUNDS,
        })?;
    }
    Ok(all)
}

// Every member goes its rounds, each in a thread of its own where one can be had and on the caller's otherwise.
pub(crate) fn go_rounds<R: Threads + Sync, G: Gate>(
    rt: &R,
    bank: &Bank,
    system: &System,
    gate: &G,
    members: &mut [Member],
)
    requires system { system.now ≡ bank.now.system }
    requires seats { All (λ m. IsSeatOf bank.now m.shooter.seat) members.old }
    requires some { 0 < length members.old }
    ensures seats { All (λ m. IsSeatOf bank.now m.shooter.seat) members.new }
    ensures rounds { (k : ℕ) (d : _) → k < length members.old → AreRounds system.now
        (record { seat = (slice_index_or members.old k d).shooter.seat; remembered = (slice_index_or members.old k d).shooter.remembered; cursor = (slice_index_or members.old k d).shooter.cursor })
        (slice_index_or members.new k d).report
        (record { seat = (slice_index_or members.new k d).shooter.seat; remembered = (slice_index_or members.new k d).shooter.remembered; cursor = (slice_index_or members.new k d).shooter.cursor }) }
{
    let threads = members.len();
    thread::for_each_mut(
        rt,
        members,
        threads,
        &|_, member: &mut Member|
            requires system { system.now ≡ bank.now.system }
            requires seat { IsSeatOf bank.now member.old.shooter.seat }
            ensures seat { IsSeatOf bank.entry.now member.new.shooter.seat }
            ensures rounds { AreRounds system.entry.now
                (record { seat = member.old.shooter.seat; remembered = member.old.shooter.remembered; cursor = member.old.shooter.cursor })
                member.new.report
                (record { seat = member.new.shooter.seat; remembered = member.new.shooter.remembered; cursor = member.new.shooter.cursor }) }
        {
            member.report = member.shooter.rounds(bank, system, gate);
        },
    );
}

// Copies what each member reports, in their order.
pub(crate) fn copy_reports(members: &[Member], reports: &mut [PassReport])
    requires { length reports.old ≡ length members.now }
    ensures { reports.new ≡ map (λ m. m.report) members.now }
{
    for (k, member) in members.iter().enumerate() {
        reports[k] = member.report;
    }
}

// Adds what every member did to the desk's account.
pub(crate) fn retire_all(bank: &Bank, desk: &mut Desk, members: Vec<Member>)
    requires desk { IsDeskOf bank.now desk.old }
    requires out { desk.old.history.account.out ≡ length members.items }
    requires seats { All (λ m. IsSeatOf bank.now m.shooter.seat) members.items }
    ensures of { IsDeskOf bank.now desk.new }
    ensures out { desk.new.history.account.out ≡ 0 }
    ensures parts { desk.new.history.account.parts ≡ desk.old.history.account.parts + length members.items }
    ensures wins { desk.new.history.account.wins ≡ desk.old.history.account.wins + sum_by (λ m. m.shooter.seat.history.account.wins) members.items }
    ensures taken { (j : ℕ) → j < patches bank.now.system → taken_at j desk.new.history.account ≡ taken_at j desk.old.history.account + sum_by (λ m. taken_at j m.shooter.seat.history.account) members.items }
{
    for member in members {
        bank.retire(desk, member.shooter.give_up());
    }
}
