// Seats that work over one bank at once, each in a thread.
use crate::equations::total;
use crate::figures::{SYSTEMS, figures_of};
use crate::halls::Hall;
use flux_accounts::{Bank, cross_threads};
use flux_system::System;
use std::test::Fail;

// How often each seat tries to take.
const TURNS: usize = 5_000;

// How many banks are opened over each system for each number of seats, so that threads meet in many ways.
const BANKS: u32 = 4;

// Who wins what is another in each run. That nothing is lost and nothing comes twice is the same in all, and so is that
// the ledger has just the takes that the seats were told they won.
#[test]
fn threads_leave_a_ledger_that_balances(rt: HostRuntime) -> Result<(), Fail> {
    let alloc = rt.alloc();
    for number in 0..SYSTEMS {
        let figures = figures_of(alloc, number)?;
        for seats in [2, 8, 64] {
            for _ in 0..BANKS {
                let mut hall = Hall::start(&rt, alloc, &figures, seats)?;
                hall.work(&rt, TURNS);
                let closing = hall.close(&rt, &figures)?;
                let wins = closing.ledger.wins;
                let taken = total(closing.ledger.taken.as_slice());
                assert_eq!(rt;
                    wins > 0,
                    figures.is_lit(),
                    "system {number}, {seats} seats"
                );
                assert_eq!(rt; closing.counts.wins, wins, "system {number}, {seats} seats");
                assert_eq!(rt;
                    u128::from(closing.counts.taken),
                    taken,
                    "system {number}, {seats} seats"
                );
            }
        }
    }
    Ok(())
}

// Threads may share a bank, and a seat may go to another thread.
#[test]
fn a_bank_is_shared_and_its_seats_are_sent(rt: HostRuntime) -> Result<(), Fail> {
    let alloc = rt.alloc();
    let system = System::new(alloc, &[500, 500], &[0, 500_000_000, 500_000_000, 0], 10)?;
    let (bank, desk, seats) = Bank::start(alloc, &system, &[50, 0], 64)?;
    for seat in seats.as_slice() {
        cross_threads(&bank, seat, &desk);
    }
    assert_eq!(rt; seats.len(), 64);
    assert_eq!(rt; desk.out(), 64);
    Ok(())
}
