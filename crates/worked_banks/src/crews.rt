// Crews of shooters over banks.
ghost use Rattle.std.specs.Prelude.{◌<◌, ◌≤◌, length};
ghost use Rattle.flux_system.specs.declared.TheConstants.{MOST_SEATS};

use crate::equations::assert_finished;
use crate::figures::{Figures, SYSTEMS, figures_of};
use crew::Crew;
use lux_io::FreeGate;
use picker::{Picker, greatest, striped, sweep};
use shooter::PassReport;
use shot_core::serial;
use std::alloc::Global;
use std::process::Abort;
use std::test::Fail;
use std::thread::Threads;

// What a shooter reports that went no rounds.
const NO_ROUNDS: PassReport = PassReport {
    passes: 0,
    won: 0,
    low: 0,
    lost: 0,
};

// The most passes of a shooter in its rounds.
const MOST_PASSES: u64 = 1_000;

// How many crews work over each system for each number of shooters, so that threads meet in many ways.
const CREWS: u32 = 4;

// Fractions of a nanolumen, in its parts.
const QUARTER: u64 = 250_000_000_000;

const HALF: u64 = 500_000_000_000;

// What a ledger says but for the direct flux.
#[derive(Clone, Copy)]
struct Expected {
    taken: &'static [u64],
    residual: &'static [u64],
    err: &'static [u64],
    wins: u64,
}

// A crew of one shooter: its reports before it works, of its work, and of work when there is nothing left to win; and its
// ledger.
fn assert_crew_of_one<R: Threads + Sync + Abort>(
    rt: &R,
    alloc: Global,
    figures: &Figures,
    picker: Picker,
    report: PassReport,
    expected: Expected,
) -> Result<(), Fail> {
    let system = figures.lit_system(rt, alloc)?;
    let pickers = Vec::from_array(alloc, [picker])?;
    let mut crew = Crew::start(alloc, &system, figures.direct.as_slice(), pickers)?;
    assert_eq!(rt; crew.reports(), [NO_ROUNDS].as_slice());
    crew.work(rt, &system, &FreeGate);
    assert_eq!(rt; crew.reports(), [report].as_slice());
    crew.work(rt, &system, &FreeGate);
    let nothing_won = PassReport {
        passes: 1,
        won: 0,
        low: system.len() as u64,
        lost: 0,
    };
    assert_eq!(rt; crew.reports(), [nothing_won].as_slice());
    let ledger = crew.finish(&system)?;
    assert_eq!(rt; ledger.direct.as_slice(), figures.direct.as_slice());
    assert_eq!(rt; ledger.taken.as_slice(), expected.taken);
    assert_eq!(rt; ledger.residual.as_slice(), expected.residual);
    assert_eq!(rt; ledger.err.as_slice(), expected.err);
    assert_eq!(rt; (ledger.parts, ledger.wins), (2, expected.wins));
    Ok(())
}

// Takes of 1000, 250, 62 and 15 nanolumens are won; then 4 are left, which is less than the threshold.
#[test]
fn work_ends_where_nothing_reaches_the_threshold(rt: HostRuntime) -> Result<(), Fail> {
    let alloc = rt.alloc();
    let figures = Figures::of_two_patches(alloc, &[1_000, 0])?;
    let picker = Picker::new(Box::new(alloc, |values: &[u64], threshold: u64| {
        greatest(values, threshold)
    })?);
    let report = PassReport {
        passes: 5,
        won: 4,
        low: 6,
        lost: 0,
    };
    let expected = Expected {
        taken: &[1_062, 265],
        residual: &[4, 0],
        err: &[QUARTER, HALF],
        wins: 4,
    };
    assert_crew_of_one(&rt, alloc, &figures, picker, report, expected)
}

// The last patch comes into reach within a pass, once what the first eight looks took is given. The greatest value is
// then that of the last patch; a sweep first goes to the patches before it. Both win the same takes.
#[test]
fn what_the_picker_chooses_sets_how_many_passes_there_are(rt: HostRuntime) -> Result<(), Fail> {
    let alloc = rt.alloc();
    let figures = Figures::of_nine_patches(alloc)?;
    let by_greatest = Picker::new(Box::new(alloc, |values: &[u64], threshold: u64| {
        greatest(values, threshold)
    })?);
    let by_sweep = Picker::new(Box::new(alloc, |values: &[u64], threshold: u64| {
        sweep(0, values, threshold)
    })?);
    let expected = Expected {
        taken: &[1_025, 50, 50, 50, 50, 50, 50, 50, 102],
        residual: &[0, 1, 1, 1, 1, 1, 1, 1, 0],
        err: &[
            HALF, QUARTER, QUARTER, QUARTER, QUARTER, QUARTER, QUARTER, QUARTER, HALF,
        ],
        wins: 11,
    };
    let rows = [(by_greatest, 3, 16), (by_sweep, 4, 25)];
    for (picker, passes, low) in Vec::from_array(alloc, rows)? {
        let report = PassReport {
            passes,
            won: 11,
            low,
            lost: 0,
        };
        assert_crew_of_one(&rt, alloc, &figures, picker, report, expected)?;
    }
    Ok(())
}

// How many takes all shooters won together, each of whose reports is one of rounds over so many patches.
fn won_by_all(rt: &impl Abort, reports: &[PassReport], patches: usize) -> u128 {
    let mut won_by_all = 0u128;
    for report in reports {
        let PassReport {
            passes,
            won,
            low,
            lost,
        } = *report;
        let turns = u128::from(won) + u128::from(low) + u128::from(lost);
        assert_eq!(rt; turns, u128::from(passes) * patches as u128);
        assert!(rt; 1 <= passes && passes <= MOST_PASSES);
        assert!(rt; won >= passes - 1);
        won_by_all = won_by_all.saturating_add(u128::from(won));
    }
    won_by_all
}

// A crew that works twice: each time each shooter reports rounds, and the ledger that it leaves has all takes that both
// times won.
fn assert_crew<R: Threads + Sync + Abort>(
    rt: &R,
    alloc: Global,
    figures: &Figures,
    pickers: Vec<Picker>,
) -> Result<(), Fail>
    requires some { 1 ≤ length pickers.items }
    requires few { length pickers.items ≤ MOST_SEATS }
{
    let shooters = pickers.len();
    let system = figures.lit_system(rt, alloc)?;
    let mut crew = Crew::start(alloc, &system, figures.direct.as_slice(), pickers)?;
    crew.work(rt, &system, &FreeGate);
    assert_eq!(rt; crew.reports().len(), shooters);
    let first = won_by_all(rt, crew.reports(), system.len());
    assert_eq!(rt; first > 0, figures.is_lit());
    crew.work(rt, &system, &FreeGate);
    assert_eq!(rt; crew.reports().len(), shooters);
    let second = won_by_all(rt, crew.reports(), system.len());
    let ledger = crew.finish(&system)?;
    assert_finished(rt, figures, &ledger, shooters as u32)?;
    assert!(rt; u128::from(ledger.wins) >= first.saturating_add(second));
    Ok(())
}

// Who wins what is another in each run. That nothing is lost and nothing comes twice is the same in all, and so is that
// nothing is left that could be taken.
#[test]
fn shooters_in_threads_leave_a_ledger_that_balances(rt: HostRuntime) -> Result<(), Fail> {
    let alloc = rt.alloc();
    for number in 0..SYSTEMS {
        let figures = figures_of(alloc, number)?;
        for shooters in [2, 8, 64] {
            for _ in 0..CREWS {
                let by_greatest = Picker::new(Box::new(alloc, |values: &[u64], threshold: u64| {
                    greatest(values, threshold)
                })?);
                let mut pickers = Vec::from_array(alloc, [by_greatest])?;
                for k in 1..shooters {
                    let by_stripes = move |values: &[u64], threshold: u64|
                        requires { k < shooters }
                    { striped(k, shooters, values, threshold) };
                    pickers.push(Picker::new(Box::new(alloc, by_stripes)?))?;
                }
                assert!(rt; 1 <= pickers.len() && pickers.len() <= 64);
                assert_crew(&rt, alloc, &figures, pickers)?;
            }
        }
    }
    Ok(())
}

// A crew that goes home at once leaves what settling alone leaves, but for an account for each shooter.
#[test]
fn without_work_all_is_left_to_settling(rt: HostRuntime) -> Result<(), Fail> {
    let alloc = rt.alloc();
    for number in 0..SYSTEMS {
        let figures = figures_of(alloc, number)?;
        let system = figures.lit_system(&rt, alloc)?;
        let direct = figures.direct.as_slice();
        let by_greatest = Picker::new(Box::new(alloc, |values: &[u64], threshold: u64| {
            greatest(values, threshold)
        })?);
        let by_stripes = Picker::new(Box::new(alloc, |values: &[u64], threshold: u64| {
            striped(1, 2, values, threshold)
        })?);
        let pickers = Vec::from_array(alloc, [by_greatest, by_stripes])?;
        let crew = Crew::start(alloc, &system, direct, pickers)?;
        assert_eq!(rt; crew.reports(), [NO_ROUNDS, NO_ROUNDS].as_slice());
        let ledger = crew.finish(&system)?;
        let settled = serial(alloc, &system, direct)?;
        assert_eq!(rt; ledger.direct.as_slice(), settled.direct.as_slice());
        assert_eq!(rt; ledger.taken.as_slice(), settled.taken.as_slice());
        assert_eq!(rt; ledger.residual.as_slice(), settled.residual.as_slice());
        assert_eq!(rt; ledger.err.as_slice(), settled.err.as_slice());
        assert_eq!(rt; (ledger.wins, ledger.parts), (settled.wins, 3));
    }
    Ok(())
}
