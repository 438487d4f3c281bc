// Intervals of settled ledgers.
ghost use Rattle.enclosure.specs.Interval.{IsDone};

use crate::systems::two_patches;
use enclosure::{all, interval, spill};
use flux_ledger::Ledger;
use flux_system::System;
use shot_core::serial;
use std::alloc::Global;
use std::process::Abort;
use std::test::Fail;

// The interval of each patch.
fn assert_intervals(rt: &impl Abort, system: &System, ledger: &Ledger, expected: &[(u64, u64)])
    requires { IsDone system.now ledger.now }
{
    assert_eq!(rt; system.len(), expected.len());
    for (patch, ends) in expected.iter().enumerate() {
        assert!(rt; patch < system.len());
        assert_eq!(rt; interval(system, ledger, patch), *ends);
    }
}

// The intervals of all patches at once.
fn assert_all(
    rt: &impl Abort,
    alloc: Global,
    system: &System,
    ledger: &Ledger,
    expected: &[(u64, u64)],
) -> Result<(), Fail>
    requires { IsDone system.now ledger.now }
{
    let intervals = all(alloc, system, ledger)?;
    assert_eq!(rt; intervals.as_slice(), expected);
    Ok(())
}

#[test]
fn two_patches_have_their_intervals(rt: HostRuntime) -> Result<(), Fail> {
    let alloc = rt.alloc();
    let system = two_patches(alloc, 500_000_000)?;
    let ledger = serial(alloc, &system, &[1_000, 0])?;
    assert_eq!(rt; spill(&system, &ledger), 5);
    let expected = [(1_066, 1_069), (265, 268)];
    assert_intervals(&rt, &system, &ledger, &expected);
    assert_all(&rt, alloc, &system, &ledger, &expected)
}

#[test]
fn a_patch_that_gets_nothing_has_no_width(rt: HostRuntime) -> Result<(), Fail> {
    let alloc = rt.alloc();
    let system = two_patches(alloc, 0)?;
    let ledger = serial(alloc, &system, &[20, 0])?;
    assert_intervals(&rt, &system, &ledger, &[(20, 20), (5, 7)]);
    Ok(())
}
