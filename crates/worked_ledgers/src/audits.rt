// Audits of a ledger of two patches, which by turns has one number changed.
ghost use Rattle.std.specs.Prelude.{◌≡◌, IfOk, IfSome, length};
ghost use Rattle.flux_system.specs.System.{patches};
ghost use Rattle.flux_ledger.specs.Balance.{HasPatches};
ghost use Rattle.enclosure.specs.Interval.{IsDone};
ghost use Rattle.ledger_audit.specs.declared.findings.Finding.TheVariants.{Balanced};

use crate::systems::two_patches;
use flux_ledger::{Amounts, Ledger};
use flux_system::System;
use ledger_audit::{Finding, audit, audit_bounds};
use std::alloc::{AllocError, Global};
use std::process::Abort;
use std::test::Fail;

// The numbers of a ledger of two patches.
#[derive(Clone, Copy)]
struct Figures {
    direct: [u64; 2],
    taken: [u64; 2],
    residual: [u64; 2],
    err: [u64; 2],
    parts: u32,
    wins: u64,
}

// What the two patches settle to.
const SETTLED: Figures = Figures {
    direct: [1_000, 0],
    taken: [1_062, 265],
    residual: [4, 0],
    err: [250_000_000_000, 500_000_000_000],
    parts: 1,
    wins: 4,
};

// A list of two numbers.
fn two(alloc: Global, values: [u64; 2]) -> Result<Amounts, AllocError>
    ensures { IfOk result (λ list. length list ≡ 2) }
{
    Ok(Amounts::from_vec(values.to_vec(alloc)?))
}

// The ledger of some figures.
fn ledger_of(alloc: Global, figures: Figures) -> Result<Ledger, AllocError>
    ensures { IfOk result (λ ledger. HasPatches (length ledger.direct) ledger) }
{
    Ok(Ledger {
        direct: two(alloc, figures.direct)?,
        taken: two(alloc, figures.taken)?,
        residual: two(alloc, figures.residual)?,
        err: two(alloc, figures.err)?,
        parts: figures.parts,
        wins: figures.wins,
    })
}

// A ledger of three patches where nothing is.
fn three_patches(alloc: Global) -> Result<Ledger, AllocError>
    ensures { IfOk result (λ ledger. HasPatches (length ledger.direct) ledger) }
{
    Ok(Ledger {
        direct: three(alloc)?,
        taken: three(alloc)?,
        residual: three(alloc)?,
        err: three(alloc)?,
        parts: 1,
        wins: 0,
    })
}

// A list of three zeros.
fn three(alloc: Global) -> Result<Amounts, AllocError>
    ensures { IfOk result (λ list. length list ≡ 3) }
{
    Ok(Amounts::from_vec([0, 0, 0].to_vec(alloc)?))
}

// What an audit finds of a ledger, for a direct flux within the limits.
fn finding_within(system: &System, direct: &[u64], ledger: &Ledger) -> Option<Finding>
    requires direct { length direct.now ≡ patches system.now }
    requires lengths { HasPatches (length ledger.now.direct) ledger.now }
    ensures { IfSome result (λ finding. finding ≡ Balanced → IsDone system.now ledger.now) }
{
    match system.takes_bound(direct) {
        Ok(_) => Some(audit(system, direct, ledger)),
        Err(_) => None,
    }
}

// What an audit finds of given intervals, where it finds nothing amiss in the ledger.
fn bounds_within(system: &System, ledger: &Ledger, given: &[(u64, u64)]) -> Option<Finding>
    requires system { patches system.now ≡ 2 }
    requires lengths { HasPatches (length ledger.now.direct) ledger.now }
    requires given { length given.now ≡ 2 }
{
    match finding_within(system, &[1_000, 0], ledger) {
        Some(Finding::Balanced) => Some(audit_bounds(system, ledger, given)),
        _ => None,
    }
}

// What is found of a ledger, where 1,000 nanolumens come to the first of the two patches.
fn assert_finding(
    rt: &impl Abort,
    alloc: Global,
    ledger: &Ledger,
    expected: Finding,
) -> Result<(), Fail>
    requires { HasPatches (length ledger.now.direct) ledger.now }
{
    let system = two_patches(alloc, 500_000_000)?;
    assert_eq!(rt;
        finding_within(&system, &[1_000, 0], ledger),
        Some(expected)
    );
    Ok(())
}

// What is found of intervals for the settled ledger.
fn assert_bounds(
    rt: &impl Abort,
    alloc: Global,
    given: &[(u64, u64)],
    expected: Finding,
) -> Result<(), Fail>
    requires { length given.now ≡ 2 }
{
    let system = two_patches(alloc, 500_000_000)?;
    let ledger = ledger_of(alloc, SETTLED)?;
    assert_eq!(rt; bounds_within(&system, &ledger, given), Some(expected));
    Ok(())
}

// Figures, and what is found of them.
type Case = (Figures, Finding);

// Changes of a few. A win more than there were is none that an audit sees.
fn small_changes() -> [Case; 5] {
    let balanced = Finding::Balanced;
    let direct = Finding::Direct {
        patch: 0,
        left: 1_000,
        right: 999,
    };
    let wins = Finding::Wins {
        wins: 134,
        limit: 133,
    };
    [
        (SETTLED, balanced),
        (with_direct([999, 0]), direct),
        (with_wins(5), balanced),
        (with_wins(134), wins),
        raised_fraction(),
    ]
}

// Numbers at the ends of their ranges.
fn extreme_changes() -> [Case; 5] {
    [
        no_parts(),
        greatest_fraction(),
        greatest_fraction_and_parts(),
        greatest_residual(),
        greatest_taken(),
    ]
}

fn with_direct(direct: [u64; 2]) -> Figures {
    let mut figures = SETTLED;
    figures.direct = direct;
    figures
}

fn with_wins(wins: u64) -> Figures {
    let mut figures = SETTLED;
    figures.wins = wins;
    figures
}

fn with_fraction(fraction: u64, parts: u32) -> Figures {
    let mut figures = SETTLED;
    figures.err = [fraction, 500_000_000_000];
    figures.parts = parts;
    figures
}

fn raised_fraction() -> Case {
    let finding = Finding::Unbalanced {
        patch: 0,
        left: 1_066_250_000_000_001,
        right: 1_066_250_000_000_000,
    };
    (with_fraction(250_000_000_001, 1), finding)
}

fn no_parts() -> Case {
    let finding = Finding::Err {
        patch: 0,
        value: 250_000_000_000,
    };
    (with_fraction(250_000_000_000, 0), finding)
}

fn greatest_fraction() -> Case {
    let finding = Finding::Err {
        patch: 0,
        value: u64::MAX,
    };
    (with_fraction(u64::MAX, 1), finding)
}

fn greatest_fraction_and_parts() -> Case {
    let finding = Finding::Unbalanced {
        patch: 0,
        left: 18_447_810_073_709_551_615,
        right: 1_066_250_000_000_000,
    };
    (with_fraction(u64::MAX, u32::MAX), finding)
}

fn greatest_residual() -> Case {
    let mut figures = SETTLED;
    figures.residual = [u64::MAX, 0];
    let finding = Finding::Residual {
        patch: 0,
        value: u64::MAX,
    };
    (figures, finding)
}

fn greatest_taken() -> Case {
    let mut figures = SETTLED;
    figures.taken = [u64::MAX, 265];
    let finding = Finding::Unbalanced {
        patch: 0,
        left: 18_446_744_073_709_551_619_250_000_000_000,
        right: 1_066_250_000_000_000,
    };
    (figures, finding)
}

// What is found of each of some figures.
fn assert_cases(rt: &impl Abort, alloc: Global, cases: &[Case]) -> Result<(), Fail> {
    for (figures, expected) in cases {
        let ledger = ledger_of(alloc, *figures)?;
        assert_finding(rt, alloc, &ledger, *expected)?;
    }
    Ok(())
}

#[test]
fn a_small_change_is_found(rt: HostRuntime) -> Result<(), Fail> {
    assert_cases(&rt, rt.alloc(), &small_changes())
}

#[test]
fn the_greatest_numbers_wrap_nothing(rt: HostRuntime) -> Result<(), Fail> {
    assert_cases(&rt, rt.alloc(), &extreme_changes())
}

#[test]
fn a_ledger_of_more_patches_is_found(rt: HostRuntime) -> Result<(), Fail> {
    let alloc = rt.alloc();
    let ledger = three_patches(alloc)?;
    assert_finding(&rt, alloc, &ledger, Finding::Size { left: 2, right: 3 })
}

#[test]
fn intervals_are_told_from_others(rt: HostRuntime) -> Result<(), Fail> {
    let alloc = rt.alloc();
    assert_bounds(&rt, alloc, &[(1_066, 1_069), (265, 268)], Finding::Balanced)?;
    let bounds = Finding::Bounds {
        patch: 1,
        low: 265,
        high: 268,
    };
    assert_bounds(&rt, alloc, &[(1_066, 1_069), (265, 267)], bounds)
}
