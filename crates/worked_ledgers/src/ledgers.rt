// Ledgers: settled, and as text.
ghost use Rattle.std.specs.Prelude.{◌≡◌, ◌∷◌, [], IfOk};

use crate::systems::{system_of, two_patches};
use flux_ledger::{Amounts, Ledger, ledger_text};
use shot_core::{Settler, serial, settle};
use std::alloc::{AllocError, Global};
use std::process::Abort;
use std::test::Fail;
use worked_texts::TWO_PATCHES_LEDGER;

fn assert_amounts(rt: &impl Abort, amounts: &Amounts, expected: &[u64]) {
    assert_eq!(rt; amounts.as_slice(), expected);
}

fn assert_counts(rt: &impl Abort, ledger: &Ledger, parts: u32, wins: u64) {
    assert_eq!(rt; ledger.parts, parts);
    assert_eq!(rt; ledger.wins, wins);
}

// What is expected of the two patches once their flux has settled.
fn assert_two_patches(rt: &impl Abort, ledger: &Ledger) {
    assert_amounts(rt, &ledger.direct, &[1_000, 0]);
    assert_amounts(rt, &ledger.taken, &[1_062, 265]);
    assert_amounts(rt, &ledger.residual, &[4, 0]);
    assert_amounts(rt, &ledger.err, &[250_000_000_000, 500_000_000_000]);
    assert_counts(rt, ledger, 1, 4);
}

#[test]
fn two_patches_settle_by_four_takes(rt: HostRuntime) -> Result<(), Fail> {
    let alloc = rt.alloc();
    let system = two_patches(alloc, 500_000_000)?;
    let ledger = serial(alloc, &system, &[1_000, 0])?;
    assert_two_patches(&rt, &ledger);
    let text = ledger_text(alloc, &ledger)?;
    assert_eq!(rt; text.as_slice(), TWO_PATCHES_LEDGER.as_bytes());
    Ok(())
}

#[test]
fn a_settled_ledger_stays(rt: HostRuntime) -> Result<(), Fail> {
    let alloc = rt.alloc();
    let system = two_patches(alloc, 500_000_000)?;
    let mut settler = Settler::new(alloc, system.len())?;
    let mut ledger = serial(alloc, &system, &[1_000, 0])?;
    settle(&system, &mut settler, &mut ledger);
    assert_two_patches(&rt, &ledger);
    Ok(())
}

// A list of two numbers.
fn two(alloc: Global, first: u64, second: u64) -> Result<Amounts, AllocError>
    ensures { IfOk result (λ list. list ≡ first ∷ second ∷ []) }
{
    Ok(Amounts::from_vec([first, second].to_vec(alloc)?))
}

// A ledger of three accounts, whose fractions at patch 1 are two whole nanolumens together.
fn three_accounts(alloc: Global) -> Result<Ledger, AllocError>
    ensures { IfOk result (λ ledger. ledger ≡ record { direct = 20 ∷ 2 ∷ []; taken = 0 ∷ 0 ∷ []; residual = 20 ∷ 0 ∷ []; err = 0 ∷ 2000000000000 ∷ []; parts = 3; wins = 0 }) }
{
    Ok(Ledger {
        direct: two(alloc, 20, 2)?,
        taken: two(alloc, 0, 0)?,
        residual: two(alloc, 20, 0)?,
        err: two(alloc, 0, 2_000_000_000_000)?,
        parts: 3,
        wins: 0,
    })
}

// What settling makes of it, in a system whose second patch passes on nothing. It is balanced by its figures, which are
// known in here alone.
fn settled_accounts(alloc: Global) -> Result<Ledger, Fail> {
    let system = system_of(alloc, &[500, 500], &[0, 500_000_000, 0, 0], 10)?;
    let mut settler = Settler::new(alloc, system.len())?;
    let mut ledger = three_accounts(alloc)?;
    settle(&system, &mut settler, &mut ledger);
    Ok(ledger)
}

#[test]
fn the_first_take_carries_whole_nanolumens_of_fractions(rt: HostRuntime) -> Result<(), Fail> {
    let alloc = rt.alloc();
    let ledger = settled_accounts(alloc)?;
    assert_amounts(&rt, &ledger.taken, &[20, 0]);
    assert_amounts(&rt, &ledger.residual, &[0, 7]);
    assert_amounts(&rt, &ledger.err, &[0, 0]);
    assert_counts(&rt, &ledger, 3, 1);
    Ok(())
}

// A list of one number.
fn one(alloc: Global, value: u64) -> Result<Amounts, AllocError>
    ensures { IfOk result (λ list. list ≡ value ∷ []) }
{
    Ok(Amounts::from_vec([value].to_vec(alloc)?))
}

#[test]
fn a_ledger_text_has_its_greatest_numbers(rt: HostRuntime) -> Result<(), Fail> {
    let alloc = rt.alloc();
    let ledger = Ledger {
        direct: one(alloc, u64::MAX)?,
        taken: one(alloc, 0)?,
        residual: one(alloc, 10)?,
        err: one(alloc, 1)?,
        parts: u32::MAX,
        wins: u64::MAX,
    };
    let text = ledger_text(alloc, &ledger)?;
    assert_eq!(rt;
        text.as_slice(),
        b"lux-ledger 1\npatches 1\nwins 18446744073709551615\nparts 4294967295\npatch 0 direct 18446744073709551615 taken 0 residual 10 err 1\n".as_slice()
    );
    Ok(())
}
