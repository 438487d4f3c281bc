// The equations of a closed ledger, in whole numbers. They are computed from the figures alone, as no code of the bank
// or of the system does it.
use crate::figures::Figures;
use flux_ledger::Ledger;
use std::process::Abort;
use std::test::Fail;

// What one nanolumen is counted in.
const PARTS_OF_A_NANOLUMEN: u128 = 1_000_000_000_000;

// What all takes passed on to a patch, in parts of a nanolumen; `None` where a list is too short or a number too large.
fn passed_to(figures: &Figures, taken: &[u64], patch: usize) -> Option<u128> {
    let n = figures.reflectance.len();
    let mut sum: u128 = 0;
    for (from, amount) in taken.iter().enumerate() {
        let reflectance = figures.reflectance.get(from)?;
        let share = figures
            .shares
            .get(from.checked_mul(n)?.checked_add(patch)?)?;
        let coefficient = u128::from(*reflectance) * u128::from(*share);
        sum = sum.checked_add(u128::from(*amount).checked_mul(coefficient)?)?;
    }
    Some(sum)
}

// What came to a patch and what it took and has left are the same, in parts of a nanolumen, and its fractions are below
// a nanolumen for each account.
fn assert_equation(
    rt: &impl Abort,
    figures: &Figures,
    ledger: &Ledger,
    patch: usize,
) -> Result<(), Fail> {
    let n = figures.direct.len();
    assert!(rt; patch < n);
    assert_eq!(rt; ledger.taken.len(), n);
    assert_eq!(rt; ledger.residual.len(), n);
    assert_eq!(rt; ledger.err.len(), n);
    let err = u128::from(ledger.err.get(patch));
    let passed = passed_to(figures, ledger.taken.as_slice(), patch).ok_or("not passed on")?;
    let came = (PARTS_OF_A_NANOLUMEN * u128::from(figures.direct[patch]))
        .checked_add(passed)
        .ok_or("too much came")?;
    let stays = u128::from(ledger.taken.get(patch)) + u128::from(ledger.residual.get(patch));
    assert_eq!(rt; PARTS_OF_A_NANOLUMEN * stays + err, came, "patch {patch}");
    assert!(rt; err < PARTS_OF_A_NANOLUMEN * u128::from(ledger.parts));
    Ok(())
}

// The ledger of a bank with so many seats, all of them retired.
pub(crate) fn assert_equations(
    rt: &impl Abort,
    figures: &Figures,
    ledger: &Ledger,
    seats: u32,
) -> Result<(), Fail> {
    assert_eq!(rt; ledger.direct.as_slice(), figures.direct.as_slice());
    for patch in 0..figures.direct.len() {
        assert_equation(rt, figures, ledger, patch)?;
    }
    assert!(rt;
        u128::from(ledger.wins) * u128::from(figures.threshold) <= total(ledger.taken.as_slice())
    );
    assert_eq!(rt; u64::from(ledger.parts), 1 + u64::from(seats));
    Ok(())
}

// The ledger of a crew with so many shooters, which leaves nothing that could be taken.
pub(crate) fn assert_finished(
    rt: &impl Abort,
    figures: &Figures,
    ledger: &Ledger,
    shooters: u32,
) -> Result<(), Fail> {
    assert_equations(rt, figures, ledger, shooters)?;
    for residual in ledger.residual.as_slice() {
        assert!(rt; *residual < figures.threshold);
    }
    Ok(())
}

// The sum of some numbers.
pub(crate) fn total(numbers: &[u64]) -> u128 {
    let mut sum: u128 = 0;
    for number in numbers {
        sum = sum.saturating_add(u128::from(*number));
    }
    sum
}
