// Seats that step one after another.
use crate::figures::Figures;
use crate::halls::Hall;
use flux_accounts::{Given, Take};
use std::test::Fail;

// The first take passes on 12 and a half nanolumens, of which the half stays behind as a fraction; the second passes on 3.
#[test]
fn one_after_another(rt: HostRuntime) -> Result<(), Fail> {
    let alloc = rt.alloc();
    let figures = Figures::of_two_patches(alloc, &[50, 0])?;
    let mut hall = Hall::start(&rt, alloc, &figures, 2)?;
    assert_eq!(rt; hall.look(&rt, 0, 0), 50);
    assert_eq!(rt; hall.take(&rt, 1, 0), Take::Won { t: 50 });
    let lost = Take::Lost { seen: 50, found: 0 };
    assert_eq!(rt; hall.take_seen(&rt, 0, 0, 50), lost);
    assert_eq!(rt; hall.give(&rt, 1, 0), None);
    let given = Given {
        amount: 12,
        after: 12,
    };
    assert_eq!(rt; hall.give(&rt, 1, 1), Some(given));
    assert_eq!(rt; hall.take(&rt, 1, 1), Take::Won { t: 12 });
    let given = Given {
        amount: 3,
        after: 3,
    };
    assert_eq!(rt; hall.give(&rt, 1, 0), Some(given));
    assert_eq!(rt; hall.take(&rt, 0, 0), Take::Low { seen: 3 });
    let closing = hall.close(&rt, &figures)?;
    let ledger = closing.ledger;
    assert_eq!(rt; ledger.direct.as_slice(), [50, 0].as_slice());
    assert_eq!(rt; ledger.taken.as_slice(), [50, 12].as_slice());
    assert_eq!(rt; ledger.residual.as_slice(), [3, 0].as_slice());
    assert_eq!(rt; ledger.err.as_slice(), [0, 500_000_000_000].as_slice());
    assert_eq!(rt; (ledger.parts, ledger.wins), (3, 2));
    Ok(())
}

// Two takes are in one hand before it gives.
#[test]
fn takes_are_pooled_in_one_hand(rt: HostRuntime) -> Result<(), Fail> {
    let alloc = rt.alloc();
    let figures = Figures::of_two_patches(alloc, &[1_000, 1_000])?;
    let mut hall = Hall::start(&rt, alloc, &figures, 1)?;
    for patch in 0..2 {
        assert_eq!(rt; hall.take(&rt, 0, patch), Take::Won { t: 1_000 });
    }
    for target in 0..2 {
        let given = Given {
            amount: 250,
            after: 250,
        };
        assert_eq!(rt; hall.give(&rt, 0, target), Some(given));
    }
    let ledger = hall.close(&rt, &figures)?.ledger;
    assert_eq!(rt; ledger.taken.as_slice(), [1_000, 1_000].as_slice());
    assert_eq!(rt; ledger.residual.as_slice(), [250, 250].as_slice());
    assert_eq!(rt; ledger.err.as_slice(), [0, 0].as_slice());
    assert_eq!(rt; (ledger.parts, ledger.wins), (2, 2));
    Ok(())
}
