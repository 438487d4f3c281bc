// Hands that book takes one by one, and those that book them in batches.
ghost use Rattle.std.specs.Prelude.{◌≡◌};

use crate::worlds::{MOST_BOOKED, assert_numbers, has_room, system_of};
use flux_system::System;
use shot_core::{BatchHand, Hand};
use std::alloc::{AllocError, Global};
use std::process::Abort;
use std::test::Fail;

// A hand of each kind, which have the same.
#[derive(Drop)]
struct Hands {
    plain: Hand,
    batched: BatchHand,
    ghost alike: { batched ≡ plain },
}

impl Hands {
    fn new(alloc: Global, n: usize) -> Result<Hands, AllocError> {
        let plain = Hand::new(alloc, n)?;
        let batched = BatchHand::new(alloc, n)?;
        Ok(Hands { plain, batched })
    }

    // Books a take that is seen to fit.
    fn book(&mut self, rt: &impl Abort, system: &System, patch: usize, t: u64) {
        assert!(rt; patch < system.len());
        assert!(rt; t <= MOST_BOOKED);
        assert_eq!(rt; self.plain.amounts().len(), system.len());
        assert!(rt; has_room(self.plain.amounts()));
        assert!(rt; has_room(self.plain.fractions()));
        self.plain.book(system, patch, t);
        self.batched.book(system, patch, t);
    }

    // Takes what both have for a patch.
    fn give(&mut self, rt: &impl Abort, target: usize) -> u64 {
        assert!(rt; target < self.plain.amounts().len());
        let amount = self.plain.amounts()[target];
        assert_eq!(rt; self.batched.amount(target), amount);
        assert_eq!(rt; self.batched.clear(target), amount);
        assert_eq!(rt; self.plain.clear(target), amount);
        amount
    }
}

// Three patches, of which the last reflects next to nothing.
fn three_patches(alloc: Global) -> Result<System, Fail> {
    let shares = [0, 999_999_999, 0, 333_333_333, 0, 666_666_666, 1, 2, 0];
    system_of(alloc, &[950, 500, 1], &shares, 10)
}

// Takes of which one is too great for a batch, and others are so great that few of them fill one.
const GREAT: [(usize, u64); 8] = [
    (0, 1_001),
    (1, 3),
    (2, 999_999_999_999),
    (0, 25_000_000_000_000_001),
    (0, 10_000_000_000_000_000),
    (0, 10_000_000_000_000_000),
    (1, 10_000_000_000_000_000),
    (0, 9_999_999_999_999_999),
];

#[test]
fn batches_have_what_takes_have_one_by_one(rt: HostRuntime) -> Result<(), Fail> {
    let alloc = rt.alloc();
    let system = three_patches(alloc)?;
    let mut hands = Hands::new(alloc, system.len())?;
    for (patch, t) in GREAT {
        hands.book(&rt, &system, patch, t);
    }
    assert_eq!(rt; hands.give(&rt, 0), 1_666_666_665_000_001);
    assert_eq!(rt; hands.give(&rt, 1), 52_249_999_947_750_952);
    assert_eq!(rt; hands.give(&rt, 2), 3_333_333_330_000_000);
    // More than two batches of small takes, over the fractions that stayed.
    for k in 0..40u32 {
        let t = 1_000_000_000 * u64::from(k + 1) + u64::from(k);
        hands.book(&rt, &system, k as usize % 3, t);
    }
    assert_eq!(rt; hands.give(&rt, 0), 43_333_333_331);
    assert_eq!(rt; hands.give(&rt, 1), 272_649_999_988);
    assert_eq!(rt; hands.give(&rt, 2), 86_666_666_663);
    let Hands { plain, batched } = hands;
    let fractions = [939_666_625_259, 195_998_790_218, 333_333_250_000];
    assert_numbers(&rt, batched.into_hand().fractions(), &fractions);
    assert_numbers(&rt, plain.fractions(), &fractions);
    Ok(())
}
