// Shots and passes of a shooter that is alone over its bank.
use crate::figures::Figures;
use crate::lone_shooters::LoneShooter;
use flux_accounts::Take;
use lux_io::Gate;
use picker::{Picker, greatest};
use shooter::PassReport;
use std::sync::atomic::{AtomicU64, Ordering};
use std::test::Fail;

// Each shot gives a quarter of what it took to the other patch, whose word has it at the next shot.
#[test]
fn a_shot_takes_a_patch_and_gives_what_it_passes_on(rt: HostRuntime) -> Result<(), Fail> {
    let alloc = rt.alloc();
    let figures = Figures::of_two_patches(alloc, &[1_000, 0])?;
    let picker = Picker::new(Box::new(alloc, |values: &[u64], threshold: u64| {
        greatest(values, threshold)
    })?);
    let mut lone = LoneShooter::start(&rt, alloc, &figures, picker)?;
    let rows = [
        (0, Take::Won { t: 1_000 }),
        (0, Take::Low { seen: 0 }),
        (1, Take::Won { t: 250 }),
        (0, Take::Won { t: 62 }),
        (1, Take::Won { t: 15 }),
        (0, Take::Low { seen: 4 }),
    ];
    for (patch, answer) in rows {
        assert_eq!(rt; lone.shot(&rt, patch), answer, "patch {patch}");
    }
    lone.close(&rt, &figures)
}

// A gate that counts its calls, those of them that came in the order of the turns, and adds up how many takes were won
// before each.
#[derive(Drop)]
struct CountingGate {
    calls: AtomicU64,
    in_order: AtomicU64,
    won: AtomicU64,
}

impl Gate for CountingGate {
    fn at(&self, _shooter: u32, turn: u64, won: u64) {
        let before = self.calls.fetch_add(1, Ordering::SeqCst);
        if before == turn {
            self.in_order.fetch_add(1, Ordering::SeqCst);
        }
        self.won.fetch_add(won, Ordering::SeqCst);
    }
}

// The first of nine turns wins and the next seven find nothing; then what was taken is given, and the last turn wins.
#[test]
fn a_pass_calls_the_gate_before_each_turn(rt: HostRuntime) -> Result<(), Fail> {
    let alloc = rt.alloc();
    let figures = Figures::of_nine_patches(alloc)?;
    let picker = Picker::new(Box::new(alloc, |values: &[u64], threshold: u64| {
        greatest(values, threshold)
    })?);
    let mut lone = LoneShooter::start(&rt, alloc, &figures, picker)?;
    let gate = CountingGate {
        calls: AtomicU64::new(0),
        in_order: AtomicU64::new(0),
        won: AtomicU64::new(0),
    };
    let report = PassReport {
        passes: 1,
        won: 2,
        low: 7,
        lost: 0,
    };
    assert_eq!(rt; lone.pass(&gate), report);
    assert_eq!(rt; gate.calls.load(Ordering::SeqCst), 9);
    assert_eq!(rt; gate.in_order.load(Ordering::SeqCst), 9);
    assert_eq!(rt; gate.won.load(Ordering::SeqCst), 8);
    lone.close(&rt, &figures)
}
