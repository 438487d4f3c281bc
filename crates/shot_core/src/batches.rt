// What an actor has in hand, where it takes several times before it gives.
ghost use Rattle.std.specs.Prelude.{◌≡◌, ◌<◌, ◌≤◌, ◌^◌, ◌*◌, ◌+◌, ◌/◌, ◌%◌, ℕ, IfOk, length, replicate, slice_index, slice_set};
ghost use Rattle.flux_system.specs.System.{patches, share};
ghost use Rattle.shot_core.specs.Shots.{amounts_after, fractions_after};
ghost use Rattle.shot_core.specs.Shapes.{with_batch, IsBatch};

use crate::hands::{Hand, MOST_AT_ONCE};
use crate::parts::{BILLION, add_row};
use flux_ledger::Amounts;
use flux_system::System;
use std::alloc::{AllocError, Global};
use std::marker::Model;

// A batch has at most so many shots, so that their sums fit.
const MOST_SHOTS: u64 = 16;

// Shots whose products are summed up: for each patch those of its shares with the thousand millions of the factors, and
// with what is left of them below. The factors come to `most` at the most.
#[derive(Debug, Drop)]
struct Batch {
    highs: Amounts,
    lows: Amounts,
    shots: u64,
    most: u64,
}

impl Batch {
    // Adds a shot from a patch.
    fn add(&mut self, system: &System, patch: usize, factor: u64)
        requires lengths { (length self.old.highs ≡ patches system.now) × (length self.old.lows ≡ patches system.now) }
        requires patch { patch < patches system.now }
        requires shots { self.old.shots < 16 }
        requires most { self.old.most + factor < 2 ^ 64 }
        requires high { (j : ℕ) → j < patches system.now → slice_index self.old.highs j ≤ self.old.most }
        requires low { (j : ℕ) → j < patches system.now → slice_index self.old.lows j ≤ self.old.shots * 10 ^ 18 }
        ensures lengths { (length self.new.highs ≡ patches system.now) × (length self.new.lows ≡ patches system.now) }
        ensures highs { (j : ℕ) → j < patches system.now → slice_index self.new.highs j ≡ slice_index self.old.highs j + factor / 10 ^ 9 * share system.now patch j }
        ensures lows { (j : ℕ) → j < patches system.now → slice_index self.new.lows j ≡ slice_index self.old.lows j + factor % 10 ^ 9 * share system.now patch j }
        ensures shots { self.new.shots ≡ self.old.shots + 1 }
        ensures most { self.new.most ≡ self.old.most + factor }
    {
        prove!(patch < system.len());
        add_row(
            system.row(patch),
            factor / BILLION,
            factor % BILLION,
            &mut self.highs,
            &mut self.lows,
        );
        self.shots += 1;
        self.most += factor;
    }

    // Adds all sums to a hand where another shot of this factor would be too much.
    fn make_room(&mut self, hand: &mut Hand, factor: u64)
        requires batch { IsBatch hand.old self.old.highs self.old.lows self.old.shots self.old.most }
        requires factor { factor ≤ 95 * 10 ^ 17 }
        ensures batch { IsBatch hand.new self.new.highs self.new.lows self.new.shots self.new.most }
        ensures same { with_batch hand.new self.new.highs self.new.lows ≡ with_batch hand.old self.old.highs self.old.lows }
        ensures shots { self.new.shots < 16 }
        ensures most { self.new.most + factor < 2 ^ 64 }
    {
        if self.shots == MOST_SHOTS || self.most.checked_add(factor).is_none() {
            self.carry_to(hand);
        }
    }

    // Adds all sums to a hand, and forgets the shots.
    fn carry_to(&mut self, hand: &mut Hand)
        requires { IsBatch hand.old self.old.highs self.old.lows self.old.shots self.old.most }
        ensures hand { hand.new ≡ with_batch hand.old self.old.highs self.old.lows }
        ensures batch { IsBatch hand.new self.new.highs self.new.lows self.new.shots self.new.most }
        ensures same { with_batch hand.new self.new.highs self.new.lows ≡ hand.new }
        ensures shots { self.new.shots ≡ 0 }
    {
        if self.shots == 0 {
            return;
        }
        hand.carry(&mut self.highs, &mut self.lows);
        self.shots = 0;
        self.most = 0;
    }
}

/// A [`Hand`] whose takes are booked in batches: their products are summed up and divided once for each patch, and not
/// once for each take. Contracts see the same of it as of a `Hand`.
#[derive(Debug, Drop)]
pub struct BatchHand {
    hand: Hand,
    batch: Batch,
}

impl Model for BatchHand {
    ghost use Rattle.shot_core.specs.Hands.{Holdings};
    ghost use Rattle.shot_core.specs.Shapes.{with_batch, IsBatch};

    ghost Value = { Holdings };

    ghost view = { λ b. with_batch b.hand b.batch.highs b.batch.lows };

    ghost invariant = { λ b. IsBatch b.hand b.batch.highs b.batch.lows b.batch.shots b.batch.most };
}

impl BatchHand {
    /// A hand with nothing for any of `n` patches.
    pub fn new(alloc: Global, n: usize) -> Result<BatchHand, AllocError>
        ensures { IfOk result (λ hand. hand ≡ record { amounts = replicate n 0; fractions = replicate n 0 }) }
    {
        Ok(BatchHand {
            hand: Hand::new(alloc, n)?,
            batch: Batch {
                highs: zeros(alloc, n)?,
                lows: zeros(alloc, n)?,
                shots: 0,
                most: 0,
            },
        })
    }

    /// Adds what a patch passes on of `t` nanolumens that were taken there, as [`Hand::book`] does.
    pub fn book(&mut self, system: &System, patch: usize, t: u64)
        requires length { length self.old.amounts ≡ patches system.now }
        requires patch { patch < patches system.now }
        requires fits { (j : ℕ) → j < patches system.now → slice_index (amounts_after system.now patch t self.old.amounts self.old.fractions) j < 2 ^ 64 }
        ensures amounts { self.new.amounts ≡ amounts_after system.now patch t self.old.amounts self.old.fractions }
        ensures fractions { self.new.fractions ≡ fractions_after system.now patch t self.old.fractions }
    {
        prove!(patch < system.len());
        if t > MOST_AT_ONCE {
            self.batch.carry_to(&mut self.hand);
            self.hand.book(system, patch, t);
            return;
        }
        let factor = t * u64::from(system.reflectance(patch));
        self.batch.make_room(&mut self.hand, factor);
        self.batch.add(system, patch, factor);
    }

    /// What is in hand for patch `target`, in nanolumens.
    pub fn amount(&mut self, target: usize) -> u64
        requires { target < length self.old.amounts }
        ensures amount { result ≡ slice_index self.old.amounts target }
        ensures same { self.new ≡ self.old }
    {
        self.batch.carry_to(&mut self.hand);
        self.hand.amounts()[target]
    }

    /// Takes all that is in hand for patch `target`, in nanolumens. Its fraction stays.
    pub fn clear(&mut self, target: usize) -> u64
        requires { target < length self.old.amounts }
        ensures amount { result ≡ slice_index self.old.amounts target }
        ensures amounts { self.new.amounts ≡ slice_set self.old.amounts target 0 }
        ensures fractions { self.new.fractions ≡ self.old.fractions }
    {
        self.batch.carry_to(&mut self.hand);
        self.hand.clear(target)
    }

    /// The hand itself, with all that was booked.
    pub fn into_hand(self) -> Hand
        ensures { result ≡ self }
    {
        let BatchHand {
            mut hand,
            mut batch,
        } = self;
        batch.carry_to(&mut hand);
        hand
    }
}

// A sum of 0 for each of `n` patches.
fn zeros(alloc: Global, n: usize) -> Result<Amounts, AllocError>
    ensures { IfOk result (λ sums. sums ≡ replicate n 0) }
{
    Ok(Amounts::from_vec(Vec::from_elem(alloc, 0, n)?))
}
