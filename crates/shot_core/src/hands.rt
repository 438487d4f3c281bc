// What an actor has in hand.
ghost use Rattle.std.specs.Prelude.{◌≡◌, ◌<◌, ◌≤◌, ◌+◌, ◌*◌, ◌^◌, ℕ, IfOk, length, replicate, slice_index, slice_set};
ghost use Rattle.flux_system.specs.System.{patches, scale};
ghost use Rattle.shot_core.specs.Shots.{amounts_after, fractions_after};
ghost use Rattle.shot_core.specs.Hands.{is_empty};
ghost use Rattle.shot_core.specs.Shapes.{parts_with, with_batch};

use crate::parts::{BILLION, SCALE, pass_on};
use flux_ledger::Amounts;
use flux_system::System;
use std::alloc::{AllocError, Global};
use std::marker::Model;

// The most nanolumens that are passed on at once.
pub(crate) const MOST_AT_ONCE: u64 = 10_000_000_000_000_000;

/// What takes have passed on and nobody was given yet: for each patch whole nanolumens, and a fraction of one that
/// stays in hand.
#[derive(Debug, Drop)]
pub struct Hand {
    amounts: Amounts,
    fractions: Amounts,
}

impl Model for Hand {
    ghost use Rattle.std.specs.Prelude.{◌≡◌, length};
    ghost use Rattle.shot_core.specs.Hands.{Holdings};
    ghost use Rattle.shot_core.specs.Shapes.{AreSmall};

    ghost Value = { Holdings };

    ghost view = { λ hand. record { amounts = hand.amounts; fractions = hand.fractions } };

    ghost invariant = { λ hand. (length hand.fractions ≡ length hand.amounts) × AreSmall hand.fractions };
}

impl Hand {
    /// A hand with nothing for any of `n` patches.
    pub fn new(alloc: Global, n: usize) -> Result<Hand, AllocError>
        ensures { IfOk result (λ hand. hand ≡ record { amounts = replicate n 0; fractions = replicate n 0 }) }
    {
        Ok(Hand {
            amounts: Amounts::from_vec(Vec::from_elem(alloc, 0, n)?),
            fractions: Amounts::from_vec(Vec::from_elem(alloc, 0, n)?),
        })
    }

    /// Adds what a patch passes on of `t` nanolumens that were taken there: to each amount its whole nanolumens, where
    /// all sums fit, and to each fraction the rest. The time is that of the shares of the patch that aren't 0.
    pub fn book(&mut self, system: &System, patch: usize, t: u64)
        requires length { length self.old.amounts ≡ patches system.now }
        requires patch { patch < patches system.now }
        requires fits { (j : ℕ) → j < patches system.now → slice_index (amounts_after system.now patch t self.old.amounts self.old.fractions) j < 2 ^ 64 }
        ensures amounts { self.new.amounts ≡ amounts_after system.now patch t self.old.amounts self.old.fractions }
        ensures fractions { self.new.fractions ≡ fractions_after system.now patch t self.old.fractions }
    {
        let mut rest = t;
        while rest > MOST_AT_ONCE {
            pass_on(
                system,
                patch,
                MOST_AT_ONCE,
                &mut self.amounts,
                &mut self.fractions,
            );
            rest -= MOST_AT_ONCE;
        }
        pass_on(system, patch, rest, &mut self.amounts, &mut self.fractions);
    }

    /// Takes all that is in hand for patch `target`, in nanolumens. Its fraction stays.
    pub fn clear(&mut self, target: usize) -> u64
        requires { target < length self.old.amounts }
        ensures amount { result ≡ slice_index self.old.amounts target }
        ensures amounts { self.new.amounts ≡ slice_set self.old.amounts target 0 }
        ensures fractions { self.new.fractions ≡ self.old.fractions }
    {
        let amount = self.amounts.get(target);
        self.amounts.set(target, 0);
        amount
    }

    // Adds the sums of a batch, which are 0 from then on, and divides once for each patch.
    pub(crate) fn carry(&mut self, highs: &mut Amounts, lows: &mut Amounts)
        requires of_highs { length highs.old ≡ length self.old.amounts }
        requires of_lows { length lows.old ≡ length self.old.amounts }
        requires low { (j : ℕ) → j < length self.old.amounts → slice_index lows.old j ≤ 16 * 10 ^ 18 }
        requires fits { (j : ℕ) → j < length self.old.amounts → scale * slice_index self.old.amounts j + parts_with highs.old lows.old self.old.fractions j < scale * 2 ^ 64 }
        ensures hand { self.new ≡ with_batch self.old highs.old lows.old }
        ensures highs { highs.new ≡ replicate (length self.old.amounts) 0 }
        ensures lows { lows.new ≡ replicate (length self.old.amounts) 0 }
    {
        for j in 0..self.amounts.len() {
            let high = highs.get(j);
            let parts = high % 1_000 * BILLION + lows.get(j) + self.fractions.get(j);
            let sum = self.amounts.get(j) + high / 1_000 + parts / SCALE;
            self.amounts.set(j, sum);
            self.fractions.set(j, parts % SCALE);
            highs.set(j, 0);
            lows.set(j, 0);
        }
    }

    /// No patch is to be given anything.
    pub fn is_empty(&self) -> bool
        ensures { result ≡ is_empty self.now.amounts }
    {
        self.amounts.as_slice().iter().all(|amount| *amount == 0)
    }

    /// What is in hand for each patch, in nanolumens.
    pub fn amounts(&self) -> &[u64]
        ensures { result.now ≡ self.now.amounts }
    {
        self.amounts.as_slice()
    }

    /// The fractions of each patch, in parts of 10^-12 nanolumens.
    pub fn fractions(&self) -> &[u64]
        ensures { result.now ≡ self.now.fractions }
    {
        self.fractions.as_slice()
    }
}
