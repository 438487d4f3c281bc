// Those who step on a bank's words, and what their steps answer.
ghost use Rattle.std.specs.Prelude.{◌≡◌};

use crate::histories::History;
use flux_ledger::Amounts;
use shot_core::BatchHand;
use std::marker::Model;

pub(crate) type Pass = atomic_table::Seat<(), History>;

/// One that takes and gives. Contracts see which bank's it is, its number and its history.
#[derive(Drop)]
pub struct Seat {
    pub(crate) number: u32,
    pub(crate) hand: BatchHand,
    pub(crate) taken: Amounts,
    pub(crate) wins: u64,
    pub(crate) pass: Pass,
}

impl Model for Seat {
    ghost use Rattle.std.specs.Prelude.{◌≡◌, []};
    ghost use Rattle.flux_accounts.specs.Banks.{SeatFacts};
    ghost use Rattle.flux_accounts.specs.Layouts.{SeatLayout};

    ghost Value = { SeatFacts };

    ghost view = { λ s. record { table = s.pass.table_id; number = s.number; history = s.pass.me.0 } };

    ghost invariant = { λ s. SeatLayout s.hand s.taken s.wins s.pass.me.0.account × (s.pass.me.1 ≡ []) };
}

impl Seat {
    /// The number of the seat: seats are numbered from 0 in the order of hiring.
    pub fn number(&self) -> u32
        ensures { result ≡ self.now.number }
    {
        self.number
    }
}

/// What seats that are retired have done together. Contracts see which bank's it is, and its history.
#[derive(Drop)]
pub struct Desk {
    pub(crate) taken: Amounts,
    pub(crate) err: Amounts,
    pub(crate) parts: u32,
    pub(crate) wins: u64,
    pub(crate) out: u32,
    pub(crate) pass: Pass,
}

impl Model for Desk {
    ghost use Rattle.std.specs.Prelude.{◌≡◌, []};
    ghost use Rattle.flux_accounts.specs.Banks.{DeskFacts};
    ghost use Rattle.flux_accounts.specs.Layouts.{DeskLayout};

    ghost Value = { DeskFacts };

    ghost view = { λ d. record { table = d.pass.table_id; history = d.pass.me.0 } };

    ghost invariant = { λ d. DeskLayout d.taken d.err d.parts d.wins d.out d.pass.me.0.account × (d.pass.me.1 ≡ []) };
}

impl Desk {
    /// How many seats were hired and not retired.
    pub fn out(&self) -> u32
        ensures { result ≡ self.now.history.account.out }
    {
        self.out
    }
}

/// What became of a take.
#[derive(Clone, Copy, Debug, PartialEq, Eq)]
pub enum Take {
    /// The word had `t` nanolumens, which are taken.
    Won { t: u64 },
    /// The word was seen to have less than the threshold, so nothing was tried.
    Low { seen: u64 },
    /// The word had other than was seen, and nothing changed.
    Lost { seen: u64, found: u64 },
}

/// What became of a give.
#[derive(Clone, Copy, Debug, PartialEq, Eq)]
pub struct Given {
    /// How many nanolumens were added to the word.
    pub amount: u64,
    /// What the word had then.
    pub after: u64,
}
