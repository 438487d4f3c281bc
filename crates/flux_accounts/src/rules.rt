// The rule of a bank's table, and what each step over it tells.
use crate::histories::History;
use atomic_table::{Join, Play, Split, TableRule};
use flux_ledger::Amounts;
use flux_system::System;
use std::snapshot::Snapshot;

/// What a table is told once: the system and the direct flux.
#[derive(Drop)]
pub struct Terms {
    pub system: Snapshot<System>,
    pub direct: Snapshot<Amounts>,
}

/// The accounts over the words hold.
pub struct Accounts;

impl TableRule<(), History, Terms> for Accounts {
    ghost use Rattle.shot_core.specs.declared.roles.Role.TheVariants.{Desk};
    ghost use Rattle.flux_accounts.specs.Histories.{new_history};
    ghost use Rattle.flux_accounts.specs.Rule.{AreKept};

    ghost holds = { λ terms table. AreKept terms.system.value terms.direct.value table };

    ghost first = { λ terms. new_history terms.system.value terms.direct.value Desk };
}

/// A load of a word.
pub struct Looks;

impl Play<(), History> for Looks {
    ghost use Rattle.flux_accounts.specs.Plays.{tells_look};

    ghost then = { tells_look };
}

/// An exchange of a value for 0.
pub struct Exchanges;

impl Play<(), History> for Exchanges {
    ghost use Rattle.flux_accounts.specs.Plays.{tells_exchange};

    ghost then = { tells_exchange };
}

/// An addition of what is in hand.
pub struct Gives;

impl Play<(), History> for Gives {
    ghost use Rattle.flux_accounts.specs.Plays.{tells_give};

    ghost then = { tells_give };
}

/// A seat is hired.
pub struct Hires;

impl Split<History> for Hires {
    ghost use Rattle.flux_accounts.specs.Histories.{after_hiring, newcomer};

    ghost left = { after_hiring };

    ghost right = { newcomer };
}

/// A seat is retired.
pub struct Retires;

impl Join<History> for Retires {
    ghost use Rattle.flux_accounts.specs.Histories.{after_retiring, spent_history};

    ghost both = { after_retiring };

    ghost spent = { spent_history };
}
