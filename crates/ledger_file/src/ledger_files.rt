// What a ledger text says.
use flux_ledger::Ledger;
use std::marker::Model;

/// A ledger, and perhaps an interval for each of its patches, in nanolumens. Contracts see the intervals as a list.
#[derive(Debug, Drop)]
pub struct LedgerFile {
    pub ledger: Ledger,
    pub intervals: Option<Vec<(u64, u64)>>,
}

impl Model for LedgerFile {
    ghost use Rattle.std.specs.Option.{option_map};
    ghost use Rattle.ledger_file.specs.LedgerFiles.{LedgerFile};

    ghost Value = { LedgerFile };

    ghost view = { λ f. record { ledger = f.ledger; intervals = option_map (λ ends. ends.items) f.intervals } };
}
