//! Ledgers of flux: what came to each patch, what was taken there, and what is left.
//!
//! A [`Ledger`] is plain data, and its lists are [`Amounts`]. When it is balanced, finished and paid for a flux
//! system stands in `specs/Balance.antt`; [`ledger_text`] writes it in the format of `specs/LedgerText.antt`, and
//! [`push_intervals`] the lines that may follow it, in that of `specs/IntervalLines.antt`.
#![tactic(auto)]

mod amounts;
mod intervals;
mod ledger;
mod texts;

pub use amounts::Amounts;
pub use intervals::push_intervals;
pub use ledger::Ledger;
pub use texts::ledger_text;
