//! The bank: the residual words of a system, which shooters in threads share without a lock, and their accounts.
//!
//! A [`Bank`] has a word for each patch. Each [`Seat`] takes words and gives to them in single atomic steps, over an
//! account of its own that no other seat sees; the [`Desk`] gathers the accounts of seats that are retired, and
//! [`Bank::close`] makes a ledger of it. What each kind of step does stands in `specs/Histories.antt`; the rule that
//! holds between any two steps, in every schedule, in `specs/Rule.antt`; and what follows from it in
//! `specs/Between.antt`, which [`between_steps`] proves. No call waits for another.
#![tactic(auto)]

mod banks;
mod between;
mod histories;
mod rules;
mod seats;
mod threads;

pub use banks::Bank;
pub use between::between_steps;
pub use histories::{Entry, History, Kind};
pub use seats::{Desk, Given, Seat, Take};
pub use threads::cross_threads;
