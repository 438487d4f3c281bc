//! Worked examples of settled ledgers and their texts, of their audits, of the intervals that they give, and of the
//! exact solution.
//!
//! This crate has tests alone. The expected values come from calculations by hand or by other programs, and never from
//! this one.
#![tactic(auto)]

#[cfg(test)]
mod audits;
#[cfg(test)]
mod exact;
#[cfg(test)]
mod intervals;
#[cfg(test)]
mod ledger_texts;
#[cfg(test)]
mod ledgers;
#[cfg(test)]
mod systems;
