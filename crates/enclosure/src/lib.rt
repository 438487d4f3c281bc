//! Intervals that enclose the exact solution of a flux system.
//!
//! [`interval`] gives both ends for one patch of a finished and balanced ledger, [`all`] for every patch; [`spill`] is
//! what can still come in all. Both ends are defined in `specs/Interval.antt`; that they enclose every solution is a
//! clause of the calls.
#![tactic(auto)]

mod ends;
mod fraction;
mod rises;

pub use ends::{all, interval, spill};
