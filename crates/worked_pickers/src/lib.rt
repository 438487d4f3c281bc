//! Worked examples of the places that pickers choose, and of tournaments.
//!
//! This crate has tests alone. The expected values come from calculations by hand, and never from this program.
#![tactic(auto)]

#[cfg(test)]
mod pickers;
#[cfg(test)]
mod tournaments;
