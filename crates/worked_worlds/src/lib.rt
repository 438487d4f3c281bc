//! Worked examples of worlds: actors that are hired, take, give and retire, and what an actor has in hand.
//!
//! This crate has tests alone. The expected values come from calculations by hand or by other programs, and never from
//! this one.
#![tactic(auto)]

#[cfg(test)]
mod hands;
#[cfg(test)]
mod worlds;
