//! Worked examples of numbers, lines and the readers of files: tables of accepted, odd, faulty and cut texts.
//!
//! This crate has tests alone. The expected values come from calculations by hand or by other programs, and never from
//! this one.
#![tactic(auto)]

#[cfg(test)]
mod eulumdat;
#[cfg(test)]
mod lines;
#[cfg(test)]
mod lm63;
#[cfg(test)]
mod numbers;
#[cfg(test)]
mod systems;
