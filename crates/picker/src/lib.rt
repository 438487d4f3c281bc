//! The first place of the greatest of some values, kept while the values change, and other choices of a place by a
//! threshold.
//!
//! A [`Tournament`] holds the values of some places, at least one, and answers at once which place has the greatest,
//! the first one where several have it. It is made of values, and takes no memory from then on: one value is set in as
//! many steps as it has rounds, or all of them are replaced in one pass. Contracts see a tournament as the list of its
//! values; what the greatest value and its first place are stands in `specs/Greatest.antt`.
//!
//! [`greatest`], [`sweep`] and [`striped`] pick a place of a slice whose value reaches a threshold, each by its own rule
//! and in one pass. A [`Picker`] keeps a closure that does so by any rule, beside the fact that it does. What each rule
//! picks, and what any rule owes, stands in `specs/Picks.antt`.
#![tactic(auto)]

mod contender;
mod pickers;
mod picks;
mod tournament;
mod tree;

pub use pickers::{Choice, Picker};
pub use picks::{greatest, striped, sweep};
pub use tournament::Tournament;
