//! The words of a command line: a keyword, and behind it operands and options in any order.
//!
//! [`operands`] finds the operands of a command that takes some [`Options`]. What an operand, an option and its value are
//! stands in `specs/Words.antt`.
#![tactic(auto)]

mod words;

pub use words::{Options, operands, word};
