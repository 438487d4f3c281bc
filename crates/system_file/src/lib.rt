//! The system text: a flux system and a direct flux as lines of numerals.
//!
//! [`read_system`] reads it in one pass. What a text stands for, and its first refusal in the order of its lines,
//! is defined in `specs/SystemText.antt` over the lines, words and numerals of the crate `lux_lines`.
//!
//! A numeral has up to 64 bits, a reflectance or a share of a flux system 32. A greater one is read as the greatest of
//! 32 bits, which is past its limit as well: the refusals stay the same, and no system that is accepted has one.
#![tactic(auto)]

mod faults;
mod reader;
mod rows;

pub use faults::SysFault;
pub use reader::read_system;

/// The most patches that a system text lists: fewer than a system has, for a text has a line of shares for each of them.
pub const MOST_LISTED_PATCHES: usize = 1_024;
