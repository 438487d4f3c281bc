//! The lines and the tokens of a text with their places, the words of a line, and numerals.
//!
//! [`Lines`] goes over a text line by line, [`Tokens`] token by token across lines, [`Words`] over a line word by word,
//! and [`numeral`] reads a word as a whole number of at most 64 bits. [`body`] is what is read of a file, [`trim`] a
//! line without blanks at its ends. Each goes over its bytes once and takes no memory: what it hands out are slices
//! of the text. Their meanings stand in `specs/Lines.antt`, `specs/Tokens.antt`, `specs/Words.antt`,
//! `specs/Numerals.antt` and `specs/Ends.antt`.
#![tactic(auto)]

mod ends;
mod lines;
mod numerals;
mod tokens;
mod words;

pub use ends::{body, trim, trim_end};
pub use lines::{Line, Lines};
pub use numerals::numeral;
pub use tokens::{Token, Tokens};
pub use words::Words;
