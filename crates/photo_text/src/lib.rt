//! The photometry text: a photometry as lines that a person reads and a program reads back.
//!
//! [`photometry_text`] writes it, in the format of `specs/PhotometryText.antt`: the format of the file that it came
//! from, its symmetry, its gammas, and a line for each plane of its web.
#![tactic(auto)]

mod texts;

pub use texts::photometry_text;
