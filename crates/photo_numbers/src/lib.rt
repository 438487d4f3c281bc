//! What photometry files of all formats share about their numbers.
//!
//! A count is a whole number within limits ([`whole_within`]), an angle a number of degrees within limits, cut to
//! thousandths ([`angle_within`]), and an intensity a value times a factor, within limits, cut to microcandela
//! ([`intensity_within`]). The meanings stand in `specs/Numbers.antt` and `specs/Intensities.antt`.
#![tactic(auto)]

mod intensities;
mod numbers;

pub use intensities::intensity_within;
pub use numbers::{angle_within, whole_within};
