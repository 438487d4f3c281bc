//! Directions in whole thousandths of a degree, by whole numbers alone.
//!
//! [`angle`] is the angle of a direction within the first quadrant, and [`bearing`] that of a direction all round.
//! Both stand on a table of the sines and cosines of the whole degrees, times 10^18, and divide each degree in
//! proportion. The table is this project's own rule: no claim is made on true sines. No call takes memory. The
//! meanings stand in `specs/Directions.antt`.
#![tactic(auto)]

mod degrees;
mod directions;

pub use directions::{angle, bearing};
