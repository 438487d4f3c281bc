//! Grids of points on a level rectangle of a room, and the light at them.
//!
//! A [`Grid`] is laid by a check, and refused by the first of its tests that fails. [`direct_points`] gives what luminaires
//! send to each of its points, [`Grid::coef`] what a point gets of the light that leaves a patch, and
//! [`Grid::point_interval`] the ends that enclose the illuminance at a point, whatever flux within its own interval each
//! patch has. Where points lie is in `specs/Grids.antt`, the light there in `specs/GridPoint.antt`, and which refusal
//! comes first in `specs/Validity.antt`.
#![tactic(auto)]

mod checks;
mod coefficients;
mod direct;
mod faults;
mod grid;
mod quotient;
mod reflected;
mod sight;
mod spec;

pub use direct::direct_points;
pub use faults::GridFault;
pub use grid::Grid;
pub use spec::GridSpec;

/// The most points along a side of a grid.
pub const MOST_ALONG: u32 = 64;

/// The most points of a grid.
pub const MOST_POINTS: u32 = 1_024;

/// The square of the least distance of a point and a patch that see each other, in square half-millimetres.
pub const LEAST_SQUARE: u64 = 40_000;
