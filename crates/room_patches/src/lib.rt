//! Rectangular rooms and the patches that their surfaces are cut into.
//!
//! A [`Room`] is valid from the moment that it is made, and gives its patches by their numbers. What a patch is, and in
//! which order patches stand, is in `specs/Patches.antt`; what a surface and a region of it reflect in
//! `specs/Surfaces.antt`; what makes a room valid and which refusal comes first in `specs/Validity.antt`; places and
//! their distances in `specs/Places.antt`.
#![tactic(auto)]

mod box_spec;
mod checks;
mod cut;
mod faults;
mod patch;
mod region;
mod room;
mod spec;
mod surface;

pub use box_spec::BoxSpec;
pub use cut::Cut;
pub use faults::RoomFault;
pub use patch::{Patch, squared_distance};
pub use region::Region;
pub use room::Room;
pub use spec::RoomSpec;

/// The least length of a room in millimetres.
pub const LEAST_LENGTH: u32 = 500;

/// The greatest length of a room in millimetres.
pub const MOST_LENGTH: u32 = 100_000;

/// The most parts that a length is cut into.
pub const MOST_PARTS: u32 = 64;

/// The most patches that a room has.
pub const MOST_PATCHES: usize = 4_096;

/// The highest reflectance in per mille.
pub const MOST_REFLECTANCE: u32 = 950;
