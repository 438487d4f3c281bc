//! Furnished rooms: rooms with boxes in them, such as desks and cupboards, and the patches of both.
//!
//! A [`Furnished`] is valid from the moment that it is made, and gives its patches by their numbers: those of its room, and
//! then those of its boxes. What the patches of a box are, and in which order they stand, is in `specs/Boxes.antt`; a
//! furnished room and all its patches in `specs/FurnishedRooms.antt`; what makes furniture valid and which refusal comes
//! first in `specs/Validity.antt`.
#![tactic(auto)]

mod checks;
mod extent;
mod face;
mod faults;
mod furnished;

pub use faults::BoxFault;
pub use furnished::Furnished;

/// The most boxes in a room.
pub const MOST_BOXES: usize = 64;
