//! A lit room: a project with the webs of its files, and what follows from them, in one value.
//!
//! [`LitRoom`] keeps what the next stages need: the project, its room, its luminaires as they are placed, the webs, the
//! flux system of the room, the direct flux of the luminaires and the grids of the checks. Nothing of it is looked up or
//! computed twice. Contracts see the project and the webs; which of them are a lit room, and why others are refused,
//! stands in `specs/LitRooms.antt`.
#![tactic(auto)]

mod faults;
mod lit_rooms;
mod parts;

pub use faults::LightFault;
pub use lit_rooms::LitRoom;
