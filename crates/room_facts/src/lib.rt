//! What a ledger says of a lit room: the facts of its report.
//!
//! [`find_facts`] encloses the flux of each patch and the light at each point of each check, and judges each check by these
//! intervals. What they are is defined in `specs/RoomFacts.antt`, and that they are true, whatever the exact light of the
//! room is, in `specs/Truth.antt`.
#![tactic(auto)]

mod facts;
mod points;

pub use facts::find_facts;
