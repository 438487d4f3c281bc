//! Shooters: each takes patches over a bank and gives what they pass on, by values that it remembers.
//!
//! A [`Shooter`] has a seat of a bank, remembers for each patch what its word was last known to have, and asks its picker
//! where to look next. A *pass* makes as many looks as there are patches, in groups of eight, and gives to every patch
//! after each group; *rounds* are passes until one wins nothing. What the calls do stands in `specs/Shooters.antt`, the
//! rules of a pass in `specs/Rules.antt`, and what a shooter has at each moment of a call in `specs/Moments.antt`.
#![tactic(auto)]

mod calls;
mod passes;
mod reports;
mod shooters;
mod turns;

pub use reports::PassReport;
pub use shooters::Shooter;
