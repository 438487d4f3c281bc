//! A crew: several shooters that work over one bank at once, each in a thread.
//!
//! [`Crew::start`] opens a bank with a shooter for each picker. [`Crew::work`] has each of them go its rounds and
//! returns when all have ended; [`Crew::reports`] tells what each came to. [`Crew::finish`] adds up what they did and
//! settles what they left, so that the ledger is finished whatever they did. What the calls promise stands in
//! `specs/Crews.antt`, over what the crate `shooter` says of rounds.
#![tactic(auto)]

mod crews;
mod members;

pub use crews::Crew;
