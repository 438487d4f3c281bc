//! Generated projects: large valid inputs, each made of a number.
//!
//! [`project_of`] gives the project of a number and the web of its luminaires, always the same for one number. Which room
//! and which luminaires a number gives is defined in `specs/Generator.antt`, over the numbers that a small generator draws
//! from it. Every generated room is valid, and its luminaires can be placed in it: both are clauses of the call.
#![tactic(auto)]

mod generator;
mod layouts;
mod projects;
mod rooms;
mod webs;

pub use projects::project_of;
