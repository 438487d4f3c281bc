//! Plans of commands: what a command reads, in order, and what it then answers or writes.
//!
//! A plan is a definition (`specs/Plans.antt`), and what a call promises that follows one is the record `Follows`
//! (`specs/Runs.antt`), which says it for every command. Here stand the two calls that each command makes: [`read_file`],
//! the only one that reads, and [`conclude`], the only one that writes and notes. No command is known here. When each answer
//! of a command comes is its `Row`, which follows from its plan (`proofs/Rows.antt`).
#![tactic(auto)]

mod endings;
mod readings;
mod writings;

pub use endings::conclude;
pub use readings::{copy_of, read_file};
pub use writings::Writing;
