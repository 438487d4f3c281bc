//! The answers of commands: what each is, its exit status, its cause and its note.
//!
//! A command ends with an [`Answer`], which with its status is an [`Outcome`]. The statuses and causes of all answers stand
//! in `specs/Answers.antt`, and the line that the notes get for each of them in `specs/Notes.antt`. A new answer adds a line
//! to each table.
#![tactic(auto)]

mod answers;
mod fault_notes;
mod notes;

pub use answers::{Answer, Outcome, PhotoFault};
