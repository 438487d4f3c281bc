//! The report of a run: its numbers as lines that a person reads, or as the rows of a CSV file.
//!
//! [`report_text`] and [`report_csv`] write it, of a project, the ledger that its run left, and the [`Facts`] that were
//! computed from that. Which bytes they write is defined in `specs/Report.antt`: the lines and the rows of the patches,
//! then those of the checks, and the status of the verdicts last. `specs/Facts.antt` has what contracts see of the facts,
//! and when these are whole.
#![tactic(auto)]

mod facts;
mod row_writer;
mod rows;
mod summary;
mod texts;

pub use facts::Facts;
pub use rows::report_csv;
pub use texts::report_text;
