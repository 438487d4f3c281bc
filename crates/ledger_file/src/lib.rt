//! The ledger text: a ledger, and perhaps the intervals of its patches, as lines of words and numerals.
//!
//! [`read_ledger`] reads it in one pass. What a text stands for, and its first refusal in the order of its lines, is defined
//! in `specs/LedgerFiles.antt` over the forms of lines in `specs/Forms.antt`. Of what `flux_ledger::ledger_text` writes it
//! gives that ledger back.
#![tactic(auto)]

mod faults;
mod forms;
mod ledger_files;
mod lists;
mod reader;

pub use faults::LedgerFault;
pub use ledger_files::LedgerFile;
pub use reader::read_ledger;
