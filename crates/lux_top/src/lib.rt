//! The top call: words to a command, a command's files to its answer, its bytes and its note.
//!
//! [`lux`] does what the words say, and each command is a public call of its own: [`solve`], [`photo`], [`run`],
//! [`audit_files`] and [`generate`]. A command is one file, which composes stages: the problem of a system file, the photometry
//! of a file, the ledger of a ledger file, the lit room of a project file, the settlement of a problem, on one thread or by a crew of shooters, and the report on a lit
//! room. `specs/` mirrors this: a file for each stage and each command, and `specs/Commands.antt` with which command some
//! words are. What a call promises that follows a plan stands in `lux_plans`, and what the answers are in `lux_answers`.
#![tactic(auto)]

mod audit_command;
mod commands;
mod crews;
mod generate_command;
mod ledger_files;
mod photo_command;
mod photometry_files;
mod project_files;
mod project_numbers;
mod reports;
mod run_command;
mod settlements;
mod solve_command;
mod system_files;
mod top;

pub use audit_command::audit_files;
pub use commands::{Command, read_words};
pub use compliance::Worst;
pub use generate_command::generate;
pub use ledger_audit::Finding;
pub use ledger_file::LedgerFault;
pub use lux_answers::{Answer, Outcome, PhotoFault};
pub use photo_command::photo;
pub use project_numbers::ProjectNumber;
pub use run_command::run;
pub use run_words::{ReportForm, RunWords, ShooterCount};
pub use solve_command::solve;
pub use top::lux;
