//! The words of `run`: whether some words are this command, and what they say.
//!
//! [`read_run`] reads them with `clap`, behind a first test that lets through no word with a dash in front but the command's
//! own two options. What it answers is the plain rule of the words, which stands in `specs/RunWords.antt` over the rules of
//! `lux_words`. The number of a run's shooters is a [`ShooterCount`].
#![tactic(auto)]

mod readings;
mod report_forms;
mod shooter_counts;

pub use readings::{RunWords, read_run};
pub use report_forms::ReportForm;
pub use shooter_counts::ShooterCount;
