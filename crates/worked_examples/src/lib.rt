//! Worked examples of webs, fakes, words, verdicts and projects.
//!
//! This crate has tests alone, as the other `worked_` crates have theirs beside the texts of `worked_texts`. They stand
//! above all others, so that none of these is proved a second time for its tests; together with the cases of `examples/`
//! they show that calls succeed with ample memory. The expected values come from calculations by hand or by other
//! programs, and never from this one.
#![tactic(auto)]

#[cfg(test)]
mod fakes;
#[cfg(test)]
mod photometry;
#[cfg(test)]
mod projects;
#[cfg(test)]
mod verdicts;
#[cfg(test)]
mod words;
