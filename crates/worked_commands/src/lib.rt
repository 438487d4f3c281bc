//! Worked examples of the words of commands, and of the commands over files in memory: reads, pieces and notes that fail, and
//! what is read.
//!
//! This crate has tests alone, as `worked_examples` has. What the built program shows is in the cases of `examples/`.
#![tactic(auto)]

#[cfg(test)]
mod failing;
#[cfg(test)]
mod files;
#[cfg(test)]
mod meetings;
#[cfg(test)]
mod running;
#[cfg(test)]
mod solving;
#[cfg(test)]
mod words;
