//! Worked examples of banks: seats that take and give one after another, and in threads; the shots and passes of a shooter;
//! and crews of shooters that go their rounds over one bank.
//!
//! This crate has tests alone. The expected values come from calculations by hand; and what threads leave behind, which
//! no run repeats, is held against the equations of ledgers, computed here once more from the figures of the system.
#![tactic(auto)]

#[cfg(test)]
mod crews;
#[cfg(test)]
mod equations;
#[cfg(test)]
mod figures;
#[cfg(test)]
mod halls;
#[cfg(test)]
mod lone_shooters;
#[cfg(test)]
mod one_thread;
#[cfg(test)]
mod passes;
#[cfg(test)]
mod shooters;
#[cfg(test)]
mod threads;
