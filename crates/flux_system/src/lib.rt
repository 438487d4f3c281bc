//! Flux systems: patches that pass flux on to one another, in whole numbers.
//!
//! A [`System`] holds a threshold, a reflectance for each patch and the shares of flux that go from patch to patch;
//! it is valid from the moment that it is made. It keeps the shares that aren't 0, by rows and by columns: lists of
//! [`Entry`]. What its numbers mean stands in `specs/System.antt`, which lists these are in `specs/Entries.antt`, what
//! makes it valid in `specs/Validity.antt`, and the limits of a direct flux in `specs/Limits.antt`.
#![tactic(auto)]

mod entries;
mod faults;
mod kept;
mod lists;
mod system;

pub use entries::Entry;
pub use faults::{LimitFault, SystemFault};
pub use system::System;

/// The most patches that a system has.
pub const MOST_PATCHES: usize = 4_096;

/// The most seats that shooters of one system take.
pub const MOST_SEATS: u32 = 64;
