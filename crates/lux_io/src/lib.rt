//! The outside of a command: shelves of files to read from, sinks to put bytes to, and gates between turns.
//!
//! [`Shelf`], [`Sink`] and [`Gate`] are traits, so that a command is proved once for real files and streams and for
//! the fakes in memory, [`MemShelf`], [`MemSink`] and [`FreeGate`]. What a read and a put may do stands in
//! `specs/Shelves.antt` and `specs/Sinks.antt`: each failure raises a count, and a shelf remembers as its [`Blame`]
//! which read raised a count last. What the fakes do exactly stands in `specs/MemShelves.antt` and
//! `specs/MemSinks.antt`. A [`Name`] is a file name or a label.
#![tactic(auto)]

mod blames;
mod gates;
mod mem_shelves;
mod mem_sinks;
mod names;
mod shelves;
mod sinks;

pub use blames::{Blame, Count};
pub use gates::{FreeGate, Gate};
pub use mem_shelves::MemShelf;
pub use mem_sinks::MemSink;
pub use names::{Name, NameFault};
pub use shelves::{Shelf, ShelfFault};
pub use sinks::{Failed, Sink};
