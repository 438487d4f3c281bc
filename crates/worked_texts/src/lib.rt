//! Texts that the worked examples of several crates use, and texts that are one line away from others.
#![tactic(auto)]

mod texts;

pub use texts::{
    CHECKED_CUBE, CUBE, MOST_BYTES, ONE, TWO_PATCHES, TWO_PATCHES_LEDGER, first_lines, with_line,
};
