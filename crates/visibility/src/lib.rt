//! Which places of a room boxes hide from each other.
//!
//! [`are_hidden`] says of two places whether some box stands between them: whether a point of the segment from one to the
//! other lies strictly inside it. What that means is in `specs/Hidden.antt`. The test that other definitions cite, which
//! forms no point and divides nothing, is in `specs/Stretches.antt`. The other public functions are laws: functions with
//! an empty body, whose contracts say that the test is the definition, that it is the same both ways, and that no box
//! hides nothing (`specs/Facts.antt`).
#![tactic(auto)]

mod facts;
mod hidden;
mod stretch;

pub use facts::{hidden_both_ways, hidden_where_inside, nothing_hidden_without_boxes};
pub use hidden::are_hidden;
