//! Checks of the light on a rectangle, and what they are answered.
//!
//! [`judge`] answers a [`CheckSpec`] by the intervals of its points: the intervals of the average and of the uniformity,
//! and a [`Verdict`] on each. The exact average and uniformity are defined in `specs/Exact.antt`, what is published of
//! them in `specs/Verdict.antt`; that the second stands for the first is a clause of the call. What the verdicts on some
//! checks come to, and its exit status, is [`worst`], in `specs/Worst.antt`.
#![tactic(auto)]

mod checks;
mod judging;
mod verdicts;
mod worsts;

pub use checks::CheckSpec;
pub use judging::{Judged, judge};
pub use verdicts::{Verdict, Worst};
pub use worsts::worst;
