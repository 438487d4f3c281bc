//! Symmetries: the photometric web that some stored planes stand for.
//!
//! A photometry file stores only the planes that no mirroring gives. [`expand`] makes the whole web of them. Which
//! angles are images of a stored one, which planes the web has and whose values stand there is defined in
//! `specs/Images.antt` as a set of images; the code copies the stored planes forth and back in rising order.
#![tactic(auto)]

mod expansion;
mod growing;
mod kinds;

pub use expansion::expand;
