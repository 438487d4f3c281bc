//! Photometric webs: luminous intensities over C-planes and gamma angles.
//!
//! A [`Web`] is valid from the moment that it is made: its planes close a full turn, its gammas rise, and it has one
//! value for each plane and gamma. What its numbers mean stands in `specs/Web.antt`, what makes it valid and which
//! refusal comes first in `specs/Validity.antt`. A [`Photometry`] is a web with the kind of file that it came from and
//! the symmetry of the planes that the file stored.
#![tactic(auto)]

mod checks;
mod faults;
mod photometry;
mod web;

pub use faults::WebFault;
pub use photometry::{PhotoKind, Photometry, SymKind};
pub use web::Web;

/// A full turn in millidegrees, which is the last plane of each web.
pub const FULL_TURN: u32 = 360_000;

/// Half a turn in millidegrees, above which no gamma is.
pub const HALF_TURN: u32 = 180_000;

/// The most planes that a web has.
pub const MOST_PLANES: usize = 1_441;

/// The most gammas that a web has.
pub const MOST_GAMMAS: usize = 721;

/// The highest intensity in microcandela.
pub const MOST_INTENSITY: u64 = 1_000_000_000_000_000;
