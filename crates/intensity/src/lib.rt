//! Luminous intensity in any direction, from a photometric web.
//!
//! A web has values at its planes and gammas alone. [`intensity`] gives the value between them: bilinear in the cell of
//! the C-plane system that a direction lies in, and 0 outside the stored gammas. What it gives is defined in
//! `specs/Intensity.antt`. The call takes no memory.
#![tactic(auto)]

mod interpolation;
mod stretch;

pub use interpolation::intensity;
