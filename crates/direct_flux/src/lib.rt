//! Direct flux: what luminaires send to the patches of a room before any light is reflected.
//!
//! A luminaire is a point with a photometric web (far-field photometry). [`beam`] is its luminous intensity towards a
//! place, after its rotation and its level; [`direct`] adds up for each patch what all luminaires send to it, by the
//! inverse square law and the cosine at the patch. The meanings stand in `specs/Beam.antt` and `specs/DirectFlux.antt`,
//! in whole microcandela and nanolumens.
#![tactic(auto)]

mod beams;
mod faults;
mod fluxes;

pub use beams::beam;
pub use faults::DirectFault;
pub use fluxes::{MOST_FLUX, MOST_LUMINAIRES, direct};
