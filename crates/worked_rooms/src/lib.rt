//! Worked examples of rooms: directions, intensities and beams, patches, regions, furniture, hidden places, placed
//! luminaires, direct flux, shares and the light at grids of points.
//!
//! This crate has tests alone. The expected values come from calculations by hand or by other programs, and never from
//! this one.
#![tactic(auto)]

#[cfg(test)]
mod directions;
#[cfg(test)]
mod furniture;
#[cfg(test)]
mod hidden_places;
#[cfg(test)]
mod point_light;
#[cfg(test)]
mod regions;
#[cfg(test)]
mod room_grids;
#[cfg(test)]
mod rooms;
#[cfg(test)]
mod sample_luminaires;
#[cfg(test)]
mod sample_rooms;
