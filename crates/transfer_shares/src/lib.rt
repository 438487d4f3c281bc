//! Transfer shares: how the flux that leaves a patch falls on the patches of its room.
//!
//! [`shares_row`] writes the shares of one patch by the formulas of the definition, [`all_rows`] gives those of all patches,
//! row after row, by faster ways and in threads, and [`reflectances`] what else a flux system asks of a room. Such a system
//! is always accepted, since no row of shares is whole. What a share is stands in `specs/Shares.antt`.
#![tactic(auto)]

mod bands;
mod memory;
mod quick_sharing;
mod quick_weighing;
mod quotient;
mod row_total;
mod rows;
mod sharing;
mod weighing;

pub use bands::all_rows;
pub use rows::{reflectances, shares_row};
