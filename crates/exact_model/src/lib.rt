//! The exact solution of a flux system, and what holds of it.
//!
//! A solution is defined in `specs/Solution.antt`, over whole numbers that may be negative and one denominator. No code
//! computes one; [`is_solution`] tells whether given fractions are one. The other public functions are laws: functions
//! with an empty body, whose contracts say that each system has a solution, that it is the only one, and what it has
//! (`specs/Laws.antt`). They are the reason why an interval encloses the exact flux of a patch.
#![tactic(auto)]

mod checks;
mod laws;

pub use checks::is_solution;
pub use laws::{
    every_system_has_a_solution, flux_is_nowhere_negative, missing_flux_comes_from_the_unshot,
    patches_keep_the_direct_flux, patches_keep_the_source, solutions_agree,
};
