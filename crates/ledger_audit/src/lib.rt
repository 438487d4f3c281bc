//! Audits of ledgers that somebody else wrote.
//!
//! [`audit`] tests a ledger against a flux system and a direct flux, and [`audit_bounds`] the intervals that were given
//! with it. Both answer a [`Finding`]: the first test that isn't passed, with the numbers that don't agree, or that all
//! are. The tests and their order are defined in `specs/Findings.antt`. Neither call takes memory.
#![tactic(auto)]

mod audits;
mod balances;
mod findings;
mod pairs;

pub use audits::audit;
pub use findings::Finding;
pub use pairs::audit_bounds;

/// The parts of a nanolumen that fractions are counted in.
const SCALE: u64 = 1_000_000_000_000;
