// What an account has done, as contracts see it.
use crate::roles::Role;
use flux_ledger::Amounts;
use flux_system::System;

/// What an account has done with the flux of a system. Contracts alone speak of it: no value of this type is made.
#[derive(Debug, Drop)]
pub struct View {
    /// The system whose flux it is.
    pub system: System,
    /// The direct flux of each patch, in nanolumens.
    pub direct: Amounts,
    /// What the account took of each patch, in nanolumens.
    pub taken: Amounts,
    /// What it gave to each patch, in nanolumens.
    pub given: Amounts,
    /// What it has in hand for each patch, in nanolumens.
    pub hand: Amounts,
    /// The fractions that rounding left at each patch, in parts of 10^-12 nanolumens.
    pub err: Amounts,
    /// How many accounts the fractions come from.
    pub parts: u32,
    /// How often the account took flux.
    pub wins: u64,
    /// How many actors were hired and not retired: at the desk alone.
    pub out: u32,
    /// Whose account it is.
    pub role: Role,
}
