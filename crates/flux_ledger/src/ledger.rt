// What was taken of each patch, and what is left.
use crate::Amounts;

/// The accounts of some takes: four lists with a number for each patch, and two counts.
#[derive(Debug, Drop)]
pub struct Ledger {
    /// The direct flux of each patch, in nanolumens.
    pub direct: Amounts,
    /// What was taken at each patch, and so shot from it or kept there, in nanolumens.
    pub taken: Amounts,
    /// What is left at each patch and not yet taken, in nanolumens.
    pub residual: Amounts,
    /// The fractions that rounding left at each patch, in parts of 10^-12 nanolumens.
    pub err: Amounts,
    /// How many accounts the fractions come from: each has left less than a nanolumen at each patch.
    pub parts: u32,
    /// How often flux was taken.
    pub wins: u64,
}
