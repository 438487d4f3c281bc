// What an audit finds.

/// What an audit finds: that all tests are passed, or the first that isn't, with the numbers that say why. The variants
/// stand in the order of the tests.
#[derive(Clone, Copy, Debug, PartialEq, Eq)]
pub enum Finding {
    /// All tests are passed.
    Balanced,
    /// The system has `left` patches, and the ledger `right`.
    Size { left: u64, right: u64 },
    /// The direct flux of this patch is `left` nanolumens, and `right` in the ledger.
    Direct { patch: u32, left: u64, right: u64 },
    /// The fraction of this patch, in parts of 10^-12 nanolumens, reaches a nanolumen for each account.
    Err { patch: u32, value: u64 },
    /// The residual of this patch, in nanolumens, reaches the threshold.
    Residual { patch: u32, value: u64 },
    /// What was taken of this patch and what is left there is `left`, and what came to it directly and was passed on to
    /// it `right`, in parts of 10^-12 nanolumens.
    Unbalanced { patch: u32, left: u128, right: u128 },
    /// There are more wins than the direct flux can be taken at most.
    Wins { wins: u64, limit: u128 },
    /// The interval of this patch, in nanolumens, is this one, and another was given.
    Bounds { patch: u32, low: u64, high: u64 },
}
