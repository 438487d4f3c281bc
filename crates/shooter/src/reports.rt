// What passes came to.

/// What one or several passes of a shooter came to.
#[derive(Clone, Copy, Debug, PartialEq, Eq)]
pub struct PassReport {
    /// How many passes there were.
    pub passes: u64,
    /// How many takes were won.
    pub won: u64,
    /// How many looks found less than the threshold.
    pub low: u64,
    /// How many takes were lost.
    pub lost: u64,
}
