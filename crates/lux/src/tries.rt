// How often a read or a write is tried.

/// How often a read or a write is tried where a signal stops it each time. Then it has failed.
pub const MOST_TRIES: u64 = 64;
