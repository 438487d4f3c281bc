// Whose account it is.

/// Whose account a view shows.
#[derive(Clone, Copy, Debug, PartialEq, Eq)]
pub enum Role {
    /// The desk's: it gathers the accounts of actors that are retired.
    Desk,
    /// That of an actor that takes and gives.
    Actor,
    /// That of an actor that was retired.
    Retired,
}
