// What happens in a world.

/// An event of a world. Actors are numbered from 0 in the order of hiring, patches from 0.
#[derive(Clone, Copy, Debug, PartialEq, Eq)]
pub enum Event {
    /// The next actor is hired. Legal where a seat is free that nobody had yet.
    Hire,
    /// An actor takes the whole word of a patch, and has in hand what the patch passes on. Legal where the actor was
    /// hired and not retired, and the word reaches the threshold.
    Take { actor: u32, patch: u32 },
    /// An actor gives a patch all that it has in hand for it. Legal where the actor was hired and not retired, and
    /// there is such a patch.
    Give { actor: u32, target: u32 },
    /// The desk adds an actor's account to its own. Legal where the actor was hired and not retired, and has nothing
    /// in hand.
    Retire { actor: u32 },
}

/// What became of an event.
#[derive(Clone, Copy, Debug, PartialEq, Eq)]
pub enum Stepped {
    /// It was legal, and happened.
    Moved,
    /// It wasn't legal, and changed nothing.
    Stuck,
}
