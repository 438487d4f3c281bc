// What a seat has done, as contracts see it.
use shot_core::View;
use std::collections::LinkedList;

/// A kind of step on the word of a patch.
pub enum Kind {
    /// A load.
    Look,
    /// An exchange of what was seen for 0.
    Won,
    /// An exchange that found another value than was seen.
    Lost,
    /// An addition.
    Give,
}

/// A step on the word of a patch.
pub struct Entry {
    pub kind: Kind,
    pub patch: u64,
    /// What the step learnt of the word: what a look or a lost exchange found, and what a won one or an addition left.
    pub value: u64,
}

/// What a seat or the desk has done. Contracts alone speak of it: no value of this type is made.
pub struct History {
    /// Its account.
    pub account: View,
    /// How often it looked.
    pub looks: u64,
    /// How often an exchange found another value than was seen.
    pub lost: u64,
    /// Its steps on words of patches, in their order.
    pub log: LinkedList<Entry>,
}
