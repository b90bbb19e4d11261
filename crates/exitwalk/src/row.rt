//! Where a walk stands.
ghost use Rattle.std.specs.Prelude.{◌≡◌};

/// What the walk of a list knows. Addresses count 64-bit words.
#[derive(Clone, Copy, Debug, PartialEq, Eq)]
pub struct Rest {
    /// The entry that comes next, or the head's address at the list's end.
    pub entry: u64,
    /// From an entry to its mutex's word, modulo 2^64.
    pub offset: u64,
    /// The entry that its thread was about to add or to take off; 0 for none.
    pub pending: u64,
    /// How many entries were loaded, 2,048 at most.
    pub loaded: u16,
}

/// Whose word is treated.
#[derive(Clone, Copy, Debug, PartialEq, Eq)]
pub enum Part {
    /// That of an entry of the list, of which so much is left.
    List(Rest),
    /// That of the pending entry, after which nothing is left.
    Pending,
}

/// The access that a walk makes next, and what the walk knows.
#[derive(Clone, Copy, Debug, PartialEq, Eq)]
pub enum Row {
    /// Loads the head's first word: the first entry.
    LoadFirst,
    /// Loads the head's second word: the offset.
    LoadOffset {
        first: u64,
    },
    /// Loads the head's third word: the pending entry.
    LoadPending {
        first: u64,
        offset: u64,
    },
    /// Loads the next entry from an entry that it hasn't treated yet.
    LoadNext(Rest),
    /// Loads a mutex's word.
    LoadWord {
        at: u64,
        part: Part,
    },
    /// Exchanges a word that it has seen, whose owner is the dead thread, for the same word marked. This is `again`
    /// where one exchange has failed already.
    Mark {
        at: u64,
        seen: u64,
        again: bool,
        part: Part,
    },
    /// Wakes one sleeper on a word.
    WakeOne {
        at: u64,
        part: Part,
    },
    /// The walk has ended.
    Ended,
}
