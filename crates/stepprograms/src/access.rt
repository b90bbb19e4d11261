//! Accesses to the shared words, and their answers.
ghost use Rattle.std.specs.Prelude.{◌≡◌};
ghost use Rattle.stepprograms.specs.Accesses.{TrimsAreRight};

use lockword::MOST_THREADS;

/// As many as there are threads at most: a wake of this many wakes all who sleep on the word, and a requeue moves all
/// (futex(2)).
pub const ALL: u32 = MOST_THREADS as u32;

/// One access to one word, or one section under a bucket's lock (futex(2)). Addresses count 64-bit words.
#[derive(Clone, Copy, Debug, PartialEq, Eq)]
pub enum Access {
    Load {
        at: u64,
    },
    Store {
        at: u64,
        value: u64,
    },
    /// Writes only where the word is the expected one.
    Exchange {
        at: u64,
        expected: u64,
        new: u64,
    },
    FetchXor {
        at: u64,
        operand: u64,
    },
    FetchOr {
        at: u64,
        operand: u64,
    },
    FetchAnd {
        at: u64,
        operand: u64,
    },
    FetchAdd {
        at: u64,
        operand: u64,
    },
    /// Sleeps where the word's low half is the expected one.
    Wait {
        at: u64,
        expected: u32,
    },
    /// Wakes at most this many.
    Wake {
        at: u64,
        most: u32,
    },
    /// Wakes at most this many, and moves at most this many of the rest to another word's queue.
    Requeue {
        from: u64,
        wake: u32,
        to: u64,
        moves: u32,
    },
    /// The same where the first word's low half is the expected one.
    CmpRequeue {
        from: u64,
        expected: u32,
        wake: u32,
        to: u64,
        moves: u32,
    },
    /// Clears the word where it is `0x80000000`, the cell of a free mutex that says only that somebody may sleep on it,
    /// and nobody does.
    Trim {
        at: u64,
    },
}

/// What an access answers.
#[derive(Clone, Copy, Debug, PartialEq, Eq)]
pub enum Answer {
    /// The word, as it was.
    Value(u64),
    Stored,
    Exchanged,
    /// The word that was found instead of the expected one.
    Changed(u64),
    /// The thread didn't sleep, or move anybody: the word differed.
    Again,
    /// The thread slept, and was woken.
    Woken,
    /// How many were woken.
    Count(u32),
    /// How many were woken, and how many moved.
    Counts(u32, u32),
    /// Whether the word was cleared.
    Trimmed(bool),
    /// An address is invalid.
    Fault,
}

/// A trim changes its word, and answers, as the meaning of a trim says.
pub fn trims_are_right()
    ensures { TrimsAreRight }
{}
