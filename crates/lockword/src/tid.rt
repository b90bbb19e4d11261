//! Thread ids.
ghost use Rattle.std.specs.Prelude.{◌≡◌, ◌≤◌, ◌+◌};
ghost use Rattle.std.specs.Option.{SomeIff};
ghost use Rattle.lockword.specs.Threads.{most_threads};

use std::marker::Model;

/// How many threads there are at a time, at most. Their ids are 1 to this.
pub const MOST_THREADS: u8 = 250;

/// How many threads a script, a trace or a history has at most.
pub const NAMED_THREADS: u8 = 64;

/// A thread's id, from 1 to [`MOST_THREADS`]. It may be used again, once its thread was reaped.
#[derive(Clone, Copy, Debug, PartialEq, Eq)]
pub struct Tid(u8);

impl Model for Tid {
    ghost use Rattle.std.specs.Prelude.{ℕ, ◌≤◌};
    ghost use Rattle.lockword.specs.Threads.{most_threads};

    ghost Value = { ℕ };

    ghost view = { λ t. t.0 };

    ghost invariant = { λ t. (1 ≤ t.0) × (t.0 ≤ most_threads) };

    ghost inverse = { λ n. record { 0 = n } };
}

impl Tid {
    /// The thread with this id; None where no thread has it.
    pub fn new(id: u8) -> Option<Tid>
        ensures { SomeIff result ((1 ≤ id) × (id ≤ most_threads)) id }
    {
        if 1 <= id && id <= MOST_THREADS {
            Some(Tid(id))
        } else {
            None
        }
    }

    /// The id, from 1 to [`MOST_THREADS`].
    pub fn get(self) -> u8
        ensures value { result ≡ self }
        ensures first { 1 ≤ result }
        ensures last { result ≤ most_threads }
    {
        self.0
    }

    /// The place where threads are kept in the order of their ids, counted from 0.
    pub fn as_index(self) -> usize
        ensures { result + 1 ≡ self }
    {
        usize::from(self.get()) - 1
    }
}
