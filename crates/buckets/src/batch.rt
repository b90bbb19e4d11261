//! A batch: the threads that one wake or one requeue takes out of a queue, in their order.
ghost use Rattle.std.specs.Prelude.{◌≡◌, ◌==◌, ◌<◌, ◌≤◌, [], ◌∷◌, ◌++◌, length, slice_get};
ghost use Rattle.lockword.specs.Threads.{most_threads};

use lockword::{MOST_THREADS, Tid};
use std::marker::Model;

/// This many threads there are at most.
pub(crate) const THREADS: usize = MOST_THREADS as usize;

/// At most [`MOST_THREADS`] threads, in the order in which they slept. It takes no memory.
#[derive(Clone, Copy, Debug, PartialEq, Eq)]
pub struct Batch {
    ids: [u8; THREADS],
    taken: usize,
}

impl Model for Batch {
    ghost use Rattle.std.specs.Prelude.{ℕ, List, length, take};
    ghost use Rattle.buckets.specs.Batches.{in_array, IsBatch};

    ghost Value = { List ℕ };

    ghost view = { λ b. take b.taken b.ids };

    ghost invariant = { λ b. IsBatch b.ids b.taken };

    ghost inverse = { λ l. record { ids = in_array l; taken = length l } };

    ghost inverse_ok = { λ a h. λ i. record { ids = h.zeros i; taken = h.long i } };
}

impl Batch {
    /// A batch of nobody.
    pub fn new() -> Batch
        ensures { result ≡ [] }
    {
        Batch {
            ids: [0; THREADS],
            taken: 0,
        }
    }

    /// How many there are: at most [`MOST_THREADS`].
    pub fn len(&self) -> usize
        ensures value { result ≡ length self.now }
        ensures most { result ≤ most_threads }
    {
        self.taken
    }

    /// There is nobody in it.
    pub fn is_empty(&self) -> bool
        ensures { result ≡ (length self.now == 0) }
    {
        self.taken == 0
    }

    /// The thread at a place, from 0 on; None where the batch is no longer than that.
    pub fn get(&self, place: usize) -> Option<Tid>
        ensures { result ≡ slice_get self.now place }
    {
        if place < self.taken {
            Tid::new(self.ids[place])
        } else {
            None
        }
    }

    /// Adds a thread at the end.
    pub(crate) fn push(&mut self, thread: Tid)
        requires { length self.old < most_threads }
        ensures { self.new ≡ self.old ++ thread ∷ [] }
    {
        self.ids[self.taken] = thread.get();
        self.taken += 1;
    }
}
