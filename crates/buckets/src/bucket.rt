//! The bucket.
ghost use Rattle.std.specs.Prelude.{◌≡◌, ◌≢◌, ◌==◌, ◌<◌, ◌≤◌, ◌+◌, ◌%◌, ◌^◌, length};
ghost use Rattle.std.specs.Prelude.{option_to_list, slice_get, All, AllPairs, IfOk, MatchBool};
ghost use Rattle.std.specs.Bool.{OnTrue};
ghost use Rattle.lockword.specs.Threads.{most_threads};
ghost use Rattle.buckets.specs.Queues.{queue, standing, Stands, StandsNowhere, IsOrderly, IsEmptied};
ghost use Rattle.buckets.specs.Queues.{Enqueues, Takes, Joins, MovesWithin, MovesTo, Fits, Removes};
ghost use Rattle.buckets.specs.Rings.{AreRows};

use crate::batch::Batch;
use crate::ring::{Ring, leave, ring_on};
use crate::row::{Row, Rows, all, append, batch_from, copy, join, no_rows, read, write};
use crate::sleeper::Sleeper;
use lockword::Tid;
use memorymap::{Key, NoMem};
use std::alloc::{AllocError, Global};
use std::marker::Model;

/// Which threads sleep, with room for this many: each key's queue, as a ring through the rows of its threads.
#[derive(Drop)]
pub struct Bucket {
    capacity: usize,
    /// How many stand, in all rings together.
    standing: usize,
    rows: Rows,
    /// Where each queue begins, one for each key that has sleepers.
    rings: Vec<Ring>,
}

impl Model for Bucket {
    ghost use Rattle.std.specs.Prelude.{◌≤◌, vec_capacity};
    ghost use Rattle.buckets.specs.Queues.{Sleepers};
    ghost use Rattle.buckets.specs.Rings.{row_of, sleeping_of, AreRings};

    ghost Value = { Sleepers };

    ghost view = { λ b. record { capacity = b.capacity; sleeping = sleeping_of (row_of b.rows) b.rings.items } };

    ghost invariant = { λ b. AreRings b.capacity b.standing (row_of b.rows) b.rings.items
        × (b.capacity ≤ vec_capacity b.rings) };
}

impl Clone for Bucket {
    ghost is_clone = { λ old new. new ≡ old };

    /// A bucket with the same queues, and as much room.
    fn clone(&self) -> Result<Bucket, AllocError> {
        let mut rings = Vec::with_capacity(*self.rings.allocator(), self.capacity)?;
        rings.extend_from_slice(&self.rings)?;
        Ok(Bucket {
            capacity: self.capacity,
            standing: self.standing,
            rows: copy(&self.rows),
            rings,
        })
    }
}

impl Bucket {
    /// A bucket where nobody sleeps, with room for 1 to [`MOST_THREADS`](lockword::MOST_THREADS). It makes all the room
    /// that later calls fill.
    pub fn new(alloc: Global, capacity: usize) -> Result<Bucket, NoMem>
        requires first { 1 ≤ capacity }
        requires last { capacity ≤ most_threads }
        ensures made { IfOk result (λ b. IsEmptied b capacity) }
        ensures orderly { IfOk result IsOrderly }
    {
        let rings = Vec::with_capacity(alloc, capacity)?;
        Ok(Bucket {
            capacity,
            standing: 0,
            rows: no_rows(),
            rings,
        })
    }

    /// Puts the thread at the end of the key's queue.
    pub fn enqueue(&mut self, thread: Tid, key: Key)
        requires room { standing self.old < self.old.capacity }
        requires awake { StandsNowhere self.old thread }
        ensures changes { Enqueues self.old self.new thread key.0 }
        ensures orderly { IsOrderly self.new }
    {
        let alone = Row {
            key,
            before: thread,
            after: thread,
        };
        write(&mut self.rows, thread, Some(alone));
        self.standing += 1;
        match ring_on(&self.rings, key) {
            Some(place) => {
                let Ring { first, count } = self.rings[place];
                append(&mut self.rows, thread, first.thread);
                let count = count + 1;
                self.rings[place] = Ring { first, count };
            }
            None => {
                let first = Sleeper { thread, key };
                self.rings.push_reserved(Ring { first, count: 1 });
            }
        }
    }

    /// Takes the first `n` of the key's queue out of it, in order, or all where there are fewer.
    pub fn take(&mut self, key: Key, n: u32) -> Batch
        ensures changes { Takes self.old self.new key.0 n result }
        ensures orderly { IsOrderly self.new }
    {
        let mut batch = Batch::new();
        if self.standing == 0 {
            return batch;
        }
        for _ in 0..n {
            let Some(thread) = self.take_first(key) else {
                return batch;
            };
            batch.push(thread);
        }
        batch
    }

    /// Takes the first of the key's queue out of it; None where nobody sleeps on the key.
    fn take_first(&mut self, key: Key) -> Option<Tid>
        ensures changes { Takes self.old self.new key.0 1 (option_to_list result) }
        ensures orderly { IsOrderly self.new }
    {
        let thread = self.first(key)?;
        self.remove(thread);
        Some(thread)
    }

    /// The first of the key's queue; None where nobody sleeps on the key.
    fn first(&self, key: Key) -> Option<Tid>
        ensures value { result ≡ slice_get (queue self.now key.0) 0 }
        ensures orderly { IsOrderly self.now }
    {
        let place = ring_on(&self.rings, key)?;
        Some(self.rings[place].first.thread)
    }

    /// Puts the threads at the end of the key's queue, in order.
    fn enqueue_all(&mut self, threads: &Batch, key: Key)
        requires room { standing self.old + length threads.now ≤ self.old.capacity }
        requires awake { All (StandsNowhere self.old) threads.now }
        requires once { AllPairs (λ t u. t ≢ u) threads.now }
        ensures changes { Joins self.old self.new threads.now key.0 }
        ensures orderly { IsOrderly self.new }
    {
        // What a bucket always keeps is known once a field of it is read.
        let _capacity = self.capacity;
        for place in 0..threads.len() {
            if let Some(next) = threads.get(place) {
                self.enqueue(next, key);
            }
        }
    }

    /// Moves the first `n` of the key's queue, or all where there are fewer, to the end of another key's queue; answers
    /// them, in order (futex(2), FUTEX_REQUEUE).
    pub fn move_within(&mut self, key: Key, n: u32, to: Key) -> Batch
        requires apart { key.0 ≢ to.0 }
        ensures changes { MovesWithin self.old self.new key.0 n to.0 result }
        ensures orderly { IsOrderly self.new }
    {
        // Like `enqueue_all`, for what the bucket keeps.
        let _capacity = self.capacity;
        let moved = self.take(key, n);
        self.enqueue_all(&moved, to);
        moved
    }

    /// Moves the first `n` of the key's queue, or all where there are fewer, to the end of a queue of another bucket;
    /// answers them, in order (futex(2), FUTEX_REQUEUE). The other bucket has to have room for those moved, and none of
    /// them may be in it: [`Bucket::fits`] tells.
    pub fn move_to(&mut self, other: &mut Bucket, key: Key, n: u32, to: Key) -> Batch
        requires fits { Fits self.old other.old key.0 n }
        ensures changes { MovesTo self.old self.new other.old other.new key.0 n to.0 result }
        ensures orderly { IsOrderly self.new }
        ensures other { IsOrderly other.new }
    {
        // Like `enqueue_all`, for what the bucket keeps.
        let _capacity = self.capacity;
        let moved = self.take(key, n);
        other.enqueue_all(&moved, to);
        moved
    }

    /// The first `n` of the key's queue, or all where there are fewer, can be moved into another bucket by
    /// [`Bucket::move_to`]: it has room for them, and none of them stands in it.
    pub fn fits(&self, other: &Bucket, key: Key, n: u32) -> bool
        ensures { MatchBool result (Fits self.now other.now key.0 n) (¬ Fits self.now other.now key.0 n) }
    {
        let queue = self.sleepers(key);
        let moved = (n as usize).min(queue.len());
        if other.capacity - other.standing < moved {
            return false;
        }
        for place in 0..moved {
            if let Some(thread) = queue.get(place) {
                if other.stands(thread) {
                    return false;
                }
            }
        }
        true
    }

    /// Takes the thread out of the queue it is in. False where it was in none.
    pub fn remove(&mut self, thread: Tid) -> bool
        ensures changes { Removes self.old self.new thread result }
        ensures orderly { IsOrderly self.new }
    {
        let Some(row) = read(&self.rows, thread) else {
            return false;
        };
        if let Some(place) = ring_on(&self.rings, row.key) {
            join(&mut self.rows, row.before, row.after);
            write(&mut self.rows, thread, None);
            leave(&mut self.rings, place, thread, row.after);
            self.standing -= 1;
        }
        true
    }

    /// The thread stands in a queue.
    pub fn stands(&self, thread: Tid) -> bool
        ensures value { MatchBool result (Stands self.now thread) (StandsNowhere self.now thread) }
        ensures orderly { IsOrderly self.now }
    {
        read(&self.rows, thread).is_some()
    }

    /// As many stand as there is room for.
    pub fn full(&self) -> bool
        ensures value { result ≡ (standing self.now == self.now.capacity) }
        ensures room { standing self.now ≤ self.now.capacity }
    {
        self.standing == self.capacity
    }

    /// How many stand in the key's queue.
    pub fn count(&self, key: Key) -> usize
        ensures { result ≡ length (queue self.now key.0) }
    {
        match ring_on(&self.rings, key) {
            Some(place) => self.rings[place].count,
            None => 0,
        }
    }

    /// Which threads stand in the key's queue, in order.
    pub fn sleepers(&self, key: Key) -> Batch
        ensures { result ≡ queue self.now key.0 }
    {
        match ring_on(&self.rings, key) {
            Some(place) => {
                let ring = self.rings[place];
                batch_from(&self.rows, ring.first.thread, ring.count)
            }
            None => Batch::new(),
        }
    }

    /// The rows of all threads: that of the thread with id t at index t - 1. It has the thread's key, and the ids
    /// of those before and after it in the key's queue, the last being before the first; None where the thread stands
    /// in no queue.
    pub fn rows(&self) -> &[Option<Row>]
        ensures { AreRows result.now self.now }
    {
        all(&self.rows)
    }

    /// What a futex wait does under the bucket's lock: where the low half of the word it saw is the expected one, it
    /// puts the thread at the end of the key's queue and answers true; else it answers false, and nothing changes.
    pub fn wait_section(&mut self, thread: Tid, key: Key, seen: u64, expected: u32) -> bool
        requires room { standing self.old < self.old.capacity }
        requires awake { StandsNowhere self.old thread }
        ensures answer { result ≡ (seen % 2 ^ 32 == expected) }
        ensures changes { MatchBool result (Enqueues self.old self.new thread key.0) (self.new ≡ self.old) }
        ensures orderly { OnTrue result (IsOrderly self.new) }
    {
        let low = (seen & 0xffff_ffff) as u32;
        if low != expected {
            return false;
        }
        self.enqueue(thread, key);
        true
    }
}
