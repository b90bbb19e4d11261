//! The sleepers of every word, by its place, and the robust list's head of every thread.
ghost use Rattle.std.specs.Prelude.{◌≡◌, ◌≢◌, ◌<◌, ◌≤◌, ◌-◌, ◌%◌, ℕ, not, length, slice_index};
ghost use Rattle.std.specs.Prelude.{slice_get, Contains, Some, MatchOption, MatchResult, MatchBool, IfOk};
ghost use Rattle.stepprograms.specs.Accesses.{is_nobody};
ghost use Rattle.std.specs.List.{All};
ghost use Rattle.lockword.specs.Threads.{most_threads};
ghost use Rattle.buckets.specs.Queues.{Stands, StandsNowhere, IsOrderly, IsEmptied, Fits, MovesTo};
ghost use Rattle.buckets.specs.BucketCount.{bucket_count};
ghost use Rattle.syscalls.specs.Kernels.{bucket_at, queue_of, StandWhereTold, HasQueuesOf, IsAsleep, IsAwake};
ghost use Rattle.syscalls.specs.Kernels.{IsKernel, IsIdle, FallsAsleep, Wakes, Moves, Requeues, Leaves, SetsHead};
ghost use Rattle.syscalls.specs.Answers.{WaitAnswers, WakeAnswers, TrimAnswers, TrimsAt};
ghost use Rattle.syscalls.specs.Answers.{RequeueAnswers, CmpRequeueAnswers, SetHeadAnswers, GetHeadAnswers};

use crate::memory::Memory;
use buckets::{BUCKETS, Batch, Bucket};
use lockword::{Cell, Reply, Tid, WAITERS};
use memorymap::{HEAD_SIZE, Key, NoMem, bucket_of, key_of};
use std::alloc::{AllocError, Global};
use std::marker::Model;

/// Which threads sleep on which word, of threads whose ids go from 1 to a number (futex(2), shared futexes), and where each
/// one's robust list begins (get_robust_list(2)).
///
/// A word is known by its place: whatever addresses it has for the processes of those who sleep on it, they meet.
#[derive(Drop)]
pub struct Kernel {
    threads: u8,
    buckets: Vec<Bucket>,
    /// The number of the bucket in which each thread last came to stand, 0 before it first slept: a thread that sleeps
    /// is there.
    stood_in: Vec<u8>,
    heads: Vec<u64>,
}

impl Model for Kernel {
    ghost use Rattle.syscalls.specs.Kernels.{Kernel', IsKernel, HasBuckets, Remembers};

    ghost Value = { Kernel' };

    ghost view = { λ k. record { threads = k.threads; buckets = k.buckets.items; heads = k.heads.items } };

    ghost invariant = { λ k. (IsKernel (record {
      threads = k.threads;
      buckets = k.buckets.items;
      heads = k.heads.items;
    })
        × HasBuckets (record { threads = k.threads; buckets = k.buckets.items; heads = k.heads.items }))
        × Remembers k.stood_in.items k.threads k.buckets.items };
}

impl Clone for Kernel {
    ghost is_clone = { λ old new. new ≡ old };

    /// A kernel with the same sleepers and heads.
    fn clone(&self) -> Result<Kernel, AllocError> {
        Ok(Kernel {
            threads: self.threads,
            buckets: self.buckets.clone()?,
            stood_in: self.stood_in.clone()?,
            heads: self.heads.clone()?,
        })
    }
}

/// Buckets where nobody sleeps, each with room for this many.
fn empty_buckets(alloc: Global, capacity: usize) -> Result<Vec<Bucket>, NoMem>
    requires first { 1 ≤ capacity }
    requires last { capacity ≤ most_threads }
    ensures count { IfOk result (λ v. length v.items ≡ bucket_count) }
    ensures emptied { IfOk result (λ v. All (λ b. IsEmptied b capacity) v.items) }
    ensures orderly { IfOk result (λ v. All IsOrderly v.items) }
{
    let mut buckets = Vec::with_capacity(alloc, BUCKETS)?;
    for _ in 0..BUCKETS {
        buckets.push_reserved(Bucket::new(alloc, capacity)?);
    }
    Ok(buckets)
}

/// The number of the bucket that the thread is in; None where it stands in none. Only the one in which it last came
/// to stand is asked.
fn bucket_with(buckets: &[Bucket], stood_in: &[u8], thread: Tid) -> Option<usize>
    requires many { length buckets.now ≡ bucket_count }
    requires remembers { StandWhereTold stood_in.now buckets.now }
    ensures { MatchOption result ((i : ℕ) → i < length buckets.now → StandsNowhere (bucket_at buckets.now i) thread)
        (λ i. (i < length buckets.now) × Stands (bucket_at buckets.now i) thread) }
{
    let index = thread.as_index();
    if stood_in.len() <= index {
        return None;
    }
    let number = usize::from(stood_in[index]);
    if buckets[number].stands(thread) {
        Some(number)
    } else {
        None
    }
}

/// Keeps in mind in which bucket these threads came to stand.
fn remember(stood_in: &mut [u8], threads: &Batch, number: u8)
    requires known { All (λ t. (1 ≤ t) × (t ≤ length stood_in.old)) threads.now }
    ensures came { (t : ℕ) → Contains threads.now t → slice_get stood_in.new (t - 1) ≡ Some number }
    ensures others { (t : ℕ) → 1 ≤ t → ¬ Contains threads.now t
        → slice_get stood_in.new (t - 1) ≡ slice_get stood_in.old (t - 1) }
    ensures long { length stood_in.new ≡ length stood_in.old }
{
    for place in 0..threads.len() {
        if let Some(thread) = threads.get(place) {
            stood_in[thread.as_index()] = number;
        }
    }
}

/// The word at the first of two places. Refused with EINVAL where they are equal, and else with EFAULT where either is
/// invalid.
fn first_of_two<M: Memory>(memory: &M, first: u64, second: u64) -> Result<u64, Reply>
    ensures answer { RequeueAnswers (M.words memory.now) first second result }
    ensures word { IfOk result (λ w. w ≡ slice_index (M.words memory.now) first) }
{
    if first == second {
        Err(Reply::EINVAL)
    } else if let (Some(word), Some(_)) = (memory.load(first), memory.load(second)) {
        Ok(word)
    } else {
        Err(Reply::EFAULT)
    }
}

/// Moves the first `n` of the key's queue in the one bucket, or all where there are fewer, to the end of another key's
/// queue in another bucket.
fn move_between(
    buckets: &mut [Bucket],
    from: usize,
    into: usize,
    key: Key,
    n: u32,
    to: Key,
) -> Batch
    requires first { from < length buckets.old }
    requires second { into < length buckets.old }
    requires apart { from ≢ into }
    requires fits { Fits (bucket_at buckets.old from) (bucket_at buckets.old into) key.0 n }
    ensures changes { MovesTo (bucket_at buckets.old from) (bucket_at buckets.new from) (bucket_at buckets.old into)
        (bucket_at buckets.new into) key.0 n to.0 result }
    ensures others { (i : ℕ) → i ≢ from → i ≢ into → bucket_at buckets.new i ≡ bucket_at buckets.old i }
    ensures long { length buckets.new ≡ length buckets.old }
    ensures left { IsOrderly (bucket_at buckets.new from) }
    ensures joined { IsOrderly (bucket_at buckets.new into) }
{
    if from < into {
        let (front, back) = buckets.split_at_mut(into);
        front[from].move_to(&mut back[0], key, n, to)
    } else {
        let (front, back) = buckets.split_at_mut(from);
        back[0].move_to(&mut front[into], key, n, to)
    }
}

impl Kernel {
    /// A kernel of threads 1 to `threads`, at most [`MOST_THREADS`](lockword::MOST_THREADS), none of which sleeps or
    /// has set a head. It makes all the room that later calls fill.
    pub fn new(alloc: Global, threads: u8) -> Result<Kernel, NoMem>
        requires first { 1 ≤ threads }
        requires last { threads ≤ most_threads }
        ensures idle { IfOk result (λ k. IsIdle k threads) }
        ensures sound { IfOk result IsKernel }
        ensures buckets { IfOk result (λ k. length k.buckets ≡ 256) }
    {
        let buckets = empty_buckets(alloc, usize::from(threads))?;
        Ok(Kernel {
            threads,
            buckets,
            stood_in: vec![in alloc; 0; usize::from(threads)]?,
            heads: vec![in alloc; 0; usize::from(threads)]?,
        })
    }

    /// How many threads it is for. Their ids go from 1 to this.
    pub fn threads(&self) -> u8
        ensures value { result ≡ self.now.threads }
        ensures sound { IsKernel self.now }
    {
        self.threads
    }

    /// FUTEX_WAIT of a thread that doesn't sleep: where the low half of the word at the place is the expected value,
    /// the thread falls asleep on it; comparing and falling asleep are one step. Refused with EFAULT where there is no
    /// such place, and else with EAGAIN where the word differs.
    pub(crate) fn wait_at<M: Memory>(
        &mut self,
        memory: &M,
        thread: Tid,
        at: u64,
        expected: u32,
    ) -> Result<(), Reply>
        requires known { thread ≤ self.old.threads }
        requires awake { IsAwake self.old thread }
        ensures answer { WaitAnswers (M.words memory.now) at expected result }
        ensures changes { MatchResult result (λ _. FallsAsleep self.old self.new thread at) (λ _. self.new ≡ self.old) }
        ensures sound { IsKernel self.new }
    {
        // An id is at least 1, so that the bucket has room for this thread beside all the others.
        let _id = thread.get();
        let key = key_of(at);
        let number = bucket_of(key, self.buckets.len());
        let Some(word) = memory.load(at) else {
            return Err(Reply::EFAULT);
        };
        if !self.buckets[number].wait_section(thread, key, word, expected) {
            return Err(Reply::EAGAIN);
        }
        self.stood_in[thread.as_index()] = number as u8;
        Ok(())
    }

    /// FUTEX_WAKE: wakes the first `n` that sleep on the word at the place, in the order in which they fell asleep, or
    /// all where there are fewer. Refused with EFAULT where there is no such place.
    pub(crate) fn wake_at<M: Memory>(&mut self, memory: &M, at: u64, n: u32) -> Result<Batch, Reply>
        ensures answer { WakeAnswers (M.words memory.now) at result }
        ensures changes { MatchResult result (Wakes self.old self.new at n) (λ _. self.new ≡ self.old) }
        ensures sound { IsKernel self.new }
    {
        let key = key_of(at);
        let number = bucket_of(key, self.buckets.len());
        if memory.load(at).is_none() {
            return Err(Reply::EFAULT);
        }
        Ok(self.buckets[number].take(key, n))
    }

    /// FUTEX_REQUEUE: wakes the first `wake` that sleep on the word at `from`, or all where there are fewer, and moves
    /// the first of the rest, `moves` at most, to the end of the queue of the word at `to`, as if they had fallen
    /// asleep on it. Answers who was woken and who was moved, in order. Refused with EINVAL where the places are equal,
    /// and else with EFAULT where there is no such place; then nothing changes.
    pub(crate) fn requeue_at<M: Memory>(
        &mut self,
        memory: &M,
        from: u64,
        wake: u32,
        to: u64,
        moves: u32,
    ) -> Result<(Batch, Batch), Reply>
        ensures answer { RequeueAnswers (M.words memory.now) from to result }
        ensures changes { MatchResult result (λ r. Requeues self.old self.new from wake to moves r.0 r.1)
            (λ _. self.new ≡ self.old) }
        ensures sound { IsKernel self.new }
    {
        // What a kernel always keeps is known once a field of it is read.
        let _threads = self.threads;
        first_of_two(memory, from, to)?;
        let woken = self.wake_at(memory, from, wake)?;
        let moved = self.move_sleepers(from, moves, to);
        Ok((woken, moved))
    }

    /// FUTEX_CMP_REQUEUE: a requeue where the low half of the word at `from` is the expected value; comparing and
    /// moving are one step. Refused with EINVAL where the places are equal, else with EFAULT where there is no such
    /// place, and else with EAGAIN where the word differs; then nothing changes.
    pub(crate) fn cmp_requeue_at<M: Memory>(
        &mut self,
        memory: &M,
        from: u64,
        expected: u32,
        wake: u32,
        to: u64,
        moves: u32,
    ) -> Result<(Batch, Batch), Reply>
        ensures answer { CmpRequeueAnswers (M.words memory.now) from expected to result }
        ensures changes { MatchResult result (λ r. Requeues self.old self.new from wake to moves r.0 r.1)
            (λ _. self.new ≡ self.old) }
        ensures sound { IsKernel self.new }
    {
        // The same, for where it is refused.
        let _threads = self.threads;
        let word = first_of_two(memory, from, to)?;
        let low = (word & 0xffff_ffff) as u32;
        if low != expected {
            return Err(Reply::EAGAIN);
        }
        self.requeue_at(memory, from, wake, to, moves)
    }

    /// Moves the first `n` that sleep on the one word, or all where there are fewer, to the end of the other word's
    /// queue, in order. Their buckets may be one or two.
    fn move_sleepers(&mut self, from: u64, n: u32, to: u64) -> Batch
        requires apart { from ≢ to }
        ensures changes { Moves self.old self.new from n to result }
        ensures sound { IsKernel self.new }
    {
        let key = key_of(from);
        let other = key_of(to);
        let number = bucket_of(key, self.buckets.len());
        let into = bucket_of(other, self.buckets.len());
        if number == into {
            self.buckets[number].move_within(key, n, other)
        } else {
            let moved = move_between(&mut self.buckets, number, into, key, n, other);
            remember(&mut self.stood_in, &moved, into as u8);
            moved
        }
    }

    /// Clears the word at the place where it is `0x80000000`, the cell of a free mutex that says only that somebody may
    /// sleep on it, and nobody does: looking for sleepers, comparing and clearing are one step. Answers whether it
    /// cleared it; no queue changes. Refused with EFAULT where there is no such place, and then no word changes.
    pub(crate) fn trim_at<M: Memory>(&self, memory: &mut M, at: u64) -> Result<bool, Reply>
        ensures answer { TrimAnswers (M.words memory.old) at result }
        ensures changes { MatchResult result
            (TrimsAt (M.words memory.old) (M.words memory.new) at (queue_of self.now at))
            (λ _. M.words memory.new ≡ M.words memory.old) }
        ensures sound { IsKernel self.now }
    {
        if self.is_slept_on(at) {
            return match memory.load(at) {
                Some(_) => Ok(false),
                None => Err(Reply::EFAULT),
            };
        }
        match memory.exchange(at, WAITERS, 0) {
            Some(word) => Ok(Cell::new(word).trimmable()),
            None => Err(Reply::EFAULT),
        }
    }

    /// Somebody sleeps on the word at a place.
    fn is_slept_on(&self, at: u64) -> bool
        ensures value { result ≡ not (is_nobody (queue_of self.now at)) }
        ensures sound { IsKernel self.now }
    {
        let key = key_of(at);
        self.buckets[bucket_of(key, self.buckets.len())].count(key) != 0
    }

    /// Takes a thread out of the queue that it is in, as its death does. False where it was in none.
    pub fn remove(&mut self, thread: Tid) -> bool
        ensures changes { Leaves self.old self.new thread result }
        ensures sound { IsKernel self.new }
    {
        match bucket_with(&self.buckets, &self.stood_in, thread) {
            Some(number) => self.buckets[number].remove(thread),
            None => false,
        }
    }

    /// The thread sleeps.
    pub fn asleep(&self, thread: Tid) -> bool
        ensures value { MatchBool result (IsAsleep self.now thread) (IsAwake self.now thread) }
        ensures sound { IsKernel self.now }
    {
        bucket_with(&self.buckets, &self.stood_in, thread).is_some()
    }

    /// Which threads sleep on the word at a place, in the order in which they are to be woken.
    pub fn sleepers(&self, at: u64) -> Batch
        ensures value { result ≡ queue_of self.now at }
        ensures sound { IsKernel self.now }
    {
        let key = key_of(at);
        self.buckets[bucket_of(key, self.buckets.len())].sleepers(key)
    }

    /// Bucket number `i`, which has the queues of the keys whose bucket it is, among 256, and of no others.
    pub fn bucket(&self, i: u8) -> &Bucket
        ensures queues { HasQueuesOf self.now i result.now }
        ensures room { result.now.capacity ≡ self.now.threads }
        ensures sound { IsKernel self.now }
    {
        &self.buckets[usize::from(i)]
    }

    /// Sets the address of the thread's robust list head, as the thread itself asks and as its process has it
    /// (set_robust_list(2)). It stays until it is set again. Refused with EINVAL where the length isn't 24, the size of
    /// a head in bytes; then nothing changes.
    pub fn set_robust_list(&mut self, thread: Tid, head: u64, len: u64) -> Result<(), Reply>
        requires known { thread ≤ self.old.threads }
        ensures answer { SetHeadAnswers len result }
        ensures changes { MatchResult result (λ _. SetsHead self.old self.new thread head) (λ _. self.new ≡ self.old) }
        ensures sound { IsKernel self.new }
    {
        // What a kernel always keeps is known once a field of it is read.
        let _threads = self.threads;
        if len != HEAD_SIZE {
            return Err(Reply::EINVAL);
        }
        self.heads[usize::from(thread.get() - 1)] = head;
        Ok(())
    }

    /// The address of a thread's robust list head, 0 before it set one, and 24, the size of a head in bytes
    /// (get_robust_list(2)). Refused with ESRCH where no thread has the id. Id 0 doesn't stand for the caller here: it
    /// is no thread and returns ESRCH.
    pub fn get_robust_list(&self, id: u8) -> Result<(u64, u64), Reply>
        ensures answer { GetHeadAnswers self.now id result }
        ensures sound { IsKernel self.now }
    {
        if id < 1 || self.threads < id {
            return Err(Reply::ESRCH);
        }
        Ok((self.heads[usize::from(id - 1)], HEAD_SIZE))
    }
}
