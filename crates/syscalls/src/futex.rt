//! The futex calls, as processes make them: by addresses.
ghost use Rattle.std.specs.Prelude.{◌≡◌, ◌≤◌, MatchResult};
ghost use Rattle.memorymap.specs.Addresses.{seen_at};
ghost use Rattle.syscalls.specs.Kernels.{queue_of, IsAwake, IsKernel, FallsAsleep, Wakes, Requeues};
ghost use Rattle.syscalls.specs.Answers.{WaitAnswers, WakeAnswers, TrimAnswers};
ghost use Rattle.syscalls.specs.Answers.{TrimsAt, RequeueAnswers, CmpRequeueAnswers};

use crate::kernel::Kernel;
use crate::memory::Memory;
use buckets::Batch;
use lockword::{Reply, Tid};
use memorymap::seen_at;

/// Each call takes the base at which the caller's process maps the words, and addresses as that process has them. An
/// address is valid where it is that of a place of the memory.
impl Kernel {
    /// FUTEX_WAIT of a thread that doesn't sleep: where the low half of the word at the address is the expected value,
    /// the thread falls asleep on it; comparing and falling asleep are one step. Refused with EFAULT where the address
    /// is invalid, and else with EAGAIN where the word differs.
    pub fn wait<M: Memory>(
        &mut self,
        base: u64,
        memory: &M,
        thread: Tid,
        at: u64,
        expected: u32,
    ) -> Result<(), Reply>
        requires known { thread ≤ self.old.threads }
        requires awake { IsAwake self.old thread }
        ensures answer { WaitAnswers (M.words memory.now) (seen_at base at) expected result }
        ensures changes { MatchResult result (λ _. FallsAsleep self.old self.new thread (seen_at base at))
            (λ _. self.new ≡ self.old) }
        ensures sound { IsKernel self.new }
    {
        self.wait_at(memory, thread, seen_at(base, at), expected)
    }

    /// FUTEX_WAKE: wakes the first `n` that sleep on the word at the address, in the order in which they fell asleep,
    /// or all where there are fewer. Refused with EFAULT where the address is invalid.
    pub fn wake<M: Memory>(
        &mut self,
        base: u64,
        memory: &M,
        at: u64,
        n: u32,
    ) -> Result<Batch, Reply>
        ensures answer { WakeAnswers (M.words memory.now) (seen_at base at) result }
        ensures changes { MatchResult result (Wakes self.old self.new (seen_at base at) n) (λ _. self.new ≡ self.old) }
        ensures sound { IsKernel self.new }
    {
        self.wake_at(memory, seen_at(base, at), n)
    }

    /// FUTEX_REQUEUE: wakes the first `wake` that sleep on the word at `from`, or all where there are fewer, and moves
    /// the first of the rest, `moves` at most, to the end of the queue of the word at `to`, as if they had fallen
    /// asleep on it. Answers who was woken and who was moved, in order. Refused with EINVAL where the addresses are
    /// equal, and else with EFAULT where either is invalid; then nothing changes.
    pub fn requeue<M: Memory>(
        &mut self,
        base: u64,
        memory: &M,
        from: u64,
        wake: u32,
        to: u64,
        moves: u32,
    ) -> Result<(Batch, Batch), Reply>
        ensures answer { RequeueAnswers (M.words memory.now) (seen_at base from) (seen_at base to) result }
        ensures changes { MatchResult result
            (λ r. Requeues self.old self.new (seen_at base from) wake (seen_at base to) moves r.0 r.1)
            (λ _. self.new ≡ self.old) }
        ensures sound { IsKernel self.new }
    {
        self.requeue_at(memory, seen_at(base, from), wake, seen_at(base, to), moves)
    }

    /// FUTEX_CMP_REQUEUE: a requeue where the low half of the word at `from` is the expected value; comparing and
    /// moving are one step. Refused with EINVAL where the addresses are equal, else with EFAULT where either is
    /// invalid, and else with EAGAIN where the word differs; then nothing changes.
    pub fn cmp_requeue<M: Memory>(
        &mut self,
        base: u64,
        memory: &M,
        from: u64,
        expected: u32,
        wake: u32,
        to: u64,
        moves: u32,
    ) -> Result<(Batch, Batch), Reply>
        ensures answer { CmpRequeueAnswers (M.words memory.now) (seen_at base from) expected (seen_at base to) result }
        ensures changes { MatchResult result
            (λ r. Requeues self.old self.new (seen_at base from) wake (seen_at base to) moves r.0 r.1)
            (λ _. self.new ≡ self.old) }
        ensures sound { IsKernel self.new }
    {
        self.cmp_requeue_at(
            memory,
            seen_at(base, from),
            expected,
            wake,
            seen_at(base, to),
            moves,
        )
    }

    /// Clears the word at the address where it is `0x80000000`, the cell of a free mutex that says only that somebody
    /// may sleep on it, and nobody does: looking for sleepers, comparing and clearing are one step. Answers whether it
    /// cleared it; no queue changes. Refused with EFAULT where the address is invalid, and then no word changes.
    pub fn trim<M: Memory>(&self, base: u64, memory: &mut M, at: u64) -> Result<bool, Reply>
        ensures answer { TrimAnswers (M.words memory.old) (seen_at base at) result }
        ensures changes { MatchResult result
            (TrimsAt (M.words memory.old) (M.words memory.new) (seen_at base at) (queue_of self.now (seen_at base at)))
            (λ _. M.words memory.new ≡ M.words memory.old) }
        ensures sound { IsKernel self.now }
    {
        self.trim_at(memory, seen_at(base, at))
    }
}
