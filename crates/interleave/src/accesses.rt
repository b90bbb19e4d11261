//! Accesses of the machine's threads: to its words, and to the kernel's queues. A thread names words by the addresses
//! that they have in its process.
ghost use Rattle.std.specs.Prelude.{◌≡◌, ◌≤◌, ◌<◌, ℕ, [], true, false, length, slice_index};
ghost use Rattle.stepprograms.specs.declared.access.Access.TheVariants.{Wait, Wake};
ghost use Rattle.stepprograms.specs.declared.access.Answer.TheVariants.{Value, Stored, Exchanged, Changed};
ghost use Rattle.syscalls.specs.Kernels.{IsAwake};
ghost use Rattle.interleave.specs.Perform.{or_fault, exchange_answer, requeue_performed};
ghost use Rattle.interleave.specs.Perform.{trim_performed, list_words, Performs};

use buckets::Batch;
use lockword::{Reply, Tid};
use memorymap::seen_at;
use stepprograms::{Access, Answer};
use syscalls::{Kernel, Memory, PlainMemory};

/// What an access answered, whether its thread fell asleep by it, whom it woke, and whom it moved to another queue, in
/// their order.
#[derive(Clone, Copy)]
pub(crate) struct Performed {
    pub answer: Answer,
    pub slept: bool,
    pub woken: Batch,
    pub moved: Batch,
}

/// The word at a place of the memory.
pub(crate) fn word_at(memory: &PlainMemory, place: u64) -> u64
    requires first { 1 ≤ place }
    requires last { place < length memory.now }
    ensures { result ≡ slice_index memory.now place }
{
    let Some(word) = memory.load(place) else {
        unreachable!()
    };
    word
}

/// Of an access by which nobody falls asleep, is woken or is moved.
pub(crate) fn quiet(answer: Answer) -> Performed
    ensures { result ≡ record { answer = answer; slept = false; woken = []; moved = [] } }
{
    Performed {
        answer,
        slept: false,
        woken: Batch::new(),
        moved: Batch::new(),
    }
}

fn value(word: Option<u64>) -> Answer
    ensures { result ≡ or_fault (λ w. Value w) word }
{
    match word {
        Some(word) => Answer::Value(word),
        None => Answer::Fault,
    }
}

fn stored(done: Option<()>) -> Answer
    ensures { result ≡ or_fault (λ u. Stored) done }
{
    match done {
        Some(()) => Answer::Stored,
        None => Answer::Fault,
    }
}

fn exchanged(word: Option<u64>, expected: u64) -> Answer
    ensures { result ≡ or_fault (exchange_answer expected) word }
{
    match word {
        Some(word) => {
            if word == expected {
                Answer::Exchanged
            } else {
                Answer::Changed(word)
            }
        }
        None => Answer::Fault,
    }
}

/// A thread that falls asleep goes on, when it is woken, with the answer that this gives.
fn wait<M: Memory>(
    memory: &M,
    kernel: &mut Kernel,
    base: u64,
    thread: Tid,
    at: u64,
    expected: u32,
) -> Performed
    requires known { thread ≤ kernel.old.threads }
    requires awake { IsAwake kernel.old thread }
    ensures { Performs (M.words memory.now) kernel.old kernel.new base thread (Wait at expected) result }
{
    match kernel.wait(base, memory, thread, at, expected) {
        Ok(()) => Performed {
            answer: Answer::Woken,
            slept: true,
            woken: Batch::new(),
            moved: Batch::new(),
        },
        Err(Reply::EAGAIN) => quiet(Answer::Again),
        Err(_) => quiet(Answer::Fault),
    }
}

fn wake<M: Memory>(memory: &M, kernel: &mut Kernel, base: u64, at: u64, most: u32) -> Performed
    ensures { (thread : ℕ) → Performs (M.words memory.now) kernel.old kernel.new base thread (Wake at most) result }
{
    match kernel.wake(base, memory, at, most) {
        Ok(woken) => Performed {
            answer: Answer::Count(woken.len() as u32),
            slept: false,
            woken,
            moved: Batch::new(),
        },
        Err(_) => quiet(Answer::Fault),
    }
}

/// Of a trim: it answers whether it cleared its word.
fn trimmed(told: Result<bool, Reply>) -> Performed
    ensures { result ≡ trim_performed told }
{
    match told {
        Ok(trimmed) => quiet(Answer::Trimmed(trimmed)),
        Err(_) => quiet(Answer::Fault),
    }
}

/// Of a requeue: it answers how many it woke and how many it moved, or EAGAIN where its word differs.
fn requeued(told: Result<(Batch, Batch), Reply>) -> Performed
    ensures { result ≡ requeue_performed told }
{
    match told {
        Ok((woken, moved)) => Performed {
            answer: Answer::Counts(woken.len() as u32, moved.len() as u32),
            slept: false,
            woken,
            moved,
        },
        Err(Reply::EAGAIN) => quiet(Answer::Again),
        Err(_) => quiet(Answer::Fault),
    }
}

/// Makes an access of a thread that doesn't sleep, whose process maps the words at this base.
pub(crate) fn perform<M: Memory>(
    memory: &mut M,
    kernel: &mut Kernel,
    base: u64,
    thread: Tid,
    access: &Access,
) -> Performed
    requires known { thread ≤ kernel.old.threads }
    requires awake { IsAwake kernel.old thread }
    ensures performs { Performs (M.words memory.old) kernel.old kernel.new base thread access.now result }
    ensures words { M.words memory.new ≡ list_words (M.words memory.old) kernel.old base access.now }
{
    match *access {
        Access::Load { at } => quiet(value(memory.load(seen_at(base, at)))),
        Access::Store { at, value } => quiet(stored(memory.store(seen_at(base, at), value))),
        Access::Exchange { at, expected, new } => {
            quiet(exchanged(memory.exchange(seen_at(base, at), expected, new), expected))
        }
        Access::FetchXor { at, operand } => {
            quiet(value(memory.fetch_xor(seen_at(base, at), operand)))
        }
        Access::FetchOr { at, operand } => {
            quiet(value(memory.fetch_or(seen_at(base, at), operand)))
        }
        Access::FetchAnd { at, operand } => {
            quiet(value(memory.fetch_and(seen_at(base, at), operand)))
        }
        Access::FetchAdd { at, operand } => {
            quiet(value(memory.fetch_add(seen_at(base, at), operand)))
        }
        Access::Wait { at, expected } => wait(memory, kernel, base, thread, at, expected),
        Access::Wake { at, most } => wake(memory, kernel, base, at, most),
        Access::Requeue {
            from,
            wake,
            to,
            moves,
        } => requeued(kernel.requeue(base, memory, from, wake, to, moves)),
        Access::CmpRequeue {
            from,
            expected,
            wake,
            to,
            moves,
        } => requeued(kernel.cmp_requeue(base, memory, from, expected, wake, to, moves)),
        Access::Trim { at } => trimmed(kernel.trim(base, memory, at)),
    }
}
