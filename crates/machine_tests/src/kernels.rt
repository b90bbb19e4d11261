//! A kernel's calls, by threads' ids. Tests make each call here alone: a function that makes one itself sees all that
//! the call promises, and is dear to prove.
ghost use Rattle.std.specs.Prelude.{◌≤◌};

use crate::batches::{has_ids, thread};
use buckets::Batch;
use lockword::Reply;
use std::alloc::Global;
use std::process::Abort;
use std::test::Fail;
use syscalls::{Kernel, PlainMemory};

/// A kernel of this many threads, and this many words, all 0.
pub(crate) fn kernel_and_words(
    alloc: Global,
    threads: u8,
    words: usize,
) -> Result<(Kernel, PlainMemory), Fail>
    requires some { 1 ≤ threads }
    requires room { threads ≤ 64 }
{
    Ok((
        Kernel::new(alloc, threads)?,
        PlainMemory::new(alloc, words)?,
    ))
}

pub(crate) fn reply_of(answer: Result<(), Reply>) -> Reply {
    match answer {
        Ok(()) => Reply::OK,
        Err(reply) => reply,
    }
}

/// A wait of a thread that doesn't sleep.
pub(crate) fn wait(
    rt: &impl Abort,
    kernel: &mut Kernel,
    base: u64,
    memory: &PlainMemory,
    id: u8,
    at: u64,
    expected: u32,
) -> Reply {
    let thread = thread(rt, id);
    assert!(rt; thread.get() <= kernel.threads());
    assert!(rt; !kernel.asleep(thread));
    reply_of(kernel.wait(base, memory, thread, at, expected))
}

/// A wake, which wakes these, in this order, where it isn't refused.
pub(crate) fn wake(
    rt: &impl Abort,
    kernel: &mut Kernel,
    base: u64,
    memory: &PlainMemory,
    at: u64,
    n: u32,
    ids: &[u8],
) -> Reply {
    match kernel.wake(base, memory, at, n) {
        Ok(woken) => {
            has_ids(rt, &woken, ids);
            Reply::OK
        }
        Err(reply) => reply,
    }
}

/// How many are to be woken, at most, and who are, in this order.
#[derive(Clone, Copy)]
pub(crate) struct Woken(pub(crate) u32, pub(crate) &'static [u8]);

/// How many are to be moved, at most, and who are, in this order.
#[derive(Clone, Copy)]
pub(crate) struct Moved(pub(crate) u32, pub(crate) &'static [u8]);

/// A requeue from an address to another one, and whom it wakes and moves where it isn't refused.
#[derive(Clone, Copy)]
pub(crate) struct RequeueCall(
    pub(crate) u64,
    pub(crate) u64,
    pub(crate) Woken,
    pub(crate) Moved,
);

impl RequeueCall {
    /// One that is to wake one and to move one.
    pub(crate) fn refused(from: u64, to: u64) -> RequeueCall {
        RequeueCall(from, to, Woken(1, &[]), Moved(1, &[]))
    }

    fn reply(self, rt: &impl Abort, answer: Result<(Batch, Batch), Reply>) -> Reply {
        match answer {
            Ok((woken, moved)) => {
                has_ids(rt, &woken, self.2.1);
                has_ids(rt, &moved, self.3.1);
                Reply::OK
            }
            Err(reply) => reply,
        }
    }
}

pub(crate) fn requeue(
    rt: &impl Abort,
    kernel: &mut Kernel,
    base: u64,
    memory: &PlainMemory,
    call: RequeueCall,
) -> Reply {
    let RequeueCall(from, to, Woken(wake, _), Moved(moves, _)) = call;
    call.reply(rt, kernel.requeue(base, memory, from, wake, to, moves))
}

/// The same where the word is the expected one.
pub(crate) fn cmp_requeue(
    rt: &impl Abort,
    kernel: &mut Kernel,
    base: u64,
    memory: &PlainMemory,
    expected: u32,
    call: RequeueCall,
) -> Reply {
    let RequeueCall(from, to, Woken(wake, _), Moved(moves, _)) = call;
    let answer = kernel.cmp_requeue(base, memory, from, expected, wake, to, moves);
    call.reply(rt, answer)
}

pub(crate) fn trim(
    kernel: &Kernel,
    base: u64,
    memory: &mut PlainMemory,
    at: u64,
) -> Result<bool, Reply> {
    kernel.trim(base, memory, at)
}

pub(crate) fn remove(rt: &impl Abort, kernel: &mut Kernel, id: u8) -> bool {
    kernel.remove(thread(rt, id))
}

pub(crate) fn is_asleep(rt: &impl Abort, kernel: &Kernel, id: u8) -> bool {
    kernel.asleep(thread(rt, id))
}

/// These sleep at a place, in this order.
pub(crate) fn has_sleepers(rt: &impl Abort, kernel: &Kernel, at: u64, ids: &[u8]) {
    has_ids(rt, &kernel.sleepers(at), ids);
}
