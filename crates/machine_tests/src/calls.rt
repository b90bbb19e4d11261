//! Each call of a kernel, by worked tables. The caller's process maps the words at 0, so that addresses are places.
ghost use Rattle.std.specs.Prelude.{◌≤◌};

use crate::kernels::{
    RequeueCall, cmp_requeue, has_sleepers, is_asleep, remove, requeue, wait, wake,
};
use lockword::Reply;
use std::alloc::Global;
use std::process::Abort;
use std::test::Fail;
use syscalls::{Kernel, Memory, PlainMemory};

mod heads;
mod requeues;
mod trims;
mod waits;

/// A call of a kernel, and what it answers. Threads are ids, and those in a batch are in their order.
#[derive(Clone, Copy)]
enum Call {
    /// The threads with these ids wait at an address for a word, one after the other, and fall asleep.
    Sleep(&'static [u8], u64, u32),
    /// The thread with an id waits at an address for a word, and is refused so.
    WaitRefused(u8, u64, u32, Reply),
    /// At an address this many are to be woken, and these are.
    Wake(u64, u32, &'static [u8]),
    /// The same, and it is refused so.
    WakeRefused(u64, u32, Reply),
    Requeue(RequeueCall),
    /// One is to be woken at an address, and one moved from there to another one, and it is refused so.
    RequeueRefused(u64, u64, Reply),
    /// A requeue where the word is this one.
    CmpRequeue(u32, RequeueCall),
    /// One from an address, for a word, to another address, is refused so: it was to wake one and to move one.
    CmpRequeueRefused(u64, u32, u64, Reply),
    /// The thread with an id is taken out of its queue: whether it was in one.
    Remove(u8, bool),
    /// Whether the thread with an id sleeps.
    Asleep(u8, bool),
    /// These sleep at an address.
    Sleepers(u64, &'static [u8]),
}

/// 16 words: word 4 is 7, word 6 is 7 in its low half and 1 in its high one, and the others are 0.
fn words(rt: &impl Abort, alloc: Global) -> Result<PlainMemory, Fail> {
    let mut memory = PlainMemory::new(alloc, 16)?;
    assert!(rt; memory.store(4, 7).is_some());
    assert!(rt; memory.store(6, 0x1_0000_0007).is_some());
    Ok(memory)
}

/// Makes a call.
fn make(rt: &impl Abort, kernel: &mut Kernel, memory: &PlainMemory, call: Call) {
    match call {
        Call::Sleep(ids, at, expected) => {
            for id in ids {
                assert!(rt; wait(rt, kernel, 0, memory, *id, at, expected) == Reply::OK);
            }
        }
        Call::WaitRefused(id, at, expected, reply) => {
            assert!(rt; wait(rt, kernel, 0, memory, id, at, expected) == reply);
        }
        Call::Wake(at, n, ids) => {
            assert!(rt; wake(rt, kernel, 0, memory, at, n, ids) == Reply::OK);
        }
        Call::WakeRefused(at, n, reply) => {
            assert!(rt; wake(rt, kernel, 0, memory, at, n, &[]) == reply);
        }
        Call::Remove(id, slept) => assert!(rt; remove(rt, kernel, id) == slept),
        Call::Asleep(id, asleep) => assert!(rt; is_asleep(rt, kernel, id) == asleep),
        Call::Sleepers(at, ids) => has_sleepers(rt, kernel, at, ids),
        _ => move_sleepers(rt, kernel, memory, call),
    }
}

/// Makes a requeue.
fn move_sleepers(rt: &impl Abort, kernel: &mut Kernel, memory: &PlainMemory, call: Call) {
    match call {
        Call::Requeue(call) => {
            assert!(rt; requeue(rt, kernel, 0, memory, call) == Reply::OK);
        }
        Call::RequeueRefused(from, to, reply) => {
            let call = RequeueCall::refused(from, to);
            assert!(rt; requeue(rt, kernel, 0, memory, call) == reply);
        }
        Call::CmpRequeue(expected, call) => {
            assert!(rt; cmp_requeue(rt, kernel, 0, memory, expected, call) == Reply::OK);
        }
        Call::CmpRequeueRefused(from, expected, to, reply) => {
            let call = RequeueCall::refused(from, to);
            assert!(rt; cmp_requeue(rt, kernel, 0, memory, expected, call) == reply);
        }
        _ => assert!(rt; false),
    }
}

/// Makes these calls of a kernel of this many threads.
fn play(rt: &impl Abort, alloc: Global, threads: u8, calls: &[Call]) -> Result<(), Fail>
    requires some { 1 ≤ threads }
    requires room { threads ≤ 64 }
{
    let memory = words(rt, alloc)?;
    let mut kernel = Kernel::new(alloc, threads)?;
    make_all(rt, &mut kernel, &memory, calls);
    Ok(())
}

fn make_all(rt: &impl Abort, kernel: &mut Kernel, memory: &PlainMemory, calls: &[Call]) {
    for call in calls {
        make(rt, kernel, memory, *call);
    }
}
