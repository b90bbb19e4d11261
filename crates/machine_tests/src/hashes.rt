//! A kernel's buckets: which keys each has, and requeues between two.

use crate::batches::has_ids;
use crate::kernels::{
    Moved, RequeueCall, Woken, is_asleep, kernel_and_words, remove, requeue, wait, wake,
};
use lockword::Reply;
use memorymap::key_of;
use std::process::Abort;
use std::test::Fail;
use syscalls::{Kernel, PlainMemory};

/// Threads fall asleep on words that are 0, each at an address.
fn sleep(rt: &impl Abort, kernel: &mut Kernel, memory: &PlainMemory, sleepers: &[(u8, u64)]) {
    for (id, at) in sleepers {
        assert!(rt; wait(rt, kernel, 0, memory, *id, *at, 0) == Reply::OK);
        assert!(rt; is_asleep(rt, kernel, *id));
    }
}

/// These sleep on the key, in this order, as a bucket has it.
fn has_queue(rt: &impl Abort, kernel: &Kernel, bucket: u8, key: u64, ids: &[u8]) {
    has_ids(rt, &kernel.bucket(bucket).sleepers(key_of(key)), ids);
}

/// A requeue that wakes nobody moves these, in this order.
fn moves(
    rt: &impl Abort,
    kernel: &mut Kernel,
    memory: &PlainMemory,
    from: u64,
    to: u64,
    moves: u32,
    moved: &'static [u8],
) {
    let call = RequeueCall(from, to, Woken(0, &[]), Moved(moves, moved));
    assert!(rt; requeue(rt, kernel, 0, memory, call) == Reply::OK);
}

/// With this many words each bucket has four of them.
const WORDS: usize = 1024;

/// The words 10 and 778 have one bucket, and the words 10 and 11 have two.
static SLEEPERS: [(u8, u64); 4] = [(1, 10), (2, 778), (3, 11), (4, 10)];

/// A bucket, and who sleeps in it on the keys 10, 11 and 778.
static QUEUES: [(u8, [&[u8]; 3]); 6] = [
    (10, [&[1, 4], &[], &[2]]),
    (11, [&[], &[3], &[]]),
    (0, [&[], &[], &[]]),
    (9, [&[], &[], &[]]),
    (12, [&[], &[], &[]]),
    (255, [&[], &[], &[]]),
];

#[test]
fn a_bucket_has_the_queues_of_its_keys(rt: HostRuntime) -> Result<(), Fail> {
    let (mut kernel, memory) = kernel_and_words(rt.alloc(), 4, WORDS)?;
    sleep(&rt, &mut kernel, &memory, &SLEEPERS);
    for (bucket, queues) in &QUEUES {
        has_queue(&rt, &kernel, *bucket, 10, queues[0]);
        has_queue(&rt, &kernel, *bucket, 11, queues[1]);
        has_queue(&rt, &kernel, *bucket, 778, queues[2]);
    }
    Ok(())
}

static FOUR_SLEEP: [(u8, u64); 4] = [(3, 10), (1, 10), (2, 10), (4, 255)];

/// The thread is asleep, and leaves a copy of the kernel as a sleeper.
fn can_be_removed(rt: &impl Abort, kernel: &Kernel, id: u8) -> Result<(), Fail> {
    assert!(rt; is_asleep(rt, kernel, id));
    let mut copy = kernel.clone()?;
    assert!(rt; remove(rt, &mut copy, id));
    Ok(())
}

/// Sleepers are moved from bucket 10 to bucket 255, back, and to a key of the same bucket: they stay asleep, in order,
/// and where they stand is known of each.
#[test]
fn a_requeue_moves_between_two_buckets(rt: HostRuntime) -> Result<(), Fail> {
    let (mut kernel, memory) = kernel_and_words(rt.alloc(), 4, WORDS)?;
    sleep(&rt, &mut kernel, &memory, &FOUR_SLEEP);
    moves(&rt, &mut kernel, &memory, 10, 255, 2, &[3, 1]);
    has_queue(&rt, &kernel, 10, 10, &[2]);
    has_queue(&rt, &kernel, 255, 255, &[4, 3, 1]);
    assert!(rt; remove(&rt, &mut kernel, 3));
    assert!(rt; !is_asleep(&rt, &kernel, 3));
    moves(&rt, &mut kernel, &memory, 255, 10, 64, &[4, 1]);
    has_queue(&rt, &kernel, 10, 10, &[2, 4, 1]);
    moves(&rt, &mut kernel, &memory, 10, 778, 1, &[2]);
    has_queue(&rt, &kernel, 10, 778, &[2]);
    can_be_removed(&rt, &kernel, 1)?;
    can_be_removed(&rt, &kernel, 2)?;
    can_be_removed(&rt, &kernel, 4)?;
    assert!(rt; wake(&rt, &mut kernel, 0, &memory, 10, 64, &[4, 1]) == Reply::OK);
    assert!(rt; !is_asleep(&rt, &kernel, 4));
    Ok(())
}

/// Who isn't one of the kernel's threads sleeps nowhere.
#[test]
fn an_unknown_thread_does_not_sleep(rt: HostRuntime) -> Result<(), Fail> {
    let mut kernel = Kernel::new(rt.alloc(), 2)?;
    assert!(rt; !is_asleep(&rt, &kernel, 3));
    assert!(rt; !remove(&rt, &mut kernel, 64));
    Ok(())
}
