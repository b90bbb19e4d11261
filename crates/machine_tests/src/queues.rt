//! Each call of a bucket, by worked tables.

use crate::batches::{has_ids, thread};
use buckets::{Batch, Bucket};
use memorymap::Key;
use std::process::Abort;
use std::test::Fail;

/// A call of a bucket, and what it answers. Threads are ids, and those in a batch are in their order.
#[derive(Clone, Copy)]
enum Call {
    /// These are put into the queue of a key, one after the other.
    Enqueue(&'static [u8], u64),
    /// The thread with an id waits on key 7, whose word is seen so, for this one: whether it sleeps.
    Wait(u8, u64, u32, bool),
    /// Of a key this many are to be taken, and these are.
    Take(u64, u32, &'static [u8]),
    /// Of a key this many are to be moved to another one, and these are.
    MoveWithin(u64, u32, u64, &'static [u8]),
    /// The thread with an id is taken out of its queue: whether it was in one.
    Remove(u8, bool),
    /// Whether the thread with an id stands in a queue.
    Stands(u8, bool),
    /// This many stand in the queue of a key.
    Count(u64, usize),
    /// These are there.
    Sleepers(u64, &'static [u8]),
    /// Whether there is no room.
    Full(bool),
}

/// A thread that stands nowhere is put into a queue that has room.
fn enqueue(rt: &impl Abort, bucket: &mut Bucket, id: u8, key: u64) {
    let thread = thread(rt, id);
    assert!(rt; !bucket.full());
    assert!(rt; !bucket.stands(thread));
    bucket.enqueue(thread, Key(key));
}

/// A wait of a thread that stands nowhere, where there is room.
fn wait(rt: &impl Abort, bucket: &mut Bucket, id: u8, seen: u64, expected: u32) -> bool {
    let thread = thread(rt, id);
    assert!(rt; !bucket.full());
    assert!(rt; !bucket.stands(thread));
    bucket.wait_section(thread, Key(7), seen, expected)
}

/// A wake takes these, in this order.
fn take(rt: &impl Abort, bucket: &mut Bucket, key: u64, n: u32, ids: &[u8]) {
    has_ids(rt, &bucket.take(Key(key), n), ids);
}

/// A requeue within the bucket, of keys that differ, moves these, in this order.
fn move_within(rt: &impl Abort, bucket: &mut Bucket, key: u64, n: u32, to: u64, ids: &[u8]) {
    assert!(rt; key != to);
    has_ids(rt, &bucket.move_within(Key(key), n, Key(to)), ids);
}

fn remove(rt: &impl Abort, bucket: &mut Bucket, id: u8) -> bool {
    bucket.remove(thread(rt, id))
}

/// Makes a call that changes the bucket.
fn make(rt: &impl Abort, bucket: &mut Bucket, call: Call) {
    match call {
        Call::Enqueue(ids, key) => {
            for id in ids {
                enqueue(rt, bucket, *id, key);
            }
        }
        Call::Wait(id, seen, expected, sleeps) => {
            assert!(rt; wait(rt, bucket, id, seen, expected) == sleeps);
        }
        Call::Take(key, n, ids) => take(rt, bucket, key, n, ids),
        Call::MoveWithin(key, n, to, ids) => move_within(rt, bucket, key, n, to, ids),
        Call::Remove(id, stood) => assert!(rt; remove(rt, bucket, id) == stood),
        _ => look(rt, bucket, call),
    }
}

/// Makes a call that tells of the bucket.
fn look(rt: &impl Abort, bucket: &Bucket, call: Call) {
    match call {
        Call::Stands(id, stands) => assert!(rt; bucket.stands(thread(rt, id)) == stands),
        Call::Count(key, count) => assert!(rt; bucket.count(Key(key)) == count),
        Call::Sleepers(key, ids) => has_ids(rt, &bucket.sleepers(Key(key)), ids),
        Call::Full(full) => assert!(rt; bucket.full() == full),
        _ => assert!(rt; false),
    }
}

fn make_all(rt: &impl Abort, bucket: &mut Bucket, calls: &[Call]) {
    for call in calls {
        make(rt, bucket, *call);
    }
}

static WAKES: [Call; 17] = [
    Call::Enqueue(&[3], 7),
    Call::Enqueue(&[1], 9),
    Call::Enqueue(&[2, 64], 7),
    Call::Count(7, 3),
    Call::Count(9, 1),
    Call::Count(8, 0),
    Call::Full(true),
    Call::Sleepers(7, &[3, 2, 64]),
    Call::Sleepers(8, &[]),
    Call::Take(7, 0, &[]),
    Call::Take(7, 2, &[3, 2]),
    Call::Stands(64, true),
    Call::Stands(3, false),
    Call::Take(7, u32::MAX, &[64]),
    Call::Take(7, 1, &[]),
    Call::Count(9, 1),
    Call::Full(false),
];

#[test]
fn a_wake_takes_the_first_of_one_key(rt: HostRuntime) -> Result<(), Fail> {
    let mut bucket = Bucket::new(rt.alloc(), 4)?;
    make_all(&rt, &mut bucket, &WAKES);
    has_ids(&rt, &Batch::new(), &[]);
    Ok(())
}

static REMOVALS: [Call; 4] = [
    Call::Remove(2, true),
    Call::Remove(2, false),
    Call::Take(5, 3, &[1, 3]),
    Call::Remove(1, false),
];

#[test]
fn a_removal_takes_one_thread(rt: HostRuntime) -> Result<(), Fail> {
    let mut bucket = Bucket::new(rt.alloc(), 64)?;
    make(&rt, &mut bucket, Call::Enqueue(&[1, 2, 3], 5));
    let copy = bucket.clone()?;
    make_all(&rt, &mut bucket, &REMOVALS);
    has_ids(&rt, &copy.sleepers(Key(5)), &[1, 2, 3]);
    Ok(())
}

static REQUEUES: [Call; 12] = [
    Call::Enqueue(&[1], 7),
    Call::Enqueue(&[5], 9),
    Call::Enqueue(&[2], 7),
    Call::Enqueue(&[6], 8),
    Call::Enqueue(&[3], 7),
    Call::MoveWithin(7, 0, 9, &[]),
    Call::MoveWithin(7, 2, 9, &[1, 2]),
    Call::Sleepers(7, &[3]),
    Call::Sleepers(8, &[6]),
    Call::Sleepers(9, &[5, 1, 2]),
    Call::MoveWithin(9, u32::MAX, 7, &[5, 1, 2]),
    Call::Sleepers(7, &[3, 5, 1, 2]),
];

#[test]
fn a_requeue_moves_the_first_of_one_key(rt: HostRuntime) -> Result<(), Fail> {
    let mut bucket = Bucket::new(rt.alloc(), 5)?;
    make_all(&rt, &mut bucket, &REQUEUES);
    Ok(())
}

static TWO_CAME: [Call; 3] = [
    Call::Sleepers(9, &[5, 1, 2]),
    Call::Take(9, 3, &[5, 1, 2]),
    Call::Enqueue(&[4], 9),
];

/// Whether this many sleepers of a key fit into another bucket.
fn fits(bucket: &Bucket, other: &Bucket, key: u64, n: u32) -> bool {
    bucket.fits(other, Key(key), n)
}

/// A move from key 7 to key 9 of another bucket, which it fits into.
fn move_two(rt: &impl Abort, bucket: &mut Bucket, other: &mut Bucket) {
    assert!(rt; bucket.fits(other, Key(7), 2));
    has_ids(rt, &bucket.move_to(other, Key(7), 2, Key(9)), &[1, 2]);
}

#[test]
fn a_requeue_moves_into_another_bucket(rt: HostRuntime) -> Result<(), Fail> {
    let mut bucket = Bucket::new(rt.alloc(), 4)?;
    let mut other = Bucket::new(rt.alloc(), 3)?;
    make(&rt, &mut bucket, Call::Enqueue(&[1, 2, 3, 4], 7));
    make(&rt, &mut other, Call::Enqueue(&[5], 9));
    assert!(rt; fits(&bucket, &other, 8, u32::MAX));
    assert!(rt; !fits(&bucket, &other, 7, 3));
    move_two(&rt, &mut bucket, &mut other);
    look(&rt, &bucket, Call::Sleepers(7, &[3, 4]));
    make_all(&rt, &mut other, &TWO_CAME);
    assert!(rt; fits(&bucket, &other, 7, 1));
    assert!(rt; !fits(&bucket, &other, 7, 2));
    Ok(())
}

static WAITS: [Call; 7] = [
    Call::Wait(1, 0xffff_ffff_0000_0002, 2, true),
    Call::Wait(2, 3, 2, false),
    Call::Wait(2, 0x2_0000_0000, 2, false),
    Call::Count(7, 1),
    Call::Wait(2, 2, 2, true),
    Call::Full(true),
    Call::Take(7, 2, &[1, 2]),
];

#[test]
fn a_wait_compares_the_low_half(rt: HostRuntime) -> Result<(), Fail> {
    let mut bucket = Bucket::new(rt.alloc(), 2)?;
    make_all(&rt, &mut bucket, &WAITS);
    Ok(())
}
