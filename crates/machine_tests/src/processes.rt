//! Futex calls of processes that map the words at bases of their own: words meet by their places, whatever their
//! addresses.

use crate::kernels::{
    Moved, RequeueCall, Woken, cmp_requeue, has_sleepers, kernel_and_words, requeue, trim, wait,
    wake,
};
use lockword::Reply;
use std::process::Abort;
use std::test::Fail;
use syscalls::{Kernel, Memory, PlainMemory};

/// The thread falls asleep on a word that is 0.
fn sleeps(rt: &impl Abort, kernel: &mut Kernel, base: u64, memory: &PlainMemory, id: u8, at: u64) {
    assert!(rt; wait(rt, kernel, base, memory, id, at, 0) == Reply::OK);
}

/// The bases lie 5 apart: the address 1010 is that of place 10 in the one process and of place 5 in the other.
#[test]
fn one_address_is_two_places(rt: HostRuntime) -> Result<(), Fail> {
    let (mut kernel, memory) = kernel_and_words(rt.alloc(), 2, 16)?;
    sleeps(&rt, &mut kernel, 1000, &memory, 1, 1010);
    sleeps(&rt, &mut kernel, 1005, &memory, 2, 1010);
    has_sleepers(&rt, &kernel, 10, &[1]);
    has_sleepers(&rt, &kernel, 5, &[2]);
    assert!(rt; wake(&rt, &mut kernel, 1005, &memory, 1010, 64, &[2]) == Reply::OK);
    assert!(rt; wake(&rt, &mut kernel, 1005, &memory, 1010, 64, &[]) == Reply::OK);
    assert!(rt; wake(&rt, &mut kernel, 1000, &memory, 1010, 64, &[1]) == Reply::OK);
    Ok(())
}

/// A requeue of one that wakes nobody, and who is moved.
fn of_one(from: u64, to: u64, moved: &'static [u8]) -> RequeueCall {
    RequeueCall(from, to, Woken(0, &[]), Moved(1, moved))
}

/// Threads of four processes sleep on word 4, by the addresses 4, 5, 1004 and 1000000004; they are woken and moved in
/// the order in which they fell asleep, from any process.
#[test]
fn one_place_has_several_addresses(rt: HostRuntime) -> Result<(), Fail> {
    let (mut kernel, memory) = kernel_and_words(rt.alloc(), 4, 16)?;
    sleeps(&rt, &mut kernel, 1000, &memory, 3, 1004);
    sleeps(&rt, &mut kernel, 0, &memory, 1, 4);
    sleeps(&rt, &mut kernel, 1_000_000_000, &memory, 4, 1_000_000_004);
    sleeps(&rt, &mut kernel, 1, &memory, 2, 5);
    has_sleepers(&rt, &kernel, 4, &[3, 1, 4, 2]);
    has_sleepers(&rt, &kernel, 5, &[]);
    assert!(rt; wake(&rt, &mut kernel, 1, &memory, 5, 1, &[3]) == Reply::OK);
    let first = of_one(1004, 1006, &[1]);
    assert!(rt; cmp_requeue(&rt, &mut kernel, 1000, &memory, 0, first) == Reply::OK);
    let second = of_one(1_000_000_004, 1_000_000_006, &[4]);
    assert!(rt; requeue(&rt, &mut kernel, 1_000_000_000, &memory, second) == Reply::OK);
    has_sleepers(&rt, &kernel, 4, &[2]);
    assert!(rt; wake(&rt, &mut kernel, 0, &memory, 6, 64, &[1, 4]) == Reply::OK);
    Ok(())
}

/// Writes the word at a place.
fn put(rt: &impl Abort, memory: &mut PlainMemory, place: u64, word: u64) {
    assert!(rt; memory.store(place, word).is_some());
}

/// The word at a place is this one.
fn has_word(rt: &impl Abort, memory: &PlainMemory, place: u64, word: u64) {
    assert!(rt; memory.load(place) == Some(word));
}

/// A trim by any process finds the sleeper of another one.
#[test]
fn a_trim_looks_at_the_place(rt: HostRuntime) -> Result<(), Fail> {
    let (mut kernel, mut memory) = kernel_and_words(rt.alloc(), 1, 16)?;
    sleeps(&rt, &mut kernel, 1000, &memory, 1, 1008);
    put(&rt, &mut memory, 7, 0x8000_0000);
    put(&rt, &mut memory, 8, 0x8000_0000);
    put(&rt, &mut memory, 9, 0x8000_0000);
    assert!(rt; trim(&kernel, 2000, &mut memory, 2008) == Ok(false));
    assert!(rt; trim(&kernel, 2000, &mut memory, 2009) == Ok(true));
    assert!(rt; trim(&kernel, 1001, &mut memory, 1008) == Ok(true));
    has_word(&rt, &memory, 7, 0);
    has_word(&rt, &memory, 8, 0x8000_0000);
    has_word(&rt, &memory, 9, 0);
    Ok(())
}

/// A base, and an address of no place: at base 1000 the valid addresses are 1001 to 1015; at 2^64 - 1 they are 0 to 14.
static NOWHERE: [(u64, u64); 8] = [
    (1000, 0),
    (1000, 4),
    (1000, 999),
    (1000, 1000),
    (1000, 1016),
    (1000, u64::MAX),
    (u64::MAX, 15),
    (u64::MAX, u64::MAX),
];

/// Requeues between these addresses have this reply, whether they compare or not.
fn requeues(
    rt: &impl Abort,
    kernel: &mut Kernel,
    base: u64,
    memory: &PlainMemory,
    call: RequeueCall,
    reply: Reply,
) {
    assert!(rt; requeue(rt, kernel, base, memory, call) == reply);
    assert!(rt; cmp_requeue(rt, kernel, base, memory, 7, call) == reply);
}

/// Each call of a process with this base refuses the address.
fn is_refused(rt: &impl Abort, kernel: &mut Kernel, memory: &mut PlainMemory, base: u64, at: u64) {
    let good = 5_u64.wrapping_add(base);
    assert!(rt; wait(rt, kernel, base, memory, 1, at, 0) == Reply::EFAULT);
    assert!(rt; wake(rt, kernel, base, memory, at, 1, &[]) == Reply::EFAULT);
    assert!(rt; trim(kernel, base, memory, at) == Err(Reply::EFAULT));
    let same = RequeueCall::refused(at, at);
    let to = RequeueCall::refused(good, at);
    let from = RequeueCall::refused(at, good);
    requeues(rt, kernel, base, memory, same, Reply::EINVAL);
    requeues(rt, kernel, base, memory, to, Reply::EFAULT);
    requeues(rt, kernel, base, memory, from, Reply::EFAULT);
}

#[test]
fn an_address_of_no_place_is_refused(rt: HostRuntime) -> Result<(), Fail> {
    let (mut kernel, mut memory) = kernel_and_words(rt.alloc(), 1, 16)?;
    for (base, at) in &NOWHERE {
        is_refused(&rt, &mut kernel, &mut memory, *base, *at);
    }
    sleeps(&rt, &mut kernel, u64::MAX, &memory, 1, 14);
    has_sleepers(&rt, &kernel, 15, &[1]);
    Ok(())
}
