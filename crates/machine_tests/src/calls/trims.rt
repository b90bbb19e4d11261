//! Trims of a word, with sleepers and without.

use super::words;
use crate::kernels::{has_sleepers, trim, wait, wake};
use lockword::Reply;
use std::process::Abort;
use std::test::Fail;
use syscalls::{Kernel, Memory, PlainMemory};

/// A word, and what a trim leaves of it where nobody sleeps on it: only a free cell that says nothing but WAITERS is
/// cleared.
static TRIMS: [(u64, u64); 8] = [
    (0x8000_0000, 0),
    (0, 0),
    (0x8000_0001, 0x8000_0001),
    (0xc000_0000, 0xc000_0000),
    (0x4000_0000, 0x4000_0000),
    (0x1_8000_0000, 0x1_8000_0000),
    (0x1_0000_0000, 0x1_0000_0000),
    (0x8000_0000_8000_0000, 0x8000_0000_8000_0000),
];

/// Addresses of no word.
static NOWHERE: [u64; 3] = [0, 16, u64::MAX];

/// Writes the word at an address.
fn put(rt: &impl Abort, memory: &mut PlainMemory, at: u64, word: u64) {
    assert!(rt; memory.store(at, word).is_some());
}

/// A trim answers so, and leaves this word at the address.
fn trims(
    rt: &impl Abort,
    kernel: &Kernel,
    memory: &mut PlainMemory,
    at: u64,
    trimmed: bool,
    word: u64,
) {
    assert!(rt; trim(kernel, 0, memory, at) == Ok(trimmed));
    assert!(rt; memory.load(at) == Some(word));
}

#[test]
fn a_trim_clears_waiters_alone(rt: HostRuntime) -> Result<(), Fail> {
    let mut memory = words(&rt, rt.alloc())?;
    let kernel = Kernel::new(rt.alloc(), 2)?;
    for (word, left) in &TRIMS {
        put(&rt, &mut memory, 5, *word);
        trims(&rt, &kernel, &mut memory, 5, *word != *left, *left);
    }
    for at in &NOWHERE {
        assert!(rt; trim(&kernel, 0, &mut memory, *at) == Err(Reply::EFAULT));
    }
    trims(&rt, &kernel, &mut memory, 4, false, 7);
    Ok(())
}

#[test]
fn a_trim_looks_for_sleepers_of_its_word(rt: HostRuntime) -> Result<(), Fail> {
    let mut memory = words(&rt, rt.alloc())?;
    let mut kernel = Kernel::new(rt.alloc(), 2)?;
    put(&rt, &mut memory, 8, 0x8000_0000);
    put(&rt, &mut memory, 9, 0x8000_0000);
    assert!(rt; wait(&rt, &mut kernel, 0, &memory, 1, 8, 0x8000_0000) == Reply::OK);
    trims(&rt, &kernel, &mut memory, 8, false, 0x8000_0000);
    trims(&rt, &kernel, &mut memory, 9, true, 0);
    has_sleepers(&rt, &kernel, 8, &[1]);
    assert!(rt; wake(&rt, &mut kernel, 0, &memory, 8, 1, &[1]) == Reply::OK);
    trims(&rt, &kernel, &mut memory, 8, true, 0);
    Ok(())
}
