//! Each access to the words of a memory.

use std::process::Abort;
use std::test::Fail;
use stepprograms::Access;
use syscalls::{Memory, PlainMemory};

/// Makes an access, and tells the word that it met; of a store, which tells none, that which it stored.
fn make<M: Memory>(memory: &mut M, access: Access) -> Option<u64> {
    match access {
        Access::Load { at } => memory.load(at),
        Access::Store { at, value } => match memory.store(at, value) {
            Some(()) => Some(value),
            None => None,
        },
        Access::Exchange { at, expected, new } => memory.exchange(at, expected, new),
        Access::FetchXor { at, operand } => memory.fetch_xor(at, operand),
        Access::FetchOr { at, operand } => memory.fetch_or(at, operand),
        Access::FetchAnd { at, operand } => memory.fetch_and(at, operand),
        Access::FetchAdd { at, operand } => memory.fetch_add(at, operand),
        _ => None,
    }
}

/// Accesses to words 1 and 2, which are 0, and what each tells.
static VALID: [(Access, u64); 9] = [
    (Access::Store { at: 2, value: 12 }, 12),
    (
        Access::Exchange {
            at: 2,
            expected: 13,
            new: 1,
        },
        12,
    ),
    (
        Access::Exchange {
            at: 2,
            expected: 12,
            new: 10,
        },
        12,
    ),
    (Access::FetchXor { at: 2, operand: 6 }, 10),
    (Access::FetchOr { at: 2, operand: 3 }, 12),
    (Access::FetchAnd { at: 2, operand: 6 }, 15),
    (
        Access::FetchAdd {
            at: 2,
            operand: u64::MAX,
        },
        6,
    ),
    (Access::Load { at: 2 }, 5),
    (Access::Load { at: 1 }, 0),
];

/// Addresses of no word.
static INVALID: [u64; 3] = [0, 3, u64::MAX];

/// An access tells this word.
fn tells<M: Memory>(rt: &impl Abort, memory: &mut M, access: Access, word: Option<u64>) {
    assert!(rt; make(memory, access) == word);
}

/// Each access to this address tells no word.
fn tells_nothing<M: Memory>(rt: &impl Abort, memory: &mut M, at: u64) {
    tells(rt, memory, Access::Load { at }, None);
    tells(rt, memory, Access::Store { at, value: 1 }, None);
    let exchange = Access::Exchange {
        at,
        expected: 0,
        new: 1,
    };
    tells(rt, memory, exchange, None);
    tells(rt, memory, Access::FetchXor { at, operand: 1 }, None);
    tells(rt, memory, Access::FetchOr { at, operand: 1 }, None);
    tells(rt, memory, Access::FetchAnd { at, operand: 1 }, None);
    tells(rt, memory, Access::FetchAdd { at, operand: 1 }, None);
}

/// Each access to one word of any memory that has words 1 and 2 and no word 3, of which both are 0.
fn accesses<M: Memory>(rt: &impl Abort, memory: &mut M) {
    for (access, word) in &VALID {
        tells(rt, memory, *access, Some(*word));
    }
    for at in &INVALID {
        tells_nothing(rt, memory, *at);
    }
}

#[test]
fn a_memory_has_its_accesses(rt: HostRuntime) -> Result<(), Fail> {
    let mut memory = PlainMemory::new(rt.alloc(), 3)?;
    accesses(&rt, &mut memory);
    tells(&rt, &mut memory, Access::Load { at: 2 }, Some(5));
    let mut copy = memory.clone()?;
    tells(&rt, &mut copy, Access::Store { at: 2, value: 8 }, Some(8));
    tells(&rt, &mut copy, Access::Load { at: 2 }, Some(8));
    tells(&rt, &mut memory, Access::Load { at: 2 }, Some(5));
    let mut given = PlainMemory::from(vec![in rt.alloc(); 3, 4]?);
    tells(&rt, &mut given, Access::Load { at: 0 }, None);
    tells(&rt, &mut given, Access::Load { at: 1 }, Some(4));
    tells(&rt, &mut given, Access::Load { at: 2 }, None);
    let mut empty = PlainMemory::new(rt.alloc(), 0)?;
    tells(&rt, &mut empty, Access::Load { at: 1 }, None);
    Ok(())
}
