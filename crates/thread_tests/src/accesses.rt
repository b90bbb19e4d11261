//! Threads that die right before an access of a call on a condition variable.
use condvar::CondCall::{self, Broadcast, Signal, Wait};
use condvar::Op::{OnCondition, OnMutex};
use lockword::Reply;
use memorymap::Layout;
use mutex::Call::Lock;
use ruledwords::Never;
use std::alloc::Global;
use std::sync;
use std::sync::atomic::{AtomicU64, Ordering};
use std::test::Fail;
use thread_fixtures::{Asked, Left, makes, team};

/// What came of a call in which the thread may have died.
#[derive(Clone, Copy, PartialEq, Eq)]
struct Story {
    reply: Option<Reply>,
    /// How often its fate was asked.
    asked: u64,
    cell: u64,
    counter: u64,
}

/// The owner of the mutex makes a call, and dies before its access with that number. The counter begins at 5.
fn dies_before<R: sync::Wait>(
    rt: &R,
    alloc: Global,
    call: CondCall,
    access: u64,
) -> Result<Option<Story>, Fail> {
    let (bench, first, second, _, _, _) = team(alloc, Layout::new(5, 1, &[0])?, &[5])?;
    let Some((first, _taken)) = makes(rt, &bench, first, OnMutex(Lock(0)), &mut Never) else {
        return Ok(None);
    };
    let count = AtomicU64::new(0);
    let mut fate = Asked::new(&count, access);
    let made = makes(rt, &bench, first, OnCondition(call), &mut fate);
    let left = Left::of(bench, second);
    Ok(Some(Story {
        reply: made.map(|made| made.1),
        asked: count.load(Ordering::SeqCst),
        cell: left.cells[0],
        counter: left.counters[0],
    }))
}

fn died(asked: u64, cell: u64, counter: u64) -> Option<Story> {
    Some(Story {
        reply: None,
        asked,
        cell,
        counter,
    })
}

fn lived(asked: u64, cell: u64) -> Option<Story> {
    Some(Story {
        reply: Some(Reply::OK),
        asked,
        cell,
        counter: 6,
    })
}

/// A call, accesses before which its thread dies, and the cell and the counter that it leaves then. A wait that finds
/// nobody to wake makes seven accesses before it sleeps; once it has made all seven the mutex is free. A signal makes
/// four accesses; once it has made three it has counted. A broadcast makes five; once it has made four it has set
/// WAITERS. The fate was asked before each of them, and before the sleep.
static DEATHS: [(CondCall, &[u64], u64, u64); 7] = [
    (Wait(0), &[1, 2, 3, 4, 5, 6, 7], 0x4000_0000, 5),
    (Wait(0), &[8], 0, 5),
    (Signal(0), &[1, 2, 3], 0x4000_0000, 5),
    (Signal(0), &[4], 0x4000_0000, 6),
    (Broadcast(0), &[1, 2, 3], 0x4000_0000, 5),
    (Broadcast(0), &[4], 0x4000_0000, 6),
    (Broadcast(0), &[5], 0xc000_0000, 6),
];

#[test]
fn a_thread_dies_before_each_access(rt: HostRuntime) -> Result<(), Fail> {
    for (call, accesses, cell, counter) in &DEATHS {
        for access in *accesses {
            let found = dies_before(&rt, rt.alloc(), *call, *access)?;
            assert!(rt;
                found == died(*access, *cell, *counter),
                "{call:?} before {access}"
            );
        }
    }
    Ok(())
}

/// A call, all its accesses, and the cell that it leaves.
static LIVES: [(CondCall, u64, u64); 2] = [(Signal(0), 4, 1), (Broadcast(0), 5, 0x8000_0001)];

#[test]
fn a_thread_lives_that_makes_each_access(rt: HostRuntime) -> Result<(), Fail> {
    for (call, accesses, cell) in &LIVES {
        let found = dies_before(&rt, rt.alloc(), *call, accesses.wrapping_add(1))?;
        assert!(rt; found == lived(*accesses, *cell), "{call:?}");
    }
    Ok(())
}
