//! Calls on condition variables that threads make by turns.
use condvar::CondCall::{Broadcast, Signal, Wait};
use condvar::Op::{self, OnCondition, OnMutex};
use lockword::Reply::{EOWNERDEAD, EPERM, OK, XFULL, XSTATE};
use memorymap::Layout;
use mutex::Call::{Consistent, Lock, TryLock, Unlock};
use std::alloc::Global;
use std::sync;
use std::test::Fail;
use thread_fixtures::Step::{Calls, Kills};
use thread_fixtures::Who::{First, Fourth, Second, Third};
use thread_fixtures::{Step, plays};

/// The cell and the counter that are left where five threads take these steps, and the counter begins so; None where a
/// step goes otherwise.
fn left_by<R: sync::Wait>(
    rt: &R,
    alloc: Global,
    preset: u32,
    steps: &[Step],
) -> Result<Option<[u64; 2]>, Fail> {
    let left = plays(rt, alloc, Layout::new(5, 1, &[0])?, &[preset], steps)?;
    Ok(left.map(|left| [left.cells[0], left.counters[0]]))
}

const LOCK: Op = OnMutex(Lock(0));

const TRY_LOCK: Op = OnMutex(TryLock(0));

const UNLOCK: Op = OnMutex(Unlock(0));

const WAIT: Op = OnCondition(Wait(0));

const SIGNAL: Op = OnCondition(Signal(0));

const BROADCAST: Op = OnCondition(Broadcast(0));

/// Nobody owns the mutex, and then another thread does: whoever doesn't own it is refused.
static BY_OTHERS: [Step; 3] = [
    Calls(First, &[WAIT, SIGNAL, BROADCAST], Some(EPERM)),
    Calls(Second, &[LOCK], Some(OK)),
    Calls(First, &[WAIT, SIGNAL, BROADCAST], Some(EPERM)),
];

/// The last owner died, and nobody has declared the mutex consistent: a wait is refused, which would free it. Once it
/// is declared, nothing is.
static BEHIND_A_DEATH: [Step; 6] = [
    Calls(First, &[LOCK], Some(OK)),
    Kills(1),
    Calls(First, &[WAIT], None),
    Calls(Second, &[LOCK], Some(EOWNERDEAD)),
    Calls(Second, &[WAIT], Some(XSTATE)),
    Calls(
        Second,
        &[SIGNAL, BROADCAST, OnMutex(Consistent(0)), SIGNAL],
        Some(OK),
    ),
];

/// Owners of the mutex are killed, one after the other: one whose unlock has somebody to wake, as a broadcast has set
/// WAITERS, and which frees it anyway; one that signals; and one that broadcasts. Each dies in its next call.
static KILLED: [Step; 10] = [
    Calls(First, &[LOCK, BROADCAST], Some(OK)),
    Kills(1),
    Calls(First, &[UNLOCK], None),
    Calls(Second, &[TRY_LOCK], Some(OK)),
    Kills(2),
    Calls(Second, &[SIGNAL], None),
    Calls(Third, &[TRY_LOCK], Some(EOWNERDEAD)),
    Kills(3),
    Calls(Third, &[BROADCAST], None),
    Calls(Fourth, &[TRY_LOCK], Some(EOWNERDEAD)),
];

/// A counter at its limit stays there.
static FULL: [Step; 5] = [
    Calls(First, &[SIGNAL], Some(EPERM)),
    Calls(First, &[LOCK, SIGNAL], Some(OK)),
    Calls(First, &[BROADCAST, SIGNAL], Some(XFULL)),
    Calls(First, &[UNLOCK], Some(OK)),
    Calls(Second, &[TRY_LOCK], Some(OK)),
];

#[test]
fn calls_are_told_and_leave_their_words(rt: HostRuntime) -> Result<(), Fail> {
    assert!(rt; left_by(&rt, rt.alloc(), 7, &BY_OTHERS)? == Some([2, 7]));
    assert!(rt; left_by(&rt, rt.alloc(), 0, &BEHIND_A_DEATH)? == Some([0x8000_0002, 3]));
    assert!(rt; left_by(&rt, rt.alloc(), 0, &KILLED)? == Some([0xc000_0004, 1]));
    assert!(rt; left_by(&rt, rt.alloc(), 0xffff_fffe, &FULL)? == Some([2, 0xffff_ffff]));
    Ok(())
}
