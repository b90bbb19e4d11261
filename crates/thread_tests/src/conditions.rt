//! Workers whose calls are on condition variables too.
use crate::dying::dies_at;
use crate::gates::{Follows, goes};
use condvar::CondCall;
use condvar::Op::{self, OnCondition, OnMutex};
use lockword::Reply::OK;
use mutex::Call::{Lock, Unlock};
use std::alloc::Global;
use std::sync::Wait;
use std::test::Fail;
use std::thread::Threads;
use threadbench::Open;

/// The owner of the mutex makes this call.
fn as_owner(call: CondCall) -> [Op; 3] {
    [OnMutex(Lock(0)), OnCondition(call), OnMutex(Unlock(0))]
}

/// Thread 1 waits on the condition variable as the mutex's owner, and thread 2 makes the call on it as the next one.
/// Whether all was returned OK, and the call counted once.
fn wakes<R: Threads + Wait + Sync>(rt: &R, alloc: Global, call: CondCall) -> Result<bool, Fail> {
    let waits = as_owner(CondCall::Wait(0));
    let calls = as_owner(call);
    let all = [OK, OK, OK];
    let left = goes(
        rt,
        alloc,
        [&waits, &calls],
        &Follows::after(2),
        [&all, &all],
    )?;
    Ok(left.is_some_and(|left| left.counters[0] == 6))
}

#[test]
fn a_worker_waits_until_another_signals(rt: HostRuntime) -> Result<(), Fail> {
    assert!(rt; wakes(&rt, rt.alloc(), CondCall::Signal(0))?);
    Ok(())
}

#[test]
fn a_worker_waits_until_another_broadcasts(rt: HostRuntime) -> Result<(), Fail> {
    assert!(rt; wakes(&rt, rt.alloc(), CondCall::Broadcast(0))?);
    Ok(())
}

/// A lock makes eight accesses, a signal four, its wake among them, and an unlock seven.
#[test]
fn accesses_of_a_signal_are_counted(rt: HostRuntime) -> Result<(), Fail> {
    let calls = as_owner(CondCall::Signal(0));
    for die in 8..21 {
        let want = match die {
            8 => (0, None),
            9..=12 => (1, None),
            13..=19 => (2, None),
            _ => (3, Some(1)),
        };
        assert!(rt; dies_at(&rt, rt.alloc(), &calls, die, &Open)? == want);
    }
    Ok(())
}

/// A wait makes eight accesses until it sleeps; the eighth is the section in which it would fall asleep.
#[test]
fn accesses_of_a_wait_are_counted(rt: HostRuntime) -> Result<(), Fail> {
    let calls = as_owner(CondCall::Wait(0));
    for die in 9..17 {
        assert!(rt; dies_at(&rt, rt.alloc(), &calls, die, &Open)? == (1, None));
    }
    Ok(())
}
