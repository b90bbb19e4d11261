//! Threads that are killed, and the kernel's walks over their lists.

use crate::machine_rows::Does::{Begins, Calls, Dies, Steps};
use crate::machine_rows::Noted::{Any, Goes, IsReaped, Killed, Nothing, Returns, Walks};
use crate::machine_rows::Standing::{Awake, Dying, Reaped, Resting};
use crate::machine_rows::{
    LOCK, ONE_TAKES, Row, TWO_SLEEPS, UNLOCK, alone_after, gone_through, standing_of, thread,
};
use lockword::Reply::OK;
use std::test::Fail;

/// Thread 2 is killed in its sleep and reaped, and then thread 1 unlocks the mutex.
const KILLED_ASLEEP: [Row; 8] = [
    ONE_TAKES,
    TWO_SLEEPS,
    Row(Dies(2), Killed, Resting, Dying),
    Row(Steps(2, 3), Walks, Resting, Dying),
    Row(Steps(2, 1), IsReaped, Resting, Reaped),
    Row(Calls(1, UNLOCK, 6), Any, Awake, Reaped),
    Row(Steps(1, 2), Goes, Awake, Reaped),
    Row(Steps(1, 1), Returns(OK), Resting, Reaped),
];

/// A sleeper that is killed leaves its queue, so that nobody is woken instead, and the unlock trims the cell; the
/// kernel leaves alone what it doesn't own.
#[test]
fn a_killed_sleeper_leaves_its_queue(rt: HostRuntime) -> Result<(), Fail> {
    let machine = gone_through(rt.alloc(), 2, &KILLED_ASLEEP)?;
    assert!(rt; machine.word(7) == Some(0));
    Ok(())
}

const NO_SUCH_THREAD: [Row; 1] = [Row(Dies(2), Nothing, Resting, Resting)];

const KILLED_AT_REST: [Row; 4] = [
    Row(Dies(2), Nothing, Resting, Resting),
    Row(Dies(1), Killed, Dying, Resting),
    Row(Dies(1), Nothing, Dying, Resting),
    Row(Begins(1, LOCK), Nothing, Dying, Resting),
];

/// The walk of an empty list with no pending entry loads the head's three words. From then on no event of the thread
/// applies.
const WALKED: [Row; 6] = [
    Row(Dies(1), Killed, Dying, Resting),
    Row(Steps(1, 2), Walks, Dying, Resting),
    Row(Steps(1, 1), IsReaped, Reaped, Resting),
    Row(Steps(1, 1), Nothing, Reaped, Resting),
    Row(Dies(1), Nothing, Reaped, Resting),
    Row(Begins(1, LOCK), Nothing, Reaped, Resting),
];

#[test]
fn a_thread_that_died_does_nothing_more(rt: HostRuntime) -> Result<(), Fail> {
    assert!(rt; gone_through(rt.alloc(), 1, &NO_SUCH_THREAD)?.fresh());
    assert!(rt; !gone_through(rt.alloc(), 1, &KILLED_AT_REST)?.fresh());
    assert!(rt; !gone_through(rt.alloc(), 1, &WALKED)?.fresh());
    Ok(())
}

#[test]
fn a_killed_thread_alone_is_reaped(rt: HostRuntime) -> Result<(), Fail> {
    let one = thread(1)?;
    let machine = alone_after(rt.alloc(), 1, &KILLED_AT_REST, 1, 9000)?;
    assert!(rt; standing_of(&machine, one) == Reaped);
    Ok(())
}
