//! Wakes that are spared, mutexes that are reinitialised late, and time limits that come.

use crate::machine_acts::Act::{self, Calls, Happens, Is, Refused, RefusedCall, Steps};
use crate::machine_acts::Look::{Owner, Sleep, Stands, Word};
use crate::machine_acts::Rare::{Dies, Expires, Remakes, Returns, Spares, WaitExpires};
use crate::machine_acts::{ALL, first_wrong};
use crate::machine_rows::Standing::{Asleep, Awake, Dying, Reaped, Resting};
use condvar::{CondCall, Limit, Op};
use lockword::{OWNER_DIED, Reply, UNUSABLE, WAITERS};
use mutex::Call;
use std::test::Fail;

const LOCK: Op = Op::OnMutex(Call::Lock(0));

const TIMED_LOCK: Op = Op::OnMutex(Call::TimedLock(0));

const UNLOCK: Op = Op::OnMutex(Call::Unlock(0));

const WAIT: Op = Op::OnCondition(CondCall::Wait(0));

const TIMED_WAIT: Op = Op::OnCondition(CondCall::TimedWait(0, Limit::Ahead));

const BROADCAST: Op = Op::OnCondition(CondCall::Broadcast(0));

/// Thread 1 has unlocked and is about to wake thread 2.
const ABOUT_TO_WAKE: [Act; 4] = [
    Calls(1, LOCK, ALL),
    Calls(2, LOCK, ALL),
    Is(Stands(2, Asleep)),
    Calls(1, UNLOCK, 6),
];

/// Nobody else would: it has to. Thread 3 begins a lock, and looks at the word: the wake is spared, and thread 3's unlock
/// wakes thread 2.
static SPARED: [Act; 10] = [
    Refused(Spares(1)),
    Calls(3, LOCK, 1),
    Refused(Spares(3)),
    Happens(Spares(1)),
    Is(Stands(2, Asleep)),
    Steps(1, 1),
    Is(Stands(1, Resting)),
    Steps(3, ALL),
    Calls(3, UNLOCK, ALL),
    Is(Stands(2, Awake)),
];

#[test]
fn a_wake_is_spared_where_another_answers(rt: HostRuntime) -> Result<(), Fail> {
    assert_eq!(rt;
        first_wrong(rt.alloc(), (3, 1, &[]), &[&ABOUT_TO_WAKE, &SPARED])?,
        None
    );
    Ok(())
}

/// The walk wakes thread 2, or thread 1 does.
const WALKED: [Act; 5] = [
    Is(Stands(2, Asleep)),
    Steps(1, 1),
    Steps(3, ALL),
    Is(Stands(3, Reaped)),
    Is(Stands(2, Awake)),
];

/// Thread 3 is killed when it has announced a mutex. Where that is mutex 0 its walk will look at the word, so the wake is
/// spared, as long as nobody has begun to walk.
static KILLED: [&[&[Act]]; 3] = [
    &[
        &ABOUT_TO_WAKE,
        &[Calls(3, LOCK, 1), Happens(Dies(3)), Happens(Spares(1))],
        &WALKED,
    ],
    &[
        &ABOUT_TO_WAKE,
        &[
            Calls(3, LOCK, 1),
            Happens(Dies(3)),
            Steps(3, 1),
            Refused(Spares(1)),
        ],
        &WALKED,
    ],
    &[
        &ABOUT_TO_WAKE,
        &[
            Calls(3, Op::OnMutex(Call::Lock(1)), 1),
            Happens(Dies(3)),
            Refused(Spares(1)),
        ],
        &WALKED,
    ],
];

#[test]
fn a_wake_is_spared_where_a_walk_will_answer(rt: HostRuntime) -> Result<(), Fail> {
    for parts in &KILLED {
        assert_eq!(rt; first_wrong(rt.alloc(), (3, 2, &[]), *parts)?, None);
    }
    Ok(())
}

/// Thread 4 has seen nobody sleep on an unusable mutex, and comes late: others have reinitialised it, locked it, and
/// made it unusable again, and thread 3 sleeps there. The mutex is free by thread 4's exchange, and thread 2, which
/// made it unusable and is killed before its wake, leaves that to its walk. The cell is at 13.
static MADE_ANEW: [Act; 20] = [
    Calls(1, LOCK, ALL),
    Happens(Dies(1)),
    Steps(1, 12),
    Refused(Remakes(4, 0)),
    Calls(2, LOCK, ALL),
    Calls(3, LOCK, ALL),
    Calls(2, UNLOCK, 6),
    Is(Word(13, UNUSABLE | WAITERS)),
    Refused(Remakes(2, 0)),
    Refused(Remakes(1, 0)),
    Refused(Remakes(4, 1)),
    Happens(Remakes(4, 0)),
    Refused(Remakes(4, 0)),
    Is(Word(13, WAITERS)),
    Is(Sleep(13, &[3])),
    Happens(Dies(2)),
    Steps(2, 12),
    Is(Stands(2, Reaped)),
    Steps(3, ALL),
    Is(Owner(Some(3))),
];

#[test]
fn a_mutex_that_is_slept_on_is_made_anew(rt: HostRuntime) -> Result<(), Fail> {
    assert_eq!(rt; first_wrong(rt.alloc(), (4, 1, &[]), &[&MADE_ANEW])?, None);
    Ok(())
}

/// Thread 2 sleeps on the mutex of thread 1, with its entry pending, until its time limit comes: then it clears the
/// entry, and its call returns. The pending entry is at 6, the cell at 7.
static TIMES_OUT: [Act; 12] = [
    Calls(1, LOCK, ALL),
    Calls(2, TIMED_LOCK, ALL),
    Is(Sleep(7, &[2])),
    Refused(Expires(1)),
    Happens(Expires(2)),
    Is(Stands(2, Awake)),
    Refused(Expires(2)),
    Is(Word(6, 8)),
    Happens(Returns(2, Reply::ETIMEDOUT)),
    Is(Word(6, 0)),
    Is(Stands(2, Resting)),
    Is(Owner(Some(1))),
];

#[test]
fn a_lock_ends_at_its_time_limit(rt: HostRuntime) -> Result<(), Fail> {
    assert_eq!(rt; first_wrong(rt.alloc(), (2, 1, &[]), &[&TIMES_OUT])?, None);
    Ok(())
}

/// A lock has no time limit. One that has one, and was woken before that comes, takes the mutex.
static IS_WOKEN_BEFORE: [Act; 10] = [
    Calls(1, LOCK, ALL),
    Calls(2, TIMED_LOCK, ALL),
    Calls(3, LOCK, ALL),
    Refused(Expires(3)),
    Calls(1, UNLOCK, ALL),
    Is(Stands(2, Awake)),
    Is(Stands(3, Asleep)),
    Refused(Expires(2)),
    Steps(2, ALL),
    Is(Owner(Some(2))),
];

#[test]
fn a_time_limit_ends_only_a_timed_lock_that_sleeps(rt: HostRuntime) -> Result<(), Fail> {
    assert_eq!(rt;
        first_wrong(rt.alloc(), (3, 1, &[]), &[&IS_WOKEN_BEFORE])?,
        None
    );
    Ok(())
}

/// The walk over its dead owner's list has marked the mutex, and hasn't woken thread 2 yet, whose time limit comes. The
/// wake finds nobody; thread 2's next lock takes the mutex as a dead owner left it. The cell is at 7.
static BEFORE_THE_WAKE: [Act; 15] = [
    Calls(1, LOCK, ALL),
    Calls(2, TIMED_LOCK, ALL),
    Happens(Dies(1)),
    Steps(1, 6),
    Is(Word(7, OWNER_DIED | WAITERS)),
    Is(Stands(2, Asleep)),
    Happens(Expires(2)),
    Is(Stands(1, Dying)),
    Steps(1, 1),
    Is(Stands(1, Reaped)),
    Is(Stands(2, Awake)),
    Happens(Returns(2, Reply::ETIMEDOUT)),
    Is(Owner(None)),
    Calls(2, TIMED_LOCK, ALL),
    Is(Word(7, OWNER_DIED | WAITERS | 2)),
];

#[test]
fn a_time_limit_comes_before_the_wake_of_a_walk(rt: HostRuntime) -> Result<(), Fail> {
    assert_eq!(rt;
        first_wrong(rt.alloc(), (2, 1, &[]), &[&BEFORE_THE_WAKE])?,
        None
    );
    Ok(())
}

/// A wait has no time limit, be it asleep on its condition variable or, moved there, on its mutex.
static WAITS: [Act; 9] = [
    Calls(1, LOCK, ALL),
    Calls(1, WAIT, ALL),
    Is(Sleep(10, &[1])),
    Refused(Expires(1)),
    Calls(2, LOCK, ALL),
    Calls(2, BROADCAST, ALL),
    Is(Sleep(7, &[1])),
    Refused(Expires(1)),
    Is(Sleep(7, &[1])),
];

#[test]
fn no_time_limit_comes_to_a_wait(rt: HostRuntime) -> Result<(), Fail> {
    assert_eq!(rt; first_wrong(rt.alloc(), (2, 1, &[0]), &[&WAITS])?, None);
    Ok(())
}

/// Thread 1 waits with a time limit, which comes: it locks its mutex again, in as many accesses as one that was woken, and
/// returns as its owner. The counter is at 10.
static LATE_WAIT: [Act; 12] = [
    Calls(1, LOCK, ALL),
    Calls(1, TIMED_WAIT, ALL),
    Is(Sleep(10, &[1])),
    Is(Owner(None)),
    Refused(WaitExpires(2)),
    Happens(WaitExpires(1)),
    Is(Stands(1, Awake)),
    Refused(WaitExpires(1)),
    Steps(1, 6),
    Happens(Returns(1, Reply::ETIMEDOUT)),
    Is(Stands(1, Resting)),
    Is(Owner(Some(1))),
];

#[test]
fn a_wait_ends_at_its_time_limit(rt: HostRuntime) -> Result<(), Fail> {
    assert_eq!(rt; first_wrong(rt.alloc(), (2, 1, &[0]), &[&LATE_WAIT])?, None);
    Ok(())
}

/// Moved to its mutex by a broadcast, a wait has no time limit any more: it returns OK. The cell is at 7.
static MOVED_WAIT: [Act; 10] = [
    Calls(1, LOCK, ALL),
    Calls(1, TIMED_WAIT, ALL),
    Calls(2, LOCK, ALL),
    Calls(2, BROADCAST, ALL),
    Is(Sleep(7, &[1])),
    Refused(WaitExpires(1)),
    Calls(2, UNLOCK, ALL),
    Steps(1, 6),
    Happens(Returns(1, Reply::OK)),
    Is(Owner(Some(1))),
];

#[test]
fn a_wait_that_was_moved_is_in_time(rt: HostRuntime) -> Result<(), Fail> {
    assert_eq!(rt;
        first_wrong(rt.alloc(), (2, 1, &[0]), &[&MOVED_WAIT])?,
        None
    );
    Ok(())
}

/// Out of time, thread 1 finds its mutex taken, and sleeps on it with no limit. The owner dies: that is what it is
/// recorded.
static LATE_BEHIND_A_DEATH: [Act; 14] = [
    Calls(1, LOCK, ALL),
    Calls(1, TIMED_WAIT, ALL),
    Calls(2, LOCK, ALL),
    Happens(WaitExpires(1)),
    Steps(1, 3),
    Is(Sleep(7, &[1])),
    Refused(WaitExpires(1)),
    Happens(Dies(2)),
    Steps(2, ALL),
    Is(Stands(2, Reaped)),
    Is(Stands(1, Awake)),
    Steps(1, 6),
    Happens(Returns(1, Reply::EOWNERDEAD)),
    Is(Owner(Some(1))),
];

#[test]
fn a_late_wait_hears_of_a_dead_owner(rt: HostRuntime) -> Result<(), Fail> {
    assert_eq!(rt;
        first_wrong(rt.alloc(), (2, 1, &[0]), &[&LATE_BEHIND_A_DEATH])?,
        None
    );
    Ok(())
}

const LATE: Op = Op::OnCondition(CondCall::TimedWait(0, Limit::Past));

/// A wait begins while its time limit is to come.
static OUT_OF_TIME: [Act; 2] = [RefusedCall(1, LATE), Is(Stands(1, Resting))];

#[test]
fn no_wait_begins_out_of_time(rt: HostRuntime) -> Result<(), Fail> {
    assert_eq!(rt;
        first_wrong(rt.alloc(), (1, 1, &[0]), &[&OUT_OF_TIME])?,
        None
    );
    Ok(())
}
