//! Each kind of line of a trace, once.

use facts::{Begun, Fact, Queue};
use lockword::{Reply, Tid};
use posixmutex::{Decision, Operation};
use std::test::Fail;

/// The step of a mutex's object that was answered `OK`.
fn decided(thread: Tid, mutex: u16, operation: Operation) -> Decision {
    Decision {
        thread,
        mutex,
        operation,
        reply: Reply::OK,
    }
}

const CALL: Begun = Begun {
    operation: Operation::Wait,
    mutex: 3,
    condition: Some(2),
};

#[derive(Clone, Copy, Debug, PartialEq, Eq)]
enum Kind {
    Point,
    /// Another thread's doing.
    Passive,
    Kill,
    Other,
}

/// Whether a fact of the thread tells of this step, if any, and is of this kind.
fn tells(thread: Tid, fact: Fact, decision: Option<Decision>, kind: Kind) -> bool {
    fact.thread() == thread
        && fact.decision() == decision
        && fact.decides() == decision.is_some()
        && fact.is_point() == (kind == Kind::Point)
        && fact.is_passive() == (kind == Kind::Passive)
        && fact.is_kill() == (kind == Kind::Kill)
}

#[test]
fn each_fact_is_of_its_kind(rt: HostRuntime) -> Result<(), Fail> {
    let thread = Tid::new(7).ok_or("no thread 7")?;
    let unlocks = Fact::Point(decided(thread, 3, Operation::Unlock));
    let unlock = Some(decided(thread, 3, Operation::Unlock));
    let death = Some(decided(thread, 5, Operation::Death));
    let sleeps = Fact::Sleep(thread, Queue::Condition(2));
    assert!(rt; tells(thread, Fact::Begin(thread, CALL), None, Kind::Other));
    assert!(rt; tells(thread, unlocks, unlock, Kind::Point));
    assert!(rt; tells(thread, Fact::Death(thread, 5), death, Kind::Other));
    assert!(rt; tells(thread, sleeps, None, Kind::Other));
    assert!(rt; tells(thread, Fact::Wake(thread), None, Kind::Passive));
    assert!(rt; tells(thread, Fact::Move(thread, 3), None, Kind::Passive));
    assert!(rt; tells(thread, Fact::Return(thread, Reply::OK), None, Kind::Other));
    assert!(rt; tells(thread, Fact::Kill(thread), None, Kind::Kill));
    assert!(rt; tells(thread, Fact::Reap(thread), None, Kind::Other));
    assert!(rt; tells(thread, Fact::Renew(thread), None, Kind::Other));
    Ok(())
}
