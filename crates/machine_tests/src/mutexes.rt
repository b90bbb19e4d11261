//! The table of the object, and the words of its operations.

use crate::cells::REPLIES;
use Operation::{
    Broadcast, Consistent, Death, Lock, Reinit, Signal, TimedLock, TimedWait, TryLock, Unlock, Wait,
};
use State::{Bereaved, Free, Inherited, Mine, Theirs, Unusable};
use lockword::{Reply, Tid};
use posixmutex::{HELD_LIMIT, Object, Operation, ParseOperationError, operations_are_read_back};
use std::test::Fail;

/// Every operation, and its word.
static OPERATIONS: [(Operation, &str); 11] = [
    (Lock, "lock"),
    (TryLock, "trylock"),
    (TimedLock, "timedlock"),
    (Unlock, "unlock"),
    (Consistent, "consistent"),
    (Wait, "wait"),
    (TimedWait, "timedwait"),
    (Signal, "signal"),
    (Broadcast, "broadcast"),
    (Death, "death"),
    (Reinit, "reinit"),
];

/// A mutex as one of its threads sees it.
#[derive(Clone, Copy, Debug, PartialEq, Eq)]
enum State {
    Free,
    Bereaved,
    Mine,
    Inherited,
    Theirs,
    Unusable,
}

static STATES: [State; 6] = [Free, Bereaved, Mine, Inherited, Theirs, Unusable];

/// From the old state, the operation may have the reply, and leaves the new one.
#[derive(Clone, Copy)]
struct Row(State, Operation, Reply, State);

static TABLE: [Row; 55] = [
    Row(Free, Lock, Reply::OK, Mine),
    Row(Bereaved, Lock, Reply::EOWNERDEAD, Inherited),
    Row(Mine, Lock, Reply::EDEADLK, Mine),
    Row(Inherited, Lock, Reply::EDEADLK, Inherited),
    Row(Unusable, Lock, Reply::ENOTRECOVERABLE, Unusable),
    Row(Free, TryLock, Reply::OK, Mine),
    Row(Free, TryLock, Reply::XRACED, Free),
    Row(Bereaved, TryLock, Reply::EOWNERDEAD, Inherited),
    Row(Bereaved, TryLock, Reply::XRACED, Bereaved),
    Row(Mine, TryLock, Reply::EBUSY, Mine),
    Row(Inherited, TryLock, Reply::EBUSY, Inherited),
    Row(Theirs, TryLock, Reply::EBUSY, Theirs),
    Row(Unusable, TryLock, Reply::ENOTRECOVERABLE, Unusable),
    Row(Free, TimedLock, Reply::ETIMEDOUT, Free),
    Row(Bereaved, TimedLock, Reply::ETIMEDOUT, Bereaved),
    Row(Mine, TimedLock, Reply::ETIMEDOUT, Mine),
    Row(Inherited, TimedLock, Reply::ETIMEDOUT, Inherited),
    Row(Theirs, TimedLock, Reply::ETIMEDOUT, Theirs),
    Row(Unusable, TimedLock, Reply::ETIMEDOUT, Unusable),
    Row(Mine, Unlock, Reply::OK, Free),
    Row(Inherited, Unlock, Reply::OK, Unusable),
    Row(Free, Unlock, Reply::EPERM, Free),
    Row(Bereaved, Unlock, Reply::EPERM, Bereaved),
    Row(Theirs, Unlock, Reply::EPERM, Theirs),
    Row(Unusable, Unlock, Reply::EPERM, Unusable),
    Row(Inherited, Consistent, Reply::OK, Mine),
    Row(Mine, Consistent, Reply::EINVAL, Mine),
    Row(Free, Consistent, Reply::EPERM, Free),
    Row(Bereaved, Consistent, Reply::EPERM, Bereaved),
    Row(Theirs, Consistent, Reply::EPERM, Theirs),
    Row(Unusable, Consistent, Reply::EPERM, Unusable),
    Row(Inherited, Wait, Reply::XSTATE, Inherited),
    Row(Free, Wait, Reply::EPERM, Free),
    Row(Bereaved, Wait, Reply::EPERM, Bereaved),
    Row(Theirs, Wait, Reply::EPERM, Theirs),
    Row(Unusable, Wait, Reply::EPERM, Unusable),
    Row(Mine, Signal, Reply::OK, Mine),
    Row(Mine, Signal, Reply::XFULL, Mine),
    Row(Inherited, Signal, Reply::OK, Inherited),
    Row(Inherited, Signal, Reply::XFULL, Inherited),
    Row(Free, Signal, Reply::EPERM, Free),
    Row(Bereaved, Signal, Reply::EPERM, Bereaved),
    Row(Theirs, Signal, Reply::EPERM, Theirs),
    Row(Unusable, Signal, Reply::EPERM, Unusable),
    Row(Mine, Broadcast, Reply::OK, Mine),
    Row(Mine, Broadcast, Reply::XFULL, Mine),
    Row(Inherited, Broadcast, Reply::OK, Inherited),
    Row(Inherited, Broadcast, Reply::XFULL, Inherited),
    Row(Free, Broadcast, Reply::EPERM, Free),
    Row(Bereaved, Broadcast, Reply::EPERM, Bereaved),
    Row(Theirs, Broadcast, Reply::EPERM, Theirs),
    Row(Unusable, Broadcast, Reply::EPERM, Unusable),
    Row(Mine, Death, Reply::OK, Bereaved),
    Row(Inherited, Death, Reply::OK, Bereaved),
    Row(Unusable, Reinit, Reply::OK, Free),
];

// What the table says of an operation; None where no row has it.
fn told(old: State, operation: Operation, reply: Reply) -> Option<State> {
    for row in &TABLE {
        if row.0 == old && row.1 == operation && row.2 == reply {
            return Some(row.3);
        }
    }
    None
}

// What holds for a thread that owns as many mutexes as it may.
fn told_at_limit(old: State, operation: Operation, reply: Reply) -> Option<State> {
    match (operation, reply) {
        (Lock | TryLock | TimedLock, Reply::XHELD) => Some(old),
        (Lock | TryLock | TimedLock, _) => None,
        _ => told(old, operation, reply),
    }
}

/// The object of a mutex that has this owner, and is inconsistent or not.
fn held(owner: Option<Tid>, inconsistent: bool) -> Object {
    Object {
        owner,
        inconsistent,
        unusable: false,
    }
}

fn object(state: State, thread: Tid, other: Tid) -> Object {
    match state {
        Free => Object::new(),
        Bereaved => held(None, true),
        Mine => held(Some(thread), false),
        Inherited => held(Some(thread), true),
        Theirs => held(Some(other), false),
        Unusable => Object {
            owner: None,
            inconsistent: false,
            unusable: true,
        },
    }
}

/// A step of an object in the old state, of a thread that holds this many mutexes.
#[derive(Clone, Copy)]
struct Asked {
    old: State,
    held: u16,
    operation: Operation,
    reply: Reply,
}

/// Whether it leaves the new state, or isn't made where there is none.
fn leaves(asked: Asked, new: Option<State>, thread: Tid, other: Tid) -> bool {
    let old = object(asked.old, thread, other);
    match (
        old.step(asked.held, thread, asked.operation, asked.reply),
        new,
    ) {
        (Some(left), Some(new)) => left == object(new, thread, other),
        (None, None) => true,
        _ => false,
    }
}

/// Whether the object steps by its table, however many mutexes its thread holds.
fn steps(old: State, operation: Operation, reply: Reply, thread: Tid, other: Tid) -> bool {
    let below = told(old, operation, reply);
    let at = told_at_limit(old, operation, reply);
    let asked = Asked {
        old,
        held: 0,
        operation,
        reply,
    };
    leaves(asked, below, thread, other)
        && leaves(
            Asked {
                held: 2047,
                ..asked
            },
            below,
            thread,
            other,
        )
        && leaves(
            Asked {
                held: 2048,
                ..asked
            },
            at,
            thread,
            other,
        )
}

/// The name of the first reply that the operation doesn't have by the table.
fn first_wrong_reply(
    old: State,
    operation: Operation,
    thread: Tid,
    other: Tid,
) -> Option<&'static str> {
    for (reply, _number, name) in &REPLIES {
        if !steps(old, operation, *reply, thread, other) {
            return Some(*name);
        }
    }
    None
}

#[test]
fn an_object_steps_by_its_table(rt: HostRuntime) -> Result<(), Fail> {
    let thread = Tid::new(1).ok_or("no thread 1")?;
    let other = Tid::new(2).ok_or("no thread 2")?;
    for old in &STATES {
        for (operation, word) in &OPERATIONS {
            let wrong = first_wrong_reply(*old, *operation, thread, other);
            assert_eq!(rt; wrong, None, "this reply, of {word} of {old:?}");
        }
    }
    assert!(rt; HELD_LIMIT == 2048);
    Ok(())
}

/// What a text is read as.
fn read(text: &str) -> Option<Operation> {
    text.parse().ok()
}

fn has_word(operation: Operation, word: &str) -> bool {
    operation.word() == word && read(word) == Some(operation)
}

#[test]
fn words_of_operations(rt: HostRuntime) {
    for (operation, word) in &OPERATIONS {
        assert!(rt; has_word(*operation, *word), "{word}");
    }
    operations_are_read_back();
}

/// Texts that are no operation's word.
static NO_OPERATIONS: [&str; 5] = ["", "Lock", "lock ", "try_lock", "begin"];

#[test]
fn other_texts_are_no_operations(rt: HostRuntime) -> Result<(), Fail> {
    for text in &NO_OPERATIONS {
        assert!(rt; read(*text).is_none(), "of {text}");
    }
    let printed = ParseOperationError.to_string(rt.alloc())?;
    assert!(rt; printed.as_str() == "no operation has this word");
    Ok(())
}
