//! Which replies a state allows.

use crate::pending::{Pending, State};
use lockword::Reply;
use posixmutex::Operation;

/// Whether the call, which takes the mutex if it can, may return so from this state.
fn taken(call: &Pending, reply: Reply, state: &State) -> bool {
    let owns = state.owner == Some(call.thread);
    let tries = call.operation == Operation::TryLock;
    let timed = call.operation == Operation::TimedLock;
    let was_held = state.owner.is_some() || state.held >= call.begin;
    match reply {
        Reply::OK => owns && !state.inconsistent,
        Reply::EOWNERDEAD => owns && state.inconsistent,
        Reply::ENOTRECOVERABLE => !owns && (state.unusable || state.spoiled >= call.begin),
        Reply::EBUSY => tries && !owns && was_held,
        Reply::ETIMEDOUT => timed && !owns && was_held,
        Reply::XRACED => {
            let free = state.owner.is_none() && !state.unusable;
            tries && !owns && (free || state.free >= call.begin)
        }
        _ => false,
    }
}

/// The same of a lock, with a time limit or without, or of a trylock.
fn locked(call: &Pending, reply: Reply, state: &State) -> bool {
    if call.full {
        return reply == Reply::XHELD;
    }
    if !call.owned {
        return taken(call, reply, state);
    }
    match call.operation {
        Operation::TryLock => reply == Reply::EBUSY,
        _ => reply == Reply::EDEADLK,
    }
}

/// The same of a wait by the owner.
fn waited(call: &Pending, reply: Reply, state: &State) -> bool {
    if call.inconsistent {
        return reply == Reply::XSTATE;
    }
    let owns = state.owner == Some(call.thread);
    match reply {
        Reply::OK => owns && state.retaken && !state.inconsistent,
        Reply::ETIMEDOUT => {
            let timed = call.operation == Operation::TimedWait;
            timed && owns && state.retaken && !state.inconsistent
        }
        Reply::EOWNERDEAD => owns && state.retaken && state.inconsistent,
        Reply::ENOTRECOVERABLE => !owns && (state.unusable || state.spoiled >= call.begin),
        _ => false,
    }
}

/// The same of the owner's other calls.
fn owned(call: &Pending, reply: Reply, state: &State) -> bool {
    match call.operation {
        Operation::Unlock => reply == Reply::OK && state.owner != Some(call.thread),
        Operation::Consistent => {
            if call.inconsistent {
                reply == Reply::OK && !state.inconsistent
            } else {
                reply == Reply::EINVAL
            }
        }
        Operation::Wait | Operation::TimedWait => waited(call, reply, state),
        _ => reply == Reply::OK || reply == Reply::XFULL,
    }
}

/// Whether the call may return so from this state.
pub fn allows(call: &Pending, reply: Reply, state: &State) -> bool {
    match call.operation {
        Operation::Lock | Operation::TryLock | Operation::TimedLock => {
            locked(call, reply, state)
        }
        Operation::Reinit => reply == Reply::OK && call.has_acted(state),
        Operation::Death => false,
        _ => {
            if call.owned {
                owned(call, reply, state)
            } else {
                reply == Reply::EPERM
            }
        }
    }
}

/// The operation of the point by which a call is told so: a lock with a time limit is recorded as a lock, unless the
/// limit came; a wait that lost its mutex, as the lock that it ends with, and one with a time limit else as a wait.
pub fn told_as(operation: Operation, reply: Reply) -> Operation {
    match operation {
        Operation::TimedLock if reply != Reply::ETIMEDOUT => Operation::Lock,
        Operation::Wait | Operation::TimedWait if reply == Reply::ENOTRECOVERABLE => {
            Operation::Lock
        }
        Operation::TimedWait => Operation::Wait,
        _ => operation,
    }
}

/// Whether the reply's point changes nothing; it then stands wherever the state allows it.
pub fn only_looks(operation: Operation, reply: Reply) -> bool {
    match operation {
        Operation::Lock | Operation::TryLock | Operation::TimedLock | Operation::Wait => {
            reply != Reply::OK && reply != Reply::EOWNERDEAD
        }
        Operation::TimedWait => {
            !matches!(reply, Reply::OK | Reply::EOWNERDEAD | Reply::ETIMEDOUT)
        }
        Operation::Unlock | Operation::Consistent | Operation::Reinit => reply != Reply::OK,
        _ => true,
    }
}
