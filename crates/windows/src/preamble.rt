//! The lines before a window's own, which bring threads and mutexes to where the window before it left them.
//!
//! A thread takes what it owns before it begins the call that it is in; a mutex becomes unusable before its owner takes
//! it, and released by whoever released it before it becomes unusable. Such an order there is: that of the certificate
//! itself.

use crate::place::{
    has_released, has_taken, idle, is_releaser, is_spoiled, mutex_at, thread_at, told_as,
};
use certificates::{Made, Phase, State};
use facts::{Begun, Fact};
use histories::Entry;
use lockword::{Reply, Tid};
use posixmutex::{Decision, Object, Operation};
use std::alloc::{AllocError, Global};

fn tell(lines: &mut Vec<Entry>, fact: Fact) -> Result<(), AllocError> {
    lines.push(Entry::Told(fact))?;
    Ok(())
}

fn decide(
    lines: &mut Vec<Entry>,
    thread: Tid,
    mutex: u16,
    operation: Operation,
    reply: Reply,
) -> Result<(), AllocError> {
    tell(
        lines,
        Fact::Point(Decision {
            thread,
            mutex,
            operation,
            reply,
        }),
    )
}

/// A call on a mutex, from its begin to its return.
fn make(
    lines: &mut Vec<Entry>,
    thread: Tid,
    mutex: u16,
    operation: Operation,
    reply: Reply,
) -> Result<(), AllocError> {
    let call = Begun {
        operation,
        mutex,
        condition: None,
    };
    tell(lines, Fact::Begin(thread, call))?;
    decide(lines, thread, mutex, operation, reply)?;
    tell(lines, Fact::Return(thread, reply))
}

/// A call that has released its mutex: its thread takes that first.
fn release(lines: &mut Vec<Entry>, thread: Tid, call: Begun) -> Result<(), AllocError> {
    make(lines, thread, call.mutex, Operation::Lock, Reply::OK)?;
    tell(lines, Fact::Begin(thread, call))?;
    decide(lines, thread, call.mutex, Operation::Unlock, Reply::OK)
}

/// The thread, which owns nothing, takes the mutex and dies. Whoever unlocks it then, having declared nothing, makes it
/// unusable.
fn spoil(
    lines: &mut Vec<Entry>,
    thread: Tid,
    mutex: u16,
    object: &Object,
) -> Result<(), AllocError> {
    make(lines, thread, mutex, Operation::Lock, Reply::OK)?;
    tell(lines, Fact::Kill(thread))?;
    tell(lines, Fact::Death(thread, mutex))?;
    tell(lines, Fact::Reap(thread))?;
    tell(lines, Fact::Renew(thread))?;
    if object.unusable {
        make(lines, thread, mutex, Operation::Lock, Reply::EOWNERDEAD)?;
        make(lines, thread, mutex, Operation::Unlock, Reply::OK)?;
    }
    Ok(())
}

/// Whether the thread is in the call that took this mutex.
fn is_taking(phase: &Phase, mutex: u16) -> bool {
    match *phase {
        Phase::Calling(call, made) => call.mutex == mutex && has_taken(call, made),
        _ => false,
    }
}

/// The owner of a mutex takes it, unless it is in the call that did.
fn take(
    lines: &mut Vec<Entry>,
    phase: &Phase,
    thread: Tid,
    mutex: u16,
    object: &Object,
) -> Result<(), AllocError> {
    if is_taking(phase, mutex) {
        return Ok(());
    }
    let reply = if object.inconsistent {
        Reply::EOWNERDEAD
    } else {
        Reply::OK
    };
    make(lines, thread, mutex, Operation::Lock, reply)
}

/// What the thread is in.
fn phase_of(state: &State, thread: Tid) -> Phase {
    match state.phases.get(usize::from(thread.get())) {
        Some(phase) => *phase,
        None => Phase::Resting,
    }
}

/// Whose mutexes are meant: a thread's, or those of all others than releasers, be they nobody's.
#[derive(Drop)]
enum Whose {
    Of(Tid),
    Rest,
}

fn is_meant(state: &State, whose: &Whose, object: &Object) -> bool {
    match object.owner {
        Some(owner) => match *whose {
            Whose::Of(thread) => owner == thread,
            Whose::Rest => !is_releaser(&phase_of(state, owner)),
        },
        None => matches!(*whose, Whose::Rest),
    }
}

/// Makes such mutexes unusable, where they become so.
fn add_spoiled(
    lines: &mut Vec<Entry>,
    state: &State,
    whose: &Whose,
    by: Tid,
) -> Result<(), AllocError> {
    for at in 0..state.objects.len() {
        let object = state.objects[at];
        if !is_spoiled(&object) || !is_meant(state, whose, &object) {
            continue;
        }
        if let Some(mutex) = mutex_at(at) {
            spoil(lines, by, mutex, &object)?;
        }
    }
    Ok(())
}

/// The owner of a mutex takes it, if there is one.
fn add_owner(
    lines: &mut Vec<Entry>,
    state: &State,
    mutex: u16,
    object: &Object,
) -> Result<(), AllocError> {
    match object.owner {
        Some(owner) => take(lines, &phase_of(state, owner), owner, mutex, object),
        None => Ok(()),
    }
}

/// The owners of such mutexes take them, be they dead by now.
fn add_owned(lines: &mut Vec<Entry>, state: &State, whose: &Whose) -> Result<(), AllocError> {
    for at in 0..state.objects.len() {
        let object = state.objects[at];
        if !is_meant(state, whose, &object) {
            continue;
        }
        if let Some(mutex) = mutex_at(at) {
            add_owner(lines, state, mutex, &object)?;
        }
    }
    Ok(())
}

/// Brings a thread into its call, which has released its mutex.
fn settle(
    lines: &mut Vec<Entry>,
    state: &State,
    thread: Tid,
    call: Begun,
) -> Result<(), AllocError> {
    let own = Whose::Of(thread);
    add_spoiled(lines, state, &own, thread)?;
    add_owned(lines, state, &own)?;
    release(lines, thread, call)
}

/// Whether the thread owns a mutex that this one, which isn't settled, has released.
fn waits_for(state: &State, settled: &[bool], thread: Tid, id: usize) -> bool {
    if id >= state.phases.len() || id >= settled.len() || settled[id] {
        return false;
    }
    match state.phases[id] {
        Phase::Calling(call, made) if has_released(call, made) => {
            match state.objects.get(usize::from(call.mutex)) {
                Some(object) => object.owner == Some(thread),
                None => false,
            }
        }
        _ => false,
    }
}

/// Whether whoever released a mutex that the thread owns is settled.
fn is_ready(state: &State, settled: &[bool], thread: Tid) -> bool {
    for id in 0..state.phases.len() {
        if waits_for(state, settled, thread, id) {
            return false;
        }
    }
    true
}

/// The call of this thread, if that is a releaser that isn't settled, and now can be.
fn next_call(state: &State, settled: &[bool], id: usize) -> Option<(Tid, Begun)> {
    if id >= state.phases.len() || id >= settled.len() || settled[id] {
        return None;
    }
    let thread = thread_at(id)?;
    match state.phases[id] {
        Phase::Calling(call, made)
            if has_released(call, made) && is_ready(state, settled, thread) => {
            Some((thread, call))
        }
        _ => None,
    }
}

/// Settles the releasers that can be, one after the other.
fn add_ready(
    lines: &mut Vec<Entry>,
    state: &State,
    settled: &mut Vec<bool>,
) -> Result<(), AllocError> {
    for id in 0..settled.len() {
        if let Some((thread, call)) = next_call(state, settled, id) {
            settle(lines, state, thread, call)?;
            settled[id] = true;
        }
    }
    Ok(())
}

/// The calls that have released their mutexes. In each round one at least can be settled.
fn add_releases(alloc: Global, lines: &mut Vec<Entry>, state: &State) -> Result<(), AllocError> {
    let mut settled = vec![in alloc; false; state.phases.len()]?;
    for _ in 0..state.phases.len() {
        add_ready(lines, state, &mut settled)?;
    }
    Ok(())
}

/// A call that has taken its mutex.
fn add_taking(lines: &mut Vec<Entry>, thread: Tid, phase: Phase) -> Result<(), AllocError> {
    match phase {
        Phase::Calling(call, Made::Decided(reply)) if has_taken(call, Made::Decided(reply)) => {
            tell(lines, Fact::Begin(thread, call))?;
            let operation = told_as(call.operation, reply);
            decide(lines, thread, call.mutex, operation, reply)
        }
        _ => Ok(()),
    }
}

/// A call that has no point yet, or one that changed nothing.
fn add_call(
    lines: &mut Vec<Entry>,
    thread: Tid,
    call: Begun,
    made: Made,
) -> Result<(), AllocError> {
    if has_released(call, made) || has_taken(call, made) {
        return Ok(());
    }
    tell(lines, Fact::Begin(thread, call))?;
    match made {
        Made::Decided(reply) => {
            let operation = told_as(call.operation, reply);
            decide(lines, thread, call.mutex, operation, reply)
        }
        Made::Nothing | Made::Released => Ok(()),
    }
}

/// What a thread is in that changes no mutex: a call, or death.
fn add_thread(lines: &mut Vec<Entry>, thread: Tid, phase: Phase) -> Result<(), AllocError> {
    match phase {
        Phase::Resting => Ok(()),
        Phase::Calling(call, made) => add_call(lines, thread, call, made),
        Phase::Dying => tell(lines, Fact::Kill(thread)),
        Phase::Reaped => {
            tell(lines, Fact::Kill(thread))?;
            tell(lines, Fact::Reap(thread))
        }
    }
}

/// What threads are in, except for releasers, each of whom is in its call by now.
fn add_threads(lines: &mut Vec<Entry>, state: &State) -> Result<(), AllocError> {
    for id in 0..state.phases.len() {
        if let Some(thread) = thread_at(id) {
            add_taking(lines, thread, state.phases[id])?;
        }
    }
    for id in 0..state.phases.len() {
        if let Some(thread) = thread_at(id) {
            add_thread(lines, thread, state.phases[id])?;
        }
    }
    Ok(())
}

/// Lines after which threads and mutexes are so, where that suits.
pub fn preamble(alloc: Global, state: &State) -> Result<Vec<Entry>, AllocError> {
    let mut lines = Vec::new(alloc);
    add_releases(alloc, &mut lines, state)?;
    if let Some(thread) = idle(state) {
        add_spoiled(&mut lines, state, &Whose::Rest, thread)?;
    }
    add_owned(&mut lines, state, &Whose::Rest)?;
    add_threads(&mut lines, state)?;
    Ok(lines)
}
