//! Places between two steps where a certificate can be cut: what threads are in can be brought about again.

use certificates::{Made, Phase, State};
use facts::Begun;
use lockword::{Reply, Tid};
use posixmutex::{Object, Operation};

/// The thread with this id.
pub fn thread_at(id: usize) -> Option<Tid> {
    match u8::try_from(id) {
        Ok(id) => Tid::new(id),
        Err(_) => None,
    }
}

/// The mutex at this place.
pub fn mutex_at(place: usize) -> Option<u16> {
    match u16::try_from(place) {
        Ok(mutex) => Some(mutex),
        Err(_) => None,
    }
}

/// An owner of it died, and nobody has declared it consistent or reinitialised it since.
pub fn is_spoiled(object: &Object) -> bool {
    object.inconsistent || object.unusable
}

/// The mutex with this number; none is as one that nobody has locked yet.
pub fn object_at(objects: &[Object], mutex: u16) -> Object {
    match objects.get(usize::from(mutex)) {
        Some(object) => *object,
        None => Object::new(),
    }
}

/// The call has released its mutex: a wait that waits, or an unlock that hasn't returned.
pub fn has_released(call: Begun, made: Made) -> bool {
    match made {
        Made::Nothing => false,
        Made::Released => true,
        Made::Decided(reply) => call.operation == Operation::Unlock && reply == Reply::OK,
    }
}

/// The call has taken its mutex, and hasn't returned.
pub fn has_taken(call: Begun, made: Made) -> bool {
    match call.operation {
        Operation::Lock | Operation::TryLock | Operation::TimedLock => {
            made == Made::Decided(Reply::OK) || made == Made::Decided(Reply::EOWNERDEAD)
        }
        _ => false,
    }
}

/// The operation of the first point by which a call is told so: a lock with a time limit is recorded as a lock,
/// unless the limit came; a wait with one as a wait.
pub fn told_as(call: Operation, reply: Reply) -> Operation {
    match call {
        Operation::TimedLock if reply != Reply::ETIMEDOUT => Operation::Lock,
        Operation::TimedWait => Operation::Wait,
        _ => call,
    }
}

/// Whether another thread owns the mutex.
fn is_anothers(object: &Object, thread: Tid) -> bool {
    match object.owner {
        None => false,
        Some(owner) => owner != thread,
    }
}

/// Whether nobody owns the mutex of the thread's call now, and another thread has owned it since the call began: so a
/// time limit may be recorded, which the same call begun again may not be recorded.
fn has_missed(state: &State, thread: Tid, mutex: u16) -> bool {
    if object_at(&state.objects, mutex).owner.is_some() {
        return false;
    }
    let begun = state.begun.get(usize::from(thread.get()));
    let freed = state.freed.get(usize::from(mutex));
    match (begun, freed) {
        (Some(begun), Some(freed)) => *begun < *freed,
        _ => false,
    }
}

/// A call of which these points are made can be brought so far again, with its mutex as it is.
fn suits_call(object: Object, held: u16, thread: Tid, call: Begun, made: Made) -> bool {
    let Made::Decided(reply) = made else {
        return true;
    };
    if has_taken(call, made) {
        return true;
    }
    if has_released(call, made) {
        return !is_spoiled(&object);
    }
    if reply == Reply::ETIMEDOUT && !is_anothers(&object, thread) {
        return false;
    }
    // it would be decided so again, and changes nothing
    let operation = told_as(call.operation, reply);
    object.step(held, thread, operation, reply) == Some(object)
}

fn suits_thread(state: &State, id: usize) -> bool {
    if id >= state.phases.len() || id >= state.held.len() {
        return false;
    }
    let Phase::Calling(call, made) = state.phases[id] else {
        return true;
    };
    match thread_at(id) {
        Some(thread) => {
            if call.operation == Operation::TimedLock
                && made == Made::Nothing
                && has_missed(state, thread, call.mutex)
            {
                return false;
            }
            let object = object_at(&state.objects, call.mutex);
            suits_call(object, state.held[id], thread, call, made)
        }
        None => false,
    }
}

/// Whether the thread is in a call that has released its mutex.
pub fn is_releaser(phase: &Phase) -> bool {
    match *phase {
        Phase::Calling(call, made) => has_released(call, made),
        _ => false,
    }
}

/// A thread that is in no call which has released its mutex, if there is one.
pub fn idle(state: &State) -> Option<Tid> {
    for id in 1..state.phases.len() {
        if !is_releaser(&state.phases[id]) {
            return thread_at(id);
        }
    }
    None
}

/// Whether a certificate can be cut where its steps left threads and mutexes so: each call has no point yet, or has
/// taken or released its mutex, or its reply is one that its mutex has for it still; some thread has released none; and
/// no lock with a time limit has waited for a mutex that nobody owns any more.
pub fn suits(state: &State) -> bool {
    for id in 0..state.phases.len() {
        if !suits_thread(state, id) {
            return false;
        }
    }
    idle(state).is_some()
}
