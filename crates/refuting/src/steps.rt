//! What may happen at a state: points that change the mutex, points that change nothing, and deaths.

ghost use Rattle.std.specs.Prelude.{◌≡◌, ◌↔◌, ◌+◌, ◌<◌, IsTrue, MatchOption};
ghost use Rattle.lockword.specs.Threads.{most_threads};
ghost use Rattle.posixmutex.specs.declared.object.Object.{Object};
ghost use Rattle.facts.specs.Chances.{is_anothers};
ghost use Rattle.refuting.specs.Steps.{HasFor, IsDue, IsNoted, MayChange, MayDie, MayLook, MayRelease, Sees, after_change};
ghost use Rattle.refuting.specs.Steps.{changed, died, next_change, next_look, over, told_as, with_sight};
ghost use Rattle.refuting.specs.States.{Covers};
ghost use Rattle.refuting.specs.Turns.{turn_at};

use crate::state::{Call, FIRST_CALL, IDS, Made, State};
use crate::turn::Turn;
use facts::Begun;
use lockword::{MOST_THREADS, Reply, Tid};
use posixmutex::{HELD_LIMIT, Object, Operation};

/// The operation of the next point that changes the mutex; None where there is none any more.
fn next_change(call: Operation, made: Made) -> Option<Operation>
    ensures { result ≡ next_change call made }
{
    match made {
        Made::Nothing => match call {
            Operation::Wait | Operation::TimedWait => Some(Operation::Unlock),
            Operation::TimedLock => Some(Operation::Lock),
            _ => Some(call),
        },
        Made::Released => Some(Operation::Lock),
        Made::Changed(_) => None,
    }
}

/// The operation of the first point by which a call is told so: a lock with a time limit is recorded as a lock,
/// unless the limit came; a wait with one as a wait.
fn told_as(call: Operation, reply: Reply) -> Operation
    ensures { result ≡ told_as call reply }
{
    match (call, reply) {
        (Operation::TimedLock, Reply::ETIMEDOUT) => Operation::TimedLock,
        (Operation::TimedLock, _) => Operation::Lock,
        (Operation::TimedWait, _) => Operation::Wait,
        _ => call,
    }
}

/// The operation of the next point that changes nothing and tells this reply.
fn next_look(call: Operation, made: Made, reply: Reply) -> Option<Operation>
    ensures { result ≡ next_look call made reply }
{
    match made {
        Made::Nothing => Some(told_as(call, reply)),
        Made::Released => Some(Operation::Lock),
        Made::Changed(_) => None,
    }
}

/// How far a point that changes the mutex brings a call.
fn after_change(call: Operation, made: Made, reply: Reply) -> Made
    ensures { result ≡ after_change call made reply }
{
    match (call, made) {
        (Operation::Wait | Operation::TimedWait, Made::Nothing) => Made::Released,
        _ => Made::Changed(reply),
    }
}

/// Whether the call may release the mutex: a wait releases a consistent one.
fn may_release(call: Operation, made: Made, object: &Object) -> bool
    ensures { IsTrue result ↔ MayRelease call made object.now }
{
    match (call, made) {
        (Operation::Wait | Operation::TimedWait, Made::Nothing) => !object.inconsistent,
        _ => true,
    }
}

/// What a thread's call makes of the state by a point that decides this reply and changes the mutex.
pub fn acted(state: &State, thread: Tid, call: Operation, reply: Reply) -> Option<State>
    ensures { MatchOption result ((o : Object) → ¬ MayChange state.now thread call reply o)
        (λ after. (o : Object) × MayChange state.now thread call reply o × (after ≡ changed state.now thread call reply o)) }
{
    let at = usize::from(thread.get());
    let made = state.calls[at].made;
    let operation = next_change(call, made)?;
    if !may_release(call, made, &state.object) {
        return None;
    }
    let object = state.object.step(0, thread, operation, reply)?;
    if object == state.object {
        return None;
    }
    let mut after = *state;
    after.object = object;
    after.calls[at] = Call {
        made: after_change(call, made, reply),
        seen: false,
    };
    Some(after)
}

/// Whether another thread is the owner.
fn is_anothers(thread: Tid, owner: Option<Tid>) -> bool
    ensures { result ≡ is_anothers thread owner }
{
    match owner {
        None => false,
        Some(owner) => owner != thread,
    }
}

/// Whether another thread owns the mutex, if the reply is that a time limit came.
fn is_due(state: &State, thread: Tid, reply: Reply) -> bool
    ensures { IsTrue result ↔ IsDue state.now thread reply }
{
    reply != Reply::ETIMEDOUT || is_anothers(thread, state.object.owner)
}

/// Whether the mutex has this reply for a thread's call now, by a point that changes nothing.
fn has_for(state: &State, thread: Tid, call: Operation, reply: Reply) -> bool
    ensures { IsTrue result ↔ HasFor state.now thread call reply }
{
    let at = usize::from(thread.get());
    let Some(operation) = next_look(call, state.calls[at].made, reply) else {
        return false;
    };
    let held = if reply == Reply::XHELD { HELD_LIMIT } else { 0 };
    match state.object.step(held, thread, operation, reply) {
        Some(object) => object == state.object,
        None => false,
    }
}

/// Whether a thread's call could get this reply now by a point that changes nothing.
fn looks(state: &State, thread: Tid, call: Operation, reply: Reply) -> bool
    ensures { IsTrue result ↔ MayLook state.now thread call reply }
{
    is_due(state, thread, reply) && has_for(state, thread, call, reply)
}

/// The thread that comes after this many.
pub fn thread_after(before: u8) -> Tid
    requires { before < most_threads }
    ensures { result ≡ before + 1 }
{
    match Tid::new(before + 1) {
        Some(thread) => thread,
        None => unreachable!(),
    }
}

/// Whether the thread is in a call on the mutex that could now get what it returns.
fn sees(state: &State, turns: &[Turn; IDS], mutex: u16, thread: Tid) -> bool
    ensures { IsTrue result ↔ Sees mutex (turn_at turns.now thread) state.now thread }
{
    let turn = turns[usize::from(thread.get())];
    match turn {
        Turn::Calling(call, Some(reply)) => {
            call.mutex == mutex && looks(state, thread, call.operation, reply)
        }
        _ => false,
    }
}

/// The state, in which the thread's call has seen that it could get what it returns.
fn with_sight(state: &State, thread: Tid) -> State
    ensures { result ≡ with_sight state.now thread }
{
    let at = usize::from(thread.get());
    let mut after = *state;
    after.calls[at].seen = true;
    after
}

/// The state, in which each call on the mutex that could now get what it returns has seen that.
pub fn noted(state: &State, turns: &[Turn; IDS], mutex: u16) -> State
    ensures notes { IsNoted mutex turns.now result }
    ensures covers { Covers result state.now }
{
    let mut after = *state;
    for before in 0..MOST_THREADS {
        let thread = thread_after(before);
        if sees(&after, turns, mutex, thread) {
            after = with_sight(&after, thread);
        }
    }
    after
}

/// What the owner's death makes of the state, if the thread owns the mutex. Its call, if it was doomed in one, has no
/// point any more.
pub fn died(state: &State, thread: Tid, in_call: bool) -> Option<State>
    ensures { MatchOption result ((o : Object) → ¬ MayDie state.now thread o)
        (λ after. (o : Object) × MayDie state.now thread o × (after ≡ died state.now thread in_call o)) }
{
    let object = state.object.step(0, thread, Operation::Death, Reply::OK)?;
    let mut after = *state;
    after.object = object;
    after.calls[usize::from(thread.get())] = over(in_call);
    Some(after)
}

/// A call that is over; or where there was none.
fn over(in_call: bool) -> Call
    ensures { result ≡ over in_call }
{
    if in_call {
        Call {
            made: Made::Changed(Reply::OK),
            seen: false,
        }
    } else {
        FIRST_CALL
    }
}
