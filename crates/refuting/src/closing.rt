//! Every state that some order of steps leads to.

ghost use Rattle.std.specs.Prelude.{◌≡◌, IfOk, IfSome};
ghost use Rattle.refuting.specs.States.{Covered};
ghost use Rattle.refuting.specs.Steps.{AreNoted, FollowsCall, FollowsDeath, FollowsReply, FollowsThread};
ghost use Rattle.refuting.specs.Steps.{Grows, IsClosed, IsFollowed};

use crate::state::{IDS, State, add};
use crate::steps::{acted, died, noted, thread_after};
use crate::turn::Turn;
use lockword::{MOST_THREADS, Reply, Tid};
use posixmutex::Operation;
use std::alloc::AllocError;

/// Adds a state, if there is one, in which its calls note what they see.
fn add_noted(
    states: &mut Vec<State>,
    turns: &[Turn; IDS],
    mutex: u16,
    after: Option<State>,
) -> Result<(), AllocError>
    requires { AreNoted mutex turns.now states.old.items }
    ensures covered { IfOk result (λ _. IfSome after (Covered states.new.items)) }
    ensures noted { AreNoted mutex turns.now states.new.items }
    ensures grows { Grows states.old.items states.new.items }
{
    match after {
        Some(state) => add(states, noted(&state, turns, mutex)),
        None => Ok(()),
    }
}

/// Adds what a thread's call may make of a state by a point with this reply that changes the mutex.
fn follow_reply(
    states: &mut Vec<State>,
    turns: &[Turn; IDS],
    mutex: u16,
    state: &State,
    thread: Tid,
    call: Operation,
    reply: Reply,
) -> Result<(), AllocError>
    requires { AreNoted mutex turns.now states.old.items }
    ensures follows { IfOk result (λ _. FollowsReply states.new.items state.now thread call reply) }
    ensures noted { AreNoted mutex turns.now states.new.items }
    ensures grows { Grows states.old.items states.new.items }
{
    add_noted(states, turns, mutex, acted(state, thread, call, reply))
}

/// Adds what a thread's call may make of a state by a point that changes the mutex.
fn follow_call(
    states: &mut Vec<State>,
    turns: &[Turn; IDS],
    mutex: u16,
    state: &State,
    thread: Tid,
    turn: Turn,
) -> Result<(), AllocError>
    requires { AreNoted mutex turns.now states.old.items }
    ensures follows { IfOk result (λ _. FollowsCall mutex turn states.new.items state.now thread) }
    ensures noted { AreNoted mutex turns.now states.new.items }
    ensures grows { Grows states.old.items states.new.items }
{
    let Some(call) = turn.call_on(mutex) else {
        return Ok(());
    };
    follow_reply(
        states,
        turns,
        mutex,
        state,
        thread,
        call.operation,
        Reply::OK,
    )?;
    follow_reply(
        states,
        turns,
        mutex,
        state,
        thread,
        call.operation,
        Reply::EOWNERDEAD,
    )
}

/// Adds what the thread's death may make of a state.
fn follow_death(
    states: &mut Vec<State>,
    turns: &[Turn; IDS],
    mutex: u16,
    state: &State,
    thread: Tid,
    turn: Turn,
) -> Result<(), AllocError>
    requires { AreNoted mutex turns.now states.old.items }
    ensures follows { IfOk result (λ _. FollowsDeath turn states.new.items state.now thread) }
    ensures noted { AreNoted mutex turns.now states.new.items }
    ensures grows { Grows states.old.items states.new.items }
{
    match turn {
        Turn::Dying(call) => {
            add_noted(states, turns, mutex, died(state, thread, call.is_some()))
        }
        Turn::Resting | Turn::Calling(..) | Turn::Reaped => Ok(()),
    }
}

/// Adds what may follow a state by a point or by the death of this thread.
fn follow_thread(
    states: &mut Vec<State>,
    turns: &[Turn; IDS],
    mutex: u16,
    state: &State,
    thread: Tid,
) -> Result<(), AllocError>
    requires { AreNoted mutex turns.now states.old.items }
    ensures follows { IfOk result (λ _. FollowsThread mutex turns.now states.new.items state.now thread) }
    ensures noted { AreNoted mutex turns.now states.new.items }
    ensures grows { Grows states.old.items states.new.items }
{
    let turn = turns[usize::from(thread.get())];
    follow_call(states, turns, mutex, state, thread, turn)?;
    follow_death(states, turns, mutex, state, thread, turn)
}

/// Adds what may follow a state.
fn follow(
    states: &mut Vec<State>,
    turns: &[Turn; IDS],
    mutex: u16,
    state: &State,
) -> Result<(), AllocError>
    requires { AreNoted mutex turns.now states.old.items }
    ensures followed { IfOk result (λ _. IsFollowed mutex turns.now states.new.items state.now) }
    ensures noted { AreNoted mutex turns.now states.new.items }
    ensures grows { Grows states.old.items states.new.items }
{
    for before in 0..MOST_THREADS {
        follow_thread(states, turns, mutex, state, thread_after(before))?;
    }
    Ok(())
}

/// How many states a mutex may have: chosen, far more than it has but where many threads are doomed in calls on it.
const MOST_STATES: usize = 4_096;

/// Why nothing is refuted.
#[derive(Clone, Copy, Debug, PartialEq, Eq)]
pub enum Halt {
    /// A mutex has too many states.
    Crowded,
    /// There is no memory.
    Memory,
}

impl From<AllocError> for Halt {
    fn from(_: AllocError) -> Halt {
        Halt::Memory
    }
}

/// Adds every state that points and deaths lead to from these.
pub fn close(states: &mut Vec<State>, turns: &[Turn; IDS], mutex: u16) -> Result<(), Halt>
    requires { AreNoted mutex turns.now states.old.items }
    ensures closed { IfOk result (λ _. IsClosed mutex turns.now states.new.items) }
    ensures grows { Grows states.old.items states.new.items }
{
    for at in 0..MOST_STATES {
        if at >= states.len() {
            return Ok(());
        }
        let state = states[at];
        follow(states, turns, mutex, &state)?;
    }
    Err(Halt::Crowded)
}
