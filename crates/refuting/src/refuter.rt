//! The states of one mutex, line after line.

ghost use Rattle.std.specs.Prelude.{ℕ, ◌≡◌, ◌↔◌, [], List, length, IfOk, IsTrue, MatchOption};
ghost use Rattle.refuting.specs.States.{ids};
ghost use Rattle.histories.specs.declared.entry.Entry.{Entry};
ghost use Rattle.refuting.specs.Following.{Allows, Follows, MayBeTold, Retells, Takes, renewed, told};
ghost use Rattle.facts.specs.Lives.{MayReturn};
ghost use Rattle.refuting.specs.Steps.{IsClosed};
ghost use Rattle.refuting.specs.Turns.{turn_at};
ghost use Rattle.refuting.specs.Counts.{count_at};

use crate::closing::{Halt, close};
use crate::counts::{count_after, is_within};
use crate::state::{Call, FIRST_CALL, FIRST_STATE, IDS, Made, State, add};
use crate::steps::noted;
use crate::turn::{Turn, thread_of};
use facts::Fact;
use histories::Entry;
use lockword::{Reply, Tid};
use posixmutex::Operation;
use std::alloc::{AllocError, Global};

/// What is known of all threads and of one mutex after some lines.
#[derive(Drop)]
pub struct Refuter {
    pub mutex: u16,
    /// Indexed by the threads' ids.
    pub turns: [Turn; IDS],
    /// How many mutexes each thread owns, as its lines say.
    pub held: [u16; IDS],
    /// Every state that some order of steps leads to.
    pub states: Vec<State>,
}

/// Whether a call may return the reply whose last point replied as the other says: a wait with a time limit may be out
/// of time.
fn may_return(operation: Operation, decided: Reply, reply: Reply) -> bool
    ensures { IsTrue result ↔ MayReturn operation decided reply }
{
    match operation {
        Operation::TimedWait => {
            reply == decided || (decided == Reply::OK && reply == Reply::ETIMEDOUT)
        }
        _ => reply == decided,
    }
}

/// Whether a call that has come so far may return so.
fn returns(operation: Operation, call: Call, reply: Reply) -> bool
    ensures { IsTrue result ↔ MayBeTold operation call reply }
{
    match call.made {
        Made::Changed(decided) => may_return(operation, decided, reply),
        Made::Nothing | Made::Released => call.seen,
    }
}

/// The state, where the thread has no call any more, or a new one.
fn renewed(state: &State, thread: Tid) -> State
    ensures { result ≡ renewed state.now thread }
{
    let mut after = *state;
    after.calls[usize::from(thread.get())] = FIRST_CALL;
    after
}

/// What a line makes of a state; None where the state doesn't allow it. The line's thread was at this turn.
fn told(state: &State, entry: &Entry, turn: Turn, mutex: u16) -> Option<State>
    ensures { MatchOption result (¬ Allows mutex turn state.now entry.now)
        (λ after. Allows mutex turn state.now entry.now × (after ≡ told mutex turn state.now entry.now)) }
{
    let Entry::Told(fact) = *entry else {
        return Some(*state);
    };
    match fact {
        Fact::Begin(thread, call) if call.mutex == mutex => Some(renewed(state, thread)),
        Fact::Return(thread, reply) => match turn.call_on(mutex) {
            Some(call) => {
                let at = usize::from(thread.get());
                if returns(call.operation, state.calls[at], reply) {
                    Some(renewed(state, thread))
                } else {
                    None
                }
            }
            None => Some(*state),
        },
        Fact::Kill(thread) => Some(renewed(state, thread)),
        Fact::Reap(thread) => {
            if state.object.owner == Some(thread) {
                None
            } else {
                Some(renewed(state, thread))
            }
        }
        _ => Some(*state),
    }
}

/// What a line makes of the states that allow it, and all that may follow.
fn retold(
    alloc: Global,
    states: &[State],
    entry: &Entry,
    turn: Turn,
    turns: &[Turn; IDS],
    mutex: u16,
) -> Result<Vec<State>, Halt>
    ensures retells { IfOk result (λ after. Retells mutex turn entry.now states.now after.items) }
    ensures closed { IfOk result (λ after. IsClosed mutex turns.now after.items) }
{
    let mut after = Vec::new(alloc);
    for state in states {
        if let Some(told) = told(state, entry, turn, mutex) {
            add(&mut after, noted(&told, turns, mutex))?;
        }
    }
    close(&mut after, turns, mutex)?;
    Ok(after)
}

/// All threads rest.
fn resting() -> [Turn; IDS]
    ensures each { (t : ℕ) → turn_at result t ≡ Turn.Resting }
    ensures count { length result ≡ ids }
{
    [Turn::Resting; IDS]
}

/// All threads own nothing.
fn owning_nothing() -> [u16; IDS]
    ensures each { (t : ℕ) → count_at result t ≡ 0 }
    ensures count { length result ≡ ids }
{
    [0; IDS]
}

impl Refuter {
    /// Before the first line.
    pub fn new(alloc: Global, mutex: u16) -> Result<Refuter, AllocError>
        ensures mutex { IfOk result (λ r. r.mutex ≡ mutex) }
        ensures follows { IfOk result (λ r. (n : ℕ) (future : List Entry) → Follows n [] future r) }
    {
        let turns = resting();
        let mut states = Vec::new(alloc);
        states.push(FIRST_STATE)?;
        Ok(Refuter {
            mutex,
            turns,
            held: owning_nothing(),
            states,
        })
    }

    /// Takes the history's next line, of a thread whose next return says this. False where no trace shows the lines up
    /// to it.
    pub fn take(&mut self, alloc: Global, entry: &Entry, reply: Option<Reply>) -> Result<bool, Halt>
        ensures { IfOk result (λ going. Takes self.old entry.now reply going self.new) }
    {
        let at = usize::from(thread_of(entry).get());
        let turn = self.turns[at];
        let Some(after) = turn.after(entry, reply) else {
            return Ok(false);
        };
        let own = self.held[at];
        if !is_within(turn, entry, own) {
            return Ok(false);
        }
        self.turns[at] = after;
        self.held[at] = count_after(turn, entry, own);
        let states = retold(alloc, &self.states, entry, turn, &self.turns, self.mutex)?;
        self.states = states;
        Ok(!self.states.is_empty())
    }
}
