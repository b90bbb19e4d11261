//! What some order of steps has led to, at one mutex.

ghost use Rattle.std.specs.Prelude.{◌≡◌, ◌⊎◌, ◌↔◌, [], ◌∷◌, ◌++◌, true, IfOk, IsTrue};
ghost use Rattle.refuting.specs.States.{Covered, Covers, HasAll};

use lockword::{MOST_THREADS, Reply};
use posixmutex::Object;
use std::alloc::AllocError;

/// How many places there are where things are kept by threads' ids: 0 is no thread's.
pub const IDS: usize = MOST_THREADS as usize + 1;

/// What the points of a call have made of its mutex.
#[derive(Clone, Copy, Debug, PartialEq, Eq)]
pub enum Made {
    /// Nothing: it has no point yet, or one that changed nothing.
    Nothing,
    /// A wait has released it.
    Released,
    /// The mutex was changed, by the point that decided this reply.
    Changed(Reply),
}

/// How far a thread's call on the mutex has come.
#[derive(Clone, Copy, Debug, PartialEq, Eq)]
pub struct Call {
    pub made: Made,
    /// Since it began, or released the mutex, that was once such that the call could get what it returns.
    pub seen: bool,
}

/// A call that has just begun; also where a thread has none.
pub const FIRST_CALL: Call = Call {
    made: Made::Nothing,
    seen: false,
};

/// What some order of points and deaths has led to.
#[derive(Clone, Copy)]
pub struct State {
    pub object: Object,
    /// Indexed by the threads' ids.
    pub calls: [Call; IDS],
}

/// About a mutex that nobody has locked yet.
pub const FIRST_STATE: State = State {
    object: Object {
        owner: None,
        inconsistent: false,
        unusable: false,
    },
    calls: [FIRST_CALL; IDS],
};

/// Whether the one call has come as far as the other, and has seen what that has.
fn has_all(one: Call, other: Call) -> bool
    ensures { IsTrue result ↔ HasAll one other }
{
    one.made == other.made && (one.seen || !other.seen)
}

/// Whether the one state has all that the other has: it is the same except for more that calls have seen.
fn covers(one: &State, other: &State) -> bool
    ensures { result ≡ true → Covers one.now other.now }
{
    if one.object != other.object {
        return false;
    }
    for id in 0..IDS {
        if !has_all(one.calls[id], other.calls[id]) {
            return false;
        }
    }
    true
}

/// Adds a state, unless one that is there covers it.
pub fn add(states: &mut Vec<State>, state: State) -> Result<(), AllocError>
    ensures covered { IfOk result (λ _. Covered states.new.items state) }
    ensures grows { (states.new.items ≡ states.old.items) ⊎ (states.new.items ≡ states.old.items ++ state ∷ []) }
{
    for known in states.iter() {
        if covers(known, &state) {
            return Ok(());
        }
    }
    states.push(state)?;
    Ok(())
}
