//! Calls that haven't ended, and states that orders of calls have led to.

use crate::fates::{End, Fate, NEVER};
use lockword::{Reply, Tid};
use posixmutex::Operation;

/// A call on a mutex that hasn't ended.
#[derive(Clone, Copy)]
pub struct Pending {
    pub thread: Tid,
    pub operation: Operation,
    /// When it began.
    pub begin: u32,
    /// The thread owned the mutex then.
    pub owned: bool,
    /// And that was inconsistent.
    pub inconsistent: bool,
    /// The thread owned as many mutexes as it may.
    pub full: bool,
    /// The thread is doomed.
    pub doomed: bool,
    /// The bit by which states tell that it has acted; 0 where they needn't.
    pub mark: u64,
    pub fate: Fate,
}

impl Pending {
    /// Whether it may still take the mutex.
    pub fn may_take(&self) -> bool {
        match self.operation {
            Operation::Lock | Operation::TryLock | Operation::TimedLock => {
                !self.owned && !self.full
            }
            Operation::Wait | Operation::TimedWait => self.owned && !self.inconsistent,
            _ => false,
        }
    }

    /// Whether it has acted on the way to the state.
    pub fn has_acted(&self, state: &State) -> bool {
        state.acted & self.mark != 0
    }
}

/// What some order of the calls on one mutex has led to.
#[derive(Clone, Copy)]
pub struct State {
    pub owner: Option<Tid>,
    pub inconsistent: bool,
    pub unusable: bool,
    /// The owner's wait, which hasn't returned, has taken it again.
    pub retaken: bool,
    /// The marks of calls that have acted.
    pub acted: u64,
    /// When somebody owned it last, before this state; 0 where nobody asks.
    pub held: u32,
    /// When it was free.
    pub free: u32,
    /// When it was unusable.
    pub spoiled: u32,
    /// The last step on its way, counted from 1; 0 before the first.
    pub way: u32,
}

/// About a mutex that nobody has locked yet.
pub const FRESH: State = State {
    owner: None,
    inconsistent: false,
    unusable: false,
    retaken: false,
    acted: 0,
    held: 0,
    free: 0,
    spoiled: 0,
    way: 0,
};

fn is_same(one: &State, other: &State) -> bool {
    one.owner == other.owner
        && one.inconsistent == other.inconsistent
        && one.unusable == other.unusable
        && one.retaken == other.retaken
}

/// How many of the calls that have acted on the way to one of the two alone, in threads that are gone no earlier, are
/// left to each.
fn left_of(pending: &[Pending], one: &State, other: &State, gone: u32) -> (u32, u32) {
    let mut left: (u32, u32) = (0, 0);
    for call in pending {
        if call.fate.gone < gone || call.has_acted(one) == call.has_acted(other) {
            continue;
        }
        if call.has_acted(one) {
            left.1 = left.1.wrapping_add(1);
        } else {
            left.0 = left.0.wrapping_add(1);
        }
    }
    left
}

/// Whether for each call that is left to the other one there is another that is left to the one, in a thread that is
/// gone no earlier. What was reinitialised has to be the same.
fn leaves_more(pending: &[Pending], one: &State, other: &State) -> bool {
    for call in pending {
        if call.has_acted(one) == call.has_acted(other) {
            continue;
        }
        if call.operation == Operation::Reinit {
            return false;
        }
        let left = left_of(pending, one, other, call.fate.gone);
        if left.0 < left.1 {
            return false;
        }
    }
    true
}

/// Whether what follows the other state may follow the one too: it is the same, and has each of its moments.
pub fn covers(pending: &[Pending], one: &State, other: &State) -> bool {
    if !is_same(one, other) {
        return false;
    }
    if one.acted != other.acted && !leaves_more(pending, one, other) {
        return false;
    }
    let held = one.owner.is_some();
    (held || one.held >= other.held)
        && ((!held && !one.unusable) || one.free >= other.free)
        && ((!held && one.unusable) || one.spoiled >= other.spoiled)
}

/// What is asked of moments by calls that haven't ended, and who takes the mutex next.
#[derive(Clone, Copy)]
pub struct Outlook {
    /// The earliest begins of calls that ask whether it was held, free or unusable since.
    pub held: u32,
    pub free: u32,
    pub spoiled: u32,
    /// Of those that will be told that they took it, the one that returns first, and when.
    pub next: Option<Tid>,
    pub by: u32,
    /// One that may take it and never ends.
    pub open: Option<Tid>,
}

/// Whether the call, which may take the mutex, will be told that it did: so is a wait that is out of time.
fn will_take(call: &Pending) -> bool {
    match call.fate.end {
        End::Returns(Reply::OK) | End::Returns(Reply::EOWNERDEAD) => true,
        End::Returns(Reply::ETIMEDOUT) => call.operation == Operation::TimedWait,
        _ => false,
    }
}

fn looks(outlook: &mut Outlook, call: &Pending) {
    if will_take(call) {
        if call.fate.at < outlook.by {
            outlook.by = call.fate.at;
            outlook.next = Some(call.thread);
        }
        return;
    }
    match call.fate.end {
        End::Returns(Reply::EBUSY | Reply::ETIMEDOUT) => {
            outlook.held = outlook.held.min(call.begin);
        }
        End::Returns(Reply::XRACED) => outlook.free = outlook.free.min(call.begin),
        End::Returns(Reply::ENOTRECOVERABLE) => outlook.spoiled = outlook.spoiled.min(call.begin),
        End::Open => outlook.open = Some(call.thread),
        _ => {}
    }
}

/// What is to be looked at.
pub fn look_ahead(pending: &[Pending]) -> Outlook {
    let mut outlook = Outlook {
        held: NEVER,
        free: NEVER,
        spoiled: NEVER,
        next: None,
        by: NEVER,
        open: None,
    };
    for call in pending {
        if !call.may_take() {
            continue;
        }
        looks(&mut outlook, call);
    }
    outlook
}

/// Forgets moments that nobody asks for.
pub fn forget(states: &mut Vec<State>, outlook: &Outlook) {
    for state in states.iter_mut() {
        if state.held < outlook.held {
            state.held = 0;
        }
        if state.free < outlook.free {
            state.free = 0;
        }
        if state.spoiled < outlook.spoiled {
            state.spoiled = 0;
        }
    }
}
