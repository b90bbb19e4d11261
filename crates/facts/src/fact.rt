//! The lines of a trace.
ghost use Rattle.std.specs.Prelude.{◌≡◌};
ghost use Rattle.facts.specs.Facts.{decides, decision_of, is_kill, is_passive, is_point, thread_of};

use lockword::{Reply, Tid};
use posixmutex::{Decision, Operation};

/// The call that a thread begins.
#[derive(Clone, Copy, Debug, PartialEq, Eq)]
pub struct Begun {
    /// What is called. It is no death: no call dies.
    pub operation: Operation,
    /// The mutex with this number; for a call on a condition variable the one that the call names beside it.
    pub mutex: u16,
    /// The condition variable with this number, where the call is on one.
    pub condition: Option<u16>,
}

/// Where threads sleep: on the mutex or on the condition variable with this number.
#[derive(Clone, Copy, Debug, PartialEq, Eq)]
pub enum Queue {
    Mutex(u16),
    Condition(u16),
}

/// One thing that an event did: what one line of a trace tells.
#[derive(Clone, Copy, Debug, PartialEq, Eq)]
pub enum Fact {
    Begin(Tid, Begun),
    /// The access that decided an operation of the thread's call.
    Point(Decision),
    /// The thread's death was recorded of the mutex with this number, which it owned.
    Death(Tid, u16),
    /// The thread fell asleep.
    Sleep(Tid, Queue),
    /// The thread was woken.
    Wake(Tid),
    /// The thread was moved, asleep, to the queue of the mutex with this number.
    Move(Tid, u16),
    Return(Tid, Reply),
    Kill(Tid),
    /// The walk of the thread's list has ended.
    Reap(Tid),
    /// The thread, which was reaped, lives again: its id is used again.
    Renew(Tid),
}

/// A fact and the number of its event, from 1.
#[derive(Clone, Copy, Debug, PartialEq, Eq)]
pub struct Line {
    pub event: u32,
    pub fact: Fact,
}

impl Fact {
    /// Whose fact it is.
    pub fn thread(&self) -> Tid
        ensures { result ≡ thread_of self.now }
    {
        match *self {
            Fact::Begin(thread, _) => thread,
            Fact::Point(decision) => decision.thread,
            Fact::Death(thread, _) => thread,
            Fact::Sleep(thread, _) => thread,
            Fact::Wake(thread) => thread,
            Fact::Move(thread, _) => thread,
            Fact::Return(thread, _) => thread,
            Fact::Kill(thread) => thread,
            Fact::Reap(thread) => thread,
            Fact::Renew(thread) => thread,
        }
    }

    /// The step of a mutex's object that it tells of.
    pub fn decision(&self) -> Option<Decision>
        ensures { result ≡ decision_of self.now }
    {
        match *self {
            Fact::Point(decision) => Some(decision),
            Fact::Death(thread, mutex) => Some(Decision {
                thread,
                mutex,
                operation: Operation::Death,
                reply: Reply::OK,
            }),
            _ => None,
        }
    }

    /// Whether it is a point or a death.
    pub fn decides(&self) -> bool
        ensures { result ≡ decides self.now }
    {
        self.decision().is_some()
    }

    /// Whether another thread's event did this to the thread.
    pub fn is_passive(&self) -> bool
        ensures { result ≡ is_passive self.now }
    {
        matches!(self, Fact::Wake(_) | Fact::Move(..))
    }

    /// Whether it tells that the thread was killed.
    pub fn is_kill(&self) -> bool
        ensures { result ≡ is_kill self.now }
    {
        matches!(self, Fact::Kill(_))
    }

    /// Whether it is a point of a call.
    pub fn is_point(&self) -> bool
        ensures { result ≡ is_point self.now }
    {
        matches!(self, Fact::Point(_))
    }
}
