//! Why a line doesn't fit the lines before it.

use facts::Begun;
use lockword::{Reply, Tid};
use posixmutex::{Object, Operation};
use std::fmt;
use thiserror::Error;

/// What a line of a trace says that can't be, after the lines before it.
#[derive(Clone, Copy, Debug, PartialEq, Eq, Error)]
pub enum Misfit {
    /// The line is of an event before this one, of which a line was recorded: the numbers of events never fall.
    #[error("the event is before event {latest}, of which a line was told")]
    EventFalls { latest: u32 },
    /// A line of the event tells what this thread did, and an event is one thread's, whomever it wakes or moves.
    #[error("the event is one of thread t{}", .thread.get())]
    AnothersEvent { thread: Tid },
    /// The event has a point or a death already.
    #[error("the event has a point or a death already")]
    EventDecided,
    /// A kill is an event of its own, and this event has a line already.
    #[error("a kill is an event of its own, and this event has a line already")]
    KillShares,
    /// The event is a kill, which is an event of its own.
    #[error("the event is a kill, and has no other line")]
    EventKilled,

    /// The thread is in this call, and begins another.
    #[error("the thread is in a call already: {} of m{}", .call.operation.word(), .call.mutex)]
    InCall { call: Begun },
    /// The thread is in no call, and so has no point, doesn't fall asleep and returns nothing.
    #[error("the thread is in no call")]
    NoCall,
    /// The thread is asleep, and so has no point, doesn't fall asleep and returns nothing.
    #[error("the thread is asleep")]
    Asleep,
    /// The thread is awake, and so is neither woken nor moved.
    #[error("the thread isn't asleep")]
    Awake,
    /// The thread was killed, and does nothing more in this life.
    #[error("the thread was killed")]
    Killed,
    /// The thread was killed, isn't reaped yet, and so doesn't live again.
    #[error("the thread was killed, and isn't reaped yet")]
    NotReaped,
    /// The thread was reaped, and nothing is recorded of it before it lives again.
    #[error("the thread was reaped")]
    Reaped,
    /// The thread lives, and so its death isn't told, it isn't reaped and it doesn't live again.
    #[error("the thread lives")]
    Alive,

    /// The thread's call is on this mutex, and the point is on another.
    #[error("the thread's call is on m{mutex}")]
    OtherMutex { mutex: u16 },
    /// The thread's call is of this operation, and has no such first point.
    #[error("a call of {} has no such point", .operation.word())]
    OtherOperation { operation: Operation },
    /// The point is a refused unlock of a wait: a wait that is refused has a point of its own, and its unlock replies
    /// OK.
    #[error("the unlock of a wait replies OK")]
    ReleaseRefused,
    /// The wait has released its mutex: it neither returns nor has another point before it has locked it again.
    #[error("the wait has released its mutex, and locks it next")]
    Released,
    /// The call has all its points, and the last replied so.
    #[error("the call has its points already, and the last replied {}", .reply.name())]
    Decided { reply: Reply },
    /// The call has had no point yet, and returns.
    #[error("the call has had no point yet")]
    Undecided,
    /// The call's last point replied so, and the call returns another reply.
    #[error("the call's point replied {}", .reply.name())]
    OtherReply { reply: Reply },

    /// The mutex doesn't allow an operation this reply, as it is.
    #[error("the mutex doesn't allow the reply {}: {}", .reply.name(), State(*.object))]
    NotAllowed { object: Object, reply: Reply },
    /// The thread holds as many mutexes as it may, and the reply to a further lock or trylock isn't X_HELD.
    #[error("the thread holds {held} mutexes, so that the reply is X_HELD")]
    AtLimit { held: u16 },
    /// A death is recorded of a mutex, as it is, that the dead thread doesn't own.
    #[error("the thread doesn't own the mutex: {}", State(*.object))]
    NotOwner { object: Object },
    /// The call is out of time, and since it began, in this event, no other thread has owned the mutex.
    #[error("no other thread owned the mutex since event {began}, in which the call began")]
    TooEarly { began: u32 },
    /// The thread is reaped, and this is the first mutex that it still owns.
    #[error("the thread still owns m{mutex}")]
    StillOwns { mutex: u16 },

    /// The number on the last line is below the last event's.
    #[error("the end is before event {latest}, of which a line was told")]
    EndFalls { latest: u32 },
}

/// A misfit and the line that it is of.
#[derive(Clone, Copy, Debug, PartialEq, Eq, Error)]
#[error("line {line}: {misfit}")]
pub struct TraceMisfit {
    /// The line, from 1.
    pub line: usize,
    /// Why it doesn't fit those before it.
    pub misfit: Misfit,
}

/// What a mutex is, to be read.
#[derive(Clone, Copy)]
struct State(Object);

/// What else is said of a mutex, after who owns it.
fn marks_of(object: &Object) -> &'static str {
    match (object.inconsistent, object.unusable) {
        (false, false) => "",
        (true, false) => ", it is inconsistent",
        (false, true) => ", it is unusable",
        (true, true) => ", it is inconsistent, it is unusable",
    }
}

impl fmt::Display for State {
    fn fmt<W: fmt::Write>(&self, f: &mut fmt::Formatter<W>) -> fmt::Result {
        let marks = marks_of(&self.0);
        match self.0.owner {
            None => write!(f, "nobody owns it{marks}"),
            Some(owner) => write!(f, "t{} owns it{marks}", owner.get()),
        }
    }
}
