//! What a script asks for.

use condvar::Op;
use lockword::Tid;

/// What a script is written for, which says which commands it may have.
#[derive(Clone, Copy, Debug, PartialEq, Eq)]
pub enum Mode {
    /// The machine runs it, event by event.
    Run,
    /// Real threads run its calls, phase by phase.
    Threads,
}

/// What a condition variable was declared with.
#[derive(Clone, Copy, Debug, PartialEq, Eq)]
pub struct Condition {
    /// The number of its mutex.
    pub mutex: u16,
    /// What its counter begins with.
    pub counter: u32,
}

/// What a command asks for. Threads and the processes with names are numbered from 1, and mutexes and condition
/// variables from 0, in the order of their declarations.
#[derive(Clone, Copy, Debug, PartialEq, Eq)]
pub enum Action {
    /// One begin event.
    Begin(Tid, Op),
    /// As many step events as `count`, from 1 to [`MAX_STEPS`](crate::MAX_STEPS).
    Step { thread: Tid, count: u32 },
    /// One kill event.
    Kill(Tid),
    /// One kill event for each thread of the process with this number, in the order of the threads' ids.
    KillAll(u8),
    /// One leave event.
    Leave(Tid),
    /// One decline event.
    Decline(Tid),
    /// One expiry.
    Expire(Tid),
    /// One renew event.
    Renew(Tid),
    /// One remake event, of the mutex with this number.
    Remake(Tid, u16),
    /// One spare event.
    Spare(Tid),
    /// Step events until the thread rests: until it is in no call and not dying, or sleeps.
    Go(Tid),
    /// A begin event, and then step events until the thread rests; for real threads one call.
    Call(Tid, Op),
    /// The call that locks a mutex, for each of `count` mutexes from `mutex` on, one after the other. There are from 1
    /// to [`MAX_MUTEXES`](crate::MAX_MUTEXES).
    Locks { thread: Tid, mutex: u16, count: u16 },
    /// The end of a phase of real threads; for the machine nothing.
    Phase,
    /// The death of a real thread, before its access with this number, from 1 to [`MAX_ACCESS`](crate::MAX_ACCESS),
    /// over all phases; for the machine nothing. A script has one at most for each thread.
    Die { thread: Tid, access: u32 },
}

/// A command of a script.
#[derive(Clone, Copy, Debug, PartialEq, Eq)]
pub struct Command {
    /// The line at which it stands, from 1.
    pub line: usize,
    /// What it asks for.
    pub action: Action,
}
