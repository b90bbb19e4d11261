//! What a thread is doing.

use condvar::{CondCall, CondProgram, Op};
use exitwalk::Walk;
use mutex::Program;

/// Where a thread is in its life.
#[derive(Clone, Copy, Debug, PartialEq, Eq)]
pub enum Stage {
    /// In no call.
    Idle,
    /// In a call on a mutex, or in the lock that ends a wait. A wait stands here from falling asleep on.
    Calling(Op, Program),
    /// In a call on a condition variable, before that.
    AtCondition(CondCall, CondProgram),
    /// Killed: the kernel walks its robust list.
    Dying(Walk),
    /// Killed, and the walk has ended; unless it is renewed.
    Reaped,
}

/// A thread of the machine.
#[derive(Clone, Copy, Debug, PartialEq, Eq)]
pub struct Thread {
    pub stage: Stage,
    /// How many mutexes it owns.
    pub held: u16,
}
