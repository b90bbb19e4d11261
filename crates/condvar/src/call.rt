//! Calls on condition variables.
ghost use Rattle.std.specs.Prelude.{◌≡◌};
ghost use Rattle.condvar.specs.Calls.{acts_as, condition_of, expired, operation_of, reply_of};

use lockword::Reply;
use posixmutex::Operation;

/// Where the time limit of a wait is.
#[derive(Clone, Copy, Debug, PartialEq, Eq)]
pub enum Limit {
    /// The call is still to come. Every call begins so: one whose time has passed then sleeps first, too.
    Ahead,
    /// The call came while the wait slept on its condition variable.
    Past,
}

/// A call on a condition variable, which its number names. Its mutex is the layout's (`Layout::mutex_of_condition`).
#[derive(Clone, Copy, Debug, PartialEq, Eq)]
pub enum CondCall {
    /// Releases the mutex, sleeps, and takes the mutex again (pthread_cond_wait(3p)). It may end without any signal.
    Wait(u16),
    /// Does so too, but sleeps no longer than up to its time limit, and then returns `ETIMEDOUT`, as the owner of its
    /// mutex (pthread_cond_timedwait(3p)).
    TimedWait(u16, Limit),
    /// Wakes one thread that waits (pthread_cond_signal(3p)).
    Signal(u16),
    /// Lets every thread that waits go on, one after the other, as each takes the mutex (pthread_cond_broadcast(3p)).
    Broadcast(u16),
}

impl CondCall {
    /// The number of its condition variable.
    pub fn condition(self) -> u16
        ensures { result ≡ condition_of self }
    {
        match self {
            CondCall::Wait(condition)
            | CondCall::TimedWait(condition, _)
            | CondCall::Signal(condition)
            | CondCall::Broadcast(condition) => condition,
        }
    }

    /// What it is called among the operations on its mutex. A wait that isn't refused is an unlock there, and later a
    /// lock.
    pub fn operation(self) -> Operation
        ensures { result ≡ operation_of self }
    {
        match self {
            CondCall::Wait(_) => Operation::Wait,
            CondCall::TimedWait(_, _) => Operation::TimedWait,
            CondCall::Signal(_) => Operation::Signal,
            CondCall::Broadcast(_) => Operation::Broadcast,
        }
    }

    /// What its accesses do to its mutex: one with a time limit is a wait.
    pub fn acts_as(self) -> Operation
        ensures { result ≡ acts_as self }
    {
        match self {
            CondCall::TimedWait(_, _) => Operation::Wait,
            call => call.operation(),
        }
    }

    /// A wait with a time limit, once that has come: it locks its mutex, as one that was woken does. `None` of other
    /// calls. Whoever asks knows that it sleeps on its condition variable.
    pub fn expired(self) -> Option<CondCall>
        ensures { result ≡ expired self }
    {
        match self {
            CondCall::TimedWait(condition, _) => Some(CondCall::TimedWait(condition, Limit::Past)),
            CondCall::Wait(_) | CondCall::Signal(_) | CondCall::Broadcast(_) => None,
        }
    }

    /// What the call returns whose accesses came to that reply. `ETIMEDOUT` takes the place of `OK` alone, so that who
    /// is out of time still hears of a dead owner, and of an unusable mutex.
    pub fn reply(self, reply: Reply) -> Reply
        ensures { result ≡ reply_of self reply }
    {
        match (self, reply) {
            (CondCall::TimedWait(_, Limit::Past), Reply::OK) => Reply::ETIMEDOUT,
            (_, reply) => reply,
        }
    }
}
