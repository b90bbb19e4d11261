//! The robust mutex as an object, with no bits: what each operation may answer, and what it leaves.
ghost use Rattle.std.specs.Prelude.{◌≡◌, true, false, MatchOption};
ghost use Rattle.posixmutex.specs.Objects.{CallsAreAnswered, ChangesHaveReasons, LimitIsExact};
ghost use Rattle.posixmutex.specs.Objects.{ReasonsSuffice, RepliesHaveReasons, StepsAreDetermined};

use crate::point::Operation;
use lockword::{Reply, Tid};

/// How many mutexes a thread may hold: a robust list is walked for this many entries (robust-futexes).
pub const HELD_LIMIT: u16 = 2048;

/// What a robust mutex is to POSIX (pthread_mutex_lock, pthread_mutex_consistent, pthread_mutex_destroy).
#[derive(Clone, Copy, Debug, PartialEq, Eq)]
pub struct Object {
    pub owner: Option<Tid>,
    /// An owner died holding it, and nobody has declared it consistent.
    pub inconsistent: bool,
    /// Released while inconsistent: it can't be locked until it is reinitialized.
    pub unusable: bool,
}

impl Object {
    ghost use Rattle.posixmutex.specs.Objects.{fresh, owned_by, Does, Permits};

    /// A mutex that nobody has locked yet.
    pub fn new() -> Object
        ensures { result ≡ fresh }
    {
        Object {
            owner: None,
            inconsistent: false,
            unusable: false,
        }
    }

    /// What the mutex becomes where the thread's operation replies so; None where it may not reply so. `held` is how
    /// many mutexes the thread owns.
    pub fn step(self, held: u16, thread: Tid, operation: Operation, reply: Reply) -> Option<Object>
        ensures { MatchOption result ((new : Object) → ¬ Does held self thread operation reply new)
            (λ new. Does held self thread operation reply new) }
    {
        let acquires = operation == Operation::Lock
            || operation == Operation::TryLock
            || operation == Operation::TimedLock;
        if acquires && HELD_LIMIT <= held {
            return self.kept(reply == Reply::XHELD);
        }
        self.permitted(thread, operation, reply)
    }

    fn permitted(self, thread: Tid, operation: Operation, reply: Reply) -> Option<Object>
        ensures { MatchOption result ((new : Object) → ¬ Permits self thread operation reply new)
            (λ new. Permits self thread operation reply new) }
    {
        match operation {
            Operation::Lock => self.locked(thread, reply),
            Operation::TryLock => self.tried(thread, reply),
            Operation::TimedLock => self.timed(thread, reply),
            Operation::Unlock => self.unlocked(thread, reply),
            Operation::Consistent => self.declared(thread, reply),
            Operation::Wait => self.waited(thread, reply),
            Operation::TimedWait => None,
            Operation::Signal => self.signalled(thread, reply),
            Operation::Broadcast => self.signalled(thread, reply),
            Operation::Death => self.died(thread, reply),
            Operation::Reinit => self.reinited(thread, reply),
        }
    }

    fn locked(self, thread: Tid, reply: Reply) -> Option<Object>
        ensures { MatchOption result ((new : Object) → ¬ Permits self thread Operation.Lock reply new)
            (λ new. Permits self thread Operation.Lock reply new) }
    {
        let free = !self.unusable && self.owner.is_none();
        match reply {
            Reply::OK => self.taken(free && !self.inconsistent, thread),
            Reply::EOWNERDEAD => self.taken(free && self.inconsistent, thread),
            Reply::ENOTRECOVERABLE => self.kept(self.unusable),
            Reply::EDEADLK => self.kept(self.owner == Some(thread)),
            _ => None,
        }
    }

    fn tried(self, thread: Tid, reply: Reply) -> Option<Object>
        ensures { MatchOption result ((new : Object) → ¬ Permits self thread Operation.TryLock reply new)
            (λ new. Permits self thread Operation.TryLock reply new) }
    {
        let free = !self.unusable && self.owner.is_none();
        match reply {
            Reply::OK => self.taken(free && !self.inconsistent, thread),
            Reply::EOWNERDEAD => self.taken(free && self.inconsistent, thread),
            Reply::ENOTRECOVERABLE => self.kept(self.unusable),
            Reply::EBUSY => self.kept(self.owner.is_some()),
            Reply::XRACED => self.kept(free),
            _ => None,
        }
    }

    fn timed(self, thread: Tid, reply: Reply) -> Option<Object>
        ensures { MatchOption result ((new : Object) → ¬ Permits self thread Operation.TimedLock reply new)
            (λ new. Permits self thread Operation.TimedLock reply new) }
    {
        self.kept(reply == Reply::ETIMEDOUT)
    }

    fn unlocked(self, thread: Tid, reply: Reply) -> Option<Object>
        ensures { MatchOption result ((new : Object) → ¬ Permits self thread Operation.Unlock reply new)
            (λ new. Permits self thread Operation.Unlock reply new) }
    {
        let owns = self.owner == Some(thread);
        match reply {
            Reply::OK if owns => Some(Object {
                owner: None,
                inconsistent: false,
                unusable: self.inconsistent || self.unusable,
            }),
            Reply::EPERM => self.kept(!owns),
            _ => None,
        }
    }

    fn declared(self, thread: Tid, reply: Reply) -> Option<Object>
        ensures { MatchOption result ((new : Object) → ¬ Permits self thread Operation.Consistent reply new)
            (λ new. Permits self thread Operation.Consistent reply new) }
    {
        let owns = self.owner == Some(thread);
        match reply {
            Reply::OK if owns && self.inconsistent => Some(Object {
                owner: self.owner,
                inconsistent: false,
                unusable: self.unusable,
            }),
            Reply::EINVAL => self.kept(owns && !self.inconsistent),
            Reply::EPERM => self.kept(!owns),
            _ => None,
        }
    }

    fn waited(self, thread: Tid, reply: Reply) -> Option<Object>
        ensures { MatchOption result ((new : Object) → ¬ Permits self thread Operation.Wait reply new)
            (λ new. Permits self thread Operation.Wait reply new) }
    {
        let owns = self.owner == Some(thread);
        match reply {
            Reply::XSTATE => self.kept(owns && self.inconsistent),
            Reply::EPERM => self.kept(!owns),
            _ => None,
        }
    }

    fn signalled(self, thread: Tid, reply: Reply) -> Option<Object>
        ensures signal { MatchOption result ((new : Object) → ¬ Permits self thread Operation.Signal reply new)
            (λ new. Permits self thread Operation.Signal reply new) }
        ensures broadcast { MatchOption result ((new : Object) → ¬ Permits self thread Operation.Broadcast reply new)
            (λ new. Permits self thread Operation.Broadcast reply new) }
    {
        let owns = self.owner == Some(thread);
        match reply {
            Reply::OK | Reply::XFULL => self.kept(owns),
            Reply::EPERM => self.kept(!owns),
            _ => None,
        }
    }

    fn died(self, thread: Tid, reply: Reply) -> Option<Object>
        ensures { MatchOption result ((new : Object) → ¬ Permits self thread Operation.Death reply new)
            (λ new. Permits self thread Operation.Death reply new) }
    {
        let owns = self.owner == Some(thread);
        let bereaved = Object {
            owner: None,
            inconsistent: true,
            unusable: self.unusable,
        };
        bereaved.kept(owns && reply == Reply::OK)
    }

    fn reinited(self, thread: Tid, reply: Reply) -> Option<Object>
        ensures { MatchOption result ((new : Object) → ¬ Permits self thread Operation.Reinit reply new)
            (λ new. Permits self thread Operation.Reinit reply new) }
    {
        let free = self.unusable && self.owner.is_none();
        Object::new().kept(free && reply == Reply::OK)
    }

    fn kept(self, holds: bool) -> Option<Object>
        ensures { MatchOption result (holds ≡ false) (λ new. (holds ≡ true) × (new ≡ self)) }
    {
        if holds { Some(self) } else { None }
    }

    fn taken(self, holds: bool, thread: Tid) -> Option<Object>
        ensures { MatchOption result (holds ≡ false) (λ new. (holds ≡ true) × (new ≡ owned_by self thread)) }
    {
        if holds {
            Some(Object {
                owner: Some(thread),
                inconsistent: self.inconsistent,
                unusable: self.unusable,
            })
        } else {
            None
        }
    }
}

/// An operation and its reply determine what the object becomes.
#[tactic(auto, using(crate::proofs::Steps::determined))]
pub fn steps_are_determined()
    ensures { StepsAreDetermined }
{}

/// A thread that doesn't own a mutex can only take one that is free and usable, or reinitialise an unusable one. If the
/// mutex it takes is inconsistent, its reply says that the last owner died. The owner releases the mutex, declares it
/// consistent, or dies. A thread whose reply says that it took the mutex, or released it, did so.
#[tactic(auto, using(crate::proofs::Reasons::reasons))]
pub fn changes_have_reasons()
    ensures { ChangesHaveReasons }
{}

/// Each reply comes only for its reason, whatever becomes of the mutex. A lock gets OK if the mutex is free, usable and
/// consistent; a call gets EBUSY if somebody owns it, EPERM if its thread doesn't, X_HELD if its thread holds as many
/// mutexes as it may, and so on.
#[tactic(auto, using(crate::proofs::Replies::replies))]
pub fn replies_have_reasons()
    ensures { RepliesHaveReasons }
{}

/// Each reply that has its reason may come, except that a lock or trylock at the limit has X_HELD alone. So X_RACED and
/// X_FULL are possible next to others.
#[tactic(auto, using(crate::proofs::Replies::suffice))]
pub fn reasons_suffice()
    ensures { ReasonsSuffice }
{}

/// X_HELD is the reply of a lock or trylock whose thread holds 2,048 mutexes or more, and of no other call. The kernel
/// walks this many entries of a dead thread's list (robust-futexes).
#[tactic(auto, using(crate::proofs::Replies::limit))]
pub fn limit_is_exact()
    ensures { LimitIsExact }
{}

/// Every call has a reply, except for a lock of a mutex that another thread owns, which sleeps, and a wait that isn't
/// refused, which first unlocks. (The death of a thread that doesn't own the mutex has no reply either, nor has the
/// reinit of a usable mutex.)
pub fn calls_are_answered()
    ensures { CallsAreAnswered }
{}
