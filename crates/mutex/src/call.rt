//! Calls on mutexes.
ghost use Rattle.std.specs.Prelude.{◌≡◌};
ghost use Rattle.mutex.specs.Calls.{acts_as, mutex_of, operation_of};

use posixmutex::Operation;

/// A call on a mutex, which its number names.
#[derive(Clone, Copy, Debug, PartialEq, Eq)]
pub enum Call {
    /// Takes it, asleep while another thread owns it (pthread_mutex_lock(3p)).
    Lock(u16),
    /// Takes it, asleep until a time limit comes while another thread owns it (pthread_mutex_timedlock(3p)).
    TimedLock(u16),
    /// Takes it, or answers at once that it can't (pthread_mutex_trylock(3p)).
    TryLock(u16),
    /// Releases it; one whose previous owner's death was never declared becomes unusable (pthread_mutex_unlock(3p)).
    Unlock(u16),
    /// Declares it consistent after its previous owner's death (pthread_mutex_consistent(3p)).
    Consistent(u16),
}

impl Call {
    /// The number of its mutex.
    pub fn mutex(self) -> u16
        ensures { result ≡ mutex_of self }
    {
        match self {
            Call::Lock(mutex)
            | Call::TimedLock(mutex)
            | Call::TryLock(mutex)
            | Call::Unlock(mutex)
            | Call::Consistent(mutex) => mutex,
        }
    }

    /// What it does to the mutex.
    pub fn operation(self) -> Operation
        ensures { result ≡ operation_of self }
    {
        match self {
            Call::Lock(_) => Operation::Lock,
            Call::TimedLock(_) => Operation::TimedLock,
            Call::TryLock(_) => Operation::TryLock,
            Call::Unlock(_) => Operation::Unlock,
            Call::Consistent(_) => Operation::Consistent,
        }
    }

    /// What its accesses do to the mutex: one with a time limit is a lock while that hasn't come.
    pub fn acts_as(self) -> Operation
        ensures { result ≡ acts_as self }
    {
        match self {
            Call::TimedLock(_) => Operation::Lock,
            call => call.operation(),
        }
    }
}
