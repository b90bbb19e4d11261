//! Operations, and the points at which they take effect (linearization points).
ghost use Rattle.std.specs.Prelude.{◌≡◌};
ghost use Rattle.std.specs.Array.Iter.{array_into_iter_items};
ghost use Rattle.std.specs.Result.{result_ok};
ghost use Rattle.posixmutex.specs.Words.{OperationsAreReadBack, all_operations, operation_of, operation_word};

use lockword::{Reply, Tid};
use std::array;
use std::str::FromStr;
use thiserror::Error;

/// What is done to a mutex. A condition variable's calls are operations on its mutex, and an owner's death is one too.
#[derive(Clone, Copy, Debug, PartialEq, Eq)]
pub enum Operation {
    Lock,
    TryLock,
    /// A lock's time limit came (pthread_mutex_timedlock(3p)): one that takes its mutex, or is refused, is a lock.
    TimedLock,
    Unlock,
    Consistent,
    Wait,
    /// A wait that has a time limit (pthread_cond_timedwait(3p)). It has no point of its own: what it does to its mutex, or
    /// is refused, is a wait's.
    TimedWait,
    Signal,
    Broadcast,
    /// The owner's death: no call has this operation.
    Death,
    /// An unusable mutex is reinitialised (pthread_mutex_destroy, pthread_mutex_init): no call of a script or a
    /// program has this operation, a trace tells it as one.
    Reinit,
}

impl Operation {
    /// The word that scripts and traces write for it.
    pub fn word(self) -> &'static str
        ensures { result.now ≡ operation_word self }
    {
        match self {
            Operation::Lock => "lock",
            Operation::TryLock => "trylock",
            Operation::TimedLock => "timedlock",
            Operation::Unlock => "unlock",
            Operation::Consistent => "consistent",
            Operation::Wait => "wait",
            Operation::TimedWait => "timedwait",
            Operation::Signal => "signal",
            Operation::Broadcast => "broadcast",
            Operation::Death => "death",
            Operation::Reinit => "reinit",
        }
    }
}

/// A text that is no operation's word.
#[derive(Clone, Copy, Debug, PartialEq, Eq, Error)]
#[error("no operation has this word")]
pub struct ParseOperationError;

/// Every operation.
fn operations() -> array::IntoIter<Operation, 11>
    ensures { array_into_iter_items result ≡ all_operations }
{
    [
        Operation::Lock,
        Operation::TryLock,
        Operation::TimedLock,
        Operation::Unlock,
        Operation::Consistent,
        Operation::Wait,
        Operation::TimedWait,
        Operation::Signal,
        Operation::Broadcast,
        Operation::Death,
        Operation::Reinit,
    ]
    .into_iter()
}

/// Reads an operation's word, a death's and a reinit's too.
impl FromStr for Operation {
    type Err = ParseOperationError;

    ghost from_str_gives = { λ text r. result_ok r ≡ operation_of text };

    fn from_str(text: &str) -> Result<Operation, ParseOperationError> {
        for operation in operations() {
            if operation.word() == text {
                return Ok(operation);
            }
        }
        Err(ParseOperationError)
    }
}

/// An operation's word is read as that operation, and no other text is.
#[tactic(auto, using(crate::proofs::Words::operations_read_back))]
pub fn operations_are_read_back()
    ensures { OperationsAreReadBack }
{}

/// The access that decided an operation: its linearization point.
#[derive(Clone, Copy, Debug, PartialEq, Eq)]
pub struct Point {
    pub thread: Tid,
    /// The address of the mutex's cell.
    pub at: u64,
    pub operation: Operation,
    /// OK for a death and a reinit.
    pub reply: Reply,
}

/// A point as traces tell it, by its mutex's number.
#[derive(Clone, Copy, Debug, PartialEq, Eq)]
pub struct Decision {
    pub thread: Tid,
    pub mutex: u16,
    pub operation: Operation,
    /// OK for a death and a reinit.
    pub reply: Reply,
}
