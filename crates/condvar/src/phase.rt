//! Where a whole call stands.
ghost use Rattle.std.specs.Prelude.{◌≡◌};
ghost use Rattle.condvar.specs.Whole.{onward, faulted};

use crate::row::CondRow;
use lockword::Reply;
use mutex::Program;
use posixmutex::Point;
use robustlist::Unlink;

/// Where a call stands: at its mutex's cell or its counter, at its thread's robust list, or in the lock that ends a
/// wait.
#[derive(Clone, Copy, Debug, PartialEq, Eq)]
pub enum CondPhase {
    /// The call is at the cell or at the counter.
    AtWords(CondRow),
    /// A wait stores the mutex's entry as its thread's pending one, to release the mutex then. Of the counter it saw
    /// this low half.
    Announcing { seen: u32 },
    /// A wait takes the entry out of its thread's list, to release the mutex then.
    Unlinking { unlink: Unlink, seen: u32 },
    /// A wait is awake again and takes the mutex, as a lock does whose entry is pending.
    Locking(Program),
    /// The call has returned.
    Ended(Reply),
}

/// Where an answer leads, with the point where that access was one.
#[derive(Clone, Copy, Debug, PartialEq, Eq)]
pub struct CondOnward {
    /// Where the call stands then.
    pub phase: CondPhase,
    /// The point that this access was.
    pub point: Option<Point>,
}

impl CondOnward {
    /// Leads to a phase, without a point.
    pub(crate) fn to(phase: CondPhase) -> CondOnward
        ensures { result ≡ onward phase }
    {
        CondOnward { phase, point: None }
    }

    /// The call returns, since it was answered a fault.
    pub(crate) fn faults() -> CondOnward
        ensures { result ≡ faulted }
    {
        CondOnward::to(CondPhase::Ended(Reply::EFAULT))
    }
}
