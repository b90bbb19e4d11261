//! Where a whole call stands.
ghost use Rattle.std.specs.Prelude.{◌≡◌};
ghost use Rattle.mutex.specs.Whole.{onward, faulted};

use crate::row::Row;
use lockword::Reply;
use robustlist::{Link, Unlink};

/// Where a call stands: at its mutex's cell, or at its thread's robust list.
#[derive(Clone, Copy, Debug, PartialEq, Eq)]
pub enum Phase {
    /// Stores its entry as the thread's pending one, and goes on at the cell.
    Announcing { next: Row },
    /// The call is at the cell.
    AtCell(Row),
    /// The call has taken the mutex, with this reply, and puts its entry in front of the thread's list.
    Linking { link: Link, reply: Reply },
    /// Takes its entry out of the list, to release the mutex then, in which OWNER_DIED is as noted.
    Unlinking { unlink: Unlink, died: bool },
    /// Clears the thread's pending entry, and returns this reply.
    Clearing { reply: Reply },
    /// The call has returned.
    Ended(Reply),
}

/// Where an answer leads, and the reply of the call's point where that access was it.
#[derive(Clone, Copy, Debug, PartialEq, Eq)]
pub struct Onward {
    /// Where the call stands then.
    pub phase: Phase,
    /// The reply that this access decided.
    pub point: Option<Reply>,
}

impl Onward {
    /// Leads to a phase, without a point.
    #[inline(always)]
    pub(crate) fn to(phase: Phase) -> Onward
        ensures { result ≡ onward phase }
    {
        Onward { phase, point: None }
    }

    /// The call returns, since it was answered a fault.
    #[inline(always)]
    pub(crate) fn faults() -> Onward
        ensures { result ≡ faulted }
    {
        Onward::to(Phase::Ended(Reply::EFAULT))
    }
}
