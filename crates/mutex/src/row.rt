//! Where a call is at its mutex's cell.
ghost use Rattle.std.specs.Prelude.{◌≡◌};
ghost use Rattle.mutex.specs.Rows.{goes, decides, ends, faults, acquired};

use crate::call::Call;
use crate::consistent::{self, ConsistentRow};
use crate::lock::{self, LockRow};
use crate::try_lock::{self, TryLockRow};
use crate::unlock::{self, UnlockRow};
use lockword::{Cell, Reply, Tid};
use stepprograms::{Access, Answer};

/// The access that a call makes next of those at its mutex's cell, and what the call knows.
#[derive(Clone, Copy, Debug, PartialEq, Eq)]
pub enum Row {
    /// In a lock.
    Lock(LockRow),
    /// In a trylock.
    TryLock(TryLockRow),
    /// In an unlock.
    Unlock(UnlockRow),
    /// In a declaration that the mutex is consistent.
    Consistent(ConsistentRow),
    /// The call is finished with the cell, and this is its reply.
    Ended(Reply),
}

impl Row {
    ghost use Rattle.mutex.specs.Calls.{acts_as};
    ghost use Rattle.mutex.specs.Programs.{first_row, row_access, resume_of, row_operation};
    ghost use Rattle.mutex.specs.Rows.{IsGoing, Knows};

    /// Where a call begins.
    #[inline(always)]
    pub(crate) fn first(call: Call) -> Row
        ensures value { result ≡ first_row call }
        ensures knows { Knows result }
        ensures going { IsGoing result }
        ensures operation { row_operation result ≡ acts_as call }
    {
        match call {
            Call::Lock(_) | Call::TimedLock(_) => Row::Lock(LockRow::Load),
            Call::TryLock(_) => Row::TryLock(TryLockRow::Load),
            Call::Unlock(_) => Row::Unlock(UnlockRow::Load),
            Call::Consistent(_) => Row::Consistent(ConsistentRow::Load),
        }
    }

    /// The access of a call of the thread on the cell at this address.
    #[inline(always)]
    pub(crate) fn next(&self, thread: Tid, cell: u64) -> Access
        requires going { IsGoing self.now }
        requires knows { Knows self.now }
        ensures { result ≡ row_access thread cell self.now }
    {
        match self {
            Row::Lock(row) => lock::next(thread, cell, row),
            Row::TryLock(row) => try_lock::next(thread, cell, row),
            Row::Unlock(row) => unlock::next(thread, cell, row),
            Row::Consistent(row) => consistent::next(cell, row),
            Row::Ended(_) => unreachable!(),
        }
    }

    /// Where an answer leads.
    #[inline(always)]
    pub(crate) fn resume(&self, thread: Tid, answer: Answer) -> Led
        requires { Knows self.now }
        ensures value { result ≡ resume_of thread self.now answer }
        ensures knows { Knows result.row }
    {
        match self {
            Row::Lock(row) => lock::resume(thread, row, answer),
            Row::TryLock(row) => try_lock::resume(row, answer),
            Row::Unlock(row) => unlock::resume(thread, row, answer),
            Row::Consistent(row) => consistent::resume(thread, row, answer),
            Row::Ended(reply) => Led::goes(Row::Ended(*reply)),
        }
    }
}

/// Where an answer leads, and the reply of the call's point where that access was it.
#[derive(Clone, Copy, Debug, PartialEq, Eq)]
pub struct Led {
    /// The access after it, or the return.
    pub row: Row,
    /// The reply that this access decided.
    pub point: Option<Reply>,
}

impl Led {
    /// Leads to a row, undecided.
    pub(crate) fn goes(row: Row) -> Led
        ensures { result ≡ goes row }
    {
        Led { row, point: None }
    }

    /// Leads to a row, with the call decided.
    pub(crate) fn decides(row: Row, reply: Reply) -> Led
        ensures { result ≡ decides row reply }
    {
        Led {
            row,
            point: Some(reply),
        }
    }

    /// The call is decided, and returns.
    pub(crate) fn ends(reply: Reply) -> Led
        ensures { result ≡ ends reply }
    {
        Led::decides(Row::Ended(reply), reply)
    }

    /// The call returns, since it was answered a fault.
    pub(crate) fn faults() -> Led
        ensures { result ≡ faults }
    {
        Led::goes(Row::Ended(Reply::EFAULT))
    }
}

/// The reply of whoever takes such a cell.
pub(crate) fn acquired(cell: Cell) -> Reply
    ensures { result ≡ acquired cell }
{
    if cell.owner_died() {
        Reply::EOWNERDEAD
    } else {
        Reply::OK
    }
}
