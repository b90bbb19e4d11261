//! Where a call is at its mutex's cell and its condition variable's counter.
ghost use Rattle.std.specs.Prelude.{◌≡◌, ◌%◌, ◌^◌};
ghost use Rattle.condvar.specs.Rows.{goes, decides, ends, faults};

use crate::broadcast::{self, BroadcastRow};
use crate::call::CondCall;
use crate::signal::{self, SignalRow};
use crate::wait::{self, WaitRow};
use lockword::{Reply, Tid};
use posixmutex::Operation;
use stepprograms::{Access, Answer};

/// The largest value of a counter: a signal or broadcast of it is refused with `XFULL`.
pub(crate) const FULL: u64 = 0xffff_ffff;

/// The access that a call makes next of those at the cell and at the counter, and what the call knows.
#[derive(Clone, Copy, Debug, PartialEq, Eq)]
pub enum CondRow {
    /// In a wait, until it is awake again.
    Wait(WaitRow),
    /// In a signal.
    Signal(SignalRow),
    /// In a broadcast.
    Broadcast(BroadcastRow),
    /// The wait is awake again, and goes on as a lock of its mutex.
    Awake,
    /// The call is through, and this is its reply.
    Ended(Reply),
}

impl CondRow {
    ghost use Rattle.condvar.specs.Programs.{first_row, row_access, resume_of};
    ghost use Rattle.condvar.specs.Rows.{IsGoing};

    /// Where a call begins.
    pub(crate) fn first(call: CondCall) -> CondRow
        ensures value { result ≡ first_row call }
        ensures going { IsGoing result }
    {
        match call {
            CondCall::Wait(_) | CondCall::TimedWait(_, _) => CondRow::Wait(WaitRow::LoadCell),
            CondCall::Signal(_) => CondRow::Signal(SignalRow::LoadCell),
            CondCall::Broadcast(_) => CondRow::Broadcast(BroadcastRow::LoadCell),
        }
    }

    /// The access of a call of the thread, whose cell and counter are at these addresses.
    pub(crate) fn next(&self, thread: Tid, cell: u64, counter: u64) -> Access
        requires { IsGoing self.now }
        ensures { result ≡ row_access thread cell counter self.now }
    {
        match self {
            CondRow::Wait(row) => wait::next(thread, cell, counter, row),
            CondRow::Signal(row) => signal::next(cell, counter, row),
            CondRow::Broadcast(row) => broadcast::next(cell, counter, row),
            CondRow::Awake | CondRow::Ended(_) => unreachable!(),
        }
    }

    /// Where an answer leads.
    pub(crate) fn resume(&self, thread: Tid, answer: Answer) -> CondLed
        ensures { result ≡ resume_of thread self.now answer }
    {
        match self {
            CondRow::Wait(row) => wait::resume(thread, row, answer),
            CondRow::Signal(row) => signal::resume(thread, row, answer),
            CondRow::Broadcast(row) => broadcast::resume(thread, row, answer),
            CondRow::Awake => CondLed::goes(CondRow::Awake),
            CondRow::Ended(reply) => CondLed::goes(CondRow::Ended(*reply)),
        }
    }
}

/// What an access decided: the operation on the mutex, and its reply. A wait that isn't refused decides an unlock, and
/// later a lock.
#[derive(Clone, Copy, Debug, PartialEq, Eq)]
pub struct Decided {
    /// What was done to the mutex, or refused.
    pub operation: Operation,
    /// What POSIX replies to it, or one of the project's own refusals.
    pub reply: Reply,
}

/// Where an answer leads, and what that access decided where it was a point of the call.
#[derive(Clone, Copy, Debug, PartialEq, Eq)]
pub struct CondLed {
    /// The access after it, or the end.
    pub row: CondRow,
    /// What this access decided.
    pub decided: Option<Decided>,
}

impl CondLed {
    /// Leads to a row, undecided.
    pub(crate) fn goes(row: CondRow) -> CondLed
        ensures { result ≡ goes row }
    {
        CondLed { row, decided: None }
    }

    /// Leads to a row, with an operation decided.
    pub(crate) fn decides(row: CondRow, operation: Operation, reply: Reply) -> CondLed
        ensures { result ≡ decides row operation reply }
    {
        CondLed {
            row,
            decided: Some(Decided { operation, reply }),
        }
    }

    /// The call is decided, and returns.
    pub(crate) fn ends(operation: Operation, reply: Reply) -> CondLed
        ensures { result ≡ ends operation reply }
    {
        CondLed::decides(CondRow::Ended(reply), operation, reply)
    }

    /// The call returns, since it was answered a fault.
    pub(crate) fn faults() -> CondLed
        ensures { result ≡ faults }
    {
        CondLed::goes(CondRow::Ended(Reply::EFAULT))
    }
}

/// The low half of a counter, which those who sleep on it compare (FUTEX_WAIT in futex(2)).
pub(crate) fn low_half(counter: u64) -> u32
    ensures { result ≡ counter % 2 ^ 32 }
{
    (counter & 0xffff_ffff) as u32
}
