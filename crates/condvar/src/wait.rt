//! Wait.
ghost use Rattle.std.specs.Prelude.{◌≡◌};
ghost use Rattle.condvar.specs.Wait.{wait_access, wait_resume, wait_sees, after_release};

use crate::row::{CondLed, CondRow, low_half};
use lockword::{Cell, Reply, Tid};
use posixmutex::Operation;
use stepprograms::{Access, Answer};

/// Where a wait stands, until it is awake again.
#[derive(Clone, Copy, Debug, PartialEq, Eq)]
pub enum WaitRow {
    /// Loads the cell.
    LoadCell,
    /// Loads the counter, while it owns the mutex.
    LoadCounter,
    /// Releases the mutex, which it owns and which is consistent. Of the counter it saw this low half.
    Release { seen: u32 },
    /// Wakes one sleeper of the cell.
    Wake { seen: u32 },
    /// Sleeps on the counter where its low half is as it saw it.
    Sleep { seen: u32 },
}

pub(crate) fn next(thread: Tid, cell: u64, counter: u64, row: &WaitRow) -> Access
    ensures { result ≡ wait_access thread cell counter row.now }
{
    match *row {
        WaitRow::LoadCell => Access::Load { at: cell },
        WaitRow::LoadCounter => Access::Load { at: counter },
        WaitRow::Release { .. } => Access::FetchXor {
            at: cell,
            operand: u64::from(thread.get()),
        },
        WaitRow::Wake { .. } => Access::Wake { at: cell, most: 1 },
        WaitRow::Sleep { seen } => Access::Wait {
            at: counter,
            expected: seen,
        },
    }
}

pub(crate) fn resume(thread: Tid, row: &WaitRow, answer: Answer) -> CondLed
    ensures { result ≡ wait_resume thread row.now answer }
{
    match *row {
        WaitRow::LoadCell => match answer {
            Answer::Value(word) => sees(thread, Cell::new(word)),
            _ => CondLed::faults(),
        },
        WaitRow::LoadCounter => match answer {
            Answer::Value(word) => CondLed::goes(CondRow::Wait(WaitRow::Release {
                seen: low_half(word),
            })),
            _ => CondLed::faults(),
        },
        WaitRow::Release { seen } => match answer {
            Answer::Value(word) => {
                let next = after_release(seen, Cell::new(word));
                CondLed::decides(next, Operation::Unlock, Reply::OK)
            }
            _ => CondLed::faults(),
        },
        WaitRow::Wake { seen } => match answer {
            Answer::Count(_) => CondLed::goes(CondRow::Wait(WaitRow::Sleep { seen })),
            _ => CondLed::faults(),
        },
        WaitRow::Sleep { .. } => match answer {
            Answer::Again | Answer::Woken => CondLed::goes(CondRow::Awake),
            _ => CondLed::faults(),
        },
    }
}

/// Decides on the cell: only the owner of a consistent mutex may wait.
fn sees(thread: Tid, cell: Cell) -> CondLed
    ensures { result ≡ wait_sees thread cell }
{
    if cell.owner() != u32::from(thread.get()) {
        CondLed::ends(Operation::Wait, Reply::EPERM)
    } else if cell.owner_died() {
        CondLed::ends(Operation::Wait, Reply::XSTATE)
    } else {
        CondLed::goes(CondRow::Wait(WaitRow::LoadCounter))
    }
}

/// Where a release leads that found this cell: who sleeps on it is woken first.
fn after_release(seen: u32, found: Cell) -> CondRow
    ensures { result ≡ after_release seen found }
{
    if found.waiters() {
        CondRow::Wait(WaitRow::Wake { seen })
    } else {
        CondRow::Wait(WaitRow::Sleep { seen })
    }
}
