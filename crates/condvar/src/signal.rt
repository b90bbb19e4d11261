//! Signal.
ghost use Rattle.std.specs.Prelude.{◌≡◌};
ghost use Rattle.condvar.specs.Signal.{signal_access, signal_resume, signal_sees, signal_counts};

use crate::row::{CondLed, CondRow, FULL};
use lockword::{Cell, Reply, Tid};
use posixmutex::Operation;
use stepprograms::{Access, Answer};

/// Where a signal stands.
#[derive(Clone, Copy, Debug, PartialEq, Eq)]
pub enum SignalRow {
    /// Loads the cell.
    LoadCell,
    /// Loads the counter, while it owns the mutex.
    LoadCounter,
    /// Counts: the counter, which isn't full, goes up by one.
    Count,
    /// Wakes one sleeper of the counter.
    Wake,
}

pub(crate) fn next(cell: u64, counter: u64, row: &SignalRow) -> Access
    ensures { result ≡ signal_access cell counter row.now }
{
    match *row {
        SignalRow::LoadCell => Access::Load { at: cell },
        SignalRow::LoadCounter => Access::Load { at: counter },
        SignalRow::Count => Access::FetchAdd {
            at: counter,
            operand: 1,
        },
        SignalRow::Wake => Access::Wake {
            at: counter,
            most: 1,
        },
    }
}

pub(crate) fn resume(thread: Tid, row: &SignalRow, answer: Answer) -> CondLed
    ensures { result ≡ signal_resume thread row.now answer }
{
    match *row {
        SignalRow::LoadCell => match answer {
            Answer::Value(word) => sees(thread, Cell::new(word)),
            _ => CondLed::faults(),
        },
        SignalRow::LoadCounter => match answer {
            Answer::Value(word) => counts(word),
            _ => CondLed::faults(),
        },
        SignalRow::Count => match answer {
            Answer::Value(_) => {
                CondLed::decides(
                    CondRow::Signal(SignalRow::Wake),
                    Operation::Signal,
                    Reply::OK,
                )
            }
            _ => CondLed::faults(),
        },
        SignalRow::Wake => match answer {
            Answer::Count(_) => CondLed::goes(CondRow::Ended(Reply::OK)),
            _ => CondLed::faults(),
        },
    }
}

/// Decides on the cell: only the owner may signal.
fn sees(thread: Tid, cell: Cell) -> CondLed
    ensures { result ≡ signal_sees thread cell }
{
    if cell.owner() != u32::from(thread.get()) {
        CondLed::ends(Operation::Signal, Reply::EPERM)
    } else {
        CondLed::goes(CondRow::Signal(SignalRow::LoadCounter))
    }
}

/// Decides on the counter.
fn counts(counter: u64) -> CondLed
    ensures { result ≡ signal_counts counter }
{
    if counter == FULL {
        CondLed::ends(Operation::Signal, Reply::XFULL)
    } else {
        CondLed::goes(CondRow::Signal(SignalRow::Count))
    }
}
