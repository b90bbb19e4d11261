//! Broadcast.
ghost use Rattle.std.specs.Prelude.{◌≡◌};
ghost use Rattle.condvar.specs.Broadcast.{broadcast_access, broadcast_resume, broadcast_sees, broadcast_counts};

use crate::row::{CondLed, CondRow, FULL, low_half};
use lockword::{Cell, Reply, Tid, WAITERS};
use posixmutex::Operation;
use stepprograms::{ALL, Access, Answer};

/// Where a broadcast stands.
#[derive(Clone, Copy, Debug, PartialEq, Eq)]
pub enum BroadcastRow {
    /// Loads the cell.
    LoadCell,
    /// Loads the counter, while it owns the mutex.
    LoadCounter,
    /// Counts: the counter, which isn't full and of which it saw this low half, goes up by one.
    Count { seen: u32 },
    /// Sets WAITERS in the cell that it owns.
    SetWaiters { seen: u32 },
    /// Moves the counter's sleepers to the cell, where the counter is as it left it.
    Move { seen: u32 },
}

pub(crate) fn next(cell: u64, counter: u64, row: &BroadcastRow) -> Access
    ensures { result ≡ broadcast_access cell counter row.now }
{
    match *row {
        BroadcastRow::LoadCell => Access::Load { at: cell },
        BroadcastRow::LoadCounter => Access::Load { at: counter },
        BroadcastRow::Count { .. } => Access::FetchAdd {
            at: counter,
            operand: 1,
        },
        BroadcastRow::SetWaiters { .. } => Access::FetchOr {
            at: cell,
            operand: WAITERS,
        },
        BroadcastRow::Move { seen } => Access::CmpRequeue {
            from: counter,
            expected: seen.wrapping_add(1),
            wake: 0,
            to: cell,
            moves: ALL,
        },
    }
}

pub(crate) fn resume(thread: Tid, row: &BroadcastRow, answer: Answer) -> CondLed
    ensures { result ≡ broadcast_resume thread row.now answer }
{
    match *row {
        BroadcastRow::LoadCell => match answer {
            Answer::Value(word) => sees(thread, Cell::new(word)),
            _ => CondLed::faults(),
        },
        BroadcastRow::LoadCounter => match answer {
            Answer::Value(word) => counts(word),
            _ => CondLed::faults(),
        },
        BroadcastRow::Count { seen } => match answer {
            Answer::Value(_) => {
                let next = CondRow::Broadcast(BroadcastRow::SetWaiters { seen });
                CondLed::decides(next, Operation::Broadcast, Reply::OK)
            }
            _ => CondLed::faults(),
        },
        BroadcastRow::SetWaiters { seen } => match answer {
            Answer::Value(_) => CondLed::goes(CondRow::Broadcast(BroadcastRow::Move { seen })),
            _ => CondLed::faults(),
        },
        BroadcastRow::Move { .. } => match answer {
            Answer::Again | Answer::Counts(_, _) => CondLed::goes(CondRow::Ended(Reply::OK)),
            _ => CondLed::faults(),
        },
    }
}

/// Decides on the cell: only the owner may broadcast.
fn sees(thread: Tid, cell: Cell) -> CondLed
    ensures { result ≡ broadcast_sees thread cell }
{
    if cell.owner() != u32::from(thread.get()) {
        CondLed::ends(Operation::Broadcast, Reply::EPERM)
    } else {
        CondLed::goes(CondRow::Broadcast(BroadcastRow::LoadCounter))
    }
}

/// Decides on the counter.
fn counts(counter: u64) -> CondLed
    ensures { result ≡ broadcast_counts counter }
{
    if counter == FULL {
        CondLed::ends(Operation::Broadcast, Reply::XFULL)
    } else {
        CondLed::goes(CondRow::Broadcast(BroadcastRow::Count {
            seen: low_half(counter),
        }))
    }
}
