//! Lock.
ghost use Rattle.std.specs.Prelude.{◌≡◌};
ghost use Rattle.mutex.specs.Rows.{Knows};
ghost use Rattle.mutex.specs.Lock.{lock_access, lock_resume, lock_sees, after_loss};
ghost use Rattle.mutex.specs.declared.row.Row.TheVariants.{Lock};

use crate::row::{Led, Row, acquired};
use lockword::{Cell, Reply, Tid};
use stepprograms::{ALL, Access, Answer};

/// Where a lock stands.
#[derive(Clone, Copy, Debug, PartialEq, Eq)]
pub enum LockRow {
    /// Loads the cell.
    Load,
    /// Takes the cell, which was unowned and usable when it saw it.
    Take { seen: Cell },
    /// Sets WAITERS in the cell, which another thread owned when it saw it.
    SetWaiters { seen: Cell },
    /// Sleeps where the futex word is as it saw it: another's, with WAITERS.
    Sleep { seen: Cell },
    /// Wakes all sleepers of an unusable mutex.
    WakeAll,
}

#[inline(always)]
pub(crate) fn next(thread: Tid, cell: u64, row: &LockRow) -> Access
    requires { Knows (Lock row.now) }
    ensures { result ≡ lock_access thread cell row.now }
{
    match *row {
        LockRow::Load => Access::Load { at: cell },
        LockRow::Take { seen } => Access::Exchange {
            at: cell,
            expected: seen.word(),
            new: seen.taken(thread).word(),
        },
        LockRow::SetWaiters { seen } => Access::Exchange {
            at: cell,
            expected: seen.word(),
            new: seen.waiting().word(),
        },
        LockRow::Sleep { seen } => Access::Wait {
            at: cell,
            expected: seen.low(),
        },
        LockRow::WakeAll => Access::Wake {
            at: cell,
            most: ALL,
        },
    }
}

#[inline(always)]
pub(crate) fn resume(thread: Tid, row: &LockRow, answer: Answer) -> Led
    requires { Knows (Lock row.now) }
    ensures value { result ≡ lock_resume thread row.now answer }
    ensures knows { Knows result.row }
{
    match *row {
        LockRow::Load => from_load(thread, answer),
        LockRow::Take { seen } => from_take(thread, seen, answer),
        LockRow::SetWaiters { seen } => from_set_waiters(thread, seen, answer),
        LockRow::Sleep { .. } => match answer {
            Answer::Again | Answer::Woken => Led::goes(Row::Lock(LockRow::Load)),
            _ => Led::faults(),
        },
        LockRow::WakeAll => match answer {
            Answer::Count(_) => Led::goes(Row::Ended(Reply::ENOTRECOVERABLE)),
            _ => Led::faults(),
        },
    }
}

#[inline(always)]
fn from_load(thread: Tid, answer: Answer) -> Led
    ensures value { result ≡ lock_resume thread LockRow.Load answer }
    ensures knows { Knows result.row }
{
    match answer {
        Answer::Value(word) => sees(thread, Cell::new(word)),
        _ => Led::faults(),
    }
}

/// Where the exchange leads that takes the cell that was seen.
#[inline(always)]
fn from_take(thread: Tid, seen: Cell, answer: Answer) -> Led
    ensures value { result ≡ lock_resume thread (LockRow.Take seen) answer }
    ensures knows { Knows result.row }
{
    match answer {
        Answer::Exchanged => Led::ends(acquired(seen)),
        Answer::Changed(word) => sees(thread, Cell::new(word)),
        _ => Led::faults(),
    }
}

/// Where the exchange leads that sets WAITERS in the cell that was seen.
fn from_set_waiters(thread: Tid, seen: Cell, answer: Answer) -> Led
    requires { Knows (Lock (LockRow.SetWaiters seen)) }
    ensures value { result ≡ lock_resume thread (LockRow.SetWaiters seen) answer }
    ensures knows { Knows result.row }
{
    match answer {
        Answer::Exchanged => Led::goes(Row::Lock(LockRow::Sleep {
            seen: seen.waiting(),
        })),
        Answer::Changed(word) => sees(thread, Cell::new(word)),
        _ => Led::faults(),
    }
}

/// Decides on a cell.
#[inline(always)]
fn sees(thread: Tid, cell: Cell) -> Led
    ensures value { result ≡ lock_sees thread cell }
    ensures knows { Knows result.row }
{
    let owner = cell.owner();
    if cell.unusable() {
        Led::decides(after_loss(cell), Reply::ENOTRECOVERABLE)
    } else if owner == u32::from(thread.get()) {
        Led::ends(Reply::EDEADLK)
    } else if owner == 0 {
        Led::goes(Row::Lock(LockRow::Take { seen: cell }))
    } else if cell.waiters() {
        Led::goes(Row::Lock(LockRow::Sleep { seen: cell }))
    } else {
        Led::goes(Row::Lock(LockRow::SetWaiters { seen: cell }))
    }
}

/// Where a lock goes on that found the mutex unusable: whoever sleeps there has to learn of it, too.
fn after_loss(cell: Cell) -> Row
    ensures value { result ≡ after_loss cell }
    ensures knows { Knows result }
{
    if cell.waiters() {
        Row::Lock(LockRow::WakeAll)
    } else {
        Row::Ended(Reply::ENOTRECOVERABLE)
    }
}
