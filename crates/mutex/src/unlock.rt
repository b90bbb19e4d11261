//! Unlock.
ghost use Rattle.std.specs.Prelude.{◌≡◌};
ghost use Rattle.mutex.specs.Rows.{Knows};
ghost use Rattle.mutex.specs.Unlock.{unlock_access, unlock_resume, unlock_sees};
ghost use Rattle.mutex.specs.Unlock.{after_release, after_wake, released_bits};

use crate::row::{Led, Row};
use lockword::{Cell, OWNER_DIED, Reply, Tid, UNUSABLE};
use stepprograms::{ALL, Access, Answer};

/// Where an unlock stands.
#[derive(Clone, Copy, Debug, PartialEq, Eq)]
pub enum UnlockRow {
    /// Loads the cell.
    Load,
    /// Releases the cell that it owns, in which OWNER_DIED is as noted: set, it makes the mutex unusable.
    Release { died: bool },
    /// Wakes one sleeper, or all of an unusable mutex.
    Wake { all: bool },
    /// Clears WAITERS, where that is all that the cell says and nobody sleeps on it.
    Trim,
}

pub(crate) fn next(thread: Tid, cell: u64, row: &UnlockRow) -> Access
    ensures { result ≡ unlock_access thread cell row.now }
{
    match *row {
        UnlockRow::Load => Access::Load { at: cell },
        UnlockRow::Release { died } => Access::FetchXor {
            at: cell,
            operand: released_bits(thread, died),
        },
        UnlockRow::Wake { all } => Access::Wake {
            at: cell,
            most: if all { ALL } else { 1 },
        },
        UnlockRow::Trim => Access::Trim { at: cell },
    }
}

#[inline(always)]
pub(crate) fn resume(thread: Tid, row: &UnlockRow, answer: Answer) -> Led
    ensures value { result ≡ unlock_resume thread row.now answer }
    ensures knows { Knows result.row }
{
    match *row {
        UnlockRow::Load => match answer {
            Answer::Value(word) => sees(thread, Cell::new(word)),
            _ => Led::faults(),
        },
        UnlockRow::Release { died } => match answer {
            Answer::Value(word) => Led::decides(after_release(died, Cell::new(word)), Reply::OK),
            _ => Led::faults(),
        },
        UnlockRow::Wake { all } => match answer {
            Answer::Count(woken) => Led::goes(after_wake(all, woken)),
            _ => Led::faults(),
        },
        UnlockRow::Trim => match answer {
            Answer::Trimmed(_) => Led::goes(Row::Ended(Reply::OK)),
            _ => Led::faults(),
        },
    }
}

fn sees(thread: Tid, cell: Cell) -> Led
    ensures value { result ≡ unlock_sees thread cell }
    ensures knows { Knows result.row }
{
    if cell.owner() == u32::from(thread.get()) {
        Led::goes(Row::Unlock(UnlockRow::Release {
            died: cell.owner_died(),
        }))
    } else {
        Led::ends(Reply::EPERM)
    }
}

/// Where a release leads that found this cell.
fn after_release(died: bool, found: Cell) -> Row
    ensures value { result ≡ after_release died found }
    ensures knows { Knows result }
{
    if found.waiters() {
        Row::Unlock(UnlockRow::Wake { all: died })
    } else {
        Row::Ended(Reply::OK)
    }
}

/// Where a wake leads that woke this many: where it was to wake one sleeper and found none, WAITERS need not stay.
fn after_wake(all: bool, woken: u32) -> Row
    ensures value { result ≡ after_wake all woken }
    ensures knows { Knows result }
{
    if !all && woken == 0 {
        Row::Unlock(UnlockRow::Trim)
    } else {
        Row::Ended(Reply::OK)
    }
}

/// What a release flips: the owner's id, and where the mutex becomes unusable OWNER_DIED and UNUSABLE too.
fn released_bits(thread: Tid, died: bool) -> u64
    ensures { result ≡ released_bits thread died }
{
    let id = u64::from(thread.get());
    if died { id + OWNER_DIED + UNUSABLE } else { id }
}
