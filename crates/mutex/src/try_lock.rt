//! Trylock.
ghost use Rattle.std.specs.Prelude.{◌≡◌, ◌≤◌};
ghost use Rattle.mutex.specs.Rows.{Knows};
ghost use Rattle.mutex.specs.TryLock.{try_access, try_resume, try_sees};
ghost use Rattle.mutex.specs.declared.row.Row.TheVariants.{TryLock};

use crate::row::{Led, Row, acquired};
use lockword::{Cell, Reply, Tid};
use stepprograms::{Access, Answer};

/// How many exchanges of one call may meet a changed cell.
const TRIES: u64 = 4;

/// Where a trylock stands.
#[derive(Clone, Copy, Debug, PartialEq, Eq)]
pub enum TryLockRow {
    /// Loads the cell.
    Load,
    /// Takes the cell, which was unowned and usable when it saw it. This many of its exchanges have failed: a
    /// count as wide as the cell, since a row is moved by value at each access, and padding beside a narrower one
    /// goes through memory.
    Take { seen: Cell, failed: u64 },
}

pub(crate) fn next(thread: Tid, cell: u64, row: &TryLockRow) -> Access
    requires { Knows (TryLock row.now) }
    ensures { result ≡ try_access thread cell row.now }
{
    match *row {
        TryLockRow::Load => Access::Load { at: cell },
        TryLockRow::Take { seen, .. } => Access::Exchange {
            at: cell,
            expected: seen.word(),
            new: seen.taken(thread).word(),
        },
    }
}

#[inline(always)]
pub(crate) fn resume(row: &TryLockRow, answer: Answer) -> Led
    requires { Knows (TryLock row.now) }
    ensures value { result ≡ try_resume row.now answer }
    ensures knows { Knows result.row }
{
    match *row {
        TryLockRow::Load => match answer {
            Answer::Value(word) => sees(Cell::new(word), 0),
            _ => Led::faults(),
        },
        TryLockRow::Take { seen, failed } => match answer {
            Answer::Exchanged => Led::ends(acquired(seen)),
            Answer::Changed(word) => sees(Cell::new(word), failed + 1),
            _ => Led::faults(),
        },
    }
}

/// Decides on a cell, after this many failed exchanges.
fn sees(cell: Cell, failed: u64) -> Led
    requires { failed ≤ 4 }
    ensures value { result ≡ try_sees failed cell }
    ensures knows { Knows result.row }
{
    if cell.unusable() {
        Led::ends(Reply::ENOTRECOVERABLE)
    } else if cell.owner() != 0 {
        Led::ends(Reply::EBUSY)
    } else if failed == TRIES {
        Led::ends(Reply::XRACED)
    } else {
        Led::goes(Row::TryLock(TryLockRow::Take { seen: cell, failed }))
    }
}
