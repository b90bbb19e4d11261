//! Consistent.
ghost use Rattle.std.specs.Prelude.{◌≡◌};
ghost use Rattle.mutex.specs.Rows.{Knows};
ghost use Rattle.mutex.specs.Consistent.{consistent_access, consistent_resume, consistent_sees};

use crate::row::{Led, Row};
use lockword::{Cell, OWNER_DIED, Reply, Tid};
use stepprograms::{Access, Answer};

/// Where a declaration stands that a mutex is consistent.
#[derive(Clone, Copy, Debug, PartialEq, Eq)]
pub enum ConsistentRow {
    /// Loads the cell.
    Load,
    /// Clears OWNER_DIED in the cell that it owns.
    Declare,
}

pub(crate) fn next(cell: u64, row: &ConsistentRow) -> Access
    ensures { result ≡ consistent_access cell row.now }
{
    match *row {
        ConsistentRow::Load => Access::Load { at: cell },
        ConsistentRow::Declare => Access::FetchAnd {
            at: cell,
            operand: !OWNER_DIED,
        },
    }
}

#[inline(always)]
pub(crate) fn resume(thread: Tid, row: &ConsistentRow, answer: Answer) -> Led
    ensures value { result ≡ consistent_resume thread row.now answer }
    ensures knows { Knows result.row }
{
    match *row {
        ConsistentRow::Load => match answer {
            Answer::Value(word) => sees(thread, Cell::new(word)),
            _ => Led::faults(),
        },
        ConsistentRow::Declare => match answer {
            Answer::Value(_) => Led::ends(Reply::OK),
            _ => Led::faults(),
        },
    }
}

fn sees(thread: Tid, cell: Cell) -> Led
    ensures value { result ≡ consistent_sees thread cell }
    ensures knows { Knows result.row }
{
    if cell.owner() != u32::from(thread.get()) {
        Led::ends(Reply::EPERM)
    } else if cell.owner_died() {
        Led::goes(Row::Consistent(ConsistentRow::Declare))
    } else {
        Led::ends(Reply::EINVAL)
    }
}
