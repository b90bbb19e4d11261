//! An entry is taken out of a list.
ghost use Rattle.std.specs.Prelude.{◌≡◌};
ghost use Rattle.robustlist.specs.Unlink.{unlink_progress, unlink_stored};

use lockword::Reply;
use std::marker::Model;
use stepprograms::{Access, Answer, Progress, StepProgram};

/// Where an unlink stands: the access that it makes next, and what the entry's two words were: the addresses of the
/// entry after it and of the one before it, or the head's.
#[derive(Clone, Copy, Debug, PartialEq, Eq)]
pub enum UnlinkRow {
    /// Loads the entry's next word.
    LoadNext,
    /// Loads the entry's previous word.
    LoadPrevious { next: u64 },
    /// Stores the next word of the one before: the list is now without the entry.
    StoreNext { next: u64, previous: u64 },
    /// Stores the previous word of the entry after.
    StorePrevious { next: u64, previous: u64 },
    /// The call has returned.
    Ended(Reply),
}

/// An entry on its way out of a list (robust-futex-ABI). It makes 3 accesses where the entry is the last, and else 4;
/// the entry's own words stay.
///
/// The entry is one of the list, which is a chain both ways. No other thread writes the words of the list.
#[derive(Clone, Copy, Debug, PartialEq, Eq)]
pub struct Unlink {
    head: u64,
    entry: u64,
    row: UnlinkRow,
}

impl Model for Unlink {
    ghost use Rattle.robustlist.specs.Standings.{UnlinkStanding};

    ghost Value = { UnlinkStanding };

    ghost view = { λ u. record { head = u.head; entry = u.entry; row = u.row } };

    ghost inverse = { λ s. record { head = s.head; entry = s.entry; row = s.row } };
}

impl Unlink {
    ghost use Rattle.robustlist.specs.Unlink.{unlink_started, unlink_at, unlink_access_of};
    ghost use Rattle.robustlist.specs.Unlink.{unlink_moved, unlink_resume, unlink_after_next, UnlinkGoes};

    /// The unlink of an entry, by its address, from the list whose head is at an address. Addresses count 64-bit words.
    #[inline(always)]
    pub fn new(head: u64, entry: u64) -> Unlink
        ensures { result ≡ unlink_started head entry }
    {
        Unlink {
            head,
            entry,
            row: UnlinkRow::LoadNext,
        }
    }

    /// The unlink that is at a row: one that was kept elsewhere goes on from there.
    #[inline(always)]
    pub fn at(head: u64, entry: u64, row: UnlinkRow) -> Unlink
        ensures { result ≡ unlink_at head entry row }
    {
        Unlink { head, entry, row }
    }

    /// Where the unlink stands.
    #[inline(always)]
    pub fn row(&self) -> UnlinkRow
        ensures { result ≡ self.now.row }
    {
        self.row
    }

    /// Where an answer leads.
    #[inline(always)]
    fn led(&self, answer: Answer) -> UnlinkRow
        ensures { result ≡ unlink_resume self.now.head self.now.row answer }
    {
        match self.row {
            UnlinkRow::LoadNext => match answer {
                Answer::Value(next) => UnlinkRow::LoadPrevious { next },
                _ => UnlinkRow::Ended(Reply::EFAULT),
            },
            UnlinkRow::LoadPrevious { next } => match answer {
                Answer::Value(previous) => UnlinkRow::StoreNext { next, previous },
                _ => UnlinkRow::Ended(Reply::EFAULT),
            },
            UnlinkRow::StoreNext { next, previous } => {
                stored(answer, self.after_next(next, previous))
            }
            UnlinkRow::StorePrevious { .. } => stored(answer, UnlinkRow::Ended(Reply::OK)),
            UnlinkRow::Ended(reply) => UnlinkRow::Ended(reply),
        }
    }

    /// The row after the store that took the entry out: after the last entry comes the head, which has no previous
    /// word.
    #[inline(always)]
    fn after_next(&self, next: u64, previous: u64) -> UnlinkRow
        ensures { result ≡ unlink_after_next self.now.head next previous }
    {
        if next == self.head {
            UnlinkRow::Ended(Reply::OK)
        } else {
            UnlinkRow::StorePrevious { next, previous }
        }
    }
}

impl StepProgram for Unlink {
    ghost use Rattle.robustlist.specs.Unlink.{unlink_access_of, unlink_moved, unlink_progress, UnlinkGoes};

    ghost is_under_way = { λ u. UnlinkGoes u.row };

    ghost access = { λ u. unlink_access_of u };

    ghost moved = { λ u x. unlink_moved u x };

    ghost progress = { λ u x. unlink_progress (unlink_moved u x).row };

    #[inline(always)]
    fn next(&self) -> Access {
        match self.row {
            UnlinkRow::LoadNext => Access::Load { at: self.entry },
            UnlinkRow::LoadPrevious { .. } => Access::Load {
                at: self.entry.wrapping_add(1),
            },
            UnlinkRow::StoreNext { next, previous } => Access::Store {
                at: previous,
                value: next,
            },
            UnlinkRow::StorePrevious { next, previous } => Access::Store {
                at: next.wrapping_add(1),
                value: previous,
            },
            UnlinkRow::Ended(_) => unreachable!(),
        }
    }

    /// Goes on with an answer. One that no such access has counts as `Fault`, after which the unlink returns `EFAULT`
    /// and has left what its earlier accesses did. Else it returns `OK` in the end.
    #[inline(always)]
    fn resume(&mut self, answer: Answer) -> Progress {
        let row = self.led(answer);
        self.row = row;
        progress(&row)
    }
}

/// The row that a store leads to.
#[inline(always)]
fn stored(answer: Answer, row: UnlinkRow) -> UnlinkRow
    ensures { result ≡ unlink_stored answer row }
{
    match answer {
        Answer::Stored => row,
        _ => UnlinkRow::Ended(Reply::EFAULT),
    }
}

/// How far the unlink is at a row.
#[inline(always)]
fn progress(row: &UnlinkRow) -> Progress
    ensures { result ≡ unlink_progress row.now }
{
    match *row {
        UnlinkRow::Ended(reply) => Progress::Returns { reply, point: None },
        _ => Progress::Goes { point: None },
    }
}
