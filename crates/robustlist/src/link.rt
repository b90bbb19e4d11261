//! An entry is put in front of a list.
ghost use Rattle.std.specs.Prelude.{◌≡◌};
ghost use Rattle.robustlist.specs.Link.{link_progress, link_stored};

use lockword::Reply;
use std::marker::Model;
use stepprograms::{Access, Answer, Progress, StepProgram};

/// Where a link stands: the access that it makes next, and the first entry so far (the head's own address where the
/// list was empty).
#[derive(Clone, Copy, Debug, PartialEq, Eq)]
pub enum LinkRow {
    /// Loads the head's first word.
    LoadFirst,
    /// Stores the entry's next word.
    StoreNext { first: u64 },
    /// Stores the entry's previous word.
    StorePrevious { first: u64 },
    /// Stores the previous word of the entry that was first.
    StoreBehind { first: u64 },
    /// Stores the head's first word: the list now has the entry.
    StoreFirst,
    /// The call has returned.
    Ended(Reply),
}

/// An entry on its way to the front of a list (robust-futex-ABI). It makes 4 accesses where the list is empty, and else
/// 5.
///
/// The entry's two words lie apart from those of the head and of the list's entries. No other thread writes the words
/// of the list.
#[derive(Clone, Copy, Debug, PartialEq, Eq)]
pub struct Link {
    head: u64,
    entry: u64,
    row: LinkRow,
}

impl Model for Link {
    ghost use Rattle.robustlist.specs.Standings.{LinkStanding};

    ghost Value = { LinkStanding };

    ghost view = { λ l. record { head = l.head; entry = l.entry; row = l.row } };

    ghost inverse = { λ s. record { head = s.head; entry = s.entry; row = s.row } };
}

impl Link {
    ghost use Rattle.robustlist.specs.Link.{link_started, link_at, link_access_of};
    ghost use Rattle.robustlist.specs.Link.{link_moved, link_resume, link_after_both, LinkGoes};

    /// The link of an entry, by its address, into the list whose head is at an address. Addresses count 64-bit words.
    #[inline(always)]
    pub fn new(head: u64, entry: u64) -> Link
        ensures { result ≡ link_started head entry }
    {
        Link {
            head,
            entry,
            row: LinkRow::LoadFirst,
        }
    }

    /// The link that is at a row: one that was kept elsewhere goes on from there.
    #[inline(always)]
    pub fn at(head: u64, entry: u64, row: LinkRow) -> Link
        ensures { result ≡ link_at head entry row }
    {
        Link { head, entry, row }
    }

    /// Where the link stands.
    #[inline(always)]
    pub fn row(&self) -> LinkRow
        ensures { result ≡ self.now.row }
    {
        self.row
    }

    /// Where an answer leads.
    #[inline(always)]
    fn led(&self, answer: Answer) -> LinkRow
        ensures { result ≡ link_resume self.now.head self.now.row answer }
    {
        match self.row {
            LinkRow::LoadFirst => match answer {
                Answer::Value(first) => LinkRow::StoreNext { first },
                _ => LinkRow::Ended(Reply::EFAULT),
            },
            LinkRow::StoreNext { first } => stored(answer, LinkRow::StorePrevious { first }),
            LinkRow::StorePrevious { first } => stored(answer, self.after_both(first)),
            LinkRow::StoreBehind { .. } => stored(answer, LinkRow::StoreFirst),
            LinkRow::StoreFirst => stored(answer, LinkRow::Ended(Reply::OK)),
            LinkRow::Ended(reply) => LinkRow::Ended(reply),
        }
    }

    /// The row after the stores to the entry's own words: in an empty list no entry was first.
    #[inline(always)]
    fn after_both(&self, first: u64) -> LinkRow
        ensures { result ≡ link_after_both self.now.head first }
    {
        if first == self.head {
            LinkRow::StoreFirst
        } else {
            LinkRow::StoreBehind { first }
        }
    }
}

impl StepProgram for Link {
    ghost use Rattle.robustlist.specs.Link.{link_access_of, link_moved, link_progress, LinkGoes};

    ghost is_under_way = { λ l. LinkGoes l.row };

    ghost access = { λ l. link_access_of l };

    ghost moved = { λ l x. link_moved l x };

    ghost progress = { λ l x. link_progress (link_moved l x).row };

    #[inline(always)]
    fn next(&self) -> Access {
        match self.row {
            LinkRow::LoadFirst => Access::Load { at: self.head },
            LinkRow::StoreNext { first } => Access::Store {
                at: self.entry,
                value: first,
            },
            LinkRow::StorePrevious { .. } => Access::Store {
                at: self.entry.wrapping_add(1),
                value: self.head,
            },
            LinkRow::StoreBehind { first } => Access::Store {
                at: first.wrapping_add(1),
                value: self.entry,
            },
            LinkRow::StoreFirst => Access::Store {
                at: self.head,
                value: self.entry,
            },
            LinkRow::Ended(_) => unreachable!(),
        }
    }

    /// Goes on with an answer. One that no such access has counts as `Fault`, after which the link returns `EFAULT` and
    /// has left what its earlier accesses did. Else it returns `OK` in the end.
    #[inline(always)]
    fn resume(&mut self, answer: Answer) -> Progress {
        let row = self.led(answer);
        self.row = row;
        progress(&row)
    }
}

/// The row that a store leads to.
#[inline(always)]
fn stored(answer: Answer, row: LinkRow) -> LinkRow
    ensures { result ≡ link_stored answer row }
{
    match answer {
        Answer::Stored => row,
        _ => LinkRow::Ended(Reply::EFAULT),
    }
}

/// How far the link is at a row.
#[inline(always)]
fn progress(row: &LinkRow) -> Progress
    ensures { result ≡ link_progress row.now }
{
    match *row {
        LinkRow::Ended(reply) => Progress::Returns { reply, point: None },
        _ => Progress::Goes { point: None },
    }
}
