//! Walks in progress.
ghost use Rattle.std.specs.Prelude.{ℕ, ◌≡◌, ◌≤◌, ◌<◌};
ghost use Rattle.posixmutex.specs.Objects.{held_limit};
ghost use Rattle.exitwalk.specs.Walks.{marked_word, to_pending, progress_at, Knows};

use crate::row::{Part, Rest, Row};
use lockword::{Cell, Reply, Tid};
use posixmutex::{HELD_LIMIT, Operation, Point};
use std::marker::Model;
use stepprograms::{Access, Answer, Progress, StepProgram};

/// How many entries of a list are loaded at most: as many as a thread may hold (`ROBUST_LIST_LIMIT` in the kernel).
const ENTRY_LIMIT: u16 = HELD_LIMIT;

/// The walk over the robust list of a thread that died.
#[derive(Clone, Copy, Debug, PartialEq, Eq)]
pub struct Walk {
    thread: Tid,
    head: u64,
    row: Row,
}

impl Model for Walk {
    ghost use Rattle.exitwalk.specs.Standings.{Standing};

    ghost Value = { Standing };

    ghost view = { λ w. record { thread = w.thread; head = w.head; row = w.row } };

    ghost use Rattle.exitwalk.specs.Walks.{Knows};

    ghost invariant = { λ w. Knows w.thread w.head w.row };

    ghost inverse = { λ s. record { thread = s.thread; head = s.head; row = s.row } };
}

impl Walk {
    ghost use Rattle.exitwalk.specs.Walks.{begun, walk_at, access_of, row_after, point_of};
    ghost use Rattle.exitwalk.specs.Walks.{moved, progress_of, IsGoing, IsCounted, Knows};
    ghost use Rattle.exitwalk.specs.Walks.{forward, goes_on, looks, after_next, after_mark, after_miss};

    /// The walk of a dead thread's list whose head is at an address. That may be any number, and so may the words
    /// there.
    pub fn new(thread: Tid, head: u64) -> Walk
        ensures { result ≡ begun thread head }
    {
        Walk {
            thread,
            head,
            row: Row::LoadFirst,
        }
    }

    /// The walk that is at a row: one that was kept elsewhere, as [`CodedRow`](crate::CodedRow) say, goes on from
    /// there.
    pub fn at(thread: Tid, head: u64, row: Row) -> Walk
        requires { Knows thread head row }
        ensures { result ≡ walk_at thread head row }
    {
        Walk { thread, head, row }
    }

    /// Where the walk stands.
    #[inline(always)]
    pub fn row(&self) -> Row
        ensures { result ≡ self.now.row }
    {
        self.row
    }

    /// The death that the answer tells of.
    fn point(&self, answer: Answer) -> Option<Point>
        ensures { result ≡ point_of self.now.thread self.now.row answer }
    {
        match self.row {
            Row::Mark { at, .. } => match answer {
                Answer::Exchanged => Some(Point {
                    thread: self.thread,
                    at,
                    operation: Operation::Death,
                    reply: Reply::OK,
                }),
                _ => None,
            },
            _ => None,
        }
    }

    /// Where each row leads. A fault, and an answer that the row's access doesn't have, is the end: what the list goes
    /// on with isn't known then.
    fn row_after(&self, answer: Answer) -> Row
        ensures value { result ≡ row_after self.now.thread self.now.head self.now.row answer }
        ensures knows { Knows self.now.thread self.now.head result }
    {
        match (self.row, answer) {
            // The head comes first: no entry can be treated before its mutex's offset is known, nor before it is known
            // which one is pending.
            (Row::LoadFirst, Answer::Value(first)) => Row::LoadOffset { first },
            (Row::LoadOffset { first }, Answer::Value(offset)) => Row::LoadPending {
                first,
                offset,
            },
            (Row::LoadPending { first, offset }, Answer::Value(pending)) => self.forward(Rest {
                entry: first,
                offset,
                pending,
                loaded: 0,
            }),
            // The next entry is loaded before this one is treated: once its word is marked, another thread may take the
            // mutex, and link its entry into another list.
            (Row::LoadNext(rest), Answer::Value(next)) => self.after_next(rest, next),
            (Row::LoadWord { at, part }, Answer::Value(word)) => self.looks(at, word, false, part),
            (Row::Mark { at, seen, part, .. }, Answer::Exchanged) => self.after_mark(
                at, seen, part,
            ),
            (
                Row::Mark {
                    at,
                    again,
                    part,
                    ..
                },
                Answer::Changed(found),
            ) => self.after_miss(at, found, again, part),
            // However many were woken: one that slept was, or nobody slept any more.
            (Row::WakeOne { part, .. }, Answer::Count(_)) => self.goes_on(part),
            _ => Row::Ended,
        }
    }

    /// Treats the word of an entry whose next one is known now. The pending entry is skipped here and treated once, at
    /// the end: its thread may have died before it was linked or after.
    fn after_next(&self, rest: Rest, next: u64) -> Row
        requires { rest.loaded < held_limit }
        ensures value { result ≡ after_next self.now.head rest next }
        ensures knows { Knows self.now.thread self.now.head result }
    {
        let further = Rest {
            entry: next,
            loaded: rest.loaded + 1,
            ..rest
        };
        if rest.entry == rest.pending {
            self.forward(further)
        } else {
            Row::LoadWord {
                at: rest.entry.wrapping_add(rest.offset),
                part: Part::List(further),
            }
        }
    }

    /// After a mark: who set WAITERS sleeps, or is about to find the word changed, and nobody else will wake it.
    fn after_mark(&self, at: u64, seen: u64, part: Part) -> Row
        requires { IsCounted part }
        ensures value { result ≡ after_mark self.now.head at seen part }
        ensures knows { Knows self.now.thread self.now.head result }
    {
        if Cell::new(seen).waiters() {
            Row::WakeOne { at, part }
        } else {
            self.goes_on(part)
        }
    }

    /// After an exchange that failed: the word that it found is looked at, once. While the dead thread owns a word, the
    /// library's own programs do nothing to it but set WAITERS, which is set once; so a second exchange can't fail in a
    /// run of theirs. Where it does, the word is another program's, and is left alone, so that the walk comes to its
    /// end on any memory.
    fn after_miss(&self, at: u64, found: u64, again: bool, part: Part) -> Row
        requires { IsCounted part }
        ensures value { result ≡ after_miss self.now.thread self.now.head at again part found }
        ensures knows { Knows self.now.thread self.now.head result }
    {
        if again {
            self.goes_on(part)
        } else {
            self.looks(at, found, true, part)
        }
    }

    /// What is done with a word that was seen, after an exchange that failed or before the first. It is marked where it
    /// is the dead thread's, and else left alone. But where nobody owns the pending entry's, one sleeper is woken: the
    /// dead thread may have released it and died before the wake that it owed, which nobody else makes.
    fn looks(&self, at: u64, word: u64, again: bool, part: Part) -> Row
        requires { IsCounted part }
        ensures value { result ≡ looks self.now.thread self.now.head at word again part }
        ensures knows { Knows self.now.thread self.now.head result }
    {
        let owner = Cell::new(word).owner();
        if part == Part::Pending && owner == 0 {
            Row::WakeOne { at, part }
        } else if owner == u32::from(self.thread.get()) {
            Row::Mark {
                at,
                seen: word,
                again,
                part,
            }
        } else {
            self.goes_on(part)
        }
    }

    fn goes_on(&self, part: Part) -> Row
        requires { IsCounted part }
        ensures value { result ≡ goes_on self.now.head part }
        ensures knows { Knows self.now.thread self.now.head result }
    {
        match part {
            Part::List(rest) => self.forward(rest),
            Part::Pending => Row::Ended,
        }
    }

    /// On to the next entry; at the list's end, and after as many entries as may be loaded, on to the pending one.
    fn forward(&self, rest: Rest) -> Row
        requires { rest.loaded ≤ held_limit }
        ensures value { result ≡ forward self.now.head rest }
        ensures knows { Knows self.now.thread self.now.head result }
    {
        if rest.entry == self.head || rest.loaded == ENTRY_LIMIT {
            to_pending(rest.offset, rest.pending)
        } else {
            Row::LoadNext(rest)
        }
    }
}

impl StepProgram for Walk {
    ghost use Rattle.exitwalk.specs.Walks.{access_of, moved, progress_of, IsGoing};

    ghost is_under_way = { λ w. IsGoing w.row };

    ghost access = { λ w. access_of w };

    ghost moved = { λ w x. moved w x };

    ghost progress = { λ w x. progress_of w x };

    fn next(&self) -> Access {
        match self.row {
            Row::LoadFirst => Access::Load { at: self.head },
            Row::LoadOffset { .. } => Access::Load {
                at: self.head.wrapping_add(1),
            },
            Row::LoadPending { .. } => Access::Load {
                at: self.head.wrapping_add(2),
            },
            Row::LoadNext(rest) => Access::Load { at: rest.entry },
            Row::LoadWord { at, .. } => Access::Load { at },
            Row::Mark { at, seen, .. } => Access::Exchange {
                at,
                expected: seen,
                new: marked(seen),
            },
            Row::WakeOne { at, .. } => Access::Wake { at, most: 1 },
            Row::Ended => unreachable!(),
        }
    }

    /// Goes on with an answer. `Fault`, or an answer that no such access has, ends the walk. At its end it returns
    /// `OK`. The exchange that marks a word is the owner's death there.
    fn resume(&mut self, answer: Answer) -> Progress {
        let point = self.point(answer);
        let row = self.row_after(answer);
        let progress = progress(&row, point);
        *self = Walk {
            thread: self.thread,
            head: self.head,
            row,
        };
        progress
    }
}

/// The pending entry's turn; the end where there is none.
fn to_pending(offset: u64, pending: u64) -> Row
    ensures value { result ≡ to_pending offset pending }
    ensures knows { (thread head : ℕ) → Knows thread head result }
{
    if pending == 0 {
        Row::Ended
    } else {
        Row::LoadWord {
            at: pending.wrapping_add(offset),
            part: Part::Pending,
        }
    }
}

/// What a mark makes of a word.
fn marked(word: u64) -> u64
    ensures { result ≡ marked_word word }
{
    Cell::new(word).marked().word()
}

/// How far the walk is at a row, with the point where the access before it was one.
fn progress(row: &Row, point: Option<Point>) -> Progress
    ensures { result ≡ progress_at point row.now }
{
    match *row {
        Row::Ended => Progress::Returns {
            reply: Reply::OK,
            point,
        },
        _ => Progress::Goes { point },
    }
}
