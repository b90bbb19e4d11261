//! Where walks stand, as plain numbers.
ghost use Rattle.std.specs.Prelude.{ℕ, Bool, ◌≡◌, IfSome, Some};
ghost use Rattle.exitwalk.specs.Codings.{rest_code, first_code, part_code};
ghost use Rattle.exitwalk.specs.Walks.{IsCounted};

use crate::row::{Part, Rest, Row};
use lockword::{Cell, Tid};
use posixmutex::HELD_LIMIT;

/// Where a walk stands, as plain numbers, for whoever keeps it where the walker's own death can't reach: in a file that
/// processes share.
///
/// `kind` names the row; `specs/Codings.antt` has the table. What that row doesn't carry is 0.
#[repr(C)]
#[derive(Clone, Copy, Debug, PartialEq, Eq)]
pub struct CodedRow {
    /// The address of the word that is treated.
    pub at: u64,
    /// That word as it was seen.
    pub seen: u64,
    /// The entry that comes next.
    pub entry: u64,
    /// From an entry to its mutex's word, modulo 2^64.
    pub offset: u64,
    /// The pending entry.
    pub pending: u64,
    /// How many entries were loaded, 2,048 at most.
    pub loaded: u16,
    /// The row.
    pub kind: u8,
    /// 1 where one exchange has failed already.
    pub again: u8,
    /// 1 where the word is the pending entry's.
    pub of_pending: u8,
}

impl CodedRow {
    ghost use Rattle.exitwalk.specs.Codings.{row_code};
    ghost use Rattle.exitwalk.specs.Walks.{IsGoing, Knows};
    ghost use Rattle.exitwalk.specs.declared.row.Row.{Row};
    ghost use Rattle.exitwalk.specs.declared.row.Part.{Part};

    /// The numbers of a row.
    pub fn of(row: &Row) -> CodedRow
        ensures { result ≡ row_code row.now }
    {
        match *row {
            Row::LoadFirst => coded_first(1, 0, 0),
            Row::LoadOffset { first } => coded_first(2, first, 0),
            Row::LoadPending { first, offset } => coded_first(3, first, offset),
            Row::LoadNext(rest) => coded_rest(4, rest),
            Row::LoadWord { at, part } => coded_part(5, at, 0, false, part),
            Row::Mark {
                at,
                seen,
                again,
                part,
            } => coded_part(6, at, seen, again, part),
            Row::WakeOne { at, part } => coded_part(7, at, 0, false, part),
            Row::Ended => coded_first(0, 0, 0),
        }
    }

    /// The row whose numbers these are, of a walk of this thread's list that hasn't ended; `None` where no such row has
    /// them.
    pub fn row(&self, thread: Tid, head: u64) -> Option<Row>
        ensures has_these { IfSome result (λ r. IsGoing r × Knows thread head r × (row_code r ≡ self.now)) }
        ensures each { (r : Row) → IsGoing r → Knows thread head r → row_code r ≡ self.now → result ≡ Some r }
    {
        let row = self.read(thread, head)?;
        if CodedRow::of(&row) == *self {
            Some(row)
        } else {
            None
        }
    }

    /// The only row that may have these numbers.
    fn read(&self, thread: Tid, head: u64) -> Option<Row>
        ensures knows { IfSome result (λ r. IsGoing r × Knows thread head r) }
        ensures each { (r : Row) → IsGoing r → Knows thread head r → row_code r ≡ self.now → result ≡ Some r }
    {
        let first = self.entry;
        let at = self.at;
        let kind = self.kind;
        if kind == 1 {
            Some(Row::LoadFirst)
        } else if kind == 2 {
            Some(Row::LoadOffset { first })
        } else if kind == 3 {
            Some(Row::LoadPending {
                first,
                offset: self.offset,
            })
        } else if kind == 4 {
            if first == head || HELD_LIMIT <= self.loaded {
                return None;
            }
            Some(Row::LoadNext(self.rest()))
        } else if kind == 5 {
            let part = self.part()?;
            Some(Row::LoadWord { at, part })
        } else if kind == 6 {
            let seen = self.seen;
            if Cell::new(seen).owner() != u32::from(thread.get()) {
                return None;
            }
            let part = self.part()?;
            Some(Row::Mark {
                at,
                seen,
                again: self.again == 1,
                part,
            })
        } else if kind == 7 {
            let part = self.part()?;
            Some(Row::WakeOne { at, part })
        } else {
            None
        }
    }

    fn rest(&self) -> Rest
        ensures { result
            ≡ record
            { entry = self.now.entry; offset = self.now.offset; pending = self.now.pending; loaded = self.now.loaded } }
    {
        Rest {
            entry: self.entry,
            offset: self.offset,
            pending: self.pending,
            loaded: self.loaded,
        }
    }

    fn part(&self) -> Option<Part>
        ensures counted { IfSome result (λ p. IsCounted p) }
        ensures each { (kind at seen : ℕ) (again : Bool) (p : Part) → IsCounted p
            → part_code kind at seen again p ≡ self.now → result ≡ Some p }
    {
        let loaded = self.loaded;
        if self.of_pending == 1 {
            Some(Part::Pending)
        } else if loaded < 1 || HELD_LIMIT < loaded {
            None
        } else {
            Some(Part::List(self.rest()))
        }
    }
}

fn coded_rest(kind: u8, rest: Rest) -> CodedRow
    ensures { result ≡ rest_code kind rest }
{
    CodedRow {
        at: 0,
        seen: 0,
        entry: rest.entry,
        offset: rest.offset,
        pending: rest.pending,
        loaded: rest.loaded,
        kind,
        again: 0,
        of_pending: 0,
    }
}

fn coded_first(kind: u8, entry: u64, offset: u64) -> CodedRow
    ensures { result ≡ first_code kind entry offset }
{
    coded_rest(
        kind,
        Rest {
            entry,
            offset,
            pending: 0,
            loaded: 0,
        },
    )
}

fn coded_part(kind: u8, at: u64, seen: u64, again: bool, part: Part) -> CodedRow
    ensures { result ≡ part_code kind at seen again part }
{
    let again = if again { 1 } else { 0 };
    match part {
        Part::List(rest) => CodedRow {
            at,
            seen,
            again,
            ..coded_rest(kind, rest)
        },
        Part::Pending => CodedRow {
            at,
            seen,
            again,
            of_pending: 1,
            ..coded_first(kind, 0, 0)
        },
    }
}
