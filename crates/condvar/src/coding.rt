//! Where calls stand, as plain numbers.
ghost use Rattle.std.specs.Prelude.{ℕ, ◌≡◌, IfSome, Some};
ghost use Rattle.condvar.specs.Codings.{plain, ended, row_code, unlink_code};
ghost use Rattle.condvar.specs.Rows.{IsGoing};
ghost use Rattle.robustlist.specs.Unlink.{UnlinkGoes};
ghost use Rattle.robustlist.specs.declared.unlink.UnlinkRow.{UnlinkRow};
ghost use Rattle.condvar.specs.declared.row.CondRow.{CondRow};

use crate::broadcast::BroadcastRow;
use crate::phase::CondPhase;
use crate::row::CondRow;
use crate::signal::SignalRow;
use crate::wait::WaitRow;
use lockword::{Reply, Tid};
use mutex::{CodedPhase, Program};
use posixmutex::Operation;
use robustlist::{Unlink, UnlinkRow};

/// Where a call on a condition variable stands, as plain numbers, for whoever keeps it outside Rattle.
///
/// `kind` names the phase and its row; `specs/Codings.antt` has the table. What that phase doesn't carry is 0.
#[repr(C)]
#[derive(Clone, Copy, Debug, PartialEq, Eq)]
pub struct CodedCondPhase {
    /// The lock that ends a wait; of other phases the entries that were seen, and the reply.
    pub lock: CodedPhase,
    /// The low half of the counter, as it was seen.
    pub seen: u32,
    /// The phase and its row.
    pub kind: u8,
}

impl CodedCondPhase {
    ghost use Rattle.condvar.specs.Codings.{phase_code, LiesAt};
    ghost use Rattle.condvar.specs.declared.phase.CondPhase.{CondPhase};
    ghost use Rattle.condvar.specs.Whole.{IsUnderWay, PhaseKnows};

    /// The numbers of a phase.
    pub fn of(phase: &CondPhase) -> CodedCondPhase
        ensures { result ≡ phase_code phase.now }
    {
        match *phase {
            CondPhase::AtWords(row) => coded_row(&row),
            CondPhase::Announcing { seen } => plain(15, seen, 0, 0),
            CondPhase::Unlinking { unlink, seen } => coded_unlink(&unlink.row(), seen),
            CondPhase::Locking(lock) => CodedCondPhase {
                lock: CodedPhase::of(&lock.phase()),
                seen: 0,
                kind: 20,
            },
            CondPhase::Ended(reply) => ended(reply),
        }
    }

    /// The phase whose numbers these are, of a call of this thread that hasn't returned, whose head, whose mutex's
    /// entry and whose cell are at these addresses; `None` where no such phase has them.
    pub fn phase(&self, thread: Tid, head: u64, entry: u64, cell: u64) -> Option<CondPhase>
        ensures has_these { IfSome result
            (λ f. IsUnderWay f × PhaseKnows f × LiesAt thread head entry cell f × (phase_code f ≡ self.now)) }
        ensures each { (f : CondPhase) → IsUnderWay f → PhaseKnows f → LiesAt thread head entry cell f
            → phase_code f ≡ self.now → result ≡ Some f }
    {
        let phase = self.read(thread, head, entry, cell)?;
        if CodedCondPhase::of(&phase) == *self {
            Some(phase)
        } else {
            None
        }
    }

    /// The only phase that may have these numbers.
    fn read(&self, thread: Tid, head: u64, entry: u64, cell: u64) -> Option<CondPhase>
        ensures knows { IfSome result (λ f. IsUnderWay f × PhaseKnows f × LiesAt thread head entry cell f) }
        ensures each { (f : CondPhase) → IsUnderWay f → PhaseKnows f → LiesAt thread head entry cell f
            → phase_code f ≡ self.now → result ≡ Some f }
    {
        let kind = self.kind;
        let seen = self.seen;
        if kind < 15 {
            let row = read_row(kind, seen)?;
            Some(CondPhase::AtWords(row))
        } else if kind == 15 {
            Some(CondPhase::Announcing { seen })
        } else if kind < 20 {
            let row = read_unlink(kind, self.lock.x, self.lock.y)?;
            Some(CondPhase::Unlinking {
                unlink: Unlink::at(head, entry, row),
                seen,
            })
        } else if kind == 20 {
            let phase = self.lock.phase(head, entry)?;
            Some(CondPhase::Locking(Program::at(thread, Operation::Lock, head, entry, cell, phase)))
        } else {
            None
        }
    }
}

fn plain(kind: u8, seen: u32, x: u64, y: u64) -> CodedCondPhase
    ensures { result ≡ plain kind seen x y }
{
    CodedCondPhase {
        lock: CodedPhase {
            x,
            y,
            reply: 0,
            kind: 0,
            flag: 0,
        },
        seen,
        kind,
    }
}

fn ended(reply: Reply) -> CodedCondPhase
    ensures { result ≡ ended reply }
{
    CodedCondPhase {
        lock: CodedPhase {
            x: 0,
            y: 0,
            reply: reply.number(),
            kind: 0,
            flag: 0,
        },
        seen: 0,
        kind: 0,
    }
}

fn coded_row(row: &CondRow) -> CodedCondPhase
    ensures { result ≡ row_code row.now }
{
    match *row {
        CondRow::Wait(WaitRow::LoadCell) => plain(1, 0, 0, 0),
        CondRow::Wait(WaitRow::LoadCounter) => plain(2, 0, 0, 0),
        CondRow::Wait(WaitRow::Release { seen }) => plain(3, seen, 0, 0),
        CondRow::Wait(WaitRow::Wake { seen }) => plain(4, seen, 0, 0),
        CondRow::Wait(WaitRow::Sleep { seen }) => plain(5, seen, 0, 0),
        CondRow::Signal(SignalRow::LoadCell) => plain(6, 0, 0, 0),
        CondRow::Signal(SignalRow::LoadCounter) => plain(7, 0, 0, 0),
        CondRow::Signal(SignalRow::Count) => plain(8, 0, 0, 0),
        CondRow::Signal(SignalRow::Wake) => plain(9, 0, 0, 0),
        CondRow::Broadcast(BroadcastRow::LoadCell) => plain(10, 0, 0, 0),
        CondRow::Broadcast(BroadcastRow::LoadCounter) => plain(11, 0, 0, 0),
        CondRow::Broadcast(BroadcastRow::Count { seen }) => plain(12, seen, 0, 0),
        CondRow::Broadcast(BroadcastRow::SetWaiters { seen }) => plain(13, seen, 0, 0),
        CondRow::Broadcast(BroadcastRow::Move { seen }) => plain(14, seen, 0, 0),
        CondRow::Awake => ended(Reply::EFAULT),
        CondRow::Ended(reply) => ended(reply),
    }
}

fn coded_unlink(row: &UnlinkRow, seen: u32) -> CodedCondPhase
    ensures { result ≡ unlink_code seen row.now }
{
    match *row {
        UnlinkRow::LoadNext => plain(16, seen, 0, 0),
        UnlinkRow::LoadPrevious { next } => plain(17, seen, next, 0),
        UnlinkRow::StoreNext { next, previous } => plain(18, seen, next, previous),
        UnlinkRow::StorePrevious { next, previous } => plain(19, seen, next, previous),
        UnlinkRow::Ended(reply) => ended(reply),
    }
}

fn read_row(kind: u8, seen: u32) -> Option<CondRow>
    ensures goes { IfSome result (λ r. IsGoing r) }
    ensures each { (r : CondRow) → IsGoing r → (row_code r).kind ≡ kind → (row_code r).seen ≡ seen → result ≡ Some r }
{
    match kind {
        1 => Some(CondRow::Wait(WaitRow::LoadCell)),
        2 => Some(CondRow::Wait(WaitRow::LoadCounter)),
        3 => Some(CondRow::Wait(WaitRow::Release { seen })),
        4 => Some(CondRow::Wait(WaitRow::Wake { seen })),
        5 => Some(CondRow::Wait(WaitRow::Sleep { seen })),
        6 => Some(CondRow::Signal(SignalRow::LoadCell)),
        7 => Some(CondRow::Signal(SignalRow::LoadCounter)),
        8 => Some(CondRow::Signal(SignalRow::Count)),
        9 => Some(CondRow::Signal(SignalRow::Wake)),
        10 => Some(CondRow::Broadcast(BroadcastRow::LoadCell)),
        11 => Some(CondRow::Broadcast(BroadcastRow::LoadCounter)),
        12 => Some(CondRow::Broadcast(BroadcastRow::Count { seen })),
        13 => Some(CondRow::Broadcast(BroadcastRow::SetWaiters { seen })),
        14 => Some(CondRow::Broadcast(BroadcastRow::Move { seen })),
        _ => None,
    }
}

fn read_unlink(kind: u8, x: u64, y: u64) -> Option<UnlinkRow>
    ensures goes { IfSome result (λ r. UnlinkGoes r) }
    ensures each { (seen : ℕ) (r : UnlinkRow) → UnlinkGoes r → (unlink_code seen r).kind ≡ kind
        → (unlink_code seen r).lock.x ≡ x → (unlink_code seen r).lock.y ≡ y → result ≡ Some r }
{
    match kind {
        16 => Some(UnlinkRow::LoadNext),
        17 => Some(UnlinkRow::LoadPrevious { next: x }),
        18 => Some(UnlinkRow::StoreNext {
            next: x,
            previous: y,
        }),
        19 => Some(UnlinkRow::StorePrevious {
            next: x,
            previous: y,
        }),
        _ => None,
    }
}
