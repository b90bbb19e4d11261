//! Where calls stand, as plain numbers.
ghost use Rattle.std.specs.Prelude.{ℕ, Bool, ◌≡◌, ◌≤◌, IfSome, Some};
ghost use Rattle.mutex.specs.Codings.{flag_of, plain, replying, row_code, link_code, unlink_code};
ghost use Rattle.mutex.specs.declared.row.Row.{Row};
ghost use Rattle.lockword.specs.Replies.{number_of};
ghost use Rattle.lockword.specs.declared.reply.Reply.{Reply};
ghost use Rattle.robustlist.specs.declared.link.LinkRow.{LinkRow};
ghost use Rattle.robustlist.specs.declared.unlink.UnlinkRow.{UnlinkRow};
ghost use Rattle.mutex.specs.Rows.{IsGoing, Knows};
ghost use Rattle.robustlist.specs.Link.{LinkGoes};
ghost use Rattle.robustlist.specs.Unlink.{UnlinkGoes};

use crate::consistent::ConsistentRow;
use crate::lock::LockRow;
use crate::phase::Phase;
use crate::row::Row;
use crate::try_lock::TryLockRow;
use crate::unlock::UnlockRow;
use lockword::{Cell, Reply};
use robustlist::{Link, LinkRow, Unlink, UnlinkRow};

/// How far below its own kind the kind of a row stands once its entry is pending.
const ANNOUNCED: u8 = 32;

/// Where a call on a mutex stands, as plain numbers, for whoever keeps it outside Rattle: in C, or in a file that
/// processes share.
///
/// `kind` names the phase and its row; `specs/Codings.antt` has the table. What that phase doesn't carry is 0.
#[repr(C)]
#[derive(Clone, Copy, Debug, PartialEq, Eq)]
pub struct CodedPhase {
    /// A word or an entry that the call has seen.
    pub x: u64,
    /// Another entry, or how many exchanges have failed.
    pub y: u64,
    /// The number of the call's reply, where that is decided.
    pub reply: u16,
    /// The phase and its row.
    pub kind: u8,
    /// 0 or 1.
    pub flag: u8,
}

impl CodedPhase {
    ghost use Rattle.mutex.specs.Codings.{phase_code, LiesAt};
    ghost use Rattle.mutex.specs.declared.phase.Phase.{Phase};
    ghost use Rattle.mutex.specs.Whole.{IsUnderWay, PhaseKnows};

    /// The numbers of a phase.
    #[inline(always)]
    pub fn of(phase: &Phase) -> CodedPhase
        ensures { result ≡ phase_code phase.now }
    {
        match *phase {
            Phase::Announcing { next } => {
                let row = coded_row(&next);
                CodedPhase {
                    kind: row.kind + ANNOUNCED,
                    ..row
                }
            }
            Phase::AtCell(row) => coded_row(&row),
            Phase::Linking { link, reply } => coded_link(&link.row(), reply),
            Phase::Unlinking { unlink, died } => coded_unlink(&unlink.row(), died),
            Phase::Clearing { reply } => replying(1, reply, 0),
            Phase::Ended(reply) => replying(0, reply, 0),
        }
    }

    /// The phase whose numbers these are, of a call that hasn't returned, whose head and entry are at these addresses;
    /// `None` where no such phase has them.
    #[inline(always)]
    pub fn phase(&self, head: u64, entry: u64) -> Option<Phase>
        ensures has_these { IfSome result
            (λ f. IsUnderWay f × PhaseKnows f × LiesAt head entry f × (phase_code f ≡ self.now)) }
        ensures each { (f : Phase) → IsUnderWay f → PhaseKnows f → LiesAt head entry f → phase_code f ≡ self.now
            → result ≡ Some f }
    {
        let phase = self.read(head, entry)?;
        if CodedPhase::of(&phase) == *self {
            Some(phase)
        } else {
            None
        }
    }

    /// The only phase that may have these numbers.
    #[inline(always)]
    fn read(&self, head: u64, entry: u64) -> Option<Phase>
        ensures knows { IfSome result (λ f. IsUnderWay f × PhaseKnows f × LiesAt head entry f) }
        ensures each { (f : Phase) → IsUnderWay f → PhaseKnows f → LiesAt head entry f → phase_code f ≡ self.now
            → result ≡ Some f }
    {
        let kind = self.kind;
        if kind == 1 {
            let reply = numbered(self.reply)?;
            Some(Phase::Clearing { reply })
        } else if kind < 7 {
            let row = read_link(kind, self.x)?;
            let reply = numbered(self.reply)?;
            Some(Phase::Linking {
                link: Link::at(head, entry, row),
                reply,
            })
        } else if kind < 16 {
            let row = read_unlink(kind, self.x, self.y)?;
            Some(Phase::Unlinking {
                unlink: Unlink::at(head, entry, row),
                died: self.flag == 1,
            })
        } else if kind < 48 {
            let row = read_row(kind, self.flag == 1, self.x, self.y)?;
            Some(Phase::AtCell(row))
        } else {
            let next = read_row(kind - ANNOUNCED, self.flag == 1, self.x, self.y)?;
            Some(Phase::Announcing { next })
        }
    }
}

#[inline(always)]
fn plain(kind: u8, flag: bool, x: u64, y: u64) -> CodedPhase
    ensures { result ≡ plain kind (flag_of flag) x y }
{
    CodedPhase {
        x,
        y,
        reply: 0,
        kind,
        flag: if flag { 1 } else { 0 },
    }
}

#[inline(always)]
fn replying(kind: u8, reply: Reply, x: u64) -> CodedPhase
    ensures { result ≡ replying kind reply x }
{
    CodedPhase {
        x,
        y: 0,
        reply: reply.number(),
        kind,
        flag: 0,
    }
}

#[inline(always)]
fn coded_row(row: &Row) -> CodedPhase
    ensures value { result ≡ row_code row.now }
    ensures small { result.kind ≤ 28 }
{
    match *row {
        Row::Lock(LockRow::Load) => plain(16, false, 0, 0),
        Row::Lock(LockRow::Take { seen }) => plain(17, false, seen.word(), 0),
        Row::Lock(LockRow::SetWaiters { seen }) => plain(18, false, seen.word(), 0),
        Row::Lock(LockRow::Sleep { seen }) => plain(19, false, seen.word(), 0),
        Row::Lock(LockRow::WakeAll) => plain(20, false, 0, 0),
        Row::TryLock(TryLockRow::Load) => plain(21, false, 0, 0),
        Row::TryLock(TryLockRow::Take { seen, failed }) => plain(22, false, seen.word(), failed),
        Row::Unlock(UnlockRow::Load) => plain(23, false, 0, 0),
        Row::Unlock(UnlockRow::Release { died }) => plain(24, died, 0, 0),
        Row::Unlock(UnlockRow::Wake { all }) => plain(25, all, 0, 0),
        Row::Unlock(UnlockRow::Trim) => plain(26, false, 0, 0),
        Row::Consistent(ConsistentRow::Load) => plain(27, false, 0, 0),
        Row::Consistent(ConsistentRow::Declare) => plain(28, false, 0, 0),
        Row::Ended(reply) => replying(0, reply, 0),
    }
}

#[inline(always)]
fn coded_link(row: &LinkRow, reply: Reply) -> CodedPhase
    ensures { result ≡ link_code reply row.now }
{
    match *row {
        LinkRow::LoadFirst => replying(2, reply, 0),
        LinkRow::StoreNext { first } => replying(3, reply, first),
        LinkRow::StorePrevious { first } => replying(4, reply, first),
        LinkRow::StoreBehind { first } => replying(5, reply, first),
        LinkRow::StoreFirst => replying(6, reply, 0),
        LinkRow::Ended(of_link) => replying(0, of_link, 0),
    }
}

#[inline(always)]
fn coded_unlink(row: &UnlinkRow, died: bool) -> CodedPhase
    ensures { result ≡ unlink_code died row.now }
{
    match *row {
        UnlinkRow::LoadNext => plain(7, died, 0, 0),
        UnlinkRow::LoadPrevious { next } => plain(8, died, next, 0),
        UnlinkRow::StoreNext { next, previous } => plain(9, died, next, previous),
        UnlinkRow::StorePrevious { next, previous } => plain(10, died, next, previous),
        UnlinkRow::Ended(of_unlink) => replying(0, of_unlink, 0),
    }
}

/// The reply with this number.
fn numbered(number: u16) -> Option<Reply>
    ensures { (x : Reply) → number_of x ≡ number → result ≡ Some x }
{
    match number {
        0 => Some(Reply::OK),
        1 => Some(Reply::EPERM),
        3 => Some(Reply::ESRCH),
        11 => Some(Reply::EAGAIN),
        14 => Some(Reply::EFAULT),
        16 => Some(Reply::EBUSY),
        22 => Some(Reply::EINVAL),
        35 => Some(Reply::EDEADLK),
        110 => Some(Reply::ETIMEDOUT),
        130 => Some(Reply::EOWNERDEAD),
        131 => Some(Reply::ENOTRECOVERABLE),
        1000 => Some(Reply::XNOMEM),
        1001 => Some(Reply::XRACED),
        1002 => Some(Reply::XHELD),
        1003 => Some(Reply::XFULL),
        1004 => Some(Reply::XSTATE),
        _ => None,
    }
}

/// The row with these numbers. A word that such a row can't have seen is refused.
#[inline(always)]
fn read_row(kind: u8, flag: bool, x: u64, y: u64) -> Option<Row>
    ensures knows { IfSome result (λ r. IsGoing r × Knows r) }
    ensures each { (r : Row) → IsGoing r → Knows r → row_code r ≡ plain kind (flag_of flag) x y → result ≡ Some r }
{
    let seen = Cell::new(x);
    let free = seen.owner() == 0 && !seen.unusable();
    match kind {
        16 => Some(Row::Lock(LockRow::Load)),
        17 if free => Some(Row::Lock(LockRow::Take { seen })),
        18 if seen.owner() != 0 => Some(Row::Lock(LockRow::SetWaiters { seen })),
        19 if seen.owner() != 0 && seen.waiters() => Some(Row::Lock(LockRow::Sleep { seen })),
        20 => Some(Row::Lock(LockRow::WakeAll)),
        21 => Some(Row::TryLock(TryLockRow::Load)),
        22 if free && y < 4 => Some(Row::TryLock(TryLockRow::Take { seen, failed: y })),
        23 => Some(Row::Unlock(UnlockRow::Load)),
        24 => Some(Row::Unlock(UnlockRow::Release { died: flag })),
        25 => Some(Row::Unlock(UnlockRow::Wake { all: flag })),
        26 => Some(Row::Unlock(UnlockRow::Trim)),
        27 => Some(Row::Consistent(ConsistentRow::Load)),
        28 => Some(Row::Consistent(ConsistentRow::Declare)),
        _ => None,
    }
}

#[inline(always)]
fn read_link(kind: u8, x: u64) -> Option<LinkRow>
    ensures goes { IfSome result (λ r. LinkGoes r) }
    ensures each { (reply : Reply) (r : LinkRow) → LinkGoes r → link_code reply r ≡ replying kind reply x
        → result ≡ Some r }
{
    match kind {
        2 => Some(LinkRow::LoadFirst),
        3 => Some(LinkRow::StoreNext { first: x }),
        4 => Some(LinkRow::StorePrevious { first: x }),
        5 => Some(LinkRow::StoreBehind { first: x }),
        6 => Some(LinkRow::StoreFirst),
        _ => None,
    }
}

#[inline(always)]
fn read_unlink(kind: u8, x: u64, y: u64) -> Option<UnlinkRow>
    ensures goes { IfSome result (λ r. UnlinkGoes r) }
    ensures each { (died : Bool) (r : UnlinkRow) → UnlinkGoes r → unlink_code died r ≡ plain kind (flag_of died) x y
        → result ≡ Some r }
{
    match kind {
        7 => Some(UnlinkRow::LoadNext),
        8 => Some(UnlinkRow::LoadPrevious { next: x }),
        9 => Some(UnlinkRow::StoreNext {
            next: x,
            previous: y,
        }),
        10 => Some(UnlinkRow::StorePrevious {
            next: x,
            previous: y,
        }),
        _ => None,
    }
}
