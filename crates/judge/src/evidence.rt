//! Which earlier lines say how a mutex stood.

ghost use Rattle.std.specs.Prelude.{◌≡◌, reverse};
ghost use Rattle.certificates.specs.Certificates.{entries};
ghost use Rattle.judge.specs.Evidence.{changed_by, changes, death_behind, declares, evidence_of, gets, gives, is_calling};
ghost use Rattle.judge.specs.Evidence.{is_death, leaves, may_own, owned, owned_after, owned_at, owned_by};
ghost use Rattle.judge.specs.Evidence.{reply_at, reply_behind, reply_by, since};
ghost use Rattle.judge.specs.Reasons.{dies};

use crate::reason::{Standing, standing_behind, whose};
use facts::Fact;
use histories::{Entry, HistoryLine};
use lockword::{Reply, Tid};
use posixmutex::Operation;

/// What a reply does to its call's mutex.
#[derive(Clone, Copy)]
pub enum Change {
    /// The thread owns the mutex now.
    Gets,
    /// The mutex is consistent now.
    Declares,
    /// The thread doesn't own the mutex any more.
    Leaves,
}

/// A reply that changed a mutex.
#[derive(Clone, Copy, Debug, PartialEq, Eq)]
pub struct EarlierReply {
    /// The line of the history that tells it, counted from 1.
    pub place: usize,
    pub thread: Tid,
    pub operation: Operation,
    pub reply: Reply,
}

/// The newest lines that say how a mutex stood, where there are such.
#[derive(Clone, Copy, Debug, PartialEq, Eq)]
pub struct Evidence {
    /// The line, counted from 1, that tells of the death of a thread which may have owned the mutex.
    pub death: Option<usize>,
    /// The reply by which a thread got it.
    pub got: Option<EarlierReply>,
    /// The reply by which a thread declared it consistent, if that is newer.
    pub declared: Option<EarlierReply>,
    /// The reply by which a thread left it, if that is newer.
    pub left: Option<EarlierReply>,
}

/// Whether a lock's or a wait's reply gives its thread the mutex.
fn gives(reply: Reply) -> bool
    ensures { result ≡ gives reply }
{
    matches!(reply, Reply::OK | Reply::EOWNERDEAD)
}

/// Whether the thread gets the mutex by this reply.
fn gets(operation: Operation, reply: Reply) -> bool
    ensures { result ≡ gets operation reply }
{
    match operation {
        Operation::Lock | Operation::TryLock | Operation::TimedLock | Operation::Wait => gives(
            reply,
        ),
        Operation::TimedWait => matches!(reply, Reply::ETIMEDOUT) || gives(reply),
        _ => false,
    }
}

/// Whether the thread leaves the mutex, or left it, by this reply.
fn leaves(operation: Operation, reply: Reply) -> bool
    ensures { result ≡ leaves operation reply }
{
    match operation {
        Operation::Unlock | Operation::Reinit => matches!(reply, Reply::OK),
        Operation::Wait | Operation::TimedWait => matches!(reply, Reply::ENOTRECOVERABLE),
        _ => false,
    }
}

/// Whether the thread declares the mutex consistent by this reply.
fn declares(operation: Operation, reply: Reply) -> bool
    ensures { result ≡ declares operation reply }
{
    match operation {
        Operation::Consistent => matches!(reply, Reply::OK),
        _ => false,
    }
}

fn changes(change: Change, operation: Operation, reply: Reply) -> bool
    ensures { result ≡ changes change operation reply }
{
    match change {
        Change::Gets => gets(operation, reply),
        Change::Declares => declares(operation, reply),
        Change::Leaves => leaves(operation, reply),
    }
}

/// Whether a thread that is there is in a call on the mutex.
fn is_calling(mutex: u16, standing: Standing) -> bool
    ensures { result ≡ is_calling mutex standing }
{
    match standing {
        Standing::Calling(call, _) => call.mutex == mutex,
        _ => false,
    }
}

/// Whether a thread that was there owns the mutex after this reply, if the reply says so.
fn owned_after(mutex: u16, standing: Standing, reply: Reply) -> Option<bool>
    ensures { result ≡ owned_after mutex standing reply }
{
    match standing {
        Standing::Calling(call, _) => {
            if call.mutex != mutex {
                None
            } else if gets(call.operation, reply) {
                Some(true)
            } else if leaves(call.operation, reply) {
                Some(false)
            } else {
                None
            }
        }
        _ => None,
    }
}

/// Whether a thread that was there owns the mutex after this line, if the line says so.
fn owned_by(mutex: u16, standing: Standing, entry: &Entry) -> Option<bool>
    ensures { result ≡ owned_by mutex standing entry.now }
{
    match *entry {
        Entry::Told(fact) => match fact {
            Fact::Return(_, reply) => owned_after(mutex, standing, reply),
            Fact::Renew(_) => Some(false),
            _ => None,
        },
        Entry::Doom(_) => None,
    }
}

/// The same of a line after these, if it is the thread's.
fn owned_at(lines: &[HistoryLine], entry: &Entry, mutex: u16, thread: Tid) -> Option<bool>
    ensures { result ≡ owned_at mutex thread entry.now (reverse (entries lines.now)) }
{
    if whose(entry) == thread {
        owned_by(mutex, standing_behind(lines, thread), entry)
    } else {
        None
    }
}

/// Whether the thread owns the mutex, as its newest line says that tells of it, if one does.
fn owned(lines: &[HistoryLine], mutex: u16, thread: Tid) -> Option<bool>
    ensures { result ≡ owned mutex thread (reverse (entries lines.now)) }
{
    let mut rest = lines;
    'lines: while let Some((line, before)) = rest.split_last() {
        let found = owned_at(before, &line.entry, mutex, thread);
        if found.is_some() {
            return found;
        }
        rest = before;
    }
    None
}

/// Whether the thread may own the mutex after these lines: it is in a call on it, or its newest line says so that tells
/// of it.
fn may_own(lines: &[HistoryLine], mutex: u16, thread: Tid) -> bool
    ensures { result ≡ may_own mutex thread (reverse (entries lines.now)) }
{
    if is_calling(mutex, standing_behind(lines, thread)) {
        return true;
    }
    match owned(lines, mutex, thread) {
        Some(owned) => owned,
        None => false,
    }
}

/// Whether the line tells of its thread's death.
fn dies(entry: &Entry) -> bool
    ensures { result ≡ dies entry.now }
{
    match *entry {
        Entry::Told(fact) => fact.is_kill(),
        Entry::Doom(_) => true,
    }
}

/// Whether a line after these tells of the death of a thread that may have owned the mutex.
fn is_death(lines: &[HistoryLine], entry: &Entry, mutex: u16) -> bool
    ensures { result ≡ is_death mutex entry.now (reverse (entries lines.now)) }
{
    dies(entry) && may_own(lines, mutex, whose(entry))
}

/// The newest line that tells of the death of a thread which may have owned the mutex.
fn death_behind(lines: &[HistoryLine], mutex: u16) -> Option<usize>
    ensures { result ≡ death_behind mutex (reverse (entries lines.now)) }
{
    let mut rest = lines;
    'lines: while let Some((line, before)) = rest.split_last() {
        if is_death(before, &line.entry, mutex) {
            return Some(rest.len());
        }
        rest = before;
    }
    None
}

/// The reply at this line, of a thread that was there, if it changes the mutex so.
fn changed_by(
    change: Change,
    mutex: u16,
    standing: Standing,
    thread: Tid,
    reply: Reply,
    place: usize,
) -> Option<EarlierReply>
    ensures { result ≡ changed_by change mutex standing thread reply place }
{
    match standing {
        Standing::Calling(call, _) => {
            if call.mutex == mutex && changes(change, call.operation, reply) {
                Some(EarlierReply {
                    place,
                    thread,
                    operation: call.operation,
                    reply,
                })
            } else {
                None
            }
        }
        _ => None,
    }
}

/// The same of a line that is a reply.
fn reply_by(
    change: Change,
    mutex: u16,
    standing: Standing,
    entry: &Entry,
    place: usize,
) -> Option<EarlierReply>
    ensures { result ≡ reply_by change mutex standing entry.now place }
{
    match *entry {
        Entry::Told(fact) => match fact {
            Fact::Return(thread, reply) => {
                changed_by(change, mutex, standing, thread, reply, place)
            }
            _ => None,
        },
        Entry::Doom(_) => None,
    }
}

/// The same of a line after these.
fn reply_at(
    lines: &[HistoryLine],
    entry: &Entry,
    mutex: u16,
    change: Change,
    place: usize,
) -> Option<EarlierReply>
    ensures { result ≡ reply_at change mutex entry.now (reverse (entries lines.now)) place }
{
    let standing = standing_behind(lines, whose(entry));
    reply_by(change, mutex, standing, entry, place)
}

/// The newest reply that changed the mutex so.
fn reply_behind(lines: &[HistoryLine], mutex: u16, change: Change) -> Option<EarlierReply>
    ensures { result ≡ reply_behind change mutex (reverse (entries lines.now)) }
{
    let mut rest = lines;
    'lines: while let Some((line, before)) = rest.split_last() {
        let found = reply_at(before, &line.entry, mutex, change, rest.len());
        if found.is_some() {
            return found;
        }
        rest = before;
    }
    None
}

/// The newest reply that changed the mutex otherwise, unless the one that gave it is newer.
fn since(got: &Option<EarlierReply>, newest: &Option<EarlierReply>) -> Option<EarlierReply>
    ensures { result ≡ since got.now newest.now }
{
    match got {
        None => *newest,
        Some(got) => match newest {
            None => None,
            Some(newest) => {
                if got.place < newest.place {
                    Some(*newest)
                } else {
                    None
                }
            }
        },
    }
}

/// The newest of these lines that say how the mutex stood: the death of a thread that may have owned it, and the replies
/// by which one got it, and declared it consistent and left it since.
pub fn evidence_of(lines: &[HistoryLine], mutex: u16) -> Evidence
    ensures { result ≡ evidence_of mutex (reverse (entries lines.now)) }
{
    let death = death_behind(lines, mutex);
    let got = reply_behind(lines, mutex, Change::Gets);
    let declared = since(&got, &reply_behind(lines, mutex, Change::Declares));
    let left = since(&got, &reply_behind(lines, mutex, Change::Leaves));
    Evidence {
        death,
        got,
        declared,
        left,
    }
}
