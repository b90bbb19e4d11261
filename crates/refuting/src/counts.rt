//! How many mutexes a thread owns, as its own lines say.

ghost use Rattle.std.specs.Prelude.{◌≡◌, ◌↔◌, IsTrue};
ghost use Rattle.refuting.specs.Counts.{AtLimit, WithinLimit, count_after, lost_by, settled, won_by};

use crate::turn::Turn;
use facts::Fact;
use histories::Entry;
use lockword::Reply;
use posixmutex::{HELD_LIMIT, Operation};

/// How many mutexes a call has taken that returns so.
fn won_by(operation: Operation, reply: Reply) -> u16
    ensures { result ≡ won_by operation reply }
{
    match (operation, reply) {
        (
            Operation::Lock | Operation::TryLock | Operation::TimedLock,
            Reply::OK | Reply::EOWNERDEAD,
        ) => 1,
        _ => 0,
    }
}

/// How many it has given up.
fn lost_by(operation: Operation, reply: Reply) -> u16
    ensures { result ≡ lost_by operation reply }
{
    match (operation, reply) {
        (Operation::Unlock | Operation::Death, Reply::OK) => 1,
        (Operation::Wait, Reply::OK | Reply::EOWNERDEAD | Reply::EPERM | Reply::XSTATE) => 0,
        (
            Operation::TimedWait,
            Reply::OK | Reply::ETIMEDOUT | Reply::EOWNERDEAD | Reply::EPERM | Reply::XSTATE,
        ) => 0,
        (Operation::Wait | Operation::TimedWait, _) => 1,
        _ => 0,
    }
}

/// Whether a call of a thread that owns this many may return so: X_HELD is for who owns as many as it may.
fn is_at_limit(operation: Operation, reply: Reply, own: u16) -> bool
    ensures { IsTrue result ↔ AtLimit operation reply own }
{
    match operation {
        Operation::Lock | Operation::TryLock | Operation::TimedLock => {
            (reply == Reply::XHELD) == (own >= HELD_LIMIT)
        }
        Operation::Wait | Operation::TimedWait => reply != Reply::XHELD || own > HELD_LIMIT,
        _ => true,
    }
}

/// How many mutexes the thread owns after a call that returns so.
fn settled(operation: Operation, reply: Reply, own: u16) -> u16
    requires { AtLimit operation reply own }
    ensures { result ≡ settled operation reply own }
{
    (own + won_by(operation, reply)).saturating_sub(lost_by(operation, reply))
}

/// Whether a line of a thread that owns this many, and was at this turn, may be recorded.
pub fn is_within(turn: Turn, entry: &Entry, own: u16) -> bool
    ensures { IsTrue result ↔ WithinLimit turn entry.now own }
{
    let Turn::Calling(call, _) = turn else {
        return true;
    };
    match *entry {
        Entry::Told(Fact::Return(_, reply)) => is_at_limit(call.operation, reply, own),
        _ => true,
    }
}

/// How many mutexes the thread owns after its line.
pub fn count_after(turn: Turn, entry: &Entry, own: u16) -> u16
    requires { WithinLimit turn entry.now own }
    ensures { result ≡ count_after turn entry.now own }
{
    let Entry::Told(fact) = *entry else {
        return own;
    };
    match fact {
        Fact::Return(_, reply) => match turn {
            Turn::Calling(call, _) => settled(call.operation, reply, own),
            Turn::Resting | Turn::Dying(_) | Turn::Reaped => own,
        },
        Fact::Reap(_) => 0,
        _ => own,
    }
}
