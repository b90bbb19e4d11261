//! Why no order of the calls explains a line, as its thread's own lines say.

ghost use Rattle.std.specs.Prelude.{◌≡◌, reverse};
ghost use Rattle.certificates.specs.Certificates.{entries, whose};
ghost use Rattle.judge.specs.Reasons.{begin_reason, death_reason, reap_reason, reason_by, reason_of, renewal_reason};
ghost use Rattle.judge.specs.Reasons.{return_reason, standing_after, standing_behind};

use facts::{Begun, Fact};
use histories::{Entry, HistoryLine};
use lockword::{Reply, Tid};
use posixmutex::Operation;

/// Why a thread's line may not stand where it does, whatever its mutex.
#[derive(Clone, Copy, Debug, PartialEq, Eq)]
pub enum OutOfTurn {
    /// Begins a call, and is in one.
    InCall,
    /// It returns, and is in no call.
    NoCall,
    /// It was killed, or is doomed, and tells nothing more but its reaping.
    Dead,
    /// It was reaped, and lives again only by its renewal.
    Reaped,
    /// It is reaped, and nothing told that it dies.
    Alive,
    /// It is renewed, and wasn't reaped.
    NotReaped,
}

/// Why no order of the calls explains a line.
#[derive(Clone, Copy, Debug, PartialEq, Eq)]
pub enum Reason {
    OutOfTurn(OutOfTurn),
    /// The call may not return so.
    NoOrder {
        operation: Operation,
        mutex: u16,
        reply: Reply,
        /// The line of the history at which the call began, counted from 1.
        begin: usize,
    },
}

/// Where a thread is, as its newest line says.
#[derive(Clone, Copy)]
pub enum Standing {
    /// Alive, and in no call.
    Resting,
    /// In this call, which began at this line of the history, counted from 1.
    Calling(Begun, usize),
    /// Killed or doomed.
    Dead,
    Reaped,
}

/// Whose line it is.
pub fn whose(entry: &Entry) -> Tid
    ensures { result ≡ whose entry.now }
{
    match *entry {
        Entry::Told(fact) => fact.thread(),
        Entry::Doom(thread) => thread,
    }
}

/// Where this line of its thread leaves that; `line` is its place among the history's lines, counted from 1.
fn standing_after(entry: &Entry, line: usize) -> Standing
    ensures { result ≡ standing_after entry.now line }
{
    match *entry {
        Entry::Doom(_) => Standing::Dead,
        Entry::Told(fact) => match fact {
            Fact::Begin(_, call) => Standing::Calling(call, line),
            Fact::Kill(_) => Standing::Dead,
            Fact::Reap(_) => Standing::Reaped,
            _ => Standing::Resting,
        },
    }
}

/// Where the thread is after these lines.
pub fn standing_behind(lines: &[HistoryLine], thread: Tid) -> Standing
    ensures { result ≡ standing_behind thread (reverse (entries lines.now)) }
{
    let mut rest = lines;
    'lines: while let Some((line, before)) = rest.split_last() {
        if whose(&line.entry) == thread {
            return standing_after(&line.entry, rest.len());
        }
        rest = before;
    }
    Standing::Resting
}

/// Why a dead or reaped thread can't tell a line that only the living tell.
fn death_reason(standing: Standing) -> Option<Reason>
    ensures { result ≡ death_reason standing }
{
    match standing {
        Standing::Dead => Some(Reason::OutOfTurn(OutOfTurn::Dead)),
        Standing::Reaped => Some(Reason::OutOfTurn(OutOfTurn::Reaped)),
        Standing::Resting | Standing::Calling(..) => None,
    }
}

fn begin_reason(standing: Standing) -> Option<Reason>
    ensures { result ≡ begin_reason standing }
{
    match standing {
        Standing::Calling(..) => Some(Reason::OutOfTurn(OutOfTurn::InCall)),
        _ => death_reason(standing),
    }
}

fn return_reason(standing: Standing, reply: Reply) -> Option<Reason>
    ensures { result ≡ return_reason standing reply }
{
    match standing {
        Standing::Resting => Some(Reason::OutOfTurn(OutOfTurn::NoCall)),
        Standing::Calling(call, begin) => Some(Reason::NoOrder {
            operation: call.operation,
            mutex: call.mutex,
            reply,
            begin,
        }),
        Standing::Dead | Standing::Reaped => death_reason(standing),
    }
}

fn reap_reason(standing: Standing) -> Option<Reason>
    ensures { result ≡ reap_reason standing }
{
    match standing {
        Standing::Dead => None,
        Standing::Reaped => Some(Reason::OutOfTurn(OutOfTurn::Reaped)),
        Standing::Resting | Standing::Calling(..) => Some(Reason::OutOfTurn(OutOfTurn::Alive)),
    }
}

fn renewal_reason(standing: Standing) -> Option<Reason>
    ensures { result ≡ renewal_reason standing }
{
    match standing {
        Standing::Reaped => None,
        _ => Some(Reason::OutOfTurn(OutOfTurn::NotReaped)),
    }
}

/// What may be wrong with the line of a thread that is there: it is out of turn, or a return, which no order may explain.
/// None of any other line in its turn.
fn reason_by(standing: Standing, entry: &Entry) -> Option<Reason>
    ensures { result ≡ reason_by standing entry.now }
{
    match *entry {
        Entry::Doom(_) => death_reason(standing),
        Entry::Told(fact) => match fact {
            Fact::Begin(..) => begin_reason(standing),
            Fact::Return(_, reply) => return_reason(standing, reply),
            Fact::Kill(_) => death_reason(standing),
            Fact::Reap(_) => reap_reason(standing),
            Fact::Renew(_) => renewal_reason(standing),
            _ => None,
        },
    }
}

/// What may be wrong with a line after these, by its thread's lines among them.
pub fn reason_of(lines: &[HistoryLine], entry: &Entry) -> Option<Reason>
    ensures { result ≡ reason_of (reverse (entries lines.now)) entry.now }
{
    reason_by(standing_behind(lines, whose(entry)), entry)
}
