//! How far a thread of a certificate has come.

ghost use Rattle.std.specs.Prelude.{◌≡◌, ◌↔◌, IfSome, IsTrue, MatchBool};
ghost use Rattle.facts.specs.Lives.{IsWait, MayReturn};
ghost use Rattle.certificates.specs.Phases.{made_of, stage_of};
ghost use Rattle.verdict.specs.Stages.{May, MayPoint, MayReturnNow, next, pointed};

use facts::{Begun, Fact};
use lockword::Reply;
use posixmutex::Operation;

/// Which points of a call are made.
#[derive(Clone, Copy, Debug, PartialEq, Eq)]
pub enum Made {
    Nothing,
    /// A wait has released its mutex.
    Released,
    /// All of them: the last one replied so, and the call returns that; a wait that is out of time `ETIMEDOUT` for `OK`.
    Decided(Reply),
}

/// Where a thread is in its life. Nobody sleeps in a certificate.
#[derive(Clone, Copy, Debug, PartialEq, Eq)]
pub enum Phase {
    Resting,
    Calling(Begun, Made),
    /// Killed, and not reaped yet.
    Dying,
    /// Reaped, and not renewed yet.
    Reaped,
}

/// Whether the call is a wait, with a time limit or without.
pub(crate) fn is_wait(call: Operation) -> bool
    ensures { MatchBool result (IsWait call) (¬ IsWait call) }
{
    call == Operation::Wait || call == Operation::TimedWait
}

/// Whether a call may return the reply whose last point replied as the other says: a wait that is out of time
/// `ETIMEDOUT` for `OK`.
fn may_return(call: Operation, replied: Reply, reply: Reply) -> bool
    ensures { IsTrue result ↔ MayReturn call replied reply }
{
    match call {
        Operation::TimedWait => {
            reply == replied || (replied == Reply::OK && reply == Reply::ETIMEDOUT)
        }
        _ => reply == replied,
    }
}

/// Whether a call of which these points are made may return the reply.
fn may_return_now(call: Operation, made: Made, reply: Reply) -> bool
    ensures { IsTrue result ↔ MayReturnNow call (made_of made) reply }
{
    match made {
        Made::Decided(replied) => may_return(call, replied, reply),
        _ => false,
    }
}

/// How far its first point brings a call.
fn begun(call: Operation, operation: Operation, reply: Reply) -> Option<Made>
    ensures { IfSome result (λ after. MayPoint call (made_of Made.Nothing) operation reply
        × (made_of after ≡ pointed call operation reply)) }
{
    let waits = is_wait(call);
    let is_refused = waits && operation == Operation::Wait;
    let is_own = !waits && operation == call;
    let is_locked = call == Operation::TimedLock && operation == Operation::Lock;
    if is_refused || is_own || is_locked {
        return Some(Made::Decided(reply));
    }
    if waits && operation == Operation::Unlock && reply == Reply::OK {
        return Some(Made::Released);
    }
    None
}

/// How far a point brings a call of which these are made.
fn made_by(call: Operation, made: Made, operation: Operation, reply: Reply) -> Option<Made>
    ensures { IfSome result (λ after. MayPoint call (made_of made) operation reply
        × (made_of after ≡ pointed call operation reply)) }
{
    match made {
        Made::Nothing => begun(call, operation, reply),
        Made::Released => {
            if operation == Operation::Lock {
                Some(Made::Decided(reply))
            } else {
                None
            }
        }
        Made::Decided(_) => None,
    }
}

/// What a fact leaves of a thread in a call.
fn called(call: Begun, made: Made, fact: &Fact) -> Option<Phase>
    ensures { IfSome result (λ after. May (stage_of (Phase.Calling call made)) fact.now
        × (stage_of after ≡ next (stage_of (Phase.Calling call made)) fact.now)) }
{
    match *fact {
        Fact::Kill(_) => Some(Phase::Dying),
        Fact::Point(point) if point.mutex == call.mutex => {
            let made = made_by(call.operation, made, point.operation, point.reply)?;
            Some(Phase::Calling(call, made))
        }
        Fact::Return(_, reply) if may_return_now(call.operation, made, reply) => Some(
            Phase::Resting,
        ),
        _ => None,
    }
}

impl Phase {
    /// Where a fact leaves the thread; None where it may not be recorded of it.
    pub fn after(self, fact: &Fact) -> Option<Phase>
        ensures { IfSome result (λ after. May (stage_of self) fact.now
            × (stage_of after ≡ next (stage_of self) fact.now)) }
    {
        match self {
            Phase::Resting => match *fact {
                Fact::Begin(_, call) => Some(Phase::Calling(call, Made::Nothing)),
                Fact::Kill(_) => Some(Phase::Dying),
                _ => None,
            },
            Phase::Calling(call, made) => called(call, made, fact),
            Phase::Dying => match *fact {
                Fact::Death(..) => Some(Phase::Dying),
                Fact::Reap(_) => Some(Phase::Reaped),
                _ => None,
            },
            Phase::Reaped => match *fact {
                Fact::Renew(_) => Some(Phase::Resting),
                _ => None,
            },
        }
    }
}
