//! How far a thread has come.
ghost use Rattle.std.specs.Prelude.{◌≡◌, ◌↔◌, true, false, IsTrue, MatchResult};
ghost use Rattle.facts.specs.Lives.{MayReturn};
ghost use Rattle.verdict.specs.Stages.{Forbids, ForbidsPoint, May, MayPoint, next, pointed};

use crate::misfit::Misfit;
use facts::{Begun, Fact};
use lockword::Reply;
use posixmutex::Operation;

/// Which points of a call are made.
#[derive(Clone, Copy)]
pub enum Made {
    Nothing,
    /// A wait has released its mutex.
    Released,
    /// All of them: the last one replied so, and the call returns that; a wait that is out of time `ETIMEDOUT` for `OK`.
    Decided(Reply),
}

/// Where a thread is in its life.
#[derive(Clone, Copy)]
pub enum Stage {
    Resting,
    /// In a call; asleep in it where the last field is true.
    Calling(Begun, Made, bool),
    /// Killed, and not reaped yet.
    Dying,
    /// Reaped, and not renewed yet.
    Reaped,
}

/// How far its first point brings a call.
fn begun(call: Operation, operation: Operation, reply: Reply) -> Result<Made, Misfit>
    ensures { MatchResult result
        (λ after. MayPoint call Made.Nothing operation reply × (after ≡ pointed call operation reply))
        (λ m. ForbidsPoint m call Made.Nothing operation reply) }
{
    match call {
        Operation::Wait | Operation::TimedWait => match operation {
            Operation::Wait => Ok(Made::Decided(reply)),
            Operation::Unlock => {
                if reply == Reply::OK {
                    Ok(Made::Released)
                } else {
                    Err(Misfit::ReleaseRefused)
                }
            }
            _ => Err(Misfit::OtherOperation { operation: call }),
        },
        Operation::TimedLock => match operation {
            Operation::TimedLock | Operation::Lock => Ok(Made::Decided(reply)),
            _ => Err(Misfit::OtherOperation { operation: call }),
        },
        _ => {
            if operation == call {
                Ok(Made::Decided(reply))
            } else {
                Err(Misfit::OtherOperation { operation: call })
            }
        }
    }
}

/// How far a point brings a call of which these are made.
fn made_by(call: Operation, made: Made, operation: Operation, reply: Reply) -> Result<Made, Misfit>
    ensures { MatchResult result (λ after. MayPoint call made operation reply × (after ≡ pointed call operation reply))
        (λ m. ForbidsPoint m call made operation reply) }
{
    match made {
        Made::Nothing => begun(call, operation, reply),
        Made::Released => {
            if operation == Operation::Lock {
                Ok(Made::Decided(reply))
            } else {
                Err(Misfit::Released)
            }
        }
        Made::Decided(reply) => Err(Misfit::Decided { reply }),
    }
}

impl Stage {
    /// Where a fact leaves the thread, or why it may not be recorded of it.
    pub fn after(self, fact: &Fact) -> Result<Stage, Misfit>
        ensures { MatchResult result (λ after. May self fact.now × (after ≡ next self fact.now))
            (λ m. Forbids m self fact.now) }
    {
        match self {
            Stage::Resting => resting(fact),
            Stage::Calling(call, made, asleep) => called(call, made, asleep, fact),
            Stage::Dying => match *fact {
                Fact::Death(..) => Ok(Stage::Dying),
                Fact::Reap(_) => Ok(Stage::Reaped),
                Fact::Renew(_) => Err(Misfit::NotReaped),
                _ => Err(Misfit::Killed),
            },
            Stage::Reaped => match *fact {
                Fact::Renew(_) => Ok(Stage::Resting),
                _ => Err(Misfit::Reaped),
            },
        }
    }
}

/// The same of a thread in no call.
fn resting(fact: &Fact) -> Result<Stage, Misfit>
    ensures { MatchResult result (λ after. May Stage.Resting fact.now × (after ≡ next Stage.Resting fact.now))
        (λ m. Forbids m Stage.Resting fact.now) }
{
    match *fact {
        Fact::Begin(_, call) => Ok(Stage::Calling(call, Made::Nothing, false)),
        Fact::Kill(_) => Ok(Stage::Dying),
        Fact::Wake(_) | Fact::Move(..) => Err(Misfit::Awake),
        Fact::Death(..) | Fact::Reap(_) | Fact::Renew(_) => Err(Misfit::Alive),
        Fact::Point(_) | Fact::Sleep(..) | Fact::Return(..) => Err(Misfit::NoCall),
    }
}

/// The same of a thread in a call.
fn called(call: Begun, made: Made, asleep: bool, fact: &Fact) -> Result<Stage, Misfit>
    ensures { MatchResult result
        (λ after. May (Stage.Calling call made asleep) fact.now
        × (after ≡ next (Stage.Calling call made asleep) fact.now))
        (λ m. Forbids m (Stage.Calling call made asleep) fact.now) }
{
    if asleep {
        sleeping(call, made, fact)
    } else {
        awake(call, made, fact)
    }
}

/// The same of a thread asleep in a call.
fn sleeping(call: Begun, made: Made, fact: &Fact) -> Result<Stage, Misfit>
    ensures { MatchResult result
        (λ after. May (Stage.Calling call made true) fact.now × (after ≡ next (Stage.Calling call made true) fact.now))
        (λ m. Forbids m (Stage.Calling call made true) fact.now) }
{
    match *fact {
        Fact::Begin(..) => Err(Misfit::InCall { call }),
        Fact::Kill(_) => Ok(Stage::Dying),
        Fact::Wake(_) => Ok(Stage::Calling(call, made, false)),
        Fact::Move(..) => Ok(Stage::Calling(call, made, true)),
        Fact::Death(..) | Fact::Reap(_) | Fact::Renew(_) => Err(Misfit::Alive),
        Fact::Point(_) | Fact::Sleep(..) | Fact::Return(..) => Err(Misfit::Asleep),
    }
}

/// Whether a call of that operation may return the reply, whose last point replied as the other says: a wait with a time
/// limit may be out of time.
fn may_return(call: Operation, decided: Reply, reply: Reply) -> bool
    ensures { IsTrue result ↔ MayReturn call decided reply }
{
    match call {
        Operation::TimedWait => {
            reply == decided || (decided == Reply::OK && reply == Reply::ETIMEDOUT)
        }
        _ => reply == decided,
    }
}

/// The same of a thread awake in a call.
fn awake(call: Begun, made: Made, fact: &Fact) -> Result<Stage, Misfit>
    ensures { MatchResult result
        (λ after. May (Stage.Calling call made false) fact.now
        × (after ≡ next (Stage.Calling call made false) fact.now))
        (λ m. Forbids m (Stage.Calling call made false) fact.now) }
{
    match *fact {
        Fact::Begin(..) => Err(Misfit::InCall { call }),
        Fact::Kill(_) => Ok(Stage::Dying),
        Fact::Wake(_) | Fact::Move(..) => Err(Misfit::Awake),
        Fact::Death(..) | Fact::Reap(_) | Fact::Renew(_) => Err(Misfit::Alive),
        Fact::Sleep(..) => Ok(Stage::Calling(call, made, true)),
        Fact::Point(point) => {
            if point.mutex == call.mutex {
                let made = made_by(call.operation, made, point.operation, point.reply)?;
                Ok(Stage::Calling(call, made, false))
            } else {
                Err(Misfit::OtherMutex { mutex: call.mutex })
            }
        }
        Fact::Return(_, reply) => match made {
            Made::Nothing => Err(Misfit::Undecided),
            Made::Released => Err(Misfit::Released),
            Made::Decided(decided) => {
                if may_return(call.operation, decided, reply) {
                    Ok(Stage::Resting)
                } else {
                    Err(Misfit::OtherReply { reply: decided })
                }
            }
        },
    }
}
