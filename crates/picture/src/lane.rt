//! What a lane shows between the lines of its thread.

ghost use Rattle.std.specs.Prelude.{◌≡◌};
ghost use Rattle.picture.specs.Lanes.{after, called, slept, stays, woken};

use facts::Fact;
use posixmutex::Operation;

/// What a thread does.
#[derive(Clone, Copy, Debug, PartialEq, Eq)]
pub enum Lane {
    /// It is in no call.
    Idle,
    /// It is in a call of this operation.
    Calling(Operation),
    /// It is asleep in a call of this operation.
    Asleep(Operation),
    /// It was killed, and the kernel goes through its list.
    Dying,
    /// The kernel has gone through its list.
    Reaped,
}

impl Lane {
    /// The operation of its call.
    pub fn called(self) -> Option<Operation>
        ensures { result ≡ called self }
    {
        match self {
            Lane::Calling(operation) | Lane::Asleep(operation) => Some(operation),
            Lane::Idle | Lane::Dying | Lane::Reaped => None,
        }
    }

    fn slept(self) -> Lane
        ensures { result ≡ slept self }
    {
        match self {
            Lane::Calling(operation) => Lane::Asleep(operation),
            Lane::Idle | Lane::Asleep(_) | Lane::Dying | Lane::Reaped => self,
        }
    }

    fn woken(self) -> Lane
        ensures { result ≡ woken self }
    {
        match self {
            Lane::Asleep(operation) => Lane::Calling(operation),
            Lane::Idle | Lane::Calling(_) | Lane::Dying | Lane::Reaped => self,
        }
    }

    /// What it shows after a line of its thread.
    pub fn after(self, fact: &Fact) -> Lane
        ensures { result ≡ after self fact.now }
    {
        match *fact {
            Fact::Begin(_, call) => Lane::Calling(call.operation),
            Fact::Sleep(..) => self.slept(),
            Fact::Wake(_) => self.woken(),
            Fact::Return(..) => Lane::Idle,
            Fact::Kill(_) => Lane::Dying,
            Fact::Reap(_) => Lane::Reaped,
            Fact::Renew(_) => Lane::Idle,
            Fact::Point(_) | Fact::Death(..) | Fact::Move(..) => self,
        }
    }

    /// The sign in a row of text.
    pub fn sign(self) -> &'static str
        ensures { result.now ≡ stays self }
    {
        match self {
            Lane::Idle => "·",
            Lane::Calling(_) => "│",
            Lane::Asleep(_) => "z",
            Lane::Dying => "╎",
            Lane::Reaped => "†",
        }
    }
}
