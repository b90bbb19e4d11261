//! What a thread does, line after line.

ghost use Rattle.std.specs.Prelude.{◌≡◌, ◌<◌, ◌^◌};
ghost use Rattle.page.specs.Statuses.{after, first_status};

use facts::{Begun, Fact, Queue};
use lockword::Reply;
use posixmutex::Operation;

/// A place in a queue of sleepers.
#[derive(Clone, Copy)]
pub struct Bed {
    /// Where the thread sleeps.
    pub queue: Queue,
    /// The line of the trace since which it is there, the head being line 1: who sleeps in a queue is in the
    /// order of these.
    pub line: usize,
}

/// What a thread does.
#[derive(Clone, Copy)]
pub struct Status {
    /// Which life it is in, from 1.
    pub life: usize,
    /// The call that it is in.
    pub call: Option<Begun>,
    /// That call's newest point.
    pub point: Option<(Operation, Reply)>,
    /// Where it sleeps.
    pub bed: Option<Bed>,
    /// It was killed in this life.
    pub killed: bool,
    /// And reaped.
    pub reaped: bool,
}

impl Status {
    /// Before the first line.
    pub fn new() -> Status
        ensures { result ≡ first_status }
    {
        Status {
            life: 1,
            call: None,
            point: None,
            bed: None,
            killed: false,
            reaped: false,
        }
    }

    /// After a line of the thread, which tells this.
    pub fn after(self, fact: &Fact, line: usize) -> Status
        requires { self.life < 2 ^ 60 }
        ensures { result ≡ after self fact.now line }
    {
        match *fact {
            Fact::Begin(_, call) => Status {
                call: Some(call),
                point: None,
                ..self
            },
            Fact::Point(decision) => Status {
                point: Some((decision.operation, decision.reply)),
                ..self
            },
            Fact::Death(..) => self,
            Fact::Sleep(_, queue) => Status {
                bed: Some(Bed { queue, line }),
                ..self
            },
            Fact::Wake(_) => Status { bed: None, ..self },
            Fact::Move(_, mutex) => Status {
                bed: Some(Bed {
                    queue: Queue::Mutex(mutex),
                    line,
                }),
                ..self
            },
            Fact::Return(..) => Status {
                call: None,
                point: None,
                ..self
            },
            Fact::Kill(_) => Status {
                call: None,
                point: None,
                bed: None,
                killed: true,
                ..self
            },
            Fact::Reap(_) => Status {
                reaped: true,
                ..self
            },
            Fact::Renew(_) => Status {
                life: self.life + 1,
                killed: false,
                reaped: false,
                ..self
            },
        }
    }
}
