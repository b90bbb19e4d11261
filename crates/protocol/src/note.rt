//! Notes: what an event did, from which its lines of the trace are made.
ghost use Rattle.std.specs.Prelude.{◌≡◌, []};
ghost use Rattle.std.specs.Iterator.{YieldsFirst, item_count};
ghost use Rattle.protocol.specs.Notes.{facts_of};
ghost use Rattle.protocol.specs.Telling.{in_turn};
ghost use Rattle.protocol.specs.declared.note.Note.TheVariants.{Began};

use buckets::Batch;
use facts::{Begun, Fact, Queue};
use lockword::{Reply, Tid};
use posixmutex::{Decision, Operation};
use std::marker::Model;

/// What one event did.
#[derive(Clone, Copy, Debug, PartialEq, Eq)]
pub enum Note {
    /// The event couldn't apply, and nothing changed.
    Nothing,
    /// A call began. One that is refused at once has its point and its return in the same event.
    Began {
        thread: Tid,
        call: Begun,
        refused: Option<Reply>,
    },
    /// A thread made an access of its call: whether that decided something of the call's mutex, where the thread fell
    /// asleep, whom it woke, whom it moved, asleep, to the mutex's queue, and whether the call returned.
    Stepped {
        thread: Tid,
        mutex: u16,
        point: Option<Decision>,
        slept: Option<Queue>,
        woken: Batch,
        moved: Batch,
        returned: Option<Reply>,
    },
    /// A thread died: it left its queue, if it slept, and its call ended there.
    Killed {
        thread: Tid,
    },
    /// A thread left its queue, woken by nobody.
    Left {
        thread: Tid,
    },
    /// A thread's time limit came: it left its queue. On a mutex its lock is decided; on a condition variable its wait is
    /// out of time, and locks its mutex again.
    Expired {
        thread: Tid,
        queue: Queue,
    },
    /// The kernel made an access for a thread that died: of which mutex it told the owner's death, whom it woke, and
    /// whether it has reaped the thread.
    Walked {
        thread: Tid,
        death: Option<u16>,
        woken: Batch,
        reaped: bool,
    },
    /// A thread that was reaped lives again.
    Renewed {
        thread: Tid,
    },
    /// A thread reinitialised an unusable mutex.
    Reinited {
        thread: Tid,
        mutex: u16,
    },
}

/// The threads of a batch that are still to be recorded, in their order.
#[derive(Drop)]
struct Members {
    batch: Batch,
    place: usize,
}

impl Model for Members {
    ghost use Rattle.std.specs.Prelude.{ℕ, ◌≤◌, List, length, drop};

    ghost Value = { List ℕ };

    ghost view = { λ m. drop m.place m.batch };

    ghost invariant = { λ m. m.place ≤ length m.batch };
}

impl Members {
    /// All threads of the batch.
    fn of(batch: Batch) -> Members
        ensures { result ≡ batch }
    {
        Members { batch, place: 0 }
    }
}

impl Iterator for Members {
    type Item = Tid;

    ghost next_gives = { YieldsFirst (λ rest. rest) };

    ghost remaining = { item_count (λ rest. rest) };

    fn next(&mut self) -> Option<Tid> {
        let place = self.place;
        if place == self.batch.len() {
            return None;
        }
        self.place = place + 1;
        self.batch.get(place)
    }
}

/// What is still to be recorded of a note, one fact after the other. It takes no memory.
#[derive(Drop)]
pub struct Facts {
    first: Option<Fact>,
    second: Option<Fact>,
    woken: Members,
    // To whose queue the others were moved.
    mutex: u16,
    moved: Members,
    last: Option<Fact>,
}

impl Model for Facts {
    ghost use Rattle.std.specs.Prelude.{List};
    ghost use Rattle.facts.specs.declared.fact.Fact.{Fact};
    ghost use Rattle.protocol.specs.Telling.{in_turn};

    ghost Value = { List Fact };

    ghost view = { λ f. in_turn f.first f.second f.woken f.mutex f.moved f.last };
}

impl Facts {
    /// At most three facts, of an event that woke and moved nobody.
    fn of(first: Option<Fact>, second: Option<Fact>, last: Option<Fact>) -> Facts
        ensures { result ≡ in_turn first second [] 0 [] last }
    {
        Facts {
            first,
            second,
            woken: Members::of(Batch::new()),
            mutex: 0,
            moved: Members::of(Batch::new()),
            last,
        }
    }

    /// Of a call's begin: one that is refused is decided and returns at once.
    fn of_begin(thread: Tid, call: Begun, refused: Option<Reply>) -> Facts
        ensures { result ≡ facts_of (Began thread call refused) }
    {
        let begin = Some(Fact::Begin(thread, call));
        let Some(reply) = refused else {
            return Facts::of(begin, None, None);
        };
        let decision = Decision {
            thread,
            mutex: call.mutex,
            operation: call.operation,
            reply,
        };
        Facts::of(
            begin,
            Some(Fact::Point(decision)),
            Some(Fact::Return(thread, reply)),
        )
    }
}

impl Iterator for Facts {
    type Item = Fact;

    ghost next_gives = { YieldsFirst (λ rest. rest) };

    ghost remaining = { item_count (λ rest. rest) };

    fn next(&mut self) -> Option<Fact> {
        if let Some(fact) = self.first.take() {
            return Some(fact);
        }
        if let Some(fact) = self.second.take() {
            return Some(fact);
        }
        if let Some(thread) = self.woken.next() {
            return Some(Fact::Wake(thread));
        }
        if let Some(thread) = self.moved.next() {
            return Some(Fact::Move(thread, self.mutex));
        }
        self.last.take()
    }
}

impl Note {
    /// What the note tells, one fact after the other.
    pub fn facts(&self) -> Facts
        ensures { result ≡ facts_of self.now }
    {
        match *self {
            Note::Nothing => Facts::of(None, None, None),
            Note::Began {
                thread,
                call,
                refused,
            } => Facts::of_begin(thread, call, refused),
            Note::Stepped {
                thread,
                mutex,
                point,
                slept,
                woken,
                moved,
                returned,
            } => Facts {
                first: point.map(Fact::Point),
                second: slept.map(|queue| Fact::Sleep(thread, queue)),
                woken: Members::of(woken),
                mutex,
                moved: Members::of(moved),
                last: returned.map(|reply| Fact::Return(thread, reply)),
            },
            Note::Killed { thread } => Facts::of(Some(Fact::Kill(thread)), None, None),
            Note::Left { thread } => Facts::of(Some(Fact::Wake(thread)), None, None),
            Note::Expired {
                thread,
                queue: Queue::Condition(_),
            } => Facts::of(Some(Fact::Wake(thread)), None, None),
            Note::Expired {
                thread,
                queue: Queue::Mutex(mutex),
            } => {
                let decision = Decision {
                    thread,
                    mutex,
                    operation: Operation::TimedLock,
                    reply: Reply::ETIMEDOUT,
                };
                Facts::of(Some(Fact::Wake(thread)), Some(Fact::Point(decision)), None)
            }
            Note::Walked {
                thread,
                death,
                woken,
                reaped,
            } => Facts {
                first: death.map(|mutex| Fact::Death(thread, mutex)),
                second: None,
                woken: Members::of(woken),
                mutex: 0,
                moved: Members::of(Batch::new()),
                last: if reaped {
                    Some(Fact::Reap(thread))
                } else {
                    None
                },
            },
            Note::Renewed { thread } => Facts::of(Some(Fact::Renew(thread)), None, None),
            Note::Reinited { thread, mutex } => {
                let call = Begun {
                    operation: Operation::Reinit,
                    mutex,
                    condition: None,
                };
                Facts::of_begin(thread, call, Some(Reply::OK))
            }
        }
    }
}
