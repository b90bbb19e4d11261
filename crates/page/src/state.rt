//! What all threads and mutexes are, line after line.

ghost use Rattle.std.specs.Prelude.{◌≡◌, ◌+◌, ◌<◌, ◌≤◌, ◌^◌, [], length, replicate, slice_index_or, slice_set, IfOk};
ghost use Rattle.facts.specs.Facts.{decision_of, thread_of};
ghost use Rattle.posixmutex.specs.Objects.{fresh, stepped};
ghost use Rattle.page.specs.States.{remade, seen, state_behind};
ghost use Rattle.page.specs.Statuses.{after, first_status};

use crate::status::Status;
use facts::{Fact, Line};
use lockword::{Reply, Tid};
use posixmutex::{Decision, Object, Operation};
use std::alloc::{AllocError, Global};

/// What all threads and mutexes are.
#[derive(Drop)]
pub struct State {
    /// Indexed by the threads' ids, from 0, which is no thread's.
    pub threads: Vec<Status>,
    /// Indexed by the mutexes' numbers.
    pub mutexes: Vec<Object>,
}

/// What a mutex is after a point or a death.
fn stepped(object: Object, decision: &Decision) -> Object
    ensures { result ≡ stepped object decision.now.thread decision.now.operation decision.now.reply }
{
    match decision.operation {
        Operation::Lock | Operation::TryLock => match decision.reply {
            Reply::OK | Reply::EOWNERDEAD => Object {
                owner: Some(decision.thread),
                ..object
            },
            _ => object,
        },
        Operation::Unlock => match decision.reply {
            Reply::OK => Object {
                owner: None,
                inconsistent: false,
                unusable: object.inconsistent || object.unusable,
            },
            _ => object,
        },
        Operation::Consistent => match decision.reply {
            Reply::OK => Object {
                inconsistent: false,
                ..object
            },
            _ => object,
        },
        Operation::Death => match decision.reply {
            Reply::OK => Object {
                owner: None,
                inconsistent: true,
                unusable: object.unusable,
            },
            _ => object,
        },
        Operation::Reinit => match decision.reply {
            Reply::OK => Object::new(),
            _ => object,
        },
        Operation::TimedLock | Operation::Wait | Operation::TimedWait => object,
        Operation::Signal | Operation::Broadcast => object,
    }
}

/// Makes a step of its mutex.
fn remake(mutexes: &mut Vec<Object>, decision: Option<Decision>)
    ensures { mutexes.new.items ≡ remade mutexes.old.items decision }
{
    let Some(decision) = decision else {
        return;
    };
    let at = usize::from(decision.mutex);
    if at < mutexes.len() {
        let object = mutexes[at];
        mutexes[at] = stepped(object, &decision);
    }
}

fn statuses(alloc: Global, count: usize) -> Result<Vec<Status>, AllocError>
    requires { count ≤ 4096 }
    ensures { IfOk result (λ v. v.items ≡ replicate count first_status) }
{
    vec![in alloc; Status::new(); count]
}

fn objects(alloc: Global, count: usize) -> Result<Vec<Object>, AllocError>
    requires { count ≤ 65536 }
    ensures { IfOk result (λ v. v.items ≡ replicate count fresh) }
{
    let owner: Option<Tid> = None;
    let free = Object {
        owner,
        inconsistent: false,
        unusable: false,
    };
    vec![in alloc; free; count]
}

impl State {
    /// Before the first line of a trace of that many threads and mutexes.
    pub fn new(alloc: Global, threads: u8, mutexes: u16) -> Result<State, AllocError>
        ensures { IfOk result (λ s. seen s ≡ state_behind threads mutexes []) }
    {
        let threads = statuses(alloc, usize::from(threads) + 1)?;
        let mutexes = objects(alloc, usize::from(mutexes))?;
        Ok(State { threads, mutexes })
    }

    /// Goes on after a line of one of these threads.
    pub fn take(&mut self, fact: &Fact, line: usize)
        requires thread { thread_of fact.now < length self.old.threads.items }
        requires young { (slice_index_or self.old.threads.items (thread_of fact.now) first_status).life < 2 ^ 60 }
        ensures threads { self.new.threads.items
            ≡ slice_set self.old.threads.items (thread_of fact.now)
            (after (slice_index_or self.old.threads.items (thread_of fact.now) first_status) fact.now line) }
        ensures mutexes { self.new.mutexes.items ≡ remade self.old.mutexes.items (decision_of fact.now) }
    {
        let by = usize::from(fact.thread().get());
        self.threads[by] = self.threads[by].after(fact, line);
        remake(&mut self.mutexes, fact.decision());
    }
}
