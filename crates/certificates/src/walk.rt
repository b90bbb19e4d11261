//! A walk over steps, which takes each as it is: what the steps leave of each thread and each mutex.

ghost use Rattle.std.specs.Prelude.{ℕ, ◌≡◌, ◌+◌, ◌<◌, ◌^◌, length, reverse, slice_set, IfOk, IfSome};
ghost use Rattle.histories.specs.Limits.{max_mutexes};
ghost use Rattle.certificates.specs.Certificates.{is_seen, whose};
ghost use Rattle.certificates.specs.Walks.{HasRoom, IsBehind, IsNew, Walks, became, decision_in, idle, mutex_after};
ghost use Rattle.certificates.specs.Walks.{mutex_at, mutexes_after, thread_after, thread_at, told_thread, untouched};
ghost use Rattle.certificates.specs.Waiters.{locked_by};
ghost use Rattle.posixmutex.specs.Objects.{stepped};

use crate::certifying::{behind, is_hidden};
use facts::{Begun, Fact};
use histories::{Entry, MAX_MUTEXES};
use lockword::{MOST_THREADS, Reply, Tid};
use posixmutex::{Decision, Object, Operation};
use std::alloc::{AllocError, Global};

/// As many threads as have ids, and one for 0, which is no thread's.
const THREADS: usize = MOST_THREADS as usize + 1;

/// As many mutexes as a history may have.
const MUTEXES: usize = MAX_MUTEXES as usize;

/// What is kept of a thread.
#[derive(Clone, Copy, Debug, PartialEq, Eq)]
pub struct Thread {
    /// The mutex that it locks, by a call that has had no point.
    pub locks: Option<u16>,
    /// The line of the history where its newest call began, counted from 1.
    pub begin: usize,
    /// It was doomed, and hasn't been killed since.
    pub doomed: bool,
}

/// What is kept of a mutex.
#[derive(Clone, Copy, Debug, PartialEq, Eq)]
pub struct Mutex {
    pub object: Object,
    /// How many lines of the history stand before the newest step that left it without an owner.
    pub since: Option<usize>,
}

/// What is kept on the walk.
#[derive(Drop)]
pub struct Walk {
    /// By ids, from 0.
    pub threads: Vec<Thread>,
    /// By numbers.
    pub mutexes: Vec<Mutex>,
    /// How many lines of the history were seen.
    pub lines: usize,
}

fn locked_by(call: Begun) -> Option<u16>
    ensures { result ≡ locked_by call.operation call.mutex }
{
    match call.operation {
        Operation::Lock | Operation::TimedLock => Some(call.mutex),
        _ => None,
    }
}

/// What a fact of its own makes of a thread, after this many lines of the history.
fn told_thread(thread: Thread, fact: &Fact, lines: usize) -> Thread
    requires { lines + 1 < 2 ^ 64 }
    ensures { result ≡ told_thread thread fact.now lines }
{
    match *fact {
        Fact::Begin(_, call) => Thread {
            locks: locked_by(call),
            begin: lines + 1,
            doomed: thread.doomed,
        },
        Fact::Point(_) | Fact::Return(..) => Thread {
            locks: None,
            ..thread
        },
        Fact::Kill(_) => Thread {
            locks: None,
            begin: thread.begin,
            doomed: false,
        },
        Fact::Death(..) | Fact::Sleep(..) | Fact::Wake(_) | Fact::Move(..) => thread,
        Fact::Reap(_) | Fact::Renew(_) => thread,
    }
}

/// What a step of its own makes of a thread, after this many lines of the history.
fn thread_after(thread: Thread, step: &Entry, lines: usize) -> Thread
    requires { lines + 1 < 2 ^ 64 }
    ensures { result ≡ thread_after thread step.now lines }
{
    match *step {
        Entry::Told(fact) => told_thread(thread, &fact, lines),
        Entry::Doom(_) => Thread {
            doomed: true,
            ..thread
        },
    }
}

/// What a lock or trylock that replies so makes of its mutex.
fn locked(object: Object, thread: Tid, reply: Reply) -> Object
    ensures lock { result ≡ stepped object thread Operation.Lock reply }
    ensures trylock { result ≡ stepped object thread Operation.TryLock reply }
{
    match reply {
        Reply::OK | Reply::EOWNERDEAD => Object {
            owner: Some(thread),
            inconsistent: object.inconsistent,
            unusable: object.unusable,
        },
        _ => object,
    }
}

/// What an unlock that replies so makes of its mutex.
fn unlocked(object: Object, thread: Tid, reply: Reply) -> Object
    ensures { result ≡ stepped object thread Operation.Unlock reply }
{
    match reply {
        Reply::OK => Object {
            owner: None,
            inconsistent: false,
            unusable: object.inconsistent || object.unusable,
        },
        _ => object,
    }
}

/// What the call that declares its mutex consistent makes of that, where it replies so.
fn declared(object: Object, thread: Tid, reply: Reply) -> Object
    ensures { result ≡ stepped object thread Operation.Consistent reply }
{
    match reply {
        Reply::OK => Object {
            owner: object.owner,
            inconsistent: false,
            unusable: object.unusable,
        },
        _ => object,
    }
}

/// What its owner's death makes of a mutex.
fn bereaved(object: Object, thread: Tid, reply: Reply) -> Object
    ensures { result ≡ stepped object thread Operation.Death reply }
{
    match reply {
        Reply::OK => Object {
            owner: None,
            inconsistent: true,
            unusable: object.unusable,
        },
        _ => object,
    }
}

/// What a reinit that replies so makes of its mutex.
fn reinited(object: Object, thread: Tid, reply: Reply) -> Object
    ensures { result ≡ stepped object thread Operation.Reinit reply }
{
    match reply {
        Reply::OK => Object::new(),
        _ => object,
    }
}

/// What a point or a death makes of its mutex.
fn stepped(object: Object, decision: &Decision) -> Object
    ensures { result ≡ stepped object decision.now.thread decision.now.operation decision.now.reply }
{
    let thread = decision.thread;
    let reply = decision.reply;
    match decision.operation {
        Operation::Lock => locked(object, thread, reply),
        Operation::TryLock => locked(object, thread, reply),
        Operation::Unlock => unlocked(object, thread, reply),
        Operation::Consistent => declared(object, thread, reply),
        Operation::Death => bereaved(object, thread, reply),
        Operation::Reinit => reinited(object, thread, reply),
        Operation::TimedLock => object,
        Operation::Wait => object,
        Operation::TimedWait => object,
        Operation::Signal => object,
        Operation::Broadcast => object,
    }
}

/// The mutex when its object became this one, after this many lines of the history.
fn became(mutex: Mutex, object: Object, lines: usize) -> Mutex
    ensures { result ≡ became mutex object lines }
{
    let since = if mutex.object.owner.is_some() && object.owner.is_none() {
        Some(lines)
    } else {
        mutex.since
    };
    Mutex { object, since }
}

/// The step of a mutex that a step of the walk is.
fn decision_in(step: &Entry) -> Option<Decision>
    ensures { result ≡ decision_in step.now }
{
    match *step {
        Entry::Told(fact) => fact.decision(),
        Entry::Doom(_) => None,
    }
}

/// Makes a point or a death.
fn decide(mutexes: &mut Vec<Mutex>, decision: &Decision, lines: usize)
    requires { length mutexes.old.items ≡ max_mutexes }
    ensures mutex { decision.now.mutex < length mutexes.old.items }
    ensures mutexes { mutexes.new.items ≡ slice_set mutexes.old.items decision.now.mutex
        (mutex_after (mutex_at mutexes.old.items decision.now.mutex) decision.now lines) }
{
    let at = usize::from(decision.mutex);
    let old = mutexes[at];
    mutexes[at] = became(old, stepped(old.object, decision), lines);
}

/// Makes a point or a death, if there is one.
fn change(mutexes: &mut Vec<Mutex>, decision: Option<Decision>, lines: usize)
    requires { length mutexes.old.items ≡ max_mutexes }
    ensures mutex { IfSome decision (λ d. d.mutex < length mutexes.old.items) }
    ensures mutexes { mutexes.new.items ≡ mutexes_after mutexes.old.items decision lines }
{
    match decision {
        Some(decision) => decide(mutexes, &decision, lines),
        None => {}
    }
}

fn thread_of(step: &Entry) -> Tid
    ensures { result ≡ whose step.now }
{
    match *step {
        Entry::Told(fact) => fact.thread(),
        Entry::Doom(thread) => thread,
    }
}

/// Whether a step of this thread is seen.
fn is_seen(step: &Entry, thread: &Thread) -> bool
    ensures { result ≡ is_seen step.now thread.now.doomed }
{
    match *step {
        Entry::Told(fact) => !(is_hidden(&fact) || thread.doomed),
        Entry::Doom(_) => true,
    }
}

/// This many threads of which nothing was recorded.
fn idle(alloc: Global, count: usize) -> Result<Vec<Thread>, AllocError>
    ensures count { IfOk result (λ v. length v.items ≡ count) }
    ensures each { IfOk result (λ v. (t : ℕ) → thread_at v.items t ≡ idle) }
{
    let idle = Thread {
        locks: None,
        begin: 0,
        doomed: false,
    };
    let threads = vec![in alloc; idle; count]?;
    Ok(threads)
}

/// This many mutexes that nobody has owned.
fn untouched(alloc: Global, count: usize) -> Result<Vec<Mutex>, AllocError>
    ensures count { IfOk result (λ v. length v.items ≡ count) }
    ensures each { IfOk result (λ v. (m : ℕ) → mutex_at v.items m ≡ untouched) }
{
    let untouched = Mutex {
        object: Object::new(),
        since: None,
    };
    let mutexes = vec![in alloc; untouched; count]?;
    Ok(mutexes)
}

impl Walk {
    /// Before the first step, with room for every thread and every mutex.
    fn new(alloc: Global) -> Result<Walk, AllocError>
        ensures { IfOk result IsNew }
    {
        let threads = idle(alloc, THREADS)?;
        let mutexes = untouched(alloc, MUTEXES)?;
        Ok(Walk {
            threads,
            mutexes,
            lines: 0,
        })
    }

    /// Takes a step.
    fn take(&mut self, step: &Entry)
        requires room { HasRoom self.old }
        requires lines { self.old.lines + 1 < 2 ^ 64 }
        ensures walks { Walks self.old step.now self.new }
        ensures room { HasRoom self.new }
    {
        let by = usize::from(thread_of(step).get());
        let thread = self.threads[by];
        let seen = is_seen(step, &thread);
        self.threads[by] = thread_after(thread, step, self.lines);
        change(&mut self.mutexes, decision_in(step), self.lines);
        self.lines = behind(self.lines, seen);
    }
}

/// What is kept after all steps. It asks for memory once, for every thread and every mutex that steps may name.
pub fn walked(alloc: Global, steps: &[Entry]) -> Result<Walk, AllocError>
    ensures behind { IfOk result (IsBehind (reverse steps.now)) }
    ensures room { IfOk result HasRoom }
{
    let mut walk = Walk::new(alloc)?;
    for step in steps {
        walk.take(step);
    }
    Ok(walk)
}
