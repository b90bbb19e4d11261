//! What is kept of the lines so far, and whether a line fits them.
ghost use Rattle.std.specs.Prelude.{◌≡◌, ◌+◌, ◌≤◌, ◌<◌, ◌⊎◌, Some, true, length, IfOk, IfErr, MatchOption, MatchResult};
ghost use Rattle.posixmutex.specs.Objects.{Does, acquires};
ghost use Rattle.posixmutex.specs.Histories.{is_thread};
ghost use Rattle.verdict.specs.Earlier.{gives_up, moved};
ghost use Rattle.facts.specs.Facts.{decision_of, thread_of};
ghost use Rattle.verdict.specs.Fits.{Allows, OwnsNothing};
ghost use Rattle.verdict.specs.Judges.{Accepts, AreCounted, Awaits, Hurries, IsInside, IsMutex, IsSound, Moves, Rejects};
ghost use Rattle.verdict.specs.Judges.{IsNew, begun_next, freed_next, has_waited, object_at, one};
ghost use Rattle.verdict.specs.Misfits.{OwnsSome, Refuses, RefusesStep};
ghost use Rattle.verdict.specs.Reading.{IsHead};

use crate::head::Head;
use crate::misfit::Misfit;
use crate::place::Place;
use crate::stage::Stage;
use facts::{Fact, Line};
use lockword::{Reply, Tid};
use posixmutex::{Decision, HELD_LIMIT, Object, Operation};
use std::alloc::{AllocError, Global};

/// What the lines so far told, each of which fits those before it.
#[derive(Drop)]
pub struct Judge {
    pub head: Head,
    pub place: Place,
    /// Indexed by the threads' ids, from 0, which is no thread's.
    pub stages: Vec<Stage>,
    /// How many mutexes each thread owns, by the threads' ids.
    pub held: Vec<u16>,
    /// Indexed by the mutexes' numbers.
    pub objects: Vec<Object>,
    /// The event in which each thread began its newest call, by the threads' ids; 0 where it has begun none.
    pub begun: Vec<u32>,
    /// The event by which each mutex lost its last owner, by the mutexes' numbers; 0 where it has lost none.
    pub freed: Vec<u32>,
}

/// How many mutexes a thread owns after a step.
fn recount(held: u16, owned: bool, owns: bool) -> u16
    requires some { owned ≡ true → 1 ≤ held }
    requires few { held ≤ 4096 }
    ensures { result + one owned ≡ held + one owns }
{
    if owned && !owns {
        held - 1
    } else if owns && !owned {
        held + 1
    } else {
        held
    }
}

fn is_owner(thread: Tid, object: &Object) -> bool
    ensures { result ≡ is_thread thread object.now.owner }
{
    match object.owner {
        None => false,
        Some(owner) => owner == thread,
    }
}

/// The first of the mutexes that the thread owns.
fn first_owned(objects: &[Object], thread: Tid) -> Option<u16>
    requires { length objects.now ≤ 4096 }
    ensures { MatchOption result (OwnsNothing (length objects.now) (object_at objects.now) (Fact.Reap thread))
        (λ m. OwnsSome (Misfit.StillOwns m) (length objects.now) (object_at objects.now) (Fact.Reap thread)) }
{
    for (mutex, object) in objects.iter().enumerate() {
        if is_owner(thread, object) {
            return Some(mutex as u16);
        }
    }
    None
}

/// Whether the operation takes a mutex.
fn acquires(operation: Operation) -> bool
    ensures { result ≡ acquires operation }
{
    matches!(
        operation,
        Operation::Lock | Operation::TryLock | Operation::TimedLock
    )
}

/// Why a step is refused that a mutex's object doesn't allow to a thread that owns this many.
fn refusal(held: u16, object: Object, decision: &Decision) -> Misfit
    requires { (new : Object) → ¬ Does held object decision.now.thread decision.now.operation decision.now.reply new }
    ensures { RefusesStep result held object decision.now }
{
    if acquires(decision.operation) && HELD_LIMIT <= held {
        return Misfit::AtLimit { held };
    }
    let dies = decision.operation == Operation::Death;
    if dies && !is_owner(decision.thread, &object) {
        return Misfit::NotOwner { object };
    }
    Misfit::NotAllowed {
        object,
        reply: decision.reply,
    }
}

/// Makes a step of its mutex's object, if the object allows it.
fn decide(objects: &mut Vec<Object>, held: &mut Vec<u16>, decision: &Decision) -> Result<(), Misfit>
    requires mutex { decision.now.mutex < length objects.old.items }
    requires thread { decision.now.thread < length held.old.items }
    requires few { length objects.old.items ≤ 4096 }
    requires counted { AreCounted held.old.items objects.old.items }
    ensures allowed { IfOk result
        (λ _. Allows (length objects.old.items) (object_at objects.old.items) (Some decision.now)) }
    ensures refused { IfErr result
        (λ m. Refuses m (length objects.old.items) (object_at objects.old.items) (Some decision.now)) }
    ensures moved { IfOk result
        (λ _. object_at objects.new.items ≡ moved (object_at objects.old.items) (Some decision.now)) }
    ensures counted { AreCounted held.new.items objects.new.items }
    ensures objects { length objects.new.items ≡ length objects.old.items }
    ensures held { length held.new.items ≡ length held.old.items }
{
    let thread = decision.thread;
    let at = usize::from(decision.mutex);
    let by = usize::from(thread.get());
    let old = objects[at];
    let owned = held[by];
    match old.step(owned, thread, decision.operation, decision.reply) {
        None => Err(refusal(owned, old, decision)),
        Some(new) => {
            objects[at] = new;
            held[by] = recount(owned, is_owner(thread, &old), is_owner(thread, &new));
            Ok(())
        }
    }
}

/// Makes what a fact tells of the mutexes, if they allow it.
fn change(objects: &mut Vec<Object>, held: &mut Vec<u16>, fact: &Fact) -> Result<(), Misfit>
    requires inside { IsInside (length held.old.items) (length objects.old.items) fact.now }
    requires few { length objects.old.items ≤ 4096 }
    requires counted { AreCounted held.old.items objects.old.items }
    ensures allowed { IfOk result
        (λ _. Allows (length objects.old.items) (object_at objects.old.items) (decision_of fact.now)
        × OwnsNothing (length objects.old.items) (object_at objects.old.items) fact.now) }
    ensures refused { IfErr result
        (λ m. Refuses m (length objects.old.items) (object_at objects.old.items) (decision_of fact.now)
        ⊎ OwnsSome m (length objects.old.items) (object_at objects.old.items) fact.now) }
    ensures moved { IfOk result
        (λ _. object_at objects.new.items ≡ moved (object_at objects.old.items) (decision_of fact.now)) }
    ensures counted { AreCounted held.new.items objects.new.items }
    ensures objects { length objects.new.items ≡ length objects.old.items }
    ensures held { length held.new.items ≡ length held.old.items }
{
    match fact.decision() {
        Some(decision) => decide(objects, held, &decision),
        None => match *fact {
            Fact::Reap(thread) => match first_owned(objects, thread) {
                None => Ok(()),
                Some(mutex) => Err(Misfit::StillOwns { mutex }),
            },
            _ => Ok(()),
        },
    }
}

/// Whether another thread has owned a mutex since the event in which this one began its call, which has neither taken nor
/// released it: by its owner, and the event by which it lost its last one.
fn has_waited(thread: Tid, owner: Option<Tid>, begun: u32, freed: u32) -> bool
    ensures { result ≡ has_waited thread owner begun freed }
{
    match owner {
        None => begun < freed,
        Some(owner) => owner != thread,
    }
}

/// Whether an operation that replies so takes the mutex from its owner.
fn gives_up(operation: Operation, reply: Reply) -> bool
    ensures { result ≡ gives_up operation reply }
{
    matches!(operation, Operation::Unlock | Operation::Death) && reply == Reply::OK
}

/// Keeps the event in which its thread began a call, if the fact tells that.
fn note_begin(begun: &mut Vec<u32>, event: u32, fact: &Fact)
    requires { thread_of fact.now < length begun.old.items }
    ensures { begun.new.items ≡ begun_next begun.old.items event fact.now }
{
    if let Fact::Begin(thread, _) = *fact {
        begun[usize::from(thread.get())] = event;
    }
}

/// Keeps the event by which a mutex lost its owner, if the fact tells that.
fn note_freeing(freed: &mut Vec<u32>, event: u32, fact: &Fact)
    requires { IsMutex (length freed.old.items) fact.now }
    ensures { freed.new.items ≡ freed_next freed.old.items event fact.now }
{
    match *fact {
        Fact::Point(point) => {
            if gives_up(point.operation, point.reply) {
                freed[usize::from(point.mutex)] = event;
            }
        }
        Fact::Death(_, mutex) => freed[usize::from(mutex)] = event,
        _ => {}
    }
}

impl Judge {
    /// Before the first line after the head, with room for all that is kept.
    pub fn new(alloc: Global, head: Head) -> Result<Judge, AllocError>
        requires { IsHead head }
        ensures { IfOk result (λ j. IsNew head j) }
    {
        let threads = usize::from(head.threads) + 1;
        let mutexes = usize::from(head.mutexes);
        Ok(Judge {
            head,
            place: Place::new(),
            stages: vec![in alloc; Stage::Resting; threads]?,
            held: vec![in alloc; 0; threads]?,
            objects: vec![in alloc; Object::new(); mutexes]?,
            begun: vec![in alloc; 0; threads]?,
            freed: vec![in alloc; 0; mutexes]?,
        })
    }

    /// That a point tells of a time limit only where another thread has owned the mutex since its call began; or that it
    /// is too early.
    fn awaits(&self, fact: &Fact) -> Result<(), Misfit>
        requires sound { IsSound self.now }
        requires inside { IsInside (length self.now.stages.items) (length self.now.objects.items) fact.now }
        ensures { MatchResult result (λ _. Awaits self.now fact.now) (λ m. Hurries m self.now fact.now) }
    {
        let Fact::Point(point) = *fact else {
            return Ok(());
        };
        if point.reply != Reply::ETIMEDOUT {
            return Ok(());
        }
        let at = usize::from(point.mutex);
        let began = self.begun[usize::from(point.thread.get())];
        if has_waited(point.thread, self.objects[at].owner, began, self.freed[at]) {
            Ok(())
        } else {
            Err(Misfit::TooEarly { began })
        }
    }

    /// Takes an entry, if it fits the lines so far.
    pub fn accept(&mut self, entry: &Line) -> Result<(), Misfit>
        requires sound { IsSound self.old }
        requires inside { IsInside (length self.old.stages.items) (length self.old.objects.items) entry.now.fact }
        ensures accepts { IfOk result (λ _. Accepts self.old entry.now) }
        ensures rejects { IfErr result (λ m. Rejects m self.old entry.now) }
        ensures moves { IfOk result (λ _. Moves self.old entry.now self.new) }
        ensures sound { IsSound self.new }
        ensures head { self.new.head ≡ self.old.head }
        ensures stages { length self.new.stages.items ≡ length self.old.stages.items }
        ensures objects { length self.new.objects.items ≡ length self.old.objects.items }
    {
        self.place.stands(entry)?;
        let by = usize::from(entry.fact.thread().get());
        let stage = self.stages[by].after(&entry.fact)?;
        let awaits = self.awaits(&entry.fact);
        change(&mut self.objects, &mut self.held, &entry.fact)?;
        awaits?;
        note_begin(&mut self.begun, entry.event, &entry.fact);
        note_freeing(&mut self.freed, entry.event, &entry.fact);
        self.stages[by] = stage;
        self.place = self.place.behind(entry);
        Ok(())
    }
}
