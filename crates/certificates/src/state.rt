//! What is kept of a certificate's lines so far, and whether a line fits them.

ghost use Rattle.std.specs.Prelude.{ℕ, ◌≡◌, ◌+◌, ◌<◌, Some, true, false, length, slice_index, IfOk, IfSome};
ghost use Rattle.certificates.specs.States.{Accepts, Awaits, IsNew, IsSound, Moves, Releases, doom_at, phase_at};
ghost use Rattle.facts.specs.Facts.{decision_of, thread_of};
ghost use Rattle.histories.specs.Reading.{IsHead};
ghost use Rattle.posixmutex.specs.Histories.{is_thread};
ghost use Rattle.posixmutex.specs.Objects.{fresh};
ghost use Rattle.verdict.specs.Earlier.{gives_up, moved};
ghost use Rattle.verdict.specs.Fits.{Allows, OwnsNothing};
ghost use Rattle.verdict.specs.Judges.{AreCounted, IsMutex, begun_next, freed_next, has_waited, object_at, one};

use crate::phase::{Phase, is_wait};
use facts::Fact;
use histories::Head;
use lockword::{Reply, Tid};
use posixmutex::{Decision, Object, Operation};
use std::alloc::{AllocError, Global};

/// What the lines so far told, each of which fits those before it.
#[derive(Drop)]
pub struct State {
    /// Indexed by the threads' ids, from 0, which is no thread's.
    pub phases: Vec<Phase>,
    /// How many mutexes each thread owns, by the threads' ids.
    pub held: Vec<u16>,
    /// Indexed by the mutexes' numbers.
    pub objects: Vec<Object>,
    /// Which threads are doomed and not killed yet, by the threads' ids.
    pub doomed: Vec<bool>,
    /// How many lines there are.
    pub lines: usize,
    /// The line that told of each thread's newest begin, counted from 1, by the threads' ids; 0 where there is none.
    pub begun: Vec<usize>,
    /// The line by which each mutex lost its last owner, by the mutexes' numbers; 0 where it has lost none.
    pub freed: Vec<usize>,
}

/// How many mutexes a thread owns after a step; None where they can't be counted.
fn recount(held: u16, owned: bool, owns: bool) -> Option<u16>
    ensures { IfSome result (λ n. n + one owned ≡ held + one owns) }
{
    if owned && !owns {
        held.checked_sub(1)
    } else if owns && !owned {
        held.checked_add(1)
    } else {
        Some(held)
    }
}

fn is_owner(thread: Tid, object: &Object) -> bool
    ensures { result ≡ is_thread thread object.now.owner }
{
    match object.owner {
        None => false,
        Some(owner) => owner == thread,
    }
}

/// Makes a step of its mutex's object, if the object allows it.
fn decide(objects: &mut Vec<Object>, held: &mut Vec<u16>, decision: &Decision) -> Option<()>
    requires mutex { decision.now.mutex < length objects.old.items }
    requires thread { decision.now.thread < length held.old.items }
    requires counted { AreCounted held.old.items objects.old.items }
    ensures allowed { IfSome result (λ _. Allows (length objects.old.items) (object_at objects.old.items) (Some decision.now)) }
    ensures moved { IfSome result
        (λ _. object_at objects.new.items ≡ moved (object_at objects.old.items) (Some decision.now)) }
    ensures counted { AreCounted held.new.items objects.new.items }
    ensures objects { length objects.new.items ≡ length objects.old.items }
    ensures held { length held.new.items ≡ length held.old.items }
{
    let thread = decision.thread;
    let at = usize::from(decision.mutex);
    let by = usize::from(thread.get());
    let old = objects[at];
    let owned = held[by];
    match old.step(owned, thread, decision.operation, decision.reply) {
        None => None,
        Some(new) => match recount(owned, is_owner(thread, &old), is_owner(thread, &new)) {
            None => None,
            Some(left) => {
                objects[at] = new;
                held[by] = left;
                Some(())
            }
        },
    }
}

/// Makes what a fact tells of the mutexes, if they allow it.
fn change(objects: &mut Vec<Object>, held: &mut Vec<u16>, fact: &Fact) -> Option<()>
    requires thread { thread_of fact.now < length held.old.items }
    requires counted { AreCounted held.old.items objects.old.items }
    ensures inside { IfSome result (λ _. IsMutex (length objects.old.items) fact.now) }
    ensures allowed { IfSome result
        (λ _. Allows (length objects.old.items) (object_at objects.old.items) (decision_of fact.now)) }
    ensures reaped { IfSome result
        (λ _. OwnsNothing (length objects.old.items) (object_at objects.old.items) fact.now) }
    ensures moved { IfSome result
        (λ _. object_at objects.new.items ≡ moved (object_at objects.old.items) (decision_of fact.now)) }
    ensures counted { AreCounted held.new.items objects.new.items }
    ensures objects { length objects.new.items ≡ length objects.old.items }
    ensures held { length held.new.items ≡ length held.old.items }
{
    match fact.decision() {
        Some(decision) => {
            if usize::from(decision.mutex) < objects.len() {
                decide(objects, held, &decision)
            } else {
                None
            }
        }
        None => match *fact {
            Fact::Reap(thread) => {
                if held[usize::from(thread.get())] == 0 {
                    Some(())
                } else {
                    None
                }
            }
            _ => Some(()),
        },
    }
}

/// Whether the mutex with this number is consistent.
fn is_consistent(objects: &[Object], mutex: u16) -> bool
    ensures { result ≡ true → (object_at objects.now mutex).inconsistent ≡ false }
{
    let at = usize::from(mutex);
    at < objects.len() && !objects[at].inconsistent
}

/// Whether a wait releases a consistent mutex, if the fact is that.
fn releases_well(phase: &Phase, objects: &[Object], fact: &Fact) -> bool
    ensures { result ≡ true → Releases phase.now objects.now fact.now }
{
    match *phase {
        Phase::Calling(call, _) => match *fact {
            Fact::Point(point) => {
                if point.operation == Operation::Unlock && is_wait(call.operation) {
                    is_consistent(objects, point.mutex)
                } else {
                    true
                }
            }
            _ => true,
        },
        _ => true,
    }
}

/// Whether another thread has owned a mutex since the line by which this one began its call, which has neither taken nor
/// released it: by its owner, and the line by which it lost its last one.
fn has_waited(thread: Tid, owner: Option<Tid>, begun: usize, freed: usize) -> bool
    ensures { result ≡ has_waited thread owner begun freed }
{
    match owner {
        None => begun < freed,
        Some(owner) => owner != thread,
    }
}

/// Whether an operation that replies so takes the mutex from its owner.
fn gives_up(operation: Operation, reply: Reply) -> bool
    ensures { result ≡ gives_up operation reply }
{
    matches!(operation, Operation::Unlock | Operation::Death) && reply == Reply::OK
}

/// Keeps the line by which its thread began a call, if the fact tells that.
fn note_begin(begun: &mut Vec<usize>, line: usize, fact: &Fact)
    requires { thread_of fact.now < length begun.old.items }
    ensures { begun.new.items ≡ begun_next begun.old.items line fact.now }
{
    if let Fact::Begin(thread, _) = *fact {
        begun[usize::from(thread.get())] = line;
    }
}

/// Keeps the line by which a mutex lost its owner, if the fact tells that.
fn note_freeing(freed: &mut Vec<usize>, line: usize, fact: &Fact)
    requires { IsMutex (length freed.old.items) fact.now }
    ensures { freed.new.items ≡ freed_next freed.old.items line fact.now }
{
    match *fact {
        Fact::Point(point) => {
            if gives_up(point.operation, point.reply) {
                freed[usize::from(point.mutex)] = line;
            }
        }
        Fact::Death(_, mutex) => freed[usize::from(mutex)] = line,
        _ => {}
    }
}

/// This many mutexes that nobody has locked yet.
fn free(alloc: Global, count: usize) -> Result<Vec<Object>, AllocError>
    ensures count { IfOk result (λ v. length v.items ≡ count) }
    ensures each { IfOk result (λ v. (m : ℕ) → object_at v.items m ≡ fresh) }
{
    let fresh = Object {
        owner: None,
        inconsistent: false,
        unusable: false,
    };
    let objects = vec![in alloc; fresh; count]?;
    Ok(objects)
}

/// This many threads that rest.
fn resting(alloc: Global, count: usize) -> Result<Vec<Phase>, AllocError>
    ensures count { IfOk result (λ v. length v.items ≡ count) }
    ensures each { IfOk result (λ v. (t : ℕ) → phase_at v.items t ≡ Phase.Resting) }
{
    let phases = vec![in alloc; Phase::Resting; count]?;
    Ok(phases)
}

/// This many threads that own nothing.
fn owning_nothing(alloc: Global, count: usize) -> Result<Vec<u16>, AllocError>
    ensures count { IfOk result (λ v. length v.items ≡ count) }
    ensures each { IfOk result (λ v. (t : ℕ) → slice_index v.items t ≡ 0) }
{
    let held = vec![in alloc; 0_u16; count]?;
    Ok(held)
}

/// This many threads, none of which is doomed.
fn undoomed(alloc: Global, count: usize) -> Result<Vec<bool>, AllocError>
    ensures count { IfOk result (λ v. length v.items ≡ count) }
    ensures each { IfOk result (λ v. (t : ℕ) → doom_at v.items t ≡ false) }
{
    let doomed = vec![in alloc; false; count]?;
    Ok(doomed)
}

/// This many lines that weren't told yet.
fn untold(alloc: Global, count: usize) -> Result<Vec<usize>, AllocError>
    ensures count { IfOk result (λ v. length v.items ≡ count) }
    ensures each { IfOk result (λ v. (k : ℕ) → slice_index v.items k ≡ 0) }
{
    let lines = vec![in alloc; 0_usize; count]?;
    Ok(lines)
}

impl State {
    /// Before the first line, with room for all that is kept.
    pub fn new(alloc: Global, head: &Head) -> Result<State, AllocError>
        requires { IsHead head.now }
        ensures { IfOk result (IsNew head.now) }
    {
        let threads = usize::from(head.threads) + 1;
        let mutexes = head.mutexes as usize;
        let phases = resting(alloc, threads)?;
        let held = owning_nothing(alloc, threads)?;
        let doomed = undoomed(alloc, threads)?;
        let objects = free(alloc, mutexes)?;
        let begun = untold(alloc, threads)?;
        let freed = untold(alloc, mutexes)?;
        Ok(State {
            phases,
            held,
            objects,
            doomed,
            lines: 0,
            begun,
            freed,
        })
    }

    /// Whether another thread has owned the mutex of a point that tells of a time limit since its call began, if the fact
    /// is that.
    fn awaits(&self, fact: &Fact) -> bool
        ensures { result ≡ true → Awaits self.now fact.now }
    {
        let Fact::Point(point) = *fact else {
            return true;
        };
        if point.reply != Reply::ETIMEDOUT {
            return true;
        }
        let by = usize::from(point.thread.get());
        let at = usize::from(point.mutex);
        if by >= self.begun.len() || at >= self.objects.len() || at >= self.freed.len() {
            return false;
        }
        let owner = self.objects[at].owner;
        has_waited(point.thread, owner, self.begun[by], self.freed[at])
    }

    /// Takes a fact, if it fits the lines so far.
    pub fn accept(&mut self, fact: &Fact) -> Option<()>
        requires { IsSound self.old }
        ensures accepts { IfSome result (λ _. Accepts self.old fact.now) }
        ensures moves { IfSome result (λ _. Moves self.old fact.now self.old.doomed.items self.new) }
        ensures sound { IsSound self.new }
    {
        let by = usize::from(fact.thread().get());
        if by >= self.phases.len() {
            return None;
        }
        let phase = self.phases[by];
        let after = phase.after(fact)?;
        if !releases_well(&phase, &self.objects, fact) || !self.awaits(fact) {
            return None;
        }
        let line = self.lines.checked_add(1)?;
        change(&mut self.objects, &mut self.held, fact)?;
        note_begin(&mut self.begun, line, fact);
        note_freeing(&mut self.freed, line, fact);
        self.phases[by] = after;
        self.lines = line;
        Some(())
    }
}
