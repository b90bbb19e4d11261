//! Waits that make their mutexes unusable: a legal trace may have them, and no run has.

ghost use Rattle.std.specs.Prelude.{◌≡◌, ◌+◌, List, [], ◌∷◌, All, length, option_map, IfOk, IfSome, Some};
ghost use Rattle.facts.specs.declared.fact.Line.{Line};
ghost use Rattle.facts.specs.declared.fact.Fact.{Fact};
ghost use Rattle.facts.specs.Facts.{decision_of, thread_of};
ghost use Rattle.verdict.specs.Earlier.{call_in};
ghost use Rattle.verdict.specs.Judges.{IsInside};
ghost use Rattle.verdict.specs.Told.{IsOf};
ghost use Rattle.explain.specs.Spoiling.{IsDeathOf, IsFirstSpoiling, IsSpoiledBy, Recalls};
ghost use Rattle.explain.specs.Spoiling.{death_before, is_release, is_waiting};

use facts::{Fact, Line};
use lockword::Reply;
use posixmutex::{Decision, Operation};
use std::alloc::{AllocError, Global};
use verdict::Head;

/// A wait that releases its mutex while that is inconsistent, which makes it unusable (pthread_cond_wait).
#[derive(Clone, Copy, Debug, PartialEq, Eq)]
pub struct Spoiling {
    /// The line of the release, from 1.
    pub line: usize,
    /// The line of the death that left the mutex inconsistent.
    pub death: usize,
}

/// What the lines so far tell by which a release is judged.
#[derive(Drop)]
struct Past {
    /// Whether the thread is in a wait, by the threads' ids, from 0, which is no thread's.
    waits: Vec<bool>,
    /// About a mutex that is inconsistent the line of its last owner's death, by the mutexes' numbers.
    deaths: Vec<Option<usize>>,
}

/// Whether the step gives up its mutex.
fn is_release(step: &Decision) -> bool
    ensures { result ≡ is_release step.now.operation step.now.reply }
{
    step.operation == Operation::Unlock && step.reply == Reply::OK
}

/// Whether the fact's thread is in a wait after it, where this tells whether it was.
fn waits_behind(waits: bool, fact: &Fact) -> bool
    ensures { (told : List Fact) → waits ≡ is_waiting (call_in told) → result ≡ is_waiting (call_in (fact.now ∷ told)) }
{
    match *fact {
        Fact::Begin(_, call) => { matches!(call.operation, Operation::Wait | Operation::TimedWait) }
        Fact::Return(..) | Fact::Kill(_) => false,
        _ => waits,
    }
}

/// The line of the last owner's death where the step's mutex is inconsistent after it, where this is that before it;
/// `line` is the step's.
fn death_behind(death: Option<usize>, line: usize, step: &Decision) -> Option<usize>
    ensures { (earlier : List Line) (e : Line) → decision_of e.fact ≡ Some step.now → line ≡ length earlier + 2
        → IsDeathOf step.now.mutex earlier death → IsDeathOf step.now.mutex (e ∷ earlier) result }
{
    if step.reply != Reply::OK {
        return death;
    }
    match step.operation {
        Operation::Death => Some(line),
        Operation::Unlock | Operation::Consistent | Operation::Reinit => None,
        _ => death,
    }
}

impl Past {
    /// Before the first line after the head.
    fn new(alloc: Global, head: Head) -> Result<Past, AllocError>
        ensures recalls { IfOk result (λ p. Recalls p []) }
        ensures threads { IfOk result (λ p. length p.waits.items ≡ head.threads + 1) }
        ensures mutexes { IfOk result (λ p. length p.deaths.items ≡ head.mutexes) }
    {
        let threads = usize::from(head.threads) + 1;
        let mutexes = usize::from(head.mutexes);
        Ok(Past {
            waits: vec![in alloc; false; threads]?,
            deaths: vec![in alloc; None; mutexes]?,
        })
    }

    /// The line of the death that left the line's mutex inconsistent, where the line tells of a wait that makes it
    /// unusable.
    fn spoiled_by(&self, entry: &Line) -> Option<usize>
        requires { IsInside (length self.now.waits.items) (length self.now.deaths.items) entry.now.fact }
        ensures { (earlier : List Line) → Recalls self.now earlier
            → IsSpoiledBy earlier (decision_of entry.now.fact) result }
    {
        let Some(step) = entry.fact.decision() else {
            return None;
        };
        let waits = self.waits[usize::from(step.thread.get())];
        if waits && is_release(&step) {
            self.deaths[usize::from(step.mutex)]
        } else {
            None
        }
    }

    /// Takes the entry at this line.
    fn take(&mut self, line: usize, entry: &Line)
        requires { IsInside (length self.old.waits.items) (length self.old.deaths.items) entry.now.fact }
        ensures recalls { (earlier : List Line) → line ≡ length earlier + 2 → Recalls self.old earlier
            → Recalls self.new (entry.now ∷ earlier) }
        ensures waits { length self.new.waits.items ≡ length self.old.waits.items }
        ensures deaths { length self.new.deaths.items ≡ length self.old.deaths.items }
    {
        let by = usize::from(entry.fact.thread().get());
        self.waits[by] = waits_behind(self.waits[by], &entry.fact);
        if let Some(step) = entry.fact.decision() {
            let at = usize::from(step.mutex);
            self.deaths[at] = death_behind(self.deaths[at], line, &step);
        }
    }
}

/// The first of these lines, the first of which is line 2, that tells of a wait which makes its mutex unusable.
pub fn first_spoiling(
    alloc: Global,
    head: Head,
    lines: &[Line],
) -> Result<Option<Spoiling>, AllocError>
    requires { All (IsOf head) lines.now }
    ensures first { IfOk result (λ s. IsFirstSpoiling lines.now (option_map (λ s. s.line) s)) }
    ensures death { IfOk result (λ s. IfSome s (λ s. death_before lines.now s.line ≡ Some s.death)) }
{
    let mut past = Past::new(alloc, head)?;
    for (index, entry) in lines.iter().enumerate() {
        if let Some(death) = past.spoiled_by(entry) {
            return Ok(Some(Spoiling {
                line: index + 2,
                death,
            }));
        }
        past.take(index + 2, entry);
    }
    Ok(None)
}
