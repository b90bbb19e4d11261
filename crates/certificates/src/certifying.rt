//! Whether a list of steps is a certificate of a history.

ghost use Rattle.std.specs.Prelude.{◌≡◌, ◌+◌, ◌<◌, ◌^◌, true, false, count_by, IfOk, IfSome, slice_set, if◌then◌else◌};
ghost use Rattle.certificates.specs.Certificates.{IsCertificate, Takes, TakesFact, entries, is_point_step};
ghost use Rattle.certificates.specs.States.{Accepts, IsAlive, IsDoomed, IsSound, Moves, doom_at};
ghost use Rattle.histories.specs.Histories.{is_hidden};
ghost use Rattle.histories.specs.Reading.{IsHead};
ghost use Rattle.std.specs.List.{slice_get};

use crate::phase::Phase;
use crate::state::State;
use facts::Fact;
use histories::{Entry, Head, HistoryLine};
use lockword::Tid;
use std::alloc::{AllocError, Global};

/// Whether nobody outside sees the fact.
pub fn is_hidden(fact: &Fact) -> bool
    ensures { result ≡ is_hidden fact.now }
{
    match *fact {
        Fact::Point(_) | Fact::Death(..) => true,
        Fact::Sleep(..) | Fact::Wake(_) | Fact::Move(..) => true,
        Fact::Begin(..) | Fact::Return(..) => false,
        Fact::Kill(_) | Fact::Reap(_) | Fact::Renew(_) => false,
    }
}

fn is_alive(phase: &Phase) -> bool
    ensures { result ≡ true → IsAlive phase.now }
{
    match *phase {
        Phase::Resting | Phase::Calling(..) => true,
        Phase::Dying | Phase::Reaped => false,
    }
}

/// Takes a doom, if its thread is alive and not doomed yet.
fn doom(state: &mut State, thread: Tid) -> Option<()>
    requires { IsSound state.old }
    ensures dooms { IfSome result (λ _. IsDoomed state.old thread state.new) }
    ensures sound { IsSound state.new }
{
    let by = usize::from(thread.get());
    if by >= state.phases.len() {
        return None;
    }
    let phase = state.phases[by];
    if state.doomed[by] || !is_alive(&phase) {
        return None;
    }
    state.doomed[by] = true;
    Some(())
}

/// Takes the kill of a doomed thread.
fn kill(state: &mut State, thread: Tid) -> Option<()>
    requires sound { IsSound state.old }
    ensures accepts { IfSome result (λ _. Accepts state.old (Fact.Kill thread)) }
    ensures moves { IfSome result
        (λ _. Moves state.old (Fact.Kill thread) (slice_set state.old.doomed.items thread false) state.new) }
    ensures sound { IsSound state.new }
{
    let by = usize::from(thread.get());
    if by >= state.phases.len() {
        return None;
    }
    state.accept(&Fact::Kill(thread))?;
    state.doomed[by] = false;
    Some(())
}

/// Whether the thread is doomed and not killed yet.
fn is_doomed(state: &State, thread: Tid) -> bool
    ensures { result ≡ doom_at state.now.doomed.items thread }
{
    let by = usize::from(thread.get());
    by < state.doomed.len() && state.doomed[by]
}

/// Takes a fact, and tells whether it is the history's next entry.
fn take_fact(state: &mut State, next: Option<Entry>, fact: &Fact) -> Option<bool>
    requires { IsSound state.old }
    ensures accepts { IfSome result (λ _. Accepts state.old fact.now) }
    ensures takes { IfSome result (λ tells. TakesFact state.old next fact.now tells state.new) }
    ensures sound { IsSound state.new }
{
    if is_hidden(fact) {
        state.accept(fact)?;
        return Some(false);
    }
    if is_doomed(state, fact.thread()) {
        return match *fact {
            Fact::Kill(thread) => {
                kill(state, thread)?;
                Some(false)
            }
            _ => None,
        };
    }
    if next != Some(Entry::Told(*fact)) {
        return None;
    }
    state.accept(fact)?;
    Some(true)
}

/// Takes a step, and tells whether it is the history's next entry.
fn take(state: &mut State, next: Option<Entry>, step: &Entry) -> Option<bool>
    requires { IsSound state.old }
    ensures takes { IfSome result (λ tells. Takes state.old next step.now tells state.new) }
    ensures sound { IsSound state.new }
{
    match *step {
        Entry::Told(fact) => take_fact(state, next, &fact),
        Entry::Doom(thread) => {
            if next != Some(Entry::Doom(thread)) {
                return None;
            }
            doom(state, thread)?;
            Some(true)
        }
    }
}

/// The entry of the history's line at this place.
fn entry_at(history: &[HistoryLine], at: usize) -> Option<Entry>
    ensures { result ≡ slice_get (entries history.now) at }
{
    match history.get(at) {
        Some(line) => Some(line.entry),
        None => None,
    }
}

/// The place after this one, where its entry was recorded.
pub fn behind(at: usize, tells: bool) -> usize
    requires { at + 1 < 2 ^ 64 }
    ensures { result ≡ (if tells then at + 1 else at) }
{
    if tells { at + 1 } else { at }
}

/// Whether the steps are a certificate of the history. Memory is asked for once, for what is kept of each thread and
/// mutex.
pub fn certify(
    alloc: Global,
    head: &Head,
    history: &[HistoryLine],
    steps: &[Entry],
) -> Result<bool, AllocError>
    requires { IsHead head.now }
    ensures { IfOk result (λ r. r ≡ true → IsCertificate head.now.mutexes history.now steps.now) }
{
    let mut state = State::new(alloc, head)?;
    let mut shown: usize = 0;
    for step in steps {
        let Some(tells) = take(&mut state, entry_at(history, shown), step) else {
            return Ok(false);
        };
        shown = behind(shown, tells);
    }
    Ok(shown == history.len())
}

/// How many of the steps are points of calls.
pub fn points_of(steps: &[Entry]) -> usize
    ensures { result ≡ count_by is_point_step steps.now }
{
    steps.iter().filter(|step| is_point(step)).count()
}

fn is_point(step: &Entry) -> bool
    ensures { result ≡ is_point_step step.now }
{
    match *step {
        Entry::Told(fact) => fact.is_point(),
        Entry::Doom(_) => false,
    }
}
