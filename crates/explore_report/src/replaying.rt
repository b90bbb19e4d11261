//! Playing the script of an outcome: whether its run ends so.

ghost use Rattle.std.specs.Prelude.{◌≡◌, ◌<◌, true, length, option_to_list, IfOk};
ghost use Rattle.interleave.specs.Shown.{state_of};
ghost use Rattle.protocol.specs.Headline.{seen};
ghost use Rattle.protocol.specs.Machine.{stands_in};
ghost use Rattle.explore_report.specs.Replays.{replies_of, returned_to, told_in, AreLeft, Came, HasAsMany, HasEnded};
ghost use Rattle.explore_report.specs.Replays.{HaveEnded, PlayCame, Refuses, Shows, is_settled, replay_of, sleeps_so};

use crate::patterns::is_dead;
use interleave::Machine;
use lockword::{Cell, Reply, Tid};
use memorymap::NoMem;
use outcomes::{End, Ended, Outcome};
use posixmutex::Object;
use protocol::Note;
use script::{Fault, Mode, Script, first_machine, parse, play};
use std::alloc::{AllocError, Global};

/// What came of playing the script of an outcome.
#[derive(Clone, Copy)]
pub enum Replay {
    /// The script's run has the outcome.
    Same,
    /// The script passes a limit of scripts, so it isn't played.
    TooLong,
    /// The script's run has another outcome, or there is a fault.
    Other,
}

/// The reply that a caller was given, if it is this thread.
fn reply_to(thread: Tid, caller: Tid, reply: Option<Reply>) -> Option<Reply>
    ensures { option_to_list result ≡ returned_to thread caller reply }
{
    if caller == thread { reply } else { None }
}

/// The reply with which a thread's call returned, if it did at this event.
fn reply_in(note: &Note, thread: Tid) -> Option<Reply>
    ensures { option_to_list result ≡ told_in thread note.now }
{
    match *note {
        Note::Began {
            thread: caller,
            refused,
            ..
        } => reply_to(thread, caller, refused),
        Note::Stepped {
            thread: caller,
            returned,
            ..
        } => reply_to(thread, caller, returned),
        Note::Nothing | Note::Killed { .. } | Note::Left { .. } | Note::Expired { .. } => None,
        Note::Walked { .. } | Note::Renewed { .. } | Note::Reinited { .. } => None,
    }
}

/// What a thread's calls returned.
fn replies_of(alloc: Global, notes: &[Note], thread: Tid) -> Result<Vec<Reply>, AllocError>
    ensures { IfOk result (λ v. v.items ≡ replies_of thread notes.now) }
{
    let mut replies = Vec::new(alloc);
    for note in notes {
        if let Some(reply) = reply_in(note, thread) {
            replies.push(reply)?;
        }
    }
    Ok(replies)
}

/// Whether replies are the same.
fn same_replies(a: &[Reply], b: &[Reply]) -> bool
    ensures so { result ≡ true → a.now ≡ b.now }
    ensures only { a.now ≡ b.now → result ≡ true }
{
    *a == *b
}

/// Whether a thread sleeps on the word at a place.
fn stands_at(machine: &Machine, thread: Tid, place: u64) -> bool
    ensures { result ≡ stands_in thread ((state_of machine.now).queues place) }
{
    let sleepers = machine.sleepers(place);
    for rank in 0..sleepers.len() {
        if let Some(sleeper) = sleepers.get(rank) {
            if sleeper.get() == thread.get() {
                return true;
            }
        }
    }
    false
}

/// Whether a thread of the machine sleeps where an outcome has it sleep, or doesn't, as there.
fn sleeps_so(machine: &Machine, thread: Tid, end: End) -> bool
    ensures { result ≡ sleeps_so (state_of machine.now) thread end }
{
    let layout = machine.layout();
    match end {
        End::OnMutex(mutex) => {
            mutex < layout.mutexes() && stands_at(machine, thread, layout.cell(mutex))
        }
        End::OnCondition(condition) => {
            condition < layout.conditions() && stands_at(machine, thread, layout.counter(condition))
        }
        End::Finished | End::Waiting | End::Dead => !machine.asleep(thread),
    }
}

/// Whether a thread of the machine ended so.
fn has_ended(
    alloc: Global,
    machine: &Machine,
    notes: &[Note],
    thread: Tid,
    ended: &Ended,
) -> Result<bool, AllocError>
    ensures so { IfOk result (λ same. same ≡ true → HasEnded (state_of machine.now) notes.now thread ended.now) }
    ensures only { IfOk result (λ same. HasEnded (state_of machine.now) notes.now thread ended.now → same ≡ true) }
{
    let replies = replies_of(alloc, notes, thread)?;
    let is_same = same_replies(&replies, &ended.replies);
    let is_dead = machine.reaped(thread) == is_dead(ended.end);
    let is_asleep = sleeps_so(machine, thread, ended.end);
    Ok(is_same && is_dead && is_asleep)
}

/// Whether the threads of the machine, which are as many as these, ended so.
fn have_ended(
    alloc: Global,
    machine: &Machine,
    notes: &[Note],
    threads: &[Ended],
) -> Result<bool, AllocError>
    requires { length threads.now ≡ machine.now.layout.threads }
    ensures so { IfOk result (λ same. same ≡ true → HaveEnded (state_of machine.now) notes.now threads.now) }
    ensures only { IfOk result (λ same. HaveEnded (state_of machine.now) notes.now threads.now → same ≡ true) }
{
    for before in 0..machine.layout().threads() {
        let thread = Tid::new(before + 1).unwrap();
        let ended = &threads[usize::from(before)];
        if !has_ended(alloc, machine, notes, thread, ended)? {
            return Ok(false);
        }
    }
    Ok(true)
}

/// What a mutex of the machine is to POSIX.
fn object_of(machine: &Machine, mutex: u16) -> Object
    requires { mutex < machine.now.layout.mutexes }
    ensures { result ≡ seen (state_of machine.now) mutex }
{
    let word = machine.word(machine.layout().cell(mutex)).unwrap_or(0);
    let cell = Cell::new(word);
    Object {
        owner: machine.owner(mutex),
        inconsistent: cell.owner_died(),
        unusable: cell.unusable(),
    }
}

/// Whether a mutex of the machine is so.
fn is_left(machine: &Machine, mutex: u16, object: &Object) -> bool
    requires { mutex < machine.now.layout.mutexes }
    ensures so { result ≡ true → seen (state_of machine.now) mutex ≡ object.now }
    ensures only { seen (state_of machine.now) mutex ≡ object.now → result ≡ true }
{
    object_of(machine, mutex) == *object
}

/// Whether the mutexes of the machine, which are as many as these, are so.
fn are_left(machine: &Machine, mutexes: &[Object]) -> bool
    requires { length mutexes.now ≡ machine.now.layout.mutexes }
    ensures so { result ≡ true → AreLeft (state_of machine.now) mutexes.now }
    ensures only { AreLeft (state_of machine.now) mutexes.now → result ≡ true }
{
    for mutex in 0..machine.layout().mutexes() {
        if !is_left(machine, mutex, &mutexes[usize::from(mutex)]) {
            return false;
        }
    }
    true
}

/// Whether the machine has as many threads and mutexes as an outcome.
fn has_as_many(machine: &Machine, outcome: &Outcome) -> bool
    ensures so { result ≡ true → HasAsMany (state_of machine.now) outcome.now }
    ensures only { HasAsMany (state_of machine.now) outcome.now → result ≡ true }
{
    let layout = machine.layout();
    let threads = usize::from(layout.threads());
    let mutexes = usize::from(layout.mutexes());
    outcome.threads.len() == threads && outcome.mutexes.len() == mutexes
}

/// Whether a machine, of whose run this was noted, has an outcome.
fn shows(
    alloc: Global,
    machine: &Machine,
    notes: &[Note],
    outcome: &Outcome,
) -> Result<bool, AllocError>
    ensures so { IfOk result (λ same. same ≡ true → Shows (state_of machine.now) notes.now outcome.now) }
    ensures only { IfOk result (λ same. Shows (state_of machine.now) notes.now outcome.now → same ≡ true) }
{
    if !has_as_many(machine, outcome) {
        return Ok(false);
    }
    Ok(have_ended(alloc, machine, notes, &outcome.threads)? && are_left(machine, &outcome.mutexes))
}

/// What a fault says of a script: that it is too long, or that it isn't played, unless memory was refused.
fn refused_by(fault: Fault) -> Result<Replay, NoMem>
    ensures { IfOk result (Refuses fault) }
{
    match fault {
        Fault::OutOfMemory => Err(NoMem),
        Fault::TooLong => Ok(Replay::TooLong),
        Fault::NotUtf8 | Fault::UnknownWord | Fault::OutOfRange | Fault::NoSuchName => {
            Ok(Replay::Other)
        }
    }
}

/// Whether the script's run has the outcome, or the script is too long to be played.
pub fn is_settled(replay: Replay) -> bool
    ensures { result ≡ is_settled replay }
{
    match replay {
        Replay::Same => true,
        Replay::TooLong => true,
        Replay::Other => false,
    }
}

/// What came of playing a script whose run shows an outcome, or doesn't.
fn replay_of(same: bool) -> Replay
    ensures { result ≡ replay_of same }
{
    if same { Replay::Same } else { Replay::Other }
}

/// Plays a script, whose run may have the outcome.
fn plays(alloc: Global, script: &Script, outcome: &Outcome) -> Result<Replay, NoMem>
    ensures { IfOk result (PlayCame script.now outcome.now) }
{
    let machine = first_machine(alloc, script)?;
    match play(alloc, script, machine) {
        Ok((trace, machine)) => {
            let same = shows(alloc, &machine, &trace.notes, outcome)?;
            Ok(replay_of(same))
        }
        Err(at) => refused_by(at.fault),
    }
}

/// Plays a text as a script for `rfx run`, whose run may have the outcome.
pub fn replays(alloc: Global, text: &[u8], outcome: &Outcome) -> Result<Replay, NoMem>
    ensures { IfOk result (Came text.now outcome.now) }
{
    match parse(alloc, text, Mode::Run) {
        Ok(script) => plays(alloc, &script, outcome),
        Err(at) => refused_by(at.fault),
    }
}
