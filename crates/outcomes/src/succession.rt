//! Where an event leads.
ghost use Rattle.std.specs.Prelude.{◌≡◌, ◌≤◌, true, false, IfOk, OnOk, MatchOption, length};
ghost use Rattle.protocol.specs.Machine.{happens};
ghost use Rattle.interleave.specs.Notes.{is_nothing};
ghost use Rattle.outcomes.specs.Positions.{next_call};
ghost use Rattle.outcomes.specs.Events.{reply_in, replied, begun, places_begun, phase_after, after};
ghost use Rattle.outcomes.specs.Kept.{places_in, position_in, IsKept};

use crate::adding::{add, shared};
use crate::kept::{Kept, Life, same_lives};
use crate::next::Next;
use crate::plan::Plan;
use interleave::Machine;
use lockword::{Reply, Tid};
use memorymap::NoMem;
use protocol::{Event, Note};
use std::alloc::Global;
use std::rc::Rc;

/// Whether an event did nothing.
fn is_nothing(note: &Note) -> bool
    ensures { result ≡ is_nothing note.now }
{
    match *note {
        Note::Nothing => true,
        _ => false,
    }
}

/// What a call returned, and of which thread.
fn reply_in(note: &Note) -> Option<(Tid, Reply)>
    ensures { result ≡ reply_in note.now }
{
    match *note {
        Note::Began {
            thread,
            refused: Some(reply),
            ..
        } => Some((thread, reply)),
        Note::Stepped {
            thread,
            returned: Some(reply),
            ..
        } => Some((thread, reply)),
        _ => None,
    }
}

/// The phase after an event.
fn phase_after(plan: &Plan, kept: &Kept, event: &Event) -> u16
    ensures { result ≡ phase_after plan.now (position_in plan.now.layout kept.now) event.now }
{
    match *event {
        Event::Begin(thread, _) => match kept.next_call(plan, thread) {
            Some(next) => next.phase,
            None => kept.phase,
        },
        _ => kept.phase,
    }
}

/// A thread has begun its next call.
fn begin(lives: &mut Vec<Life>, thread: Tid, next: Option<Next>)
    ensures { places_in lives.new.items ≡ begun (places_in lives.old.items) thread next }
{
    let Some(next) = next else {
        return;
    };
    let index = thread.as_index();
    if lives.len() <= index {
        return;
    }
    lives[index].at = next.at;
}

/// How far threads have come once an event has begun what it begins.
fn lives_begun(
    alloc: Global,
    plan: &Plan,
    kept: &Kept,
    event: &Event,
) -> Result<Rc<Vec<Life>, Global>, NoMem>
    ensures { IfOk result
        (λ r. places_in r.value.items ≡ places_begun plan.now (places_in kept.now.lives.value.items) event.now) }
{
    match *event {
        Event::Begin(thread, _) => {
            let mut lives = same_lives(alloc, kept.lives())?;
            begin(&mut lives, thread, kept.next_call(plan, thread));
            shared(alloc, lives)
        }
        _ => Ok(kept.lives.clone()?),
    }
}

/// A reply is added to those of its thread.
fn add_reply(lives: &mut Vec<Life>, said: Option<(Tid, Reply)>) -> Result<(), NoMem>
    ensures { OnOk result (places_in lives.new.items ≡ replied said (places_in lives.old.items)) }
{
    let Some(pair) = said else {
        return Ok(());
    };
    let index = pair.0.as_index();
    if lives.len() <= index {
        return Ok(());
    }
    add(&mut lives[index].replies, pair.1)?;
    Ok(())
}

/// How far threads have come once a call has returned, if one has.
fn lives_replied(
    alloc: Global,
    lives: Rc<Vec<Life>, Global>,
    said: Option<(Tid, Reply)>,
) -> Result<Rc<Vec<Life>, Global>, NoMem>
    ensures { IfOk result (λ r. places_in r.value.items ≡ replied said (places_in lives.value.items)) }
{
    match said {
        Some(pair) => {
            let mut now = same_lives(alloc, &lives)?;
            add_reply(&mut now, Some(pair))?;
            shared(alloc, now)
        }
        None => Ok(lives),
    }
}

/// The position after an event that the plan has come; None where it does nothing.
pub(crate) fn successor(
    machine: &mut Machine,
    alloc: Global,
    plan: &Plan,
    kept: &Kept,
    event: &Event,
) -> Result<Option<Kept>, NoMem>
    requires layout { machine.old.layout ≡ plan.now.layout }
    requires kept { IsKept plan.now kept.now }
    ensures layout { machine.new.layout ≡ plan.now.layout }
    ensures nothing { IfOk result
        (λ r. MatchOption r
        (is_nothing (happens (position_in plan.now.layout kept.now).state event.now).note ≡ true)
        (λ k. is_nothing (happens (position_in plan.now.layout kept.now).state event.now).note ≡ false)) }
    ensures after { IfOk result
        (λ r. MatchOption r (Unit {0})
        (λ k. position_in plan.now.layout k ≡ after plan.now (position_in plan.now.layout kept.now) event.now)) }
    ensures kept { IfOk result (λ r. MatchOption r (Unit {0}) (IsKept plan.now)) }
{
    if kept.rules_out(event) {
        return Ok(None);
    }
    machine.restore(&kept.saved);
    let note = machine.step(*event);
    if is_nothing(&note) {
        return Ok(None);
    }
    let saved = machine.save(alloc)?;
    let begun = lives_begun(alloc, plan, kept, event)?;
    let lives = lives_replied(alloc, begun, reply_in(&note))?;
    let phase = phase_after(plan, kept, event);
    Ok(Some(Kept {
        saved,
        phase,
        lives,
    }))
}
