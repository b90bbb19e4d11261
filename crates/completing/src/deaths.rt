//! When doomed threads die.

use crate::contended::{Contended, Step};
use crate::pass::Pass;
use crate::stop::{IDS, Stop, keep};
use facts::Fact;
use histories::{Entry, HistoryLine};
use lockword::Tid;
use posixmutex::Operation;
use std::alloc::Global;

/// A doomed thread's kill: after this line.
#[derive(Clone, Copy)]
pub struct Dying {
    pub gap: u32,
    pub thread: Tid,
}

/// Whether some of the lines dooms a thread.
pub fn has_dooms(lines: &[HistoryLine]) -> bool {
    lines.iter().any(|line| match line.entry {
        Entry::Doom(_) => true,
        Entry::Told(_) => false,
    })
}

/// A thread's reaping.
#[derive(Clone, Copy)]
struct Reaping {
    at: u32,
    thread: Tid,
}

/// The reapings, in their order.
fn reapings(alloc: Global, lines: &[HistoryLine]) -> Result<Vec<Reaping>, Stop> {
    let mut reapings = Vec::new(alloc);
    let mut at: u32 = 0;
    for line in lines {
        at = at.wrapping_add(1);
        if let Entry::Told(Fact::Reap(thread)) = line.entry {
            keep(&mut reapings, Reaping { at, thread })?;
        }
    }
    Ok(reapings)
}

/// The reapings after that moment.
fn behind(reapings: &[Reaping], moment: u32) -> &[Reaping] {
    let from = reapings.partition_point(|reaping| reaping.at <= moment);
    if from <= reapings.len() {
        reapings.split_at(from).1
    } else {
        &[]
    }
}

/// When the thread is reaped, after that moment; after the last line where it isn't.
fn reaped_behind(reapings: &[Reaping], last: u32, thread: Tid, moment: u32) -> u32 {
    for reaping in behind(reapings, moment) {
        if reaping.thread == thread {
            return reaping.at;
        }
    }
    last.wrapping_add(1)
}

/// The number of lines, as a moment.
fn last_of(lines: &[HistoryLine]) -> u32 {
    match u32::try_from(lines.len()) {
        Ok(last) => last,
        Err(_) => u32::MAX,
    }
}

/// Has the deaths at a mutex as late as they may be.
fn delay(contended: &mut Contended, reapings: &[Reaping], last: u32) {
    let mut next = last;
    for back in 1..usize::MAX {
        let Some(at) = contended.decided.len().checked_sub(back) else {
            break;
        };
        let Some(step) = contended.decided.get_mut(at) else {
            break;
        };
        if step.operation == Operation::Death {
            let reaped = reaped_behind(reapings, last, step.thread, step.at);
            step.at = next.min(reaped.wrapping_sub(1)).max(step.at);
        }
        next = step.at;
    }
}

/// Has what doomed threads did in their last calls no later than they die, where it may be, and no step later than the
/// next one.
fn advance(contended: &mut Contended, doomed: &[Doomed]) {
    let mut next: u32 = u32::MAX;
    for back in 1..usize::MAX {
        let Some(at) = contended.decided.len().checked_sub(back) else {
            break;
        };
        let Some(step) = contended.decided.get_mut(at) else {
            break;
        };
        let mut first = step.begin;
        if step.operation == Operation::Death {
            first = step.at;
        }
        if let Some(one) = life_of(doomed, step) {
            if step.operation == Operation::Death {
                first = one.doom.min(step.at);
            } else if step.begin == one.begin {
                next = next.min(one.dies);
            }
        }
        step.at = step.at.min(next).max(first);
        next = step.at;
    }
}

/// Has the takings as early as they may be, and no step earlier than the one before it.
fn hasten(contended: &mut Contended) {
    let mut before: u32 = 0;
    for step in contended.decided.iter_mut() {
        match step.operation {
            Operation::Lock | Operation::TryLock => step.at = before.max(step.begin),
            _ => step.at = before.max(step.at),
        }
        before = step.at;
    }
}

/// Moves deaths as far after, and takings as far ahead, as the other steps let them; and what doomed threads did in
/// their last calls ahead of their deaths.
pub fn late_deaths(alloc: Global, lines: &[HistoryLine], pass: &mut Pass) -> Result<(), Stop> {
    let reapings = reapings(alloc, lines)?;
    for contended in pass.mutexes.iter_mut() {
        delay(contended, &reapings, last_of(lines));
    }
    let mut doomed = last_calls(alloc, lines)?;
    bound_all(&mut doomed, pass);
    for contended in pass.mutexes.iter_mut() {
        advance(contended, &doomed);
        hasten(contended);
    }
    Ok(())
}

/// The last call of a thread, and its doom.
#[derive(Clone, Copy)]
struct Doomed {
    thread: Tid,
    /// When its last call began; 0 where it is in none.
    begin: u32,
    doom: u32,
    reaped: u32,
    /// When the last step of its last call was.
    acts: u32,
    /// When its first death was.
    dies: u32,
}

/// The doomed threads' last calls, by threads, and those of one thread in the order of its dooms.
fn last_calls(alloc: Global, lines: &[HistoryLine]) -> Result<Vec<Doomed>, Stop> {
    let reapings = reapings(alloc, lines)?;
    let last = last_of(lines);
    let mut begins = [0_u32; IDS];
    let mut doomed = Vec::new(alloc);
    let mut at: u32 = 0;
    for line in lines {
        at = at.wrapping_add(1);
        match line.entry {
            Entry::Told(Fact::Begin(thread, _)) => begins[usize::from(thread.get())] = at,
            Entry::Told(_) => {}
            Entry::Doom(thread) => {
                let reaped = reaped_behind(&reapings, last, thread, at);
                let one = Doomed {
                    thread,
                    begin: begins[usize::from(thread.get())],
                    doom: at,
                    reaped,
                    acts: at,
                    dies: reaped.wrapping_sub(1),
                };
                keep(&mut doomed, one)?;
            }
        }
    }
    doomed.sort_unstable_by_key(|one: &Doomed| (one.thread.get(), one.doom));
    Ok(doomed)
}

/// The place of the life in which a thread made a step: the first of its doomed ones that isn't over by then, if any.
fn place_of_life(doomed: &[Doomed], step: &Step) -> usize {
    let made = (step.thread.get(), step.at);
    doomed.partition_point(|one| (one.thread.get(), one.reaped) <= made)
}

/// That life.
fn life_of(doomed: &[Doomed], step: &Step) -> Option<Doomed> {
    match doomed.get(place_of_life(doomed, step)) {
        Some(one) if one.thread == step.thread => Some(*one),
        _ => None,
    }
}

/// What a step says of when its thread may have died, in the life in which it made the step.
fn bound(doomed: &mut Vec<Doomed>, step: &Step) {
    let life = place_of_life(doomed, step);
    let Some(one) = doomed.get_mut(life) else {
        return;
    };
    if one.thread != step.thread {
        return;
    }
    if step.operation == Operation::Death {
        if one.doom <= step.at {
            one.dies = one.dies.min(step.at);
        }
    } else if step.begin == one.begin {
        one.acts = one.acts.max(step.at);
    }
}

/// What the steps of all mutexes say of when the doomed threads may have died.
fn bound_all(doomed: &mut Vec<Doomed>, pass: &Pass) {
    for contended in &pass.mutexes {
        for step in &contended.decided {
            bound(doomed, step);
        }
    }
}

/// When the doomed threads die: after what their last calls did, and before any of their deaths. The order is that of
/// these moments.
pub fn dyings(alloc: Global, lines: &[HistoryLine], pass: &Pass) -> Result<Vec<Dying>, Stop> {
    let mut doomed = last_calls(alloc, lines)?;
    let mut dyings = Vec::new(alloc);
    if doomed.is_empty() {
        return Ok(dyings);
    }
    bound_all(&mut doomed, pass);
    for one in &doomed {
        if one.dies < one.acts {
            return Err(Stop::Lost);
        }
        keep(
            &mut dyings,
            Dying {
                gap: one.acts,
                thread: one.thread,
            },
        )?;
    }
    dyings.sort_unstable_by_key(|one: &Dying| (one.gap, one.thread.get()));
    Ok(dyings)
}
