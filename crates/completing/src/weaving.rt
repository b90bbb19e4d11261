//! From the ways that a pass has decided to a certificate: a history's lines, and between them the steps of mutexes.

use crate::deaths::{Dying, dyings, late_deaths};
use crate::pass::Pass;
use crate::placing::{Placed, place_all};
use crate::stop::{Stop, keep};
use facts::Fact;
use histories::{Entry, HistoryLine};
use std::alloc::Global;

/// The steps after this line, and those that follow them. They are looked at one by one: there are few after a line.
fn split_at_gap(placed: &[Placed], gap: u32) -> (&[Placed], &[Placed]) {
    match placed.iter().position(|step| step.gap > gap) {
        Some(count) => placed.split_at(count),
        None => (placed, &[]),
    }
}

/// The threads that die after this line, and those that die later.
fn split_dying(dying: &[Dying], gap: u32) -> (&[Dying], &[Dying]) {
    match dying.iter().position(|one| one.gap > gap) {
        Some(count) => dying.split_at(count),
        None => (dying, &[]),
    }
}

/// Whether a step waits: a death for its thread's kill, and what stands after it at its mutex.
fn waits(step: &Placed, alive: &[Dying], stuck: &[u16]) -> bool {
    if stuck.contains(&step.mutex) {
        return true;
    }
    match step.fact {
        Fact::Death(thread, _) => alive.iter().any(|one| one.thread == thread),
        _ => false,
    }
}

/// Tells the kills of threads that have no points left among these steps; keeps the others.
fn tell_kills(
    alloc: Global,
    alive: &[Dying],
    left: &[Placed],
    steps: &mut Vec<Entry>,
) -> Result<Vec<Dying>, Stop> {
    let mut later = Vec::new(alloc);
    for one in alive {
        let acts = left.iter().any(|step| match step.fact {
            Fact::Point(point) => point.thread == one.thread,
            _ => false,
        });
        if acts {
            keep(&mut later, *one)?;
        } else {
            keep(steps, Entry::Told(Fact::Kill(one.thread)))?;
        }
    }
    Ok(later)
}

/// Tells the steps that don't wait; keeps the others.
fn tell_steps(
    alloc: Global,
    alive: &[Dying],
    left: &[Placed],
    steps: &mut Vec<Entry>,
) -> Result<Vec<Placed>, Stop> {
    let mut later = Vec::new(alloc);
    let mut stuck: Vec<u16> = Vec::new(alloc);
    for step in left {
        if waits(step, alive, &stuck) {
            keep(&mut stuck, step.mutex)?;
            keep(&mut later, *step)?;
        } else {
            keep(steps, Entry::Told(step.fact))?;
        }
    }
    Ok(later)
}

/// Tells the steps and the kills after one line, in an order that suits both.
fn tell_gap(
    alloc: Global,
    placed: &[Placed],
    dying: &[Dying],
    steps: &mut Vec<Entry>,
) -> Result<(), Stop> {
    if dying.is_empty() {
        for step in placed {
            keep(steps, Entry::Told(step.fact))?;
        }
        return Ok(());
    }
    let mut alive = tell_kills(alloc, dying, placed, steps)?;
    let mut left = tell_steps(alloc, &alive, placed, steps)?;
    for _ in 0..usize::MAX {
        if alive.is_empty() && left.is_empty() {
            return Ok(());
        }
        let later = tell_kills(alloc, &alive, &left, steps)?;
        let behind = tell_steps(alloc, &later, &left, steps)?;
        if later.len() == alive.len() && behind.len() == left.len() {
            return Err(Stop::Lost);
        }
        alive = later;
        left = behind;
    }
    Err(Stop::Lost)
}

/// The certificate of these lines, which the pass has taken; or it isn't found. `late` has deaths as late as they may be,
/// and takings as early.
pub fn weave(
    alloc: Global,
    lines: &[HistoryLine],
    pass: &mut Pass,
    late: bool,
) -> Result<Vec<Entry>, Stop> {
    pass.decide()?;
    if late {
        late_deaths(alloc, lines, pass)?;
    }
    let placed = place_all(alloc, pass)?;
    let dying = dyings(alloc, lines, pass)?;
    let mut steps = Vec::new(alloc);
    let (here, mut rest) = split_at_gap(&placed, 0);
    let (now, mut later) = split_dying(&dying, 0);
    tell_gap(alloc, here, now, &mut steps)?;
    let mut gap: u32 = 0;
    for line in lines {
        gap = gap.wrapping_add(1);
        keep(&mut steps, line.entry)?;
        let (here, behind) = split_at_gap(rest, gap);
        let (now, after) = split_dying(later, gap);
        tell_gap(alloc, here, now, &mut steps)?;
        rest = behind;
        later = after;
    }
    Ok(steps)
}
