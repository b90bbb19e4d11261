//! Certificates of histories with doomed threads, by tries of the moments at which these were killed.
//!
//! The search looks at each mutex by itself, and may find no moment of a death that suits several. With a kill instead of
//! the doom nothing is left to choose.

use completing::Stop;
use facts::Fact;
use histories::{Entry, HistoryLine};
use lockword::Tid;
use std::alloc::Global;

/// How many doomed threads are tried at a time: the last ones.
const MOST_DOOMS: usize = 4;

/// What all tries together may cost, where a try costs the square of its lines.
const MOST_COST: usize = 1_000_000;

/// A doomed thread, and the moment of its kill that is tried.
#[derive(Clone, Copy)]
pub struct Doomed {
    thread: Tid,
    /// The place of its doom, counted from 0.
    at: usize,
    /// The place of its next line; past the last line if it has none.
    until: usize,
    /// How many lines after its doom it is killed; 0 where that is left open.
    tried: usize,
}

/// Keeps a value after the others.
fn keep<T: Copy>(values: &mut Vec<T>, value: T) -> Result<(), Stop> {
    match values.push(value) {
        Ok(()) => Ok(()),
        Err(_) => Err(Stop::Memory),
    }
}

/// The thread that a line dooms, if it does.
fn doomed_by(line: &HistoryLine) -> Option<Tid> {
    match line.entry {
        Entry::Doom(thread) => Some(thread),
        Entry::Told(_) => None,
    }
}

/// The thread that a line reaps, if it does.
fn reaped_by(line: &HistoryLine) -> Option<Tid> {
    match line.entry {
        Entry::Told(Fact::Reap(thread)) => Some(thread),
        _ => None,
    }
}

/// The last doomed threads of these lines, no more than are tried, whose kills are open.
pub fn doomed_in(alloc: Global, lines: &[HistoryLine]) -> Result<Vec<Doomed>, Stop> {
    let mut all: Vec<Doomed> = Vec::new(alloc);
    for (at, line) in lines.iter().enumerate() {
        if let Some(thread) = doomed_by(line) {
            let one = Doomed {
                thread,
                at,
                until: lines.len(),
                tried: 0,
            };
            keep(&mut all, one)?;
        }
        if let Some(thread) = reaped_by(line) {
            for one in all.iter_mut() {
                if one.thread == thread && one.until == lines.len() {
                    one.until = at;
                }
            }
        }
    }
    let few = all.len().saturating_sub(MOST_DOOMS);
    Ok(Vec::from_slice(alloc, &all[few..])?)
}

/// How many tries these lines allow.
pub fn tries_of(lines: &[HistoryLine]) -> usize {
    let lines = lines.len().saturating_add(1);
    MOST_COST / lines.saturating_mul(lines)
}

/// Continues with the next try; false after the last one.
pub fn go_on(doomed: &mut [Doomed]) -> bool {
    for one in doomed.iter_mut() {
        one.tried = one.tried.saturating_add(1);
        if one.at.saturating_add(one.tried) <= one.until {
            return true;
        }
        one.tried = 0;
    }
    false
}

/// Whether the thread's doom at this place is replaced by a kill.
fn is_replaced(doomed: &[Doomed], at: usize) -> bool {
    doomed.iter().any(|one| one.tried > 0 && one.at == at)
}

/// These lines, with kills where they are tried instead of dooms.
pub fn with_kills(
    alloc: Global,
    lines: &[HistoryLine],
    doomed: &[Doomed],
) -> Result<Vec<HistoryLine>, Stop> {
    let mut changed = Vec::new(alloc);
    for (at, line) in lines.iter().enumerate() {
        if !is_replaced(doomed, at) {
            keep(&mut changed, *line)?;
        }
        for one in doomed {
            if one.tried > 0 && one.at.saturating_add(one.tried) == at.saturating_add(1) {
                let kill = HistoryLine {
                    number: line.number,
                    event: line.event,
                    entry: Entry::Told(Fact::Kill(one.thread)),
                };
                keep(&mut changed, kill)?;
            }
        }
    }
    Ok(changed)
}

/// Keeps the dooms that were replaced from this place on, up to the next line that wasn't; that line's place.
fn keep_dooms(
    lines: &[HistoryLine],
    doomed: &[Doomed],
    from: usize,
    steps: &mut Vec<Entry>,
) -> Result<usize, Stop> {
    for (at, line) in lines.iter().enumerate() {
        if at >= from {
            if !is_replaced(doomed, at) {
                return Ok(at);
            }
            keep(steps, line.entry)?;
        }
    }
    Ok(lines.len())
}

/// The steps of the lines with kills, as steps of these lines: with the dooms, after which a kill isn't seen.
pub fn with_dooms(
    alloc: Global,
    lines: &[HistoryLine],
    doomed: &[Doomed],
    steps: &[Entry],
) -> Result<Vec<Entry>, Stop> {
    let mut changed = Vec::new(alloc);
    let mut next = keep_dooms(lines, doomed, 0, &mut changed)?;
    for step in steps {
        keep(&mut changed, *step)?;
        let is_next = match lines.get(next) {
            Some(line) => line.entry == *step,
            None => false,
        };
        if is_next {
            next = keep_dooms(lines, doomed, next.saturating_add(1), &mut changed)?;
        }
    }
    Ok(changed)
}
