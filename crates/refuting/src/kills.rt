//! Refuting histories by trying the moments at which a doomed thread may have been killed.

ghost use Rattle.std.specs.Prelude.{◌≡◌, ◌≤◌, ◌++◌, true, length, reverse, IfOk};
ghost use Rattle.histories.specs.Histories.{LegalHistory};
ghost use Rattle.refuting.specs.Kills.{IsNever, IsNeverDoomed, kill_line, with_kill};

use crate::refuting::refutes;
use facts::Fact;
use histories::{Entry, Head, HistoryLine};
use lockword::Tid;
use std::alloc::{AllocError, Global};

/// How many lines may be refuted by kills: each has a pass over all of them, for each mutex.
const MOST_LINES: usize = 200;

/// How many mutexes are tried.
const MOST_MUTEXES: usize = 8;

/// With how many doomed threads kills are tried: calls of so many on one mutex make a state for each set of them.
const MOST_DOOMED: usize = 8;

/// The first mutexes that these lines name, no more than are tried.
fn mutexes_in(alloc: Global, lines: &[HistoryLine]) -> Result<Vec<u16>, AllocError> {
    let mut mutexes: Vec<u16> = Vec::new(alloc);
    for line in lines {
        if let Entry::Told(Fact::Begin(_, call)) = line.entry {
            if mutexes.len() < MOST_MUTEXES && !mutexes.contains(&call.mutex) {
                mutexes.push(call.mutex)?;
            }
        }
    }
    Ok(mutexes)
}

/// How many dooms are among these lines.
fn dooms_in(lines: &[HistoryLine]) -> usize {
    let mut count: usize = 0;
    for line in lines {
        if let Entry::Doom(_) = line.entry {
            count = count.saturating_add(1);
        }
    }
    count
}

/// Whether to try the kills of these lines would take long.
fn takes_long(lines: &[HistoryLine]) -> bool {
    lines.len() > MOST_LINES || dooms_in(lines) > MOST_DOOMED
}

/// Whether one of these mutexes refutes the lines.
fn refutes_somewhere(
    alloc: Global,
    head: &Head,
    lines: &[HistoryLine],
    mutexes: &[u16],
) -> Result<bool, AllocError>
    ensures { IfOk result (λ refuted. refuted ≡ true → IsNever head.now.mutexes lines.now) }
{
    for mutex in mutexes {
        if refutes(alloc, head, lines, *mutex)? {
            return Ok(true);
        }
    }
    Ok(false)
}

/// A kill of the thread.
fn kill_line(thread: Tid) -> HistoryLine
    ensures { result ≡ kill_line thread }
{
    HistoryLine {
        number: 0,
        event: 0,
        entry: Entry::Told(Fact::Kill(thread)),
    }
}

/// The lines before a doom and those after it, with a kill after this many of the latter.
fn with_kill(
    alloc: Global,
    before: &[HistoryLine],
    rest: &[HistoryLine],
    count: usize,
    thread: Tid,
) -> Result<Vec<HistoryLine>, AllocError>
    requires { count ≤ length rest.now }
    ensures { IfOk result (λ v. v.items ≡ with_kill before.now rest.now count thread) }
{
    let mut lines = Vec::from_slice(alloc, before)?;
    lines.extend_from_slice(&rest[..count])?;
    lines.push(kill_line(thread))?;
    lines.extend_from_slice(&rest[count..])?;
    Ok(lines)
}

/// Whether the lines are refuted with a kill after this many of those after the doom.
fn refutes_with_kill(
    alloc: Global,
    head: &Head,
    before: &[HistoryLine],
    rest: &[HistoryLine],
    count: usize,
    thread: Tid,
    mutexes: &[u16],
) -> Result<bool, AllocError>
    requires { count ≤ length rest.now }
    ensures { IfOk result (λ refuted. refuted ≡ true → IsNever head.now.mutexes (with_kill before.now rest.now count thread)) }
{
    let lines = with_kill(alloc, before, rest, count, thread)?;
    refutes_somewhere(alloc, head, &lines, mutexes)
}

/// Whether the lines are refuted without the doom.
fn refutes_without(
    alloc: Global,
    head: &Head,
    before: &[HistoryLine],
    rest: &[HistoryLine],
    mutexes: &[u16],
) -> Result<bool, AllocError>
    ensures { IfOk result (λ refuted. refuted ≡ true → IsNever head.now.mutexes (before.now ++ rest.now)) }
{
    let mut lines = Vec::from_slice(alloc, before)?;
    lines.extend_from_slice(rest)?;
    refutes_somewhere(alloc, head, &lines, mutexes)
}

/// Whether lines with a doom of the thread between them are refuted: without it, and with a kill at any place after it.
fn refutes_doom(
    alloc: Global,
    head: &Head,
    before: &[HistoryLine],
    thread: Tid,
    rest: &[HistoryLine],
    mutexes: &[u16],
) -> Result<bool, AllocError>
    ensures { IfOk result (λ refuted. refuted ≡ true → IsNeverDoomed head.now.mutexes before.now thread rest.now) }
{
    let without = refutes_without(alloc, head, before, rest, mutexes)?;
    if !without {
        return Ok(false);
    }
    let mut count = 0;
    'kills: while count < rest.len() {
        let here = refutes_with_kill(alloc, head, before, rest, count, thread, mutexes)?;
        if !here {
            return Ok(false);
        }
        count += 1;
    }
    let last = refutes_with_kill(alloc, head, before, rest, count, thread, mutexes)?;
    Ok(last)
}

/// Whether lines with a doom are refuted at each moment at which the doomed thread may have been killed, by one mutex or
/// another: then no trace shows them. At most 200 lines with eight dooms are looked at, and eight mutexes.
pub fn refutes_by_kills(
    alloc: Global,
    head: &Head,
    lines: &[HistoryLine],
) -> Result<bool, AllocError>
    ensures { IfOk result (λ refuted. refuted ≡ true → IsNever head.now.mutexes lines.now) }
{
    if takes_long(lines) {
        return Ok(false);
    }
    let mutexes = mutexes_in(alloc, lines)?;
    for (at, line) in lines.iter().enumerate() {
        if let Entry::Doom(thread) = line.entry {
            let (before, rest) = (&lines[..at], &lines[at + 1..]);
            let refuted = refutes_doom(alloc, head, before, thread, rest, &mutexes)?;
            if refuted {
                return Ok(true);
            }
        }
    }
    Ok(false)
}
