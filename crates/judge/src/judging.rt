//! The judgement of a history.

ghost use Rattle.std.specs.List.{slice_get};
ghost use Rattle.std.specs.Prelude.{◌≡◌, true, IfOk};
ghost use Rattle.histories.specs.Reading.{IsHead};
ghost use Rattle.judge.specs.Judgements.{EndsIn, IsJudged, IsLegal, IsNeverLegal, told_of};

use crate::certificate::{certificate_of, has_certificate, pass_over};
use crate::reason::{Reason, reason_of};
use crate::replies::possible_at;
use completing::{Pass, Stop};
use facts::Fact;
use histories::{Entry, Head, HistoryLine};
use lockword::Reply;
use refuting::{refutes, refutes_by_kills};
use std::alloc::{AllocError, Global};

/// What a history is found to be.
#[derive(Drop)]
pub enum Judgement {
    /// Some trace shows it: these are its steps, a certificate.
    Legal(Vec<Entry>),
    /// The history is legal up to this place of a line, counted from 0; with that line no order of the calls explains
    /// it. With each of these replies instead of the line's own some order does; there may be others. The steps are a
    /// certificate of the lines before it, and after them that line, a doom as the kill.
    Illegal {
        at: usize,
        why: Reason,
        possible: Vec<Reply>,
        steps: Vec<Entry>,
    },
    /// The history is legal up to this place of a line, counted from 0; with that line no certificate was found, and it
    /// wasn't refuted.
    Undecided(usize),
}

/// Whether a certificate is found of the lines up to this place.
fn is_legal(alloc: Global, head: &Head, lines: &[HistoryLine], at: usize) -> Result<bool, Stop>
    requires { IsHead head.now }
    ensures { IfOk result (λ found. found ≡ true → IsLegal head.now lines.now at) }
{
    if at > lines.len() {
        return Ok(false);
    }
    let found = has_certificate(alloc, head, &lines[..at])?;
    Ok(found)
}

/// Whether a pass over the lines up to this place is refused.
fn is_refused(alloc: Global, head: &Head, lines: &[HistoryLine], at: usize) -> Result<bool, Stop> {
    if at > lines.len() {
        return Ok(true);
    }
    match pass_over(alloc, head, &lines[..at]) {
        Ok(_) => Ok(false),
        Err(Stop::Memory) => Err(Stop::Memory),
        Err(_) => Ok(true),
    }
}

/// The first place up to which a pass is refused, which may look at the lines up to there alone; not before `from`.
fn first_refused(
    alloc: Global,
    head: &Head,
    lines: &[HistoryLine],
    from: usize,
) -> Result<usize, Stop> {
    let mut low = from;
    let mut step: usize = 1;
    for _ in 0..64 {
        let next = low.saturating_add(step).min(lines.len());
        if is_refused(alloc, head, lines, next)? {
            break;
        }
        low = next;
        step = step.saturating_mul(2);
    }
    let mut high = low.saturating_add(step).min(lines.len());
    for _ in 0..64 {
        if low.saturating_add(1) >= high {
            break;
        }
        let middle = low / 2 + high / 2 + (low % 2 + high % 2) / 2;
        if is_refused(alloc, head, lines, middle)? {
            high = middle;
        } else {
            low = middle;
        }
    }
    Ok(high)
}

/// How far a pass over all lines comes.
fn reach(alloc: Global, head: &Head, lines: &[HistoryLine]) -> Result<usize, Stop> {
    let mut pass = Pass::new(alloc, head, lines)?;
    for (at, line) in lines.iter().enumerate() {
        match pass.take(&line.entry) {
            Ok(()) => {}
            Err(Stop::Memory) => return Err(Stop::Memory),
            Err(_) => return Ok(at),
        }
    }
    Ok(lines.len())
}

/// The place up to which the lines have a certificate, and after which they have none.
fn first_without(alloc: Global, head: &Head, lines: &[HistoryLine]) -> Result<usize, Stop>
    requires { IsHead head.now }
    ensures { IfOk result (IsLegal head.now lines.now) }
{
    if !is_legal(alloc, head, lines, 0)? {
        return Err(Stop::Lost);
    }
    let mut low: usize = 0;
    let mut high = lines.len();
    'halves: for _ in 0..64 {
        let middle = low / 2 + high / 2 + (low % 2 + high % 2) / 2;
        if middle == low {
            break;
        }
        if is_legal(alloc, head, lines, middle)? {
            low = middle;
        } else {
            high = middle;
        }
    }
    Ok(low)
}

/// Whether the lines up to this place and the one there are refuted: by the mutex of the call that returns there, by the
/// thread's own lines, or by the moments at which a doomed thread may have been killed.
fn is_refuted(
    alloc: Global,
    head: &Head,
    lines: &[HistoryLine],
    at: usize,
    why: &Reason,
) -> Result<bool, Stop>
    ensures { IfOk result (λ refuted. refuted ≡ true → IsNeverLegal head.now lines.now at) }
{
    if at >= lines.len() {
        return Ok(false);
    }
    let mutex = match *why {
        Reason::NoOrder { mutex, .. } => mutex,
        Reason::OutOfTurn(_) => 0,
    };
    let refuted = refutes(alloc, head, &lines[..at + 1], mutex)?
        || refutes_by_kills(alloc, head, &lines[..at + 1])?;
    Ok(refuted)
}

/// The line at this place, counted from 0.
fn line_at(lines: &[HistoryLine], at: usize) -> Option<HistoryLine>
    ensures { result ≡ slice_get lines.now at }
{
    match lines.get(at) {
        Some(line) => Some(*line),
        None => None,
    }
}

/// The line as a trace tells it: a doom is the kill.
fn told_of(entry: Entry) -> Entry
    ensures { result ≡ told_of entry }
{
    match entry {
        Entry::Told(_) => entry,
        Entry::Doom(thread) => Entry::Told(Fact::Kill(thread)),
    }
}

/// A certificate of the lines, and after it one line more.
fn steps_to(
    alloc: Global,
    head: &Head,
    lines: &[HistoryLine],
    entry: Entry,
) -> Result<Vec<Entry>, Stop>
    requires { IsHead head.now }
    ensures { IfOk result (λ steps. EndsIn head.now lines.now entry steps.items) }
{
    let Some(mut steps) = certificate_of(alloc, head, lines)? else {
        return Err(Stop::Lost);
    };
    match steps.push(told_of(entry)) {
        Ok(()) => Ok(steps),
        Err(_) => Err(Stop::Memory),
    }
}

/// What is said where a certificate reaches up to this place.
fn judged_at(
    alloc: Global,
    head: &Head,
    lines: &[HistoryLine],
    at: usize,
) -> Result<Judgement, Stop>
    requires head { IsHead head.now }
    requires legal { IsLegal head.now lines.now at }
    ensures { IfOk result (IsJudged head.now lines.now) }
{
    if at >= lines.len() {
        return Err(Stop::Lost);
    }
    let Some(line) = line_at(lines, at) else {
        return Err(Stop::Lost);
    };
    let earlier = &lines[..at];
    let Some(why) = reason_of(earlier, &line.entry) else {
        return Ok(Judgement::Undecided(at));
    };
    let refuted = is_refuted(alloc, head, lines, at, &why)?;
    if refuted {
        let possible = possible_at(alloc, head, earlier, &line, &why)?;
        let steps = steps_to(alloc, head, earlier, line.entry)?;
        return Ok(Judgement::Illegal {
            at,
            why,
            possible,
            steps,
        });
    }
    Ok(Judgement::Undecided(at))
}

/// What is said of lines that have no certificate.
fn unexplained(alloc: Global, head: &Head, lines: &[HistoryLine]) -> Result<Judgement, Stop>
    requires { IsHead head.now }
    ensures { IfOk result (IsJudged head.now lines.now) }
{
    let from = reach(alloc, head, lines)?;
    if from < lines.len() {
        let at = first_refused(alloc, head, lines, from)?.saturating_sub(1);
        if is_legal(alloc, head, lines, at)? {
            return judged_at(alloc, head, lines, at);
        }
    }
    let at = first_without(alloc, head, lines)?;
    judged_at(alloc, head, lines, at)
}

fn judged(alloc: Global, head: &Head, lines: &[HistoryLine]) -> Result<Judgement, Stop>
    requires { IsHead head.now }
    ensures { IfOk result (IsJudged head.now lines.now) }
{
    match certificate_of(alloc, head, lines)? {
        Some(steps) => Ok(Judgement::Legal(steps)),
        None => unexplained(alloc, head, lines),
    }
}

/// Judges a history. What it finds legal has the certificate that is handed out: a trace that shows the history, each
/// line of which was accepted by the rules of the judge of traces. What it finds illegal or can't decide is legal up to
/// the line that it names; with the illegal line no trace shows the history. Why is recorded by that line and its
/// thread's own lines before it; and with each reply that it names instead of an illegal return's the history is
/// legal up to there. That it decides isn't proved, nor that it names each such reply.
pub fn judge(alloc: Global, head: &Head, lines: &[HistoryLine]) -> Result<Judgement, AllocError>
    requires { IsHead head.now }
    ensures { IfOk result (IsJudged head.now lines.now) }
{
    match judged(alloc, head, lines) {
        Ok(judgement) => Ok(judgement),
        Err(_) => Err(AllocError),
    }
}
