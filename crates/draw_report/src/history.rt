//! Drawing histories.

ghost use Rattle.std.specs.Prelude.{◌≡◌, ◌≤◌, IfErr, IfOk, OnOk, false, true};
ghost use Rattle.std.specs.List.{list_all};
ghost use Rattle.verdict.specs.Told.{IsWithin};
ghost use Rattle.histories.specs.Reading.{IsHead};
ghost use Rattle.draw_report.specs.Histories.{DrawsHistory, FailsHistory, IsDrawingOf, IsUndrawable, excess_of, fits};
ghost use Rattle.draw_report.specs.Histories.{is_inside, is_mutex, judged_in, untraced_by};
ghost use Rattle.draw_report.specs.Served.{judged_by};

use crate::asking::Kind;
use crate::drawing::{Outcome, draw_named, undrawn_by};
use crate::messages::{Excess, Failure};
use crate::names::is_like;
use facts::{Fact, Line};
use judge_report::{Explained, Untraced, explain_history};
use script::Script;
use std::alloc::Global;
use streams::Output;
use verdict::{Head, MAX_CONDITIONS, MAX_MUTEXES, Told};

/// A history's trace, and what is said of an illegal history.
#[derive(Drop)]
struct Drawing {
    trace: Told,
    said: Option<Vec<u8>>,
}

/// What a history without a trace is reported as.
fn untraced_by(why: Untraced) -> Failure
    ensures { result ≡ untraced_by why }
{
    match why {
        Untraced::OutOfMemory => Failure::OutOfMemory,
        Untraced::Ill(at) => Failure::History(at),
        Untraced::Undecided(line) => Failure::Undecided {
            line: line.number,
            event: line.event,
        },
    }
}

/// What a history that doesn't fit has too much of.
fn excess_of(history: &Explained) -> Excess
    ensures { result ≡ excess_of history.now }
{
    if history.head.mutexes > MAX_MUTEXES {
        Excess::Mutexes
    } else if history.head.conditions > MAX_CONDITIONS {
        Excess::Conditions
    } else {
        Excess::Uncounted
    }
}

/// Whether the mutex of a point or a death is one of that many.
fn is_mutex(mutexes: u32, fact: &Fact) -> bool
    ensures { result ≡ is_mutex mutexes fact.now }
{
    match *fact {
        Fact::Point(point) => u32::from(point.mutex) < mutexes,
        Fact::Death(_, mutex) => u32::from(mutex) < mutexes,
        _ => true,
    }
}

/// Whether a line has a number, and names a thread and a mutex that are there.
fn is_inside(threads: u8, mutexes: u32, line: &Line) -> bool
    ensures { result ≡ is_inside threads mutexes line.now }
{
    1 <= line.event && line.fact.thread().get() <= threads && is_mutex(mutexes, &line.fact)
}

fn are_inside(threads: u8, mutexes: u32, lines: &[Line]) -> bool
    ensures { result ≡ list_all (is_inside threads mutexes) lines.now }
{
    lines.iter().all(|line| is_inside(threads, mutexes, line))
}

/// Whether a trace may have as many mutexes and condition variables, and its lines name no others.
fn fits(history: &Explained) -> bool
    ensures { result ≡ fits history.now }
{
    let head = &history.head;
    head.mutexes <= MAX_MUTEXES
        && head.conditions <= MAX_CONDITIONS
        && are_inside(head.threads, head.mutexes, &history.lines)
}

/// The first line of the trace of a history with this one.
fn head_of(head: &histories::Head) -> Head
    requires mutexes { head.now.mutexes ≤ 4096 }
    requires conditions { head.now.conditions ≤ 256 }
    ensures threads { result.threads ≡ head.now.threads }
    ensures mutexes { result.mutexes ≡ head.now.mutexes }
    ensures conditions { result.conditions ≡ head.now.conditions }
{
    Head {
        threads: head.threads,
        mutexes: head.mutexes as u16,
        conditions: head.conditions as u16,
    }
}

/// What is drawn of a history.
fn drawing_of(history: Explained) -> Result<Drawing, Failure>
    requires { IsHead history.head }
    ensures drawing { IfOk result (IsDrawingOf history) }
    ensures within { IfOk result (λ d. IsWithin d.trace) }
    ensures fit { IfOk result (λ _. fits history ≡ true) }
    ensures fails { IfErr result (IsUndrawable history) }
{
    if !fits(&history) {
        return Err(Failure::Unfit(excess_of(&history)));
    }
    let Explained { head, lines, said } = history;
    let Ok(last) = u32::try_from(lines.len()) else {
        return Err(Failure::OutOfMemory);
    };
    let head = head_of(&head);
    let trace = Told { head, lines, last };
    Ok(Drawing { trace, said })
}

/// How a history was judged.
fn outcome_of(drawing: &Drawing) -> Outcome<'_>
    ensures { judged_by result ≡ judged_in drawing.now }
{
    match &drawing.said {
        Some(said) => Outcome::History(Some(said.as_slice())),
        None => Outcome::History(None),
    }
}

/// Draws the history that these bytes are: the lines of a trace that shows it, and what the judge of histories says of an
/// illegal one.
pub fn draw_history<W: Output>(
    alloc: Global,
    kind: Kind,
    script: &Option<Script>,
    bytes: &[u8],
    out: &mut W,
) -> Result<(), Failure>
    ensures draws { OnOk result (DrawsHistory kind script.now (W.contents out.old) (W.contents out.new) bytes.now) }
    ensures let_go { OnOk result (W.is_let_go out.new) }
    ensures fails { IfErr result (FailsHistory kind script.now bytes.now (W.contents out.old) (W.contents out.new)) }
{
    let history = match explain_history(alloc, bytes) {
        Ok(history) => history,
        Err(why) => return Err(untraced_by(why)),
    };
    let drawing = match drawing_of(history) {
        Ok(drawing) => drawing,
        Err(failure) => return Err(failure),
    };
    if !is_like(script, &drawing.trace.head) {
        return Err(Failure::UnlikeHistory);
    }
    match draw_named(
        alloc,
        kind,
        script,
        &drawing.trace,
        &outcome_of(&drawing),
        out,
    ) {
        Ok(()) => Ok(()),
        Err(unwritten) => Err(undrawn_by(unwritten)),
    }
}
