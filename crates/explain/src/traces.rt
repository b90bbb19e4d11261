//! What is said of a trace.

ghost use Rattle.std.specs.Prelude.{◌≡◌, ◌≢◌, ◌<◌, ◌^◌, true, length, IfOk};
ghost use Rattle.lines.specs.Lines.{words_of};
ghost use Rattle.verdict.specs.Reading.{trace_read};
ghost use Rattle.verdict.specs.Verdicts.{Tells};
ghost use Rattle.explain.specs.Advised.{IsAdvised, IsMisfitAdvice, IsTraceAdvice, cut_short};
ghost use Rattle.explain.specs.Advised.{allowed_note, asked_at, call_at, head_range, kind_of, line_range};
ghost use Rattle.explain.specs.Advised.{misfit_advice, operation_at};
ghost use Rattle.explain.specs.Advised.{trace_range, uncounted_at};
ghost use Rattle.explain.specs.Explains.{IsOfKind, IsTitle};
ghost use Rattle.explain.specs.Origins.{step_at};

use crate::allowed::standing_of;
use crate::encodings::no_text;
use crate::explanation::{Advice, Explanation, Note, Things, Title};
use crate::origins::origin_of;
use crate::quoting::{is_last, line_of, lines_in};
use crate::ranges::{ranged, uncounted};
use crate::sought::word_of;
use crate::spoiling::first_spoiling;
use crate::stray::stray_advice;
use facts::{Fact, Line};
use grammar::Kind;
use posixmutex::{Decision, Operation};
use std::alloc::{AllocError, Global};
use verdict::{
    Fault, Finding, MAX_BYTES, MAX_CONDITIONS, MAX_EVENTS, MAX_MUTEXES, MAX_THREADS, Misfit,
    TraceFault, TraceMisfit, explain, read_trace,
};

/// The kind of the line with this number.
fn kind_of(number: usize) -> Kind
    ensures { result ≡ kind_of number }
{
    if number == 1 { Kind::Head } else { Kind::Trace }
}

/// A number of the first line that is out of its range.
fn head_out_of_range(line: &str) -> Advice<'static>
    ensures { result ≡ head_range (words_of line.now) }
{
    let conditions = ranged(line, 3, 0, MAX_CONDITIONS, Advice::none());
    let mutexes = ranged(line, 2, 1, MAX_MUTEXES, conditions);
    ranged(line, 1, 1, MAX_THREADS, mutexes)
}

/// Word `word` of a line, where the first line doesn't count what it names; else what is said instead.
fn uncounted_at(head: &str, line: &str, word: usize, other: Advice<'static>) -> Advice<'static>
    ensures { result ≡ uncounted_at head.now (words_of line.now) word other.entry }
{
    match uncounted(head, word_of(line, word)) {
        Some(note) => Advice::at(word, note),
        None => other,
    }
}

/// A number of another line that is out of its range.
fn line_out_of_range(head: &str, line: &str) -> Advice<'static>
    ensures { result ≡ line_range head.now (words_of line.now) }
{
    if word_of(line, 0) == "end" {
        return Advice::at(
            1,
            Note::Range {
                low: 0,
                high: MAX_EVENTS,
            },
        );
    }
    let fifth = uncounted_at(head, line, 5, Advice::none());
    let fourth = uncounted_at(head, line, 4, fifth);
    let third = uncounted_at(head, line, 3, fourth);
    let second = uncounted_at(head, line, 2, third);
    ranged(line, 0, 1, MAX_EVENTS, second)
}

fn out_of_range(text: &str, number: usize) -> Advice<'static>
    ensures { result ≡ trace_range text.now number }
{
    let line = line_of(text, number);
    if number == 1 {
        head_out_of_range(line)
    } else {
        line_out_of_range(line_of(text, 1), line)
    }
}

/// No `end` line, or something after it.
fn cut_short(text: &str, number: usize) -> Advice<'static>
    ensures { result ≡ cut_short text.now number }
{
    if line_of(text, number).is_empty() && is_last(text, number) {
        Advice::only(Note::NoEnd)
    } else {
        Advice::only(Note::BehindEnd)
    }
}

/// What is said of a trace's line beside its fault; the text is that of the bytes.
fn advice(
    alloc: Global,
    bytes: &[u8],
    text: &str,
    fault: TraceFault,
) -> Result<Advice<'static>, AllocError>
    requires { length bytes.now < 2 ^ 32 }
    ensures { IfOk result (IsTraceAdvice bytes.now text.now fault.line fault.fault) }
{
    match fault.fault {
        Fault::NotUtf8 => Ok(no_text(bytes)),
        Fault::OutOfMemory => Ok(Advice::none()),
        Fault::UnknownWord => {
            stray_advice(alloc, kind_of(fault.line), text, fault.line, Advice::none())
        }
        Fault::OutOfRange => Ok(out_of_range(text, fault.line)),
        Fault::TooLong => Ok(Advice::only(Note::Bytes(MAX_BYTES as u32))),
        Fault::Cut => Ok(cut_short(text, fault.line)),
    }
}

/// The step that the line with this number tells, of these, the first of which is line 2.
fn step_at(entries: &[Line], line: usize) -> Option<Decision>
    ensures { result ≡ step_at entries.now line }
{
    match entries.get(line.saturating_sub(2)) {
        Some(entry) => entry.fact.decision(),
        None => None,
    }
}

/// The operation of the call that the line with this number begins, if there is one.
fn operation_at(entries: &[Line], line: Option<usize>) -> Option<Operation>
    ensures { result ≡ operation_at entries.now line }
{
    let Some(line) = line else {
        return None;
    };
    match entries.get(line.saturating_sub(2)) {
        Some(entry) => match entry.fact {
            Fact::Begin(_, call) => Some(call.operation),
            _ => None,
        },
        None => None,
    }
}

/// The operation of the call that the thread of the line with this number began last before it: what a call goes back to
/// that isn't decided.
fn call_at(entries: &[Line], line: usize) -> Option<Operation>
    ensures { result ≡ call_at entries.now line }
{
    let undecided = TraceMisfit {
        line,
        misfit: Misfit::Undecided,
    };
    operation_at(entries, origin_of(entries, undecided))
}

/// What the thread asks of the mutex at a point of its call: a wait unlocks it, and is refused as a wait where its thread
/// doesn't own it.
fn asked_at(owns: bool, operation: Operation, call: Option<Operation>) -> Operation
    ensures { result ≡ asked_at owns operation call }
{
    if owns {
        return operation;
    }
    match operation {
        Operation::Unlock => match call {
            Some(Operation::Wait | Operation::TimedWait) => Operation::Wait,
            _ => operation,
        },
        _ => operation,
    }
}

/// What is said of a line that doesn't fit: of a reply that its mutex doesn't allow in such a call, those that it does.
fn allowed_note(misfit: &Misfit, step: Option<Decision>, call: Option<Operation>) -> Option<Note>
    ensures { result ≡ allowed_note misfit.now step call }
{
    match *misfit {
        Misfit::NotAllowed { object, .. } => match step {
            Some(step) => {
                let standing = standing_of(&object, step.thread);
                let operation = asked_at(standing.owns, step.operation, call);
                Some(Note::Allowed(standing, operation))
            }
            None => None,
        },
        _ => None,
    }
}

/// What is said of a line of these that doesn't fit.
fn misfit_advice(entries: &[Line], why: TraceMisfit) -> Advice<'static>
    ensures { result ≡ misfit_advice entries.now why }
{
    let step = step_at(entries, why.line);
    let call = call_at(entries, why.line);
    Advice {
        mark: None,
        note: allowed_note(&why.misfit, step, call),
        also: None,
        origin: origin_of(entries, why),
    }
}

/// What is said of a trace whose line doesn't fit.
fn illegal(alloc: Global, bytes: &[u8], why: TraceMisfit) -> Result<Advice<'static>, AllocError>
    ensures { IfOk result (IsMisfitAdvice bytes.now why) }
{
    let Ok(trace) = read_trace(alloc, bytes) else {
        return Err(AllocError);
    };
    Ok(misfit_advice(&trace.lines, why))
}

/// What is said of a legal trace.
fn legal<'a>(alloc: Global, bytes: &'a [u8], points: usize) -> Result<Explanation<'a>, AllocError>
    requires { Tells (trace_read bytes.now) (Ok (Finding.Legal points)) }
    ensures kind { IfOk result (λ x. IsOfKind true x.title) }
    ensures title { IfOk result (λ x. IsTitle bytes.entry.now x.title) }
    ensures advised { IfOk result (λ x. IsAdvised bytes.entry.now x.title x.advice) }
{
    let Ok(trace) = read_trace(alloc, bytes) else {
        return Err(AllocError);
    };
    match first_spoiling(alloc, trace.head, &trace.lines)? {
        None => Ok(Explanation {
            title: Title::Legal {
                points,
                spoiling: None,
            },
            advice: Advice::none(),
        }),
        Some(spoiling) => Ok(Explanation {
            title: Title::Legal {
                points,
                spoiling: Some(spoiling.line),
            },
            advice: Advice::only(Note::SpoilingWait).back_to(Some(spoiling.death)),
        }),
    }
}

/// The fault, where it isn't lack of memory.
fn known(fault: TraceFault) -> Result<TraceFault, AllocError>
    ensures { IfOk result (λ f. (f ≡ fault) × (fault.fault ≢ Fault.OutOfMemory)) }
{
    match fault.fault {
        Fault::OutOfMemory => Err(AllocError),
        _ => Ok(fault),
    }
}

/// What is said of a trace without fault, of which the judge finds this.
fn found<'a>(
    alloc: Global,
    bytes: &'a [u8],
    finding: Finding,
) -> Result<Explanation<'a>, AllocError>
    requires { Tells (trace_read bytes.now) (Ok finding) }
    ensures kind { IfOk result (λ x. IsOfKind true x.title) }
    ensures title { IfOk result (λ x. IsTitle bytes.entry.now x.title) }
    ensures advised { IfOk result (λ x. IsAdvised bytes.entry.now x.title x.advice) }
{
    match finding {
        Finding::Legal { points } => legal(alloc, bytes, points),
        Finding::Illegal(why) => Ok(Explanation {
            title: Title::Illegal(why),
            advice: illegal(alloc, bytes, why)?,
        }),
    }
}

/// What is said of bytes that are to be a trace.
pub fn explain_trace<'a>(alloc: Global, bytes: &'a [u8]) -> Result<Explanation<'a>, AllocError>
    requires { length bytes.now < 2 ^ 32 }
    ensures kind { IfOk result (λ x. IsOfKind true x.title) }
    ensures title { IfOk result (λ x. IsTitle bytes.entry.now x.title) }
    ensures advised { IfOk result (λ x. IsAdvised bytes.entry.now x.title x.advice) }
{
    match explain(alloc, bytes) {
        Ok(finding) => found(alloc, bytes, finding),
        Err(fault) => {
            let fault = known(fault)?;
            Ok(Explanation {
                title: Title::Trace(fault),
                advice: advice(alloc, bytes, lines_in(bytes), fault)?,
            })
        }
    }
}
