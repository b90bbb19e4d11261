//! The data of a page, line by line: all of it is put together before the page is written.

ghost use Rattle.std.specs.Prelude.{◌≡◌, ◌+◌, ◌++◌, ◌≤◌, ◌<◌, ◌^◌, ◌==◌, ◌%◌, [], ◌∷◌, All, length, min, reverse, IfOk};
ghost use Rattle.std.specs.Prelude.{option_map, slice_index_or, string_bytes, if◌then◌else◌};
ghost use Rattle.facts.specs.Facts.{decision_of, thread_of};
ghost use Rattle.reasons.specs.Reasons.{reason_text};
ghost use Rattle.verdict.specs.Judges.{IsInside};
ghost use Rattle.verdict.specs.Told.{IsOf, IsWithin};
ghost use Rattle.page.specs.Data.{data_text, end_text, illegal_end, illegal_start, illegal_text, legal_text};
ghost use Rattle.page.specs.Data.{history_data, history_end, history_illegal, history_lines, misfit_line};
ghost use Rattle.page.specs.Data.{misfit_text, mutex_in, shown_lines, start_text, states_text};
ghost use Rattle.page.specs.Escapes.{escaped};
ghost use Rattle.page.specs.Shows.{items_behind, turn};
ghost use Rattle.page.specs.States.{seen, state_behind};
ghost use Rattle.page.specs.Statuses.{first_status};
ghost use Rattle.page.specs.Texts.{items_text, line_text, mutex_text, status_text, whole_text};

use crate::naming::{add_escaped, add_names};
use crate::pieces::{add, add_word};
use crate::state::State;
use crate::texts::{add_line, add_object_behind, add_status, add_whole};
use facts::{Fact, Line};
use itoa::Buffer;
use picture::Names;
use reasons::add_reason;
use std::alloc::{AllocError, Global};
use verdict::{Finding, Head, Misfit, Told, TraceMisfit};

/// Before every that many lines the whole state stands, the first line among these.
const WHOLE: usize = 1_000;

/// How many lines are shown at most.
const MOST: usize = 100_000;

/// How many lines after the head are shown, of that many: those that fit, as far as there is room.
pub fn shown_lines(finding: &Finding, count: usize) -> usize
    ensures value { result ≡ shown_lines finding.now count }
    ensures few { result ≤ count }
    ensures most { result ≤ 100000 }
{
    let fitting = match *finding {
        Finding::Legal { .. } => count,
        Finding::Illegal(found) => count.min(found.line.saturating_sub(2)),
    };
    fitting.min(MOST)
}

fn add_whole_at(text: &mut String, state: &State, at: usize) -> Result<(), AllocError>
    ensures { IfOk result
        (λ _. string_bytes text.new
        ≡ string_bytes text.old ++ (if (at % 1000) == 0 then whole_text (seen state.now) else [])) }
{
    if at % WHOLE == 0 {
        add_whole(text, state)
    } else {
        Ok(())
    }
}

/// What the mutex of a point or a death is.
fn add_mutex(text: &mut String, state: &State, fact: &Fact) -> Result<(), AllocError>
    requires { IsInside (length state.now.threads.items) (length state.now.mutexes.items) fact.now }
    ensures { IfOk result
        (λ _. string_bytes text.new
        ≡ string_bytes text.old ++ mutex_text (option_map (mutex_in state.now.mutexes.items) (decision_of fact.now))) }
{
    match fact.decision() {
        Some(decision) => {
            add_object_behind(text, state.mutexes[usize::from(decision.mutex)])?;
            add_word(text, "],\n")
        }
        None => add_word(text, "],\n"),
    }
}

/// A line, and what its thread does and its mutex is after it.
fn add_change(text: &mut String, state: &State, line: &Line) -> Result<(), AllocError>
    requires { IsInside (length state.now.threads.items) (length state.now.mutexes.items) line.now.fact }
    ensures { IfOk result
        (λ _. string_bytes text.new
        ≡ string_bytes text.old
        ++ (line_text line.now
        ++ (status_text (slice_index_or state.now.threads.items (thread_of line.now.fact) first_status)
        ++ mutex_text (option_map (mutex_in state.now.mutexes.items) (decision_of line.now.fact))))) }
{
    add_line(text, line)?;
    add_status(text, &state.threads[usize::from(line.fact.thread().get())])?;
    add_mutex(text, state, &line.fact)
}

/// The items of a line after these.
fn add_turn(
    text: &mut String,
    state: &mut State,
    head: &Head,
    earlier: &[Line],
    line: &Line,
) -> Result<(), AllocError>
    requires inside { IsOf head.now line.now }
    requires few { length earlier.now ≤ 100000 }
    requires so_far { seen state.old ≡ state_behind head.now.threads head.now.mutexes (reverse earlier.now) }
    ensures text { IfOk result
        (λ _. string_bytes text.new
        ≡ string_bytes text.old
        ++ items_text (turn head.now.threads head.now.mutexes (reverse earlier.now) line.now)) }
    ensures state { IfOk result
        (λ _. seen state.new ≡ state_behind head.now.threads head.now.mutexes (line.now ∷ reverse earlier.now)) }
{
    add_whole_at(text, state, earlier.len())?;
    state.take(&line.fact, earlier.len() + 2);
    add_change(text, state, line)
}

/// The items of all of these lines.
fn add_items(
    text: &mut String,
    state: &mut State,
    head: &Head,
    lines: &[Line],
) -> Result<(), AllocError>
    requires inside { All (IsOf head.now) lines.now }
    requires few { length lines.now ≤ 100000 }
    requires new { seen state.old ≡ state_behind head.now.threads head.now.mutexes [] }
    ensures { IfOk result
        (λ _. string_bytes text.new
        ≡ string_bytes text.old ++ items_text (items_behind head.now.threads head.now.mutexes [] lines.now)) }
{
    for index in 0..lines.len() {
        add_turn(text, state, head, &lines[..index], &lines[index])?;
    }
    Ok(())
}

fn add_legal(text: &mut String, word: &str, last: u32, lines: usize) -> Result<(), AllocError>
    ensures { IfOk result (λ _. string_bytes text.new ≡ string_bytes text.old ++ legal_text word.now last lines) }
{
    let mut lasts = Buffer::new();
    let mut counts = Buffer::new();
    let last = lasts.format(last);
    let count = counts.format(lines);
    add(text, &["[\"", word, "\",", last, ",", count, "]\n]\n"])
}

fn add_illegal_start(
    text: &mut String,
    word: &str,
    last: u32,
    lines: usize,
    line: usize,
) -> Result<(), AllocError>
    ensures { IfOk result
        (λ _. string_bytes text.new ≡ string_bytes text.old ++ illegal_start word.now last lines line) }
{
    let mut lasts = Buffer::new();
    let mut counts = Buffer::new();
    let mut numbers = Buffer::new();
    let last = lasts.format(last);
    let count = counts.format(lines);
    let number = numbers.format(line);
    add(
        text,
        &["[\"", word, "\",", last, ",", count, ",", number, ",\""],
    )
}

/// Why a line doesn't fit, in words that the page's script reads.
fn add_why(alloc: Global, text: &mut String, misfit: &Misfit) -> Result<(), AllocError>
    ensures { IfOk result
        (λ _. string_bytes text.new ≡ string_bytes text.old ++ escaped (reason_text misfit.now)) }
{
    let mut why = Vec::new(alloc);
    add_reason(&mut why, misfit)?;
    add_escaped(text, why.as_slice())
}

/// The line with this number, if it is one of these, the first of which is line 2.
fn misfit_line(lines: &[Line], line: usize) -> Option<Line>
    ensures { result ≡ misfit_line lines.now line }
{
    lines.get(line.saturating_sub(2)).copied()
}

/// What a line tells that isn't shown, if there is one.
fn add_misfit(text: &mut String, line: Option<Line>) -> Result<(), AllocError>
    ensures { IfOk result (λ _. string_bytes text.new ≡ string_bytes text.old ++ misfit_text line) }
{
    match line {
        Some(line) => {
            add_line(text, &line)?;
            add_word(text, "0]")
        }
        None => add_word(text, "0"),
    }
}

fn add_illegal_end(text: &mut String, line: Option<Line>) -> Result<(), AllocError>
    ensures { IfOk result (λ _. string_bytes text.new ≡ string_bytes text.old ++ illegal_end line) }
{
    add_word(text, "\",")?;
    add_misfit(text, line)?;
    add_word(text, "]\n]\n")
}

fn add_illegal(
    alloc: Global,
    text: &mut String,
    last: u32,
    lines: &[Line],
    found: &TraceMisfit,
) -> Result<(), AllocError>
    ensures { IfOk result
        (λ _. string_bytes text.new ≡ string_bytes text.old ++ illegal_text last lines.now found.now) }
{
    let line = misfit_line(lines, found.line);
    add_illegal_start(text, "illegal", last, lines.len(), found.line)?;
    add_why(alloc, text, &found.misfit)?;
    add_illegal_end(text, line)
}

/// How a trace was judged, which has that many events and these lines.
fn add_end(
    alloc: Global,
    text: &mut String,
    finding: &Finding,
    last: u32,
    lines: &[Line],
) -> Result<(), AllocError>
    ensures { IfOk result (λ _. string_bytes text.new ≡ string_bytes text.old ++ end_text finding.now last lines.now) }
{
    match finding {
        Finding::Legal { .. } => add_legal(text, "legal", last, lines.len()),
        Finding::Illegal(found) => add_illegal(alloc, text, last, lines, found),
    }
}

fn add_start(text: &mut String, names: &Names, head: &Head) -> Result<(), AllocError>
    ensures { IfOk result (λ _. string_bytes text.new ≡ string_bytes text.old ++ start_text names.now head.now) }
{
    add_word(text, "[\n")?;
    add_names(text, names, head.threads, head.mutexes, head.conditions)
}

/// How many lines of a trace that shows a history are shown, of that many: of an illegal history not the last, which is
/// the illegal one.
pub fn history_lines(why: Option<&[u8]>, count: usize) -> usize
    ensures value { result ≡ history_lines (option_map (λ s. s.now) why.entry) count }
    ensures few { result ≤ count }
    ensures most { result ≤ 100000 }
{
    match why {
        None => count.min(MOST),
        Some(_) => count.saturating_sub(1).min(MOST),
    }
}

/// Why a history is illegal, whose illegal line is the last of these.
fn add_history_illegal(
    text: &mut String,
    why: &[u8],
    last: u32,
    lines: &[Line],
) -> Result<(), AllocError>
    requires { length lines.now < 2 ^ 63 }
    ensures { IfOk result
        (λ _. string_bytes text.new ≡ string_bytes text.old ++ history_illegal why.now last lines.now) }
{
    let number = lines.len() + 1;
    let line = misfit_line(lines, number);
    add_illegal_start(text, "illegal history", last, lines.len(), number)?;
    add_escaped(text, why)?;
    add_illegal_end(text, line)
}

/// How a history was judged.
fn add_history_end(
    text: &mut String,
    why: Option<&[u8]>,
    last: u32,
    lines: &[Line],
) -> Result<(), AllocError>
    requires { length lines.now < 2 ^ 63 }
    ensures { IfOk result
        (λ _. string_bytes text.new
        ≡ string_bytes text.old ++ history_end (option_map (λ s. s.now) why.entry) last lines.now) }
{
    match why {
        None => add_legal(text, "legal history", last, lines.len()),
        Some(why) => add_history_illegal(text, why, last, lines),
    }
}

/// The names, and the states after these lines of a trace, `state` being that before them.
fn add_states(
    text: &mut String,
    state: &mut State,
    names: &Names,
    head: &Head,
    lines: &[Line],
) -> Result<(), AllocError>
    requires inside { All (IsOf head.now) lines.now }
    requires few { length lines.now ≤ 100000 }
    requires new { seen state.old ≡ state_behind head.now.threads head.now.mutexes [] }
    ensures { IfOk result
        (λ _. string_bytes text.new
        ≡ string_bytes text.old ++ (start_text names.now head.now ++ states_text head.now lines.now)) }
{
    add_start(text, names, head)?;
    add_items(text, state, head, lines)
}

/// The data of a trace, `state` being that before its first line: what things are called, the states after its lines,
/// and how it was judged.
pub fn add_data(
    alloc: Global,
    text: &mut String,
    state: &mut State,
    names: &Names,
    trace: &Told,
    finding: &Finding,
) -> Result<(), AllocError>
    requires within { IsWithin trace.now }
    requires new { seen state.old ≡ state_behind trace.now.head.threads trace.now.head.mutexes [] }
    ensures { IfOk result
        (λ _. string_bytes text.new ≡ string_bytes text.old ++ data_text names.now trace.now finding.now) }
{
    let lines = trace.lines.as_slice();
    let shown = shown_lines(finding, lines.len());
    add_states(text, state, names, &trace.head, &lines[..shown])?;
    add_end(alloc, text, finding, trace.last, lines)
}

/// The data of a trace that shows a history, `state` being that before its first line: what things are called, the states
/// after its lines, and why it is illegal, if it is.
pub fn add_history_data(
    text: &mut String,
    state: &mut State,
    names: &Names,
    trace: &Told,
    why: Option<&[u8]>,
) -> Result<(), AllocError>
    requires within { IsWithin trace.now }
    requires new { seen state.old ≡ state_behind trace.now.head.threads trace.now.head.mutexes [] }
    ensures { IfOk result
        (λ _. string_bytes text.new
        ≡ string_bytes text.old ++ history_data names.now trace.now (option_map (λ s. s.now) why.entry)) }
{
    let lines = trace.lines.as_slice();
    let shown = history_lines(why, lines.len());
    add_states(text, state, names, &trace.head, &lines[..shown])?;
    add_history_end(text, why, trace.last, lines)
}
