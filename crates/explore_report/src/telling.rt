//! What is printed of the outcomes that were found.

ghost use Rattle.std.specs.Prelude.{◌≡◌, ◌++◌, ◌<◌, ◌+◌, ◌-◌, length, map, OnOk, IfOk};
ghost use Rattle.std.specs.List.{list_any};
ghost use Rattle.explore_report.specs.Texts.{asked_text, cell_at, cells_text, columns, complete_text, conditions_text};
ghost use Rattle.explore_report.specs.Texts.{count_text, found_text, head_text, kills_text, last_text, mark_of};
ghost use Rattle.explore_report.specs.Texts.{named_text, number_text, on_mutex, padded, row_text, rows_text, spaces, widths_of, words_if};

use crate::cells::{add_cell, width_of};
use crate::patterns::some_asleep;
use itoa::Buffer;
use outcomes::{Asked, End, Outcome, Witnessed};
use reasons::add;
use script::Script;
use std::alloc::{AllocError, Global};

/// Adds this many spaces.
fn add_spaces(text: &mut Vec<u8>, count: usize) -> Result<(), AllocError>
    ensures { OnOk result (text.new.items ≡ text.old.items ++ spaces count) }
{
    for done in 0..count {
        text.push(b' ')?;
    }
    Ok(())
}

/// `N THING`, or `N THINGS`, after some words.
fn add_count(
    text: &mut Vec<u8>,
    start: &str,
    count: u64,
    one: &str,
    many: &str,
) -> Result<(), AllocError>
    ensures { OnOk result (text.new.items ≡ text.old.items ++ count_text start.now count one.now many.now) }
{
    let mut numbers = Buffer::new();
    if count == 1 {
        add(text, &[start, numbers.format(count), one])
    } else {
        add(text, &[start, numbers.format(count), many])
    }
}

/// Whose kills are explored, if not everybody's.
fn add_named(text: &mut Vec<u8>, named: &[&str]) -> Result<(), AllocError>
    ensures { OnOk result (text.new.items ≡ text.old.items ++ named_text (map (λ w. w.now) named.now)) }
{
    let [first, others @ ..] = named else {
        return Ok(());
    };
    add(text, &[" of ", first])?;
    for name in others {
        add(text, &[", ", name])?;
    }
    Ok(())
}

/// How many kills are explored, and whose.
fn add_kills(text: &mut Vec<u8>, kills: u8, named: &[&str]) -> Result<(), AllocError>
    ensures { OnOk result (text.new.items ≡ text.old.items ++ kills_text kills (map (λ w. w.now) named.now)) }
{
    if kills == 0 {
        return Ok(());
    }
    add_count(text, ", at most ", kills.into(), " kill", " kills")?;
    add_named(text, named)
}

/// Some words, if something holds.
fn add_if(text: &mut Vec<u8>, holds: bool, words: &str) -> Result<(), AllocError>
    ensures { OnOk result (text.new.items ≡ text.old.items ++ words_if holds words.now) }
{
    if holds {
        text.extend_from_slice(words.as_bytes())
    } else {
        Ok(())
    }
}

/// Which events are explored besides begins and steps.
fn add_asked(text: &mut Vec<u8>, asked: &Asked, named: &[&str]) -> Result<(), AllocError>
    ensures { OnOk result (text.new.items ≡ text.old.items ++ asked_text asked.now (map (λ w. w.now) named.now)) }
{
    add_kills(text, asked.kills, named)?;
    add_if(text, asked.expire, ", deadlines")?;
    add_if(text, asked.leave, ", spurious wakeups")?;
    add_if(text, asked.spare, ", spared wakes")
}

/// How many condition variables there are, if there is any.
fn add_conditions(text: &mut Vec<u8>, count: u16) -> Result<(), AllocError>
    ensures { OnOk result (text.new.items ≡ text.old.items ++ conditions_text count) }
{
    if count == 0 {
        return Ok(());
    }
    add_count(
        text,
        ", ",
        count.into(),
        " condition variable",
        " condition variables",
    )
}

/// Whether no outcome is missing.
fn complete_words(complete: bool) -> &'static str
    ensures { result.now ≡ complete_text complete }
{
    if complete {
        ", complete\n"
    } else {
        ", not complete\n"
    }
}

/// The first line.
fn add_head(
    text: &mut Vec<u8>,
    script: &Script,
    asked: &Asked,
    named: &[&str],
    count: usize,
    complete: bool,
) -> Result<(), AllocError>
    ensures { OnOk result (text.new.items ≡ text.old.items
        ++ head_text script.now asked.now (map (λ w. w.now) named.now) count complete) }
{
    add_count(text, "", script.threads().into(), " thread", " threads")?;
    add_count(text, ", ", script.mutexes().into(), " mutex", " mutexes")?;
    add_conditions(text, script.conditions())?;
    add_asked(text, asked, named)?;
    add_count(text, ": ", count as u64, " outcome", " outcomes")?;
    text.extend_from_slice(complete_words(complete).as_bytes())
}

/// Whether a thread that ended so sleeps on a mutex.
fn on_mutex(end: End) -> bool
    ensures { result ≡ on_mutex end }
{
    matches!(end, End::OnMutex(_))
}

/// Whether some thread sleeps on a mutex.
fn some_on_mutex(outcome: &Outcome) -> bool
    ensures { result ≡ list_any (λ e. on_mutex e.end) outcome.now.threads.items }
{
    outcome.threads.iter().any(|ended| on_mutex(ended.end))
}

/// What an outcome is called in which threads sleep forever.
fn mark_of(outcome: &Outcome) -> &'static str
    ensures { result.now ≡ mark_of outcome.now }
{
    if some_on_mutex(outcome) {
        "a deadlock"
    } else if some_asleep(outcome) {
        "a lost wakeup"
    } else {
        ""
    }
}

/// The cell of a column, and spaces up to the next one.
fn add_padded(
    text: &mut Vec<u8>,
    script: &Script,
    outcome: &Outcome,
    column: u16,
    width: usize,
) -> Result<(), AllocError>
    requires { column < columns script.now }
    ensures { OnOk result (text.new.items ≡ text.old.items ++ padded width (cell_at script.now outcome.now column)) }
{
    let start = text.len();
    add_cell(text, script, outcome, column)?;
    let count = text.len() - start;
    add_spaces(text, width.saturating_add(4).saturating_sub(count))
}

/// The last cell of an outcome, and its mark.
fn add_last(
    text: &mut Vec<u8>,
    script: &Script,
    outcome: &Outcome,
    column: u16,
    width: usize,
) -> Result<(), AllocError>
    requires { column < columns script.now }
    ensures { OnOk result (text.new.items ≡ text.old.items
        ++ last_text width (cell_at script.now outcome.now column) (mark_of outcome.now)) }
{
    let mark = mark_of(outcome);
    if mark.is_empty() {
        return add_cell(text, script, outcome, column);
    }
    add_padded(text, script, outcome, column, width)?;
    text.extend_from_slice(mark.as_bytes())
}

/// How wide each column is.
fn widths_of(
    alloc: Global,
    script: &Script,
    outcomes: &[&Witnessed],
) -> Result<Vec<usize>, AllocError>
    ensures { IfOk result (λ v. v.items ≡ widths_of script.now (map (λ w. w.now) outcomes.now)) }
{
    let mut widths = Vec::new(alloc);
    for column in 0..u16::from(script.threads()) + script.mutexes() {
        widths.push(width_of(alloc, script, outcomes, column)?)?;
    }
    Ok(widths)
}

/// The cells of an outcome, each as wide as its column, and its mark.
fn add_cells(
    text: &mut Vec<u8>,
    script: &Script,
    outcome: &Outcome,
    widths: &[usize],
) -> Result<(), AllocError>
    requires { length widths.now ≡ columns script.now }
    ensures { OnOk result (text.new.items ≡ text.old.items ++ cells_text script.now widths.now outcome.now) }
{
    let last = u16::from(script.threads()) + script.mutexes() - 1;
    for column in 0..last {
        add_padded(text, script, outcome, column, widths[usize::from(column)])?;
    }
    add_last(text, script, outcome, last, widths[usize::from(last)])
}

/// A number, as wide as the largest, and two spaces.
fn add_number(text: &mut Vec<u8>, largest: u64, number: u64) -> Result<(), AllocError>
    ensures { OnOk result (text.new.items ≡ text.old.items ++ number_text largest number) }
{
    let mut numbers = Buffer::new();
    let width = numbers.format(largest).len();
    let mut digits = Buffer::new();
    let shown = digits.format(number);
    text.extend_from_slice(shown.as_bytes())?;
    add_spaces(text, (width + 2).saturating_sub(shown.len()))
}

/// The line of an outcome.
fn add_row(
    text: &mut Vec<u8>,
    script: &Script,
    outcome: &Outcome,
    widths: &[usize],
    largest: usize,
    place: usize,
) -> Result<(), AllocError>
    requires widths { length widths.now ≡ columns script.now }
    requires within { place < largest }
    ensures { OnOk result (text.new.items ≡ text.old.items ++ row_text script.now widths.now largest place outcome.now) }
{
    add_number(text, largest as u64, place as u64 + 1)?;
    add_cells(text, script, outcome, widths)?;
    text.push(b'\n')?;
    Ok(())
}

/// The lines of all outcomes.
fn add_rows(
    text: &mut Vec<u8>,
    script: &Script,
    outcomes: &[&Witnessed],
    widths: &[usize],
) -> Result<(), AllocError>
    requires { length widths.now ≡ columns script.now }
    ensures { OnOk result (text.new.items ≡ text.old.items
        ++ rows_text script.now widths.now (length outcomes.now) 0 (map (λ w. w.now) outcomes.now)) }
{
    let largest = outcomes.len();
    let mut place = 0;
    for witnessed in outcomes {
        add_row(text, script, &witnessed.outcome, widths, largest, place)?;
        place += 1;
    }
    Ok(())
}

/// Adds the outcomes: the first line, one for each outcome, and how many states there are.
pub fn add_found(
    alloc: Global,
    text: &mut Vec<u8>,
    script: &Script,
    asked: &Asked,
    named: &[&str],
    outcomes: &[&Witnessed],
    complete: bool,
    states: usize,
) -> Result<(), AllocError>
    ensures { OnOk result (text.new.items ≡ text.old.items
        ++ found_text script.now asked.now (map (λ w. w.now) named.now) (map (λ w. w.now) outcomes.now) complete states) }
{
    let widths = widths_of(alloc, script, outcomes)?;
    add_head(text, script, asked, named, outcomes.len(), complete)?;
    add_rows(text, script, outcomes, &widths)?;
    add_count(text, "", states as u64, " state\n", " states\n")
}
