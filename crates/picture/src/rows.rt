//! The rows of a picture in text.

ghost use Rattle.std.specs.Prelude.{◌≡◌, ◌++◌, ◌≤◌, map, string_bytes, IfOk};
ghost use Rattle.lockword.specs.Threads.{named_threads};
ghost use Rattle.picture.specs.Rows.{arrow_end, arrow_from, arrow_sign, bands_text, blanks, cell, cells, end_text};
ghost use Rattle.picture.specs.Rows.{event_text, is_covered, is_from_right, mark, narrow_mark, origin, owner_pieces};
ghost use Rattle.picture.specs.Rows.{part_of, reach, row_of, row_text, sign, stays_so, tail, taken, wide_mark};

use crate::bands::{Extent, IDS, Sheet};
use crate::lane::Lane;
use crate::layout::{EVENT, band_width, gap, is_wide, width};
use crate::names::Names;
use crate::pieces::{add, add_padded, fill, room};
use crate::scene::Scene;
use crate::words::words;
use facts::{Fact, Line};
use itoa::Buffer;
use lockword::Tid;
use posixmutex::Object;
use std::alloc::AllocError;

/// What a line's row tells of it, except for its event.
#[derive(Clone, Copy)]
struct Row<'a> {
    extent: Extent,
    /// Whose lane it is drawn in.
    thread: u8,
    /// Whose event did this to the thread, where that is another one.
    from: Option<u8>,
    sign: &'a str,
    words: &'a [&'a str],
}

/// What is in a lane at a row.
#[derive(Clone, Copy)]
enum Part {
    /// What the lane showed before, and goes on to show.
    Stays,
    /// Nothing: words of a lane before it are here.
    Covered,
    /// The line's mark.
    Mark,
    /// The beginning of an arrow to the mark.
    Origin,
    /// An arrow to the mark.
    Arrow,
}

/// Whose event did what a line tells, where that is another thread's.
pub fn arrow_from(actor: Option<Tid>, fact: &Fact) -> Option<u8>
    ensures { result ≡ arrow_from actor fact.now }
{
    let Some(actor) = actor else {
        return None;
    };
    if !fact.is_passive() || actor.get() == fact.thread().get() {
        return None;
    }
    Some(actor.get())
}

/// The sign of what an event did to another thread.
fn arrow_sign(thread: u8, from: Option<u8>) -> &'static str
    ensures { result.now ≡ arrow_sign thread from }
{
    match from {
        None => "○",
        Some(actor) => { if actor < thread { ">" } else { "<" } }
    }
}

/// The sign of a line in its lane.
fn sign(fact: &Fact, from: Option<u8>) -> &'static str
    ensures { result.now ≡ sign fact.now from }
{
    match *fact {
        Fact::Begin(..) => "┌",
        Fact::Point(_) => "●",
        Fact::Death(..) => "!",
        Fact::Sleep(..) => "z",
        Fact::Wake(thread) => arrow_sign(thread.get(), from),
        Fact::Move(thread, _) => arrow_sign(thread.get(), from),
        Fact::Return(..) => "└",
        Fact::Kill(_) => "╳",
        Fact::Reap(_) => "†",
        Fact::Renew(_) => "*",
    }
}

/// How many columns a sign, a blank and the words after it take; all words have fewer than 62.
fn taken(words: &[&str]) -> usize
    ensures { result ≡ taken (map (λ w. w.now) words.now) }
{
    64 - room(62, words)
}

/// How many lanes after its own the words of a line cover, with a blank after them.
fn reach(extent: &Extent, words: &[&str]) -> usize
    ensures { result ≡ reach extent.now (map (λ w. w.now) words.now) }
{
    taken(words) / width(extent)
}

/// Whether an arrow comes to a thread's lane from its right.
pub fn is_right_of(thread: u8, from: Option<u8>) -> bool
    ensures { result ≡ is_from_right thread from }
{
    match from {
        None => false,
        Some(actor) => thread < actor,
    }
}

/// Whether words of a line before it are in a lane, which is neither the line's own nor one of its arrow's.
fn is_covered(row: &Row<'_>, lane: u8) -> bool
    ensures { result ≡ is_covered row.now.extent row.now.thread row.now.from (map (λ w. w.now) row.now.words.now) lane }
{
    is_wide(&row.extent)
        && !is_right_of(row.thread, row.from)
        && row.thread < lane
        && usize::from(lane - row.thread) <= reach(&row.extent, row.words)
}

fn part_at(row: &Row<'_>, lane: u8) -> Part
    ensures { result ≡ part_of row.now.extent row.now.thread row.now.from (map (λ w. w.now) row.now.words.now) lane }
{
    let thread = row.thread;
    if lane == thread {
        return Part::Mark;
    }
    if let Some(actor) = row.from {
        if lane == actor {
            return Part::Origin;
        }
        if thread.min(actor) < lane && lane < thread.max(actor) {
            return Part::Arrow;
        }
    }
    if is_covered(row, lane) {
        Part::Covered
    } else {
        Part::Stays
    }
}

/// How many blanks come after the words of a line, up to the next lane that shows; none after the last lane.
fn blanks(row: &Row<'_>) -> usize
    ensures { result ≡ blanks row.now.extent row.now.thread (map (λ w. w.now) row.now.words.now) }
{
    let left = row.extent.threads.saturating_sub(row.thread);
    if usize::from(left) <= reach(&row.extent, row.words) {
        return 0;
    }
    let width = width(&row.extent);
    width.saturating_sub(taken(row.words) % width)
}

/// The end of an arrow from the right, in that many columns after its words: a blank, and the arrow in the others.
fn add_arrow_end(text: &mut String, columns: usize) -> Result<(), AllocError>
    ensures { IfOk result (λ _. string_bytes text.new ≡ string_bytes text.old ++ arrow_end columns) }
{
    add(text, &[" "])?;
    fill(text, "─", columns.saturating_sub(1))
}

/// The mark of a line, with its words.
fn add_wide_mark(text: &mut String, row: &Row<'_>) -> Result<(), AllocError>
    ensures { IfOk result
        (λ _. string_bytes text.new
        ≡ string_bytes text.old
        ++ wide_mark row.now.extent row.now.thread row.now.from row.now.sign.now (map (λ w. w.now) row.now.words.now)) }
{
    add(text, &[row.sign, " "])?;
    add(text, row.words)?;
    if is_right_of(row.thread, row.from) {
        add_arrow_end(text, room(width(&row.extent).saturating_sub(2), row.words))
    } else {
        fill(text, " ", blanks(row))
    }
}

/// The mark of a line in a lane that has no room for words.
fn add_narrow_mark(text: &mut String, row: &Row<'_>) -> Result<(), AllocError>
    ensures { IfOk result
        (λ _. string_bytes text.new
        ≡ string_bytes text.old ++ narrow_mark row.now.extent row.now.thread row.now.from row.now.sign.now) }
{
    add(text, &[row.sign])?;
    if is_right_of(row.thread, row.from) {
        fill(text, "─", width(&row.extent) - 1)
    } else {
        fill(text, " ", gap(&row.extent, row.thread))
    }
}

fn add_mark(text: &mut String, row: &Row<'_>) -> Result<(), AllocError>
    ensures { IfOk result
        (λ _. string_bytes text.new
        ≡ string_bytes text.old
        ++ mark row.now.extent row.now.thread row.now.from row.now.sign.now (map (λ w. w.now) row.now.words.now)) }
{
    if is_wide(&row.extent) {
        add_wide_mark(text, row)
    } else {
        add_narrow_mark(text, row)
    }
}

/// Where an arrow begins in this lane.
fn add_origin(text: &mut String, row: &Row<'_>, lane: u8) -> Result<(), AllocError>
    ensures { IfOk result
        (λ _. string_bytes text.new ≡ string_bytes text.old ++ origin row.now.extent row.now.thread row.now.from lane) }
{
    if is_right_of(row.thread, row.from) {
        add(text, &["┤"])?;
        fill(text, " ", gap(&row.extent, lane))
    } else {
        add(text, &["├"])?;
        fill(text, "─", width(&row.extent) - 1)
    }
}

fn add_sign(text: &mut String, row: &Row<'_>, shown: Lane, lane: u8) -> Result<(), AllocError>
    ensures { IfOk result (λ _. string_bytes text.new ≡ string_bytes text.old ++ stays_so row.now.extent shown lane) }
{
    add(text, &[shown.sign()])?;
    fill(text, " ", gap(&row.extent, lane))
}

/// What is in a lane at a row, where the lane shows this.
fn add_cell(text: &mut String, row: &Row<'_>, shown: Lane, lane: u8) -> Result<(), AllocError>
    ensures { IfOk result
        (λ _. string_bytes text.new
        ≡ string_bytes text.old
        ++ cell row.now.extent row.now.thread row.now.from row.now.sign.now (map (λ w. w.now) row.now.words.now) shown
        lane) }
{
    match part_at(row, lane) {
        Part::Stays => add_sign(text, row, shown, lane),
        Part::Covered => Ok(()),
        Part::Mark => add_mark(text, row),
        Part::Origin => add_origin(text, row, lane),
        Part::Arrow => fill(text, "─", width(&row.extent)),
    }
}

fn add_cells(text: &mut String, row: &Row<'_>, lanes: &[Lane; IDS]) -> Result<(), AllocError>
    requires { row.now.extent.threads ≤ named_threads }
    ensures { IfOk result
        (λ _. string_bytes text.new
        ≡ string_bytes text.old
        ++ cells row.now.extent row.now.thread row.now.from row.now.sign.now (map (λ w. w.now) row.now.words.now)
        lanes.now) }
{
    for index in 0..row.extent.threads {
        add_cell(text, row, lanes[usize::from(index) + 1], index + 1)?;
    }
    Ok(())
}

/// The words of a line after all lanes, where these have no room for them.
fn add_tail(text: &mut String, names: &Names, row: &Row<'_>) -> Result<(), AllocError>
    ensures { IfOk result
        (λ _. string_bytes text.new
        ≡ string_bytes text.old ++ tail names.now row.now.extent row.now.thread (map (λ w. w.now) row.now.words.now)) }
{
    if is_wide(&row.extent) {
        return Ok(());
    }
    let mut digits = Buffer::new();
    let label = names.thread(row.thread, &mut digits);
    add(text, &["  ", label.head, label.tail, " "])?;
    add(text, row.words)
}

/// The name of a mutex's owner; nothing is said of a lost one beside that it is lost.
fn owner_pieces<'a>(names: &'a Names, digits: &'a mut Buffer, object: Object) -> [&'a str; 3]
    ensures { map (λ p. p.now) result ≡ owner_pieces names.now object }
{
    let mark = if object.inconsistent { "!" } else { "" };
    match object.owner {
        Some(owner) => {
            let label = names.thread(owner.get(), digits);
            [label.head, label.tail, mark]
        }
        None => {
            if object.unusable {
                ["lost", "", ""]
            } else {
                ["-", "", mark]
            }
        }
    }
}

fn add_bands(
    text: &mut String,
    names: &Names,
    extent: &Extent,
    objects: &[Object; 16],
) -> Result<(), AllocError>
    requires { extent.now.bands.count ≤ 16 }
    ensures { IfOk result
        (λ _. string_bytes text.new ≡ string_bytes text.old ++ bands_text names.now extent.now objects.now) }
{
    for band in 0..extent.bands.count {
        let mut digits = Buffer::new();
        add_padded(
            text,
            &owner_pieces(names, &mut digits, objects[band]),
            band_width(extent),
        )?;
    }
    Ok(())
}

/// The number of an event.
fn add_event(text: &mut String, event: u32) -> Result<(), AllocError>
    ensures { IfOk result (λ _. string_bytes text.new ≡ string_bytes text.old ++ event_text event) }
{
    let mut digits = Buffer::new();
    let event = digits.format(event);
    fill(text, " ", room(EVENT - 2, &[event]))?;
    add(text, &[event, "  "])
}

/// The row of a line of this event, after which all lanes and bands show this.
fn add_row_of(
    text: &mut String,
    names: &Names,
    event: u32,
    scene: &Scene,
    row: &Row<'_>,
) -> Result<(), AllocError>
    requires few { row.now.extent.threads ≤ named_threads }
    requires narrow { row.now.extent.bands.count ≤ 16 }
    ensures { IfOk result
        (λ _. string_bytes text.new
        ≡ string_bytes text.old
        ++ row_of names.now row.now.extent scene.now event row.now.thread row.now.from row.now.sign.now
        (map (λ w. w.now) row.now.words.now)) }
{
    add_event(text, event)?;
    add_bands(text, names, &row.extent, &scene.objects)?;
    add_cells(text, row, &scene.lanes)?;
    add_tail(text, names, row)?;
    add(text, &["\n"])
}

/// The row of a line, after which all lanes and bands show this.
pub fn add_row(
    text: &mut String,
    sheet: &Sheet<'_>,
    scene: &Scene,
    line: &Line,
) -> Result<(), AllocError>
    requires few { sheet.now.extent.threads ≤ named_threads }
    requires narrow { sheet.now.extent.bands.count ≤ 16 }
    ensures { IfOk result
        (λ _. string_bytes text.new
        ≡ string_bytes text.old ++ row_text sheet.now.names.now sheet.now.extent scene.now line.now) }
{
    let thread = line.fact.thread();
    let from = arrow_from(scene.actor, &line.fact);
    let shown = scene.lanes[usize::from(thread.get())];
    let mut firsts = Buffer::new();
    let mut seconds = Buffer::new();
    let words = words(sheet.names, shown, &line.fact, &mut firsts, &mut seconds);
    let row = Row {
        extent: sheet.extent,
        thread: thread.get(),
        from,
        sign: sign(&line.fact, from),
        words: &words,
    };
    add_row_of(text, sheet.names, line.event, scene, &row)
}

/// The last row: how many events there were.
pub fn add_end(text: &mut String, last: u32) -> Result<(), AllocError>
    ensures { IfOk result (λ _. string_bytes text.new ≡ string_bytes text.old ++ end_text last) }
{
    add_event(text, last)?;
    add(text, &["end\n"])
}
