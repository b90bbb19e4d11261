//! The parts of an SVG picture: what lanes and bands show from line to line, and over that the lines' marks.

ghost use Rattle.std.specs.Prelude.{◌≡◌, ◌++◌, ◌≤◌, ◌<◌, decimal, length, map, None, option_map, string_bytes, IfOk};
ghost use Rattle.lockword.specs.Threads.{named_threads};
ghost use Rattle.facts.specs.Facts.{decision_of};
ghost use Rattle.picture.specs.Svg.{band_part, band_rests, begins_at, end_text, ends_lane, first_since, foot_text};
ghost use Rattle.picture.specs.Svg.{lane_line, lane_part, lane_rests, line_marks, line_parts, mark_of, marks_of};
ghost use Rattle.picture.specs.Svg.{marked_by, marked_of, misfit_at, misfit_mark, misfit_row, note_end, note_of};
ghost use Rattle.picture.specs.Svg.{rests, since_band, since_lane, svg_band, svg_bands};
ghost use Rattle.picture.specs.Svg.{svg_heads, svg_lane, svg_lanes, svg_open, svg_width};

use crate::bands::{Bands, Extent, IDS, Sheet};
use crate::pieces::add;
use crate::places::{band_middle, lane_x, row_y, words_room};
use crate::rows::{arrow_from, is_right_of};
use crate::scene::Scene;
use crate::shapes::{add_arrow, add_band, add_lane, add_mark, add_name, add_number, add_words};
use crate::style::style;
use crate::words::words;
use facts::{Fact, Line};
use itoa::Buffer;
use posixmutex::Decision;
use std::alloc::AllocError;

/// Where the names of bands and lanes stand.
const NAME_Y: u128 = 20;

/// A line of a trace that is marked as one that doesn't fit, and what is said of it below the picture.
#[derive(Clone, Copy, Debug, PartialEq, Eq)]
pub struct Misfit<'a> {
    /// The line's place; line 1 is the trace's head.
    pub line: usize,
    /// What is said, in which nothing is markup. If this is none, which line it is.
    pub note: Option<&'a str>,
}

/// Since which line, from 1, each lane and each band shows what it shows; 0 before the first line.
#[derive(Clone, Copy)]
pub struct Since {
    /// Indexed by the threads' ids.
    pub lanes: [usize; IDS],
    /// From left to right.
    pub bands: [usize; 16],
}

/// Whether a line ends what its lane showed.
fn ends_lane(fact: &Fact) -> bool
    ensures { result ≡ ends_lane fact.now }
{
    match *fact {
        Fact::Point(_) | Fact::Death(..) | Fact::Move(..) => false,
        Fact::Begin(..)
        | Fact::Sleep(..)
        | Fact::Wake(_)
        | Fact::Return(..)
        | Fact::Kill(_)
        | Fact::Reap(_)
        | Fact::Renew(_) => true,
    }
}

fn since_lane(lanes: [usize; IDS], fact: &Fact, line: usize) -> [usize; IDS]
    ensures { result ≡ since_lane lanes fact.now line }
{
    let mut lanes = lanes;
    if ends_lane(fact) {
        lanes[usize::from(fact.thread().get())] = line;
    }
    lanes
}

fn since_band(
    shown: &Bands,
    bands: [usize; 16],
    decision: Option<Decision>,
    line: usize,
) -> [usize; 16]
    requires { shown.now.count ≤ 16 }
    ensures { result ≡ since_band shown.now bands decision line }
{
    let mut bands = bands;
    if let Some(decision) = decision {
        if let Some(band) = shown.place(decision.mutex) {
            bands[band] = line;
        }
    }
    bands
}

impl Since {
    /// Before the first line.
    pub fn new() -> Since
        ensures { result ≡ first_since }
    {
        Since {
            lanes: [0; IDS],
            bands: [0; 16],
        }
    }

    /// After this line.
    pub fn behind(self, shown: &Bands, fact: &Fact, line: usize) -> Since
        requires { shown.now.count ≤ 16 }
        ensures { result ≡ begins_at shown.now self fact.now line }
    {
        Since {
            lanes: since_lane(self.lanes, fact, line),
            bands: since_band(shown, self.bands, fact.decision(), line),
        }
    }
}

fn add_lane_part(
    text: &mut String,
    extent: &Extent,
    scene: &Scene,
    since: &Since,
    fact: &Fact,
    line: usize,
) -> Result<(), AllocError>
    requires { extent.now.bands.count ≤ 16 }
    ensures { IfOk result
        (λ _. string_bytes text.new ≡ string_bytes text.old ++ lane_part extent.now scene.now since.now fact.now line) }
{
    if !ends_lane(fact) {
        return Ok(());
    }
    let thread = fact.thread().get();
    let at = usize::from(thread);
    add_lane(
        text,
        scene.lanes[at],
        lane_x(extent, thread),
        since.lanes[at],
        line,
    )
}

fn add_band_part(
    text: &mut String,
    sheet: &Sheet<'_>,
    scene: &Scene,
    since: &Since,
    decision: Option<Decision>,
    line: usize,
) -> Result<(), AllocError>
    requires { sheet.now.extent.bands.count ≤ 16 }
    ensures { IfOk result
        (λ _. string_bytes text.new
        ≡ string_bytes text.old ++ band_part sheet.now.names.now sheet.now.extent scene.now since.now decision line) }
{
    let Some(decision) = decision else {
        return Ok(());
    };
    match sheet.extent.bands.place(decision.mutex) {
        Some(band) => add_band(
            text,
            sheet,
            scene.objects[band],
            band,
            since.bands[band],
            line,
        ),
        None => Ok(()),
    }
}

/// What this line ends: what its lane showed, and what its mutex's band showed.
pub fn add_parts(
    text: &mut String,
    sheet: &Sheet<'_>,
    scene: &Scene,
    since: &Since,
    fact: &Fact,
    line: usize,
) -> Result<(), AllocError>
    requires { sheet.now.extent.bands.count ≤ 16 }
    ensures { IfOk result
        (λ _. string_bytes text.new
        ≡ string_bytes text.old ++ line_parts sheet.now.names.now sheet.now.extent scene.now since.now fact.now line) }
{
    add_lane_part(text, &sheet.extent, scene, since, fact, line)?;
    add_band_part(text, sheet, scene, since, fact.decision(), line)
}

fn add_lane_rests(
    text: &mut String,
    extent: &Extent,
    scene: &Scene,
    since: &Since,
    line: usize,
) -> Result<(), AllocError>
    requires few { extent.now.threads ≤ named_threads }
    requires narrow { extent.now.bands.count ≤ 16 }
    ensures { IfOk result
        (λ _. string_bytes text.new
        ≡ string_bytes text.old ++ lane_rests extent.now scene.now.lanes since.now.lanes line) }
{
    for index in 0..extent.threads {
        let at = usize::from(index) + 1;
        add_lane(
            text,
            scene.lanes[at],
            lane_x(extent, index + 1),
            since.lanes[at],
            line,
        )?;
    }
    Ok(())
}

fn add_band_rests(
    text: &mut String,
    sheet: &Sheet<'_>,
    scene: &Scene,
    since: &Since,
    line: usize,
) -> Result<(), AllocError>
    requires { sheet.now.extent.bands.count ≤ 16 }
    ensures { IfOk result
        (λ _. string_bytes text.new
        ≡ string_bytes text.old
        ++ band_rests sheet.now.names.now sheet.now.extent scene.now.objects since.now.bands line) }
{
    for band in 0..sheet.extent.bands.count {
        add_band(
            text,
            sheet,
            scene.objects[band],
            band,
            since.bands[band],
            line,
        )?;
    }
    Ok(())
}

/// What lanes and bands show up to the end, at this line.
pub fn add_rests(
    text: &mut String,
    sheet: &Sheet<'_>,
    scene: &Scene,
    since: &Since,
    line: usize,
) -> Result<(), AllocError>
    requires few { sheet.now.extent.threads ≤ named_threads }
    requires narrow { sheet.now.extent.bands.count ≤ 16 }
    ensures { IfOk result
        (λ _. string_bytes text.new
        ≡ string_bytes text.old ++ rests sheet.now.names.now sheet.now.extent scene.now since.now line) }
{
    add_lane_rests(text, &sheet.extent, scene, since, line)?;
    add_band_rests(text, sheet, scene, since, line)
}

/// A line's mark, or the arrow to its lane.
fn add_mark_of(
    text: &mut String,
    extent: &Extent,
    fact: &Fact,
    from: Option<u8>,
    line: usize,
) -> Result<(), AllocError>
    requires { extent.now.bands.count ≤ 16 }
    ensures { IfOk result
        (λ _. string_bytes text.new ≡ string_bytes text.old ++ mark_of extent.now fact.now from line) }
{
    let middle = lane_x(extent, fact.thread().get());
    match from {
        Some(actor) => add_arrow(text, lane_x(extent, actor), middle, line),
        None => add_mark(text, fact, middle, line),
    }
}

/// The number of a line's event, its mark in the lane of its thread, and these words.
fn add_marks(
    text: &mut String,
    extent: &Extent,
    fact: &Fact,
    event: u32,
    from: Option<u8>,
    words: &[&str],
    number: usize,
) -> Result<(), AllocError>
    requires { extent.now.bands.count ≤ 16 }
    ensures { IfOk result
        (λ _. string_bytes text.new
        ≡ string_bytes text.old ++ marks_of extent.now fact.now event from (map (λ w. w.now) words.now) number) }
{
    let thread = fact.thread().get();
    let middle = lane_x(extent, thread);
    add_number(text, event, number)?;
    add_mark_of(text, extent, fact, from, number)?;
    add_words(text, words, middle, number, is_right_of(thread, from))
}

/// A line: the number of its event, its mark in the lane of its thread, and its words.
pub fn add_line(
    text: &mut String,
    sheet: &Sheet<'_>,
    scene: &Scene,
    line: &Line,
    number: usize,
) -> Result<(), AllocError>
    requires { sheet.now.extent.bands.count ≤ 16 }
    ensures { IfOk result
        (λ _. string_bytes text.new
        ≡ string_bytes text.old ++ line_marks sheet.now.names.now sheet.now.extent scene.now line.now number) }
{
    let thread = line.fact.thread().get();
    let from = arrow_from(scene.actor, &line.fact);
    let shown = scene.lanes[usize::from(thread)];
    let mut firsts = Buffer::new();
    let mut seconds = Buffer::new();
    let words = words(sheet.names, shown, &line.fact, &mut firsts, &mut seconds);
    add_marks(
        text,
        &sheet.extent,
        &line.fact,
        line.event,
        from,
        &words,
        number,
    )
}

/// The name of a band.
fn add_band_name(text: &mut String, sheet: &Sheet<'_>, band: usize) -> Result<(), AllocError>
    requires { band < 16 }
    ensures { IfOk result
        (λ _. string_bytes text.new ≡ string_bytes text.old ++ svg_band sheet.now.names.now sheet.now.extent band) }
{
    let mut digits = Buffer::new();
    let label = sheet
        .names
        .mutex(sheet.extent.bands.mutexes[band], &mut digits);
    add_name(text, label, band_middle(&sheet.extent, band), NAME_Y)?;
    add(text, &["\n"])
}

fn add_band_names(text: &mut String, sheet: &Sheet<'_>) -> Result<(), AllocError>
    requires { sheet.now.extent.bands.count ≤ 16 }
    ensures { IfOk result
        (λ _. string_bytes text.new ≡ string_bytes text.old ++ svg_bands sheet.now.names.now sheet.now.extent) }
{
    for band in 0..sheet.extent.bands.count {
        add_band_name(text, sheet, band)?;
    }
    Ok(())
}

/// The line that stands for a lane's time.
fn add_lane_line(text: &mut String, middle: u32, bottom: u128) -> Result<(), AllocError>
    ensures { IfOk result
        (λ _. string_bytes text.new ≡ string_bytes text.old ++ lane_line (decimal middle) (decimal bottom)) }
{
    let mut middles = Buffer::new();
    let mut bottoms = Buffer::new();
    let middle = middles.format(middle);
    let low = bottoms.format(bottom);
    add(
        text,
        &["<path class=\"l\" d=\"M", middle, " 28V", low, "\"/>\n"],
    )
}

/// The name of a lane, and the line that stands for its time.
fn add_lane_name(
    text: &mut String,
    sheet: &Sheet<'_>,
    bottom: u128,
    lane: u8,
) -> Result<(), AllocError>
    requires { sheet.now.extent.bands.count ≤ 16 }
    ensures { IfOk result
        (λ _. string_bytes text.new
        ≡ string_bytes text.old ++ svg_lane sheet.now.names.now sheet.now.extent bottom lane) }
{
    let mut digits = Buffer::new();
    let middle = lane_x(&sheet.extent, lane);
    add_name(text, sheet.names.thread(lane, &mut digits), middle, NAME_Y)?;
    add_lane_line(text, middle, bottom)
}

fn add_lane_names(text: &mut String, sheet: &Sheet<'_>, bottom: u128) -> Result<(), AllocError>
    requires few { sheet.now.extent.threads ≤ named_threads }
    requires narrow { sheet.now.extent.bands.count ≤ 16 }
    ensures { IfOk result
        (λ _. string_bytes text.new ≡ string_bytes text.old ++ svg_lanes sheet.now.names.now sheet.now.extent bottom) }
{
    for index in 0..sheet.extent.threads {
        add_lane_name(text, sheet, bottom, index + 1)?;
    }
    Ok(())
}

/// How many bytes the words have that say which line is marked.
fn line_note_length(line: usize) -> usize
    ensures { result ≡ length (note_of line None) }
{
    let mut digits = Buffer::new();
    digits.format(line).len() + 33
}

/// How many bytes what is said of a marked line has.
fn note_length(line: usize, note: Option<&str>) -> usize
    ensures { result ≡ length (note_of line (option_map (λ s. s.now) note.entry)) }
{
    match note {
        Some(note) => note.len(),
        None => line_note_length(line),
    }
}

/// How far to the right what is said of a marked line reaches, of 8 pixels for a letter; 0 if no line is marked.
fn note_end(misfit: Option<Misfit<'_>>) -> u128
    ensures { result ≡ note_end (marked_of misfit.entry) }
{
    match misfit {
        Some(misfit) => 54 + 8 * note_length(misfit.line, misfit.note) as u128,
        None => 0,
    }
}

/// How wide the picture is.
fn svg_width(extent: &Extent, misfit: Option<Misfit<'_>>) -> u128
    requires { extent.now.bands.count ≤ 16 }
    ensures { result ≡ svg_width extent.now (marked_of misfit.entry) }
{
    let lanes = lane_x(extent, extent.threads) + words_room(extent);
    u128::from(lanes).max(note_end(misfit))
}

/// The size of the picture and the style of its shapes.
fn add_open(
    text: &mut String,
    extent: &Extent,
    misfit: Option<Misfit<'_>>,
    lines: usize,
) -> Result<(), AllocError>
    requires { extent.now.bands.count ≤ 16 }
    ensures { IfOk result
        (λ _. string_bytes text.new
        ≡ string_bytes text.old ++ svg_open extent.now (marked_of misfit.entry) lines) }
{
    let mut widths = Buffer::new();
    let mut heights = Buffer::new();
    let width = widths.format(svg_width(extent, misfit));
    let height = heights.format(row_y(lines) + 36);
    add(
        text,
        &[
            "<svg xmlns=\"http://www.w3.org/2000/svg\" width=\"",
            width,
            "\" height=\"",
            height,
            "\" viewBox=\"0 0 ",
            width,
            " ",
            height,
            "\">\n",
            style(),
        ],
    )
}

/// What comes before all lines, of which there are that many, and of which this one is marked, if one is.
pub fn add_svg_heads(
    text: &mut String,
    sheet: &Sheet<'_>,
    misfit: Option<Misfit<'_>>,
    lines: usize,
) -> Result<(), AllocError>
    requires few { sheet.now.extent.threads ≤ named_threads }
    requires narrow { sheet.now.extent.bands.count ≤ 16 }
    ensures { IfOk result
        (λ _. string_bytes text.new
        ≡ string_bytes text.old
        ++ svg_heads sheet.now.names.now sheet.now.extent (marked_of misfit.entry) lines) }
{
    add_open(text, &sheet.extent, misfit, lines)?;
    add_band_names(text, sheet)?;
    add_lane_names(text, sheet, row_y(lines) + 18)
}

/// The number of events, and the last tag.
fn add_foot(text: &mut String, last: u32, lines: usize) -> Result<(), AllocError>
    ensures { IfOk result (λ _. string_bytes text.new ≡ string_bytes text.old ++ foot_text last lines) }
{
    let mut rows = Buffer::new();
    let mut lasts = Buffer::new();
    let row = rows.format(row_y(lines) + 22);
    let last = lasts.format(last);
    add(
        text,
        &[
            "<text class=\"n\" x=\"48\" y=\"",
            row,
            "\">",
            last,
            "</text><text x=\"54\" y=\"",
            row,
            "\">end</text>\n</svg>\n",
        ],
    )
}

/// The row of a line that doesn't fit, and below the end where something is said of it.
fn add_misfit_row(text: &mut String, line: usize, lines: usize) -> Result<(), AllocError>
    ensures { IfOk result (λ _. string_bytes text.new ≡ string_bytes text.old ++ misfit_row line lines) }
{
    let mut tops = Buffer::new();
    let mut rows = Buffer::new();
    let top = tops.format(row_y(line.saturating_sub(1)) - 9);
    let row = rows.format(row_y(lines) + 33);
    add(
        text,
        &[
            "<rect class=\"m\" y=\"",
            top,
            "\" width=\"100%\" height=\"18\" fill=\"#c00\" fill-opacity=\".2\"/>\n<text class=\"m\" x=\"54\" y=\"",
            row,
            "\" fill=\"#c00\">",
        ],
    )
}

/// What is said of a line that doesn't fit: this, or which line it is.
fn add_note(text: &mut String, line: usize, note: Option<&str>) -> Result<(), AllocError>
    ensures { IfOk result
        (λ _. string_bytes text.new ≡ string_bytes text.old ++ note_of line (option_map (λ s. s.now) note.entry)) }
{
    let mut numbers = Buffer::new();
    let number = numbers.format(line);
    match note {
        Some(note) => Ok(text.push_str(note)?),
        None => add(text, &["line ", number, " doesn't fit those before it"]),
    }
}

/// The row of a line that doesn't fit, and below the end what is said of it.
fn add_misfit_at(text: &mut String, misfit: Misfit<'_>, lines: usize) -> Result<(), AllocError>
    ensures { IfOk result
        (λ _. string_bytes text.new ≡ string_bytes text.old ++ misfit_at (marked_by misfit.entry) lines) }
{
    add_misfit_row(text, misfit.line, lines)?;
    add_note(text, misfit.line, misfit.note)?;
    Ok(text.push_str("</text>\n")?)
}

fn add_misfit(text: &mut String, misfit: Option<Misfit<'_>>, lines: usize) -> Result<(), AllocError>
    ensures { IfOk result
        (λ _. string_bytes text.new ≡ string_bytes text.old ++ misfit_mark (marked_of misfit.entry) lines) }
{
    match misfit {
        Some(misfit) => add_misfit_at(text, misfit, lines),
        None => Ok(()),
    }
}

/// What comes after all lines: which of them doesn't fit, and the number of events.
pub fn add_end(
    text: &mut String,
    misfit: Option<Misfit<'_>>,
    last: u32,
    lines: usize,
) -> Result<(), AllocError>
    ensures { IfOk result
        (λ _. string_bytes text.new ≡ string_bytes text.old ++ end_text (marked_of misfit.entry) last lines) }
{
    add_misfit(text, misfit, lines)?;
    add_foot(text, last, lines)
}
