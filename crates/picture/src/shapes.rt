//! The shapes of an SVG picture.

ghost use Rattle.std.specs.Prelude.{◌≡◌, ◌++◌, ◌≤◌, ◌<◌, ◌^◌, map, option_map, string_bytes, IfOk};
ghost use Rattle.picture.specs.Shapes.{arrow_shape, band_class, band_shape, lane_class, lane_shape};
ghost use Rattle.picture.specs.Shapes.{mark_class, mark_path, mark_shape, name_label, number_label};
ghost use Rattle.picture.specs.Shapes.{owner_label, owner_of, rectangle, stretch, words_label, words_y};

use crate::bands::Sheet;
use crate::lane::Lane;
use crate::names::{Label, Names};
use crate::pieces::add;
use crate::places::{NUMBER_X, band_middle, band_wide, band_x, row_y, words_x};
use facts::Fact;
use itoa::Buffer;
use lockword::Tid;
use posixmutex::Object;
use std::alloc::AllocError;

/// A rectangle of a class, from one row to another one.
fn add_rectangle(
    text: &mut String,
    class: &str,
    left: u32,
    top: u128,
    width: u32,
    height: u128,
) -> Result<(), AllocError>
    ensures { IfOk result
        (λ _. string_bytes text.new ≡ string_bytes text.old ++ rectangle class.now left top width height) }
{
    let mut lefts = Buffer::new();
    let mut tops = Buffer::new();
    let mut widths = Buffer::new();
    let mut heights = Buffer::new();
    let left = lefts.format(left);
    let top = tops.format(top);
    let width = widths.format(width);
    let height = heights.format(height);
    add(
        text,
        &[
            "<rect class=\"",
            class,
            "\" x=\"",
            left,
            "\" y=\"",
            top,
            "\" width=\"",
            width,
            "\" height=\"",
            height,
            "\"/>\n",
        ],
    )
}

/// The class of what a lane shows, where that is drawn.
fn lane_class(lane: Lane) -> Option<&'static str>
    ensures { option_map (λ c. c.now) result ≡ lane_class lane }
{
    match lane {
        Lane::Calling(_) => Some("c"),
        Lane::Asleep(_) => Some("s"),
        Lane::Dying => Some("d"),
        Lane::Idle | Lane::Reaped => None,
    }
}

/// What a lane showed from one line to another one.
pub fn add_lane(
    text: &mut String,
    lane: Lane,
    middle: u32,
    from: usize,
    to: usize,
) -> Result<(), AllocError>
    requires { 5 ≤ middle }
    ensures { IfOk result (λ _. string_bytes text.new ≡ string_bytes text.old ++ lane_shape lane middle from to) }
{
    match lane_class(lane) {
        Some(class) => add_rectangle(
            text,
            class,
            middle - 5,
            row_y(from),
            10,
            row_y(to).saturating_sub(row_y(from)),
        ),
        None => Ok(()),
    }
}

/// The class of what a band shows, where that is drawn.
fn band_class(object: Object) -> Option<&'static str>
    ensures { option_map (λ c. c.now) result ≡ band_class object }
{
    match object.owner {
        Some(_) => {
            if object.inconsistent {
                Some("i")
            } else {
                Some("o")
            }
        }
        None => {
            if object.unusable {
                Some("u")
            } else if object.inconsistent {
                Some("w")
            } else {
                None
            }
        }
    }
}

/// The name of a thing, its middle here.
pub fn add_name(text: &mut String, label: Label<'_>, middle: u32, y: u128) -> Result<(), AllocError>
    ensures { IfOk result
        (λ _. string_bytes text.new
        ≡ string_bytes text.old ++ name_label label.entry.head.now label.entry.tail.now middle y) }
{
    let mut middles = Buffer::new();
    let mut rows = Buffer::new();
    let middle = middles.format(middle);
    let row = rows.format(y);
    add(
        text,
        &["<text class=\"h\" x=\"", middle, "\" y=\"", row, "\">"],
    )?;
    add(text, &[label.head, label.tail, "</text>"])
}

/// The name of an owner, at the head of what its band shows.
fn add_owner(
    text: &mut String,
    names: &Names,
    owner: u8,
    middle: u32,
    top: u128,
) -> Result<(), AllocError>
    requires { top < 2 ^ 70 }
    ensures { IfOk result
        (λ _. string_bytes text.new ≡ string_bytes text.old ++ owner_label names.now owner middle top) }
{
    let mut digits = Buffer::new();
    add_name(text, names.thread(owner, &mut digits), middle, top + 4)?;
    add(text, &["\n"])
}

/// The name of an owner, where there is one.
fn add_owner_of(
    text: &mut String,
    names: &Names,
    owner: Option<Tid>,
    middle: u32,
    top: u128,
) -> Result<(), AllocError>
    requires { top < 2 ^ 70 }
    ensures { IfOk result (λ _. string_bytes text.new ≡ string_bytes text.old ++ owner_of names.now owner middle top) }
{
    match owner {
        Some(owner) => add_owner(text, names, owner.get(), middle, top),
        None => Ok(()),
    }
}

/// A part of a band, from one line to another one.
fn add_stretch(
    text: &mut String,
    sheet: &Sheet<'_>,
    class: &str,
    owner: Option<Tid>,
    band: usize,
    from: usize,
    to: usize,
) -> Result<(), AllocError>
    requires { band ≤ 16 }
    ensures { IfOk result
        (λ _. string_bytes text.new
        ≡ string_bytes text.old ++ stretch sheet.now.names.now sheet.now.extent class.now owner band from to) }
{
    let top = row_y(from);
    let height = row_y(to).saturating_sub(top);
    add_rectangle(
        text,
        class,
        band_x(&sheet.extent, band),
        top - 9,
        band_wide(&sheet.extent),
        height,
    )?;
    add_owner_of(
        text,
        sheet.names,
        owner,
        band_middle(&sheet.extent, band),
        top,
    )
}

/// What a band showed from one line to another one.
pub fn add_band(
    text: &mut String,
    sheet: &Sheet<'_>,
    object: Object,
    band: usize,
    from: usize,
    to: usize,
) -> Result<(), AllocError>
    requires { band ≤ 16 }
    ensures { IfOk result
        (λ _. string_bytes text.new
        ≡ string_bytes text.old ++ band_shape sheet.now.names.now sheet.now.extent object band from to) }
{
    let owner = object.owner;
    match band_class(object) {
        Some(class) => add_stretch(text, sheet, class, owner, band, from, to),
        None => Ok(()),
    }
}

/// The class of a line's mark.
fn mark_class(fact: &Fact) -> &'static str
    ensures { result.now ≡ mark_class fact.now }
{
    match *fact {
        Fact::Begin(..) | Fact::Return(..) | Fact::Sleep(..) | Fact::Renew(_) => "b",
        Fact::Point(_) => "p",
        Fact::Death(..) | Fact::Kill(_) | Fact::Reap(_) => "k",
        Fact::Wake(_) | Fact::Move(..) => "q",
    }
}

/// The path of a line's mark, from the middle of its lane.
fn mark_path(fact: &Fact) -> &'static str
    ensures { result.now ≡ mark_path fact.now }
{
    match *fact {
        Fact::Begin(..) | Fact::Return(..) => "m-7 0h14",
        Fact::Point(_) | Fact::Wake(_) | Fact::Move(..) => "m-4 0a4 4 0 1 0 8 0a4 4 0 1 0-8 0",
        Fact::Death(..) => "m0-6v7m0 3v2",
        Fact::Sleep(..) => "m-4-4h8l-8 8h8",
        Fact::Kill(_) => "m-5-5l10 10m0-10l-10 10",
        Fact::Reap(_) => "m0-6v12m-4-8h8",
        Fact::Renew(_) => "m0-6v12m-5-9l10 6m0-6l-10 6",
    }
}

/// The mark of a line in the middle of its lane.
pub fn add_mark(text: &mut String, fact: &Fact, middle: u32, line: usize) -> Result<(), AllocError>
    ensures { IfOk result (λ _. string_bytes text.new ≡ string_bytes text.old ++ mark_shape fact.now middle line) }
{
    let mut middles = Buffer::new();
    let mut rows = Buffer::new();
    let class = mark_class(fact);
    let middle = middles.format(middle);
    let row = rows.format(row_y(line));
    let path = mark_path(fact);
    add(
        text,
        &[
            "<path class=\"",
            class,
            "\" d=\"M",
            middle,
            " ",
            row,
            path,
            "\"/>",
        ],
    )
}

/// An arrow from the middle of a lane to that of another one.
pub fn add_arrow(text: &mut String, from: u32, to: u32, line: usize) -> Result<(), AllocError>
    requires low { 6 ≤ to }
    requires high { to < 2 ^ 20 }
    ensures { IfOk result (λ _. string_bytes text.new ≡ string_bytes text.old ++ arrow_shape from to line) }
{
    let mut froms = Buffer::new();
    let mut rows = Buffer::new();
    let mut tos = Buffer::new();
    let end = if from < to { to - 6 } else { to + 6 };
    let from = froms.format(from);
    let row = rows.format(row_y(line));
    let to = tos.format(end);
    add(
        text,
        &["<path class=\"a\" d=\"M", from, " ", row, "H", to, "\"/>"],
    )
}

/// The number of an event, at the left end of a line's row.
pub fn add_number(text: &mut String, event: u32, line: usize) -> Result<(), AllocError>
    ensures { IfOk result (λ _. string_bytes text.new ≡ string_bytes text.old ++ number_label event line) }
{
    let mut ends = Buffer::new();
    let mut rows = Buffer::new();
    let mut events = Buffer::new();
    let end = ends.format(NUMBER_X);
    let row = rows.format(row_y(line) + 4);
    let event = events.format(event);
    add(
        text,
        &[
            "<text class=\"n\" x=\"",
            end,
            "\" y=\"",
            row,
            "\">",
            event,
            "</text>",
        ],
    )
}

/// Where the words of a line stand.
fn words_y(line: usize, is_above: bool) -> u128
    ensures { result ≡ words_y line is_above }
{
    let middle = row_y(line);
    if is_above { middle - 3 } else { middle + 4 }
}

/// The words of a line, beside its mark; above the arrow, where that comes from the right.
pub fn add_words(
    text: &mut String,
    words: &[&str],
    middle: u32,
    line: usize,
    is_above: bool,
) -> Result<(), AllocError>
    requires { middle < 2 ^ 20 }
    ensures { IfOk result
        (λ _. string_bytes text.new
        ≡ string_bytes text.old ++ words_label (map (λ w. w.now) words.now) middle line is_above) }
{
    let mut lefts = Buffer::new();
    let mut rows = Buffer::new();
    let left = lefts.format(words_x(middle));
    let row = rows.format(words_y(line, is_above));
    add(
        text,
        &["<text class=\"t\" x=\"", left, "\" y=\"", row, "\">"],
    )?;
    add(text, words)?;
    add(text, &["</text>\n"])
}
