//! An SVG picture, part by part.

ghost use Rattle.std.specs.Prelude.{◌≤◌};
ghost use Rattle.lockword.specs.Threads.{named_threads};
ghost use Rattle.streams.specs.Leaves.{Leaves};
ghost use Rattle.picture.specs.Scenes.{first_scene};
ghost use Rattle.picture.specs.Svg.{end_text, first_since, line_marks, line_parts};
ghost use Rattle.picture.specs.Svg.{marked_of, marks, parts, rests, svg_drawn, svg_heads, svg_marked};

use crate::bands::{BANDS, Extent, Sheet};
use crate::drawing::{Unwritten, write_text};
use crate::names::Names;
use crate::scene::Scene;
use crate::svg::{Misfit, Since, add_end, add_line, add_parts, add_rests, add_svg_heads};
use facts::{Fact, Line};
use std::alloc::Global;
use std::io::Write;

/// Room for the longest part, the heads of all lanes and bands, which is asked for before anything is written.
const PART: usize = 16_384;

fn write_svg_heads<W: Write>(
    part: &mut String,
    sheet: &Sheet<'_>,
    misfit: Option<Misfit<'_>>,
    lines: usize,
    out: &mut W,
) -> Result<(), Unwritten>
    requires few { sheet.now.extent.threads ≤ named_threads }
    requires narrow { sheet.now.extent.bands.count ≤ 16 }
    ensures { Leaves (W.contents out.old) (W.contents out.new) result
        (svg_heads sheet.now.names.now sheet.now.extent (marked_of misfit.entry) lines) }
{
    part.clear();
    add_svg_heads(part, sheet, misfit, lines)?;
    write_text(part, out)
}

fn write_line_parts<W: Write>(
    part: &mut String,
    sheet: &Sheet<'_>,
    scene: &Scene,
    since: &Since,
    fact: &Fact,
    line: usize,
    out: &mut W,
) -> Result<(), Unwritten>
    requires { sheet.now.extent.bands.count ≤ 16 }
    ensures { Leaves (W.contents out.old) (W.contents out.new) result
        (line_parts sheet.now.names.now sheet.now.extent scene.now since.now fact.now line) }
{
    part.clear();
    add_parts(part, sheet, scene, since, fact, line)?;
    write_text(part, out)
}

fn write_rests<W: Write>(
    part: &mut String,
    sheet: &Sheet<'_>,
    scene: &Scene,
    since: &Since,
    line: usize,
    out: &mut W,
) -> Result<(), Unwritten>
    requires few { sheet.now.extent.threads ≤ named_threads }
    requires narrow { sheet.now.extent.bands.count ≤ 16 }
    ensures { Leaves (W.contents out.old) (W.contents out.new) result
        (rests sheet.now.names.now sheet.now.extent scene.now since.now line) }
{
    part.clear();
    add_rests(part, sheet, scene, since, line)?;
    write_text(part, out)
}

/// What lanes and bands show from line to line.
fn write_parts<W: Write>(
    part: &mut String,
    sheet: &Sheet<'_>,
    lines: &[Line],
    out: &mut W,
) -> Result<(), Unwritten>
    requires few { sheet.now.extent.threads ≤ named_threads }
    requires narrow { sheet.now.extent.bands.count ≤ 16 }
    ensures { Leaves (W.contents out.old) (W.contents out.new) result
        (parts sheet.now.names.now sheet.now.extent first_scene first_since 1 lines.now) }
{
    let mut scene = Scene::new();
    let mut since = Since::new();
    for index in 0..lines.len() {
        let line = &lines[index];
        write_line_parts(part, sheet, &scene, &since, &line.fact, index + 1, out)?;
        scene = scene.behind(&sheet.extent.bands, line, &lines[index..]);
        since = since.behind(&sheet.extent.bands, &line.fact, index + 1);
    }
    write_rests(part, sheet, &scene, &since, lines.len() + 1, out)
}

fn write_line<W: Write>(
    part: &mut String,
    sheet: &Sheet<'_>,
    scene: &Scene,
    line: &Line,
    number: usize,
    out: &mut W,
) -> Result<(), Unwritten>
    requires { sheet.now.extent.bands.count ≤ 16 }
    ensures { Leaves (W.contents out.old) (W.contents out.new) result
        (line_marks sheet.now.names.now sheet.now.extent scene.now line.now number) }
{
    part.clear();
    add_line(part, sheet, scene, line, number)?;
    write_text(part, out)
}

/// The marks of all lines.
fn write_marks<W: Write>(
    part: &mut String,
    sheet: &Sheet<'_>,
    lines: &[Line],
    out: &mut W,
) -> Result<(), Unwritten>
    requires { sheet.now.extent.bands.count ≤ 16 }
    ensures { Leaves (W.contents out.old) (W.contents out.new) result
        (marks sheet.now.names.now sheet.now.extent first_scene 1 lines.now) }
{
    let mut scene = Scene::new();
    for index in 0..lines.len() {
        let line = &lines[index];
        scene = scene.behind(&sheet.extent.bands, line, &lines[index..]);
        write_line(part, sheet, &scene, line, index + 1, out)?;
    }
    Ok(())
}

fn write_end<W: Write>(
    part: &mut String,
    misfit: Option<Misfit<'_>>,
    last: u32,
    lines: usize,
    out: &mut W,
) -> Result<(), Unwritten>
    ensures { Leaves (W.contents out.old) (W.contents out.new) result (end_text (marked_of misfit.entry) last lines) }
{
    part.clear();
    add_end(part, misfit, last, lines)?;
    write_text(part, out)
}

/// Draws a trace with `threads` threads and `mutexes` mutexes as SVG, time running downwards: each of its lines once, in the order of
/// the trace, with the number of its event, and its mark in the lane of its thread. Things are called by these names.
/// `last` is the number of events. Line `misfit` of the trace, if one is named, is marked as one that doesn't fit, and
/// what is said of it comes last, for which the picture is wide enough. At an error a beginning of the picture is written.
pub fn draw_svg_marked<W: Write>(
    alloc: Global,
    names: &Names,
    threads: u8,
    mutexes: u16,
    lines: &[Line],
    last: u32,
    misfit: Option<Misfit<'_>>,
    out: &mut W,
) -> Result<(), Unwritten>
    ensures { Leaves (W.contents out.old) (W.contents out.new) result
        (svg_marked names.now threads mutexes lines.now last (marked_of misfit.entry)) }
{
    let mut part = String::with_capacity(alloc, PART)?;
    let extent = Extent::of(BANDS, names, threads, mutexes, lines);
    let count = lines.len();
    let sheet = Sheet { names, extent };
    write_svg_heads(&mut part, &sheet, misfit, count, out)?;
    write_parts(&mut part, &sheet, lines, out)?;
    write_marks(&mut part, &sheet, lines, out)?;
    write_end(&mut part, misfit, last, count, out)
}

/// Draws a trace as SVG with no line marked: see [`draw_svg_marked`].
pub fn draw_svg<W: Write>(
    alloc: Global,
    names: &Names,
    threads: u8,
    mutexes: u16,
    lines: &[Line],
    last: u32,
    out: &mut W,
) -> Result<(), Unwritten>
    ensures { Leaves (W.contents out.old) (W.contents out.new) result
        (svg_drawn names.now threads mutexes lines.now last) }
{
    draw_svg_marked(alloc, names, threads, mutexes, lines, last, None, out)
}
