//! A picture in text, row by row.

ghost use Rattle.std.specs.Prelude.{◌≤◌};
ghost use Rattle.lockword.specs.Threads.{named_threads};
ghost use Rattle.streams.specs.Leaves.{Leaves};
ghost use Rattle.picture.specs.Drawn.{drawn, rows_text};
ghost use Rattle.picture.specs.Heads.{heads};
ghost use Rattle.picture.specs.Rows.{end_text, row_text};
ghost use Rattle.picture.specs.Scenes.{first_scene};

use crate::bands::{Extent, LANES, Sheet};
use crate::heads::add_heads;
use crate::layout::band_room;
use crate::names::Names;
use crate::rows::{add_end, add_row};
use crate::scene::Scene;
use facts::Line;
use std::alloc::{AllocError, Global};
use std::io::Write;
use streams::put_text;
use thiserror::Error;

/// Room for the longest row, which is asked for before the first one is written.
const ROW: usize = 2_048;

/// Why a picture wasn't written, or not all of it.
#[derive(Clone, Copy, Debug, PartialEq, Eq, Error)]
pub enum Unwritten {
    /// Memory for a row was refused.
    #[error("out of memory")]
    OutOfMemory,
    /// A write failed.
    #[error("cannot write")]
    Failed,
}

impl From<AllocError> for Unwritten {
    fn from(_e: AllocError) -> Unwritten {
        Unwritten::OutOfMemory
    }
}

/// Writes a text.
pub fn write_text<W: Write>(text: &str, out: &mut W) -> Result<(), Unwritten>
    ensures { Leaves (W.contents out.old) (W.contents out.new) result text.now }
{
    match put_text(out, text.as_bytes()) {
        Ok(()) => Ok(()),
        Err(_unwritten) => Err(Unwritten::Failed),
    }
}

fn write_heads<W: Write>(row: &mut String, sheet: &Sheet<'_>, out: &mut W) -> Result<(), Unwritten>
    requires few { sheet.now.extent.threads ≤ named_threads }
    requires narrow { sheet.now.extent.bands.count ≤ 16 }
    ensures { Leaves (W.contents out.old) (W.contents out.new) result (heads sheet.now.names.now sheet.now.extent) }
{
    row.clear();
    add_heads(row, sheet)?;
    write_text(row, out)
}

fn write_row<W: Write>(
    row: &mut String,
    sheet: &Sheet<'_>,
    scene: &Scene,
    line: &Line,
    out: &mut W,
) -> Result<(), Unwritten>
    requires few { sheet.now.extent.threads ≤ named_threads }
    requires narrow { sheet.now.extent.bands.count ≤ 16 }
    ensures { Leaves (W.contents out.old) (W.contents out.new) result
        (row_text sheet.now.names.now sheet.now.extent scene.now line.now) }
{
    row.clear();
    add_row(row, sheet, scene, line)?;
    write_text(row, out)
}

fn write_rows<W: Write>(
    row: &mut String,
    sheet: &Sheet<'_>,
    lines: &[Line],
    out: &mut W,
) -> Result<(), Unwritten>
    requires few { sheet.now.extent.threads ≤ named_threads }
    requires narrow { sheet.now.extent.bands.count ≤ 16 }
    ensures { Leaves (W.contents out.old) (W.contents out.new) result
        (rows_text sheet.now.names.now sheet.now.extent first_scene lines.now) }
{
    let mut scene = Scene::new();
    for index in 0..lines.len() {
        let line = &lines[index];
        scene = scene.behind(&sheet.extent.bands, line, &lines[index..]);
        write_row(row, sheet, &scene, line, out)?;
    }
    Ok(())
}

fn write_end<W: Write>(row: &mut String, last: u32, out: &mut W) -> Result<(), Unwritten>
    ensures { Leaves (W.contents out.old) (W.contents out.new) result (end_text last) }
{
    row.clear();
    add_end(row, last)?;
    write_text(row, out)
}

/// Draws a trace with `threads` threads and `mutexes` mutexes as text, time running downwards: each of its lines as one row, in the
/// order of the trace, with the number of its event, and its mark in the lane of its thread. Things are called by these
/// names. `last` is the number of events. At an error a beginning of the picture is written.
pub fn draw<W: Write>(
    alloc: Global,
    names: &Names,
    threads: u8,
    mutexes: u16,
    lines: &[Line],
    last: u32,
    out: &mut W,
) -> Result<(), Unwritten>
    ensures { Leaves (W.contents out.old) (W.contents out.new) result (drawn names.now threads mutexes lines.now last) }
{
    let mut row = String::with_capacity(alloc, ROW)?;
    let room = band_room(threads.min(LANES));
    let extent = Extent::of(room, names, threads, mutexes, lines);
    let sheet = Sheet { names, extent };
    write_heads(&mut row, &sheet, out)?;
    write_rows(&mut row, &sheet, lines, out)?;
    write_end(&mut row, last, out)
}
