//! A page, in one file.

ghost use Rattle.std.specs.Prelude.{◌≡◌, option_map, string_bytes, IfOk};
ghost use Rattle.streams.specs.Leaves.{Leaves};
ghost use Rattle.verdict.specs.Told.{IsWithin};
ghost use Rattle.picture.specs.Svg.{svg_drawn};
ghost use Rattle.page.specs.Data.{data_text, history_data, history_shown, lines_shown};
ghost use Rattle.page.specs.Pages.{history_page_text, page_of, page_text, page_with, LeavesPage};
ghost use Rattle.page.specs.Stories.{title_text};

use crate::data::{add_data, add_history_data, history_lines, shown_lines};
use crate::frame::{BEHIND, BETWEEN, BOTTOM, STATE, STYLE, TOP};
use crate::script::SCRIPT;
use crate::state::State;
use crate::stories::{Source, title_of};
use picture::{Names, Unwritten, draw_svg};
use std::alloc::{AllocError, Global};
use std::io::{self, Write};
use streams::{put, put_text};
use verdict::{Finding, Told};

/// The data of a page.
fn data_of(
    alloc: Global,
    names: &Names,
    trace: &Told,
    finding: &Finding,
) -> Result<String, AllocError>
    requires { IsWithin trace.now }
    ensures { IfOk result (λ s. string_bytes s ≡ data_text names.now trace.now finding.now) }
{
    let mut text = String::new(alloc);
    let mut state = State::new(alloc, trace.head.threads, trace.head.mutexes)?;
    add_data(alloc, &mut text, &mut state, names, trace, finding)?;
    Ok(text)
}

/// The data of a history's page.
fn history_data_of(
    alloc: Global,
    names: &Names,
    trace: &Told,
    why: Option<&[u8]>,
) -> Result<String, AllocError>
    requires { IsWithin trace.now }
    ensures { IfOk result
        (λ s. string_bytes s ≡ history_data names.now trace.now (option_map (λ t. t.now) why.entry)) }
{
    let mut text = String::new(alloc);
    let mut state = State::new(alloc, trace.head.threads, trace.head.mutexes)?;
    add_history_data(&mut text, &mut state, names, trace, why)?;
    Ok(text)
}

/// The title of a trace's page: it tells of the lines that the page shows.
fn trace_title(
    alloc: Global,
    names: &Names,
    trace: &Told,
    finding: &Finding,
) -> Result<String, AllocError>
    ensures { IfOk result
        (λ s. string_bytes s ≡ title_text names.now Source.Trace (lines_shown trace.now finding.now)) }
{
    let lines = trace.lines.as_slice();
    let shown = shown_lines(finding, lines.len());
    title_of(alloc, names, Source::Trace, &lines[..shown])
}

/// The title of a history's page.
fn history_title(
    alloc: Global,
    names: &Names,
    trace: &Told,
    why: Option<&[u8]>,
) -> Result<String, AllocError>
    ensures { IfOk result
        (λ s. string_bytes s
        ≡ title_text names.now Source.History (history_shown trace.now (option_map (λ t. t.now) why.entry))) }
{
    let lines = trace.lines.as_slice();
    let shown = history_lines(why, lines.len());
    title_of(alloc, names, Source::History, &lines[..shown])
}

/// The picture of a page. What holds it fails where memory for it is refused, and at nothing else.
fn picture_of(alloc: Global, names: &Names, trace: &Told) -> Result<Vec<u8>, Unwritten>
    ensures { IfOk result
        (λ v. v.items
        ≡ svg_drawn names.now trace.now.head.threads trace.now.head.mutexes trace.now.lines.items trace.now.last) }
{
    let mut held = Vec::new(alloc);
    let (threads, mutexes) = (trace.head.threads, trace.head.mutexes);
    let lines = trace.lines.as_slice();
    draw_svg(alloc, names, threads, mutexes, lines, trace.last, &mut held)?;
    Ok(held)
}

/// Writes a page with this title, these states as data, and this picture.
fn write_parts<W: Write>(title: &str, states: &str, picture: &[u8], out: &mut W) -> io::Result<()>
    ensures { Leaves (W.contents out.old) (W.contents out.new) result (page_of title.now states.now picture.now) }
{
    put(
        out,
        &[
            TOP, title, STYLE, title, STATE, states, BETWEEN, SCRIPT, BEHIND,
        ],
    )?;
    put_text(out, picture)?;
    put(out, &[BOTTOM])
}

/// Writes a page of a trace with this title and these data.
fn write_with<W: Write>(
    alloc: Global,
    names: &Names,
    trace: &Told,
    title: &str,
    states: &str,
    out: &mut W,
) -> Result<(), Unwritten>
    ensures { LeavesPage (W.contents out.old) (W.contents out.new) result
        (page_with names.now trace.now title.now states.now) }
{
    let Ok(picture) = picture_of(alloc, names, trace) else {
        return Err(Unwritten::OutOfMemory);
    };
    match write_parts(title, states, picture.as_slice(), out) {
        Ok(()) => Ok(()),
        Err(_unwritten) => Err(Unwritten::Failed),
    }
}

/// Writes a page of HTML to step through a trace, line by line: its picture as [`draw_svg`] draws it, with these names,
/// and the state after each line as data, up to the first line that doesn't fit, and at most of 100,000 lines. Its title
/// tells the first death of an owner in these lines, and who gets the mutex.
/// `finding` is how all of the trace was judged: a line that doesn't fit is named, with the reason, whether it is among
/// those that are shown or not. Names are in the picture and in the title as they are. All of the page is put together
/// first: where memory is refused nothing is written. Where a write fails a beginning of the page is written.
pub fn write_page<W: Write>(
    alloc: Global,
    names: &Names,
    trace: &Told,
    finding: &Finding,
    out: &mut W,
) -> Result<(), Unwritten>
    requires { IsWithin trace.now }
    ensures { LeavesPage (W.contents out.old) (W.contents out.new) result
        (page_text names.now trace.now finding.now) }
{
    let Ok(states) = data_of(alloc, names, trace, finding) else {
        return Err(Unwritten::OutOfMemory);
    };
    let Ok(title) = trace_title(alloc, names, trace, finding) else {
        return Err(Unwritten::OutOfMemory);
    };
    write_with(alloc, names, trace, title.as_str(), states.as_str(), out)
}

/// Writes a page of a trace that shows a history, as [`write_page`] does of a trace, and says that it is of a history.
/// Where `why` is there, the history is illegal at its line that is the last of the trace, and the page says this of it.
pub fn write_history_page<W: Write>(
    alloc: Global,
    names: &Names,
    trace: &Told,
    why: Option<&[u8]>,
    out: &mut W,
) -> Result<(), Unwritten>
    requires { IsWithin trace.now }
    ensures { LeavesPage (W.contents out.old) (W.contents out.new) result
        (history_page_text names.now trace.now (option_map (λ t. t.now) why.entry)) }
{
    let Ok(states) = history_data_of(alloc, names, trace, why) else {
        return Err(Unwritten::OutOfMemory);
    };
    let Ok(title) = history_title(alloc, names, trace, why) else {
        return Err(Unwritten::OutOfMemory);
    };
    write_with(alloc, names, trace, title.as_str(), states.as_str(), out)
}
