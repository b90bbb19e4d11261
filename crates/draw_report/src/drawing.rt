//! Drawing what was read and judged.

ghost use Rattle.std.specs.Prelude.{◌≡◌, ◌++◌, ◌<◌, ◌^◌, option_map, IfErr, IfOk, IfSome, OnOk};
ghost use Rattle.streams.specs.Leaves.{Leaves};
ghost use Rattle.picture.specs.Drawn.{drawn};
ghost use Rattle.picture.specs.Svg.{marked_by, marked_of};
ghost use Rattle.verdict.specs.Told.{IsWithin};
ghost use Rattle.draw_report.specs.Names.{called_by};
ghost use Rattle.draw_report.specs.Served.{LeavesPicture, foot_text, history_mark, judged_by, mark_in, misfit_line};
ghost use Rattle.draw_report.specs.Served.{misfit_text, picture, title_line, trace_mark, undrawn_by};

use crate::asking::Kind;
use crate::messages::Failure;
use crate::names::names_of;
use lines::cut;
use page::{write_history_page, write_page};
use picture::{Misfit, Names, Unwritten, draw, draw_svg_marked};
use script::Script;
use std::alloc::Global;
use std::io::Write;
use std::str;
use streams::Piece::{Number, Word};
use streams::{Output, put_pieces, put_text};
use verdict::{Finding, Told};

/// How what is drawn was judged.
#[derive(Clone, Copy)]
pub enum Outcome<'a> {
    /// A trace, of which the judge of traces found this.
    Trace(&'a Finding),
    /// A trace that shows a history, which is legal, or of which the judge of histories says this.
    History(Option<&'a [u8]>),
}

/// What a picture that wasn't written is reported as.
pub fn undrawn_by(unwritten: Unwritten) -> Failure
    ensures { result ≡ undrawn_by unwritten }
{
    match unwritten {
        Unwritten::OutOfMemory => Failure::OutOfMemory,
        Unwritten::Failed => Failure::CannotWrite,
    }
}

/// Which line of a trace doesn't fit, if one doesn't.
fn write_misfit<W: Write>(out: &mut W, finding: &Finding) -> Result<(), Unwritten>
    ensures { Leaves (W.contents out.old) (W.contents out.new) result (misfit_text finding.now) }
{
    match *finding {
        Finding::Legal { .. } => Ok(()),
        Finding::Illegal(why) => {
            let line = Number(why.line as u64);
            match put_pieces(
                out,
                &[
                    Word("        line "),
                    line,
                    Word(" doesn't fit those before it\n"),
                ],
            ) {
                Ok(()) => Ok(()),
                Err(_unwritten) => Err(Unwritten::Failed),
            }
        }
    }
}

/// What is said of an illegal history.
fn write_said<W: Write>(out: &mut W, said: &[u8]) -> Result<(), Unwritten>
    ensures { Leaves (W.contents out.old) (W.contents out.new) result said.now }
{
    match put_text(out, said) {
        Ok(()) => Ok(()),
        Err(_unwritten) => Err(Unwritten::Failed),
    }
}

/// Writes what comes after a picture in text.
fn write_foot<W: Write>(out: &mut W, outcome: &Outcome<'_>) -> Result<(), Unwritten>
    ensures { Leaves (W.contents out.old) (W.contents out.new) result (foot_text (judged_by outcome.now)) }
{
    match *outcome {
        Outcome::Trace(finding) => write_misfit(out, finding),
        Outcome::History(None) => Ok(()),
        Outcome::History(Some(said)) => write_said(out, said),
    }
}

/// A picture in text.
fn draw_text<W: Write>(
    alloc: Global,
    names: &Names,
    trace: &Told,
    outcome: &Outcome<'_>,
    out: &mut W,
) -> Result<(), Unwritten>
    ensures { Leaves (W.contents out.old) (W.contents out.new) result
        (picture Kind.Text names.now trace.now (judged_by outcome.now)) }
{
    let (threads, mutexes) = (trace.head.threads, trace.head.mutexes);
    let lines = trace.lines.as_slice();
    draw(alloc, names, threads, mutexes, lines, trace.last, out)?;
    write_foot(out, outcome)
}

/// The line of a trace that doesn't fit, if one doesn't.
fn misfit_line(finding: &Finding) -> Option<usize>
    ensures { result ≡ misfit_line finding.now }
{
    match *finding {
        Finding::Legal { .. } => None,
        Finding::Illegal(why) => Some(why.line),
    }
}

/// The first line of what is said. It is text: what the program itself says.
fn title_line(said: &[u8]) -> Option<&str>
    ensures { IfSome result (λ title. title.now ≡ title_line said.now) }
{
    match str::from_utf8(said) {
        Ok(text) => match cut(text, '\n') {
            Some((title, _notes)) => Some(title),
            None => Some(text),
        },
        Err(_no_text) => None,
    }
}

/// The mark of the line of a trace that doesn't fit, if one doesn't.
fn trace_mark(finding: &Finding) -> Option<Misfit<'static>>
    ensures { marked_of result ≡ option_map trace_mark (misfit_line finding.now) }
{
    match misfit_line(finding) {
        Some(line) => Some(Misfit { line, note: None }),
        None => None,
    }
}

/// The mark of the last of that many lines, the illegal line of a history of which this is said.
fn history_mark(count: usize, said: &[u8]) -> Result<Misfit<'_>, Unwritten>
    requires { count < 2 ^ 63 }
    ensures mark { IfOk result (λ m. marked_by m ≡ history_mark count said.now) }
    ensures fails { IfErr result (λ u. u ≡ Unwritten.OutOfMemory) }
{
    match title_line(said) {
        Some(title) => Ok(Misfit {
            line: count + 1,
            note: Some(title),
        }),
        None => Err(Unwritten::OutOfMemory),
    }
}

/// Which of that many lines is marked, if one is.
fn mark_in<'a>(count: usize, outcome: &Outcome<'a>) -> Result<Option<Misfit<'a>>, Unwritten>
    requires { count < 2 ^ 63 }
    ensures mark { IfOk result (λ m. marked_of m ≡ mark_in count (judged_by outcome.entry.now)) }
    ensures fails { IfErr result (λ u. u ≡ Unwritten.OutOfMemory) }
{
    match *outcome {
        Outcome::Trace(finding) => Ok(trace_mark(finding)),
        Outcome::History(None) => Ok(None),
        Outcome::History(Some(said)) => match history_mark(count, said) {
            Ok(mark) => Ok(Some(mark)),
            Err(unwritten) => Err(unwritten),
        },
    }
}

/// A picture as SVG, in which the line that doesn't fit is marked.
fn draw_marked<W: Output>(
    alloc: Global,
    names: &Names,
    trace: &Told,
    outcome: &Outcome<'_>,
    out: &mut W,
) -> Result<(), Unwritten>
    ensures { LeavesPicture Kind.Svg (picture Kind.Svg names.now trace.now (judged_by outcome.now))
        (W.contents out.old) (W.contents out.new) result }
{
    let lines = trace.lines.as_slice();
    let (threads, mutexes) = (trace.head.threads, trace.head.mutexes);
    match mark_in(lines.len(), outcome) {
        Ok(mark) => draw_svg_marked(alloc, names, threads, mutexes, lines, trace.last, mark, out),
        Err(unwritten) => Err(unwritten),
    }
}

/// A page.
fn draw_page<W: Output>(
    alloc: Global,
    names: &Names,
    trace: &Told,
    outcome: &Outcome<'_>,
    out: &mut W,
) -> Result<(), Unwritten>
    requires { IsWithin trace.now }
    ensures { LeavesPicture Kind.Html (picture Kind.Html names.now trace.now (judged_by outcome.now))
        (W.contents out.old) (W.contents out.new) result }
{
    match *outcome {
        Outcome::Trace(finding) => write_page(alloc, names, trace, finding, out),
        Outcome::History(said) => write_history_page(alloc, names, trace, said, out),
    }
}

fn draw_as<W: Output>(
    alloc: Global,
    kind: Kind,
    names: &Names,
    trace: &Told,
    outcome: &Outcome<'_>,
    out: &mut W,
) -> Result<(), Unwritten>
    requires { IsWithin trace.now }
    ensures { LeavesPicture kind (picture kind names.now trace.now (judged_by outcome.now)) (W.contents out.old)
        (W.contents out.new) result }
{
    match kind {
        Kind::Text => draw_text(alloc, names, trace, outcome, out),
        Kind::Svg => draw_marked(alloc, names, trace, outcome, out),
        Kind::Html => draw_page(alloc, names, trace, outcome, out),
    }
}

/// Draws a trace, and lets go of what the writer kept back.
fn draw_out<W: Output>(
    alloc: Global,
    kind: Kind,
    names: &Names,
    trace: &Told,
    outcome: &Outcome<'_>,
    out: &mut W,
) -> Result<(), Unwritten>
    requires { IsWithin trace.now }
    ensures text { LeavesPicture kind (picture kind names.now trace.now (judged_by outcome.now)) (W.contents out.old)
        (W.contents out.new) result }
    ensures let_go { OnOk result (W.is_let_go out.new) }
{
    match draw_as(alloc, kind, names, trace, outcome, out) {
        Ok(()) => {}
        Err(unwritten) => return Err(unwritten),
    }
    match out.let_go() {
        Ok(()) => Ok(()),
        Err(_kept) => Err(Unwritten::Failed),
    }
}

/// Draws a trace that was judged so, with the names of the script, if there is one.
pub fn draw_named<W: Output>(
    alloc: Global,
    kind: Kind,
    script: &Option<Script>,
    trace: &Told,
    outcome: &Outcome<'_>,
    out: &mut W,
) -> Result<(), Unwritten>
    requires { IsWithin trace.now }
    ensures text { LeavesPicture kind (picture kind (called_by script.now) trace.now (judged_by outcome.now))
        (W.contents out.old) (W.contents out.new) result }
    ensures let_go { OnOk result (W.is_let_go out.new) }
{
    match names_of(alloc, script) {
        Ok(names) => draw_out(alloc, kind, &names, trace, outcome, out),
        Err(_refused) => Err(Unwritten::OutOfMemory),
    }
}
