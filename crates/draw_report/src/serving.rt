//! The program, except for opening its file.

ghost use Rattle.std.specs.Prelude.{◌≡◌, ◌≤◌, ◌<◌, ◌^◌, ◌+◌, vec_len, IfOk, IfErr, OnOk};
ghost use Rattle.std.specs.Io.KnownBytes.{Consumes, IsAtEnd};
ghost use Rattle.streams.specs.Leaves.{Leaves};
ghost use Rattle.streams.specs.Taken.{TakesAtMost};
ghost use Rattle.verdict.specs.Limits.{max_bytes};
ghost use Rattle.draw_report.specs.Legend.{legend};
ghost use Rattle.script.specs.Limits as scripts;
ghost use Rattle.draw_report.specs.Scripts.{FailsScript, GivesScript};
ghost use Rattle.draw_report.specs.Files.{DrawsFile, Fails, FailsFile, Serves, is_history};
ghost use Rattle.draw_report.specs.Served.{Draws, FailsDrawing, IsUnread, failed_by};

use crate::asking::Kind;
use crate::drawing::{Outcome, draw_named, undrawn_by};
use crate::history::draw_history;
use crate::legend::{lanes_legend, marks_legend};
use crate::messages::Failure;
use crate::names::is_like;
use script::{Mode, Script, parse};
use std::alloc::Global;
use std::io::{self, Read};
use streams::{Output, ReadFault, put, read_below};
use verdict::{MAX_BYTES, explain, read_trace};

/// What a fault of reading is reported as.
fn failed_by(fault: ReadFault) -> Failure
    ensures { result ≡ failed_by fault }
{
    match fault {
        ReadFault::Memory => Failure::OutOfMemory,
        ReadFault::Failed => Failure::CannotRead,
    }
}

/// Reads the file's bytes, at most one more than it may have.
fn read_file<R: Read>(alloc: Global, most: usize, input: &mut R) -> Result<Vec<u8>, Failure>
    requires { most < 2 ^ 32 }
    ensures taken { IfOk result (λ v. Consumes (R.remaining input.old) (R.remaining input.new) v.items) }
    ensures end { IfOk result (λ v. vec_len v ≤ most → IsAtEnd (R.remaining input.new)) }
    ensures fails { IfErr result IsUnread }
    ensures limit { TakesAtMost (most + 1) (R.remaining input.old) (R.remaining input.new) }
{
    match read_below(alloc, input, most + 1) {
        Ok(bytes) => Ok(bytes),
        Err(fault) => Err(failed_by(fault)),
    }
}

/// Reads a file, and the script that it is. It reads at most one byte more than a script may have.
pub fn read_script<R: Read>(alloc: Global, input: &mut R) -> Result<Script, Failure>
    ensures gives { IfOk result (GivesScript (R.remaining input.old) (R.remaining input.new)) }
    ensures fails { IfErr result (FailsScript (R.remaining input.old) (R.remaining input.new)) }
    ensures limit { TakesAtMost (scripts.max_bytes + 1) (R.remaining input.old) (R.remaining input.new) }
{
    let bytes = match read_file(alloc, script::MAX_BYTES, input) {
        Ok(bytes) => bytes,
        Err(failure) => return Err(failure),
    };
    match parse(alloc, &bytes, Mode::Run) {
        Ok(script) => Ok(script),
        Err(fault) => Err(Failure::Script(fault)),
    }
}

/// Reads a trace's bytes, and draws it with the names of the script, if there is one.
fn draw_bytes<W: Output>(
    alloc: Global,
    kind: Kind,
    script: &Option<Script>,
    bytes: &[u8],
    out: &mut W,
) -> Result<(), Failure>
    ensures draws { OnOk result (Draws kind script.now (W.contents out.old) (W.contents out.new) bytes.now) }
    ensures let_go { OnOk result (W.is_let_go out.new) }
    ensures fails { IfErr result (FailsDrawing kind script.now bytes.now (W.contents out.old) (W.contents out.new)) }
{
    let trace = match read_trace(alloc, bytes) {
        Ok(trace) => trace,
        Err(fault) => return Err(Failure::Trace(fault)),
    };
    if !is_like(script, &trace.head) {
        return Err(Failure::Unlike);
    }
    let Ok(finding) = explain(alloc, bytes) else {
        return Err(Failure::OutOfMemory);
    };
    let outcome = Outcome::Trace(&finding);
    match draw_named(alloc, kind, script, &trace, &outcome, out) {
        Ok(()) => Ok(()),
        Err(unwritten) => Err(undrawn_by(unwritten)),
    }
}

/// Whether these bytes begin as a history does. More than a trace may have are no history here: they are too long.
fn is_history(bytes: &[u8]) -> bool
    ensures { result ≡ is_history bytes.now }
{
    if bytes.len() > MAX_BYTES {
        return false;
    }
    bytes.starts_with(b"history ")
}

/// Draws what these bytes are: a trace, or a history.
fn draw_file<W: Output>(
    alloc: Global,
    kind: Kind,
    script: &Option<Script>,
    bytes: &[u8],
    out: &mut W,
) -> Result<(), Failure>
    ensures draws { OnOk result (DrawsFile kind script.now (W.contents out.old) (W.contents out.new) bytes.now) }
    ensures let_go { OnOk result (W.is_let_go out.new) }
    ensures fails { IfErr result (FailsFile kind script.now bytes.now (W.contents out.old) (W.contents out.new)) }
{
    if is_history(bytes) {
        draw_history(alloc, kind, script, bytes, out)
    } else {
        draw_bytes(alloc, kind, script, bytes, out)
    }
}

/// Reads a file, and draws the trace that it is, or the trace of the history that it is, with the names of the script, if
/// there is one. It reads at most one byte more than a trace may have.
pub fn serve<R: Read, W: Output>(
    alloc: Global,
    kind: Kind,
    script: &Option<Script>,
    input: &mut R,
    out: &mut W,
) -> Result<(), Failure>
    ensures serves { OnOk result
        (Serves kind script.now (R.remaining input.old) (R.remaining input.new) (W.contents out.old)
        (W.contents out.new)) }
    ensures let_go { OnOk result (W.is_let_go out.new) }
    ensures fails { IfErr result
        (Fails kind script.now (R.remaining input.old) (R.remaining input.new) (W.contents out.old)
        (W.contents out.new)) }
    ensures limit { TakesAtMost (max_bytes + 1) (R.remaining input.old) (R.remaining input.new) }
{
    match read_file(alloc, MAX_BYTES, input) {
        Ok(bytes) => draw_file(alloc, kind, script, &bytes, out),
        Err(failure) => Err(failure),
    }
}

fn put_legend<W: Output>(out: &mut W) -> io::Result<()>
    ensures { Leaves (W.contents out.old) (W.contents out.new) result legend }
{
    put(out, marks_legend())?;
    put(out, lanes_legend())
}

/// Writes what the signs of pictures in text mean, and lets go of what the writer kept back.
pub fn write_legend<W: Output>(out: &mut W) -> io::Result<()>
    ensures text { Leaves (W.contents out.old) (W.contents out.new) result legend }
    ensures let_go { OnOk result (W.is_let_go out.new) }
{
    put_legend(out)?;
    match out.let_go() {
        Ok(()) => Ok(()),
        Err(kept) => Err(kept),
    }
}
