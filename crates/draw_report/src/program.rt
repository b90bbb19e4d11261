//! The program: what it does with the words of its command line.

ghost use Rattle.std.specs.Prelude.{◌≡◌, IfErr, IfOk, OnOk};
ghost use Rattle.std.specs.IoError.{error_kind};
ghost use Rattle.draw_report.specs.Programs.{asked_in, unopened_by, LegendEnds, NamedEnds};
ghost use Rattle.draw_report.specs.Programs.{RunEnds, PictureEnds, ScriptIsTold, ScriptOpens};

use crate::asking::{Form, Kind, form_of_words};
use crate::messages::{Failure, fail};
use crate::serving::{read_script, serve, write_legend};
use script::Script;
use std::alloc::Global;
use std::io::{self, ErrorKind, Write};
use streams::{Opener, Output, lent};

/// What a failure to open a file is reported as.
fn unopened_by(error: &io::Error) -> Failure
    ensures { result ≡ unopened_by (error_kind error.now) }
{
    match error.kind() {
        ErrorKind::OutOfMemory => Failure::OutOfMemory,
        _ => Failure::CannotRead,
    }
}

/// The picture of the trace or the history in this file, with the names of the script, if there is one.
fn run_picture<F: Opener, W: Output, E: Write>(
    alloc: Global,
    kind: Kind,
    script: &Option<Script>,
    file: &str,
    files: &F,
    out: &mut W,
    err: &mut E,
) -> u8
    ensures { PictureEnds (F.opens files.now) kind script.now file.now (W.contents out.old) (W.contents out.new)
        (W.is_let_go out.new) (err.new ≡ err.old) (E.contents err.old) (E.contents err.new) result }
{
    let mut input = match files.open(file) {
        Ok(input) => input,
        Err(error) => return fail(err, file, unopened_by(&error)),
    };
    match serve(alloc, kind, script, &mut input, out) {
        Ok(()) => 0,
        Err(failure) => fail(err, file, failure),
    }
}

/// The script in this file; or the exit status after a failure, which is reported.
fn open_script<F: Opener, E: Write>(
    alloc: Global,
    name: &str,
    files: &F,
    err: &mut E,
) -> Result<Script, u8>
    ensures opens { IfOk result (ScriptOpens (F.opens files.now) name.now) }
    ensures quiet { OnOk result (err.new ≡ err.old) }
    ensures told { IfErr result (ScriptIsTold (F.opens files.now) name.now (E.contents err.old) (E.contents err.new)) }
{
    let mut input = match files.open(name) {
        Ok(input) => input,
        Err(error) => return Err(fail(err, name, unopened_by(&error))),
    };
    match read_script(alloc, &mut input) {
        Ok(script) => Ok(script),
        Err(failure) => Err(fail(err, name, failure)),
    }
}

/// The picture of the trace or the history in this file, with the names of a script in another one, which is read first.
fn run_named<F: Opener, W: Output, E: Write>(
    alloc: Global,
    kind: Kind,
    name: &str,
    file: &str,
    files: &F,
    out: &mut W,
    err: &mut E,
) -> u8
    ensures { NamedEnds (F.opens files.now) kind name.now file.now (W.contents out.old) (W.contents out.new)
        (W.is_let_go out.new) (err.new ≡ err.old) (E.contents err.old) (E.contents err.new) result }
{
    match open_script(alloc, name, files, err) {
        Ok(script) => run_picture(alloc, kind, &Some(script), file, files, out, err),
        Err(status) => status,
    }
}

/// What the signs of pictures mean.
fn run_legend<W: Output, E: Write>(out: &mut W, err: &mut E) -> u8
    ensures { LegendEnds (W.contents out.old) (W.contents out.new) (W.is_let_go out.new) (err.new ≡ err.old)
        (E.contents err.old) (E.contents err.new) result }
{
    match write_legend(out) {
        Ok(()) => 0,
        Err(_unwritten) => fail(err, "", Failure::CannotWrite),
    }
}

/// What `rfx-draw` does with the words of its command line, the first being its name, and the exit status that it
/// answers: 0 where the picture of the trace or the history, or what the signs of pictures mean, was written and let go of, and
/// nothing told on `err`; 1 for a fault, which is reported there; 2 where the command line has no form. Words that can't be
/// had as text are another command line, unless memory was refused for them.
pub fn run<F: Opener, W: Output, E: Write>(
    alloc: Global,
    words: io::Result<Vec<String>>,
    files: &F,
    out: &mut W,
    err: &mut E,
) -> u8
    ensures { RunEnds (F.opens files.now) (asked_in words) (W.contents out.old) (W.contents out.new)
        (W.is_let_go out.new) (err.new ≡ err.old) (E.contents err.old) (E.contents err.new) result }
{
    let words = match words {
        Ok(words) => words,
        Err(error) if error.kind() == ErrorKind::OutOfMemory => {
            return fail(err, "", Failure::OutOfMemory);
        }
        Err(_) => return fail(err, "", Failure::Usage),
    };
    let Ok(lent) = lent(alloc, &words) else {
        return fail(err, "", Failure::OutOfMemory);
    };
    match form_of_words(&lent) {
        Form::Picture(kind, Some(script), file) => {
            run_named(alloc, kind, script, file, files, out, err)
        }
        Form::Picture(kind, None, file) => run_picture(alloc, kind, &None, file, files, out, err),
        Form::Legend => run_legend(out, err),
        Form::Usage => fail(err, "", Failure::Usage),
    }
}
