//! The program: what it does with the words of its command line.

ghost use Rattle.std.specs.Prelude.{◌≡◌};
ghost use Rattle.judge_report.specs.Asked.{kept_of};
ghost use Rattle.std.specs.IoError.{error_kind};
ghost use Rattle.judge_report.specs.Programs.{FileEnds, RunEnds, asked_in, place_of, subject_of, unopened_by};

use crate::asking::{Form, Keeping, form_of_words};
use crate::making::Maker;
use crate::messages::{Failure, fail};
use crate::serving::serve;
use std::alloc::Global;
use std::io::{self, ErrorKind, Write};
use streams::{Opener, Output, lent};

/// What a failure to open a file is reported as.
fn unopened_by(error: &io::Error) -> Failure
    ensures { result ≡ unopened_by (error_kind error.now) }
{
    match error.kind() {
        ErrorKind::OutOfMemory => Failure::OutOfMemory,
        _ => Failure::CannotRead,
    }
}

/// The file that a certificate is kept in, or how the names of its windows' files begin.
fn place_of<'a>(keeping: Keeping<'a>, file: &'a str) -> &'a str
    ensures { result.now ≡ place_of (kept_of keeping.entry) file.now }
{
    match keeping {
        Keeping::Nowhere => file,
        Keeping::Whole(out) => out,
        Keeping::Windows(out) => out,
    }
}

/// The file that a failure is about.
fn subject_of<'a>(keeping: Keeping<'a>, file: &'a str, failure: Failure) -> &'a str
    ensures { result.now ≡ subject_of (kept_of keeping.entry) file.now failure }
{
    match failure {
        Failure::CannotKeep => place_of(keeping, file),
        Failure::CannotKeepWindow(_) => place_of(keeping, file),
        Failure::CannotRemove(_) => place_of(keeping, file),
        _ => file,
    }
}

/// What is reported of the history in this file.
fn run_file<F: Opener, M: Maker, W: Output, E: Write>(
    alloc: Global,
    waiting: bool,
    keeping: Keeping<'_>,
    file: &str,
    files: &F,
    maker: &M,
    out: &mut W,
    err: &mut E,
) -> u8
    ensures { FileEnds (F.opens files.now) (M.makes maker.now) (M.fills maker.now) waiting (kept_of keeping.entry)
        file.now (W.contents out.old) (W.contents out.new) (W.is_let_go out.new) (err.new ≡ err.old) (E.contents err.old)
        (E.contents err.new) result }
{
    let input = match files.open(file) {
        Ok(input) => input,
        Err(error) => return fail(err, file, unopened_by(&error)),
    };
    match serve(alloc, waiting, keeping, input, maker, out) {
        Ok(status) => status,
        Err(failure) => fail(err, subject_of(keeping, file, failure), failure),
    }
}

/// What `rfx-judge` does with the words of its command line, the first being its name, and the exit status that it
/// answers: 0 where the history is legal, 1 where it is illegal or not decided, and both times all that is said of it was
/// written and let go of, and nothing told on `err`; 1 for a failure, which is reported there, after what is said if that is
/// only that the certificate couldn't be kept; 2 where the command line has no form. Words that can't be had as text are another command line, unless memory was refused for them.
pub fn run<F: Opener, M: Maker, W: Output, E: Write>(
    alloc: Global,
    words: io::Result<Vec<String>>,
    files: &F,
    maker: &M,
    out: &mut W,
    err: &mut E,
) -> u8
    ensures { RunEnds (F.opens files.now) (M.makes maker.now) (M.fills maker.now) (asked_in words)
        (W.contents out.old) (W.contents out.new) (W.is_let_go out.new) (err.new ≡ err.old) (E.contents err.old) (E.contents err.new)
        result }
{
    let words = match words {
        Ok(words) => words,
        Err(error) if error.kind() == ErrorKind::OutOfMemory => {
            return fail(err, "", Failure::OutOfMemory);
        }
        Err(_) => return fail(err, "", Failure::Usage),
    };
    let Ok(lent) = lent(alloc, &words) else {
        return fail(err, "", Failure::OutOfMemory);
    };
    match form_of_words(&lent) {
        Form::History(waiting, keeping, file) => {
            run_file(alloc, waiting, keeping, file, files, maker, out, err)
        }
        Form::Overwriting(file) => fail(err, file, Failure::Overwriting),
        Form::Usage => fail(err, "", Failure::Usage),
    }
}
