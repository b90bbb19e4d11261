//! The program: what it does with the words of its command line.

ghost use Rattle.std.specs.Prelude.{◌≡◌};
ghost use Rattle.std.specs.IoError.{error_kind};
ghost use Rattle.explain.specs.Programs.{FileEnds, RunEnds, asked_in, unopened_by};

use crate::asking::{Form, form_of_words};
use crate::failures::{Failure, fail};
use crate::serving::serve;
use std::alloc::Global;
use std::io::{self, ErrorKind, Write};
use streams::{Opener, Output, lent};

/// The message of a failure to open a file.
fn unopened_by(error: &io::Error) -> Failure
    ensures { result ≡ unopened_by (error_kind error.now) }
{
    match error.kind() {
        ErrorKind::OutOfMemory => Failure::OutOfMemory,
        _ => Failure::CannotRead,
    }
}

/// What is said of this file.
fn run_file<F: Opener, W: Output, E: Write>(
    alloc: Global,
    file: &str,
    files: &F,
    out: &mut W,
    err: &mut E,
) -> u8
    ensures { FileEnds (F.opens files.now) file.now (W.contents out.old) (W.contents out.new) (W.is_let_go out.new)
        (err.new ≡ err.old) (E.contents err.old) (E.contents err.new) result }
{
    let mut input = match files.open(file) {
        Ok(input) => input,
        Err(error) => return fail(err, file, unopened_by(&error)),
    };
    match serve(alloc, file, &mut input, out) {
        Ok(status) => status,
        Err(failure) => fail(err, file, failure),
    }
}

/// What `rfx-explain` does with the words of its command line, the first being its name, and the exit status that it
/// answers: 0 where the file is a good script or a legal trace, 1 where it is none, and both times all of the
/// explanation was written and let go of, and nothing is on `err`; 1 for a failure, which is said there; 2 where the
/// command line has no form. Words that can't be had as text are another command line, unless memory was refused for
/// them.
pub fn run<F: Opener, W: Output, E: Write>(
    alloc: Global,
    words: io::Result<Vec<String>>,
    files: &F,
    out: &mut W,
    err: &mut E,
) -> u8
    ensures { RunEnds (F.opens files.now) (asked_in words) (W.contents out.old) (W.contents out.new)
        (W.is_let_go out.new) (err.new ≡ err.old) (E.contents err.old) (E.contents err.new) result }
{
    let words = match words {
        Ok(words) => words,
        Err(error) if error.kind() == ErrorKind::OutOfMemory => {
            return fail(err, "", Failure::OutOfMemory);
        }
        Err(_) => return fail(err, "", Failure::Usage),
    };
    let Ok(lent) = lent(alloc, &words) else {
        return fail(err, "", Failure::OutOfMemory);
    };
    match form_of_words(&lent) {
        Form::File(file) => run_file(alloc, file, files, out, err),
        Form::Usage => fail(err, "", Failure::Usage),
    }
}
