//! The program: what it does with the words of its command line.
ghost use Rattle.std.specs.Prelude.{◌≡◌, ◌≢◌, ℕ, List, Option, Result, Ok, Err, ⊤, IfErr};
ghost use Rattle.std.specs.IoError.{error_kind};
ghost use Rattle.std.specs.declared.io.ErrorKind.{ErrorKind as Kind};
ghost use Rattle.std.specs.declared.io.ErrorKind.TheVariants.{OutOfMemory};
ghost use Rattle.cmdline.specs.Forms.{asked_by};
ghost use Rattle.cmdline.specs.declared.form.Form.TheVariants.{Usage};
ghost use Rattle.report.specs.Messages.{failure_status, failure_text};
ghost use Rattle.report.specs.Programs.{asked_in, unopened_by, IsUnserved, NamedEnds, RunEnds};
ghost use Rattle.streams.specs.Leaves.{AppendsFront};

use crate::messages::{Failure, status_after, tell};
use crate::serving::serve;
use cmdline::{Form, form_of_words};
use std::alloc::Global;
use std::io::{self, ErrorKind, Read, Write};
use std::sync::Wait;
use std::thread::Threads;
use streams::{Opener, Output, lent};

/// Tells a failure, and answers the exit status after it.
fn fail<E: Write>(err: &mut E, file: &str, failure: Failure) -> u8
    ensures told { AppendsFront (E.contents err.old) (E.contents err.new) (failure_text file.now failure) }
    ensures status { result ≡ failure_status failure }
{
    tell(err, file, failure);
    status_after(failure)
}

/// What a failure to open a file is reported as.
fn failure_of(error: &io::Error) -> Failure
    ensures { result ≡ unopened_by (error_kind error.now) }
{
    match error.kind() {
        ErrorKind::OutOfMemory => Failure::OutOfMemory,
        _ => Failure::CannotRead,
    }
}

/// The file that the form names, opened and served; the usage names none, and nothing is read for it.
fn serve_named<T: Threads + Wait + Sync, F: Opener, W: Output, E: Write>(
    rt: &T,
    alloc: Global,
    form: &Form<'_>,
    files: &F,
    out: &mut W,
    err: &mut E,
) -> u8
    ensures usage { form.now ≡ Usage → result ≡ 2 }
    ensures ends { NamedEnds (F.opens files.now) (asked_by form.now) (W.contents out.old) (W.contents out.new)
        (W.is_let_go out.new) (err.new ≡ err.old) (E.contents err.old) (E.contents err.new) result }
{
    match form {
        Form::Run(file) | Form::Table(file) | Form::Threads(file) | Form::Check(file) => {
            match files.open(file) {
                Ok(mut input) => serve(rt, alloc, form, &mut input, out, err),
                Err(error) => fail(err, file, failure_of(&error)),
            }
        }
        Form::Usage => serve(rt, alloc, form, &mut io::empty(), out, err),
    }
}

/// What `rfx` does with the words of its command line, the first being its name, and the exit status that it answers.
/// Where they can't be had as text, they are another command line, unless memory was refused for them. The file that
/// they name is opened by `files`; one that can't be is reported.
pub fn run<T: Threads + Wait + Sync, F: Opener, W: Output, E: Write>(
    rt: &T,
    alloc: Global,
    words: io::Result<Vec<String>>,
    files: &F,
    out: &mut W,
    err: &mut E,
) -> u8
    ensures ends { RunEnds (F.opens files.now) (asked_in words) (W.contents out.old) (W.contents out.new)
        (W.is_let_go out.new) (err.new ≡ err.old) (E.contents err.old) (E.contents err.new) result }
    ensures no_text { IfErr words (λ e. error_kind e ≢ OutOfMemory → result ≡ 2) }
    ensures no_memory { IfErr words
        (λ e. error_kind e ≡ OutOfMemory
        → IsUnserved (W.contents out.old) (W.contents out.new) (E.contents err.old) (E.contents err.new) result) }
{
    let words = match words {
        Ok(words) => words,
        Err(error) if error.kind() == ErrorKind::OutOfMemory => {
            return fail(err, "", Failure::OutOfMemory);
        }
        Err(_) => return serve_named(rt, alloc, &Form::Usage, files, out, err),
    };
    let Ok(lent) = lent(alloc, &words) else {
        return fail(err, "", Failure::OutOfMemory);
    };
    match form_of_words(alloc, &lent) {
        Ok(form) => serve_named(rt, alloc, &form, files, out, err),
        Err(_) => fail(err, "", Failure::OutOfMemory),
    }
}
