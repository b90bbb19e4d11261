//! The program: what it does with the words of its command line.

ghost use Rattle.std.specs.Prelude.{◌≡◌};
ghost use Rattle.std.specs.IoError.{error_kind};
ghost use Rattle.explore_report.specs.Asked.{choices_of};
ghost use Rattle.explore_report.specs.Programs.{FileEnds, RunEnds, asked_in, unopened_by};

use crate::asking::{Form, Options, form_of_words};
use crate::exploring::Untold;
use crate::making::Maker;
use crate::messages::{Failure, fail};
use crate::serving::serve;
use outcomes::Progress;
use std::alloc::Global;
use std::io::{self, ErrorKind, Write};
use streams::{Opener, Output, lent};

/// What a failure to open a file is reported as.
fn unopened_by<'a>(error: &io::Error) -> Failure<'a>
    ensures { result ≡ unopened_by (error_kind error.now) }
{
    match error.kind() {
        ErrorKind::OutOfMemory => Failure::Untold(Untold::OutOfMemory),
        _ => Failure::CannotRead,
    }
}

/// Explores the script in this file.
fn run_file<F: Opener, M: Maker, P: Progress, W: Output, E: Write>(
    alloc: Global,
    options: &Options<'_>,
    file: &str,
    files: &F,
    maker: &M,
    progress: &mut P,
    out: &mut W,
    err: &mut E,
) -> u8
    ensures { FileEnds (F.opens files.now) (M.makes maker.now) (M.fills maker.now) (choices_of options.now) file.now
        (W.contents out.old) (W.contents out.new) (W.is_let_go out.new) (err.new ≡ err.old) (E.contents err.old)
        (E.contents err.new) result }
{
    let mut input = match files.open(file) {
        Ok(input) => input,
        Err(error) => return fail(err, file, unopened_by(&error)),
    };
    match serve(alloc, options, &mut input, maker, progress, out) {
        Ok(status) => status,
        Err(failure) => fail(err, file, failure),
    }
}

/// What `rfx-explore` does with the words of its command line, the first being its name, and its exit status: 0 if all
/// outcomes were found, and they have what is asked of them; 1 if one doesn't, or for a failure, which is reported on
/// `err`; 2 if the command line has no form; 3 if the limit of states was reached, and the outcomes that were found have
/// what is asked of them. Words that can't be had as text are no form, unless memory was refused for them.
pub fn run<F: Opener, M: Maker, P: Progress, W: Output, E: Write>(
    alloc: Global,
    words: io::Result<Vec<String>>,
    files: &F,
    maker: &M,
    progress: &mut P,
    out: &mut W,
    err: &mut E,
) -> u8
    ensures { RunEnds (F.opens files.now) (M.makes maker.now) (M.fills maker.now) (asked_in words) (W.contents out.old)
        (W.contents out.new) (W.is_let_go out.new) (err.new ≡ err.old) (E.contents err.old) (E.contents err.new) result }
{
    let words = match words {
        Ok(words) => words,
        Err(error) if error.kind() == ErrorKind::OutOfMemory => {
            return fail(err, "", Failure::Untold(Untold::OutOfMemory));
        }
        Err(_) => return fail(err, "", Failure::Usage),
    };
    let Ok(lent) = lent(alloc, &words) else {
        return fail(err, "", Failure::Untold(Untold::OutOfMemory));
    };
    match form_of_words(alloc, &lent) {
        Ok(Form::Explore(options, file)) => {
            run_file(alloc, &options, file, files, maker, progress, out, err)
        }
        Ok(Form::Overwriting(file)) => fail(err, file, Failure::Overwriting),
        Ok(Form::Usage) => fail(err, "", Failure::Usage),
        Err(_) => fail(err, "", Failure::Untold(Untold::OutOfMemory)),
    }
}
