//! What the program says on standard error. Each whole message ends with a line feed.

ghost use Rattle.std.specs.Prelude.{◌≡◌};
ghost use Rattle.streams.specs.Leaves.{AppendsFront, Leaves};
ghost use Rattle.explore_report.specs.Messages.{failure_status, failure_text, fault_text, numbered};
ghost use Rattle.explore_report.specs.Messages.{script_fault_text, untold_text};

use crate::exploring::Untold;
use script::ScriptFault;
use std::io::{self, Write};
use streams::Piece::{Number, Word};
use streams::{put, put_pieces};

/// Memory was refused.
pub const OUT_OF_MEMORY: &str = "rfx-explore: out of memory\n";

/// Why nothing, or not all, was printed of a script.
#[derive(Clone, Copy)]
pub enum Failure<'a> {
    /// The command line has none of the program's forms.
    Usage,
    /// The script of an outcome would be written over the script that is explored.
    Overwriting,
    /// The file couldn't be opened, or a read of it failed.
    CannotRead,
    /// A write failed, or the writer didn't let go of what it kept back.
    CannotWrite,
    /// The file for the script couldn't be made, or a write to it failed.
    CannotKeep(&'a str),
    /// Nothing is said of the script; or memory was refused.
    Untold(Untold<'a>),
}

/// A fault with its line and its number.
fn write_fault_at<'a, E: Write>(
    err: &mut E,
    line: u64,
    number: u8,
    words: &'a str,
) -> io::Result<()>
    ensures { Leaves (E.contents err.old) (E.contents err.new) result (fault_text line number words.now) }
{
    put_pieces(
        err,
        &[
            Word("rfx-explore: line "),
            Number(line),
            Word(": fault "),
            Number(number.into()),
            Word(": "),
            Word(words),
            Word("\n"),
        ],
    )
}

/// `rfx-explore: line L: fault N: TEXT`.
fn write_fault<E: Write>(err: &mut E, at: ScriptFault) -> io::Result<()>
    ensures { Leaves (E.contents err.old) (E.contents err.new) result (script_fault_text at) }
{
    write_fault_at(err, at.line as u64, at.fault.number(), at.fault.words())
}

/// A number between words.
fn write_number<'a, E: Write>(
    err: &mut E,
    start: &'a str,
    number: u64,
    end: &'a str,
) -> io::Result<()>
    ensures { Leaves (E.contents err.old) (E.contents err.new) result (numbered start.now number end.now) }
{
    put_pieces(err, &[Word(start), Number(number), Word(end)])
}

/// The message where nothing is said of a script.
fn write_untold<E: Write>(err: &mut E, why: Untold<'_>) -> io::Result<()>
    ensures { Leaves (E.contents err.old) (E.contents err.new) result (untold_text why.entry) }
{
    match why {
        Untold::OutOfMemory => put(err, &[OUT_OF_MEMORY]),
        Untold::Ill(at) => write_fault(err, at),
        Untold::NoThread(name) => put(err, &["rfx-explore: no thread is called ", name, "\n"]),
        Untold::NoPattern(words) => put(err, &["rfx-explore: not a pattern: ", words, "\n"]),
        Untold::NoOutcome(number) => {
            let start = "rfx-explore: no outcome has the number ";
            write_number(err, start, number.into(), "\n")
        }
        Untold::TooLong(number) => {
            let start = "rfx-explore: the script of outcome ";
            write_number(err, start, number.into(), " is too long\n")
        }
        Untold::Unplayed(number) => {
            let start = "rfx-explore: the script of outcome ";
            write_number(err, start, number as u64, " has another outcome\n")
        }
    }
}

/// The message of a failure to explore the script in this file.
fn write_failure<E: Write>(err: &mut E, file: &str, failure: Failure<'_>) -> io::Result<()>
    ensures { Leaves (E.contents err.old) (E.contents err.new) result (failure_text file.now failure.entry) }
{
    match failure {
        Failure::Usage => put(err, &["usage: rfx-explore [OPTION].. FILE\n"]),
        Failure::Overwriting => put(
            err,
            &["rfx-explore: the script would be written over ", file, "\n"],
        ),
        Failure::CannotRead => put(err, &["rfx-explore: cannot read ", file, "\n"]),
        Failure::CannotWrite => put(err, &["rfx-explore: cannot write\n"]),
        Failure::CannotKeep(name) => put(err, &["rfx-explore: cannot write ", name, "\n"]),
        Failure::Untold(why) => write_untold(err, why),
    }
}

/// The exit status after a failure.
fn status_after(failure: Failure<'_>) -> u8
    ensures { result ≡ failure_status failure.entry }
{
    match failure {
        Failure::Usage | Failure::Overwriting => 2,
        Failure::CannotRead | Failure::CannotWrite | Failure::CannotKeep(_) | Failure::Untold(_) =>
            1,
    }
}

/// Tells a failure to explore the script in this file, and returns the exit status after it. Of a message that can't be
/// written, a beginning is left.
pub fn fail<E: Write>(err: &mut E, file: &str, failure: Failure<'_>) -> u8
    ensures told { AppendsFront (E.contents err.old) (E.contents err.new) (failure_text file.now failure.entry) }
    ensures status { result ≡ failure_status failure.entry }
{
    let _ = write_failure(err, file, failure);
    let _ = err.flush();
    status_after(failure)
}
