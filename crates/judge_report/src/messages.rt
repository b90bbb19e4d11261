//! What the program says on standard error. Each whole message ends with a line feed.

ghost use Rattle.std.specs.Prelude.{◌≡◌};
ghost use Rattle.streams.specs.Leaves.{AppendsFront, Leaves};
ghost use Rattle.judge_report.specs.Messages.{failure_status, failure_text, fault_text, history_fault_text};
ghost use Rattle.judge_report.specs.Messages.{window_failure_text};

use histories::HistoryFault;
use std::io::{self, Write};
use streams::Piece::{Number, Word};
use streams::{put, put_pieces};

/// Memory was refused.
pub const OUT_OF_MEMORY: &str = "rfx-judge: out of memory\n";

/// Why nothing, or not all, was reported of a history.
#[derive(Clone, Copy)]
pub enum Failure {
    /// The command line has none of the program's forms.
    Usage,
    /// The certificate would be written over the history.
    Overwriting,
    /// The file couldn't be opened, or a read of it failed.
    CannotRead,
    /// A write failed, or the writer didn't let go of what it kept back.
    CannotWrite,
    /// The file for the certificate couldn't be made, or a write to it failed.
    CannotKeep,
    /// The same of the file of the window with this number.
    CannotKeepWindow(usize),
    /// The file of the window with this number, which another run left, couldn't be removed.
    CannotRemove(usize),
    /// There are more mutexes or condition variables than a window may have.
    TooMany,
    /// No place was found where the certificate could be cut into windows.
    NoPlace,
    /// Memory was refused.
    OutOfMemory,
    /// The file is no history.
    Ill(HistoryFault),
}

/// A fault with its line and its number. `start` is what stands before them.
fn write_fault<'a, E: Write>(
    err: &mut E,
    start: &'a str,
    line: u64,
    number: u8,
    words: &'a str,
) -> io::Result<()>
    ensures { Leaves (E.contents err.old) (E.contents err.new) result (fault_text start.now line number words.now) }
{
    put_pieces(
        err,
        &[
            Word(start),
            Number(line),
            Word(": fault "),
            Number(number.into()),
            Word(": "),
            Word(words),
            Word("\n"),
        ],
    )
}

/// `rfx-judge: line L: fault N: TEXT`.
fn write_history_fault<E: Write>(err: &mut E, at: HistoryFault) -> io::Result<()>
    ensures { Leaves (E.contents err.old) (E.contents err.new) result (history_fault_text at) }
{
    let start = "rfx-judge: line ";
    write_fault(err, start, at.line, at.fault.number(), at.fault.words())
}

/// What couldn't be done with the file of the window with this number. `out` is how the names of windows' files begin.
fn write_window_failure<'a, E: Write>(
    err: &mut E,
    start: &'a str,
    out: &'a str,
    number: usize,
) -> io::Result<()>
    ensures { Leaves (E.contents err.old) (E.contents err.new) result (window_failure_text start.now out.now number) }
{
    put_pieces(
        err,
        &[
            Word(start),
            Word(out),
            Word("."),
            Number(number as u64),
            Word("\n"),
        ],
    )
}

/// The message of a failure to judge the history in this file, or to keep its certificate there.
fn write_failure<E: Write>(err: &mut E, file: &str, failure: Failure) -> io::Result<()>
    ensures { Leaves (E.contents err.old) (E.contents err.new) result (failure_text file.now failure) }
{
    match failure {
        Failure::Usage => put(
            err,
            &["usage: rfx-judge [--waiting] [--trace OUT | --windows OUT] FILE\n"],
        ),
        Failure::Overwriting => put(
            err,
            &["rfx-judge: the trace would be written over ", file, "\n"],
        ),
        Failure::CannotRead => put(err, &["rfx-judge: cannot read ", file, "\n"]),
        Failure::CannotWrite => put(err, &["rfx-judge: cannot write\n"]),
        Failure::CannotKeep => put(err, &["rfx-judge: cannot write ", file, "\n"]),
        Failure::CannotKeepWindow(number) => {
            write_window_failure(err, "rfx-judge: cannot write ", file, number)
        }
        Failure::CannotRemove(number) => {
            write_window_failure(err, "rfx-judge: cannot remove ", file, number)
        }
        Failure::TooMany => put(
            err,
            &[
                "rfx-judge: cannot cut the certificate: a window has at most 4096 mutexes and 256 condition variables\n",
            ],
        ),
        Failure::NoPlace => put(
            err,
            &["rfx-judge: cannot cut the certificate: no place was found\n"],
        ),
        Failure::OutOfMemory => put(err, &[OUT_OF_MEMORY]),
        Failure::Ill(at) => write_history_fault(err, at),
    }
}

/// The exit status after a failure.
fn status_after(failure: Failure) -> u8
    ensures { result ≡ failure_status failure }
{
    match failure {
        Failure::Usage | Failure::Overwriting => 2,
        Failure::CannotRead
        | Failure::CannotWrite
        | Failure::CannotKeep
        | Failure::CannotKeepWindow(_)
        | Failure::CannotRemove(_)
        | Failure::TooMany
        | Failure::NoPlace
        | Failure::OutOfMemory
        | Failure::Ill(_) => 1,
    }
}

/// Tells a failure to judge the history in this file, or to keep its certificate there, and answers the exit status after it. Of a message that can't be
/// written a beginning is left.
pub fn fail<E: Write>(err: &mut E, file: &str, failure: Failure) -> u8
    ensures told { AppendsFront (E.contents err.old) (E.contents err.new) (failure_text file.now failure) }
    ensures status { result ≡ failure_status failure }
{
    let _ = write_failure(err, file, failure);
    let _ = err.flush();
    status_after(failure)
}
