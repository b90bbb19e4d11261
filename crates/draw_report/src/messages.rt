//! What the program says on standard error. Each whole message ends with a line feed.

ghost use Rattle.std.specs.Prelude.{◌≡◌};
ghost use Rattle.streams.specs.Leaves.{AppendsFront, Leaves};
ghost use Rattle.draw_report.specs.Messages.{excess_words, failure_status, failure_text, fault_text, history_text};
ghost use Rattle.draw_report.specs.Messages.{script_text};
ghost use Rattle.draw_report.specs.Messages.{trace_text, undecided_text, unfit_text};

use histories::HistoryFault;
use script::ScriptFault;
use std::io::{self, Write};
use streams::Piece::{Number, Word};
use streams::{put, put_pieces};
use verdict::TraceFault;

const USAGE: &str =
    "usage: rfx-draw [--svg | --html] [--script SCRIPT] [FILE] (in any order) | --legend\n";

const UNLIKE: &str =
    "rfx-draw: script: not of this trace, which has other numbers of threads, mutexes or condition variables\n";

const UNLIKE_HISTORY: &str =
    "rfx-draw: script: not of this history, which has other numbers of threads, mutexes or condition variables\n";

/// Memory was refused.
pub const OUT_OF_MEMORY: &str = "rfx-draw: out of memory\n";

/// What a history has more of than a trace may have, or than its first line counts.
#[derive(Clone, Copy, Debug, PartialEq, Eq)]
pub enum Excess {
    Mutexes,
    Conditions,
    /// A line names a thread or a mutex that the first line doesn't count.
    Uncounted,
}

/// Why no picture, or not all of it, was written.
#[derive(Clone, Copy)]
pub enum Failure {
    /// The command line has none of the program's forms.
    Usage,
    /// The file couldn't be opened, or a read of it failed.
    CannotRead,
    /// A write failed, or the writer didn't let go of what it kept back.
    CannotWrite,
    /// Memory was refused where no line of the script or of the trace was being read.
    OutOfMemory,
    /// The script has a fault.
    Script(ScriptFault),
    /// A run of the script has another first line than the trace.
    Unlike,
    /// A run of the script has another first line than the history.
    UnlikeHistory,
    /// The file is no trace.
    Trace(TraceFault),
    /// The file begins as a history does, but is none.
    History(HistoryFault),
    /// The history is undecided at this line, with this event's number, so it has no trace.
    Undecided { line: u64, event: u64 },
    /// The history has more of something than a trace may have.
    Unfit(Excess),
}

/// A fault with its line and its number. `start` is what stands before them.
fn write_fault<'a, E: Write>(
    err: &mut E,
    start: &'a str,
    line: u64,
    number: u8,
    words: &'a str,
) -> io::Result<()>
    ensures { Leaves (E.contents err.old) (E.contents err.new) result (fault_text start.now line number words.now) }
{
    put_pieces(
        err,
        &[
            Word(start),
            Number(line),
            Word(": fault "),
            Number(number.into()),
            Word(": "),
            Word(words),
            Word("\n"),
        ],
    )
}

/// `rfx-draw: script: line L: fault N: TEXT`.
fn write_script_fault<E: Write>(err: &mut E, at: ScriptFault) -> io::Result<()>
    ensures { Leaves (E.contents err.old) (E.contents err.new) result (script_text at) }
{
    let start = "rfx-draw: script: line ";
    write_fault(
        err,
        start,
        at.line as u64,
        at.fault.number(),
        at.fault.words(),
    )
}

/// `rfx-draw: line L: fault N: TEXT`.
fn write_trace_fault<E: Write>(err: &mut E, at: TraceFault) -> io::Result<()>
    ensures { Leaves (E.contents err.old) (E.contents err.new) result (trace_text at) }
{
    let start = "rfx-draw: line ";
    write_fault(
        err,
        start,
        at.line as u64,
        at.fault.number(),
        at.fault.words(),
    )
}

/// `rfx-draw: line L: fault N: TEXT`.
fn write_history_fault<E: Write>(err: &mut E, at: HistoryFault) -> io::Result<()>
    ensures { Leaves (E.contents err.old) (E.contents err.new) result (history_text at) }
{
    let start = "rfx-draw: line ";
    write_fault(err, start, at.line, at.fault.number(), at.fault.words())
}

/// What of a history's first line can't be drawn.
fn excess_words(excess: Excess) -> &'static str
    ensures { result.now ≡ excess_words excess }
{
    match excess {
        Excess::Mutexes => "more than 4096 mutexes",
        Excess::Conditions => "more than 256 condition variables",
        Excess::Uncounted => "fewer threads or mutexes than its calls name",
    }
}

/// `rfx-draw: cannot draw the history: line 1: TEXT`.
fn write_unfit<E: Write>(err: &mut E, excess: Excess) -> io::Result<()>
    ensures { Leaves (E.contents err.old) (E.contents err.new) result (unfit_text excess) }
{
    put(
        err,
        &[
            "rfx-draw: cannot draw the history: line 1: ",
            excess_words(excess),
            "\n",
        ],
    )
}

/// `rfx-draw: cannot draw the history: undecided at line L (event E)`.
fn write_undecided<E: Write>(err: &mut E, line: u64, event: u64) -> io::Result<()>
    ensures { Leaves (E.contents err.old) (E.contents err.new) result (undecided_text line event) }
{
    put_pieces(
        err,
        &[
            Word("rfx-draw: cannot draw the history: undecided at line "),
            Number(line),
            Word(" (event "),
            Number(event),
            Word(")\n"),
        ],
    )
}

/// The message of a failure to draw this file.
fn write_failure<E: Write>(err: &mut E, file: &str, failure: Failure) -> io::Result<()>
    ensures { Leaves (E.contents err.old) (E.contents err.new) result (failure_text file.now failure) }
{
    match failure {
        Failure::Usage => put(err, &[USAGE]),
        Failure::CannotRead => put(err, &["rfx-draw: cannot read ", file, "\n"]),
        Failure::CannotWrite => put(err, &["rfx-draw: cannot write\n"]),
        Failure::OutOfMemory => put(err, &[OUT_OF_MEMORY]),
        Failure::Script(at) => write_script_fault(err, at),
        Failure::Unlike => put(err, &[UNLIKE]),
        Failure::UnlikeHistory => put(err, &[UNLIKE_HISTORY]),
        Failure::Trace(at) => write_trace_fault(err, at),
        Failure::History(at) => write_history_fault(err, at),
        Failure::Undecided { line, event } => write_undecided(err, line, event),
        Failure::Unfit(excess) => write_unfit(err, excess),
    }
}

/// The exit status after a failure.
fn status_after(failure: Failure) -> u8
    ensures { result ≡ failure_status failure }
{
    match failure {
        Failure::Usage => 2,
        Failure::CannotRead
        | Failure::CannotWrite
        | Failure::OutOfMemory
        | Failure::Script(_)
        | Failure::Unlike
        | Failure::UnlikeHistory
        | Failure::Trace(_)
        | Failure::History(_)
        | Failure::Undecided { .. }
        | Failure::Unfit(_) => 1,
    }
}

/// Tells a failure to draw this file, and answers the exit status after it. Of a message that can't be written a
/// beginning is left.
pub fn fail<E: Write>(err: &mut E, file: &str, failure: Failure) -> u8
    ensures told { AppendsFront (E.contents err.old) (E.contents err.new) (failure_text file.now failure) }
    ensures status { result ≡ failure_status failure }
{
    let _ = write_failure(err, file, failure);
    let _ = err.flush();
    status_after(failure)
}
