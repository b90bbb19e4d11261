//! What the program says on standard error. Each whole message ends with a line feed.

ghost use Rattle.std.specs.Prelude.{◌≡◌};
ghost use Rattle.streams.specs.Leaves.{AppendsFront, Leaves};
ghost use Rattle.report.specs.Messages.{fault_text, failure_text, failure_status};

use script::ScriptFault;
use std::io::{self, Write};
use streams::Piece::{Number, Word};
use streams::{put, put_pieces};
use verdict::TraceFault;

/// A file couldn't be read. The message goes on with the file's name and a line feed.
pub const CANNOT_READ: &str = "rfx: cannot read ";

/// Standard output couldn't be written.
pub const CANNOT_WRITE: &str = "rfx: cannot write\n";

/// Memory was refused.
pub const OUT_OF_MEMORY: &str = "rfx: out of memory\n";

/// The command line has none of the program's forms.
pub const USAGE: &str = "usage: rfx run [--table] FILE | rfx threads FILE | rfx check FILE\n";

/// Why nothing, or not all, of what a command line asks for was written.
#[derive(Clone, Copy)]
pub(crate) enum Failure {
    /// The command line has none of the program's forms.
    Usage,
    /// The file couldn't be opened, or a read of it failed.
    CannotRead,
    /// A write failed, or the writer didn't let go of what it kept back.
    CannotWrite,
    /// Memory was refused where no line of a script or a trace was being read or played.
    OutOfMemory,
    /// The file is no script, or can't be played.
    Script(ScriptFault),
    /// The file is no trace.
    Trace(TraceFault),
}

/// `rfx: line L: fault N: TEXT`.
fn write_fault<E: Write>(err: &mut E, line: usize, number: u8, words: &str) -> io::Result<()>
    ensures { Leaves (E.contents err.old) (E.contents err.new) result (fault_text line number words.now) }
{
    put_pieces(
        err,
        &[
            Word("rfx: line "),
            Number(line as u64),
            Word(": fault "),
            Number(number.into()),
            Word(": "),
            Word(words),
            Word("\n"),
        ],
    )
}

/// The message of a failure to serve this file.
fn write_failure<E: Write>(err: &mut E, file: &str, failure: Failure) -> io::Result<()>
    ensures { Leaves (E.contents err.old) (E.contents err.new) result (failure_text file.now failure) }
{
    match failure {
        Failure::Usage => put(err, &[USAGE]),
        Failure::CannotRead => put(err, &[CANNOT_READ, file, "\n"]),
        Failure::CannotWrite => put(err, &[CANNOT_WRITE]),
        Failure::OutOfMemory => put(err, &[OUT_OF_MEMORY]),
        Failure::Script(ScriptFault { line, fault }) => {
            write_fault(err, line, fault.number(), fault.words())
        }
        Failure::Trace(TraceFault { line, fault }) => {
            write_fault(err, line, fault.number(), fault.words())
        }
    }
}

/// Tells a failure to serve this file. Of a message that can't be written a beginning is left.
pub(crate) fn tell<E: Write>(err: &mut E, file: &str, failure: Failure)
    ensures { AppendsFront (E.contents err.old) (E.contents err.new) (failure_text file.now failure) }
{
    let _ = write_failure(err, file, failure);
    let _ = err.flush();
}

/// The exit status after a failure.
pub(crate) fn status_after(failure: Failure) -> u8
    ensures { result ≡ failure_status failure }
{
    match failure {
        Failure::Usage => 2,
        Failure::CannotRead
        | Failure::CannotWrite
        | Failure::OutOfMemory
        | Failure::Script(_)
        | Failure::Trace(_) => 1,
    }
}
