//! What the program says on standard error. Each whole message ends with a line feed.

ghost use Rattle.std.specs.Prelude.{◌≡◌};
ghost use Rattle.streams.specs.Leaves.{AppendsFront, Leaves};
ghost use Rattle.explain.specs.Failures.{failure_status, failure_text};

use std::io::{self, Write};
use streams::put;

/// Memory was refused.
pub const OUT_OF_MEMORY: &str = "rfx-explain: out of memory\n";

/// Why nothing, or not all, was said of a file.
#[derive(Clone, Copy)]
pub enum Failure {
    /// The command line has none of the program's forms.
    Usage,
    /// The file couldn't be opened, or a read of it failed.
    CannotRead,
    /// A write failed, or the writer didn't let go of what it kept back.
    CannotWrite,
    /// Memory was refused.
    OutOfMemory,
}

/// The message of a failure to explain this file.
fn write_failure<E: Write>(err: &mut E, file: &str, failure: Failure) -> io::Result<()>
    ensures { Leaves (E.contents err.old) (E.contents err.new) result (failure_text file.now failure) }
{
    match failure {
        Failure::Usage => put(err, &["usage: rfx-explain FILE\n"]),
        Failure::CannotRead => put(err, &["rfx-explain: cannot read ", file, "\n"]),
        Failure::CannotWrite => put(err, &["rfx-explain: cannot write\n"]),
        Failure::OutOfMemory => put(err, &[OUT_OF_MEMORY]),
    }
}

/// The exit status after a failure.
fn status_after(failure: Failure) -> u8
    ensures { result ≡ failure_status failure }
{
    match failure {
        Failure::Usage => 2,
        Failure::CannotRead | Failure::CannotWrite | Failure::OutOfMemory => 1,
    }
}

/// Tells a failure to explain this file, and answers the exit status after it. Of a message that can't be written a
/// beginning is left.
pub fn fail<E: Write>(err: &mut E, file: &str, failure: Failure) -> u8
    ensures told { AppendsFront (E.contents err.old) (E.contents err.new) (failure_text file.now failure) }
    ensures status { result ≡ failure_status failure }
{
    let _ = write_failure(err, file, failure);
    let _ = err.flush();
    status_after(failure)
}
