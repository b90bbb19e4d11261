//! The program, except for opening its file.

ghost use Rattle.std.specs.Prelude.{◌≡◌, ◌≤◌, ◌<◌, ◌^◌, ◌+◌, length, vec_len, IfOk, IfErr, OnOk};
ghost use Rattle.std.specs.Io.KnownBytes.{Consumes, IsAtEnd};
ghost use Rattle.streams.specs.Leaves.{Leaves};
ghost use Rattle.streams.specs.Taken.{TakesAtMost};
ghost use Rattle.verdict.specs.Limits.{max_bytes};
ghost use Rattle.explain.specs.Served.{Fails, FailsTelling, IsUnread, Serves, Tells, failed_by};

use crate::explaining::tell;
use crate::failures::Failure;
use std::alloc::Global;
use std::io::{self, Read};
use streams::{Output, ReadFault, put_text, read_below};
use verdict::MAX_BYTES;

/// The message of a fault of reading.
fn failed_by(fault: ReadFault) -> Failure
    ensures { result ≡ failed_by fault }
{
    match fault {
        ReadFault::Memory => Failure::OutOfMemory,
        ReadFault::Failed => Failure::CannotRead,
    }
}

/// Reads the file's bytes, at most one more than a trace may have.
fn read_file<R: Read>(alloc: Global, input: &mut R) -> Result<Vec<u8>, Failure>
    ensures taken { IfOk result (λ v. Consumes (R.remaining input.old) (R.remaining input.new) v.items) }
    ensures end { IfOk result (λ v. vec_len v ≤ max_bytes → IsAtEnd (R.remaining input.new)) }
    ensures few { IfOk result (λ v. vec_len v ≤ max_bytes + 1) }
    ensures fails { IfErr result IsUnread }
    ensures limit { TakesAtMost (max_bytes + 1) (R.remaining input.old) (R.remaining input.new) }
{
    match read_below(alloc, input, MAX_BYTES + 1) {
        Ok(bytes) => Ok(bytes),
        Err(fault) => Err(failed_by(fault)),
    }
}

/// Writes a text, and lets go of what the writer kept back.
fn write_out<W: Output>(text: &[u8], out: &mut W) -> io::Result<()>
    ensures text { Leaves (W.contents out.old) (W.contents out.new) result text.now }
    ensures let_go { OnOk result (W.is_let_go out.new) }
{
    put_text(out, text)?;
    match out.let_go() {
        Ok(()) => Ok(()),
        Err(kept) => Err(kept),
    }
}

/// Writes what is said of a file's bytes, and returns the exit status.
fn tell_bytes<W: Output>(
    alloc: Global,
    file: &str,
    bytes: &[u8],
    out: &mut W,
) -> Result<u8, Failure>
    requires { length bytes.now < 2 ^ 32 }
    ensures tells { IfOk result (λ status. Tells file.now bytes.now (W.contents out.old) (W.contents out.new) status) }
    ensures let_go { OnOk result (W.is_let_go out.new) }
    ensures fails { IfErr result (FailsTelling file.now bytes.now (W.contents out.old) (W.contents out.new)) }
{
    let Ok(told) = tell(alloc, file, bytes) else {
        return Err(Failure::OutOfMemory);
    };
    match write_out(&told.text, out) {
        Ok(()) => Ok(told.status),
        Err(_unwritten) => Err(Failure::CannotWrite),
    }
}

/// Reads a file, writes what is said of it, and returns the exit status. It reads at most one byte more than a
/// trace may have.
pub fn serve<R: Read, W: Output>(
    alloc: Global,
    file: &str,
    input: &mut R,
    out: &mut W,
) -> Result<u8, Failure>
    ensures serves { IfOk result
        (λ status. Serves file.now (R.remaining input.old) (R.remaining input.new) (W.contents out.old)
        (W.contents out.new) status) }
    ensures let_go { OnOk result (W.is_let_go out.new) }
    ensures fails { IfErr result
        (Fails file.now (R.remaining input.old) (R.remaining input.new) (W.contents out.old) (W.contents out.new)) }
    ensures limit { TakesAtMost (max_bytes + 1) (R.remaining input.old) (R.remaining input.new) }
{
    match read_file(alloc, input) {
        Ok(bytes) => tell_bytes(alloc, file, &bytes, out),
        Err(failure) => Err(failure),
    }
}
