//! The program, except for opening its file.

ghost use Rattle.std.specs.Prelude.{◌≡◌, ◌+◌, option_map, IfOk, IfErr, OnOk};
ghost use Rattle.script.specs.Limits.{max_bytes};
ghost use Rattle.streams.specs.Leaves.{Leaves};
ghost use Rattle.streams.specs.Taken.{TakesAtMost};
ghost use Rattle.explore_report.specs.Asked.{choices_of, kept_of};
ghost use Rattle.explore_report.specs.Kept.{IsFilled, IsNotKept, IsUnfilled, IsWritten};
ghost use Rattle.explore_report.specs.Served.{Fails, FailsBytes, IsRead, IsUnread, Serves, ServesBytes, failed_by};

use crate::asking::{Options, Wanted};
use crate::exploring::{Told, Untold, tell};
use crate::making::Maker;
use crate::messages::Failure;
use outcomes::Progress;
use script::MAX_BYTES;
use std::alloc::Global;
use std::io::{self, Read, Write};
use streams::{Output, ReadFault, put_text, read_below};

/// What a fault of reading is reported as.
fn failed_by<'a>(fault: ReadFault) -> Failure<'a>
    ensures { result ≡ failed_by fault }
{
    match fault {
        ReadFault::Memory => Failure::Untold(Untold::OutOfMemory),
        ReadFault::Failed => Failure::CannotRead,
    }
}

/// Reads the file's bytes, at most one more than a script may have.
fn read_file<'a, R: Read>(alloc: Global, input: &mut R) -> Result<Vec<u8>, Failure<'a>>
    ensures read { IfOk result (λ v. IsRead (R.remaining input.old) (R.remaining input.new) v.items) }
    ensures fails { IfErr result IsUnread }
    ensures limit { TakesAtMost (max_bytes + 1) (R.remaining input.old) (R.remaining input.new) }
{
    match read_below(alloc, input, MAX_BYTES + 1) {
        Ok(bytes) => Ok(bytes),
        Err(fault) => Err(failed_by(fault)),
    }
}

/// Writes a text to a file of this name.
fn fill<M: Maker>(maker: &M, name: &str, text: &[u8]) -> io::Result<()>
    ensures { OnOk result (IsWritten (M.makes maker.now) (M.fills maker.now) name.now text.now) }
{
    let mut file = maker.make(name)?;
    put_text(&mut file, text)?;
    maker.fill(name, file)
}

/// Writes the script of an outcome to the file that is wanted.
fn keep_in<'a, M: Maker>(maker: &M, name: &'a str, script: &[u8]) -> Result<(), Failure<'a>>
    ensures kept { OnOk result (IsWritten (M.makes maker.now) (M.fills maker.now) name.now script.now) }
    ensures fails { IfErr result (IsNotKept name.now) }
{
    match fill(maker, name, script) {
        Ok(()) => Ok(()),
        Err(_unwritten) => Err(Failure::CannotKeep(name)),
    }
}

/// Writes the script of an outcome, if one is wanted.
fn keep<'a, M: Maker>(
    maker: &M,
    wanted: Option<Wanted<'a>>,
    script: &Option<Vec<u8>>,
) -> Result<(), Failure<'a>>
    ensures kept { OnOk result (IsFilled (M.makes maker.now) (M.fills maker.now) (option_map kept_of wanted.entry)
        (option_map (λ v. v.items) script.now)) }
    ensures fails { IfErr result (IsUnfilled (option_map kept_of wanted.entry)) }
{
    match wanted {
        Some(wanted) => match script {
            Some(text) => keep_in(maker, wanted.out, text),
            None => Ok(()),
        },
        None => Ok(()),
    }
}

/// Writes a text, and lets go of what the writer kept back.
fn write_out<W: Output>(text: &[u8], out: &mut W) -> io::Result<()>
    ensures text { Leaves (W.contents out.old) (W.contents out.new) result text.now }
    ensures let_go { OnOk result (W.is_let_go out.new) }
{
    put_text(out, text)?;
    match out.let_go() {
        Ok(()) => Ok(()),
        Err(kept) => Err(kept),
    }
}

/// Explores the script that these bytes are, writes what is said of it, and returns the exit status.
fn serve_bytes<'a, M: Maker, W: Output, P: Progress>(
    alloc: Global,
    options: &Options<'a>,
    bytes: &[u8],
    maker: &M,
    progress: &mut P,
    out: &mut W,
) -> Result<u8, Failure<'a>>
    ensures serves { IfOk result (ServesBytes (M.makes maker.now) (M.fills maker.now) (choices_of options.now)
        bytes.now (W.contents out.old) (W.contents out.new)) }
    ensures let_go { OnOk result (W.is_let_go out.new) }
    ensures fails { IfErr result (FailsBytes (M.makes maker.now) (M.fills maker.now) (choices_of options.now)
        bytes.now (W.contents out.old) (W.contents out.new)) }
{
    let told = match tell(alloc, options, bytes, progress) {
        Ok(told) => told,
        Err(why) => return Err(Failure::Untold(why)),
    };
    match keep(maker, options.script, &told.script) {
        Ok(()) => {}
        Err(failure) => return Err(failure),
    }
    match write_out(&told.text, out) {
        Ok(()) => Ok(told.status),
        Err(_unwritten) => Err(Failure::CannotWrite),
    }
}

/// Reads a script, explores it, writes what is said of it, and returns the exit status. It reads at most one byte more
/// than a script may have.
pub fn serve<'a, R: Read, M: Maker, W: Output, P: Progress>(
    alloc: Global,
    options: &Options<'a>,
    input: &mut R,
    maker: &M,
    progress: &mut P,
    out: &mut W,
) -> Result<u8, Failure<'a>>
    ensures serves { IfOk result (Serves (M.makes maker.now) (M.fills maker.now) (choices_of options.now)
        (R.remaining input.old) (R.remaining input.new) (W.contents out.old) (W.contents out.new)) }
    ensures let_go { OnOk result (W.is_let_go out.new) }
    ensures fails { IfErr result (Fails (M.makes maker.now) (M.fills maker.now) (choices_of options.now)
        (R.remaining input.old) (R.remaining input.new) (W.contents out.old) (W.contents out.new)) }
    ensures limit { TakesAtMost (max_bytes + 1) (R.remaining input.old) (R.remaining input.new) }
{
    match read_file(alloc, input) {
        Ok(bytes) => serve_bytes(alloc, options, &bytes, maker, progress, out),
        Err(failure) => Err(failure),
    }
}
