//! Judging a trace, and writing the verdict.

ghost use Rattle.std.specs.Prelude.{◌≡◌, IfOk, IfErr, OnOk};
ghost use Rattle.streams.specs.Leaves.{Leaves};
ghost use Rattle.report.specs.Failed.{FailsTrace};
ghost use Rattle.report.specs.Verdicts.{verdict_status, verdict_text, Finds};

use crate::messages::Failure;
use std::alloc::Global;
use std::io::{self, Write};
use streams::Piece::{Number, Word};
use streams::{Output, put_pieces};
use verdict::{Verdict, check};

/// `legal N points`, or `illegal at line L`.
fn write_verdict<W: Write>(verdict: Verdict, out: &mut W) -> io::Result<()>
    ensures { Leaves (W.contents out.old) (W.contents out.new) result (verdict_text verdict) }
{
    match verdict {
        Verdict::Legal { points } => put_pieces(
            out,
            &[Word("legal "), Number(points as u64), Word(" points\n")],
        ),
        Verdict::Illegal { line } => put_pieces(
            out,
            &[Word("illegal at line "), Number(line as u64), Word("\n")],
        ),
    }
}

/// Writes a verdict, and lets go of what the writer kept back.
fn write_verdict_out<W: Output>(verdict: Verdict, out: &mut W) -> io::Result<()>
    ensures text { Leaves (W.contents out.old) (W.contents out.new) result (verdict_text verdict) }
    ensures let_go { OnOk result (W.is_let_go out.new) }
{
    write_verdict(verdict, out)?;
    out.let_go()
}

/// The exit status for a verdict.
fn status_of(verdict: Verdict) -> u8
    ensures { result ≡ verdict_status verdict }
{
    match verdict {
        Verdict::Legal { .. } => 0,
        Verdict::Illegal { .. } => 1,
    }
}

/// Judges a trace's bytes, and writes the verdict. It answers the exit status: 0 for a legal trace, and 1 for an
/// illegal one.
pub(crate) fn judge_bytes<W: Output>(
    alloc: Global,
    bytes: &[u8],
    out: &mut W,
) -> Result<u8, Failure>
    ensures finds { IfOk result (Finds (W.contents out.old) (W.contents out.new) bytes.now) }
    ensures let_go { OnOk result (W.is_let_go out.new) }
    ensures fails { IfErr result (FailsTrace bytes.now (W.contents out.old) (W.contents out.new)) }
{
    let verdict = match check(alloc, bytes) {
        Ok(verdict) => verdict,
        Err(fault) => return Err(Failure::Trace(fault)),
    };
    match write_verdict_out(verdict, out) {
        Ok(()) => Ok(status_of(verdict)),
        Err(_failed) => Err(Failure::CannotWrite),
    }
}
