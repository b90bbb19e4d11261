//! The program, except for opening its file.

ghost use Rattle.std.specs.Prelude.{◌≡◌, ◌<◌, get_or, length, take, true, false, IfOk, IfErr, OnOk};
ghost use Rattle.histories.specs.Reading.{IsHead};
ghost use Rattle.judge.specs.Judgements.{IsJudged};
ghost use Rattle.judge_report.specs.Heard.{heard_of};
ghost use Rattle.judge_report.specs.Asked.{kept_of};
ghost use Rattle.judge_report.specs.Said.{AreNamed, Tells, status_of};
ghost use Rattle.judge_report.specs.Served.{Fails, IsRead, SaysThen, Serves, Unread, failed_by, is_memory};

use crate::asking::Keeping;
use crate::illegal::tell_illegal;
use crate::keeping::{Cut, keep};
use crate::making::Maker;
use crate::messages::Failure;
use crate::reading::{History, ReadFault, read_history};
use crate::telling::{tell_legal, tell_undecided};
use certificates::{Waiter, points_of, still_waiting};
use histories::HistoryLine;
use judge::{Judgement, judge};
use std::alloc::{AllocError, Global};
use std::io::{self, BufReader, Read, Write};
use streams::Output;

/// What a fault of reading is reported as.
fn failed_by(fault: ReadFault) -> Failure
    ensures { result ≡ failed_by fault }
{
    match fault {
        ReadFault::Failed => Failure::CannotRead,
        ReadFault::Memory => Failure::OutOfMemory,
        ReadFault::Ill(at) => Failure::Ill(at),
    }
}

/// Reads a history.
fn read_file<R: Read + Drop>(alloc: Global, input: R) -> Result<History, Failure>
    ensures gives { IfOk result (λ h. IsRead (R.remaining input) (heard_of h)) }
    ensures head { IfOk result (λ h. IsHead h.head) }
    ensures fails { IfErr result (Unread (R.remaining input)) }
{
    let Ok(mut input) = BufReader::new(alloc, input) else {
        return Err(Failure::OutOfMemory);
    };
    match read_history(alloc, &mut input) {
        Ok(history) => Ok(history),
        Err(fault) => Err(failed_by(fault)),
    }
}

/// The calls that are named after the judgement, if they are asked for.
fn named(alloc: Global, waiting: bool, judgement: &Judgement) -> Result<Vec<Waiter>, AllocError>
    ensures { IfOk result (λ ws. AreNamed waiting judgement.now ws.items) }
{
    match judgement {
        Judgement::Legal(steps) => {
            if waiting {
                still_waiting(alloc, steps)
            } else {
                Ok(Vec::new(alloc))
            }
        }
        Judgement::Illegal { .. } | Judgement::Undecided(_) => Ok(Vec::new(alloc)),
    }
}

/// The line at this place, counted from 0.
pub fn line_of(history: &History, at: usize) -> HistoryLine
    requires { at < length history.now.lines.items }
    ensures { result ≡ get_or history.now.lines.items at result }
{
    history.lines[at]
}

/// The lines before this place, counted from 0.
pub fn lines_before(history: &History, at: usize) -> &[HistoryLine]
    requires { at < length history.now.lines.items }
    ensures { result.now ≡ take at history.now.lines.items }
{
    &history.lines[..at]
}

/// Tells what the history was found to be, with the windows that its certificate was cut into, and the calls that still
/// wait and shouldn't, if they are to be named.
fn tell<W: Write>(
    out: &mut W,
    waiting: bool,
    history: &History,
    judgement: &Judgement,
    cuts: &[Cut],
    waiters: &[Waiter],
) -> io::Result<()>
    requires judged { IsJudged history.now.head history.now.lines.items judgement.now }
    requires named { AreNamed waiting judgement.now waiters.now }
    ensures { Tells waiting (heard_of history.now) judgement.now cuts.now (W.contents out.old) (W.contents out.new) result }
{
    match judgement {
        Judgement::Legal(steps) => tell_legal(out, points_of(steps), cuts, &history.lines, waiters),
        Judgement::Illegal {
            at,
            why,
            possible,
            ..
        } => {
            tell_illegal(
                out,
                lines_before(history, *at),
                &line_of(history, *at),
                why,
                possible,
            )
        }
        Judgement::Undecided(at) => tell_undecided(out, &line_of(history, *at)),
    }
}

/// The exit status where this is reported.
fn status_of(judgement: &Judgement) -> u8
    ensures { result ≡ status_of judgement.now }
{
    match judgement {
        Judgement::Legal(_) => 0,
        Judgement::Illegal { .. } | Judgement::Undecided(_) => 1,
    }
}

/// Tells what the history was found to be, and lets go of what the writer kept back.
fn tell_out<W: Output>(
    out: &mut W,
    waiting: bool,
    history: &History,
    judgement: &Judgement,
    cuts: &[Cut],
    waiters: &[Waiter],
) -> io::Result<()>
    requires judged { IsJudged history.now.head history.now.lines.items judgement.now }
    requires named { AreNamed waiting judgement.now waiters.now }
    ensures tells { Tells waiting (heard_of history.now) judgement.now cuts.now (W.contents out.old) (W.contents out.new) result }
    ensures let_go { OnOk result (W.is_let_go out.new) }
{
    tell(out, waiting, history, judgement, cuts, waiters)?;
    match out.let_go() {
        Ok(()) => Ok(()),
        Err(kept) => Err(kept),
    }
}

/// Tells what the history was found to be, without windows, and returns this failure, which is to be reported then; or the
/// failure to tell it.
fn tell_alone<W: Output>(
    out: &mut W,
    waiting: bool,
    history: &History,
    judgement: &Judgement,
    waiters: &[Waiter],
    failure: Failure,
) -> Failure
    requires judged { IsJudged history.now.head history.now.lines.items judgement.now }
    requires named { AreNamed waiting judgement.now waiters.now }
    ensures { SaysThen waiting (heard_of history.now) judgement.now (W.contents out.old) (W.contents out.new)
        (W.is_let_go out.new) failure result }
{
    match tell_out(out, waiting, history, judgement, &[], waiters) {
        Ok(()) => failure,
        Err(_unwritten) => Failure::CannotWrite,
    }
}

fn is_memory(failure: Failure) -> bool
    ensures { result ≡ is_memory failure }
{
    matches!(failure, Failure::OutOfMemory)
}

/// What is to be reported of a history whose certificate wasn't kept for this reason. What the history was found to be is
/// told before, if no memory was refused.
fn tell_unkept<W: Output>(
    out: &mut W,
    waiting: bool,
    history: &History,
    judgement: &Judgement,
    waiters: &[Waiter],
    failure: Failure,
) -> Failure
    requires judged { IsJudged history.now.head history.now.lines.items judgement.now }
    requires named { AreNamed waiting judgement.now waiters.now }
    ensures memory { is_memory failure ≡ true → result ≡ failure }
    ensures nothing { is_memory failure ≡ true → W.contents out.new ≡ W.contents out.old }
    ensures says { is_memory failure ≡ false
        → SaysThen waiting (heard_of history.now) judgement.now (W.contents out.old) (W.contents out.new)
        (W.is_let_go out.new) failure result }
{
    if is_memory(failure) {
        failure
    } else {
        tell_alone(out, waiting, history, judgement, waiters, failure)
    }
}

/// Judges the history that the reader has, keeps its certificate if it is to be kept, and writes what the history was
/// found to be. Then come the windows that its certificate was cut into, and the calls that still wait and shouldn't, if
/// these are asked for. Returns the exit status. If the certificate couldn't be kept, what the history was found to be is
/// written nevertheless, and that failure is returned.
pub fn serve<R: Read + Drop, M: Maker, W: Output>(
    alloc: Global,
    waiting: bool,
    keeping: Keeping<'_>,
    input: R,
    maker: &M,
    out: &mut W,
) -> Result<u8, Failure>
    ensures serves { IfOk result (λ status. Serves (M.makes maker.now) (M.fills maker.now) waiting
        (kept_of keeping.entry) (R.remaining input) (W.contents out.old) (W.contents out.new) status) }
    ensures let_go { OnOk result (W.is_let_go out.new) }
    ensures fails { IfErr result (Fails (M.makes maker.now) (M.fills maker.now) waiting (kept_of keeping.entry)
        (R.remaining input) (W.contents out.old) (W.contents out.new) (W.is_let_go out.new)) }
{
    let history = match read_file(alloc, input) {
        Ok(history) => history,
        Err(failure) => return Err(failure),
    };
    let Ok(judgement) = judge(alloc, &history.head, &history.lines) else {
        return Err(Failure::OutOfMemory);
    };
    let Ok(waiters) = named(alloc, waiting, &judgement) else {
        return Err(Failure::OutOfMemory);
    };
    let cuts = match keep(alloc, maker, keeping, &history, &judgement) {
        Ok(cuts) => cuts,
        Err(failure) => {
            return Err(tell_unkept(out, waiting, &history, &judgement, &waiters, failure));
        }
    };
    match tell_out(out, waiting, &history, &judgement, &cuts, &waiters) {
        Ok(()) => Ok(status_of(&judgement)),
        Err(_unwritten) => Err(Failure::CannotWrite),
    }
}
