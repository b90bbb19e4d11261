//! The trace of a history, for programs that draw it: the one that `--trace` writes.

ghost use Rattle.std.specs.Prelude.{◌≡◌, ◌<◌, get_or, length, take, IfErr, IfOk, Ok};
ghost use Rattle.histories.specs.Reading.{IsHead};
ghost use Rattle.judge.specs.Judgements.{IsJudged};
ghost use Rattle.judge_report.specs.Heard.{heard_of, history_read};
ghost use Rattle.judge_report.specs.Texts.{illegal_text};
ghost use Rattle.judge_report.specs.Traces.{IsShown, IsShownOf, IsUnshown, IsUntraced, lines_of, unread_by, with_step};

use crate::illegal::tell_illegal;
use crate::reading::{History, ReadFault, read_history};
use crate::serving::{line_of, lines_before};
use facts::Line;
use histories::{Entry, Head, HistoryFault, HistoryLine};
use judge::{Judgement, Reason, judge};
use lockword::Reply;
use std::alloc::Global;

/// A history, as a trace shows it.
#[derive(Drop)]
pub struct Explained {
    pub head: Head,
    /// The trace's lines, in their order. Of an illegal history the last is its illegal line.
    pub lines: Vec<Line>,
    /// What the program says of an illegal history.
    pub said: Option<Vec<u8>>,
}

/// Why a history has no trace.
#[derive(Clone, Copy, Debug, PartialEq, Eq)]
pub enum Untraced {
    /// Memory was refused.
    OutOfMemory,
    /// The bytes are no history.
    Ill(HistoryFault),
    /// Up to this line neither an order of the calls was found, nor that there is none.
    Undecided(HistoryLine),
}

/// What a fault of reading bytes is reported as. Reading them fails only if they have more lines than memory has.
fn unread_by(fault: ReadFault) -> Untraced
    ensures { result ≡ unread_by fault }
{
    match fault {
        ReadFault::Failed | ReadFault::Memory => Untraced::OutOfMemory,
        ReadFault::Ill(at) => Untraced::Ill(at),
    }
}

/// Reads a history from its bytes.
fn read_bytes(alloc: Global, bytes: &[u8]) -> Result<History, Untraced>
    ensures gives { IfOk result (λ h. history_read bytes.now ≡ Ok (heard_of h)) }
    ensures head { IfOk result (λ h. IsHead h.head) }
    ensures fails { IfErr result (IsUntraced bytes.now) }
{
    let mut input = bytes;
    match read_history(alloc, &mut input) {
        Ok(history) => Ok(history),
        Err(fault) => Err(unread_by(fault)),
    }
}

/// Adds the line that a step tells, if it tells one.
fn add_step(lines: &mut Vec<Line>, step: Entry) -> Result<(), Untraced>
    ensures added { IfOk result (λ _. lines.new.items ≡ with_step lines.old.items step) }
    ensures fails { IfErr result (λ why. why ≡ Untraced.OutOfMemory) }
{
    let Entry::Told(fact) = step else {
        return Ok(());
    };
    let Ok(event) = u32::try_from(lines.len() + 1) else {
        return Err(Untraced::OutOfMemory);
    };
    match lines.push(Line { event, fact }) {
        Ok(()) => Ok(()),
        Err(_refused) => Err(Untraced::OutOfMemory),
    }
}

/// The lines of the trace that these steps are.
fn lines_of(alloc: Global, steps: &[Entry]) -> Result<Vec<Line>, Untraced>
    ensures lines { IfOk result (λ v. v.items ≡ lines_of steps.now) }
    ensures fails { IfErr result (λ why. why ≡ Untraced.OutOfMemory) }
{
    let mut lines = Vec::new(alloc);
    for step in steps {
        add_step(&mut lines, *step)?;
    }
    Ok(lines)
}

/// What the program says of an illegal history.
fn said_of(
    alloc: Global,
    history: &History,
    at: usize,
    why: &Reason,
    possible: &[Reply],
) -> Result<Vec<u8>, Untraced>
    requires { at < length history.now.lines.items }
    ensures said { IfOk result (λ v. (line : HistoryLine) × (line ≡ get_or history.now.lines.items at line)
        × (v.items ≡ illegal_text (take at history.now.lines.items) line why.now possible.now)) }
    ensures fails { IfErr result (λ why. why ≡ Untraced.OutOfMemory) }
{
    let mut text = Vec::new(alloc);
    let line = line_of(history, at);
    match tell_illegal(&mut text, lines_before(history, at), &line, why, possible) {
        Ok(()) => Ok(text),
        Err(_refused) => Err(Untraced::OutOfMemory),
    }
}

/// A history that was judged so, as a trace shows it.
fn shown(alloc: Global, history: &History, judgement: &Judgement) -> Result<Explained, Untraced>
    requires { IsJudged history.now.head history.now.lines.items judgement.now }
    ensures shown { IfOk result (IsShown (heard_of history.now)) }
    ensures head { IfOk result (λ x. x.head ≡ history.now.head) }
    ensures fails { IfErr result (IsUnshown (heard_of history.now) judgement.now) }
{
    let head = history.head;
    match judgement {
        Judgement::Legal(steps) => {
            let lines = lines_of(alloc, steps)?;
            let said = None;
            Ok(Explained { head, lines, said })
        }
        Judgement::Illegal {
            at,
            why,
            possible,
            steps,
        } => {
            let lines = lines_of(alloc, steps)?;
            let said = Some(said_of(alloc, history, *at, why, possible)?);
            Ok(Explained { head, lines, said })
        }
        Judgement::Undecided(at) => Err(Untraced::Undecided(line_of(history, *at))),
    }
}

/// Judges the history that these bytes are, and returns the trace that `--trace` writes of it: with an order of all its
/// calls, if it is legal; or with one of those up to its illegal line, that line, and what the program says of it.
pub fn explain_history(alloc: Global, bytes: &[u8]) -> Result<Explained, Untraced>
    ensures shown { IfOk result (IsShownOf bytes.now) }
    ensures head { IfOk result (λ x. IsHead x.head) }
    ensures fails { IfErr result (IsUntraced bytes.now) }
{
    let history = match read_bytes(alloc, bytes) {
        Ok(history) => history,
        Err(why) => return Err(why),
    };
    let Ok(judgement) = judge(alloc, &history.head, &history.lines) else {
        return Err(Untraced::OutOfMemory);
    };
    shown(alloc, &history, &judgement)
}
