//! What is reported of an illegal line.

ghost use Rattle.std.specs.Prelude.{◌≡◌, ◌-◌, ◌∷◌, ◌++◌, Some, reverse};
ghost use Rattle.streams.specs.Leaves.{Leaves};
ghost use Rattle.std.specs.List.{slice_get};
ghost use Rattle.certificates.specs.Certificates.{entries};
ghost use Rattle.judge.specs.Evidence.{evidence_of};
ghost use Rattle.judge_report.specs.Texts.{begin_note, entry_thread, evidence_notes, illegal_notes, illegal_text};
ghost use Rattle.judge_report.specs.Texts.{first_text, here_text, illegal_title, or_text, ors_text, possible_note};
ghost use Rattle.judge_report.specs.Texts.{turn_words, why_note};

use crate::evidence::write_evidence;
use crate::places::{line_at, thread_of};
use crate::writing::write_quote;
use histories::HistoryLine;
use judge::{OutOfTurn, Reason, evidence_of};
use lockword::Reply;
use std::io::{self, Write};
use streams::Piece::{Number, Word};
use streams::put_pieces;

/// What the thread is, that its line may not be there.
fn turn_words(why: OutOfTurn) -> &'static str
    ensures { result.now ≡ turn_words why }
{
    match why {
        OutOfTurn::InCall => " is in a call there\n",
        OutOfTurn::NoCall => " is in no call there\n",
        OutOfTurn::Dead => " is dead or doomed there\n",
        OutOfTurn::Reaped => " is reaped there\n",
        OutOfTurn::Alive => " is alive there: nothing told of its death\n",
        OutOfTurn::NotReaped => " isn't reaped there\n",
    }
}

/// Where the call began.
fn write_begin<W: Write>(out: &mut W, line: &HistoryLine) -> io::Result<()>
    ensures { Leaves (W.contents out.old) (W.contents out.new) result (begin_note (Some line.now)) }
{
    put_pieces(
        out,
        &[
            Word("  = see line "),
            Number(line.number),
            Word(" (event "),
            Number(line.event),
            Word("): the call began\n"),
        ],
    )?;
    write_quote(out, line)
}

/// Where the call began, if that line is there.
fn write_begin_at<W: Write>(out: &mut W, line: Option<HistoryLine>) -> io::Result<()>
    ensures { Leaves (W.contents out.old) (W.contents out.new) result (begin_note line) }
{
    match line {
        Some(line) => write_begin(out, &line),
        None => Ok(()),
    }
}

/// Why no order of the calls explains the line.
fn write_title<W: Write>(out: &mut W, line: &HistoryLine, why: &Reason) -> io::Result<()>
    ensures { Leaves (W.contents out.old) (W.contents out.new) result (illegal_title line.now why.now) }
{
    let at = Number(line.number);
    let event = Number(line.event);
    let thread = Number(thread_of(line).get().into());
    match *why {
        Reason::OutOfTurn(why) => put_pieces(
            out,
            &[
                Word("illegal at line "),
                at,
                Word(" (event "),
                event,
                Word("): t"),
                thread,
                Word(turn_words(why)),
            ],
        ),
        Reason::NoOrder {
            operation,
            mutex,
            reply,
            begin: _,
        } => put_pieces(
            out,
            &[
                Word("illegal at line "),
                at,
                Word(" (event "),
                event,
                Word("): no order of the calls gives t"),
                thread,
                Word(" "),
                Word(reply.name()),
                Word(" for its "),
                Word(operation.word()),
                Word(" of m"),
                Number(mutex.into()),
                Word("\n"),
            ],
        ),
    }
}

/// How the mutex stood after these lines, and where the call began that returns there.
fn write_call<W: Write>(
    out: &mut W,
    lines: &[HistoryLine],
    mutex: u16,
    begin: usize,
) -> io::Result<()>
    ensures { Leaves (W.contents out.old) (W.contents out.new) result
        (evidence_notes lines.now mutex (evidence_of mutex (reverse (entries lines.now)))
        ++ begin_note (slice_get lines.now (begin - 1))) }
{
    let evidence = evidence_of(lines, mutex);
    write_evidence(out, lines, mutex, &evidence)?;
    write_begin_at(out, line_at(lines, begin))
}

/// How the mutex of the call stood that returns there, and where the call began.
fn write_why<W: Write>(out: &mut W, lines: &[HistoryLine], why: &Reason) -> io::Result<()>
    ensures { Leaves (W.contents out.old) (W.contents out.new) result (why_note lines.now why.now) }
{
    match *why {
        Reason::OutOfTurn(_) => Ok(()),
        Reason::NoOrder { mutex, begin, .. } => write_call(out, lines, mutex, begin),
    }
}

/// The first of what the line's thread could get there.
fn write_first<W: Write>(out: &mut W, line: &HistoryLine, reply: Reply) -> io::Result<()>
    ensures { Leaves (W.contents out.old) (W.contents out.new) result (first_text (entry_thread line.now.entry) reply) }
{
    let thread = Number(thread_of(line).get().into());
    put_pieces(
        out,
        &[
            Word("  = t"),
            thread,
            Word(" could be told "),
            Word(reply.name()),
        ],
    )
}

/// Another of them.
fn write_or<W: Write>(out: &mut W, reply: &Reply) -> io::Result<()>
    ensures { Leaves (W.contents out.old) (W.contents out.new) result (or_text reply.now) }
{
    put_pieces(out, &[Word(" or "), Word(reply.name())])
}

/// The others.
fn write_ors<W: Write>(out: &mut W, replies: &[Reply]) -> io::Result<()>
    ensures { Leaves (W.contents out.old) (W.contents out.new) result (ors_text replies.now) }
{
    for reply in replies {
        write_or(out, reply)?;
    }
    Ok(())
}

fn write_here<W: Write>(out: &mut W) -> io::Result<()>
    ensures { Leaves (W.contents out.old) (W.contents out.new) result here_text }
{
    put_pieces(out, &[Word(" here\n")])
}

/// What the line's thread could get there: this reply, or one of the others.
fn write_each<W: Write>(
    out: &mut W,
    line: &HistoryLine,
    first: Reply,
    others: &[Reply],
) -> io::Result<()>
    ensures { Leaves (W.contents out.old) (W.contents out.new) result
        (possible_note (entry_thread line.now.entry) (first ∷ others.now)) }
{
    write_first(out, line, first)?;
    write_ors(out, others)?;
    write_here(out)
}

/// What the line's thread could get there, if anything was found.
fn write_possible<W: Write>(out: &mut W, line: &HistoryLine, possible: &[Reply]) -> io::Result<()>
    ensures { Leaves (W.contents out.old) (W.contents out.new) result
        (possible_note (entry_thread line.now.entry) possible.now) }
{
    match possible.split_first() {
        Some((first, others)) => write_each(out, line, *first, others),
        None => Ok(()),
    }
}

/// What stands after the line's quotation.
fn write_notes<W: Write>(
    out: &mut W,
    lines: &[HistoryLine],
    line: &HistoryLine,
    why: &Reason,
    possible: &[Reply],
) -> io::Result<()>
    ensures { Leaves (W.contents out.old) (W.contents out.new) result
        (illegal_notes lines.now line.now why.now possible.now) }
{
    write_possible(out, line, possible)?;
    write_why(out, lines, why)
}

/// Tells that no order of the calls explains these lines and this one after them, why, and which replies its thread could
/// have been reported.
pub fn tell_illegal<W: Write>(
    out: &mut W,
    lines: &[HistoryLine],
    line: &HistoryLine,
    why: &Reason,
    possible: &[Reply],
) -> io::Result<()>
    ensures { Leaves (W.contents out.old) (W.contents out.new) result
        (illegal_text lines.now line.now why.now possible.now) }
{
    write_title(out, line, why)?;
    write_quote(out, line)?;
    write_notes(out, lines, line, why, possible)
}
