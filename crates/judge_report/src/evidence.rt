//! What is reported of the lines that say how a mutex stood.

ghost use Rattle.std.specs.Prelude.{◌++◌, Some};
ghost use Rattle.streams.specs.Leaves.{Leaves};
ghost use Rattle.judge_report.specs.Texts.{death_note, death_title, earlier_note, evidence_notes, reply_note, reply_title};

use crate::places::{line_at, line_of, thread_of};
use crate::writing::write_quote;
use histories::HistoryLine;
use judge::{EarlierReply, Evidence};
use std::io::{self, Write};
use streams::Piece::{Number, Word};
use streams::put_pieces;

/// Writes that a thread died there which may have owned the mutex.
fn write_death_title<W: Write>(out: &mut W, mutex: u16, line: &HistoryLine) -> io::Result<()>
    ensures { Leaves (W.contents out.old) (W.contents out.new) result (death_title mutex line.now) }
{
    let at = Number(line.number);
    let event = Number(line.event);
    let thread = Number(thread_of(line).get().into());
    put_pieces(
        out,
        &[
            Word("  = see line "),
            at,
            Word(" (event "),
            event,
            Word("): t"),
            thread,
            Word(" may have owned m"),
            Number(mutex.into()),
            Word(" when it died\n"),
        ],
    )
}

/// Where a thread died that may have owned the mutex.
fn write_death<W: Write>(out: &mut W, mutex: u16, line: &HistoryLine) -> io::Result<()>
    ensures { Leaves (W.contents out.old) (W.contents out.new) result (death_note mutex (Some line.now)) }
{
    write_death_title(out, mutex, line)?;
    write_quote(out, line)
}

/// Where a thread died that may have owned the mutex, if that line is there.
fn write_death_at<W: Write>(out: &mut W, mutex: u16, line: Option<HistoryLine>) -> io::Result<()>
    ensures { Leaves (W.contents out.old) (W.contents out.new) result (death_note mutex line) }
{
    match line {
        Some(line) => write_death(out, mutex, &line),
        None => Ok(()),
    }
}

/// What another call's reply was, which this line tells.
fn write_reply_title<W: Write>(
    out: &mut W,
    mutex: u16,
    told: &EarlierReply,
    line: &HistoryLine,
) -> io::Result<()>
    ensures { Leaves (W.contents out.old) (W.contents out.new) result (reply_title mutex told.now line.now) }
{
    let EarlierReply {
        place: _,
        thread,
        operation,
        reply,
    } = *told;
    put_pieces(
        out,
        &[
            Word("  = see line "),
            Number(line.number),
            Word(" (event "),
            Number(line.event),
            Word("): t"),
            Number(thread.get().into()),
            Word(" was told "),
            Word(reply.name()),
            Word(" for its "),
            Word(operation.word()),
            Word(" of m"),
            Number(mutex.into()),
            Word("\n"),
        ],
    )
}

/// What another call's reply did to the mutex, and the line that tells it.
fn write_reply<W: Write>(
    out: &mut W,
    mutex: u16,
    told: &EarlierReply,
    line: &HistoryLine,
) -> io::Result<()>
    ensures { Leaves (W.contents out.old) (W.contents out.new) result (reply_note mutex told.now (Some line.now)) }
{
    write_reply_title(out, mutex, told, line)?;
    write_quote(out, line)
}

/// What another call's reply did to the mutex, if its line is there.
fn write_reply_at<W: Write>(
    out: &mut W,
    mutex: u16,
    told: &EarlierReply,
    line: Option<HistoryLine>,
) -> io::Result<()>
    ensures { Leaves (W.contents out.old) (W.contents out.new) result (reply_note mutex told.now line) }
{
    match line {
        Some(line) => write_reply(out, mutex, told, &line),
        None => Ok(()),
    }
}

/// What another call's reply did to the mutex, if there is one.
fn write_earlier<W: Write>(
    out: &mut W,
    lines: &[HistoryLine],
    mutex: u16,
    told: &Option<EarlierReply>,
) -> io::Result<()>
    ensures { Leaves (W.contents out.old) (W.contents out.new) result (earlier_note lines.now mutex told.now) }
{
    match told {
        Some(told) => write_reply_at(out, mutex, told, line_at(lines, told.place)),
        None => Ok(()),
    }
}

/// Writes who left the mutex since somebody got it.
fn write_left_since<W: Write>(
    out: &mut W,
    lines: &[HistoryLine],
    mutex: u16,
    evidence: &Evidence,
) -> io::Result<()>
    ensures { Leaves (W.contents out.old) (W.contents out.new) result (earlier_note lines.now mutex evidence.now.left) }
{
    write_earlier(out, lines, mutex, &evidence.left)
}

/// Writes who declared the mutex consistent, and who left it, since somebody got it.
fn write_changes_since<W: Write>(
    out: &mut W,
    lines: &[HistoryLine],
    mutex: u16,
    evidence: &Evidence,
) -> io::Result<()>
    ensures { Leaves (W.contents out.old) (W.contents out.new) result
        (earlier_note lines.now mutex evidence.now.declared ++ earlier_note lines.now mutex evidence.now.left) }
{
    write_earlier(out, lines, mutex, &evidence.declared)?;
    write_left_since(out, lines, mutex, evidence)
}

/// Writes who got the mutex last, and who changed it since.
fn write_replies<W: Write>(
    out: &mut W,
    lines: &[HistoryLine],
    mutex: u16,
    evidence: &Evidence,
) -> io::Result<()>
    ensures { Leaves (W.contents out.old) (W.contents out.new) result
        (earlier_note lines.now mutex evidence.now.got
        ++ (earlier_note lines.now mutex evidence.now.declared ++ earlier_note lines.now mutex evidence.now.left)) }
{
    write_earlier(out, lines, mutex, &evidence.got)?;
    write_changes_since(out, lines, mutex, evidence)
}

/// How the mutex stood after these lines.
pub fn write_evidence<W: Write>(
    out: &mut W,
    lines: &[HistoryLine],
    mutex: u16,
    evidence: &Evidence,
) -> io::Result<()>
    ensures { Leaves (W.contents out.old) (W.contents out.new) result (evidence_notes lines.now mutex evidence.now) }
{
    write_death_at(out, mutex, line_of(lines, evidence.death))?;
    write_replies(out, lines, mutex, evidence)
}
