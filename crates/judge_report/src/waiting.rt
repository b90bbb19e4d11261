//! What is reported of the calls that still wait and shouldn't.

ghost use Rattle.std.specs.Prelude.{Some, None};
ghost use Rattle.streams.specs.Leaves.{Leaves};
ghost use Rattle.judge_report.specs.Texts.{quote_of, since_note, since_words, waiter_lines, waiter_text, waiter_title};
ghost use Rattle.judge_report.specs.Texts.{waiters_text};

use crate::places::{line_at, line_of};
use crate::writing::write_quote;
use certificates::Waiter;
use histories::HistoryLine;
use std::io::{self, Write};
use streams::Piece::{Number, Word};
use streams::put_pieces;

/// What the mutex is that a call still waits for, since this line.
fn write_left<W: Write>(out: &mut W, unusable: bool, line: &HistoryLine) -> io::Result<()>
    ensures { Leaves (W.contents out.old) (W.contents out.new) result (since_words unusable (Some line.now)) }
{
    let number = Number(line.number);
    let event = Number(line.event);
    if unusable {
        put_pieces(
            out,
            &[
                Word(", which is unusable since line "),
                number,
                Word(" (event "),
                event,
                Word(")\n"),
            ],
        )
    } else {
        put_pieces(
            out,
            &[
                Word(", which nobody owns since line "),
                number,
                Word(" (event "),
                event,
                Word(")\n"),
            ],
        )
    }
}

/// What the mutex is that a call still waits for, if nobody left it.
fn write_never_left<W: Write>(out: &mut W, unusable: bool) -> io::Result<()>
    ensures { Leaves (W.contents out.old) (W.contents out.new) result (since_words unusable None) }
{
    if unusable {
        put_pieces(out, &[Word(", which is unusable\n")])
    } else {
        put_pieces(out, &[Word(", which nobody has owned\n")])
    }
}

/// What the mutex is that a call still waits for, and since which line, if there is one.
fn write_since_words<W: Write>(
    out: &mut W,
    unusable: bool,
    since: &Option<HistoryLine>,
) -> io::Result<()>
    ensures { Leaves (W.contents out.old) (W.contents out.new) result (since_words unusable since.now) }
{
    match since {
        Some(line) => write_left(out, unusable, line),
        None => write_never_left(out, unusable),
    }
}

/// Quotes a line, if it is there.
fn write_quote_of<W: Write>(out: &mut W, line: Option<HistoryLine>) -> io::Result<()>
    ensures { Leaves (W.contents out.old) (W.contents out.new) result (quote_of line) }
{
    match line {
        Some(line) => write_quote(out, &line),
        None => Ok(()),
    }
}

/// Which line to see for a mutex that was left without an owner.
fn write_since<W: Write>(out: &mut W, line: &HistoryLine) -> io::Result<()>
    ensures { Leaves (W.contents out.old) (W.contents out.new) result (since_note (Some line.now)) }
{
    put_pieces(
        out,
        &[
            Word("  = see line "),
            Number(line.number),
            Word(" (event "),
            Number(line.event),
            Word("):\n"),
        ],
    )?;
    write_quote(out, line)
}

/// Which line to see, if the mutex was left without an owner.
fn write_since_note<W: Write>(out: &mut W, line: &Option<HistoryLine>) -> io::Result<()>
    ensures { Leaves (W.contents out.old) (W.contents out.new) result (since_note line.now) }
{
    match line {
        Some(line) => write_since(out, line),
        None => Ok(()),
    }
}

/// Which thread still waits, and for which mutex.
fn write_waiter_title<W: Write>(out: &mut W, waiter: &Waiter) -> io::Result<()>
    ensures { Leaves (W.contents out.old) (W.contents out.new) result (waiter_title waiter.now) }
{
    put_pieces(
        out,
        &[
            Word("still waits: t"),
            Number(waiter.thread.get().into()),
            Word(" for m"),
            Number(waiter.mutex.into()),
        ],
    )
}

/// A call that still waits and shouldn't, the line where it began, and the last before its mutex was left.
fn write_waiter_lines<W: Write>(
    out: &mut W,
    waiter: &Waiter,
    begin: Option<HistoryLine>,
    since: &Option<HistoryLine>,
) -> io::Result<()>
    ensures { Leaves (W.contents out.old) (W.contents out.new) result (waiter_lines waiter.now begin since.now) }
{
    write_waiter_title(out, waiter)?;
    write_since_words(out, waiter.unusable, since)?;
    write_quote_of(out, begin)?;
    write_since_note(out, since)
}

/// A call that still waits and shouldn't.
fn write_waiter<W: Write>(out: &mut W, lines: &[HistoryLine], waiter: &Waiter) -> io::Result<()>
    ensures { Leaves (W.contents out.old) (W.contents out.new) result (waiter_text lines.now waiter.now) }
{
    let begin = line_at(lines, waiter.begin);
    let since = line_of(lines, waiter.since);
    write_waiter_lines(out, waiter, begin, &since)
}

/// The calls that still wait and shouldn't.
pub fn write_waiters<W: Write>(
    out: &mut W,
    lines: &[HistoryLine],
    waiters: &[Waiter],
) -> io::Result<()>
    ensures { Leaves (W.contents out.old) (W.contents out.new) result (waiters_text lines.now waiters.now) }
{
    for waiter in waiters {
        write_waiter(out, lines, waiter)?;
    }
    Ok(())
}
