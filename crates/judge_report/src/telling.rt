//! What is reported of a history that is legal, or isn't decided.

ghost use Rattle.std.specs.Prelude.{◌≡◌, ◌++◌};
ghost use Rattle.streams.specs.Leaves.{Leaves};
ghost use Rattle.std.specs.List.{list_any};
ghost use Rattle.judge_report.specs.Texts.{cut_text, cuts_text, is_begin, legal_text, undecided_text, waiters_text};

use crate::keeping::Cut;
use crate::waiting::write_waiters;
use crate::writing::write_quote;
use certificates::Waiter;
use facts::Fact;
use histories::{Entry, HistoryLine};
use std::io::{self, Write};
use streams::Piece::{Number, Word};
use streams::put_pieces;

/// Whether the line begins a call.
fn is_begin(line: &HistoryLine) -> bool
    ensures { result ≡ is_begin line.now }
{
    match line.entry {
        Entry::Told(fact) => matches!(fact, Fact::Begin(..)),
        Entry::Doom(_) => false,
    }
}

/// Whether the history has a call.
fn has_calls(lines: &[HistoryLine]) -> bool
    ensures { result ≡ list_any is_begin lines.now }
{
    lines.iter().any(|line| is_begin(line))
}

/// How many points a legal history has, and that one without calls is legal for that reason.
fn write_legal<W: Write>(out: &mut W, points: usize, lines: &[HistoryLine]) -> io::Result<()>
    ensures { Leaves (W.contents out.old) (W.contents out.new) result (legal_text points lines.now) }
{
    let points = Number(points as u64);
    if has_calls(lines) {
        put_pieces(out, &[Word("legal "), points, Word(" points\n")])
    } else {
        put_pieces(
            out,
            &[
                Word("legal "),
                points,
                Word(" points: the history is empty, it has no calls\n"),
            ],
        )
    }
}

/// Which of the certificate's events a window has.
fn write_cut<W: Write>(out: &mut W, cut: &Cut) -> io::Result<()>
    ensures { Leaves (W.contents out.old) (W.contents out.new) result (cut_text cut.now) }
{
    put_pieces(
        out,
        &[
            Word("window "),
            Number(cut.number as u64),
            Word(": events behind "),
            Number(cut.before as u64),
            Word(", up to "),
            Number(cut.last as u64),
            Word("; before them "),
            Number(cut.preamble as u64),
            Word(" of its own\n"),
        ],
    )
}

/// Which windows the certificate was cut into.
fn write_cuts<W: Write>(out: &mut W, cuts: &[Cut]) -> io::Result<()>
    ensures { Leaves (W.contents out.old) (W.contents out.new) result (cuts_text cuts.now) }
{
    for cut in cuts {
        write_cut(out, cut)?;
    }
    Ok(())
}

/// The same, and the calls that still wait and shouldn't.
fn write_rest<W: Write>(
    out: &mut W,
    cuts: &[Cut],
    lines: &[HistoryLine],
    waiters: &[Waiter],
) -> io::Result<()>
    ensures { Leaves (W.contents out.old) (W.contents out.new) result
        (cuts_text cuts.now ++ waiters_text lines.now waiters.now) }
{
    write_cuts(out, cuts)?;
    write_waiters(out, lines, waiters)
}

/// Tells that the history is legal, with this many points, which windows its certificate was cut into, and names
/// these calls that still wait and shouldn't.
pub fn tell_legal<W: Write>(
    out: &mut W,
    points: usize,
    cuts: &[Cut],
    lines: &[HistoryLine],
    waiters: &[Waiter],
) -> io::Result<()>
    ensures { Leaves (W.contents out.old) (W.contents out.new) result
        (legal_text points lines.now ++ (cuts_text cuts.now ++ waiters_text lines.now waiters.now)) }
{
    write_legal(out, points, lines)?;
    write_rest(out, cuts, lines, waiters)
}

/// Tells that no certificate of the lines up to this one was found.
pub fn tell_undecided<W: Write>(out: &mut W, line: &HistoryLine) -> io::Result<()>
    ensures { Leaves (W.contents out.old) (W.contents out.new) result (undecided_text line.now) }
{
    put_pieces(
        out,
        &[
            Word("undecided at line "),
            Number(line.number),
            Word(" (event "),
            Number(line.event),
            Word(")\n"),
        ],
    )?;
    write_quote(out, line)
}
