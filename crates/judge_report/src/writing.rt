//! The texts of histories' lines.

ghost use Rattle.std.specs.Prelude.{[], ◌∷◌, codes, decimal};
ghost use Rattle.std.specs.List.{concat};
ghost use Rattle.streams.specs.Leaves.{Leaves};
ghost use Rattle.judge_report.specs.Texts.{doom_line, entry_text, quote};

use histories::{Entry, HistoryLine};
use lockword::Tid;
use std::io::{self, Write};
use streams::Piece::{Number, Word};
use streams::{put, put_pieces};
use windows::write_fact;

/// `i doom tT`: from here on the thread tells nothing.
fn write_doom<W: Write>(out: &mut W, event: u64, thread: Tid) -> io::Result<()>
    ensures { Leaves (W.contents out.old) (W.contents out.new) result (doom_line event thread) }
{
    put_pieces(
        out,
        &[
            Number(event),
            Word(" doom t"),
            Number(thread.get().into()),
            Word("\n"),
        ],
    )
}

fn write_entry<W: Write>(out: &mut W, event: u64, entry: Entry) -> io::Result<()>
    ensures { Leaves (W.contents out.old) (W.contents out.new) result (entry_text event entry) }
{
    match entry {
        Entry::Told(fact) => write_fact(out, event, fact),
        Entry::Doom(thread) => write_doom(out, event, thread),
    }
}

/// Quotes a line of a history.
pub fn write_quote<W: Write>(out: &mut W, line: &HistoryLine) -> io::Result<()>
    ensures { Leaves (W.contents out.old) (W.contents out.new) result (quote line.now) }
{
    put(out, &["  | "])?;
    write_entry(out, line.event, line.entry)
}
