//! The text of a trace.

ghost use Rattle.std.specs.Prelude.{◌≡◌};
ghost use Rattle.protocol.specs.Notes.{facts_of};
ghost use Rattle.streams.specs.Leaves.{Leaves};
ghost use Rattle.texts.specs.Text.{facts_text, notes_text, trace_text};

use crate::trace_lines::{write_end, write_fact, write_head};
use interleave::Trace;
use protocol::Note;
use std::io::{self, Write};

/// The lines of what the event did.
fn write_note<W: Write>(out: &mut W, event: usize, note: &Note) -> io::Result<()>
    ensures { Leaves (W.contents out.old) (W.contents out.new) result (facts_text event (facts_of note.now)) }
{
    for fact in note.facts() {
        write_fact(out, event, fact)?;
    }
    Ok(())
}

/// The lines of all events, which are numbered from 1.
fn write_notes<W: Write>(out: &mut W, notes: &[Note]) -> io::Result<()>
    ensures { Leaves (W.contents out.old) (W.contents out.new) result (notes_text 1 notes.now) }
{
    for (i, note) in notes.iter().enumerate() {
        write_note(out, i + 1, note)?;
    }
    Ok(())
}

/// Writes the trace's text: `trace T M C`, a line for each thing that an event did, and `end N`. It takes no memory.
/// At an error a beginning of the text is written.
pub fn write_trace<W: Write>(trace: &Trace, out: &mut W) -> io::Result<()>
    ensures { Leaves (W.contents out.old) (W.contents out.new) result (trace_text trace.now) }
{
    write_head(out, trace.threads, trace.mutexes, trace.conditions)?;
    write_notes(out, &trace.notes)?;
    write_end(out, trace.notes.len())
}
