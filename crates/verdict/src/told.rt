//! A trace's lines, in their order.

ghost use Rattle.std.specs.Prelude.{◌≡◌, ◌≤◌, ◌++◌, [], ◌∷◌, length, IfOk, IfErr};
ghost use Rattle.lines.specs.Lines.{lines_of};
ghost use Rattle.verdict.specs.Limits.{max_bytes};
ghost use Rattle.verdict.specs.declared.fault.Fault.TheVariants.{OutOfMemory};
ghost use Rattle.verdict.specs.Reading.{fault_at, IsHead, lines_read, text_read, trace_read};
ghost use Rattle.verdict.specs.Told.{IsWithin, Gives};

use crate::checking::unended_by;
use crate::fault::{Fault, TraceFault};
use crate::head::Head;
use crate::limits::MAX_BYTES;
use crate::reading::{Read, head_of, line_of};
use facts::Line;
use lines::{cut, text_of};
use std::alloc::Global;

/// A trace that was read.
#[derive(Drop)]
pub struct Told {
    /// The first line.
    pub head: Head,
    /// What each line after the first tells, in their order.
    pub lines: Vec<Line>,
    /// The number on its last line.
    pub last: u32,
}

/// Keeps a copy of what this line tells after the others.
fn keep<T: Copy>(lines: &mut Vec<T>, line: usize, entry: &T) -> Result<(), TraceFault>
    ensures kept { IfOk result (λ _. lines.new.items ≡ lines.old.items ++ entry.now ∷ []) }
    ensures wanted { IfErr result (λ e. e ≡ fault_at line OutOfMemory) }
{
    match lines.push(*entry) {
        Ok(()) => Ok(()),
        Err(_refused) => Err(TraceFault {
            line,
            fault: Fault::OutOfMemory,
        }),
    }
}

fn read_lines(alloc: Global, head: Head, text: &str) -> Result<Told, TraceFault>
    requires head { IsHead head }
    requires small { length text.now ≤ max_bytes }
    ensures gives { Gives (lines_read 2 head [] (lines_of text.now)) result }
    ensures within { IfOk result IsWithin }
{
    let mut lines = Vec::new(alloc);
    let mut line = 2;
    let mut rest = text;
    while let Some((first, after)) = cut(rest, '\n') {
        let read = match line_of(&head, first) {
            Ok(read) => read,
            Err(fault) => return Err(TraceFault { line, fault }),
        };
        match read {
            Read::Told(entry) => {
                if let Err(wanted) = keep(&mut lines, line, &entry) {
                    return Err(wanted);
                }
            }
            Read::End(last) => {
                if after.is_empty() {
                    return Ok(Told { head, lines, last });
                }
                return Err(TraceFault {
                    line: line + 1,
                    fault: Fault::Cut,
                });
            }
        }
        line += 1;
        rest = after;
    }
    Err(TraceFault {
        line,
        fault: unended_by(rest),
    })
}

fn read_text(alloc: Global, text: &str) -> Result<Told, TraceFault>
    requires { length text.now ≤ max_bytes }
    ensures gives { Gives (text_read (lines_of text.now)) result }
    ensures within { IfOk result IsWithin }
{
    let Some((first, rest)) = cut(text, '\n') else {
        return Err(TraceFault {
            line: 1,
            fault: unended_by(text),
        });
    };
    match head_of(first) {
        Ok(head) => read_lines(alloc, head, rest),
        Err(fault) => Err(TraceFault { line: 1, fault }),
    }
}

/// Reads a trace, legal or not: what its lines tell; or, as [`check`](crate::check) does, its first fault. Only lack
/// of memory for what a line tells, at that line, may come in the place of the trace or of a later line's fault.
pub fn read_trace(alloc: Global, bytes: &[u8]) -> Result<Told, TraceFault>
    ensures gives { Gives (trace_read bytes.now) result }
    ensures within { IfOk result IsWithin }
{
    if bytes.len() > MAX_BYTES {
        return Err(TraceFault {
            line: 1,
            fault: Fault::TooLong,
        });
    }
    match text_of(bytes) {
        Ok(text) => read_text(alloc, text),
        Err(line) => Err(TraceFault {
            line,
            fault: Fault::NotUtf8,
        }),
    }
}
