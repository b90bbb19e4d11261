//! Reading a script from its first byte to its last.

ghost use Rattle.std.specs.Prelude.{◌≡◌, ◌≤◌, false, OnOk, IfOk, IfErr};
ghost use Rattle.script.specs.Forms.{is_silent};
ghost use Rattle.script.specs.Limits.{max_lines};
ghost use Rattle.script.specs.Outcome.{GivesAt, Reads, SpeaksAt};
ghost use Rattle.script.specs.Reading.{finished, line_read, script_read, text_read};
ghost use Rattle.script.specs.Scope.{IsWellFormed, IsWithinLimits};
ghost use Rattle.script.specs.Seen.{scope_of};

use crate::command::Mode;
use crate::draft::Draft;
use crate::fault::{Fault, ScriptFault};
use crate::limits::{MAX_BYTES, MAX_LINES};
use crate::parsed::Script;
use lines::{cut, text_of};
use std::alloc::Global;

/// The script, where nothing stands after its last line feed, and it declares enough.
fn finish(draft: Draft, number: usize, text: &str) -> Result<Script, Fault>
    requires { IsWithinLimits (scope_of draft) }
    ensures { result ≡ finished number (scope_of draft) text.now }
{
    if !text.is_empty() {
        return Err(if number > MAX_LINES {
            Fault::TooLong
        } else {
            Fault::UnknownWord
        });
    }
    if draft.threads.is_empty() || draft.mutexes.is_empty() {
        return Err(Fault::OutOfRange);
    }
    Ok(Script::of(draft))
}

/// Reads line `number` into the draft. A fault is reported at that line.
fn read_line(alloc: Global, draft: &mut Draft, number: usize, text: &str) -> Result<(), ScriptFault>
    requires { IsWithinLimits (scope_of draft.old) }
    ensures gives { GivesAt number (λ _. scope_of draft.new) result (line_read number (scope_of draft.old) text.now) }
    ensures mode { draft.new.mode ≡ draft.old.mode }
    ensures few { OnOk result (number ≤ max_lines) }
    ensures memory { IfErr result (λ e. e.fault ≡ Fault.OutOfMemory → is_silent text.now ≡ false) }
{
    match draft.read_line(alloc, number, text) {
        Ok(()) => Ok(()),
        Err(fault) => Err(ScriptFault {
            line: number,
            fault,
        }),
    }
}

fn read_text(alloc: Global, text: &str, mode: Mode) -> Result<Script, ScriptFault>
    ensures reads { Reads result (text_read mode text.now) }
    ensures mode { IfOk result (λ s. s.mode ≡ mode) }
    ensures memory { IfErr result (λ e. e.fault ≡ Fault.OutOfMemory → SpeaksAt text.now e.line) }
{
    let mut draft = Draft::new(alloc, mode);
    let mut line = 1;
    let mut rest = text;
    while let Some((first, after)) = cut(rest, '\n') {
        read_line(alloc, &mut draft, line, first)?;
        line += 1;
        rest = after;
    }
    match finish(draft, line, rest) {
        Ok(script) => Ok(script),
        Err(fault) => Err(ScriptFault { line, fault }),
    }
}

/// The script that the bytes are, or their first fault. Only lack of memory may come instead, at a line before it
/// that says something.
pub fn parse(alloc: Global, bytes: &[u8], mode: Mode) -> Result<Script, ScriptFault>
    ensures reads { Reads result (script_read mode bytes.now) }
    ensures mode { IfOk result (λ s. s.mode ≡ mode) }
    ensures well_formed { IfOk result IsWellFormed }
    ensures memory { IfErr result (λ e. e.fault ≡ Fault.OutOfMemory → SpeaksAt bytes.now e.line) }
{
    if bytes.len() > MAX_BYTES {
        return Err(ScriptFault {
            line: 1,
            fault: Fault::TooLong,
        });
    }
    match text_of(bytes) {
        Ok(text) => read_text(alloc, text, mode),
        Err(line) => Err(ScriptFault {
            line,
            fault: Fault::NotUtf8,
        }),
    }
}
