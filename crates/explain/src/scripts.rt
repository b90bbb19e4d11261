//! What is said of a script.

ghost use Rattle.std.specs.Prelude.{◌≡◌, ◌≢◌, ◌<◌, ◌^◌, false, length, Some, IfOk};
ghost use Rattle.lines.specs.Lines.{words_of};
ghost use Rattle.explain.specs.Advised.{IsAdvised, IsScriptAdvice, behind_command, command_before, counted};
ghost use Rattle.explain.specs.Advised.{first_earlier, lacking, limit_of, range_of, script_length, script_range};
ghost use Rattle.explain.specs.Explains.{IsFaultOf, IsOfKind, IsTitle};
ghost use Rattle.explain.specs.Sought.{is_of, things_of};
ghost use Rattle.explain.specs.Stray.{word_of};

use crate::encodings::no_text;
use crate::explanation::{Advice, Explanation, Note, Things, Title};
use crate::modes::mode_of;
use crate::names::unknown_name;
use crate::quoting::{line_of, lines_in};
use crate::ranges::ranged;
use crate::sought::{Sought, first_before, things_of, word_of};
use crate::stray::stray_advice;
use grammar::Kind;
use script::{
    Fault, MAX_ACCESS, MAX_BASE, MAX_BYTES, MAX_CONDITIONS, MAX_COUNTER, MAX_EVENTS, MAX_LINES,
    MAX_MUTEXES, MAX_PROCESSES, MAX_STEPS, MAX_THREADS, Mode, ScriptFault, first_machine, parse,
    play,
};
use std::alloc::{AllocError, Global};

/// The first command before line `number`, if that is a declaration.
fn command_before(text: &str, number: usize) -> Option<usize>
    ensures { result ≡ command_before text.now number }
{
    if things_of(word_of(line_of(text, number), 0)).is_some() {
        first_before(text, number, &Sought::Command)
    } else {
        None
    }
}

/// A declaration after a command.
fn behind_command(text: &str, number: usize) -> Advice<'static>
    ensures { result ≡ behind_command text.now number }
{
    match command_before(text, number) {
        Some(first) => Advice::at(0, Note::BehindCommand).back_to(Some(first)),
        None => Advice::none(),
    }
}

/// From where to where the number of a line with this first word goes, and which word it is.
fn range_of(keyword: &str) -> Option<(usize, u32, u32)>
    ensures { result ≡ range_of keyword.now }
{
    match keyword {
        "process" => Some((2, 0, MAX_BASE)),
        "mutexes" => Some((2, 1, MAX_MUTEXES as u32)),
        "cond" => Some((3, 0, MAX_COUNTER)),
        "step" => Some((2, 1, MAX_STEPS)),
        "die" => Some((2, 1, MAX_ACCESS)),
        "locks" => Some((3, 1, MAX_MUTEXES as u32)),
        _ => None,
    }
}

/// How many things of a kind a script may have.
fn limit_of(things: Things) -> u32
    ensures { result ≡ limit_of things }
{
    match things {
        Things::Processes => MAX_PROCESSES as u32,
        Things::Threads => MAX_THREADS as u32,
        Things::Mutexes => MAX_MUTEXES as u32,
        Things::Conditions => MAX_CONDITIONS as u32,
    }
}

/// Of a line whose numbers are in their ranges: it declares one thing too many, or locks mutexes that aren't there.
fn counted(keyword: &str) -> Advice<'static>
    ensures { result ≡ counted (things_of keyword.now) }
{
    match things_of(keyword) {
        Some(things) => Advice::at(0, Note::TooMany(things, limit_of(things))),
        None => Advice::at(3, Note::PastLast),
    }
}

/// What a script declares too few of: threads, where it has none; else mutexes.
fn lacking(text: &str, number: usize) -> Things
    ensures { result
        ≡ lacking (first_earlier text.now number (λ t. is_of Things.Threads (things_of (word_of (words_of t) 0)))) }
{
    match first_before(text, number, &Sought::Any(Things::Threads)) {
        None => Things::Threads,
        Some(_) => Things::Mutexes,
    }
}

/// A number that is out of its range, at the end of the script or in a line.
fn out_of_range(text: &str, number: usize) -> Advice<'static>
    ensures { result ≡ script_range text.now number }
{
    let line = line_of(text, number);
    if line.is_empty() {
        return Advice::only(Note::NothingDeclared(lacking(text, number)));
    }
    let keyword = word_of(line, 0);
    match range_of(keyword) {
        Some((word, low, high)) => ranged(line, word, low, high, counted(keyword)),
        None => counted(keyword),
    }
}

/// What there is too much of.
fn too_long(text: &str, number: usize) -> Advice<'static>
    ensures { result ≡ script_length text.now number }
{
    if text.len() > MAX_BYTES {
        return Advice::only(Note::Bytes(MAX_BYTES as u32));
    }
    if number > MAX_LINES {
        return Advice::only(Note::Lines(MAX_LINES as u32));
    }
    Advice::at(0, Note::Events(MAX_EVENTS as u32))
}

/// What is said of a script's line in addition to its fault; the text is that of the bytes.
fn advice<'a>(
    alloc: Global,
    bytes: &[u8],
    text: &'a str,
    mode: Mode,
    fault: ScriptFault,
) -> Result<Advice<'a>, AllocError>
    requires { length bytes.now < 2 ^ 32 }
    ensures { IfOk result (IsScriptAdvice mode bytes.entry.now text.entry.now fault.line fault.fault) }
{
    match fault.fault {
        Fault::NotUtf8 => Ok(no_text(bytes)),
        Fault::OutOfMemory => Ok(Advice::none()),
        Fault::UnknownWord => {
            let here = behind_command(text, fault.line);
            stray_advice(alloc, Kind::Script(mode), text, fault.line, here)
        }
        Fault::OutOfRange => Ok(out_of_range(text, fault.line)),
        Fault::NoSuchName => unknown_name(alloc, text, fault.line),
        Fault::TooLong => Ok(too_long(text, fault.line)),
    }
}

/// The first fault of the bytes as a script for real threads, if there is one.
fn threads_fault(alloc: Global, bytes: &[u8]) -> Result<Option<ScriptFault>, AllocError>
    ensures { IfOk result (λ o. IsFaultOf Mode.Threads bytes.now o) }
{
    let _script = match parse(alloc, bytes, Mode::Threads) {
        Ok(script) => script,
        Err(fault) => return known(fault),
    };
    Ok(None)
}

/// The first fault of the bytes as a script for the machine, if there is one. It is played too.
fn run_fault(alloc: Global, bytes: &[u8]) -> Result<Option<ScriptFault>, AllocError>
    ensures { IfOk result (λ o. IsFaultOf Mode.Run bytes.now o) }
{
    let script = match parse(alloc, bytes, Mode::Run) {
        Ok(script) => script,
        Err(fault) => return known(fault),
    };
    let Ok(machine) = first_machine(alloc, &script) else {
        return Err(AllocError);
    };
    match play(alloc, &script, machine) {
        Ok(_played) => Ok(None),
        Err(fault) => known(fault),
    }
}

/// The fault, where it isn't lack of memory.
fn known(fault: ScriptFault) -> Result<Option<ScriptFault>, AllocError>
    ensures { IfOk result (λ o. (o ≡ Some fault) × (fault.fault ≢ Fault.OutOfMemory)) }
{
    match fault.fault {
        Fault::OutOfMemory => Err(AllocError),
        _ => Ok(Some(fault)),
    }
}

/// What is said of bytes that are no trace.
pub fn explain_script<'a>(alloc: Global, bytes: &'a [u8]) -> Result<Explanation<'a>, AllocError>
    requires { length bytes.now < 2 ^ 32 }
    ensures kind { IfOk result (λ x. IsOfKind false x.title) }
    ensures title { IfOk result (λ x. IsTitle bytes.entry.now x.title) }
    ensures advised { IfOk result (λ x. IsAdvised bytes.entry.now x.title x.advice) }
{
    let run = run_fault(alloc, bytes)?;
    let threads = threads_fault(alloc, bytes)?;
    let text = lines_in(bytes);
    let (mode, fault) = match (run, threads) {
        (Some(run), Some(threads)) => match mode_of(bytes) {
            Mode::Run => (Mode::Run, run),
            Mode::Threads => (Mode::Threads, threads),
        },
        (run, threads) => {
            return Ok(Explanation {
                title: Title::Good {
                    run: run.is_none(),
                    threads: threads.is_none(),
                },
                advice: Advice::none(),
            });
        }
    };
    Ok(Explanation {
        title: Title::Script(mode, fault),
        advice: advice(alloc, bytes, text, mode, fault)?,
    })
}
