//! The program, except for opening its file.
ghost use Rattle.std.specs.Prelude.{◌≡◌, ◌≤◌, ◌<◌, ◌^◌, ◌+◌, ◌⊎◌, ◌↔◌, length, vec_len, Ok, IfOk, IfErr, OnOk};
ghost use Rattle.std.specs.Io.KnownBytes.{Consumes, IsAtEnd};
ghost use Rattle.script.specs.declared.command.Mode.TheVariants.{Run};
ghost use Rattle.script.specs.Limits.{max_bytes};
ghost use Rattle.script.specs.Reading.{script_read};
ghost use Rattle.script.specs.Played.{IsPlayed};
ghost use Rattle.interleave.specs.Shown.{state_of};
ghost use Rattle.streams.specs.Leaves.{Leaves};
ghost use Rattle.texts.specs.Text.{trace_text};
ghost use Rattle.texts.specs.Tables.{table_text};
ghost use Rattle.texts.specs.Replies.{replies_text};
ghost use Rattle.report.specs.Served.{trace, table, replies, bytes_at_most, Written};
ghost use Rattle.report.specs.Served.{Tells, TellsFront, Served, ServedAs, ServedFrontAs};
ghost use Rattle.streams.specs.Taken.{TakesAtMost};
ghost use Rattle.report.specs.Failed.{failed_by, file_of, IsUnread, IsFaultOf, Fails};
ghost use Rattle.report.specs.Failed.{FailsTrace, FailsAt, FailsAs, FailsTelling, EndsAs, Ends};
ghost use Rattle.report.specs.Verdicts.{Judged};
ghost use Rattle.verdict.specs.Limits as traces;
ghost use Rattle.cmdline.specs.declared.form.Form.TheVariants.{Usage};

use crate::answers::{condition_words, mutex_words, thread_replies};
use crate::judging::judge_bytes;
use crate::messages::{Failure, status_after, tell};
use crate::threads::{Answers, answers_of};
use cmdline::Form;
use interleave::{Machine, Trace};
use script::{Fault, MAX_BYTES, Mode, Script, ScriptFault, first_machine, jobs, parse, play};
use std::alloc::Global;
use std::io::{self, Read, Write};
use std::sync::Wait;
use std::thread::Threads;
use streams::{Output, ReadFault, read_below};
use texts::{ConditionWord, MutexWord, ThreadReplies, write_replies, write_table, write_trace};

/// What a fault of reading is reported as.
fn failure_of(fault: ReadFault) -> Failure
    ensures { result ≡ failed_by fault }
{
    match fault {
        ReadFault::Memory => Failure::OutOfMemory,
        ReadFault::Failed => Failure::CannotRead,
    }
}

/// Reads the file's bytes, at most one more than it may have.
fn read_file<R: Read>(alloc: Global, most: usize, input: &mut R) -> Result<Vec<u8>, Failure>
    requires { most < 2 ^ 32 }
    ensures taken { IfOk result (λ v. Consumes (R.remaining input.old) (R.remaining input.new) v.items) }
    ensures end { IfOk result (λ v. vec_len v ≤ most → IsAtEnd (R.remaining input.new)) }
    ensures fails { IfErr result IsUnread }
    ensures limit { TakesAtMost (most + 1) (R.remaining input.old) (R.remaining input.new) }
{
    match read_below(alloc, input, most + 1) {
        Ok(bytes) => Ok(bytes),
        Err(fault) => Err(failure_of(fault)),
    }
}

/// A script that was read and played: its trace, and the machine as it was left.
#[derive(Drop)]
struct Played {
    script: Script,
    trace: Trace,
    machine: Machine,
}

/// Reads a script's bytes and plays them. Where its machine can't be had, that is reported at line 1.
fn play_bytes(alloc: Global, bytes: &[u8]) -> Result<Played, ScriptFault>
    ensures reads { IfOk result (λ p. script_read Run bytes.now ≡ Ok p.script) }
    ensures plays { IfOk result (λ p. IsPlayed p.script p.trace p.machine) }
    ensures fails { IfErr result (IsFaultOf trace bytes.now) }
{
    let script = parse(alloc, bytes, Mode::Run)?;
    let Ok(first) = first_machine(alloc, &script) else {
        return Err(ScriptFault {
            line: 1,
            fault: Fault::OutOfMemory,
        });
    };
    match play(alloc, &script, first) {
        Ok((trace, machine)) => Ok(Played {
            script,
            trace,
            machine,
        }),
        Err(fault) => Err(fault),
    }
}

/// Writes a trace, and lets go of what the writer kept back.
fn write_out<W: Output>(trace: &Trace, out: &mut W) -> io::Result<()>
    ensures text { Leaves (W.contents out.old) (W.contents out.new) result (trace_text trace.now) }
    ensures let_go { OnOk result (W.is_let_go out.new) }
{
    write_trace(trace, out)?;
    out.let_go()
}

/// Reads a script's bytes, plays them, and writes their trace.
fn trace_bytes<W: Output>(alloc: Global, bytes: &[u8], out: &mut W) -> Result<u8, Failure>
    ensures ends { IfOk result
        (λ status. (status ≡ 0) × Written trace (W.contents out.old) (W.contents out.new) bytes.now) }
    ensures let_go { OnOk result (W.is_let_go out.new) }
    ensures fails { IfErr result (Fails trace bytes.now (W.contents out.old) (W.contents out.new)) }
{
    let played = match play_bytes(alloc, bytes) {
        Ok(played) => played,
        Err(fault) => return Err(Failure::Script(fault)),
    };
    match write_out(&played.trace, out) {
        Ok(()) => Ok(0),
        Err(_) => Err(Failure::CannotWrite),
    }
}

/// Writes a table, and lets go of what the writer kept back.
fn write_table_out<W: Output>(
    script: &Script,
    trace: &Trace,
    machine: &Machine,
    out: &mut W,
) -> io::Result<()>
    requires threads { machine.now.layout.threads ≡ length script.now.threads }
    requires mutexes { machine.now.layout.mutexes ≡ length script.now.mutexes }
    requires conditions { length machine.now.layout.conditions ≡ length script.now.conditions }
    ensures text { Leaves (W.contents out.old) (W.contents out.new) result
        (table_text script.now (state_of machine.now) trace.now.notes.items) }
    ensures let_go { OnOk result (W.is_let_go out.new) }
{
    write_table(script, trace, machine, out)?;
    out.let_go()
}

/// Reads a script's bytes, plays them, and writes how they left its threads, mutexes and condition variables.
fn table_bytes<W: Output>(alloc: Global, bytes: &[u8], out: &mut W) -> Result<u8, Failure>
    ensures ends { IfOk result
        (λ status. (status ≡ 0) × Written table (W.contents out.old) (W.contents out.new) bytes.now) }
    ensures let_go { OnOk result (W.is_let_go out.new) }
    ensures fails { IfErr result (Fails table bytes.now (W.contents out.old) (W.contents out.new)) }
{
    let Played {
        script,
        trace,
        machine,
    } = match play_bytes(alloc, bytes) {
        Ok(played) => played,
        Err(refused) => return Err(Failure::Script(refused)),
    };
    match write_table_out(&script, &trace, &machine, out) {
        Ok(()) => Ok(0),
        Err(_unwritten) => Err(Failure::CannotWrite),
    }
}

/// Writes what the threads were answered, and lets go of what the writer kept back.
fn write_told<W: Output>(
    threads: &[ThreadReplies<'_>],
    mutexes: &[MutexWord<'_>],
    conditions: &[ConditionWord<'_>],
    out: &mut W,
) -> io::Result<()>
    ensures text { Leaves (W.contents out.old) (W.contents out.new) result
        (replies_text threads.now mutexes.now conditions.now) }
    ensures let_go { OnOk result (W.is_let_go out.new) }
{
    write_replies(threads, mutexes, conditions, out)?;
    out.let_go()
}

/// Writes what a script's threads were answered, by their names. All memory is asked for before the first byte.
fn tell_answers<W: Output>(
    alloc: Global,
    script: &Script,
    answers: &Answers,
    out: &mut W,
) -> Result<u8, Failure>
    requires replies { length answers.now.replies.items ≡ length script.now.threads }
    requires died { length answers.now.died.items ≡ length script.now.threads }
    requires cells { length answers.now.cells.items ≡ length script.now.mutexes }
    requires counters { length answers.now.counters.items ≡ length script.now.conditions }
    ensures ends { IfOk result
        (λ status. (status ≡ 0) × Tells (W.contents out.old) (W.contents out.new) script.now answers.now) }
    ensures let_go { OnOk result (W.is_let_go out.new) }
    ensures fails { IfErr result (FailsTelling script.now answers.now (W.contents out.old) (W.contents out.new)) }
{
    let Ok(threads) = thread_replies(alloc, script, answers) else {
        return Err(Failure::OutOfMemory);
    };
    let Ok(mutexes) = mutex_words(alloc, script, answers) else {
        return Err(Failure::OutOfMemory);
    };
    let Ok(conditions) = condition_words(alloc, script, answers) else {
        return Err(Failure::OutOfMemory);
    };
    match write_told(&threads, &mutexes, &conditions, out) {
        Ok(()) => Ok(0),
        Err(_failed) => Err(Failure::CannotWrite),
    }
}

/// Reads a script's bytes, lets real threads make its calls, and writes what they were answered.
fn thread_bytes<T: Threads + Wait + Sync, W: Output>(
    rt: &T,
    alloc: Global,
    bytes: &[u8],
    out: &mut W,
) -> Result<u8, Failure>
    ensures ends { IfOk result
        (λ status. (status ≡ 0) × Written replies (W.contents out.old) (W.contents out.new) bytes.now) }
    ensures let_go { OnOk result (W.is_let_go out.new) }
    ensures fails { IfErr result (Fails replies bytes.now (W.contents out.old) (W.contents out.new)) }
{
    let script = match parse(alloc, bytes, Mode::Threads) {
        Ok(script) => script,
        Err(unread) => return Err(Failure::Script(unread)),
    };
    let jobs = match jobs(alloc, &script) {
        Ok(jobs) => jobs,
        Err(wanted) => return Err(Failure::Script(wanted)),
    };
    match answers_of(rt, alloc, &script, jobs) {
        Ok(answers) => tell_answers(alloc, &script, &answers, out),
        Err(_) => Err(Failure::OutOfMemory),
    }
}

/// `rfx run FILE`.
fn serve_trace<R: Read, W: Output>(alloc: Global, input: &mut R, out: &mut W) -> Result<u8, Failure>
    ensures ends { IfOk result
        (λ status. (status ≡ 0)
        × Served trace (R.remaining input.old) (R.remaining input.new) (W.contents out.old) (W.contents out.new)) }
    ensures let_go { OnOk result (W.is_let_go out.new) }
    ensures fails { IfErr result
        (FailsAt max_bytes (λ bytes f. Fails trace bytes (W.contents out.old) (W.contents out.new) f)
        (R.remaining input.old) (R.remaining input.new) (W.contents out.old) (W.contents out.new)) }
    ensures limit { TakesAtMost (max_bytes + 1) (R.remaining input.old) (R.remaining input.new) }
{
    match read_file(alloc, MAX_BYTES, input) {
        Ok(bytes) => trace_bytes(alloc, &bytes, out),
        Err(failure) => Err(failure),
    }
}

/// `rfx run --table FILE`.
fn serve_table<R: Read, W: Output>(alloc: Global, input: &mut R, out: &mut W) -> Result<u8, Failure>
    ensures ends { IfOk result
        (λ status. (status ≡ 0)
        × Served table (R.remaining input.old) (R.remaining input.new) (W.contents out.old) (W.contents out.new)) }
    ensures let_go { OnOk result (W.is_let_go out.new) }
    ensures fails { IfErr result
        (FailsAt max_bytes (λ bytes f. Fails table bytes (W.contents out.old) (W.contents out.new) f)
        (R.remaining input.old) (R.remaining input.new) (W.contents out.old) (W.contents out.new)) }
    ensures limit { TakesAtMost (max_bytes + 1) (R.remaining input.old) (R.remaining input.new) }
{
    match read_file(alloc, MAX_BYTES, input) {
        Ok(bytes) => table_bytes(alloc, &bytes, out),
        Err(failure) => Err(failure),
    }
}

/// `rfx threads FILE`.
fn serve_threads<T: Threads + Wait + Sync, R: Read, W: Output>(
    rt: &T,
    alloc: Global,
    input: &mut R,
    out: &mut W,
) -> Result<u8, Failure>
    ensures ends { IfOk result
        (λ status. (status ≡ 0)
        × Served replies (R.remaining input.old) (R.remaining input.new) (W.contents out.old) (W.contents out.new)) }
    ensures let_go { OnOk result (W.is_let_go out.new) }
    ensures fails { IfErr result
        (FailsAt max_bytes (λ bytes f. Fails replies bytes (W.contents out.old) (W.contents out.new) f)
        (R.remaining input.old) (R.remaining input.new) (W.contents out.old) (W.contents out.new)) }
    ensures limit { TakesAtMost (max_bytes + 1) (R.remaining input.old) (R.remaining input.new) }
{
    match read_file(alloc, MAX_BYTES, input) {
        Ok(bytes) => thread_bytes(rt, alloc, &bytes, out),
        Err(failure) => Err(failure),
    }
}

/// `rfx check FILE`.
fn serve_check<R: Read, W: Output>(alloc: Global, input: &mut R, out: &mut W) -> Result<u8, Failure>
    ensures ends { IfOk result
        (Judged (R.remaining input.old) (R.remaining input.new) (W.contents out.old) (W.contents out.new)) }
    ensures let_go { OnOk result (W.is_let_go out.new) }
    ensures fails { IfErr result
        (FailsAt traces.max_bytes (λ bytes f. FailsTrace bytes (W.contents out.old) (W.contents out.new) f)
        (R.remaining input.old) (R.remaining input.new) (W.contents out.old) (W.contents out.new)) }
    ensures limit { TakesAtMost (traces.max_bytes + 1) (R.remaining input.old) (R.remaining input.new) }
{
    match read_file(alloc, verdict::MAX_BYTES, input) {
        Ok(bytes) => judge_bytes(alloc, &bytes, out),
        Err(failure) => Err(failure),
    }
}

/// What a form writes, and the exit status then; or why it isn't written, or not all.
fn serve_form<T: Threads + Wait + Sync, R: Read, W: Output>(
    rt: &T,
    alloc: Global,
    form: &Form<'_>,
    input: &mut R,
    out: &mut W,
) -> Result<u8, Failure>
    ensures ends { IfOk result
        (EndsAs form.now (R.remaining input.old) (R.remaining input.new) (W.contents out.old) (W.contents out.new)) }
    ensures let_go { OnOk result (W.is_let_go out.new) }
    ensures fails { IfErr result
        (FailsAs form.now (R.remaining input.old) (R.remaining input.new) (W.contents out.old) (W.contents out.new)) }
    ensures limit { TakesAtMost (bytes_at_most form.now) (R.remaining input.old) (R.remaining input.new) }
{
    match form {
        Form::Run(_) => serve_trace(alloc, input, out),
        Form::Table(_) => serve_table(alloc, input, out),
        Form::Threads(_) => serve_threads(rt, alloc, input, out),
        Form::Check(_) => serve_check(alloc, input, out),
        Form::Usage => Err(Failure::Usage),
    }
}

/// The file that a form names; the usage names none.
fn file_named<'a>(form: &Form<'a>) -> &'a str
    ensures { result.now ≡ file_of form.now }
{
    match form {
        Form::Run(file) | Form::Table(file) | Form::Threads(file) | Form::Check(file) => file,
        Form::Usage => "",
    }
}

/// What `rfx` does for a form of its command line, the file being open as `input`. It answers the exit status: 0 where
/// all of the reader was a script and what it means is written, the trace or the table of a run, whose points and
/// deaths are one legal history, or the replies of real threads, or where it was a legal trace and that is written; 1
/// for an illegal trace, and for a fault, told on `err`; 2 where the command line has no form. Where a fault is met
/// before the output begins, nothing is written. Where all was written, the writer has let go of it, and nothing is
/// reported on `err`; so it is for an illegal trace too. It reads at most one byte more than a script or a trace may
/// have.
pub fn serve<T: Threads + Wait + Sync, R: Read, W: Output, E: Write>(
    rt: &T,
    alloc: Global,
    form: &Form<'_>,
    input: &mut R,
    out: &mut W,
    err: &mut E,
) -> u8
    ensures done { result ≡ 0
        → ServedAs form.now (R.remaining input.old) (R.remaining input.new) (W.contents out.old) (W.contents out.new) }
    ensures front { ServedFrontAs form.now (R.remaining input.old) (R.remaining input.new) (W.contents out.old)
        (W.contents out.new) }
    ensures usage { (result ≡ 2) ↔ (form.now ≡ Usage) }
    ensures last { result ≤ 2 }
    ensures limit { TakesAtMost (bytes_at_most form.now) (R.remaining input.old) (R.remaining input.new) }
    ensures quiet { result ≡ 0 → err.new ≡ err.old }
    ensures let_go { result ≡ 0 → W.is_let_go out.new }
    ensures told { Ends form.now (R.remaining input.old) (R.remaining input.new) (W.contents out.old)
        (W.contents out.new) (W.is_let_go out.new) (err.new ≡ err.old) (E.contents err.old) (E.contents err.new)
        result }
{
    match serve_form(rt, alloc, form, input, out) {
        Ok(status) => status,
        Err(failure) => {
            tell(err, file_named(form), failure);
            status_after(failure)
        }
    }
}
