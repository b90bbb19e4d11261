//! The text of a certificate: a trace, numbered from 1.

ghost use Rattle.std.specs.Prelude.{◌≡◌, ◌+◌, ◌<◌, ◌^◌, [], ◌∷◌, codes, decimal, length, IfOk};
ghost use Rattle.std.specs.List.{concat};
ghost use Rattle.streams.specs.Leaves.{Leaves};
ghost use Rattle.texts.specs.Text.{begin_line_of, fact_text, head_line, point_line};
ghost use Rattle.texts.specs.Text.{return_line, sleep_line_of};
ghost use Rattle.windows.specs.Texts.{certificate_text, count_with, step_text};
ghost use Rattle.windows.specs.Texts.{steps_count, steps_lines};

use facts::{Begun, Fact, Queue};
use histories::{Entry, Head};
use lockword::{Reply, Tid};
use posixmutex::Decision;
use std::io::{self, Write};
use streams::Piece::{Number, Word};
use streams::put_pieces;

/// `i WHAT tT`: what befell the thread. `what` ends with the `t`.
fn write_alone<W: Write>(out: &mut W, event: u64, what: &str, thread: Tid) -> io::Result<()>
    ensures { Leaves (W.contents out.old) (W.contents out.new) result
        (concat (decimal event ∷ what.now ∷ decimal thread ∷ codes "\n" ∷ [])) }
{
    put_pieces(
        out,
        &[
            Number(event),
            Word(what),
            Number(thread.get().into()),
            Word("\n"),
        ],
    )
}

/// `i WHAT tT mM`, or `cC` instead of `mM`: what befell the thread at a mutex or a condition variable. `what` ends
/// with the `t`, `of` with the `m` or the `c`.
fn write_at<'a, W: Write>(
    out: &mut W,
    event: u64,
    what: &'a str,
    thread: Tid,
    of: &'a str,
    number: u16,
) -> io::Result<()>
    ensures { Leaves (W.contents out.old) (W.contents out.new) result
        (concat (decimal event ∷ what.now ∷ decimal thread ∷ of.now ∷ decimal number ∷ codes "\n" ∷ [])) }
{
    put_pieces(
        out,
        &[
            Number(event),
            Word(what),
            Number(thread.get().into()),
            Word(of),
            Number(number.into()),
            Word("\n"),
        ],
    )
}

/// `i begin tT OP mM`, or `i begin tT OP cC mM` of a call on a condition variable: the thread began a call.
fn write_begin<W: Write>(out: &mut W, event: u64, thread: Tid, call: Begun) -> io::Result<()>
    ensures { Leaves (W.contents out.old) (W.contents out.new) result
        (begin_line_of event thread call.operation call.condition call.mutex) }
{
    let event = Number(event);
    let thread = Number(thread.get().into());
    let operation = Word(call.operation.word());
    let mutex = Number(call.mutex.into());
    let begin = Word(" begin t");
    let space = Word(" ");
    let end = Word("\n");
    match call.condition {
        None => put_pieces(
            out,
            &[
                event,
                begin,
                thread,
                space,
                operation,
                Word(" m"),
                mutex,
                end,
            ],
        ),
        Some(condition) => put_pieces(
            out,
            &[
                event,
                begin,
                thread,
                space,
                operation,
                Word(" c"),
                Number(condition.into()),
                Word(" m"),
                mutex,
                end,
            ],
        ),
    }
}

/// `i point tT mM OP REPLY`: the thread's operation on the mutex was decided.
fn write_point<W: Write>(out: &mut W, event: u64, decision: Decision) -> io::Result<()>
    ensures { Leaves (W.contents out.old) (W.contents out.new) result (point_line event decision) }
{
    put_pieces(
        out,
        &[
            Number(event),
            Word(" point t"),
            Number(decision.thread.get().into()),
            Word(" m"),
            Number(decision.mutex.into()),
            Word(" "),
            Word(decision.operation.word()),
            Word(" "),
            Word(decision.reply.name()),
            Word("\n"),
        ],
    )
}

/// `i return tT REPLY`: the thread's call returned.
fn write_return<W: Write>(out: &mut W, event: u64, thread: Tid, reply: Reply) -> io::Result<()>
    ensures { Leaves (W.contents out.old) (W.contents out.new) result (return_line event thread reply) }
{
    put_pieces(
        out,
        &[
            Number(event),
            Word(" return t"),
            Number(thread.get().into()),
            Word(" "),
            Word(reply.name()),
            Word("\n"),
        ],
    )
}

/// `i sleep tT mM`, or `i sleep tT cC`: the thread fell asleep on the mutex, or on the condition variable.
fn write_sleep<W: Write>(out: &mut W, event: u64, thread: Tid, queue: Queue) -> io::Result<()>
    ensures { Leaves (W.contents out.old) (W.contents out.new) result (sleep_line_of event thread queue) }
{
    match queue {
        Queue::Mutex(mutex) => write_at(out, event, " sleep t", thread, " m", mutex),
        Queue::Condition(condition) => write_at(out, event, " sleep t", thread, " c", condition),
    }
}

/// Writes the line of a fact. At an error a beginning of it is written.
pub fn write_fact<W: Write>(out: &mut W, event: u64, fact: Fact) -> io::Result<()>
    ensures { Leaves (W.contents out.old) (W.contents out.new) result (fact_text event fact) }
{
    match fact {
        Fact::Begin(thread, call) => write_begin(out, event, thread, call),
        Fact::Point(decision) => write_point(out, event, decision),
        Fact::Sleep(thread, queue) => write_sleep(out, event, thread, queue),
        Fact::Wake(thread) => write_alone(out, event, " wake t", thread),
        Fact::Move(thread, mutex) => write_at(out, event, " move t", thread, " m", mutex),
        Fact::Return(thread, reply) => write_return(out, event, thread, reply),
        Fact::Kill(thread) => write_alone(out, event, " kill t", thread),
        Fact::Death(thread, mutex) => write_at(out, event, " death t", thread, " m", mutex),
        Fact::Reap(thread) => write_alone(out, event, " reaped t", thread),
        Fact::Renew(thread) => write_alone(out, event, " renew t", thread),
    }
}

/// `trace T M C`: how many threads, mutexes and condition variables there are.
fn write_head<W: Write>(out: &mut W, head: &Head) -> io::Result<()>
    ensures { Leaves (W.contents out.old) (W.contents out.new) result
        (head_line head.now.threads head.now.mutexes head.now.conditions) }
{
    put_pieces(
        out,
        &[
            Word("trace "),
            Number(head.threads.into()),
            Word(" "),
            Number(head.mutexes.into()),
            Word(" "),
            Number(head.conditions.into()),
            Word("\n"),
        ],
    )
}

/// The line that a step tells after this many, if it tells one. It answers how many there are then.
fn write_step<W: Write>(out: &mut W, events: u64, step: Entry) -> io::Result<u64>
    requires { events + 1 < 2 ^ 64 }
    ensures text { Leaves (W.contents out.old) (W.contents out.new) result (step_text events step) }
    ensures count { IfOk result (λ n. n ≡ count_with events step) }
{
    match step {
        Entry::Told(fact) => {
            write_fact(out, events + 1, fact)?;
            Ok(events + 1)
        }
        Entry::Doom(_) => Ok(events),
    }
}

/// The lines that the steps tell, numbered from 1. It answers how many they are.
fn write_steps<W: Write>(out: &mut W, steps: &[Entry]) -> io::Result<u64>
    ensures text { Leaves (W.contents out.old) (W.contents out.new) result (steps_lines steps.now) }
    ensures count { IfOk result (λ n. n ≡ steps_count steps.now) }
{
    let mut events = 0;
    for step in steps {
        events = write_step(out, events, *step)?;
    }
    Ok(events)
}

/// Writes a certificate: a trace, numbered from 1. At an error a beginning of the text is written.
pub fn write_certificate<W: Write>(out: &mut W, head: &Head, steps: &[Entry]) -> io::Result<()>
    ensures { Leaves (W.contents out.old) (W.contents out.new) result (certificate_text head.now steps.now) }
{
    write_head(out, head)?;
    let events = write_steps(out, steps)?;
    put_pieces(out, &[Word("end "), Number(events), Word("\n")])
}

/// How many lines there are with this step's.
fn counted(events: usize, step: &Entry) -> usize
    requires { events + 1 < 2 ^ 64 }
    ensures { result ≡ count_with events step.now }
{
    match *step {
        Entry::Told(_) => events + 1,
        Entry::Doom(_) => events,
    }
}

/// How many lines the steps tell: the events of their trace.
pub fn events_of(steps: &[Entry]) -> usize
    ensures { result ≡ steps_count steps.now }
{
    let mut events = 0;
    for step in steps {
        events = counted(events, step);
    }
    events
}
