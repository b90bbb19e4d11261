//! The lines of a trace, one for each fact.

ghost use Rattle.std.specs.Prelude.{codes, decimal, [], ◌∷◌};
ghost use Rattle.std.specs.List.{concat};
ghost use Rattle.streams.specs.Leaves.{Leaves};
ghost use Rattle.texts.specs.Text.{head_line, begin_line_of, point_line};
ghost use Rattle.texts.specs.Text.{sleep_line_of, return_line, end_line, fact_text};

use facts::{Begun, Fact, Queue};
use lockword::{Reply, Tid};
use posixmutex::Decision;
use std::io::{self, Write};
use streams::Piece::{Number, Word};
use streams::put_pieces;

/// `trace T M C`: how many threads, mutexes and condition variables there are.
pub fn write_head<W: Write>(
    out: &mut W,
    threads: u8,
    mutexes: u16,
    conditions: u16,
) -> io::Result<()>
    ensures { Leaves (W.contents out.old) (W.contents out.new) result (head_line threads mutexes conditions) }
{
    put_pieces(
        out,
        &[
            Word("trace "),
            Number(threads.into()),
            Word(" "),
            Number(mutexes.into()),
            Word(" "),
            Number(conditions.into()),
            Word("\n"),
        ],
    )
}

/// `i WHAT tT`: what befell the thread. `what` ends with the `t`.
fn write_alone<W: Write>(out: &mut W, event: usize, what: &str, thread: Tid) -> io::Result<()>
    ensures { Leaves (W.contents out.old) (W.contents out.new) result
        (concat (decimal event ∷ what.now ∷ decimal thread ∷ codes "\n" ∷ [])) }
{
    put_pieces(
        out,
        &[
            Number(event as u64),
            Word(what),
            Number(thread.get().into()),
            Word("\n"),
        ],
    )
}

/// `i WHAT tT mM`, or `cC` instead of `mM`: what befell the thread at a mutex or a condition variable. `what` ends
/// with the `t`, `of` with the `m` or the `c`.
fn write_at<'a, W: Write>(
    out: &mut W,
    event: usize,
    what: &'a str,
    thread: Tid,
    of: &'a str,
    number: u16,
) -> io::Result<()>
    ensures { Leaves (W.contents out.old) (W.contents out.new) result
        (concat (decimal event ∷ what.now ∷ decimal thread ∷ of.now ∷ decimal number ∷ codes "\n" ∷ [])) }
{
    put_pieces(
        out,
        &[
            Number(event as u64),
            Word(what),
            Number(thread.get().into()),
            Word(of),
            Number(number.into()),
            Word("\n"),
        ],
    )
}

/// `i begin tT OP mM`, or `i begin tT OP cC mM` of a call on a condition variable: the thread began a call.
fn write_begin<W: Write>(out: &mut W, event: usize, thread: Tid, call: Begun) -> io::Result<()>
    ensures { Leaves (W.contents out.old) (W.contents out.new) result
        (begin_line_of event thread call.operation call.condition call.mutex) }
{
    let event = Number(event as u64);
    let thread = Number(thread.get().into());
    let operation = Word(call.operation.word());
    let mutex = Number(call.mutex.into());
    let begin = Word(" begin t");
    let space = Word(" ");
    match call.condition {
        None => put_pieces(
            out,
            &[
                event,
                begin,
                thread,
                space,
                operation,
                Word(" m"),
                mutex,
                Word("\n"),
            ],
        ),
        Some(condition) => put_pieces(
            out,
            &[
                event,
                begin,
                thread,
                space,
                operation,
                Word(" c"),
                Number(condition.into()),
                Word(" m"),
                mutex,
                Word("\n"),
            ],
        ),
    }
}

/// `i point tT mM OP REPLY`: the thread's operation on the mutex was decided.
fn write_point<W: Write>(out: &mut W, event: usize, decision: Decision) -> io::Result<()>
    ensures { Leaves (W.contents out.old) (W.contents out.new) result (point_line event decision) }
{
    put_pieces(
        out,
        &[
            Number(event as u64),
            Word(" point t"),
            Number(decision.thread.get().into()),
            Word(" m"),
            Number(decision.mutex.into()),
            Word(" "),
            Word(decision.operation.word()),
            Word(" "),
            Word(decision.reply.name()),
            Word("\n"),
        ],
    )
}

/// `i sleep tT mM`, or `i sleep tT cC`: the thread fell asleep on the mutex, or on the condition variable.
fn write_sleep<W: Write>(out: &mut W, event: usize, thread: Tid, queue: Queue) -> io::Result<()>
    ensures { Leaves (W.contents out.old) (W.contents out.new) result (sleep_line_of event thread queue) }
{
    match queue {
        Queue::Mutex(mutex) => write_at(out, event, " sleep t", thread, " m", mutex),
        Queue::Condition(condition) => write_at(out, event, " sleep t", thread, " c", condition),
    }
}

/// `i return tT REPLY`: the thread's call returned.
fn write_return<W: Write>(out: &mut W, event: usize, thread: Tid, reply: Reply) -> io::Result<()>
    ensures { Leaves (W.contents out.old) (W.contents out.new) result (return_line event thread reply) }
{
    put_pieces(
        out,
        &[
            Number(event as u64),
            Word(" return t"),
            Number(thread.get().into()),
            Word(" "),
            Word(reply.name()),
            Word("\n"),
        ],
    )
}

/// `end N`: how many events there were.
pub fn write_end<W: Write>(out: &mut W, events: usize) -> io::Result<()>
    ensures { Leaves (W.contents out.old) (W.contents out.new) result (end_line events) }
{
    put_pieces(out, &[Word("end "), Number(events as u64), Word("\n")])
}

/// The line of one thing that the event did.
pub fn write_fact<W: Write>(out: &mut W, event: usize, fact: Fact) -> io::Result<()>
    ensures { Leaves (W.contents out.old) (W.contents out.new) result (fact_text event fact) }
{
    match fact {
        Fact::Begin(thread, call) => write_begin(out, event, thread, call),
        Fact::Point(decision) => write_point(out, event, decision),
        Fact::Sleep(thread, queue) => write_sleep(out, event, thread, queue),
        Fact::Wake(thread) => write_alone(out, event, " wake t", thread),
        Fact::Move(thread, mutex) => write_at(out, event, " move t", thread, " m", mutex),
        Fact::Return(thread, reply) => write_return(out, event, thread, reply),
        Fact::Kill(thread) => write_alone(out, event, " kill t", thread),
        Fact::Death(thread, mutex) => write_at(out, event, " death t", thread, " m", mutex),
        Fact::Reap(thread) => write_alone(out, event, " reaped t", thread),
        Fact::Renew(thread) => write_alone(out, event, " renew t", thread),
    }
}
