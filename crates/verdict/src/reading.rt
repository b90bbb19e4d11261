//! Lines of a trace whose numbers are in their ranges.

ghost use Rattle.std.specs.Prelude.{◌≡◌, ◌+◌, ◌<◌, ◌≤◌, IfOk, IfSome};
ghost use Rattle.verdict.specs.Limits.{max_threads};
ghost use Rattle.verdict.specs.Judges.{IsInside, IsRead};
ghost use Rattle.verdict.specs.Reading.{IsHead, begin_in, begin_on_in, below_in, death_in};
ghost use Rattle.verdict.specs.Reading.{fact_in, head_in, head_read, line_in, line_read, move_in};
ghost use Rattle.verdict.specs.Reading.{number_in, point_in, sleep_in, sleep_on_in, thread_in};

use crate::fault::Fault;
use crate::form::{Form, HeadForm, Said, Spelled, read_form, read_head};
use crate::head::Head;
use crate::limits::{MAX_CONDITIONS, MAX_EVENTS, MAX_MUTEXES, MAX_THREADS};
use facts::{Begun, Fact, Line, Queue};
use lockword::{Reply, Tid};
use posixmutex::{Decision, Operation};

/// A line after the first: an entry of the trace, or its end.
#[derive(Clone, Copy)]
pub enum Read {
    Told(Line),
    /// The last line, with the number of events.
    End(u32),
}

/// The number, where it is in the range.
fn within(low: u32, high: u32, number: Spelled) -> Option<u32>
    ensures value { result ≡ number_in low high number }
    ensures range { IfSome result (λ n. (low ≤ n) × (n ≤ high)) }
{
    let number = number?;
    if low <= number && number <= high {
        return Some(number);
    }
    None
}

fn head_in(form: &HeadForm) -> Option<Head>
    ensures value { result ≡ head_in form.now }
    ensures range { IfSome result IsHead }
{
    Some(Head {
        threads: within(1, MAX_THREADS, form.threads)? as u8,
        mutexes: within(1, MAX_MUTEXES, form.mutexes)? as u16,
        conditions: within(0, MAX_CONDITIONS, form.conditions)? as u16,
    })
}

fn thread_in(head: &Head, number: Spelled) -> Option<Tid>
    requires { head.now.threads ≤ max_threads }
    ensures value { result ≡ thread_in head.now number }
    ensures range { IfSome result (λ t. t < head.now.threads + 1) }
{
    Tid::new(within(1, u32::from(head.threads), number)? as u8)
}

fn below(count: u16, number: Spelled) -> Option<u16>
    ensures value { result ≡ below_in count number }
    ensures range { IfSome result (λ n. n < count) }
{
    let number = number?;
    if number < u32::from(count) {
        return Some(number as u16);
    }
    None
}

fn begin_in(head: &Head, thread: Spelled, operation: Operation, mutex: Spelled) -> Option<Fact>
    requires { head.now.threads ≤ max_threads }
    ensures value { result ≡ begin_in head.now thread operation mutex }
    ensures range { IfSome result (IsInside (head.now.threads + 1) head.now.mutexes) }
{
    let thread = thread_in(head, thread)?;
    let mutex = below(head.mutexes, mutex)?;
    Some(Fact::Begin(
        thread,
        Begun {
            operation,
            mutex,
            condition: None,
        },
    ))
}

fn begin_on_in(
    head: &Head,
    thread: Spelled,
    operation: Operation,
    condition: Spelled,
    mutex: Spelled,
) -> Option<Fact>
    requires { head.now.threads ≤ max_threads }
    ensures value { result ≡ begin_on_in head.now thread operation condition mutex }
    ensures range { IfSome result (IsInside (head.now.threads + 1) head.now.mutexes) }
{
    let thread = thread_in(head, thread)?;
    let condition = below(head.conditions, condition)?;
    let mutex = below(head.mutexes, mutex)?;
    Some(Fact::Begin(
        thread,
        Begun {
            operation,
            mutex,
            condition: Some(condition),
        },
    ))
}

fn point_in(
    head: &Head,
    thread: Spelled,
    mutex: Spelled,
    operation: Operation,
    reply: Reply,
) -> Option<Fact>
    requires { head.now.threads ≤ max_threads }
    ensures value { result ≡ point_in head.now thread mutex operation reply }
    ensures range { IfSome result (IsInside (head.now.threads + 1) head.now.mutexes) }
{
    let thread = thread_in(head, thread)?;
    let mutex = below(head.mutexes, mutex)?;
    Some(Fact::Point(Decision {
        thread,
        mutex,
        operation,
        reply,
    }))
}

fn death_in(head: &Head, thread: Spelled, mutex: Spelled) -> Option<Fact>
    requires { head.now.threads ≤ max_threads }
    ensures value { result ≡ death_in head.now thread mutex }
    ensures range { IfSome result (IsInside (head.now.threads + 1) head.now.mutexes) }
{
    let thread = thread_in(head, thread)?;
    Some(Fact::Death(thread, below(head.mutexes, mutex)?))
}

fn sleep_in(head: &Head, thread: Spelled, mutex: Spelled) -> Option<Fact>
    requires { head.now.threads ≤ max_threads }
    ensures value { result ≡ sleep_in head.now thread mutex }
    ensures range { IfSome result (IsInside (head.now.threads + 1) head.now.mutexes) }
{
    let thread = thread_in(head, thread)?;
    let mutex = below(head.mutexes, mutex)?;
    Some(Fact::Sleep(thread, Queue::Mutex(mutex)))
}

fn sleep_on_in(head: &Head, thread: Spelled, condition: Spelled) -> Option<Fact>
    requires { head.now.threads ≤ max_threads }
    ensures value { result ≡ sleep_on_in head.now thread condition }
    ensures range { IfSome result (IsInside (head.now.threads + 1) head.now.mutexes) }
{
    let thread = thread_in(head, thread)?;
    let condition = below(head.conditions, condition)?;
    Some(Fact::Sleep(thread, Queue::Condition(condition)))
}

fn move_in(head: &Head, thread: Spelled, mutex: Spelled) -> Option<Fact>
    requires { head.now.threads ≤ max_threads }
    ensures value { result ≡ move_in head.now thread mutex }
    ensures range { IfSome result (IsInside (head.now.threads + 1) head.now.mutexes) }
{
    let thread = thread_in(head, thread)?;
    Some(Fact::Move(thread, below(head.mutexes, mutex)?))
}

fn fact_in(head: &Head, said: &Said) -> Option<Fact>
    requires { head.now.threads ≤ max_threads }
    ensures value { result ≡ fact_in head.now said.now }
    ensures range { IfSome result (IsInside (head.now.threads + 1) head.now.mutexes) }
{
    match *said {
        Said::Begin(thread, operation, mutex) => begin_in(head, thread, operation, mutex),
        Said::BeginOn(thread, operation, condition, mutex) => {
            begin_on_in(head, thread, operation, condition, mutex)
        }
        Said::Kill(thread) => thread_in(head, thread).map(Fact::Kill),
        Said::Point(thread, mutex, operation, reply) => {
            point_in(head, thread, mutex, operation, reply)
        }
        Said::Death(thread, mutex) => death_in(head, thread, mutex),
        Said::Sleep(thread, mutex) => sleep_in(head, thread, mutex),
        Said::SleepOn(thread, condition) => sleep_on_in(head, thread, condition),
        Said::Wake(thread) => thread_in(head, thread).map(Fact::Wake),
        Said::Move(thread, mutex) => move_in(head, thread, mutex),
        Said::Return(thread, reply) => {
            let thread = thread_in(head, thread)?;
            Some(Fact::Return(thread, reply))
        }
        Said::Reap(thread) => thread_in(head, thread).map(Fact::Reap),
        Said::Renew(thread) => thread_in(head, thread).map(Fact::Renew),
    }
}

fn line_in(head: &Head, form: &Form) -> Option<Read>
    requires { head.now.threads ≤ max_threads }
    ensures value { result ≡ line_in head.now form.now }
    ensures range { IfSome result (IsRead head.now) }
{
    Some(match *form {
        Form::Told(event, said) => Read::Told(Line {
            event: within(1, MAX_EVENTS, event)?,
            fact: fact_in(head, &said)?,
        }),
        Form::End(count) => Read::End(count?),
    })
}

/// Reads the first line.
pub fn head_of(text: &str) -> Result<Head, Fault>
    ensures value { result ≡ head_read text.now }
    ensures range { IfOk result IsHead }
{
    let form = read_head(text).ok_or(Fault::UnknownWord)?;
    head_in(&form).ok_or(Fault::OutOfRange)
}

/// Reads a line after the first.
pub fn line_of(head: &Head, text: &str) -> Result<Read, Fault>
    requires { head.now.threads ≤ max_threads }
    ensures value { result ≡ line_read head.now text.now }
    ensures range { IfOk result (IsRead head.now) }
{
    let form = read_form(text).ok_or(Fault::UnknownWord)?;
    match line_in(head, &form) {
        Some(line) => Ok(line),
        None => Err(Fault::OutOfRange),
    }
}
