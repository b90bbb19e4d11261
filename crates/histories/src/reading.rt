//! Lines of a history whose numbers are in their ranges.

ghost use Rattle.std.specs.Prelude.{◌≡◌, ◌≤◌, true, false, IfOk, IfSome, MatchOption};
ghost use Rattle.std.specs.Str.{is_utf8};
ghost use Rattle.histories.specs.Reading.{IsHead, begin_in, begin_on_in, below_in, head_in, head_read};
ghost use Rattle.histories.specs.Reading.{head_said, line_in, line_read, line_said, number_in, said_in, thread_in};

use crate::entry::Entry;
use crate::fault::Fault;
use crate::form::{Form, HeadForm, Said, Spelled, read_form, read_head};
use crate::head::Head;
use crate::limits::{MAX_CONDITIONS, MAX_EVENTS, MAX_MUTEXES, MAX_THREADS};
use facts::{Begun, Fact};
use lockword::Tid;
use posixmutex::Operation;

/// A line after the first.
#[derive(Clone, Copy, Debug, PartialEq, Eq)]
pub enum Read {
    /// What the event with this number did; None where that isn't seen from outside.
    Told(u64, Option<Entry>),
    /// The last line, with the number of events.
    End(u64),
}

/// The number, where it is in the range.
fn within(low: u64, high: u64, number: Spelled) -> Option<u64>
    ensures value { result ≡ number_in low high number }
    ensures range { IfSome result (λ n. (low ≤ n) × (n ≤ high)) }
{
    let number = number?;
    if low <= number && number <= high {
        return Some(number);
    }
    None
}

fn head_in(form: &HeadForm) -> Option<Head>
    ensures value { result ≡ head_in form.now }
    ensures range { IfSome result IsHead }
{
    Some(Head {
        threads: within(1, MAX_THREADS, form.threads)? as u8,
        mutexes: within(1, MAX_MUTEXES, form.mutexes)? as u32,
        conditions: within(0, MAX_CONDITIONS, form.conditions)? as u32,
    })
}

fn thread_in(head: &Head, number: Spelled) -> Option<Tid>
    requires { IsHead head.now }
    ensures { result ≡ thread_in head.now number }
{
    Tid::new(within(1, u64::from(head.threads), number)? as u8)
}

fn below(count: u32, number: Spelled) -> Option<u16>
    requires { count ≤ 65536 }
    ensures { result ≡ below_in count number }
{
    let number = number?;
    if number < u64::from(count) {
        return Some(number as u16);
    }
    None
}

fn begin_in(head: &Head, thread: Spelled, operation: Operation, mutex: Spelled) -> Option<Entry>
    requires { IsHead head.now }
    ensures { result ≡ begin_in head.now thread operation mutex }
{
    let thread = thread_in(head, thread)?;
    let mutex = below(head.mutexes, mutex)?;
    Some(Entry::Told(Fact::Begin(
        thread,
        Begun {
            operation,
            mutex,
            condition: None,
        },
    )))
}

fn begin_on_in(
    head: &Head,
    thread: Spelled,
    operation: Operation,
    condition: Spelled,
    mutex: Spelled,
) -> Option<Entry>
    requires { IsHead head.now }
    ensures { result ≡ begin_on_in head.now thread operation condition mutex }
{
    let thread = thread_in(head, thread)?;
    let condition = below(head.conditions, condition)?;
    let mutex = below(head.mutexes, mutex)?;
    Some(Entry::Told(Fact::Begin(
        thread,
        Begun {
            operation,
            mutex,
            condition: Some(condition),
        },
    )))
}

/// What an event's line tells; None inside where that isn't seen from outside.
fn said_in(head: &Head, said: &Said) -> Option<Option<Entry>>
    requires { IsHead head.now }
    ensures { result ≡ said_in head.now said.now }
{
    match *said {
        Said::Begin(thread, operation, mutex) => {
            Some(Some(begin_in(head, thread, operation, mutex)?))
        }
        Said::BeginOn(thread, operation, condition, mutex) => Some(Some(begin_on_in(
            head, thread, operation, condition, mutex,
        )?)),
        Said::Return(thread, reply) => {
            let thread = thread_in(head, thread)?;
            Some(Some(Entry::Told(Fact::Return(thread, reply))))
        }
        Said::Kill(thread) => {
            let thread = thread_in(head, thread)?;
            Some(Some(Entry::Told(Fact::Kill(thread))))
        }
        Said::Doom(thread) => {
            let thread = thread_in(head, thread)?;
            Some(Some(Entry::Doom(thread)))
        }
        Said::Reap(thread) => {
            let thread = thread_in(head, thread)?;
            Some(Some(Entry::Told(Fact::Reap(thread))))
        }
        Said::Renew(thread) => {
            let thread = thread_in(head, thread)?;
            Some(Some(Entry::Told(Fact::Renew(thread))))
        }
        Said::Hidden(thread) => {
            let _thread = thread_in(head, thread)?;
            Some(None)
        }
    }
}

fn line_in(head: &Head, form: &Form) -> Option<Read>
    requires { IsHead head.now }
    ensures { result ≡ line_in head.now form.now }
{
    match *form {
        Form::Told(event, said) => {
            let event = within(1, MAX_EVENTS, event)?;
            Some(Read::Told(event, said_in(head, &said)?))
        }
        Form::End(count) => Some(Read::End(count?)),
    }
}

/// The text that the bytes of a line are.
fn text_of(line: &[u8]) -> Option<&str>
    ensures { MatchOption result (is_utf8 line.now ≡ false)
        (λ text. (is_utf8 line.now ≡ true) × (text.now ≡ line.now)) }
{
    match str::from_utf8(line) {
        Ok(text) => Some(text),
        Err(_) => None,
    }
}

fn head_said(text: &str) -> Result<Head, Fault>
    ensures value { result ≡ head_said text.now }
    ensures range { IfOk result IsHead }
{
    let form = read_head(text).ok_or(Fault::UnknownWord)?;
    head_in(&form).ok_or(Fault::OutOfRange)
}

fn line_said(head: &Head, text: &str) -> Result<Read, Fault>
    requires { IsHead head.now }
    ensures { result ≡ line_said head.now text.now }
{
    let form = read_form(text).ok_or(Fault::UnknownWord)?;
    match line_in(head, &form) {
        Some(line) => Ok(line),
        None => Err(Fault::OutOfRange),
    }
}

/// Reads the first line, without its line feed.
pub fn head_of(line: &[u8]) -> Result<Head, Fault>
    ensures value { result ≡ head_read line.now }
    ensures range { IfOk result IsHead }
{
    match text_of(line) {
        Some(text) => head_said(text),
        None => Err(Fault::NotUtf8),
    }
}

/// Reads a line after the first, without its line feed.
pub fn line_of(head: &Head, line: &[u8]) -> Result<Read, Fault>
    requires { IsHead head.now }
    ensures { result ≡ line_read head.now line.now }
{
    match text_of(line) {
        Some(text) => line_said(head, text),
        None => Err(Fault::NotUtf8),
    }
}
