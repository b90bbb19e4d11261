//! The kinds of line of a trace.

ghost use Rattle.std.specs.Prelude.{◌≡◌, [], ◌∷◌};
ghost use Rattle.verdict.specs.Forms.{call_operation, condition_operation, end_form, form_of};
ghost use Rattle.verdict.specs.Forms.{head_form, mark_form, mutex_operation, object_said, object_form};
ghost use Rattle.verdict.specs.Forms.{point_said, begin_on_said, begin_form, many_form, sleep_said};
ghost use Rattle.posixmutex.specs.Words.{operation_of};
ghost use Rattle.lockword.specs.Replies.{reply_of};
ghost use Rattle.lines.specs.Lines.{words_of};

use crate::words::{number, numbered};
use lines::{Words, words_in};
use lockword::Reply;
use posixmutex::Operation;

/// A number that a line spells; None where it is past every range.
pub type Spelled = Option<u32>;

/// What an event's line tells, by the numbers that it spells.
#[derive(Clone, Copy)]
pub enum Said {
    /// A call on a mutex: its thread and its mutex.
    Begin(Spelled, Operation, Spelled),
    /// A call on a condition variable: its thread, its condition variable and its mutex.
    BeginOn(Spelled, Operation, Spelled, Spelled),
    Kill(Spelled),
    Point(Spelled, Spelled, Operation, Reply),
    Death(Spelled, Spelled),
    /// Asleep on a mutex.
    Sleep(Spelled, Spelled),
    /// Asleep on a condition variable.
    SleepOn(Spelled, Spelled),
    Wake(Spelled),
    Move(Spelled, Spelled),
    Return(Spelled, Reply),
    Reap(Spelled),
    Renew(Spelled),
}

/// What a line after the first spells.
#[derive(Clone, Copy)]
pub enum Form {
    /// What an event did, with the event's number.
    Told(Spelled, Said),
    /// The last line, with the number of events.
    End(Spelled),
}

/// What the first line spells: how many threads, mutexes and condition variables.
#[derive(Clone, Copy)]
pub struct HeadForm {
    pub threads: Spelled,
    pub mutexes: Spelled,
    pub conditions: Spelled,
}

/// The operation with this word.
fn operation(word: &str) -> Option<Operation>
    ensures { result ≡ operation_of word.now }
{
    word.parse::<Operation>().ok()
}

/// A call on a mutex, by its word; a reinit is recorded as one.
fn mutex_operation(word: &str) -> Option<Operation>
    ensures { result ≡ mutex_operation word.now }
{
    let operation = operation(word)?;
    match operation {
        Operation::Lock | Operation::TryLock | Operation::TimedLock => Some(operation),
        Operation::Unlock | Operation::Consistent => Some(operation),
        Operation::Reinit => Some(operation),
        _ => None,
    }
}

/// A call on a condition variable, by its word.
fn condition_operation(word: &str) -> Option<Operation>
    ensures { result ≡ condition_operation word.now }
{
    let operation = operation(word)?;
    match operation {
        Operation::Wait | Operation::TimedWait => Some(operation),
        Operation::Signal | Operation::Broadcast => Some(operation),
        _ => None,
    }
}

/// Any call, by its word.
fn call_operation(word: &str) -> Option<Operation>
    ensures { result ≡ call_operation word.now }
{
    match operation(word)? {
        Operation::Death => None,
        operation => Some(operation),
    }
}

/// The reply with this name.
fn reply(word: &str) -> Option<Reply>
    ensures { result ≡ reply_of word.now }
{
    word.parse::<Reply>().ok()
}

fn head_of(keyword: &str, threads: &str, mutexes: &str, conditions: &str) -> Option<HeadForm>
    ensures { result ≡ head_form (keyword.now ∷ threads.now ∷ mutexes.now ∷ conditions.now ∷ []) }
{
    if keyword == "trace" {
        return Some(HeadForm {
            threads: number(threads)?,
            mutexes: number(mutexes)?,
            conditions: number(conditions)?,
        });
    }
    None
}

fn end(keyword: &str, count: &str) -> Option<Form>
    ensures { result ≡ end_form keyword.now count.now }
{
    if keyword == "end" {
        return Some(Form::End(number(count)?));
    }
    None
}

/// A line with nothing after its thread.
fn mark(event: &str, keyword: &str, thread: &str) -> Option<Form>
    ensures { result ≡ mark_form event.now keyword.now thread.now }
{
    let event = number(event)?;
    let thread = numbered('t', thread)?;
    match keyword {
        "kill" => Some(Form::Told(event, Said::Kill(thread))),
        "wake" => Some(Form::Told(event, Said::Wake(thread))),
        "reaped" => Some(Form::Told(event, Said::Reap(thread))),
        "renew" => Some(Form::Told(event, Said::Renew(thread))),
        _ => None,
    }
}

fn sleep(thread: Spelled, place: &str) -> Option<Said>
    ensures { result ≡ sleep_said thread place.now }
{
    if let Some(mutex) = numbered('m', place) {
        return Some(Said::Sleep(thread, mutex));
    }
    Some(Said::SleepOn(thread, numbered('c', place)?))
}

fn with_object(keyword: &str, thread: Spelled, object: &str) -> Option<Said>
    ensures { result ≡ object_said keyword.now thread object.now }
{
    match keyword {
        "death" => Some(Said::Death(thread, numbered('m', object)?)),
        "sleep" => sleep(thread, object),
        "move" => Some(Said::Move(thread, numbered('m', object)?)),
        "return" => Some(Said::Return(thread, reply(object)?)),
        _ => None,
    }
}

/// A line with one word after its thread.
fn object(event: &str, keyword: &str, thread: &str, object: &str) -> Option<Form>
    ensures { result ≡ object_form event.now keyword.now thread.now object.now }
{
    let event = number(event)?;
    let thread = numbered('t', thread)?;
    Some(Form::Told(event, with_object(keyword, thread, object)?))
}

/// The begin of a call on a mutex.
fn begin(event: &str, keyword: &str, thread: &str, call: &str, mutex: &str) -> Option<Form>
    ensures { result ≡ begin_form event.now keyword.now thread.now call.now mutex.now }
{
    let event = number(event)?;
    let thread = numbered('t', thread)?;
    let operation = mutex_operation(call)?;
    let mutex = numbered('m', mutex)?;
    if keyword == "begin" {
        return Some(Form::Told(event, Said::Begin(thread, operation, mutex)));
    }
    None
}

/// The begin of a call on a condition variable.
fn begin_on(thread: Spelled, call: &str, condition: &str, mutex: &str) -> Option<Said>
    ensures { result ≡ begin_on_said thread call.now condition.now mutex.now }
{
    let operation = condition_operation(call)?;
    let condition = numbered('c', condition)?;
    let mutex = numbered('m', mutex)?;
    Some(Said::BeginOn(thread, operation, condition, mutex))
}

fn point(thread: Spelled, mutex: &str, call: &str, word: &str) -> Option<Said>
    ensures { result ≡ point_said thread mutex.now call.now word.now }
{
    let mutex = numbered('m', mutex)?;
    let operation = call_operation(call)?;
    Some(Said::Point(thread, mutex, operation, reply(word)?))
}

/// A line with three words after its thread.
fn many(
    event: &str,
    keyword: &str,
    thread: &str,
    first: &str,
    second: &str,
    third: &str,
) -> Option<Form>
    ensures { result ≡ many_form event.now keyword.now thread.now first.now second.now third.now }
{
    let event = number(event)?;
    let thread = numbered('t', thread)?;
    match keyword {
        "begin" => Some(Form::Told(event, begin_on(thread, first, second, third)?)),
        "point" => Some(Form::Told(event, point(thread, first, second, third)?)),
        _ => None,
    }
}

/// What a line after the first spells, and None where it is no such line.
pub fn read_form(text: &str) -> Option<Form>
    ensures { result ≡ form_of text.now }
{
    match words_in(text) {
        Words::Two(keyword, count) => end(keyword, count),
        Words::Three(event, keyword, thread) => mark(event, keyword, thread),
        Words::Four(event, keyword, thread, word) => object(event, keyword, thread, word),
        Words::Five(event, keyword, thread, call, mutex) => {
            begin(event, keyword, thread, call, mutex)
        }
        Words::Six(event, keyword, thread, first, second, third) => {
            many(event, keyword, thread, first, second, third)
        }
        _ => None,
    }
}

/// What the first line spells, and None where it is no first line.
pub fn read_head(text: &str) -> Option<HeadForm>
    ensures { result ≡ head_form (words_of text.now) }
{
    match words_in(text) {
        Words::Four(keyword, threads, mutexes, conditions) => {
            head_of(keyword, threads, mutexes, conditions)
        }
        _ => None,
    }
}
