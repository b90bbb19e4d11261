//! The kinds of line of a history.

ghost use Rattle.std.specs.Prelude.{◌≡◌, [], ◌∷◌};
ghost use Rattle.histories.specs.Forms.{begin_form, begin_on_form, end_form, form_of, head_form};
ghost use Rattle.histories.specs.Forms.{mark_form, word_form};
ghost use Rattle.lines.specs.Lines.{words_of};
ghost use Rattle.lockword.specs.Replies.{reply_of};
ghost use Rattle.posixmutex.specs.Words.{operation_of};
ghost use Rattle.verdict.specs.Forms.{condition_operation, mutex_operation};

use crate::words::{number, numbered};
use lines::{Words, words_in};
use lockword::Reply;
use posixmutex::Operation;

/// A number that a line spells; None where it is past every range.
pub type Spelled = Option<u64>;

/// What an event's line tells, by the numbers that it spells.
#[derive(Clone, Copy)]
pub enum Said {
    /// A call on a mutex: its thread and its mutex.
    Begin(Spelled, Operation, Spelled),
    /// A call on a condition variable: its thread, its condition variable and its mutex.
    BeginOn(Spelled, Operation, Spelled, Spelled),
    Return(Spelled, Reply),
    Kill(Spelled),
    Doom(Spelled),
    Reap(Spelled),
    Renew(Spelled),
    /// A line of a trace that isn't seen from outside, of this thread: what else it says isn't read.
    Hidden(Spelled),
}

/// What a line after the first spells.
#[derive(Clone, Copy)]
pub enum Form {
    /// What an event did, with the event's number.
    Told(Spelled, Said),
    /// The last line, with the number of events.
    End(Spelled),
}

/// What the first line spells: how many threads, mutexes and condition variables.
#[derive(Clone, Copy)]
pub struct HeadForm {
    pub threads: Spelled,
    pub mutexes: Spelled,
    pub conditions: Spelled,
}

/// The operation with this word.
fn operation(word: &str) -> Option<Operation>
    ensures { result ≡ operation_of word.now }
{
    word.parse::<Operation>().ok()
}

/// A call on a mutex, by its word; a reinit is recorded as one.
fn mutex_operation(word: &str) -> Option<Operation>
    ensures { result ≡ mutex_operation word.now }
{
    let operation = operation(word)?;
    match operation {
        Operation::Lock | Operation::TryLock | Operation::TimedLock => Some(operation),
        Operation::Unlock | Operation::Consistent => Some(operation),
        Operation::Reinit => Some(operation),
        _ => None,
    }
}

/// A call on a condition variable, by its word.
fn condition_operation(word: &str) -> Option<Operation>
    ensures { result ≡ condition_operation word.now }
{
    let operation = operation(word)?;
    match operation {
        Operation::Wait | Operation::TimedWait => Some(operation),
        Operation::Signal | Operation::Broadcast => Some(operation),
        _ => None,
    }
}

/// The reply with this name.
fn reply(word: &str) -> Option<Reply>
    ensures { result ≡ reply_of word.now }
{
    word.parse::<Reply>().ok()
}

fn head_of(keyword: &str, threads: &str, mutexes: &str, conditions: &str) -> Option<HeadForm>
    ensures { result ≡ head_form (keyword.now ∷ threads.now ∷ mutexes.now ∷ conditions.now ∷ []) }
{
    if keyword == "history" || keyword == "trace" {
        return Some(HeadForm {
            threads: number(threads)?,
            mutexes: number(mutexes)?,
            conditions: number(conditions)?,
        });
    }
    None
}

fn end(keyword: &str, count: &str) -> Option<Form>
    ensures { result ≡ end_form keyword.now count.now }
{
    if keyword == "end" {
        return Some(Form::End(number(count)?));
    }
    None
}

/// A line with nothing after its thread.
fn mark(event: &str, keyword: &str, thread: &str) -> Option<Form>
    ensures { result ≡ mark_form event.now keyword.now thread.now }
{
    let event = number(event)?;
    let thread = numbered('t', thread)?;
    match keyword {
        "kill" => Some(Form::Told(event, Said::Kill(thread))),
        "doom" => Some(Form::Told(event, Said::Doom(thread))),
        "reaped" => Some(Form::Told(event, Said::Reap(thread))),
        "renew" => Some(Form::Told(event, Said::Renew(thread))),
        "wake" => Some(Form::Told(event, Said::Hidden(thread))),
        _ => None,
    }
}

/// A line with one word after its thread.
fn with_word(event: &str, keyword: &str, thread: &str, word: &str) -> Option<Form>
    ensures { result ≡ word_form event.now keyword.now thread.now word.now }
{
    let event = number(event)?;
    let thread = numbered('t', thread)?;
    match keyword {
        "return" => Some(Form::Told(event, Said::Return(thread, reply(word)?))),
        "death" | "sleep" | "move" => Some(Form::Told(event, Said::Hidden(thread))),
        _ => None,
    }
}

/// The begin of a call on a mutex.
fn begin(event: &str, keyword: &str, thread: &str, call: &str, mutex: &str) -> Option<Form>
    ensures { result ≡ begin_form event.now keyword.now thread.now call.now mutex.now }
{
    let event = number(event)?;
    let thread = numbered('t', thread)?;
    if keyword == "begin" {
        let operation = mutex_operation(call)?;
        let mutex = numbered('m', mutex)?;
        return Some(Form::Told(event, Said::Begin(thread, operation, mutex)));
    }
    None
}

/// The begin of a call on a condition variable, or a point.
fn begin_on(
    event: &str,
    keyword: &str,
    thread: &str,
    call: &str,
    condition: &str,
    mutex: &str,
) -> Option<Form>
    ensures { result ≡ begin_on_form event.now keyword.now thread.now call.now condition.now mutex.now }
{
    let event = number(event)?;
    let thread = numbered('t', thread)?;
    if keyword == "begin" {
        let operation = condition_operation(call)?;
        let condition = numbered('c', condition)?;
        let mutex = numbered('m', mutex)?;
        return Some(Form::Told(event, Said::BeginOn(thread, operation, condition, mutex)));
    }
    if keyword == "point" {
        return Some(Form::Told(event, Said::Hidden(thread)));
    }
    None
}

/// What a line after the first spells, and None where it is no such line.
pub fn read_form(text: &str) -> Option<Form>
    ensures { result ≡ form_of text.now }
{
    match words_in(text) {
        Words::Two(keyword, count) => end(keyword, count),
        Words::Three(event, keyword, thread) => mark(event, keyword, thread),
        Words::Four(event, keyword, thread, word) => with_word(event, keyword, thread, word),
        Words::Five(event, keyword, thread, call, mutex) => {
            begin(event, keyword, thread, call, mutex)
        }
        Words::Six(event, keyword, thread, call, condition, mutex) => {
            begin_on(event, keyword, thread, call, condition, mutex)
        }
        _ => None,
    }
}

/// What the first line spells, and None where it is no first line.
pub fn read_head(text: &str) -> Option<HeadForm>
    ensures { result ≡ head_form (words_of text.now) }
{
    match words_in(text) {
        Words::Four(keyword, threads, mutexes, conditions) => {
            head_of(keyword, threads, mutexes, conditions)
        }
        _ => None,
    }
}
