//! The data of a page, item by item.

ghost use Rattle.std.specs.Prelude.{◌≡◌, ◌++◌, map, string_bytes, IfOk};
ghost use Rattle.std.specs.List.{concat};
ghost use Rattle.page.specs.Texts.{act_text, bed_text, begun_text, call_text, condition_text, flag, marks_text};
ghost use Rattle.page.specs.Texts.{object_behind, object_text, owner_text, point_text, queue_letter, queue_number};
ghost use Rattle.page.specs.Texts.{queue_text, rest_of, status_behind, status_text, told, whole_text, word_of};
ghost use Rattle.page.specs.Texts.{line_text, mutexes_text, threads_text};
ghost use Rattle.page.specs.States.{seen};
ghost use Rattle.facts.specs.Facts.{thread_of};

use crate::pieces::{add, add_number, add_word};
use crate::state::State;
use crate::status::{Bed, Status};
use facts::{Begun, Fact, Line, Queue};
use itoa::Buffer;
use lockword::{Reply, Tid};
use posixmutex::{Object, Operation};
use std::alloc::AllocError;

fn flag(set: bool) -> &'static str
    ensures { result.now ≡ flag set }
{
    if set { "1" } else { "0" }
}

fn queue_letter(queue: Queue) -> &'static str
    ensures { result.now ≡ queue_letter queue }
{
    match queue {
        Queue::Mutex(_) => "\"m\",",
        Queue::Condition(_) => "\"c\",",
    }
}

fn queue_number(queue: Queue) -> u16
    ensures { result ≡ queue_number queue }
{
    match queue {
        Queue::Mutex(mutex) => mutex,
        Queue::Condition(condition) => condition,
    }
}

fn add_queue(text: &mut String, queue: Queue) -> Result<(), AllocError>
    ensures { IfOk result (λ _. string_bytes text.new ≡ string_bytes text.old ++ queue_text queue) }
{
    add_word(text, queue_letter(queue))?;
    add_number(text, queue_number(queue).into())
}

fn add_condition(text: &mut String, condition: Option<u16>) -> Result<(), AllocError>
    ensures { IfOk result (λ _. string_bytes text.new ≡ string_bytes text.old ++ condition_text condition) }
{
    match condition {
        Some(condition) => {
            add_word(text, ",")?;
            add_number(text, condition.into())
        }
        None => Ok(()),
    }
}

/// A call: its operation, its mutex, and its condition variable where there is one.
fn add_begun(text: &mut String, call: Begun) -> Result<(), AllocError>
    ensures { IfOk result (λ _. string_bytes text.new ≡ string_bytes text.old ++ begun_text call) }
{
    let mut digits = Buffer::new();
    let mutex = digits.format(call.mutex);
    add(text, &["\"", call.operation.word(), "\",", mutex])?;
    add_condition(text, call.condition)
}

/// A point: its operation and its reply.
fn add_act(text: &mut String, operation: Operation, reply: Reply) -> Result<(), AllocError>
    ensures { IfOk result (λ _. string_bytes text.new ≡ string_bytes text.old ++ act_text (operation, reply)) }
{
    add(text, &["\"", operation.word(), "\",\"", reply.name(), "\""])
}

fn add_call(text: &mut String, call: Option<Begun>) -> Result<(), AllocError>
    ensures { IfOk result (λ _. string_bytes text.new ≡ string_bytes text.old ++ call_text call) }
{
    match call {
        Some(call) => {
            add_word(text, "[")?;
            add_begun(text, call)?;
            add_word(text, "],")
        }
        None => add_word(text, "0,"),
    }
}

fn add_point(text: &mut String, point: Option<(Operation, Reply)>) -> Result<(), AllocError>
    ensures { IfOk result (λ _. string_bytes text.new ≡ string_bytes text.old ++ point_text point) }
{
    match point {
        Some((operation, reply)) => {
            add_word(text, "[")?;
            add_act(text, operation, reply)?;
            add_word(text, "],")
        }
        None => add_word(text, "0,"),
    }
}

fn add_bed(text: &mut String, bed: Option<Bed>) -> Result<(), AllocError>
    ensures { IfOk result (λ _. string_bytes text.new ≡ string_bytes text.old ++ bed_text bed) }
{
    match bed {
        Some(bed) => {
            let mut digits = Buffer::new();
            let line = digits.format(bed.line);
            add_word(text, "[")?;
            add_queue(text, bed.queue)?;
            add(text, &[",", line, "]"])
        }
        None => add_word(text, "0"),
    }
}

fn add_marks(text: &mut String, status: &Status) -> Result<(), AllocError>
    ensures { IfOk result (λ _. string_bytes text.new ≡ string_bytes text.old ++ marks_text status.now) }
{
    let mut digits = Buffer::new();
    let life = digits.format(status.life);
    let killed = flag(status.killed);
    let reaped = flag(status.reaped);
    add(text, &["[", life, ",", killed, ",", reaped, ","])
}

/// What a thread does.
pub fn add_status(text: &mut String, status: &Status) -> Result<(), AllocError>
    ensures { IfOk result (λ _. string_bytes text.new ≡ string_bytes text.old ++ status_text status.now) }
{
    add_marks(text, status)?;
    add_call(text, status.call)?;
    add_point(text, status.point)?;
    add_bed(text, status.bed)?;
    add_word(text, "]")
}

fn add_owner(text: &mut String, owner: Option<Tid>) -> Result<(), AllocError>
    ensures { IfOk result (λ _. string_bytes text.new ≡ string_bytes text.old ++ owner_text owner) }
{
    match owner {
        Some(owner) => {
            add_word(text, "[")?;
            add_number(text, owner.get().into())?;
            add_word(text, ",")
        }
        None => add_word(text, "[0,"),
    }
}

/// What a mutex is.
fn add_object(text: &mut String, object: Object) -> Result<(), AllocError>
    ensures { IfOk result (λ _. string_bytes text.new ≡ string_bytes text.old ++ object_text object) }
{
    let inconsistent = flag(object.inconsistent);
    let unusable = flag(object.unusable);
    add_owner(text, object.owner)?;
    add(text, &[inconsistent, ",", unusable, "]"])
}

/// What a mutex is, after what comes before it.
pub fn add_object_behind(text: &mut String, object: Object) -> Result<(), AllocError>
    ensures { IfOk result (λ _. string_bytes text.new ≡ string_bytes text.old ++ object_behind object) }
{
    add_word(text, ",")?;
    add_object(text, object)
}

fn add_status_behind(text: &mut String, status: &Status) -> Result<(), AllocError>
    ensures { IfOk result (λ _. string_bytes text.new ≡ string_bytes text.old ++ status_behind status.now) }
{
    add_word(text, ",")?;
    add_status(text, status)
}

fn add_statuses(text: &mut String, statuses: &[Status]) -> Result<(), AllocError>
    ensures { IfOk result
        (λ _. string_bytes text.new ≡ string_bytes text.old ++ concat (map status_behind statuses.now)) }
{
    for status in statuses {
        add_status_behind(text, status)?;
    }
    Ok(())
}

fn add_objects(text: &mut String, objects: &[Object]) -> Result<(), AllocError>
    ensures { IfOk result
        (λ _. string_bytes text.new ≡ string_bytes text.old ++ concat (map object_behind objects.now)) }
{
    for object in objects {
        add_object_behind(text, *object)?;
    }
    Ok(())
}

fn add_threads(text: &mut String, statuses: &[Status]) -> Result<(), AllocError>
    ensures { IfOk result (λ _. string_bytes text.new ≡ string_bytes text.old ++ threads_text statuses.now) }
{
    add_word(text, "[[\"threads\"")?;
    add_statuses(text, statuses)
}

fn add_mutexes(text: &mut String, objects: &[Object]) -> Result<(), AllocError>
    ensures { IfOk result (λ _. string_bytes text.new ≡ string_bytes text.old ++ mutexes_text objects.now) }
{
    add_word(text, "],[\"mutexes\"")?;
    add_objects(text, objects)?;
    add_word(text, "]],\n")
}

/// What all threads and mutexes are.
pub fn add_whole(text: &mut String, state: &State) -> Result<(), AllocError>
    ensures { IfOk result (λ _. string_bytes text.new ≡ string_bytes text.old ++ whole_text (seen state.now)) }
{
    add_threads(text, &state.threads)?;
    add_mutexes(text, &state.mutexes)
}

fn word_of(fact: &Fact) -> &'static str
    ensures { result.now ≡ word_of fact.now }
{
    match *fact {
        Fact::Begin(..) => "begin",
        Fact::Point(_) => "point",
        Fact::Death(..) => "death",
        Fact::Sleep(..) => "sleep",
        Fact::Wake(_) => "wake",
        Fact::Move(..) => "move",
        Fact::Return(..) => "return",
        Fact::Kill(_) => "kill",
        Fact::Reap(_) => "reaped",
        Fact::Renew(_) => "renew",
    }
}

fn add_rest(text: &mut String, fact: &Fact) -> Result<(), AllocError>
    ensures { IfOk result (λ _. string_bytes text.new ≡ string_bytes text.old ++ rest_of fact.now) }
{
    match *fact {
        Fact::Begin(_, call) => {
            add_word(text, ",")?;
            add_begun(text, call)
        }
        Fact::Point(decision) => {
            let mut digits = Buffer::new();
            let mutex = digits.format(decision.mutex);
            add(text, &[",", mutex, ","])?;
            add_act(text, decision.operation, decision.reply)
        }
        Fact::Death(_, mutex) => {
            add_word(text, ",")?;
            add_number(text, mutex.into())
        }
        Fact::Sleep(_, queue) => {
            add_word(text, ",")?;
            add_queue(text, queue)
        }
        Fact::Move(_, mutex) => {
            add_word(text, ",")?;
            add_queue(text, Queue::Mutex(mutex))
        }
        Fact::Return(_, reply) => add(text, &[",\"", reply.name(), "\""]),
        Fact::Wake(_) | Fact::Kill(_) | Fact::Reap(_) | Fact::Renew(_) => Ok(()),
    }
}

fn add_told(text: &mut String, fact: &Fact) -> Result<(), AllocError>
    ensures { IfOk result
        (λ _. string_bytes text.new ≡ string_bytes text.old ++ told (word_of fact.now) (thread_of fact.now)) }
{
    let mut digits = Buffer::new();
    let thread = digits.format(fact.thread().get());
    add(text, &["[\"", word_of(fact), "\",", thread])
}

/// What a line tells: its event, its word, its thread, and what else it names.
pub fn add_line(text: &mut String, line: &Line) -> Result<(), AllocError>
    ensures { IfOk result (λ _. string_bytes text.new ≡ string_bytes text.old ++ line_text line.now) }
{
    let mut digits = Buffer::new();
    let event = digits.format(line.event);
    add(text, &["[", event, ","])?;
    add_told(text, &line.fact)?;
    add_rest(text, &line.fact)?;
    add_word(text, "],")
}
