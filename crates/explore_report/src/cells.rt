//! The cells of an outcome: one for each thread and one for each mutex.

ghost use Rattle.std.specs.Prelude.{◌≡◌, ◌++◌, ◌<◌, ◌+◌, ◌-◌, length, map, slice_get, OnOk, IfOk};
ghost use Rattle.std.specs.List.{flat_map};
ghost use Rattle.explore_report.specs.Texts.{cell_at, end_text, flag_words, left_words, mutex_cell};
ghost use Rattle.explore_report.specs.Texts.{name_at, owner_text, text_at};
ghost use Rattle.explore_report.specs.Texts.{reply_text, thread_cell, widest};

use crate::names::{condition_name, mutex_name, thread_name, thread_name_at};
use lockword::Reply;
use outcomes::{End, Ended, Outcome, Witnessed};
use posixmutex::Object;
use reasons::add;
use script::Script;
use std::alloc::{AllocError, Global};

/// How a thread's end is said, after its replies.
fn add_end(text: &mut Vec<u8>, script: &Script, end: End) -> Result<(), AllocError>
    ensures { OnOk result (text.new.items ≡ text.old.items ++ end_text script.now end) }
{
    match end {
        End::Finished => Ok(()),
        End::Waiting => text.extend_from_slice(b" waiting"),
        End::Dead => text.extend_from_slice(b" dead"),
        End::OnMutex(mutex) => add(text, &[" asleep on ", mutex_name(script, mutex)]),
        End::OnCondition(condition) => {
            let name = condition_name(script, condition);
            add(text, &[" asleep on cond ", name])
        }
    }
}

/// A reply, after a space.
fn add_reply(text: &mut Vec<u8>, reply: Reply) -> Result<(), AllocError>
    ensures { OnOk result (text.new.items ≡ text.old.items ++ reply_text reply) }
{
    add(text, &[" ", reply.name()])
}

/// Replies, each after a space.
fn add_replies(text: &mut Vec<u8>, replies: &[Reply]) -> Result<(), AllocError>
    ensures { OnOk result (text.new.items ≡ text.old.items ++ flat_map reply_text replies.now) }
{
    for reply in replies {
        add_reply(text, *reply)?;
    }
    Ok(())
}

/// `NAME REPLY..`, and how the thread ended, if it hasn't made all of its calls.
fn add_thread(
    text: &mut Vec<u8>,
    script: &Script,
    name: &str,
    ended: &Ended,
) -> Result<(), AllocError>
    ensures { OnOk result (text.new.items ≡ text.old.items ++ thread_cell script.now name.now ended.now) }
{
    text.extend_from_slice(name.as_bytes())?;
    add_replies(text, &ended.replies)?;
    add_end(text, script, ended.end)
}

/// How a mutex is left that nobody owns.
fn left_words(inconsistent: bool, unusable: bool) -> &'static str
    ensures { result.now ≡ left_words inconsistent unusable }
{
    if inconsistent {
        if unusable {
            " inconsistent, unusable"
        } else {
            " inconsistent"
        }
    } else if unusable {
        " unusable"
    } else {
        " free"
    }
}

/// What is said of a mutex, after its owner.
fn flag_words(inconsistent: bool, unusable: bool) -> &'static str
    ensures { result.now ≡ flag_words inconsistent unusable }
{
    if inconsistent {
        if unusable {
            ", inconsistent, unusable"
        } else {
            ", inconsistent"
        }
    } else if unusable {
        ", unusable"
    } else {
        ""
    }
}

/// Whose a mutex is, or how it is left.
fn add_owner(text: &mut Vec<u8>, script: &Script, object: &Object) -> Result<(), AllocError>
    ensures { OnOk result (text.new.items ≡ text.old.items ++ owner_text script.now object.now object.now.owner) }
{
    let (inconsistent, unusable) = (object.inconsistent, object.unusable);
    match object.owner {
        None => text.extend_from_slice(left_words(inconsistent, unusable).as_bytes()),
        Some(owner) => {
            add(text, &[" owned by ", thread_name(script, owner)])?;
            text.extend_from_slice(flag_words(inconsistent, unusable).as_bytes())
        }
    }
}

/// `NAME free`, `NAME inconsistent`, `NAME unusable`, or whose it is.
fn add_mutex(
    text: &mut Vec<u8>,
    script: &Script,
    name: &str,
    object: &Object,
) -> Result<(), AllocError>
    ensures { OnOk result (text.new.items ≡ text.old.items ++ mutex_cell script.now name.now object.now) }
{
    text.extend_from_slice(name.as_bytes())?;
    add_owner(text, script, object)
}

/// The cell of a thread.
fn add_thread_at(
    text: &mut Vec<u8>,
    script: &Script,
    outcome: &Outcome,
    index: u8,
) -> Result<(), AllocError>
    requires { index < length script.now.threads }
    ensures { OnOk result (text.new.items ≡ text.old.items ++ text_at (thread_cell script.now (name_at script.now.threads index))
        (slice_get outcome.now.threads.items index)) }
{
    match outcome.threads.get(usize::from(index)) {
        Some(ended) => add_thread(text, script, thread_name_at(script, index), ended),
        None => Ok(()),
    }
}

/// The cell of a mutex.
fn add_mutex_at(
    text: &mut Vec<u8>,
    script: &Script,
    outcome: &Outcome,
    mutex: u16,
) -> Result<(), AllocError>
    requires { mutex < length script.now.mutexes }
    ensures { OnOk result (text.new.items ≡ text.old.items ++ text_at (mutex_cell script.now (name_at script.now.mutexes mutex))
        (slice_get outcome.now.mutexes.items mutex)) }
{
    match outcome.mutexes.get(usize::from(mutex)) {
        Some(object) => add_mutex(text, script, script.mutex_name(mutex), object),
        None => Ok(()),
    }
}

/// The cell of a column: those of threads come first, and then those of mutexes.
pub fn add_cell(
    text: &mut Vec<u8>,
    script: &Script,
    outcome: &Outcome,
    column: u16,
) -> Result<(), AllocError>
    requires { column < length script.now.threads + length script.now.mutexes }
    ensures { OnOk result (text.new.items ≡ text.old.items ++ cell_at script.now outcome.now column) }
{
    let threads = u16::from(script.threads());
    if column < threads {
        add_thread_at(text, script, outcome, column as u8)
    } else {
        add_mutex_at(text, script, outcome, column - threads)
    }
}

/// How long the cell of a column is.
fn length_of(
    alloc: Global,
    script: &Script,
    outcome: &Outcome,
    column: u16,
) -> Result<usize, AllocError>
    requires { column < length script.now.threads + length script.now.mutexes }
    ensures { IfOk result (λ n. n ≡ length (cell_at script.now outcome.now column)) }
{
    let mut text = Vec::new(alloc);
    add_cell(&mut text, script, outcome, column)?;
    Ok(text.len())
}

/// How long the longest cell of a column is.
pub fn width_of(
    alloc: Global,
    script: &Script,
    outcomes: &[&Witnessed],
    column: u16,
) -> Result<usize, AllocError>
    requires { column < length script.now.threads + length script.now.mutexes }
    ensures { IfOk result (λ n. n ≡ widest script.now column 0 (map (λ w. w.now) outcomes.now)) }
{
    let mut width = 0;
    for witnessed in outcomes {
        width = width.max(length_of(alloc, script, &witnessed.outcome, column)?);
    }
    Ok(width)
}
