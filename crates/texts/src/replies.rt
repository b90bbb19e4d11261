//! The text that tells of real threads: what each was answered, and how they left the mutexes and the condition
//! variables.

ghost use Rattle.std.specs.Prelude.{◌≡◌};
ghost use Rattle.streams.specs.Leaves.{Leaves};
ghost use Rattle.texts.specs.Replies.{reply_texts, ending, replies_line, owner_name, mutex_line, condition_line};
ghost use Rattle.texts.specs.Replies.{threads_text, mutexes_text, conditions_text, objects_text, replies_text};

use crate::mutex_start::write_mutex_start;
use itoa::Buffer;
use lockword::{Cell, Reply};
use std::io::{self, Write};
use streams::put;

/// What a thread was answered.
#[derive(Clone, Copy, Debug)]
pub struct ThreadReplies<'a> {
    pub name: &'a str,
    /// The replies of its calls, in their order.
    pub replies: &'a [Reply],
    /// The thread died, and made no further call.
    pub died: bool,
}

/// A mutex as its threads left it.
#[derive(Clone, Copy, Debug)]
pub struct MutexWord<'a> {
    pub name: &'a str,
    /// The word of its cell.
    pub cell: u64,
}

/// A condition variable as its threads left it.
#[derive(Clone, Copy, Debug)]
pub struct ConditionWord<'a> {
    pub name: &'a str,
    /// The word of its counter.
    pub counter: u64,
}

fn write_words<W: Write>(out: &mut W, replies: &[Reply]) -> io::Result<()>
    ensures { Leaves (W.contents out.old) (W.contents out.new) result (reply_texts replies.now) }
{
    for reply in replies {
        put(out, &[" ", reply.name()])?;
    }
    Ok(())
}

fn ending(died: bool) -> &'static str
    ensures { result.now ≡ ending died }
{
    if died { " dead\n" } else { "\n" }
}

/// `replies NAME R ..`, and ` dead` at the end if the thread died.
fn write_thread<W: Write>(out: &mut W, thread: &ThreadReplies<'_>) -> io::Result<()>
    ensures { Leaves (W.contents out.old) (W.contents out.new) result (replies_line thread.now) }
{
    put(out, &["replies ", thread.name])?;
    write_words(out, thread.replies)?;
    put(out, &[ending(thread.died)])
}

/// The name of the thread with this id; a hyphen where there is none.
fn owner<'a>(threads: &[ThreadReplies<'a>], id: u32) -> &'a str
    ensures { result.now ≡ owner_name threads.now id }
{
    if id == 0 {
        return "-";
    }
    match threads.get(id as usize - 1) {
        Some(thread) => thread.name,
        None => "-",
    }
}

/// `mutex NAME CELL OWNER SLEEPERS`: CELL in 16 hexadecimal digits, OWNER a thread's name or a hyphen. Nobody sleeps
/// any more.
fn write_mutex<W: Write>(
    out: &mut W,
    threads: &[ThreadReplies<'_>],
    mutex: &MutexWord<'_>,
) -> io::Result<()>
    ensures { Leaves (W.contents out.old) (W.contents out.new) result (mutex_line threads.now mutex.now) }
{
    let owner = owner(threads, Cell::new(mutex.cell).owner());
    write_mutex_start(out, mutex.name, mutex.cell, owner)?;
    put(out, &["-\n"])
}

/// `cond NAME COUNTER SLEEPERS`. Nobody sleeps any more.
fn write_condition<W: Write>(out: &mut W, condition: &ConditionWord<'_>) -> io::Result<()>
    ensures { Leaves (W.contents out.old) (W.contents out.new) result (condition_line condition.now) }
{
    let mut digits = Buffer::new();
    let counter = digits.format(condition.counter);
    put(out, &["cond ", condition.name, " ", counter, " -\n"])
}

fn write_threads<W: Write>(out: &mut W, threads: &[ThreadReplies<'_>]) -> io::Result<()>
    ensures { Leaves (W.contents out.old) (W.contents out.new) result (threads_text threads.now) }
{
    for thread in threads {
        write_thread(out, thread)?;
    }
    Ok(())
}

fn write_mutexes<W: Write>(
    out: &mut W,
    threads: &[ThreadReplies<'_>],
    mutexes: &[MutexWord<'_>],
) -> io::Result<()>
    ensures { Leaves (W.contents out.old) (W.contents out.new) result (mutexes_text threads.now mutexes.now) }
{
    for mutex in mutexes {
        write_mutex(out, threads, mutex)?;
    }
    Ok(())
}

fn write_conditions<W: Write>(out: &mut W, conditions: &[ConditionWord<'_>]) -> io::Result<()>
    ensures { Leaves (W.contents out.old) (W.contents out.new) result (conditions_text conditions.now) }
{
    for condition in conditions {
        write_condition(out, condition)?;
    }
    Ok(())
}

/// The mutexes' lines, and then those of the condition variables.
fn write_objects<W: Write>(
    out: &mut W,
    threads: &[ThreadReplies<'_>],
    mutexes: &[MutexWord<'_>],
    conditions: &[ConditionWord<'_>],
) -> io::Result<()>
    ensures { Leaves (W.contents out.old) (W.contents out.new) result
        (objects_text threads.now mutexes.now conditions.now) }
{
    write_mutexes(out, threads, mutexes)?;
    write_conditions(out, conditions)
}

/// Writes what real threads were answered and how they left the mutexes and the condition variables: a line for each
/// thread, in the order of their ids, then one for each mutex, then one for each condition variable. It takes no
/// memory. At an error a beginning of the text is written.
pub fn write_replies<W: Write>(
    threads: &[ThreadReplies<'_>],
    mutexes: &[MutexWord<'_>],
    conditions: &[ConditionWord<'_>],
    out: &mut W,
) -> io::Result<()>
    ensures { Leaves (W.contents out.old) (W.contents out.new) result
        (replies_text threads.now mutexes.now conditions.now) }
{
    write_threads(out, threads)?;
    write_objects(out, threads, mutexes, conditions)
}
