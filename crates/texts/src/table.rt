//! The table of a run: how it left each thread, each mutex and each condition variable.

ghost use Rattle.std.specs.Prelude.{◌≡◌, ◌<◌, ◌≤◌, ◌++◌, [], ◌∷◌, codes, length, slice_get, option_to_list};
ghost use Rattle.std.specs.List.{concat, flat_map};
ghost use Rattle.memorymap.specs.Layouts.{cell_place};
ghost use Rattle.protocol.specs.Notes.{facts_of, return_facts};
ghost use Rattle.interleave.specs.Shown.{state_of};
ghost use Rattle.streams.specs.Leaves.{Leaves};
ghost use Rattle.texts.specs.Tables.{name_in, name_of, state_word, held_by, told_to, last_reply, reply_or_hyphen};
ghost use Rattle.texts.specs.Tables.{owner_word, others_names, queue_names, thread_line, mutex_line};
ghost use Rattle.texts.specs.Tables.{condition_line, thread_lines, mutex_lines, condition_lines, object_lines};
ghost use Rattle.texts.specs.Tables.{table_text};

use crate::mutex_start::write_mutex_start;
use buckets::Batch;
use interleave::{Machine, Trace};
use itoa::Buffer;
use lockword::{Reply, Tid};
use protocol::Note;
use script::Script;
use std::io::{self, Write};
use streams::put;

/// The name of a thread; a hyphen where the script declares none with this id.
fn name(script: &Script, thread: Tid) -> &str
    ensures { result.now ≡ name_of script.now.threads thread }
{
    if thread.get() <= script.threads() {
        script.thread_name(thread)
    } else {
        "-"
    }
}

/// The word for the state that a thread is in.
fn state_word(machine: &Machine, thread: Tid) -> &'static str
    requires { thread ≤ machine.now.layout.threads }
    ensures { result.now ≡ state_word (state_of machine.now) thread ((state_of machine.now).threads thread).stage }
{
    if machine.asleep(thread) {
        "asleep"
    } else if machine.busy(thread) {
        "busy"
    } else if machine.dying(thread) {
        "dying"
    } else if machine.reaped(thread) {
        "reaped"
    } else {
        "idle"
    }
}

/// How many mutexes a thread owns.
fn held(machine: &Machine, thread: Tid) -> u16
    ensures { result ≡ held_by (state_of machine.now) thread }
{
    let mut held = 0;
    for mutex in 0..machine.layout().mutexes() {
        if machine.owner(mutex) == Some(thread) {
            held += 1;
        }
    }
    held
}

/// The reply that a caller was given, if it is this thread.
fn reply_to(thread: Tid, caller: Tid, reply: Option<Reply>) -> Option<Reply>
    ensures { option_to_list result ≡ flat_map (told_to thread) (return_facts caller reply) }
{
    if caller == thread { reply } else { None }
}

/// The reply with which a thread's call returned, if it did at this event.
fn reply_in(note: &Note, thread: Tid) -> Option<Reply>
    ensures { option_to_list result ≡ flat_map (told_to thread) (facts_of note.now) }
{
    match *note {
        Note::Began {
            thread: caller,
            refused,
            ..
        } => reply_to(thread, caller, refused),
        Note::Stepped {
            thread: caller,
            returned,
            ..
        } => reply_to(thread, caller, returned),
        Note::Reinited { thread: caller, .. } => reply_to(thread, caller, Some(Reply::OK)),
        Note::Nothing | Note::Killed { .. } | Note::Left { .. } | Note::Expired { .. } => None,
        Note::Walked { .. } | Note::Renewed { .. } => None,
    }
}

/// The reply of the last call of a thread that returned.
fn last_reply(notes: &[Note], thread: Tid) -> Option<Reply>
    ensures { result ≡ last_reply thread notes.now }
{
    let mut last = None;
    for note in notes {
        last = reply_in(note, thread).or(last);
    }
    last
}

/// The reply's word; a hyphen where there is none.
fn reply_or_hyphen(reply: Option<Reply>) -> &'static str
    ensures { result.now ≡ reply_or_hyphen reply }
{
    match reply {
        Some(reply) => reply.name(),
        None => "-",
    }
}

/// `thread NAME STATE HELD LAST`: HELD is how many mutexes it owns, LAST the reply of its last call that returned.
fn write_thread<W: Write>(
    out: &mut W,
    script: &Script,
    notes: &[Note],
    machine: &Machine,
    thread: Tid,
) -> io::Result<()>
    requires { thread ≤ machine.now.layout.threads }
    ensures { Leaves (W.contents out.old) (W.contents out.new) result
        (thread_line script.now.threads (state_of machine.now) notes.now thread) }
{
    let mut digits = Buffer::new();
    put(out, &["thread ", name(script, thread), " "])?;
    let state = state_word(machine, thread);
    let held = digits.format(held(machine, thread));
    let last = reply_or_hyphen(last_reply(notes, thread));
    put(out, &[state, " ", held, " ", last, "\n"])
}

/// The name of an owner; a hyphen where there is none.
fn owner_word(script: &Script, owner: Option<Tid>) -> &str
    ensures { result.now ≡ owner_word script.now.threads owner }
{
    match owner {
        Some(thread) => name(script, thread),
        None => "-",
    }
}

/// The names of a queue's threads after the first, with a comma before each.
fn write_others<W: Write>(out: &mut W, script: &Script, queue: &Batch) -> io::Result<()>
    ensures { Leaves (W.contents out.old) (W.contents out.new) result (others_names script.now.threads queue.now) }
{
    for place in 1..queue.len() {
        let Some(thread) = queue.get(place) else {
            unreachable!()
        };
        put(out, &[",", name(script, thread)])?;
    }
    Ok(())
}

/// The names of a queue's threads in its order, with a comma between two; a hyphen where nobody is in it.
fn write_queue<W: Write>(out: &mut W, script: &Script, queue: &Batch) -> io::Result<()>
    ensures { Leaves (W.contents out.old) (W.contents out.new) result (queue_names script.now.threads queue.now) }
{
    match queue.get(0) {
        Some(first) => {
            put(out, &[name(script, first)])?;
            write_others(out, script, queue)
        }
        None => put(out, &["-"]),
    }
}

/// The word of a mutex's cell.
fn cell_word(machine: &Machine, mutex: u16) -> u64
    requires { mutex < machine.now.layout.mutexes }
    ensures { result ≡ (state_of machine.now).words (cell_place machine.now.layout mutex) }
{
    machine.word(machine.layout().cell(mutex)).unwrap()
}

/// `mutex NAME CELL OWNER SLEEPERS`: CELL in 16 hexadecimal digits, SLEEPERS in the order in which they are to be
/// woken.
fn write_mutex<W: Write>(
    out: &mut W,
    script: &Script,
    machine: &Machine,
    mutex: u16,
) -> io::Result<()>
    requires known { mutex < machine.now.layout.mutexes }
    requires named { mutex < length script.now.mutexes }
    ensures { Leaves (W.contents out.old) (W.contents out.new) result
        (mutex_line script.now (state_of machine.now) mutex) }
{
    let place = machine.layout().cell(mutex);
    let cell = cell_word(machine, mutex);
    let owner = owner_word(script, machine.owner(mutex));
    write_mutex_start(out, script.mutex_name(mutex), cell, owner)?;
    write_queue(out, script, &machine.sleepers(place))?;
    put(out, &["\n"])
}

fn write_threads<W: Write>(
    out: &mut W,
    script: &Script,
    notes: &[Note],
    machine: &Machine,
) -> io::Result<()>
    requires { machine.now.layout.threads ≡ length script.now.threads }
    ensures { Leaves (W.contents out.old) (W.contents out.new) result
        (thread_lines script.now (state_of machine.now) notes.now) }
{
    let threads = script.threads();
    for index in 0..threads {
        let thread = Tid::new(index + 1).unwrap();
        write_thread(out, script, notes, machine, thread)?;
    }
    Ok(())
}

fn write_mutexes<W: Write>(out: &mut W, script: &Script, machine: &Machine) -> io::Result<()>
    requires { machine.now.layout.mutexes ≡ length script.now.mutexes }
    ensures { Leaves (W.contents out.old) (W.contents out.new) result (mutex_lines script.now (state_of machine.now)) }
{
    for mutex in 0..script.mutexes() {
        write_mutex(out, script, machine, mutex)?;
    }
    Ok(())
}

/// `cond NAME COUNTER SLEEPERS`: SLEEPERS in the order in which they are to be woken.
fn write_condition<W: Write>(
    out: &mut W,
    script: &Script,
    machine: &Machine,
    condition: u16,
) -> io::Result<()>
    requires known { condition < length machine.now.layout.conditions }
    requires named { condition < length script.now.conditions }
    ensures { Leaves (W.contents out.old) (W.contents out.new) result
        (condition_line script.now (state_of machine.now) condition) }
{
    let mut digits = Buffer::new();
    let place = machine.layout().counter(condition);
    let counter = digits.format(machine.word(place).unwrap());
    put(
        out,
        &["cond ", script.condition_name(condition), " ", counter, " "],
    )?;
    write_queue(out, script, &machine.sleepers(place))?;
    put(out, &["\n"])
}

fn write_conditions<W: Write>(out: &mut W, script: &Script, machine: &Machine) -> io::Result<()>
    requires { length machine.now.layout.conditions ≡ length script.now.conditions }
    ensures { Leaves (W.contents out.old) (W.contents out.new) result
        (condition_lines script.now (state_of machine.now)) }
{
    for condition in 0..script.conditions() {
        write_condition(out, script, machine, condition)?;
    }
    Ok(())
}

/// The mutexes' lines, and then those of the condition variables.
fn write_objects<W: Write>(out: &mut W, script: &Script, machine: &Machine) -> io::Result<()>
    requires mutexes { machine.now.layout.mutexes ≡ length script.now.mutexes }
    requires conditions { length machine.now.layout.conditions ≡ length script.now.conditions }
    ensures { Leaves (W.contents out.old) (W.contents out.new) result (object_lines script.now (state_of machine.now)) }
{
    write_mutexes(out, script, machine)?;
    write_conditions(out, script, machine)
}

/// Writes how a run of the script left its threads, mutexes and condition variables: a line for each thread, in the
/// order of their ids, then one for each mutex, then one for each condition variable. The trace and the machine are of
/// that run. It takes no memory. At an error a beginning of the text is written.
pub fn write_table<W: Write>(
    script: &Script,
    trace: &Trace,
    machine: &Machine,
    out: &mut W,
) -> io::Result<()>
    requires threads { machine.now.layout.threads ≡ length script.now.threads }
    requires mutexes { machine.now.layout.mutexes ≡ length script.now.mutexes }
    requires conditions { length machine.now.layout.conditions ≡ length script.now.conditions }
    ensures { Leaves (W.contents out.old) (W.contents out.new) result
        (table_text script.now (state_of machine.now) trace.now.notes.items) }
{
    write_threads(out, script, &trace.notes, machine)?;
    write_objects(out, script, machine)
}
