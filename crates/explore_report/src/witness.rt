//! The script of an outcome: a run that has it, for `rfx run`.

ghost use Rattle.std.specs.Prelude.{◌≡◌, ◌++◌, ◌∷◌, ◌<◌, List, None, length, slice_get, OnOk, IfOk};
ghost use Rattle.std.specs.List.{flat_map, range_with_len};
ghost use Rattle.protocol.specs.declared.event.Event.{Event};
ghost use Rattle.explore_report.specs.Witnesses.{call_text, command_line, condition_at, condition_call};
ghost use Rattle.explore_report.specs.Witnesses.{declarations, event_line, events_text, member_at, member_text, mutex_call, mutex_line};
ghost use Rattle.explore_report.specs.Witnesses.{process_at, script_text, steps_line, steps_text, thread_line};
ghost use Rattle.explore_report.specs.Witnesses.{one_more};

use crate::names::{condition_name, mutex_name, thread_name, thread_name_at};
use condvar::{CondCall, Op};
use itoa::Buffer;
use lockword::Tid;
use mutex::Call;
use protocol::Event;
use reasons::add;
use script::{MAX_STEPS, Script};
use std::alloc::{AllocError, Global};

/// A process's declaration. Processes are called `p1`, `p2` and so on.
fn add_process(text: &mut Vec<u8>, script: &Script, before: u8) -> Result<(), AllocError>
    requires { before < length script.now.processes }
    ensures { OnOk result (text.new.items ≡ text.old.items ++ process_at script.now before) }
{
    // Counting the processes shows that there are few.
    let _count = script.processes();
    let process = before + 1;
    let mut numbers = Buffer::new();
    let mut bases = Buffer::new();
    let base = bases.format(script.base(process));
    add(
        text,
        &["process p", numbers.format(process), " ", base, "\n"],
    )
}

/// Adds which process a thread is of, at the end of its line.
fn add_member(text: &mut Vec<u8>, process: u8) -> Result<(), AllocError>
    ensures { OnOk result (text.new.items ≡ text.old.items ++ member_text process) }
{
    if process == 0 {
        return add(text, &["\n"]);
    }
    let mut numbers = Buffer::new();
    add(text, &[" p", numbers.format(process), "\n"])
}

/// Adds which process the thread after this many others is of.
fn add_member_at(text: &mut Vec<u8>, members: &[u8], before: u8) -> Result<(), AllocError>
    ensures { OnOk result (text.new.items ≡ text.old.items ++ member_at (slice_get members.now before)) }
{
    match members.get(usize::from(before)) {
        Some(process) => add_member(text, *process),
        None => add_member(text, 0),
    }
}

/// A thread's declaration.
fn add_thread(text: &mut Vec<u8>, script: &Script, before: u8) -> Result<(), AllocError>
    requires { before < length script.now.threads }
    ensures { OnOk result (text.new.items ≡ text.old.items ++ thread_line script.now before) }
{
    add(text, &["thread ", thread_name_at(script, before)])?;
    add_member_at(text, script.members(), before)
}

/// A mutex's declaration.
fn add_mutex(text: &mut Vec<u8>, script: &Script, mutex: u16) -> Result<(), AllocError>
    requires { mutex < length script.now.mutexes }
    ensures { OnOk result (text.new.items ≡ text.old.items ++ mutex_line script.now mutex) }
{
    add(text, &["mutex ", script.mutex_name(mutex), "\n"])
}

/// A condition variable's declaration.
fn add_condition(text: &mut Vec<u8>, script: &Script, condition: u16) -> Result<(), AllocError>
    requires { condition < length script.now.conditions }
    ensures { OnOk result (text.new.items ≡ text.old.items ++ condition_at script.now condition) }
{
    let declared = script.condition(condition);
    let mut counters = Buffer::new();
    let name = script.condition_name(condition);
    let mutex = mutex_name(script, declared.mutex);
    add(
        text,
        &[
            "cond ",
            name,
            " ",
            mutex,
            " ",
            counters.format(declared.counter),
            "\n",
        ],
    )
}

/// The declarations of all processes.
fn add_processes(text: &mut Vec<u8>, script: &Script) -> Result<(), AllocError>
    ensures { OnOk result (text.new.items ≡ text.old.items
        ++ flat_map (process_at script.now) (range_with_len 0 (length script.now.processes))) }
{
    for before in 0..script.processes() {
        add_process(text, script, before)?;
    }
    Ok(())
}

/// The declarations of all threads.
fn add_threads(text: &mut Vec<u8>, script: &Script) -> Result<(), AllocError>
    ensures { OnOk result (text.new.items ≡ text.old.items
        ++ flat_map (thread_line script.now) (range_with_len 0 (length script.now.threads))) }
{
    for before in 0..script.threads() {
        add_thread(text, script, before)?;
    }
    Ok(())
}

/// The declarations of all mutexes.
fn add_mutexes(text: &mut Vec<u8>, script: &Script) -> Result<(), AllocError>
    ensures { OnOk result (text.new.items ≡ text.old.items
        ++ flat_map (mutex_line script.now) (range_with_len 0 (length script.now.mutexes))) }
{
    for mutex in 0..script.mutexes() {
        add_mutex(text, script, mutex)?;
    }
    Ok(())
}

/// The declarations of all condition variables.
fn add_conditions(text: &mut Vec<u8>, script: &Script) -> Result<(), AllocError>
    ensures { OnOk result (text.new.items ≡ text.old.items
        ++ flat_map (condition_at script.now) (range_with_len 0 (length script.now.conditions))) }
{
    for condition in 0..script.conditions() {
        add_condition(text, script, condition)?;
    }
    Ok(())
}

/// What the script declares.
fn add_declarations(text: &mut Vec<u8>, script: &Script) -> Result<(), AllocError>
    ensures { OnOk result (text.new.items ≡ text.old.items ++ declarations script.now) }
{
    add_processes(text, script)?;
    add_threads(text, script)?;
    add_mutexes(text, script)?;
    add_conditions(text, script)
}

/// A call on a mutex.
fn add_mutex_call(text: &mut Vec<u8>, script: &Script, call: Call) -> Result<(), AllocError>
    ensures { OnOk result (text.new.items ≡ text.old.items ++ mutex_call script.now call) }
{
    match call {
        Call::Lock(mutex) => add(text, &[" lock ", mutex_name(script, mutex), "\n"]),
        Call::TryLock(mutex) => add(text, &[" trylock ", mutex_name(script, mutex), "\n"]),
        Call::TimedLock(mutex) => add(text, &[" timedlock ", mutex_name(script, mutex), "\n"]),
        Call::Unlock(mutex) => add(text, &[" unlock ", mutex_name(script, mutex), "\n"]),
        Call::Consistent(mutex) => add(text, &[" consistent ", mutex_name(script, mutex), "\n"]),
    }
}

/// A call on a condition variable.
fn add_condition_call(text: &mut Vec<u8>, script: &Script, call: CondCall) -> Result<(), AllocError>
    ensures { OnOk result (text.new.items ≡ text.old.items ++ condition_call script.now call) }
{
    match call {
        CondCall::Wait(at) => add(text, &[" wait ", condition_name(script, at), "\n"]),
        CondCall::TimedWait(at, _) => add(text, &[" timedwait ", condition_name(script, at), "\n"]),
        CondCall::Signal(at) => add(text, &[" signal ", condition_name(script, at), "\n"]),
        CondCall::Broadcast(at) => add(text, &[" broadcast ", condition_name(script, at), "\n"]),
    }
}

/// A call.
fn add_call(text: &mut Vec<u8>, script: &Script, op: Op) -> Result<(), AllocError>
    ensures { OnOk result (text.new.items ≡ text.old.items ++ call_text script.now op) }
{
    match op {
        Op::OnMutex(call) => add_mutex_call(text, script, call),
        Op::OnCondition(call) => add_condition_call(text, script, call),
    }
}

/// A command of a thread, without more words.
fn add_command(
    text: &mut Vec<u8>,
    script: &Script,
    word: &str,
    thread: Tid,
) -> Result<(), AllocError>
    ensures { OnOk result (text.new.items ≡ text.old.items ++ command_line script.now word.now thread) }
{
    add(text, &[word, thread_name(script, thread), "\n"])
}

/// This many steps of a thread.
fn add_steps(text: &mut Vec<u8>, script: &Script, thread: Tid, count: u32) -> Result<(), AllocError>
    ensures { OnOk result (text.new.items ≡ text.old.items ++ steps_line script.now thread count) }
{
    let mut numbers = Buffer::new();
    add(
        text,
        &[
            "step ",
            thread_name(script, thread),
            " ",
            numbers.format(count),
            "\n",
        ],
    )
}

/// The line of an event.
fn add_event(text: &mut Vec<u8>, script: &Script, event: Event) -> Result<(), AllocError>
    ensures { OnOk result (text.new.items ≡ text.old.items ++ event_line script.now event) }
{
    match event {
        Event::Begin(thread, op) => {
            add(text, &["begin ", thread_name(script, thread)])?;
            add_call(text, script, op)
        }
        Event::Step(thread) => add_steps(text, script, thread, 1),
        Event::Kill(thread) => add_command(text, script, "kill ", thread),
        Event::Leave(thread) => add_command(text, script, "leave ", thread),
        Event::Expire(thread) => add_command(text, script, "expire ", thread),
        Event::Decline(thread) => add_command(text, script, "decline ", thread),
        Event::Renew(thread) => add_command(text, script, "renew ", thread),
        Event::Remake(thread, mutex) => {
            let name = mutex_name(script, mutex);
            add(
                text,
                &["remake ", thread_name(script, thread), " ", name, "\n"],
            )
        }
        Event::Spare(thread, _) => add_command(text, script, "spare ", thread),
    }
}

/// The same thread's steps, one after the other, that have no line yet.
#[derive(Clone, Copy)]
struct Steps {
    thread: Tid,
    count: u32,
}

/// The line of steps that have none yet.
fn add_left(text: &mut Vec<u8>, script: &Script, left: Option<Steps>) -> Result<(), AllocError>
    ensures { OnOk result (text.new.items ≡ text.old.items ++ steps_text script.now left) }
{
    match left {
        Some(steps) => add_steps(text, script, steps.thread, steps.count),
        None => Ok(()),
    }
}

/// One step more of a thread: what has to have its line now, and what is left.
fn one_more(thread: Tid, left: Option<Steps>) -> (Option<Steps>, Option<Steps>)
    ensures { result ≡ one_more thread left }
{
    match left {
        Some(steps) if steps.thread == thread && steps.count < MAX_STEPS => {
            let count = steps.count + 1;
            (None, Some(Steps { thread, count }))
        }
        _ => (left, Some(Steps { thread, count: 1 })),
    }
}

/// The next event, after steps that have no line yet; returns those that have none then.
fn add_next(
    text: &mut Vec<u8>,
    script: &Script,
    left: Option<Steps>,
    event: Event,
) -> Result<Option<Steps>, AllocError>
    ensures { IfOk result (λ now_left. (es : List Event) → text.old.items ++ events_text script.now left (event ∷ es)
        ≡ text.new.items ++ events_text script.now now_left es) }
{
    match event {
        Event::Step(thread) => {
            let (line, left) = one_more(thread, left);
            add_left(text, script, line)?;
            Ok(left)
        }
        _ => {
            add_left(text, script, left)?;
            add_event(text, script, event)?;
            Ok(None)
        }
    }
}

/// The lines of events, steps of one thread after each other in one line.
fn add_events(text: &mut Vec<u8>, script: &Script, events: &[Event]) -> Result<(), AllocError>
    ensures { OnOk result (text.new.items ≡ text.old.items ++ events_text script.now None events.now) }
{
    let mut left = None;
    for event in events {
        left = add_next(text, script, left, *event)?;
    }
    add_left(text, script, left)
}

/// The script of a run with the names of another script.
pub fn script_of(alloc: Global, script: &Script, events: &[Event]) -> Result<Vec<u8>, AllocError>
    ensures { IfOk result (λ v. v.items ≡ script_text script.now events.now) }
{
    let mut text = Vec::new(alloc);
    add_declarations(&mut text, script)?;
    add_events(&mut text, script, events)?;
    Ok(text)
}
