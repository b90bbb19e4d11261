//! Playing a script's commands on the machine.
ghost use Rattle.std.specs.Prelude.{true, ◌≡◌, ◌≤◌, [], ◌∷◌, ◌++◌, length, replicate, ◌+◌, OnOk, IfOk, IfErr};
ghost use Rattle.protocol.specs.declared.event.Event.TheVariants.{Step};
ghost use Rattle.protocol.specs.Machine.{start};
ghost use Rattle.interleave.specs.Shown.{state_of};
ghost use Rattle.script.specs.Limits.{max_events, max_mutexes};
ghost use Rattle.script.specs.Playing.{Adds, AddsAt, HasMutexes, calling, events_of};
ghost use Rattle.script.specs.Playing.{first_state, going_on, is_going, killing, layout_of, locking};
ghost use Rattle.script.specs.Played.{PlaysOn, PlaysTo};

use crate::command::{Action, Command};
use crate::fault::{Fault, ScriptFault};
use crate::limits::{MAX_EVENTS, REST_STEPS};
use crate::parsed::Script;
use condvar::Op;
use interleave::{Machine, Trace};
use lockword::Tid;
use memorymap::NoMem;
use mutex::Call;
use protocol::{Event, LeftTo, Note};
use std::alloc::Global;

/// Adds a copy to a list.
fn add<T: Copy>(list: &mut Vec<T>, item: &T) -> Result<(), Fault>
    ensures ok { OnOk result (list.new.items ≡ list.old.items ++ item.now ∷ []) }
    ensures err { IfErr result (λ f. f ≡ Fault.OutOfMemory) }
{
    list.push(*item)?;
    Ok(())
}

/// One event on the machine, noted after the others.
fn play_event(machine: &mut Machine, notes: &mut Vec<Note>, event: Event) -> Result<(), Fault>
    ensures { Adds (state_of machine.old) (state_of machine.new) notes.old.items notes.new.items (event ∷ []) result }
{
    if notes.len() >= MAX_EVENTS {
        return Err(Fault::TooLong);
    }
    let note = machine.step(event);
    add(notes, &note)
}

/// This many steps of a thread.
fn play_steps(
    machine: &mut Machine,
    notes: &mut Vec<Note>,
    thread: Tid,
    count: u32,
) -> Result<(), Fault>
    requires { length notes.old.items ≤ max_events }
    ensures { Adds (state_of machine.old) (state_of machine.new) notes.old.items notes.new.items
        (replicate count (Step thread)) result }
{
    for _done in 0..count {
        play_event(machine, notes, Event::Step(thread))?;
    }
    Ok(())
}

/// Whether the thread is in a call or dying, and doesn't sleep.
fn is_going(machine: &Machine, thread: Tid) -> bool
    ensures { result ≡ is_going (state_of machine.now) thread }
{
    (machine.busy(thread) || machine.dying(thread)) && !machine.asleep(thread)
}

/// Steps of a thread until it is in no call and not dying, or sleeps.
fn play_to_rest(machine: &mut Machine, notes: &mut Vec<Note>, thread: Tid) -> Result<(), Fault>
    requires { length notes.old.items ≤ max_events }
    ensures { Adds (state_of machine.old) (state_of machine.new) notes.old.items notes.new.items
        (going_on (state_of machine.old) thread) result }
{
    for _done in 0..REST_STEPS {
        if !is_going(machine, thread) {
            return Ok(());
        }
        play_event(machine, notes, Event::Step(thread))?;
    }
    Ok(())
}

/// A call, until its thread rests.
fn play_call(machine: &mut Machine, notes: &mut Vec<Note>, thread: Tid, op: Op) -> Result<(), Fault>
    requires { length notes.old.items ≤ max_events }
    ensures { Adds (state_of machine.old) (state_of machine.new) notes.old.items notes.new.items
        (calling (state_of machine.old) thread op) result }
{
    play_event(machine, notes, Event::Begin(thread, op))?;
    play_to_rest(machine, notes, thread)
}

/// A lock of each of `count` mutexes from `mutex` on.
fn play_locks(
    machine: &mut Machine,
    notes: &mut Vec<Note>,
    thread: Tid,
    mutex: u16,
    count: u16,
) -> Result<(), Fault>
    requires few { length notes.old.items ≤ max_events }
    requires small { mutex + count ≤ max_mutexes }
    ensures { Adds (state_of machine.old) (state_of machine.new) notes.old.items notes.new.items
        (locking (state_of machine.old) thread mutex count) result }
{
    for next in 0..count {
        play_call(
            machine,
            notes,
            thread,
            Op::OnMutex(Call::Lock(mutex + next)),
        )?;
    }
    Ok(())
}

/// A kill of each thread of a process, in the order of ids.
fn play_kills(machine: &mut Machine, notes: &mut Vec<Note>, process: u8) -> Result<(), Fault>
    requires { length notes.old.items ≤ max_events }
    ensures { Adds (state_of machine.old) (state_of machine.new) notes.old.items notes.new.items
        (killing (state_of machine.old).layout process) result }
{
    for earlier in 0..machine.layout().threads() {
        let thread = Tid::new(earlier + 1).unwrap();
        if machine.layout().process_of(thread) == process {
            play_event(machine, notes, Event::Kill(thread))?;
        }
    }
    Ok(())
}

/// The events of an action.
fn play_action(machine: &mut Machine, notes: &mut Vec<Note>, action: Action) -> Result<(), Fault>
    requires few { length notes.old.items ≤ max_events }
    requires locks { HasMutexes action }
    ensures { Adds (state_of machine.old) (state_of machine.new) notes.old.items notes.new.items
        (events_of (state_of machine.old) action) result }
{
    match action {
        Action::Begin(thread, op) => play_event(machine, notes, Event::Begin(thread, op)),
        Action::Step { thread, count } => play_steps(machine, notes, thread, count),
        Action::Kill(thread) => play_event(machine, notes, Event::Kill(thread)),
        Action::KillAll(process) => play_kills(machine, notes, process),
        Action::Leave(thread) => play_event(machine, notes, Event::Leave(thread)),
        Action::Decline(thread) => play_event(machine, notes, Event::Decline(thread)),
        Action::Expire(thread) => play_event(machine, notes, Event::Expire(thread)),
        Action::Renew(thread) => play_event(machine, notes, Event::Renew(thread)),
        Action::Remake(thread, mutex) => {
            play_event(machine, notes, Event::Remake(thread, mutex))
        }
        Action::Spare(thread) => play_event(machine, notes, Event::Spare(thread, LeftTo::Thread)),
        Action::Go(thread) => play_to_rest(machine, notes, thread),
        Action::Call(thread, op) => play_call(machine, notes, thread, op),
        Action::Locks {
            thread,
            mutex,
            count,
        } => play_locks(machine, notes, thread, mutex, count),
        Action::Phase => Ok(()),
        Action::Die { .. } => Ok(()),
    }
}

/// The events of a command. A fault is reported at the command's line.
fn play_command(
    machine: &mut Machine,
    notes: &mut Vec<Note>,
    command: &Command,
) -> Result<(), ScriptFault>
    requires few { length notes.old.items ≤ max_events }
    requires locks { HasMutexes command.now.action }
    ensures { AddsAt command.now.line (state_of machine.old) (state_of machine.new) notes.old.items notes.new.items
        (events_of (state_of machine.old) command.now.action) result }
{
    match play_action(machine, notes, command.action) {
        Ok(()) => Ok(()),
        Err(fault) => Err(ScriptFault {
            line: command.line,
            fault,
        }),
    }
}

/// The events of all the commands, on a machine and a list of notes that are new. Want of memory is reported at the
/// line of a command that runs an event, and at no other.
fn play_commands(
    machine: &mut Machine,
    notes: &mut Vec<Note>,
    script: &Script,
) -> Result<(), ScriptFault>
    requires starts { state_of machine.old ≡ first_state script.now }
    requires none { notes.old.items ≡ [] }
    ensures { PlaysOn script.now (state_of machine.new) notes.new.items result }
{
    for command in script.commands() {
        play_command(machine, notes, command)?;
    }
    Ok(())
}

/// Sets each counter to the value that the script begins it with.
fn preset_all(machine: &mut Machine, script: &Script)
    requires starts { state_of machine.old ≡ start (layout_of script.now) (λ c. 0) }
    requires fresh { machine.old.fresh ≡ true }
    ensures { state_of machine.new ≡ first_state script.now }
{
    for condition in 0..script.conditions() {
        machine.preset(condition, script.condition(condition).counter);
    }
}

/// A machine with a script's threads, mutexes and condition variables, before its first event.
pub fn first_machine(alloc: Global, script: &Script) -> Result<Machine, NoMem>
    ensures { IfOk result (λ machine. state_of machine ≡ first_state script.now) }
{
    let mut machine = Machine::new(alloc, script.layout())?;
    preset_all(&mut machine, script);
    Ok(machine)
}

/// What a script's commands do on its first machine: the trace, and the machine afterwards. The trace tells a legal
/// run: of its notes and of the machine after each event all holds that [`Machine::run`] promises of a list of events.
///
/// Refused at the line of the first command that would run event 100,001, as [`Fault::TooLong`]; or, where no memory is
/// left for an event, at the line being played.
pub fn play(
    alloc: Global,
    script: &Script,
    machine: Machine,
) -> Result<(Trace, Machine), ScriptFault>
    requires starts { state_of machine ≡ first_state script.now }
    ensures { PlaysTo script.now result }
{
    let mut machine = machine;
    let mut notes = Vec::new(alloc);
    play_commands(&mut machine, &mut notes, script)?;
    let trace = Trace {
        threads: script.threads(),
        mutexes: script.mutexes(),
        conditions: script.conditions(),
        notes,
    };
    Ok((trace, machine))
}
