//! How long an event of the machine takes, with few threads and mutexes, with many, and with condition variables.

use condvar::{CondCall, Op};
use interleave::Machine;
use lockword::Tid;
use memorymap::{CONDITION_LIMIT, Layout};
use mutex::Call;
use protocol::{Event, Note};
use std::alloc::{AllocError, Global};
use std::io;
use std::time::{Duration, Instant};

/// Of this many of its calls a thread makes one on the mutex that all threads share.
const SHARED: u64 = 8;

/// How many condition variables are waited on, where there are any. All are of the shared mutex.
const WAITED_ON: u64 = 8;

/// What an owner of the shared mutex does on a condition variable: the first thread broadcasts, all others wait.
fn meets(thread: Tid, turn: u64) -> CondCall {
    let condition = turn.wrapping_add(u64::from(thread.get())) % WAITED_ON;
    if thread.get() == 1 {
        CondCall::Broadcast(condition as u16)
    } else {
        CondCall::Wait(condition as u16)
    }
}

/// The call that a thread begins next: on its own mutex, and now and then on the shared one, which it takes, and
/// releases at once, or after a call on a condition variable.
fn next_call(machine: &Machine, thread: Tid, turn: u64) -> Op {
    let layout = machine.layout();
    if machine.owner(0) == Some(thread) {
        return if layout.conditions() > 0 && turn % 2 == 0 {
            Op::OnCondition(meets(thread, turn / 2))
        } else {
            Op::OnMutex(Call::Unlock(0))
        };
    }
    let own = u16::from(thread.get()) * 61 % layout.mutexes();
    if machine.owner(own) == Some(thread) {
        Op::OnMutex(Call::Unlock(own))
    } else if turn % SHARED == 0 {
        Op::OnMutex(Call::Lock(0))
    } else {
        Op::OnMutex(Call::Lock(own))
    }
}

/// What a thread does next.
fn next_event(machine: &Machine, thread: Tid, turn: u64) -> Event {
    if machine.busy(thread) {
        Event::Step(thread)
    } else {
        Event::Begin(thread, next_call(machine, thread, turn))
    }
}

/// Makes an event, after the others.
fn make(machine: &mut Machine, events: &mut Vec<Event>, event: &Event) -> Result<(), AllocError> {
    let _ = machine.step(*event);
    events.push(*event)?;
    Ok(())
}

/// This many events, the threads taking turns, in which those that sleep are passed over.
fn schedule(alloc: Global, machine: &mut Machine, count: u64) -> Result<Vec<Event>, AllocError> {
    let threads = u64::from(machine.layout().threads());
    let mut events = Vec::new(alloc);
    for turn in 0..count {
        let Some(thread) = Tid::new((turn % threads + 1) as u8) else {
            continue;
        };
        if !machine.asleep(thread) {
            let event = next_event(machine, thread, turn / threads);
            make(machine, &mut events, &event)?;
        }
    }
    Ok(events)
}

/// Makes the events, and tells how many of them did something.
fn replay(machine: &mut Machine, events: &[Event]) -> u64 {
    let mut done = 0_u64;
    for event in events {
        if machine.step(*event) != Note::Nothing {
            done = done.wrapping_add(1);
        }
    }
    done
}

fn tell(
    rt: &HostRuntime,
    layout: &Layout,
    count: usize,
    done: u64,
    took: Duration,
) -> io::Result<()> {
    let (threads, mutexes, conditions) = (layout.threads(), layout.mutexes(), layout.conditions());
    let each = took.as_nanos() / (count as u128).max(1);
    println!(rt;
        "{threads} threads, {mutexes} mutexes, {conditions} condition variables: {each} ns an event, {done} of {count} did something"
    )
}

/// A machine of this many, if there can be one.
fn machine_of(alloc: Global, threads: u8, mutexes: u16, conditions: &[u16]) -> Option<Machine> {
    let layout = Layout::new(threads, mutexes, conditions).ok()?;
    Machine::new(alloc, layout).ok()
}

fn measure(
    rt: &HostRuntime,
    threads: u8,
    mutexes: u16,
    conditions: &[u16],
    count: u64,
) -> io::Result<()> {
    let (Some(mut first), Some(mut machine)) = (
        machine_of(rt.alloc(), threads, mutexes, conditions),
        machine_of(rt.alloc(), threads, mutexes, conditions),
    ) else {
        return Ok(());
    };
    let Ok(events) = schedule(rt.alloc(), &mut first, count) else {
        return Ok(());
    };
    let start = Instant::now(rt)?;
    let done = replay(&mut machine, events.as_slice());
    let took = start.elapsed(rt)?;
    tell(rt, machine.layout(), events.len(), done, took)
}

/// Lets threads take this many turns in each of the three, of which those of sleepers are passed over; then it makes
/// the same events once more, and prints nanoseconds an event.
pub(crate) fn tell_all(rt: &HostRuntime, count: u64) -> io::Result<()> {
    measure(rt, 4, 16, &[], count)?;
    measure(rt, 64, 4096, &[], count)?;
    measure(rt, 64, 4096, &[0; CONDITION_LIMIT], count)
}
