//! A script that is played, and refused memory. How many events others run is in cases/events.

use crate::faults::{Refused, is_or_wants_memory, read};
use interleave::{Machine, Trace};
use script::{Mode, first_machine, play};
use std::alloc::Global;

/// The trace of a script, and the machine that it leaves. Tests play by this alone, since each function that calls
/// `play` itself is dear to prove.
pub fn outcome(alloc: Global, bytes: &[u8], mode: Mode) -> Result<(Trace, Machine), Refused> {
    let script = read(alloc, bytes, mode)?;
    let Ok(machine) = first_machine(alloc, &script) else {
        return Err((6, 1));
    };
    match play(alloc, &script, machine) {
        Ok(played) => Ok(played),
        Err(refused) => Err((refused.fault.number(), refused.line)),
    }
}

/// Whether one thread and one mutex were played for 24 events.
fn is_played(trace: &Trace) -> bool {
    trace.threads == 1 && trace.mutexes == 1 && trace.conditions == 0 && trace.notes.len() == 24
}

/// Whether nobody owns mutex 0, which every layout has.
fn is_free(machine: &Machine) -> bool {
    let _mutexes = machine.layout().mutexes();
    machine.owner(0).is_none()
}

/// One mutex is refused, taken, refused and released by one thread, in 23 events; the last step finds it idle.
#[test]
fn played(rt: HostRuntime) {
    let text =
        b"thread a\nmutex m\ncall a unlock m\ncall a trylock m\ncall a trylock m\nbegin a unlock m\nstep a 8\n";
    let is_so = match outcome(rt.alloc(), text, Mode::Run) {
        Ok((trace, machine)) => is_played(&trace) && is_free(&machine),
        Err(_) => false,
    };
    assert!(rt; is_so);
}

/// How many events a script runs, or the number of its fault and its line.
pub fn playing(alloc: Global, text: &str, mode: Mode) -> Result<usize, Refused> {
    match outcome(alloc, text.as_bytes(), mode) {
        Ok((trace, _machine)) => Ok(trace.notes.len()),
        Err(refused) => Err(refused),
    }
}

/// Passes too where any one allocation fails: memory for the machine is wanted at line 1, and for notes at a command.
#[test]
fn memory_in_play(rt: HostRuntime) {
    let text = "thread a\nmutex m\n# played\ncall a trylock m\nstep a 40\n";
    let events = playing(rt.alloc(), text, Mode::Run);
    assert!(rt; is_or_wants_memory(events, 49, &[1, 2, 4, 5]));
}
