//! Scripts with processes, and what those that are played leave, written out by hand from the format.

use crate::built::joined;
use crate::events::outcome;
use crate::faults::read;
use interleave::Machine;
use lockword::Tid;
use script::{Action, Command, Mode, Script};
use std::alloc::Global;

/// Whether the script's two processes have these bases, and its threads are of the processes with these numbers.
fn has_processes(script: &Script, bases: (u64, u64), members: &[u8]) -> bool {
    script.processes() == 2
        && script.base(1) == bases.0
        && script.base(2) == bases.1
        && script.members() == members
}

/// Whether its only command, in line 7, kills the second process.
fn kills_the_second(script: &Script) -> bool {
    let killed = [Command {
        line: 7,
        action: Action::KillAll(2),
    }];
    script.commands() == killed.as_slice()
}

/// Processes have the numbers from 1 on in the order of their lines, and threads are of those that their lines name.
#[test]
fn numbers(rt: HostRuntime) {
    let text =
        b"process p 1000\nthread a p\nprocess q 2000\nthread b\nthread c q\nmutex m\nkillall q\n";
    let is_so = match read(rt.alloc(), text, Mode::Run) {
        Ok(script) => {
            has_processes(&script, (1000, 2000), &[1, 0, 2]) && kills_the_second(&script)
        }
        Err(_) => false,
    };
    assert!(rt; is_so);
}

/// Where the process of a thread maps the words.
fn base_of(machine: &Machine, id: u8) -> Option<u64> {
    let thread = Tid::new(id)?;
    let layout = machine.layout();
    if thread.get() > layout.threads() {
        return None;
    }
    Some(layout.base(thread))
}

/// Whether the words of the two heads' first entries, of the cell and of its entry's links are these.
fn has_words(machine: &Machine, words: [u64; 5]) -> bool {
    let [first, second, cell, next, previous] = words;
    machine.word(1) == Some(first)
        && machine.word(4) == Some(second)
        && machine.word(7) == Some(cell)
        && machine.word(8) == Some(next)
        && machine.word(9) == Some(previous)
}

/// Whether the machine that is left by these commands, after two processes with a thread each, has these words.
fn leaves(alloc: Global, commands: &str, words: [u64; 5]) -> bool {
    let declared = "process p 1000\nprocess q 2000\nthread a p\nthread b q\nmutex m\n";
    let Ok(text) = joined(alloc, declared, commands, "") else {
        return false;
    };
    match outcome(alloc, text.as_bytes(), Mode::Run) {
        Ok((_trace, machine)) => {
            base_of(&machine, 1) == Some(1000)
                && base_of(&machine, 2) == Some(2000)
                && has_words(&machine, words)
        }
        Err(_) => false,
    }
}

/// Each process has its own addresses in the words: a mutex whose owner dies leaves its list, and enters that of the
/// next owner in the other process.
#[test]
fn words_hold_addresses_of_their_process(rt: HostRuntime) {
    let locked = "call a lock m\n";
    assert!(rt; leaves(rt.alloc(), locked, [1008, 2004, 1, 1001, 1001]));
    let died = "call a lock m\nkillall p\ngo a\ncall b lock m\n";
    assert!(rt; leaves(rt.alloc(), died, [1008, 2008, 0x4000_0002, 2004, 2004]));
}
