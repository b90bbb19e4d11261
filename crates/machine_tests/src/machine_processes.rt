//! Machines whose two threads are of two processes, with bases 1000 and 2000, worked out by hand. The cell of the one
//! mutex is at place 7, and its entry at 8 and 9.

use crate::machine_acts::Act::{self, Calls, Happens, Is, Steps};
use crate::machine_acts::Look::{Stands, Words};
use crate::machine_acts::Rare::{Dies, IsReaped};
use crate::machine_acts::first_other;
use crate::machine_rows::Standing::{Asleep, Awake, Reaped, Resting};
use crate::machine_rows::{LOCK, UNLOCK, play, standing_of, thread};
use condvar::Op;
use interleave::Machine;
use memorymap::Layout;
use protocol::Event;
use std::alloc::Global;
use std::test::Fail;

fn machine(alloc: Global) -> Result<Machine, Fail> {
    let layout = Layout::with_processes(&[0, 1], &[1000, 2000], 1, &[])?;
    Ok(Machine::new(alloc, layout)?)
}

/// Each head leads to its process's own address of it. So do the entry, and its links, once thread 1 has linked it.
static LINKED: [Act; 4] = [
    Is(Words(&[1001, u64::MAX, 0, 2004, u64::MAX, 0, 0, 0, 0])),
    Calls(1, Op::OnMutex(LOCK), 8),
    Is(Stands(1, Resting)),
    Is(Words(&[1008, u64::MAX, 0, 2004, u64::MAX, 0, 1, 1001, 1001])),
];

/// Thread 1 dies; its walk finds the mutex by its own addresses. Thread 2 locks it then, and links it by its own.
static RECOVERED: [Act; 7] = [
    Happens(Dies(1)),
    Steps(1, 5),
    Happens(IsReaped(1)),
    Calls(2, Op::OnMutex(LOCK), 8),
    Is(Stands(1, Reaped)),
    Is(Stands(2, Resting)),
    Is(Words(&[
        1008,
        u64::MAX,
        0,
        2008,
        u64::MAX,
        0,
        0x4000_0002,
        2004,
        2004,
    ])),
];

/// The number of the first act that goes otherwise in a new machine.
fn first_wrong(alloc: Global, parts: &[&[Act]]) -> Result<Option<u32>, Fail> {
    let mut machine = machine(alloc)?;
    first_other(&mut machine, parts)
}

#[test]
fn a_mutex_goes_from_one_process_to_another(rt: HostRuntime) -> Result<(), Fail> {
    assert_eq!(rt; first_wrong(rt.alloc(), &[&LINKED, &RECOVERED])?, None);
    Ok(())
}

/// Whether thread 1's unlock wakes thread 2 in a copy where it goes on alone, and thread 2 sleeps on in the machine.
fn meet_alone(alloc: Global) -> Result<bool, Fail> {
    let (one, two) = (thread(1)?, thread(2)?);
    let mut machine = machine(alloc)?;
    play(&mut machine, one, LOCK, 8);
    play(&mut machine, two, LOCK, 4);
    let _ = machine.step(Event::Begin(one, Op::OnMutex(UNLOCK)));
    let alone = machine.alone(alloc, one, 8)?;
    Ok(
        alone.layout().processes() == 2
            && standing_of(&alone, one) == Resting
            && standing_of(&alone, two) == Awake
            && standing_of(&machine, two) == Asleep,
    )
}

/// Thread 2 sleeps on the cell by the address 2007, and thread 1 wakes it by 1007. What a machine does alone it does in
/// its processes too.
#[test]
fn sleepers_of_two_processes_meet(rt: HostRuntime) -> Result<(), Fail> {
    assert!(rt; meet_alone(rt.alloc())?);
    Ok(())
}
