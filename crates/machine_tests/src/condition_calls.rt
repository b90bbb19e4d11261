//! Calls on a condition variable, and what a wait does at its thread's robust list.
ghost use Rattle.std.specs.Prelude.{◌≡◌};
ghost use Rattle.condvar.specs.Calls.{condition_of};

use crate::lists::{ANNOUNCED, LINKED_ALONE, UNLINKED_ALONE};
use crate::steps::Made::{Exchanges, Flips, Is, Loads, Sleeps, Stores, Wakes};
use crate::steps::Then::{Decides, Ends, Goes, Returns};
use crate::steps::{Next, Refused, Step, Whole, first_not_faulted, first_not_refused, makes};
use condvar::{
    CondCall, CondProgram, accesses_are_there, calls_are_right, faults_are_told, moves_are_right,
    needs_are_owned, points_are_permitted, wakes_are_right, whole_calls_are_right,
};
use lockword::Reply::{self, ENOTRECOVERABLE, EOWNERDEAD, EPERM, OK, XFULL, XSTATE};
use lockword::Tid;
use memorymap::Layout;
use posixmutex::Operation;
use posixmutex::Operation::{Broadcast, Lock, Signal, Unlock, Wait};
use stepprograms::{Access, Answer};

/// Counts a wake.
const COUNT: Access = Access::FetchAdd { at: 14, operand: 1 };

const SET_WAITERS: Access = Access::FetchOr {
    at: 10,
    operand: 0x8000_0000,
};

/// Moves all sleepers of the counter to the cell, the counter being 6.
const MOVE: Access = Access::CmpRequeue {
    from: 14,
    expected: 6,
    wake: 0,
    to: 10,
    moves: 250,
};

/// The call on this condition variable that is this operation.
pub(crate) fn call(operation: Operation, condition: u16) -> CondCall
    ensures { condition_of result ≡ condition }
{
    match operation {
        Operation::Wait => CondCall::Wait(condition),
        Operation::Signal => CondCall::Signal(condition),
        _ => CondCall::Broadcast(condition),
    }
}

/// The call makes these accesses, in these parts, and has returned after them.
fn takes(operation: Operation, parts: &[&[Step]]) -> bool {
    let Some(thread) = Tid::new(2) else {
        return false;
    };
    match Layout::new(2, 2, &[0, 1]) {
        Ok(layout) => {
            let program = CondProgram::new(&layout, thread, call(operation, 1));
            makes(Whole { program }, thread, parts)
        }
        Err(_) => false,
    }
}

const HELD: [Step; 1] = [Step(Loads(10, 2), Goes)];

const HELD_AND_LOADED: [Step; 2] = [Step(Loads(10, 2), Goes), Step(Loads(14, 5), Goes)];

/// A wait has released the mutex, and nobody waits.
const RELEASED: [Step; 1] = [Step(Flips(2, 2), Decides(Unlock, OK))];

/// The wait has woken one who waits.
const RELEASED_AWAITED: [Step; 2] = [
    Step(Flips(2, 0x8000_0002), Decides(Unlock, OK)),
    Step(Wakes(10, 1, 1), Goes),
];

/// Takes the mutex again, which is free.
const TAKEN: [Step; 2] = [
    Step(Loads(10, 0), Goes),
    Step(Exchanges(0, 2), Decides(Lock, OK)),
];

/// The same where its last owner died.
const TAKEN_OWNER_DEAD: [Step; 2] = [
    Step(Loads(10, 0x4000_0000), Goes),
    Step(
        Exchanges(0x4000_0000, 0x4000_0002),
        Decides(Lock, EOWNERDEAD),
    ),
];

/// Finds the mutex unusable.
const UNUSABLE: [Step; 1] = [Step(Loads(10, 0x1_0000_0000), Decides(Lock, ENOTRECOVERABLE))];

/// A wait that isn't refused.
#[derive(Clone, Copy)]
struct Sleep {
    /// What it finds.
    cell: u64,
    counter: u32,
    /// How it releases the mutex, which it has taken out of the list.
    released: &'static [Step],
    /// What its sleep is answered.
    slept: Answer,
    /// How it takes the mutex again, and puts it on the list.
    taken: &'static [Step],
    linked: &'static [Step],
    reply: Reply,
}

/// Sleeps, is woken, and takes its mutex, which is free.
const IS_WOKEN: Sleep = Sleep {
    cell: 2,
    counter: 5,
    released: &RELEASED,
    slept: Answer::Woken,
    taken: &TAKEN,
    linked: &LINKED_ALONE,
    reply: OK,
};

/// The sleep is answered the other way, also where the counter is full; the mutex is one whose owner died; and it wakes
/// who sleeps on the mutex, and finds that unusable then.
static SLEEPS: [Sleep; 5] = [
    IS_WOKEN,
    Sleep {
        slept: Answer::Again,
        ..IS_WOKEN
    },
    Sleep {
        counter: 0xffff_ffff,
        slept: Answer::Again,
        ..IS_WOKEN
    },
    Sleep {
        taken: &TAKEN_OWNER_DEAD,
        reply: EOWNERDEAD,
        ..IS_WOKEN
    },
    Sleep {
        cell: 0x8000_0002,
        released: &RELEASED_AWAITED,
        taken: &UNUSABLE,
        linked: &[],
        reply: ENOTRECOVERABLE,
        ..IS_WOKEN
    },
];

/// Whether a wait goes so.
fn waits(sleep: &Sleep) -> bool {
    let found = [
        Step(Loads(10, sleep.cell), Goes),
        Step(Loads(14, u64::from(sleep.counter)), Goes),
        ANNOUNCED,
    ];
    let sleeps = [Step(Sleeps(14, sleep.counter, sleep.slept), Goes)];
    let cleared = [Step(Stores(6, 0), Returns(sleep.reply))];
    takes(
        Wait,
        &[
            &found,
            &UNLINKED_ALONE,
            sleep.released,
            &sleeps,
            sleep.taken,
            sleep.linked,
            &cleared,
        ],
    )
}

#[test]
fn a_wait_sleeps_and_takes_its_mutex_again(rt: HostRuntime) {
    for (place, sleep) in SLEEPS.iter().enumerate() {
        assert!(rt; waits(sleep), "in row {place}");
    }
}

/// Only the owner waits or signals, and it waits only where the mutex is consistent.
static REFUSED: [Refused; 4] = [
    (Wait, &[0, 1, 0x4000_0001], EPERM),
    (Wait, &[0x4000_0002, 0xc000_0002], XSTATE),
    (Signal, &[0, 1, 0x4000_0001], EPERM),
    (Broadcast, &[0, 1, 0x4000_0001], EPERM),
];

#[test]
fn only_the_owner_of_a_consistent_mutex_waits(rt: HostRuntime) {
    assert_eq!(rt; first_not_refused(&REFUSED, takes), None);
}

#[test]
fn a_full_counter_stays(rt: HostRuntime) {
    for operation in [Signal, Broadcast] {
        let full = [Step(Loads(14, 0xffff_ffff), Ends(operation, XFULL))];
        assert!(rt; takes(operation, &[&HELD, &full]), "{operation:?}");
    }
}

/// A signal or a broadcast finds this cell and this counter, counts, and does this then.
fn counts(operation: Operation, cell: u64, counter: u64, rest: &[Step]) -> bool {
    let counted = [
        Step(Loads(10, cell), Goes),
        Step(Loads(14, counter), Goes),
        Step(Is(COUNT, Answer::Value(counter)), Decides(operation, OK)),
    ];
    takes(operation, &[&counted, rest])
}

const WAKES_ONE: Step = Step(Wakes(14, 1, 1), Returns(OK));

#[test]
fn a_signal_counts_and_wakes_one(rt: HostRuntime) {
    assert!(rt; counts(Signal, 2, 0, &[WAKES_ONE]));
    assert!(rt; counts(Signal, 0x4000_0002, 0xffff_fffe, &[WAKES_ONE]));
}

const SETS_WAITERS: Step = Step(Is(SET_WAITERS, Answer::Value(2)), Goes);

#[test]
fn a_broadcast_moves_all_to_the_mutex(rt: HostRuntime) {
    for moved in [Answer::Counts(0, 3), Answer::Again] {
        let moves = Step(Is(MOVE, moved), Returns(OK));
        assert!(rt;
            counts(Broadcast, 2, 5, &[SETS_WAITERS, moves]),
            "{moved:?}"
        );
    }
}

const LOAD_CELL: Access = Access::Load { at: 10 };

const LOAD_COUNTER: Access = Access::Load { at: 14 };

const ANNOUNCEMENT: Access = Access::Store { at: 6, value: 11 };

const SLEEP: Access = Access::Wait {
    at: 14,
    expected: 5,
};

/// A broadcast has counted.
const COUNTED: Step = Step(Is(COUNT, Answer::Value(5)), Decides(Broadcast, OK));

/// A wait goes so far as to release the mutex, the counter being 5.
const UNLINKED: [Step; 6] = [
    Step(Loads(10, 2), Goes),
    Step(Loads(14, 5), Goes),
    ANNOUNCED,
    Step(Loads(11, 4), Goes),
    Step(Loads(12, 4), Goes),
    Step(Stores(4, 4), Goes),
];

/// The wait has released the mutex, and is awake again.
const WOKEN: [Step; 2] = [
    Step(Flips(2, 2), Decides(Unlock, OK)),
    Step(Sleeps(14, 5, Answer::Woken), Goes),
];

static FAULTS: [Next; 8] = [
    (&[Wait, Signal, Broadcast], [&[], &[]], LOAD_CELL),
    (&[Wait, Signal, Broadcast], [&HELD, &[]], LOAD_COUNTER),
    (&[Signal, Broadcast], [&HELD_AND_LOADED, &[]], COUNT),
    (&[Broadcast], [&HELD_AND_LOADED, &[COUNTED]], SET_WAITERS),
    (
        &[Broadcast],
        [&HELD_AND_LOADED, &[COUNTED, SETS_WAITERS]],
        MOVE,
    ),
    (&[Wait], [&HELD_AND_LOADED, &[]], ANNOUNCEMENT),
    (&[Wait], [&UNLINKED, &RELEASED], SLEEP),
    (&[Wait], [&UNLINKED, &WOKEN], LOAD_CELL),
];

#[test]
fn a_fault_ends_a_call_anywhere(rt: HostRuntime) {
    assert_eq!(rt; first_not_faulted(&FAULTS, takes), None);
}

#[test]
fn calls_name_their_condition_and_operation(rt: HostRuntime) {
    for operation in [Wait, Signal, Broadcast] {
        let call = call(operation, 3);
        assert!(rt;
            call.condition() == 3 && call.operation() == operation,
            "{operation:?}"
        );
    }
    calls_are_right();
    faults_are_told();
    accesses_are_there();
    moves_are_right();
    wakes_are_right();
    needs_are_owned();
    points_are_permitted();
    whole_calls_are_right();
}
