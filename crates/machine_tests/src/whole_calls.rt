//! Whole calls: what they do at the thread's robust list too. The entry of mutex 0 is at 8 and 9.

use crate::cell_calls::{DECLARATION, TRIM, call};
use crate::lists::{ANNOUNCED, LINKED_ALONE, UNLINKED_ALONE};
use crate::steps::Made::{Exchanges, Flips, Is, Loads, Stores, Wakes};
use crate::steps::Then::{Decides, Ends, Goes, Returns};
use crate::steps::{Next, Refused, Step, Whole, first_not_faulted, first_not_refused, makes};
use lockword::Reply::{self, EBUSY, EDEADLK, EINVAL, ENOTRECOVERABLE, EOWNERDEAD, EPERM, OK};
use lockword::Tid;
use memorymap::Layout;
use mutex::Program;
use posixmutex::Operation;
use posixmutex::Operation::{Consistent, Lock, TryLock, Unlock};
use stepprograms::Access;
use stepprograms::Answer::{Trimmed, Value};

/// The entry is linked in front of the one of mutex 0.
const LINKED_IN_FRONT: [Step; 5] = [
    Step(Loads(4, 8), Goes),
    Step(Stores(11, 8), Goes),
    Step(Stores(12, 4), Goes),
    Step(Stores(9, 11), Goes),
    Step(Stores(4, 11), Goes),
];

/// The entry is unlinked from behind the one of mutex 0.
const UNLINKED_BEHIND: [Step; 3] = [
    Step(Loads(11, 4), Goes),
    Step(Loads(12, 8), Goes),
    Step(Stores(8, 4), Goes),
];

/// The entry is unlinked from in front of the one of mutex 0.
const UNLINKED_IN_FRONT: [Step; 4] = [
    Step(Loads(11, 8), Goes),
    Step(Loads(12, 4), Goes),
    Step(Stores(4, 8), Goes),
    Step(Stores(9, 4), Goes),
];

/// The pending entry is cleared, and the call returns.
fn cleared(reply: Reply) -> Step {
    Step(Stores(6, 0), Returns(reply))
}

/// The call makes these accesses, in these parts, and has returned after them.
fn takes(operation: Operation, parts: &[&[Step]]) -> bool {
    let Some(thread) = Tid::new(2) else {
        return false;
    };
    let Ok(layout) = Layout::new(2, 2, &[]) else {
        return false;
    };
    match Program::new(&layout, thread, 0, call(operation)) {
        Ok(program) => makes(Whole { program }, thread, parts),
        Err(_) => false,
    }
}

/// A lock or a trylock finds this free cell, exchanges it for that one, puts the entry on the list and returns so.
fn takes_mutex(operation: Operation, free: u64, new: u64, linked: &[Step], reply: Reply) -> bool {
    let taken = [
        ANNOUNCED,
        Step(Loads(10, free), Goes),
        Step(Exchanges(free, new), Decides(operation, reply)),
    ];
    takes(operation, &[&taken, linked, &[cleared(reply)]])
}

/// Whether it does so with each of these lists.
fn takes_and_links(operation: Operation, free: u64, new: u64, reply: Reply) -> bool {
    takes_mutex(operation, free, new, &LINKED_ALONE, reply)
        && takes_mutex(operation, free, new, &LINKED_IN_FRONT, reply)
}

#[test]
fn who_takes_a_mutex_puts_it_on_the_list(rt: HostRuntime) {
    for operation in [Lock, TryLock] {
        assert!(rt; takes_and_links(operation, 0, 2, OK), "{operation:?}");
        assert!(rt;
            takes_and_links(operation, 0x4000_0000, 0x4000_0002, EOWNERDEAD),
            "{operation:?}"
        );
    }
}

/// A call that isn't given the mutex: its operation, the cell that it finds, whom it wakes then, and its reply.
static REFUSED: [(Operation, u64, &[Step], Reply); 4] = [
    (Lock, 2, &[], EDEADLK),
    (TryLock, 1, &[], EBUSY),
    (TryLock, 0x1_0000_0000, &[], ENOTRECOVERABLE),
    (
        Lock,
        0x1_8000_0000,
        &[Step(Wakes(10, 250, 3), Goes)],
        ENOTRECOVERABLE,
    ),
];

fn refuses(operation: Operation, cell: u64, wakes: &[Step], reply: Reply) -> bool {
    let seen = [ANNOUNCED, Step(Loads(10, cell), Decides(operation, reply))];
    takes(operation, &[&seen, wakes, &[cleared(reply)]])
}

#[test]
fn who_is_refused_a_mutex_only_clears_the_pending_entry(rt: HostRuntime) {
    for (operation, cell, wakes, reply) in &REFUSED {
        assert!(rt;
            refuses(*operation, *cell, *wakes, *reply),
            "{operation:?} at {cell}"
        );
    }
}

/// The mutex is the thread's own, as the unlock sees.
const HELD: Step = Step(Loads(10, 2), Goes);

const HELD_INCONSISTENT: Step = Step(Loads(10, 0x4000_0002), Goes);

/// The mutex is released, and nobody waits.
const RELEASED: Step = Step(Flips(2, 2), Decides(Unlock, OK));

const RELEASED_INCONSISTENT: Step = Step(Flips(0x1_4000_0002, 0x4000_0002), Decides(Unlock, OK));

/// The mutex is released, and somebody may wait.
const RELEASED_AWAITED: Step = Step(Flips(2, 0x8000_0002), Decides(Unlock, OK));

/// What that unlock does then: it wakes one, or nobody slept, and the cell is cleared, or isn't.
static WAKES: [&[Step]; 3] = [
    &[Step(Wakes(10, 1, 1), Goes)],
    &[
        Step(Wakes(10, 1, 0), Goes),
        Step(Is(TRIM, Trimmed(true)), Goes),
    ],
    &[
        Step(Wakes(10, 1, 0), Goes),
        Step(Is(TRIM, Trimmed(false)), Goes),
    ],
];

/// How the entry is taken out of each list.
static UNLINKED: [&[Step]; 3] = [&UNLINKED_ALONE, &UNLINKED_BEHIND, &UNLINKED_IN_FRONT];

/// An unlock sees this, takes the entry out of the list, releases the mutex and then wakes.
fn releases(held: Step, unlinked: &[Step], released: Step, wakes: &[Step]) -> bool {
    takes(
        Unlock,
        &[
            &[held, ANNOUNCED],
            unlinked,
            &[released],
            wakes,
            &[cleared(OK)],
        ],
    )
}

#[test]
fn an_unlock_takes_the_entry_out_of_the_list_first(rt: HostRuntime) {
    for (place, unlinked) in UNLINKED.iter().enumerate() {
        assert!(rt; releases(HELD, *unlinked, RELEASED, &[]), "by list {place}");
        assert!(rt;
            releases(HELD_INCONSISTENT, *unlinked, RELEASED_INCONSISTENT, &[]),
            "by list {place}"
        );
    }
    for (place, wakes) in WAKES.iter().enumerate() {
        assert!(rt;
            releases(HELD, &UNLINKED_ALONE, RELEASED_AWAITED, *wakes),
            "in row {place}"
        );
    }
}

/// The calls leave the mutex with its owner.
static LEFT: [Refused; 3] = [
    (Unlock, &[1], EPERM),
    (Consistent, &[0x4000_0001], EPERM),
    (Consistent, &[2], EINVAL),
];

#[test]
fn who_neither_takes_nor_releases_leaves_the_list(rt: HostRuntime) {
    assert_eq!(rt; first_not_refused(&LEFT, takes), None);
    let declares = Is(DECLARATION, Value(0x4000_0002));
    let declared = [HELD_INCONSISTENT, Step(declares, Ends(Consistent, OK))];
    assert!(rt; takes(Consistent, &[&declared]));
}

const ANNOUNCEMENT: Access = Access::Store { at: 6, value: 11 };

const CLEARING: Access = Access::Store { at: 6, value: 0 };

const LOCKED: [Step; 3] = [
    ANNOUNCED,
    Step(Loads(10, 0), Goes),
    Step(Exchanges(0, 2), Decides(Lock, OK)),
];

const WAS_REFUSED: [Step; 2] = [ANNOUNCED, Step(Loads(10, 2), Decides(Lock, EDEADLK))];

static FAULTS: [Next; 6] = [
    (&[Lock], [&[], &[]], ANNOUNCEMENT),
    (&[Lock], [&[ANNOUNCED], &[]], Access::Load { at: 10 }),
    (&[Lock], [&LOCKED, &[]], Access::Load { at: 4 }),
    (&[Lock], [&WAS_REFUSED, &[]], CLEARING),
    (&[Unlock], [&[HELD], &[]], ANNOUNCEMENT),
    (&[Unlock], [&[HELD], &[ANNOUNCED]], Access::Load { at: 11 }),
];

#[test]
fn a_fault_ends_a_call_at_its_list(rt: HostRuntime) {
    assert_eq!(rt; first_not_faulted(&FAULTS, takes), None);
}
