//! What calls do at their mutex's cell.
ghost use Rattle.std.specs.Prelude.{◌≡◌};
ghost use Rattle.mutex.specs.Calls.{mutex_of};

use crate::steps::Made::{Exchanges, Finds, Flips, Is, Loads, Sleeps, Wakes};
use crate::steps::Then::{Decides, Ends, Goes, Returns};
use crate::steps::{
    AtCell, Refused, Step, Then, Way, first_not_refused, first_wrong, makes, past_the_list,
};
use lockword::Reply::{
    self, EBUSY, EDEADLK, EINVAL, ENOTRECOVERABLE, EOWNERDEAD, EPERM, OK, XHELD, XRACED,
};
use lockword::Tid;
use memorymap::Layout;
use mutex::{
    Call, Program, gives_up_after_four, points_are_permitted, programs_are_right, raced_after_four,
    wakes_are_right, whole_calls_are_decided, whole_calls_are_right,
};
use posixmutex::Operation;
use posixmutex::Operation::{Consistent, Lock, TryLock, Unlock};
use stepprograms::Answer::{self, Trimmed};
use stepprograms::{Access, Progress};

/// Clears bit 30 alone.
pub(crate) const DECLARATION: Access = Access::FetchAnd {
    at: 10,
    operand: 0xffff_ffff_bfff_ffff,
};

/// The call on mutex 1 that is this operation.
pub(crate) fn call(operation: Operation) -> Call
    ensures { mutex_of result ≡ 1 }
{
    match operation {
        Operation::Lock => Call::Lock(1),
        Operation::TryLock => Call::TryLock(1),
        Operation::Unlock => Call::Unlock(1),
        _ => Call::Consistent(1),
    }
}

/// At the cell, the call makes these accesses, in these parts, and has returned after them.
pub(crate) fn takes(operation: Operation, parts: &[&[Step]]) -> bool {
    let Some(thread) = Tid::new(2) else {
        return false;
    };
    let Ok(layout) = Layout::new(2, 2, &[]) else {
        return false;
    };
    let Ok(mut program) = Program::new(&layout, thread, 0, call(operation)) else {
        return false;
    };
    match past_the_list(&mut program, None) {
        Progress::Goes { .. } => makes(AtCell { program }, thread, parts),
        Progress::Returns { .. } => false,
    }
}

/// However a lock comes to know of a cell, by its load or by an exchange that fails, that leads it so far, and then it
/// makes these accesses.
fn lock_decides(cell: u64, then: Then, rest: &[Step]) -> bool {
    let loads = [Step(Loads(10, cell), then)];
    let loses = [Step(Loads(10, 0), Goes), Step(Finds(0, 2, cell), then)];
    let waits = [
        Step(Loads(10, 1), Goes),
        Step(Finds(1, 0x8000_0001, cell), then),
    ];
    takes(Lock, &[&loads, rest]) && takes(Lock, &[&loses, rest]) && takes(Lock, &[&waits, rest])
}

static REFUSED: [Refused; 5] = [
    (TryLock, &[1, 2, 0x4000_0001], EBUSY),
    (TryLock, &[0x1_0000_0000], ENOTRECOVERABLE),
    (Unlock, &[0, 1, 0x1_0000_0000], EPERM),
    (
        Consistent,
        &[0x4000_0000, 0x4000_0001, 0x1_0000_0000],
        EPERM,
    ),
    (Consistent, &[2, 0x8000_0002], EINVAL),
];

/// Cells at which a lock is refused so.
static REFUSED_LOCKS: [(u64, Reply); 4] = [
    (2, EDEADLK),
    (0x4000_0002, EDEADLK),
    (0x8000_0002, EDEADLK),
    (0x1_0000_0000, ENOTRECOVERABLE),
];

#[test]
fn a_call_is_refused_by_the_cell(rt: HostRuntime) {
    assert_eq!(rt; first_not_refused(&REFUSED, takes), None);
    for (cell, reply) in &REFUSED_LOCKS {
        assert!(rt; lock_decides(*cell, Ends(Lock, *reply), &[]), "at {cell}");
    }
}

/// A free cell, what whoever takes it makes of it, and the reply.
static FREE: [(u64, u64, Reply); 4] = [
    (0, 2, OK),
    (0x8000_0000, 0x8000_0002, OK),
    (0x4000_0000, 0x4000_0002, EOWNERDEAD),
    (0xc000_0000, 0xc000_0002, EOWNERDEAD),
];

/// Whether a lock and a trylock take a free cell so.
fn take(cell: u64, new: u64, reply: Reply) -> bool {
    let locks = [Step(Exchanges(cell, new), Ends(Lock, reply))];
    let tries = [
        Step(Loads(10, cell), Goes),
        Step(Exchanges(cell, new), Ends(TryLock, reply)),
    ];
    lock_decides(cell, Goes, &locks) && takes(TryLock, &[&tries])
}

#[test]
fn a_free_mutex_is_taken(rt: HostRuntime) {
    for (cell, new, reply) in &FREE {
        assert!(rt; take(*cell, *new, *reply), "at {cell}");
    }
}

/// A lock of an unusable mutex on which others may sleep wakes all of them, and never trims.
#[test]
fn a_lock_of_an_unusable_mutex_wakes_all(rt: HostRuntime) {
    for woken in [3, 0] {
        let wakes = [Step(Wakes(10, 250, woken), Returns(ENOTRECOVERABLE))];
        let then = Decides(Lock, ENOTRECOVERABLE);
        assert!(rt;
            lock_decides(0x1_8000_0000, then, &wakes),
            "{woken} are woken"
        );
    }
}

/// A cell that another owns, and what it is with WAITERS.
static OWNED: [(u64, u32); 2] = [(1, 0x8000_0001), (0x4000_0001, 0xc000_0001)];

/// A lock of an owned cell sets WAITERS in it, unless it is there; is about to sleep, and is answered so; and takes the
/// mutex then.
fn sleeps(owned: u64, with_waiters: u32, slept: Answer) -> bool {
    let waited = u64::from(with_waiters);
    let sets = [
        Step(Loads(10, owned), Goes),
        Step(Exchanges(owned, waited), Goes),
    ];
    let rest = [
        Step(Sleeps(10, with_waiters, slept), Goes),
        Step(Loads(10, 0x8000_0000), Goes),
        Step(Exchanges(0x8000_0000, 0x8000_0002), Ends(Lock, OK)),
    ];
    takes(Lock, &[&sets, &rest]) && lock_decides(waited, Goes, &rest)
}

/// A lock that can't set WAITERS in an owned cell, since it finds another cell, sees that.
fn finds(owned: u64, with_waiters: u32) -> bool {
    let finds = Finds(owned, u64::from(with_waiters), 2);
    lock_decides(owned, Goes, &[Step(finds, Ends(Lock, EDEADLK))])
}

#[test]
fn a_lock_sets_waiters_before_it_sleeps(rt: HostRuntime) {
    for (owned, with_waiters) in &OWNED {
        for slept in [Answer::Again, Answer::Woken] {
            assert!(rt;
                sleeps(*owned, *with_waiters, slept),
                "at {owned}: {slept:?}"
            );
        }
        assert!(rt; finds(*owned, *with_waiters), "at {owned}");
    }
}

/// The exchanges find changed cells, and, in the second, an owned one.
static RACES: [Way; 2] = [
    (
        TryLock,
        &[&[
            Step(Loads(10, 0), Goes),
            Step(Finds(0, 2, 0x8000_0000), Goes),
            Step(Finds(0x8000_0000, 0x8000_0002, 0), Goes),
            Step(Finds(0, 2, 0x8000_0000), Goes),
            Step(Finds(0x8000_0000, 0x8000_0002, 0), Ends(TryLock, XRACED)),
        ]],
    ),
    (
        TryLock,
        &[&[
            Step(Loads(10, 0), Goes),
            Step(Finds(0, 2, 1), Ends(TryLock, EBUSY)),
        ]],
    ),
];

#[test]
fn a_trylock_gives_up_at_the_fourth_changed_cell(rt: HostRuntime) {
    assert_eq!(rt; first_wrong(&RACES, takes), None);
}

const HELD: Step = Step(Loads(10, 2), Goes);

const HELD_INCONSISTENT: Step = Step(Loads(10, 0x4000_0002), Goes);

/// A release of an own cell that has WAITERS.
pub(crate) const RELEASED: [Step; 2] = [HELD, Step(Flips(2, 0x8000_0002), Decides(Unlock, OK))];

/// A release that makes the mutex unusable.
const SPOILED: [Step; 2] = [
    HELD_INCONSISTENT,
    Step(Flips(0x1_4000_0002, 0xc000_0002), Decides(Unlock, OK)),
];

pub(crate) const TRIM: Access = Access::Trim { at: 10 };

/// A release that has woken nobody.
pub(crate) const NOBODY_WOKEN: [Step; 3] = [
    HELD,
    Step(Flips(2, 0x8000_0002), Decides(Unlock, OK)),
    Step(Wakes(10, 1, 0), Goes),
];

/// What an unlock has done, and its last access. Where nobody waits, that is the release. It wakes who waits, and trims
/// where nobody slept; who wakes all never trims.
static UNLOCKS: [(&[Step], Step); 7] = [
    (&[HELD], Step(Flips(2, 2), Ends(Unlock, OK))),
    (
        &[HELD_INCONSISTENT],
        Step(Flips(0x1_4000_0002, 0x4000_0002), Ends(Unlock, OK)),
    ),
    (&RELEASED, Step(Wakes(10, 1, 1), Returns(OK))),
    (&NOBODY_WOKEN, Step(Is(TRIM, Trimmed(true)), Returns(OK))),
    (&NOBODY_WOKEN, Step(Is(TRIM, Trimmed(false)), Returns(OK))),
    (&SPOILED, Step(Wakes(10, 250, 1), Returns(OK))),
    (&SPOILED, Step(Wakes(10, 250, 0), Returns(OK))),
];

fn unlocks(done: &[Step], last: Step) -> bool {
    let last = [last];
    takes(Unlock, &[done, &last])
}

#[test]
fn an_unlock_releases_and_wakes_who_waits(rt: HostRuntime) {
    for (place, (done, last)) in UNLOCKS.iter().enumerate() {
        assert!(rt; unlocks(*done, *last), "in row {place}");
    }
}

/// Declares an own cell consistent that has WAITERS, which stays.
#[test]
fn a_declaration_clears_one_bit(rt: HostRuntime) {
    let declares = Is(DECLARATION, Answer::Value(0xc000_0002));
    let last = [Step(declares, Ends(Consistent, OK))];
    assert!(rt; takes(Consistent, &[&[HELD_INCONSISTENT], &last]));
}

/// An operation of a thread that holds this many mutexes, and how it is refused.
static LIMITS: [(Operation, u16, Option<Reply>); 6] = [
    (Lock, 2047, None),
    (Lock, 2048, Some(XHELD)),
    (TryLock, 2047, None),
    (TryLock, 2048, Some(XHELD)),
    (Unlock, 2048, None),
    (Consistent, 2048, None),
];

/// Whether a thread that holds this many mutexes is refused the call so.
fn is_refused(operation: Operation, held: u16, refused: Option<Reply>) -> bool {
    let Some(thread) = Tid::new(2) else {
        return false;
    };
    match Layout::new(2, 2, &[]) {
        Ok(layout) => Program::new(&layout, thread, held, call(operation)).err() == refused,
        Err(_) => false,
    }
}

#[test]
fn a_thread_holds_2048_mutexes_at_most(rt: HostRuntime) {
    for (operation, held, refused) in &LIMITS {
        assert!(rt; is_refused(*operation, *held, *refused));
    }
}

static CALLS: [(Call, Operation); 4] = [
    (Call::Lock(3), Lock),
    (Call::TryLock(3), TryLock),
    (Call::Unlock(3), Unlock),
    (Call::Consistent(3), Consistent),
];

#[test]
fn calls_name_their_mutex_and_operation(rt: HostRuntime) {
    for (call, operation) in &CALLS {
        assert!(rt; call.mutex() == 3 && call.operation() == *operation);
    }
    programs_are_right();
    wakes_are_right();
    raced_after_four();
    gives_up_after_four();
    points_are_permitted();
    whole_calls_are_right();
    whole_calls_are_decided();
}
