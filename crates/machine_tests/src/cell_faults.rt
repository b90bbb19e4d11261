//! What calls do at their mutex's cell when an access is answered what it can't be answered.

use crate::cell_calls::{DECLARATION, NOBODY_WOKEN, RELEASED, TRIM, takes};
use crate::steps::Made::{Is, Loads};
use crate::steps::Then::{Decides, Goes, Returns};
use crate::steps::{ANSWERS, Step, kind_of};
use lockword::Reply::{EFAULT, ENOTRECOVERABLE};
use posixmutex::Operation;
use posixmutex::Operation::{Consistent, Lock, TryLock, Unlock};
use stepprograms::{Access, Answer};

/// A call that makes this access after those, and is answered so, returns EFAULT.
fn faults(operation: Operation, way: &[Step], access: Access, answer: Answer) -> bool {
    let fault = [Step(Is(access, answer), Returns(EFAULT))];
    takes(operation, &[way, &fault])
}

/// Does so at a fault and at whatever accesses of other kinds are answered.
fn faults_at_others(operation: Operation, way: &[Step], access: Access) -> bool {
    for (kind, answers) in &ANSWERS {
        for answer in *answers {
            if *kind != kind_of(access) && !faults(operation, way, access, *answer) {
                return false;
            }
        }
    }
    faults(operation, way, access, Answer::Fault)
}

const LOAD: Access = Access::Load { at: 10 };

/// An exchange of a free cell.
const TAKE: Access = Access::Exchange {
    at: 10,
    expected: 0,
    new: 2,
};

const SET_WAITERS: Access = Access::Exchange {
    at: 10,
    expected: 1,
    new: 0x8000_0001,
};

const SLEEP: Access = Access::Wait {
    at: 10,
    expected: 0x8000_0001,
};

const RELEASE: Access = Access::FetchXor { at: 10, operand: 2 };

/// An operation, the accesses that its call has made, and its next one.
static NEXT_ACCESSES: [(Operation, &[Step], Access); 13] = [
    (Lock, &[], LOAD),
    (Lock, &[Step(Loads(10, 0), Goes)], TAKE),
    (Lock, &[Step(Loads(10, 1), Goes)], SET_WAITERS),
    (Lock, &[Step(Loads(10, 0x8000_0001), Goes)], SLEEP),
    (
        Lock,
        &[Step(Loads(10, 0x1_8000_0000), Decides(Lock, ENOTRECOVERABLE))],
        Access::Wake { at: 10, most: 250 },
    ),
    (TryLock, &[], LOAD),
    (TryLock, &[Step(Loads(10, 0), Goes)], TAKE),
    (Unlock, &[], LOAD),
    (Unlock, &[Step(Loads(10, 2), Goes)], RELEASE),
    (Unlock, &RELEASED, Access::Wake { at: 10, most: 1 }),
    (Unlock, &NOBODY_WOKEN, TRIM),
    (Consistent, &[], LOAD),
    (
        Consistent,
        &[Step(Loads(10, 0x4000_0002), Goes)],
        DECLARATION,
    ),
];

#[test]
fn an_answer_of_another_access_is_a_fault(rt: HostRuntime) {
    for (operation, way, access) in &NEXT_ACCESSES {
        assert!(rt;
            faults_at_others(*operation, *way, *access),
            "{operation:?} at its {access:?}"
        );
    }
}
