//! What crosses to C, as `include/pz_steps.h` declares it.
ghost use Rattle.std.specs.Prelude.{◌≡◌};
ghost use Rattle.pazdrig_c.specs.Structs.{filled_call, filled_walk, filled_access, filled_plan, filled_short};

use condvar::CodedCondPhase;
use exitwalk::CodedRow;
use mutex::CodedPhase;

/// A call in progress.
#[repr(C)]
#[derive(Clone, Copy, Debug, PartialEq, Eq)]
pub struct PzCall {
    /// The address of the thread's head, as are the next three: each counts 64-bit words.
    pub head: u64,
    /// Of the mutex's entry.
    pub entry: u64,
    /// Of the mutex's cell.
    pub cell: u64,
    /// Of the condition variable's counter; 0 of a call on a mutex.
    pub counter: u64,
    /// Where it stands: of a call on a mutex `lock` says it, and the rest is 0.
    pub phase: CodedCondPhase,
    /// The operation on a mutex, 0 to 3, or 4 of a call on a condition variable.
    pub program: u8,
    /// The thread's id, 1 to 250.
    pub thread: u8,
}

/// A walk in progress.
#[repr(C)]
#[derive(Clone, Copy, Debug, PartialEq, Eq)]
pub struct PzWalk {
    /// The address of the dead thread's head.
    pub head: u64,
    /// Where it stands.
    pub row: CodedRow,
    /// The dead thread's id, 1 to 250.
    pub thread: u8,
}

/// An access, and the point that the answer before it decided.
#[repr(C)]
#[derive(Clone, Copy, Debug, PartialEq, Eq)]
pub struct PzAccess {
    /// The address of the word; of a requeue that from which sleepers are moved.
    pub at: u64,
    /// The value stored, the operand, or the word (of a wait and a requeue its low half) that is expected.
    pub a: u64,
    /// The new word; of a requeue the address to which sleepers are moved.
    pub b: u64,
    /// Which access; 0 for none.
    pub kind: u32,
    /// How many are woken, or moved, at most.
    pub most: u32,
    /// How many a requeue wakes at most.
    pub wakes: u32,
    /// The number of the point's reply; 65,535 where there is no point.
    pub point: u16,
    /// What that point did to the mutex.
    pub operation: u8,
}

/// A whole call where nobody is in the way: its stores, in their order, some of them before its one other access and
/// the rest after it.
#[repr(C)]
#[derive(Clone, Copy, Debug, PartialEq, Eq)]
pub struct PzPlan {
    /// Where each store goes.
    pub at: [u64; 6],
    /// What it stores.
    pub value: [u64; 6],
    /// What the access makes of the cell: of a lock the new word, of an unlock what it flips.
    pub operand: u64,
    /// How many stores come before the access.
    pub before: u32,
    /// How many stores there are.
    pub stores: u32,
    /// The number of the reply.
    pub reply: u32,
}

/// A whole call that what it loads decides: its changes, in their order.
#[repr(C)]
#[derive(Clone, Copy, Debug, PartialEq, Eq)]
pub struct PzShort {
    /// Each change; their points aren't told.
    pub change: [PzAccess; 3],
    /// How many changes there are.
    pub changes: u32,
    /// The number of the reply.
    pub reply: u32,
}

/// Writes a number of its own into each field: so C can tell whether its header has them where they are.
#[unsafe(no_mangle)]
pub extern "C" fn pz_fill(
    call: &mut PzCall,
    walk: &mut PzWalk,
    access: &mut PzAccess,
    plan: &mut PzPlan,
    brief: &mut PzShort,
)
    ensures call { call.new ≡ filled_call }
    ensures walk { walk.new ≡ filled_walk }
    ensures access { access.new ≡ filled_access }
    ensures plan { plan.new ≡ filled_plan }
    ensures brief { brief.new ≡ filled_short }
{
    let lock = CodedPhase {
        x: 5,
        y: 6,
        reply: 7,
        kind: 8,
        flag: 9,
    };
    *call = PzCall {
        head: 1,
        entry: 2,
        cell: 3,
        counter: 4,
        phase: CodedCondPhase {
            lock,
            seen: 10,
            kind: 11,
        },
        program: 12,
        thread: 13,
    };
    *walk = PzWalk {
        head: 1,
        row: CodedRow {
            at: 2,
            seen: 3,
            entry: 4,
            offset: 5,
            pending: 6,
            loaded: 7,
            kind: 8,
            again: 9,
            of_pending: 10,
        },
        thread: 11,
    };
    let first = PzAccess {
        at: 1,
        a: 2,
        b: 3,
        kind: 4,
        most: 5,
        wakes: 6,
        point: 7,
        operation: 8,
    };
    let second = PzAccess {
        at: 9,
        a: 10,
        b: 11,
        kind: 12,
        most: 13,
        wakes: 14,
        point: 15,
        operation: 16,
    };
    let third = PzAccess {
        at: 17,
        a: 18,
        b: 19,
        kind: 20,
        most: 21,
        wakes: 22,
        point: 23,
        operation: 24,
    };
    *access = first;
    *plan = PzPlan {
        at: [1, 2, 3, 4, 5, 6],
        value: [7, 8, 9, 10, 11, 12],
        operand: 13,
        before: 14,
        stores: 15,
        reply: 16,
    };
    *brief = PzShort {
        change: [first, second, third],
        changes: 25,
        reply: 26,
    };
}
