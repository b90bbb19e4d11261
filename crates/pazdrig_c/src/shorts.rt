//! Short calls, those that what they load decides, whole: the signal, the broadcast and the declaration of an owner,
//! and each call that is refused. Their changes, in their order, and their reply.
ghost use Rattle.std.specs.Prelude.{◌≡◌, ◌≢◌, ℕ, ◌&&◌, Bool, false, Some, IfSome};
ghost use Rattle.std.specs.Bool.{OnTrue, OnFalse};
ghost use Rattle.lockword.specs.Cells.{fields_of};
ghost use Rattle.lockword.specs.declared.reply.Reply.TheVariants.{OK};
ghost use Rattle.posixmutex.specs.declared.point.Operation.{Operation};
ghost use Rattle.pazdrig_c.specs.Accesses.{operation_number};
ghost use Rattle.pazdrig_c.specs.Plans.{is_thread};
ghost use Rattle.pazdrig_c.specs.Shorts.{counts, declares, refused, refused_of, is_own};
ghost use Rattle.pazdrig_c.specs.Shorts.{signal_plan, broadcast_plan, declare_plan, refusal_plan, short_code, Refuses};

use crate::access::{coded, no_access};
use crate::structs::PzShort;
use lockword::{Cell, OWNER_DIED, Reply, Tid, WAITERS};
use posixmutex::Operation;
use stepprograms::{ALL, Access};

/// The largest value of a counter: a signal or broadcast of it is refused.
const FULL: u64 = 0xffff_ffff;

/// The signal (pthread_cond_signal) of a thread that found this cell and this count: the count, and the wake of one
/// sleeper of the counter. Where somebody may sleep there, the call goes on by its steps from where it wakes. False,
/// and nothing is written, where the thread doesn't own the mutex or the counter is full: then it is refused.
#[unsafe(no_mangle)]
pub extern "C" fn pz_plan_signal(
    plan: &mut PzShort,
    thread: u8,
    counter: u64,
    cell: u64,
    count: u64,
) -> bool
    ensures answers { result ≡ (is_thread thread && counts thread (fields_of cell) count) }
    ensures plan { OnTrue result ((c : ℕ) → plan.new ≡ short_code (signal_plan c counter) OK) }
    ensures unchanged { OnFalse result (plan.new ≡ plan.old) }
{
    if !may_count(thread, cell, count) {
        return false;
    }
    *plan = PzShort {
        change: [
            coded(Access::FetchAdd {
                at: counter,
                operand: 1,
            }),
            coded(Access::Wake {
                at: counter,
                most: 1,
            }),
            no_access(),
        ],
        changes: 2,
        reply: 0,
    };
    true
}

/// The broadcast (pthread_cond_broadcast) of a thread that found this cell, at this place, and this count: the count,
/// WAITERS in the cell, and the move of all sleepers of the counter to it. Where somebody may sleep on the counter, the
/// call goes on by its steps, from where it sets WAITERS or from where it moves. False, and nothing is written, where
/// the thread doesn't own the mutex or the counter is full: then it is refused.
#[unsafe(no_mangle)]
pub extern "C" fn pz_plan_broadcast(
    plan: &mut PzShort,
    thread: u8,
    place: u64,
    counter: u64,
    cell: u64,
    count: u64,
) -> bool
    ensures answers { result ≡ (is_thread thread && counts thread (fields_of cell) count) }
    ensures plan { OnTrue result (plan.new ≡ short_code (broadcast_plan place counter count) OK) }
    ensures unchanged { OnFalse result (plan.new ≡ plan.old) }
{
    if !may_count(thread, cell, count) {
        return false;
    }
    *plan = PzShort {
        change: [
            coded(Access::FetchAdd {
                at: counter,
                operand: 1,
            }),
            coded(Access::FetchOr {
                at: place,
                operand: WAITERS,
            }),
            coded(Access::CmpRequeue {
                from: counter,
                expected: ((count & 0xffff_ffff) as u32).wrapping_add(1),
                wake: 0,
                to: place,
                moves: ALL,
            }),
        ],
        changes: 3,
        reply: 0,
    };
    true
}

/// The declaration that a mutex is consistent (pthread_mutex_consistent), by a thread that found this cell at this
/// place: it clears OWNER_DIED. False, and nothing is written, where the thread doesn't own the mutex or it is
/// consistent: then it is refused.
#[unsafe(no_mangle)]
pub extern "C" fn pz_plan_consistent(plan: &mut PzShort, thread: u8, place: u64, cell: u64) -> bool
    ensures answers { result ≡ (is_thread thread && declares thread (fields_of cell)) }
    ensures plan { OnTrue result (plan.new ≡ short_code (declare_plan place) OK) }
    ensures unchanged { OnFalse result (plan.new ≡ plan.old) }
{
    let seen = Cell::new(cell);
    if Tid::new(thread).is_none() || seen.owner() != u32::from(thread) || !seen.owner_died() {
        return false;
    }
    *plan = PzShort {
        change: [
            coded(Access::FetchAnd {
                at: place,
                operand: !OWNER_DIED,
            }),
            no_access(),
            no_access(),
        ],
        changes: 1,
        reply: 0,
    };
    true
}

/// The call with an operation (0 lock, 1 trylock, 2 unlock, 3 consistent, 4 wait, 5 signal, 6 broadcast) of a thread
/// that found this cell, and this count if it signals or broadcasts, where that refuses it (the errors of
/// pthread_mutex_lock and the others): what it stores, and its reply. False, and nothing is written, where it isn't
/// refused so, or where there is no such operation or thread. (A lock of an unusable mutex with WAITERS wakes all who
/// sleep there first: false.)
#[unsafe(no_mangle)]
pub extern "C" fn pz_plan_refusal(
    plan: &mut PzShort,
    thread: u8,
    head: u64,
    entry: u64,
    operation: u32,
    cell: u64,
    count: u64,
) -> bool
    ensures refuses { (op : Operation) (c q : ℕ) → operation_number op ≡ operation
        → Refuses (refused_of op thread (fields_of cell) count)
        (refusal_plan op (is_own thread cell) head entry c q) result plan.old plan.new }
    ensures no_such { ((op : Operation) → operation_number op ≢ operation)
        → (result ≡ false) × (plan.new ≡ plan.old) }
{
    let Some(taker) = Tid::new(thread) else {
        return false;
    };
    let Some(operation) = numbered(operation) else {
        return false;
    };
    let Some(reply) = refused(operation, taker, Cell::new(cell), count) else {
        return false;
    };
    *plan = refusal(operation, head, entry, reply);
    true
}

/// A signal or broadcast counts that found this cell and this count.
fn may_count(thread: u8, cell: u64, count: u64) -> bool
    ensures { result ≡ (is_thread thread && counts thread (fields_of cell) count) }
{
    Tid::new(thread).is_some() && Cell::new(cell).owner() == u32::from(thread) && count != FULL
}

/// The operation of a call.
fn numbered(operation: u32) -> Option<Operation>
    ensures has_this { IfSome result (λ op. operation_number op ≡ operation) }
    ensures each { (op : Operation) → operation_number op ≡ operation → result ≡ Some op }
{
    match operation {
        0 => Some(Operation::Lock),
        1 => Some(Operation::TryLock),
        2 => Some(Operation::Unlock),
        3 => Some(Operation::Consistent),
        4 => Some(Operation::Wait),
        5 => Some(Operation::Signal),
        6 => Some(Operation::Broadcast),
        7 => Some(Operation::Death),
        8 => Some(Operation::Reinit),
        9 => Some(Operation::TimedLock),
        10 => Some(Operation::TimedWait),
        _ => None,
    }
}

/// What refuses the thread's call.
fn refused(operation: Operation, thread: Tid, cell: Cell, count: u64) -> Option<Reply>
    ensures { result ≡ refused operation thread cell count }
{
    let own = cell.owner() == u32::from(thread.get());
    match operation {
        Operation::Lock if cell.unusable() && cell.waiters() => None,
        Operation::Lock if cell.unusable() => Some(Reply::ENOTRECOVERABLE),
        Operation::Lock if own => Some(Reply::EDEADLK),
        Operation::TryLock if cell.unusable() => Some(Reply::ENOTRECOVERABLE),
        Operation::TryLock if cell.owner() != 0 => Some(Reply::EBUSY),
        Operation::Lock | Operation::TryLock | Operation::TimedLock => None,
        Operation::TimedWait | Operation::Death | Operation::Reinit => None,
        _ if !own => Some(Reply::EPERM),
        Operation::Consistent if !cell.owner_died() => Some(Reply::EINVAL),
        Operation::Wait if cell.owner_died() => Some(Reply::XSTATE),
        Operation::Signal | Operation::Broadcast if count == FULL => Some(Reply::XFULL),
        _ => None,
    }
}

/// A refused call of this operation: a lock and a trylock have their entry pending until the look that refuses them.
fn refusal(operation: Operation, head: u64, entry: u64, reply: Reply) -> PzShort
    ensures { (own : Bool) (c q : ℕ) → result ≡ short_code (refusal_plan operation own head entry c q) reply }
{
    let reply = u32::from(reply.number());
    let pending = head.wrapping_add(2);
    match operation {
        Operation::Lock | Operation::TryLock => PzShort {
            change: [
                coded(Access::Store {
                    at: pending,
                    value: entry,
                }),
                coded(Access::Store {
                    at: pending,
                    value: 0,
                }),
                no_access(),
            ],
            changes: 2,
            reply,
        },
        _ => PzShort {
            change: [no_access(); 3],
            changes: 0,
            reply,
        },
    }
}
