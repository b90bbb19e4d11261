//! The lock of a free mutex and the unlock of a consistent one, whole: which stores come before the access at the cell,
//! and which after it.
ghost use Rattle.std.specs.Prelude.{ℕ, ◌≡◌, ◌==◌, ◌&&◌};
ghost use Rattle.std.specs.Bool.{OnTrue, OnFalse};
ghost use Rattle.stepprograms.specs.declared.access.Access.TheVariants as access;
ghost use Rattle.lockword.specs.Cells.{fields_of};
ghost use Rattle.lockword.specs.Replies.{number_of};
ghost use Rattle.mutex.specs.Rows.{acquired};
ghost use Rattle.pazdrig_c.specs.Plans.{changes_in, planned, lock_plan, unlock_plan, is_free, is_held, is_thread};

use crate::structs::PzPlan;
use lockword::{Cell, Tid};

/// The lock, or the trylock, of a thread that found this cell, and this entry first in its list: its stores, an
/// exchange of that cell for `operand` between them, and its reply. False, and nothing is written, where the thread may
/// not take the cell so: then the call goes by its steps. A call whose exchange fails goes on by its steps too, from
/// where it takes.
#[unsafe(no_mangle)]
pub extern "C" fn pz_plan_lock(
    plan: &mut PzPlan,
    thread: u8,
    head: u64,
    entry: u64,
    cell: u64,
    first: u64,
) -> bool
    ensures answers { result ≡ (is_thread thread && is_free (fields_of cell)) }
    ensures accesses { OnTrue result
        ((c : ℕ)
        → planned plan.new (access.Exchange c cell plan.new.operand)
        ≡ changes_in (lock_plan thread head entry c cell first (first == head))) }
    ensures reply { OnTrue result (plan.new.reply ≡ number_of (acquired (fields_of cell))) }
    ensures unchanged { OnFalse result (plan.new ≡ plan.old) }
{
    let Some(taker) = Tid::new(thread) else {
        return false;
    };
    let seen = Cell::new(cell);
    if seen.owner() != 0 || seen.unusable() {
        return false;
    }
    let operand = seen.taken(taker).word();
    let reply = if seen.owner_died() { 130 } else { 0 };
    let pending = head.wrapping_add(2);
    let previous = entry.wrapping_add(1);
    *plan = if first == head {
        PzPlan {
            at: [pending, entry, previous, head, pending, 0],
            value: [entry, first, head, entry, 0, 0],
            operand,
            before: 1,
            stores: 5,
            reply,
        }
    } else {
        PzPlan {
            at: [
                pending,
                entry,
                previous,
                first.wrapping_add(1),
                head,
                pending,
            ],
            value: [entry, first, head, entry, entry, 0],
            operand,
            before: 1,
            stores: 6,
            reply,
        }
    };
    true
}

/// The unlock of a thread that found this cell, and these links in the mutex's entry: its stores, between them a flip
/// of `operand` in the cell, and its reply. Where the flip finds WAITERS and somebody sleeps, the call goes on by its
/// steps, from where it releases. False, and nothing is written, where the thread doesn't own the mutex, or has to
/// make it unusable: then the call goes by its steps.
#[unsafe(no_mangle)]
pub extern "C" fn pz_plan_unlock(
    plan: &mut PzPlan,
    thread: u8,
    head: u64,
    entry: u64,
    cell: u64,
    next: u64,
    previous: u64,
) -> bool
    ensures answers { result ≡ (is_thread thread && is_held (fields_of cell) thread) }
    ensures accesses { OnTrue result
        ((c : ℕ)
        → planned plan.new (access.FetchXor c plan.new.operand)
        ≡ changes_in (unlock_plan thread head entry c next previous (next == head))) }
    ensures reply { OnTrue result (plan.new.reply ≡ 0) }
    ensures unchanged { OnFalse result (plan.new ≡ plan.old) }
{
    let seen = Cell::new(cell);
    if Tid::new(thread).is_none() || seen.owner() != u32::from(thread) || seen.owner_died() {
        return false;
    }
    let operand = u64::from(thread);
    let pending = head.wrapping_add(2);
    *plan = if next == head {
        PzPlan {
            at: [pending, previous, pending, 0, 0, 0],
            value: [entry, next, 0, 0, 0, 0],
            operand,
            before: 2,
            stores: 3,
            reply: 0,
        }
    } else {
        PzPlan {
            at: [pending, previous, next.wrapping_add(1), pending, 0, 0],
            value: [entry, next, previous, 0, 0, 0],
            operand,
            before: 3,
            stores: 4,
            reply: 0,
        }
    };
    true
}
