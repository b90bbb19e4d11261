//! The outcome of a position.
ghost use Rattle.std.specs.Prelude.{◌≡◌, ◌==◌, ◌&&◌, ◌≤◌, ◌<◌, true, length, map, slice_index, IfOk};
ghost use Rattle.std.specs.List.{range_with_len};
ghost use Rattle.protocol.specs.Headline.{seen};
ghost use Rattle.protocol.specs.Machine.{stands_in};
ghost use Rattle.condvar.specs.Ops.{is_in};
ghost use Rattle.interleave.specs.Shown.{thread_at};
ghost use Rattle.interleave.specs.Saved.{saved_state, sleepers_at};
ghost use Rattle.outcomes.specs.Outcomes.{asleep_in, end_of, ended, ended_in, outcome_in, outcome_of};
ghost use Rattle.outcomes.specs.Kept.{position_in, IsKept};

use crate::adding::add;
use crate::kept::Kept;
use crate::outcome::{End, Ended, Outcome};
use crate::plan::Plan;
use condvar::Op;
use interleave::{Saved, Sleeper};
use lockword::{Cell, Tid};
use memorymap::{Layout, NoMem};
use posixmutex::Object;
use protocol::Stage;
use std::alloc::{AllocError, Global};

/// Whether a sleeper is this thread, on the word at this place.
fn is_at(sleeper: &Sleeper, thread: Tid, place: u64) -> bool
    ensures { result ≡ ((sleeper.now.place == place) && (sleeper.now.thread == thread)) }
{
    sleeper.place == place && sleeper.thread == thread
}

/// Whether a thread sleeps on the word at a place.
fn sleeps_on(sleepers: &[Sleeper], thread: Tid, place: u64) -> bool
    ensures { result ≡ stands_in thread (sleepers_at sleepers.now place) }
{
    for sleeper in sleepers {
        if is_at(sleeper, thread, place) {
            return true;
        }
    }
    false
}

/// Where a thread sleeps in a call.
fn asleep_in(layout: &Layout, saved: &Saved, thread: Tid, op: Op) -> End
    requires { is_in layout.now op ≡ true }
    ensures { result ≡ asleep_in (saved_state layout.now saved.now) thread op }
{
    match op {
        Op::OnMutex(call) => End::OnMutex(call.mutex()),
        Op::OnCondition(call) => {
            let mutex = layout.mutex_of_condition(call.condition());
            if sleeps_on(&saved.sleepers, thread, layout.cell(mutex)) {
                End::OnMutex(mutex)
            } else {
                End::OnCondition(call.condition())
            }
        }
    }
}

/// How a thread ended.
fn end_of(plan: &Plan, kept: &Kept, thread: Tid) -> End
    requires kept { IsKept plan.now kept.now }
    requires known { thread ≤ plan.now.layout.threads }
    ensures { result
        ≡ end_of plan.now (position_in plan.now.layout kept.now) thread
        (thread_at kept.now.saved.threads.items thread).stage }
{
    match kept.saved.threads[thread.as_index()].stage {
        Stage::Idle => {
            if kept.next_call(plan, thread).is_some() {
                End::Waiting
            } else {
                End::Finished
            }
        }
        Stage::Calling(op, _) => asleep_in(&plan.layout, &kept.saved, thread, op),
        Stage::AtCondition(call, _) => End::OnCondition(call.condition()),
        Stage::Dying(_) | Stage::Reaped => End::Dead,
    }
}

/// What became of the threads.
fn ended_threads(alloc: Global, plan: &Plan, kept: &Kept) -> Result<Vec<Ended>, NoMem>
    requires { IsKept plan.now kept.now }
    ensures { IfOk result (λ v. map ended_in v.items
        ≡ map (ended plan.now (position_in plan.now.layout kept.now)) (range_with_len 1 plan.now.layout.threads)) }
{
    let lives = kept.lives();
    let count = plan.layout.threads();
    let mut threads = Vec::with_capacity(alloc, usize::from(count))?;
    for before in 0..count {
        let Some(thread) = Tid::new(before + 1) else {
            unreachable!()
        };
        let replies = Vec::from_slice(alloc, &lives[usize::from(before)].replies)?;
        let end = end_of(plan, kept, thread);
        add(&mut threads, Ended { replies, end })?;
    }
    Ok(threads)
}

/// The mutexes, as their words say.
fn seen_mutexes(alloc: Global, plan: &Plan, kept: &Kept) -> Result<Vec<Object>, AllocError>
    requires { IsKept plan.now kept.now }
    ensures { IfOk result (λ v. v.items
        ≡ map (seen (position_in plan.now.layout kept.now).state) (range_with_len 0 plan.now.layout.mutexes)) }
{
    let count = plan.layout.mutexes();
    let mut mutexes = Vec::with_capacity(alloc, usize::from(count))?;
    for mutex in 0..count {
        let place = plan.layout.cell(mutex) as usize;
        let Some(word) = kept.saved.words.get(place) else {
            unreachable!()
        };
        let cell = Cell::new(*word);
        mutexes.push(Object {
            owner: Tid::new(cell.owner() as u8),
            inconsistent: cell.owner_died(),
            unusable: cell.unusable(),
        })?;
    }
    Ok(mutexes)
}

/// The outcome of a position.
pub(crate) fn outcome_of(alloc: Global, plan: &Plan, kept: &Kept) -> Result<Outcome, NoMem>
    requires { IsKept plan.now kept.now }
    ensures { IfOk result (λ o. outcome_in o ≡ outcome_of plan.now (position_in plan.now.layout kept.now)) }
{
    let threads = ended_threads(alloc, plan, kept)?;
    let mutexes = seen_mutexes(alloc, plan, kept)?;
    Ok(Outcome { threads, mutexes })
}
