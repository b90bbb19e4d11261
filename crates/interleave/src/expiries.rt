//! Locks and waits whose time limit comes while they sleep (pthread_mutex_timedlock(3p), pthread_cond_timedwait(3p)).
ghost use Rattle.std.specs.Prelude.{ℕ, ◌≡◌, ◌≢◌, ◌≤◌, List, length, MatchOption, true};
ghost use Rattle.mutex.specs.declared.call.Call.TheVariants.{TimedLock};
ghost use Rattle.condvar.specs.Ops.{is_in};
ghost use Rattle.condvar.specs.declared.op.Op.TheVariants.{OnCondition, OnMutex};
ghost use Rattle.protocol.specs.declared.event.Event.TheVariants.{Expire};
ghost use Rattle.protocol.specs.declared.thread.Stage.TheVariants.{Calling};
ghost use Rattle.protocol.specs.Machine.{happens, stands_in};
ghost use Rattle.interleave.specs.Shown.{state_at, thread_at};
ghost use Rattle.interleave.specs.Steps.{MayStep, SleepsInItsCall};

use buckets::Batch;
use condvar::{CondCall, Op};
use facts::Queue;
use lockword::Tid;
use memorymap::Layout;
use mutex::{Call, Program};
use protocol::{Note, Stage, Thread};
use syscalls::Kernel;

/// Whether the thread is one of those who sleep there.
fn stands_in(thread: Tid, sleepers: &Batch) -> bool
    ensures { result ≡ stands_in thread sleepers.now }
{
    for place in 0..sleepers.len() {
        let Some(other) = sleepers.get(place) else {
            unreachable!()
        };
        if other.get() == thread.get() {
            return true;
        }
    }
    false
}

/// The mutex of a lock that has a time limit.
fn timed_lock(call: Call) -> Option<u16>
    ensures { MatchOption result ((m : ℕ) → call ≢ TimedLock m) (λ mutex. call ≡ TimedLock mutex) }
{
    match call {
        Call::TimedLock(mutex) => Some(mutex),
        Call::Lock(_) | Call::TryLock(_) | Call::Unlock(_) | Call::Consistent(_) => None,
    }
}

/// The time limit of a lock comes, if it has one and its thread sleeps: it leaves its mutex's queue, and what is left of
/// its call is to clear its entry and to return `ETIMEDOUT`.
fn expire_lock(
    layout: &Layout,
    kernel: &mut Kernel,
    threads: &mut Vec<Thread>,
    thread: Tid,
    call: Call,
    program: Program,
) -> Note
    requires kernel { kernel.old.threads ≡ layout.now.threads }
    requires threads { length threads.old.items ≡ layout.now.threads }
    requires known { thread ≤ layout.now.threads }
    requires stands { (thread_at threads.old.items thread).stage ≡ Calling (OnMutex call) program }
    ensures state { (ws : List ℕ) → SleepsInItsCall (state_at layout.now ws kernel.old threads.old.items) thread
        → state_at layout.now ws kernel.new threads.new.items
        ≡ (happens (state_at layout.now ws kernel.old threads.old.items) (Expire thread)).state }
    ensures note { (ws : List ℕ) → SleepsInItsCall (state_at layout.now ws kernel.old threads.old.items) thread
        → result ≡ (happens (state_at layout.now ws kernel.old threads.old.items) (Expire thread)).note }
    ensures kernel { kernel.new.threads ≡ kernel.old.threads }
    ensures heads { kernel.new.heads ≡ kernel.old.heads }
    ensures threads { length threads.new.items ≡ length threads.old.items }
{
    let Some(mutex) = timed_lock(call) else {
        return Note::Nothing;
    };
    let Some(left) = program.expired() else {
        return Note::Nothing;
    };
    if !kernel.remove(thread) {
        return Note::Nothing;
    }
    let index = thread.as_index();
    let held = threads[index].held;
    threads[index] = Thread {
        stage: Stage::Calling(Op::OnMutex(call), left),
        held,
    };
    Note::Expired {
        thread,
        queue: Queue::Mutex(mutex),
    }
}

/// The time limit of a wait comes, if it has one and its thread sleeps on the condition variable: it leaves the queue,
/// and goes on as one that was woken, but out of time.
fn expire_wait(
    layout: &Layout,
    kernel: &mut Kernel,
    threads: &mut Vec<Thread>,
    thread: Tid,
    call: CondCall,
    program: Program,
) -> Note
    requires kernel { kernel.old.threads ≡ layout.now.threads }
    requires threads { length threads.old.items ≡ layout.now.threads }
    requires known { thread ≤ layout.now.threads }
    requires stands { (thread_at threads.old.items thread).stage ≡ Calling (OnCondition call) program }
    requires inside { is_in layout.now (OnCondition call) ≡ true }
    ensures state { (ws : List ℕ) → state_at layout.now ws kernel.new threads.new.items
        ≡ (happens (state_at layout.now ws kernel.old threads.old.items) (Expire thread)).state }
    ensures note { (ws : List ℕ)
        → result ≡ (happens (state_at layout.now ws kernel.old threads.old.items) (Expire thread)).note }
    ensures kernel { kernel.new.threads ≡ kernel.old.threads }
    ensures heads { kernel.new.heads ≡ kernel.old.heads }
    ensures threads { length threads.new.items ≡ length threads.old.items }
{
    let Some(late) = call.expired() else {
        return Note::Nothing;
    };
    let condition = call.condition();
    if !stands_in(thread, &kernel.sleepers(layout.counter(condition))) {
        return Note::Nothing;
    }
    let _ = kernel.remove(thread);
    let index = thread.as_index();
    let held = threads[index].held;
    threads[index] = Thread {
        stage: Stage::Calling(Op::OnCondition(late), program),
        held,
    };
    Note::Expired {
        thread,
        queue: Queue::Condition(condition),
    }
}

/// The time limit of the thread's call comes: of a lock while it sleeps on its mutex, of a wait while it sleeps on its
/// condition variable.
pub(crate) fn expire(
    layout: &Layout,
    kernel: &mut Kernel,
    threads: &mut Vec<Thread>,
    thread: Tid,
) -> Note
    requires kernel { kernel.old.threads ≡ layout.now.threads }
    requires threads { length threads.old.items ≡ layout.now.threads }
    requires goes { thread ≤ layout.now.threads → MayStep layout.now (thread_at threads.old.items thread) }
    ensures state { (ws : List ℕ) → SleepsInItsCall (state_at layout.now ws kernel.old threads.old.items) thread
        → state_at layout.now ws kernel.new threads.new.items
        ≡ (happens (state_at layout.now ws kernel.old threads.old.items) (Expire thread)).state }
    ensures note { (ws : List ℕ) → SleepsInItsCall (state_at layout.now ws kernel.old threads.old.items) thread
        → result ≡ (happens (state_at layout.now ws kernel.old threads.old.items) (Expire thread)).note }
    ensures kernel { kernel.new.threads ≡ kernel.old.threads }
    ensures heads { kernel.new.heads ≡ kernel.old.heads }
    ensures threads { length threads.new.items ≡ length threads.old.items }
{
    if layout.threads() < thread.get() {
        return Note::Nothing;
    }
    let Stage::Calling(op, program) = threads[thread.as_index()].stage else {
        return Note::Nothing;
    };
    match op {
        Op::OnMutex(call) => expire_lock(layout, kernel, threads, thread, call, program),
        Op::OnCondition(call) => expire_wait(layout, kernel, threads, thread, call, program),
    }
}
