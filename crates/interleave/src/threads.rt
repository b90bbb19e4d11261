//! The machine's threads.
ghost use Rattle.std.specs.Prelude.{◌≡◌, ◌<◌, ◌≤◌, ℕ, List, true, length};
ghost use Rattle.memorymap.specs.Layouts.{words_of, head_place, address_in};
ghost use Rattle.protocol.specs.declared.event.Event.TheVariants.{Begin, Step};
ghost use Rattle.protocol.specs.Machine.{happens, first_stage, is_idle, is_calling, is_exiting, is_gone, slept_in};
ghost use Rattle.protocol.specs.declared.note.Note.TheVariants.{Stepped};
ghost use Rattle.condvar.specs.Ops.{is_in};
ghost use Rattle.syscalls.specs.Kernels.{IsAwake, Kernel', head_of};
ghost use Rattle.interleave.specs.Calls.{op_of, stage_of, IsGoing};
ghost use Rattle.interleave.specs.Perform.{decision_with, held_with, point_in, replying, reply_in, stage_at_in, stage_in};
ghost use Rattle.interleave.specs.Shown.{state_at, thread_at};
ghost use Rattle.interleave.specs.Steps.{MayStep, SleepsInItsCall};

use crate::accesses::{Performed, perform};
use crate::calls::InCall;
use crate::deaths::{kill, walk_on};
use crate::expiries::expire;
use crate::leaves::{decline, leave};
use crate::ops::begun;
use crate::reinits::remake;
use crate::renewals::renew;
use crate::spares::spare;
use condvar::{CondCall, CondProgram, Op};
use facts::Queue;
use lockword::{Reply, Tid};
use memorymap::Layout;
use mutex::Program;
use posixmutex::{Decision, Operation, Point};
use protocol::{Event, Note, Stage, Thread};
use stepprograms::Progress;
use syscalls::{Kernel, PlainMemory};

/// The point that the access was, if it was one.
pub(crate) fn point(progress: &Progress) -> Option<Point>
    ensures { result ≡ point_in progress.now }
{
    match *progress {
        Progress::Goes { point } | Progress::Returns { point, .. } => point,
    }
}

/// How far an access of its program brought a call: where it returns, it is the call that says with what, since that
/// knows whether it is out of time.
pub(crate) fn replied(op: Op, progress: Progress) -> Progress
    ensures { result ≡ replying op progress }
{
    match progress {
        Progress::Goes { .. } => progress,
        Progress::Returns { reply, point } => Progress::Returns {
            reply: op.reply(reply),
            point,
        },
    }
}

fn returned(progress: &Progress) -> Option<Reply>
    ensures { result ≡ reply_in progress.now }
{
    match *progress {
        Progress::Goes { .. } => None,
        Progress::Returns { reply, .. } => Some(reply),
    }
}

/// Where a thread stands after an access of a mutex's program.
pub(crate) fn stage_after(op: Op, program: &Program, progress: &Progress) -> Stage
    ensures { result ≡ stage_in op program.now progress.now }
{
    match *progress {
        Progress::Goes { .. } => Stage::Calling(op, *program),
        Progress::Returns { .. } => Stage::Idle,
    }
}

/// Where a thread stands after an access of a call on a condition variable. A wait that is awake again is in the lock
/// that ends it.
pub(crate) fn stage_at(call: CondCall, program: &CondProgram, progress: &Progress) -> Stage
    ensures { result ≡ stage_at_in call program.now progress.now }
{
    match (*progress, program.lock()) {
        (Progress::Returns { .. }, _) => Stage::Idle,
        (Progress::Goes { .. }, Some(lock)) => Stage::Calling(Op::OnCondition(call), lock),
        (Progress::Goes { .. }, None) => Stage::AtCondition(call, *program),
    }
}

/// How many mutexes a thread owns after an access of its call, which may have been a point.
pub(crate) fn held_after(held: u16, point: Option<Point>) -> u16
    requires { held < 65535 }
    ensures { result ≡ held_with held point }
{
    let Some(
        Point {
            operation,
            reply,
            ..
        },
    ) = point
    else {
        return held;
    };
    match (operation, reply) {
        (Operation::Lock | Operation::TryLock, Reply::OK | Reply::EOWNERDEAD) => held + 1,
        (Operation::Unlock | Operation::Death, Reply::OK) => held.saturating_sub(1),
        _ => held,
    }
}

/// The point of a thread's call on a mutex.
fn decision(thread: Tid, mutex: u16, point: Option<Point>) -> Option<Decision>
    ensures { result ≡ decision_with thread mutex point }
{
    let Point {
        operation,
        reply,
        ..
    } = point?;
    Some(Decision {
        thread,
        mutex,
        operation,
        reply,
    })
}

/// The queue that a thread came to be in, if it fell asleep.
fn slept_in(queue: Queue, slept: bool) -> Option<Queue>
    ensures { result ≡ slept_in queue slept }
{
    if slept { Some(queue) } else { None }
}

/// Whether a thread that is there lives and is in no call.
pub(crate) fn is_idle(stage: &Stage) -> bool
    ensures { result ≡ is_idle stage.now }
{
    match *stage {
        Stage::Idle => true,
        Stage::Calling(_, _) | Stage::AtCondition(_, _) | Stage::Dying(_) | Stage::Reaped => false,
    }
}

/// Whether a thread that is there is in a call.
pub(crate) fn is_calling(stage: &Stage) -> bool
    ensures { result ≡ is_calling stage.now }
{
    match *stage {
        Stage::Calling(_, _) | Stage::AtCondition(_, _) => true,
        Stage::Idle | Stage::Dying(_) | Stage::Reaped => false,
    }
}

/// Whether a thread that is there was killed, and hasn't been reaped.
pub(crate) fn is_dying(stage: &Stage) -> bool
    ensures { result ≡ is_exiting stage.now }
{
    match *stage {
        Stage::Dying(_) => true,
        Stage::Idle | Stage::Calling(_, _) | Stage::AtCondition(_, _) | Stage::Reaped => false,
    }
}

/// Whether a thread that is there was killed, and has been reaped, and not been renewed since.
pub(crate) fn is_reaped(stage: &Stage) -> bool
    ensures { result ≡ is_gone stage.now }
{
    match *stage {
        Stage::Reaped => true,
        Stage::Idle | Stage::Calling(_, _) | Stage::AtCondition(_, _) | Stage::Dying(_) => false,
    }
}

/// Where a thread begins a call that the layout has; or the reply by which it is refused at once.
fn first_stage(layout: &Layout, thread: Tid, held: u16, op: Op) -> Result<Stage, Reply>
    requires thread { thread ≤ layout.now.threads }
    requires inside { is_in layout.now op ≡ true }
    ensures { result ≡ first_stage layout.now thread held op }
{
    match op {
        Op::OnMutex(call) => {
            let program = Program::new(layout, thread, held, call)?;
            Ok(Stage::Calling(op, program))
        }
        Op::OnCondition(call) => {
            let program = CondProgram::new(layout, thread, call);
            Ok(Stage::AtCondition(call, program))
        }
    }
}

/// The thread begins a call, if it can.
fn begin(layout: &Layout, threads: &mut Vec<Thread>, thread: Tid, op: Op) -> Note
    requires { length threads.old.items ≡ layout.now.threads }
    ensures state { (ws : List ℕ) (k : Kernel')
        → state_at layout.now ws k threads.new.items
        ≡ (happens (state_at layout.now ws k threads.old.items) (Begin thread op)).state }
    ensures note { (ws : List ℕ) (k : Kernel')
        → result ≡ (happens (state_at layout.now ws k threads.old.items) (Begin thread op)).note }
    ensures threads { length threads.new.items ≡ length threads.old.items }
{
    if layout.threads() < thread.get() || !op.may_begin(layout) {
        return Note::Nothing;
    }
    let index = thread.as_index();
    let Thread { stage, held } = threads[index];
    if !is_idle(&stage) {
        return Note::Nothing;
    }
    let call = begun(layout, op);
    match first_stage(layout, thread, held, op) {
        Ok(stage) => {
            threads[index] = Thread { stage, held };
            Note::Began {
                thread,
                call,
                refused: None,
            }
        }
        Err(reply) => Note::Began {
            thread,
            call,
            refused: Some(reply),
        },
    }
}

/// What is noted of an access of a call about a mutex, which sleeps in that queue if it does.
pub(crate) fn stepped(
    thread: Tid,
    mutex: u16,
    queue: Queue,
    done: &Performed,
    progress: &Progress,
) -> Note
    ensures { result
        ≡ Stepped thread mutex (decision_with thread mutex (point_in progress.now)) (slept_in queue done.now.slept)
        done.now.woken done.now.moved (reply_in progress.now) }
{
    Note::Stepped {
        thread,
        mutex,
        point: decision(thread, mutex, point(progress)),
        slept: slept_in(queue, done.slept),
        woken: done.woken,
        moved: done.moved,
        returned: returned(progress),
    }
}

/// A thread that doesn't sleep makes the next access of its call.
fn go_on(
    layout: &Layout,
    memory: &mut PlainMemory,
    kernel: &mut Kernel,
    threads: &mut Vec<Thread>,
    thread: Tid,
    call: &InCall,
) -> Note
    requires words { length memory.old ≡ words_of layout.now }
    requires kernel { kernel.old.threads ≡ layout.now.threads }
    requires threads { length threads.old.items ≡ layout.now.threads }
    requires known { thread ≤ layout.now.threads }
    requires awake { IsAwake kernel.old thread }
    requires stands { (thread_at threads.old.items thread).stage ≡ stage_of call.now }
    requires inside { is_in layout.now (op_of call.now) ≡ true }
    requires going { IsGoing call.now }
    requires few { (thread_at threads.old.items thread).held < 65535 }
    ensures state { state_at layout.now memory.new kernel.new threads.new.items
        ≡ (happens (state_at layout.now memory.old kernel.old threads.old.items) (Step thread)).state }
    ensures note { result ≡ (happens (state_at layout.now memory.old kernel.old threads.old.items) (Step thread)).note }
    ensures words { length memory.new ≡ length memory.old }
    ensures kernel { kernel.new.threads ≡ kernel.old.threads }
    ensures heads { kernel.new.heads ≡ kernel.old.heads }
    ensures threads { length threads.new.items ≡ length threads.old.items }
{
    let base = layout.base(thread);
    let done = perform(memory, kernel, base, thread, &call.next());
    let (stage, progress) = call.resume(done.answer);
    let index = thread.as_index();
    let held = threads[index].held;
    threads[index] = Thread {
        stage,
        held: held_after(held, point(&progress)),
    };
    let mutex = call.op().mutex(layout);
    stepped(thread, mutex, call.queue(mutex), &done, &progress)
}

/// The thread makes the next access of its call, if it is in one and doesn't sleep; or the kernel makes the next one of
/// its walk, if the thread died.
fn step(
    layout: &Layout,
    memory: &mut PlainMemory,
    kernel: &mut Kernel,
    threads: &mut Vec<Thread>,
    thread: Tid,
) -> Note
    requires words { length memory.old ≡ words_of layout.now }
    requires kernel { kernel.old.threads ≡ layout.now.threads }
    requires threads { length threads.old.items ≡ layout.now.threads }
    requires goes { thread ≤ layout.now.threads → MayStep layout.now (thread_at threads.old.items thread) }
    requires sleeps { SleepsInItsCall (state_at layout.now memory.old kernel.old threads.old.items) thread }
    ensures state { state_at layout.now memory.new kernel.new threads.new.items
        ≡ (happens (state_at layout.now memory.old kernel.old threads.old.items) (Step thread)).state }
    ensures note { result ≡ (happens (state_at layout.now memory.old kernel.old threads.old.items) (Step thread)).note }
    ensures words { length memory.new ≡ length memory.old }
    ensures kernel { kernel.new.threads ≡ kernel.old.threads }
    ensures heads { kernel.new.heads ≡ kernel.old.heads }
    ensures threads { length threads.new.items ≡ length threads.old.items }
{
    if layout.threads() < thread.get() {
        return Note::Nothing;
    }
    if kernel.asleep(thread) {
        return Note::Nothing;
    }
    let index = thread.as_index();
    match threads[index].stage {
        Stage::Idle | Stage::Reaped => Note::Nothing,
        Stage::Calling(op, program) => {
            let call = InCall::Calling(op, program);
            go_on(layout, memory, kernel, threads, thread, &call)
        }
        Stage::AtCondition(call, program) => {
            let call = InCall::AtCondition(call, program);
            go_on(layout, memory, kernel, threads, thread, &call)
        }
        Stage::Dying(walk) => walk_on(layout, memory, kernel, threads, thread, walk),
    }
}

/// What an event does to the words, the sleepers and the threads.
pub(crate) fn apply(
    layout: &Layout,
    memory: &mut PlainMemory,
    kernel: &mut Kernel,
    threads: &mut Vec<Thread>,
    event: Event,
) -> Note
    requires words { length memory.old ≡ words_of layout.now }
    requires kernel { kernel.old.threads ≡ layout.now.threads }
    requires threads { length threads.old.items ≡ layout.now.threads }
    requires heads { (t : ℕ) → 1 ≤ t → t ≤ layout.now.threads
        → head_of kernel.old t ≡ address_in layout.now t (head_place t) }
    requires goes { (t : ℕ) → 1 ≤ t → t ≤ layout.now.threads → MayStep layout.now (thread_at threads.old.items t) }
    requires sleeps { (t : ℕ) → SleepsInItsCall (state_at layout.now memory.old kernel.old threads.old.items) t }
    ensures state { state_at layout.now memory.new kernel.new threads.new.items
        ≡ (happens (state_at layout.now memory.old kernel.old threads.old.items) event).state }
    ensures note { result ≡ (happens (state_at layout.now memory.old kernel.old threads.old.items) event).note }
    ensures words { length memory.new ≡ length memory.old }
    ensures kernel { kernel.new.threads ≡ kernel.old.threads }
    ensures heads { kernel.new.heads ≡ kernel.old.heads }
    ensures threads { length threads.new.items ≡ length threads.old.items }
{
    match event {
        Event::Begin(thread, op) => begin(layout, threads, thread, op),
        Event::Step(thread) => step(layout, memory, kernel, threads, thread),
        Event::Kill(thread) => kill(layout, kernel, threads, thread),
        Event::Leave(thread) => leave(layout, kernel, thread),
        Event::Expire(thread) => expire(layout, kernel, threads, thread),
        Event::Decline(thread) => decline(layout, kernel, threads, thread),
        Event::Renew(thread) => renew(layout, memory, threads, thread),
        Event::Remake(thread, mutex) => remake(layout, memory, threads, thread, mutex),
        Event::Spare(thread, by) => spare(layout, memory, kernel, threads, thread, by),
    }
}
