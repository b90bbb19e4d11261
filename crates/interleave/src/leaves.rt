//! Sleepers that leave their queue by themselves (futex(2), EINTR), and trims that are declined.
ghost use Rattle.std.specs.Prelude.{◌≡◌, ◌≤◌, List, length};
ghost use Rattle.protocol.specs.declared.event.Event.TheVariants.{Leave, Decline};
ghost use Rattle.protocol.specs.declared.thread.Thread.{Thread};
ghost use Rattle.protocol.specs.Machine.{happens};
ghost use Rattle.interleave.specs.Shown.{state_at, thread_at};
ghost use Rattle.interleave.specs.Steps.{MayStep, SleepsInItsCall};
ghost use Rattle.std.specs.Prelude.{ℕ};

use crate::accesses::quiet;
use crate::threads::{held_after, point, replied, stage_after, stepped};
use facts::Queue;
use lockword::Tid;
use memorymap::Layout;
use protocol::{Note, Stage, Thread};
use stepprograms::{Access, Answer, StepProgram};
use syscalls::Kernel;

/// The thread leaves its queue, if it is in one. It is in its call where it goes on when it is woken, so
/// nothing else is to do.
pub(crate) fn leave(layout: &Layout, kernel: &mut Kernel, thread: Tid) -> Note
    requires { kernel.old.threads ≡ layout.now.threads }
    ensures state { (ws : List ℕ) (ts : List Thread) → SleepsInItsCall (state_at layout.now ws kernel.old ts) thread
        → state_at layout.now ws kernel.new ts ≡ (happens (state_at layout.now ws kernel.old ts) (Leave thread)).state }
    ensures note { (ws : List ℕ) (ts : List Thread) → SleepsInItsCall (state_at layout.now ws kernel.old ts) thread
        → result ≡ (happens (state_at layout.now ws kernel.old ts) (Leave thread)).note }
    ensures kernel { kernel.new.threads ≡ kernel.old.threads }
    ensures heads { kernel.new.heads ≡ kernel.old.heads }
{
    if layout.threads() < thread.get() {
        return Note::Nothing;
    }
    if kernel.remove(thread) {
        Note::Left { thread }
    } else {
        Note::Nothing
    }
}

/// The next access of the thread's call, where that is a trim, is declined: the call goes on as after one that
/// cleared nothing.
pub(crate) fn decline(
    layout: &Layout,
    kernel: &Kernel,
    threads: &mut Vec<Thread>,
    thread: Tid,
) -> Note
    requires threads { length threads.old.items ≡ layout.now.threads }
    requires goes { thread ≤ layout.now.threads → MayStep layout.now (thread_at threads.old.items thread) }
    ensures state { (ws : List ℕ) → SleepsInItsCall (state_at layout.now ws kernel.now threads.old.items) thread
        → state_at layout.now ws kernel.now threads.new.items
        ≡ (happens (state_at layout.now ws kernel.now threads.old.items) (Decline thread)).state }
    ensures note { (ws : List ℕ) → SleepsInItsCall (state_at layout.now ws kernel.now threads.old.items) thread
        → result ≡ (happens (state_at layout.now ws kernel.now threads.old.items) (Decline thread)).note }
    ensures threads { length threads.new.items ≡ length threads.old.items }
{
    if layout.threads() < thread.get() {
        return Note::Nothing;
    }
    if kernel.asleep(thread) {
        return Note::Nothing;
    }
    let index = thread.as_index();
    let Thread { stage, held } = threads[index];
    let Stage::Calling(op, program) = stage else {
        return Note::Nothing;
    };
    let mut program = program;
    let Access::Trim { .. } = program.next() else {
        return Note::Nothing;
    };
    let done = quiet(Answer::Trimmed(false));
    let told = program.resume(done.answer);
    let progress = replied(op, told);
    threads[index] = Thread {
        stage: stage_after(op, &program, &progress),
        held: held_after(held, point(&progress)),
    };
    let mutex = op.mutex(layout);
    stepped(thread, mutex, Queue::Mutex(mutex), &done, &progress)
}
