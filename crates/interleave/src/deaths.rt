//! Threads that die, and the kernel's walks over their robust lists (get_robust_list(2)).
ghost use Rattle.std.specs.Prelude.{◌≡◌, ◌≤◌, ℕ, List, length};
ghost use Rattle.memorymap.specs.Layouts.{words_of, head_place, address_in};
ghost use Rattle.posixmutex.specs.declared.point.Operation.TheVariants.{Death};
ghost use Rattle.exitwalk.specs.Walks.{IsGoing};
ghost use Rattle.protocol.specs.declared.event.Event.TheVariants.{Kill, Step};
ghost use Rattle.protocol.specs.declared.thread.Stage.TheVariants.{Dying};
ghost use Rattle.protocol.specs.Machine.{happens, is_alive, mutex_at, death_at, told_of, held_after};
ghost use Rattle.syscalls.specs.Kernels.{IsAwake, head_of};
ghost use Rattle.interleave.specs.Perform.{point_in, has_returned, stage_walked_in};
ghost use Rattle.interleave.specs.Shown.{state_at, thread_at};

use crate::accesses::perform;
use exitwalk::Walk;
use lockword::Tid;
use memorymap::Layout;
use protocol::{Note, Stage, Thread};
use stepprograms::{Progress, StepProgram};
use syscalls::{Kernel, PlainMemory};

/// Whether a thread that is there hasn't been killed.
fn is_alive(stage: &Stage) -> bool
    ensures { result ≡ is_alive stage.now }
{
    match *stage {
        Stage::Idle | Stage::Calling(_, _) | Stage::AtCondition(_, _) => true,
        Stage::Dying(_) | Stage::Reaped => false,
    }
}

/// The thread dies, if it lives: it leaves its queue, its call ends there, and the kernel is to walk its list from the
/// head that it has set.
pub(crate) fn kill(
    layout: &Layout,
    kernel: &mut Kernel,
    threads: &mut Vec<Thread>,
    thread: Tid,
) -> Note
    requires kernel { kernel.old.threads ≡ layout.now.threads }
    requires threads { length threads.old.items ≡ layout.now.threads }
    requires heads { thread ≤ layout.now.threads
        → head_of kernel.old thread ≡ address_in layout.now thread (head_place thread) }
    ensures state { (ws : List ℕ)
        → state_at layout.now ws kernel.new threads.new.items
        ≡ (happens (state_at layout.now ws kernel.old threads.old.items) (Kill thread)).state }
    ensures note { (ws : List ℕ)
        → result ≡ (happens (state_at layout.now ws kernel.old threads.old.items) (Kill thread)).note }
    ensures kernel { kernel.new.threads ≡ kernel.old.threads }
    ensures heads { kernel.new.heads ≡ kernel.old.heads }
    ensures threads { length threads.new.items ≡ length threads.old.items }
{
    if layout.threads() < thread.get() {
        return Note::Nothing;
    }
    let index = thread.as_index();
    let Thread { stage, held } = threads[index];
    if !is_alive(&stage) {
        return Note::Nothing;
    }
    let Ok((head, _)) = kernel.get_robust_list(thread.get()) else {
        unreachable!()
    };
    let _ = kernel.remove(thread);
    threads[index] = Thread {
        stage: Stage::Dying(Walk::new(thread, head)),
        held,
    };
    Note::Killed { thread }
}

/// The mutex whose cell is at a place.
fn mutex_at(layout: &Layout, place: u64) -> Option<u16>
    ensures { result ≡ mutex_at layout.now place }
{
    layout.mutex_of(place)
}

/// The mutex of which an access of a thread's walk told the owner's death, by its cell's address in the thread's
/// process.
fn death_told(layout: &Layout, thread: Tid, progress: &Progress) -> Option<u16>
    requires { thread ≤ layout.now.threads }
    ensures { result ≡ death_at layout.now thread (point_in progress.now) }
{
    match *progress {
        Progress::Goes { point } | Progress::Returns { point, .. } => {
            mutex_at(layout, layout.place(thread, point?.at)?)
        }
    }
}

fn has_returned(progress: &Progress) -> bool
    ensures { result ≡ has_returned progress.now }
{
    match *progress {
        Progress::Goes { .. } => false,
        Progress::Returns { .. } => true,
    }
}

fn stage_walked(walk: &Walk, progress: &Progress) -> Stage
    ensures { result ≡ stage_walked_in walk.now progress.now }
{
    match *progress {
        Progress::Goes { .. } => Stage::Dying(*walk),
        Progress::Returns { .. } => Stage::Reaped,
    }
}

/// How many mutexes a dead thread owns after an access of its walk, which may have told its death of one.
fn held_walked(held: u16, death: Option<u16>) -> u16
    ensures { result ≡ held_after held Death (told_of death) }
{
    match death {
        Some(_) => held.saturating_sub(1),
        None => held,
    }
}

/// The kernel makes the next access of its walk over the list of a thread that died. At the walk's end the thread is
/// reaped.
pub(crate) fn walk_on(
    layout: &Layout,
    memory: &mut PlainMemory,
    kernel: &mut Kernel,
    threads: &mut Vec<Thread>,
    thread: Tid,
    walk: Walk,
) -> Note
    requires words { length memory.old ≡ words_of layout.now }
    requires kernel { kernel.old.threads ≡ layout.now.threads }
    requires threads { length threads.old.items ≡ layout.now.threads }
    requires known { thread ≤ layout.now.threads }
    requires awake { IsAwake kernel.old thread }
    requires stands { (thread_at threads.old.items thread).stage ≡ Dying walk }
    requires going { IsGoing walk.row }
    ensures state { state_at layout.now memory.new kernel.new threads.new.items
        ≡ (happens (state_at layout.now memory.old kernel.old threads.old.items) (Step thread)).state }
    ensures note { result ≡ (happens (state_at layout.now memory.old kernel.old threads.old.items) (Step thread)).note }
    ensures words { length memory.new ≡ length memory.old }
    ensures kernel { kernel.new.threads ≡ kernel.old.threads }
    ensures heads { kernel.new.heads ≡ kernel.old.heads }
    ensures threads { length threads.new.items ≡ length threads.old.items }
{
    let mut walk = walk;
    let base = layout.base(thread);
    let done = perform(memory, kernel, base, thread, &walk.next());
    let progress = walk.resume(done.answer);
    let death = death_told(layout, thread, &progress);
    let index = thread.as_index();
    let held = threads[index].held;
    threads[index] = Thread {
        stage: stage_walked(&walk, &progress),
        held: held_walked(held, death),
    };
    Note::Walked {
        thread,
        death,
        woken: done.woken,
        reaped: has_returned(&progress),
    }
}
