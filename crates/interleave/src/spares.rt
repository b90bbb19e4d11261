//! Wakes that are spared, since another answers for the mutex: a thread, its owner or a walk.
ghost use Rattle.std.specs.Prelude.{◌≡◌, ◌≤◌, ◌<◌, ◌==◌, ◌&&◌, not, ℕ, List, length, slice_index, true};
ghost use Rattle.memorymap.specs.Layouts.{words_of};
ghost use Rattle.mutex.specs.Whole.{IsUnderWay, PhaseKnows};
ghost use Rattle.condvar.specs.Whole as condition;
ghost use Rattle.condvar.specs.declared.op.Op.TheVariants.{OnCondition};
ghost use Rattle.condvar.specs.Ops.{is_in, mutex_of};
ghost use Rattle.protocol.specs.declared.event.Event.TheVariants.{Spare};
ghost use Rattle.protocol.specs.declared.thread.Thread.{Thread};
ghost use Rattle.protocol.specs.declared.thread.Stage.TheVariants.{AtCondition, Calling};
ghost use Rattle.protocol.specs.Machine.{happens, answers_at, wakes_next, wakes_one, answers};
ghost use Rattle.protocol.specs.Machine.{a_walk_minds, another_answers, is_asleep, is_first, is_left_to};
ghost use Rattle.protocol.specs.Machine.{is_owned, is_pending, minds, walk_minds};
ghost use Rattle.syscalls.specs.Kernels.{Kernel'};
ghost use Rattle.interleave.specs.Shown.{state_at, thread_at};
ghost use Rattle.interleave.specs.Steps.{IsOnItsWay, MayStep, SleepsInItsCall};

use crate::accesses::{quiet, word_at};
use crate::ops::mutex_of;
use crate::threads::{held_after, point, replied, stage_after, stage_at, stepped};
use condvar::{CondCall, CondPhase, CondProgram, CondRow, Op, WaitRow};
use exitwalk::{Part, Row as WalkRow, Walk};
use facts::Queue;
use lockword::{Cell, Tid};
use memorymap::Layout;
use mutex::{Phase, Program, Row, UnlockRow};
use protocol::{LeftTo, Note, Stage, Thread};
use stepprograms::{Answer, StepProgram};
use syscalls::{Kernel, PlainMemory};

/// Whether a call at this point takes its mutex, or wakes one that sleeps on it, unless it finds it owned.
fn answers_at(phase: &Phase) -> bool
    ensures { result ≡ answers_at phase.now }
{
    match *phase {
        Phase::AtCell(Row::Lock(_) | Row::Unlock(UnlockRow::Wake { .. })) => true,
        Phase::AtCell(
            Row::TryLock(_)
            | Row::Unlock(UnlockRow::Load | UnlockRow::Release { .. } | UnlockRow::Trim)
            | Row::Consistent(_)
            | Row::Ended(_),
        ) => false,
        Phase::Announcing { .. }
        | Phase::Linking { .. }
        | Phase::Unlinking { .. }
        | Phase::Clearing { .. }
        | Phase::Ended(_) => false,
    }
}

/// Whether it is an unlock that is about to wake one sleeper.
fn wakes_one(phase: &Phase) -> bool
    ensures { result ≡ wakes_one phase.now }
{
    match *phase {
        Phase::AtCell(Row::Unlock(UnlockRow::Wake { all })) => !all,
        Phase::AtCell(
            Row::Lock(_)
            | Row::TryLock(_)
            | Row::Unlock(UnlockRow::Load | UnlockRow::Release { .. } | UnlockRow::Trim)
            | Row::Consistent(_)
            | Row::Ended(_),
        ) => false,
        Phase::Announcing { .. }
        | Phase::Linking { .. }
        | Phase::Unlinking { .. }
        | Phase::Clearing { .. }
        | Phase::Ended(_) => false,
    }
}

/// Whether it is a wait that is about to wake one sleeper of its mutex.
fn wakes_next(phase: &CondPhase) -> bool
    ensures { result ≡ wakes_next phase.now }
{
    match *phase {
        CondPhase::AtWords(CondRow::Wait(WaitRow::Wake { .. })) => true,
        CondPhase::AtWords(
            CondRow::Wait(
                WaitRow::LoadCell
                | WaitRow::LoadCounter
                | WaitRow::Release { .. }
                | WaitRow::Sleep { .. },
            )
            | CondRow::Signal(_)
            | CondRow::Broadcast(_)
            | CondRow::Awake
            | CondRow::Ended(_),
        ) => false,
        CondPhase::Announcing { .. }
        | CondPhase::Unlinking { .. }
        | CondPhase::Locking(_)
        | CondPhase::Ended(_) => false,
    }
}

/// Whether a walk hasn't begun.
fn is_first(walk: &Walk) -> bool
    ensures { result ≡ is_first walk.now.row }
{
    matches!(walk.row(), WalkRow::LoadFirst)
}

/// Whether the thread has an entry pending, which is the mutex's (list_op_pending in get_robust_list(2)).
fn is_pending(layout: &Layout, memory: &PlainMemory, mutex: u16, thread: Tid) -> bool
    requires words { length memory.now ≡ words_of layout.now }
    requires inside { mutex < layout.now.mutexes }
    requires known { thread ≤ layout.now.threads }
    ensures { result ≡ is_pending layout.now (λ p. slice_index memory.now p) mutex thread }
{
    word_at(memory, layout.head(thread) + 2) == layout.address(thread, layout.entry(mutex))
}

/// Whether the thread, which is there, answers for the mutex, unless it sleeps.
fn answers(layout: &Layout, memory: &PlainMemory, mutex: u16, thread: Tid, stage: &Stage) -> bool
    requires words { length memory.now ≡ words_of layout.now }
    requires inside { mutex < layout.now.mutexes }
    requires known { thread ≤ layout.now.threads }
    requires goes { IsOnItsWay layout.now stage.now }
    ensures { result ≡ answers layout.now (λ p. slice_index memory.now p) mutex thread stage.now }
{
    match *stage {
        Stage::Calling(op, program) => op.mutex(layout) == mutex && answers_at(&program.phase()),
        Stage::AtCondition(call, program) => {
            Op::OnCondition(call).mutex(layout) == mutex && wakes_next(&program.phase())
        }
        Stage::Dying(ref walk) => is_first(walk) && is_pending(layout, memory, mutex, thread),
        Stage::Idle | Stage::Reaped => false,
    }
}

/// Whether that thread, where it is there, is another than this one, awake, and answers for the mutex.
fn other_answers(
    layout: &Layout,
    memory: &PlainMemory,
    kernel: &Kernel,
    thread: Tid,
    mutex: u16,
    other: Tid,
    stage: &Stage,
) -> bool
    requires words { length memory.now ≡ words_of layout.now }
    requires inside { mutex < layout.now.mutexes }
    requires known { other ≤ layout.now.threads }
    requires goes { IsOnItsWay layout.now stage.now }
    ensures { (ts : List Thread) → SleepsInItsCall (state_at layout.now memory.now kernel.now ts) other
        → result
        ≡ (not (other == thread) && not (is_asleep (state_at layout.now memory.now kernel.now ts) other)
        && answers layout.now (λ p. slice_index memory.now p) mutex other stage.now) }
{
    if other.get() == thread.get() {
        return false;
    }
    if kernel.asleep(other) {
        return false;
    }
    answers(layout, memory, mutex, other, stage)
}

/// Whether a thread but this one is awake and answers for the mutex.
fn another_answers(
    layout: &Layout,
    memory: &PlainMemory,
    kernel: &Kernel,
    threads: &Vec<Thread>,
    thread: Tid,
    mutex: u16,
) -> bool
    requires words { length memory.now ≡ words_of layout.now }
    requires inside { mutex < layout.now.mutexes }
    requires threads { length threads.now.items ≡ layout.now.threads }
    requires goes { (t : ℕ) → 1 ≤ t → t ≤ layout.now.threads → MayStep layout.now (thread_at threads.now.items t) }
    ensures { ((t : ℕ) → SleepsInItsCall (state_at layout.now memory.now kernel.now threads.now.items) t)
        → result
        ≡ another_answers (state_at layout.now memory.now kernel.now threads.now.items) thread mutex
        layout.now.threads }
{
    for index in 0..layout.threads() {
        let Some(other) = Tid::new(index + 1) else {
            unreachable!()
        };
        let stage = &threads[usize::from(index)].stage;
        if other_answers(layout, memory, kernel, thread, mutex, other, stage) {
            return true;
        }
    }
    false
}

/// Whether somebody owns the mutex.
fn is_owned(layout: &Layout, memory: &PlainMemory, mutex: u16) -> bool
    requires words { length memory.now ≡ words_of layout.now }
    requires inside { mutex < layout.now.mutexes }
    ensures { (kernel : Kernel') (ts : List Thread)
        → result ≡ is_owned (state_at layout.now memory.now kernel ts) mutex }
{
    Cell::new(word_at(memory, layout.cell(mutex))).owner() != 0
}

/// Whether the thread's walk, at this row, will look at the mutex's word, as it has the mutex pending, or is about to wake
/// a sleeper on it.
fn minds(layout: &Layout, memory: &PlainMemory, mutex: u16, thread: Tid, row: WalkRow) -> bool
    requires words { length memory.now ≡ words_of layout.now }
    requires inside { mutex < layout.now.mutexes }
    requires known { thread ≤ layout.now.threads }
    ensures { result ≡ minds layout.now (λ p. slice_index memory.now p) mutex thread row }
{
    let entry = layout.address(thread, layout.entry(mutex));
    let cell = layout.address(thread, layout.cell(mutex));
    match row {
        WalkRow::LoadFirst | WalkRow::LoadOffset { .. } | WalkRow::LoadPending { .. } => {
            is_pending(layout, memory, mutex, thread)
        }
        WalkRow::LoadNext(rest) => rest.pending == entry,
        WalkRow::LoadWord { at, part } => match part {
            Part::List(rest) => rest.pending == entry,
            Part::Pending => at == cell,
        },
        WalkRow::Mark { part, .. } => match part {
            Part::List(rest) => rest.pending == entry,
            Part::Pending => false,
        },
        WalkRow::WakeOne { at, part } => match part {
            Part::List(rest) => at == cell || rest.pending == entry,
            Part::Pending => at == cell,
        },
        WalkRow::Ended => false,
    }
}

/// Whether the thread is dead, and its walk does.
fn walk_minds(layout: &Layout, memory: &PlainMemory, mutex: u16, thread: Tid, stage: &Stage) -> bool
    requires words { length memory.now ≡ words_of layout.now }
    requires inside { mutex < layout.now.mutexes }
    requires known { thread ≤ layout.now.threads }
    ensures { result ≡ walk_minds layout.now (λ p. slice_index memory.now p) mutex thread stage.now }
{
    match *stage {
        Stage::Dying(ref walk) => minds(layout, memory, mutex, thread, walk.row()),
        Stage::Calling(_, _) | Stage::AtCondition(_, _) | Stage::Idle | Stage::Reaped => false,
    }
}

/// Whether a walk does.
fn a_walk_minds(layout: &Layout, memory: &PlainMemory, threads: &Vec<Thread>, mutex: u16) -> bool
    requires words { length memory.now ≡ words_of layout.now }
    requires inside { mutex < layout.now.mutexes }
    requires threads { length threads.now.items ≡ layout.now.threads }
    ensures { (kernel : Kernel')
        → result
        ≡ a_walk_minds (state_at layout.now memory.now kernel threads.now.items) mutex layout.now.threads }
{
    for index in 0..layout.threads() {
        let Some(other) = Tid::new(index + 1) else {
            unreachable!()
        };
        let stage = &threads[usize::from(index)].stage;
        if walk_minds(layout, memory, mutex, other, stage) {
            return true;
        }
    }
    false
}

/// Whether the one to whom the thread leaves the mutex answers for it.
fn is_left_to(
    layout: &Layout,
    memory: &PlainMemory,
    kernel: &Kernel,
    threads: &Vec<Thread>,
    thread: Tid,
    mutex: u16,
    by: LeftTo,
) -> bool
    requires words { length memory.now ≡ words_of layout.now }
    requires inside { mutex < layout.now.mutexes }
    requires threads { length threads.now.items ≡ layout.now.threads }
    requires goes { (t : ℕ) → 1 ≤ t → t ≤ layout.now.threads → MayStep layout.now (thread_at threads.now.items t) }
    ensures { ((t : ℕ) → SleepsInItsCall (state_at layout.now memory.now kernel.now threads.now.items) t)
        → result ≡ is_left_to (state_at layout.now memory.now kernel.now threads.now.items) thread mutex by }
{
    match by {
        LeftTo::Thread => another_answers(layout, memory, kernel, threads, thread, mutex),
        LeftTo::Owner => is_owned(layout, memory, mutex),
        LeftTo::Walk => a_walk_minds(layout, memory, threads, mutex),
    }
}

/// An unlock goes on as one that woke a sleeper.
fn spare_unlock(
    layout: &Layout,
    threads: &mut Vec<Thread>,
    thread: Tid,
    op: Op,
    program: Program,
    by: LeftTo,
) -> Note
    requires threads { length threads.old.items ≡ layout.now.threads }
    requires known { thread ≤ layout.now.threads }
    requires stands { (thread_at threads.old.items thread).stage ≡ Calling op program }
    requires goes { MayStep layout.now (thread_at threads.old.items thread) }
    requires wakes { wakes_one program.phase ≡ true }
    ensures state { (ws : List ℕ) (kernel : Kernel')
        → is_left_to (state_at layout.now ws kernel threads.old.items) thread (mutex_of layout.now op) by ≡ true
        → state_at layout.now ws kernel threads.new.items
        ≡ (happens (state_at layout.now ws kernel threads.old.items) (Spare thread by)).state }
    ensures note { (ws : List ℕ) (kernel : Kernel')
        → is_left_to (state_at layout.now ws kernel threads.old.items) thread (mutex_of layout.now op) by ≡ true
        → result ≡ (happens (state_at layout.now ws kernel threads.old.items) (Spare thread by)).note }
    ensures threads { length threads.new.items ≡ length threads.old.items }
{
    let mut program = program;
    let done = quiet(Answer::Count(1));
    let told = program.resume(done.answer);
    let progress = replied(op, told);
    let index = thread.as_index();
    let held = threads[index].held;
    threads[index] = Thread {
        stage: stage_after(op, &program, &progress),
        held: held_after(held, point(&progress)),
    };
    let mutex = op.mutex(layout);
    stepped(thread, mutex, Queue::Mutex(mutex), &done, &progress)
}

/// And so does a wait.
fn spare_wait(
    layout: &Layout,
    threads: &mut Vec<Thread>,
    thread: Tid,
    call: CondCall,
    program: CondProgram,
    by: LeftTo,
) -> Note
    requires threads { length threads.old.items ≡ layout.now.threads }
    requires known { thread ≤ layout.now.threads }
    requires stands { (thread_at threads.old.items thread).stage ≡ AtCondition call program }
    requires goes { MayStep layout.now (thread_at threads.old.items thread) }
    requires wakes { wakes_next program.phase ≡ true }
    ensures state { (ws : List ℕ) (kernel : Kernel')
        → is_left_to (state_at layout.now ws kernel threads.old.items) thread (mutex_of layout.now (OnCondition call)) by
        ≡ true
        → state_at layout.now ws kernel threads.new.items
        ≡ (happens (state_at layout.now ws kernel threads.old.items) (Spare thread by)).state }
    ensures note { (ws : List ℕ) (kernel : Kernel')
        → is_left_to (state_at layout.now ws kernel threads.old.items) thread (mutex_of layout.now (OnCondition call)) by
        ≡ true
        → result ≡ (happens (state_at layout.now ws kernel threads.old.items) (Spare thread by)).note }
    ensures threads { length threads.new.items ≡ length threads.old.items }
{
    let mut program = program;
    let done = quiet(Answer::Count(1));
    let progress = program.resume(done.answer);
    let index = thread.as_index();
    let held = threads[index].held;
    threads[index] = Thread {
        stage: stage_at(call, &program, &progress),
        held: held_after(held, point(&progress)),
    };
    let mutex = Op::OnCondition(call).mutex(layout);
    let queue = Queue::Condition(call.condition());
    stepped(thread, mutex, queue, &done, &progress)
}

/// The next access of the thread's call, where that is the wake of one sleeper of its mutex, is spared, if the one to
/// whom that is left answers for the mutex.
pub(crate) fn spare(
    layout: &Layout,
    memory: &PlainMemory,
    kernel: &Kernel,
    threads: &mut Vec<Thread>,
    thread: Tid,
    by: LeftTo,
) -> Note
    requires words { length memory.now ≡ words_of layout.now }
    requires threads { length threads.old.items ≡ layout.now.threads }
    requires goes { (t : ℕ) → 1 ≤ t → t ≤ layout.now.threads → MayStep layout.now (thread_at threads.old.items t) }
    requires sleeps { (t : ℕ) → SleepsInItsCall (state_at layout.now memory.now kernel.now threads.old.items) t }
    ensures state { state_at layout.now memory.now kernel.now threads.new.items
        ≡ (happens (state_at layout.now memory.now kernel.now threads.old.items) (Spare thread by)).state }
    ensures note { result
        ≡ (happens (state_at layout.now memory.now kernel.now threads.old.items) (Spare thread by)).note }
    ensures threads { length threads.new.items ≡ length threads.old.items }
{
    if layout.threads() < thread.get() {
        return Note::Nothing;
    }
    match threads[thread.as_index()].stage {
        Stage::Calling(op, program) => {
            if !wakes_one(&program.phase()) {
                return Note::Nothing;
            }
            let mutex = mutex_of(layout, op);
            if !is_left_to(layout, memory, kernel, threads, thread, mutex, by) {
                return Note::Nothing;
            }
            spare_unlock(layout, threads, thread, op, program, by)
        }
        Stage::AtCondition(call, program) => {
            if !wakes_next(&program.phase()) {
                return Note::Nothing;
            }
            let mutex = mutex_of(layout, Op::OnCondition(call));
            if !is_left_to(layout, memory, kernel, threads, thread, mutex, by) {
                return Note::Nothing;
            }
            spare_wait(layout, threads, thread, call, program, by)
        }
        Stage::Idle | Stage::Dying(_) | Stage::Reaped => Note::Nothing,
    }
}
