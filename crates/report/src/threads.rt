//! A script's calls on real threads, phase by phase.
ghost use Rattle.std.specs.Prelude.{◌≡◌, [], All, length, map, IfOk};
ghost use Rattle.ruledwords.specs.Passes.{card, layout_of, last_layout, IsPassOf};
ghost use Rattle.script.specs.Playing.{counters_of, layout_of as layout_in};
ghost use Rattle.threadbench.specs.Answered.{card_in, IsWorkerOf};
ghost use Rattle.threadbench.specs.Jobs.{LivesOn};
ghost use Rattle.report.specs.Meetings.{is_reaped};
ghost use Rattle.report.specs.Threads.{IsRightPhase, AreRightPhases, calls_in, AreFirst};
ghost use Rattle.report.specs.Threads.{AreAssigned, AreGathered, AreCells, AreCounters, HaveWorked};
ghost use Rattle.report.specs.Threads.{HasPassed, HaveMade, HasEnded, HaveAnswered, HaveReplies};

use crate::meeting::meet;
use condvar::Op;
use lockword::Reply;
use memorymap::NoMem;
use ruledwords::{Last, Live, Pass, Spent};
use script::{Jobs, Phase, Script};
use std::alloc::{AllocError, Global};
use std::sync::Wait;
use std::thread::Threads;
use threadbench::{Bench, Job, Open, Record, WorkerPass};

/// What each thread's calls were answered and whether it died, in the order of their ids, and the words of each mutex's
/// cell and of each condition variable's counter when all have ended.
#[derive(Drop)]
pub(crate) struct Answers {
    pub(crate) replies: Vec<Vec<Reply>>,
    pub(crate) died: Vec<bool>,
    pub(crate) cells: Vec<u64>,
    pub(crate) counters: Vec<u64>,
}

/// A thread between two phases: its pass, and what is left of the number before which of its accesses it dies.
#[derive(Drop)]
pub(crate) struct Worker {
    pub(crate) pass: WorkerPass,
    pub(crate) die: Option<u32>,
}

/// The threads before the first phase.
fn workers_of(
    alloc: Global,
    passes: Vec<Pass<Live>>,
    dies: &[Option<u32>],
) -> Result<Vec<Worker>, AllocError>
    requires { length dies.now ≡ length passes.items }
    ensures { IfOk result (λ workers. AreFirst passes.items dies.now workers.items) }
{
    let mut workers = Vec::new(alloc);
    for pass in passes {
        let die = dies[workers.len()];
        workers.push(Worker {
            pass: WorkerPass::Lives(pass),
            die,
        })?;
    }
    Ok(workers)
}

/// The calls of a thread in a phase.
fn calls_of(alloc: Global, phase: &Phase, thread: usize) -> Result<Vec<Op>, AllocError>
    ensures { IfOk result (λ v. v.items ≡ calls_in thread phase.now) }
{
    let mut calls = Vec::new(alloc);
    for job in &phase.jobs {
        if usize::from(job.thread.get()) == thread {
            calls.extend_from_slice(job.calls.as_slice())?;
        }
    }
    Ok(calls)
}

/// A job in a phase for each thread, which has no calls where the phase has none for it.
fn assign(alloc: Global, workers: Vec<Worker>, phase: &Phase) -> Result<Vec<Job>, AllocError>
    ensures { IfOk result (λ jobs. AreAssigned phase.now workers.items jobs.items) }
{
    let mut jobs = Vec::new(alloc);
    for worker in workers {
        let Worker { pass, die } = worker;
        let thread = jobs.len() + 1;
        let calls = calls_of(alloc, phase, thread)?;
        jobs.push(Job { pass, calls, die })?;
    }
    Ok(jobs)
}

/// The threads after a phase. The replies of each are added to its others.
fn gather(
    alloc: Global,
    records: Vec<Record>,
    replies: &mut Vec<Vec<Reply>>,
) -> Result<Vec<Worker>, AllocError>
    requires { length replies.old.items ≡ length records.items }
    ensures { IfOk result (λ workers. AreGathered records.items workers.items replies.old.items replies.new.items) }
{
    let mut workers = Vec::new(alloc);
    for record in records {
        replies[workers.len()].extend_from_slice(record.replies.as_slice())?;
        workers.push(Worker {
            pass: record.pass,
            die: record.die,
        })?;
    }
    Ok(workers)
}

/// Works a phase.
fn run_phase<R: Threads + Wait + Sync>(
    rt: &R,
    alloc: Global,
    bench: &Bench,
    phase: &Phase,
    workers: Vec<Worker>,
    replies: &mut Vec<Vec<Reply>>,
) -> Result<Vec<Worker>, NoMem>
    requires possible { IsRightPhase (layout_of bench.now) phase.now }
    requires right { All (λ v. IsWorkerOf bench.now v.pass) workers.items }
    requires as_many { length replies.old.items ≡ length workers.items }
    ensures { IfOk result
        (λ after. HaveWorked bench.now phase.now workers.items after.items replies.old.items replies.new.items) }
{
    let Ok(jobs) = assign(alloc, workers, phase) else {
        return Err(NoMem);
    };
    let Ok(records) = bench.work(rt, alloc, jobs, &Open) else {
        return Err(NoMem);
    };
    match gather(alloc, records, replies) {
        Ok(workers) => Ok(workers),
        Err(_) => Err(NoMem),
    }
}

/// Works a phase, at whose end all threads meet.
fn pass_phase<R: Threads + Wait + Sync>(
    rt: &R,
    alloc: Global,
    bench: &Bench,
    phase: &Phase,
    workers: Vec<Worker>,
    replies: &mut Vec<Vec<Reply>>,
) -> Result<Vec<Worker>, NoMem>
    requires possible { IsRightPhase (layout_of bench.now) phase.now }
    requires right { All (λ v. IsWorkerOf bench.now v.pass) workers.items }
    requires as_many { length replies.old.items ≡ length workers.items }
    ensures { IfOk result
        (λ met. HasPassed bench.now phase.now workers.items met.items replies.old.items replies.new.items) }
{
    let worked = run_phase(rt, alloc, bench, phase, workers, replies)?;
    match meet(alloc, bench, worked) {
        Ok(met) => Ok(met),
        Err(_) => Err(NoMem),
    }
}

/// Works all phases.
fn run_phases<R: Threads + Wait + Sync>(
    rt: &R,
    alloc: Global,
    bench: &Bench,
    phases: &[Phase],
    workers: Vec<Worker>,
    replies: &mut Vec<Vec<Reply>>,
) -> Result<Vec<Worker>, NoMem>
    requires possible { AreRightPhases (layout_of bench.now) phases.now }
    requires live { All (λ v. LivesOn bench.now v.pass) workers.items }
    requires as_many { length replies.old.items ≡ length workers.items }
    requires empty { All (λ r. r.items ≡ []) replies.old.items }
    ensures { IfOk result (λ after. HaveMade bench.now phases.now workers.items after.items replies.new.items) }
{
    let mut workers = workers;
    for phase in phases {
        workers = pass_phase(rt, alloc, bench, phase, workers, replies)?;
    }
    Ok(workers)
}

/// No replies yet, for each thread.
fn no_replies(alloc: Global, threads: u8) -> Result<Vec<Vec<Reply>>, AllocError>
    ensures { IfOk result (λ v. (length v.items ≡ threads) × All (λ r. r.items ≡ []) v.items) }
{
    let mut replies = Vec::new(alloc);
    for _thread in 0..threads {
        replies.push(Vec::new(alloc))?;
    }
    Ok(replies)
}

/// Which threads have died.
fn deaths(alloc: Global, workers: &[Worker]) -> Result<Vec<bool>, AllocError>
    ensures { IfOk result (λ died. died.items ≡ map (λ v. is_reaped v.pass) workers.now) }
{
    let mut died = Vec::new(alloc);
    for worker in workers {
        died.push(matches!(worker.pass, WorkerPass::Reaped(_)))?;
    }
    Ok(died)
}

/// The threads' passes, put aside for the end.
fn spent(
    alloc: Global,
    _bench: &Bench,
    workers: Vec<Worker>,
) -> Result<Vec<Pass<Spent>>, AllocError>
    requires { All (λ v. IsWorkerOf _bench.now v.pass) workers.items }
    ensures passes { IfOk result (λ passes. All (λ p. IsPassOf _bench.now p) passes.items) }
    ensures cards { IfOk result (λ passes. map (λ p. card p) passes.items ≡ map (λ v. card_in v.pass) workers.items) }
{
    let mut passes = Vec::new(alloc);
    for worker in workers {
        passes.push(worker.pass.spent())?;
    }
    Ok(passes)
}

/// The word of each mutex's cell.
fn cells_of(alloc: Global, last: &Last, mutexes: u16) -> Result<Vec<u64>, AllocError>
    requires { mutexes ≡ (last_layout last.now).mutexes }
    ensures { IfOk result (λ cells. AreCells last.now cells.items) }
{
    let mut cells = Vec::new(alloc);
    for mutex in 0..mutexes {
        cells.push(last.cell(mutex))?;
    }
    Ok(cells)
}

/// The word of each condition variable's counter.
fn counters_of(alloc: Global, last: &Last, conditions: u16) -> Result<Vec<u64>, AllocError>
    requires { conditions ≡ length (last_layout last.now).conditions }
    ensures { IfOk result (λ counters. AreCounters last.now counters.items) }
{
    let mut counters = Vec::new(alloc);
    for condition in 0..conditions {
        counters.push(last.counter(condition))?;
    }
    Ok(counters)
}

/// Ends the bench, where all passes meet, and reads the cells and the counters.
fn finish(
    alloc: Global,
    bench: Bench,
    workers: Vec<Worker>,
    script: &Script,
) -> Result<(Vec<u64>, Vec<u64>), AllocError>
    requires layout { layout_of bench ≡ layout_in script.now }
    requires right { All (λ v. IsWorkerOf bench v.pass) workers.items }
    ensures { IfOk result (λ r. HasEnded bench workers.items r.0.items r.1.items) }
{
    let passes = spent(alloc, &bench, workers)?;
    let last = bench.close_all(passes);
    let cells = cells_of(alloc, &last, script.mutexes())?;
    let counters = counters_of(alloc, &last, script.conditions())?;
    Ok((cells, counters))
}

/// Which threads have died; then ends the bench and tells what came of all.
fn end(
    alloc: Global,
    bench: Bench,
    workers: Vec<Worker>,
    script: &Script,
    replies: Vec<Vec<Reply>>,
) -> Result<Answers, AllocError>
    requires layout { layout_of bench ≡ layout_in script.now }
    requires right { All (λ v. IsWorkerOf bench v.pass) workers.items }
    ensures replies { IfOk result (λ a. a.replies ≡ replies) }
    ensures died { IfOk result (λ a. a.died.items ≡ map (λ v. is_reaped v.pass) workers.items) }
    ensures ended { IfOk result (λ a. HasEnded bench workers.items a.cells.items a.counters.items) }
{
    let died = deaths(alloc, workers.as_slice())?;
    let (cells, counters) = finish(alloc, bench, workers, script)?;
    Ok(Answers {
        replies,
        died,
        cells,
        counters,
    })
}

/// What the counters of a script's condition variables begin with.
fn presets_of(alloc: Global, script: &Script) -> Result<Vec<u32>, AllocError>
    ensures { IfOk result (λ counters. counters.items ≡ counters_of script.now) }
{
    let mut counters = Vec::new(alloc);
    for condition in 0..script.conditions() {
        counters.push(script.condition(condition).counter)?;
    }
    Ok(counters)
}

/// Lets real threads make the calls of a script, phase after phase, and tells what they were answered, which of them
/// died, and what is left in the cells and in the counters. Each thread has the words where its process maps them. A
/// phase begins when all calls of the one before have been answered, or their threads have died and the walks over
/// their lists have ended. Refused where no memory is left.
pub(crate) fn answers_of<R: Threads + Wait + Sync>(
    rt: &R,
    alloc: Global,
    script: &Script,
    jobs: Jobs,
) -> Result<Answers, NoMem>
    requires possible { AreRightPhases (layout_in script.now) jobs.phases.items }
    requires numbers { length jobs.dies.items ≡ length script.now.threads }
    ensures replies { IfOk result (λ a. length a.replies.items ≡ length script.now.threads) }
    ensures died { IfOk result (λ a. length a.died.items ≡ length script.now.threads) }
    ensures cells { IfOk result (λ a. length a.cells.items ≡ length script.now.mutexes) }
    ensures counters { IfOk result (λ a. length a.counters.items ≡ length script.now.conditions) }
    ensures answered { IfOk result
        (λ a. HaveAnswered (layout_in script.now) (counters_of script.now) jobs.phases.items jobs.dies.items
        a.replies.items a.died.items a.cells.items a.counters.items) }
    ensures each { IfOk result (λ a. HaveReplies jobs.phases.items a.replies.items a.died.items) }
{
    let Ok(presets) = presets_of(alloc, script) else {
        return Err(NoMem);
    };
    let layout = script.layout();
    let (bench, passes) = Bench::new(alloc, layout, presets.as_slice())?;
    let Ok(workers) = workers_of(alloc, passes, jobs.dies.as_slice()) else {
        return Err(NoMem);
    };
    let Ok(mut replies) = no_replies(alloc, script.threads()) else {
        return Err(NoMem);
    };
    let phases = jobs.phases.as_slice();
    let workers = run_phases(rt, alloc, &bench, phases, workers, &mut replies)?;
    match end(alloc, bench, workers, script, replies) {
        Ok(answers) => Ok(answers),
        Err(_) => Err(NoMem),
    }
}
