//! Jobs, and what comes of them.
ghost use Rattle.std.specs.Prelude.{◌≡◌, true, All, IfOk};
ghost use Rattle.condvar.specs.Ops.{is_in};
ghost use Rattle.ruledwords.specs.Passes.{layout_of, IsLive};
ghost use Rattle.threadbench.specs.Answered.{IsWorkerOf};
ghost use Rattle.threadbench.specs.Jobs.{IsJobOf, IsDone, AreDone};

use condvar::Op;
use lockword::Reply;
use memorymap::NoMem;
use ruledwords::{Live, Pass};
use std::alloc::Global;
use std::sync::Wait;
use std::thread::Threads;
use threadbench::{Bench, Gate, Job, Record, WorkerPass};

/// These calls and one more.
fn with_call(all: Vec<Op>, bench: &Bench, op: Op) -> Result<Vec<Op>, NoMem>
    requires all { All (λ c. is_in (layout_of bench.now) c ≡ true) all.items }
    requires inside { is_in (layout_of bench.now) op ≡ true }
    ensures { IfOk result (λ cs. All (λ c. is_in (layout_of bench.now) c ≡ true) cs.items) }
{
    let _bench = bench;
    let mut all = all;
    match all.push(op) {
        Ok(()) => Ok(all),
        Err(_) => Err(NoMem),
    }
}

/// These calls, as a job has them. They are refused as when memory runs out where one is on a mutex or a condition
/// variable that the bench hasn't.
fn calls_of(alloc: Global, bench: &Bench, calls: &[Op]) -> Result<Vec<Op>, NoMem>
    ensures { IfOk result (λ cs. All (λ c. is_in (layout_of bench.now) c ≡ true) cs.items) }
{
    let mut all = Vec::new(alloc);
    for call in calls {
        if !call.is_in(bench.words().layout()) {
            return Err(NoMem);
        }
        all = with_call(all, bench, *call)?;
    }
    Ok(all)
}

/// A job of these calls, whose thread dies before its access with that number, if there is one.
pub(crate) fn job(
    alloc: Global,
    bench: &Bench,
    pass: WorkerPass,
    calls: &[Op],
    die: Option<u32>,
) -> Result<Job, NoMem>
    requires { IsWorkerOf bench.now pass }
    ensures { IfOk result (λ j. IsJobOf bench.now j) }
{
    let calls = calls_of(alloc, bench, calls)?;
    Ok(Job { pass, calls, die })
}

/// A job with these calls for each pass, whose thread dies before its access with that number, if there is one.
pub(crate) fn jobs_of(
    alloc: Global,
    bench: &Bench,
    passes: Vec<Pass<Live>>,
    calls: &[Op],
    die: Option<u32>,
) -> Result<Vec<Job>, NoMem>
    requires { All (λ p. IsLive bench.now p) passes.items }
    ensures { IfOk result (λ jobs. All (λ j. IsJobOf bench.now j) jobs.items) }
{
    let mut jobs = Vec::new(alloc);
    for pass in passes {
        let one = job(alloc, bench, WorkerPass::Lives(pass), calls, die)?;
        match jobs.push(one) {
            Ok(()) => {}
            Err(_) => return Err(NoMem),
        }
    }
    Ok(jobs)
}

/// The records of jobs. Those that are given back are dropped.
pub(crate) fn work<R: Threads + Wait + Sync, G: Gate + Sync>(
    rt: &R,
    alloc: Global,
    bench: &Bench,
    jobs: Vec<Job>,
    gate: &G,
) -> Result<Vec<Record>, NoMem>
    requires { All (λ j. IsJobOf bench.now j) jobs.items }
    ensures { IfOk result (λ rs. AreDone bench.now (G.says gate.now) jobs.items rs.items) }
{
    match bench.work(rt, alloc, jobs, gate) {
        Ok(records) => Ok(records),
        Err((_, refused)) => Err(refused),
    }
}

/// The records of two jobs, whose workers begin at once.
fn both<R: Threads + Wait + Sync, G: Gate + Sync>(
    rt: &R,
    alloc: Global,
    bench: &Bench,
    first: Job,
    second: Job,
    gate: &G,
) -> Result<(Record, Record), NoMem>
    requires first { IsJobOf bench.now first }
    requires second { IsJobOf bench.now second }
    ensures { IfOk result
        (λ r. IsDone bench.now (G.says gate.now) first r.0 × IsDone bench.now (G.says gate.now) second r.1) }
{
    let Ok(jobs) = Vec::from_array(alloc, [first, second]) else {
        return Err(NoMem);
    };
    let mut records = work(rt, alloc, bench, jobs, gate)?;
    let second = records.pop().unwrap();
    let first = records.pop().unwrap();
    Ok((first, second))
}

/// A thread between two phases of work: its pass, what it got in the last one, and what is left of the
/// number of its access before which it dies.
pub(crate) fn fresh(alloc: Global, bench: &Bench, pass: Pass<Live>, die: Option<u32>) -> Record
    requires { IsLive bench.now pass }
    ensures { IsWorkerOf bench.now result.pass }
{
    let _bench = bench;
    Record {
        pass: WorkerPass::Lives(pass),
        replies: Vec::<Reply>::new(alloc),
        die,
    }
}

/// A phase in which two threads make these calls at once.
pub(crate) fn phase<R: Threads + Wait + Sync, G: Gate + Sync>(
    rt: &R,
    alloc: Global,
    bench: &Bench,
    first: Record,
    second: Record,
    calls: [&[Op]; 2],
    gate: &G,
) -> Result<(Record, Record), NoMem>
    requires first { IsWorkerOf bench.now first.pass }
    requires second { IsWorkerOf bench.now second.pass }
    ensures { IfOk result (λ r. IsWorkerOf bench.now r.0.pass × IsWorkerOf bench.now r.1.pass) }
{
    let [firsts, seconds] = calls;
    let mine = job(alloc, bench, first.pass, firsts, first.die)?;
    let other = job(alloc, bench, second.pass, seconds, second.die)?;
    let (one, two) = both(rt, alloc, bench, mine, other, gate)?;
    Ok((one, two))
}
