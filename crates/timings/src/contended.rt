//! How long calls on a robust mutex and its condition variables take where several threads make them at once.

ghost use Rattle.std.specs.Prelude.{◌≡◌, All, IfOk};
ghost use Rattle.ruledwords.specs.Passes.{IsLive};
ghost use Rattle.threadbench.specs.Jobs.{IsJobOf};

use crate::calls::calls_for;
use crate::load::{Case, Load};
use crate::meets::Meets;
use lockword::Reply;
use memorymap::Layout;
use ruledwords::{Live, Pass};
use std::alloc::{AllocError, Global};
use std::io;
use std::sync::Wait;
use std::thread::Threads;
use std::time::{Clock, Duration, Instant};
use threadbench::{Bench, Gate, Job, Open, Record, WorkerPass};

/// The job of the thread that comes this many after the first.
fn job_for(
    alloc: Global,
    bench: &Bench,
    pass: Pass<Live>,
    load: &Load,
    thread: u16,
) -> Result<Job, AllocError>
    requires { IsLive bench.now pass }
    ensures { IfOk result (IsJobOf bench.now) }
{
    let calls = calls_for(alloc, bench, load, thread)?;
    Ok(Job {
        pass: WorkerPass::Lives(pass),
        calls,
        die: load.dies_before(),
    })
}

/// A job for each pass.
fn jobs_of(
    alloc: Global,
    bench: &Bench,
    passes: Vec<Pass<Live>>,
    load: &Load,
) -> Result<Vec<Job>, AllocError>
    requires { All (λ p. IsLive bench.now p) passes.items }
    ensures { IfOk result (λ jobs. All (IsJobOf bench.now) jobs.items) }
{
    let mut jobs = Vec::new(alloc);
    let mut thread = 0_u16;
    for pass in passes {
        let job = job_for(alloc, bench, pass, load, thread)?;
        jobs.push(job)?;
        thread = thread.wrapping_add(1);
    }
    Ok(jobs)
}

/// How many calls went well: were returned OK, or that the mutex's owner had died.
fn went_well(records: &[Record]) -> u64 {
    let mut well = 0_u64;
    for record in records {
        for reply in &record.replies {
            let is_well = matches!(*reply, Reply::OK | Reply::EOWNERDEAD);
            well = well.wrapping_add(u64::from(is_well));
        }
    }
    well
}

/// All jobs at once: how many calls went well; none where threads can't be had.
fn at_once<R: Threads + Wait + Sync, G: Gate + Sync>(
    rt: &R,
    alloc: Global,
    bench: &Bench,
    jobs: Vec<Job>,
    gate: &G,
) -> Option<u64>
    requires { All (IsJobOf bench.now) jobs.items }
{
    match bench.work(rt, alloc, jobs, gate) {
        Ok(records) => Some(went_well(records.as_slice())),
        Err(_) => None,
    }
}

/// The jobs one after the other.
fn by_turns<R: Threads + Wait + Sync>(
    rt: &R,
    alloc: Global,
    bench: &Bench,
    jobs: Vec<Job>,
) -> Option<u64>
    requires { All (IsJobOf bench.now) jobs.items }
{
    let mut well = 0_u64;
    for job in jobs {
        let Ok(one) = Vec::from_array(alloc, [job]) else {
            return None;
        };
        well = well.wrapping_add(at_once(rt, alloc, bench, one, &Open)?);
    }
    Some(well)
}

/// The load's calls: how many went well.
fn made<R: Threads + Wait + Sync>(
    rt: &R,
    alloc: Global,
    bench: &Bench,
    jobs: Vec<Job>,
    load: &Load,
) -> Option<u64>
    requires { All (IsJobOf bench.now) jobs.items }
{
    match load.case {
        Case::One | Case::Own => at_once(rt, alloc, bench, jobs, &Open),
        Case::PingPong | Case::Broadcast => {
            let gate = Meets::new(load);
            at_once(rt, alloc, bench, jobs, &gate)
        }
        Case::Death => by_turns(rt, alloc, bench, jobs),
    }
}

/// How long the load's calls took, and how many went well; none where memory or threads can't be had.
pub(crate) fn measure<R: Threads + Wait + Clock + Sync>(
    rt: &R,
    alloc: Global,
    load: &Load,
) -> io::Result<Option<(Duration, u64)>> {
    let Ok(layout) = Layout::new(load.threads, u16::from(load.threads), &[0, 0]) else {
        return Ok(None);
    };
    let Ok((bench, passes)) = Bench::new(alloc, layout, &[0, 0]) else {
        return Ok(None);
    };
    let Ok(jobs) = jobs_of(alloc, &bench, passes, load) else {
        return Ok(None);
    };
    let start = Instant::now(rt)?;
    let Some(well) = made(rt, alloc, &bench, jobs, load) else {
        return Ok(None);
    };
    let took = start.elapsed(rt)?;
    Ok(Some((took, well)))
}

/// Prints nanoseconds by the clock on the wall.
pub(crate) fn tell(rt: &HostRuntime, load: &Load, well: u64, took: Duration) -> io::Result<()> {
    let each = took.as_nanos() / u128::from(load.units().max(1));
    let threads = load.threads;
    let case = load.case.name();
    println!(rt; "{threads} {case}: {each} ns, {well} calls went well")
}
