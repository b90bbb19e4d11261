//! Threads whose passes meet between two phases.
ghost use Rattle.std.specs.Prelude.{◌≡◌, All, length, map, IfOk};
ghost use Rattle.threadbench.specs.Answered.{IsWorkerOf};
ghost use Rattle.report.specs.Meetings.{as_either, as_worker, HaveMet};

use crate::threads::Worker;
use ruledwords::{EitherPass, Live, Reaped};
use std::alloc::{AllocError, Global};
use threadbench::{Bench, WorkerPass};

/// A worker's pass as one of two kinds.
fn either_of(pass: WorkerPass) -> EitherPass<Live, Reaped>
    ensures { result ≡ as_either pass }
{
    match pass {
        WorkerPass::Lives(pass) => EitherPass::First(pass),
        WorkerPass::Reaped(pass) => EitherPass::Second(pass),
    }
}

/// And back.
fn worker_pass(pass: EitherPass<Live, Reaped>) -> WorkerPass
    ensures { result ≡ as_worker pass }
{
    match pass {
        EitherPass::First(pass) => WorkerPass::Lives(pass),
        EitherPass::Second(pass) => WorkerPass::Reaped(pass),
    }
}

/// Each thread's number.
fn numbers_of(alloc: Global, workers: &[Worker]) -> Result<Vec<Option<u32>>, AllocError>
    ensures { IfOk result (λ dies. dies.items ≡ map (λ v. v.die) workers.now) }
{
    let mut dies = Vec::new(alloc);
    for worker in workers {
        dies.push(worker.die)?;
    }
    Ok(dies)
}

/// The passes alone.
fn passes_of(
    alloc: Global,
    workers: Vec<Worker>,
) -> Result<Vec<EitherPass<Live, Reaped>>, AllocError>
    ensures { IfOk result (λ passes. passes.items ≡ map (λ v. as_either v.pass) workers.items) }
{
    let mut passes = Vec::new(alloc);
    for worker in workers {
        passes.push(either_of(worker.pass))?;
    }
    Ok(passes)
}

/// Threads with these passes and these numbers.
fn workers_with(
    alloc: Global,
    passes: Vec<EitherPass<Live, Reaped>>,
    dies: &[Option<u32>],
) -> Result<Vec<Worker>, AllocError>
    requires { length dies.now ≡ length passes.items }
    ensures passes { IfOk result (λ workers. map (λ v. v.pass) workers.items ≡ map as_worker passes.items) }
    ensures numbers { IfOk result (λ workers. map (λ v. v.die) workers.items ≡ dies.now) }
{
    let mut workers = Vec::new(alloc);
    for pass in passes {
        let die = dies[workers.len()];
        workers.push(Worker {
            pass: worker_pass(pass),
            die,
        })?;
    }
    Ok(workers)
}

/// Lets the passes of all threads meet.
pub(crate) fn meet(
    alloc: Global,
    bench: &Bench,
    workers: Vec<Worker>,
) -> Result<Vec<Worker>, AllocError>
    requires { All (λ v. IsWorkerOf bench.now v.pass) workers.items }
    ensures { IfOk result (λ met. HaveMet bench.now workers.items met.items) }
{
    let dies = numbers_of(alloc, workers.as_slice())?;
    let passes = passes_of(alloc, workers)?;
    let met = bench.words().meet_all(alloc, passes)?;
    workers_with(alloc, met, dies.as_slice())
}
