//! Many threads, whose mutexes' sleepers all are in one bucket: so a section often waits for the bucket's lock, and
//! what it saw before it had that is old.
ghost use Rattle.std.specs.Prelude.{true, All, IfOk};
ghost use Rattle.condvar.specs.Ops.{is_in};
ghost use Rattle.ruledwords.specs.Passes.{layout_of, IsLive};
ghost use Rattle.threadbench.specs.Jobs.{IsJobOf};

use crate::jobs::{job, work};
use condvar::Op::{self, OnMutex};
use lockword::Reply::OK;
use memorymap::{Layout, NoMem};
use mutex::Call::{Lock, Unlock};
use ruledwords::{Live, Pass};
use std::alloc::Global;
use std::test::Fail;
use threadbench::{Bench, Job, Open, Record, WorkerPass};

/// How many mutexes there are between two whose sleepers are in one bucket.
const APART: u16 = 256;

/// How many pairs of threads there are, each with a mutex of its own.
const PAIRS: u8 = 16;

/// How often each thread locks and unlocks its pair's mutex.
const ROUNDS: usize = 200;

/// The calls of a thread that locks and unlocks a mutex again and again.
fn rounds(alloc: Global, mutex: u16) -> Result<Vec<Op>, NoMem> {
    let mut calls = Vec::new(alloc);
    for _ in 0..ROUNDS {
        for call in [Lock(mutex), Unlock(mutex)] {
            match calls.push(OnMutex(call)) {
                Ok(()) => {}
                Err(_) => return Err(NoMem),
            }
        }
    }
    Ok(calls)
}

/// A job for each pass: two threads each have a mutex of their own.
fn jobs_in_pairs(alloc: Global, bench: &Bench, passes: Vec<Pass<Live>>) -> Result<Vec<Job>, NoMem>
    requires { All (λ p. IsLive bench.now p) passes.items }
    ensures { IfOk result (λ jobs. All (λ j. IsJobOf bench.now j) jobs.items) }
{
    let mut jobs = Vec::new(alloc);
    let mut count: u16 = 0;
    for pass in passes {
        let calls = rounds(alloc, (count / 2).wrapping_mul(APART))?;
        count = count.wrapping_add(1);
        let one = job(
            alloc,
            bench,
            WorkerPass::Lives(pass),
            calls.as_slice(),
            None,
        )?;
        match jobs.push(one) {
            Ok(()) => {}
            Err(_) => return Err(NoMem),
        }
    }
    Ok(jobs)
}

/// Whether a worker got OK of all its calls.
fn is_well(record: &Record) -> bool {
    record.replies.len() == 2 * ROUNDS && record.replies.iter().all(|reply| *reply == OK)
}

/// Where a thread fell asleep by a word that it had loaded before it had the bucket's lock, its partner would have
/// woken nobody in between, and it would sleep forever.
#[test]
fn pairs_in_one_bucket_lose_nobody(rt: HostRuntime) -> Result<(), Fail> {
    let layout = Layout::new(2 * PAIRS, u16::from(PAIRS - 1) * APART + 1, &[])?;
    let (bench, passes) = Bench::new(rt.alloc(), layout, &[])?;
    let jobs = jobs_in_pairs(rt.alloc(), &bench, passes)?;
    let records = work(&rt, rt.alloc(), &bench, jobs, &Open)?;
    assert!(rt; records.len() == 2 * usize::from(PAIRS));
    assert!(rt; records.iter().all(is_well));
    Ok(())
}
