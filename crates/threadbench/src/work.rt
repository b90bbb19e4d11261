//! A phase, from its jobs to their records.
ghost use Rattle.std.specs.Prelude.{◌≡◌, All, IfOk, IfErr};
ghost use Rattle.threadbench.specs.Jobs.{IsJobOf, AreDone};

use crate::ending::{jobs_in, records_of};
use crate::gate::Gate;
use crate::job::{Job, Record};
use crate::phase::Phase;
use crate::starting::set_all_out;
use memorymap::NoMem;
use std::alloc::Global;
use std::mem;
use std::sync::Wait;
use std::thread::{self, Scope, Threads};

/// Runs a worker for each job that has calls, all at once, and gives their records. Where memory or a thread is
/// refused, the jobs are given back as they were.
fn work_at_once<'a, E, R: Threads + Wait + Sync, G: Gate + Sync>(
    rt: &'a R,
    alloc: Global,
    scope: &Scope<'a, E>,
    phase: &'a Phase<'a, G>,
    jobs: Vec<Job>,
) -> Result<Vec<Record>, (Vec<Job>, NoMem)>
    requires { All (IsJobOf phase.now.bench.now) jobs.items }
    ensures done { IfOk result (λ rs. AreDone phase.now.bench.now (G.says phase.now.gate.now) jobs.items rs.items) }
    ensures refused { IfErr result (λ e. e.0.items ≡ jobs.items) }
{
    let count = jobs.len();
    let Ok(hands) = Vec::with_capacity(alloc, count) else {
        return Err((jobs, NoMem));
    };
    let Ok(records) = Vec::with_capacity(alloc, count) else {
        return Err((jobs, NoMem));
    };
    let Ok(kept) = Vec::with_capacity(alloc, count) else {
        return Err((jobs, NoMem));
    };
    let (hands, stop) = set_all_out(rt, alloc, scope, phase, jobs, hands);
    match stop {
        None => Ok(records_of(rt, alloc, phase, hands, records)),
        Some(told) => Err((jobs_in(rt, phase, &told, hands, kept), NoMem)),
    }
}

/// The same for jobs that are taken out of a list. (A closure that gives away what it holds can't tell what came of it
/// yet.)
pub(crate) fn work_on<'a, E, R: Threads + Wait + Sync, G: Gate + Sync>(
    rt: &'a R,
    alloc: Global,
    scope: &Scope<'a, E>,
    phase: &'a Phase<'a, G>,
    jobs: &mut Vec<Job>,
) -> Result<Vec<Record>, (Vec<Job>, NoMem)>
    requires { All (IsJobOf phase.now.bench.now) jobs.old.items }
    ensures done { IfOk result (λ rs. AreDone phase.now.bench.now (G.says phase.now.gate.now) jobs.old.items rs.items) }
    ensures refused { IfErr result (λ e. e.0.items ≡ jobs.old.items) }
{
    let all = mem::replace(jobs, Vec::new(alloc));
    work_at_once(rt, alloc, scope, phase, all)
}

/// Like [`thread::scope`], of a closure that may wait as its gate does.
pub(crate) fn in_scope<
    'e,
    R: Threads + Wait,
    G: Gate,
    F: for<'s> FnOnce(&'s Scope<'s, &'e ()>) -> T,
    T,
>(rt: &R, _gate: &G, f: F) -> T
    requires { F.IsAlwaysCallable f }
    ensures { (s : _) × F.post f s result }
{
    thread::scope(thread::scope_env(), rt, f)
}
