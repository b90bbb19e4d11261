//! Workers are set out: each in a thread of its own, in which it waits.
ghost use Rattle.std.specs.Prelude.{◌≡◌, ◌≤◌, [], false, All, length, map, vec_capacity, IfOk, IfErr, None};
ghost use Rattle.threadbench.specs.Ends.{IsMannedFor, HasLeft};
ghost use Rattle.threadbench.specs.Hands.{IsHandIn, MayBegin, IsStop, job_of};
ghost use Rattle.threadbench.specs.Jobs.{IsJobOf};

use crate::begins::tell;
use crate::gate::Gate;
use crate::hand::{Hand, Promised};
use crate::job::Job;
use crate::phase::Phase;
use crate::room::push_in_room;
use crate::worker::{End, Post, Worker};
use std::alloc::Global;
use std::snapshot::Snapshot;
use std::sync::{OnceToken, Wait};
use std::thread::{Promise, PromisedHandle, Scope, SpawnError, Threads};

/// Like [`Scope::spawn_with`], of a closure that may wait: the runtime says so of this call.
fn spawn<
    'a,
    E,
    R: Threads + Wait,
    G: Gate,
    P: Promise<T> + Drop,
    F: FnOnce() -> T + Send + 'a,
    T: Send + Drop + 'a,
>(
    _rt: &R,
    _gate: &G,
    scope: &Scope<'a, E>,
    promise: P,
    f: F,
) -> Result<PromisedHandle<T, P>, SpawnError<F>>
    requires runs { F.pre f }
    requires keeps { (r : _) → F.post f r → P.kept_by promise r }
    ensures there { IfOk result (λ h. h.promise ≡ promise) }
    ensures refused { IfErr result (λ e. e.value ≡ f) }
{
    scope.spawn_with(promise, f)
}

/// A thread in which a job's worker waits. Where it or its memory is refused, all workers are told not to begin,
/// and the job is given back.
fn start<'a, E, R: Threads + Wait + Sync, G: Gate + Sync>(
    rt: &'a R,
    alloc: Global,
    scope: &Scope<'a, E>,
    phase: &'a Phase<'a, G>,
    job: Job,
) -> Result<PromisedHandle<End<'a>, Promised<'a, G>>, (Job, OnceToken<'a, bool>)>
    requires { IsJobOf phase.now.bench.now job }
    ensures there { IfOk result (λ h. (h.promise.phase.now ≡ phase.now) × (h.promise.job.value ≡ job)) }
    ensures refused { IfErr result (λ e. (e.0 ≡ job) × (e.1.of ≡ phase.now.begins.now.id) × (e.1.value ≡ false)) }
{
    let worker = match Worker::new(alloc, job) {
        Ok(worker) => worker,
        Err(job) => return Err((job, tell(rt, phase.begins, false))),
    };
    let promised = Promised {
        phase,
        job: Snapshot::of(&worker.job),
    };
    let mut post = Post::Manned(worker);
    let run = move || -> End<'_>
        requires { IsMannedFor phase.now.bench.now post }
        ensures { HasLeft phase.entry.now.bench.now (G.says phase.entry.now.gate.now) phase.entry.now.begins.now.id
            post.entry result }
    { post.run(rt, phase) };
    match spawn(rt, phase.gate, scope, promised, run) {
        Ok(handle) => Ok(handle),
        Err(refused) => {
            let token = tell(rt, phase.begins, false);
            let mut run = refused.value;
            match run() {
                End::Kept(job, _) => Err((job, token)),
                End::Done(_, other) => {
                    token.agrees(&other);
                    unreachable!()
                }
            }
        }
    }
}

/// A hand for a job: a thread where it has calls to make, unless one was refused before.
fn set_out<'a, E, R: Threads + Wait + Sync, G: Gate + Sync>(
    rt: &'a R,
    alloc: Global,
    scope: &Scope<'a, E>,
    phase: &'a Phase<'a, G>,
    job: Job,
    stop: Option<OnceToken<'a, bool>>,
) -> (Hand<'a, G>, Option<OnceToken<'a, bool>>)
    requires job { IsJobOf phase.now.bench.now job }
    requires stop { IsStop phase.now.begins.now.id stop }
    ensures hand { IsHandIn phase.now result.0 }
    ensures job { job_of result.0 ≡ job }
    ensures stop { IsStop phase.now.begins.now.id result.1 }
    ensures begins { result.1 ≡ None → MayBegin result.0 × (stop.entry ≡ None) }
{
    if stop.is_some() || !job.has_work() {
        return (Hand::Idle(job), stop);
    }
    match start(rt, alloc, scope, phase, job) {
        Ok(handle) => (Hand::There(handle), None),
        Err((job, token)) => (Hand::Idle(job), Some(token)),
    }
}

/// A hand for each job. Where a thread or its memory was refused, workers were told not to begin.
pub(crate) fn set_all_out<'a, E, R: Threads + Wait + Sync, G: Gate + Sync>(
    rt: &'a R,
    alloc: Global,
    scope: &Scope<'a, E>,
    phase: &'a Phase<'a, G>,
    jobs: Vec<Job>,
    room: Vec<Hand<'a, G>>,
) -> (Vec<Hand<'a, G>>, Option<OnceToken<'a, bool>>)
    requires jobs { All (IsJobOf phase.now.bench.now) jobs.items }
    requires empty { room.items ≡ [] }
    requires room { length jobs.items ≤ vec_capacity room }
    ensures hands { All (IsHandIn phase.now) result.0.items }
    ensures jobs { map job_of result.0.items ≡ jobs.items }
    ensures stop { IsStop phase.now.begins.now.id result.1 }
    ensures begins { result.1 ≡ None → All MayBegin result.0.items }
{
    let mut hands = room;
    let mut stop = None;
    for job in jobs {
        let (hand, told) = set_out(rt, alloc, scope, phase, job, stop);
        push_in_room(&mut hands, hand);
        stop = told;
    }
    (hands, stop)
}
