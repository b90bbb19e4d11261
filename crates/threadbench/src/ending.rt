//! What becomes of each job once its worker was told to begin, or not to.
ghost use Rattle.std.specs.Prelude.{◌≡◌, ◌≤◌, [], true, false, All, length, map, vec_capacity};
ghost use Rattle.threadbench.specs.Hands.{IsHandIn, MayBegin, job_of};
ghost use Rattle.threadbench.specs.Jobs.{IsJobOf, IsDone, AreDone};

use crate::begins::tell;
use crate::gate::Gate;
use crate::hand::Hand;
use crate::job::{Job, Record};
use crate::phase::Phase;
use crate::room::push_in_room;
use crate::worker::End;
use std::alloc::Global;
use std::sync::{OnceToken, Wait};
use std::thread::Threads;

impl<'a, G: Gate> Hand<'a, G> {
    /// The record of a job, where workers begin.
    fn done<R: Threads>(
        self,
        rt: &R,
        alloc: Global,
        phase: &Phase<'a, G>,
        told: &OnceToken<'a, bool>,
    ) -> Record
        requires told { (told.now.of ≡ phase.now.begins.now.id) × (told.now.value ≡ true) }
        requires job { IsJobOf phase.now.bench.now (job_of self) }
        requires hand { IsHandIn phase.now self }
        requires begins { MayBegin self }
        ensures { IsDone phase.now.bench.now (G.says phase.now.gate.now) (job_of self.entry) result }
    {
        match self {
            Hand::There(handle) => match handle.join(rt) {
                End::Done(record, _) => record,
                End::Kept(_, other) => {
                    let _phase = phase;
                    told.agrees(&other);
                    unreachable!()
                }
            },
            Hand::Idle(job) => job.unworked(alloc),
        }
    }

    /// The job as it was, where workers don't begin.
    fn kept<R: Threads>(self, rt: &R, phase: &Phase<'a, G>, told: &OnceToken<'a, bool>) -> Job
        requires told { (told.now.of ≡ phase.now.begins.now.id) × (told.now.value ≡ false) }
        requires hand { IsHandIn phase.now self }
        ensures { result ≡ job_of self.entry }
    {
        match self {
            Hand::There(handle) => match handle.join(rt) {
                End::Kept(job, _) => job,
                End::Done(_, other) => {
                    let _phase = phase;
                    told.agrees(&other);
                    unreachable!()
                }
            },
            Hand::Idle(job) => job,
        }
    }
}

/// Tells workers to begin, and gives the records of all jobs. Nothing else tells them so; and whoever has these hands
/// has a thread for each job with calls to make.
pub(crate) fn records_of<'a, R: Threads + Wait, G: Gate>(
    rt: &R,
    alloc: Global,
    phase: &Phase<'a, G>,
    hands: Vec<Hand<'a, G>>,
    room: Vec<Record>,
) -> Vec<Record>
    requires jobs { All (λ h. IsJobOf phase.now.bench.now (job_of h)) hands.items }
    requires hands { All (IsHandIn phase.now) hands.items }
    requires begins { All MayBegin hands.items }
    requires empty { room.items ≡ [] }
    requires room { length hands.items ≤ vec_capacity room }
    ensures { AreDone phase.now.bench.now (G.says phase.now.gate.now) (map job_of hands.entry.items) result.items }
{
    let told = tell(rt, phase.begins, true);
    let mut records = room;
    for hand in hands {
        push_in_room(&mut records, hand.done(rt, alloc, phase, &told));
    }
    records
}

/// All jobs as they were, where workers don't begin.
pub(crate) fn jobs_in<'a, R: Threads, G: Gate>(
    rt: &R,
    phase: &Phase<'a, G>,
    told: &OnceToken<'a, bool>,
    hands: Vec<Hand<'a, G>>,
    room: Vec<Job>,
) -> Vec<Job>
    requires told { (told.now.of ≡ phase.now.begins.now.id) × (told.now.value ≡ false) }
    requires hands { All (IsHandIn phase.now) hands.items }
    requires empty { room.items ≡ [] }
    requires room { length hands.items ≤ vec_capacity room }
    ensures { result.items ≡ map job_of hands.entry.items }
{
    let mut jobs = room;
    for hand in hands {
        push_in_room(&mut jobs, hand.kept(rt, phase, told));
    }
    jobs
}
