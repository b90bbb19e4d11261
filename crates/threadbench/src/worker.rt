//! Workers: a job, and what becomes of it.
ghost use Rattle.std.specs.Prelude.{◌≡◌, ◌≤◌, [], length, vec_capacity, IfOk, IfErr};

use crate::begins::told;
use crate::calls::make;
use crate::gate::Gate;
use crate::job::{Job, Record};
use crate::phase::Phase;
use lockword::Reply;
use std::alloc::Global;
use std::mem;
use std::sync::{OnceToken, Wait};

/// A job, and room for its replies.
#[derive(Drop)]
pub(crate) struct Worker {
    pub(crate) job: Job,
    pub(crate) room: Vec<Reply>,
    pub ghost empty: { room.items ≡ [] },
    pub ghost enough: { length job.calls.items ≤ vec_capacity room },
}

/// A worker, until it has run. (A closure that gives away what it holds can't promise anything yet, so its thread takes
/// the worker out of this.)
#[derive(Drop)]
pub(crate) enum Post {
    Manned(Worker),
    Left,
}

/// What becomes of a worker's job. The token shows what the worker was told.
#[derive(Drop)]
pub(crate) enum End<'a> {
    /// The worker began, and made its calls.
    Done(Record, OnceToken<'a, bool>),
    /// It didn't: the job is as it was.
    Kept(Job, OnceToken<'a, bool>),
}

impl Worker {
    ghost use Rattle.threadbench.specs.Ends.{HasEnded};
    ghost use Rattle.threadbench.specs.Jobs.{IsJobOf};

    /// Gives the job back where memory is refused.
    pub(crate) fn new(alloc: Global, job: Job) -> Result<Worker, Job>
        ensures worker { IfOk result (λ w. w.job ≡ job) }
        ensures refused { IfErr result (λ j. j ≡ job) }
    {
        match Vec::with_capacity(alloc, job.calls.len()) {
            Ok(room) => Ok(Worker { job, room }),
            Err(_) => Err(job),
        }
    }

    /// Waits until it learns whether, and makes its calls if it is told to begin.
    pub(crate) fn run<'a, R: Wait, G: Gate>(self, rt: &R, phase: &Phase<'a, G>) -> End<'a>
        requires { IsJobOf phase.now.bench.now self.job }
        ensures { HasEnded phase.now.bench.now (G.says phase.now.gate.now) phase.now.begins.now.id self.job result }
    {
        let Worker { job, room } = self;
        let token = told(rt, phase.begins);
        if *phase.begins.value(&token) {
            End::Done(make(rt, phase.bench, phase.gate, job, room), token)
        } else {
            End::Kept(job, token)
        }
    }
}

impl Post {
    ghost use Rattle.threadbench.specs.Ends.{IsMannedFor, HasLeft};

    /// Lets the worker run.
    pub(crate) fn run<'a, R: Wait, G: Gate>(&mut self, rt: &R, phase: &Phase<'a, G>) -> End<'a>
        requires { IsMannedFor phase.now.bench.now self.old }
        ensures { HasLeft phase.now.bench.now (G.says phase.now.gate.now) phase.now.begins.now.id self.old result }
    {
        match mem::replace(self, Post::Left) {
            Post::Manned(worker) => worker.run(rt, phase),
            Post::Left => unreachable!(),
        }
    }
}
