//! Jobs that were handed to a worker's thread, and the promise how each ends.
use crate::gate::Gate;
use crate::job::Job;
use crate::phase::Phase;
use crate::worker::End;
use std::snapshot::Snapshot;
use std::thread::{Promise, PromisedHandle};

/// What a worker's thread promises: how its job ends.
pub(crate) struct Promised<'a, G> {
    pub(crate) phase: &'a Phase<'a, G>,
    pub(crate) job: Snapshot<Job>,
}

impl<'a, G> Drop for Promised<'a, G> {
    fn drop(self) {
        let Self { phase: _, job: _ } = self;
    }
}

impl<'a, G: Gate> Promise<End<'a>> for Promised<'a, G> {
    ghost use Rattle.threadbench.specs.Ends.{HasEnded};

    ghost kept_by = { λ p e. HasEnded p.phase.now.bench.now (G.says p.phase.now.gate.now) p.phase.now.begins.now.id
        p.job.value e };
}

/// A job in the hands of a thread, or of none.
#[derive(Drop)]
pub(crate) enum Hand<'a, G: Gate> {
    /// The worker waits in a thread of its own.
    There(PromisedHandle<End<'a>, Promised<'a, G>>),
    /// The hand has no worker: it has no calls to make, or workers don't begin.
    Idle(Job),
}
