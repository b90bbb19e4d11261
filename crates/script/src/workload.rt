//! What real threads have to do.

use condvar::Op;
use lockword::Tid;

/// The calls of one thread in one phase, in the order of their lines. There is at least one.
#[derive(Drop)]
pub struct Job {
    /// The thread.
    pub thread: Tid,
    /// The calls, on mutexes and on condition variables.
    pub calls: Vec<Op>,
}

/// What real threads do at once: a job for each thread that has a call in this phase, in the order of the threads' ids.
#[derive(Drop)]
pub struct Phase {
    /// The jobs.
    pub jobs: Vec<Job>,
}

/// What a script asks of real threads, phase after phase. `phase` lines part the phases, so there is one phase more
/// than there are such lines; a phase may be empty.
#[derive(Drop)]
pub struct Jobs {
    /// The phases.
    pub phases: Vec<Phase>,
    /// For each thread, in the order of the threads' ids, the number in its `die` line: it dies before this access of
    /// its, from 1 to [`MAX_ACCESS`](crate::MAX_ACCESS), over all phases. None where it has no such line.
    pub dies: Vec<Option<u32>>,
}
