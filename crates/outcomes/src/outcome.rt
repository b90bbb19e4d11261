//! Outcomes: what is seen of a run that is over.

use lockword::Reply;
use posixmutex::Object;

/// How a thread ended.
#[derive(Clone, Copy, Debug, PartialEq, Eq)]
pub enum End {
    /// The thread has made its calls.
    Finished,
    /// The thread has more calls, of a phase that never comes.
    Waiting,
    /// The thread was killed.
    Dead,
    /// The thread sleeps on the mutex with this number.
    OnMutex(u16),
    /// The thread sleeps on the condition variable with this number.
    OnCondition(u16),
}

/// What became of a thread.
#[derive(Debug, PartialEq, Eq, Drop)]
pub struct Ended {
    /// What its calls returned, in order.
    pub replies: Vec<Reply>,
    pub end: End,
}

/// What is seen of a run that is over.
#[derive(Debug, PartialEq, Eq, Drop)]
pub struct Outcome {
    /// The threads, in the order of their ids.
    pub threads: Vec<Ended>,
    /// The mutexes, in the order of their numbers.
    pub mutexes: Vec<Object>,
}
