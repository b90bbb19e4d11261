//! Calls in progress, on mutexes and condition variables: which access comes next, and where its answer leads.
ghost use Rattle.std.specs.Prelude.{◌≡◌};
ghost use Rattle.interleave.specs.Calls.{access_of, op_of, progress_behind, queue_in, stage_behind, IsGoing};

use crate::threads::{replied, stage_after, stage_at};
use condvar::{CondCall, CondProgram, Op};
use facts::Queue;
use mutex::Program;
use protocol::Stage;
use stepprograms::{Access, Answer, Progress, StepProgram};

/// A call that hasn't returned, with the program that makes its accesses.
#[derive(Clone, Copy)]
pub(crate) enum InCall {
    /// At a mutex: a call on it, or a wait in the lock that ends it.
    Calling(Op, Program),
    /// At a condition variable.
    AtCondition(CondCall, CondProgram),
}

impl InCall {
    /// What its thread called.
    pub(crate) fn op(&self) -> Op
        ensures { result ≡ op_of self.now }
    {
        match *self {
            InCall::Calling(op, _) => op,
            InCall::AtCondition(call, _) => Op::OnCondition(call),
        }
    }

    /// The queue that its thread comes to be in if it falls asleep. The mutex is the call's.
    pub(crate) fn queue(&self, mutex: u16) -> Queue
        ensures { result ≡ queue_in mutex self.now }
    {
        match *self {
            InCall::Calling(_, _) => Queue::Mutex(mutex),
            InCall::AtCondition(call, _) => Queue::Condition(call.condition()),
        }
    }

    /// The access that comes next.
    pub(crate) fn next(&self) -> Access
        requires { IsGoing self.now }
        ensures { result ≡ access_of self.now }
    {
        match self {
            InCall::Calling(_, program) => program.next(),
            InCall::AtCondition(_, program) => program.next(),
        }
    }

    /// Where its thread stands after that access's answer, and how far this brought the call.
    pub(crate) fn resume(&self, answer: Answer) -> (Stage, Progress)
        requires { IsGoing self.now }
        ensures stage { result.0 ≡ stage_behind self.now answer }
        ensures progress { result.1 ≡ progress_behind self.now answer }
    {
        match *self {
            InCall::Calling(op, program) => {
                let mut program = program;
                let progress = replied(op, program.resume(answer));
                (stage_after(op, &program, &progress), progress)
            }
            InCall::AtCondition(call, program) => {
                let mut program = program;
                let progress = program.resume(answer);
                (stage_at(call, &program, &progress), progress)
            }
        }
    }
}
