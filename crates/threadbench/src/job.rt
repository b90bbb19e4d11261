//! What a worker is given, and what it gives back.
use condvar::Op;
use lockword::Reply;
use ruledwords::{Live, Pass, Reaped, Spent};
use std::alloc::Global;

/// A worker's pass.
#[derive(Drop)]
pub enum WorkerPass {
    /// The thread lives.
    Lives(Pass<Live>),
    /// The thread died in a call, and its list was walked: it holds nothing, and makes no calls any more.
    Reaped(Pass<Reaped>),
}

/// A thread's pass, the calls that it makes, in their order, and when it dies.
#[derive(Drop)]
pub struct Job {
    /// A pass of the bench's words.
    pub pass: WorkerPass,
    /// On mutexes and condition variables of the bench's layout. A thread that has died makes none of them.
    pub calls: Vec<Op>,
    /// The thread dies before its access with this number, from 1, counted over all its calls: each wait, wake, requeue
    /// and trim section counts too. 0 is read as 1. One without a number lives, unless it is killed
    /// ([`Bench::kill`](crate::Bench::kill)).
    pub die: Option<u32>,
}

/// The pass after the calls of a job, and a reply for each that was answered: all of them, or those before the one that
/// the gate refused or in which the thread died.
#[derive(Drop)]
pub struct Record {
    /// As the calls left it.
    pub pass: WorkerPass,
    /// In the order of the calls.
    pub replies: Vec<Reply>,
    /// What is left of the job's number: before which of its further accesses the thread dies. None where it had none,
    /// and where the thread has died.
    pub die: Option<u32>,
}

impl Job {
    ghost use Rattle.std.specs.Prelude.{◌≡◌, ℕ, Bool, Option, false};
    ghost use Rattle.condvar.specs.declared.op.Op.{Op};
    ghost use Rattle.ruledwords.specs.declared.pass.Words.{Words};
    ghost use Rattle.threadbench.specs.Jobs.{HasNoWork, IsDone, IsJobOf};

    /// Whether its thread lives and has a call to make.
    pub(crate) fn has_work(&self) -> bool
        ensures { result ≡ false → HasNoWork self.now.pass self.now.calls.items }
    {
        match self.pass {
            WorkerPass::Lives(_) => !self.calls.is_empty(),
            WorkerPass::Reaped(_) => false,
        }
    }

    /// The record, where it has no work.
    pub(crate) fn unworked(self, alloc: Global) -> Record
        requires { HasNoWork self.pass self.calls.items }
        ensures { (w : Words) (says : ℕ → ℕ → Op → Option Bool) → IsJobOf w self → IsDone w says self result }
    {
        let Job {
            pass,
            calls: _,
            die,
        } = self;
        let replies = Vec::new(alloc);
        match pass {
            WorkerPass::Lives(_) => Record { pass, replies, die },
            WorkerPass::Reaped(_) => Record {
                pass,
                replies,
                die: None,
            },
        }
    }
}

impl WorkerPass {
    ghost use Rattle.std.specs.Prelude.{◌≡◌};
    ghost use Rattle.ruledwords.specs.Passes.{card, IsPassOf};
    ghost use Rattle.ruledwords.specs.declared.pass.Words.{Words};
    ghost use Rattle.threadbench.specs.Answered.{card_in, IsWorkerOf};

    /// The pass, put aside for the bench's end ([`Bench::close_all`](crate::Bench::close_all)).
    pub fn spent(self) -> Pass<Spent>
        ensures card { card result ≡ card_in self }
        ensures words { (w : Words) → IsWorkerOf w self → IsPassOf w result }
    {
        match self {
            WorkerPass::Lives(pass) => pass.spent(),
            WorkerPass::Reaped(pass) => pass.spent(),
        }
    }
}
