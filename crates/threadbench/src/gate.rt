//! What workers ask before and after their calls.
ghost use Rattle.std.specs.Prelude.{◌≡◌, ℕ, Bool, true, Option, Some};
ghost use Rattle.condvar.specs.declared.op.Op.{Op};

use condvar::Op;
use lockword::Tid;

/// One of a worker's calls.
#[derive(Clone, Copy, Debug, PartialEq, Eq)]
pub struct WorkerCall {
    /// The number among the worker's calls, from 1.
    pub number: usize,
    /// What is called.
    pub op: Op,
}

/// Is asked around each call of a worker, and told the worker's thread and the call.
pub trait Gate {
    /// What it says for certain of a thread's call with this number, of those calls of which that is known.
    ghost says: { Self → ℕ → ℕ → Op → Option Bool };

    /// Whether the worker makes the call. One that gets false stops, and makes none of its further calls
    /// either.
    fn before(&self, thread: Tid, call: WorkerCall) -> bool
        ensures { (b : Bool) → says self.now thread call.number call.op ≡ Some b → result ≡ b };

    /// Tells that the call has ended: it was answered, or its thread died in it and its list was walked.
    fn after(&self, thread: Tid, call: WorkerCall);
}

/// The gate that lets every call through.
#[derive(Clone, Copy, Debug, PartialEq, Eq)]
pub struct Open;

impl Gate for Open {
    ghost says = { λ g t i c. Some true };

    fn before(&self, _thread: Tid, _call: WorkerCall) -> bool {
        true
    }

    fn after(&self, _thread: Tid, _call: WorkerCall) {}
}
