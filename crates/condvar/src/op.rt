//! Calls of both kinds.
ghost use Rattle.std.specs.Prelude.{◌≡◌, true};
ghost use Rattle.condvar.specs.Ops.{condition_of, is_in, may_call, mutex_of, operation_of, reply_of};

use crate::call::{CondCall, Limit};
use lockword::Reply;
use memorymap::Layout;
use mutex::Call;
use posixmutex::Operation;

/// What a thread may call.
#[derive(Clone, Copy, Debug, PartialEq, Eq)]
pub enum Op {
    OnMutex(Call),
    OnCondition(CondCall),
}

impl Op {
    /// Whether the mutex or the condition variable that it names is one of the layout's.
    pub fn is_in(self, layout: &Layout) -> bool
        ensures { result ≡ is_in layout.now self }
    {
        match self {
            Op::OnMutex(call) => call.mutex() < layout.mutexes(),
            Op::OnCondition(call) => call.condition() < layout.conditions(),
        }
    }

    /// Whether a thread may call so: it names what is the layout's, and its time limit, if it has one, is still to come.
    pub fn may_begin(self, layout: &Layout) -> bool
        ensures { result ≡ may_call layout.now self }
    {
        let is_late = matches!(self, Op::OnCondition(CondCall::TimedWait(_, Limit::Past)));
        self.is_in(layout) && !is_late
    }

    /// What it is called among the operations on its mutex.
    pub fn operation(self) -> Operation
        ensures { result ≡ operation_of self }
    {
        match self {
            Op::OnMutex(call) => call.operation(),
            Op::OnCondition(call) => call.operation(),
        }
    }

    /// The number of its mutex: on a condition variable, of the one that the layout gives this.
    pub fn mutex(self, layout: &Layout) -> u16
        requires { is_in layout.now self ≡ true }
        ensures { result ≡ mutex_of layout.now self }
    {
        match self {
            Op::OnMutex(call) => call.mutex(),
            Op::OnCondition(call) => layout.mutex_of_condition(call.condition()),
        }
    }

    /// What the call returns whose accesses came to that reply: one that is out of time returns `ETIMEDOUT` for `OK`.
    pub fn reply(self, reply: Reply) -> Reply
        ensures { result ≡ reply_of self reply }
    {
        match self {
            Op::OnMutex(_) => reply,
            Op::OnCondition(call) => call.reply(reply),
        }
    }

    /// The number of its condition variable, if it is on one.
    pub fn condition(self) -> Option<u16>
        ensures { result ≡ condition_of self }
    {
        match self {
            Op::OnMutex(_) => None,
            Op::OnCondition(call) => Some(call.condition()),
        }
    }
}
