//! Where threads wait for one another before their calls.
ghost use Rattle.std.specs.Prelude.{None};

use crate::load::{Case, Load};
use condvar::{CondCall, Op};
use lockword::Tid;
use mutex::Call;
use std::sync::atomic::{AtomicU64, Ordering};
use std::thread;
use threadbench::{Gate, WorkerCall};

/// The second thread of a ping-pong begins once the first has the mutex; and a thread broadcasts once all others have
/// come to their next wait.
#[derive(Drop)]
pub(crate) struct Meets {
    others: u64,
    waits: bool,
    come: AtomicU64,
}

/// Waits until this many have come.
fn wait_for(come: &AtomicU64, count: u64) -> bool {
    for _ in 0..1_000_000_000_u64 {
        if come.load(Ordering::SeqCst) >= count {
            return true;
        }
        thread::yield_now();
    }
    false
}

impl Meets {
    pub(crate) fn new(load: &Load) -> Meets {
        Meets {
            others: u64::from(load.threads.saturating_sub(1)),
            waits: load.case == Case::Broadcast,
            come: AtomicU64::new(0),
        }
    }
}

impl Gate for Meets {
    ghost says = { λ g t i c. None };

    fn before(&self, thread: Tid, call: WorkerCall) -> bool {
        let is_first = thread.get() == 1;
        match call.op {
            // of a broadcast's three calls the first one
            Op::OnMutex(Call::Lock(_)) if is_first && self.waits => {
                let round = (call.number as u64) / 3 + 1;
                wait_for(&self.come, round.saturating_mul(self.others))
            }
            Op::OnCondition(CondCall::Wait(_)) if self.waits => {
                self.come.fetch_add(1, Ordering::SeqCst);
                true
            }
            Op::OnMutex(Call::Lock(_)) if !is_first && !self.waits => wait_for(&self.come, 1),
            _ => true,
        }
    }

    fn after(&self, thread: Tid, call: WorkerCall) {
        if !self.waits && thread.get() == 1 && call.number == 1 {
            self.come.store(1, Ordering::SeqCst);
        }
    }
}
