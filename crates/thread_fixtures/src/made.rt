//! Calls, told by their replies.
ghost use Rattle.std.specs.Prelude.{IfSome};
ghost use Rattle.ruledwords.specs.Passes.{IsLive};
ghost use Rattle.thread_fixtures.specs.Outcomes.{IsOutcomeOf};

use crate::asked::Asked;
use condvar::{CondCall, Op};
use lockword::Reply;
use mutex::Call;
use ruledwords::{Fate, Live, Outcome, Pass, Released};
use std::sync::Wait;
use std::sync::atomic::AtomicU64;
use threadbench::Bench;

/// The pass and the reply of a thread whose call ended so. None where it died, whose list is walked then.
fn told<R: Wait>(rt: &R, bench: &Bench, outcome: Outcome) -> Option<(Pass<Live>, Reply)>
    requires { IsOutcomeOf bench.now outcome }
    ensures { IfSome result (λ r. IsLive bench.now r.0) }
{
    match outcome {
        Outcome::Lives(pass, reply) => Some((pass, reply)),
        Outcome::Dead(dead) => {
            let _pass = bench.exit(rt, dead);
            None
        }
    }
}

/// Makes a call, and tells its reply. None where its thread died in it, whose list is walked then. It gets EINVAL,
/// unmade, on what the bench hasn't.
pub fn makes<R: Wait, F: Fate>(
    rt: &R,
    bench: &Bench,
    pass: Pass<Live>,
    op: Op,
    fate: &mut F,
) -> Option<(Pass<Live>, Reply)>
    requires { IsLive bench.now pass }
    ensures { IfSome result (λ r. IsLive bench.now r.0) }
{
    let words = bench.words();
    let layout = words.layout();
    let mutexes = layout.mutexes();
    let conditions = layout.conditions();
    match op {
        Op::OnMutex(Call::Lock(mutex)) if mutex < mutexes => {
            told(rt, bench, bench.lock(rt, pass, mutex, fate))
        }
        Op::OnMutex(Call::TryLock(mutex)) if mutex < mutexes => {
            told(rt, bench, words.try_lock(pass, mutex, fate))
        }
        Op::OnMutex(Call::Unlock(mutex)) if mutex < mutexes => {
            match words.release(pass, mutex, fate) {
                Released::Owes(owed) => told(rt, bench, bench.pay(rt, owed, fate)),
                Released::Refused(pass, reply) => Some((pass, reply)),
                Released::Dead(dead) => told(rt, bench, Outcome::Dead(dead)),
            }
        }
        Op::OnMutex(Call::Consistent(mutex)) if mutex < mutexes => {
            told(rt, bench, words.consistent(pass, mutex, fate))
        }
        Op::OnCondition(CondCall::Wait(condition)) if condition < conditions => {
            told(rt, bench, bench.wait(rt, pass, condition, fate))
        }
        Op::OnCondition(CondCall::Signal(condition)) if condition < conditions => {
            told(rt, bench, bench.signal(rt, pass, condition, fate))
        }
        Op::OnCondition(CondCall::Broadcast(condition)) if condition < conditions => {
            told(rt, bench, bench.broadcast(rt, pass, condition, fate))
        }
        _ => Some((pass, Reply::EINVAL)),
    }
}

/// Makes a call whose thread dies where its fate is asked for the time with this number, from 1, a 0 never comes:
/// whether it died in it.
pub fn dies<R: Wait>(rt: &R, bench: &Bench, pass: Pass<Live>, op: Op, stops_at: u64) -> bool
    requires { IsLive bench.now pass }
{
    let count = AtomicU64::new(0);
    makes(rt, bench, pass, op, &mut Asked::new(&count, stops_at)).is_none()
}
