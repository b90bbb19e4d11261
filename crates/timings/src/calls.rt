//! The calls of each thread.
ghost use Rattle.std.specs.Prelude.{◌≡◌, true, All, IfOk};
ghost use Rattle.condvar.specs.Ops.{is_in};
ghost use Rattle.ruledwords.specs.Passes.{layout_of};

use crate::load::{Case, Load};
use condvar::{CondCall, Op};
use mutex::Call;
use std::alloc::{AllocError, Global};
use threadbench::Bench;

/// These calls and one more, if it is on what the bench has.
fn with_call(calls: Vec<Op>, bench: &Bench, op: Op) -> Result<Vec<Op>, AllocError>
    requires { All (λ c. is_in (layout_of bench.now) c ≡ true) calls.items }
    ensures { IfOk result (λ cs. All (λ c. is_in (layout_of bench.now) c ≡ true) cs.items) }
{
    let mut calls = calls;
    if op.is_in(bench.words().layout()) {
        calls.push(op)?;
    }
    Ok(calls)
}

/// These calls, and others once more.
fn with_all(calls: Vec<Op>, bench: &Bench, more: &[Op]) -> Result<Vec<Op>, AllocError>
    requires { All (λ c. is_in (layout_of bench.now) c ≡ true) calls.items }
    ensures { IfOk result (λ cs. All (λ c. is_in (layout_of bench.now) c ≡ true) cs.items) }
{
    let mut calls = calls;
    for op in more {
        calls = with_call(calls, bench, *op)?;
    }
    Ok(calls)
}

/// Some calls, others so often, and again some.
fn around(
    alloc: Global,
    bench: &Bench,
    first: &[Op],
    each: &[Op],
    rounds: u32,
    last: &[Op],
) -> Result<Vec<Op>, AllocError>
    ensures { IfOk result (λ cs. All (λ c. is_in (layout_of bench.now) c ≡ true) cs.items) }
{
    let mut calls = with_all(Vec::new(alloc), bench, first)?;
    for _round in 0..rounds {
        calls = with_all(calls, bench, each)?;
    }
    with_all(calls, bench, last)
}

fn lock(mutex: u16) -> Op {
    Op::OnMutex(Call::Lock(mutex))
}

fn unlock(mutex: u16) -> Op {
    Op::OnMutex(Call::Unlock(mutex))
}

fn signal(condition: u16) -> Op {
    Op::OnCondition(CondCall::Signal(condition))
}

fn wait(condition: u16) -> Op {
    Op::OnCondition(CondCall::Wait(condition))
}

/// The calls of the thread that comes this many after the first.
pub(crate) fn calls_for(
    alloc: Global,
    bench: &Bench,
    load: &Load,
    thread: u16,
) -> Result<Vec<Op>, AllocError>
    ensures { IfOk result (λ cs. All (λ c. is_in (layout_of bench.now) c ≡ true) cs.items) }
{
    let rounds = load.rounds();
    let is_first = thread == 0;
    match load.case {
        Case::One => around(alloc, bench, &[], &[lock(0), unlock(0)], rounds, &[]),
        Case::Own => {
            let pair = [lock(thread), unlock(thread)];
            around(alloc, bench, &[], &pair, rounds, &[])
        }
        // the first one's last signal lets the second one end
        Case::PingPong if is_first => {
            let each = [signal(1), wait(0)];
            around(
                alloc,
                bench,
                &[lock(0)],
                &each,
                rounds,
                &[signal(1), unlock(0)],
            )
        }
        Case::PingPong => {
            let each = [signal(0), wait(1)];
            around(alloc, bench, &[lock(0)], &each, rounds, &[unlock(0)])
        }
        Case::Broadcast if is_first => {
            let each = [lock(0), Op::OnCondition(CondCall::Broadcast(0)), unlock(0)];
            around(alloc, bench, &[], &each, rounds, &[])
        }
        Case::Broadcast => around(alloc, bench, &[lock(0)], &[wait(0)], rounds, &[unlock(0)]),
        Case::Death => {
            let all = [lock(0), Op::OnMutex(Call::Consistent(0)), unlock(0)];
            around(alloc, bench, &[], &all, rounds, &[])
        }
    }
}
