//! The calls of a job, one after the other.
ghost use Rattle.std.specs.Prelude.{◌≡◌, ◌+◌, ◌<◌, ◌≤◌, true, [], All, length, vec_capacity};
ghost use Rattle.condvar.specs.declared.op.Op.TheVariants.{OnMutex as OnMutexOf};
ghost use Rattle.condvar.specs.Ops.{is_in};
ghost use Rattle.mutex.specs.Calls.{mutex_of};
ghost use Rattle.mutex.specs.declared.call.Call.TheVariants.{Unlock as UnlockOf};
ghost use Rattle.ruledwords.specs.Passes.{card, layout_of, IsLive};
ghost use Rattle.threadbench.specs.Answered.{CallEnds, IsHeededIn};
ghost use Rattle.threadbench.specs.Calls.{IsHeeded};
ghost use Rattle.threadbench.specs.Jobs.{IsJobOf, IsDone, IsLeftOf, Worked};

use crate::bench::Bench;
use crate::countdown::Countdown;
use crate::gate::{Gate, WorkerCall};
use crate::job::{Job, Record, WorkerPass};
use crate::room::push_in_room;
use condvar::Op;
use lockword::Reply;
use mutex::Call;
use ruledwords::{Fate, Live, Never, Outcome, Pass, Running, Straight};
use std::sync::Wait;

#[inline(always)]
fn unlock<R: Wait, F: Fate>(
    rt: &R,
    bench: &Bench,
    pass: Pass<Live>,
    mutex: u16,
    fate: &mut F,
) -> Outcome
    requires pass { IsLive bench.now pass }
    requires mutex { mutex < (layout_of bench.now).mutexes }
    ensures ends { CallEnds bench.now pass (OnMutexOf (UnlockOf mutex)) result }
    ensures fate { IsHeeded (F.stopped fate.old) (F.stopped fate.new) result }
{
    let mut note = bench.note(pass.thread()).fate();
    match Running::unlock(bench.words(), pass, mutex, fate, &mut note) {
        Straight::Crossed(crossing) => bench.run_crossed(rt, crossing, fate),
        Straight::Lives(pass, reply) => Outcome::Lives(pass, reply),
        Straight::Dead(pass) => Outcome::Dead(pass),
    }
}

fn answer_on_mutex<R: Wait, F: Fate>(
    rt: &R,
    bench: &Bench,
    pass: Pass<Live>,
    call: Call,
    fate: &mut F,
) -> Outcome
    requires pass { IsLive bench.now pass }
    requires mutex { mutex_of call < (layout_of bench.now).mutexes }
    ensures ends { CallEnds bench.now pass (OnMutexOf call) result }
    ensures fate { IsHeeded (F.stopped fate.old) (F.stopped fate.new) result }
{
    match call {
        Call::Unlock(mutex) => unlock(rt, bench, pass, mutex, fate),
        Call::Lock(mutex) => bench.lock(rt, pass, mutex, fate),
        // No time limit comes to these threads.
        Call::TimedLock(mutex) => bench.lock(rt, pass, mutex, fate),
        Call::TryLock(mutex) => bench.words().try_lock(pass, mutex, fate),
        Call::Consistent(mutex) => bench.words().consistent(pass, mutex, fate),
    }
}

fn answer<R: Wait, F: Fate>(
    rt: &R,
    bench: &Bench,
    pass: Pass<Live>,
    op: Op,
    fate: &mut F,
) -> Outcome
    requires pass { IsLive bench.now pass }
    requires inside { is_in (layout_of bench.now) op ≡ true }
    ensures ends { CallEnds bench.now pass op result }
    ensures fate { IsHeeded (F.stopped fate.old) (F.stopped fate.new) result }
{
    match op {
        Op::OnMutex(call) => answer_on_mutex(rt, bench, pass, call, fate),
        Op::OnCondition(call) => bench.run_condition(rt, pass, call, fate),
    }
}

/// Makes calls one after the other, as far as the gate lets the thread and it lives. Where it dies its list is walked.
/// There is room for the replies.
fn make_calls<R: Wait, G: Gate, F: Fate>(
    rt: &R,
    bench: &Bench,
    gate: &G,
    pass: Pass<Live>,
    calls: &[Op],
    room: Vec<Reply>,
    fate: &mut F,
) -> (WorkerPass, Vec<Reply>)
    requires pass { IsLive bench.now pass }
    requires inside { All (λ c. is_in (layout_of bench.now) c ≡ true) calls.now }
    requires empty { room.items ≡ [] }
    requires room { length calls.now ≤ vec_capacity room }
    ensures worked { Worked bench.now (G.says gate.now) (card pass) calls.now result.1.items result.0 }
    ensures fate { IsHeededIn (F.stopped fate.old) (F.stopped fate.new) result.0 }
{
    let mut pass = pass;
    let mut replies = room;
    let thread = pass.thread();
    for call in calls {
        let asked = WorkerCall {
            number: replies.len() + 1,
            op: *call,
        };
        if !gate.before(thread, asked) {
            return (WorkerPass::Lives(pass), replies);
        }
        match answer(rt, bench, pass, *call, fate) {
            Outcome::Lives(after, reply) => {
                gate.after(thread, asked);
                pass = after;
                push_in_room(&mut replies, reply);
            }
            Outcome::Dead(dead) => {
                let reaped = bench.exit(rt, dead);
                gate.after(thread, asked);
                return (WorkerPass::Reaped(reaped), replies);
            }
        }
    }
    (WorkerPass::Lives(pass), replies)
}

/// Makes calls, as far as the gate lets the thread, and until it dies: before its access with the number, if there is
/// one, or where it was killed. There is room for the replies.
fn make_all<R: Wait, G: Gate>(
    rt: &R,
    bench: &Bench,
    gate: &G,
    pass: Pass<Live>,
    calls: &[Op],
    die: Option<u32>,
    room: Vec<Reply>,
) -> Record
    requires pass { IsLive bench.now pass }
    requires inside { All (λ c. is_in (layout_of bench.now) c ≡ true) calls.now }
    requires empty { room.items ≡ [] }
    requires room { length calls.now ≤ vec_capacity room }
    ensures worked { Worked bench.now (G.says gate.now) (card pass) calls.now result.replies.items result.pass }
    ensures left { IsLeftOf die result.pass result.die }
{
    let Some(access) = die else {
        let (pass, replies) = make_calls(rt, bench, gate, pass, calls, room, &mut Never);
        return Record {
            pass,
            replies,
            die: None,
        };
    };
    let mut countdown = Countdown::before(access);
    let (pass, replies) = make_calls(rt, bench, gate, pass, calls, room, &mut countdown);
    let die = match pass {
        WorkerPass::Lives(_) => Some(countdown.left()),
        WorkerPass::Reaped(_) => None,
    };
    Record { pass, replies, die }
}

/// Makes a job's calls, as far as the gate lets it, and until its thread dies. There is room for their replies.
pub(crate) fn make<R: Wait, G: Gate>(
    rt: &R,
    bench: &Bench,
    gate: &G,
    job: Job,
    room: Vec<Reply>,
) -> Record
    requires job { IsJobOf bench.now job }
    requires empty { room.items ≡ [] }
    requires room { length job.calls.items ≤ vec_capacity room }
    ensures { IsDone bench.now (G.says gate.now) job result }
{
    let Job { pass, calls, die } = job;
    match pass {
        WorkerPass::Lives(pass) => make_all(rt, bench, gate, pass, calls.as_slice(), die, room),
        WorkerPass::Reaped(_) => Record {
            pass,
            replies: room,
            die: None,
        },
    }
}
