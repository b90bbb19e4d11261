//! Two threads at the mutexes of one bench, phase by phase.
ghost use Rattle.std.specs.Prelude.{All, IfOk};
ghost use Rattle.ruledwords.specs.Passes.{IsLive};
ghost use Rattle.threadbench.specs.Answered.{IsWorkerOf};
ghost use Rattle.threadbench.specs.Jobs.{IsJobOf};

use crate::jobs::{fresh, jobs_of, phase};
use condvar::Op::{self, OnMutex};
use lockword::Reply::{self, EBUSY, EDEADLK, EINVAL, EPERM, OK};
use memorymap::{Layout, NoMem};
use mutex::Call::{Consistent, Lock, TryLock, Unlock};
use ruledwords::{Live, Never, Outcome, Pass, Words};
use std::alloc::Global;
use std::sync::Wait;
use std::test::Fail;
use std::thread::Threads;
use thread_fixtures::{Left, last_of, team};
use threadbench::{Bench, Job, Open, Record, WorkerPass};

/// What two threads call at once, and what they return.
struct Phase {
    calls: [&'static [Op]; 2],
    replies: [&'static [Reply]; 2],
}

/// Works these phases: whether all calls were told so.
fn go<R: Threads + Wait + Sync>(
    rt: &R,
    alloc: Global,
    bench: &Bench,
    first: Record,
    second: Record,
    phases: &[Phase],
) -> Result<bool, NoMem>
    requires first { IsWorkerOf bench.now first.pass }
    requires second { IsWorkerOf bench.now second.pass }
{
    let mut one = first;
    let mut other = second;
    let mut well = true;
    for now in phases {
        let (first, second) = phase(rt, alloc, bench, one, other, now.calls, &Open)?;
        let [firsts, seconds] = now.replies;
        well = well && first.replies.as_slice() == firsts && second.replies.as_slice() == seconds;
        one = first;
        other = second;
    }
    Ok(well)
}

/// Works these phases: the cells that are left, if all calls were told so.
fn worked<R: Threads + Wait + Sync>(
    rt: &R,
    alloc: Global,
    phases: &[Phase],
) -> Result<Option<[u64; 2]>, Fail> {
    let (bench, first, second, third, _, _) = team(alloc, Layout::new(5, 2, &[])?, &[])?;
    let one = fresh(alloc, &bench, first, None);
    let other = fresh(alloc, &bench, second, None);
    let well = go(rt, alloc, &bench, one, other, phases)?;
    let left = Left::of(bench, third);
    Ok(if well { Some(left.cells) } else { None })
}

/// Thread 1 owns mutex 0 and thread 2 mutex 1; then thread 1 gives back its own, and thread 2 takes that too.
static FOLLOWING: [Phase; 4] = [
    Phase {
        calls: [
            &[OnMutex(TryLock(0)), OnMutex(TryLock(0))],
            &[OnMutex(Unlock(0)), OnMutex(TryLock(1))],
        ],
        replies: [&[OK, EBUSY], &[EPERM, OK]],
    },
    Phase {
        calls: [
            &[OnMutex(TryLock(1)), OnMutex(Unlock(1)), OnMutex(Unlock(0))],
            &[],
        ],
        replies: [&[EBUSY, EPERM, OK], &[]],
    },
    Phase {
        calls: [&[], &[OnMutex(TryLock(0))]],
        replies: [&[], &[OK]],
    },
    Phase {
        calls: [&[OnMutex(TryLock(0))], &[]],
        replies: [&[EBUSY], &[]],
    },
];

#[test]
fn phases_follow_each_other(rt: HostRuntime) -> Result<(), Fail> {
    assert!(rt; worked(&rt, rt.alloc(), &FOLLOWING)? == Some([2, 2]));
    Ok(())
}

/// Nobody's mutex was inherited from a dead owner, so neither thread has one to declare consistent.
static UNDECLARED: [Phase; 1] = [Phase {
    calls: [
        &[
            OnMutex(TryLock(0)),
            OnMutex(Consistent(0)),
            OnMutex(Unlock(0)),
        ],
        &[OnMutex(Consistent(0))],
    ],
    replies: [&[OK, EINVAL, OK], &[EPERM]],
}];

#[test]
fn nothing_is_to_be_declared_consistent(rt: HostRuntime) -> Result<(), Fail> {
    assert!(rt; worked(&rt, rt.alloc(), &UNDECLARED)? == Some([0, 0]));
    Ok(())
}

/// Locks and their refusals; thread 1 holds mutex 0 from one phase to the next.
static LOCKS: [Phase; 2] = [
    Phase {
        calls: [&[OnMutex(Lock(0)), OnMutex(Lock(0))], &[]],
        replies: [&[OK, EDEADLK], &[]],
    },
    Phase {
        calls: [&[OnMutex(Unlock(0))], &[OnMutex(Lock(0))]],
        replies: [&[OK], &[OK]],
    },
];

#[test]
fn locks_follow_each_other(rt: HostRuntime) -> Result<(), Fail> {
    let left = worked(&rt, rt.alloc(), &LOCKS)?;
    assert!(rt; left == Some([2, 0]) || left == Some([0x8000_0002, 0]));
    Ok(())
}

/// Whether one of the two threads has taken the mutex that both try at once, and the counter is as it was.
fn one_takes<R: Threads + Wait + Sync>(rt: &R, alloc: Global) -> Result<bool, Fail> {
    let (bench, first, second, third, _, _) = team(alloc, Layout::new(5, 1, &[0])?, &[7])?;
    let first = fresh(alloc, &bench, first, None);
    let second = fresh(alloc, &bench, second, None);
    let tries: [&[Op]; 2] = [&[OnMutex(TryLock(0))], &[OnMutex(TryLock(0))]];
    let (first, second) = phase(rt, alloc, &bench, first, second, tries, &Open)?;
    let left = Left::of(bench, third);
    let first_wins = has_replied(first.replies.as_slice(), OK);
    let loser = if first_wins { second } else { first };
    Ok(
        left.cells[0] == (if first_wins { 1 } else { 2 })
            && left.counters[0] == 7
            && has_replied(loser.replies.as_slice(), EBUSY),
    )
}

fn has_replied(replies: &[Reply], reply: Reply) -> bool {
    replies == [reply].as_slice()
}

/// Two threads try one mutex at once: one of them takes it.
#[test]
fn one_of_two_takes(rt: HostRuntime) -> Result<(), Fail> {
    assert!(rt; one_takes(&rt, rt.alloc())?);
    Ok(())
}

pub(crate) fn try_lock(words: &Words, pass: Pass<Live>) -> (Pass<Live>, Reply)
    requires { IsLive words.now pass }
    ensures { IsLive words.now result.0 }
{
    let _mutexes = words.layout().mutexes();
    match words.try_lock(pass, 0, &mut Never) {
        Outcome::Lives(pass, reply) => (pass, reply),
        Outcome::Dead(_) => unreachable!(),
    }
}

/// A bench of three threads, jobs for the first two, and the third one's pass.
fn prepared(alloc: Global) -> Result<(Bench, Vec<Job>, Pass<Live>), NoMem>
    ensures jobs { IfOk result (λ r. All (λ j. IsJobOf r.0 j) r.1.items) }
    ensures third { IfOk result (λ r. IsLive r.0 r.2) }
{
    let Ok(layout) = Layout::new(3, 1, &[]) else {
        return Err(NoMem);
    };
    let (bench, mut passes) = Bench::new(alloc, layout, &[])?;
    let third = last_of(bench.words(), &mut passes);
    let jobs = jobs_of(alloc, &bench, passes, &[OnMutex(TryLock(0))], None)?;
    Ok((bench, jobs, third))
}

/// Takes the mutex with the passes of jobs that came back, one after the other, and tells whether the jobs were to try
/// it and the first of them has taken it.
fn jobs_are_as_they_were(bench: &Bench, jobs: Vec<Job>) -> bool
    requires { All (λ j. IsJobOf bench.now j) jobs.items }
{
    let mut count = 0_u8;
    let mut well = true;
    for job in jobs {
        let Job {
            pass,
            calls,
            die: _,
        } = job;
        let WorkerPass::Lives(pass) = pass else {
            return false;
        };
        let (_pass, reply) = try_lock(bench.words(), pass);
        let want = if count == 0 { OK } else { EBUSY };
        well = well && reply == want && calls.as_slice() == [OnMutex(TryLock(0))].as_slice();
        count = count.wrapping_add(1);
    }
    well && count == 2
}

/// Passes too where any one allocation fails, or the start of any one thread: then the jobs come back, and no call of
/// the phase was made.
#[test]
fn memory(rt: HostRuntime) -> Result<(), Fail> {
    let Ok((bench, jobs, third)) = prepared(rt.alloc()) else {
        return Ok(());
    };
    match bench.work(&rt, rt.alloc(), jobs, &Open) {
        Ok(records) => assert_eq!(rt; records.len(), 2),
        Err((jobs, NoMem)) => assert!(rt; jobs_are_as_they_were(&bench, jobs)),
    }
    let (third, reply) = try_lock(bench.words(), third);
    assert_eq!(rt; reply, EBUSY);
    let owner = Left::of(bench, third).cells[0];
    assert!(rt; owner == 1 || owner == 2);
    Ok(())
}
