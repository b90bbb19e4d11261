//! Workers whose threads die before an access, or of a kill.
ghost use Rattle.std.specs.Prelude.{None};

use crate::jobs::{fresh, phase};
use condvar::Op::{self, OnMutex};
use lockword::Reply::{self, EOWNERDEAD, OK};
use lockword::Tid;
use memorymap::Layout;
use mutex::Call::{Lock, TryLock, Unlock};
use ruledwords::Never;
use std::alloc::Global;
use std::sync::Wait;
use std::sync::atomic::{AtomicU64, Ordering};
use std::test::Fail;
use std::thread::Threads;
use thread_fixtures::{Left, makes, team};
use threadbench::{Bench, Gate, Open, WorkerCall, WorkerPass};

/// What came of a thread that locks a mutex in one phase and unlocks it in the next, and dies before its access with a
/// number.
#[derive(Clone, Copy, PartialEq, Eq)]
struct Story {
    /// How many calls got OK in each phase.
    told: [usize; 2],
    dead: bool,
    /// What its number has left.
    left: Option<u32>,
    /// What another thread's trylock returns afterwards.
    next: Option<Reply>,
    cell: u64,
}

fn told_ok(replies: &[Reply]) -> usize {
    replies.iter().filter(|reply| **reply == OK).count()
}

fn two_phases<R: Threads + Wait + Sync>(rt: &R, alloc: Global, die: u32) -> Result<Story, Fail> {
    let (bench, first, second, third, fourth, _) = team(alloc, Layout::new(5, 1, &[])?, &[])?;
    let first = fresh(alloc, &bench, first, Some(die));
    let second = fresh(alloc, &bench, second, None);
    let lock: [&[Op]; 2] = [&[OnMutex(Lock(0))], &[]];
    let (first, second) = phase(rt, alloc, &bench, first, second, lock, &Open)?;
    let locked = told_ok(first.replies.as_slice());
    let unlock: [&[Op]; 2] = [&[OnMutex(Unlock(0))], &[]];
    let (first, _second) = phase(rt, alloc, &bench, first, second, unlock, &Open)?;
    let unlocked = told_ok(first.replies.as_slice());
    let dead = matches!(first.pass, WorkerPass::Reaped(_));
    let next = makes(rt, &bench, third, OnMutex(TryLock(0)), &mut Never).map(|made| made.1);
    Ok(Story {
        told: [locked, unlocked],
        dead,
        left: first.die,
        next,
        cell: Left::of(bench, fourth).cells[0],
    })
}

fn died(told: [usize; 2], next: Reply, cell: u64) -> Story {
    Story {
        told,
        dead: true,
        left: None,
        next: Some(next),
        cell,
    }
}

/// A lock makes eight accesses and an unlock seven. 0 is read as 1.
#[test]
fn a_worker_dies_before_its_access(rt: HostRuntime) -> Result<(), Fail> {
    for die in 0..19 {
        let want = match die {
            0..=3 => died([0, 0], OK, 3),
            4..=8 => died([0, 0], EOWNERDEAD, 0x4000_0003),
            9..=14 => died([1, 0], EOWNERDEAD, 0x4000_0003),
            15 => died([1, 0], OK, 3),
            _ => Story {
                told: [1, 1],
                dead: false,
                left: Some(die - 15),
                next: Some(OK),
                cell: 3,
            },
        };
        assert!(rt; two_phases(&rt, rt.alloc(), die)? == want);
    }
    Ok(())
}

/// Counts the calls of which it is told that they have ended.
#[derive(Drop)]
struct CountsEnds(AtomicU64);

impl Gate for CountsEnds {
    ghost says = { λ g t i c. None };

    fn before(&self, _thread: Tid, _call: WorkerCall) -> bool {
        true
    }

    fn after(&self, _thread: Tid, _call: WorkerCall) {
        self.0.fetch_add(1, Ordering::SeqCst);
    }
}

/// A thread makes these calls, and dies before its access with that number, if it makes as many; another one locks
/// mutex 1 beside it. How many of its calls were answered, and what its number has left.
pub(crate) fn dies_at<R: Threads + Wait + Sync, G: Gate + Sync>(
    rt: &R,
    alloc: Global,
    calls: &[Op],
    die: u32,
    gate: &G,
) -> Result<(usize, Option<u32>), Fail> {
    let (bench, first, second, _, _, _) = team(alloc, Layout::new(5, 2, &[0])?, &[0])?;
    let first = fresh(alloc, &bench, first, Some(die));
    let second = fresh(alloc, &bench, second, None);
    let other = [OnMutex(Lock(1))];
    let (first, _second) = phase(rt, alloc, &bench, first, second, [calls, &other], gate)?;
    Ok((first.replies.len(), first.die))
}

/// A gate learns of each call that was answered, and of the one in which its thread died.
#[test]
fn a_gate_is_told_of_a_death(rt: HostRuntime) -> Result<(), Fail> {
    let calls = [OnMutex(Lock(0)), OnMutex(Unlock(0)), OnMutex(Lock(0))];
    let gate = CountsEnds(AtomicU64::new(0));
    assert!(rt; dies_at(&rt, rt.alloc(), &calls, 12, &gate)? == (1, None));
    assert!(rt; gate.0.load(Ordering::SeqCst) == 3);
    Ok(())
}

/// The same thread's number goes on from phase to phase.
#[test]
fn accesses_are_counted_over_phases(rt: HostRuntime) -> Result<(), Fail> {
    assert!(rt; two_phases(&rt, rt.alloc(), 8)?.told == [0, 0]);
    assert!(rt; two_phases(&rt, rt.alloc(), 9)?.told == [1, 0]);
    assert!(rt; two_phases(&rt, rt.alloc(), 16)?.told == [1, 1]);
    Ok(())
}

/// Kills a worker right before each of its unlocks.
struct KillsBeforeUnlocks<'a, R: Wait> {
    rt: &'a R,
    bench: &'a Bench,
}

impl<R: Wait> Gate for KillsBeforeUnlocks<'_, R> {
    ghost says = { λ g t i c. None };

    fn before(&self, thread: Tid, call: WorkerCall) -> bool {
        match call.op {
            OnMutex(Unlock(_)) => self.bench.kill(self.rt, thread.get()) == Ok(()),
            _ => true,
        }
    }

    fn after(&self, _thread: Tid, _call: WorkerCall) {}
}

/// A worker that was killed dies in its unlock, before it has freed the mutex.
#[test]
fn a_killed_worker_frees_no_mutex(rt: HostRuntime) -> Result<(), Fail> {
    let (bench, first, second, third, fourth, _) = team(rt.alloc(), Layout::new(5, 1, &[])?, &[])?;
    let first = fresh(rt.alloc(), &bench, first, None);
    let second = fresh(rt.alloc(), &bench, second, None);
    let gate = KillsBeforeUnlocks {
        rt: &rt,
        bench: &bench,
    };
    let calls: [&[Op]; 2] = [&[OnMutex(Lock(0)), OnMutex(Unlock(0))], &[]];
    let worked = phase(&rt, rt.alloc(), &bench, first, second, calls, &gate);
    let KillsBeforeUnlocks { rt: _, bench: _ } = gate;
    let (first, _second) = worked?;
    let dead = matches!(first.pass, WorkerPass::Reaped(_));
    assert!(rt; dead && first.replies.as_slice() == [OK].as_slice());
    let next = makes(&rt, &bench, third, OnMutex(TryLock(0)), &mut Never).map(|made| made.1);
    let cell = Left::of(bench, fourth).cells[0];
    assert!(rt; next == Some(EOWNERDEAD) && cell == 0x4000_0003);
    Ok(())
}
