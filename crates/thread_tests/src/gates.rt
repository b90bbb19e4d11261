//! Workers whose gate lets a call through only when another worker has come as far: so they are at work at once, each
//! in a thread of its own.
ghost use Rattle.std.specs.Prelude.{◌≤◌, All, IfOk, None};
ghost use Rattle.ruledwords.specs.Passes.{IsLive};
ghost use Rattle.threadbench.specs.Jobs.{IsJobOf};

use crate::jobs::{fresh, job, jobs_of, phase, work};
use crate::phases::try_lock;
use condvar::Op::{self, OnMutex};
use lockword::Reply::{self, EBUSY, ENOTRECOVERABLE, EOWNERDEAD, EPERM, OK};
use lockword::Tid;
use memorymap::{Layout, NoMem};
use mutex::Call::{Consistent, Lock, TryLock, Unlock};
use ruledwords::{Live, Never, Pass};
use std::alloc::Global;
use std::sync::Wait;
use std::sync::atomic::{AtomicBool, AtomicU64, Ordering};
use std::test::Fail;
use std::thread::{self, Threads};
use std::time::Clock;
use thread_fixtures::{Left, dies, fall_asleep, last_of, makes, team};
use threadbench::{Bench, Gate, Job, Record, WorkerCall, WorkerPass};

/// Two threads make these calls under this gate: what is left, if they were told so. The counter begins at 5.
pub(crate) fn goes<R: Threads + Wait + Sync, G: Gate + Sync>(
    rt: &R,
    alloc: Global,
    calls: [&[Op]; 2],
    gate: &G,
    want: [&[Reply]; 2],
) -> Result<Option<Left>, Fail> {
    let (bench, first, second, third, _, _) = team(alloc, Layout::new(5, 2, &[0])?, &[5])?;
    let first = fresh(alloc, &bench, first, None);
    let second = fresh(alloc, &bench, second, None);
    let (first, second) = phase(rt, alloc, &bench, first, second, calls, gate)?;
    let [firsts, seconds] = want;
    let well = first.replies.as_slice() == firsts && second.replies.as_slice() == seconds;
    let left = Left::of(bench, third);
    Ok(if well { Some(left) } else { None })
}

/// The call of one thread waits until that of another was answered.
#[derive(Drop)]
pub(crate) struct Follows {
    last: u8,
    told: AtomicBool,
}

impl Follows {
    pub(crate) fn after(last: u8) -> Follows {
        Follows {
            last,
            told: AtomicBool::new(false),
        }
    }
}

/// Waits until another thread has told, if it ever does.
fn wait_for(told: &AtomicBool) -> bool {
    for _ in 0..10_000_000_u64 {
        if told.load(Ordering::SeqCst) {
            return true;
        }
        thread::yield_now();
    }
    false
}

impl Gate for Follows {
    ghost says = { λ g t i c. None };

    fn before(&self, thread: Tid, _call: WorkerCall) -> bool {
        thread.get() != self.last || wait_for(&self.told)
    }

    fn after(&self, thread: Tid, _call: WorkerCall) {
        if thread.get() != self.last {
            self.told.store(true, Ordering::SeqCst);
        }
    }
}

/// Two workers with one call each, that of the thread `last` after the other's.
fn one_follows<R: Threads + Wait + Sync>(rt: &R, alloc: Global, last: u8) -> Result<bool, Fail> {
    let calls: [&[Op]; 2] = [&[OnMutex(TryLock(0))], &[OnMutex(TryLock(1))]];
    let left = goes(rt, alloc, calls, &Follows::after(last), [&[OK], &[OK]])?;
    Ok(left.is_some_and(|left| left.cells == [1, 2]))
}

#[test]
fn the_first_worker_follows(rt: HostRuntime) -> Result<(), Fail> {
    assert!(rt; one_follows(&rt, rt.alloc(), 1)?);
    Ok(())
}

#[test]
fn the_second_worker_follows(rt: HostRuntime) -> Result<(), Fail> {
    assert!(rt; one_follows(&rt, rt.alloc(), 2)?);
    Ok(())
}

/// What comes after the lock of thread 1 waits until the call of thread 2 was answered, and that call until the lock
/// was.
#[derive(Drop)]
struct Between {
    locked: AtomicBool,
    tried: AtomicBool,
}

impl Gate for Between {
    ghost says = { λ g t i c. None };

    fn before(&self, thread: Tid, _call: WorkerCall) -> bool {
        thread.get() != 2 || wait_for(&self.locked)
    }

    fn after(&self, thread: Tid, call: WorkerCall) {
        if thread.get() == 2 {
            self.tried.store(true, Ordering::SeqCst);
        } else if call.number == 1 {
            self.locked.store(true, Ordering::SeqCst);
            let _told = wait_for(&self.tried);
        }
    }
}

#[test]
fn a_trylock_between_a_lock_and_its_unlock_is_busy(rt: HostRuntime) -> Result<(), Fail> {
    let gate = Between {
        locked: AtomicBool::new(false),
        tried: AtomicBool::new(false),
    };
    let calls: [&[Op]; 2] = [
        &[OnMutex(Lock(0)), OnMutex(Unlock(0))],
        &[OnMutex(TryLock(0))],
    ];
    let left = goes(&rt, rt.alloc(), calls, &gate, [&[OK, OK], &[EBUSY]])?;
    assert!(rt; left.is_some_and(|left| left.cells == [0, 0]));
    Ok(())
}

/// Refuses a call's number.
#[derive(Drop)]
struct Refuses(usize);

impl Gate for Refuses {
    ghost says = { λ g t i c. None };

    fn before(&self, _thread: Tid, call: WorkerCall) -> bool {
        call.number != self.0
    }

    fn after(&self, _thread: Tid, _call: WorkerCall) {}
}

/// All threads of a bench make these calls under this gate: how many threads got this many replies.
fn all_work<R: Threads + Wait + Sync, G: Gate + Sync>(
    rt: &R,
    alloc: Global,
    layout: Layout,
    calls: &[Op],
    gate: &G,
    replies: usize,
) -> Result<usize, Fail> {
    if layout.conditions() > 0 {
        return Ok(0);
    }
    let (bench, passes) = Bench::new(alloc, layout, &[])?;
    let jobs = jobs_of(alloc, &bench, passes, calls, None)?;
    let records = work(rt, alloc, &bench, jobs, gate)?;
    Ok(
        records
            .iter()
            .filter(|record| record.replies.len() == replies)
            .count(),
    )
}

#[test]
fn a_worker_that_is_refused_stops(rt: HostRuntime) -> Result<(), Fail> {
    let calls = [OnMutex(Lock(0)), OnMutex(Unlock(0)), OnMutex(Lock(0))];
    let layout = Layout::new(1, 1, &[])?;
    assert!(rt; all_work(&rt, rt.alloc(), layout, &calls, &Refuses(2), 1)? == 1);
    Ok(())
}

/// A worker's call waits until as many workers have come to a call of that number as there are.
#[derive(Drop)]
struct Together {
    workers: u64,
    come: [AtomicU64; 3],
}

impl Gate for Together {
    ghost says = { λ g t i c. None };

    fn before(&self, _thread: Tid, call: WorkerCall) -> bool {
        let Some(come) = self.come.get(call.number.wrapping_sub(1)) else {
            return false;
        };
        come.fetch_add(1, Ordering::SeqCst);
        for _ in 0..100_000_000_u64 {
            if come.load(Ordering::SeqCst) == self.workers {
                return true;
            }
            thread::yield_now();
        }
        false
    }

    fn after(&self, _thread: Tid, _call: WorkerCall) {}
}

#[test]
fn all_64_workers_are_at_work_at_once(rt: HostRuntime) -> Result<(), Fail> {
    let calls = [
        OnMutex(TryLock(0)),
        OnMutex(Unlock(0)),
        OnMutex(Consistent(0)),
    ];
    let gate = Together {
        workers: 64,
        come: [AtomicU64::new(0), AtomicU64::new(0), AtomicU64::new(0)],
    };
    let layout = Layout::new(64, 1, &[])?;
    assert!(rt; all_work(&rt, rt.alloc(), layout, &calls, &gate, 3)? == 64);
    Ok(())
}

/// The owner's call waits until all others sleep, who have the ids below its own.
struct OwnerLast<'a, R: Wait + Clock> {
    rt: &'a R,
    bench: &'a Bench,
    owner: u8,
}

impl<R: Wait + Clock> Gate for OwnerLast<'_, R> {
    ghost says = { λ g t i c. None };

    fn before(&self, thread: Tid, _call: WorkerCall) -> bool {
        let mut asleep = true;
        if thread.get() == self.owner {
            for other in 1..self.owner {
                asleep = asleep && fall_asleep(self.rt, self.bench, &[other]);
            }
        }
        asleep
    }

    fn after(&self, _thread: Tid, _call: WorkerCall) {}
}

/// These jobs, and the owner's after them.
fn with_owner(jobs: Vec<Job>, bench: &Bench, owner: Job) -> Result<Vec<Job>, NoMem>
    requires jobs { All (λ j. IsJobOf bench.now j) jobs.items }
    requires owner { IsJobOf bench.now owner }
    ensures { IfOk result (λ all. All (λ j. IsJobOf bench.now j) all.items) }
{
    let _bench = bench;
    let mut jobs = jobs;
    match jobs.push(owner) {
        Ok(()) => Ok(jobs),
        Err(_) => Err(NoMem),
    }
}

/// This many accesses a thread may make that sleeps for its turn: far more than it needs, and far fewer than one
/// makes meanwhile that doesn't sleep.
const ACCESSES: u32 = 200;

/// What became of a mutex's last owner but one.
#[derive(Clone, Copy, PartialEq, Eq)]
enum Before {
    Nobody,
    /// The thread died, and nobody will declare the mutex consistent.
    Died,
}

/// The thread locks mutex 0, and dies as its owner.
fn dies_as_owner<R: Wait>(rt: &R, bench: &Bench, pass: Pass<Live>) -> bool
    requires { IsLive bench.now pass }
{
    let Some((pass, taken)) = makes(rt, bench, pass, OnMutex(Lock(0)), &mut Never) else {
        return false;
    };
    dies(rt, bench, pass, OnMutex(Unlock(0)), 1) && taken == OK
}

/// A thread owns the mutex while this many others come for it; it unlocks, and each of them has it in turn, or is
/// told that it can't be used any more. Whether all were told so, and what is left in the cell.
fn all_have_it<R: Threads + Wait + Clock + Sync>(
    rt: &R,
    alloc: Global,
    others: u8,
    before: Before,
) -> Result<Option<u64>, Fail>
    requires some { 1 ≤ others }
    requires room { others ≤ 61 }
{
    let owner = others + 1;
    let (bench, mut passes) = Bench::new(alloc, Layout::new(others + 3, 1, &[])?, &[])?;
    let words = bench.words();
    let witness = last_of(words, &mut passes);
    let dying = last_of(words, &mut passes);
    let last = last_of(words, &mut passes);
    let came = before == Before::Nobody || dies_as_owner(rt, &bench, dying);
    let (last, taken) = try_lock(words, last);
    let jobs = jobs_of(
        alloc,
        &bench,
        passes,
        &[OnMutex(Lock(0)), OnMutex(Unlock(0))],
        Some(ACCESSES),
    )?;
    let last = job(
        alloc,
        &bench,
        WorkerPass::Lives(last),
        &[OnMutex(Unlock(0))],
        None,
    )?;
    let jobs = with_owner(jobs, &bench, last)?;
    let gate = OwnerLast {
        rt,
        bench: &bench,
        owner,
    };
    let worked = work(rt, alloc, &bench, jobs, &gate);
    let OwnerLast {
        rt: _,
        bench: _,
        owner: _,
    } = gate;
    let records = worked?;
    let (taking, told) = match before {
        Before::Nobody => (OK, [OK, OK]),
        Before::Died => (EOWNERDEAD, [ENOTRECOVERABLE, EPERM]),
    };
    let well = count_of(records.as_slice(), &told) == usize::from(others)
        && count_of(records.as_slice(), &[OK]) == 1;
    let left = Left::of(bench, witness);
    Ok(if came && taken == taking && well {
        Some(left.cells[0])
    } else {
        None
    })
}

/// How many workers got just this.
fn count_of(records: &[Record], told: &[Reply]) -> usize {
    records
        .iter()
        .filter(|record| record.replies.as_slice() == told)
        .count()
}

#[test]
fn three_sleepers_are_woken_in_turn(rt: HostRuntime) -> Result<(), Fail> {
    assert!(rt; all_have_it(&rt, rt.alloc(), 3, Before::Nobody)? == Some(0));
    Ok(())
}

#[test]
fn sixty_one_sleepers_are_woken_in_turn(rt: HostRuntime) -> Result<(), Fail> {
    assert!(rt; all_have_it(&rt, rt.alloc(), 61, Before::Nobody)? == Some(0));
    Ok(())
}

/// All of them are woken at once, since nobody will take the mutex and wake the next one.
#[test]
fn sixty_one_sleepers_are_told_that_a_mutex_is_unusable(rt: HostRuntime) -> Result<(), Fail> {
    assert!(rt; all_have_it(&rt, rt.alloc(), 61, Before::Died)?.is_some());
    Ok(())
}
