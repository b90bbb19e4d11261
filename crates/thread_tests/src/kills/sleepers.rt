//! Threads that sleep on a mutex while its owner kills them, dies, or is killed.
ghost use Rattle.ruledwords.specs.Passes.{IsLive};

use condvar::Op::OnMutex;
use lockword::Reply::{self, EOWNERDEAD, OK};
use lockword::Tid;
use memorymap::{Layout, bucket_of, key_of};
use mutex::Call::{Consistent, Lock, TryLock, Unlock};
use ruledwords::{Live, Never, Pass};
use std::alloc::Global;
use std::sync::Wait;
use std::sync::atomic::{AtomicU64, Ordering};
use std::test::Fail;
use std::thread::{self, Threads};
use std::time::Clock;
use thread_fixtures::{Asked, Left, dies, ends_unless, fall_asleep, makes, team, waits_for};
use threadbench::Bench;

/// How often the fate of a thread is asked that locks an owned mutex, until it sleeps.
const ASLEEP: u64 = 4;

/// What the owner does while another thread sleeps on its mutex.
#[derive(Clone, Copy, PartialEq, Eq)]
enum Act {
    /// Kills the sleeper, waits for its death, and frees the mutex, so that whoever sleeps on still wakes.
    Kills,
    /// Does so once the other one was asked so often, and gives it no time to fall asleep.
    KillsAfter(u64),
    /// Kills the sleeper's process, which is 1, instead of the sleeper.
    KillsItsProcess,
    /// Dies before its next access.
    Dies,
    /// Frees the mutex, and dies before it wakes anybody.
    DiesOwing,
    /// The thread is killed, and dies in its next call.
    IsKilled,
}

/// A mutex, its sleeper, and what its owner does.
#[derive(Clone, Copy)]
struct Plan {
    mutex: u16,
    owner: u8,
    sleeper: u8,
    act: Act,
}

/// What two threads are to do, and what they tell each other.
#[derive(Drop)]
struct Board {
    plan: Plan,
    /// How often the sleeper's fate was asked.
    asked: AtomicU64,
    /// Whether the sleeper's call has ended.
    ended: AtomicU64,
}

impl Board {
    fn new(plan: Plan) -> Board {
        Board {
            plan,
            asked: AtomicU64::new(0),
            ended: AtomicU64::new(0),
        }
    }

    /// The sleeper's part: what its lock returns, if it lives.
    fn sleep<R: Wait>(&self, rt: &R, bench: &Bench, pass: Pass<Live>) -> Option<Reply>
        requires { IsLive bench.now pass }
    {
        let mut fate = Asked::new(&self.asked, 0);
        let made = makes(rt, bench, pass, OnMutex(Lock(self.plan.mutex)), &mut fate);
        self.ended.store(1, Ordering::SeqCst);
        made.map(|made| made.1)
    }

    /// The owner kills the sleeper and frees the mutex once that is dead: whether it went so.
    fn kill_and_free<R: Wait + Clock>(&self, rt: &R, bench: &Bench, pass: Pass<Live>) -> bool
        requires { IsLive bench.now pass }
    {
        let plan = self.plan;
        let killed = match plan.act {
            Act::KillsItsProcess => bench.kill_process(rt, 1) == Ok(()),
            _ => bench.kill(rt, plan.sleeper) == Ok(()),
        };
        let died = waits_for(rt, &self.ended, 1);
        let made = makes(rt, bench, pass, OnMutex(Unlock(plan.mutex)), &mut Never);
        ends_unless(rt, bench, killed && died && made.is_some())
    }

    /// The owner's part: whether it went so.
    fn act<R: Wait + Clock>(&self, rt: &R, bench: &Bench, pass: Pass<Live>) -> bool
        requires { IsLive bench.now pass }
    {
        let plan = self.plan;
        if let Act::KillsAfter(asked) = plan.act {
            let came = waits_for(rt, &self.asked, asked);
            return self.kill_and_free(rt, bench, pass) && came;
        }
        let came = fall_asleep(rt, bench, &[plan.sleeper]);
        let (call, stops_at) = match plan.act {
            Act::Kills | Act::KillsAfter(_) | Act::KillsItsProcess => {
                return self.kill_and_free(rt, bench, pass) && came;
            }
            Act::Dies => (Consistent(plan.mutex), 1),
            // an unlock makes six accesses up to the one that frees the mutex
            Act::DiesOwing => (Unlock(plan.mutex), 7),
            Act::IsKilled => (Lock(plan.mutex), 0),
        };
        let killed = plan.act != Act::IsKilled || bench.kill(rt, plan.owner) == Ok(());
        let died = dies(rt, bench, pass, OnMutex(call), stops_at);
        ends_unless(rt, bench, came && killed && died)
    }

    /// Both parts at once: whether the owner's went so, and what the sleeper's lock returns.
    fn both<R: Threads + Wait + Clock + Sync>(
        &self,
        rt: &R,
        bench: &Bench,
        owner: Pass<Live>,
        sleeper: Pass<Live>,
    ) -> (bool, Option<Reply>)
        requires owner { IsLive bench.now owner }
        requires sleeper { IsLive bench.now sleeper }
    {
        thread::join(
            rt,
            || -> bool
                requires { IsLive bench.now owner }
            { self.act(rt, bench, owner) },
            || -> Option<Reply>
                requires { IsLive bench.now sleeper }
            { self.sleep(rt, bench, sleeper) },
        )
    }
}

/// What came of a plan.
#[derive(Clone, Copy, PartialEq, Eq)]
struct Story {
    /// Whether the owner took the mutex, and did its part.
    well: bool,
    /// What the sleeper's lock returned, if it lives.
    sleeper: Option<Reply>,
    /// What a third thread's trylock returns then.
    next: Option<Reply>,
    /// What it leaves in the cell of the first mutex.
    cell: u64,
}

/// The fourth of a team owns the mutex, and the fifth one sleeps on it; the third one comes after them.
fn played<R: Threads + Wait + Clock + Sync>(
    rt: &R,
    alloc: Global,
    layout: Layout,
    mutex: u16,
    act_of: Act,
) -> Result<Story, Fail> {
    let (bench, _, second, third, fourth, fifth) = team(alloc, layout, &[])?;
    let plan = Plan {
        mutex,
        owner: fourth.thread().get(),
        sleeper: fifth.thread().get(),
        act: act_of,
    };
    let Some((fourth, taken)) = makes(rt, &bench, fourth, OnMutex(Lock(mutex)), &mut Never) else {
        return Ok(Story {
            well: false,
            sleeper: None,
            next: None,
            cell: 0,
        });
    };
    let (well, sleeper) = Board::new(plan).both(rt, &bench, fourth, fifth);
    let next = makes(rt, &bench, third, OnMutex(TryLock(mutex)), &mut Never).map(|made| made.1);
    Ok(Story {
        well: well && taken == OK,
        sleeper,
        next,
        cell: Left::of(bench, second).cells[0],
    })
}

/// The sleeper died, and a third thread takes the mutex, which leaves this in the cell of the first one.
fn sleeper_died(cell: u64) -> Story {
    Story {
        well: true,
        sleeper: None,
        next: Some(OK),
        cell,
    }
}

/// A sleeper is killed while the mutex is owned: its call ends, and the mutex can be had by a third thread. The owner's
/// unlock found nobody to wake, and trimmed the cell: WAITERS isn't there any more.
#[test]
fn a_sleeper_is_killed(rt: HostRuntime) -> Result<(), Fail> {
    for _ in 0..5_u32 {
        let found = played(&rt, rt.alloc(), Layout::new(5, 1, &[])?, 0, Act::Kills)?;
        assert!(rt; found == sleeper_died(3));
    }
    Ok(())
}

/// A process is killed while its only thread sleeps on a mutex that a thread of another process owns.
#[test]
fn a_process_is_killed_asleep(rt: HostRuntime) -> Result<(), Fail> {
    for _ in 0..5_u32 {
        let layout = Layout::with_processes(&[0, 0, 0, 0, 1], &[0, 1000], 1, &[])?;
        let found = played(&rt, rt.alloc(), layout, 0, Act::KillsItsProcess)?;
        assert!(rt; found == sleeper_died(3));
    }
    Ok(())
}

/// Killed before it sleeps, about to, or asleep, it dies in any case.
#[test]
fn whoever_is_about_to_sleep_is_killed(rt: HostRuntime) -> Result<(), Fail> {
    for asked in 0..=ASLEEP {
        for _ in 0..10_u32 {
            let act = Act::KillsAfter(asked);
            let found = played(&rt, rt.alloc(), Layout::new(5, 1, &[])?, 0, act)?;
            assert!(rt; found == sleeper_died(3));
        }
    }
    Ok(())
}

/// How many buckets a bench has. As many mutexes have their sleepers in as many buckets, since 3 words lie between two
/// cells.
const BUCKETS: u16 = 256;

/// A sleeper is found, whichever bucket it is in.
#[test]
fn a_sleeper_is_killed_in_each_bucket(rt: HostRuntime) -> Result<(), Fail> {
    for mutex in 0..BUCKETS {
        let layout = Layout::new(5, BUCKETS, &[])?;
        let found = played(&rt, rt.alloc(), layout, mutex, Act::Kills)?;
        assert!(rt; found == sleeper_died(if mutex == 0 { 3 } else { 0 }));
    }
    Ok(())
}

/// The last of the mutexes whose sleepers are in a bucket with a high number.
fn in_a_high_bucket(layout: &Layout) -> u16 {
    let mut found = 0;
    for mutex in 0..layout.mutexes() {
        if bucket_of(key_of(layout.cell(mutex)), 256) >= 250 {
            found = mutex;
        }
    }
    found
}

/// The last of 250 threads sleeps in one of the last buckets, and is killed.
#[test]
fn the_last_of_250_threads_is_killed_in_a_high_bucket(rt: HostRuntime) -> Result<(), Fail> {
    let last = Tid::new(250).ok_or("no thread 250")?;
    let layout = Layout::up_to(last, 300, &[])?;
    let mutex = in_a_high_bucket(&layout);
    let found = played(&rt, rt.alloc(), layout, mutex, Act::Kills)?;
    assert!(rt; mutex > 0 && found == sleeper_died(0));
    Ok(())
}

/// Twenty times: what the sleeper learns of its owner's fate, which has the mutex then. Whoever takes a mutex
/// leaves WAITERS where it stands.
fn always<R: Threads + Wait + Clock + Sync>(
    rt: &R,
    alloc: Global,
    act: Act,
    sleeper: Reply,
    cell: u64,
) -> Result<bool, Fail> {
    let want = Story {
        well: true,
        sleeper: Some(sleeper),
        next: Some(Reply::EBUSY),
        cell,
    };
    for _ in 0..5_u32 {
        if played(rt, alloc, Layout::new(5, 1, &[])?, 0, act)? != want {
            return Ok(false);
        }
    }
    Ok(true)
}

/// A killed thread owns a mutex on which another sleeps: it is woken by the walk, and told EOWNERDEAD.
#[test]
fn a_killed_owner_strands_nobody(rt: HostRuntime) -> Result<(), Fail> {
    assert!(rt; always(&rt, rt.alloc(), Act::IsKilled, EOWNERDEAD, 0xc000_0005)?);
    Ok(())
}

/// The owner dies and exits.
#[test]
fn a_sleeper_is_told_that_the_owner_died(rt: HostRuntime) -> Result<(), Fail> {
    assert!(rt; always(&rt, rt.alloc(), Act::Dies, EOWNERDEAD, 0xc000_0005)?);
    Ok(())
}

/// The owner frees the mutex, and dies before the wake that it owes: the walk makes it.
#[test]
fn a_sleeper_is_woken_for_a_dead_thread(rt: HostRuntime) -> Result<(), Fail> {
    assert!(rt; always(&rt, rt.alloc(), Act::DiesOwing, OK, 0x8000_0005)?);
    Ok(())
}
