//! Threads that die right before an access of a call, by their fate or of a kill.
ghost use Rattle.ruledwords.specs.Passes.{IsLive};

use condvar::Op::{self, OnMutex};
use lockword::Reply::{self, EBUSY, EOWNERDEAD, OK};
use memorymap::Layout;
use mutex::Call::{Lock, TryLock, Unlock};
use ruledwords::{Fate, Live, Never, Pass};
use std::alloc::Global;
use std::sync::Wait;
use std::sync::atomic::{AtomicU64, Ordering};
use std::test::Fail;
use thread_fixtures::{Asked, Left, makes, team};
use threadbench::Bench;

/// Makes calls with this fate, as far as the thread lives: how many got OK.
fn made<R: Wait, F: Fate>(
    rt: &R,
    bench: &Bench,
    pass: Pass<Live>,
    calls: &[Op],
    fate: &mut F,
) -> u64
    requires { IsLive bench.now pass }
{
    let mut pass = pass;
    let mut made = 0_u64;
    for op in calls {
        match makes(rt, bench, pass, *op, fate) {
            Some((after, reply)) => {
                pass = after;
                made = made.wrapping_add(u64::from(reply == OK));
            }
            None => return made,
        }
    }
    made
}

/// What came of calls in which the thread may have died.
#[derive(Clone, Copy, PartialEq, Eq)]
struct Story {
    /// This many got OK.
    made: u64,
    /// How often their fate was asked.
    asked: u64,
    /// What another thread's trylock returns then.
    told: Option<Reply>,
    /// The cell of the mutex after that.
    cell: u64,
}

/// A thread makes calls on mutex 0, and dies before its access with that number.
fn dies_before<R: Wait>(rt: &R, alloc: Global, calls: &[Op], access: u64) -> Result<Story, Fail> {
    let (bench, first, second, third, _, _) = team(alloc, Layout::new(5, 1, &[])?, &[])?;
    let count = AtomicU64::new(0);
    let made = made(rt, &bench, first, calls, &mut Asked::new(&count, access));
    let told = makes(rt, &bench, second, OnMutex(TryLock(0)), &mut Never).map(|made| made.1);
    Ok(Story {
        made,
        asked: count.load(Ordering::SeqCst),
        told,
        cell: Left::of(bench, third).cells[0],
    })
}

fn told(made: u64, asked: u64, told: Reply, cell: u64) -> Story {
    Story {
        made,
        asked,
        told: Some(told),
        cell,
    }
}

/// A lock of a free mutex makes the accesses of a trylock, eight.
#[test]
fn lock_dies_before_each_access(rt: HostRuntime) -> Result<(), Fail> {
    for access in 1..10_u64 {
        let found = dies_before(&rt, rt.alloc(), &[OnMutex(Lock(0))], access)?;
        let want = match access {
            1..=3 => told(0, access, OK, 2),
            4..=8 => told(0, access, EOWNERDEAD, 0x4000_0002),
            _ => told(1, 8, EBUSY, 1),
        };
        assert!(rt; found == want);
    }
    Ok(())
}

/// A thread dies before each access of a lock and an unlock in turn, 15 in all, and its list is walked. Whoever takes
/// the mutex next gets EOWNERDEAD exactly where the dead thread owned it.
#[test]
fn dies_before_each_access_and_exits(rt: HostRuntime) -> Result<(), Fail> {
    for access in 1..17_u64 {
        let calls = [OnMutex(Lock(0)), OnMutex(Unlock(0))];
        let found = dies_before(&rt, rt.alloc(), &calls, access)?;
        let want = match access {
            1..=3 => told(0, access, OK, 2),
            4..=8 => told(0, access, EOWNERDEAD, 0x4000_0002),
            9..=14 => told(1, access, EOWNERDEAD, 0x4000_0002),
            15 => told(1, access, OK, 2),
            _ => told(2, 15, OK, 2),
        };
        assert!(rt; found == want);
    }
    Ok(())
}

/// An unlock that has nobody to wake clears what it announced once its mutex is free: its last access. It dies before
/// that, or lives; the mutex stays free.
#[test]
fn unlock_dies_before_its_end(rt: HostRuntime) -> Result<(), Fail> {
    let calls = [OnMutex(TryLock(0)), OnMutex(Unlock(0))];
    assert!(rt; dies_before(&rt, rt.alloc(), &calls, 15)? == told(1, 15, OK, 2));
    assert!(rt; dies_before(&rt, rt.alloc(), &calls, 16)? == told(2, 15, OK, 2));
    Ok(())
}

/// A fate that never stops its thread, and kills it where it is asked for the time with this number, from 1.
struct KillsAt<'a, R: Wait> {
    rt: &'a R,
    bench: &'a Bench,
    thread: u8,
    left: u32,
}

impl<R: Wait> Fate for KillsAt<'_, R> {
    ghost stopped = { λ k. 0 };

    fn stops(&mut self) -> bool {
        if self.left == 1 {
            let _ = self.bench.kill(self.rt, self.thread);
        }
        self.left = self.left.saturating_sub(1);
        false
    }
}

/// What the next one learns of the mutex where thread 1 is killed right before an access of its lock; None where it
/// lived.
fn killed_at<R: Wait>(rt: &R, alloc: Global, access: u32) -> Result<Option<Reply>, Fail> {
    let (bench, first, second, _, _, _) = team(alloc, Layout::new(5, 1, &[])?, &[])?;
    let mut fate = KillsAt {
        rt,
        bench: &bench,
        thread: 1,
        left: access,
    };
    let made = makes(rt, &bench, first, OnMutex(Lock(0)), &mut fate);
    let KillsAt {
        rt: _,
        bench: _,
        thread: _,
        left: _,
    } = fate;
    if made.is_some() {
        return Ok(None);
    }
    Ok(makes(rt, &bench, second, OnMutex(Lock(0)), &mut Never).map(|made| made.1))
}

/// A lock makes eight accesses. Whoever is killed before one of them doesn't make it: before the fourth it owns the
/// mutex, and the next one learns of its death.
#[test]
fn a_thread_dies_before_its_next_access(rt: HostRuntime) -> Result<(), Fail> {
    for access in 1..=9_u32 {
        let want = match access {
            1..=3 => Some(OK),
            4..=8 => Some(EOWNERDEAD),
            _ => None,
        };
        assert!(rt; killed_at(&rt, rt.alloc(), access)? == want);
    }
    Ok(())
}
