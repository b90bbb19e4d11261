//! Threads that others kill between their calls and at work.
ghost use Rattle.ruledwords.specs.Passes.{IsLive};

use condvar::Op::OnMutex;
use lockword::Reply::{self, EOWNERDEAD, OK};
use lockword::Tid;
use memorymap::Layout;
use mutex::Call::{Lock, Unlock};
use ruledwords::{Live, Never, Pass};
use std::alloc::Global;
use std::sync::Wait;
use std::sync::atomic::{AtomicU64, Ordering};
use std::test::Fail;
use std::thread;
use thread_fixtures::Step::{Calls, Kills, KillsProcess};
use thread_fixtures::Who::{First, Fourth, Second, Third};
use thread_fixtures::{Left, Step, makes, plays, team, waits_for};
use threadbench::Bench;

/// The cells that are left where these steps go as they should; None where one goes otherwise.
fn cells_of<R: Wait>(
    rt: &R,
    alloc: Global,
    layout: Layout,
    steps: &[Step],
) -> Result<Option<[u64; 2]>, Fail> {
    let left = plays(rt, alloc, layout, &[], steps)?;
    Ok(left.map(|left| left.cells))
}

/// A thread that was killed dies in its next call; what it held is marked, and what it was about to take isn't touched.
/// A second kill changes nothing.
static IN_THE_NEXT_CALL: [Step; 7] = [
    Calls(First, &[OnMutex(Lock(0))], Some(OK)),
    Kills(1),
    Kills(1),
    Calls(First, &[OnMutex(Lock(1))], None),
    Kills(1),
    Calls(Second, &[OnMutex(Lock(0))], Some(EOWNERDEAD)),
    Calls(Second, &[OnMutex(Lock(1))], Some(OK)),
];

/// The end of an unlock heeds a kill, and its release doesn't: the mutex is free.
static BEFORE_IT_PAYS: [Step; 4] = [
    Calls(First, &[OnMutex(Lock(0))], Some(OK)),
    Kills(1),
    Calls(First, &[OnMutex(Unlock(0))], None),
    Calls(Second, &[OnMutex(Lock(0))], Some(OK)),
];

/// A process is killed: the calls of its threads end, what one of them held is told to a thread of the other process,
/// and that goes on.
static PROCESS_1: [Step; 6] = [
    Calls(Second, &[OnMutex(Lock(0))], Some(OK)),
    KillsProcess(1),
    Calls(Second, &[OnMutex(Lock(1))], None),
    Calls(Fourth, &[OnMutex(Lock(1))], None),
    Calls(First, &[OnMutex(Lock(0))], Some(EOWNERDEAD)),
    Calls(Third, &[OnMutex(Lock(1))], Some(OK)),
];

/// The note of a kill is that of its thread alone: the first of the last five of 250 threads, with the id 246,
/// lives where 28 is killed.
static ANOTHER_THREAD: [Step; 2] = [Kills(28), Calls(First, &[OnMutex(Lock(0))], Some(OK))];

#[test]
fn the_killed_die_in_their_next_calls(rt: HostRuntime) -> Result<(), Fail> {
    let layout = Layout::new(5, 2, &[])?;
    assert!(rt; cells_of(&rt, rt.alloc(), layout, &IN_THE_NEXT_CALL)? == Some([0x4000_0002, 2]));
    let layout = Layout::new(5, 1, &[])?;
    assert!(rt; cells_of(&rt, rt.alloc(), layout, &BEFORE_IT_PAYS)? == Some([2, 0]));
    let layout = Layout::with_processes(&[0, 1, 0, 1, 0], &[0, 1000], 2, &[])?;
    assert!(rt; cells_of(&rt, rt.alloc(), layout, &PROCESS_1)? == Some([0x4000_0001, 3]));
    let last = Tid::new(250).ok_or("no thread 250")?;
    let layout = Layout::up_to(last, 1, &[])?;
    assert!(rt; cells_of(&rt, rt.alloc(), layout, &ANOTHER_THREAD)? == Some([246, 0]));
    Ok(())
}

#[test]
fn nobody_is_refused_but_whom_the_bench_has_not(rt: HostRuntime) -> Result<(), Fail> {
    let layout = Layout::with_processes(&[0, 2, 0], &[0, 1000, 2000], 1, &[])?;
    let (bench, _passes) = Bench::new(rt.alloc(), layout, &[])?;
    for id in 0..=255_u8 {
        let is_one = 1 <= id && id <= 3;
        let refused = Err(Reply::ESRCH);
        assert!(rt; bench.kill(&rt, id) == if is_one { Ok(()) } else { refused });
        assert!(rt; bench.kill_process(&rt, id) == if id < 3 { Ok(()) } else { refused });
    }
    Ok(())
}

/// Locks and unlocks mutex 1 again and again, until it is killed: whether that ended it.
fn run_until_killed<R: Wait>(rt: &R, bench: &Bench, first: Pass<Live>, rounds: &AtomicU64) -> bool
    requires { IsLive bench.now first }
{
    let mut pass = first;
    for turn in 0..10_000_000_u64 {
        rounds.fetch_add(1, Ordering::SeqCst);
        let call = if turn % 2 == 0 { Lock(1) } else { Unlock(1) };
        match makes(rt, bench, pass, OnMutex(call), &mut Never) {
            Some((after, _)) => pass = after,
            None => return true,
        }
    }
    false
}

/// A thread is killed at work. What it owns is marked, and the mutex on which it works can be had.
#[test]
fn a_running_thread_is_killed(rt: HostRuntime) -> Result<(), Fail> {
    for _ in 0..5_u32 {
        let (bench, first, second, _, _, _) = team(rt.alloc(), Layout::new(5, 2, &[])?, &[])?;
        let owner = makes(&rt, &bench, first, OnMutex(Lock(0)), &mut Never).expect(&rt, "it lives");
        let rounds = AtomicU64::new(0);
        let shared = &bench;
        let host = &rt;
        let counter = &rounds;
        let first = owner.0;
        let (died, killed) = thread::join(
            &rt,
            || -> bool
                requires { IsLive shared.now first }
            { run_until_killed(host, shared, first, counter) },
            || -> bool { waits_for(host, counter, 100) && shared.kill(host, 1) == Ok(()) },
        );
        assert!(rt; owner.1 == OK && died && killed);
        let (second, told) = makes(&rt, &bench, second, OnMutex(Lock(0)), &mut Never).expect(
            &rt, "it lives",
        );
        let (second, _) = makes(&rt, &bench, second, OnMutex(Lock(1)), &mut Never).expect(
            &rt, "it lives",
        );
        assert!(rt; told == EOWNERDEAD && Left::of(bench, second).cells[1] & 0x3fff_ffff == 2);
    }
    Ok(())
}
