//! Threads that sleep for each other.
ghost use Rattle.std.specs.Prelude.{IfSome};
ghost use Rattle.ruledwords.specs.Outcomes.{IsOwedOf};
ghost use Rattle.ruledwords.specs.Passes.{IsLive};

use condvar::Op::OnMutex;
use lockword::Reply::{self, OK};
use memorymap::Layout;
use mutex::Call::{Lock, Unlock};
use ruledwords::{Live, Never, Outcome, Owed, Pass, Released};
use std::alloc::Global;
use std::fs;
use std::rt::Files;
use std::sync::Wait;
use std::sync::atomic::{AtomicU64, Ordering};
use std::test::Fail;
use std::thread::{self, Threads};
use std::time::{Clock, Duration};
use thread_fixtures::{Asked, Left, are_asleep, ends_unless, fall_asleep, makes, team};
use threadbench::Bench;

const ROUNDS: u32 = 500;

/// Locks and unlocks: how many calls got OK.
fn rounds<R: Wait>(rt: &R, bench: &Bench, first: Pass<Live>) -> u32
    requires { IsLive bench.now first }
{
    let mut pass = first;
    let mut well: u32 = 0;
    for turn in 0..2 * ROUNDS {
        let call = if turn % 2 == 0 { Lock(0) } else { Unlock(0) };
        match makes(rt, bench, pass, OnMutex(call), &mut Never) {
            Some((after, reply)) => {
                pass = after;
                well = well.wrapping_add(u32::from(reply == OK));
            }
            None => return well,
        }
    }
    well
}

#[test]
fn two_threads_sleep_for_each_other(rt: HostRuntime) -> Result<(), Fail> {
    let (bench, first, second, third, _, _) = team(rt.alloc(), Layout::new(5, 1, &[])?, &[])?;
    let shared = &bench;
    let host = &rt;
    let told = thread::join(
        &rt,
        || -> u32
            requires { IsLive shared.now first }
        { rounds(host, shared, first) },
        || -> u32
            requires { IsLive shared.now second }
        { rounds(host, shared, second) },
    );
    assert!(rt; told == (2 * ROUNDS, 2 * ROUNDS));
    assert!(rt; Left::of(bench, third).cells[0] == 0);
    Ok(())
}

/// What was seen of a lock by another thread, before the mutex's owner paid for its release: how often its fate was
/// asked, and whether it slept.
#[derive(Clone, Copy)]
struct Before {
    slept: bool,
    count: u64,
    paid: bool,
}

/// The id of the thread that sleeps.
const SLEEPER: u8 = 2;

/// The end of an unlock: whether it got OK.
pub(crate) fn pays<R: Wait>(rt: &R, bench: &Bench, owed: Owed) -> bool
    requires { IsOwedOf bench.now owed }
{
    match bench.pay(rt, owed, &mut Never) {
        Outcome::Lives(_, reply) => reply == OK,
        Outcome::Dead(_) => false,
    }
}

/// The owner's part: it waits for the sleeper, frees the mutex, and looks at the count before it wakes anybody.
fn free_and_look<R: Wait + Clock>(
    rt: &R,
    bench: &Bench,
    pass: Pass<Live>,
    count: &AtomicU64,
) -> Before
    requires { IsLive bench.now pass }
{
    let _mutexes = bench.words().layout().mutexes();
    let came = fall_asleep(rt, bench, &[SLEEPER]);
    let before = match bench.words().release(pass, 0, &mut Never) {
        Released::Owes(owed) => Before {
            slept: came && are_asleep(rt, bench, &[SLEEPER]),
            count: count.load(Ordering::SeqCst),
            paid: pays(rt, bench, owed),
        },
        Released::Refused(_, _) | Released::Dead(_) => Before {
            slept: false,
            count: 0,
            paid: false,
        },
    };
    ends_unless(rt, bench, before.slept && before.paid);
    before
}

/// What a lock with this count returns.
fn counted_lock<R: Wait>(
    rt: &R,
    bench: &Bench,
    pass: Pass<Live>,
    count: &AtomicU64,
) -> Option<Reply>
    requires { IsLive bench.now pass }
{
    makes(rt, bench, pass, OnMutex(Lock(0)), &mut Asked::new(count, 0)).map(|made| made.1)
}

/// How often the fate of a lock was asked before its thread was woken, and in all; and what it leaves in the cell.
#[derive(Clone, Copy)]
struct Counted {
    before: u64,
    all: u64,
    cell: u64,
}

/// One thread locks a mutex, and another one sleeps on it. What was counted of that one; None where not all went well.
fn one_sleeps<R: Threads + Wait + Clock + Sync>(
    rt: &R,
    alloc: Global,
) -> Result<Option<Counted>, Fail> {
    let (bench, first, second, third, _, _) = team(alloc, Layout::new(5, 1, &[])?, &[])?;
    let Some((first, taken)) = makes(rt, &bench, first, OnMutex(Lock(0)), &mut Never) else {
        return Ok(None);
    };
    let count = AtomicU64::new(0);
    let shared = &bench;
    let counter = &count;
    let (freed, told) = thread::join(
        rt,
        || -> Before
            requires { IsLive shared.now first }
        { free_and_look(rt, shared, first, counter) },
        || -> Option<Reply>
            requires { IsLive shared.now second }
        { counted_lock(rt, shared, second, counter) },
    );
    let counted = Counted {
        before: freed.count,
        all: count.load(Ordering::SeqCst),
        cell: Left::of(bench, third).cells[0],
    };
    let well = taken == OK && freed.slept && freed.paid && told == Some(OK);
    Ok(if well { Some(counted) } else { None })
}

/// A thread locks a mutex that another owns, and its fate is asked before each access and each section: four times
/// until it sleeps, while the owner frees the mutex and wakes nobody yet; then it is woken, and asked seven times more.
/// WAITERS stays, since the wake found somebody.
#[test]
fn a_sleeper_makes_no_access(rt: HostRuntime) -> Result<(), Fail> {
    for _ in 0..5_u32 {
        let Some(counted) = one_sleeps(&rt, rt.alloc())? else {
            return Err(Fail::new("all are told OK"));
        };
        assert!(rt; counted.before == 4 && counted.all == 11 && counted.cell == 0x8000_0002);
    }
    Ok(())
}

/// How often in a row the owner of a mutex finds that a thread sleeps which waits for it, some 200 microseconds apart.
const ASLEEP: u32 = 50;

/// A file of proc(5); None where it can't be read.
fn read<R: Files + AllocGlobal>(rt: &R, name: &str) -> Option<String> {
    fs::read_to_string(rt, name).ok()
}

/// The id that the system has for the calling thread, by which others find it (proc(5), `stat`).
fn own_id<R: Files + AllocGlobal>(rt: &R) -> Option<u64> {
    let text = read(rt, "/proc/thread-self/stat")?;
    let (id, _) = text.as_str().split_once(' ')?;
    id.parse::<u64>().ok()
}

/// Whether the thread of this process with this id sleeps just now, and doesn't even wait for a processor (proc(5),
/// `stat`: its state, after its name).
fn is_at_rest<R: Files + AllocGlobal>(rt: &R, id: u64) -> bool {
    let Ok(name) = format!(in rt.alloc(); "/proc/self/task/{id}/stat") else {
        return false;
    };
    match read(rt, name.as_str()) {
        Some(text) => text
            .as_str()
            .rsplit_once(')')
            .is_some_and(|parts| parts.1.starts_with(" S")),
        None => false,
    }
}

/// Waits until the thread stands in a queue, and then until it is found at rest so often in a row; false where that
/// doesn't come.
fn rests<R: Wait + Clock + Files + AllocGlobal>(rt: &R, bench: &Bench, id: &AtomicU64) -> bool {
    if !fall_asleep(rt, bench, &[SLEEPER]) {
        return false;
    }
    let mut found = 0_u32;
    for _ in 0..50_000_u32 {
        if found == ASLEEP {
            return true;
        }
        found = if is_at_rest(rt, id.load(Ordering::SeqCst)) {
            found.wrapping_add(1)
        } else {
            0
        };
        thread::sleep(rt, Duration::from_micros(200));
    }
    false
}

/// The owner's part: it frees its two mutexes, one after the other, each once the other thread rests. Whether all went
/// so.
fn frees_both<R: Wait + Clock + Files + AllocGlobal>(
    rt: &R,
    bench: &Bench,
    first: Pass<Live>,
    id: &AtomicU64,
) -> bool
    requires { IsLive bench.now first }
{
    let mut pass = first;
    for mutex in 0..2_u16 {
        if !rests(rt, bench, id) {
            return false;
        }
        match makes(rt, bench, pass, OnMutex(Unlock(mutex)), &mut Never) {
            Some((after, OK)) => pass = after,
            _ => return false,
        }
    }
    true
}

/// Locks both mutexes: the pass then, if both calls got OK.
fn takes_both<R: Wait>(rt: &R, bench: &Bench, first: Pass<Live>) -> Option<Pass<Live>>
    requires { IsLive bench.now first }
    ensures { IfSome result (λ p. IsLive bench.now p) }
{
    let (pass, taken) = makes(rt, bench, first, OnMutex(Lock(0)), &mut Never)?;
    let (pass, taken_next) = makes(rt, bench, pass, OnMutex(Lock(1)), &mut Never)?;
    if taken == OK && taken_next == OK {
        Some(pass)
    } else {
        None
    }
}

/// The sleeper's part: it tells its id, and locks both mutexes.
fn sleeps_for_both<R: Wait + Files + AllocGlobal>(
    rt: &R,
    bench: &Bench,
    pass: Pass<Live>,
    id: &AtomicU64,
) -> bool
    requires { IsLive bench.now pass }
{
    id.store(own_id(rt).unwrap_or(0), Ordering::SeqCst);
    takes_both(rt, bench, pass).is_some()
}

/// A thread that sleeps asks for no processor: neither where it has never slept before, nor where it was woken before.
#[test]
fn a_sleeper_takes_no_time(rt: HostRuntime) -> Result<(), Fail> {
    let (bench, first, second, _, _, _) = team(rt.alloc(), Layout::new(5, 2, &[])?, &[])?;
    let Some(first) = takes_both(&rt, &bench, first) else {
        assert!(rt; false);
        return Ok(());
    };
    let id = AtomicU64::new(0);
    let shared = &bench;
    let host = &rt;
    let told = &id;
    let (freed, took) = thread::join(
        &rt,
        || -> bool
            requires { IsLive shared.now first }
        { ends_unless(host, shared, frees_both(host, shared, first, told)) },
        || -> bool
            requires { IsLive shared.now second }
        { sleeps_for_both(host, shared, second, told) },
    );
    assert!(rt; freed && took);
    Ok(())
}
