//! Trims of unlocks that found nobody to wake, beside a thread that has fallen asleep since.
ghost use Rattle.std.specs.Prelude.{IfSome};
ghost use Rattle.ruledwords.specs.Outcomes.{IsOwedOf};
ghost use Rattle.ruledwords.specs.Passes.{IsLive};

use crate::sleepers::pays;
use condvar::Op::OnMutex;
use lockword::Reply::{self, OK};
use memorymap::Layout;
use mutex::Call::{Lock, TryLock, Unlock};
use ruledwords::{Fate, Live, Never, Owed, Pass, Released, Wakes};
use std::alloc::Global;
use std::sync::Wait;
use std::sync::atomic::{AtomicU64, Ordering};
use std::test::Fail;
use std::thread::{self, Threads};
use std::time::Clock;
use thread_fixtures::{Left, dies, ends_unless, fall_asleep, makes, team, waits_for};
use threadbench::Bench;

/// How often the fate of a thread is asked that locks an owned mutex until it sleeps: four times, where it doesn't find
/// WAITERS set.
const ASLEEP: u64 = 4;

/// The id of the thread that falls asleep while an unlock is kept back.
const SLEEPER: u8 = 4;

/// How often the fate of an unlock is asked until it trims the cell: before its six accesses up to the one that frees
/// the mutex, before its wake, and before the trim.
const TRIMS: u64 = 8;

/// What the threads tell each other.
#[derive(Drop)]
struct Board {
    /// How often the fate of the unlock was asked that trims the cell.
    unlock: AtomicU64,
    /// Whether another thread has taken the mutex since.
    taken: AtomicU64,
    /// Whether the trim may be made.
    may_trim: AtomicU64,
    /// Whether the unlock has ended.
    ended: AtomicU64,
}

/// The fate of an unlock that trims: it stops nobody, and keeps the thread back before the trim until that may be made.
struct HeldBack<'a, R: Clock> {
    rt: &'a R,
    board: &'a Board,
}

impl<R: Clock> Fate for HeldBack<'_, R> {
    ghost stopped = { λ k. 0 };

    fn stops(&mut self) -> bool {
        let before = self.board.unlock.fetch_add(1, Ordering::SeqCst);
        if before.wrapping_add(1) == TRIMS {
            waits_for(self.rt, &self.board.may_trim, 1);
        }
        false
    }
}

/// The unlock that trims: what it returns.
fn unlock<R: Wait + Clock>(rt: &R, bench: &Bench, pass: Pass<Live>, board: &Board) -> Option<Reply>
    requires { IsLive bench.now pass }
{
    let mut fate = HeldBack { rt, board };
    let made = makes(rt, bench, pass, OnMutex(Unlock(0)), &mut fate);
    let HeldBack { rt: _, board: _ } = fate;
    board.ended.store(1, Ordering::SeqCst);
    made.map(|made| made.1)
}

/// The sleeper's lock, once another thread has the mutex: what it returns.
fn sleep<R: Wait + Clock>(rt: &R, bench: &Bench, pass: Pass<Live>, board: &Board) -> Option<Reply>
    requires { IsLive bench.now pass }
{
    let _came = waits_for(rt, &board.taken, 1);
    makes(rt, bench, pass, OnMutex(Lock(0)), &mut Never).map(|made| made.1)
}

/// Takes the mutex, if it is free: the pass then.
fn takes<R: Wait>(rt: &R, bench: &Bench, pass: Pass<Live>) -> Option<Pass<Live>>
    requires { IsLive bench.now pass }
    ensures { IfSome result (λ p. IsLive bench.now p) }
{
    match makes(rt, bench, pass, OnMutex(TryLock(0)), &mut Never) {
        Some((pass, OK)) => Some(pass),
        _ => None,
    }
}

/// Frees the mutex, where it was taken, and wakes nobody yet.
fn frees(bench: &Bench, taken: Option<Pass<Live>>) -> Option<Owed>
    requires { IfSome taken (λ p. IsLive bench.now p) }
    ensures { IfSome result (λ o. IsOwedOf bench.now o) }
{
    // A layout has at least one mutex, which is known once it is asked for their number.
    let _mutexes = bench.words().layout().mutexes();
    match bench.words().release(taken?, 0, &mut Never) {
        Released::Owes(owed) => Some(owed),
        Released::Refused(_, _) | Released::Dead(_) => None,
    }
}

/// Whom an unlock has to wake, if there is one.
fn wakes_of(owed: &Option<Owed>) -> Option<Wakes> {
    match owed {
        Some(owed) => Some(owed.wakes()),
        None => None,
    }
}

/// Ends an unlock, if there is one: whether it got OK.
fn ends<R: Wait>(rt: &R, bench: &Bench, owed: Option<Owed>) -> bool
    requires { IfSome owed (λ o. IsOwedOf bench.now o) }
{
    match owed {
        Some(owed) => pays(rt, bench, owed),
        None => false,
    }
}

/// The part of two more threads while the unlock is kept back: one takes the mutex, and frees it once another thread
/// sleeps on it; then the trim is made; and before the first of them wakes anybody the other one takes the mutex and
/// frees it. How many sleepers that one has to wake; None where not all went so.
fn take_by_turns<R: Wait + Clock>(
    rt: &R,
    bench: &Bench,
    one: Pass<Live>,
    other: Pass<Live>,
    board: &Board,
) -> Option<Wakes>
    requires one { IsLive bench.now one }
    requires other { IsLive bench.now other }
{
    let came = waits_for(rt, &board.unlock, TRIMS);
    let taken = takes(rt, bench, one);
    board.taken.store(1, Ordering::SeqCst);
    let slept = fall_asleep(rt, bench, &[SLEEPER]);
    let freed = frees(bench, taken);
    board.may_trim.store(1, Ordering::SeqCst);
    let ended = waits_for(rt, &board.ended, 1);
    let taken_later = takes(rt, bench, other);
    let freed_later = frees(bench, taken_later);
    let wakes = wakes_of(&freed_later);
    let paid_later = ends(rt, bench, freed_later);
    let paid = ends(rt, bench, freed);
    if ends_unless(rt, bench, came && slept && ended && paid_later && paid) {
        wakes
    } else {
        None
    }
}

/// What came of it.
#[derive(Clone, Copy)]
struct Story {
    /// What the unlock was told that trims.
    unlocked: Option<Reply>,
    /// How many sleepers the last unlock had to wake.
    wakes: Option<Wakes>,
    /// What the sleeper got.
    slept: Option<Reply>,
}

/// One thread takes the mutex, and another one dies about to sleep on it: WAITERS is set, and nobody sleeps. The
/// owner's pass then.
fn owns_with_waiters<R: Wait>(
    rt: &R,
    bench: &Bench,
    owner: Pass<Live>,
    other: Pass<Live>,
) -> Option<Pass<Live>>
    requires owner { IsLive bench.now owner }
    requires other { IsLive bench.now other }
    ensures { IfSome result (λ p. IsLive bench.now p) }
{
    let owner = takes(rt, bench, owner)?;
    if dies(rt, bench, other, OnMutex(Lock(0)), ASLEEP) {
        Some(owner)
    } else {
        None
    }
}

/// The first of a team, which owns the mutex with WAITERS set, unlocks and is kept back before its trim; then the
/// third, the fourth, which falls asleep, and the fifth come.
fn played<R: Threads + Wait + Clock + Sync>(rt: &R, alloc: Global) -> Result<Option<Story>, Fail> {
    let (bench, first, second, third, fourth, fifth) = team(alloc, Layout::new(5, 1, &[])?, &[])?;
    let Some(first) = owns_with_waiters(rt, &bench, first, second) else {
        return Ok(None);
    };
    let board = Board {
        unlock: AtomicU64::new(0),
        taken: AtomicU64::new(0),
        may_trim: AtomicU64::new(0),
        ended: AtomicU64::new(0),
    };
    let shared = &bench;
    let told = &board;
    let (unlocked, (wakes, slept)) = thread::join(
        rt,
        || -> Option<Reply>
            requires { IsLive shared.now first }
        { unlock(rt, shared, first, told) },
        || -> (Option<Wakes>, Option<Reply>)
            requires { IsLive shared.now third × IsLive shared.now fourth × IsLive shared.now fifth }
        {
            thread::join(
                rt,
                || -> Option<Wakes>
                    requires { IsLive shared.now third × IsLive shared.now fifth }
                { take_by_turns(rt, shared, third, fifth, told) },
                || -> Option<Reply>
                    requires { IsLive shared.now fourth }
                { sleep(rt, shared, fourth, told) },
            )
        },
    );
    Ok(Some(Story {
        unlocked,
        wakes,
        slept,
    }))
}

/// WAITERS stays where a thread has fallen asleep between an unlock's wake, which found nobody, and its trim: the next
/// unlock owes it a wake.
#[test]
fn a_trim_leaves_waiters_to_a_sleeper(rt: HostRuntime) -> Result<(), Fail> {
    for _ in 0..5_u32 {
        let story = played(&rt, rt.alloc())?;
        assert!(rt;
            story.is_some_and(|story| story.unlocked == Some(OK) && story.slept == Some(OK))
        );
        assert!(rt; story.is_some_and(|story| story.wakes == Some(Wakes::One)));
    }
    Ok(())
}

/// The word of the cell once a thread has unlocked, whose fate stops it where it is asked for the time with this
/// number, and the next one has taken the mutex; None where not all went so.
fn left_by<R: Wait>(rt: &R, alloc: Global, stops_at: u64) -> Result<Option<u64>, Fail> {
    let (bench, first, second, third, fourth, _) = team(alloc, Layout::new(5, 1, &[])?, &[])?;
    let Some(first) = owns_with_waiters(rt, &bench, first, second) else {
        return Ok(None);
    };
    let died = dies(rt, &bench, first, OnMutex(Unlock(0)), stops_at);
    let taken = takes(rt, &bench, third).is_some();
    let cell = Left::of(bench, fourth).cells[0];
    Ok(if taken && died == (stops_at > 0) {
        Some(cell)
    } else {
        None
    })
}

/// An unlock that finds nobody to wake clears WAITERS, and leaves it where its thread dies before that.
#[test]
fn a_thread_dies_before_its_trim(rt: HostRuntime) -> Result<(), Fail> {
    assert!(rt; left_by(&rt, rt.alloc(), TRIMS)? == Some(0x8000_0003));
    assert!(rt; left_by(&rt, rt.alloc(), TRIMS + 1)? == Some(3));
    assert!(rt; left_by(&rt, rt.alloc(), 0)? == Some(3));
    Ok(())
}
