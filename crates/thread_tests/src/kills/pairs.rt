//! Two threads that sleep on mutexes of an owner that dies, or that kills them.
ghost use Rattle.std.specs.Prelude.{IfSome};
ghost use Rattle.ruledwords.specs.Passes.{IsLive};

use condvar::Op::OnMutex;
use lockword::Reply::{self, ENOTRECOVERABLE, EOWNERDEAD, OK};
use memorymap::Layout;
use mutex::Call::{Consistent, Lock, Unlock};
use ruledwords::{Live, Never, Pass};
use std::alloc::Global;
use std::sync::Wait;
use std::sync::atomic::{AtomicU64, Ordering};
use std::test::Fail;
use std::thread::{self, Threads};
use std::time::Clock;
use thread_fixtures::{are_asleep, dies, ends_unless, fall_asleep, makes, team, waits_for};
use threadbench::Bench;

/// The threads that sleep.
static SLEEPERS: [u8; 2] = [4, 5];

/// What the threads tell each other.
#[derive(Drop)]
struct Board {
    /// How many of the sleepers have ended their parts.
    ended: AtomicU64,
    /// How many were told that the owner had died while the other one slept on.
    alone: AtomicU64,
}

impl Board {
    fn new() -> Board {
        Board {
            ended: AtomicU64::new(0),
            alone: AtomicU64::new(0),
        }
    }
}

/// How the owner leaves two sleepers. It had the mutex from a dead owner if it makes it unusable: it frees it without
/// declaring it consistent.
#[derive(Clone, Copy, PartialEq, Eq)]
enum End {
    /// Dies before its next access.
    Dies,
    /// The same, and each of the two sleeps on a mutex of its own.
    DiesWithBoth,
    Spoils,
    /// Makes it unusable, and dies before it wakes anybody.
    SpoilsAndDies,
    /// Kills their process, which is 1, waits until both have ended, and frees the mutex.
    KillsTheirProcess,
    /// Likewise that of a layout in which theirs is 0.
    KillsProcess0,
}

impl End {
    /// The process of the sleepers.
    fn process(self) -> u8 {
        if self == End::KillsProcess0 { 0 } else { 1 }
    }

    fn layout(self) -> Result<Layout, Fail> {
        let theirs = self.process();
        let other = if theirs == 0 { 1 } else { 0 };
        Ok(Layout::with_processes(&[other, other, other, theirs, theirs], &[0, 1000], 2, &[])?)
    }

    fn spoils(self) -> bool {
        matches!(self, End::Spoils | End::SpoilsAndDies)
    }

    /// On which mutex the other one of the two sleeps.
    fn other_mutex(self) -> u16 {
        if self == End::DiesWithBoth { 1 } else { 0 }
    }
}

/// A sleeper's part: it locks, checks whether the other one sleeps on if the owner has died, declares what it repaired
/// consistent, and unlocks. What its lock returned.
fn follows<R: Wait + Clock>(
    rt: &R,
    bench: &Bench,
    pass: Pass<Live>,
    mutex: u16,
    other: u8,
    board: &Board,
) -> Option<Reply>
    requires { IsLive bench.now pass }
{
    let locked = makes(rt, bench, pass, OnMutex(Lock(mutex)), &mut Never);
    if matches!(locked, Some((_, EOWNERDEAD))) && are_asleep(rt, bench, &[other]) {
        board.alone.fetch_add(1, Ordering::SeqCst);
    }
    board.ended.fetch_add(1, Ordering::SeqCst);
    let (pass, told) = locked?;
    let (pass, _) = makes(rt, bench, pass, OnMutex(Consistent(mutex)), &mut Never)?;
    let (_pass, _) = makes(rt, bench, pass, OnMutex(Unlock(mutex)), &mut Never)?;
    Some(told)
}

/// Takes the mutex, and dies before its next access: whether it did.
fn has_and_dies<R: Wait>(rt: &R, bench: &Bench, pass: Pass<Live>) -> bool
    requires { IsLive bench.now pass }
{
    match makes(rt, bench, pass, OnMutex(Lock(0)), &mut Never) {
        Some((pass, _)) => dies(rt, bench, pass, OnMutex(Consistent(0)), 1),
        None => false,
    }
}

/// The owner kills the sleepers' process, and frees the mutex once both have ended: whether it went so.
fn kills<R: Wait + Clock>(rt: &R, bench: &Bench, pass: Pass<Live>, end: End, board: &Board) -> bool
    requires { IsLive bench.now pass }
{
    let killed = bench.kill_process(rt, end.process()) == Ok(());
    let ended = waits_for(rt, &board.ended, 2);
    killed && ended && makes(rt, bench, pass, OnMutex(Unlock(0)), &mut Never).is_some()
}

/// The owner's part, once both sleep, and then until both have ended: whether it went so.
fn ends<R: Wait + Clock>(rt: &R, bench: &Bench, pass: Pass<Live>, end: End, board: &Board) -> bool
    requires { IsLive bench.now pass }
{
    let came = fall_asleep(rt, bench, &SLEEPERS);
    let went = match end {
        End::Dies | End::DiesWithBoth => dies(rt, bench, pass, OnMutex(Consistent(0)), 1),
        End::Spoils => makes(rt, bench, pass, OnMutex(Unlock(0)), &mut Never).is_some(),
        // an unlock makes six accesses up to the one that frees the mutex
        End::SpoilsAndDies => dies(rt, bench, pass, OnMutex(Unlock(0)), 7),
        End::KillsTheirProcess | End::KillsProcess0 => kills(rt, bench, pass, end, board),
    };
    let ended = waits_for(rt, &board.ended, 2);
    ends_unless(rt, bench, came && went && ended)
}

/// Two sleepers at once: what each got.
fn both_follow<R: Threads + Wait + Clock + Sync>(
    rt: &R,
    bench: &Bench,
    one: Pass<Live>,
    other: Pass<Live>,
    mutex: u16,
    board: &Board,
) -> (Option<Reply>, Option<Reply>)
    requires one { IsLive bench.now one }
    requires other { IsLive bench.now other }
{
    thread::join(
        rt,
        || -> Option<Reply>
            requires { IsLive bench.now one }
        { follows(rt, bench, one, 0, SLEEPERS[1], board) },
        || -> Option<Reply>
            requires { IsLive bench.now other }
        { follows(rt, bench, other, mutex, SLEEPERS[0], board) },
    )
}

/// The three parts at once: whether the owner's went so, and what the sleepers got.
fn all_act<R: Threads + Wait + Clock + Sync>(
    rt: &R,
    bench: &Bench,
    owner: Pass<Live>,
    sleepers: (Pass<Live>, Pass<Live>),
    end: End,
    board: &Board,
) -> (bool, (Option<Reply>, Option<Reply>))
    requires owner { IsLive bench.now owner }
    requires sleepers { IsLive bench.now sleepers.0 × IsLive bench.now sleepers.1 }
{
    let (one, other) = sleepers;
    thread::join(
        rt,
        || -> bool
            requires { IsLive bench.now owner }
        { ends(rt, bench, owner, end, board) },
        || -> (Option<Reply>, Option<Reply>)
            requires one { IsLive bench.now one }
            requires other { IsLive bench.now other }
        { both_follow(rt, bench, one, other, end.other_mutex(), board) },
    )
}

/// What came of it.
#[derive(Clone, Copy)]
struct Story {
    /// Whether the owner did its part, and both sleepers ended theirs.
    well: bool,
    /// What the two got.
    told: [Option<Reply>; 2],
    /// How many were told that the owner had died while the other one slept on.
    alone: u64,
}

/// Locks this mutex: the pass then.
fn has<R: Wait>(rt: &R, bench: &Bench, pass: Pass<Live>, mutex: u16) -> Option<Pass<Live>>
    requires { IsLive bench.now pass }
    ensures { IfSome result (λ p. IsLive bench.now p) }
{
    makes(rt, bench, pass, OnMutex(Lock(mutex)), &mut Never).map(|made| made.0)
}

/// The third of a team owns both mutexes, the first of which its first had and died with if it is to become unusable,
/// and the last two sleep.
fn played<R: Threads + Wait + Clock + Sync>(
    rt: &R,
    alloc: Global,
    end: End,
) -> Result<Option<Story>, Fail> {
    let (bench, first, _, third, fourth, fifth) = team(alloc, end.layout()?, &[])?;
    if end.spoils() && !has_and_dies(rt, &bench, first) {
        return Ok(None);
    }
    let Some(third) = has(rt, &bench, third, 0) else {
        return Ok(None);
    };
    let Some(third) = has(rt, &bench, third, 1) else {
        return Ok(None);
    };
    let board = Board::new();
    let sleepers = (fourth, fifth);
    let (well, told) = all_act(rt, &bench, third, sleepers, end, &board);
    Ok(Some(Story {
        well,
        told: [told.0, told.1],
        alone: board.alone.load(Ordering::SeqCst),
    }))
}

/// The owner dies while two sleep: the walk wakes one of them, which learns of it, declares the mutex consistent and
/// frees it, and only then the other one is woken.
#[test]
fn both_sleepers_of_a_dead_owner_wake(rt: HostRuntime) -> Result<(), Fail> {
    for _ in 0..5_u32 {
        let Some(story) = played(&rt, rt.alloc(), End::Dies)? else {
            return Err(Fail::new("the owner has it"));
        };
        let first = story.told == [Some(EOWNERDEAD), Some(OK)];
        assert!(rt; story.well && (first || story.told == [Some(OK), Some(EOWNERDEAD)]));
        assert!(rt; story.alone == 1);
    }
    Ok(())
}

/// Whether each of the two was told so.
fn both_are_told<R: Threads + Wait + Clock + Sync>(
    rt: &R,
    alloc: Global,
    end: End,
    told: Option<Reply>,
) -> Result<bool, Fail> {
    let story = played(rt, alloc, end)?;
    Ok(story.is_some_and(|story| story.well && story.told == [told, told]))
}

/// The owner of two mutexes dies: the walk wakes the sleeper of each.
#[test]
fn sleepers_of_both_mutexes_wake(rt: HostRuntime) -> Result<(), Fail> {
    assert!(rt; both_are_told(&rt, rt.alloc(), End::DiesWithBoth, Some(EOWNERDEAD))?);
    Ok(())
}

/// The mutex becomes unusable while two sleep on it: both are woken, and told so. Where its owner dies before it wakes
/// them, the walk wakes one, whose lock finds the mutex unusable and wakes the other.
#[test]
fn both_sleepers_of_a_spoiled_mutex_are_told(rt: HostRuntime) -> Result<(), Fail> {
    for end in [End::Spoils, End::SpoilsAndDies] {
        assert!(rt; both_are_told(&rt, rt.alloc(), end, Some(ENOTRECOVERABLE))?);
    }
    Ok(())
}

/// A process is killed, the first or another one, while two of its threads sleep: both end.
#[test]
fn both_sleepers_of_a_process_are_killed(rt: HostRuntime) -> Result<(), Fail> {
    for end in [End::KillsTheirProcess, End::KillsProcess0] {
        assert!(rt; both_are_told(&rt, rt.alloc(), end, None)?);
    }
    Ok(())
}
