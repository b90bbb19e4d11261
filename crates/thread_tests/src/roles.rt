//! What threads do beside others that wait.
ghost use Rattle.std.specs.Prelude.{IfSome};
ghost use Rattle.ruledwords.specs.Passes.{IsLive};

use condvar::CondCall::{self, Broadcast, Signal};
use condvar::Op::{self, OnCondition, OnMutex};
use lockword::Reply;
use mutex::Call::{Lock, Unlock};
use ruledwords::{Live, Never, Pass};
use std::sync::Wait;
use std::sync::atomic::{AtomicU64, Ordering};
use std::thread::{self, Threads};
use std::time::Clock;
use thread_fixtures::{Asked, are_asleep, ends_unless, fall_asleep, makes, waits_for};
use threadbench::Bench;

/// How often the fate of a waiter is asked until it sleeps: it loads the cell and the counter, announces the one mutex
/// that it holds, takes it out of its list by 3, frees it, and falls asleep.
const ASLEEP: u64 = 8;

/// What threads tell each other.
#[derive(Drop)]
pub(crate) struct Board {
    /// The condition variable, which belongs to mutex 0.
    pub(crate) condition: u16,
    /// How often each waiter's fate was asked in its wait.
    asked: [AtomicU64; 3],
    /// Which waiters' waits were answered, from 1, in that order, as digits.
    pub(crate) order: AtomicU64,
    /// Waiters that died.
    deaths: AtomicU64,
    /// How often the fate of a broadcast was asked beside which the waiter is killed.
    broadcast: AtomicU64,
    /// Whether the first waiter owns the mutex on which another thread is to sleep.
    owned: AtomicU64,
}

/// The threads that wait, in the order of their numbers.
static WAITERS: [u8; 3] = [1, 2, 3];

/// The first this many of them.
fn first_waiters(waiters: usize) -> &'static [u8] {
    match waiters {
        0 => &[],
        1 => &WAITERS[..1],
        2 => &WAITERS[..2],
        _ => &WAITERS,
    }
}

/// Those after the first this many.
fn last_waiters(waiters: usize) -> &'static [u8] {
    match waiters {
        0 => &WAITERS,
        1 => &WAITERS[1..],
        2 => &WAITERS[2..],
        _ => &[],
    }
}

/// Waits until the first this many waiters stand in the condition variable's queue.
fn sleep<R: Wait + Clock>(rt: &R, bench: &Bench, waiters: usize) -> bool {
    fall_asleep(rt, bench, first_waiters(waiters))
}

/// What a thread does.
#[derive(Clone, Copy, PartialEq, Eq)]
pub(crate) enum Role {
    Nothing,
    /// Waits, as the one with this number, from 0, once those before it sleep.
    Waits(usize),
    /// Waits as the first one, at once.
    WaitsAtOnce,
    /// The same, and dies where the fate of its wait is asked for the time with this number.
    DiesInItsWait(u64),
    /// Takes the mutex, broadcasts and gives it back, until a wait was answered, and a million times at most.
    Repeats,
    /// Takes the mutex, and waits as the first one once the second thread sleeps on the mutex.
    WaitsAboveASleeper,
    /// Once the first thread owns the mutex: takes it, and broadcasts to the first waiter, once that sleeps.
    ComesAndBroadcasts,
    /// Waits until a wait was answered.
    Watches,
    /// Once three sleep: broadcasts to them.
    Broadcasts,
    /// Once one sleeps: broadcasts to it.
    BroadcastsToOne,
    /// Once three sleep: signals as often.
    Signals,
    /// Kills the thread with this id, which waits as the first, once that sleeps.
    Kills(u8),
    /// The same, once it has moved it to the mutex.
    MovesAndKills(u8),
    /// The same, once that was asked so often, asleep or not.
    KillsAfter(u8, u64),
    /// Once the first waiter sleeps: takes the mutex, broadcasts, and gives it back once the waiter is dead, whom
    /// another thread kills meanwhile.
    MovesBesideAKill,
    /// Kills the thread with this id, which waits as the first, once the fate of the broadcast that moves it was asked
    /// so often.
    KillsBesideAMove(u8, u64),
    /// Likewise the process with this number.
    KillsProcessBesideAMove(u8, u64),
}

impl Board {
    pub(crate) fn new(condition: u16) -> Board {
        Board {
            condition,
            asked: [AtomicU64::new(0), AtomicU64::new(0), AtomicU64::new(0)],
            order: AtomicU64::new(0),
            deaths: AtomicU64::new(0),
            broadcast: AtomicU64::new(0),
            owned: AtomicU64::new(0),
        }
    }

    /// The wait of this waiter was answered. Its thread owns the mutex.
    fn answer(&self, waiter: usize) {
        let order = self.order.load(Ordering::SeqCst);
        let next = order
            .wrapping_mul(10)
            .wrapping_add(waiter as u64)
            .wrapping_add(1);
        self.order.store(next, Ordering::SeqCst);
    }

    /// How often each waiter's fate was asked.
    pub(crate) fn asked(&self) -> [u64; 3] {
        let [first, second, third] = &self.asked;
        [
            first.load(Ordering::SeqCst),
            second.load(Ordering::SeqCst),
            third.load(Ordering::SeqCst),
        ]
    }

    fn order(&self) -> u64 {
        self.order.load(Ordering::SeqCst)
    }
}

/// Makes a call of a thread that is to live: its pass, if it got OK.
fn is_told_ok<R: Wait>(rt: &R, bench: &Bench, pass: Pass<Live>, op: Op) -> Option<Pass<Live>>
    requires { IsLive bench.now pass }
    ensures { IfSome result (λ p. IsLive bench.now p) }
{
    match makes(rt, bench, pass, op, &mut Never) {
        Some((pass, Reply::OK)) => Some(pass),
        _ => None,
    }
}

/// Makes a call as the owner of the mutex: its pass, if all got OK.
fn as_owner<R: Wait>(rt: &R, bench: &Bench, pass: Pass<Live>, call: CondCall) -> Option<Pass<Live>>
    requires { IsLive bench.now pass }
    ensures { IfSome result (λ p. IsLive bench.now p) }
{
    let pass = is_told_ok(rt, bench, pass, OnMutex(Lock(0)))?;
    let pass = is_told_ok(rt, bench, pass, OnCondition(call))?;
    is_told_ok(rt, bench, pass, OnMutex(Unlock(0)))
}

/// Takes the mutex and waits, with the second thread asleep on the mutex by then: whether all got OK.
fn waits_above<R: Wait + Clock>(rt: &R, bench: &Bench, pass: Pass<Live>, board: &Board) -> bool
    requires { IsLive bench.now pass }
{
    let Some(pass) = is_told_ok(rt, bench, pass, OnMutex(Lock(0))) else {
        return false;
    };
    board.owned.store(1, Ordering::SeqCst);
    fall_asleep(rt, bench, &WAITERS[1..2])
        && waits_as_owner(rt, bench, pass, board, Waiter::living(0))
}

/// Comes for the mutex that the first thread owns, which frees it by its wait, and broadcasts once that sleeps.
fn comes<R: Wait + Clock>(rt: &R, bench: &Bench, pass: Pass<Live>, board: &Board) -> bool
    requires { IsLive bench.now pass }
{
    if !waits_for(rt, &board.owned, 1) {
        return false;
    }
    let Some(pass) = is_told_ok(rt, bench, pass, OnMutex(Lock(0))) else {
        return false;
    };
    if !sleep(rt, bench, 1) {
        return false;
    }
    let Some(pass) = is_told_ok(rt, bench, pass, OnCondition(Broadcast(board.condition))) else {
        return false;
    };
    is_told_ok(rt, bench, pass, OnMutex(Unlock(0))).is_some()
}

/// A waiter by its number, from 0, which dies where the fate of its wait is asked for the time with that number, from
/// 1; a 0 never comes.
#[derive(Clone, Copy)]
struct Waiter {
    number: usize,
    stops_at: u64,
}

impl Waiter {
    fn living(number: usize) -> Waiter {
        Waiter {
            number,
            stops_at: 0,
        }
    }
}

/// Takes the mutex, waits, and gives it back; whether it lives and all got OK.
fn waits<R: Wait>(rt: &R, bench: &Bench, pass: Pass<Live>, board: &Board, waiter: Waiter) -> bool
    requires { IsLive bench.now pass }
{
    match is_told_ok(rt, bench, pass, OnMutex(Lock(0))) {
        Some(pass) => waits_as_owner(rt, bench, pass, board, waiter),
        None => false,
    }
}

/// The same of a thread that has the mutex.
fn waits_as_owner<R: Wait>(
    rt: &R,
    bench: &Bench,
    pass: Pass<Live>,
    board: &Board,
    waiter: Waiter,
) -> bool
    requires { IsLive bench.now pass }
{
    let Some(asked) = board.asked.get(waiter.number) else {
        return false;
    };
    let call = OnCondition(CondCall::Wait(board.condition));
    match makes(
        rt,
        bench,
        pass,
        call,
        &mut Asked::new(asked, waiter.stops_at),
    ) {
        Some((pass, reply)) => {
            board.answer(waiter.number);
            is_told_ok(rt, bench, pass, OnMutex(Unlock(0))).is_some() && reply == Reply::OK
        }
        None => {
            board.deaths.fetch_add(1, Ordering::SeqCst);
            false
        }
    }
}

fn repeats<R: Wait>(rt: &R, bench: &Bench, first: Pass<Live>, board: &Board) -> bool
    requires { IsLive bench.now first }
{
    let mut pass = first;
    for _ in 0..1_000_000_u32 {
        if board.order() > 0 {
            return true;
        }
        match as_owner(rt, bench, pass, Broadcast(board.condition)) {
            Some(after) => pass = after,
            None => return false,
        }
    }
    false
}

/// Nobody wakes before the mutex is free.
fn broadcasts<R: Wait + Clock>(rt: &R, bench: &Bench, pass: Pass<Live>, board: &Board) -> bool
    requires { IsLive bench.now pass }
{
    let Some(pass) = is_told_ok(rt, bench, pass, OnMutex(Lock(0))) else {
        return false;
    };
    let Some(pass) = is_told_ok(rt, bench, pass, OnCondition(Broadcast(board.condition))) else {
        return false;
    };
    are_asleep(rt, bench, &WAITERS) && is_told_ok(rt, bench, pass, OnMutex(Unlock(0))).is_some()
}

/// Each signal wakes one, and those after it sleep on.
fn signals<R: Wait + Clock>(rt: &R, bench: &Bench, first: Pass<Live>, board: &Board) -> bool
    requires { IsLive bench.now first }
{
    let mut pass = first;
    for (woken, want) in [(1, 1_u64), (2, 12), (3, 123)] {
        match as_owner(rt, bench, pass, Signal(board.condition)) {
            Some(after) => pass = after,
            None => return false,
        }
        let came = waits_for(rt, &board.order, want) && board.order() == want;
        if !came || !are_asleep(rt, bench, last_waiters(woken)) {
            return false;
        }
    }
    true
}

/// Kills the first waiter as the owner of the mutex, which it gives back once that is dead.
fn kills<R: Wait + Clock>(
    rt: &R,
    bench: &Bench,
    pass: Pass<Live>,
    board: &Board,
    victim: u8,
    moves: bool,
) -> bool
    requires { IsLive bench.now pass }
{
    let Some(mut pass) = is_told_ok(rt, bench, pass, OnMutex(Lock(0))) else {
        return false;
    };
    if moves {
        match is_told_ok(rt, bench, pass, OnCondition(Broadcast(board.condition))) {
            Some(after) => pass = after,
            None => return false,
        }
    }
    let sleeps = are_asleep(rt, bench, &[victim]);
    let killed = bench.kill(rt, victim) == Ok(());
    let died = waits_for(rt, &board.deaths, 1);
    let freed = is_told_ok(rt, bench, pass, OnMutex(Unlock(0))).is_some();
    sleeps && killed && died && freed
}

/// Moves the first waiter to the mutex as its owner, while another thread kills the waiter, and gives the mutex back
/// once that is dead.
fn moves<R: Wait + Clock>(rt: &R, bench: &Bench, pass: Pass<Live>, board: &Board) -> bool
    requires { IsLive bench.now pass }
{
    let Some(pass) = is_told_ok(rt, bench, pass, OnMutex(Lock(0))) else {
        return false;
    };
    let call = OnCondition(Broadcast(board.condition));
    let mut fate = Asked::new(&board.broadcast, 0);
    let Some((pass, Reply::OK)) = makes(rt, bench, pass, call, &mut fate) else {
        return false;
    };
    let died = waits_for(rt, &board.deaths, 1);
    is_told_ok(rt, bench, pass, OnMutex(Unlock(0))).is_some() && died
}

/// Waits, awake, until the fate of the broadcast was asked so often: the time of a sleep is long beside that of a kill.
fn meets_a_move(board: &Board, asked: u64) -> bool {
    for _ in 0..1_000_000_000_u32 {
        if board.broadcast.load(Ordering::SeqCst) >= asked {
            return true;
        }
    }
    false
}

/// Does its part: whether all went as it should. Where that of a thread which doesn't wait itself didn't, all are
/// killed, so that nobody sleeps on.
fn acts<R: Wait + Clock>(rt: &R, bench: &Bench, pass: Pass<Live>, board: &Board, role: Role) -> bool
    requires { IsLive bench.now pass }
{
    let well = does_its_part(rt, bench, pass, board, role);
    match role {
        Role::Waits(_) | Role::WaitsAtOnce | Role::DiesInItsWait(_) => well,
        _ => ends_unless(rt, bench, well),
    }
}

fn does_its_part<R: Wait + Clock>(
    rt: &R,
    bench: &Bench,
    pass: Pass<Live>,
    board: &Board,
    role: Role,
) -> bool
    requires { IsLive bench.now pass }
{
    match role {
        Role::Nothing => true,
        Role::Waits(waiter) => {
            sleep(rt, bench, waiter) && waits(rt, bench, pass, board, Waiter::living(waiter))
        }
        Role::WaitsAtOnce => waits(rt, bench, pass, board, Waiter::living(0)),
        Role::DiesInItsWait(asked) => {
            let waiter = Waiter {
                number: 0,
                stops_at: asked,
            };
            waits(rt, bench, pass, board, waiter)
        }
        Role::Repeats => repeats(rt, bench, pass, board),
        Role::WaitsAboveASleeper => waits_above(rt, bench, pass, board),
        Role::ComesAndBroadcasts => comes(rt, bench, pass, board),
        Role::Watches => waits_for(rt, &board.order, 1),
        Role::Broadcasts => sleep(rt, bench, 3) && broadcasts(rt, bench, pass, board),
        Role::BroadcastsToOne => {
            sleep(rt, bench, 1) && as_owner(rt, bench, pass, Broadcast(board.condition)).is_some()
        }
        Role::Signals => sleep(rt, bench, 3) && signals(rt, bench, pass, board),
        Role::Kills(victim) => {
            sleep(rt, bench, 1) && kills(rt, bench, pass, board, victim, false)
        }
        Role::MovesAndKills(victim) => {
            sleep(rt, bench, 1) && kills(rt, bench, pass, board, victim, true)
        }
        Role::KillsAfter(victim, asked) => {
            waits_for(rt, &board.asked[0], asked)
                && bench.kill(rt, victim) == Ok(())
                && waits_for(rt, &board.deaths, 1)
        }
        Role::MovesBesideAKill => sleep(rt, bench, 1) && moves(rt, bench, pass, board),
        Role::KillsBesideAMove(victim, asked) => {
            waits_for(rt, &board.asked[0], ASLEEP)
                && meets_a_move(board, asked)
                && bench.kill(rt, victim) == Ok(())
        }
        Role::KillsProcessBesideAMove(process, asked) => {
            waits_for(rt, &board.asked[0], ASLEEP)
                && meets_a_move(board, asked)
                && bench.kill_process(rt, process) == Ok(())
        }
    }
}

/// Two threads at once.
pub(crate) fn two_act<R: Threads + Wait + Clock + Sync>(
    rt: &R,
    bench: &Bench,
    first: Pass<Live>,
    second: Pass<Live>,
    board: &Board,
    roles: [Role; 2],
) -> [bool; 2]
    requires first { IsLive bench.now first }
    requires second { IsLive bench.now second }
{
    let [one, other] = roles;
    let (one, other) = thread::join(
        rt,
        || -> bool
            requires { IsLive bench.now first }
        { acts(rt, bench, first, board, one) },
        || -> bool
            requires { IsLive bench.now second }
        { acts(rt, bench, second, board, other) },
    );
    [one, other]
}
