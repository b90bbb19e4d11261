//! Threads that sleep on a condition variable, and those that wake or kill them.
ghost use Rattle.ruledwords.specs.Passes.{IsLive};

use crate::roles::Role::{
    self, Broadcasts, BroadcastsToOne, ComesAndBroadcasts, DiesInItsWait, Kills, KillsAfter,
    KillsBesideAMove, KillsProcessBesideAMove, MovesAndKills, MovesBesideAKill, Nothing, Repeats,
    Signals, Waits, WaitsAboveASleeper, WaitsAtOnce, Watches,
};
use crate::roles::{Board, two_act};
use condvar::Op::OnMutex;
use lockword::Reply;
use memorymap::{Layout, bucket_of, key_of};
use mutex::Call::TryLock;
use ruledwords::Never;
use std::alloc::Global;
use std::sync::Wait;
use std::sync::atomic::Ordering;
use std::test::Fail;
use std::thread::{self, Threads};
use std::time::Clock;
use thread_fixtures::{Left, makes, team};

/// A layout's mutexes, and one of its two condition variables, both of which belong to mutex 0.
#[derive(Clone, Copy)]
struct Place {
    mutexes: u16,
    condition: u16,
}

/// The counter's bucket has a higher number than that of the mutex's cell, a lower one, the same.
static PLACES: [Place; 3] = [
    Place {
        mutexes: 1,
        condition: 0,
    },
    Place {
        mutexes: 80,
        condition: 0,
    },
    Place {
        mutexes: 85,
        condition: 1,
    },
];

impl Place {
    fn layout(&self) -> Result<Layout, Fail> {
        Ok(Layout::new(5, self.mutexes, &[0, 0])?)
    }

    /// The buckets of mutex 0 and of the condition variable.
    fn buckets(&self) -> Result<(usize, usize), Fail> {
        let layout = self.layout()?;
        if self.condition >= layout.conditions() || layout.mutexes() == 0 {
            return Ok((0, 0));
        }
        let cell = bucket_of(key_of(layout.cell(0)), 256);
        let counter = bucket_of(key_of(layout.counter(self.condition)), 256);
        Ok((cell, counter))
    }
}

#[test]
fn the_places_are_of_three_kinds(rt: HostRuntime) -> Result<(), Fail> {
    let higher = PLACES[0].buckets()?;
    let lower = PLACES[1].buckets()?;
    let same = PLACES[2].buckets()?;
    assert!(rt; higher.0 < higher.1 && lower.1 < lower.0 && same.0 == same.1 && same.0 != 0);
    Ok(())
}

/// What came of four threads' roles.
#[derive(Clone, Copy, PartialEq, Eq)]
struct Story {
    well: [bool; 4],
    /// Whose waits were answered, as digits, in that order.
    order: u64,
    /// What the fifth's trylock of the mutex returns then.
    told: Option<Reply>,
    counter: u64,
    /// How often the fate of each waiter's wait was asked.
    asked: [u64; 3],
}

/// The first four of a team play these roles at once, on mutex 0 and the place's condition variable.
fn played<R: Threads + Wait + Clock + Sync>(
    rt: &R,
    alloc: Global,
    place: &Place,
    roles: [Role; 4],
) -> Result<Story, Fail> {
    played_on(rt, alloc, place.layout()?, place.condition, roles)
}

/// The same on one of the two condition variables of a layout.
fn played_on<R: Threads + Wait + Clock + Sync>(
    rt: &R,
    alloc: Global,
    layout: Layout,
    condition: u16,
    roles: [Role; 4],
) -> Result<Story, Fail> {
    let (bench, first, second, third, fourth, fifth) = team(alloc, layout, &[0, 0])?;
    let board = Board::new(condition);
    let shared = &bench;
    let told = &board;
    let [a, b, c, d] = roles;
    let (one, other) = thread::join(
        rt,
        || -> [bool; 2]
            requires { IsLive shared.now first × IsLive shared.now second }
        { two_act(rt, shared, first, second, told, [a, b]) },
        || -> [bool; 2]
            requires { IsLive shared.now third × IsLive shared.now fourth }
        { two_act(rt, shared, third, fourth, told, [c, d]) },
    );
    let Some((fifth, reply)) = makes(rt, &bench, fifth, OnMutex(TryLock(0)), &mut Never) else {
        return Err(Fail::new("nobody killed it"));
    };
    let counters = Left::of(bench, fifth).counters;
    Ok(Story {
        well: [one[0], one[1], other[0], other[1]],
        order: board.order.load(Ordering::SeqCst),
        told: Some(reply),
        counter: if condition == 0 {
            counters[0]
        } else {
            counters[1]
        },
        asked: board.asked(),
    })
}

/// How often the fate of a waiter is asked in all whom a broadcast moves and an unlock wakes: eight times until it
/// sleeps, and seven times more.
const MOVED: u64 = 15;

/// A broadcast moves the sleepers to the mutex: nobody wakes before it is free, and then each when the one before gives
/// it back.
#[test]
fn a_broadcast_wakes_three_in_order(rt: HostRuntime) -> Result<(), Fail> {
    let want = Story {
        well: [true; 4],
        order: 123,
        told: Some(Reply::OK),
        counter: 1,
        asked: [MOVED; 3],
    };
    for place in &PLACES {
        let roles = [Waits(0), Waits(1), Waits(2), Broadcasts];
        let found = played(&rt, rt.alloc(), place, roles)?;
        assert!(rt; found == want);
    }
    Ok(())
}

/// Each signal wakes one, who fell asleep first of those that still sleep.
#[test]
fn signals_wake_one_each_in_order(rt: HostRuntime) -> Result<(), Fail> {
    for place in &PLACES {
        let roles = [Waits(0), Waits(1), Waits(2), Signals];
        let found = played(&rt, rt.alloc(), place, roles)?;
        let want = Story {
            well: [true; 4],
            order: 123,
            told: Some(Reply::OK),
            counter: 3,
            asked: found.asked,
        };
        assert!(rt; found == want);
    }
    Ok(())
}

/// A wait wakes whoever sleeps on its mutex, and its fate is asked before that, too: once more than that of a wait
/// which finds nobody there.
#[test]
fn a_wait_wakes_a_sleeper_of_its_mutex(rt: HostRuntime) -> Result<(), Fail> {
    for place in &PLACES {
        let roles = [WaitsAboveASleeper, ComesAndBroadcasts, Watches, Nothing];
        let found = played(&rt, rt.alloc(), place, roles)?;
        assert!(rt; found.well == [true; 4] && found.told == Some(Reply::OK));
        assert!(rt; found.order == 1 && found.counter == 1 && found.asked == [MOVED + 1, 0, 0]);
    }
    Ok(())
}

/// A waiter that was moved and woken dies before each access of the lock that ends its wait: before the load and the
/// exchange it hasn't the mutex yet, and before the five further ones it owns it.
#[test]
fn a_woken_waiter_dies_before_each_access(rt: HostRuntime) -> Result<(), Fail> {
    for place in &PLACES {
        for asked in 9..=MOVED {
            let roles = [DiesInItsWait(asked), BroadcastsToOne, Nothing, Nothing];
            let found = played(&rt, rt.alloc(), place, roles)?;
            let want = Story {
                well: [false, true, true, true],
                order: 0,
                told: Some(if asked <= 10 {
                    Reply::OK
                } else {
                    Reply::EOWNERDEAD
                }),
                counter: 1,
                asked: [asked, 0, 0],
            };
            assert!(rt; found == want);
        }
    }
    Ok(())
}

#[test]
fn a_wait_is_answered_beside_broadcasts(rt: HostRuntime) -> Result<(), Fail> {
    for place in &PLACES {
        let found = played(
            &rt,
            rt.alloc(),
            place,
            [WaitsAtOnce, Repeats, Watches, Nothing],
        )?;
        assert!(rt; found.well == [true; 4] && found.order == 1 && found.told == Some(Reply::OK));
    }
    Ok(())
}

/// The first thread waits and is killed by the second one: whether it died without its mutex, which can be had then.
fn dies_by<R: Threads + Wait + Clock + Sync>(
    rt: &R,
    alloc: Global,
    place: &Place,
    waits: Role,
    kills: Role,
) -> Result<bool, Fail> {
    let found = played(rt, alloc, place, [waits, kills, Nothing, Nothing])?;
    Ok(found.well == [false, true, true, true] && found.order == 0 && found.told == Some(Reply::OK))
}

#[test]
fn a_waiter_is_killed_asleep(rt: HostRuntime) -> Result<(), Fail> {
    for place in &PLACES {
        assert!(rt; dies_by(&rt, rt.alloc(), place, WaitsAtOnce, Kills(1))?);
    }
    Ok(())
}

/// A broadcast has moved it to the mutex.
#[test]
fn a_moved_waiter_is_killed(rt: HostRuntime) -> Result<(), Fail> {
    for place in &PLACES {
        assert!(rt; dies_by(&rt, rt.alloc(), place, WaitsAtOnce, MovesAndKills(1))?);
    }
    Ok(())
}

/// Killed once it has freed its mutex, right before it sleeps or asleep.
#[test]
fn a_waiter_is_killed_about_to_sleep(rt: HostRuntime) -> Result<(), Fail> {
    for place in &PLACES {
        for _ in 0..10_u32 {
            assert!(rt; dies_by(&rt, rt.alloc(), place, WaitsAtOnce, KillsAfter(1, 8))?);
        }
    }
    Ok(())
}

/// The counter's bucket has a much higher number than that of the mutex's cell.
static FAR: Place = Place {
    mutexes: 75,
    condition: 0,
};

/// How often the fate of a broadcast is asked: before it loads the cell and the counter, adds 1 to the counter, sets
/// WAITERS, and moves its sleepers.
const BROADCAST: u64 = 5;

/// The first thread waits, and is killed in this role of the third one's beside the second one's broadcast: whether it
/// died without its mutex, which can be had then.
fn dies_beside_a_move<R: Threads + Wait + Clock + Sync>(
    rt: &R,
    alloc: Global,
    layout: Layout,
    kills: Role,
) -> Result<bool, Fail> {
    let roles = [WaitsAtOnce, MovesBesideAKill, kills, Nothing];
    let found = played_on(rt, alloc, layout, FAR.condition, roles)?;
    Ok(found.well == [false, true, true, true] && found.order == 0 && found.told == Some(Reply::OK))
}

/// A broadcast comes to its move while the waiter is looked for in one bucket after the other, in the order of their
/// numbers: it is found anyway, since nobody is moved during a kill.
#[test]
fn a_waiter_is_killed_while_it_is_moved(rt: HostRuntime) -> Result<(), Fail> {
    let buckets = FAR.buckets()?;
    assert!(rt; buckets.0 < 20 && buckets.1 > 220);
    for asked in 1..=BROADCAST {
        for _ in 0..5_u32 {
            let kills = KillsBesideAMove(1, asked);
            assert!(rt; dies_beside_a_move(&rt, rt.alloc(), FAR.layout()?, kills)?);
        }
    }
    Ok(())
}

/// The same where its process is killed, in which it is alone.
#[test]
fn a_process_is_killed_while_its_thread_is_moved(rt: HostRuntime) -> Result<(), Fail> {
    for asked in 1..=BROADCAST {
        for _ in 0..5_u32 {
            let layout = Layout::with_processes(
                &[1, 0, 0, 0, 0],
                &[0, 1000],
                FAR.mutexes,
                &[0, 0],
            )?;
            let kills = KillsProcessBesideAMove(1, asked);
            assert!(rt; dies_beside_a_move(&rt, rt.alloc(), layout, kills)?);
        }
    }
    Ok(())
}
