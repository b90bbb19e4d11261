//! Walks of thread 1 over small memories.
ghost use Rattle.exitwalk.specs.Walks.{IsGoing};

use crate::batches::thread;
use crate::words::{exchange, load};
use exitwalk::Walk;
use lockword::{Reply, Tid};
use posixmutex::{Operation, Point};
use std::alloc::Global;
use std::process::Abort;
use std::test::Fail;
use stepprograms::{Access, Answer, Progress, StepProgram};

mod steps;

/// From an entry back to the word before it.
const BACK: u64 = u64::MAX;

const WAITERS: u64 = 0x8000_0000;

const OWNER_DIED: u64 = 0x4000_0000;

/// What a walk did with words that nobody else changed.
#[derive(Clone, Copy)]
struct Done {
    accesses: u64,
    /// How many words it marked.
    marked: u64,
    /// The address of the last of them; 0 for none.
    last: u64,
}

/// What a memory answers whose first word is null.
fn answer(words: &mut [u64], access: Access) -> Answer {
    match access {
        Access::Load { at } if at != 0 => load(words, at),
        Access::Exchange { at, expected, new } if at != 0 => exchange(words, at, expected, new),
        _ => Answer::Fault,
    }
}

fn death(thread: Tid, at: u64) -> Point {
    Point {
        thread,
        at,
        operation: Operation::Death,
        reply: Reply::OK,
    }
}

/// What was done, and one access more, which was the death of thread 1 where it was anything.
fn after(rt: &impl Abort, done: Done, point: Option<Point>) -> Done {
    let accesses = done.accesses.wrapping_add(1);
    match point {
        Some(point) => {
            assert!(rt; point == death(thread(rt, 1), point.at));
            Done {
                accesses,
                marked: done.marked.wrapping_add(1),
                last: point.at,
            }
        }
        None => Done { accesses, ..done },
    }
}

/// Runs a walk to its end.
fn walked(rt: &impl Abort, words: &mut [u64], head: u64) -> Done {
    let mut walk = Walk::new(thread(rt, 1), head);
    let mut done = Done {
        accesses: 0,
        marked: 0,
        last: 0,
    };
    for _ in 1..10_248_u64 {
        let answer = answer(words, walk.next());
        match walk.resume(answer) {
            Progress::Goes { point } => done = after(rt, done, point),
            Progress::Returns { reply, point } => {
                assert!(rt; reply == Reply::OK);
                return after(rt, done, point);
            }
        }
    }
    assert!(rt; false);
    done
}

/// The first entry, the offset, how many accesses there are, and what the mutex's word is in the end.
const SELVES: [(u64, u64, u64, u64); 3] = [
    (5, BACK, 4_100, OWNER_DIED),
    (5, 100, 5, 1),
    (99, BACK, 4, 1),
];

#[test]
fn an_entry_may_link_to_itself(rt: HostRuntime) {
    for (first, offset, accesses, cell) in SELVES {
        let mut words = [0, first, offset, 0, 1, 5, 0, 0, 0, 0, 0, 0, 0, 0, 0, 0];
        assert!(rt; walked(&rt, &mut words, 1).accesses == accesses);
        assert!(rt; words == [0, first, offset, 0, cell, 5, 0, 0, 0, 0, 0, 0, 0, 0, 0, 0]);
    }
}

/// A head, and how many accesses there are.
const HEADS: [(u64, u64); 4] = [(0, 1), (15, 2), (16, 1), (u64::MAX, 1)];

#[test]
fn a_head_may_be_anywhere(rt: HostRuntime) {
    for (head, accesses) in HEADS {
        let mut words = [1_u64; 16];
        assert!(rt; walked(&rt, &mut words, head).accesses == accesses);
        assert!(rt; words == [1; 16]);
    }
}

/// A list of 2,049 entries, entry i at 2i + 3 and its mutex's word before it, owned by thread 1; and what a walk does
/// with it.
#[derive(Clone, Copy)]
struct Long {
    pending: u64,
    /// The word of mutex 7, at 16.
    seventh: u64,
    accesses: u64,
    marked: u64,
    last: u64,
    /// What the word of the last mutex is in the end.
    last_word: u64,
}

const LONG: [Long; 4] = [
    Long {
        pending: 0,
        seventh: 1,
        accesses: 6_147,
        marked: 2_048,
        last: 4_098,
        last_word: 1,
    },
    Long {
        pending: 4_101,
        seventh: 1,
        accesses: 6_149,
        marked: 2_049,
        last: 4_100,
        last_word: OWNER_DIED,
    },
    Long {
        pending: 5,
        seventh: 1,
        accesses: 6_147,
        marked: 2_048,
        last: 4,
        last_word: 1,
    },
    Long {
        pending: 0,
        seventh: 2,
        accesses: 6_146,
        marked: 2_047,
        last: 4_098,
        last_word: 1,
    },
];

/// A word of the list before the walk.
fn word_before(long: Long, at: u64) -> u64 {
    match at {
        0 => 0,
        1 => 5,
        2 => BACK,
        3 => long.pending,
        16 => long.seventh,
        4_101 => 1,
        _ if at % 2 == 0 => 1,
        _ => at.wrapping_add(2),
    }
}

/// The same word after the walk.
fn word_after(long: Long, at: u64) -> u64 {
    match at {
        16 if long.seventh == 2 => 2,
        4_100 => long.last_word,
        _ if 4 <= at && at % 2 == 0 => OWNER_DIED,
        _ => word_before(long, at),
    }
}

fn words_before(alloc: Global, long: Long) -> Result<Vec<u64>, Fail> {
    let mut words = Vec::new(alloc);
    for at in 0..4_102 {
        words.push(word_before(long, at))?;
    }
    Ok(words)
}

#[test]
fn a_list_may_be_too_long(rt: HostRuntime) -> Result<(), Fail> {
    for long in LONG {
        let mut words = words_before(rt.alloc(), long)?;
        let done = walked(&rt, &mut words, 1);
        assert!(rt; done.accesses == long.accesses);
        assert!(rt; done.marked == long.marked);
        assert!(rt; done.last == long.last);
        for place in 0..words.len() {
            assert!(rt; words[place] == word_after(long, place as u64));
        }
    }
    Ok(())
}
