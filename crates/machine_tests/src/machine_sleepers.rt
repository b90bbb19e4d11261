//! Threads that sleep, and machines where one thread runs alone.

use crate::machine_rows::Does::{Begins, Calls, Steps};
use crate::machine_rows::Noted::{Any, Nothing, Sleeps};
use crate::machine_rows::Standing::{self, Asleep, Awake, Resting};
use crate::machine_rows::{
    LOCK, ONE_TAKES, Row, TWO_SLEEPS, UNLOCK, alone_after, goes_through, gone_through, has_words,
    have_ids, machine, standing_of, thread,
};
use interleave::Machine;
use std::alloc::Global;
use std::test::Fail;

/// Thread 1 wakes thread 2 by its unlock.
const WAKES: Row = Row(Calls(1, UNLOCK, 8), Any, Resting, Awake);

const ONE_IS_WOKEN: [Row; 3] = [ONE_TAKES, TWO_SLEEPS, WAKES];

/// Events of two threads, and what they leave in the mutex's cell.
type Part = (&'static [Row], u64);

/// The place of the first part whose events go otherwise or leave another cell.
fn first_wrong(alloc: Global, parts: &[Part]) -> Result<Option<usize>, Fail> {
    let mut machine = machine(alloc, 2, 1, &[])?;
    for (place, (rows, cell)) in parts.iter().enumerate() {
        if !goes_through(&mut machine, *rows)? || machine.word(7) != Some(*cell) {
            return Ok(Some(place));
        }
    }
    Ok(None)
}

/// Thread 2, that was woken, takes the mutex.
const WOKEN_TAKES: [Row; 2] = [
    Row(Steps(2, 6), Any, Resting, Awake),
    Row(Steps(2, 1), Any, Resting, Resting),
];

/// Unlocks, and wakes nobody.
const WAKES_NOBODY: Row = Row(Calls(2, UNLOCK, 7), Any, Resting, Awake);

/// Trims the cell, and clears its pending entry.
const TRIMS: [Row; 2] = [
    Row(Steps(2, 1), Any, Resting, Awake),
    Row(Steps(2, 1), Any, Resting, Resting),
];

static LAST_UNLOCK: [Part; 5] = [
    (&[ONE_TAKES, TWO_SLEEPS], 0x8000_0001),
    (&[WAKES], 0x8000_0000),
    (&WOKEN_TAKES, 0x8000_0002),
    (&[WAKES_NOBODY], 0x8000_0000),
    (&TRIMS, 0),
];

/// Thread 1 wakes nobody, and before it trims, thread 2 takes the mutex.
const TAKEN_FIRST: [Row; 4] = [
    ONE_TAKES,
    Row(Calls(2, LOCK, 3), Any, Resting, Awake),
    Row(Calls(1, UNLOCK, 7), Any, Awake, Awake),
    Row(Steps(2, 1), Any, Awake, Awake),
];

const TAKES_IT: Row = Row(Steps(2, 2), Any, Awake, Awake);

/// The trim leaves an owned cell.
const TRIM_FAILS: [Row; 2] = [
    Row(Steps(1, 1), Any, Awake, Awake),
    Row(Steps(1, 1), Any, Resting, Awake),
];

static OWNED_BEFORE_THE_TRIM: [Part; 3] = [
    (&TAKEN_FIRST, 0x8000_0000),
    (&[TAKES_IT], 0x8000_0002),
    (&TRIM_FAILS, 0x8000_0002),
];

#[test]
fn an_unlock_trims_a_free_cell_alone(rt: HostRuntime) -> Result<(), Fail> {
    assert_eq!(rt; first_wrong(rt.alloc(), &LAST_UNLOCK)?, None);
    assert_eq!(rt; first_wrong(rt.alloc(), &OWNED_BEFORE_THE_TRIM)?, None);
    Ok(())
}

/// Thread 2 falls asleep, and then does nothing.
const FALLS_ASLEEP: [Row; 6] = [
    ONE_TAKES,
    Row(Begins(2, LOCK), Any, Resting, Awake),
    Row(Steps(2, 3), Any, Resting, Awake),
    Row(Steps(2, 1), Sleeps, Resting, Asleep),
    Row(Steps(2, 1), Nothing, Resting, Asleep),
    Row(Begins(2, UNLOCK), Nothing, Resting, Asleep),
];

#[test]
fn a_sleeper_does_nothing_until_it_is_woken(rt: HostRuntime) -> Result<(), Fail> {
    let machine = gone_through(rt.alloc(), 2, &FALLS_ASLEEP)?;
    assert!(rt; standing_of(&machine, thread(64)?) == Resting);
    Ok(())
}

/// Whether thread 2 goes on alone this many steps after these events, stands so then, and leaves these words.
fn alone_leaves(
    alloc: Global,
    rows: &[Row],
    steps: u32,
    standing: Standing,
    words: &[u64],
) -> Result<bool, Fail> {
    let left = alone_after(alloc, 2, rows, 2, steps)?;
    Ok(has_words(&left, words) && standing_of(&left, thread(2)?) == standing && !left.fresh())
}

/// Whoever was woken takes the mutex and ends its call, and a sleeper sleeps on.
#[test]
fn a_thread_goes_on_alone(rt: HostRuntime) -> Result<(), Fail> {
    let taken = [1, u64::MAX, 0, 4, u64::MAX, 8, 0x8000_0002, 1, 1];
    assert!(rt; alone_leaves(rt.alloc(), &ONE_IS_WOKEN, 2, Awake, &taken)?);
    let linked = [1, u64::MAX, 0, 8, u64::MAX, 0, 0x8000_0002, 4, 4];
    assert!(rt; alone_leaves(rt.alloc(), &ONE_IS_WOKEN, 7, Resting, &linked)?);
    let asleep = [8, u64::MAX, 0, 4, u64::MAX, 8, 0x8000_0001, 1, 1];
    assert!(rt; alone_leaves(rt.alloc(), &FALLS_ASLEEP, 9000, Asleep, &asleep)?);
    Ok(())
}

#[test]
fn the_machine_of_which_a_copy_runs_stays(rt: HostRuntime) -> Result<(), Fail> {
    let machine = gone_through(rt.alloc(), 2, &ONE_IS_WOKEN)?;
    let _ = machine.alone(rt.alloc(), thread(2)?, 7)?;
    assert!(rt; machine.word(7) == Some(0x8000_0000));
    Ok(())
}

/// Whether nobody sleeps on these places.
fn are_empty(machine: &Machine, places: &[u64]) -> bool {
    for place in places {
        if !have_ids(machine, *place, &[]) {
            return false;
        }
    }
    true
}

const TWO_SLEEP: [Row; 2] = [
    Row(Calls(3, LOCK, 4), Any, Resting, Resting),
    Row(Calls(2, LOCK, 3), Any, Resting, Asleep),
];

const RELEASES: [Row; 1] = [Row(Calls(1, UNLOCK, 8), Any, Resting, Asleep)];

/// Whether the machine goes through the events, and then these threads sleep on mutex 0.
fn put_to_sleep(machine: &mut Machine, rows: &[Row], ids: &[u8]) -> Result<bool, Fail> {
    Ok(goes_through(machine, rows)? && have_ids(machine, 10, ids))
}

#[test]
fn sleepers_are_told_in_their_order(rt: HostRuntime) -> Result<(), Fail> {
    let mut machine = machine(rt.alloc(), 3, 1, &[])?;
    assert!(rt; put_to_sleep(&mut machine, &[ONE_TAKES], &[])?);
    assert!(rt; put_to_sleep(&mut machine, &TWO_SLEEP, &[3, 2])?);
    assert!(rt; are_empty(&machine, &[0, 1, 9, 11, 13, u64::MAX]));
    assert!(rt; put_to_sleep(&mut machine, &RELEASES, &[2])?);
    Ok(())
}

#[test]
fn a_copy_of_a_new_machine_is_new(rt: HostRuntime) -> Result<(), Fail> {
    let copy = alone_after(rt.alloc(), 1, &[], 64, 5)?;
    assert!(rt; copy.fresh() && copy.word(1) == Some(1));
    Ok(())
}
