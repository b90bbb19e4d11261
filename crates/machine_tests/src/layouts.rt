//! The places of a small layout, the first fault of one that can't be, and each printed text of that; keys and buckets.

use lockword::Tid;
use memorymap::{Key, Layout, LayoutFault, NoMem, bucket_of, key_of, places_differ};
use std::alloc::Global;
use std::test::Fail;
use stepprograms::trims_are_right;

/// What has a place.
#[derive(Clone, Copy)]
enum Placed {
    Head(u8),
    Cell(u16),
    Entry(u16),
    Counter(u16),
}

/// Where it is in a layout of two threads, two mutexes and a condition variable of the second one.
static PLACES: [(Placed, u64); 7] = [
    (Placed::Head(1), 1),
    (Placed::Head(2), 4),
    (Placed::Cell(0), 7),
    (Placed::Cell(1), 10),
    (Placed::Entry(0), 8),
    (Placed::Entry(1), 11),
    (Placed::Counter(0), 13),
];

/// The place of a thread's head; None where there is no such thread.
fn head(layout: &Layout, id: u8) -> Option<u64> {
    let thread = Tid::new(id)?;
    if thread.get() <= layout.threads() {
        Some(layout.head(thread))
    } else {
        None
    }
}

fn place_of(layout: &Layout, placed: Placed) -> Option<u64> {
    match placed {
        Placed::Head(id) => head(layout, id),
        Placed::Cell(mutex) if mutex < layout.mutexes() => Some(layout.cell(mutex)),
        Placed::Entry(mutex) if mutex < layout.mutexes() => Some(layout.entry(mutex)),
        Placed::Counter(number) if number < layout.conditions() => Some(layout.counter(number)),
        _ => None,
    }
}

/// A place of that layout, and the mutex whose cell is there.
static CELLS: [(u64, Option<u16>); 5] = [
    (7, Some(0)),
    (10, Some(1)),
    (4, None),
    (8, None),
    (13, None),
];

fn is_cell_of(layout: &Layout, place: u64, mutex: Option<u16>) -> bool {
    layout.mutex_of(place) == mutex
}

/// Whether there are this many threads, mutexes, condition variables and words, and the first condition variable
/// keeps this mutex.
fn has_counts(layout: &Layout, counts: [usize; 4], mutex: u16) -> bool {
    let [threads, mutexes, conditions, words] = counts;
    usize::from(layout.threads()) == threads
        && usize::from(layout.mutexes()) == mutexes
        && usize::from(layout.conditions()) == conditions
        && layout.words() == words
        && 0 < layout.conditions()
        && layout.mutex_of_condition(0) == mutex
}

#[test]
fn a_small_layout_has_its_places(rt: HostRuntime) -> Result<(), Fail> {
    let layout = Layout::new(2, 2, &[1])?;
    assert!(rt; has_counts(&layout, [2, 2, 1, 14], 1));
    for (placed, at) in &PLACES {
        assert!(rt; place_of(&layout, *placed) == Some(*at), "at {at}");
    }
    for (at, mutex) in &CELLS {
        assert!(rt; is_cell_of(&layout, *at, *mutex), "at {at}");
    }
    places_differ();
    trims_are_right();
    Ok(())
}

/// Threads, mutexes and the mutexes of condition variables, and the fault by which there is no layout of them.
static FAULTS: [(u8, u16, &[u16], Option<LayoutFault>); 8] = [
    (0, 0, &[0; 257], Some(LayoutFault::Threads)),
    (65, 4097, &[0; 257], Some(LayoutFault::Threads)),
    (64, 0, &[0; 257], Some(LayoutFault::Mutexes)),
    (1, 4097, &[0; 257], Some(LayoutFault::Mutexes)),
    (1, 1, &[0; 257], Some(LayoutFault::Conditions)),
    (1, 1, &[0, 1], Some(LayoutFault::Conditions)),
    (1, 1, &[], None),
    (64, 4096, &[4095; 256], None),
];

fn fault(threads: u8, mutexes: u16, conditions: &[u16]) -> Option<LayoutFault> {
    Layout::new(threads, mutexes, conditions).err()
}

#[test]
fn the_first_fault_is_told(rt: HostRuntime) {
    for (threads, mutexes, conditions, want) in &FAULTS {
        let fault = fault(*threads, *mutexes, *conditions);
        assert!(rt; fault == *want, "of {threads} threads, {mutexes} mutexes");
    }
}

/// The last thread of a layout that is given by it, mutexes and condition variables, and the fault or how many words
/// there are.
static LAST: [(u8, u16, &[u16], Result<usize, LayoutFault>); 4] = [
    (250, 4096, &[4095; 256], Ok(13_295)),
    (65, 1, &[], Ok(199)),
    (250, 0, &[0; 257], Err(LayoutFault::Mutexes)),
    (1, 4096, &[4096], Err(LayoutFault::Conditions)),
];

fn words_up_to(last: u8, mutexes: u16, conditions: &[u16]) -> Option<Result<usize, LayoutFault>> {
    match Layout::up_to(Tid::new(last)?, mutexes, conditions) {
        Ok(layout) => Some(Ok(layout.words())),
        Err(fault) => Some(Err(fault)),
    }
}

#[test]
fn a_layout_has_up_to_250_threads(rt: HostRuntime) {
    for (last, mutexes, conditions, want) in &LAST {
        let found = words_up_to(*last, *mutexes, conditions);
        assert!(rt; found == Some(*want), "up to thread {last}");
    }
}

static TEXTS: [(LayoutFault, &str); 6] = [
    (LayoutFault::Threads, "not 1 to 64 threads"),
    (LayoutFault::Mutexes, "not 1 to 4096 mutexes"),
    (
        LayoutFault::Conditions,
        "more than 256 condition variables, or one of no such mutex",
    ),
    (LayoutFault::Processes, "not 1 to 8 processes"),
    (LayoutFault::Bases, "a base above 1000000000"),
    (LayoutFault::Members, "a thread of no such process"),
];

fn is_printed(alloc: Global, fault: LayoutFault, text: &str) -> bool {
    match fault.to_string(alloc) {
        Ok(printed) => printed.as_str() == text,
        Err(_) => false,
    }
}

#[test]
fn faults_are_printed(rt: HostRuntime) -> Result<(), Fail> {
    for (fault, text) in &TEXTS {
        assert!(rt; is_printed(rt.alloc(), *fault, *text), "{text}");
    }
    let printed = NoMem.to_string(rt.alloc())?;
    assert!(rt; printed.as_str() == "out of memory");
    Ok(())
}

#[test]
fn keys_and_buckets(rt: HostRuntime) {
    assert!(rt; key_of(20) == Key(20));
    assert!(rt; bucket_of(Key(20), 16) == 4);
    assert!(rt; bucket_of(Key(u64::MAX), 64) == 63);
}
