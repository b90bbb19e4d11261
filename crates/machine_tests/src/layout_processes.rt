//! Layouts of processes: addresses and places worked out by hand, each fault, and which of two faults is recorded.

use lockword::Tid;
use memorymap::{
    BASE_LIMIT, Layout, LayoutFault, PROCESS_LIMIT, address_from, addresses_are_seen, seen_at,
    writes_are_seen,
};
use std::test::Fail;

/// Whether the thread is of this process, which has this base.
fn is_of(layout: &Layout, id: u8, process: u8, base: u64) -> bool {
    let Some(thread) = Tid::new(id) else {
        return false;
    };
    thread.get() <= layout.threads()
        && layout.process_of(thread) == process
        && layout.base(thread) == base
}

/// Whether there are this many threads, mutexes, condition variables, processes and words.
fn has_counts(layout: &Layout, counts: [usize; 5]) -> bool {
    let [threads, mutexes, conditions, processes, words] = counts;
    usize::from(layout.threads()) == threads
        && usize::from(layout.mutexes()) == mutexes
        && usize::from(layout.conditions()) == conditions
        && usize::from(layout.processes()) == processes
        && layout.words() == words
}

fn has_base(layout: &Layout, process: u8, base: u64) -> bool {
    process < layout.processes() && layout.base_of_process(process) == base
}

/// A thread, its process, and the base of that. No thread is of process 0.
static THREADS: [(u8, u8, u64); 3] = [(1, 1, 1000), (2, 2, 2000), (3, 1, 1000)];

#[test]
fn each_thread_has_its_process(rt: HostRuntime) -> Result<(), Fail> {
    let layout = Layout::with_processes(&[1, 2, 1], &[0, 1000, 2000], 1, &[0])?;
    assert!(rt; has_counts(&layout, [3, 1, 1, 3, 14]));
    assert!(rt; has_base(&layout, 0, 0));
    assert!(rt; has_base(&layout, 1, 1000));
    assert!(rt; has_base(&layout, 2, 2000));
    for (id, process, base) in &THREADS {
        assert!(rt; is_of(&layout, *id, *process, *base), "of thread {id}");
    }
    let copy = layout.copy();
    assert!(rt; copy.words() == 14);
    assert!(rt; is_of(&copy, 2, 2, 2000));
    Ok(())
}

/// A place of a layout of two processes and one mutex, and the word that it begins with.
static FIRST_WORDS: [(u64, u64); 11] = [
    (0, 0),
    (1, 1001),
    (2, u64::MAX),
    (3, 0),
    (4, 2004),
    (5, u64::MAX),
    (6, 0),
    (7, 0),
    (8, 0),
    (9, 0),
    (10, 0),
];

fn begins_with(layout: &Layout, place: u64, word: u64) -> bool {
    layout.first_word(place) == word
}

#[test]
fn heads_begin_with_their_own_addresses(rt: HostRuntime) -> Result<(), Fail> {
    let layout = Layout::with_processes(&[0, 1], &[1000, 2000], 1, &[])?;
    for (place, word) in &FIRST_WORDS {
        assert!(rt; begins_with(&layout, *place, *word), "at {place}");
    }
    Ok(())
}

/// The address of a place in the process of a thread; None where there is no such thread.
fn address_in(layout: &Layout, id: u8, place: u64) -> Option<u64> {
    let thread = Tid::new(id)?;
    if thread.get() <= layout.threads() {
        Some(layout.address(thread, place))
    } else {
        None
    }
}

/// Whether this place, if any, has the address in the process of the thread.
fn is_placed(layout: &Layout, id: u8, address: u64, place: Option<u64>) -> bool {
    match Tid::new(id) {
        Some(thread) => {
            thread.get() <= layout.threads() && layout.place(thread, address) == place
        }
        None => false,
    }
}

/// Where a mutex's cell stands; None where there is no such mutex.
fn cell(layout: &Layout, mutex: u16) -> Option<u64> {
    if mutex < layout.mutexes() {
        Some(layout.cell(mutex))
    } else {
        None
    }
}

/// A thread, and the address of mutex 0's cell in its process, where the processes of four threads map 16 words at 0,
/// 1, 999999995 and 1000000000.
static CELLS: [(u8, u64); 4] = [(1, 13), (2, 14), (3, 1_000_000_008), (4, 1_000_000_013)];

/// Whether mutex 0's cell has this address in the process of the thread.
fn has_cell_at(layout: &Layout, id: u8, address: u64) -> bool {
    match cell(layout, 0) {
        Some(place) => address_in(layout, id, place) == Some(address),
        None => false,
    }
}

/// An address, and the places that have it in the processes of those threads.
static ADDRESSES: [(u64, Option<u64>, Option<u64>, Option<u64>, Option<u64>); 15] = [
    (0, None, None, None, None),
    (1, Some(1), None, None, None),
    (2, Some(2), Some(1), None, None),
    (15, Some(15), Some(14), None, None),
    (16, None, Some(15), None, None),
    (17, None, None, None, None),
    (999_999_995, None, None, None, None),
    (999_999_996, None, None, Some(1), None),
    (1_000_000_000, None, None, Some(5), None),
    (1_000_000_001, None, None, Some(6), Some(1)),
    (1_000_000_010, None, None, Some(15), Some(10)),
    (1_000_000_011, None, None, None, Some(11)),
    (1_000_000_015, None, None, None, Some(15)),
    (1_000_000_016, None, None, None, None),
    (u64::MAX, None, None, None, None),
];

fn are_placed(layout: &Layout, address: u64, places: [Option<u64>; 4]) -> bool {
    let [first, second, third, fourth] = places;
    is_placed(layout, 1, address, first)
        && is_placed(layout, 2, address, second)
        && is_placed(layout, 3, address, third)
        && is_placed(layout, 4, address, fourth)
}

#[test]
fn a_place_has_an_address_in_each_process(rt: HostRuntime) -> Result<(), Fail> {
    // The last two bases lie less than the 16 words apart.
    let bases = [0, 1, 999_999_995, 1_000_000_000];
    let layout = Layout::with_processes(&[0, 1, 2, 3], &bases, 1, &[])?;
    assert!(rt; layout.words() == 16);
    for (id, address) in &CELLS {
        assert!(rt; has_cell_at(&layout, *id, *address), "of thread {id}");
    }
    for (address, first, second, third, fourth) in &ADDRESSES {
        let places = [*first, *second, *third, *fourth];
        assert!(rt; are_placed(&layout, *address, places), "of {address}");
    }
    Ok(())
}

#[test]
fn one_process_maps_the_words_at_0(rt: HostRuntime) -> Result<(), Fail> {
    let layout = Layout::new(2, 1, &[])?;
    assert!(rt; layout.processes() == 1);
    assert!(rt; is_of(&layout, 2, 0, 0));
    assert!(rt; address_in(&layout, 2, 7) == Some(7));
    assert!(rt; is_placed(&layout, 2, 7, Some(7)));
    assert!(rt; layout.first_word(1) == 1 && layout.first_word(4) == 4);
    Ok(())
}

/// A base, a place and its address.
static WRAPS: [(u64, u64, u64); 5] = [
    (0, 7, 7),
    (1, u64::MAX, 0),
    (1_000_000_000, u64::MAX, 999_999_999),
    (u64::MAX, 1, 0),
    (u64::MAX, u64::MAX, u64::MAX - 1),
];

fn wraps(base: u64, place: u64, address: u64) -> bool {
    address_from(base, place) == address && seen_at(base, address) == place
}

#[test]
fn addresses_wrap_at_64_bits(rt: HostRuntime) {
    for (base, place, address) in &WRAPS {
        assert!(rt; wraps(*base, *place, *address), "of {place} from {base}");
    }
    addresses_are_seen();
    writes_are_seen();
}

/// The processes of threads, the bases of processes, mutexes and the mutexes of condition variables, and the fault by
/// which there is no layout of them.
#[derive(Clone, Copy)]
struct Case {
    threads: &'static [u8],
    bases: &'static [u64],
    mutexes: u16,
    conditions: &'static [u16],
    fault: Option<LayoutFault>,
}

static FAULTS: [Case; 10] = [
    Case {
        threads: &[],
        bases: &[],
        mutexes: 0,
        conditions: &[1],
        fault: Some(LayoutFault::Threads),
    },
    Case {
        threads: &[9; 65],
        bases: &[1_000_000_001],
        mutexes: 0,
        conditions: &[1],
        fault: Some(LayoutFault::Threads),
    },
    Case {
        threads: &[9],
        bases: &[],
        mutexes: 4097,
        conditions: &[4097],
        fault: Some(LayoutFault::Mutexes),
    },
    Case {
        threads: &[9],
        bases: &[],
        mutexes: 1,
        conditions: &[1],
        fault: Some(LayoutFault::Conditions),
    },
    Case {
        threads: &[9],
        bases: &[],
        mutexes: 1,
        conditions: &[],
        fault: Some(LayoutFault::Processes),
    },
    Case {
        threads: &[9],
        bases: &[1_000_000_001; 9],
        mutexes: 1,
        conditions: &[],
        fault: Some(LayoutFault::Processes),
    },
    Case {
        threads: &[9],
        bases: &[1_000_000_001],
        mutexes: 1,
        conditions: &[],
        fault: Some(LayoutFault::Bases),
    },
    Case {
        threads: &[0, 2],
        bases: &[0, 1],
        mutexes: 1,
        conditions: &[],
        fault: Some(LayoutFault::Members),
    },
    Case {
        threads: &[0],
        bases: &[7, 7],
        mutexes: 1,
        conditions: &[],
        fault: None,
    },
    Case {
        threads: &[7; 64],
        bases: &[1_000_000_000; 8],
        mutexes: 4096,
        conditions: &[4095; 256],
        fault: None,
    },
];

fn fault(case: &Case) -> Option<LayoutFault> {
    Layout::with_processes(case.threads, case.bases, case.mutexes, case.conditions).err()
}

#[test]
fn the_first_fault_of_processes_is_told(rt: HostRuntime) {
    for (place, case) in FAULTS.iter().enumerate() {
        assert!(rt; fault(case) == case.fault, "of the layout at {place}");
    }
    assert!(rt; PROCESS_LIMIT == 8 && BASE_LIMIT == 1_000_000_000);
}
