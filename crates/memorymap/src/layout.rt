//! The places of the shared words.
ghost use Rattle.std.specs.Prelude.{◌≡◌, ◌≢◌, ◌<◌, ◌≤◌, ◌-◌, ◌*◌, ◌^◌, ℕ, IsTrue, Some};
ghost use Rattle.std.specs.Prelude.{None, length, slice_index, MatchOption, if◌then◌else◌};
ghost use Rattle.lockword.specs.Threads.{most_threads, named_threads};
ghost use Rattle.memorymap.specs.Layouts.{Layout', head_place, cell_place, entry_place};
ghost use Rattle.memorymap.specs.Layouts.{counter_place, words_of, base_of, address_in, place_in};
ghost use Rattle.memorymap.specs.Layouts.{is_place, thread_of, first_word, IsLayout, PlacesDiffer};
ghost use Rattle.memorymap.specs.Refusals.{Lays, LaysOver};

use crate::address::{address_from, seen_at};
use lockword::{MOST_THREADS, NAMED_THREADS, Tid};
use std::marker::Model;
use thiserror::Error;

/// How many condition variables a layout has at most.
pub const CONDITION_LIMIT: usize = 256;

/// The size of a thread's head in bytes, which the kernel asks for where one is set (set_robust_list(2)).
pub const HEAD_SIZE: u64 = 24;

/// How many threads a layout has room for.
const THREAD_LIMIT: usize = MOST_THREADS as usize;

/// How many threads a layout has at most that is asked for by numbers.
const NAMED_LIMIT: usize = NAMED_THREADS as usize;

/// How many processes a layout has at most.
pub const PROCESS_LIMIT: usize = 8;

/// The largest base at which a process maps the words.
pub const BASE_LIMIT: u64 = 1_000_000_000;

/// -1: an entry's cell stands before the entry (the offset of robust-futex-ABI).
const OFFSET: u64 = 0xffff_ffff_ffff_ffff;

/// Why there is no such layout.
#[derive(Clone, Copy, Debug, PartialEq, Eq, Error)]
pub enum LayoutFault {
    #[error("not 1 to 64 threads")]
    Threads,
    #[error("not 1 to 4096 mutexes")]
    Mutexes,
    #[error("more than 256 condition variables, or one of no such mutex")]
    Conditions,
    #[error("not 1 to 8 processes")]
    Processes,
    #[error("a base above 1000000000")]
    Bases,
    #[error("a thread of no such process")]
    Members,
}

/// How many threads, mutexes and condition variables share the words, and where each word lies.
///
/// Word 0 is null. Each thread has a robust-list head of three words (get_robust_list(2)): first entry, offset, pending
/// entry. Each mutex has three: its cell, and its entry's links to the next and the previous one. Each condition
/// variable has a counter.
///
/// The threads belong to processes. Each process maps the words at a base of its own: there, the word at a place has
/// the address base + place, modulo 2^64. Heads, links and pending entries hold such addresses, those of the process of
/// the thread that wrote them.
#[derive(Debug, Drop)]
pub struct Layout {
    threads: u8,
    mutexes: u16,
    conditions: usize,
    mutex_of_condition: [u16; CONDITION_LIMIT],
    process_of_thread: [u8; THREAD_LIMIT],
    processes: usize,
    bases: [u64; PROCESS_LIMIT],
}

impl Model for Layout {
    ghost use Rattle.std.specs.Prelude.{◌≤◌, ◌<◌, take, All};
    ghost use Rattle.memorymap.specs.Layouts.{Layout', HasThreads, HasMutexes};
    ghost use Rattle.memorymap.specs.Layouts.{HasConditions, HasProcesses, HasBases, AreOf};

    ghost Value = { Layout' };

    ghost view = { λ l. record {
      threads = l.threads;
      mutexes = l.mutexes;
      conditions = take l.conditions l.mutex_of_condition;
      processes = take l.threads l.process_of_thread;
      bases = take l.processes l.bases;
    } };

    ghost invariant = { λ l. HasThreads l.threads × HasMutexes l.mutexes × (l.conditions ≤ 256)
        × HasConditions l.mutexes (take l.conditions l.mutex_of_condition) × ((1 ≤ l.processes) × (l.processes ≤ 8))
        × HasBases (take l.processes l.bases) × All (λ p. p < l.processes) (take l.threads l.process_of_thread) };
}

impl Layout {
    /// A layout of 1 to 64 threads, 1 to 4,096 mutexes and at most 256 condition variables, each given by the number of
    /// its mutex. All threads are of one process, which maps the words at 0: every address is a place. Refused
    /// otherwise, with the first fault in the order of `LayoutFault`.
    pub fn new(threads: u8, mutexes: u16, conditions: &[u16]) -> Result<Layout, LayoutFault>
        ensures { Lays named_threads threads mutexes conditions.now result }
    {
        if threads < 1 || NAMED_THREADS < threads {
            return Err(LayoutFault::Threads);
        }
        let processes = [0; NAMED_LIMIT];
        Layout::with_processes(&processes[..threads as usize], &[0], mutexes, conditions)
    }

    /// Like `new`, of the threads from 1 to this one, of which there may be 250: more than scripts and traces have.
    pub fn up_to(last: Tid, mutexes: u16, conditions: &[u16]) -> Result<Layout, LayoutFault>
        ensures { Lays most_threads last mutexes conditions.now result }
    {
        let threads = usize::from(last.get());
        let processes = [0; THREAD_LIMIT];
        Layout::over(&processes[..threads], &[0], mutexes, conditions)
    }

    /// A layout of 1 to 64 threads, each given by the number of its process, from 0; of 1 to 8 processes, each given by
    /// the base at which it maps the words, at most 1,000,000,000; of 1 to 4,096 mutexes, and of at most 256 condition
    /// variables, each given by the number of its mutex. Refused otherwise, with the first fault in the order of
    /// `LayoutFault`.
    pub fn with_processes(
        threads: &[u8],
        bases: &[u64],
        mutexes: u16,
        conditions: &[u16],
    ) -> Result<Layout, LayoutFault>
        ensures { LaysOver named_threads threads.now bases.now mutexes conditions.now result }
    {
        if NAMED_LIMIT < threads.len() {
            return Err(LayoutFault::Threads);
        }
        Layout::over(threads, bases, mutexes, conditions)
    }

    /// The same of as many threads as there is room for.
    fn over(
        threads: &[u8],
        bases: &[u64],
        mutexes: u16,
        conditions: &[u16],
    ) -> Result<Layout, LayoutFault>
        ensures { LaysOver most_threads threads.now bases.now mutexes conditions.now result }
    {
        if threads.is_empty() || THREAD_LIMIT < threads.len() {
            return Err(LayoutFault::Threads);
        }
        if mutexes < 1 || 4096 < mutexes {
            return Err(LayoutFault::Mutexes);
        }
        if CONDITION_LIMIT < conditions.len() || !conditions.iter().all(|m| *m < mutexes) {
            return Err(LayoutFault::Conditions);
        }
        if bases.is_empty() || PROCESS_LIMIT < bases.len() {
            return Err(LayoutFault::Processes);
        }
        if !bases.iter().all(|base| *base <= BASE_LIMIT) {
            return Err(LayoutFault::Bases);
        }
        let processes = bases.len();
        if !threads
            .iter()
            .all(|process| usize::from(*process) < processes)
        {
            return Err(LayoutFault::Members);
        }
        let mut mutex_of_condition = [0; CONDITION_LIMIT];
        mutex_of_condition[..conditions.len()].copy_from_slice(conditions);
        let mut process_of_thread = [0; THREAD_LIMIT];
        process_of_thread[..threads.len()].copy_from_slice(threads);
        let mut base_of_process = [0; PROCESS_LIMIT];
        base_of_process[..processes].copy_from_slice(bases);
        Ok(Layout {
            threads: threads.len() as u8,
            mutexes,
            conditions: conditions.len(),
            mutex_of_condition,
            process_of_thread,
            processes,
            bases: base_of_process,
        })
    }

    /// The same layout.
    pub fn copy(&self) -> Layout
        ensures { result ≡ self.now }
    {
        Layout {
            threads: self.threads,
            mutexes: self.mutexes,
            conditions: self.conditions,
            mutex_of_condition: self.mutex_of_condition,
            process_of_thread: self.process_of_thread,
            processes: self.processes,
            bases: self.bases,
        }
    }

    /// How many threads there are: 1 to 250.
    pub fn threads(&self) -> u8
        ensures value { result ≡ self.now.threads }
        ensures first { 1 ≤ result }
        ensures last { result ≤ most_threads }
    {
        self.threads
    }

    /// How many mutexes there are: 1 to 4,096.
    pub fn mutexes(&self) -> u16
        ensures value { result ≡ self.now.mutexes }
        ensures first { 1 ≤ result }
        ensures last { result ≤ 4096 }
    {
        self.mutexes
    }

    /// How many condition variables there are: at most 256.
    pub fn conditions(&self) -> u16
        ensures value { result ≡ length self.now.conditions }
        ensures last { result ≤ 256 }
    {
        self.conditions as u16
    }

    /// The mutex of a condition variable.
    pub fn mutex_of_condition(&self, condition: u16) -> u16
        requires { condition < length self.now.conditions }
        ensures value { result ≡ slice_index self.now.conditions condition }
        ensures inside { result < self.now.mutexes }
    {
        self.mutex_of_condition[condition as usize]
    }

    /// How many processes there are: 1 to 8.
    pub fn processes(&self) -> u8
        ensures value { result ≡ length self.now.bases }
        ensures first { 1 ≤ result }
        ensures last { result ≤ 8 }
    {
        self.processes as u8
    }

    /// The process of a thread, from 0.
    pub fn process_of(&self, thread: Tid) -> u8
        requires { thread ≤ self.now.threads }
        ensures value { result ≡ slice_index self.now.processes (thread - 1) }
        ensures inside { result < length self.now.bases }
    {
        self.process_of_thread[thread.get() as usize - 1]
    }

    /// The base at which a process maps the words.
    pub fn base_of_process(&self, process: u8) -> u64
        requires { process < length self.now.bases }
        ensures value { result ≡ slice_index self.now.bases process }
        ensures low { result ≤ 1000000000 }
    {
        self.bases[process as usize]
    }

    /// The base at which a thread's process maps the words.
    pub fn base(&self, thread: Tid) -> u64
        requires { thread ≤ self.now.threads }
        ensures value { result ≡ base_of self.now thread }
        ensures low { result ≤ 1000000000 }
    {
        self.base_of_process(self.process_of(thread))
    }

    /// The address of a place in a thread's process, modulo 2^64.
    pub fn address(&self, thread: Tid, place: u64) -> u64
        requires { thread ≤ self.now.threads }
        ensures { result ≡ address_in self.now thread place }
    {
        address_from(self.base(thread), place)
    }

    /// The place of an address in a thread's process; None where the address isn't valid there.
    pub fn place(&self, thread: Tid, address: u64) -> Option<u64>
        requires { thread ≤ self.now.threads }
        ensures value { result
            ≡ (if is_place self.now (place_in self.now thread address)
            then Some (place_in self.now thread address)
            else None) }
        ensures address { MatchOption result
            ((p : ℕ) → IsTrue (is_place self.now p) → address_in self.now thread p ≢ address)
            (λ p. IsTrue (is_place self.now p) × (address_in self.now thread p ≡ address)) }
    {
        let words = self.words() as u64;
        let place = seen_at(self.base(thread), address);
        if 1 <= place && place < words {
            Some(place)
        } else {
            None
        }
    }

    /// The place of a thread's head.
    pub fn head(&self, thread: Tid) -> u64
        requires { thread ≤ self.now.threads }
        ensures { result ≡ head_place thread }
    {
        1 + 3 * (u64::from(thread.get()) - 1)
    }

    /// The place of a mutex's cell.
    pub fn cell(&self, mutex: u16) -> u64
        requires { mutex < self.now.mutexes }
        ensures value { result ≡ cell_place self.now mutex }
        ensures inside { result < words_of self.now }
    {
        1 + 3 * u64::from(self.threads) + 3 * u64::from(mutex)
    }

    /// The place of a mutex's entry, by which lists name it: that of its link to the next entry.
    pub fn entry(&self, mutex: u16) -> u64
        requires { mutex < self.now.mutexes }
        ensures { result ≡ entry_place self.now mutex }
    {
        self.cell(mutex) + 1
    }

    /// The place of a condition variable's counter.
    pub fn counter(&self, condition: u16) -> u64
        requires { condition < length self.now.conditions }
        ensures value { result ≡ counter_place self.now condition }
        ensures inside { result < words_of self.now }
    {
        1 + 3 * u64::from(self.threads) + 3 * u64::from(self.mutexes) + u64::from(condition)
    }

    /// The mutex whose cell is at a place; None where no cell is there.
    pub fn mutex_of(&self, place: u64) -> Option<u16>
        ensures { MatchOption result ((m : ℕ) → m < self.now.mutexes → place ≢ cell_place self.now m)
            (λ m. (m < self.now.mutexes) × (place ≡ cell_place self.now m)) }
    {
        let first = 1 + 3 * u64::from(self.threads);
        if place < first || (place - first) % 3 != 0 {
            return None;
        }
        let mutex = (place - first) / 3;
        if mutex < u64::from(self.mutexes) {
            Some(mutex as u16)
        } else {
            None
        }
    }

    /// The word at a place before anything has happened, every counter being 0: each head's first entry is the head
    /// itself, by its address in its thread's process, and its offset is -1 (get_robust_list(2)). It is 0 where there
    /// is no such place.
    pub fn first_word(&self, place: u64) -> u64
        ensures { result ≡ first_word self.now (λ c. 0) place }
    {
        let heads = 3 * u64::from(self.threads);
        if place < 1 || heads < place {
            return 0;
        }
        match place % 3 {
            1 => self.head_address(place),
            2 => OFFSET,
            _ => 0,
        }
    }

    /// The address, in its thread's process, of the head at a place.
    fn head_address(&self, place: u64) -> u64
        requires first { 1 ≤ place }
        requires last { place ≤ 3 * self.now.threads }
        ensures { result ≡ address_in self.now (thread_of place) place }
    {
        // What a layout always is is known once a field of it is read.
        let _threads = self.threads;
        match Tid::new(((place - 1) / 3 + 1) as u8) {
            Some(thread) => self.address(thread, place),
            None => unreachable!(),
        }
    }

    /// How many words there are. The places from 1 to below this are valid.
    pub fn words(&self) -> usize
        ensures value { result ≡ words_of self.now }
        ensures small { result < 2 ^ 16 }
        ensures layout { IsLayout self.now }
    {
        1 + 3 * self.threads as usize + 3 * self.mutexes as usize + self.conditions
    }
}

/// Every word of a layout has a valid place, and no other word has it.
pub fn places_differ()
    ensures { PlacesDiffer }
{}
