//! The machine.
ghost use Rattle.std.specs.Prelude.{◌≡◌, ◌<◌, ◌≤◌, ◌^◌, ◌&&◌, ℕ, true, false, [], ◌∷◌, ◌++◌};
ghost use Rattle.std.specs.Prelude.{length, map, take, replicate, vec_len, vec_capacity};
ghost use Rattle.std.specs.Prelude.{Some, None, IfOk, OnOk, OnErr, MatchBool, if◌then◌else◌};
ghost use Rattle.std.specs.List.{All, range_with_len};
ghost use Rattle.memorymap.specs.Layouts.{IsLayout, counter_place, words_of, first_word};
ghost use Rattle.protocol.specs.Machine.{start, idle, happens, put, run, notes, is_valid};
ghost use Rattle.protocol.specs.Machine.{is_busy, is_dying, is_asleep, stands_in};
ghost use Rattle.protocol.specs.Sleepers.{alone, RunsAlone};
ghost use Rattle.protocol.specs.Deaths.{ReportsDeaths};
ghost use Rattle.protocol.specs.Headline.{seen, NoReapedOwns};
ghost use Rattle.protocol.specs.Explained.{IsExplained};
ghost use Rattle.interleave.specs.Notes.{is_nothing, are_nothing};
ghost use Rattle.interleave.specs.Reached.{IsFirst};
ghost use Rattle.interleave.specs.Reapings.{is_reaped};

use crate::copies::same_threads;
use crate::saved::{Saved, put_sleepers, put_threads, put_words, same_words, sleepers_between};
use crate::threads::{apply, is_calling, is_dying, is_reaped};
use crate::trace::{Trace, push_in_room};
use buckets::Batch;
use lockword::{Cell, Tid};
use memorymap::{HEAD_SIZE, Layout, NoMem};
use protocol::{Event, Note, Stage, Thread};
use std::alloc::{AllocError, Global};
use std::marker::Model;
use syscalls::{Kernel, Memory, PlainMemory};

/// Threads whose calls step over the words of a layout, and sleep on them, one event at a time. A thread may be killed
/// at any event: it leaves its queue, its call ends where it stands, and its later steps are the accesses of the
/// kernel's walk over its robust list, the last of which reaps it. A thread that was reaped may be renewed: then it
/// lives again, with the same id. A mutex that has become unusable may be reinitialised by a thread in no call, once
/// nobody sleeps on it.
#[derive(Drop)]
pub struct Machine {
    layout: Layout,
    memory: PlainMemory,
    kernel: Kernel,
    threads: Vec<Thread>,
    fresh: bool,
}

impl Model for Machine {
    ghost use Rattle.interleave.specs.Shown.{Shown};

    ghost Value = { Shown };

    ghost view = { λ m. record
        { layout = m.layout; words = m.memory; kernel = m.kernel; threads = m.threads.items; fresh = m.fresh } };

    ghost use Rattle.interleave.specs.Reached.{IsReached};

    ghost invariant = { λ m. IsReached
        (record
        { layout = m.layout; words = m.memory; kernel = m.kernel; threads = m.threads.items; fresh = m.fresh }) };
}

fn first_words(alloc: Global, layout: &Layout) -> Result<Vec<u64>, AllocError>
    ensures words { IfOk result
        (λ v. v.items ≡ map (first_word layout.now (λ c. 0)) (range_with_len 0 (words_of layout.now))) }
    ensures layout { IsLayout layout.now }
{
    let count = layout.words() as u64;
    let mut words = Vec::with_capacity(alloc, layout.words())?;
    for place in 0..count {
        words.push(layout.first_word(place))?;
    }
    Ok(words)
}

fn first_threads(alloc: Global, layout: &Layout) -> Result<Vec<Thread>, AllocError>
    ensures { IfOk result (λ v. v.items ≡ replicate layout.now.threads idle) }
{
    let thread = Thread {
        stage: Stage::Idle,
        held: 0,
    };
    vec![in alloc; thread; usize::from(layout.threads())]
}

/// A kernel where nobody sleeps, and each thread has set its head, by the address that this has in its process.
fn first_kernel(alloc: Global, layout: &Layout) -> Result<Kernel, NoMem>
    ensures { IfOk result (IsFirst layout.now) }
{
    let mut kernel = Kernel::new(alloc, layout.threads())?;
    for before in 0..layout.threads() {
        let Some(thread) = Tid::new(before + 1) else {
            unreachable!()
        };
        let head = layout.address(thread, layout.head(thread));
        let _ = kernel.set_robust_list(thread, head, HEAD_SIZE);
    }
    Ok(kernel)
}

impl Machine {
    ghost use Rattle.interleave.specs.Shown.{state_of};
    ghost use Rattle.interleave.specs.Reached.{IsStart, IsReached, AtEachMoment, TellsAtEachMoment};
    ghost use Rattle.interleave.specs.Saved.{saved_state, WasReached};
    ghost use Rattle.interleave.specs.Traces.{IsOf};
    ghost use Rattle.protocol.specs.PassedBy.{PassesNobody};

    /// A machine at its beginning: nobody owns a mutex, every robust list is empty, and every counter is 0.
    pub fn new(alloc: Global, layout: Layout) -> Result<Machine, NoMem>
        ensures layout { IfOk result (λ m. m.layout ≡ layout) }
        ensures start { IfOk result (λ m. state_of m ≡ start layout (λ c. 0)) }
        ensures fresh { IfOk result (λ m. m.fresh ≡ true) }
        ensures runs_alone { IfOk result (λ m. RunsAlone (state_of m)) }
        ensures reaped { IfOk result (λ m. NoReapedOwns (state_of m)) }
    {
        let words = first_words(alloc, &layout)?;
        let threads = first_threads(alloc, &layout)?;
        let kernel = first_kernel(alloc, &layout)?;
        Ok(Machine {
            layout,
            memory: PlainMemory::from(words),
            kernel,
            threads,
            fresh: true,
        })
    }

    /// The layout.
    pub fn layout(&self) -> &Layout
        ensures value { result.now ≡ self.now.layout }
        ensures layout { IsLayout self.now.layout }
    {
        &self.layout
    }

    /// Whether nothing has happened yet: every event so far, if any, was one that couldn't apply.
    pub fn fresh(&self) -> bool
        ensures value { result ≡ self.now.fresh }
        ensures start { self.now.fresh ≡ true → IsStart self.now }
    {
        self.fresh
    }

    /// Sets the counter of a condition variable, of a machine to which nothing has happened.
    pub fn preset(&mut self, condition: u16, value: u32)
        requires condition { condition < length self.old.layout.conditions }
        requires fresh { self.old.fresh ≡ true }
        ensures state { state_of self.new
            ≡ record (state_of self.old)
            { words = put (state_of self.old).words (counter_place self.old.layout condition) value } }
        ensures fresh { self.new.fresh ≡ true }
    {
        let place = self.layout.counter(condition);
        let _ = self.memory.store(place, u64::from(value));
    }

    /// What an event does. One that can't apply, as a step of a thread that sleeps or was reaped, the kill of one that
    /// was killed, the renewal of one that wasn't reaped, or the remake of a mutex that is usable, is noted as nothing,
    /// and changes nothing.
    ///
    /// A kill takes the thread out of its queue and ends its call, in one event. Each later step of it is the next
    /// access of the kernel's walk; with the last one it is reaped, and from then on it owns no mutex, until it is
    /// renewed and takes one. A renewal leaves the thread in no call and its list empty; it changes no word but the
    /// three of its head. A remake makes an unusable mutex free again, by a thread that is in no call, whoever sleeps
    /// on the mutex; it changes no word but the mutex's, and keeps its WAITERS. A spare goes on as if it had woken
    /// somebody, where another thread answers for the mutex.
    pub fn step(&mut self, event: Event) -> Note
        ensures state { state_of self.new ≡ (happens (state_of self.old) event).state }
        ensures note { result ≡ (happens (state_of self.old) event).note }
        ensures fresh { self.new.fresh ≡ (self.old.fresh && is_nothing result) }
        ensures runs_alone { RunsAlone (state_of self.new) }
        ensures reaped { NoReapedOwns (state_of self.new) }
    {
        let note = apply(
            &self.layout,
            &mut self.memory,
            &mut self.kernel,
            &mut self.threads,
            event,
        );
        self.fresh = stays_fresh(self.fresh, &note);
        note
    }

    /// What the events do, one after the other, and a note of each. Where memory is refused, nothing has happened. The
    /// events are any, in any order: begins of calls, steps, kills, leaves, declined trims, renewals, remakes and
    /// spared wakes.
    ///
    /// Of a machine to which nothing has happened, the notes tell a legal history: after each event, the points so far
    /// take every mutex, as POSIX sees it, from free to what its cell says of its owner, OWNER_DIED and UNUSABLE. And
    /// they explain what each thread got: a call that returned had one point, whose reply it returned,
    /// between its begin and its return, at events of its own thread, but that a wait which isn't refused had an
    /// unlock and then a lock; one that hasn't returned had a beginning of its points; and no point belongs to any
    /// other call. A remake is recorded as a call of one event, a reinit. What is recorded of a thread is one life
    /// after the other, each but the last ended by its reaping, and then its renewal. After each event a thread
    /// stands in a queue exactly where the last of its sleeps, moves, wakes and kills told so far is a sleep or a
    /// move, in that of the mutex or condition variable that this names; in each queue they are in the order in
    /// which they came, as it was recorded, and whoever is woken or moved by another is the front. No signal and no
    /// broadcast passes a wait by: a thread that released its mutex in a wait before such a call counted doesn't
    /// fall asleep on that condition variable after it. The event at which a signal returns OK wakes the first of
    /// its queue, and nobody only where that is empty; the one at which a broadcast does moves all of its queue, and
    /// leaves nobody there.
    ///
    /// After each event no sleeper is stranded: whenever a mutex that nobody owns has sleepers, some awake thread, run
    /// alone, takes it or wakes one of them within 9,000 steps; whoever is awake and runs alone ends its call, falls
    /// asleep or is reaped within as many; and a call that no other event divides returns within as many, or sleeps,
    /// and replies as the object does.
    ///
    /// Threads may be killed at any event. A killed thread's call has no later point. Until it is renewed its death is
    /// recorded, once, of each mutex that it owned when it was killed and has lost since, and of no other. After
    /// each event a thread that was reaped, and isn't renewed yet, owns no mutex.
    ///
    /// The machine is fresh afterwards exactly where it was before, and every event was one that couldn't apply.
    pub fn run(&mut self, alloc: Global, events: &[Event]) -> Result<Trace, NoMem>
        ensures state { OnOk result (state_of self.new ≡ run (state_of self.old) events.now) }
        ensures notes { IfOk result (λ t. t.notes.items ≡ notes (state_of self.old) events.now) }
        ensures numbers { IfOk result (λ t. IsOf self.old.layout t) }
        ensures fresh { IfOk result (λ t. self.new.fresh ≡ (self.old.fresh && are_nothing t.notes.items)) }
        ensures history { IfOk result
            (λ t. self.old.fresh ≡ true → AtEachMoment (state_of self.old) events.now t.notes.items) }
        ensures explained { IfOk result (λ t. self.old.fresh ≡ true → IsExplained events.now t.notes.items) }
        ensures sleeps { IfOk result
            (λ t. self.old.fresh ≡ true
            → TellsAtEachMoment self.old.layout (state_of self.old) events.now t.notes.items) }
        ensures passed { IfOk result (λ t. self.old.fresh ≡ true → PassesNobody (state_of self.old) events.now) }
        ensures runs_alone { IfOk result (λ t. (n : ℕ) → RunsAlone (run (state_of self.old) (take n events.now))) }
        ensures reaped { IfOk result (λ t. (n : ℕ) → NoReapedOwns (run (state_of self.old) (take n events.now))) }
        ensures deaths { IfOk result (λ t. ReportsDeaths (state_of self.old) events.now) }
        ensures err { OnErr result (self.new ≡ self.old) }
    {
        let mut notes = Vec::with_capacity(alloc, events.len())?;
        self.reached();
        let _fresh = self.fresh();
        let layout = self.layout();
        let (threads, mutexes, conditions) = (
            layout.threads(),
            layout.mutexes(),
            layout.conditions(),
        );
        for event in events {
            let note = self.step(*event);
            push_in_room(&mut notes, &note);
        }
        Ok(Trace {
            threads,
            mutexes,
            conditions,
            notes,
        })
    }

    /// What one thread would do if no other stepped: a copy of this machine after `n` steps of the thread, which are
    /// those of its walk where it was killed. This machine stays as it is.
    pub fn alone(&self, alloc: Global, thread: Tid, n: u32) -> Result<Machine, NoMem>
        ensures layout { IfOk result (λ m. m.layout ≡ self.now.layout) }
        ensures state { IfOk result (λ m. state_of m ≡ alone (state_of self.now) thread n) }
        ensures fresh { IfOk result (λ m. m.fresh ≡ self.now.fresh) }
        ensures runs_alone { IfOk result (λ m. RunsAlone (state_of m)) }
        ensures reaped { IfOk result (λ m. NoReapedOwns (state_of m)) }
    {
        self.reached();
        let mut machine = self.copied(alloc)?;
        for _ in 0..n {
            let _ = machine.step(Event::Step(thread));
        }
        Ok(machine)
    }

    /// Does nothing: its contract says what the type always keeps.
    fn reached(&self)
        ensures { IsReached self.now }
    {
        let _ = &self.fresh;
    }

    /// The state, to come back to by [`Machine::restore`]. It has no event's number and nothing of the past: machines with
    /// one layout whose states are the same save the same words, threads and queues.
    pub fn save(&self, alloc: Global) -> Result<Saved, NoMem>
        ensures state { IfOk result (λ s. saved_state self.now.layout s ≡ state_of self.now) }
        ensures reached { IfOk result (WasReached self.now.layout) }
    {
        let count = self.layout.words();
        let words = same_words(alloc, &self.memory, count)?;
        let threads = same_threads(alloc, &self.threads)?;
        let first = self.layout.cell(0);
        let sleepers = sleepers_between(alloc, &self.kernel, first, count as u64)?;
        Ok(Saved {
            words,
            threads,
            sleepers,
        })
    }

    /// Comes back to a state that was saved of a machine with the same layout: this one at another time, or another
    /// one. It takes no memory. The machine isn't fresh then, whether or not anything had happened when it was saved.
    pub fn restore(&mut self, saved: &Saved)
        requires { WasReached self.old.layout saved.now }
        ensures layout { self.new.layout ≡ self.old.layout }
        ensures state { state_of self.new ≡ saved_state self.old.layout saved.now }
        ensures fresh { self.new.fresh ≡ false }
    {
        put_words(&mut self.memory, &saved.words);
        put_threads(&mut self.threads, &saved.threads);
        put_sleepers(&mut self.kernel, &self.memory, &saved.sleepers);
        self.fresh = false;
    }

    fn copied(&self, alloc: Global) -> Result<Machine, NoMem>
        ensures { IfOk result (λ m. m ≡ self.now) }
    {
        Ok(Machine {
            layout: self.layout.copy(),
            memory: self.memory.clone()?,
            kernel: self.kernel.clone()?,
            threads: same_threads(alloc, &self.threads)?,
            fresh: self.fresh,
        })
    }

    /// The thread that owns a mutex.
    pub fn owner(&self, mutex: u16) -> Option<Tid>
        requires { mutex < self.now.layout.mutexes }
        ensures { result ≡ (seen (state_of self.now) mutex).owner }
    {
        let word = self.memory.load(self.layout.cell(mutex))?;
        Tid::new(Cell::new(word).owner() as u8)
    }

    /// The word at a place; None where the place isn't valid.
    pub fn word(&self, place: u64) -> Option<u64>
        ensures { result ≡ (if is_valid self.now.layout place then Some ((state_of self.now).words place) else None) }
    {
        self.memory.load(place)
    }

    /// Whether a thread is in a call. False where it was killed and isn't renewed, and where there is no such thread.
    pub fn busy(&self, thread: Tid) -> bool
        ensures { result ≡ is_busy (state_of self.now) thread }
    {
        let index = thread.as_index();
        index < self.threads.len() && is_calling(&self.threads[index].stage)
    }

    /// Whether a thread was killed, and hasn't been reaped. False where there is no such thread.
    pub fn dying(&self, thread: Tid) -> bool
        ensures { result ≡ is_dying (state_of self.now) thread }
    {
        let index = thread.as_index();
        index < self.threads.len() && is_dying(&self.threads[index].stage)
    }

    /// Whether a thread was killed, and has been reaped: the walk of its list has ended. False where it has been
    /// renewed since, and where there is no such thread.
    pub fn reaped(&self, thread: Tid) -> bool
        ensures { result ≡ is_reaped (state_of self.now) thread }
    {
        let index = thread.as_index();
        index < self.threads.len() && is_reaped(&self.threads[index].stage)
    }

    /// Whether a thread sleeps in its call. False where there is no such thread.
    pub fn asleep(&self, thread: Tid) -> bool
        ensures value { result ≡ is_asleep (state_of self.now) thread }
        ensures stands { MatchBool result ((key : ℕ) × (stands_in thread ((state_of self.now).queues key) ≡ true))
            ((key : ℕ) → stands_in thread ((state_of self.now).queues key) ≡ false) }
    {
        self.kernel.asleep(thread)
    }

    /// Which threads sleep on the word at a place, in the order in which they are to be woken. They are threads of the machine.
    pub fn sleepers(&self, place: u64) -> Batch
        ensures value { result ≡ (state_of self.now).queues place }
        ensures known { All (λ t. (1 ≤ t) × (t ≤ self.now.layout.threads)) result }
    {
        self.kernel.sleepers(place)
    }
}

fn stays_fresh(fresh: bool, note: &Note) -> bool
    ensures { result ≡ (fresh && is_nothing note.now) }
{
    match *note {
        Note::Nothing => fresh,
        _ => false,
    }
}
