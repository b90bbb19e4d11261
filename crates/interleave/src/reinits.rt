//! Unusable mutexes that are reinitialised.
ghost use Rattle.std.specs.Prelude.{◌≡◌, ◌<◌, ◌&&◌, ℕ, List, length, nat_lt};
ghost use Rattle.memorymap.specs.Layouts.{words_of};
ghost use Rattle.protocol.specs.declared.event.Event.TheVariants.{Remake};
ghost use Rattle.protocol.specs.declared.thread.Thread.{Thread};
ghost use Rattle.protocol.specs.Machine.{happens, has_thread, is_idle, is_unusable, waiters_of};
ghost use Rattle.syscalls.specs.Kernels.{Kernel'};
ghost use Rattle.interleave.specs.Shown.{state_at, thread_at};

use crate::accesses::word_at;
use crate::threads::is_idle;
use lockword::{Cell, Tid, WAITERS};
use memorymap::Layout;
use protocol::{Note, Thread};
use syscalls::{Memory, PlainMemory};

/// Whether the thread is one of the layout, lives and is in no call.
fn is_resting(layout: &Layout, threads: &Vec<Thread>, thread: Tid) -> bool
    requires { length threads.now.items ≡ layout.now.threads }
    ensures { (ws : List ℕ) (kernel : Kernel')
        → result
        ≡ (has_thread (state_at layout.now ws kernel threads.now.items) thread
        && is_idle (thread_at threads.now.items thread).stage) }
{
    if layout.threads() < thread.get() {
        return false;
    }
    is_idle(&threads[thread.as_index()].stage)
}

/// Whether the mutex is one of the layout, and its word says that it is unusable.
fn is_unusable(layout: &Layout, memory: &PlainMemory, mutex: u16) -> bool
    requires { length memory.now ≡ words_of layout.now }
    ensures { (kernel : Kernel') (ts : List Thread)
        → result ≡ (nat_lt mutex layout.now.mutexes && is_unusable (state_at layout.now memory.now kernel ts) mutex) }
{
    if layout.mutexes() <= mutex {
        return false;
    }
    match memory.load(layout.cell(mutex)) {
        Some(word) => Cell::new(word).unusable(),
        None => false,
    }
}

/// WAITERS of a word, and nothing else of it.
fn waiters_of(word: u64) -> u64
    ensures { result ≡ waiters_of word }
{
    if Cell::new(word).waiters() {
        WAITERS
    } else {
        0
    }
}

/// The thread reinitialises the mutex, if it is in no call, and the mutex is unusable, whoever sleeps on it: its
/// word says nothing but WAITERS, where it has that.
pub(crate) fn remake(
    layout: &Layout,
    memory: &mut PlainMemory,
    threads: &Vec<Thread>,
    thread: Tid,
    mutex: u16,
) -> Note
    requires words { length memory.old ≡ words_of layout.now }
    requires threads { length threads.now.items ≡ layout.now.threads }
    ensures state { (kernel : Kernel')
        → state_at layout.now memory.new kernel threads.now.items
        ≡ (happens (state_at layout.now memory.old kernel threads.now.items) (Remake thread mutex)).state }
    ensures note { (kernel : Kernel')
        → result ≡ (happens (state_at layout.now memory.old kernel threads.now.items) (Remake thread mutex)).note }
    ensures words { length memory.new ≡ length memory.old }
{
    if !is_resting(layout, threads, thread) {
        return Note::Nothing;
    }
    if !is_unusable(layout, memory, mutex) {
        return Note::Nothing;
    }
    let cell = layout.cell(mutex);
    let word = word_at(memory, cell);
    let _ = memory.store(cell, waiters_of(word));
    Note::Reinited { thread, mutex }
}
