//! Notes of kills, and kills from their note to their end.
ghost use Rattle.std.specs.Prelude.{◌≡◌, ◌<◌, ◌+◌, false, if◌then◌else◌, length, IfOk};
ghost use Rattle.std.specs.Sync.Mutex.{mutex_guard_value};
ghost use Rattle.lockword.specs.Threads.{most_threads};
ghost use Rattle.buckets.specs.Queues.{IsOrderly, Removes};
ghost use Rattle.ruledwords.specs.Passes.{card, layout_of, IsLive};
ghost use Rattle.ruledwords.specs.Renewals.{IsGone, renewed};
ghost use Rattle.threadbench.specs.declared.kill.note.KillStage.TheVariants.{Ended, Looked};
ghost use Rattle.threadbench.specs.Notes.{AreNotes};
ghost use Rattle.threadbench.specs.Sections.{stops_unless};

use crate::bench::THREADS;
use crate::kill::thread_after;
use crate::numbered::Held;
use crate::parker::{Drained, Given};
use crate::room::push_in_room;
use crate::section::remove_in;
use buckets::Bucket;
use crossbeam_utils::CachePadded;
use lockword::Tid;
use memorymap::NoMem;
use ruledwords::{Fate, Live, Pass, Reaped, Words};
use std::alloc::Global;
use std::marker::PhantomData;
use std::sync::MutexGuard;
use std::sync::atomic::{AtomicBool, Ordering};

/// Whether a thread was killed. Whoever kills it writes it here, and its calls that take the bench look here before
/// each access.
#[derive(Drop)]
pub(crate) struct Note {
    thread: Tid,
    killed: CachePadded<AtomicBool>,
}

/// A kill. Nothing makes one but [`Note::kill`], so whoever has one has noted that its thread was killed. The note
/// comes before the search, so that a thread which comes to sleep in a bucket after the search finds it there.
///
/// It can't be let go: whoever has noted a kill goes on to its end, where a [`Sweep`](crate::kill::Sweep) or
/// [`Bench::kill`](crate::Bench::kill) takes it, and nothing else.
pub(crate) struct Kill {
    thread: Tid,
    stage: KillStage,
}

/// How far a kill has come.
#[derive(Clone, Copy)]
pub(crate) enum KillStage {
    /// The thread was looked for in this many buckets, from the first on.
    Looked(usize),
    /// The thread was looked for in each bucket, and then it was given a token, so that it wakes where it sleeps.
    Ended,
}

/// Evidence that a thread's note says no more that it was killed, so that the thread may live again. Nothing makes one but
/// [`Note::clear`].
#[derive(Drop)]
pub(crate) struct Cleared {
    thread: Tid,
}

/// Evidence that a thread's note told it to go on, under the lock of a bucket. Nothing makes one but [`ask`], which asks the
/// note.
pub(crate) struct Spared<N> {
    note: PhantomData<N>,
}

/// A fate that others have in their hands. What a note tells is the only one: no other fate, as one that never stops
/// its thread, can be asked in the note's place.
pub(crate) trait ByOthers: Fate {}

/// What its note tells a thread: the fate that others have in their hands.
#[derive(Drop)]
pub(crate) struct Noted<'a> {
    note: &'a Note,
    told: bool,
}

impl Note {
    /// The note of a thread that nobody has killed. Nothing makes one but [`notes`], for a bench.
    fn new(thread: Tid) -> Note
        ensures { result.thread ≡ thread }
    {
        Note {
            thread,
            killed: CachePadded::new(AtomicBool::new(false)),
        }
    }

    /// Notes that the thread was killed whose note it is.
    pub(crate) fn kill(&self) -> Kill
        ensures thread { result.thread ≡ self.now.thread }
        ensures stage { result.stage ≡ Looked 0 }
    {
        self.killed.store(true, Ordering::SeqCst);
        Kill {
            thread: self.thread,
            stage: KillStage::Looked(0),
        }
    }

    /// Takes back that the thread was killed, whose note it is. Whoever calls it holds the lock of moves, so that no
    /// kill is under way.
    pub(crate) fn clear(&self, moves: &MutexGuard<'_, ()>) -> Cleared
        ensures { result.thread ≡ self.now.thread }
    {
        let _moves = moves;
        self.killed.store(false, Ordering::SeqCst);
        Cleared {
            thread: self.thread,
        }
    }

    /// What it tells its thread, which it has told nothing yet.
    #[inline(always)]
    pub(crate) fn fate(&self) -> Noted<'_>
        ensures { result.told ≡ false }
    {
        Noted {
            note: self,
            told: false,
        }
    }
}

impl Kill {
    /// The thread.
    pub(crate) fn thread(&self) -> Tid
        ensures { result ≡ self.now.thread }
    {
        self.thread
    }

    /// Takes the thread out of the next bucket's queues.
    pub(crate) fn look(&mut self, held: &mut Held<'_>)
        requires few { held.old.number < 256 }
        requires next { self.old.stage ≡ Looked held.old.number }
        ensures removes { (stood : _)
            × Removes (mutex_guard_value held.old.bucket) (mutex_guard_value held.new.bucket) self.old.thread stood }
        ensures orderly { IsOrderly (mutex_guard_value held.new.bucket) }
        ensures thread { self.new.thread ≡ self.old.thread }
        ensures stage { self.new.stage ≡ Looked (held.old.number + 1) }
    {
        remove_in(&mut held.bucket, self);
        self.stage = KillStage::Looked(held.number() + 1);
    }

    /// The thread, which was looked for in each bucket, was given a token.
    pub(crate) fn rouse(&mut self, given: Given)
        requires thread { given.thread ≡ self.old.thread }
        requires stage { self.old.stage ≡ Looked 256 }
        ensures thread { self.new.thread ≡ self.old.thread }
        ensures stage { self.new.stage ≡ Ended }
    {
        let _given = given;
        self.stage = KillStage::Ended;
    }

    /// The kill came to its end, and is the kill of this thread.
    pub(super) fn over(self, thread: Tid)
        requires thread { self.thread ≡ thread }
        requires stage { self.stage ≡ Ended }
    {
        let _thread = thread;
        let Kill {
            thread: _,
            stage: _,
        } = self;
    }
}

impl Cleared {
    /// The thread whose note it was lives again, and has no token.
    pub(crate) fn begin(self, drained: Drained, words: &Words, pass: Pass<Reaped>) -> Pass<Live>
        requires thread { self.thread ≡ (card pass).thread }
        requires drained { drained.thread ≡ (card pass).thread }
        requires pass { IsGone words.now pass }
        ensures live { IsLive words.now result }
        ensures card { card result ≡ renewed (layout_of words.now) (card pass) }
    {
        let Cleared { thread: _ } = self;
        let _drained = drained;
        pass.renew(words)
    }
}

impl<N> Spared<N> {
    /// The kill has been shown.
    pub(crate) fn spend(self) {
        let Spared { note: _ } = self;
    }
}

/// A note for each id, by which nobody was killed.
pub(crate) fn notes(alloc: Global) -> Result<Vec<Note>, NoMem>
    ensures count { IfOk result (λ v. length v.items ≡ most_threads) }
    ensures notes { IfOk result (λ v. AreNotes v.items) }
{
    let mut notes = Vec::with_capacity(alloc, usize::from(THREADS))?;
    for before in 0..THREADS {
        push_in_room(&mut notes, Note::new(thread_after(before)));
    }
    Ok(notes)
}

/// Asks a thread's note, under the lock of this bucket: whoever has a bucket holds its lock. None where it tells the
/// thread to stop.
pub(crate) fn ask<N: ByOthers>(note: &mut N, bucket: &Bucket) -> Option<Spared<N>>
    ensures { N.stopped note.new ≡ N.stopped note.old + stops_unless result }
{
    let _bucket = bucket;
    if note.stops() {
        None
    } else {
        Some(Spared { note: PhantomData })
    }
}

impl ByOthers for Noted<'_> {}

impl Fate for Noted<'_> {
    ghost stopped = { λ n. if n.told then 1 else 0 };

    #[inline(always)]
    fn stops(&mut self) -> bool {
        // The kill is told to stop once.
        if self.told {
            return false;
        }
        if self.note.killed.load(Ordering::SeqCst) {
            self.told = true;
        }
        self.told
    }
}
