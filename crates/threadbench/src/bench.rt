//! The bench.
ghost use Rattle.std.specs.Prelude.{◌≡◌, ◌<◌, ◌≤◌, ◌+◌, ℕ, [], ◌∷◌, All, length, map, slice_get, Some, IfOk, IfErr};
ghost use Rattle.lockword.specs.Threads.{most_threads};
ghost use Rattle.ruledwords.specs.Passes.{card, layout_of, presets_of, last_layout, last_words, IsLive, IsPassOf};
ghost use Rattle.ruledwords.specs.Rules.{first_card, Ends};
ghost use Rattle.threadbench.specs.Buckets.{AreNumbered, HaveRoomFor};
ghost use Rattle.threadbench.specs.Jobs.{IsJobOf, AreDone};

use crate::gate::Gate;
use crate::job::{Job, Record};
use crate::kill::note::{Note, notes};
use crate::numbered::Numbered;
use crate::parker::{Parker, parkers};
use crate::phase::Phase;
use crate::room::push_in_room;
use crate::work::{in_scope, work_on};
use buckets::{BUCKETS, Bucket};
use lockword::MOST_THREADS;
use memorymap::{Layout, NoMem};
use ruledwords::{Last, Live, Pass, Words};
use std::alloc::Global;
use std::marker::Model;
use std::sync::{Mutex, OnceLock, Wait};
use std::thread::Threads;

/// How many threads there may be.
pub(crate) const THREADS: u8 = MOST_THREADS;

/// The words of a layout's threads, and what their calls need to sleep and to wake.
#[derive(Drop)]
pub struct Bench {
    pub(crate) words: Words,
    /// Which threads sleep. Each bucket has a lock of its own; a word's key says in which its sleepers stand.
    pub(crate) buckets: Vec<Numbered>,
    /// Where each thread sleeps that there may be, in the order of their ids.
    pub(crate) parkers: Vec<Parker>,
    /// Which threads were killed: a note for each thread that there may be, in the order of their ids.
    pub(crate) notes: Vec<Note>,
    /// Whoever looks for a sleeper in one bucket after the other holds it, so that nobody is moved meanwhile.
    pub(crate) moves: Mutex<()>,
}

impl Model for Bench {
    ghost use Rattle.std.specs.Prelude.{◌≡◌, length};
    ghost use Rattle.lockword.specs.Threads.{most_threads};
    ghost use Rattle.ruledwords.specs.declared.pass.Words.{Words};
    ghost use Rattle.threadbench.specs.Buckets.{AreNumbered, HaveRoomFor};
    ghost use Rattle.threadbench.specs.Notes.{AreNotes};
    ghost use Rattle.threadbench.specs.Parkers.{AreParkers};

    ghost Value = { Words };

    ghost view = { λ b. b.words };

    ghost invariant = { λ b. (length b.buckets.items ≡ 256) × AreNumbered b.buckets.items
        × (length b.notes.items ≡ most_threads) × AreNotes b.notes.items
        × (length b.parkers.items ≡ most_threads) × AreParkers b.parkers.items
        × HaveRoomFor b.words.layout.threads b.buckets.items };
}

impl Bench {
    /// A bench, and a pass for each thread in the order of their ids. Nobody owns a mutex, nobody sleeps, and the
    /// counters of the condition variables are those given, in the order of their numbers. It takes all the memory that
    /// its calls need, except for [`Bench::work`].
    pub fn new(
        alloc: Global,
        layout: Layout,
        presets: &[u32],
    ) -> Result<(Bench, Vec<Pass<Live>>), NoMem>
        requires { length presets.now ≡ length layout.conditions }
        ensures layout { IfOk result (λ r. layout_of r.0 ≡ layout) }
        ensures presets { IfOk result (λ r. presets_of r.0 ≡ presets.now) }
        ensures passes { IfOk result (λ r. length r.1.items ≡ layout.threads) }
        ensures each { IfOk result (λ r. All (λ p. IsLive r.0 p) r.1.items) }
        ensures cards { IfOk result
            (λ r. (i : ℕ) (p : _) → slice_get r.1.items i ≡ Some p → card p ≡ first_card layout presets.now (i + 1)) }
    {
        let parkers = parkers(alloc)?;
        let buckets = buckets(alloc, layout.threads())?;
        let notes = notes(alloc)?;
        let (words, passes) = Words::new(alloc, layout, presets)?;
        Ok((
            Bench {
                words,
                buckets,
                parkers,
                notes,
                moves: Mutex::new(()),
            },
            passes,
        ))
    }

    /// The words, which callers' own threads may use too.
    pub fn words(&self) -> &Words
        ensures { result.now ≡ self.now }
    {
        &self.words
    }

    /// Runs a worker for each job that has calls, each in a thread of its own, and joins them: all begin at once, each
    /// makes its job's calls in their order, and stops where the gate tells it to, or where its thread dies; then its
    /// list is walked ([`Bench::exit`]). A record has the replies, and the pass after them; records are in the order of
    /// their jobs, and one of a job without calls has its pass. Where memory or a thread is refused no call is made,
    /// and the jobs are given back.
    pub fn work<R: Threads + Wait + Sync, G: Gate + Sync>(
        &self,
        rt: &R,
        alloc: Global,
        jobs: Vec<Job>,
        gate: &G,
    ) -> Result<Vec<Record>, (Vec<Job>, NoMem)>
        requires { All (IsJobOf self.now) jobs.items }
        ensures done { IfOk result (λ rs. AreDone self.now (G.says gate.now) jobs.items rs.items) }
        ensures refused { IfErr result (λ e. e.0.items ≡ jobs.items) }
    {
        let begins = OnceLock::new();
        let phase = Phase {
            bench: self,
            gate,
            begins: &begins,
        };
        let shared = &phase;
        let mut jobs = jobs;
        in_scope(
            rt,
            gate,
            |scope| -> Result<Vec<Record>, (Vec<Job>, NoMem)>
                requires { All (IsJobOf shared.now.bench.now) jobs.items }
                ensures done { IfOk result
                    (λ rs. AreDone shared.entry.now.bench.now (G.says shared.entry.now.gate.now) jobs.entry.items
                    rs.items) }
                ensures refused { IfErr result (λ e. e.0.items ≡ jobs.entry.items) }
            { work_on(rt, alloc, scope, shared, &mut jobs) },
        )
    }

    /// Ends the bench. The history of each mutex begins with what the pass has seen, and the counters of its condition
    /// variables, added up, are as they began and one more for each signal or broadcast in it that was returned OK.
    pub fn close<A>(self, pass: Pass<A>) -> Last
        requires { IsPassOf self pass }
        ensures layout { last_layout result ≡ layout_of self }
        ensures ends { Ends (layout_of self) (presets_of self) (card pass ∷ []) (last_words result) }
    {
        let Bench {
            words,
            buckets: _,
            parkers: _,
            notes: _,
            moves: _,
        } = self;
        words.close(pass)
    }

    /// Ends the bench, and all these passes meet. One history of each mutex has what any of them has seen, with of each
    /// of their threads just the thread's own points; and counters count as at the end of one pass.
    pub fn close_all<A: Drop>(self, passes: Vec<Pass<A>>) -> Last
        requires { All (λ p. IsPassOf self p) passes.items }
        ensures layout { last_layout result ≡ layout_of self }
        ensures ends { Ends (layout_of self) (presets_of self) (map (λ p. card p) passes.items) (last_words result) }
    {
        let Bench {
            words,
            buckets: _,
            parkers: _,
            notes: _,
            moves: _,
        } = self;
        words.close_all(passes)
    }
}

/// Buckets where nobody stands, each with room for this many threads, in the order of their numbers.
fn buckets(alloc: Global, threads: u8) -> Result<Vec<Numbered>, NoMem>
    requires first { 1 ≤ threads }
    requires last { threads ≤ most_threads }
    ensures count { IfOk result (λ v. length v.items ≡ 256) }
    ensures numbers { IfOk result (λ v. AreNumbered v.items) }
    ensures room { IfOk result (λ v. HaveRoomFor threads v.items) }
{
    let mut buckets = Vec::with_capacity(alloc, BUCKETS)?;
    for number in 0..BUCKETS {
        let bucket = Bucket::new(alloc, usize::from(threads))?;
        push_in_room(&mut buckets, Numbered::new(number, bucket, threads));
    }
    Ok(buckets)
}
