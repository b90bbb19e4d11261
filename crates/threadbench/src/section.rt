//! What calls do under the lock of a bucket. A section that needs its call's word loads it there. Whoever has a bucket
//! holds its lock: the bench's buckets lie in their locks.
ghost use Rattle.std.specs.Prelude.{◌≡◌, ◌+◌, ◌%◌, ℕ};
ghost use Rattle.buckets.specs.Queues.{queue, IsOrderly, Removes, Takes};
ghost use Rattle.memorymap.specs.Layouts.{cell_place};
ghost use Rattle.stepprograms.specs.declared.access.Access.TheVariants.{Wait as AtWait, Wake as AtWake, Trim as AtTrim};
ghost use Rattle.stepprograms.specs.declared.access.Answer.TheVariants.{Woken, Trimmed as AnsweredTrim};
ghost use Rattle.ruledwords.specs.declared.pass.Words.{Words};
ghost use Rattle.ruledwords.specs.Calls.{IsOnMutex};
ghost use Rattle.ruledwords.specs.ConditionCalls.{cond_access_in, cond_call, cond_pass, cond_place_at, CondOnward};
ghost use Rattle.ruledwords.specs.ConditionCalls.{CondUnmoved, IsCondAnswerOf, IsCondRunningOf, IsCondTurnOf};
ghost use Rattle.ruledwords.specs.ConditionStands.{CondKeeps};
ghost use Rattle.ruledwords.specs.Deaths.{reaping_access, reaping_place};
ghost use Rattle.ruledwords.specs.Passes.{card, layout_of};
ghost use Rattle.ruledwords.specs.Turns.{access_in, place_at, running_call, running_pass, running_program};
ghost use Rattle.ruledwords.specs.Turns.{IsAnswerOf, IsRunningOf, IsTurnOf, Keeps, KeepsDecided, Onward, Unmoved};
ghost use Rattle.threadbench.specs.Conditions.{IsCellOf, StaysCondIfStopped};
ghost use Rattle.threadbench.specs.Sections.{FindsUnlessStopped, IsAsleepOn, StaysIfStopped, TrimLeaves};
ghost use Rattle.threadbench.specs.Sections.{TrimsNobodys, TrimsThere, Waits, WaitsUnlessStopped, WakesFirsts};
ghost use Rattle.threadbench.specs.Sections.{stops_waiting};

use crate::kill::note::{ByOthers, Kill, Spared, ask};
use crate::numbered::{Away, Gone};
use buckets::{Batch, Bucket};
use lockword::Tid;
use memorymap::Key;
use ruledwords::{CondRunning, CondTurn, Reaping, Running, Turn, Words};
use stepprograms::Answer;

/// Puts the thread at the end of the key's queue where the low half of the word that was seen is the expected one, and
/// tells so. Nothing changes where it differs; nor where the thread is in the bucket already or the bucket is full,
/// which can't come up, but what lies under a lock doesn't say so.
fn compare_and_enqueue(bucket: &mut Bucket, thread: Tid, key: Key, seen: u64, expected: u32) -> bool
    ensures { Waits bucket.old bucket.new thread key.0 seen expected result }
{
    if bucket.full() || bucket.stands(thread) {
        return false;
    }
    bucket.wait_section(thread, key, seen, expected)
}

/// Evidence that a thread stands in the queue of its word, which has this key, and that its note, asked under the lock of that
/// queue's bucket, told it to go on. Nothing makes one but a wait's section; a bench's calls go on by it as those that have slept.
pub(crate) struct Asleep<N> {
    spared: Spared<N>,
    thread: Tid,
    key: Key,
}

impl<N> Asleep<N> {
    /// Goes on with the call of a thread that slept and was woken: it is in its word's bucket no more.
    pub(crate) fn woken(self, running: Running, gone: Gone) -> Turn
        requires answer { IsAnswerOf (access_in running) Woken }
        requires gone { (gone.thread ≡ self.thread) × (gone.number ≡ self.key.0 % 256) }
        ensures turned { Onward (running_call running) Woken (running_pass running) result }
        ensures words { (w : Words) → IsRunningOf w running → IsTurnOf w result }
        ensures keeps { (w : Words) → Keeps w running result }
        ensures decided { (w : Words) → KeepsDecided w running result }
    {
        let _gone = gone;
        self.spend();
        running.answer(Answer::Woken)
    }

    /// The same of a call on a condition variable, whose thread is in the bucket of its counter no more, and in that
    /// of its mutex's cell neither, to which a broadcast may have moved it.
    pub(crate) fn woken_on_condition(
        self,
        running: CondRunning,
        words: &Words,
        cell: Key,
        away: Away,
    ) -> CondTurn
        requires answer { IsCondAnswerOf (cond_access_in running) Woken }
        requires cell { IsCellOf words.now running cell.0 }
        requires away { (away.thread ≡ self.thread) × (away.first ≡ self.key.0 % 256) × (away.second ≡ cell.0 % 256) }
        ensures onward { CondOnward (cond_call running) Woken (cond_pass running) result }
        ensures words { (w : Words) → IsCondRunningOf w running → IsCondTurnOf w result }
        ensures keeps { (w : Words) → CondKeeps w running result }
    {
        let _words = words;
        let _cell = cell;
        let _away = away;
        self.spend();
        running.answer(Answer::Woken)
    }

    /// It has been shown.
    fn spend(self) {
        let Asleep {
            spared,
            thread: _,
            key: _,
        } = self;
        spared.spend();
    }
}

/// What a wait comes to.
pub(crate) enum Waited<N> {
    /// The thread stands in its word's queue.
    Asleep(Asleep<N>),
    /// The word wasn't the expected one.
    Awake,
    /// The thread was told to stop.
    Stopped,
}

/// A wait: loads the word, and puts the call's thread to sleep on the key where the word's low half is the expected
/// one, unless the thread's note tells it to stop. The note is looked at under the bucket's lock: a kill that comes
/// later finds the thread in the bucket.
pub(crate) fn wait_in<N: ByOthers>(
    bucket: &mut Bucket,
    running: &mut Running,
    words: &Words,
    key: Key,
    expected: u32,
    note: &mut N,
) -> Waited<N>
    requires words { IsRunningOf words.now running.old }
    requires wait { (at : ℕ) × (access_in running.old ≡ AtWait at expected) }
    requires key { key.0 ≡ place_at (layout_of words.now) running.old }
    ensures unmoved { Unmoved words.now running.old running.new }
    ensures finds { (m : ℕ) → IsOnMutex (layout_of words.now) (running_program running.old) m
        → FindsUnlessStopped (card (running_pass running.old)) (cell_place (layout_of words.now) m)
        (card (running_pass running.new)).last result }
    ensures waits { WaitsUnlessStopped bucket.old bucket.new (running_program running.old).thread key.0
        (card (running_pass running.new)).last expected result }
    ensures untrimmed { (card (running_pass running.new)).trims ≡ (card (running_pass running.old)).trims }
    ensures stays { StaysIfStopped running.old running.new result }
    ensures asleep { IsAsleepOn (running_program running.old).thread key.0 result }
    ensures note { N.stopped note.new ≡ N.stopped note.old + stops_waiting result }
{
    let Some(spared) = ask(note, bucket) else {
        return Waited::Stopped;
    };
    let thread = running.thread();
    let seen = running.load(words);
    if compare_and_enqueue(bucket, thread, key, seen, expected) {
        Waited::Asleep(Asleep {
            spared,
            thread,
            key,
        })
    } else {
        spared.spend();
        Waited::Awake
    }
}

/// A wait: loads its condition variable's counter ([`CondRunning::load`]), and puts the call's thread to sleep on the
/// key where the counter's low half is the expected one, unless the thread's note tells it to stop. The note is looked
/// at under the bucket's lock, as that of a thread that sleeps on its mutex's cell is.
pub(crate) fn wait_on_counter_in<N: ByOthers>(
    bucket: &mut Bucket,
    running: &mut CondRunning,
    words: &Words,
    key: Key,
    expected: u32,
    note: &mut N,
) -> Waited<N>
    requires words { IsCondRunningOf words.now running.old }
    requires wait { (at : ℕ) × (cond_access_in running.old ≡ AtWait at expected) }
    requires key { key.0 ≡ cond_place_at (layout_of words.now) running.old }
    ensures unmoved { CondUnmoved words.now running.old running.new }
    ensures waits { WaitsUnlessStopped bucket.old bucket.new (card (cond_pass running.old)).thread key.0
        (card (cond_pass running.new)).last expected result }
    ensures untrimmed { (card (cond_pass running.new)).trims ≡ (card (cond_pass running.old)).trims }
    ensures stays { StaysCondIfStopped running.old running.new result }
    ensures asleep { IsAsleepOn (card (cond_pass running.old)).thread key.0 result }
    ensures note { N.stopped note.new ≡ N.stopped note.old + stops_waiting result }
{
    let Some(spared) = ask(note, bucket) else {
        return Waited::Stopped;
    };
    let thread = running.thread();
    let seen = running.load(words);
    if compare_and_enqueue(bucket, thread, key, seen.get(), expected) {
        Waited::Asleep(Asleep {
            spared,
            thread,
            key,
        })
    } else {
        spared.spend();
        Waited::Awake
    }
}

/// A kill: takes the thread out of the queue in which it stands, and tells whether it was in one.
pub(crate) fn remove_in(bucket: &mut Bucket, kill: &Kill) -> bool
    ensures removes { Removes bucket.old bucket.new kill.now.thread result }
    ensures orderly { IsOrderly bucket.new }
{
    bucket.remove(kill.thread())
}

/// A wake: takes at most this many threads out of the key's queue, those that stand first, in their order.
pub(crate) fn wake_in(
    bucket: &mut Bucket,
    running: &Running,
    words: &Words,
    key: Key,
    most: u32,
) -> Batch
    requires wake { (at : ℕ) × (access_in running.now ≡ AtWake at most) }
    requires key { key.0 ≡ place_at (layout_of words.now) running.now }
    ensures takes { Takes bucket.old bucket.new key.0 most result }
    ensures wakes { WakesFirsts (queue bucket.old key.0) (queue bucket.new key.0) most result }
    ensures orderly { IsOrderly bucket.new }
{
    let _words = words;
    take_firsts(bucket, running.thread(), key, most)
}

/// Takes at most this many threads out of the key's queue for this thread, those that stand first, in their order.
fn take_firsts(bucket: &mut Bucket, thread: Tid, key: Key, most: u32) -> Batch
    ensures takes { Takes bucket.old bucket.new key.0 most result }
    ensures wakes { WakesFirsts (queue bucket.old key.0) (queue bucket.new key.0) most result }
    ensures orderly { IsOrderly bucket.new }
{
    // What a bucket always is, as that it has at most 250 sleepers, is known once it is asked for one.
    let _stands = bucket.stands(thread);
    bucket.take(key, most)
}

/// A wake by the walk over a dead thread's list: takes at most this many threads out of the key's queue, those that
/// stand first, in their order.
pub(crate) fn wake_for_dead(
    bucket: &mut Bucket,
    reaping: &Reaping,
    words: &Words,
    key: Key,
    most: u32,
) -> Batch
    requires wake { (at : ℕ) × (reaping_access reaping.now ≡ AtWake at most) }
    requires key { key.0 ≡ reaping_place (layout_of words.now) reaping.now }
    ensures takes { Takes bucket.old bucket.new key.0 most result }
    ensures orderly { IsOrderly bucket.new }
{
    let _reaping = reaping;
    let _words = words;
    bucket.take(key, most)
}

/// What a trim came to: whether it cleared the word. Nothing makes one but [`trim_in`], which has the bucket; a bench's
/// calls go on by it.
#[derive(Drop)]
pub(crate) struct Trimmed {
    cleared: bool,
}

impl Trimmed {
    /// Goes on with the call whose trim it was.
    pub(crate) fn answer(self, running: Running) -> Turn
        requires { IsAnswerOf (access_in running) (AnsweredTrim self.cleared) }
        ensures turned { Onward (running_call running) (AnsweredTrim self.cleared) (running_pass running) result }
        ensures words { (w : Words) → IsRunningOf w running → IsTurnOf w result }
        ensures keeps { (w : Words) → Keeps w running result }
        ensures decided { (w : Words) → KeepsDecided w running result }
    {
        running.answer(Answer::Trimmed(self.cleared))
    }
}

/// A trim: where nobody stands in the key's queue, the call's word becomes 0 if WAITERS is all that it says, and it
/// tells whether it did.
pub(crate) fn trim_in(bucket: &Bucket, running: &mut Running, words: &Words, key: Key) -> Trimmed
    requires words { IsRunningOf words.now running.old }
    requires trim { (at : ℕ) × (access_in running.old ≡ AtTrim at) }
    requires key { key.0 ≡ place_at (layout_of words.now) running.old }
    ensures unmoved { Unmoved words.now running.old running.new }
    ensures trims { TrimsThere (queue bucket.now key.0) (card (running_pass running.old))
        (card (running_pass running.new)) result.cleared }
    ensures nobodys { TrimsNobodys (queue bucket.now key.0) (card (running_pass running.old))
        (card (running_pass running.new)) result.cleared }
    ensures leaves { (m : ℕ) → IsOnMutex (layout_of words.now) (running_program running.old) m
        → TrimLeaves (queue bucket.now key.0) (card (running_pass running.old)) (cell_place (layout_of words.now) m)
        (card (running_pass running.new)) }
{
    if bucket.count(key) != 0 {
        return Trimmed { cleared: false };
    }
    let cleared = running.trim(words);
    Trimmed { cleared }
}
