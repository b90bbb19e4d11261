//! Calls that sleep, and those that wake.
ghost use Rattle.std.specs.Prelude.{◌≡◌, ◌+◌, ◌<◌, ◌%◌, ℕ, length};
ghost use Rattle.stepprograms.specs.declared.access.Access.TheVariants.{Wait as AtWait, Wake as AtWake, Trim as AtTrim};
ghost use Rattle.ruledwords.specs.Fates.{Heeds};
ghost use Rattle.ruledwords.specs.Outcomes.{IsOwedOf, stops_in};
ghost use Rattle.ruledwords.specs.Passes.{layout_of, IsLive};
ghost use Rattle.mutex.specs.declared.call.Call.{Call};
ghost use Rattle.ruledwords.specs.declared.pass.Live.{Live};
ghost use Rattle.ruledwords.specs.declared.pass.Pass.{Pass};
ghost use Rattle.ruledwords.specs.Straight.{CrossedFrom, IsCrossingOf};
ghost use Rattle.ruledwords.specs.Stretches.{Stretches, stops_stretching};
ghost use Rattle.ruledwords.specs.Turns.{access_in, IsRunningOf, IsTurnOf, Keeps, KeepsDecided};
ghost use Rattle.threadbench.specs.Calls.{Locked, Paid, RanOut, Runs, IsHeeded, stretch_of};

use crate::bench::Bench;
use crate::kill::note::{ByOthers, Note};
use crate::numbered::{Gone, Numbered};
use crate::parker::{Due, Parker, Roused};
use crate::section::{Waited, trim_in, wait_in, wake_in};
use buckets::{BUCKETS, Batch};
use lockword::{Reply, Tid};
use memorymap::{Key, bucket_of, key_of};
use ruledwords::{
    Crossing, Fate, Live, Outcome, Owed, Pass, Running, Straight, Stretch, Turn, Wakes,
    either_stops,
};
use std::hint::spin_loop;
use std::sync::Wait;
use stepprograms::{Access, Answer};

impl Bench {
    /// Takes a mutex, and sleeps while another thread owns it (pthread_mutex_lock). The reply is OK; EOWNERDEAD where
    /// its last owner died and nobody declared it consistent; ENOTRECOVERABLE where it can't be used any more; EDEADLK
    /// where the thread owns it already; XHELD, with no access, where the thread holds 2,048 mutexes. The fate is asked
    /// before each access and each section, and the thread dies where it says so, or where it was killed
    /// ([`Bench::kill`]).
    pub fn lock<R: Wait, F: Fate>(
        &self,
        rt: &R,
        pass: Pass<Live>,
        mutex: u16,
        fate: &mut F,
    ) -> Outcome
        requires pass { IsLive self.now pass }
        requires mutex { mutex < (layout_of self.now).mutexes }
        ensures locked { Locked self.now mutex pass result }
        ensures fate { IsHeeded (F.stopped fate.old) (F.stopped fate.new) result }
    {
        let mut note = self.note(pass.thread()).fate();
        match Running::lock(&self.words, pass, mutex, fate, &mut note) {
            Straight::Crossed(crossing) => self.run_crossed(rt, crossing, fate),
            Straight::Lives(pass, reply) => Outcome::Lives(pass, reply),
            Straight::Dead(pass) => Outcome::Dead(pass),
        }
    }

    /// Ends an unlock: wakes whom it has to wake; where it finds nobody to wake, a word that says nothing but WAITERS
    /// becomes 0; and the thread's pending entry is cleared. The reply is OK. The fate is asked before each access and
    /// each section, and the thread dies where it says so, or where it was killed ([`Bench::kill`]).
    #[inline(always)]
    pub fn pay<R: Wait, F: Fate>(&self, rt: &R, owed: Owed, fate: &mut F) -> Outcome
        requires { IsOwedOf self.now owed }
        ensures paid { Paid self.now owed result }
        ensures fate { IsHeeded (F.stopped fate.old) (F.stopped fate.new) result }
    {
        let mut note = self.note(owed.thread()).fate();
        self.pay_on(rt, owed, fate, &mut note)
    }

    /// Ends an unlock. Its thread has two fates.
    #[inline(always)]
    fn pay_on<R: Wait, F: Fate, N: ByOthers>(
        &self,
        rt: &R,
        owed: Owed,
        fate: &mut F,
        note: &mut N,
    ) -> Outcome
        requires { IsOwedOf self.now owed }
        ensures paid { Paid self.now owed result }
        ensures fate { Heeds (F.stopped fate.old) (F.stopped fate.new) (N.stopped note.old) (N.stopped note.new)
            (stops_in result) }
    {
        if owed.wakes() != Wakes::Nobody {
            return self.run_on(rt, Running::owed(owed), fate, note);
        }
        if either_stops(fate, note) {
            return Outcome::Dead(owed.abandon());
        }
        match owed.settle(&self.words) {
            Ok(pass) => Outcome::Lives(pass, Reply::OK),
            // it is given back only where somebody is to be woken
            Err(owed) => {
                owed.abandon();
                unreachable!()
            }
        }
    }

    /// Runs a lock or an unlock to its end that left its line, or until one of its thread's fates ends it. It asks the
    /// note of the call's own thread again, and is compiled apart: so what it keeps in memory costs a call nothing
    /// that stays in its line.
    #[inline(never)]
    pub(crate) fn run_crossed<R: Wait, F: Fate>(
        &self,
        rt: &R,
        crossing: Crossing,
        fate: &mut F,
    ) -> Outcome
        requires { IsCrossingOf self.now crossing }
        ensures runs { (a : Pass Live) (call : Call) → CrossedFrom self.now a call crossing
            → RanOut self.now a call result }
        ensures fate { IsHeeded (F.stopped fate.old) (F.stopped fate.new) result }
    {
        match crossing.go_on() {
            Turn::Goes(running) => {
                let mut note = self.note(running.thread()).fate();
                self.run_on(rt, running, fate, &mut note)
            }
            Turn::Lives(pass, reply) => Outcome::Lives(pass, reply),
        }
    }

    /// Runs a call to its end, or until one of its thread's fates ends it, turn by turn.
    pub(crate) fn run_on<R: Wait, F: Fate, N: ByOthers>(
        &self,
        rt: &R,
        running: Running,
        fate: &mut F,
        note: &mut N,
    ) -> Outcome
        requires { IsRunningOf self.now running }
        ensures runs { Runs self.now running result }
        ensures fate { Heeds (F.stopped fate.old) (F.stopped fate.new) (N.stopped note.old) (N.stopped note.new)
            (stops_in result) }
    {
        let mut running = running;
        for _ in rt.forever() {
            match self.turn(rt, running, fate, note) {
                Stretch::Goes(next) => running = next,
                Stretch::Lives(pass, reply) => return Outcome::Lives(pass, reply),
                Stretch::Dead(pass) => return Outcome::Dead(pass),
            }
        }
        unreachable!()
    }

    /// Makes the steps on words that come next, where the call stands, and the access after them, a section under the
    /// bucket's lock or a step, unless one of the thread's fates ends the call before it.
    fn turn<R: Wait, F: Fate, N: ByOthers>(
        &self,
        rt: &R,
        running: Running,
        fate: &mut F,
        note: &mut N,
    ) -> Stretch
        requires { IsRunningOf self.now running }
        ensures stretches { Stretches self.now running result }
        ensures fate { Heeds (F.stopped fate.old) (F.stopped fate.new) (N.stopped note.old) (N.stopped note.new)
            (stops_stretching result) }
    {
        let running = match running.more(&self.words, fate, note) {
            Stretch::Goes(next) => next,
            Stretch::Lives(pass, reply) => return Stretch::Lives(pass, reply),
            Stretch::Dead(pass) => return Stretch::Dead(pass),
        };
        if either_stops(fate, note) {
            return Stretch::Dead(running.die());
        }
        match running.next() {
            Access::Wait { expected, .. } => self.wait_on_cell(rt, running, expected, note),
            Access::Wake { most, .. } => onward(self.wake(rt, running, most)),
            Access::Trim { .. } => onward(self.trim(rt, running)),
            _ => onward(running.access(&self.words)),
        }
    }

    /// Makes a wait, and sleeps where the word is the expected one. A thread whose note tells it to stop dies instead
    /// of that.
    fn wait_on_cell<R: Wait, N: ByOthers>(
        &self,
        rt: &R,
        running: Running,
        expected: u32,
        note: &mut N,
    ) -> Stretch
        requires words { IsRunningOf self.now running }
        requires wait { (at : ℕ) × (access_in running ≡ AtWait at expected) }
        ensures stretches { Stretches self.now running result }
        ensures note { N.stopped note.new ≡ N.stopped note.old + stops_stretching result }
    {
        let mut running = running;
        let key = key_of(running.place(&self.words));
        hesitate();
        let mut bucket = self.bucket(key).lock(rt);
        let waited = wait_in(&mut bucket, &mut running, &self.words, key, expected, note);
        drop(bucket);
        match waited {
            Waited::Asleep(asleep) => {
                let gone = self.sleep(rt, running.thread(), key);
                onward(asleep.woken(running, gone))
            }
            Waited::Awake => onward(running.answer(Answer::Again)),
            Waited::Stopped => Stretch::Dead(running.die()),
        }
    }

    /// Makes a wake: wakes at most this many sleepers of the word.
    fn wake<R: Wait>(&self, rt: &R, running: Running, most: u32) -> Turn
        requires words { IsRunningOf self.now running }
        requires wake { (at : ℕ) × (access_in running ≡ AtWake at most) }
        ensures words { IsTurnOf self.now result }
        ensures keeps { Keeps self.now running result }
        ensures decided { KeepsDecided self.now running result }
    {
        let key = key_of(running.place(&self.words));
        let mut bucket = self.bucket(key).lock(rt);
        let woken = wake_in(&mut bucket, &running, &self.words, key, most);
        drop(bucket);
        let roused = self.rouse(rt, &woken);
        running.answer(Answer::Count(roused.count()))
    }

    /// Gives a token to each of these threads.
    pub(crate) fn rouse<R: Wait>(&self, rt: &R, woken: &Batch) -> Roused
        ensures { result.count ≡ length woken.now }
    {
        let mut roused = Roused::nobody();
        for place in 0..woken.len() {
            let due = Due::woken(woken, place);
            roused.one_more(woken, self.parker(due.thread()).unpark(rt, due));
        }
        roused
    }

    /// Makes the trim of an unlock that found nobody to wake.
    fn trim<R: Wait>(&self, rt: &R, running: Running) -> Turn
        requires words { IsRunningOf self.now running }
        requires trim { (at : ℕ) × (access_in running ≡ AtTrim at) }
        ensures words { IsTurnOf self.now result }
        ensures keeps { Keeps self.now running result }
        ensures decided { KeepsDecided self.now running result }
    {
        let mut running = running;
        let key = key_of(running.place(&self.words));
        let bucket = self.bucket(key).lock(rt);
        let trimmed = trim_in(&bucket, &mut running, &self.words, key);
        drop(bucket);
        trimmed.answer(running)
    }

    /// Sleeps until the thread stands no more in the bucket of the key on which it fell asleep.
    fn sleep<R: Wait>(&self, rt: &R, thread: Tid, key: Key) -> Gone
        ensures { (result.thread ≡ thread) × (result.number ≡ key.0 % 256) }
    {
        let parker = self.parker(thread);
        for _ in rt.forever() {
            let _taken = parker.park(rt);
            let held = self.bucket(key).hold(rt);
            if let Some(gone) = held.left_by(thread) {
                return gone;
            }
        }
        unreachable!()
    }

    /// The bucket in which those stand who sleep on the key.
    pub(crate) fn bucket(&self, key: Key) -> &Numbered
        ensures { result.now.number ≡ key.0 % 256 }
    {
        &self.buckets[bucket_of(key, BUCKETS)]
    }

    /// The note by which others kill the thread.
    #[inline(always)]
    pub(crate) fn note(&self, thread: Tid) -> &Note
        ensures { result.now.thread ≡ thread }
    {
        &self.notes[thread.as_index()]
    }

    /// Where the thread sleeps.
    pub(crate) fn parker(&self, thread: Tid) -> &Parker
        ensures { result.now.thread ≡ thread }
    {
        &self.parkers[thread.as_index()]
    }
}

/// How many turns a thread lets pass before it comes to sleep on a cell: some 11 microseconds, about what a sleep and a
/// wake take. Half as many lost a quarter of the speed of four threads at one mutex, and twice as many gained a tenth,
/// while the longest wait was three times as long (docs/COSTS.md).
const PATIENCE: u32 = 2_000;

/// Lets some time pass, and looks at nothing. Whoever owns the mutex has mostly freed it by then, and perhaps taken it
/// again: so the thread goes on and tries again, and needn't be woken.
fn hesitate() {
    for _ in 0..PATIENCE {
        spin_loop();
    }
}

/// What an access leads to in which nobody dies.
fn onward(turn: Turn) -> Stretch
    ensures { result ≡ stretch_of turn }
{
    match turn {
        Turn::Goes(running) => Stretch::Goes(running),
        Turn::Lives(pass, reply) => Stretch::Lives(pass, reply),
    }
}
