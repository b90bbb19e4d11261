//! Calls on condition variables.
ghost use Rattle.std.specs.Prelude.{◌≡◌, ◌+◌, ◌<◌, ◌%◌, ℕ, IfSome, Ok, length};
ghost use Rattle.condvar.specs.Calls.{condition_of};
ghost use Rattle.condvar.specs.declared.call.CondCall.TheVariants.{Wait as WaitOf};
ghost use Rattle.condvar.specs.declared.call.CondCall.TheVariants.{Signal as SignalOf, Broadcast as BroadcastOf};
ghost use Rattle.stepprograms.specs.declared.access.Access.TheVariants.{Wait as AtWait, Wake as AtWake};
ghost use Rattle.ruledwords.specs.ConditionCalls.{cond_access_in, cond_place_at, CondUnmoved, IsCondRunningOf};
ghost use Rattle.ruledwords.specs.Counts.{cell_at};
ghost use Rattle.ruledwords.specs.Fates.{Heeds};
ghost use Rattle.ruledwords.specs.Outcomes.{stops_in};
ghost use Rattle.ruledwords.specs.Passes.{layout_of, IsLive};
ghost use Rattle.threadbench.specs.Calls.{IsHeeded};
ghost use Rattle.threadbench.specs.Conditions.{stops_turning, CondAnswered, CondComesTo, CondRuns, IsCellOf, IsMoveOf};

use crate::bench::Bench;
use crate::condition_section::{move_to_in, move_within_in, wake_for_condition};
use crate::kill::note::ByOthers;
use crate::numbered::Away;
use crate::section::{Waited, wait_on_counter_in};
use buckets::{BUCKETS, Batch};
use condvar::CondCall;
use lockword::Tid;
use memorymap::{Key, bucket_of, key_of};
use ruledwords::{CondRunning, CondTurn, Dead, Fate, Live, Outcome, Pass, either_stops};
use std::sync::{MutexGuard, Wait};
use stepprograms::{Access, Answer};

impl Bench {
    /// Releases the condition variable's mutex, sleeps until a signal or a broadcast lets the thread go on, and takes
    /// the mutex again (pthread_cond_wait(3p)). It may return without any signal. The reply is EPERM, with nothing
    /// released, where the thread doesn't own the mutex, and XSTATE where it does but hasn't declared it consistent
    /// since its last owner died; else it is that of the lock that ends the wait: OK, EOWNERDEAD or ENOTRECOVERABLE.
    /// The fate is asked before each access and each section, and the thread dies where it says so, or where it was
    /// killed ([`Bench::kill`]).
    pub fn wait<R: Wait, F: Fate>(
        &self,
        rt: &R,
        pass: Pass<Live>,
        condition: u16,
        fate: &mut F,
    ) -> Outcome
        requires pass { IsLive self.now pass }
        requires condition { condition < length (layout_of self.now).conditions }
        ensures answered { CondAnswered self.now pass (WaitOf condition) result }
        ensures fate { IsHeeded (F.stopped fate.old) (F.stopped fate.new) result }
    {
        self.run_condition(rt, pass, CondCall::Wait(condition), fate)
    }

    /// Lets at least one thread go on that waits on the condition variable, if any does (pthread_cond_signal(3p)). The
    /// reply is EPERM where the thread doesn't own the condition variable's mutex; XFULL where the counter is 2^32 - 1,
    /// after as many signals and broadcasts; else OK. Its fate, and kills, are as those of [`Bench::wait`].
    pub fn signal<R: Wait, F: Fate>(
        &self,
        rt: &R,
        pass: Pass<Live>,
        condition: u16,
        fate: &mut F,
    ) -> Outcome
        requires pass { IsLive self.now pass }
        requires condition { condition < length (layout_of self.now).conditions }
        ensures answered { CondAnswered self.now pass (SignalOf condition) result }
        ensures fate { IsHeeded (F.stopped fate.old) (F.stopped fate.new) result }
    {
        self.run_condition(rt, pass, CondCall::Signal(condition), fate)
    }

    /// Lets every thread go on that waits on the condition variable, one after the other as each takes the mutex
    /// (pthread_cond_broadcast(3p)): it moves them to the mutex's cell, and unlocks wake them there. The reply is
    /// EPERM, XFULL or OK, as that of [`Bench::signal`]; and so are its fate, and kills.
    pub fn broadcast<R: Wait, F: Fate>(
        &self,
        rt: &R,
        pass: Pass<Live>,
        condition: u16,
        fate: &mut F,
    ) -> Outcome
        requires pass { IsLive self.now pass }
        requires condition { condition < length (layout_of self.now).conditions }
        ensures answered { CondAnswered self.now pass (BroadcastOf condition) result }
        ensures fate { IsHeeded (F.stopped fate.old) (F.stopped fate.new) result }
    {
        self.run_condition(rt, pass, CondCall::Broadcast(condition), fate)
    }

    /// Makes a call.
    pub(crate) fn run_condition<R: Wait, F: Fate>(
        &self,
        rt: &R,
        pass: Pass<Live>,
        call: CondCall,
        fate: &mut F,
    ) -> Outcome
        requires pass { IsLive self.now pass }
        requires condition { condition_of call < length (layout_of self.now).conditions }
        ensures answered { CondAnswered self.now pass call result }
        ensures fate { IsHeeded (F.stopped fate.old) (F.stopped fate.new) result }
    {
        let cell = self.cell_of(call.condition());
        let running = CondRunning::call(&self.words, pass, call);
        let mut note = self.note(running.thread()).fate();
        self.run_condition_on(rt, running, cell, fate, &mut note)
    }

    /// Runs a call to its end, or until one of its thread's fates ends it, turn by turn. The key is that of its mutex's
    /// cell.
    fn run_condition_on<R: Wait, F: Fate, N: ByOthers>(
        &self,
        rt: &R,
        running: CondRunning,
        cell: Key,
        fate: &mut F,
        note: &mut N,
    ) -> Outcome
        requires words { IsCondRunningOf self.now running }
        requires cell { IsCellOf self.now running cell.0 }
        ensures runs { CondRuns self.now running result }
        ensures fate { Heeds (F.stopped fate.old) (F.stopped fate.new) (N.stopped note.old) (N.stopped note.new)
            (stops_in result) }
    {
        let mut running = running;
        for _ in rt.forever() {
            match self.condition_turn(rt, running, cell, fate, note) {
                Ok(CondTurn::Goes(next)) => running = next,
                Ok(CondTurn::Locks(lock)) => return self.run_on(rt, lock, fate, note),
                Ok(CondTurn::Lives(pass, reply)) => return Outcome::Lives(pass, reply),
                Err(pass) => return Outcome::Dead(pass),
            }
        }
        unreachable!()
    }

    /// Makes the access that comes next, a section under locks of buckets or a step, unless one of the thread's fates
    /// ends the call before it.
    fn condition_turn<R: Wait, F: Fate, N: ByOthers>(
        &self,
        rt: &R,
        running: CondRunning,
        cell: Key,
        fate: &mut F,
        note: &mut N,
    ) -> Result<CondTurn, Pass<Dead>>
        requires words { IsCondRunningOf self.now running }
        requires cell { IsCellOf self.now running cell.0 }
        ensures comes { CondComesTo self.now running result }
        ensures fate { Heeds (F.stopped fate.old) (F.stopped fate.new) (N.stopped note.old) (N.stopped note.new)
            (stops_turning result) }
    {
        if either_stops(fate, note) {
            return Err(running.die());
        }
        match running.next() {
            Access::Wait { expected, .. } => {
                self.wait_on_counter(rt, running, cell, expected, note)
            }
            Access::Wake { most, .. } => Ok(self.wake_on_condition(rt, running, most)),
            Access::CmpRequeue {
                expected,
                moves,
                ..
            } => Ok(self.move_sleepers(rt, running, expected, moves)),
            _ => Ok(running.access(&self.words)),
        }
    }

    /// Makes a wait, and sleeps where the counter is the expected one. A thread whose note tells it to stop dies
    /// instead of that.
    fn wait_on_counter<R: Wait, N: ByOthers>(
        &self,
        rt: &R,
        running: CondRunning,
        cell: Key,
        expected: u32,
        note: &mut N,
    ) -> Result<CondTurn, Pass<Dead>>
        requires words { IsCondRunningOf self.now running }
        requires cell { IsCellOf self.now running cell.0 }
        requires wait { (at : ℕ) × (cond_access_in running ≡ AtWait at expected) }
        ensures comes { CondComesTo self.now running result }
        ensures note { N.stopped note.new ≡ N.stopped note.old + stops_turning result }
    {
        let mut running = running;
        let key = key_of(running.place(&self.words));
        let mut bucket = self.bucket(key).lock(rt);
        let waited = wait_on_counter_in(
            &mut bucket,
            &mut running,
            &self.words,
            key,
            expected,
            note,
        );
        drop(bucket);
        match waited {
            Waited::Asleep(asleep) => {
                let away = self.sleep_through_moves(rt, running.thread(), key, cell);
                Ok(asleep.woken_on_condition(running, &self.words, cell, away))
            }
            Waited::Awake => Ok(running.answer(Answer::Again)),
            Waited::Stopped => Err(running.die()),
        }
    }

    /// Makes a wake: wakes at most this many sleepers of the word.
    fn wake_on_condition<R: Wait>(&self, rt: &R, running: CondRunning, most: u32) -> CondTurn
        requires words { IsCondRunningOf self.now running }
        requires wake { (at : ℕ) × (cond_access_in running ≡ AtWake at most) }
        ensures comes { CondComesTo self.now running (Ok result) }
    {
        let key = key_of(running.place(&self.words));
        let mut bucket = self.bucket(key).lock(rt);
        let woken = wake_for_condition(&mut bucket, &running, &self.words, key, most);
        drop(bucket);
        let roused = self.rouse(rt, &woken);
        running.answer(Answer::Count(roused.count()))
    }

    /// Makes a broadcast's requeue: moves at most this many sleepers of the counter to the end of those of the
    /// mutex's cell, where the counter is the expected one.
    fn move_sleepers<R: Wait>(
        &self,
        rt: &R,
        running: CondRunning,
        expected: u32,
        moves: u32,
    ) -> CondTurn
        requires words { IsCondRunningOf self.now running }
        requires moves { IsMoveOf (cond_access_in running) expected moves }
        ensures comes { CondComesTo self.now running (Ok result) }
    {
        let mut running = running;
        let key = key_of(running.place(&self.words));
        let cell = key_of(running.target(&self.words));
        let guard = self.moves.lock(rt);
        let moved = self.move_under_locks(rt, &guard, &mut running, key, expected, cell, moves);
        drop(guard);
        match moved {
            Some(moved) => running.answer(Answer::Counts(0, moved.len() as u32)),
            None => running.answer(Answer::Again),
        }
    }

    /// Moves sleepers from the one key to the other, under the locks of both buckets, of which the lower number's is
    /// taken first, so that two that move don't wait for each other. Whoever looks for a sleeper in one bucket after the
    /// other holds the lock of moves.
    fn move_under_locks<R: Wait>(
        &self,
        rt: &R,
        guard: &MutexGuard<'_, ()>,
        running: &mut CondRunning,
        key: Key,
        expected: u32,
        to: Key,
        moves: u32,
    ) -> Option<Batch>
        requires words { IsCondRunningOf self.now running.old }
        requires moves { IsMoveOf (cond_access_in running.old) expected moves }
        requires key { key.0 ≡ cond_place_at (layout_of self.now) running.old }
        requires to { IsCellOf self.now running.old to.0 }
        ensures { CondUnmoved self.now running.old running.new }
    {
        let _guard = guard;
        let from = bucket_of(key, BUCKETS);
        let into = bucket_of(to, BUCKETS);
        let words = &self.words;
        if from == into {
            let mut bucket = self.buckets[from].lock(rt);
            return move_within_in(&mut bucket, running, words, key, expected, to, moves);
        }
        if from < into {
            let mut bucket = self.buckets[from].lock(rt);
            let mut other = self.buckets[into].lock(rt);
            return move_to_in(
                &mut bucket,
                &mut other,
                running,
                words,
                key,
                expected,
                to,
                moves,
            );
        }
        let mut other = self.buckets[into].lock(rt);
        let mut bucket = self.buckets[from].lock(rt);
        move_to_in(
            &mut bucket,
            &mut other,
            running,
            words,
            key,
            expected,
            to,
            moves,
        )
    }

    /// Sleeps until the thread, which fell asleep on a counter, is in no bucket any more.
    fn sleep_through_moves<R: Wait>(&self, rt: &R, thread: Tid, counter: Key, cell: Key) -> Away
        ensures { (result.thread ≡ thread) × (result.first ≡ counter.0 % 256) × (result.second ≡ cell.0 % 256) }
    {
        let parker = self.parker(thread);
        for _ in rt.forever() {
            let _taken = parker.park(rt);
            if let Some(away) = self.left_both(rt, thread, counter, cell) {
                return away;
            }
        }
        unreachable!()
    }

    /// Checks whether the thread is in the counter's bucket, and then whether it is in the cell's. Whoever stands
    /// in neither, looked at in this order, was woken or killed.
    fn left_both<R: Wait>(&self, rt: &R, thread: Tid, counter: Key, cell: Key) -> Option<Away>
        ensures { IfSome result
            (λ a. (a.thread ≡ thread) × (a.first ≡ counter.0 % 256) × (a.second ≡ cell.0 % 256)) }
    {
        let held = self.bucket(counter).hold(rt);
        let gone = held.left_by(thread);
        drop(held);
        self.bucket(cell).hold(rt).left_too(gone?)
    }

    /// The key of the cell of a condition variable's mutex.
    fn cell_of(&self, condition: u16) -> Key
        requires { condition < length (layout_of self.now).conditions }
        ensures { result.0 ≡ cell_at (layout_of self.now) condition }
    {
        let layout = self.words.layout();
        key_of(layout.cell(layout.mutex_of_condition(condition)))
    }
}
