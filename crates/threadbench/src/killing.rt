//! How threads are killed. Nothing here begins or ends a kill of a process, or lets a kill go: that is in `kill`.
ghost use Rattle.std.specs.Prelude.{◌≡◌};
ghost use Rattle.threadbench.specs.declared.kill.note.KillStage.TheVariants.{Ended};

use crate::bench::Bench;
use crate::kill::note::Kill;
use crate::kill::{Sweep, thread_after};
use crate::parker::Due;
use buckets::BUCKETS;
use lockword::Tid;
use memorymap::Layout;
use std::sync::{MutexGuard, Wait};

/// What kills a thread. Whoever has nothing but one kills nobody whose kill it doesn't get.
pub(crate) trait Killer {
    /// Kills the thread.
    fn kill(&self, thread: Tid) -> Kill
        ensures thread { result.thread ≡ thread }
        ensures stage { result.stage ≡ Ended };
}

/// Kills threads of a bench, whose lock of moves it holds.
pub(crate) struct BenchKiller<'a, R> {
    pub(crate) bench: &'a Bench,
    pub(crate) rt: &'a R,
    pub(crate) moves: MutexGuard<'a, ()>,
}

impl<R> Drop for BenchKiller<'_, R> {
    fn drop(self) {
        let Self {
            bench: _,
            rt: _,
            moves,
        } = self;
        drop(moves);
    }
}

impl<R: Wait> Killer for BenchKiller<'_, R> {
    fn kill(&self, thread: Tid) -> Kill {
        self.bench.kill_thread(self.rt, &self.moves, thread)
    }
}

/// Kills the threads of the sweep's process and no other: it comes to each thread of the bench. It has no bench, so
/// each kill that it makes is in its hands, and the sweep takes none but those.
pub(crate) fn kill_members<K: Killer>(killer: &K, layout: &Layout, sweep: &mut Sweep)
    requires { sweep.old.come ≡ 0 }
    ensures process { sweep.new.process ≡ sweep.old.process }
    ensures come { sweep.new.come ≡ layout.now.threads }
{
    for before in 0..layout.threads() {
        let thread = thread_after(before);
        if layout.process_of(thread) == sweep.process() {
            sweep.kills(layout, killer.kill(thread));
        } else {
            sweep.spares(layout);
        }
    }
}

impl Bench {
    /// Kills the thread. The lock of moves is held: nobody is moved from one bucket to another while it is looked for.
    pub(crate) fn kill_thread<R: Wait>(
        &self,
        rt: &R,
        moves: &MutexGuard<'_, ()>,
        thread: Tid,
    ) -> Kill
        ensures thread { result.thread ≡ thread }
        ensures stage { result.stage ≡ Ended }
    {
        let _moves = moves;
        let mut kill = self.note(thread).kill();
        for place in 0..BUCKETS {
            kill.look(&mut self.buckets[place].hold(rt));
        }
        let given = self.parker(thread).unpark(rt, Due::killed(&kill));
        kill.rouse(given);
        kill
    }
}
