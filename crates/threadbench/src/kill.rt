//! Kills: a thread is told to die, and is woken where it sleeps.
ghost use Rattle.std.specs.Prelude.{◌≡◌, ◌≤◌, ◌<◌, ◌+◌};
ghost use Rattle.lockword.specs.Threads.{most_threads};
ghost use Rattle.ruledwords.specs.Passes.{layout_of};
ghost use Rattle.threadbench.specs.declared.kill.note.KillStage.TheVariants.{Ended};
ghost use Rattle.threadbench.specs.Kills.{IsOfThread, Kills, KillsAll, IsMember};

use crate::bench::Bench;
use crate::kill::note::Kill;
use crate::killing::{BenchKiller, kill_members};
use buckets::BUCKETS;
use lockword::{Reply, Tid};
use memorymap::Layout;
use std::sync::{MutexGuard, Wait};

pub(crate) mod note;

/// The kill of a process on its way: it came to this many threads, in the order of their ids, and each of these that
/// is of the process was killed, and no other. Nothing begins or ends one but [`Bench::kill_process`].
pub(crate) struct Sweep {
    process: u8,
    come: u8,
}

impl Sweep {
    /// The kill came to nobody yet.
    fn begin(process: u8) -> Sweep
        ensures { (result.process ≡ process) × (result.come ≡ 0) }
    {
        Sweep { process, come: 0 }
    }

    /// The process.
    pub(crate) fn process(&self) -> u8
        ensures { result ≡ self.now.process }
    {
        self.process
    }

    /// The next thread was killed, as it is of the process.
    pub(crate) fn kills(&mut self, layout: &Layout, kill: Kill)
        requires few { self.old.come < most_threads }
        requires next { kill.thread ≡ self.old.come + 1 }
        requires ended { kill.stage ≡ Ended }
        requires member { IsMember layout.now self.old.process (self.old.come + 1) }
        ensures { (self.new.process ≡ self.old.process) × (self.new.come ≡ self.old.come + 1) }
    {
        let _layout = layout;
        kill.over(thread_after(self.come));
        self.come += 1;
    }

    /// The next thread is spared, as it is of another process.
    pub(crate) fn spares(&mut self, layout: &Layout)
        requires few { self.old.come < most_threads }
        requires next { ¬ IsMember layout.now self.old.process (self.old.come + 1) }
        ensures { (self.new.process ≡ self.old.process) × (self.new.come ≡ self.old.come + 1) }
    {
        let _layout = layout;
        self.come += 1;
    }

    /// The kill came to each thread.
    fn over(self, process: u8, layout: &Layout)
        requires process { self.process ≡ process }
        requires come { self.come ≡ layout.now.threads }
    {
        let _process = process;
        let _layout = layout;
        let Sweep {
            process: _,
            come: _,
        } = self;
    }
}

impl Bench {
    /// Kills a thread (kill(2), by SIGKILL). Its call of this bench ends in its death before its next access, asleep or
    /// not; where it is in none, its next one that makes an access does. Whoever walks its list then ([`Bench::exit`])
    /// marks what it holds. A trylock, a declaration and a release ask their fate alone; a worker's unlock heeds kills
    /// as a lock does. A second kill of a thread in one life changes nothing. ESRCH where the bench has no thread with
    /// this id.
    pub fn kill<R: Wait>(&self, rt: &R, thread: u8) -> Result<(), Reply>
        ensures { Kills (layout_of self.now) thread result }
    {
        if thread == 0 {
            return Err(Reply::ESRCH);
        }
        if thread > self.words.layout().threads() {
            return Err(Reply::ESRCH);
        }
        let thread = thread_after(thread - 1);
        let moves = self.moves.lock(rt);
        let kill = self.kill_thread(rt, &moves, thread);
        drop(moves);
        kill.over(thread);
        Ok(())
    }

    /// Kills each thread of a process, in the order of their ids, as [`Bench::kill`] does. ESRCH where the bench has no
    /// such process.
    pub fn kill_process<R: Wait>(&self, rt: &R, process: u8) -> Result<(), Reply>
        ensures { KillsAll (layout_of self.now) process result }
    {
        if process >= self.words.layout().processes() {
            return Err(Reply::ESRCH);
        }
        let layout = self.words.layout();
        let mut sweep = Sweep::begin(process);
        let killer = BenchKiller {
            bench: self,
            rt,
            moves: self.moves.lock(rt),
        };
        kill_members(&killer, layout, &mut sweep);
        drop(killer);
        sweep.over(process, layout);
        Ok(())
    }

    /// Whether a thread sleeps: it stands in the queue of a mutex or of a condition variable, and makes no access until
    /// it is woken or killed. It may have been so a moment ago alone. ESRCH where the bench has no thread with this id.
    pub fn sleeps<R: Wait>(&self, rt: &R, thread: u8) -> Result<bool, Reply>
        ensures { IsOfThread (layout_of self.now) thread result }
    {
        let threads = self.words.layout().threads();
        if thread == 0 || thread > threads {
            return Err(Reply::ESRCH);
        }
        let moves = self.moves.lock(rt);
        let stands = self.stands(rt, &moves, thread_after(thread - 1));
        drop(moves);
        Ok(stands)
    }

    /// Whether the thread is in a bucket. The lock of moves is held, so that nobody is moved meanwhile.
    fn stands<R: Wait>(&self, rt: &R, moves: &MutexGuard<'_, ()>, thread: Tid) -> bool {
        let _moves = moves;
        for place in 0..BUCKETS {
            if self.buckets[place].lock(rt).stands(thread) {
                return true;
            }
        }
        false
    }
}

/// The thread that comes after this many.
pub(crate) fn thread_after(before: u8) -> Tid
    requires { before < most_threads }
    ensures { result ≡ before + 1 }
{
    match Tid::new(before + 1) {
        Some(thread) => thread,
        None => unreachable!(),
    }
}
