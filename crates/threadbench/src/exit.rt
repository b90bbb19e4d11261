//! What the kernel does for a thread that died.
ghost use Rattle.stepprograms.specs.declared.access.Access.TheVariants.{Wake as AtWake};
ghost use Rattle.std.specs.Prelude.{◌≡◌, ℕ};
ghost use Rattle.ruledwords.specs.Deaths.{reaping_access, IsReaped, IsReapingOf, KeepsWalking};
ghost use Rattle.ruledwords.specs.Passes.{card, layout_of, IsDying, IsPassOf};

use crate::bench::Bench;
use crate::section::wake_for_dead;
use memorymap::key_of;
use ruledwords::{Dead, Pass, Reaped, Reaping, Walked};
use std::sync::Wait;
use stepprograms::{Access, Answer};

impl Bench {
    /// Walks a dead thread's list to its end, as the kernel does when a thread exits (robust-futexes;
    /// get_robust_list(2)). Each mutex that the thread held is marked with OWNER_DIED and is nobody's then, and whoever
    /// takes it next gets EOWNERDEAD. One of its sleepers is woken; one is woken too where the thread had released
    /// its pending mutex and died before the wake that it owed. The pass holds nothing afterwards.
    pub fn exit<R: Wait>(&self, rt: &R, pass: Pass<Dead>) -> Pass<Reaped>
        requires pass { IsDying self.now pass }
        ensures pass { IsPassOf self.now result }
        ensures reaped { IsReaped (layout_of self.now) (card pass) (card result) }
    {
        let mut reaping = Reaping::walk(&self.words, pass);
        for _ in rt.forever() {
            match self.walk_on(rt, reaping) {
                Walked::Goes(next) => reaping = next,
                Walked::Reaped(pass) => return pass,
            }
        }
        unreachable!()
    }

    /// Makes the walk's access that comes next, a wake under the bucket's lock or a step.
    fn walk_on<R: Wait>(&self, rt: &R, reaping: Reaping) -> Walked
        requires { IsReapingOf self.now reaping }
        ensures { KeepsWalking self.now reaping result }
    {
        match reaping.next() {
            Access::Wake { most, .. } => self.wake_dead(rt, reaping, most),
            _ => reaping.access(&self.words),
        }
    }

    /// Makes a wake of the walk: wakes at most this many sleepers of the word.
    fn wake_dead<R: Wait>(&self, rt: &R, reaping: Reaping, most: u32) -> Walked
        requires words { IsReapingOf self.now reaping }
        requires wake { (at : ℕ) × (reaping_access reaping ≡ AtWake at most) }
        ensures { KeepsWalking self.now reaping result }
    {
        let key = key_of(reaping.place(&self.words));
        let mut bucket = self.bucket(key).lock(rt);
        let woken = wake_for_dead(&mut bucket, &reaping, &self.words, key, most);
        drop(bucket);
        let roused = self.rouse(rt, &woken);
        reaping.answer(Answer::Count(roused.count()))
    }
}
