//! Threads that live again.
ghost use Rattle.std.specs.Prelude.{◌≡◌};
ghost use Rattle.ruledwords.specs.Passes.{card, layout_of, IsLive};
ghost use Rattle.ruledwords.specs.Renewals.{IsGone, renewed};

use crate::bench::Bench;
use ruledwords::{Live, Pass, Reaped};
use std::sync::Wait;

impl Bench {
    /// Lets a thread that was reaped live again, so that its id is used again: it is in no call, its list is empty
    /// and nothing is pending (get_robust_list(2)). The history goes on: what the pass has seen stays. No kill of an
    /// earlier life reaches this one: one that is under way comes to its end first, and its note and its token are taken
    /// back.
    pub fn renew<R: Wait>(&self, rt: &R, pass: Pass<Reaped>) -> Pass<Live>
        requires pass { IsGone self.now pass }
        ensures live { IsLive self.now result }
        ensures card { card result ≡ renewed (layout_of self.now) (card pass) }
    {
        let moves = self.moves.lock(rt);
        let cleared = self.note(pass.thread()).clear(&moves);
        let drained = self.parker(pass.thread()).drain(rt);
        drop(moves);
        cleared.begin(drained, &self.words, pass)
    }
}
