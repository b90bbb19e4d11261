//! Threads that live again.
ghost use Rattle.std.specs.Prelude.{◌≡◌};
ghost use Rattle.ruledwords.specs.Passes.{IsLive, card, layout_of};
ghost use Rattle.ruledwords.specs.Renewals.{IsGone, renewed};

use crate::pass::{Live, Pass, Reaped, Words};
use std::marker::PhantomData;

impl Pass<Reaped> {
    /// The thread lives again, in no call: its head is an empty list again, and nothing is pending
    /// (get_robust_list(2)). What it has seen stays, so its history goes on; what it does in this life stands after
    /// what it did in those before.
    pub fn renew(self, words: &Words) -> Pass<Live>
        requires pass { IsGone words.now self }
        ensures live { IsLive words.now result }
        ensures card { card result ≡ renewed (layout_of words.now) (card self) }
    {
        let Pass {
            mut seat,
            thread,
            held,
            state: _,
        } = self;
        let head = words.layout.head(thread);
        words.store(&mut seat, head, words.layout.address(thread, head));
        words.store(&mut seat, head + 2, 0);
        Pass {
            seat,
            thread,
            held,
            state: PhantomData,
        }
    }
}
