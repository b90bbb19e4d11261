//! The standing of a thread at a position.

use crate::kept::Life;
use protocol::Thread;
use std::marker::Model;

/// What a thread is doing, and how far it has come.
#[derive(Drop)]
pub(crate) struct Standing {
    pub thread: Thread,
    pub life: Life,
    /// The digest of both.
    pub digest: u64,
}

impl Model for Standing {
    ghost use Rattle.outcomes.specs.Comparisons.{IsComparable};
    ghost use Rattle.outcomes.specs.Kept.{place_in};
    ghost use Rattle.outcomes.specs.Standings.{Stood};

    ghost Value = { Stood };

    ghost view = { λ s. record { thread = s.thread; place = place_in s.life } };

    ghost invariant = { λ s. IsComparable s.thread.stage };
}
