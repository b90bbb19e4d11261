//! Fates: before each access of a call, its thread's fate says whether the thread dies there.
ghost use Rattle.std.specs.Prelude.{◌≡◌, ℕ, ◌+◌, if◌then◌else◌};
ghost use Rattle.ruledwords.specs.Fates.{Heeds};

/// Tells a thread whether it stops now. A call asks it before each of its accesses.
pub trait Fate {
    ghost stopped: { Self → ℕ };

    /// Whether the thread stops. It counts how often it said so.
    fn stops(&mut self) -> bool
        ensures { stopped self.new ≡ stopped self.old + (if result then 1 else 0) };
}

/// The fate of a thread that never stops.
#[derive(Clone, Copy, Debug, PartialEq, Eq)]
pub struct Never;

impl Fate for Never {
    ghost stopped = { λ n. 0 };

    fn stops(&mut self) -> bool {
        false
    }
}

/// Asks two fates of one thread: its caller's, and where that lets it go on, one more. So one of them at most says that
/// the thread stops.
#[inline(always)]
pub fn either_stops<F: Fate, N: Fate>(fate: &mut F, note: &mut N) -> bool
    ensures { Heeds (F.stopped fate.old) (F.stopped fate.new) (N.stopped note.old) (N.stopped note.new)
        (if result then 1 else 0) }
{
    fate.stops() || note.stops()
}
