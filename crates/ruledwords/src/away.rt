//! What is kept of each pass while all of them meet, and their seats are one.
ghost use Rattle.std.specs.Prelude.{◌≤◌};
ghost use Rattle.posixmutex.specs.Objects.{held_limit};

use lockword::Tid;

/// What is left of a pass while its seat is with the others'.
#[derive(Clone, Copy)]
pub(crate) struct Away {
    pub(crate) thread: Tid,
    /// How many mutexes the thread holds.
    pub(crate) held: u16,
    /// Whether it is of the first kind.
    pub(crate) is_first: bool,
    pub ghost few: { held ≤ held_limit },
}
