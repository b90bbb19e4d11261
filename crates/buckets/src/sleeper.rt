//! Which threads sleep, and for what.

use lockword::Tid;
use memorymap::Key;

/// A thread that sleeps on a key.
#[derive(Clone, Copy, Debug, PartialEq, Eq)]
pub struct Sleeper {
    pub thread: Tid,
    pub key: Key,
}
