//! Why a search ends before its last line.

ghost use Rattle.std.specs.Prelude.{◌<◌, ◌+◌};
ghost use Rattle.lockword.specs.Threads.{most_threads};

use lockword::{MOST_THREADS, Tid};
use std::alloc::AllocError;

/// Why a search ends.
#[derive(Clone, Copy)]
pub enum Stop {
    /// No memory was left.
    Memory,
    /// The thread doesn't know.
    Lost,
    /// No order of the calls explains the line, or its thread can't have it there.
    Refused,
}

impl From<AllocError> for Stop {
    fn from(_e: AllocError) -> Stop {
        Stop::Memory
    }
}

/// Keeps a value after the others.
pub fn keep<T: Copy>(values: &mut Vec<T>, value: T) -> Result<(), Stop> {
    match values.push(value) {
        Ok(()) => Ok(()),
        Err(_) => Err(Stop::Memory),
    }
}

/// How many places there are where things are kept by threads' ids: 0 is no thread's.
pub const IDS: usize = MOST_THREADS as usize + 1;

/// The place of a thread where things are kept by ids.
pub fn place(thread: Tid) -> usize
    ensures { result < most_threads + 1 }
{
    usize::from(thread.get())
}
