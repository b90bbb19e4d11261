//! How much a trace may have of each thing. The definitions name these numbers too, and each use is proved against
//! theirs.

use lockword::NAMED_THREADS;

/// The bytes of a trace.
pub const MAX_BYTES: usize = 33_554_432;

/// The threads of a trace, which have the ids from 1 on.
pub const MAX_THREADS: u32 = NAMED_THREADS as u32;

/// The mutexes of a trace, which have the numbers from 0 on.
pub const MAX_MUTEXES: u32 = 4096;

/// The condition variables of a trace, which have the numbers from 0 on.
pub const MAX_CONDITIONS: u32 = 256;

/// The events of a trace, which have the numbers from 1 on.
pub const MAX_EVENTS: u32 = 100_000;
