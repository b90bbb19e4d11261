//! How much a history may have of each thing. The definitions name these numbers too, and each use is proved against
//! theirs.

use lockword::NAMED_THREADS;

/// The threads of a history at a time, which have the ids from 1 on.
pub const MAX_THREADS: u64 = NAMED_THREADS as u64;

/// The mutexes of a history, which have the numbers from 0 on.
pub const MAX_MUTEXES: u64 = 65_536;

/// The condition variables of a history, which have the numbers from 0 on.
pub const MAX_CONDITIONS: u64 = 65_536;

/// The events of a history, which have the numbers from 1 on.
pub const MAX_EVENTS: u64 = 9_223_372_036_854_775_808;
