//! How much a script may have of each thing. The definitions name these numbers too, and each use is proved against
//! theirs.

use lockword::NAMED_THREADS;

/// The bytes of a script.
pub const MAX_BYTES: usize = 65_536;

/// The lines of a script, silent ones too.
pub const MAX_LINES: usize = 10_000;

/// The processes that a script may declare.
pub const MAX_PROCESSES: usize = 7;

/// The base of a process.
pub const MAX_BASE: u32 = 1_000_000_000;

/// The threads that a script may declare.
pub const MAX_THREADS: usize = NAMED_THREADS as usize;

/// The mutexes that a script may declare, and those of one `mutexes` or `locks` line.
pub const MAX_MUTEXES: usize = 4_096;

/// The condition variables that a script may declare.
pub const MAX_CONDITIONS: usize = 256;

/// The value that a counter may begin with.
pub const MAX_COUNTER: u32 = 4_294_967_295;

/// The characters of a name.
pub const MAX_NAME: usize = 16;

/// The characters of the name in a `mutexes` line, after which numbers of up to four digits are added.
pub const MAX_STEM: usize = 12;

/// The steps of one `step` line.
pub const MAX_STEPS: u32 = 100_000;

/// The number of the access in a `die` line.
pub const MAX_ACCESS: u32 = 100_000;

/// The events of a script that is played.
pub const MAX_EVENTS: usize = 100_000;

/// The steps after which a thread that was given its steps is looked at no more: each call returns long before.
pub const REST_STEPS: u32 = 9_000;
