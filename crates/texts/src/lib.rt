//! The writers of texts, which take no memory: a trace, the table of a run, and the replies of real threads. Where a
//! writer fails, it holds a beginning of the text.
//!
//! [`write_trace`], [`write_table`] and [`write_replies`] write, byte for byte, what `specs/` says of a run or of
//! replies.
//!
//! Depends on `script` and `interleave`, for what was run and how it left the machine, on `facts` and `protocol`, for
//! what notes tell, on `streams`, for writing, on `posixmutex`, `memorymap`, `lockword`, `mutex` and `buckets`, for
//! operations, cells, replies and sleepers, and on `itoa` and `hex`, for numbers.
//!
//! ```text
//! let script = parse(rt.alloc(), b"thread a\nmutex m\ncall a unlock m\n", Mode::Run)?;
//! let machine = first_machine(rt.alloc(), &script)?;
//! let (trace, machine) = play(rt.alloc(), &script, machine)?;
//! let mut text = Vec::new(rt.alloc());
//! // trace 1 1 0 / 1 begin t1 unlock m0 / 2 point t1 m0 unlock EPERM / 2 return t1 EPERM / end 2
//! write_trace(&trace, &mut text)?;
//! let mut table = Vec::new(rt.alloc());
//! // thread a idle 0 EPERM / mutex m 0000000000000000 - -
//! write_table(&script, &trace, &machine, &mut table)?;
//! ```
#![tactic(auto)]

mod mutex_start;
mod replies;
mod table;
mod text;
mod trace_lines;

pub use replies::{ConditionWord, MutexWord, ThreadReplies, write_replies};
pub use table::write_table;
pub use text::write_trace;
