//! Judging traces: whether what a trace tells could have happened to robust mutexes.
//!
//! [`check`] reads a trace from its bytes in one pass. It answers the first fault of the format, wherever that is;
//! where there is none, the first line that doesn't fit the lines before it; and where all fit, how many points there
//! are. It asks for memory once, after the first line. A trace that is found legal explains itself: its points and
//! deaths, in their order, are a legal history of robust mutexes, each call that returned has exactly its points and
//! the last one's reply, a call that was cut has a beginning of them, a thread sleeps only in a call, until it is woken
//! or killed, and a killed thread's death is recorded of what it owned and of nothing else (pthread_mutex_lock,
//! pthread_cond_wait, robust-futexes). A reaped thread may live again: its id is used again, and all of this is so of
//! each of its lives.
//!
//! [`explain`] answers why that line doesn't fit, beside the line: its event's number, its thread's life or its mutex
//! forbids it, the first of these that does. [`read_trace`] gives the lines themselves, of a trace that needn't be
//! legal.
//!
//! Depends on `facts`, for what lines say and how they follow each other, on `lines`, for words and numbers, on
//! `posixmutex`, for mutexes as objects and operations, on `lockword`, for thread ids and replies, and on `thiserror`,
//! for messages.
//!
//! ```text
//! let trace = b"trace 2 1 0\n1 begin t1 lock m0\n2 sleep t1 m0\n3 point t1 m0 lock OK\nend 3\n";
//! match explain(rt.alloc(), trace) {
//!     Ok(Finding::Legal { points }) => println!(rt; "legal: {points} points")?,
//!     // line 4: the thread is asleep
//!     Ok(Finding::Illegal(why)) => println!(rt; "{why}")?,
//!     // such as: line 3: fault 2: unknown word
//!     Err(fault) => println!(rt; "{fault}")?,
//! }
//! ```
#![tactic(auto)]

mod checking;
mod fault;
mod form;
mod head;
mod judge;
mod laws;
mod limits;
mod misfit;
mod place;
mod reading;
mod stage;
mod told;
mod words;

pub use checking::{Finding, Verdict, check, explain};
pub use fault::{Fault, TraceFault};
pub use head::Head;
pub use laws::without_renewals_as_before;
pub use limits::{MAX_BYTES, MAX_CONDITIONS, MAX_EVENTS, MAX_MUTEXES, MAX_THREADS};
pub use misfit::{Misfit, TraceMisfit};
pub use told::{Told, read_trace};
