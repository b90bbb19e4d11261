//! What the lines of a trace tell, and how they follow each other.
//!
//! A [`Line`] is a [`Fact`] and the number of its event. `specs/` says whose fact it is, which steps of mutexes points
//! and deaths are, what all lines of one thread must be together, and how lines may be after each other: what a run
//! prints and what a trace is judged by (of replies, the law `only_late_waits_differ`).
//!
//! Depends on `posixmutex`, for operations and decisions, and on `lockword`, for thread ids and replies.
//!
//! ```text
//! // `16 death t1 m0`: thread 1 died as the owner of mutex 0.
//! let line = Line { event: 16, fact: Fact::Death(thread, 0) };
//! assert_eq!(rt; line.fact.thread(), thread);
//! // It is a step of the mutex, and no call's point.
//! let step = line.fact.decision().ok_or("no step")?;
//! assert_eq!(rt; (step.mutex, step.operation, step.reply), (0, Operation::Death, Reply::OK));
//! assert!(rt; line.fact.decides() && !line.fact.is_point());
//! // Who is woken does nothing: it is another thread's event.
//! assert!(rt; Fact::Wake(thread).is_passive());
//! ```
#![tactic(auto)]

mod fact;
mod laws;

pub use fact::{Begun, Fact, Line, Queue};
pub use laws::only_late_waits_differ;
