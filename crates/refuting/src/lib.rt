//! Refuting histories: that no trace shows one.
//!
//! A [`Refuter`] follows one mutex through a history's lines. It keeps a state for each order of points and deaths that
//! a trace may have put between the lines so far: what the mutex is, and how far the calls on it have come. Each trace
//! that shows the lines stands among the states, so where none is left the history is illegal ([`refutes`]). A thread's
//! own lines are looked at too: who begins a call in a call is refuted, whatever the mutex.
//!
//! A point that changes the mutex is a step from state to state. One that changes nothing is no step: a state notes
//! that a call could have got there what it returns. What it returns is looked up in the lines after.
//!
//! How many mutexes a thread owns is counted by its own lines: who owns 2,048 gets X_HELD, and nobody else.
//!
//! Else it takes mutexes one by one, so it may miss what is wrong with several together: that a doomed thread died in
//! time for all of them. [`refutes_by_kills`] refutes that: it tries each moment at which one of the doomed threads may
//! have been killed, and has each refuted by some mutex. That each illegal history is refuted isn't proved.
//!
//! Depends on `histories`, for a history's lines and what a legal one is, on `verdict`, for the rules of a trace's lines,
//! on `facts`, for what lines say, on `posixmutex`, for mutexes as objects, and on `lockword`, for thread ids and
//! replies.
//!
//! ```text
//! // 1 begin t1 lock m0, 2 return t1 OK, 3 begin t2 lock m0, 4 return t2 OK
//! assert!(rt; refutes(rt.alloc(), &head, &lines, 0)?);
//! ```
#![tactic(auto)]

mod closing;
mod counts;
mod kills;
mod refuter;
mod refuting;
mod replies;
mod state;
mod steps;
mod turn;

pub use kills::refutes_by_kills;
pub use refuting::refutes;
