//! The calls on a condition variable as step programs.
//!
//! A [`CondProgram`] is a call in progress: a value that says which access comes next ([`CondProgram::next`]) and goes
//! on with its answer ([`CondProgram::resume`]). Whoever runs it makes the accesses. It stands ([`CondPhase`]) at its
//! mutex's cell or at the condition variable's counter, where a [`CondRow`] says what it does; around that a wait keeps
//! its thread's robust list. A wait that is awake again takes its mutex by the program of a lock
//! ([`mutex::Program::retaking`]). Whatever words an access at the cell or at the counter meets, it is a step of the
//! mutex as POSIX sees it, or leaves it (`calls_are_right`, `accesses_are_there`, `points_are_permitted`). A broadcast
//! moves sleepers only to a cell that its thread owns (`moves_are_right`), and what a call needs of the words stays
//! while its thread owns the mutex (`needs_are_owned`). A wait's release and a signal wake one sleeper, a broadcast
//! none (`wakes_are_right`, `whole_calls_wake`). A whole call that returned, and not for a fault, had exactly its
//! points (`whole_calls_are_right`, `faults_are_told`). A wait with a time limit is a wait that may return `ETIMEDOUT`, as
//! the owner of its mutex (`timed_waits_are_right`). An [`Op`] is what a thread may call, on a mutex or on a
//! condition variable.
//!
//! Depends on `mutex`, for the lock that a wait ends with, on `robustlist`, for the entry's way out of the list, on
//! `memorymap`, for layouts, on `stepprograms` and `posixmutex`, for accesses and points, and on `lockword`, for cells
//! and replies.
//!
//! ```text
//! // Thread 1 of two owns the only mutex and signals its condition variable: cell at 7, counter at 10.
//! let layout = Layout::new(2, 1, &[0])?;
//! let mut signal = CondProgram::new(&layout, thread, CondCall::Signal(0));
//! assert_eq!(rt; signal.next(), Access::Load { at: 7 });
//! signal.resume(Answer::Value(1));
//! assert_eq!(rt; signal.next(), Access::Load { at: 10 });
//! signal.resume(Answer::Value(0));
//! // It counts before it wakes: who released the mutex before that and hasn't fallen asleep yet, won't.
//! assert_eq!(rt; signal.next(), Access::FetchAdd { at: 10, operand: 1 });
//! signal.resume(Answer::Value(0));
//! assert_eq!(rt; signal.next(), Access::Wake { at: 10, most: 1 });
//! ```
#![tactic(auto)]

mod broadcast;
mod call;
mod coding;
mod laws;
mod op;
mod phase;
mod program;
mod row;
mod signal;
mod wait;

pub use broadcast::BroadcastRow;
pub use call::{CondCall, Limit};
pub use coding::CodedCondPhase;
pub use laws::{
    accesses_are_there, calls_are_right, faults_are_told, moves_are_right, needs_are_owned,
    points_are_permitted, timed_waits_are_right, wakes_are_right, whole_calls_are_right,
    whole_calls_wake,
};
pub use op::Op;
pub use phase::{CondOnward, CondPhase};
pub use program::CondProgram;
pub use row::{CondLed, CondRow, Decided};
pub use signal::SignalRow;
pub use wait::WaitRow;
