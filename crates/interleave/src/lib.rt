//! The machine of robust mutexes: a schedule of events run over shared words.
//!
//! [`Machine::step`] does what the protocol's definition says that an event does, for every event. Its words are a
//! plain memory, and its threads sleep in a kernel's queues. What holds of every run is the contract of
//! [`Machine::run`]: its points are one legal history of POSIX robust mutexes. Threads may be killed at any event, and
//! the kernel then walks their robust lists (get_robust_list(2)): a thread whose walk has ended owns no mutex, and may
//! be renewed, with the same id. A mutex that has become unusable may be reinitialised. [`Machine::alone`] is what
//! one thread would do if no other stepped: after each event no sleeper is stranded, and whoever is awake comes to
//! rest (`runs_alone`). [`Machine::save`] keeps a state, and [`Machine::restore`] comes back to it.
//!
//! Depends on `protocol`, for events, notes and the laws, on `syscalls`, for the memory and the kernel, on `mutex`,
//! `condvar`, `robustlist` and `exitwalk`, for the programs that it runs, on `buckets`, for who is woken, on `facts`,
//! for notes, on `memorymap`, for layouts, and on `stepprograms`, `posixmutex` and `lockword`.
//!
//! ```text
//! // One thread, one mutex: the head at 1 to 3, the cell at 4. The thread locks the mutex and is killed.
//! let mut machine = Machine::new(rt.alloc(), Layout::new(1, 1, &[])?)?;
//! let _ = machine.step(Event::Begin(thread, Op::OnMutex(Call::Lock(0))));
//! while machine.busy(thread) {
//!     let _ = machine.step(Event::Step(thread));
//! }
//! assert_eq!(rt; machine.owner(0), Some(thread));
//! let _ = machine.step(Event::Kill(thread));
//! // What it would come to alone: the walk marks the mutex, and the thread is reaped.
//! let later = machine.alone(rt.alloc(), thread, 9000)?;
//! assert!(rt; later.reaped(thread) && later.word(4) == Some(OWNER_DIED));
//! ```
#![tactic(auto)]

mod accesses;
mod calls;
mod copies;
mod deaths;
mod expiries;
mod leaves;
mod machine;
mod ops;
mod reinits;
mod renewals;
mod saved;
mod spares;
mod threads;
mod trace;

pub use machine::Machine;
pub use saved::{Saved, Sleeper};
pub use trace::Trace;
