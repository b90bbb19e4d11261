//! Every outcome of a small plan, each with a run to it.
//!
//! A [`Plan`] says what each thread calls, in order, and which events may come in between. [`explore`] goes through
//! every interleaving of the threads' accesses on the machine of `protocol`, breadth first, and lists the [`Outcome`] of
//! each run that is over, once. Its contract says what that means (`specs/`: `Plans`, `Positions`, `Events`, `Runs`,
//! `Outcomes`): each outcome comes with the events of a run that has it, and if the search was complete, no run of the
//! plan that is over has any other outcome. Two positions count as one only if the machine's state, the phase and how
//! far each thread has come are the same. What positions have in common is stored once, so a position of three threads
//! takes about 150 bytes.
//!
//! Depends on `interleave` and `protocol`, for the machine and its events, on `mutex`, `condvar` and `exitwalk`, for
//! calls and for where they stand, and on `robustlist` and `stepprograms`, for what proofs say of them. Layouts are of
//! `memorymap`, mutexes of `posixmutex`, replies and thread ids of `lockword`.
//!
//! ```text
//! // Two threads that each lock and unlock mutex 0. At most one of them is killed.
//! let call = |call| Item { phase: 0, after: None, act: Act::Call(Op::OnMutex(call)) };
//! let items = [call(Call::Lock(0)), call(Call::Unlock(0))];
//! let plan = Plan { layout: Layout::new(2, 1, &[])?, threads, presets, asked };
//! let found = explore(rt.alloc(), &plan, 5_000_000, &mut silent)?;
//! assert!(rt; found.complete && found.outcomes.len() == 13);
//! ```
#![tactic(auto)]

mod adding;
mod digest;
mod events;
mod expansion;
mod exploring;
mod first;
mod kept;
mod next;
mod outcome;
mod plan;
mod reading;
mod sameness;
mod search;
mod standing;
mod stock;
mod stored;
mod succession;
mod table;

pub use exploring::{Found, Progress, Witnessed, explore};
pub use outcome::{End, Ended, Outcome};
pub use plan::{Act, Asked, Item, Plan};
