//! The words of robust mutexes.
//!
//! A mutex is one 64-bit [`Cell`], whose low half is its futex word: the owner's thread id and the flags WAITERS and
//! OWNER_DIED, as futex(2) and the kernel's robust-futex-ABI have them. Each change of a cell is proved by its owner
//! and its flags; the other bits stay. [`Tid`] is a thread's id, 1 to [`MOST_THREADS`], and [`Reply`] is how a call
//! answers, whose name is read back as that reply (`replies_are_read_back`).
//!
//! Depends on `thiserror` alone, for the message of a text that is no reply's name.
//!
//! ```text
//! // Nobody owns the mutex, and its last owner died. Thread 2 takes it.
//! let thread = Tid::new(2).ok_or("no thread 2")?;
//! let owned = Cell::new(OWNER_DIED).taken(thread);
//! assert_eq!(rt; (owned.owner(), owned.owner_died()), (2, true));
//! // It releases it without having declared it consistent, so that nobody can lock it any more.
//! let spoiled = owned.spoiled(thread);
//! assert_eq!(rt; (spoiled.word(), spoiled.owner()), (UNUSABLE, 0));
//! assert_eq!(rt; Reply::ENOTRECOVERABLE.number(), 131);
//! ```
#![tactic(auto)]

mod cell;
mod reply;
mod tid;

pub use cell::{Cell, OWNER_DIED, UNUSABLE, WAITERS};
pub use reply::{ParseReplyError, Reply, replies_are_read_back};
pub use tid::{MOST_THREADS, NAMED_THREADS, Tid};
