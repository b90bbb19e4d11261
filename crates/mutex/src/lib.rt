//! The calls on a mutex as step programs.
//!
//! A [`Program`] is a call in progress: a value that says which access comes next ([`Program::next`]) and goes on with
//! its answer ([`Program::resume`]). Whoever runs it makes the accesses. It stands ([`Phase`]) at its mutex's cell,
//! where a [`Row`] says what it does; around that it keeps its thread's robust list. Whatever word an access at the
//! cell meets, it is a step of the mutex as POSIX sees it, or leaves it (`programs_are_right`, `points_are_permitted`),
//! and it leaves `WAITERS` where it is set (`waiters_are_kept`), except for the trim of an unlock that woke nobody
//! (`unlocks_trim_after_waking_nobody`). One sleeper is woken after a release that leaves the mutex usable, and all
//! of an unusable one (`wakes_are_right`, `whole_calls_wake`). A trylock gives up after the fourth exchange that
//! found a changed cell (`raced_after_four`, `gives_up_after_four`). A whole call that returned, and not for a fault,
//! had exactly one point, whose reply it returned (`whole_calls_are_right`, `whole_calls_are_decided`); and wherever
//! its thread dies, the kernel finds in the thread's own words all that it owns (`whole_calls_keep_lists`).
//!
//! Depends on `memorymap`, for layouts, on `stepprograms` and `posixmutex`, for accesses and points, on `lockword`, for
//! cells and replies, and on `robustlist`, for the entry's way into and out of the list.
//!
//! ```text
//! // Thread 2 of two locks the only mutex: its head is at 4 to 6, the cell at 7, the entry at 8 and 9.
//! let layout = Layout::new(2, 1, &[])?;
//! let mut lock = Program::new(&layout, thread, 0, Call::Lock(0))?;
//! // The entry becomes the pending one, so that a walk would find the mutex before it is linked.
//! assert_eq!(rt; lock.next(), Access::Store { at: 6, value: 8 });
//! lock.resume(Answer::Stored);
//! assert_eq!(rt; lock.next(), Access::Load { at: 7 });
//! lock.resume(Answer::Value(0));
//! assert_eq!(rt; lock.next(), Access::Exchange { at: 7, expected: 0, new: 2 });
//! // Here it takes effect. What is left links the entry and clears the pending one.
//! if let Progress::Goes { point } = lock.resume(Answer::Exchanged) {
//!     assert_eq!(rt; point.map(|p| p.reply), Some(Reply::OK));
//! }
//! ```
#![tactic(auto)]

mod call;
mod coding;
mod consistent;
mod laws;
mod lock;
mod phase;
mod program;
mod row;
mod try_lock;
mod unlock;

pub use call::Call;
pub use coding::CodedPhase;
pub use consistent::ConsistentRow;
pub use laws::{
    expiries_are_right, gives_up_after_four, points_are_permitted, programs_are_right,
    raced_after_four, unlocks_trim_after_waking_nobody, waiters_are_kept, wakes_are_right,
    whole_calls_are_decided, whole_calls_are_right, whole_calls_keep_lists, whole_calls_wake,
};
pub use lock::LockRow;
pub use phase::{Onward, Phase};
pub use program::Program;
pub use row::{Led, Row};
pub use try_lock::TryLockRow;
pub use unlock::UnlockRow;
