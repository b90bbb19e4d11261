//! The walk over a dead thread's robust list, as a step program.
//!
//! When a thread dies, the kernel goes over the list of the mutexes that it held and marks each of them
//! (robust-futexes.rst, get_robust_list(2)): the owner's id goes, OWNER_DIED comes, and one sleeper is woken. A
//! [`Walk`] is such a walk in progress: a value that says which access comes next ([`Walk::next`]) and goes on with its
//! answer ([`Walk::resume`]). Whoever runs it makes the accesses. The list is words that the dead thread wrote, so
//! nothing is taken for granted of it: whatever it is answered, the walk ends, and asks for no change but that of a
//! word which it learned is the dead thread's (`any_answers_end`). Where nobody else writes, it leaves what
//! those documents say, with this project's choices where they leave room (`walks_are_right`); so no mutex of a
//! whole list keeps its owner (`whole_lists_are_treated`). Where others write, each of its accesses is the death of
//! an owner or changes nothing (`steps_are_right`).
//!
//! Depends on `stepprograms`, for accesses and answers, on `posixmutex`, for points and how many entries are walked at
//! most, and on `lockword`, for cells.
//!
//! ```text
//! // Thread 1 died as the owner of one mutex: its head at 1 to 3, the mutex's cell at 4, its entry at 5 and 6.
//! let mut words = [0, 5, u64::MAX, 0, 1, 1, 1];
//! let mut walk = Walk::new(thread, 1);
//! for _ in 1..10_248 {
//!     let answer = match walk.next() {
//!         Access::Load { at } => Answer::Value(words[at as usize]),
//!         Access::Exchange { at, new, .. } => { words[at as usize] = new; Answer::Exchanged }
//!         // A wake: nobody sleeps.
//!         _ => Answer::Count(0),
//!     };
//!     if let Progress::Returns { .. } = walk.resume(answer) { break; }
//! }
//! assert!(rt; words[4] == OWNER_DIED);
//! ```
#![tactic(auto)]

mod coding;
mod laws;
mod row;
mod walk;

pub use coding::CodedRow;
pub use laws::{any_answers_end, steps_are_right, walks_are_right, whole_lists_are_treated};
pub use row::{Part, Rest, Row};
pub use walk::Walk;
