//! Robust lists: an entry is put in front of a thread's list, or taken out of it, word by word.
//!
//! The kernel walks the list of a thread that died (get_robust_list(2); its document robust-futex-ABI), wherever the
//! thread was killed. So the words have to be a list between any two accesses. [`Link`] and [`Unlink`] are step
//! programs: a value says which access comes next and goes on with its answer; whoever runs it makes the accesses. At
//! each row the words are a chain of the old list or of the new one, and at the return a chain both ways of the new
//! one, whatever other threads write elsewhere (`links_are_right`, `unlinks_are_right`). Alone, each access is counted
//! (`links_alone`, `unlinks_alone`). The words of a thread's own head are an empty list before anything has happened
//! (`heads_begin_empty`), and words that are a chain are the chain of one list (`chains_are_unique`).
//!
//! Depends on `memorymap`, for lists through words, on `stepprograms`, for accesses and answers, and on `lockword`, for
//! replies.
//!
//! ```text
//! // The head of thread 1 is at 1 to 3 and leads to itself; a mutex's cell is at 4, its entry at 5 and 6.
//! let mut words = [0, 1, u64::MAX, 0, 0, 0, 0];
//! let mut link = Link::new(1, 5);
//! for _ in 1..6 {
//!     let answer = match link.next() {
//!         Access::Load { at } => Answer::Value(words[at as usize]),
//!         Access::Store { at, value } => { words[at as usize] = value; Answer::Stored }
//!         _ => Answer::Fault,
//!     };
//!     if let Progress::Returns { .. } = link.resume(answer) { break; }
//! }
//! // The head leads to the entry, and the entry both ways to the head.
//! assert!(rt; words == [0, 5, u64::MAX, 0, 0, 1, 1]);
//! ```
#![tactic(auto)]

mod laws;
mod link;
mod unlink;

pub use laws::{
    chains_are_unique, heads_begin_empty, links_alone, links_are_right, unlinks_alone,
    unlinks_are_right,
};
pub use link::{Link, LinkRow};
pub use unlink::{Unlink, UnlinkRow};
