//! The kernel's half of futexes.
//!
//! A [`Kernel`] keeps who sleeps on which word (futex(2)): a wait sleeps exactly where the low half of its word is the
//! expected value, a wake takes the first sleepers of its word, in order, a requeue moves sleepers of one word to the
//! end of another word's queue, and a trim clears a word that says only that somebody may sleep on it, where nobody
//! does; a call that is refused changes nothing. Callers name words by addresses, each with the base at which its
//! process maps them; a word is its place, so that threads of different processes meet on it. It stands over any
//! [`Memory`], and [`PlainMemory`] is one. It also keeps where each thread's robust list begins (get_robust_list(2)): a
//! head is 0 until its thread sets it, and a futex call changes none. All the room is made by `Kernel::new` and by a
//! clone; no other call of a kernel takes memory.
//!
//! Depends on `buckets`, for the queues, on `memorymap`, for places, keys and a word's bucket, on `stepprograms`, for
//! what accesses answer, and on `lockword`, for cells, thread ids and replies.
//!
//! ```text
//! // 16 words, each 0. Thread 1 sleeps on word 4, which its process has at 1,004.
//! let memory = PlainMemory::new(rt.alloc(), 16)?;
//! let mut kernel = Kernel::new(rt.alloc(), 2)?;
//! assert_eq!(rt; kernel.wait(1000, &memory, first, 1004, 5), Err(Reply::EAGAIN));
//! assert_eq!(rt; kernel.wait(1000, &memory, first, 1004, 0), Ok(()));
//! // A thread whose process maps the words at 2,000 wakes one sleeper of the same word.
//! if let Ok(woken) = kernel.wake(2000, &memory, 2004, 1) {
//!     assert_eq!(rt; woken.get(0), Some(first));
//! }
//! assert!(rt; !kernel.asleep(first));
//! ```
#![tactic(auto)]

mod futex;
mod kernel;
mod memory;
mod plain;

pub use kernel::Kernel;
pub use memory::Memory;
pub use plain::PlainMemory;
