//! The sleepers of a futex hash bucket.
//!
//! A [`Bucket`] keeps who sleeps on which key (futex(2)). Each key has a queue: a wait appends to the queue of its key,
//! a wake takes the first ones, a requeue moves the first ones to the end of another queue, of this bucket or of
//! another one, and a removal takes one thread out of the queue it is in. A thread stands in one queue at most,
//! once. How many buckets there are is [`BUCKETS`]. The queues are rings through one array of rows, one for each
//! thread, which [`Bucket::rows`] lends ([`Row`]). A [`Batch`] is threads in order, as one wake or one requeue takes
//! them. All the room is made by `Bucket::new` and by a clone; no other call takes memory.
//!
//! Depends on `memorymap`, for a word's key and lack of memory, and on `lockword`, for thread ids.
//!
//! ```text
//! let mut bucket = Bucket::new(rt.alloc(), 64)?;
//! bucket.enqueue(first, Key(7));
//! bucket.enqueue(second, Key(7));
//! // One is woken, the first that came; the other one moves to the queue of another key.
//! let woken = bucket.take(Key(7), 1);
//! let moved = bucket.move_within(Key(7), ALL, Key(9));
//! assert_eq!(rt; (woken.get(0), moved.get(0)), (Some(first), Some(second)));
//! assert_eq!(rt; (bucket.count(Key(7)), bucket.count(Key(9))), (0, 1));
//! // Killed asleep, it leaves its queue.
//! assert!(rt; bucket.remove(second) && !bucket.stands(second));
//! ```
#![tactic(auto)]

mod batch;
mod bucket;
mod bucket_count;
mod ring;
mod row;
mod sleeper;

pub use batch::Batch;
pub use bucket::Bucket;
pub use bucket_count::BUCKETS;
pub use row::Row;
