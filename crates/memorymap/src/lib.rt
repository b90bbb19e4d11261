//! Where the shared words lie, and by what address each process finds them.
//!
//! [`Layout`] gives each word its place: robust-list heads, the cells and links of mutexes, the counters of condition
//! variables. Valid places are pairwise different (`places_differ`). Threads belong to processes, each of which maps
//! the words at a base of its own: programs speak of words by their addresses there (`addresses_are_sums`,
//! `addresses_are_seen`, `writes_are_seen`). Sleepers meet by a word's [`Key`], which every process has alike.
//! `specs/Chains.antt` says what a robust list is, as the kernel finds it through words.
//!
//! Depends on `lockword`, for thread ids, and on `thiserror`, for the messages of what is refused. [`NoMem`], lack of
//! memory, is here for all crates above.
//!
//! ```text
//! // Thread 1 is of process 0 and thread 2 of process 1, which map the words at 1,000 and at 2,000.
//! let layout = Layout::with_processes(&[0, 1], &[1000, 2000], 1, &[])?;
//! let first = Tid::new(1).ok_or("no thread 1")?;
//! let second = Tid::new(2).ok_or("no thread 2")?;
//! // The cell of mutex 0 stands behind two heads of three words each: one place, two addresses.
//! let cell = layout.cell(0);
//! assert_eq!(rt; (cell, layout.address(first, cell), layout.address(second, cell)), (7, 1007, 2007));
//! ```
#![tactic(auto)]

mod address;
mod key;
mod layout;
mod memory;

pub use address::{address_from, addresses_are_seen, addresses_are_sums, seen_at, writes_are_seen};
pub use key::{Key, bucket_of, key_of};
pub use layout::{
    BASE_LIMIT, CONDITION_LIMIT, HEAD_SIZE, Layout, LayoutFault, PROCESS_LIMIT, places_differ,
};
pub use memory::NoMem;
