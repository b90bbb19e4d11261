//! The protocol's machine with store buffers: what each thread stores waits in a buffer of its own before it reaches
//! memory, as on x86 processors (x86-TSO: Sewell, Sarkar, Owens, Zappa Nardelli and Myreen, 2010).
//!
//! Threads store nothing but own words: of their heads, and the links of mutexes that they own. Mutexes' words and
//! counters they change by locked instructions. Before a release, and before a death, all that waits of the thread
//! reaches memory. Between the events of `protocol` stores reach memory one by one, at any moment (`Happening`): so may
//! all that waits before any other locked instruction, as on x86. The laws:
//!
//! - `buffers_change_nothing`: what is recorded is what the machine without buffers tells, and memory, with all that
//!   waits, is its state. So whatever the laws of `protocol` say of notes and states holds with buffers too;
//! - `promises_hold_with_buffers`: the headline again, of memory as it stands;
//! - `buffers_drain`: a buffer can always be emptied, whatever others do;
//! - `own_words_stay`: nobody else changes what a thread stores, so it may load that as early as it likes;
//! - `loads_may_come_first`: so a lock, a trylock and an unlock may load all that they need before they store anything.
//!
//! Depends on `protocol`, for the machine, its laws and its invariant, on `mutex`, `condvar`, `robustlist` and
//! `exitwalk`, for the accesses of calls and walks, on `stepprograms`, `memorymap`, `posixmutex` and `lockword`, for
//! accesses, places, histories and words, and on `facts`, for what notes tell.
//!
//! ```text
//! // Thread 1 begins a lock, and announces the mutex: its pending word waits in its buffer.
//! Happens (Begin 1 (OnMutex (Lock 0))) ∷ Happens (Step 1)
//! // Its load of the mutex's word finds memory.
//! ∷ Happens (Step 1)
//! // The pending word reaches memory, and an exchange takes the mutex; or the other way round.
//! ∷ Drain 1
//! ∷ Happens (Step 1) ∷ []
//! ```
#![tactic(auto)]

mod laws;

pub use laws::{
    buffers_change_nothing, buffers_drain, loads_may_come_first, own_words_stay,
    promises_hold_with_buffers,
};
