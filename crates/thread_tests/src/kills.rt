//! Threads that die and are killed at a bench: before an access, between their calls, asleep, and living again.

mod accesses;
mod between;
mod pairs;
mod renewals;
mod sleepers;
