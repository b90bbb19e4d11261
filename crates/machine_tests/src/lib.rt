//! The tests of words and replies, of layouts, of futexes, lists and walks, and of calls and the machine.
//!
//! They use only what the crates below offer to everybody. A crate that has tests is proved a second time for them, so
//! tests are above what they call; and in few crates, since each is linked with all that it calls. A test of many
//! cases goes over a table, and tells the first case that is answered otherwise.
#![tactic(auto)]

#[cfg(test)]
mod batches;
#[cfg(test)]
mod calls;
#[cfg(test)]
mod cell_calls;
#[cfg(test)]
mod cell_faults;
#[cfg(test)]
mod cells;
#[cfg(test)]
mod condition_calls;
#[cfg(test)]
mod condition_words;
#[cfg(test)]
mod hashes;
#[cfg(test)]
mod kernels;
#[cfg(test)]
mod layout_processes;
#[cfg(test)]
mod layouts;
#[cfg(test)]
mod links;
#[cfg(test)]
mod lists;
#[cfg(test)]
mod machine_acts;
#[cfg(test)]
mod machine_again;
#[cfg(test)]
mod machine_deaths;
#[cfg(test)]
mod machine_processes;
#[cfg(test)]
mod machine_rows;
#[cfg(test)]
mod machine_runs;
#[cfg(test)]
mod machine_sleepers;
#[cfg(test)]
mod memories;
#[cfg(test)]
mod mutexes;
#[cfg(test)]
mod processes;
#[cfg(test)]
mod queues;
#[cfg(test)]
mod rings;
#[cfg(test)]
mod slow;
#[cfg(test)]
mod steps;
#[cfg(test)]
mod trace_lines;
#[cfg(test)]
mod walks;
#[cfg(test)]
mod whole_calls;
#[cfg(test)]
mod words;
