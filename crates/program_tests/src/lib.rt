//! Tests of the programs where memory, readers or writers fail, and of what is written of traces and replies, by
//! public calls alone. What the programs answer to files is in cases/, and is compared by checks/answers.
//!
//! They are above the crates that they test, since a crate with tests of its own is proved a second time for them,
//! and that takes longer than its proof.
#![tactic(auto)]

#[cfg(test)]
mod commands;
#[cfg(test)]
mod drawn;
#[cfg(test)]
mod explained;
#[cfg(test)]
mod explored;
#[cfg(test)]
mod judged;
#[cfg(test)]
mod plans;
#[cfg(test)]
mod program;
#[cfg(test)]
mod served;
#[cfg(test)]
mod verdicts;
#[cfg(test)]
mod written;
