//! Tests of how scripts, traces and histories are read, played and judged, by public calls alone: what no program prints.
//! What the programs print is in cases/, and is compared by checks/answers.
//!
//! They are above the crates that they test, since a crate with tests of its own is proved a second time for them,
//! and that takes longer than its proof.
#![tactic(auto)]

#[cfg(test)]
mod built;
#[cfg(test)]
mod certified;
#[cfg(test)]
mod cut;
#[cfg(test)]
mod events;
#[cfg(test)]
mod faults;
#[cfg(test)]
mod heard;
#[cfg(test)]
mod judgements;
#[cfg(test)]
mod misfits;
#[cfg(test)]
mod phases;
#[cfg(test)]
mod processes;
#[cfg(test)]
mod reading;
#[cfg(test)]
mod scripts;
#[cfg(test)]
mod trace_faults;
#[cfg(test)]
mod traces;
