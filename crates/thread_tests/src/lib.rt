//! The tests of running threads, by public names alone: of passes and their calls, of phases of work at a bench, of gates,
//! of sleepers and of trims, of threads that wait on condition variables and of those that wake them, and of threads that
//! die and are killed.
#![tactic(auto)]

#[cfg(test)]
mod accesses;
#[cfg(test)]
mod conditions;
#[cfg(test)]
mod crowds;
#[cfg(test)]
mod dying;
#[cfg(test)]
mod exits;
#[cfg(test)]
mod fates;
#[cfg(test)]
mod gates;
#[cfg(test)]
mod jobs;
#[cfg(test)]
mod kills;
#[cfg(test)]
mod meetings;
#[cfg(test)]
mod passes;
#[cfg(test)]
mod phases;
#[cfg(test)]
mod roles;
#[cfg(test)]
mod sleepers;
#[cfg(test)]
mod trims;
#[cfg(test)]
mod turns;
#[cfg(test)]
mod two;
#[cfg(test)]
mod waiters;
