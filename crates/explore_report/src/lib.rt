//! The library of `rfx-explore`: reading a script, exploring it, and printing its outcomes.
//!
//! [`run`] is given the words of the command line, what opens files and what makes them, and the two writers. What it
//! prints begins with what was explored: the script's threads, mutexes and condition variables, and which events come in
//! between. Then each outcome has a line, once. Each is the outcome of a run of the script
//! ([`printed_outcomes_are_possible`]), and where `complete` is printed, no run has another one
//! ([`no_outcome_is_missing`]). The exit status says whether that is so, and whether the outcomes have what the command
//! line asks of them ([`statuses_are_right`], [`never_is_true`], [`always_is_true`]). The script of an outcome is for
//! `rfx run`. Each is played before anything is printed, unless it is too long ([`printed_outcomes_were_played`]), and the
//! one that is asked for is written to a file ([`scripts_play_their_outcome`]).
//!
//! A script that is explored is read as one for `rfx run` (`Spelled`): what depends on a reply is kept beside it
//! (`Plans`). The machine explores as many states as the command line says, 5,000,000 at most.
//!
//! Depends on `outcomes`, for exploring, and on `script` and `interleave`, for reading scripts and playing them. Words,
//! files, texts and numbers are of `lines`, `streams`, `reasons` and `itoa`. Calls, mutexes, replies and events are of
//! `condvar`, `mutex`, `posixmutex`, `lockword`, `memorymap` and `protocol`.
//!
//! ```text
//! // The words of `rfx-explore --kills 1 handover.rfx`, the program's name first.
//! let status = run(rt.alloc(), words, &files, &maker, &mut progress, &mut out, &mut rt.stderr());
//! // 0: all outcomes, with what is asked; 1: not so, or a failure, which is said; 2: no such command line; 3: cut off
//! ExitCode::from(status)
//! ```
#![tactic(auto)]

mod asking;
mod cells;
mod exploring;
mod judging;
mod laws;
mod making;
mod messages;
mod names;
mod ordering;
mod patterns;
mod planning;
mod program;
mod replaying;
mod serving;
mod spelling;
mod telling;
mod witness;

pub use laws::{
    always_is_true, found_outcomes_are_printed, never_is_true, no_outcome_is_missing,
    printed_outcomes_are_possible, printed_outcomes_were_played, scripts_play_their_outcome,
    statuses_are_right,
};
pub use making::Maker;
pub use messages::OUT_OF_MEMORY;
pub use program::run;
