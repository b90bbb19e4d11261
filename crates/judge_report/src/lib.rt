//! The library of `rfx-judge`: reading a history, judging it, and telling what it was found to be.
//!
//! [`run`] is given the words of the command line, what opens files and what makes them, and the two writers. What it
//! writes says what the file is:
//!
//! - `legal N points`: a legal history (`LegalHistory`), of just the lines that its text has. A certificate with N points
//!   was checked, which `--trace` writes, and `--windows` in windows that the judge of traces finds legal. After that line,
//!   `--waiting` names just the calls that the certificate leaves waiting and shouldn't.
//! - `illegal at line L`: the lines before L are a legal history, and with line L they aren't, for the reason that is
//!   given. With each reply that is said to be possible there they are one.
//! - `undecided at line L`: the lines before L are a legal history.
//!
//! A file that is no history is reported by its first fault (`history_read`). A certificate that can't be kept is reported
//! too, with the name of the file, after what is said of the history.
//!
//! For a program that draws histories, [`explain_history`] returns the lines of a trace that shows one, as `--trace` writes
//! it ([`traces_are_written`]), and what is said of an illegal history ([`explanations_are_said`]). An undecided history has
//! none.
//!
//! Laws say so in the words of who reads it:
//!
//! - what an exit status means ([`statuses_are_right`]);
//! - what each option asks for and keeps ([`options_are_read`], [`options_write`]);
//! - that the L of a line or a fault is a line of the file ([`lines_are_numbered`], [`faults_are_at_lines`]);
//! - that windows are reported in their order ([`windows_are_in_order`]), and which calls are named
//!   ([`waiters_are_named`]);
//! - in which order the notes on an illegal line come ([`notes_are_in_order`]), and that turns and quotes are as they are
//!   said to be ([`turn_words_are_so`], [`quotes_are_read_back`]).
//!
//! The file is read once, line by line. What its lines tell is kept, 40 bytes a line; so is what the search keeps of
//! lines that aren't decided, and the certificate.
//!
//! Depends on
//!
//! - `judge` and `certificates`, for the judgement, and `windows`, for cutting;
//! - `histories`, for lines and faults, `texts`, for a trace's lines, and `lines`, for those of a text and parts of names;
//! - `facts`, `posixmutex` and `lockword`, for what lines tell;
//! - `streams`, for reading and writing, and `itoa`, for numbers;
//! - `verdict`, for how a law says what a mutex is.
//!
//! ```text
//! // The words of `rfx-judge storm.history`, the program's name first; `files` opens what they name, `maker` makes it.
//! let status = run(rt.alloc(), words, &files, &maker, &mut out, &mut rt.stderr());
//! // 0: legal; 1: not, or a fault, which is told; 2: another command line, which is told its usage
//! ExitCode::from(status)
//! ```
#![tactic(auto)]

mod asking;
mod evidence;
mod illegal;
mod keeping;
mod laws;
mod making;
mod messages;
mod paths;
mod places;
mod program;
mod reading;
mod serving;
mod telling;
mod tracing;
mod waiting;
mod writing;

pub use laws::{
    explanations_are_said, faults_are_at_lines, lines_are_numbered, notes_are_in_order,
    options_are_read, options_write, quotes_are_read_back, statuses_are_right, traces_are_written,
    turn_words_are_so, waiters_are_named, windows_are_in_order,
};
pub use making::Maker;
pub use messages::OUT_OF_MEMORY;
pub use program::run;
pub use tracing::{Explained, Untraced, explain_history};
