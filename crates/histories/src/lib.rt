//! Histories: what is seen of robust mutexes from outside, by whoever knows no moment at which a call takes effect.
//!
//! A history is a trace whose points and deaths are missing, with one line more: a thread's doom, after which it tells
//! nothing, as it dies at some moment that nobody knows. `specs/Histories.antt` says when a history is legal: where some
//! trace shows just its lines, each line of which fits those before it by the rules of the judge of traces. Four laws
//! say what that is worth. A legal history's beginnings are legal, so there is a first line that no order of the calls
//! explains, or none ([`beginnings_are_legal`]); whoever has a legal trace that shows a history knows that history to be
//! legal ([`certificates_suffice`]); what is seen of a legal trace is a legal history ([`traces_are_histories`]); and of
//! a legal history some trace explains itself ([`histories_are_explained`]).
//!
//! [`head_of`] and [`line_of`] read a history line by line. A trace's lines are read too: those that aren't seen from
//! outside say nothing. `specs/Written.antt` says how lines are written: each is read as it was ([`lines_are_read_back`]),
//! and no other text is read as it ([`only_these_are_read`]); what is read is one that the head allows
//! ([`lines_are_in_range`]). Faults are a trace's ([`faults_are_the_traces`]).
//!
//! Depends on `verdict`, for what a legal trace is and for words, on `facts`, for what lines say, on `lines`, for words
//! and numbers, on `posixmutex` and `lockword`, for operations, thread ids and replies, and on `thiserror`, for messages.
//!
//! ```text
//! let head = head_of(b"history 2 1 0")?;
//! let line = line_of(&head, b"17 doom t1")?;
//! // Line 17 tells that thread 1 dies at some moment after it.
//! assert_eq!(rt; line, Read::Told(17, Some(Entry::Doom(first))));
//! // What a trace tells of points isn't seen.
//! assert_eq!(rt; line_of(&head, b"18 point t2 m0 lock OK")?, Read::Told(18, None));
//! ```
#![tactic(auto)]

mod entry;
mod fault;
mod form;
mod head;
mod laws;
mod limits;
mod reading;
mod words;

pub use entry::{Entry, HistoryLine};
pub use fault::{Fault, HistoryFault};
pub use head::Head;
pub use laws::{
    beginnings_are_legal, certificates_suffice, faults_are_the_traces, histories_are_explained,
    lines_are_in_range, lines_are_read_back, only_these_are_read, traces_are_histories,
};
pub use limits::{MAX_CONDITIONS, MAX_EVENTS, MAX_MUTEXES, MAX_THREADS};
pub use reading::{Read, head_of, line_of};
