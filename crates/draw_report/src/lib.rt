//! `rfx-draw` except for opening its file: its command line, reading a trace or a history, drawing it, and the messages.
//!
//! [`run`] is given the words of the command line, what opens files, and the two writers. The words ask for a picture
//! by their parts, in any order (`Asks`). Where it returns 0 it has read its input to the end, that is a trace or a
//! history, and has written all of the picture and let go of it ([`success_is_whole`]); else it has written a beginning
//! of it, and one message on `err` says why (`RunEnds`); a command line of another form gets the usage
//! ([`other_words_are_refused`]). It reads at most one byte more than a trace may have. With
//! `--script` the script is read first, and things are called by the names that it declares (`called_by`), which have no
//! characters of markup ([`names_are_plain`]); each thing in the trace has one ([`names_suffice`]). For `--legend` it
//! reads nothing, and writes what the signs of pictures mean. Of a page nothing is written where memory is refused
//! (`IsUndrawn`).
//!
//! A file with a history's first line is drawn as a history ([`histories_are_known`]): the picture has the lines of the
//! trace that the judge of histories writes of it ([`histories_are_drawn_as_traces`]). Those of an illegal history end with
//! its illegal line, which the picture marks, and it has what the judge says of that: the line and the reason. An
//! undecided history isn't drawn ([`undecided_is_said`]), nor one with more mutexes or condition variables than a trace may
//! have ([`excess_is_said`]).
//!
//! Depends on
//!
//! - `verdict`, for reading traces and their faults;
//! - `judge_report`, for a history's trace and what is said of the history, `histories`, for its faults, and `windows` and
//!   `certificates`, for how a law says what `--trace` writes;
//! - `facts` and `posixmutex`, for a trace's lines;
//! - `script` and `lockword`, for names, and `lines`, for which characters they have;
//! - `picture` and `page`, for drawing, and `streams`, for reading, writing and opening.
//!
//! ```text
//! // The words of `rfx-draw --svg dead_owner.trace`, the program's name first; `files` opens what they name.
//! let words = env::args(&rt).and_then(|words| Ok(words.collect(rt.alloc())?));
//! let mut out = BufWriter::new(rt.alloc(), rt.stdout())?;
//! let status = run(rt.alloc(), words, &files, &mut out, &mut rt.stderr());
//! // 0: drawn; 1: a fault, which is told; 2: another command line, which is told its usage
//! ExitCode::from(status)
//! ```
#![tactic(auto)]

mod asking;
mod drawing;
mod history;
mod laws;
mod legend;
mod messages;
mod names;
mod program;
mod serving;

pub use asking::Kind;
pub use laws::{
    excess_is_said, histories_are_drawn_as_traces, histories_are_known, names_are_plain,
    names_suffice, other_words_are_refused, success_is_whole, undecided_is_said,
};
pub use messages::OUT_OF_MEMORY;
pub use program::run;
