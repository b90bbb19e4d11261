//! `rfx-explain` except for opening its file: what a script or a trace is, and where it is faulty or illegal, which word
//! of which line is wrong, what could be there, and which earlier line it goes back to.
//!
//! [`run`] is given the words of the command line, what opens files, and the two writers. If nothing is written on
//! `err` it has written all of an explanation of the file's bytes and let go of it, whose title is what the readers of
//! scripts and the judge of traces find (`RunEnds`, `IsTold`, `IsTitle`), and whose mark is that of the first wrong
//! word, number or name of the line that the title names (`IsAdvised`). Of a legal trace it names the first at which a
//! wait makes its mutex unusable (`IsFirstSpoiling`). Else it has written a beginning of it, and one message on `err`
//! says why. It reads at most one byte more than a trace may have.
//!
//! What it claims is so: its first line names the line and the fault or the reason ([`titles_say_what_is_found`]); it says that a mutex may reply so exactly if the mutex permits it ([`replies_are_those_allowed`],
//! [`waits_are_asked_as_waits`]);
//! the earlier line is of the kind that the reason speaks of ([`origins_are_of_their_kind`],
//! [`all_of_the_kind_are_origins`]); and a wait is named exactly if it makes its mutex unusable
//! ([`spoiling_waits_are_found`]).
//!
//! Depends on `grammar`, for the first wrong word of a line and the nearest known one, on `script` and `verdict`, for
//! faults and reasons, on `reasons`, for the words of these, on `lines`, for lines and words, on `facts`, `posixmutex` and
//! `lockword`, for what lines of a trace tell, on `streams`, for reading, writing and opening, and on `itoa`, for numbers.
//!
//! ```text
//! // The words of `rfx-explain dead_owner.rfx`, the program's name first; `files` opens what they name.
//! let words = env::args(&rt).and_then(|words| Ok(words.collect(rt.alloc())?));
//! let mut out = BufWriter::new(rt.alloc(), rt.stdout())?;
//! let status = run(rt.alloc(), words, &files, &mut out, &mut rt.stderr());
//! // 0: a good script or a legal trace; 1: it is none, which is told, or a failure; 2: another command line
//! ExitCode::from(status)
//! ```
#![tactic(auto)]

mod adding;
mod allowed;
mod asking;
mod encodings;
mod explaining;
mod explanation;
mod failures;
mod laws;
mod modes;
mod names;
mod notes;
mod origins;
mod program;
mod quoting;
mod ranges;
mod roles;
mod scripts;
mod serving;
mod sought;
mod spoiling;
mod stray;
mod telling;
mod traces;
mod words;

pub use failures::OUT_OF_MEMORY;
pub use laws::{
    all_of_the_kind_are_origins, origins_are_of_their_kind, replies_are_those_allowed,
    spoiling_waits_are_found, titles_say_what_is_found, waits_are_asked_as_waits,
};
pub use program::run;
