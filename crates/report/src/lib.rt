//! The program except for opening its file: its command line, reading, a script's calls on real threads, judging a
//! trace, and the messages.
//!
//! [`serve`] does what a form of the command line asks for, the file being open, and answers the exit status. Where
//! that is 0, all of the text was written: a trace or a table is that of a legal run, and a trace is one that [`check`]
//! finds legal, unless it is refused memory. [`run`] does the same for the words of a command line and whatever opens
//! files ([`Opener`]). What is reported of a failure is in both contracts.
//!
//! Depends on `cmdline`, for the forms, on `streams`, for files and texts, on `script`, `interleave` and `protocol`, for
//! scripts and runs, on `threadbench`, `ruledwords`, `mutex` and `condvar`, for real threads, on `texts`, for what is
//! written, on `verdict` and `runs_judged`, for judging it, and on `facts`, `posixmutex`, `memorymap` and `lockword`,
//! for lines, histories, lack of memory and replies.
//!
//! ```text
//! // `rfx run --table f`, where the file f has this script.
//! let mut script: &[u8] = b"thread a\nmutex m\ncall a lock m\n";
//! let mut printed = Vec::new(rt.alloc());
//! let mut told = Vec::new(rt.alloc());
//! let form = Form::Table("f");
//! let status = serve(&rt, rt.alloc(), &form, &mut script, &mut printed, &mut told);
//! // 0, and no message: thread a idle 1 OK / mutex m 0000000000000001 a -
//! if status != 0 {
//!     put_text(&mut err, &told)?;
//! }
//! ```
#![tactic(auto)]

mod answers;
mod judging;
mod laws;
mod meeting;
mod messages;
mod program;
mod serving;
mod threads;

/// The forms of the command line.
pub use cmdline::{Form, form_of_words};
pub use laws::{mutexes_permit_only_answers, phases_of_one_thread_are_determined};
pub use messages::{CANNOT_READ, CANNOT_WRITE, OUT_OF_MEMORY, USAGE};
pub use program::run;
pub use serving::serve;
pub use streams::{Opener, Output};
/// The writers of a trace, of a table and of threads' replies, over any writer.
pub use texts::{ConditionWord, MutexWord, ThreadReplies, write_replies, write_table, write_trace};
/// The judge of traces.
pub use verdict::{TraceFault, Verdict, check};
