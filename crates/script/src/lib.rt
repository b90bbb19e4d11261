//! Scripts: what a list of bytes asks for, and the first fault of one that asks for nothing.
//!
//! [`parse`] reads a [`Script`], or tells its first fault with its line ([`ScriptFault`]); [`play`] runs one on its
//! [`first_machine`], and [`jobs`] gives what one asks of real threads. Each is proved equal to the definition of what
//! lines mean: silent lines say nothing (`silent_lines_say_nothing`), processes, kills and deaths are as their lines
//! say (`processes_are_as_told`, `one_process_without_a_line`, `killall_kills_one_process`, `deaths_are_as_told`), and
//! `go` cuts no call off (`threads_come_to_rest`).
//!
//! Depends on `lines`, for words and numbers, on `interleave` and `protocol`, for playing, on `mutex`, `condvar`,
//! `memorymap`, `posixmutex`, `stepprograms` and `lockword`, for calls, layouts and thread ids, on `indexmap`, for
//! names, and on `thiserror`, for messages.
//!
//! ```text
//! let text = b"thread a\nthread b\nmutex m\ncall a lock m\nkill a\ngo a\ncall b lock m\n";
//! let script = parse(rt.alloc(), text, Mode::Run)?;
//! let machine = first_machine(rt.alloc(), &script)?;
//! let (trace, machine) = play(rt.alloc(), &script, machine)?;
//! // Thread 2, which the script calls b, has the mutex after the death of its owner.
//! assert_eq!(rt; (script.threads(), trace.threads), (2, 2));
//! assert_eq!(rt; machine.owner(0), Tid::new(2));
//! // The first fault of another text: at line 3 there is no such mutex.
//! if let Err(refused) = parse(rt.alloc(), b"thread a\nmutex m\ncall a lock n\n", Mode::Run) {
//!     assert_eq!(rt; (refused.line, refused.fault), (3, Fault::NoSuchName));
//! }
//! ```
#![tactic(auto)]

mod command;
mod deaths;
mod draft;
mod fault;
mod gathering;
mod laws;
mod layout;
mod limits;
mod line;
mod naming;
mod parsed;
mod player;
mod reading;
mod words;
mod workload;

pub use command::{Action, Command, Condition, Mode};
pub use fault::{Fault, ScriptFault};
pub use gathering::jobs;
pub use laws::{
    deaths_are_as_told, killall_kills_one_process, one_process_without_a_line,
    processes_are_as_told, silent_lines_say_nothing, threads_come_to_rest,
};
pub use limits::{
    MAX_ACCESS, MAX_BASE, MAX_BYTES, MAX_CONDITIONS, MAX_COUNTER, MAX_EVENTS, MAX_LINES,
    MAX_MUTEXES, MAX_NAME, MAX_PROCESSES, MAX_STEM, MAX_STEPS, MAX_THREADS, REST_STEPS,
};
pub use parsed::Script;
pub use player::{first_machine, play};
pub use reading::parse;
pub use workload::{Job, Jobs, Phase};
