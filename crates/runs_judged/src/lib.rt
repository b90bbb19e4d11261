//! What is printed of a run is found legal.
//!
//! `texts` writes the trace of a run, and `verdict` reads and judges traces; neither knows of the other. Here both
//! meet: the text of every run of the protocol's machine is a trace without fault, each of its lines fits those before
//! it, and the verdict is that it is legal, with exactly the number of its points (`lines_are_read_back`,
//! `runs_are_judged_legal`, `scripts_are_judged_legal`, `printed_runs_are_legal`).
//!
//! Depends on `texts` and `verdict`, which it joins, on `script` and `protocol`, for the runs, on `mutex`, `condvar` and
//! `exitwalk`, for what their calls tell, and on `facts`, `lines`, `memorymap`, `posixmutex`, `stepprograms` and
//! `lockword`, for lines, words and numbers. It has no code but the laws: whoever checks what was written relies on
//! them, as `report` does.
//!
//! ```text
//! let machine = first_machine(rt.alloc(), &script)?;
//! let (trace, _machine) = play(rt.alloc(), &script, machine)?;
//! let mut text = Vec::new(rt.alloc());
//! write_trace(&trace, &mut text)?;
//! match check(rt.alloc(), &text) {
//!     // As many as the trace has points: `scripts_are_judged_legal`.
//!     Ok(Verdict::Legal { points }) => println!(rt; "{points} points")?,
//!     // Never, unless memory was refused.
//!     Ok(Verdict::Illegal { .. }) | Err(_) => println!(rt; "out of memory")?,
//! }
//! ```
#![tactic(auto)]

mod laws;

pub use laws::{
    lines_are_read_back, printed_runs_are_legal, runs_are_judged_legal, scripts_are_judged_legal,
};
