//! Certificates as text: whole, or in windows that the judge of traces takes.
//!
//! A certificate is written as one trace ([`write_certificate`]). Where that has more events than a trace may have, a
//! [`Cutter`] cuts it into windows. Each [`Window`] is a trace that the judge of traces (`verdict`) was asked about and
//! found legal, of at most 100,000 events: lines that bring threads and mutexes to where the certificate's steps before
//! it leave them, by the same judge's rules, and then the lines of its own steps. The steps of the next window begin
//! where those of the one before end, and the last ones end with the certificate.
//!
//! It is cut between two steps where each thread rests, is dead, or is in a call that can be brought so far again:
//! which has no point yet, took its mutex and has it still, released it, or has a reply that its mutex has for it
//! still. The last such place that a window may reach is taken. That there is one isn't proved, nor that a
//! certificate is never refused: what is handed out is.
//!
//! Depends on `certificates`, for steps and where they leave threads and mutexes, on `verdict`, for the judgement and its
//! limits, on `histories`, `facts`, `posixmutex` and `lockword`, for what steps say, and on `texts` and `streams`, for
//! a trace's lines and writing them.
//!
//! ```text
//! // the steps of a certificate; `store` keeps a window's text
//! let mut cutter = Cutter::new(rt.alloc(), &head)?;
//! while let Some(window) = cutter.next(rt.alloc(), &head, &steps)? {
//!     // its lines behind the first `preamble` ones are those of the steps from `from` to `to`
//!     store(window.from, window.preamble, &window.text)?;
//! }
//! ```
#![tactic(auto)]

mod alike;
mod cutting;
mod going;
mod place;
mod preamble;
mod stop;
mod writing;

pub use cutting::{Cutter, Window};
pub use stop::Stop;
pub use writing::{events_of, write_certificate, write_fact};
