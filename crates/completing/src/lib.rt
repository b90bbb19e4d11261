//! Completing histories: a search for the points, deaths and kills that a history doesn't tell.
//!
//! A [`Pass`] takes a history's lines one by one. For each mutex it keeps every state that some order of the calls so
//! far leads to; a line that none of them allows is refused. Where one state is left, the way to it is
//! decided. [`weave`] puts the ways of all mutexes together: the steps of a trace that shows the history, which whoever
//! wants to be sure has certified (`certificates`). What a pass may look at is what becomes of calls in the lines that
//! it was made for: so whether the first lines of a history are refused is asked of a pass over these alone.
//!
//! Choice is left by calls that end in a death. Else the mutex is taken next by the call that returns first of those
//! that take it: any other one would hold it beyond that return.
//!
//! It is proved to be safe and to end, whatever the history; that it finds what there is, and refuses only what it may,
//! isn't.
//!
//! Depends on `histories`, for a history's lines, on `facts`, for what lines say, on `posixmutex`, for mutexes as objects,
//! and on `lockword`, for thread ids and replies.
//!
//! ```text
//! let mut pass = Pass::new(rt.alloc(), &head, &lines)?;
//! for line in &lines {
//!     pass.take(&line.entry)?;
//! }
//! // the history's lines, and between them its points
//! let steps = weave(rt.alloc(), &lines, &mut pass, false)?;
//! ```
#![tactic(auto)]

mod closing;
mod contended;
mod deaths;
mod dying;
mod fates;
mod lives;
mod pass;
mod pending;
mod placing;
mod replies;
mod stop;
mod weaving;

pub use deaths::has_dooms;
pub use pass::Pass;
pub use stop::Stop;
pub use weaving::weave;
