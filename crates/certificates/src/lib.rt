//! Certificates of histories: whether steps show that a history is legal.
//!
//! A certificate is a list of steps: lines of a trace, and the dooms of threads between them. [`certify`] goes over it
//! once, beside the history. Each line of the trace has to be accepted by the rules of the judge of traces, which are
//! cited by their definitions (`Fits`); a wait may release a consistent mutex only; and what the steps show has to be
//! just the history. So where it answers true, the history is legal (`LegalHistory`), with this trace, numbered from 1.
//! That it accepts whatever is a certificate isn't proved. It asks for memory once, for each thread and each mutex. A
//! [`State`] is where steps leave threads and mutexes.
//!
//! [`still_waiting`] names the calls that a certificate leaves waiting, though nobody owns their mutex. Four laws say what
//! that is worth: each call that is named is a lock that has had no point and would have a reply, and it began at the line
//! that is named ([`named_calls_are_stuck`]); each such call of a thread that isn't doomed is named
//! ([`stuck_calls_are_named`]), once, in the order of threads ([`waiters_are_in_order`]); and it is said which step was
//! the last that left its mutex without an owner ([`since_is_the_last`]). [`points_of`] counts the points as the judge of traces does
//! ([`points_are_the_judges`]).
//!
//! Depends on `histories`, for what a legal history is, on `verdict`, for the rules of a trace's lines, on `facts`, for
//! what lines say, on `posixmutex`, for mutexes as objects, and on `lockword`, for thread ids and replies.
//!
//! ```text
//! // 1 begin t1 lock m0, 2 return t1 OK; and the same with the point between them
//! if certify(rt.alloc(), &head, &history, &steps)? {
//!     let points = points_of(&steps);
//!     println!(rt; "legal {points} points")?;
//! }
//! ```
#![tactic(auto)]

mod certifying;
mod laws;
mod phase;
mod state;
mod waiting;
mod walk;

pub use certifying::{certify, points_of};
pub use laws::{
    named_calls_are_stuck, points_are_the_judges, since_is_the_last, stuck_calls_are_named,
    waiters_are_in_order,
};
pub use phase::{Made, Phase};
pub use state::State;
pub use waiting::{Waiter, still_waiting};
