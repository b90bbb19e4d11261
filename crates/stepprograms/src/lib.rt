//! Accesses to shared words, and the programs that make them one at a time.
//!
//! [`Access`] and [`Answer`] are the steps that programs take on words; `specs/Accesses.antt` says what each does to
//! its word, a trim's with its meaning (`trims_are_right`). A [`StepProgram`] is a call, a part of one, or the kernel's
//! walk: it says which access comes next and gets the answer, whoever runs it. [`Progress`] is how far an
//! answer brought it.
//!
//! Depends on `posixmutex`, for the points at which calls take effect, and on `lockword`, for replies and cells.
#![tactic(auto)]

mod access;
mod program;

pub use access::{ALL, Access, Answer, trims_are_right};
pub use program::{Progress, StepProgram};
