//! The words for why a line of a trace doesn't fit those before it.
//!
//! [`add_reason`] says what the judge of traces found of a line: one text for each of its reasons, with their numbers
//! and words (`reason_text`). Each reason has its own text, and what that says of the line is so ([`reasons_are_true`],
//! [`end_has_its_words`]); the words for a mutex are those of its state ([`mutexes_are_true`]). `explain` and `page` use
//! these texts for illegal traces. [`add`] puts the pieces of a text together.
//!
//! Depends on `verdict`, for what is found, on `facts`, `posixmutex` and `lockword`, for what lines tell, mutexes as
//! objects, operations, replies and thread ids, and on `itoa`, for numbers.
//!
//! ```text
//! let mut text = Vec::new(rt.alloc());
//! add_reason(&mut text, &Misfit::StillOwns { mutex: 3 })?;
//! // the thread still owns m3
//! ```
#![tactic(auto)]

mod adding;
mod laws;
mod reasons;

pub use adding::add;
pub use laws::{end_has_its_words, mutexes_are_true, reasons_are_true};
pub use reasons::add_reason;
