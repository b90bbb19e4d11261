//! What the words of a command line ask for.
//!
//! [`form_of_words`] answers the [`Form`] of a command line: of each that isn't one of the others, [`Form::Usage`].
//! `clap` is asked first, and then the words are matched. It is in a crate of its own, so that no other proof reads
//! what `clap` promises.
//!
//! Depends on `clap`, for commands, options and arguments, on `memorymap`, for lack of memory, and on `streams`, for
//! which words name files.
//!
//! ```text
//! let table = form_of_words(rt.alloc(), &["rfx", "run", "--table", "a.rfx"])?;
//! assert_eq!(rt; table, Form::Table("a.rfx"));
//! assert_eq!(rt; form_of_words(rt.alloc(), &["rfx", "check", "a.trace"])?, Form::Check("a.trace"));
//! // A file's name doesn't begin with a hyphen, and nothing stands behind it.
//! assert_eq!(rt; form_of_words(rt.alloc(), &["rfx", "run", "-a.rfx"])?, Form::Usage);
//! assert_eq!(rt; form_of_words(rt.alloc(), &["rfx", "run", "a.rfx", "b.rfx"])?, Form::Usage);
//! ```
#![tactic(auto)]

mod form;

pub use form::{Form, form_of_words};
