//! What tests of the programs share: writers that hold little, are slow or fail, readers that are slow or fail, the
//! files of a directory that is only played, and what a program answered.
//!
//! It is on `streams`. Its functions promise nothing but that they may be called: what comes of them the tests
//! compare. So a writer that holds five bytes, and then fails:
//!
//! ```text
//! let mut out = Faulty::new(rt.alloc(), 5, false);
//! let files = Folder::new(b"thread a\nmutex m\n");
//! let status = run(rt.alloc(), words(rt.alloc(), &["rfx-explain", "f"]), &files, &mut out, &mut told);
//! assert!(rt; status == 1 && out.held.as_slice() == b"f: a ".as_slice());
//! ```
#![tactic(auto)]

mod answers;
mod files;
mod readers;
mod writers;

pub use answers::{Answered, wants_memory};
pub use files::{File, Folder, words};
pub use readers::{Slow, late_reader, slow_reader};
pub use writers::{Faulty, Fixed};
