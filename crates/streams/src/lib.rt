//! Reading all that a reader has, and writing all of a text: what the programs have in common at their files and
//! their command lines.
//!
//! [`read_below`] reads up to a limit, [`put`], [`put_pieces`] and [`put_text`] write texts without asking for memory,
//! and an [`Output`] is a writer of which it is known that it has let go of what it kept back. Where a writer fails, it
//! holds a beginning of the text. An [`Opener`] opens files by their names, [`SystemFiles`] those of the system.
//! [`lent`] and [`is_file`] are of the words of a command line, which [`system_words`] gives.
//!
//! Is on no other crate of this repository, and on `itoa`, for numbers.
//!
//! ```text
//! /// Writes what the reader has, where that is at most so many bytes. False says that a beginning of it is written.
//! fn pass_on<R: Read, W: Output>(alloc: Global, input: &mut R, out: &mut W, most: usize) -> bool {
//!     // One byte more than the limit shows that there are too many.
//!     match read_below(alloc, input, most + 1) {
//!         Ok(bytes) if bytes.len() <= most => put_text(out, &bytes).is_ok() && out.let_go().is_ok(),
//!         Ok(_) | Err(ReadFault::Memory) | Err(ReadFault::Failed) => false,
//!     }
//! }
//! ```
#![tactic(auto)]

mod opening;
mod output;
mod pieces;
mod reading;
mod system;
mod words;

pub use opening::Opener;
pub use output::Output;
pub use pieces::{Piece, put, put_pieces, put_text};
pub use reading::{ReadFault, read_below};
pub use system::{SystemFiles, SystemInput, system_words};
pub use words::{is_file, lent};
