//! Lines of text, their words, and the numbers that words write: what the reader of scripts and the judge of traces
//! have in common.
//!
//! A text is UTF-8. Each of its lines ends with a line feed, and the words of a line stand between single spaces.
//! [`text_of`] tells the line of the first byte that is no part of a text, [`cut`] takes the first line or word off,
//! [`words_in`] gives all words of a line, and [`number_in`] the number that a word writes.
//!
//! Is on no other crate.
//!
//! ```text
//! // Where it isn't UTF-8, the line of the first byte that is no part of a character.
//! let text = text_of(b"locks a 12\ngo b\n").ok().ok_or("no text")?;
//! let (line, rest) = cut(text, '\n').ok_or("the line doesn't end")?;
//! assert_eq!(rt; rest, "go b\n");
//! if let Words::Three(_, _, number) = words_in(line) {
//!     // 12, and not 012, is a number.
//!     assert!(rt; is_number_word(number));
//!     assert_eq!(rt; number_in(number, 1, 64), Some(12));
//!     assert_eq!(rt; number_in(number, 1, 8), None);
//! }
//! ```
#![tactic(auto)]

mod numbers;
mod utf8;
mod words;

pub use numbers::{is_number_word, number_in};
pub use utf8::text_of;
pub use words::{Words, cut, words_in};
