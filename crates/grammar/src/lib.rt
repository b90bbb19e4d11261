//! The kinds of line of scripts and traces, word by word: where a line stops being one of its kind, which words could
//! be there, and which of these was meant.
//!
//! [`Next`] says what the next word of a line has to be. [`first_wrong`] gives the first word at which no line of a
//! kind can go on, after words that one begins with ([`Kind`]): proved of the kinds of line as the readers of scripts
//! and traces have them. [`known_words`] has the words that may be at a place, which is proved too
//! ([`known_words_are_those_that_fit`]), and [`nearest`] the one of several words that a misspelt one is next to.
//!
//! Depends on `script` and `verdict`, for their kinds of line, on `lines`, for words and numbers, on `posixmutex` and
//! `lockword`, for the words of operations and replies, and on `strsim`, for how far words are apart.
//!
//! ```text
//! // At `step b` a number is missing: the third word.
//! if let Some(wrong) = first_wrong(Kind::Script(Mode::Run), "step b") {
//!     assert_eq!(rt; (wrong.word, wrong.start, wrong.end), (2, 7, 7));
//!     assert_eq!(rt; wrong.next, Next::Number);
//! }
//! let words = known_words(Next::Keyword(Mode::Run));
//! assert_eq!(rt; nearest(rt.alloc(), "tread", words)?, Some("thread"));
//! ```
#![tactic(auto)]

mod known;
mod laws;
mod near;
mod next;
mod place;
mod wrong;

pub use known::known_words;
pub use laws::known_words_are_those_that_fit;
pub use near::nearest;
pub use next::{Next, is_scripted, mode_of_word};
pub use place::{place_of, word_at};
pub use wrong::{Kind, Wrong, first_wrong, is_line};
