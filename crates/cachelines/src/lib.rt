//! Words that threads share, no two groups of them in one cache line.
//!
//! Words have places, 0, 1, 2 and so on, and those of places 1 to 3, 4 to 6, and so on, are groups: what one thread
//! writes together. The words of an [`atomic_table`] stand side by side, so that threads which write to different
//! groups would take the line that these share from each other. [`Places`] are such a table in which 64 bytes lie
//! between the last word of a group and the first one of the next, wherever its memory begins: no line of 64 bytes has
//! words of two groups. A rule, steps and what they tell speak of places alone, as those of a table speak of its words.
//!
//! What is proved: each step by a place makes just the step of that name on the list of the words by place, from
//! [`Places::of_words`] to [`Places::close`]. How far apart they lie is the definition `slot_of`, and the law
//! [`groups_are_apart`]. It is on `atomic_table`, for the words and their steps.
//!
//! ```text
//! // `Law` is a PlaceRule of four words, and `Take` a Play.
//! let (places, mut seat) = Places::<View, Key, Law>::of_words(alloc, &[0; 4], &key)?;
//! let met = places.compare_exchange::<Take>(&mut seat, 1, 0, 7);
//! let last = places.close_with(seat);
//! let word = last.word(1);
//! ```
#![tactic(auto)]

mod closed;
mod laws;
mod places;
mod reading;
mod rule;
mod slot;
mod steps;

pub use closed::Closed;
pub use laws::groups_are_apart;
pub use places::Places;
pub use rule::PlaceRule;
