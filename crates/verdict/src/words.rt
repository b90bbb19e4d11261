//! The numbers that words spell.

ghost use Rattle.std.specs.Prelude.{◌≡◌, ◌<◌};
ghost use Rattle.verdict.specs.Forms.{number_of, numbered};

use crate::limits::MAX_EVENTS;
use lines::{is_number_word, number_in};

/// The number that the word spells, which is None where it is past every range; and None where the word spells no
/// number.
pub fn number(word: &str) -> Option<Option<u32>>
    ensures { result ≡ number_of word.now }
{
    if !is_number_word(word) {
        return None;
    }
    Some(number_in(word, 0, MAX_EVENTS))
}

/// The number that stands after the letter, as [`number`] gives it.
pub fn numbered(letter: char, word: &str) -> Option<Option<u32>>
    requires { letter < 128 }
    ensures { result ≡ numbered letter word.now }
{
    match word.strip_prefix(letter) {
        Some(digits) => number(digits),
        None => None,
    }
}
