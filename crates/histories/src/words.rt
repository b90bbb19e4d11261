//! The numbers that words spell.

ghost use Rattle.std.specs.Prelude.{◌≡◌, ◌<◌, true};
ghost use Rattle.std.specs.Str.Parse.{digits_value};
ghost use Rattle.lines.specs.Numbers.{is_number, within};
ghost use Rattle.histories.specs.Forms.{number_of, numbered};

use crate::limits::MAX_EVENTS;
use lines::is_number_word;

/// The number that the digits write, where it is from `low` to `high`.
fn number_in(digits: &str, low: u64, high: u64) -> Option<u64>
    requires { is_number digits.now ≡ true }
    ensures { result ≡ within low high (digits_value 10 digits.now) }
{
    match digits.parse::<u64>() {
        Ok(number) if low <= number && number <= high => Some(number),
        _ => None,
    }
}

/// The number that the word spells, which is None where it is past every range; and None where the word spells no
/// number.
pub fn number(word: &str) -> Option<Option<u64>>
    ensures { result ≡ number_of word.now }
{
    if !is_number_word(word) {
        return None;
    }
    Some(number_in(word, 0, MAX_EVENTS))
}

/// The number that stands after the letter, as [`number`] gives it.
pub fn numbered(letter: char, word: &str) -> Option<Option<u64>>
    requires { letter < 128 }
    ensures { result ≡ numbered letter word.now }
{
    match word.strip_prefix(letter) {
        Some(digits) => number(digits),
        None => None,
    }
}
