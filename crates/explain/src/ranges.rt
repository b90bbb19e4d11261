//! Numbers that are out of their ranges.

ghost use Rattle.std.specs.Prelude.{◌≡◌, ◌≤◌, ◌<◌, ◌+◌, option_map};
ghost use Rattle.lines.specs.Lines.{words_of};
ghost use Rattle.explain.specs.Advised.{behind, is_uncounted, is_within, missing_of, note_or, ranged, uncounted};
ghost use Rattle.explain.specs.Sought.{count_of};
ghost use Rattle.explain.specs.Stray.{word_of};

use crate::explanation::{Advice, Note, Things};
use crate::sought::{count_of, word_of};
use lines::{is_number_word, number_in};

/// Whether the word writes a number of the range.
fn is_within(word: &str, low: u32, high: u32) -> bool
    ensures { result ≡ is_within word.now low high }
{
    is_number_word(word) && number_in(word, low, high).is_some()
}

/// The number that a word of a line has to write, where it doesn't; else what is said instead.
pub fn ranged(
    line: &str,
    word: usize,
    low: u32,
    high: u32,
    other: Advice<'static>,
) -> Advice<'static>
    ensures { result ≡ ranged (words_of line.now) word low high other.entry }
{
    if is_within(word_of(line, word), low, high) {
        other
    } else {
        Advice::at(word, Note::Range { low, high })
    }
}

/// Whether the digits write a number, and of that many things from `first` on the number of none.
fn is_uncounted(first: u32, count: u32, digits: &str) -> bool
    requires few { count ≤ 4096 }
    requires small { first ≤ 1 }
    ensures { result ≡ is_uncounted first count digits.now }
{
    is_number_word(digits)
        && (count == 0 || number_in(digits, first, first + (count - 1)).is_none())
}

/// What comes after the letter.
fn behind(letter: char, word: &str) -> Option<&str>
    requires { letter < 128 }
    ensures { option_map (λ w. w.now) result ≡ behind letter word.now }
{
    word.strip_prefix(letter)
}

/// That `count` things from `first` on don't have one with the number that the word writes after the letter.
fn missing(things: Things, first: u32, count: u32, letter: char, word: &str) -> Option<Note>
    requires few { count ≤ 4096 }
    requires small { first ≤ 1 }
    requires ascii { letter < 128 }
    ensures { result ≡ missing_of things first count (behind letter word.now) }
{
    let digits = behind(letter, word)?;
    if is_uncounted(first, count, digits) {
        Some(Note::Uncounted(things, count))
    } else {
        None
    }
}

/// What the first line of a trace counts of that which this word is, if it doesn't count the word's.
pub fn uncounted(head: &str, word: &str) -> Option<Note>
    ensures { result ≡ uncounted head.now word.now }
{
    let threads = count_of(word_of(head, 1));
    if let Some(note) = missing(Things::Threads, 1, threads, 't', word) {
        return Some(note);
    }
    let mutexes = count_of(word_of(head, 2));
    if let Some(note) = missing(Things::Mutexes, 0, mutexes, 'm', word) {
        return Some(note);
    }
    let conditions = count_of(word_of(head, 3));
    missing(Things::Conditions, 0, conditions, 'c', word)
}
