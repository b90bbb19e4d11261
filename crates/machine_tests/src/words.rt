//! Accesses to words in a slice, of which word 0 is recorded apart by the caller.

use stepprograms::Answer;

/// Every kind of answer.
pub(crate) const ANSWERS: [Answer; 10] = [
    Answer::Value(1),
    Answer::Stored,
    Answer::Exchanged,
    Answer::Changed(1),
    Answer::Again,
    Answer::Woken,
    Answer::Count(1),
    Answer::Counts(0, 0),
    Answer::Trimmed(true),
    Answer::Fault,
];

/// The word at an address.
pub(crate) fn load(words: &[u64], at: u64) -> Answer {
    match words.get(at as usize) {
        Some(word) => Answer::Value(*word),
        None => Answer::Fault,
    }
}

/// Writes the word at an address.
pub(crate) fn store(words: &mut [u64], at: u64, value: u64) -> Answer {
    match words.get_mut(at as usize) {
        Some(word) => {
            *word = value;
            Answer::Stored
        }
        None => Answer::Fault,
    }
}

/// Writes the word at an address where it is the expected one.
pub(crate) fn exchange(words: &mut [u64], at: u64, expected: u64, new: u64) -> Answer {
    match words.get_mut(at as usize) {
        Some(word) => {
            let met = *word;
            if met != expected {
                return Answer::Changed(met);
            }
            *word = new;
            Answer::Exchanged
        }
        None => Answer::Fault,
    }
}
