//! The words of a command line: lent as texts, and which of them name files.

ghost use Rattle.std.specs.Prelude.{◌≡◌, map, string_bytes, IfOk};
ghost use Rattle.streams.specs.Words.{is_file_word};

use std::alloc::{AllocError, Global};

/// The words, lent.
pub fn lent<'a>(alloc: Global, words: &'a [String]) -> Result<Vec<&'a str>, AllocError>
    ensures { IfOk result (λ v. map (λ w. w.now) v.items ≡ map string_bytes words.entry.now) }
{
    let mut lent = Vec::new(alloc);
    for word in words {
        lent.push(word.as_str())?;
    }
    Ok(lent)
}

/// Whether the word names a file: it doesn't begin with a hyphen.
pub fn is_file(word: &str) -> bool
    ensures { result ≡ is_file_word word.now }
{
    match word.as_bytes() {
        [b'-', ..] => false,
        _ => true,
    }
}
