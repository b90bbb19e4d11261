//! The nearest of several words.

ghost use Rattle.std.specs.Prelude.{◌≡◌, map, option_map, IfOk};
ghost use Rattle.grammar.specs.Near.{IsNearest, edits, most_edits};

use std::alloc::{AllocError, Global};
use strsim::osa_distance;

/// How many edits a misspelt word has at most.
fn most_edits(word: &str) -> usize
    ensures { result ≡ most_edits word.now }
{
    let letters = word.chars().count();
    (word.len().max(3) / 3).min(letters.saturating_sub(1))
}

/// The first of these words that is as near to the word as any, by letters that are more, less, others or swapped; None
/// where all are too far: more than a third of its bytes, and more than one; or as many as the word has letters.
pub fn nearest<'a>(
    alloc: Global,
    word: &str,
    known: &[&'a str],
) -> Result<Option<&'a str>, AllocError>
    ensures { IfOk result (λ r. IsNearest word.now (map (λ w. w.now) known.entry.now) (option_map (λ w. w.now) r)) }
{
    let mut best = None;
    let mut room = most_edits(word) + 1;
    for other in known {
        let apart = osa_distance(alloc, word, *other)?;
        if apart < room {
            room = apart;
            best = Some(*other);
        }
    }
    Ok(best)
}
