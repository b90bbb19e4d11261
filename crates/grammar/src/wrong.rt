//! The first word at which no line of a kind can go on.

ghost use Rattle.std.specs.Prelude.{◌≡◌, ◌+◌, ◌<◌, ◌^◌, true, length, take, IfSome, IfNone};
ghost use Rattle.lines.specs.Lines.{words_of};
ghost use Rattle.grammar.specs.Nexts.{after};
ghost use Rattle.grammar.specs.Wrongs.{Awaits, IsFirstWrong, ends_at, first_of, is_line};
ghost use Rattle.grammar.specs.Wrongs.{offset_of, wrong_at, wrong_in, wrong_last};

use crate::next::Next;
use lines::cut;
use script::Mode;

/// A kind of line.
#[derive(Clone, Copy, Debug, PartialEq, Eq)]
pub enum Kind {
    /// A declaration or a command of a script.
    Script(Mode),
    /// The first line of a trace.
    Head,
    /// A line of a trace after the first.
    Trace,
}

/// Where a line stops being one of its kind.
#[derive(Clone, Copy, Debug, PartialEq, Eq)]
pub struct Wrong {
    /// The word, from 0; as many as the line has words where a word is missing after the last.
    pub word: usize,
    /// Where it begins in the line, in bytes. A missing word would begin one byte after the line's end.
    pub start: usize,
    /// Where it ends; a missing one, where it begins.
    pub end: usize,
    /// What it has to be.
    pub next: Next,
}

/// What the first word of such a line has to be.
fn first_of(kind: Kind) -> Next
    ensures { result ≡ first_of kind }
{
    match kind {
        Kind::Script(mode) => Next::Keyword(mode),
        Kind::Head => Next::Head,
        Kind::Trace => Next::Event,
    }
}

/// The word is wrong.
fn wrong_at(word: usize, start: usize, part: &str, next: Next) -> Wrong
    requires { start + length part.now < 2 ^ 64 }
    ensures { result ≡ wrong_at word start part.now next }
{
    Wrong {
        word,
        start,
        end: start + part.len(),
        next,
    }
}

/// What is wrong at the last word or after it, if anything is.
fn wrong_last(word: usize, start: usize, part: &str, next: Next) -> Option<Wrong>
    requires small { start + length part.now < 2 ^ 63 }
    requires few { word < 2 ^ 63 }
    ensures { result ≡ wrong_last word start part.now next (after next part.now) }
{
    match next.after(part) {
        None => Some(wrong_at(word, start, part, next)),
        Some(after) if after.is_over() => None,
        Some(after) => Some(wrong_at(word + 1, start + part.len() + 1, "", after)),
    }
}

/// The first word that is wrong.
fn scan(kind: Kind, text: &str) -> Option<Wrong>
    ensures { result ≡ wrong_in (first_of kind) 0 0 (words_of text.now) }
{
    let mut next = first_of(kind);
    let mut word = 0;
    let mut start = 0;
    let mut rest = text;
    'words: while let Some((part, behind)) = cut(rest, ' ') {
        let Some(after) = next.after(part) else {
            return Some(wrong_at(word, start, part, next));
        };
        next = after;
        word += 1;
        start += part.len() + 1;
        rest = behind;
    }
    wrong_last(word, start, rest, next)
}

/// The first word at which no line of the kind can go on: some begins with the words before it, and none with these and
/// it. None where the line is one of the kind.
pub fn first_wrong(kind: Kind, text: &str) -> Option<Wrong>
    ensures none { IfNone result (is_line kind (words_of text.now) ≡ true) }
    ensures first { IfSome result (λ w. IsFirstWrong kind (words_of text.now) w.word) }
    ensures start { IfSome result (λ w. w.start ≡ offset_of w.word (words_of text.now)) }
    ensures end { IfSome result (λ w. w.end ≡ ends_at w.word (words_of text.now)) }
    ensures next { IfSome result (λ w. Awaits kind (take w.word (words_of text.now)) w.next) }
{
    scan(kind, text)
}

/// Whether a line is one of the kind.
pub fn is_line(kind: Kind, text: &str) -> bool
    ensures { result ≡ is_line kind (words_of text.now) }
{
    scan(kind, text).is_none()
}
