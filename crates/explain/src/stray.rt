//! Words at which no line of a kind can go on.

ghost use Rattle.std.specs.Prelude.{◌≡◌, nat_eq, IfOk};
ghost use Rattle.std.specs.List.{starts_with};
ghost use Rattle.lines.specs.Lines.{words_of};
ghost use Rattle.explain.specs.Advised.{IsStray, note_or};
ghost use Rattle.explain.specs.Roles.{lack_note};
ghost use Rattle.explain.specs.Stray.{IsMarked, blank_note, byte_order_mark, ends_in_return, first_note, has_capital};
ghost use Rattle.explain.specs.Stray.{has_tab, is_remark, is_slashes, kind_note, later_note, remark_note, slashes_note};
ghost use Rattle.explain.specs.Stray.{stray_note, word_note};

use crate::explanation::{Advice, Mark, Note};
use crate::quoting::{is_last, line_of};
use crate::roles::lack_note;
use grammar::{
    Kind, first_wrong, is_line, is_scripted, known_words, mode_of_word, nearest, place_of, word_at,
};
use script::Mode;
use std::alloc::{AllocError, Global};

/// What is said of a word without a letter: a blank too many, or nothing at all on a line of a trace (an empty line of a
/// script is one of its lines).
fn blank_note(text: &str, word: usize) -> Note
    ensures { result ≡ blank_note text.now word }
{
    if text.is_empty() {
        return Note::EmptyLine;
    }
    if word == 0 {
        return Note::LeadingBlank;
    }
    let (_, end) = place_of(text, word);
    if end == text.len() {
        Note::TrailingBlank
    } else {
        Note::TwoBlanks
    }
}

/// Whether a carriage return ends the line.
fn ends_in_return(text: &str) -> bool
    ensures { result ≡ ends_in_return text.now }
{
    match text.as_bytes().last() {
        Some(last) => *last == b'\r',
        None => false,
    }
}

fn has_tab(word: &str) -> bool
    ensures { result ≡ has_tab word.now }
{
    word.as_bytes().iter().any(|b| *b == b'\t')
}

fn has_capital(word: &str) -> bool
    ensures { result ≡ has_capital word.now }
{
    word.as_bytes().iter().any(|b| b'A' <= *b && *b <= b'Z')
}

/// Whether a byte order mark comes before the word.
fn is_marked(word: &str) -> bool
    ensures { result ≡ starts_with nat_eq word.now byte_order_mark }
{
    word.as_bytes().starts_with(&[0xef, 0xbb, 0xbf])
}

/// Whether the word begins as remarks do elsewhere.
fn is_slashes(word: &str) -> bool
    ensures { result ≡ is_slashes word.now }
{
    word.as_bytes().starts_with(b"//")
}

fn is_remark(word: &str) -> bool
    ensures { result ≡ is_remark word.now }
{
    match word.as_bytes() {
        [first, ..] => *first == b'#',
        [] => false,
    }
}

/// What is said of a remark.
fn remark_note(kind: Kind) -> Note
    ensures { result ≡ remark_note kind }
{
    match kind {
        Kind::Script(_) => Note::Remark,
        Kind::Head | Kind::Trace => Note::NoRemarks,
    }
}

/// What is said of slashes.
fn slashes_note(kind: Kind) -> Note
    ensures { result ≡ slashes_note kind }
{
    match kind {
        Kind::Script(_) => Note::Slashes,
        Kind::Head | Kind::Trace => Note::NoRemarks,
    }
}

/// What is said of a line that is of another kind of file, or that begins with a call.
fn kind_note(kind: Kind, text: &str, word: &str) -> Option<Note>
    ensures { result ≡ kind_note kind (words_of text.now) word.now }
{
    match kind {
        Kind::Script(_) => {
            if let Some(mode) = mode_of_word(word) {
                return Some(Note::OtherMode(mode));
            }
            if is_line(Kind::Trace, text) || is_line(Kind::Head, text) {
                return Some(Note::OfTrace);
            }
            if word == "history" {
                return Some(Note::OfHistory);
            }
            if is_scripted(word) {
                return Some(Note::CallWord);
            }
            None
        }
        Kind::Head | Kind::Trace => {
            if is_line(Kind::Script(Mode::Run), text)
                || is_line(Kind::Script(Mode::Threads), text)
            {
                return Some(Note::OfScript);
            }
            None
        }
    }
}

/// What is said of a wrong word that stands first.
fn first_note(kind: Kind, text: &str, word: &str) -> Option<Note>
    ensures { result ≡ first_note kind (words_of text.now) word.now }
{
    if is_marked(word) {
        return Some(Note::ByteOrderMark);
    }
    if is_slashes(word) {
        return Some(slashes_note(kind));
    }
    match kind_note(kind, text, word) {
        Some(note) => Some(note),
        None if has_capital(word) => Some(Note::Capitals),
        None => None,
    }
}

/// What is said of a wrong word after the first: it may be a call that only scripts for the machine make.
fn later_note(kind: Kind, text: &str) -> Option<Note>
    ensures { result ≡ later_note kind (words_of text.now) }
{
    match kind {
        Kind::Script(_) => {
            if is_line(Kind::Script(Mode::Run), text) {
                Some(Note::OtherMode(Mode::Run))
            } else {
                None
            }
        }
        Kind::Head | Kind::Trace => None,
    }
}

/// What is said of a wrong word that has letters.
fn word_note(kind: Kind, text: &str, index: usize, word: &str) -> Option<Note>
    ensures { result ≡ word_note kind text.now index word.now }
{
    if ends_in_return(text) {
        return Some(Note::CarriageReturn);
    }
    if has_tab(word) {
        return Some(Note::Tab);
    }
    if is_remark(word) {
        return Some(remark_note(kind));
    }
    if index == 0 {
        first_note(kind, text, word)
    } else {
        later_note(kind, text)
    }
}

/// What is said beside a word at which no line of the kind can go on.
fn stray_note(kind: Kind, text: &str, index: usize) -> Option<Note>
    ensures { result ≡ stray_note kind text.now index }
{
    let word = word_at(text, index)?;
    if word.is_empty() {
        return Some(blank_note(text, index));
    }
    word_note(kind, text, index, word)
}

/// What is said of a wrong word, or of one that is missing.
fn wrong_note(kind: Kind, text: &str, index: usize) -> Option<Note>
    ensures { result ≡ note_or (stray_note kind text.now index) (lack_note kind (words_of text.now) index) }
{
    match stray_note(kind, text, index) {
        Some(note) => Some(note),
        None => lack_note(kind, text, index),
    }
}

/// The first word at which no line of the kind can go on, what it has to be, and the known word that it is next to;
/// None where the line is one of the kind.
fn stray_mark(alloc: Global, kind: Kind, text: &str) -> Result<Option<Mark<'static>>, AllocError>
    ensures { IfOk result (IsMarked kind (words_of text.now)) }
{
    let Some(wrong) = first_wrong(kind, text) else {
        return Ok(None);
    };
    let word = word_at(text, wrong.word).unwrap_or("");
    let near = nearest(alloc, word, known_words(wrong.next))?;
    Ok(Some(Mark {
        word: wrong.word,
        expected: Some(wrong.next),
        near,
    }))
}

/// What is said of line `number`, which isn't one of the kind, or not here: no line feed ends it; or its first word at
/// which no such line can go on is marked, and what is said here is said too; or it is one, and then this is said.
pub fn stray_advice(
    alloc: Global,
    kind: Kind,
    text: &str,
    number: usize,
    here: Advice<'static>,
) -> Result<Advice<'static>, AllocError>
    ensures { IfOk result (IsStray kind text.now number here.entry) }
{
    if is_last(text, number) {
        return Ok(Advice::only(Note::NoLineFeed));
    }
    let line = line_of(text, number);
    let Some(mark) = stray_mark(alloc, kind, line)? else {
        return Ok(here);
    };
    Ok(Advice {
        mark: Some(mark),
        note: wrong_note(kind, line, mark.word),
        also: here.note,
        origin: here.origin,
    })
}
