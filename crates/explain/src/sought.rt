//! Earlier lines of a script that a line goes back to.

ghost use Rattle.std.specs.Prelude.{◌≡◌, ◌-◌, [], ◌∷◌, true, take, nat_lt};
ghost use Rattle.std.specs.Str.Parse.{digits_value};
ghost use Rattle.lines.specs.Numbers.{is_number};
ghost use Rattle.lines.specs.Lines.{lines_of, words_of};
ghost use Rattle.script.specs.Reading.{is_numbered};
ghost use Rattle.explain.specs.Sought.{count_of, declares, declares_any, first_line, gives, is_clashing, is_command};
ghost use Rattle.explain.specs.Sought.{is_sought, things_of};
ghost use Rattle.explain.specs.Stray.{word_of};

use crate::explanation::Things;
use grammar::word_at;
use lines::{cut, is_number_word, number_in};
use script::MAX_MUTEXES;

/// A line that is looked for.
#[derive(Clone, Copy)]
pub enum Sought<'a> {
    /// Declares this name as such a thing.
    Declaration(Things, &'a str),
    /// Declares this name, as whatever.
    Name(&'a str),
    /// Declares a mutex whose name is this word with a number below this after it, or begins so.
    Numbered(&'a str, u32),
    /// Declares such a thing.
    Any(Things),
    /// It is a command.
    Command,
    /// It has this thread die.
    Death(&'a str),
}

/// Word `index` of a line, and no letter where it has fewer.
pub fn word_of(text: &str, index: usize) -> &str
    ensures { result.now ≡ word_of (words_of text.now) index }
{
    word_at(text, index).unwrap_or("")
}

/// What a line with this first word declares.
pub fn things_of(keyword: &str) -> Option<Things>
    ensures { result ≡ things_of keyword.now }
{
    match keyword {
        "process" => Some(Things::Processes),
        "thread" => Some(Things::Threads),
        "mutex" => Some(Things::Mutexes),
        "mutexes" => Some(Things::Mutexes),
        "cond" => Some(Things::Conditions),
        _ => None,
    }
}

/// How many names a `mutexes` line with this word declares.
pub fn count_of(word: &str) -> u32
    ensures { result ≡ count_of word.now }
{
    if is_number_word(word) {
        number_in(word, 0, MAX_MUTEXES as u32).unwrap_or(0)
    } else {
        0
    }
}

/// Whether the digits write a number below `count`.
fn is_below(digits: &str, count: u32) -> bool
    requires { is_number digits.now ≡ true }
    ensures { result ≡ nat_lt (digits_value 10 digits.now) count }
{
    match digits.parse::<u32>() {
        Ok(number) => number < count,
        Err(_) => false,
    }
}

/// Whether a name is the stem with a number below `count` after it.
fn is_numbered(stem: &str, count: u32, name: &str) -> bool
    ensures { result ≡ is_numbered stem.now count name.now }
{
    match name.strip_prefix(stem) {
        Some(digits) => is_number_word(digits) && is_below(digits, count),
        None => false,
    }
}

/// Whether a declaration gives the name.
fn gives(line: &str, name: &str) -> bool
    ensures { result ≡ gives (words_of line.now) name.now }
{
    if word_of(line, 0) == "mutexes" {
        is_numbered(word_of(line, 1), count_of(word_of(line, 2)), name)
    } else {
        word_of(line, 1) == name
    }
}

/// Whether the line declares the name as such a thing.
fn declares(line: &str, things: Things, name: &str) -> bool
    ensures { result ≡ declares (words_of line.now) things name.now }
{
    things_of(word_of(line, 0)) == Some(things) && gives(line, name)
}

/// Whether the line declares the name, as whatever.
fn declares_any(line: &str, name: &str) -> bool
    ensures { result ≡ declares_any (words_of line.now) name.now }
{
    things_of(word_of(line, 0)).is_some() && gives(line, name)
}

/// Whether a name that the line declares is the stem with a number below `count` after it, so far as that is seen at
/// once: it is a single name, or has the same stem.
fn is_clashing(line: &str, stem: &str, count: u32) -> bool
    ensures { result ≡ is_clashing (words_of line.now) stem.now count }
{
    match word_of(line, 0) {
        "mutex" => is_numbered(stem, count, word_of(line, 1)),
        "mutexes" => word_of(line, 1) == stem,
        _ => false,
    }
}

/// Whether the line is a command: it isn't silent, and declares nothing.
fn is_command(line: &str) -> bool
    ensures { result ≡ is_command line.now }
{
    !line.is_empty() && !line.starts_with('#') && things_of(word_of(line, 0)).is_none()
}

/// Whether it is the line that is looked for.
fn is_sought(sought: &Sought<'_>, line: &str) -> bool
    ensures { result ≡ is_sought sought.entry.now line.now }
{
    match *sought {
        Sought::Declaration(things, name) => declares(line, things, name),
        Sought::Name(name) => declares_any(line, name),
        Sought::Numbered(stem, count) => is_clashing(line, stem, count),
        Sought::Any(things) => things_of(word_of(line, 0)) == Some(things),
        Sought::Command => is_command(line),
        Sought::Death(name) => word_of(line, 0) == "die" && word_of(line, 1) == name,
    }
}

/// The last line of a text, if it is looked for.
fn last_sought(sought: &Sought<'_>, text: &str, line: usize) -> Option<usize>
    ensures { result ≡ first_line (λ t. is_sought sought.entry.now t) line (text.now ∷ []) }
{
    if is_sought(sought, text) {
        Some(line)
    } else {
        None
    }
}

/// The first line before line `before` that is looked for, from 1.
pub fn first_before(text: &str, before: usize, sought: &Sought<'_>) -> Option<usize>
    ensures { result ≡ first_line (λ t. is_sought sought.entry.now t) 1 (take (before - 1) (lines_of text.now)) }
{
    let mut line = 1;
    let mut rest = text;
    'lines: while line < before {
        let Some((first, behind)) = cut(rest, '\n') else {
            return last_sought(sought, rest, line);
        };
        if is_sought(sought, first) {
            return Some(line);
        }
        line += 1;
        rest = behind;
    }
    None
}
