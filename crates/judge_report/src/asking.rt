//! What the words of a command line ask for.

ghost use Rattle.std.specs.Prelude.{◌≡◌, map, option_map};
ghost use Rattle.std.specs.Char.{is_ascii_digit};
ghost use Rattle.std.specs.List.{list_all};
ghost use Rattle.judge_report.specs.Asked.{asked_by, asked_of, is_number_part, is_waiting_word, is_window};
ghost use Rattle.judge_report.specs.Asked.{is_window_at, is_window_number, judging, kept_of, place_words, placed, with_place};
ghost use Rattle.judge_report.specs.Paths.{name_one_file};

use crate::paths::own_names;
use streams::is_file;

/// Where the certificate of a legal history is kept.
#[derive(Clone, Copy)]
pub enum Keeping<'a> {
    Nowhere,
    /// `--trace OUT`: in this file, as one trace.
    Whole(&'a str),
    /// `--windows OUT`: in the files OUT.1, OUT.2 and so on, a window in each.
    Windows(&'a str),
}

/// What a command line asks for.
#[derive(Clone, Copy)]
pub enum Form<'a> {
    /// `rfx-judge [--waiting] [--trace OUT | --windows OUT] FILE`, the options in any order: the history in FILE is
    /// judged, and its certificate is kept, if it has one. Where it is true, the calls are named that still wait and
    /// shouldn't. No name begins with a hyphen.
    History(bool, Keeping<'a>, &'a str),
    /// The same, but the certificate would be written over the history in this file.
    Overwriting(&'a str),
    /// Every other command line, those that ask for help or the version among them.
    Usage,
}

fn is_waiting_word(word: &str) -> bool
    ensures { result ≡ is_waiting_word word.now }
{
    word == "--waiting"
}

/// Where two words ask for the certificate to be kept, if they do.
fn place_words<'a>(word: &str, out: &'a str) -> Option<Keeping<'a>>
    ensures { option_map kept_of result ≡ place_words word.now out.now }
{
    if !is_file(out) {
        None
    } else if word == "--trace" {
        Some(Keeping::Whole(out))
    } else if word == "--windows" {
        Some(Keeping::Windows(out))
    } else {
        None
    }
}

fn are_digits(bytes: &[u8]) -> bool
    ensures { result ≡ list_all is_ascii_digit bytes.now }
{
    bytes.iter().all(|b| b.is_ascii_digit())
}

/// Whether these are the digits of a number from 1 on, with no zero in front.
fn is_window_number(bytes: &[u8]) -> bool
    ensures { result ≡ is_window_number bytes.now }
{
    match bytes {
        [first, ..] => *first != b'0' && are_digits(bytes),
        [] => false,
    }
}

/// Whether a point is there, and a window's number after it.
fn is_number_part(bytes: &[u8]) -> bool
    ensures { result ≡ is_number_part bytes.now }
{
    match bytes.split_first() {
        Some((first, digits)) => *first == b'.' && is_window_number(digits),
        None => false,
    }
}

/// Whether a window of a certificate that is kept in OUT.1, OUT.2 and so on could have this own name: after OUT and a
/// point it has a window's number.
fn is_window(out: &[u8], file: &[u8]) -> bool
    ensures { result ≡ is_window out.now file.now }
{
    file.starts_with(out) && is_number_part(&file[out.len()..])
}

/// Whether both names are of one file.
fn name_one_file(out: &str, file: &str) -> bool
    ensures { result ≡ name_one_file out.now file.now }
{
    match own_names(out, file) {
        Some((own, other)) => own == other,
        None => false,
    }
}

/// Whether a window of a certificate that is kept in OUT.1, OUT.2 and so on could be written over this file.
fn is_window_at(out: &str, file: &str) -> bool
    ensures { result ≡ is_window_at out.now file.now }
{
    match own_names(out, file) {
        Some((own, other)) => is_window(own.as_bytes(), other.as_bytes()),
        None => false,
    }
}

/// A judgement of the history in the file of this name, if the certificate isn't written over it.
fn placed<'a>(waiting: bool, keeping: Keeping<'a>, file: &'a str) -> Form<'a>
    ensures { asked_by result ≡ placed waiting (kept_of keeping.entry) file.now }
{
    match keeping {
        Keeping::Nowhere => Form::History(waiting, Keeping::Nowhere, file),
        Keeping::Whole(out) => {
            if name_one_file(out, file) {
                Form::Overwriting(file)
            } else {
                Form::History(waiting, Keeping::Whole(out), file)
            }
        }
        Keeping::Windows(out) => {
            if is_window_at(out, file) {
                Form::Overwriting(file)
            } else {
                Form::History(waiting, Keeping::Windows(out), file)
            }
        }
    }
}

/// A judgement of the history in this file, if it is a file's name, and the certificate isn't written over it.
fn judging<'a>(waiting: bool, keeping: Keeping<'a>, file: &'a str) -> Form<'a>
    ensures { asked_by result ≡ judging waiting (kept_of keeping.entry) file.now }
{
    if is_file(file) {
        placed(waiting, keeping, file)
    } else {
        Form::Usage
    }
}

/// The same, if the certificate is to be kept somewhere.
fn with_place<'a>(waiting: bool, keeping: Option<Keeping<'a>>, file: &'a str) -> Form<'a>
    ensures { asked_by result ≡ with_place waiting (option_map kept_of keeping.entry) file.now }
{
    match keeping {
        Some(keeping) => judging(waiting, keeping, file),
        None => Form::Usage,
    }
}

/// The form of a command line, of which the first word is the program's name.
pub fn form_of_words<'a>(words: &'a [&'a str]) -> Form<'a>
    ensures { asked_by result ≡ asked_of (map (λ w. w.now) words.now) }
{
    match words {
        [_, file] => judging(false, Keeping::Nowhere, file),
        [_, a, file] => {
            if is_waiting_word(a) {
                judging(true, Keeping::Nowhere, file)
            } else {
                Form::Usage
            }
        }
        [_, a, b, file] => with_place(false, place_words(a, b), file),
        [_, a, b, c, file] => {
            if is_waiting_word(a) {
                with_place(true, place_words(b, c), file)
            } else if is_waiting_word(c) {
                with_place(true, place_words(a, b), file)
            } else {
                Form::Usage
            }
        }
        [] => Form::Usage,
        [_] => Form::Usage,
        [_, _, _, _, _, _, ..] => Form::Usage,
    }
}
