//! What the words of a line stand for.

ghost use Rattle.std.specs.Prelude.{◌≡◌};
ghost use Rattle.lines.specs.Lines.{words_of};
ghost use Rattle.explain.specs.Roles.{end_lack, fourth_number, given, head_lack, lack_note, lack_of, named_at};
ghost use Rattle.explain.specs.Roles.{number_at, script_lack, third_number, uses_of, uses_of_call};
ghost use Rattle.explain.specs.Sought.{things_of};

use crate::explanation::{Lack, Note, Things};
use crate::sought::{things_of, word_of};
use grammar::{Kind, word_at};

/// The words of a line with such a call that name what is declared before.
fn uses_of_call(call: &str) -> &'static [(Things, usize)]
    ensures { result.now ≡ uses_of_call call.now }
{
    match call {
        "wait" | "timedwait" | "signal" | "broadcast" => {
            &[(Things::Threads, 1), (Things::Conditions, 3)]
        }
        _ => &[(Things::Threads, 1), (Things::Mutexes, 3)],
    }
}

/// The words of a line that name what is declared before, in the order in which they are looked up.
pub fn uses_of(keyword: &str, call: &str) -> &'static [(Things, usize)]
    ensures { result.now ≡ uses_of keyword.now call.now }
{
    match keyword {
        "thread" => &[(Things::Processes, 2)],
        "cond" => &[(Things::Mutexes, 2)],
        "step" | "kill" | "renew" => &[(Things::Threads, 1)],
        "remake" => &[(Things::Threads, 1), (Things::Mutexes, 2)],
        "leave" | "expire" | "decline" | "go" | "die" => &[(Things::Threads, 1)],
        "spare" => &[(Things::Threads, 1)],
        "killall" => &[(Things::Processes, 1)],
        "locks" => &[(Things::Mutexes, 2), (Things::Threads, 1)],
        "begin" | "call" => uses_of_call(call),
        _ => &[],
    }
}

/// What a declaration with this first word gives a name to.
fn given(keyword: &str) -> Option<Lack>
    ensures { result ≡ given (things_of keyword.now) }
{
    match things_of(keyword) {
        Some(things) => Some(Lack::Name(things)),
        None => None,
    }
}

/// Of these words, what the word at this index names.
fn named_at(uses: &[(Things, usize)], index: usize) -> Option<Lack>
    ensures { result ≡ named_at uses.now index }
{
    for used in uses {
        let (things, word) = *used;
        if word == index {
            return Some(Lack::Name(things));
        }
    }
    None
}

/// The number of a line that has one in its third place.
fn third_number(keyword: &str) -> Option<Lack>
    ensures { result ≡ third_number keyword.now }
{
    match keyword {
        "process" => Some(Lack::Base),
        "mutexes" => Some(Lack::Count(Things::Mutexes)),
        "step" => Some(Lack::Accesses),
        "die" => Some(Lack::Death),
        _ => None,
    }
}

/// The number of a line that has one in its fourth place.
fn fourth_number(keyword: &str) -> Option<Lack>
    ensures { result ≡ fourth_number keyword.now }
{
    match keyword {
        "cond" => Some(Lack::Counter),
        "locks" => Some(Lack::Count(Things::Mutexes)),
        _ => None,
    }
}

/// Which number the word at this index is.
fn number_at(keyword: &str, index: usize) -> Option<Lack>
    ensures { result ≡ number_at keyword.now index }
{
    match index {
        2 => third_number(keyword),
        3 => fourth_number(keyword),
        _ => None,
    }
}

/// What the word at this index of a script's line is: the name that it declares, one that it uses, or its number.
fn script_lack(text: &str, index: usize) -> Option<Lack>
    ensures { result ≡ script_lack (words_of text.now) index }
{
    let keyword = word_of(text, 0);
    if index == 1 {
        if let Some(name) = given(keyword) {
            return Some(name);
        }
    }
    match named_at(uses_of(keyword, word_of(text, 2)), index) {
        Some(name) => Some(name),
        None => number_at(keyword, index),
    }
}

/// What the first line of a trace counts by this word.
fn head_lack(index: usize) -> Option<Lack>
    ensures { result ≡ head_lack index }
{
    match index {
        1 => Some(Lack::Count(Things::Threads)),
        2 => Some(Lack::Count(Things::Mutexes)),
        3 => Some(Lack::Count(Things::Conditions)),
        _ => None,
    }
}

/// Of a trace's other lines the last has a number.
fn end_lack(keyword: &str) -> Option<Lack>
    ensures { result ≡ end_lack keyword.now }
{
    match keyword {
        "end" => Some(Lack::Events),
        _ => None,
    }
}

/// What the word at this index is of a line of the kind.
fn lack_of(kind: Kind, text: &str, index: usize) -> Option<Lack>
    ensures { result ≡ lack_of kind (words_of text.now) index }
{
    match kind {
        Kind::Script(_) => script_lack(text, index),
        Kind::Head => head_lack(index),
        Kind::Trace => end_lack(word_of(text, 0)),
    }
}

/// That this word is missing, where there is none.
pub fn lack_note(kind: Kind, text: &str, index: usize) -> Option<Note>
    ensures { result ≡ lack_note kind (words_of text.now) index }
{
    match word_at(text, index) {
        Some(_) => None,
        None => match lack_of(kind, text, index) {
            Some(lack) => Some(Note::Missing(lack)),
            None => None,
        },
    }
}
