//! The words of what is said.

ghost use Rattle.std.specs.Prelude.{◌≡◌};
ghost use Rattle.explain.specs.Words.{expected_words, lack_words, looks_words, many_words, mode_words, things_words};

use crate::explanation::{Lack, Looks, Things};
use grammar::Next;
use script::Mode;

/// The program that takes scripts of the mode.
pub fn mode_words(mode: Mode) -> &'static str
    ensures { result.now ≡ mode_words mode }
{
    match mode {
        Mode::Run => "`rfx run`",
        Mode::Threads => "`rfx threads`",
    }
}

pub fn things_words(things: Things) -> &'static str
    ensures { result.now ≡ things_words things }
{
    match things {
        Things::Processes => "process",
        Things::Threads => "thread",
        Things::Mutexes => "mutex",
        Things::Conditions => "condition variable",
    }
}

/// The words for this number of them, after the number.
pub fn many_words(count: u32, things: Things) -> &'static str
    ensures { result.now ≡ many_words count things }
{
    match (things, count == 1) {
        (Things::Processes, true) => " process",
        (Things::Processes, false) => " processes",
        (Things::Threads, true) => " thread",
        (Things::Threads, false) => " threads",
        (Things::Mutexes, true) => " mutex",
        (Things::Mutexes, false) => " mutexes",
        (Things::Conditions, true) => " condition variable",
        (Things::Conditions, false) => " condition variables",
    }
}

/// What a line lacks.
pub fn lack_words(lack: Lack) -> &'static str
    ensures { result.now ≡ lack_words lack }
{
    match lack {
        Lack::Name(things) => match things {
            Things::Processes => "the name of a process",
            Things::Threads => "the name of a thread",
            Things::Mutexes => "the name of a mutex",
            Things::Conditions => "the name of a condition variable",
        },
        Lack::Count(things) => match things {
            Things::Processes => "how many processes",
            Things::Threads => "how many threads",
            Things::Mutexes => "how many mutexes",
            Things::Conditions => "how many condition variables",
        },
        Lack::Base => "at which address the process maps the words",
        Lack::Counter => "what the counter begins with",
        Lack::Accesses => "how many accesses",
        Lack::Death => "before which access the thread dies",
        Lack::Events => "how many events",
    }
}

/// What a file is that isn't UTF-8, as far as one sees.
pub fn looks_words(looks: Looks) -> &'static str
    ensures { result.now ≡ looks_words looks }
{
    match looks {
        Looks::Utf16 => "it begins as UTF-16 does: save it as UTF-8",
        Looks::Binary => "it has a byte 0, which no text has",
        Looks::Latin1 => "it may be Latin-1, or the like: save it as UTF-8",
    }
}

/// What a word has to be, where it isn't one of a few.
pub fn expected_words(next: Next) -> &'static str
    ensures { result.now ≡ expected_words next }
{
    match next {
        Next::End => "the end of the line",
        Next::Keyword(_) | Next::Head | Next::Deed => "one of",
        Next::Call(_) | Next::Operation | Next::CallReply | Next::Reply => "one of",
        Next::Name | Next::NewThread | Next::NameNumber | Next::NameNameNumber => {
            "a name: 1 to 16 of a to z, 0 to 9 and _, the first a letter"
        }
        Next::NameCall(_) | Next::NameName =>
            "a name: 1 to 16 of a to z, 0 to 9 and _, the first a letter",
        Next::StemNumber => "a name: 1 to 12 of a to z, 0 to 9 and _, the first a letter",
        Next::ProcessOrEnd => "the name of a process, or the end of the line",
        Next::Number | Next::ThreeNumbers | Next::TwoNumbers => {
            "a number: decimal digits without leading zeros"
        }
        Next::Event => "the number of an event, or",
        Next::Thread | Next::ThreadMutex | Next::ThreadPlace => "a thread, such as t1",
        Next::ThreadReply | Next::ThreadCall | Next::ThreadPoint => "a thread, such as t1",
        Next::Mutex | Next::MutexCallReply => "a mutex, such as m0",
        Next::Place => "a mutex or a condition variable, such as m0 or c0",
        Next::ConditionMutex => "a condition variable, such as c0",
    }
}
