//! The words of a line, beside its mark.

ghost use Rattle.std.specs.Prelude.{◌≡◌, map};
ghost use Rattle.picture.specs.Words.{begin_words, differs, point_words, sleep_words, words};

use crate::lane::Lane;
use crate::names::Names;
use facts::{Begun, Fact, Queue};
use itoa::Buffer;
use posixmutex::{Decision, Operation};

/// The pieces of a line's words.
pub type Words<'a> = [&'a str; 7];

fn begin_words<'a>(
    names: &'a Names,
    call: Begun,
    firsts: &'a mut Buffer,
    seconds: &'a mut Buffer,
) -> Words<'a>
    ensures { map (λ p. p.now) result ≡ begin_words names.now call.condition call.operation call.mutex }
{
    let word: &'a str = call.operation.word();
    let mutex = names.mutex(call.mutex, firsts);
    match call.condition {
        Some(number) => {
            let condition = names.condition(number, seconds);
            [
                word,
                " ",
                condition.head,
                condition.tail,
                " ",
                mutex.head,
                mutex.tail,
            ]
        }
        None => [word, " ", mutex.head, mutex.tail, "", "", ""],
    }
}

/// Whether a point's operation isn't that of the call.
fn differs(called: Option<Operation>, operation: Operation) -> bool
    ensures { result ≡ differs called operation }
{
    match called {
        Some(call) => call.word() != operation.word(),
        None => true,
    }
}

fn point_words<'a>(
    names: &'a Names,
    called: Option<Operation>,
    decision: Decision,
    digits: &'a mut Buffer,
) -> Words<'a>
    ensures { map (λ p. p.now) result ≡ point_words names.now called decision }
{
    let word: &'a str = decision.operation.word();
    let reply: &'a str = decision.reply.name();
    let mutex = names.mutex(decision.mutex, digits);
    if differs(called, decision.operation) {
        [mutex.head, mutex.tail, " ", word, " ", reply, ""]
    } else {
        [mutex.head, mutex.tail, " ", "", "", reply, ""]
    }
}

fn sleep_words<'a>(names: &'a Names, queue: Queue, digits: &'a mut Buffer) -> Words<'a>
    ensures { map (λ p. p.now) result ≡ sleep_words names.now queue }
{
    let label = match queue {
        Queue::Mutex(mutex) => names.mutex(mutex, digits),
        Queue::Condition(condition) => names.condition(condition, digits),
    };
    ["on ", label.head, label.tail, "", "", "", ""]
}

/// The words of a line, whose lane shows this. The buffers are room for numbers.
pub fn words<'a>(
    names: &'a Names,
    lane: Lane,
    fact: &Fact,
    firsts: &'a mut Buffer,
    seconds: &'a mut Buffer,
) -> Words<'a>
    ensures { map (λ p. p.now) result ≡ words names.now lane fact.now }
{
    match *fact {
        Fact::Begin(_, call) => {
            let pieces: Words<'a> = begin_words(names, call, firsts, seconds);
            pieces
        }
        Fact::Point(decision) => {
            let pieces: Words<'a> = point_words(names, lane.called(), decision, firsts);
            pieces
        }
        Fact::Death(_, mutex) => {
            let label = names.mutex(mutex, firsts);
            [label.head, label.tail, " owner died", "", "", "", ""]
        }
        Fact::Sleep(_, queue) => sleep_words(names, queue, firsts),
        Fact::Wake(_) => ["woken", "", "", "", "", "", ""],
        Fact::Move(_, mutex) => {
            let label = names.mutex(mutex, firsts);
            ["to ", label.head, label.tail, "", "", "", ""]
        }
        Fact::Return(_, reply) => {
            let name: &'a str = reply.name();
            [name, "", "", "", "", "", ""]
        }
        Fact::Kill(_) => ["killed", "", "", "", "", "", ""],
        Fact::Reap(_) => ["reaped", "", "", "", "", "", ""],
        Fact::Renew(_) => ["renewed", "", "", "", "", "", ""],
    }
}
