//! The words that may be at a place.

ghost use Rattle.std.specs.Prelude.{◌≡◌, map};
ghost use Rattle.grammar.specs.Known.{call_words, deeds, keywords, known_words, reply_words, told_words};

use crate::next::Next;
use script::Mode;

/// The words of the calls that traces tell.
fn told_words() -> &'static [&'static str]
    ensures { map (λ w. w.now) result.now ≡ told_words }
{
    &[
        "lock",
        "trylock",
        "timedlock",
        "unlock",
        "consistent",
        "wait",
        "timedwait",
        "signal",
        "broadcast",
        "reinit",
    ]
}

/// Those of the calls that scripts make: for the machine all but the last.
fn call_words(mode: Mode) -> &'static [&'static str]
    ensures { map (λ w. w.now) result.now ≡ call_words mode }
{
    match mode {
        Mode::Run => &told_words()[..9],
        Mode::Threads => &[
            "lock",
            "trylock",
            "unlock",
            "consistent",
            "wait",
            "signal",
            "broadcast",
        ],
    }
}

/// The words of replies.
fn reply_words() -> &'static [&'static str]
    ensures { map (λ w. w.now) result.now ≡ reply_words }
{
    &[
        "OK",
        "EPERM",
        "ESRCH",
        "EAGAIN",
        "EFAULT",
        "EBUSY",
        "EINVAL",
        "EDEADLK",
        "ETIMEDOUT",
        "EOWNERDEAD",
        "ENOTRECOVERABLE",
        "X_NOMEM",
        "X_RACED",
        "X_HELD",
        "X_FULL",
        "X_STATE",
    ]
}

/// The words of lines of a script.
fn keywords(mode: Mode) -> &'static [&'static str]
    ensures { map (λ w. w.now) result.now ≡ keywords mode }
{
    match mode {
        Mode::Run => &[
            "process", "thread", "mutex", "mutexes", "cond", "call", "begin", "step", "kill",
            "killall", "renew", "remake", "leave", "expire", "decline", "spare", "go", "locks",
        ],
        Mode::Threads => &[
            "process", "thread", "mutex", "mutexes", "cond", "call", "phase", "die",
        ],
    }
}

/// The words of what events do.
fn deeds() -> &'static [&'static str]
    ensures { map (λ w. w.now) result.now ≡ deeds }
{
    &[
        "begin", "kill", "point", "death", "sleep", "wake", "move", "return", "reaped", "renew",
    ]
}

/// The words that may be at this place, except for names, numbers, and numbers after a letter.
pub fn known_words(next: Next) -> &'static [&'static str]
    ensures { map (λ w. w.now) result.now ≡ known_words next }
{
    match next {
        Next::Keyword(mode) => keywords(mode),
        Next::Head => &["trace"],
        Next::Event => &["end"],
        Next::Deed => deeds(),
        Next::Call(mode) => call_words(mode),
        Next::Operation | Next::CallReply => told_words(),
        Next::Reply => reply_words(),
        _ => &[],
    }
}
