//! Patterns: what an outcome may have, as the words of `--never` and `--always` say it.

ghost use Rattle.std.specs.Prelude.{◌≡◌};
ghost use Rattle.std.specs.List.{list_any};
ghost use Rattle.lines.specs.Lines.{words_of};
ghost use Rattle.lockword.specs.Replies.{reply_of};
ghost use Rattle.explore_report.specs.Patterns.{is_asleep, is_dead, is_left, is_met, is_waiting, of_thread};
ghost use Rattle.explore_report.specs.Patterns.{of_two, pattern_words, same_reply, state_of};

use crate::names::{mutex_named, thread_named};
use lines::{Words, words_in};
use lockword::{Reply, Tid};
use outcomes::{End, Ended, Outcome};
use posixmutex::Object;
use script::Script;

/// What a mutex may be at the end.
#[derive(Clone, Copy)]
pub enum State {
    /// Nobody owns it, and it is as at first.
    Free,
    /// A thread owns it.
    Owned,
    /// An owner died, and nobody has declared it consistent.
    Inconsistent,
    Unusable,
}

/// What an outcome may have.
#[derive(Clone, Copy)]
pub enum Pattern {
    /// `THREAD REPLY`: the thread got this reply.
    Got(Tid, Reply),
    /// `THREAD dead`
    Dead(Tid),
    /// `THREAD asleep`: the thread sleeps forever.
    Asleep(Tid),
    /// `THREAD waiting`: the phase of the thread's next call never comes.
    Waiting(Tid),
    /// `asleep`: some thread sleeps forever.
    SomeAsleep,
    /// `MUTEX free` and so on.
    Left(u16, State),
}

/// The state that a word says.
fn state_of(word: &str) -> Option<State>
    ensures { result ≡ state_of word.now }
{
    if word == "free" {
        Some(State::Free)
    } else if word == "owned" {
        Some(State::Owned)
    } else if word == "inconsistent" {
        Some(State::Inconsistent)
    } else if word == "unusable" {
        Some(State::Unusable)
    } else {
        None
    }
}

/// The reply that a word names.
fn reply(word: &str) -> Option<Reply>
    ensures { result ≡ reply_of word.now }
{
    word.parse::<Reply>().ok()
}

/// What a word says of a thread.
fn of_thread(thread: Tid, word: &str) -> Option<Pattern>
    ensures { result ≡ of_thread thread word.now }
{
    if word == "dead" {
        Some(Pattern::Dead(thread))
    } else if word == "asleep" {
        Some(Pattern::Asleep(thread))
    } else if word == "waiting" {
        Some(Pattern::Waiting(thread))
    } else {
        Some(Pattern::Got(thread, reply(word)?))
    }
}

/// What a pattern of two words says.
fn of_two(script: &Script, name: &str, word: &str) -> Option<Pattern>
    ensures { result ≡ of_two script.now name.now word.now (state_of word.now) }
{
    match state_of(word) {
        Some(state) => Some(Pattern::Left(mutex_named(script, name)?, state)),
        None => of_thread(thread_named(script, name)?, word),
    }
}

/// The pattern that a text is, with the names of a script.
pub fn read_pattern(script: &Script, text: &str) -> Option<Pattern>
    ensures { result ≡ pattern_words script.now (words_of text.now) }
{
    match words_in(text) {
        Words::One(word) => {
            if word == "asleep" {
                Some(Pattern::SomeAsleep)
            } else {
                None
            }
        }
        Words::Two(name, word) => of_two(script, name, word),
        _ => None,
    }
}

/// Whether a thread that ended so sleeps forever.
pub fn is_asleep(end: End) -> bool
    ensures { result ≡ is_asleep end }
{
    matches!(end, End::OnMutex(_) | End::OnCondition(_))
}

/// Whether a thread that ended so is dead.
pub fn is_dead(end: End) -> bool
    ensures { result ≡ is_dead end }
{
    matches!(end, End::Dead)
}

/// Whether the next call of a thread that ended so is in a phase that never comes.
fn is_waiting(end: End) -> bool
    ensures { result ≡ is_waiting end }
{
    matches!(end, End::Waiting)
}

/// Whether a mutex is left so.
fn is_left(object: &Object, state: State) -> bool
    ensures { result ≡ is_left object.now state }
{
    match state {
        State::Free => object.owner.is_none() && !object.inconsistent && !object.unusable,
        State::Owned => object.owner.is_some(),
        State::Inconsistent => object.inconsistent,
        State::Unusable => object.unusable,
    }
}

/// Whether a thread got this reply.
fn has_got(ended: &Ended, reply: Reply) -> bool
    ensures { result ≡ list_any (λ y. same_reply y reply) ended.now.replies.items }
{
    ended
        .replies
        .iter()
        .any(|got| got.number() == reply.number())
}

/// Whether some thread sleeps forever.
pub fn some_asleep(outcome: &Outcome) -> bool
    ensures { result ≡ list_any (λ e. is_asleep e.end) outcome.now.threads.items }
{
    outcome.threads.iter().any(|ended| is_asleep(ended.end))
}

/// Whether an outcome has what the pattern says.
pub fn is_met(outcome: &Outcome, pattern: Pattern) -> bool
    ensures { result ≡ is_met outcome.now pattern }
{
    match pattern {
        Pattern::Got(thread, reply) => match outcome.threads.get(thread.as_index()) {
            Some(ended) => has_got(ended, reply),
            None => false,
        },
        Pattern::Dead(thread) => match outcome.threads.get(thread.as_index()) {
            Some(ended) => is_dead(ended.end),
            None => false,
        },
        Pattern::Asleep(thread) => match outcome.threads.get(thread.as_index()) {
            Some(ended) => is_asleep(ended.end),
            None => false,
        },
        Pattern::Waiting(thread) => match outcome.threads.get(thread.as_index()) {
            Some(ended) => is_waiting(ended.end),
            None => false,
        },
        Pattern::SomeAsleep => some_asleep(outcome),
        Pattern::Left(mutex, state) => match outcome.mutexes.get(usize::from(mutex)) {
            Some(object) => is_left(object, state),
            None => false,
        },
    }
}
