//! What a page tells in its title: the first death of an owner, and who gets its mutex.

ghost use Rattle.std.specs.Prelude.{◌≡◌, ◌++◌, string_bytes, IfOk, Some};
ghost use Rattle.page.specs.Stories.{death_text, front_text, gets, heir_by, heir_in, heir_text, mutex_name, owns_by};
ghost use Rattle.page.specs.Stories.{plain_title, story_in, story_text, thread_name, title_text, title_with};

use crate::pieces::add_word;
use facts::{Fact, Line};
use itoa::Buffer;
use lockword::{Reply, Tid};
use picture::Names;
use posixmutex::{Decision, Operation};
use std::alloc::{AllocError, Global};

/// What a page shows the lines of.
#[derive(Clone, Copy, Debug, PartialEq, Eq)]
pub enum Source {
    Trace,
    /// A history: the lines are those of a trace that shows it.
    History,
}

/// The first death of an owner that some lines tell.
#[derive(Clone, Copy, Debug, PartialEq, Eq)]
pub struct Story {
    /// The thread that died.
    pub dead: Tid,
    /// The mutex that it owned.
    pub mutex: u16,
    /// The point by which the next owner gets the mutex, if one does.
    pub heir: Option<Decision>,
}

/// Whether a lock that replies so makes its thread the owner.
fn owns_by(reply: Reply) -> bool
    ensures { result ≡ owns_by reply }
{
    matches!(reply, Reply::OK | Reply::EOWNERDEAD)
}

/// Whether the point's thread gets the mutex by it.
fn gets(mutex: u16, point: &Decision) -> bool
    ensures { result ≡ gets mutex point.now }
{
    let acquires = matches!(
        point.operation,
        Operation::Lock | Operation::TryLock | Operation::TimedLock
    );
    point.mutex == mutex && acquires && owns_by(point.reply)
}

/// The point by which a thread gets the mutex, if this is one.
fn heir_by(mutex: u16, fact: &Fact) -> Option<Decision>
    ensures { result ≡ heir_by mutex fact.now }
{
    match *fact {
        Fact::Point(point) => {
            if gets(mutex, &point) {
                Some(point)
            } else {
                None
            }
        }
        _ => None,
    }
}

/// The first point by which a thread gets the mutex.
fn heir_in(mutex: u16, lines: &[Line]) -> Option<Decision>
    ensures { result ≡ heir_in mutex lines.now }
{
    let mut rest = lines;
    'lines: while let [line, later @ ..] = rest {
        let heir = heir_by(mutex, &line.fact);
        if heir.is_some() {
            return heir;
        }
        rest = later;
    }
    None
}

/// The story of the first death in these lines, if one is there.
fn story_in(lines: &[Line]) -> Option<Story>
    ensures { result ≡ story_in lines.now }
{
    let mut rest = lines;
    'lines: while let [line, later @ ..] = rest {
        if let Fact::Death(dead, mutex) = line.fact {
            let heir = heir_in(mutex, later);
            return Some(Story { dead, mutex, heir });
        }
        rest = later;
    }
    None
}

/// A name in two pieces.
fn add_label(text: &mut String, head: &str, tail: &str) -> Result<(), AllocError>
    ensures { IfOk result (λ _. string_bytes text.new ≡ string_bytes text.old ++ (head.now ++ tail.now)) }
{
    add_word(text, head)?;
    add_word(text, tail)
}

fn add_thread(text: &mut String, names: &Names, thread: Tid) -> Result<(), AllocError>
    ensures { IfOk result (λ _. string_bytes text.new ≡ string_bytes text.old ++ thread_name names.now thread) }
{
    let mut digits = Buffer::new();
    let label = names.thread(thread.get(), &mut digits);
    add_label(text, label.head, label.tail)
}

fn add_mutex(text: &mut String, names: &Names, mutex: u16) -> Result<(), AllocError>
    ensures { IfOk result (λ _. string_bytes text.new ≡ string_bytes text.old ++ mutex_name names.now mutex) }
{
    let mut digits = Buffer::new();
    let label = names.mutex(mutex, &mut digits);
    add_label(text, label.head, label.tail)
}

/// Adds whose death it is, and of which mutex.
fn add_death(text: &mut String, names: &Names, story: &Story) -> Result<(), AllocError>
    ensures { IfOk result
        (λ _. string_bytes text.new ≡ string_bytes text.old ++ death_text names.now story.now) }
{
    add_thread(text, names, story.dead)?;
    add_word(text, " dies owning ")?;
    add_mutex(text, names, story.mutex)
}

/// Adds who gets the mutex, and with which reply.
fn add_heir_of(text: &mut String, names: &Names, point: &Decision) -> Result<(), AllocError>
    ensures { IfOk result
        (λ _. string_bytes text.new ≡ string_bytes text.old ++ heir_text names.now (Some point.now)) }
{
    add_word(text, "; ")?;
    add_thread(text, names, point.thread)?;
    add_word(text, " gets ")?;
    add_word(text, point.reply.name())
}

/// Adds who gets the mutex, if somebody does.
fn add_heir(text: &mut String, names: &Names, heir: Option<Decision>) -> Result<(), AllocError>
    ensures { IfOk result (λ _. string_bytes text.new ≡ string_bytes text.old ++ heir_text names.now heir) }
{
    match heir {
        Some(point) => add_heir_of(text, names, &point),
        None => Ok(()),
    }
}

fn add_story(text: &mut String, names: &Names, story: &Story) -> Result<(), AllocError>
    ensures { IfOk result
        (λ _. string_bytes text.new ≡ string_bytes text.old ++ story_text names.now story.now) }
{
    add_death(text, names, story)?;
    add_heir(text, names, story.heir)
}

/// What stands before a story.
fn front_of(source: Source) -> &'static str
    ensures { result.now ≡ front_text source }
{
    match source {
        Source::Trace => "",
        Source::History => "A history: ",
    }
}

/// The title if no owner dies.
fn plain_title(source: Source) -> &'static str
    ensures { result.now ≡ plain_title source }
{
    match source {
        Source::Trace => "A trace of robust mutexes",
        Source::History => "A history of robust mutexes",
    }
}

fn add_told(
    text: &mut String,
    names: &Names,
    source: Source,
    story: &Story,
) -> Result<(), AllocError>
    ensures { IfOk result
        (λ _. string_bytes text.new
        ≡ string_bytes text.old ++ (front_text source ++ story_text names.now story.now)) }
{
    add_word(text, front_of(source))?;
    add_story(text, names, story)
}

fn add_title(
    text: &mut String,
    names: &Names,
    source: Source,
    story: &Option<Story>,
) -> Result<(), AllocError>
    ensures { IfOk result
        (λ _. string_bytes text.new ≡ string_bytes text.old ++ title_with names.now source story.now) }
{
    match story {
        Some(story) => add_told(text, names, source, story),
        None => add_word(text, plain_title(source)),
    }
}

/// The title of a page of these lines.
pub fn title_of(
    alloc: Global,
    names: &Names,
    source: Source,
    lines: &[Line],
) -> Result<String, AllocError>
    ensures { IfOk result (λ s. string_bytes s ≡ title_text names.now source lines.now) }
{
    let mut text = String::new(alloc);
    add_title(&mut text, names, source, &story_in(lines))?;
    Ok(text)
}
