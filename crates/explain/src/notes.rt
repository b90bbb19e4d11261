//! What is said of a line beside its fault.

ghost use Rattle.std.specs.Prelude.{◌≡◌, ◌++◌, OnOk};
ghost use Rattle.explain.specs.Notes.{bad_text, counted_text, many_text, note_text, other_text, range_text};
ghost use Rattle.explain.specs.Notes.{said_text, with_things};

use crate::allowed::add_allowed;
use crate::explanation::{Note, Things};
use crate::words::{lack_words, looks_words, many_words, mode_words, things_words};
use itoa::Buffer;
use reasons::add;
use std::alloc::AllocError;

/// A text with what things are called.
fn add_things<'a>(
    text: &mut Vec<u8>,
    before: &'a str,
    things: Things,
    behind: &'a str,
) -> Result<(), AllocError>
    ensures { OnOk result (text.new.items ≡ text.old.items ++ with_things before.now things behind.now) }
{
    add(text, &["  = ", before])?;
    add(text, &[things_words(things)])?;
    add(text, &[behind, "\n"])
}

/// What has a name, and what hasn't.
fn add_other(text: &mut Vec<u8>, has: Things, things: Things) -> Result<(), AllocError>
    ensures { OnOk result (text.new.items ≡ text.old.items ++ other_text has things) }
{
    add(
        text,
        &[
            "  = a ",
            things_words(has),
            " has this name, not a ",
            things_words(things),
            "\n",
        ],
    )
}

/// A limit that is passed.
fn add_many(text: &mut Vec<u8>, before: &str, limit: u32, behind: &str) -> Result<(), AllocError>
    ensures { OnOk result (text.new.items ≡ text.old.items ++ many_text before.now limit behind.now) }
{
    let mut numbers = Buffer::new();
    add(text, &["  = ", before, numbers.format(limit), behind, "\n"])
}

/// The byte that is no part of a character.
fn add_bad(text: &mut Vec<u8>, number: usize) -> Result<(), AllocError>
    ensures { OnOk result (text.new.items ≡ text.old.items ++ bad_text number) }
{
    let mut numbers = Buffer::new();
    add(
        text,
        &[
            "  = byte ",
            numbers.format(number),
            " of the file is no part of a character\n",
        ],
    )
}

/// A range of numbers.
fn add_range(text: &mut Vec<u8>, low: u32, high: u32) -> Result<(), AllocError>
    ensures { OnOk result (text.new.items ≡ text.old.items ++ range_text low high) }
{
    let mut lows = Buffer::new();
    let mut highs = Buffer::new();
    let low = lows.format(low);
    let high = highs.format(high);
    add(text, &["  = the number is from ", low, " to ", high, "\n"])
}

/// How many things there may be, or are.
#[tactic(auto, unfolding(crate::specs::Notes::counted_text))]
fn add_counted(
    text: &mut Vec<u8>,
    before: &str,
    count: u32,
    things: Things,
) -> Result<(), AllocError>
    ensures { OnOk result (text.new.items ≡ text.old.items ++ counted_text before.now count things) }
{
    let mut numbers = Buffer::new();
    add(text, &["  = ", before])?;
    add(
        text,
        &[numbers.format(count), many_words(count, things), "\n"],
    )
}

/// What is said of blanks, line ends and remarks.
fn said_of(note: &Note) -> &'static str
    ensures { result.now ≡ said_text note.now }
{
    match *note {
        Note::NoLineFeed => "the last line has no line feed at its end",
        Note::CarriageReturn => "the line ends with CR LF: a line ends with a line feed alone",
        Note::LeadingBlank => "a blank stands before the first word",
        Note::TwoBlanks => "two blanks stand here: words have one between them",
        Note::TrailingBlank => "a blank stands behind the last word",
        Note::Tab => "a tab stands here: words have one blank between them",
        Note::ByteOrderMark => "a byte order mark stands before the first word",
        Note::Capitals => "words are written in small letters",
        Note::Remark => "a remark is a line of its own",
        Note::Slashes => "a remark begins with `#`",
        Note::EmptyLine => "a trace has no empty lines",
        Note::NoRemarks => "a trace has no remarks",
        Note::CallWord => {
            "a call is written with its thread: `call T CALL`, such as `call a lock m`"
        }
        Note::OfTrace => "this is a line of a trace, which begins with `trace T M C`",
        Note::OfHistory => {
            "this is the first line of a history: `rfx-judge` judges it, and `rfx-draw` draws it"
        }
        Note::OfScript => "this is a line of a script, which doesn't begin with `trace `",
        Note::BehindCommand => "declarations stand before the first command",
        Note::PastLast => "there aren't so many mutexes from this one on",
        Note::DiesTwice => "a thread dies once at most",
        Note::SpoilingWait => "a run's wait replies X_STATE while its mutex is inconsistent",
        Note::NoEnd => "the last line of a trace is `end N`",
        Note::BehindEnd => "nothing stands behind the `end` line",
        _ => "",
    }
}

/// What is said of a line, and a line feed after it.
pub fn add_note(text: &mut Vec<u8>, note: Option<Note>) -> Result<(), AllocError>
    ensures { OnOk result (text.new.items ≡ text.old.items ++ note_text note) }
{
    match note {
        None => Ok(()),
        Some(Note::OtherMode(mode)) => add(
            text,
            &["  = a script for ", mode_words(mode), " has such lines\n"],
        ),
        Some(Note::Missing(lack)) => add(text, &["  = what is missing: ", lack_words(lack), "\n"]),
        Some(Note::Range { low, high }) => add_range(text, low, high),
        Some(Note::TooMany(things, limit)) => add_counted(
            text,
            "a script has at most ",
            limit,
            things,
        ),
        Some(Note::NothingDeclared(things)) => add_things(
            text,
            "the script declares no ",
            things,
            "",
        ),
        Some(Note::Undeclared(things)) => add_things(
            text,
            "no line before declares a ",
            things,
            " of this name",
        ),
        Some(Note::OtherThing(has, things)) => add_other(text, has, things),
        Some(Note::DeclaredTwice(things)) => add_things(
            text,
            "a line before declares a ",
            things,
            " of this name",
        ),
        Some(Note::BadByte(number)) => add_bad(text, number),
        Some(Note::LooksSo(looks)) => add(text, &["  = ", looks_words(looks), "\n"]),
        Some(Note::Bytes(limit)) => add_many(
            text,
            "a file of this kind has at most ",
            limit,
            " bytes",
        ),
        Some(Note::Lines(limit)) => add_many(text, "a script has at most ", limit, " lines"),
        Some(Note::Events(limit)) => add_many(
            text,
            "with this line it runs more than ",
            limit,
            " events",
        ),
        Some(Note::Uncounted(things, count)) => add_counted(
            text,
            "the first line counts ",
            count,
            things,
        ),
        Some(Note::Allowed(standing, operation)) => add_allowed(text, standing, operation),
        Some(other) => add(text, &["  = ", said_of(&other), "\n"]),
    }
}
