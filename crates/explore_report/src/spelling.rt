//! The lines of a script: what each says besides the line of a script for `rfx run` that it has.
//!
//! A script that is explored has the declarations of every script, `call`, `phase`, and lines that depend on a reply. To
//! be read, each of its lines is spelled as one of a script for `rfx run`, which names the same things and has the same
//! faults.

ghost use Rattle.std.specs.Prelude.{◌≡◌, ◌++◌, ◌∷◌, [], OnOk, IfOk};
ghost use Rattle.lines.specs.Lines.{lines_of};
ghost use Rattle.lockword.specs.Replies.{reply_of};
ghost use Rattle.script.specs.Forms.{is_silent};
ghost use Rattle.explore_report.specs.Spelled.{is_known, kind_of, kinds_of, said_by, said_four, said_known};
ghost use Rattle.explore_report.specs.Spelled.{said_of, said_one, said_six, spelled, spelled_text};

use lines::{Words, cut, words_in};
use lockword::Reply;
use reasons::add;
use std::alloc::{AllocError, Global};

/// What a line says, which is kept of it.
#[derive(Clone, Copy)]
pub enum Kind {
    /// A declaration, a call, or nothing.
    Plain,
    /// `on REPLY call T CALL`: a call if the thread's last reply is this one.
    After(Reply),
    /// `on REPLY stop T`: the thread ends if its last reply is this one.
    StopAfter(Reply),
    /// `phase`: a phase ends.
    Phase,
}

/// What a line says, with its words.
#[derive(Clone, Copy)]
enum Line<'a> {
    /// The line is as in every script.
    Same,
    /// `on REPLY call T CALL`: the reply, the thread, the call's word and what it is on.
    Calls(Reply, &'a str, &'a str, &'a str),
    /// `on REPLY stop T`
    Stops(Reply, &'a str),
    /// `phase`
    Ends,
    /// Nothing known.
    Wrong,
}

/// The reply that a word names.
fn reply(word: &str) -> Option<Reply>
    ensures { result ≡ reply_of word.now }
{
    word.parse::<Reply>().ok()
}

/// Whether a line that begins with this word may be in every script.
fn is_known(word: &str) -> bool
    ensures { result ≡ is_known word.now }
{
    word == "thread"
        || word == "mutex"
        || word == "cond"
        || word == "call"
        || word == "mutexes"
        || word == "process"
}

/// A line that begins with this word.
fn known<'a>(word: &str) -> Line<'a>
    ensures { said_by result ≡ said_known word.now }
{
    if is_known(word) {
        Line::Same
    } else {
        Line::Wrong
    }
}

/// A line of one word.
fn of_one<'a>(word: &str) -> Line<'a>
    ensures { said_by result ≡ said_one word.now }
{
    if word == "phase" {
        Line::Ends
    } else {
        known(word)
    }
}

/// A line of four words.
fn of_four<'a>(first: &str, reply_word: &str, third: &str, thread: &'a str) -> Line<'a>
    ensures { said_by result ≡ said_four first.now reply_word.now third.now thread.now }
{
    if first != "on" {
        return known(first);
    }
    if third != "stop" {
        return Line::Wrong;
    }
    match reply(reply_word) {
        Some(reply) => Line::Stops(reply, thread),
        None => Line::Wrong,
    }
}

/// A line of six words.
fn of_six<'a>(
    first: &str,
    reply_word: &str,
    third: &str,
    thread: &'a str,
    call: &'a str,
    object: &'a str,
) -> Line<'a>
    ensures { said_by result ≡ said_six first.now reply_word.now third.now thread.now call.now object.now }
{
    if first != "on" {
        return known(first);
    }
    if third != "call" {
        return Line::Wrong;
    }
    match reply(reply_word) {
        Some(reply) => Line::Calls(reply, thread, call, object),
        None => Line::Wrong,
    }
}

/// Whether a line is empty, or a comment.
fn is_silent(text: &str) -> bool
    ensures { result ≡ is_silent text.now }
{
    match text.as_bytes() {
        [] => true,
        [first, ..] => *first == b'#',
    }
}

/// What a line says.
fn line_of(text: &str) -> Line<'_>
    ensures { said_by result ≡ said_of text.now }
{
    if is_silent(text) {
        return Line::Same;
    }
    match words_in(text) {
        Words::One(word) => of_one(word),
        Words::Two(first, _) => known(first),
        Words::Three(first, _, _) => known(first),
        Words::Four(first, reply, third, thread) => of_four(first, reply, third, thread),
        Words::Five(first, _, _, _, _) => known(first),
        Words::Six(first, reply, third, thread, call, object) => {
            of_six(first, reply, third, thread, call, object)
        }
        Words::Many => Line::Wrong,
    }
}

/// What is kept of a line.
fn kind_of(line: &Line<'_>) -> Kind
    ensures { result ≡ kind_of (said_by line.entry.now) }
{
    match *line {
        Line::Same => Kind::Plain,
        Line::Calls(reply, _, _, _) => Kind::After(reply),
        Line::Stops(reply, _) => Kind::StopAfter(reply),
        Line::Ends => Kind::Phase,
        Line::Wrong => Kind::Plain,
    }
}

/// Adds a line as it is spelled for `rfx run`.
fn add_spelled(out: &mut Vec<u8>, text: &str, line: &Line<'_>) -> Result<(), AllocError>
    ensures { OnOk result (out.new.items ≡ out.old.items ++ spelled text.now (said_by line.entry.now)) }
{
    match *line {
        Line::Same => out.extend_from_slice(text.as_bytes()),
        Line::Calls(_, thread, call, object) => {
            add(out, &["call ", thread, " ", call, " ", object])
        }
        Line::Stops(_, thread) => add(out, &["go ", thread]),
        Line::Ends => out.extend_from_slice(b"#"),
        Line::Wrong => out.extend_from_slice(b"?"),
    }
}

/// The lines of a script, spelled for `rfx run`, and what each says.
#[derive(Drop)]
pub struct Spelling {
    /// A script for `rfx run`.
    pub text: Vec<u8>,
    /// What each line says, in order.
    pub kinds: Vec<Kind>,
}

impl Spelling {
    /// Adds a line.
    fn add(&mut self, text: &str) -> Result<(), AllocError>
        ensures text { OnOk result
            (self.new.text.items ≡ self.old.text.items ++ (spelled text.now (said_of text.now) ++ 10 ∷ [])) }
        ensures kinds { OnOk result (self.new.kinds.items ≡ self.old.kinds.items ++ kind_of (said_of text.now) ∷ []) }
    {
        let line = line_of(text);
        add_spelled(&mut self.text, text, &line)?;
        self.text.push(b'\n')?;
        self.kinds.push(kind_of(&line))?;
        Ok(())
    }
}

/// Spells a script's lines.
pub fn spell(alloc: Global, text: &str) -> Result<Spelling, AllocError>
    ensures text { IfOk result (λ s. s.text.items ≡ spelled_text (lines_of text.now)) }
    ensures kinds { IfOk result (λ s. s.kinds.items ≡ kinds_of (lines_of text.now)) }
{
    let mut spelling = Spelling {
        text: Vec::new(alloc),
        kinds: Vec::new(alloc),
    };
    let mut rest = text;
    while let Some((line, after)) = cut(rest, '\n') {
        spelling.add(line)?;
        rest = after;
    }
    spelling.text.extend_from_slice(rest.as_bytes())?;
    Ok(spelling)
}
