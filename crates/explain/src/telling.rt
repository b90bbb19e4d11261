//! The text of what is said of a file.

ghost use Rattle.std.specs.Prelude.{◌≡◌, ◌++◌, map, option_map, IfOk, OnOk};
ghost use Rattle.explain.specs.Shown.{begins_character, columns};
ghost use Rattle.explain.specs.Texts.{caret_text, earlier_text, expected_text, explanation_text};
ghost use Rattle.explain.specs.Texts.{fault_text, good_text, illegal_text, known_text, legal_text};
ghost use Rattle.explain.specs.Texts.{line_named, line_text, mark_text, near_text, origin_text, place_text};
ghost use Rattle.explain.specs.Texts.{point_words, points_text};
ghost use Rattle.explain.specs.Texts.{programs, quote_text, script_text, spoiling_text, title_text, trace_text};

use crate::adding::{WIDTH, add_run, add_shown};
use crate::explanation::{Explanation, Mark, Title};
use crate::notes::add_note;
use crate::quoting::line_of;
use crate::words::{expected_words, mode_words};
use grammar::{Next, known_words, place_of};
use itoa::Buffer;
use reasons::{add, add_reason};
use script::{Mode, ScriptFault};
use std::alloc::{AllocError, Global};
use verdict::{TraceFault, TraceMisfit};

/// What plays a good script.
fn programs(run: bool, threads: bool) -> &'static str
    ensures { result.now ≡ programs run threads }
{
    match (run, threads) {
        (true, false) => "`rfx run`",
        (false, true) => "`rfx threads`",
        (true, true) => "`rfx run` and `rfx threads`",
        (false, false) => "`rfx run` and `rfx threads`",
    }
}

/// A good script.
fn add_good(text: &mut Vec<u8>, file: &str, run: bool, threads: bool) -> Result<(), AllocError>
    ensures { OnOk result (text.new.items ≡ text.old.items ++ good_text file.now run threads) }
{
    add(text, &[file, ": a good script for "])?;
    add(text, &[programs(run, threads), "\n"])
}

/// The file and a line of it.
fn add_place(text: &mut Vec<u8>, file: &str, line: usize) -> Result<(), AllocError>
    ensures { OnOk result (text.new.items ≡ text.old.items ++ place_text file.now line) }
{
    let mut lines = Buffer::new();
    add(text, &[file, ": line ", lines.format(line), ": "])
}

/// A fault's number and its words.
fn add_fault(text: &mut Vec<u8>, number: u8, words: &str) -> Result<(), AllocError>
    ensures { OnOk result (text.new.items ≡ text.old.items ++ fault_text number words.now) }
{
    let mut numbers = Buffer::new();
    add(text, &["fault ", numbers.format(number), ": ", words])
}

/// A fault of a script.
fn add_script(
    text: &mut Vec<u8>,
    file: &str,
    mode: Mode,
    fault: ScriptFault,
) -> Result<(), AllocError>
    ensures { OnOk result (text.new.items ≡ text.old.items ++ script_text file.now mode fault) }
{
    add_place(text, file, fault.line)?;
    add_fault(text, fault.fault.number(), fault.fault.words())?;
    add(text, &[" (a script for ", mode_words(mode), ")\n"])
}

/// A fault of a trace.
fn add_trace(text: &mut Vec<u8>, file: &str, fault: TraceFault) -> Result<(), AllocError>
    ensures { OnOk result (text.new.items ≡ text.old.items ++ trace_text file.now fault) }
{
    add_place(text, file, fault.line)?;
    add_fault(text, fault.fault.number(), fault.fault.words())?;
    add(text, &[" (a trace)\n"])
}

/// The word for this number of points.
#[tactic(auto, unfolding(crate::specs::Texts::point_words))]
fn point_words(points: usize) -> &'static str
    ensures { result.now ≡ point_words points }
{
    if points == 1 { " point\n" } else { " points\n" }
}

/// How many points a legal trace has.
fn add_points(text: &mut Vec<u8>, file: &str, points: usize) -> Result<(), AllocError>
    ensures { OnOk result (text.new.items ≡ text.old.items ++ points_text file.now points) }
{
    let mut numbers = Buffer::new();
    add(text, &[file, ": a legal trace, of "])?;
    add(text, &[numbers.format(points), point_words(points)])
}

/// The line of a legal trace that no run has.
fn add_spoiling(text: &mut Vec<u8>, file: &str, spoiling: Option<usize>) -> Result<(), AllocError>
    ensures { OnOk result (text.new.items ≡ text.old.items ++ spoiling_text file.now spoiling) }
{
    let Some(line) = spoiling else {
        return Ok(());
    };
    add_place(text, file, line)?;
    add(
        text,
        &["no run has this: the wait makes its mutex unusable\n"],
    )
}

/// A legal trace.
fn add_legal(
    text: &mut Vec<u8>,
    file: &str,
    points: usize,
    spoiling: Option<usize>,
) -> Result<(), AllocError>
    ensures { OnOk result (text.new.items ≡ text.old.items ++ legal_text file.now points spoiling) }
{
    add_points(text, file, points)?;
    add_spoiling(text, file, spoiling)
}

/// A line of a trace that doesn't fit.
fn add_illegal(text: &mut Vec<u8>, file: &str, why: &TraceMisfit) -> Result<(), AllocError>
    ensures { OnOk result (text.new.items ≡ text.old.items ++ illegal_text file.now why.now) }
{
    add_place(text, file, why.line)?;
    add(text, &["illegal: "])?;
    add_reason(text, &why.misfit)?;
    add(text, &["\n"])
}

/// What the file is.
fn add_title(text: &mut Vec<u8>, file: &str, title: &Title) -> Result<(), AllocError>
    ensures { OnOk result (text.new.items ≡ text.old.items ++ title_text file.now title.now) }
{
    match *title {
        Title::Good { run, threads } => add_good(text, file, run, threads),
        Title::Script(mode, fault) => add_script(text, file, mode, fault),
        Title::Trace(fault) => add_trace(text, file, fault),
        Title::Legal { points, spoiling } => add_legal(text, file, points, spoiling),
        Title::Illegal(why) => add_illegal(text, file, &why),
    }
}

/// The line that a title names, if it is about one.
fn line_named(title: &Title) -> Option<usize>
    ensures { result ≡ line_named title.now }
{
    match *title {
        Title::Good { .. } => None,
        Title::Legal { spoiling, .. } => spoiling,
        Title::Script(_, fault) => Some(fault.line),
        Title::Trace(fault) => Some(fault.line),
        Title::Illegal(why) => Some(why.line),
    }
}

/// Whether a character begins with this byte.
fn begins_character(byte: u8) -> bool
    ensures { result ≡ begins_character byte }
{
    !(128 <= byte && byte < 192)
}

/// How many columns these bytes take.
fn columns(bytes: &[u8]) -> usize
    ensures { result ≡ columns bytes.now }
{
    bytes.iter().filter(|b| begins_character(**b)).count()
}

/// A line of the file.
fn add_line(text: &mut Vec<u8>, line: &str) -> Result<(), AllocError>
    ensures { OnOk result (text.new.items ≡ text.old.items ++ line_text line.now) }
{
    add(text, &["  | "])?;
    add_shown(text, line)?;
    add(text, &["\n"])
}

/// The line that marks a word of the line above it: one column at least, and none after what is shown of that.
fn add_carets(text: &mut Vec<u8>, line: &str, word: usize) -> Result<(), AllocError>
    ensures { OnOk result (text.new.items ≡ text.old.items ++ caret_text line.now word) }
{
    let (start, end) = place_of(line, word);
    let bytes = line.as_bytes();
    let front = start.min(bytes.len());
    let back = end.min(bytes.len());
    add(text, &["  | "])?;
    let before = columns(&bytes[..front]).min(WIDTH);
    let marked = columns(&bytes[front..back]).max(1);
    add_run(text, b' ', before)?;
    add_run(text, b' ', start - front)?;
    add_run(text, b'^', marked.min(WIDTH + 1 - before))?;
    add(text, &["\n"])
}

/// The words that are known at a place.
fn add_known(text: &mut Vec<u8>, words: &[&str]) -> Result<(), AllocError>
    ensures { OnOk result (text.new.items ≡ text.old.items ++ known_text (map (λ w. w.now) words.now)) }
{
    for word in words {
        add(text, &[" `", *word, "`"])?;
    }
    Ok(())
}

/// What a marked word has to be.
fn add_expected(text: &mut Vec<u8>, expected: Option<Next>) -> Result<(), AllocError>
    ensures { OnOk result (text.new.items ≡ text.old.items ++ expected_text expected) }
{
    let Some(next) = expected else {
        return Ok(());
    };
    add(text, &["  = expected ", expected_words(next)])?;
    add_known(text, known_words(next))?;
    add(text, &["\n"])
}

/// The known word that may have been meant.
fn add_near(text: &mut Vec<u8>, near: Option<&str>) -> Result<(), AllocError>
    ensures { OnOk result (text.new.items ≡ text.old.items ++ near_text (option_map (λ w. w.now) near.entry)) }
{
    match near {
        Some(near) => add(text, &["  = did you mean `", near, "`?\n"]),
        None => Ok(()),
    }
}

/// The mark of a line, and what is said of the marked word.
fn add_mark(text: &mut Vec<u8>, line: &str, mark: Option<Mark<'_>>) -> Result<(), AllocError>
    ensures { OnOk result (text.new.items ≡ text.old.items ++ mark_text line.now mark.entry) }
{
    let Some(mark) = mark else {
        return Ok(());
    };
    add_carets(text, line, mark.word)?;
    add_expected(text, mark.expected)?;
    add_near(text, mark.near)
}

/// The line that the title names, with its mark.
fn add_quote(
    text: &mut Vec<u8>,
    file: &str,
    title: &Title,
    mark: Option<Mark<'_>>,
) -> Result<(), AllocError>
    ensures { OnOk result (text.new.items ≡ text.old.items ++ quote_text file.now title.now mark.entry) }
{
    let Some(number) = line_named(title) else {
        return Ok(());
    };
    let line = line_of(file, number);
    if line.is_empty() {
        return Ok(());
    }
    add_line(text, line)?;
    add_mark(text, line, mark)
}

/// An earlier line.
fn add_earlier(text: &mut Vec<u8>, file: &str, number: usize) -> Result<(), AllocError>
    ensures { OnOk result (text.new.items ≡ text.old.items ++ earlier_text file.now number) }
{
    let mut numbers = Buffer::new();
    add(text, &["  = see line ", numbers.format(number), ":\n"])?;
    add_line(text, line_of(file, number))
}

/// The earlier line that it goes back to.
fn add_origin(text: &mut Vec<u8>, file: &str, origin: Option<usize>) -> Result<(), AllocError>
    ensures { OnOk result (text.new.items ≡ text.old.items ++ origin_text file.now origin) }
{
    match origin {
        Some(number) => add_earlier(text, file, number),
        None => Ok(()),
    }
}

/// The text of what is said of a file of this name and with these lines.
pub fn explanation_text(
    alloc: Global,
    file: &str,
    lines: &str,
    explanation: &Explanation<'_>,
) -> Result<Vec<u8>, AllocError>
    ensures { IfOk result (λ t. t.items ≡ explanation_text file.now lines.now explanation.entry.now) }
{
    let mut text = Vec::new(alloc);
    add_title(&mut text, file, &explanation.title)?;
    add_quote(
        &mut text,
        lines,
        &explanation.title,
        explanation.advice.mark,
    )?;
    add_note(&mut text, explanation.advice.note)?;
    add_note(&mut text, explanation.advice.also)?;
    add_origin(&mut text, lines, explanation.advice.origin)?;
    Ok(text)
}
