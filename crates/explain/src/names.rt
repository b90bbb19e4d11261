//! Names that no line declares, or two lines do.

ghost use Rattle.std.specs.Prelude.{◌≡◌, ◌++◌, ◌-◌, map, option_map, take, IfOk, OnOk};
ghost use Rattle.lines.specs.Lines.{lines_of, words_of};
ghost use Rattle.explain.specs.Advised.{IsNameAdvice, IsUndeclared, first_death, first_declared, first_named};
ghost use Rattle.explain.specs.Advised.{is_undeclared, listed, missing_note, names_in, single_name, things_at};
ghost use Rattle.explain.specs.Advised.{twice};

use crate::explanation::{Advice, Mark, Note, Things};
use crate::quoting::line_of;
use crate::roles::uses_of;
use crate::sought::{Sought, count_of, first_before, things_of, word_of};
use grammar::nearest;
use lines::cut;
use std::alloc::{AllocError, Global};

/// The name of such a thing that a line declares, where it declares that name alone.
fn single_name(line: &str, things: Things) -> Option<&str>
    ensures { option_map (λ w. w.now) result ≡ single_name things line.now }
{
    let keyword = word_of(line, 0);
    if things_of(keyword) == Some(things) && keyword != "mutexes" {
        Some(word_of(line, 1))
    } else {
        None
    }
}

/// Keeps a name after the others, if there is one.
fn keep<'a>(names: &mut Vec<&'a str>, name: Option<&'a str>) -> Result<(), AllocError>
    ensures { OnOk result
        (map (λ w. w.now) names.new.items
        ≡ map (λ w. w.now) names.old.items ++ listed (option_map (λ w. w.now) name.entry)) }
{
    if let Some(name) = name {
        names.push(name)?;
    }
    Ok(())
}

/// The names of such things that lines before line `before` declare one by one.
fn names_before<'a>(
    alloc: Global,
    text: &'a str,
    before: usize,
    things: Things,
) -> Result<Vec<&'a str>, AllocError>
    ensures { IfOk result
        (λ v. map (λ w. w.now) v.items ≡ names_in things (take (before - 1) (lines_of text.entry.now))) }
{
    let mut names = Vec::new(alloc);
    let mut line = 1;
    let mut rest = text;
    'lines: while line < before {
        let Some((first, behind)) = cut(rest, '\n') else {
            keep(&mut names, single_name(rest, things))?;
            return Ok(names);
        };
        keep(&mut names, single_name(first, things))?;
        line += 1;
        rest = behind;
    }
    Ok(names)
}

/// Whether this word of a line names such a thing, and no line before declares the name.
fn is_undeclared(text: &str, number: usize, things: Things, word: usize) -> bool
    ensures { result ≡ is_undeclared text.now number things word }
{
    let name = word_of(line_of(text, number), word);
    let sought = Sought::Declaration(things, name);
    !name.is_empty() && first_before(text, number, &sought).is_none()
}

/// What a line declares, if it is one that does.
fn things_at(text: &str, number: Option<usize>) -> Option<Things>
    ensures { result ≡ things_at text.now number }
{
    match number {
        Some(number) => things_of(word_of(line_of(text, number), 0)),
        None => None,
    }
}

/// What is said of a name that is to be of such a thing, and that another thing has, or none.
fn missing_note(things: Things, other: Option<Things>) -> Note
    ensures { result ≡ missing_note things other }
{
    match other {
        Some(other) => Note::OtherThing(other, things),
        None => Note::Undeclared(things),
    }
}

/// The first line before line `number` that declares the name, as whatever.
fn first_named(text: &str, number: usize, name: &str) -> Option<usize>
    ensures { result ≡ first_named text.now number name.now }
{
    first_before(text, number, &Sought::Name(name))
}

/// A name that no line before declares as such a thing.
fn undeclared<'a>(
    alloc: Global,
    text: &'a str,
    number: usize,
    things: Things,
    word: usize,
) -> Result<Advice<'a>, AllocError>
    ensures { IfOk result (IsUndeclared text.entry.now number things word) }
{
    let name = word_of(line_of(text, number), word);
    let names = names_before(alloc, text, number, things)?;
    let near = nearest(alloc, name, &names)?;
    let first = first_named(text, number, name);
    Ok(Advice {
        mark: Some(Mark {
            word,
            expected: None,
            near,
        }),
        note: Some(missing_note(things, things_at(text, first))),
        also: None,
        origin: first,
    })
}

/// The first line before line `number`, which is this, that has its thread die.
fn first_death(text: &str, number: usize, line: &str) -> Option<usize>
    ensures { result ≡ first_death text.now number (words_of line.now) }
{
    first_before(text, number, &Sought::Death(word_of(line, 1)))
}

/// The first one that declares a name which this line declares too.
fn first_declared(text: &str, number: usize, line: &str, things: Things) -> Option<usize>
    ensures { result ≡ first_declared text.now number (words_of line.now) things }
{
    let name = word_of(line, 1);
    if word_of(line, 0) == "mutexes" {
        let count = count_of(word_of(line, 2));
        return first_before(text, number, &Sought::Numbered(name, count));
    }
    first_before(text, number, &Sought::Declaration(things, name))
}

/// A name that a line before declares, or a thread that one has die.
fn declared_twice(text: &str, number: usize) -> Advice<'static>
    ensures { result ≡ twice text.now number }
{
    let line = line_of(text, number);
    match things_of(word_of(line, 0)) {
        Some(things) => {
            let first = first_declared(text, number, line, things);
            Advice::at(1, Note::DeclaredTwice(things)).back_to(first)
        }
        None => Advice::at(1, Note::DiesTwice).back_to(first_death(text, number, line)),
    }
}

/// What is said of a line that names what isn't declared, or declares what is.
pub fn unknown_name<'a>(
    alloc: Global,
    text: &'a str,
    number: usize,
) -> Result<Advice<'a>, AllocError>
    ensures { IfOk result (IsNameAdvice text.entry.now number) }
{
    let line = line_of(text, number);
    let uses = uses_of(word_of(line, 0), word_of(line, 2));
    for used in uses {
        let (things, word) = *used;
        if is_undeclared(text, number, things, word) {
            return undeclared(alloc, text, number, things, word);
        }
    }
    Ok(declared_twice(text, number))
}
