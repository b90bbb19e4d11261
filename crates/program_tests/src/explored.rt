//! `rfx-explore`: what it makes, words that aren't text, readers and writers that fail, refused memory.

use explore_report::{Maker, OUT_OF_MEMORY, run};
use outcomes::Progress;
use std::alloc::{AllocError, Global};
use std::cell::Cell;
use std::io::{self, ErrorKind};
use text_fixtures::{Answered, Faulty, Folder, words};

/// A place for files, where only `out` can be made, and only with one text filled. It counts what was filled.
#[derive(Drop)]
struct Shelf<'a> {
    alloc: Global,
    text: &'a str,
    filled: Cell<usize>,
}

impl<'a> Shelf<'a> {
    fn new(alloc: Global, text: &'a str) -> Shelf<'a> {
        Shelf {
            alloc,
            text,
            filled: Cell::new(0),
        }
    }
}

impl Maker for Shelf<'_> {
    type File = Vec<u8>;

    fn make(&self, name: &str) -> io::Result<Vec<u8>> {
        match name {
            "out" => Ok(Vec::new(self.alloc)),
            _ => Err(io::Error::from(ErrorKind::NotFound)),
        }
    }

    fn fill(&self, _name: &str, file: Vec<u8>) -> io::Result<()> {
        if file.as_slice() != self.text.as_bytes() {
            return Err(io::Error::from(ErrorKind::InvalidData));
        }
        self.filled.set(self.filled.get().saturating_add(1));
        Ok(())
    }
}

/// Nobody listens.
#[derive(Drop)]
struct Silent;

impl Progress for Silent {
    fn reached(&mut self, _states: usize) {}
}

/// What is answered for words that may not be had.
fn answer_of(
    alloc: Global,
    line: io::Result<Vec<String>>,
    script: &[u8],
    shelf: &Shelf<'_>,
) -> Answered {
    let mut out = Vec::new(alloc);
    let mut err = Vec::new(alloc);
    let status = run(
        alloc,
        line,
        &Folder::new(script),
        shelf,
        &mut Silent,
        &mut out,
        &mut err,
    );
    Answered::new(status, out, err)
}

/// What is answered for these words, where nothing is to be made.
fn answered(alloc: Global, line: &[&str], script: &[u8]) -> Answered {
    answer_of(alloc, words(alloc, line), script, &Shelf::new(alloc, ""))
}

const SCRIPT: &[u8] = b"thread a
mutex m
call a lock m
on EOWNERDEAD stop a
call a unlock m
";

/// The thread may die before its lock, in it, after it, and once nobody owns the mutex.
const TEXT: &str = "1 thread, 1 mutex, at most 1 kill: 5 outcomes, complete
1  a OK OK      m free
2  a dead       m free
3  a dead       m inconsistent
4  a OK dead    m inconsistent
5  a OK dead    m free
90 states
";

/// The thread dies once its lock has returned.
const PLAYED: &str = "thread a
mutex m
begin a lock m
step a 8
kill a
step a 6
";

const USAGE: &str = "usage: rfx-explore [OPTION].. FILE\n";

#[test]
fn all_outcomes_are_printed(rt: HostRuntime) {
    let answered = answered(rt.alloc(), &["rfx-explore", "--kills", "1", "f"], SCRIPT);
    assert!(rt; answered.is(0, TEXT, ""));
}

#[test]
fn what_is_asked_is_judged(rt: HostRuntime) {
    let never = answered(
        rt.alloc(),
        &["rfx-explore", "--never", "a dead", "f"],
        SCRIPT,
    );
    let holds =
        "1 thread, 1 mutex: 1 outcome, complete\n1  a OK OK    m free\n18 states\nnever a dead: holds\n";
    assert!(rt; never.is(0, holds, ""));
    let line = ["rfx-explore", "--states", "9", "--always", "m free", "f"];
    let cut =
        "1 thread, 1 mutex: 0 outcomes, not complete\n9 states\nalways m free: holds so far\n";
    assert!(rt; answered(rt.alloc(), &line, SCRIPT).is(3, cut, ""));
    let line = ["rfx-explore", "--always", "a EBUSY", "f"];
    let broken =
        "1 thread, 1 mutex: 1 outcome, complete\n1  a OK OK    m free\n18 states\nalways a EBUSY: broken by outcome 1\n";
    assert!(rt; answered(rt.alloc(), &line, SCRIPT).is(1, broken, ""));
}

#[test]
fn the_script_of_an_outcome_is_written(rt: HostRuntime) {
    let shelf = Shelf::new(rt.alloc(), PLAYED);
    let line = ["rfx-explore", "--script", "4", "out", "--kills", "1", "f"];
    let answered = answer_of(rt.alloc(), words(rt.alloc(), &line), SCRIPT, &shelf);
    assert!(rt; answered.is(0, TEXT, "") && shelf.filled.get() == 1);
}

#[test]
fn a_script_that_cannot_be_written_is_told(rt: HostRuntime) {
    let line = ["rfx-explore", "--script", "1", "none", "f"];
    let told = "rfx-explore: cannot write none\n";
    assert!(rt; answered(rt.alloc(), &line, SCRIPT).is(1, "", told));
    let line = ["rfx-explore", "--script", "1", "out", "f"];
    let told = "rfx-explore: cannot write out\n";
    assert!(rt; answered(rt.alloc(), &line, SCRIPT).is(1, "", told));
    let line = ["rfx-explore", "--script", "2", "out", "f"];
    let told = "rfx-explore: no outcome has the number 2\n";
    assert!(rt; answered(rt.alloc(), &line, SCRIPT).is(1, "", told));
}

/// Nothing is written by another command line, nor over the script.
#[test]
fn nothing_is_written_over_the_script(rt: HostRuntime) {
    let line = ["rfx-explore", "--kills", "1", "--kills", "1", "f"];
    assert!(rt; answered(rt.alloc(), &line, SCRIPT).is(2, "", USAGE));
    let line = ["rfx-explore", "--kills", "5", "f"];
    assert!(rt; answered(rt.alloc(), &line, SCRIPT).is(2, "", USAGE));
    let line = ["rfx-explore", "--script", "1", "./f", "f"];
    let told = "rfx-explore: the script would be written over f\n";
    assert!(rt; answered(rt.alloc(), &line, SCRIPT).is(2, "", told));
}

#[test]
fn names_that_are_not_declared_are_told(rt: HostRuntime) {
    let told = "rfx-explore: no thread is called b\n";
    assert!(rt; answered(rt.alloc(), &["rfx-explore", "--kill", "b", "f"], SCRIPT).is(1, "", told));
    let told = "rfx-explore: not a pattern: b dead\n";
    let line = ["rfx-explore", "--never", "b dead", "f"];
    assert!(rt; answered(rt.alloc(), &line, SCRIPT).is(1, "", told));
}

/// Words that are no text are another command line; memory is reported where it was refused, for the words or for a
/// file; so is a file that can't be read, and one that is no script.
#[test]
fn refused_words_and_files_are_told(rt: HostRuntime) {
    let shelf = Shelf::new(rt.alloc(), "");
    let no_text = Err(io::Error::from(ErrorKind::InvalidData));
    assert!(rt; answer_of(rt.alloc(), no_text, SCRIPT, &shelf).is(2, "", USAGE));
    let none = Err(io::Error::from(AllocError));
    assert!(rt; answer_of(rt.alloc(), none, SCRIPT, &shelf).is(1, "", OUT_OF_MEMORY));
    let refused = answered(rt.alloc(), &["rfx-explore", "refused"], SCRIPT);
    assert!(rt; refused.is(1, "", "rfx-explore: out of memory\n"));
    let broken = answered(rt.alloc(), &["rfx-explore", "broken"], SCRIPT);
    assert!(rt; broken.is(1, "", "rfx-explore: cannot read broken\n"));
    let endless = answered(rt.alloc(), &["rfx-explore", "endless"], SCRIPT);
    assert!(rt; endless.is(1, "", "rfx-explore: line 1: fault 5: too long\n"));
    let ill = answered(
        rt.alloc(),
        &["rfx-explore", "f"],
        b"thread a\nmutex m\non OK a\n",
    );
    assert!(rt; ill.is(1, "", "rfx-explore: line 3: fault 2: unknown word\n"));
}

/// Whether a text that a writer with this room can't hold is reported, and its beginning written.
fn is_told_of_room(alloc: Global, room: usize) -> bool {
    let mut out = Faulty::new(alloc, room, false);
    let mut err = Vec::new(alloc);
    let status = run(
        alloc,
        words(alloc, &["rfx-explore", "--kills", "1", "f"]),
        &Folder::new(SCRIPT),
        &Shelf::new(alloc, ""),
        &mut Silent,
        &mut out,
        &mut err,
    );
    let front = TEXT.as_bytes().get(..room).unwrap_or(b"");
    status == 1
        && out.held.as_slice() == front
        && err.as_slice() == "rfx-explore: cannot write\n".as_bytes()
}

#[test]
fn a_text_that_cannot_be_written_is_told(rt: HostRuntime) {
    for room in [0, 1, 2, 55, 56, 100, TEXT.len() - 1] {
        assert!(rt; is_told_of_room(rt.alloc(), room));
    }
}
