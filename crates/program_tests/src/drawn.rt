//! `rfx-draw`: what it opens, writers that fail, refused memory.

use draw_report::{OUT_OF_MEMORY, run};
use std::alloc::{AllocError, Global};
use std::io::{self, ErrorKind};
use text_fixtures::{Answered, Faulty, Fixed, Folder, wants_memory, words};
use verdict::{check, read_trace};

const USAGE: &str =
    "usage: rfx-draw [--svg | --html] [--script SCRIPT] [FILE] (in any order) | --legend\n";

/// What the program answers these words, or the error of having them, among these files.
fn answer_of(alloc: Global, words: io::Result<Vec<String>>, files: &Folder<'_>) -> Answered {
    let mut printed = Vec::new(alloc);
    let mut told = Vec::new(alloc);
    let status = run(alloc, words, files, &mut printed, &mut told);
    Answered::new(status, printed, told)
}

const TRACE: &[u8] = b"trace 1 1 0\n1 begin t1 lock m0\nend 1\n";

const SCRIPT: &[u8] = b"thread alice\nmutex accounts\n";

const TEXT: &str = " event  m0   t1\n     1  -    ┌ lock m0\n     1  end\n";

fn files_of(text: &[u8]) -> Folder<'_> {
    Folder::with_script(SCRIPT, text)
}

/// After the style.
const SVG_END: &str =
    "<text class=\"n\" x=\"48\" y=\"52\">1</text><path class=\"b\" d=\"M110 48m-7 0h14\"/><text class=\"t\" x=\"120\" y=\"52\">lock m0</text>\n<text class=\"n\" x=\"48\" y=\"70\">1</text><text x=\"54\" y=\"70\">end</text>\n</svg>\n";

/// A trace and a script are opened, and nothing for another command line.
#[test]
fn files_are_opened_where_they_are_named(rt: HostRuntime) {
    let files = files_of(TRACE);
    let usage = answer_of(
        rt.alloc(),
        words(rt.alloc(), &["rfx-draw", "f", "f"]),
        &files,
    );
    assert!(rt; usage.is(2, "", USAGE) && files.opened.get() == 0);
    let line = words(rt.alloc(), &["rfx-draw", "--script", "s", "f"]);
    assert!(rt; answer_of(rt.alloc(), line, &files).is(0, NAMED, "") && files.opened.get() == 2);
}

/// Readers that fail, and one without end.
#[test]
fn files_that_cannot_be_read_are_told(rt: HostRuntime) {
    for (file, told) in [
        ("broken", "rfx-draw: cannot read broken\n"),
        ("endless", "rfx-draw: line 1: fault 4: too long\n"),
    ] {
        let line = words(rt.alloc(), &["rfx-draw", file]);
        assert!(rt; answer_of(rt.alloc(), line, &files_of(TRACE)).is(1, "", told));
    }
}

/// Words that are no text are another command line; memory is reported where it was refused, for the words or for a
/// file.
#[test]
fn refused_words_and_files_are_told(rt: HostRuntime) {
    let files = files_of(TRACE);
    let no_text = Err(io::Error::from(ErrorKind::InvalidData));
    assert!(rt; answer_of(rt.alloc(), no_text, &files).is(2, "", USAGE));
    let none = Err(io::Error::from(AllocError));
    assert!(rt; answer_of(rt.alloc(), none, &files).is(1, "", OUT_OF_MEMORY));
    assert!(rt; files.opened.get() == 0);
    let line = words(rt.alloc(), &["rfx-draw", "refused"]);
    assert!(rt; answer_of(rt.alloc(), line, &files).is(1, "", "rfx-draw: out of memory\n"));
}

/// Whether a picture that a writer with this room can't hold is reported, and its beginning written.
fn is_told_of_room(alloc: Global, room: usize) -> bool {
    let mut out = Faulty::new(alloc, room, false);
    let mut err = Vec::new(alloc);
    let line = words(alloc, &["rfx-draw", "f"]);
    let status = run(alloc, line, &files_of(TRACE), &mut out, &mut err);
    let front = TEXT.as_bytes().get(..room).unwrap_or(b"");
    status == 1
        && out.held.as_slice() == front
        && err.as_slice() == "rfx-draw: cannot write\n".as_bytes()
}

#[test]
fn a_picture_that_cannot_be_written_is_told(rt: HostRuntime) {
    for room in 0..TEXT.len() {
        assert!(rt; is_told_of_room(rt.alloc(), room));
    }
}

/// What was written and isn't let go of is reported; and a message that can't be written changes no status.
#[test]
fn writers_that_fail_are_told(rt: HostRuntime) {
    let files = files_of(TRACE);
    let mut out = Faulty::stuck(rt.alloc());
    let mut err = Faulty::new(rt.alloc(), 9, false);
    let line = words(rt.alloc(), &["rfx-draw", "f"]);
    let status = run(rt.alloc(), line, &files, &mut out, &mut err);
    assert!(rt; status == 1 && out.held.as_slice() == TEXT.as_bytes());
    assert!(rt; err.held.as_slice() == "rfx-draw:".as_bytes());
}

/// Whether the picture was drawn and nothing told; or nothing was printed, and lack of memory told.
fn is_drawn_or_wants_memory(status: u8, out: &Fixed, err: &Fixed, end: &str) -> bool {
    if status == 0 {
        return out.bytes().ends_with(end.as_bytes()) && err.bytes().is_empty();
    }
    wants_memory(status, out, err, b"rfx-draw: ")
}

fn draws_or_wants_memory(alloc: Global, text: &[u8], line: &[&str], end: &str) -> bool {
    let mut out = Fixed::new();
    let mut err = Fixed::new();
    let files = files_of(text);
    let status = run(alloc, words(alloc, line), &files, &mut out, &mut err);
    is_drawn_or_wants_memory(status, &out, &err, end)
}

/// Passes too where any one allocation fails: nothing is printed then, and lack of memory is reported.
#[test]
fn memory_for_a_picture(rt: HostRuntime) {
    assert!(rt; draws_or_wants_memory(rt.alloc(), TRACE, &["rfx-draw", "f"], TEXT));
}

/// Passes too where any one allocation fails: nothing is printed then, and lack of memory is reported.
#[test]
fn memory_for_an_svg_picture(rt: HostRuntime) {
    assert!(rt; draws_or_wants_memory(rt.alloc(), TRACE, &["rfx-draw", "--svg", "f"], SVG_END));
}

/// With the names of the script.
const NAMED: &str = " event  accounts  alice\n     1  -         ┌ lock accounts\n     1  end\n";

/// Passes too where any one allocation fails: nothing is printed then, and lack of memory is reported.
#[test]
fn memory_for_a_picture_with_names(rt: HostRuntime) {
    assert!(rt;
        draws_or_wants_memory(
            rt.alloc(),
            TRACE,
            &["rfx-draw", "--script", "s", "f"],
            NAMED
        )
    );
}

const HISTORY: &[u8] = b"history 1 1 0\n1 begin t1 lock m0\n2 return t1 OK\nend 2\n";

/// The history's trace, in which the call takes effect.
const EXPLAINED: &str =
    " event  m0   t1\n     1  -    ┌ lock m0\n     2  t1   ● m0 OK\n     3  t1   └ OK\n     3  end\n";

/// Passes too where any one allocation fails: nothing is printed then, and lack of memory is reported.
#[test]
fn memory_for_a_history(rt: HostRuntime) {
    assert!(rt; draws_or_wants_memory(rt.alloc(), HISTORY, &["rfx-draw", "f"], EXPLAINED));
}

const ILLEGAL: &[u8] =
    b"history 1 1 0\n1 begin t1 lock m0\n2 return t1 OK\n3 return t1 OK\nend 3\n";

/// The history's trace up to its illegal line, and what the judge of histories says of that.
const ILLEGAL_EXPLAINED: &str = " event  m0   t1
     1  -    ┌ lock m0
     2  t1   ● m0 OK
     3  t1   └ OK
     4  t1   └ OK
     4  end
illegal at line 4 (event 3): t1 is in no call there
  | 3 return t1 OK
";

/// Passes too where any one allocation fails: nothing is printed then, and lack of memory is reported.
#[test]
fn memory_for_an_illegal_history(rt: HostRuntime) {
    assert!(rt; draws_or_wants_memory(rt.alloc(), ILLEGAL, &["rfx-draw", "f"], ILLEGAL_EXPLAINED));
}

/// A page that a writer can't hold is reported.
#[test]
fn a_page_that_cannot_be_written_is_told(rt: HostRuntime) {
    let mut out = Faulty::new(rt.alloc(), 9, false);
    let mut err = Vec::new(rt.alloc());
    let line = words(rt.alloc(), &["rfx-draw", "--html", "f"]);
    let status = run(rt.alloc(), line, &Folder::new(TRACE), &mut out, &mut err);
    assert!(rt; status == 1 && out.held.as_slice() == "<!DOCTYPE".as_bytes());
    assert!(rt; err.as_slice() == "rfx-draw: cannot write\n".as_bytes());
}

/// Texts that are no traces: they are refused as the judge of traces refuses them.
static FAULTY: [&str; 6] = [
    "",
    "trace 2 1 0\n1 begin t1 lock m0\n",
    "trace 2 1 0\n1 begin t3 lock m0\nend 1\n",
    "trace 2 1 0\n1 begins t1 lock m0\nend 1\n",
    "trace 65 1 0\nend 1\n",
    "trace 2 1 0\nend 1\nend 1\n",
];

/// Passes too where memory is refused.
#[test]
fn faults_are_those_of_the_judge(rt: HostRuntime) {
    for text in &FAULTY {
        let read = read_trace(rt.alloc(), text.as_bytes());
        let judged = check(rt.alloc(), text.as_bytes());
        assert!(rt;
            match (read, judged) {
                (Err(read), Err(judged)) => read == judged
                    || read.fault.number() == 6
                    || judged.fault.number() == 6,
                _ => false,
            }
        );
    }
}
