//! `rfx` from the words of its command line on: what it opens, words that aren't text, refused memory.

use crate::served::is_printed_or_wants_memory;
use report::{OUT_OF_MEMORY, USAGE, run};
use std::alloc::AllocError;
use std::io::{self, ErrorKind};
use std::sync::Wait;
use std::thread::Threads;
use text_fixtures::{Answered, Fixed, Folder, words};

/// What the program answers these words, or the error of having them, among these files.
fn answered(
    rt: &(impl AllocGlobal + Threads + Wait + Sync),
    words: io::Result<Vec<String>>,
    files: &Folder<'_>,
) -> Answered {
    let mut printed = Vec::new(rt.alloc());
    let mut told = Vec::new(rt.alloc());
    let status = run(rt, rt.alloc(), words, files, &mut printed, &mut told);
    Answered::new(status, printed, told)
}

const SCRIPT: &str = "thread a\nmutex m\ncall a unlock m\n";

const TRACE: &str = "trace 1 1 0\n1 begin t1 unlock m0\n2 point t1 m0 unlock EPERM\n\
    2 return t1 EPERM\nend 2\n";

/// One file is opened where one is named, and none by another command line.
#[test]
fn a_file_is_opened_where_one_is_named(rt: HostRuntime) {
    let files = Folder::new(SCRIPT.as_bytes());
    let usage = answered(&rt, words(rt.alloc(), &["rfx", "run"]), &files);
    assert!(rt; usage.is(2, "", USAGE) && files.opened.get() == 0);
    let run = answered(&rt, words(rt.alloc(), &["rfx", "run", "f"]), &files);
    assert!(rt; run.is(0, TRACE, "") && files.opened.get() == 1);
}

#[test]
fn words_that_are_no_text_are_another_command_line(rt: HostRuntime) {
    let files = Folder::new(SCRIPT.as_bytes());
    let words = Err(io::Error::from(ErrorKind::InvalidData));
    assert!(rt; answered(&rt, words, &files).is(2, "", USAGE));
}

/// Memory is reported where it was refused, for the words or for a file.
#[test]
fn refused_words_and_files_are_told(rt: HostRuntime) {
    let files = Folder::new(SCRIPT.as_bytes());
    let line = words(rt.alloc(), &["rfx", "run", "refused"]);
    assert!(rt; answered(&rt, line, &files).is(1, "", OUT_OF_MEMORY));
    let none = Err(io::Error::from(AllocError));
    assert!(rt; answered(&rt, none, &files).is(1, "", OUT_OF_MEMORY));
}

/// Passes too where any one allocation fails: nothing is printed then, and lack of memory is reported.
#[test]
fn memory_for_a_command_line(rt: HostRuntime) {
    let files = Folder::new(SCRIPT.as_bytes());
    let mut out = Fixed::new();
    let mut err = Fixed::new();
    let line = words(rt.alloc(), &["rfx", "run", "f"]);
    let status = run(&rt, rt.alloc(), line, &files, &mut out, &mut err);
    assert!(rt; is_printed_or_wants_memory(status, &out, &err, TRACE));
}
