//! `rfx-explain`: words that aren't text, writers that fail, refused memory.

use explain::{OUT_OF_MEMORY, run};
use std::alloc::{AllocError, Global};
use std::io::{self, ErrorKind};
use text_fixtures::{Answered, Faulty, Fixed, Folder, words};

/// What the program answers these words, or the error of having them, where `f` has these bytes.
fn answer_of(alloc: Global, words: io::Result<Vec<String>>, text: &[u8]) -> Answered {
    let mut printed = Vec::new(alloc);
    let mut told = Vec::new(alloc);
    let status = run(alloc, words, &Folder::new(text), &mut printed, &mut told);
    Answered::new(status, printed, told)
}

/// Whether the explanation of these bytes was this, and nothing told; or nothing was printed, and lack of memory
/// told.
fn explains_or_wants_memory(alloc: Global, bytes: &[u8], status: u8, text: &str) -> bool {
    let mut out = Fixed::new();
    let mut err = Fixed::new();
    let line = words(alloc, &["rfx-explain", "f"]);
    let ended = run(alloc, line, &Folder::new(bytes), &mut out, &mut err);
    if out.bytes() == text.as_bytes() {
        return ended == status && err.bytes().is_empty();
    }
    ended == 1 && out.bytes().is_empty() && err.bytes() == OUT_OF_MEMORY.as_bytes()
}

const SCRIPT: &[u8] = b"tread a\n";

const TEXT: &str =
    "f: line 1: fault 2: unknown word (a script for `rfx run`)\n  | tread a\n  | ^^^^^\n  = expected one of `process` `thread` `mutex` `mutexes` `cond` `call` `begin` `step` `kill` `killall` `renew` `remake` `leave` `expire` `decline` `spare` `go` `locks`\n  = did you mean `thread`?\n";

const USAGE: &str = "usage: rfx-explain FILE\n";

/// Words that are no text are another command line; memory is reported where it was refused, for the words or for a
/// file.
#[test]
fn refused_words_and_files_are_told(rt: HostRuntime) {
    let no_text = Err(io::Error::from(ErrorKind::InvalidData));
    assert!(rt; answer_of(rt.alloc(), no_text, SCRIPT).is(2, "", USAGE));
    let none = Err(io::Error::from(AllocError));
    assert!(rt; answer_of(rt.alloc(), none, SCRIPT).is(1, "", OUT_OF_MEMORY));
    let line = words(rt.alloc(), &["rfx-explain", "refused"]);
    assert!(rt; answer_of(rt.alloc(), line, SCRIPT).is(1, "", "rfx-explain: out of memory\n"));
}

/// Whether an explanation that a writer with this room can't hold is reported, and its beginning written.
fn is_told_of_room(alloc: Global, room: usize) -> bool {
    let mut out = Faulty::new(alloc, room, false);
    let mut err = Vec::new(alloc);
    let line = words(alloc, &["rfx-explain", "f"]);
    let status = run(alloc, line, &Folder::new(SCRIPT), &mut out, &mut err);
    let front = TEXT.as_bytes().get(..room).unwrap_or(b"");
    status == 1
        && out.held.as_slice() == front
        && err.as_slice() == "rfx-explain: cannot write\n".as_bytes()
}

#[test]
fn an_explanation_that_cannot_be_written_is_told(rt: HostRuntime) {
    for room in 0..TEXT.len() {
        assert!(rt; is_told_of_room(rt.alloc(), room));
    }
}

/// What was written and isn't let go of is reported; and a message that can't be written changes no status.
#[test]
fn writers_that_fail_are_told(rt: HostRuntime) {
    let mut out = Faulty::stuck(rt.alloc());
    let mut err = Faulty::new(rt.alloc(), 12, false);
    let line = words(rt.alloc(), &["rfx-explain", "f"]);
    let status = run(rt.alloc(), line, &Folder::new(SCRIPT), &mut out, &mut err);
    assert!(rt; status == 1 && out.held.as_slice() == TEXT.as_bytes());
    assert!(rt; err.held.as_slice() == "rfx-explain:".as_bytes());
}

/// Passes too where any one allocation fails: nothing is printed then, and lack of memory is reported.
#[test]
fn memory_for_an_explanation(rt: HostRuntime) {
    assert!(rt; explains_or_wants_memory(rt.alloc(), SCRIPT, 1, TEXT));
}

/// Passes too where any one allocation fails: nothing is printed then, and lack of memory is reported.
#[test]
fn memory_for_a_legal_trace(rt: HostRuntime) {
    assert!(rt;
        explains_or_wants_memory(
            rt.alloc(),
            b"trace 1 1 1\n1 begin t1 lock m0\n2 point t1 m0 lock OK\n3 kill t1\n4 death t1 m0\n5 reaped t1\n6 renew t1\n7 begin t1 lock m0\n8 point t1 m0 lock EOWNERDEAD\n9 return t1 EOWNERDEAD\n10 begin t1 wait c0 m0\n11 point t1 m0 unlock OK\nend 11\n",
            0,
            "f: a legal trace, of 3 points\nf: line 12: no run has this: the wait makes its mutex unusable\n  | 11 point t1 m0 unlock OK\n  = a run's wait replies X_STATE while its mutex is inconsistent\n  = see line 5:\n  | 4 death t1 m0\n",
        )
    );
}
