//! `rfx-judge`: what it makes, words that aren't text, writers that fail, refused memory.

use judge_report::{Maker, OUT_OF_MEMORY, run};
use std::alloc::{AllocError, Global};
use std::cell::Cell;
use std::io::{self, ErrorKind};
use text_fixtures::{Answered, Faulty, Folder, words};

/// A place for files, where only `out` and `out.1` can be made, and only with one text filled. `old.1` and `old.2` are
/// there, and `kept.1`, which can't be removed. It counts what was asked for, what was filled, and what was removed.
#[derive(Drop)]
struct Shelf<'a> {
    alloc: Global,
    text: &'a str,
    made: Cell<usize>,
    filled: Cell<usize>,
    removed: Cell<usize>,
}

impl<'a> Shelf<'a> {
    fn new(alloc: Global, text: &'a str) -> Shelf<'a> {
        Shelf {
            alloc,
            text,
            made: Cell::new(0),
            filled: Cell::new(0),
            removed: Cell::new(0),
        }
    }
}

impl Maker for Shelf<'_> {
    type File = Vec<u8>;

    fn make(&self, name: &str) -> io::Result<Vec<u8>> {
        self.made.set(self.made.get().saturating_add(1));
        match name {
            "out" | "out.1" => Ok(Vec::new(self.alloc)),
            _ => Err(io::Error::from(ErrorKind::NotFound)),
        }
    }

    fn fill(&self, _name: &str, file: Vec<u8>) -> io::Result<()> {
        if file.as_slice() != self.text.as_bytes() {
            return Err(io::Error::from(ErrorKind::InvalidData));
        }
        self.filled.set(self.filled.get().saturating_add(1));
        Ok(())
    }

    fn remove(&self, name: &str) -> io::Result<bool> {
        match name {
            "old.1" | "old.2" => {
                self.removed.set(self.removed.get().saturating_add(1));
                Ok(true)
            }
            "kept.1" => Err(io::Error::from(ErrorKind::PermissionDenied)),
            _ => Ok(false),
        }
    }
}

/// What is answered for words that may not be had.
fn answer_of(
    alloc: Global,
    line: io::Result<Vec<String>>,
    history: &[u8],
    shelf: &Shelf<'_>,
) -> Answered {
    let mut out = Vec::new(alloc);
    let mut err = Vec::new(alloc);
    let status = run(
        alloc,
        line,
        &Folder::new(history),
        shelf,
        &mut out,
        &mut err,
    );
    Answered::new(status, out, err)
}

const HISTORY: &[u8] = b"history 3 1 0
1 begin t1 lock m0
2 return t1 OK
3 doom t1
4 begin t2 lock m0
5 return t2 EOWNERDEAD
6 begin t2 consistent m0
7 return t2 OK
8 begin t2 unlock m0
9 return t2 OK
10 begin t3 lock m0
11 return t3 EOWNERDEAD
end 11
";

const TEXT: &str =
    "illegal at line 12 (event 11): no order of the calls gives t3 EOWNERDEAD for its lock of m0\n  | 11 return t3 EOWNERDEAD\n  = t3 could be told OK here\n  = see line 4 (event 3): t1 may have owned m0 when it died\n  | 3 doom t1\n  = see line 6 (event 5): t2 was told EOWNERDEAD for its lock of m0\n  | 5 return t2 EOWNERDEAD\n  = see line 8 (event 7): t2 was told OK for its consistent of m0\n  | 7 return t2 OK\n  = see line 10 (event 9): t2 was told OK for its unlock of m0\n  | 9 return t2 OK\n  = see line 11 (event 10): the call began\n  | 10 begin t3 lock m0\n";

/// There is one moment for each point; the doomed thread dies before its mutex is handed on.
const TRACE: &str = "trace 3 1 0
1 begin t1 lock m0
2 point t1 m0 lock OK
3 return t1 OK
4 kill t1
5 death t1 m0
6 begin t2 lock m0
7 point t2 m0 lock EOWNERDEAD
8 return t2 EOWNERDEAD
9 begin t2 consistent m0
10 point t2 m0 consistent OK
11 return t2 OK
12 begin t2 unlock m0
13 point t2 m0 unlock OK
14 return t2 OK
15 begin t3 lock m0
16 return t3 EOWNERDEAD
end 16
";

const USAGE: &str = "usage: rfx-judge [--waiting] [--trace OUT | --windows OUT] FILE\n";

/// Of an illegal history a trace is written that ends with its illegal line.
#[test]
fn a_trace_of_an_illegal_history_is_written(rt: HostRuntime) {
    let shelf = Shelf::new(rt.alloc(), TRACE);
    let line = words(rt.alloc(), &["rfx-judge", "--trace", "out", "f"]);
    let answered = answer_of(rt.alloc(), line, HISTORY, &shelf);
    assert!(rt; answered.is(1, TEXT, "") && shelf.filled.get() == 1);
}

/// An illegal history has no window: those of another run are removed, and one that can't be is reported after the verdict.
#[test]
fn older_windows_are_removed(rt: HostRuntime) {
    let shelf = Shelf::new(rt.alloc(), "");
    let line = words(rt.alloc(), &["rfx-judge", "--windows", "old", "f"]);
    let answered = answer_of(rt.alloc(), line, HISTORY, &shelf);
    assert!(rt; answered.is(1, TEXT, "") && shelf.removed.get() == 2);
    let line = words(rt.alloc(), &["rfx-judge", "--windows", "kept", "f"]);
    let answered = answer_of(rt.alloc(), line, HISTORY, &shelf);
    assert!(rt; answered.is(1, TEXT, "rfx-judge: cannot remove kept.1\n"));
}

/// Nothing is written by another command line, nor over the history.
#[test]
fn nothing_is_written_over_the_history(rt: HostRuntime) {
    let shelf = Shelf::new(rt.alloc(), "");
    let line = words(rt.alloc(), &["rfx-judge", "--trace", "out", "f", "f"]);
    assert!(rt; answer_of(rt.alloc(), line, HISTORY, &shelf).is(2, "", USAGE));
    let line = words(rt.alloc(), &["rfx-judge", "--trace", "f", "f"]);
    assert!(rt;
        answer_of(rt.alloc(), line, HISTORY, &shelf).is(
            2,
            "",
            "rfx-judge: the trace would be written over f\n",
        )
    );
    assert!(rt; shelf.made.get() == 0);
}

/// Words that are no text are another command line; memory is reported where it was refused, for the words or for a
/// file.
#[test]
fn refused_words_and_files_are_told(rt: HostRuntime) {
    let shelf = Shelf::new(rt.alloc(), "");
    let no_text = Err(io::Error::from(ErrorKind::InvalidData));
    assert!(rt; answer_of(rt.alloc(), no_text, HISTORY, &shelf).is(2, "", USAGE));
    let none = Err(io::Error::from(AllocError));
    assert!(rt; answer_of(rt.alloc(), none, HISTORY, &shelf).is(1, "", OUT_OF_MEMORY));
    let line = words(rt.alloc(), &["rfx-judge", "refused"]);
    assert!(rt;
        answer_of(rt.alloc(), line, HISTORY, &shelf).is(1, "", "rfx-judge: out of memory\n")
    );
}

/// Whether a judgement that a writer with this room can't hold is reported, and its beginning written.
fn is_told_of_room(alloc: Global, room: usize) -> bool {
    let mut out = Faulty::new(alloc, room, false);
    let mut err = Vec::new(alloc);
    let line = words(alloc, &["rfx-judge", "f"]);
    let shelf = Shelf::new(alloc, "");
    let status = run(
        alloc,
        line,
        &Folder::new(HISTORY),
        &shelf,
        &mut out,
        &mut err,
    );
    let front = TEXT.as_bytes().get(..room).unwrap_or(b"");
    status == 1
        && out.held.as_slice() == front
        && err.as_slice() == "rfx-judge: cannot write\n".as_bytes()
}

#[test]
fn a_judgement_that_cannot_be_written_is_told(rt: HostRuntime) {
    for room in 0..TEXT.len() {
        assert!(rt; is_told_of_room(rt.alloc(), room));
    }
}

const LEGAL: &[u8] = b"history 2 1 0
10 begin t1 lock m0
20 return t1 OK
30 begin t1 unlock m0
40 return t1 OK
end 40
";

/// There is one moment for each point.
const CERTIFICATE: &str = "trace 2 1 0
1 begin t1 lock m0
2 point t1 m0 lock OK
3 return t1 OK
4 begin t1 unlock m0
5 point t1 m0 unlock OK
6 return t1 OK
end 6
";

#[test]
fn a_certificate_is_written(rt: HostRuntime) {
    let shelf = Shelf::new(rt.alloc(), CERTIFICATE);
    let line = words(rt.alloc(), &["rfx-judge", "--trace", "out", "f"]);
    let answered = answer_of(rt.alloc(), line, LEGAL, &shelf);
    assert!(rt; answered.is(0, "legal 2 points\n", "") && shelf.filled.get() == 1);
}

#[test]
fn a_certificate_that_cannot_be_written_is_told(rt: HostRuntime) {
    let shelf = Shelf::new(rt.alloc(), CERTIFICATE);
    let line = words(rt.alloc(), &["rfx-judge", "--trace", "none", "f"]);
    let answered = answer_of(rt.alloc(), line, LEGAL, &shelf);
    assert!(rt; answered.is(1, "legal 2 points\n", "rfx-judge: cannot write none\n"));
    let stuck = Shelf::new(rt.alloc(), "");
    let line = words(rt.alloc(), &["rfx-judge", "--trace", "out", "f"]);
    let answered = answer_of(rt.alloc(), line, LEGAL, &stuck);
    assert!(rt; answered.is(1, "legal 2 points\n", "rfx-judge: cannot write out\n"));
}
