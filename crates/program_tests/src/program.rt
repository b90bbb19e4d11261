//! `rfx`: forms of its command lines, slow readers and writers, those that fail, and refused memory.

use crate::served::{is_served_or_wants_memory, is_told_of_room, served};
use memorymap::NoMem;
use report::{CANNOT_READ, CANNOT_WRITE, Form, OUT_OF_MEMORY, USAGE, form_of_words, serve};
use std::alloc::{AllocError, Global};
use std::sync::Wait;
use std::thread::Threads;
use text_fixtures::{Answered, Faulty, late_reader, slow_reader};

/// Command lines with a form.
static FORMS: [(&[&str], Form<'static>); 7] = [
    (&["rfx", "run", "f"], Form::Run("f")),
    (&["rfx", "run", ""], Form::Run("")),
    (&["rfx", "run", "help"], Form::Run("help")),
    (&["rfx", "threads", "f"], Form::Threads("f")),
    (&["rfx", "run", "--table", "f"], Form::Table("f")),
    (&["rfx", "check", "f"], Form::Check("f")),
    (&[], Form::Usage),
];

/// The place of the first command line of the table whose form is another.
fn first_other_form(alloc: Global) -> Result<Option<usize>, NoMem> {
    for (place, (words, want)) in FORMS.iter().enumerate() {
        if form_of_words(alloc, *words)? != *want {
            return Ok(Some(place));
        }
    }
    Ok(None)
}

#[test]
fn forms_are_told(rt: HostRuntime) -> Result<(), NoMem> {
    assert_eq!(rt; first_other_form(rt.alloc())?, None);
    Ok(())
}

#[test]
fn messages_are_as_documented(rt: HostRuntime) {
    assert!(rt; CANNOT_READ == "rfx: cannot read ");
    assert!(rt; CANNOT_WRITE == "rfx: cannot write\n");
    assert!(rt; OUT_OF_MEMORY == "rfx: out of memory\n");
    assert!(rt; USAGE == "usage: rfx run [--table] FILE | rfx threads FILE | rfx check FILE\n");
}

/// The row: one mutex is refused, taken, refused and released by one thread.
const ROW: &str =
    "thread a\nmutex m\ncall a unlock m\ncall a trylock m\ncall a trylock m\ncall a unlock m\n";

const ROW_TEXT: &str =
    "trace 1 1 0\n1 begin t1 unlock m0\n2 point t1 m0 unlock EPERM\n2 return t1 EPERM\n\
    3 begin t1 trylock m0\n6 point t1 m0 trylock OK\n11 return t1 OK\n\
    12 begin t1 trylock m0\n14 point t1 m0 trylock EBUSY\n15 return t1 EBUSY\n\
    16 begin t1 unlock m0\n22 point t1 m0 unlock OK\n23 return t1 OK\nend 23\n";

/// The same from a reader that gives a byte at a call.
fn run_slowly(
    rt: &(impl AllocGlobal + Threads + Wait + Sync),
    script: &[u8],
    fails: bool,
) -> Answered {
    served(rt, &Form::Run("f"), &mut slow_reader(script, fails))
}

#[test]
fn a_script_is_run(rt: HostRuntime) {
    assert!(rt; run_slowly(&rt, ROW.as_bytes(), false).is(0, ROW_TEXT, ""));
    let idle = b"# nothing runs\nmutex m\nthread a\n";
    assert!(rt; run_slowly(&rt, idle, false).is(0, "trace 1 1 0\nend 0\n", ""));
}

#[test]
fn a_reader_that_fails_is_told(rt: HostRuntime) {
    assert!(rt; run_slowly(&rt, ROW.as_bytes(), true).is(1, "", "rfx: cannot read f\n"));
}

/// A script that does nothing, with a comment that fills it up to this length.
fn script_of(alloc: Global, length: usize) -> Result<Vec<u8>, AllocError> {
    let mut script = Vec::new(alloc);
    script.extend_from_slice(b"thread a\nmutex m\n#")?;
    for _ in script.len() + 1..length {
        script.push(b'.')?;
    }
    script.push(b'\n')?;
    Ok(script)
}

/// The length of a script, the status that it is answered, what is reported of it, and how many of its bytes aren't
/// read: of 65,536 all are, and one more is read of what is too long.
static LENGTHS: [(usize, u8, &str, usize); 4] = [
    (65_535, 0, "", 0),
    (65_536, 0, "", 0),
    (65_537, 1, "rfx: line 1: fault 5: too long\n", 0),
    (65_540, 1, "rfx: line 1: fault 5: too long\n", 3),
];

#[test]
fn the_longest_script_is_run(rt: HostRuntime) -> Result<(), AllocError> {
    for (length, status, told, left) in &LENGTHS {
        let script = script_of(rt.alloc(), *length)?;
        let mut input = slow_reader(script.as_slice(), false);
        let served = served(&rt, &Form::Run("f"), &mut input);
        assert!(rt;
            served.status == *status && served.told.as_slice() == told.as_bytes(),
            "{length}"
        );
        assert_eq!(rt; input.left.len(), *left, "of {length}");
    }
    Ok(())
}

/// One thread is refused.
const REFUSED_CALL: &str = "thread a\nmutex m\ncall a unlock m\n";

/// A thread holds the mutex, another finds it owned; it is released, and the other takes it.
const PHASES: &str = "thread a\nthread b\nmutex m\ncall a trylock m\nphase\n\
    call b trylock m\nphase\ncall a unlock m\nphase\ncall b trylock m\n";

const PHASES_TEXT: &str = "replies a OK OK\nreplies b EBUSY OK\nmutex m 0000000000000002 b -\n";

/// Each of five threads owns a mutex, the last two find others owned, and the third lets go of its own.
const MANY: &str = "thread a\nthread b\nthread c\nthread d\nthread e\nmutexes m 5\n\
    call e lock m4\ncall d lock m3\ncall c lock m2\ncall b lock m1\ncall a lock m0\nphase\n\
    call d trylock m0\ncall e trylock m1\ncall c unlock m2\n";

const MANY_TEXT: &str = "replies a OK\nreplies b OK\nreplies c OK OK\n\
    replies d OK EBUSY\nreplies e OK EBUSY\nmutex m0 0000000000000001 a -\n\
    mutex m1 0000000000000002 b -\nmutex m2 0000000000000000 - -\n\
    mutex m3 0000000000000004 d -\nmutex m4 0000000000000005 e -\n";

/// A thread that dies makes none of its later calls. The mutex that it held goes to the next one as a dead owner's.
const SKIPPED: &str = "thread a\nthread b\nmutex m\ndie a 12\ncall a lock m\nphase\n\
    call a unlock m\ncall a lock m\nphase\ncall a lock m\ncall b lock m\n";

const SKIPPED_TEXT: &str =
    "replies a OK dead\nreplies b EOWNERDEAD\nmutex m 0000000040000002 b -\n";

/// A file for each form, and what is printed of it.
static PRINTED: [(Form<'static>, &str, &str); 4] = [
    (Form::Run("f"), ROW, ROW_TEXT),
    (
        Form::Table("f"),
        REFUSED_CALL,
        "thread a idle 0 EPERM\nmutex m 0000000000000000 - -\n",
    ),
    (Form::Threads("f"), PHASES, PHASES_TEXT),
    (Form::Check("f"), ROW_TEXT, "legal 4 points\n"),
];

#[test]
fn a_text_that_cannot_be_written_is_told(rt: HostRuntime) {
    for (form, script, text) in &PRINTED {
        for room in 0..text.len() {
            let mut input = slow_reader(script.as_bytes(), false);
            assert!(rt;
                is_told_of_room(&rt, form, &mut input, *text, room),
                "{room} of {text}"
            );
        }
    }
}

/// Passes too where any one allocation fails: nothing is printed then, and lack of memory is reported.
#[test]
fn memory(rt: HostRuntime) {
    for (form, script, text) in &PRINTED {
        let mut input = slow_reader(script.as_bytes(), false);
        assert!(rt;
            is_served_or_wants_memory(&rt, form, &mut input, *text),
            "of {text}"
        );
    }
}

/// A thread that dies, and five threads.
static PRINTED_OF_THREADS: [(&str, &str); 2] = [(SKIPPED, SKIPPED_TEXT), (MANY, MANY_TEXT)];

/// Passes too where any one allocation fails: the same.
#[test]
fn memory_for_threads(rt: HostRuntime) {
    for (script, text) in &PRINTED_OF_THREADS {
        let mut input = script.as_bytes();
        let is_so = is_served_or_wants_memory(&rt, &Form::Threads("f"), &mut input, *text);
        assert!(rt; is_so, "of {text}");
    }
}

/// Each of more than a million interruptions is tried again, of a read and of a write.
#[test]
fn interruptions_are_tried_again(rt: HostRuntime) {
    let mut input = late_reader(ROW.as_bytes(), 1_000_001);
    let mut out = Faulty::late(rt.alloc(), 1_000_001);
    let mut err = Vec::new(rt.alloc());
    let form = Form::Run("f");
    let status = serve(&rt, rt.alloc(), &form, &mut input, &mut out, &mut err);
    assert!(rt; status == 0 && out.held.as_slice() == ROW_TEXT.as_bytes() && err.is_empty());
}

#[test]
fn usage_is_told(rt: HostRuntime) {
    let mut input = slow_reader(ROW.as_bytes(), false);
    assert!(rt; served(&rt, &Form::Usage, &mut input).is(2, "", USAGE));
    assert!(rt; input.left.len() == ROW.len());
}

/// A file for each form, which is served in full where the writer lets go of it.
static SERVED: [(Form<'static>, &str); 5] = [
    (Form::Run("f"), ROW),
    (Form::Table("f"), ROW),
    (Form::Threads("f"), ROW),
    (Form::Check("f"), "trace 1 1 0\nend 0\n"),
    (Form::Check("f"), "trace 1 1 0\n1 return t1 OK\nend 1\n"),
];

/// Whether a writer that keeps its bytes back is reported as one that can't be written.
fn is_told_as_kept_back(
    rt: &(impl AllocGlobal + Threads + Wait + Sync),
    form: &Form<'_>,
    file: &str,
) -> bool {
    let mut input = file.as_bytes();
    let mut out = Faulty::stuck(rt.alloc());
    let mut err = Vec::new(rt.alloc());
    let status = serve(rt, rt.alloc(), form, &mut input, &mut out, &mut err);
    status == 1 && !out.held.is_empty() && err.as_slice() == CANNOT_WRITE.as_bytes()
}

#[test]
fn bytes_that_are_kept_back_are_told(rt: HostRuntime) {
    for (form, file) in &SERVED {
        assert!(rt; is_told_as_kept_back(&rt, form, *file), "of {file}");
    }
}
