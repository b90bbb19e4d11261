//! Lines of histories, each with what it is read as, written out by hand from the format.

use facts::{Begun, Fact};
use histories::{Entry, Fault, Head, HistoryFault, Read, head_of, line_of};
use lockword::{Reply, Tid};
use posixmutex::Operation;
use std::test::Fail;

/// Two threads, two mutexes and a condition variable.
const HEAD: Head = Head {
    threads: 2,
    mutexes: 2,
    conditions: 1,
};

/// Lines and their faults.
static ILL: [(&str, Fault); 16] = [
    ("1 doom x1", Fault::UnknownWord),
    ("1 doom t1 m0", Fault::UnknownWord),
    ("01 doom t1", Fault::UnknownWord),
    ("1  doom t1", Fault::UnknownWord),
    ("1 begin t1 lock c0 m0", Fault::UnknownWord),
    ("1 begin t1 wait m0", Fault::UnknownWord),
    ("1 begin t1 death m0", Fault::UnknownWord),
    ("1 return t1", Fault::UnknownWord),
    ("1 return t1 FINE", Fault::UnknownWord),
    ("", Fault::UnknownWord),
    ("0 doom t1", Fault::OutOfRange),
    ("9223372036854775809 doom t1", Fault::OutOfRange),
    ("1 doom t3", Fault::OutOfRange),
    ("1 begin t1 lock m2", Fault::OutOfRange),
    ("1 begin t1 wait c1 m0", Fault::OutOfRange),
    ("1 point t3 m0 lock OK", Fault::OutOfRange),
];

/// Lines that say nothing that is seen.
static HIDDEN: [&str; 5] = [
    "7 point t1 m0 lock OK",
    "7 death t1 m0",
    "7 sleep t2 c0",
    "7 wake t2",
    "7 move t2 m1",
];

fn first_not_ill() -> Option<&'static str> {
    for (text, fault) in &ILL {
        if line_of(&HEAD, text.as_bytes()) != Err(*fault) {
            return Some(text);
        }
    }
    None
}

fn first_not_hidden() -> Option<&'static str> {
    for text in &HIDDEN {
        if line_of(&HEAD, text.as_bytes()) != Ok(Read::Told(7, None)) {
            return Some(text);
        }
    }
    None
}

#[test]
fn ill_lines(rt: HostRuntime) {
    assert_eq!(rt; first_not_ill(), None);
    assert_eq!(rt; line_of(&HEAD, b"1 doom t\xff"), Err(Fault::NotUtf8));
}

#[test]
fn hidden_lines(rt: HostRuntime) {
    assert_eq!(rt; first_not_hidden(), None);
}

/// What the line with event 7 tells.
fn told(text: &str) -> Option<Entry> {
    match line_of(&HEAD, text.as_bytes()) {
        Ok(Read::Told(7, entry)) => entry,
        _ => None,
    }
}

#[test]
fn lines_that_tell(rt: HostRuntime) -> Result<(), Fail> {
    let second = Tid::new(2).ok_or("no thread 2")?;
    let lock = Begun {
        operation: Operation::Lock,
        mutex: 1,
        condition: None,
    };
    let wait = Begun {
        operation: Operation::Wait,
        mutex: 1,
        condition: Some(0),
    };
    assert_eq!(rt;
        told("7 begin t2 lock m1"),
        Some(Entry::Told(Fact::Begin(second, lock)))
    );
    assert_eq!(rt;
        told("7 begin t2 wait c0 m1"),
        Some(Entry::Told(Fact::Begin(second, wait)))
    );
    assert_eq!(rt;
        told("7 return t2 X_HELD"),
        Some(Entry::Told(Fact::Return(second, Reply::XHELD)))
    );
    assert_eq!(rt; told("7 kill t2"), Some(Entry::Told(Fact::Kill(second))));
    assert_eq!(rt; told("7 doom t2"), Some(Entry::Doom(second)));
    assert_eq!(rt; told("7 reaped t2"), Some(Entry::Told(Fact::Reap(second))));
    assert_eq!(rt; told("7 renew t2"), Some(Entry::Told(Fact::Renew(second))));
    assert_eq!(rt;
        line_of(&HEAD, b"end 9223372036854775808"),
        Ok(Read::End(9223372036854775808))
    );
    Ok(())
}

#[test]
fn first_lines(rt: HostRuntime) {
    let most = Head {
        threads: 64,
        mutexes: 65536,
        conditions: 65536,
    };
    assert_eq!(rt; head_of(b"history 64 65536 65536"), Ok(most));
    assert_eq!(rt; head_of(b"trace 2 2 1"), Ok(HEAD));
    assert_eq!(rt; head_of(b"history 2 2"), Err(Fault::UnknownWord));
    assert_eq!(rt; head_of(b"history 65 1 0"), Err(Fault::OutOfRange));
    assert_eq!(rt; head_of(b"history 1 65537 0"), Err(Fault::OutOfRange));
    assert_eq!(rt; head_of(b"history 1 0 0"), Err(Fault::OutOfRange));
    assert_eq!(rt; head_of(b"\xff"), Err(Fault::NotUtf8));
}

/// Each fault, and the text of it at line 7.
static TEXTS: [(Fault, &str); 5] = [
    (Fault::NotUtf8, "line 7: fault 1: not UTF-8"),
    (Fault::UnknownWord, "line 7: fault 2: unknown word"),
    (Fault::OutOfRange, "line 7: fault 3: number out of range"),
    (Fault::Cut, "line 7: fault 5: cut"),
    (Fault::OutOfMemory, "line 7: fault 6: out of memory"),
];

#[test]
fn texts_of_faults(rt: HostRuntime) -> Result<(), Fail> {
    for (fault, text) in &TEXTS {
        let told = HistoryFault {
            line: 7,
            fault: *fault,
        };
        assert_eq!(rt; format!(in rt.alloc(); "{told}")?.as_str(), *text);
        assert_eq!(rt; format!(in rt.alloc(); "{fault}")?.as_str(), fault.words());
    }
    Ok(())
}
