//! Traces with a line that doesn't fit, each the smallest with its reason, and the text of the reason.

use crate::built::joined;
use crate::traces::taken_and_one_more;
use facts::Begun;
use lockword::{Reply, Tid};
use posixmutex::{Object, Operation};
use std::alloc::{AllocError, Global};
use std::process::Abort;
use std::test::Fail;
use verdict::{Fault, Finding, Misfit, TraceFault, TraceMisfit, Verdict, check, explain};

/// Why a line doesn't fit, how that is recorded after the line's number, and the smallest traces with such a line:
/// their lines after the first, and which line is the first that doesn't fit.
#[derive(Clone, Copy)]
struct Reason {
    misfit: Misfit,
    text: &'static str,
    traces: &'static [(&'static str, usize)],
}

/// A lock of the first mutex.
const LOCK: Begun = Begun {
    operation: Operation::Lock,
    mutex: 0,
    condition: None,
};

/// A wait on the condition variable, with the second mutex.
const WAIT: Begun = Begun {
    operation: Operation::Wait,
    mutex: 1,
    condition: Some(0),
};

/// About a mutex of which nothing was recorded.
const UNTOUCHED: Object = Object {
    owner: None,
    inconsistent: false,
    unusable: false,
};

const INCONSISTENT: Object = Object {
    inconsistent: true,
    ..UNTOUCHED
};

const UNUSABLE: Object = Object {
    unusable: true,
    ..UNTOUCHED
};

/// Indexed by the numbers of events.
const OF_EVENTS: [Reason; 5] = [
    Reason {
        misfit: Misfit::EventFalls { latest: 2 },
        text: "the event is before event 2, of which a line was told",
        traces: &[
            ("2 begin t1 lock m0\n1 kill t2\nend 2", 3),
            // The number of the event comes before what the thread does.
            ("2 begin t1 lock m0\n1 return t2 OK\nend 2", 3),
        ],
    },
    Reason {
        misfit: Misfit::EventDecided,
        text: "the event has a point or a death already",
        traces: &[(
            "1 begin t1 lock m0\n1 point t1 m0 lock OK\n1 return t1 OK\n1 begin t1 unlock m0\n1 point t1 m0 unlock OK\nend 1",
            6,
        )],
    },
    Reason {
        misfit: Misfit::KillShares,
        text: "a kill is an event of its own, and this event has a line already",
        traces: &[("1 begin t1 lock m0\n1 kill t1\nend 1", 3)],
    },
    Reason {
        misfit: Misfit::EventKilled,
        text: "the event is a kill, and has no other line",
        traces: &[("1 kill t1\n1 reaped t1\nend 1", 3)],
    },
    Reason {
        misfit: Misfit::EndFalls { latest: 2 },
        text: "the end is before event 2, of which a line was told",
        traces: &[("2 begin t1 lock m0\nend 1", 3)],
    },
];

/// By what was recorded of the thread.
const OF_THREADS: [Reason; 8] = [
    Reason {
        misfit: Misfit::InCall { call: LOCK },
        text: "the thread is in a call already: lock of m0",
        traces: &[("1 begin t1 lock m0\n2 begin t1 unlock m0\nend 2", 3)],
    },
    Reason {
        misfit: Misfit::InCall { call: WAIT },
        text: "the thread is in a call already: wait of m1",
        traces: &[("1 begin t1 wait c0 m1\n2 begin t1 lock m0\nend 2", 3)],
    },
    Reason {
        misfit: Misfit::NoCall,
        text: "the thread is in no call",
        traces: &[
            ("1 point t1 m0 lock OK\nend 1", 2),
            ("1 sleep t1 m0\nend 1", 2),
            ("1 return t1 OK\nend 1", 2),
        ],
    },
    Reason {
        misfit: Misfit::Asleep,
        text: "the thread is asleep",
        traces: &[
            (
                "1 begin t1 lock m0\n2 sleep t1 m0\n3 point t1 m0 lock OK\nend 3",
                4,
            ),
            ("1 begin t1 lock m0\n2 sleep t1 m0\n3 sleep t1 m0\nend 3", 4),
            (
                "1 begin t1 lock m0\n2 point t1 m0 lock OK\n3 sleep t1 m0\n4 return t1 OK\nend 4",
                5,
            ),
        ],
    },
    Reason {
        misfit: Misfit::Awake,
        text: "the thread isn't asleep",
        traces: &[
            ("1 wake t1\nend 1", 2),
            ("1 begin t1 lock m0\n2 move t1 m0\nend 2", 3),
        ],
    },
    Reason {
        misfit: Misfit::Killed,
        text: "the thread was killed",
        traces: &[
            ("1 kill t1\n2 begin t1 lock m0\nend 2", 3),
            // A kill ends sleep.
            (
                "1 begin t1 lock m0\n2 sleep t1 m0\n3 kill t1\n4 wake t1\nend 4",
                5,
            ),
            ("1 kill t1\n2 kill t1\nend 2", 3),
        ],
    },
    Reason {
        misfit: Misfit::Reaped,
        text: "the thread was reaped",
        traces: &[("1 kill t1\n2 reaped t1\n3 reaped t1\nend 3", 4)],
    },
    Reason {
        misfit: Misfit::Alive,
        text: "the thread lives",
        traces: &[
            ("1 death t1 m0\nend 1", 2),
            ("1 begin t1 lock m0\n2 reaped t1\nend 2", 3),
        ],
    },
];

/// By the points of the thread's call.
const OF_CALLS: [Reason; 9] = [
    Reason {
        misfit: Misfit::OtherMutex { mutex: 0 },
        text: "the thread's call is on m0",
        traces: &[("1 begin t1 lock m0\n2 point t1 m1 lock OK\nend 2", 3)],
    },
    Reason {
        misfit: Misfit::OtherOperation {
            operation: Operation::Lock,
        },
        text: "a call of lock has no such point",
        traces: &[("1 begin t1 lock m0\n2 point t1 m0 trylock OK\nend 2", 3)],
    },
    // A wait releases its mutex before it locks it.
    Reason {
        misfit: Misfit::OtherOperation {
            operation: Operation::Wait,
        },
        text: "a call of wait has no such point",
        traces: &[("1 begin t1 wait c0 m0\n2 point t1 m0 lock OK\nend 2", 3)],
    },
    // With a time limit it is recorded as a wait.
    Reason {
        misfit: Misfit::OtherOperation {
            operation: Operation::TimedWait,
        },
        text: "a call of timedwait has no such point",
        traces: &[(
            "1 begin t1 timedwait c0 m0\n2 point t1 m0 timedwait EPERM\nend 2",
            3,
        )],
    },
    Reason {
        misfit: Misfit::ReleaseRefused,
        text: "the unlock of a wait replies OK",
        traces: &[(
            "1 begin t1 wait c0 m0\n2 point t1 m0 unlock EPERM\nend 2",
            3,
        )],
    },
    Reason {
        misfit: Misfit::Released,
        text: "the wait has released its mutex, and locks it next",
        traces: &[
            (
                "1 begin t1 lock m0\n2 point t1 m0 lock OK\n3 return t1 OK\n4 begin t1 wait c0 m0\n5 point t1 m0 unlock OK\n6 point t1 m0 wait EPERM\nend 6",
                7,
            ),
            (
                "1 begin t1 lock m0\n2 point t1 m0 lock OK\n3 return t1 OK\n4 begin t1 wait c0 m0\n5 point t1 m0 unlock OK\n6 return t1 OK\nend 6",
                7,
            ),
        ],
    },
    Reason {
        misfit: Misfit::Decided {
            reply: Reply::XRACED,
        },
        text: "the call has its points already, and the last replied X_RACED",
        traces: &[(
            "1 begin t1 trylock m0\n2 point t1 m0 trylock X_RACED\n3 point t1 m0 trylock OK\nend 3",
            4,
        )],
    },
    Reason {
        misfit: Misfit::Undecided,
        text: "the call has had no point yet",
        traces: &[("1 begin t1 lock m0\n2 return t1 OK\nend 2", 3)],
    },
    Reason {
        misfit: Misfit::OtherReply { reply: Reply::OK },
        text: "the call's point replied OK",
        traces: &[
            (
                "1 begin t1 lock m0\n2 point t1 m0 lock OK\n3 return t1 EBUSY\nend 3",
                4,
            ),
            // The reply of a wait is that of its lock.
            (
                "1 begin t1 lock m0\n2 point t1 m0 lock OK\n3 return t1 OK\n4 begin t1 wait c0 m0\n5 point t1 m0 unlock OK\n6 kill t2\n7 point t1 m0 lock OK\n8 return t1 EOWNERDEAD\nend 8",
                9,
            ),
        ],
    },
];

/// Indexed by the mutexes, which nobody owns.
const OF_MUTEXES: [Reason; 9] = [
    Reason {
        misfit: Misfit::NotAllowed {
            object: UNTOUCHED,
            reply: Reply::EBUSY,
        },
        text: "the mutex doesn't allow the reply EBUSY: nobody owns it",
        traces: &[("1 begin t1 lock m0\n2 point t1 m0 lock EBUSY\nend 2", 3)],
    },
    Reason {
        misfit: Misfit::NotAllowed {
            object: INCONSISTENT,
            reply: Reply::OK,
        },
        text: "the mutex doesn't allow the reply OK: nobody owns it, it is inconsistent",
        traces: &[(
            "1 begin t1 lock m0\n2 point t1 m0 lock OK\n3 kill t1\n4 death t1 m0\n5 begin t2 lock m0\n6 point t2 m0 lock OK\nend 6",
            7,
        )],
    },
    Reason {
        misfit: Misfit::NotAllowed {
            object: UNUSABLE,
            reply: Reply::OK,
        },
        text: "the mutex doesn't allow the reply OK: nobody owns it, it is unusable",
        traces: &[(
            "1 begin t1 lock m0\n2 point t1 m0 lock OK\n3 kill t1\n4 death t1 m0\n5 begin t2 lock m0\n6 point t2 m0 lock EOWNERDEAD\n7 return t2 EOWNERDEAD\n8 begin t2 unlock m0\n9 point t2 m0 unlock OK\n10 return t2 OK\n11 begin t2 lock m0\n12 point t2 m0 lock OK\nend 12",
            13,
        )],
    },
    // Only an unusable one is reinitialised.
    Reason {
        misfit: Misfit::NotAllowed {
            object: UNTOUCHED,
            reply: Reply::OK,
        },
        text: "the mutex doesn't allow the reply OK: nobody owns it",
        traces: &[("1 begin t1 reinit m0\n1 point t1 m0 reinit OK\nend 1", 3)],
    },
    Reason {
        misfit: Misfit::NotOwner { object: UNTOUCHED },
        text: "the thread doesn't own the mutex: nobody owns it",
        traces: &[("1 kill t1\n2 death t1 m0\nend 2", 3)],
    },
    // The mutex has no owner, or is the thread's own; and another thread owned it, but before the call.
    Reason {
        misfit: Misfit::TooEarly { began: 1 },
        text: "no other thread owned the mutex since event 1, in which the call began",
        traces: &[
            (
                "1 begin t1 timedlock m0\n2 point t1 m0 timedlock ETIMEDOUT\nend 2",
                3,
            ),
            (
                "1 begin t1 timedlock m0\n2 begin t2 lock m1\n3 point t2 m1 lock OK\n4 point t1 m0 timedlock ETIMEDOUT\nend 4",
                5,
            ),
        ],
    },
    Reason {
        misfit: Misfit::TooEarly { began: 7 },
        text: "no other thread owned the mutex since event 7, in which the call began",
        traces: &[
            (
                "4 begin t1 lock m0\n5 point t1 m0 lock OK\n6 return t1 OK\n7 begin t1 timedlock m0\n8 point t1 m0 timedlock ETIMEDOUT\nend 8",
                6,
            ),
            (
                "1 begin t2 lock m0\n2 point t2 m0 lock OK\n3 return t2 OK\n4 begin t2 unlock m0\n5 point t2 m0 unlock OK\n6 return t2 OK\n7 begin t1 timedlock m0\n8 point t1 m0 timedlock ETIMEDOUT\nend 8",
                9,
            ),
        ],
    },
    Reason {
        misfit: Misfit::StillOwns { mutex: 0 },
        text: "the thread still owns m0",
        traces: &[(
            "1 begin t1 lock m0\n2 point t1 m0 lock OK\n3 kill t1\n4 reaped t1\nend 4",
            5,
        )],
    },
    Reason {
        misfit: Misfit::StillOwns { mutex: 1 },
        text: "the thread still owns m1",
        traces: &[(
            "1 begin t1 lock m1\n2 point t1 m1 lock OK\n3 kill t1\n4 reaped t1\nend 4",
            5,
        )],
    },
];

/// Whether the trace is found illegal at this line, for this reason, which is told so; and `check` finds the same line.
fn is_found(alloc: Global, trace: &str, line: usize, reason: &Reason) -> bool {
    let want = TraceMisfit {
        line,
        misfit: reason.misfit,
    };
    let Ok(Finding::Illegal(found)) = explain(alloc, trace.as_bytes()) else {
        return false;
    };
    let checked = check(alloc, trace.as_bytes());
    found == want
        && matches!(is_told(alloc, found, reason.text), Ok(true))
        && checked == Ok(Verdict::Illegal { line })
}

/// Whether this is recorded of the misfit after the number of its line.
fn is_told(alloc: Global, misfit: TraceMisfit, text: &str) -> Result<bool, AllocError> {
    let line = misfit.line;
    let told = format!(in alloc; "{misfit}")?;
    let wanted = format!(in alloc; "line {line}: {text}")?;
    Ok(told.as_str() == wanted.as_str())
}

/// Fails where there is such a trace, and tells the first.
fn all_hold(rt: &impl Abort, first_wrong: Option<&str>) {
    assert_eq!(rt; first_wrong, None, "this is answered otherwise");
}

/// The first trace in which another line, or another reason, is found.
fn first_wrong(alloc: Global, reasons: &[Reason]) -> Option<&'static str> {
    for reason in reasons {
        for (behind, line) in reason.traces {
            if !is_found_behind(alloc, *behind, *line, reason) {
                return Some(*behind);
            }
        }
    }
    None
}

fn is_found_behind(alloc: Global, behind: &str, line: usize, reason: &Reason) -> bool {
    match joined(alloc, "trace 2 2 1\n", behind, "\n") {
        Ok(trace) => is_found(alloc, trace.as_str(), line, reason),
        Err(_) => false,
    }
}

#[test]
fn reasons(rt: HostRuntime) {
    all_hold(&rt, first_wrong(rt.alloc(), &OF_EVENTS));
    all_hold(&rt, first_wrong(rt.alloc(), &OF_THREADS));
    all_hold(&rt, first_wrong(rt.alloc(), &OF_CALLS));
    all_hold(&rt, first_wrong(rt.alloc(), &OF_MUTEXES));
}

/// About a mutex that the thread owns.
fn owned_by(thread: Tid) -> Object {
    Object {
        owner: Some(thread),
        inconsistent: false,
        unusable: false,
    }
}

/// Reasons that name thread 1, which is this one.
fn of_a_thread(thread: Tid) -> [Reason; 3] {
    [
        Reason {
            misfit: Misfit::AnothersEvent { thread },
            text: "the event is one of thread t1",
            traces: &[("1 begin t1 lock m0\n1 begin t2 lock m0\nend 1", 3)],
        },
        Reason {
            misfit: Misfit::NotAllowed {
                object: owned_by(thread),
                reply: Reply::OK,
            },
            text: "the mutex doesn't allow the reply OK: t1 owns it",
            traces: &[(
                "1 begin t1 lock m0\n2 point t1 m0 lock OK\n3 begin t2 lock m0\n4 point t2 m0 lock OK\nend 4",
                5,
            )],
        },
        Reason {
            misfit: Misfit::NotOwner {
                object: owned_by(thread),
            },
            text: "the thread doesn't own the mutex: t1 owns it",
            traces: &[(
                "1 begin t1 lock m0\n2 point t1 m0 lock OK\n3 kill t2\n4 death t2 m0\nend 4",
                5,
            )],
        },
    ]
}

#[test]
fn reasons_with_threads(rt: HostRuntime) -> Result<(), Fail> {
    let reasons = of_a_thread(Tid::new(1).ok_or("no thread 1")?);
    all_hold(&rt, first_wrong(rt.alloc(), &reasons));
    Ok(())
}

/// A lock that is told to succeed though the thread holds as many mutexes as it may.
const AT_LIMIT: Reason = Reason {
    misfit: Misfit::AtLimit { held: 2048 },
    text: "the thread holds 2048 mutexes, so that the reply is X_HELD",
    traces: &[],
};

#[test]
fn reason_at_the_limit(rt: HostRuntime) -> Result<(), Fail> {
    let trace = taken_and_one_more(rt.alloc(), 2048, "OK")?;
    assert!(rt; is_found(rt.alloc(), trace.as_str(), 6147, &AT_LIMIT));
    Ok(())
}

/// Whether a mutex that nobody owns is inconsistent, whether it is unusable, and the text of a death in it.
static STATES: [(bool, bool, &str); 4] = [
    (
        false,
        false,
        "the thread doesn't own the mutex: nobody owns it",
    ),
    (
        true,
        false,
        "the thread doesn't own the mutex: nobody owns it, it is inconsistent",
    ),
    (
        false,
        true,
        "the thread doesn't own the mutex: nobody owns it, it is unusable",
    ),
    (
        true,
        true,
        "the thread doesn't own the mutex: nobody owns it, it is inconsistent, it is unusable",
    ),
];

/// A death in such a mutex, at line 3.
fn death_in(inconsistent: bool, unusable: bool) -> TraceMisfit {
    TraceMisfit {
        line: 3,
        misfit: Misfit::NotOwner {
            object: Object {
                owner: None,
                inconsistent,
                unusable,
            },
        },
    }
}

#[test]
fn texts_of_states(rt: HostRuntime) -> Result<(), Fail> {
    for (inconsistent, unusable, text) in &STATES {
        let death = death_in(*inconsistent, *unusable);
        assert!(rt; is_told(rt.alloc(), death, *text)?, "{text}");
    }
    Ok(())
}

/// Where there is no reason, `explain` answers as `check` does.
#[test]
fn no_reason(rt: HostRuntime) {
    let legal = b"trace 1 1 0\n1 begin t1 lock m0\n2 point t1 m0 lock OK\nend 2\n";
    assert!(rt; explain(rt.alloc(), legal) == Ok(Finding::Legal { points: 1 }));
    let faulty = b"trace 1 1 0\n1 return t1 OK\n2 bad\nend 2\n";
    let fault = TraceFault {
        line: 3,
        fault: Fault::UnknownWord,
    };
    assert!(rt; explain(rt.alloc(), faulty) == Err(fault));
}
