//! Histories that are judged: the smallest of each kind, written out by hand.

use crate::heard::hear;
use certificates::points_of;
use completing::{Pass, has_dooms, weave};
use judge::{Judgement, OutOfTurn, Reason, judge};
use lockword::Reply;
use posixmutex::Operation;
use std::alloc::Global;

/// What a history is found to be.
#[derive(Clone, Copy, PartialEq, Eq)]
enum Found {
    /// With this many points.
    Legal(usize),
    /// At this line of the text.
    Illegal(u64, Reason),
    Undecided(u64),
}

/// A history, and what it is found to be.
struct Case {
    text: &'static str,
    found: Found,
}

static CASES: [Case; 28] = [
    Case {
        text: "history 3 2 1\nend 0\n",
        found: Found::Legal(0),
    },
    Case {
        text: "history 3 2 1\n1 begin t1 lock m0\n2 begin t2 lock m0\n3 return t2 OK\n4 begin t2 unlock m0\n5 return t1 OK\n6 return t2 OK\nend 6\n",
        found: Found::Legal(3),
    },
    Case {
        text: "history 3 2 1\n1 begin t1 lock m0\n2 return t1 OK\n3 begin t2 lock m0\n4 return t2 OK\nend 4\n",
        found: Found::Illegal(
            5,
            Reason::NoOrder {
                operation: Operation::Lock,
                mutex: 0,
                reply: Reply::OK,
                begin: 3,
            },
        ),
    },
    Case {
        text: "history 3 2 1\n1 begin t1 lock m0\n2 return t1 OK\n3 doom t1\n4 begin t2 lock m0\n5 return t2 EOWNERDEAD\n6 reaped t1\nend 6\n",
        found: Found::Legal(2),
    },
    Case {
        text: "history 3 2 1\n1 begin t1 lock m0\n2 doom t1\n3 begin t2 lock m0\n4 return t2 OK\n5 reaped t1\n6 renew t1\nend 6\n",
        found: Found::Legal(1),
    },
    Case {
        text: "history 3 2 1\n1 begin t1 lock m0\n2 return t1 OK\n3 kill t1\n4 reaped t1\n5 begin t2 lock m0\n6 return t2 OK\nend 6\n",
        found: Found::Illegal(
            7,
            Reason::NoOrder {
                operation: Operation::Lock,
                mutex: 0,
                reply: Reply::OK,
                begin: 5,
            },
        ),
    },
    Case {
        text: "history 3 1 0\n1 begin t1 lock m0\n2 return t1 OK\n3 doom t1\n4 begin t2 lock m0\n5 return t2 EOWNERDEAD\n6 begin t2 consistent m0\n7 return t2 OK\n8 begin t2 unlock m0\n9 return t2 OK\n10 begin t3 lock m0\n11 return t3 EOWNERDEAD\nend 11\n",
        found: Found::Illegal(
            12,
            Reason::NoOrder {
                operation: Operation::Lock,
                mutex: 0,
                reply: Reply::EOWNERDEAD,
                begin: 10,
            },
        ),
    },
    Case {
        text: "history 3 2 1\n1 begin t1 trylock m0\n2 return t1 EBUSY\nend 2\n",
        found: Found::Illegal(
            3,
            Reason::NoOrder {
                operation: Operation::TryLock,
                mutex: 0,
                reply: Reply::EBUSY,
                begin: 1,
            },
        ),
    },
    Case {
        text: "history 3 2 1\n1 begin t1 lock m0\n2 return t1 OK\n3 begin t1 wait c0 m0\n4 begin t2 lock m0\n5 return t2 OK\n6 begin t2 unlock m0\n7 return t2 OK\n8 return t1 OK\nend 8\n",
        found: Found::Legal(5),
    },
    // a time limit comes: it has locked its mutex again, that another thread had meanwhile, or nobody
    Case {
        text: "history 3 2 1\n1 begin t1 lock m0\n2 return t1 OK\n3 begin t1 timedwait c0 m0\n4 begin t2 lock m0\n5 return t2 OK\n6 begin t2 unlock m0\n7 return t2 OK\n8 return t1 ETIMEDOUT\nend 8\n",
        found: Found::Legal(5),
    },
    Case {
        text: "history 3 2 1\n1 begin t1 lock m0\n2 return t1 OK\n3 begin t1 timedwait c0 m0\n4 return t1 ETIMEDOUT\nend 4\n",
        found: Found::Legal(3),
    },
    // so another thread that got it before hasn't it any more
    Case {
        text: "history 3 2 1\n1 begin t1 lock m0\n2 return t1 OK\n3 begin t1 timedwait c0 m0\n4 begin t2 lock m0\n5 return t2 OK\n6 return t1 ETIMEDOUT\nend 6\n",
        found: Found::Illegal(
            7,
            Reason::NoOrder {
                operation: Operation::TimedWait,
                mutex: 0,
                reply: Reply::ETIMEDOUT,
                begin: 3,
            },
        ),
    },
    // a wait without a limit is never out of time, nor one that is refused; a dead owner is recorded first
    Case {
        text: "history 3 2 1\n1 begin t1 lock m0\n2 return t1 OK\n3 begin t1 wait c0 m0\n4 return t1 ETIMEDOUT\nend 4\n",
        found: Found::Illegal(
            5,
            Reason::NoOrder {
                operation: Operation::Wait,
                mutex: 0,
                reply: Reply::ETIMEDOUT,
                begin: 3,
            },
        ),
    },
    Case {
        text: "history 3 2 1\n1 begin t1 timedwait c0 m0\n2 return t1 ETIMEDOUT\nend 2\n",
        found: Found::Illegal(
            3,
            Reason::NoOrder {
                operation: Operation::TimedWait,
                mutex: 0,
                reply: Reply::ETIMEDOUT,
                begin: 1,
            },
        ),
    },
    Case {
        text: "history 3 2 1\n1 begin t1 timedwait c0 m0\n2 return t1 EPERM\nend 2\n",
        found: Found::Legal(1),
    },
    Case {
        text: "history 3 2 1\n1 begin t1 lock m0\n2 return t1 OK\n3 begin t1 timedwait c0 m0\n4 begin t2 lock m0\n5 return t2 OK\n6 kill t2\n7 return t1 ETIMEDOUT\nend 7\n",
        found: Found::Illegal(
            8,
            Reason::NoOrder {
                operation: Operation::TimedWait,
                mutex: 0,
                reply: Reply::ETIMEDOUT,
                begin: 3,
            },
        ),
    },
    // a wait is refused where the mutex is inconsistent
    Case {
        text: "history 3 2 1\n1 begin t1 lock m0\n2 return t1 OK\n3 kill t1\n4 begin t2 lock m0\n5 return t2 EOWNERDEAD\n6 begin t2 wait c0 m0\n7 return t2 ENOTRECOVERABLE\nend 7\n",
        found: Found::Illegal(
            8,
            Reason::NoOrder {
                operation: Operation::Wait,
                mutex: 0,
                reply: Reply::ENOTRECOVERABLE,
                begin: 6,
            },
        ),
    },
    // nobody has owned the mutex, nobody owned it in the call, or its own thread did
    Case {
        text: "history 3 2 1\n1 begin t1 timedlock m0\n2 return t1 ETIMEDOUT\nend 2\n",
        found: Found::Illegal(
            3,
            Reason::NoOrder {
                operation: Operation::TimedLock,
                mutex: 0,
                reply: Reply::ETIMEDOUT,
                begin: 1,
            },
        ),
    },
    Case {
        text: "history 3 2 1\n1 begin t2 lock m0\n2 return t2 OK\n3 begin t2 unlock m0\n4 return t2 OK\n5 begin t1 timedlock m0\n6 return t1 ETIMEDOUT\nend 6\n",
        found: Found::Illegal(
            7,
            Reason::NoOrder {
                operation: Operation::TimedLock,
                mutex: 0,
                reply: Reply::ETIMEDOUT,
                begin: 5,
            },
        ),
    },
    Case {
        text: "history 3 2 1\n1 begin t1 timedlock m0\n2 return t1 OK\n3 begin t1 timedlock m0\n4 return t1 ETIMEDOUT\nend 4\n",
        found: Found::Illegal(
            5,
            Reason::NoOrder {
                operation: Operation::TimedLock,
                mutex: 0,
                reply: Reply::ETIMEDOUT,
                begin: 3,
            },
        ),
    },
    Case {
        text: "history 3 2 1\n1 begin t1 timedlock m0\n2 return t1 OK\n3 begin t1 timedlock m0\n4 return t1 EDEADLK\nend 4\n",
        found: Found::Legal(2),
    },
    // another thread owned it, at first, or for a while, or perhaps before it was killed
    Case {
        text: "history 3 2 1\n1 begin t2 lock m0\n2 return t2 OK\n3 begin t1 timedlock m0\n4 begin t2 unlock m0\n5 return t2 OK\n6 return t1 ETIMEDOUT\nend 6\n",
        found: Found::Legal(3),
    },
    Case {
        text: "history 3 2 1\n1 begin t1 timedlock m0\n2 begin t2 timedlock m0\n3 return t2 OK\n4 begin t2 unlock m0\n5 return t2 OK\n6 begin t3 lock m0\n7 return t1 ETIMEDOUT\n8 return t3 OK\nend 8\n",
        found: Found::Legal(4),
    },
    Case {
        text: "history 3 2 1\n1 begin t2 lock m0\n2 begin t1 timedlock m0\n3 kill t2\n4 return t1 ETIMEDOUT\nend 4\n",
        found: Found::Legal(2),
    },
    Case {
        text: "history 3 2 1\n1 begin t1 lock m0\n2 begin t1 lock m1\nend 2\n",
        found: Found::Illegal(3, Reason::OutOfTurn(OutOfTurn::InCall)),
    },
    Case {
        text: "history 3 2 1\n1 return t1 OK\nend 1\n",
        found: Found::Illegal(2, Reason::OutOfTurn(OutOfTurn::NoCall)),
    },
    Case {
        text: "history 3 2 1\n1 doom t1\n2 begin t1 lock m1\nend 2\n",
        found: Found::Illegal(3, Reason::OutOfTurn(OutOfTurn::Dead)),
    },
    Case {
        text: "history 3 2 1\n1 reaped t1\nend 1\n",
        found: Found::Illegal(2, Reason::OutOfTurn(OutOfTurn::Alive)),
    },
];

/// What a history is found to be; None where it can't be told.
fn judged(alloc: Global, text: &str) -> Option<Found> {
    let history = hear(alloc, text)?;
    match judge(alloc, &history.head, &history.lines).ok()? {
        Judgement::Legal(steps) => Some(Found::Legal(points_of(&steps))),
        Judgement::Illegal { at, why, .. } => {
            Some(Found::Illegal(history.lines.get(at)?.number, why))
        }
        Judgement::Undecided(at) => Some(Found::Undecided(history.lines.get(at)?.number)),
    }
}

fn first_wrong(alloc: Global) -> Option<&'static str> {
    for case in &CASES {
        if judged(alloc, case.text) != Some(case.found) {
            return Some(case.text);
        }
    }
    None
}

#[test]
fn smallest_histories(rt: HostRuntime) {
    assert_eq!(rt; first_wrong(rt.alloc()), None);
}

/// How many steps are woven of a history; and whether it has dooms.
fn woven(alloc: Global, text: &str) -> Option<(usize, bool)> {
    let history = hear(alloc, text)?;
    let mut pass = Pass::new(alloc, &history.head, &history.lines).ok()?;
    for line in &history.lines {
        pass.take(&line.entry).ok()?;
    }
    let steps = weave(alloc, &history.lines, &mut pass, true).ok()?;
    Some((steps.len(), has_dooms(&history.lines)))
}

#[test]
fn steps_are_woven(rt: HostRuntime) {
    let text =
        "history 2 1 0\n1 begin t1 lock m0\n2 return t1 OK\n3 doom t1\n4 begin t2 lock m0\n5 return t2 EOWNERDEAD\nend 5\n";
    // two points, a kill and a death more than lines
    assert_eq!(rt; woven(rt.alloc(), text), Some((9, true)));
}
