//! Steps that are certificates of histories, and some that aren't.

use crate::heard::hear;
use certificates::{certify, points_of};
use histories::Entry;
use lockword::Tid;
use std::alloc::Global;
use verdict::read_trace;

/// A history, a trace, and the dooms that stand before its lines with these numbers; and whether they are a certificate
/// of it, with how many points.
struct Case {
    name: &'static str,
    history: &'static str,
    trace: &'static str,
    dooms: &'static [(usize, u8)],
    points: Option<usize>,
}

static CASES: [Case; 13] = [
    Case {
        name: "a lock with its point",
        history: "history 1 1 0\n1 begin t1 lock m0\n2 return t1 OK\nend 2\n",
        trace: "trace 1 1 0\n1 begin t1 lock m0\n2 point t1 m0 lock OK\n3 return t1 OK\nend 3\n",
        dooms: &[],
        points: Some(1),
    },
    Case {
        name: "the point is missing",
        history: "history 1 1 0\n1 begin t1 lock m0\n2 return t1 OK\nend 2\n",
        trace: "trace 1 1 0\n1 begin t1 lock m0\n3 return t1 OK\nend 3\n",
        dooms: &[],
        points: None,
    },
    Case {
        name: "the return is missing",
        history: "history 1 1 0\n1 begin t1 lock m0\n2 return t1 OK\nend 2\n",
        trace: "trace 1 1 0\n1 begin t1 lock m0\n2 point t1 m0 lock OK\nend 3\n",
        dooms: &[],
        points: None,
    },
    Case {
        name: "another history",
        history: "history 1 1 0\n1 begin t1 trylock m0\n2 return t1 OK\nend 2\n",
        trace: "trace 1 1 0\n1 begin t1 lock m0\n2 point t1 m0 lock OK\n3 return t1 OK\nend 3\n",
        dooms: &[],
        points: None,
    },
    Case {
        name: "a doomed thread's lock took the mutex",
        history: "history 2 1 0\n1 begin t1 lock m0\n2 doom t1\n3 begin t2 lock m0\n4 return t2 EOWNERDEAD\n5 reaped t1\nend 5\n",
        trace: "trace 2 1 0\n1 begin t1 lock m0\n2 begin t2 lock m0\n3 point t1 m0 lock OK\n4 kill t1\n5 death t1 m0\n6 point t2 m0 lock EOWNERDEAD\n7 return t2 EOWNERDEAD\n8 reaped t1\nend 8\n",
        dooms: &[(1, 1)],
        points: Some(2),
    },
    Case {
        name: "a doomed thread tells more",
        history: "history 1 1 0\n1 doom t1\n2 begin t1 lock m0\nend 2\n",
        trace: "trace 1 1 0\n1 begin t1 lock m0\nend 1\n",
        dooms: &[(0, 1)],
        points: None,
    },
    Case {
        name: "a killed thread is doomed",
        history: "history 1 1 0\n1 kill t1\n2 doom t1\nend 2\n",
        trace: "trace 1 1 0\n1 kill t1\nend 1\n",
        dooms: &[(1, 1)],
        points: None,
    },
    Case {
        name: "a time limit of a mutex that was another's",
        history: "history 2 1 0\n1 begin t1 lock m0\n2 return t1 OK\n3 begin t2 timedlock m0\n4 begin t1 unlock m0\n5 return t2 ETIMEDOUT\nend 5\n",
        trace: "trace 2 1 0\n1 begin t1 lock m0\n2 point t1 m0 lock OK\n3 return t1 OK\n4 begin t2 timedlock m0\n5 begin t1 unlock m0\n6 point t1 m0 unlock OK\n7 point t2 m0 timedlock ETIMEDOUT\n8 return t2 ETIMEDOUT\nend 8\n",
        dooms: &[],
        points: Some(3),
    },
    Case {
        name: "a time limit of a mutex that nobody owned since",
        history: "history 2 1 0\n1 begin t1 lock m0\n2 return t1 OK\n3 begin t1 unlock m0\n4 begin t2 timedlock m0\n5 return t2 ETIMEDOUT\nend 5\n",
        trace: "trace 2 1 0\n1 begin t1 lock m0\n2 point t1 m0 lock OK\n3 return t1 OK\n4 begin t1 unlock m0\n5 point t1 m0 unlock OK\n6 begin t2 timedlock m0\n7 point t2 m0 timedlock ETIMEDOUT\n8 return t2 ETIMEDOUT\nend 8\n",
        dooms: &[],
        points: None,
    },
    Case {
        name: "a wait that is out of time has locked its mutex",
        history: "history 1 1 1\n1 begin t1 lock m0\n2 return t1 OK\n3 begin t1 timedwait c0 m0\n4 return t1 ETIMEDOUT\nend 4\n",
        trace: "trace 1 1 1\n1 begin t1 lock m0\n2 point t1 m0 lock OK\n3 return t1 OK\n4 begin t1 timedwait c0 m0\n5 point t1 m0 unlock OK\n6 point t1 m0 lock OK\n7 return t1 ETIMEDOUT\nend 7\n",
        dooms: &[],
        points: Some(3),
    },
    Case {
        name: "a wait that is out of time hasn't locked its mutex",
        history: "history 1 1 1\n1 begin t1 lock m0\n2 return t1 OK\n3 begin t1 timedwait c0 m0\n4 return t1 ETIMEDOUT\nend 4\n",
        trace: "trace 1 1 1\n1 begin t1 lock m0\n2 point t1 m0 lock OK\n3 return t1 OK\n4 begin t1 timedwait c0 m0\n5 point t1 m0 unlock OK\n6 return t1 ETIMEDOUT\nend 6\n",
        dooms: &[],
        points: None,
    },
    Case {
        name: "a wait releases a consistent mutex",
        history: "history 1 1 1\n1 begin t1 lock m0\n2 return t1 OK\n3 begin t1 wait c0 m0\nend 3\n",
        trace: "trace 1 1 1\n1 begin t1 lock m0\n2 point t1 m0 lock OK\n3 return t1 OK\n4 begin t1 wait c0 m0\n5 point t1 m0 unlock OK\nend 5\n",
        dooms: &[],
        points: Some(2),
    },
    Case {
        name: "a wait releases an inconsistent mutex",
        history: "history 2 1 1\n1 begin t1 lock m0\n2 return t1 OK\n3 kill t1\n4 begin t2 lock m0\n5 return t2 EOWNERDEAD\n6 begin t2 wait c0 m0\nend 6\n",
        trace: "trace 2 1 1\n1 begin t1 lock m0\n2 point t1 m0 lock OK\n3 return t1 OK\n4 kill t1\n5 death t1 m0\n6 begin t2 lock m0\n7 point t2 m0 lock EOWNERDEAD\n8 return t2 EOWNERDEAD\n9 begin t2 wait c0 m0\n10 point t2 m0 unlock OK\nend 10\n",
        dooms: &[],
        points: None,
    },
];

/// The steps of a case; None where its trace can't be read.
fn steps_of(alloc: Global, case: &Case) -> Option<Vec<Entry>> {
    let told = read_trace(alloc, case.trace.as_bytes()).ok()?;
    let mut steps = Vec::new(alloc);
    for (at, line) in told.lines.iter().enumerate() {
        for (before, thread) in case.dooms {
            if *before == at && steps.push(Entry::Doom(Tid::new(*thread)?)).is_err() {
                return None;
            }
        }
        if steps.push(Entry::Told(line.fact)).is_err() {
            return None;
        }
    }
    Some(steps)
}

/// What is found of a case; None where it can't be had.
fn found(alloc: Global, case: &Case) -> Option<Option<usize>> {
    let history = hear(alloc, case.history)?;
    let steps = steps_of(alloc, case)?;
    match certify(alloc, &history.head, &history.lines, &steps) {
        Ok(true) => Some(Some(points_of(&steps))),
        Ok(false) => Some(None),
        Err(_) => None,
    }
}

fn first_wrong(alloc: Global) -> Option<&'static str> {
    for case in &CASES {
        if found(alloc, case) != Some(case.points) {
            return Some(case.name);
        }
    }
    None
}

#[test]
fn certificates_of_histories(rt: HostRuntime) {
    assert_eq!(rt; first_wrong(rt.alloc()), None);
}
