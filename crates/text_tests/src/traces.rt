//! Traces of many mutexes, and one that is judged where memory is refused. What others are answered is in
//! cases/traces.

use std::alloc::{AllocError, Global};
use std::test::Fail;
use verdict::{Verdict, check};

/// What is answered to a trace.
#[derive(Clone, Copy, Debug, PartialEq, Eq)]
enum Answer {
    /// With this many points.
    Legal(usize),
    /// At this line.
    Illegal(usize),
    /// The number of a fault, and its line.
    Refused(u8, usize),
}

use Answer::{Illegal, Legal, Refused};

fn answered(alloc: Global, bytes: &[u8]) -> Answer {
    match check(alloc, bytes) {
        Ok(Verdict::Legal { points }) => Legal(points),
        Ok(Verdict::Illegal { line }) => Illegal(line),
        Err(refused) => Refused(refused.fault.number(), refused.line),
    }
}

/// A lock and an unlock of one thread.
const LOCK_AND_UNLOCK: &str =
    "trace 1 1 0\n1 begin t1 lock m0\n4 point t1 m0 lock OK\n9 return t1 OK\n10 begin t1 unlock m0\n16 point t1 m0 unlock OK\n17 return t1 OK\nend 17\n";

/// Passes too where any one allocation fails: the answer is then lack of memory at line 1.
#[test]
fn memory_is_wanted_at_line_1(rt: HostRuntime) {
    let answer = answered(rt.alloc(), LOCK_AND_UNLOCK.as_bytes());
    assert!(rt; answer == Legal(2) || answer == Refused(6, 1));
}

/// Adds the lock of a mutex by thread 1, in an event of a number above 10,000.
fn push_lock(text: &mut String, alloc: Global, mutex: u32) -> Result<(), AllocError> {
    let event = 10_000 + u64::from(mutex);
    let call = format!(in alloc;
        "{event} begin t1 lock m{mutex}\n{event} point t1 m{mutex} lock OK\n{event} return t1 OK\n"
    )?;
    text.push_str(call.as_str())
}

/// Thread 1 takes this many mutexes, one after the other, and then asks for one more, which is answered so.
pub fn taken_and_one_more(alloc: Global, held: u32, reply: &str) -> Result<String, AllocError> {
    let mut text = String::from_str(alloc, "trace 1 4096 0\n")?;
    for mutex in 0..held {
        push_lock(&mut text, alloc, mutex)?;
    }
    let last = format!(in alloc;
        "90000 begin t1 lock m{held}\n90000 point t1 m{held} lock {reply}\n90000 return t1 {reply}\nend 90000\n"
    )?;
    text.push_str(last.as_str())?;
    Ok(text)
}

#[test]
fn a_thread_holds_2048_mutexes(rt: HostRuntime) -> Result<(), Fail> {
    let cases = [
        (2047, "OK", Legal(2048)),
        (2047, "X_HELD", Illegal(6144)),
        (2048, "X_HELD", Legal(2049)),
        (2048, "OK", Illegal(6147)),
    ];
    for (held, reply, want) in cases {
        let text = taken_and_one_more(rt.alloc(), held, reply)?;
        assert!(rt; answered(rt.alloc(), text.as_bytes()) == want);
    }
    Ok(())
}
