//! Texts of traces and of replies, worked out by hand, and writers that are too small for them.

ghost use Rattle.std.specs.Prelude.{◌≤◌};

use buckets::Batch;
use facts::{Begun, Queue};
use interleave::Trace;
use lockword::{Reply, Tid};
use mutex::Call;
use posixmutex::{Decision, Operation};
use protocol::Note;
use std::alloc::{AllocError, Global};
use text_fixtures::Faulty;
use texts::{ConditionWord, MutexWord, ThreadReplies, write_replies, write_trace};

fn tid(id: u8) -> Tid
    requires { (1 ≤ id) × (id ≤ 64) }
{
    Tid::new(id).unwrap()
}

fn began(id: u8, call: Call, refused: Option<Reply>) -> Note
    requires { (1 ≤ id) × (id ≤ 64) }
{
    let thread = tid(id);
    Note::Began {
        thread,
        call: Begun {
            operation: call.operation(),
            mutex: call.mutex(),
            condition: None,
        },
        refused,
    }
}

/// The point of a call by this thread.
fn decided(id: u8, mutex: u16, operation: Operation, reply: Reply) -> Decision
    requires { (1 ≤ id) × (id ≤ 64) }
{
    Decision {
        thread: tid(id),
        mutex,
        operation,
        reply,
    }
}

fn stepped(id: u8, point: Option<Decision>, returned: Option<Reply>) -> Note
    requires { (1 ≤ id) × (id ≤ 64) }
{
    Note::Stepped {
        thread: tid(id),
        mutex: 0,
        point,
        slept: None,
        woken: Batch::new(),
        moved: Batch::new(),
        returned,
    }
}

/// A trace with each kind of note, whose text is `TEXT`.
fn sample(alloc: Global) -> Result<Trace, AllocError> {
    let refused = decided(1, 0, Operation::Unlock, Reply::EPERM);
    let taken = decided(20, 11, Operation::TryLock, Reply::OK);
    let inherited = decided(3, 2, Operation::Lock, Reply::EOWNERDEAD);
    let notes = [
        Note::Nothing,
        began(1, Call::Unlock(0), None),
        began(64, Call::TryLock(4095), Some(Reply::XHELD)),
        stepped(1, Some(refused), Some(Reply::EPERM)),
        stepped(20, Some(taken), None),
        stepped(20, None, None),
        stepped(20, None, Some(Reply::OK)),
        stepped(3, Some(inherited), None),
        began(2, Call::TryLock(7), None),
        began(4, Call::TimedLock(8), None),
        Note::Expired {
            thread: tid(4),
            queue: Queue::Mutex(8),
        },
        Note::Expired {
            thread: tid(5),
            queue: Queue::Condition(9),
        },
    ];
    Ok(Trace {
        threads: 64,
        mutexes: 4096,
        conditions: 10,
        notes: Vec::from_array(alloc, notes)?,
    })
}

const TEXT: &str = "trace 64 4096 10\n\
    2 begin t1 unlock m0\n\
    3 begin t64 trylock m4095\n\
    3 point t64 m4095 trylock X_HELD\n\
    3 return t64 X_HELD\n\
    4 point t1 m0 unlock EPERM\n\
    4 return t1 EPERM\n\
    5 point t20 m11 trylock OK\n\
    7 return t20 OK\n\
    8 point t3 m2 lock EOWNERDEAD\n\
    9 begin t2 trylock m7\n\
    10 begin t4 timedlock m8\n\
    11 wake t4\n\
    11 point t4 m8 timedlock ETIMEDOUT\n\
    12 wake t5\n\
    end 12\n";

#[test]
fn each_kind_of_note_has_its_lines(rt: HostRuntime) -> Result<(), AllocError> {
    let mut out = Vec::new(rt.alloc());
    assert!(rt; write_trace(&sample(rt.alloc())?, &mut out).is_ok());
    assert!(rt; out.as_slice() == TEXT.as_bytes());
    Ok(())
}

/// Whether a writer that had this room holds as much of the text as it can, and took all of it exactly if it had the
/// room.
fn is_filled(out: &Faulty, room: usize, whole: bool, text: &[u8]) -> bool {
    let front = text.get(..room).unwrap_or(text);
    out.held.as_slice() == front && whole == (room >= text.len())
}

/// The first room in which a trace isn't written as far as there is room.
fn first_wrong_room(alloc: Global, trace: &Trace, takes_none: bool) -> Option<usize> {
    for room in 0..TEXT.len() + 2 {
        let mut out = Faulty::new(alloc, room, takes_none);
        let whole = write_trace(trace, &mut out).is_ok();
        if !is_filled(&out, room, whole, TEXT.as_bytes()) {
            return Some(room);
        }
    }
    None
}

#[test]
fn a_writer_without_room_holds_a_beginning(rt: HostRuntime) -> Result<(), AllocError> {
    let trace = sample(rt.alloc())?;
    assert_eq!(rt; first_wrong_room(rt.alloc(), &trace, false), None);
    assert_eq!(rt; first_wrong_room(rt.alloc(), &trace, true), None);
    Ok(())
}

const REPLIES: &str = "replies a OK dead\n\
    replies b\n\
    replies c EBUSY EOWNERDEAD\n\
    mutex m 00000000c0000003 c -\n\
    mutex n 0000000100000000 - -\n\
    mutex o fedcba9800000004 - -\n\
    cond p 4294967295 -\n\
    cond q 0 -\n";

/// What threads were answered.
static THREADS: [ThreadReplies<'static>; 3] = [
    ThreadReplies {
        name: "a",
        replies: &[Reply::OK],
        died: true,
    },
    ThreadReplies {
        name: "b",
        replies: &[],
        died: false,
    },
    ThreadReplies {
        name: "c",
        replies: &[Reply::EBUSY, Reply::EOWNERDEAD],
        died: false,
    },
];

/// Mutexes: one of the third thread's, one of nobody's, and one of a thread that isn't told of.
static MUTEXES: [MutexWord<'static>; 3] = [
    MutexWord {
        name: "m",
        cell: 0xc000_0003,
    },
    MutexWord {
        name: "n",
        cell: 0x1_0000_0000,
    },
    MutexWord {
        name: "o",
        cell: 0xfedc_ba98_0000_0004,
    },
];

/// Condition variables: one whose counter is at its end, and one of which nobody has signalled.
static CONDITIONS: [ConditionWord<'static>; 2] = [
    ConditionWord {
        name: "p",
        counter: 4_294_967_295,
    },
    ConditionWord {
        name: "q",
        counter: 0,
    },
];

/// The first room in which the replies aren't written as far as there is room.
fn first_wrong_room_for_replies(alloc: Global) -> Option<usize> {
    for room in 0..REPLIES.len() + 2 {
        let mut out = Faulty::new(alloc, room, false);
        let whole = write_replies(&THREADS, &MUTEXES, &CONDITIONS, &mut out).is_ok();
        if !is_filled(&out, room, whole, REPLIES.as_bytes()) {
            return Some(room);
        }
    }
    None
}

#[test]
fn replies_are_written_as_far_as_there_is_room(rt: HostRuntime) {
    assert_eq!(rt; first_wrong_room_for_replies(rt.alloc()), None);
}
