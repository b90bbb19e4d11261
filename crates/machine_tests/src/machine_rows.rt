//! Machines that go through tables of events.

use buckets::Batch;
use condvar::Op;
use facts::{Begun, Queue};
use interleave::Machine;
use lockword::{Reply, Tid};
use memorymap::Layout;
use mutex::Call;
use posixmutex::{Decision, Operation};
use protocol::{Event, Note};
use std::alloc::Global;
use std::test::Fail;

/// An event of the thread with this id.
#[derive(Clone, Copy)]
pub(crate) enum Does {
    Begins(u8, Call),
    /// Makes this many steps, each of which is noted so.
    Steps(u8, u32),
    Dies(u8),
    /// Begins a call, and makes this many accesses of it. The note is the last one's.
    Calls(u8, Call, u32),
}

/// What an event is noted as. A point is on mutex 0, and nobody is woken.
#[derive(Clone, Copy)]
pub(crate) enum Noted {
    Nothing,
    Began(Call),
    /// An access that neither decides nor returns.
    Goes,
    /// An access that decides the call, which goes on.
    Decides(Operation, Reply),
    /// An access that decides the call, which returns.
    Ends(Operation, Reply),
    /// The last access of a call that was decided before.
    Returns(Reply),
    /// An access by which the thread falls asleep on mutex 0.
    Sleeps,
    Killed,
    /// An access of a walk by which no death is recorded.
    Walks,
    /// The last access of such a walk.
    IsReaped,
    /// Whatever it is.
    Any,
}

/// Where a thread stands.
#[derive(Clone, Copy, PartialEq, Eq)]
pub(crate) enum Standing {
    Resting,
    Awake,
    Asleep,
    Dying,
    Reaped,
    /// The machine told two of these, or one that isn't.
    Confused,
}

/// An event, its note, and where threads 1 and 2 stand then. A thread that the machine doesn't have rests.
#[derive(Clone, Copy)]
pub(crate) struct Row(pub Does, pub Noted, pub Standing, pub Standing);

/// Thread 1 takes the mutex.
pub(crate) const ONE_TAKES: Row = Row(
    Does::Calls(1, LOCK, 8),
    Noted::Any,
    Standing::Resting,
    Standing::Resting,
);

/// Thread 2 falls asleep on it.
pub(crate) const TWO_SLEEPS: Row = Row(
    Does::Calls(2, LOCK, 4),
    Noted::Any,
    Standing::Resting,
    Standing::Asleep,
);

pub(crate) const LOCK: Call = Call::Lock(0);

pub(crate) const TRY_LOCK: Call = Call::TryLock(0);

pub(crate) const UNLOCK: Call = Call::Unlock(0);

pub(crate) fn thread(id: u8) -> Result<Tid, Fail> {
    Ok(Tid::new(id).ok_or("no thread has this id")?)
}

pub(crate) fn machine(
    alloc: Global,
    threads: u8,
    mutexes: u16,
    conditions: &[u16],
) -> Result<Machine, Fail> {
    let layout = Layout::new(threads, mutexes, conditions)?;
    Ok(Machine::new(alloc, layout)?)
}

fn event_of(thread: Tid, does: Does) -> Event {
    match does {
        Does::Begins(_, call) => Event::Begin(thread, Op::OnMutex(call)),
        Does::Steps(_, _) | Does::Calls(_, _, _) => Event::Step(thread),
        Does::Dies(_) => Event::Kill(thread),
    }
}

fn id_of(does: Does) -> u8 {
    match does {
        Does::Begins(id, _) | Does::Steps(id, _) | Does::Dies(id) | Does::Calls(id, _, _) => id,
    }
}

/// How many events with a note it is.
fn times(does: Does) -> u32 {
    match does {
        Does::Steps(_, times) => times,
        _ => 1,
    }
}

/// An access that may decide, sleep or return.
pub(crate) fn stepped(
    thread: Tid,
    decided: Option<(Operation, Reply)>,
    slept: Option<Queue>,
    returned: Option<Reply>,
) -> Note {
    let point = decided.map(|(operation, reply)| Decision {
        thread,
        mutex: 0,
        operation,
        reply,
    });
    Note::Stepped {
        thread,
        mutex: 0,
        point,
        slept,
        woken: Batch::new(),
        moved: Batch::new(),
        returned,
    }
}

fn walked(thread: Tid, reaped: bool) -> Note {
    Note::Walked {
        thread,
        death: None,
        woken: Batch::new(),
        reaped,
    }
}

/// Whether that is how an event of the thread is noted.
pub(crate) fn is_noted(thread: Tid, noted: Noted, note: &Note) -> bool {
    let wanted = match noted {
        Noted::Nothing => Note::Nothing,
        Noted::Began(call) => Note::Began {
            thread,
            call: Begun {
                operation: call.operation(),
                mutex: call.mutex(),
                condition: None,
            },
            refused: None,
        },
        Noted::Goes => stepped(thread, None, None, None),
        Noted::Decides(operation, reply) => stepped(thread, Some((operation, reply)), None, None),
        Noted::Ends(operation, reply) => {
            stepped(thread, Some((operation, reply)), None, Some(reply))
        }
        Noted::Returns(reply) => stepped(thread, None, None, Some(reply)),
        Noted::Sleeps => stepped(thread, None, Some(Queue::Mutex(0)), None),
        Noted::Killed => Note::Killed { thread },
        Noted::Walks => walked(thread, false),
        Noted::IsReaped => walked(thread, true),
        Noted::Any => *note,
    };
    *note == wanted
}

/// Where a thread stands, by all that the machine tells of it.
pub(crate) fn standing_of(machine: &Machine, thread: Tid) -> Standing {
    let (busy, asleep) = (machine.busy(thread), machine.asleep(thread));
    match (busy, asleep, machine.dying(thread), machine.reaped(thread)) {
        (false, false, false, false) => Standing::Resting,
        (true, false, false, false) => Standing::Awake,
        (true, true, false, false) => Standing::Asleep,
        (false, false, true, false) => Standing::Dying,
        (false, false, false, true) => Standing::Reaped,
        _ => Standing::Confused,
    }
}

/// Makes the event with its note, after those that have none.
fn happens(machine: &mut Machine, thread: Tid, does: Does) -> Note {
    if let Does::Calls(_, call, accesses) = does {
        play(machine, thread, call, accesses.saturating_sub(1));
    }
    machine.step(event_of(thread, does))
}

/// Whether the machine goes through the events as the rows say.
pub(crate) fn goes_through(machine: &mut Machine, rows: &[Row]) -> Result<bool, Fail> {
    let (one, two) = (thread(1)?, thread(2)?);
    for &Row(does, noted, first, second) in rows {
        let thread = thread(id_of(does))?;
        for _ in 0..times(does) {
            let note = happens(machine, thread, does);
            let is_so = is_noted(thread, noted, &note);
            if !is_so || standing_of(machine, one) != first || standing_of(machine, two) != second {
                return Ok(false);
            }
        }
    }
    Ok(true)
}

/// A machine of threads and one mutex that has gone through the events as the rows say.
pub(crate) fn gone_through(alloc: Global, threads: u8, rows: &[Row]) -> Result<Machine, Fail> {
    let mut machine = machine(alloc, threads, 1, &[])?;
    if goes_through(&mut machine, rows)? {
        Ok(machine)
    } else {
        Err("an event did something else")?
    }
}

/// The same after this many steps more of one thread alone.
pub(crate) fn alone_after(
    alloc: Global,
    threads: u8,
    rows: &[Row],
    id: u8,
    steps: u32,
) -> Result<Machine, Fail> {
    let thread = thread(id)?;
    let machine = gone_through(alloc, threads, rows)?;
    Ok(machine.alone(alloc, thread, steps)?)
}

/// The thread begins a call, and makes this many accesses of it.
pub(crate) fn play(machine: &mut Machine, thread: Tid, call: Call, accesses: u32) {
    let _ = machine.step(Event::Begin(thread, Op::OnMutex(call)));
    for _ in 0..accesses {
        let _ = machine.step(Event::Step(thread));
    }
}

/// Which thread owns mutex 0, which every layout has.
pub(crate) fn first_owner(machine: &Machine) -> Option<Tid> {
    let _mutexes = machine.layout().mutexes();
    machine.owner(0)
}

/// Whether those who sleep at a place have these ids, in their order.
pub(crate) fn have_ids(machine: &Machine, place: u64, ids: &[u8]) -> bool {
    let sleepers = machine.sleepers(place);
    if sleepers.len() != ids.len() {
        return false;
    }
    for (index, id) in ids.iter().enumerate() {
        if sleepers.get(index).map(Tid::get) != Some(*id) {
            return false;
        }
    }
    true
}

/// Whether these are all of the machine's words, from 1 on.
pub(crate) fn has_words(machine: &Machine, words: &[u64]) -> bool {
    let mut place = 1;
    for word in words {
        if machine.word(place) != Some(*word) {
            return false;
        }
        place = place.wrapping_add(1);
    }
    machine.word(place).is_none() && machine.word(0).is_none()
}
