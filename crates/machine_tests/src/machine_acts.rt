//! Machines that go through tables of rare events and looks.

use crate::machine_rows::{
    Standing, first_owner, has_words, have_ids, machine, standing_of, stepped, thread,
};
use buckets::Batch;
use condvar::Op;
use facts::Queue;
use interleave::Machine;
use lockword::{Reply, Tid};
use posixmutex::Operation;
use protocol::{Event, LeftTo, Note};
use std::alloc::Global;
use std::test::Fail;

/// More accesses than any call makes here: it sleeps or has returned before.
pub(crate) const ALL: u32 = 20;

/// An event that few runs have, and how it is noted where it can happen. Threads have ids.
#[derive(Clone, Copy)]
pub(crate) enum Rare {
    /// A wake of mutex 0 is spared.
    Spares(u8),
    /// The thread reinitialises a mutex on which others may sleep.
    Remakes(u8, u16),
    /// The time limit of a lock of mutex 0 comes.
    Expires(u8),
    /// The time limit of a wait on condition variable 0 comes.
    WaitExpires(u8),
    /// The thread's call on mutex 0 returns, and its point was before.
    Returns(u8, Reply),
    /// The thread's trylock of mutex 0 gives up, having met a changed word each time.
    IsRaced(u8),
    /// The thread's walk ends, as it tells its death at mutex 0.
    IsReaped(u8),
    /// The thread is killed.
    Dies(u8),
}

/// What is looked at. Threads have ids.
#[derive(Clone, Copy)]
pub(crate) enum Look {
    /// The word at a place is so.
    Word(u64, u64),
    /// All words are so, from place 1 on.
    Words(&'static [u64]),
    /// Just these threads sleep at a place, in this order.
    Sleep(u64, &'static [u8]),
    /// This thread owns mutex 0, or nobody does.
    Owner(Option<u8>),
    Stands(u8, Standing),
}

/// What is done to a machine. Threads have ids.
#[derive(Clone, Copy)]
pub(crate) enum Act {
    /// The thread begins a call, and makes this many accesses of it, if it has this many.
    Calls(u8, Op, u32),
    Steps(u8, u32),
    /// Happens.
    Happens(Rare),
    /// The event can't happen, and is nothing.
    Refused(Rare),
    /// The thread can't begin that call: it is nothing.
    RefusedCall(u8, Op),
    /// That is so then.
    Is(Look),
}

/// The thread of an event.
fn id_of(rare: Rare) -> u8 {
    match rare {
        Rare::Spares(id)
        | Rare::Remakes(id, _)
        | Rare::Expires(id)
        | Rare::WaitExpires(id)
        | Rare::Returns(id, _)
        | Rare::IsRaced(id)
        | Rare::IsReaped(id)
        | Rare::Dies(id) => id,
    }
}

fn event_of(thread: Tid, rare: Rare) -> Event {
    match rare {
        Rare::Spares(_) => Event::Spare(thread, LeftTo::Thread),
        Rare::Remakes(_, mutex) => Event::Remake(thread, mutex),
        Rare::Expires(_) | Rare::WaitExpires(_) => Event::Expire(thread),
        Rare::Returns(_, _) | Rare::IsRaced(_) | Rare::IsReaped(_) => Event::Step(thread),
        Rare::Dies(_) => Event::Kill(thread),
    }
}

fn note_of(thread: Tid, rare: Rare) -> Note {
    match rare {
        Rare::Spares(_) => stepped(thread, None, None, None),
        Rare::Remakes(_, mutex) => Note::Reinited { thread, mutex },
        Rare::Expires(_) => Note::Expired {
            thread,
            queue: Queue::Mutex(0),
        },
        Rare::WaitExpires(_) => Note::Expired {
            thread,
            queue: Queue::Condition(0),
        },
        Rare::Returns(_, reply) => stepped(thread, None, None, Some(reply)),
        Rare::IsRaced(_) => {
            stepped(
                thread,
                Some((Operation::TryLock, Reply::XRACED)),
                None,
                None,
            )
        }
        Rare::IsReaped(_) => Note::Walked {
            thread,
            death: Some(0),
            woken: Batch::new(),
            reaped: true,
        },
        Rare::Dies(_) => Note::Killed { thread },
    }
}

fn steps(machine: &mut Machine, thread: Tid, count: u32) {
    for _ in 0..count {
        let _ = machine.step(Event::Step(thread));
    }
}

/// Whether that is so.
fn is_so(machine: &Machine, look: Look) -> Result<bool, Fail> {
    Ok(match look {
        Look::Word(place, word) => machine.word(place) == Some(word),
        Look::Words(words) => has_words(machine, words),
        Look::Sleep(place, ids) => have_ids(machine, place, ids),
        Look::Owner(id) => first_owner(machine).map(Tid::get) == id,
        Look::Stands(id, standing) => standing_of(machine, thread(id)?) == standing,
    })
}

/// Whether the event happens, and is noted so.
fn happens(machine: &mut Machine, rare: Rare) -> Result<bool, Fail> {
    let thread = thread(id_of(rare))?;
    let note = machine.step(event_of(thread, rare));
    Ok(note == note_of(thread, rare))
}

/// Whether the event is nothing.
fn is_refused(machine: &mut Machine, rare: Rare) -> Result<bool, Fail> {
    let thread = thread(id_of(rare))?;
    let note = machine.step(event_of(thread, rare));
    Ok(note == Note::Nothing)
}

/// Whether it goes as the act says.
fn goes(machine: &mut Machine, act: Act) -> Result<bool, Fail> {
    match act {
        Act::Calls(id, op, accesses) => {
            let thread = thread(id)?;
            let _ = machine.step(Event::Begin(thread, op));
            steps(machine, thread, accesses);
            Ok(true)
        }
        Act::Steps(id, count) => {
            let thread = thread(id)?;
            steps(machine, thread, count);
            Ok(true)
        }
        Act::Happens(rare) => happens(machine, rare),
        Act::Refused(rare) => is_refused(machine, rare),
        Act::RefusedCall(id, op) => {
            let begin = Event::Begin(thread(id)?, op);
            Ok(machine.step(begin) == Note::Nothing)
        }
        Act::Is(look) => is_so(machine, look),
    }
}

/// The number of the first act, from 1 on, that goes otherwise.
pub(crate) fn first_other(machine: &mut Machine, parts: &[&[Act]]) -> Result<Option<u32>, Fail> {
    let mut number = 0_u32;
    for part in parts {
        for act in *part {
            number = number.wrapping_add(1);
            if !goes(machine, *act)? {
                return Ok(Some(number));
            }
        }
    }
    Ok(None)
}

/// How many threads and mutexes a machine has, and the mutex of each of its condition variables.
pub(crate) type Small = (u8, u16, &'static [u16]);

/// The same of a new machine.
pub(crate) fn first_wrong(
    alloc: Global,
    small: Small,
    parts: &[&[Act]],
) -> Result<Option<u32>, Fail> {
    let mut machine = machine(alloc, small.0, small.1, small.2)?;
    first_other(&mut machine, parts)
}
