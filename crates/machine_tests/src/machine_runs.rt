//! Small machines, with their words and notes worked out by hand.

use crate::machine_acts::{Act, Look, Rare, first_wrong};
use crate::machine_rows::Does::{Begins, Steps};
use crate::machine_rows::Noted::{Any, Began, Decides, Ends, Goes, Nothing, Returns};
use crate::machine_rows::Standing::{Awake, Resting};
use crate::machine_rows::{
    LOCK, Noted, Row, TRY_LOCK, UNLOCK, first_owner, goes_through, gone_through, has_words,
    is_noted, machine, play, standing_of, thread,
};
use condvar::Op;
use interleave::{Machine, Trace};
use lockword::Reply::{EBUSY, EPERM, OK};
use lockword::Tid;
use mutex::Call;
use posixmutex::Operation::{TryLock, Unlock};
use protocol::Event;
use std::alloc::Global;
use std::test::Fail;

/// Whether a new machine of this many threads, and one mutex, has just these words, and nobody owns the mutex.
fn begins_with(
    alloc: Global,
    threads: u8,
    conditions: &[u16],
    words: &[u64],
) -> Result<bool, Fail> {
    let new = machine(alloc, threads, 1, conditions)?;
    Ok(
        new.layout().threads() == threads
            && has_words(&new, words)
            && new.word(u64::MAX).is_none()
            && first_owner(&new).is_none(),
    )
}

#[test]
fn a_new_machine_has_empty_lists_and_free_mutexes(rt: HostRuntime) -> Result<(), Fail> {
    let two = [1, u64::MAX, 0, 4, u64::MAX, 0, 0, 0, 0, 0];
    assert!(rt; begins_with(rt.alloc(), 1, &[], &[1, u64::MAX, 0, 0, 0, 0])?);
    assert!(rt; begins_with(rt.alloc(), 2, &[0], &two)?);
    Ok(())
}

/// An event, of which the first has number 1, where a call begins, is decided, or returns.
const NOTES: [(usize, Noted); 8] = [
    (1, Began(UNLOCK)),
    (2, Ends(Unlock, EPERM)),
    (6, Decides(TryLock, OK)),
    (11, Returns(OK)),
    (14, Decides(TryLock, EBUSY)),
    (15, Returns(EBUSY)),
    (22, Decides(Unlock, OK)),
    (23, Returns(OK)),
];

fn notes_are(trace: &Trace, thread: Tid) -> bool {
    for (event, noted) in NOTES {
        let is_so = match trace.notes.get(event.wrapping_sub(1)) {
            Some(note) => is_noted(thread, noted, note),
            None => false,
        };
        if !is_so {
            return false;
        }
    }
    (trace.threads, trace.mutexes, trace.conditions) == (1, 1, 0) && trace.notes.len() == 23
}

/// Thread 1 unlocks a mutex that it doesn't own, takes it, tries to take it again, and releases it.
fn four_calls(one: Tid) -> [Event; 23] {
    let mut events = [Event::Step(one); 23];
    events[0] = Event::Begin(one, Op::OnMutex(UNLOCK));
    events[2] = Event::Begin(one, Op::OnMutex(TRY_LOCK));
    events[11] = Event::Begin(one, Op::OnMutex(TRY_LOCK));
    events[15] = Event::Begin(one, Op::OnMutex(UNLOCK));
    events
}

#[test]
fn a_run_notes_every_event(rt: HostRuntime) -> Result<(), Fail> {
    let one = thread(1)?;
    let mut machine = machine(rt.alloc(), 1, 1, &[])?;
    let trace = machine.run(rt.alloc(), &four_calls(one))?;
    assert!(rt; notes_are(&trace, one));
    assert!(rt; first_owner(&machine).is_none());
    assert!(rt; has_words(&machine, &[1, u64::MAX, 0, 0, 1, 1]));
    Ok(())
}

/// What an access writes, if it does: a place, and its word then.
type Write = Option<(usize, u64)>;

/// What each access of a trylock writes.
const TAKING: [Write; 8] = [
    Some((3, 5)),
    None,
    Some((4, 1)),
    None,
    Some((5, 1)),
    Some((6, 1)),
    Some((1, 5)),
    Some((3, 0)),
];

/// The same of an unlock.
const RELEASING: [Write; 7] = [
    None,
    Some((3, 5)),
    None,
    None,
    Some((1, 1)),
    Some((4, 0)),
    Some((3, 0)),
];

/// Whether the thread's call makes this many accesses, and each writes this and nothing else in these words.
fn writes(
    machine: &mut Machine,
    thread: Tid,
    call: Call,
    writes: &[Write],
    mut words: [u64; 6],
) -> bool {
    let _ = machine.step(Event::Begin(thread, Op::OnMutex(call)));
    for write in writes {
        if !machine.busy(thread) {
            return false;
        }
        let _ = machine.step(Event::Step(thread));
        if let Some((place, word)) = *write {
            if let Some(written) = words.get_mut(place.wrapping_sub(1)) {
                *written = word;
            }
        }
        if !has_words(machine, &words) {
            return false;
        }
    }
    !machine.busy(thread)
}

/// Whether thread 1 takes the mutex of a new machine so, owns it then, and releases it so.
fn takes_and_releases(alloc: Global) -> Result<bool, Fail> {
    let one = thread(1)?;
    let mut machine = machine(alloc, 1, 1, &[])?;
    let (free, taken) = ([1, u64::MAX, 0, 0, 0, 0], [5, u64::MAX, 0, 1, 1, 1]);
    Ok(
        writes(&mut machine, one, TRY_LOCK, &TAKING, free)
            && first_owner(&machine) == Some(one)
            && writes(&mut machine, one, UNLOCK, &RELEASING, taken),
    )
}

/// The entry is pending from the call's first access on, is put in front of the list once the mutex is taken, and is no
/// longer pending when the call returns. An unlock that sees that the mutex is its thread's makes the entry pending,
/// takes it out of the list, and then releases the mutex.
#[test]
fn a_mutex_is_linked_once_taken_and_unlinked_before_its_release(
    rt: HostRuntime,
) -> Result<(), Fail> {
    assert!(rt; takes_and_releases(rt.alloc())?);
    Ok(())
}

/// A call, its accesses, and the words that it leaves.
const ON_ONE_LIST: [(Call, u32, [u64; 9]); 4] = [
    (Call::Lock(0), 8, [5, u64::MAX, 0, 1, 1, 1, 0, 0, 0]),
    (Call::Lock(1), 9, [8, u64::MAX, 0, 1, 1, 8, 1, 5, 1]),
    (Call::Unlock(0), 7, [8, u64::MAX, 0, 0, 1, 8, 1, 1, 1]),
    (Call::Unlock(1), 7, [1, u64::MAX, 0, 0, 1, 8, 0, 1, 1]),
];

/// Whether the thread's calls leave these words.
fn calls_leave(machine: &mut Machine, thread: Tid, calls: &[(Call, u32, [u64; 9])]) -> bool {
    for (call, accesses, words) in calls {
        play(machine, thread, *call, *accesses);
        if machine.busy(thread) || !has_words(machine, words) {
            return false;
        }
    }
    true
}

/// The newest mutex is in front. One that is released keeps its links, and those beside it point past it.
#[test]
fn a_thread_has_its_mutexes_on_one_list(rt: HostRuntime) -> Result<(), Fail> {
    let one = thread(1)?;
    let mut machine = machine(rt.alloc(), 1, 2, &[])?;
    assert!(rt; calls_leave(&mut machine, one, &ON_ONE_LIST));
    Ok(())
}

const NONE_APPLIES: [Row; 4] = [
    Row(Steps(1, 1), Nothing, Resting, Resting),
    Row(Steps(2, 1), Nothing, Resting, Resting),
    Row(Begins(2, TRY_LOCK), Nothing, Resting, Resting),
    Row(Begins(1, Call::TryLock(1)), Nothing, Resting, Resting),
];

const BEGINS: [Row; 1] = [Row(Begins(1, TRY_LOCK), Began(TRY_LOCK), Awake, Resting)];

const IN_A_CALL: [Row; 6] = [
    Row(Begins(1, TRY_LOCK), Began(TRY_LOCK), Awake, Resting),
    Row(Begins(1, UNLOCK), Nothing, Awake, Resting),
    Row(Steps(1, 1), Goes, Awake, Resting),
    Row(Begins(1, TRY_LOCK), Nothing, Awake, Resting),
    Row(Steps(1, 1), Goes, Awake, Resting),
    Row(Steps(1, 1), Decides(TryLock, OK), Awake, Resting),
];

/// Whether nothing has happened to a machine of one thread and one mutex.
fn is_untouched(machine: &Machine) -> bool {
    machine.fresh() && has_words(machine, &[1, u64::MAX, 0, 0, 0, 0])
}

/// Whether each of the events leaves the machine so.
fn stays_untouched(machine: &mut Machine, rows: &[Row]) -> Result<bool, Fail> {
    for row in rows {
        if !goes_through(machine, &[*row])? || !is_untouched(machine) {
            return Ok(false);
        }
    }
    Ok(true)
}

#[test]
fn an_event_that_cannot_apply_does_nothing(rt: HostRuntime) -> Result<(), Fail> {
    let mut machine = machine(rt.alloc(), 1, 1, &[])?;
    assert!(rt; stays_untouched(&mut machine, &NONE_APPLIES)?);
    Ok(())
}

#[test]
fn a_thread_in_a_call_begins_no_other(rt: HostRuntime) -> Result<(), Fail> {
    assert!(rt; !gone_through(rt.alloc(), 1, &BEGINS)?.fresh());
    assert!(rt; !gone_through(rt.alloc(), 1, &IN_A_CALL)?.fresh());
    Ok(())
}

#[test]
fn a_counter_is_preset(rt: HostRuntime) -> Result<(), Fail> {
    let mut machine = machine(rt.alloc(), 1, 1, &[0])?;
    assert!(rt; machine.layout().conditions() == 1);
    assert!(rt; machine.fresh());
    machine.preset(0, u32::MAX);
    assert!(rt; machine.fresh());
    assert!(rt; has_words(&machine, &[1, u64::MAX, 0, 0, 0, 0, 0xffff_ffff]));
    Ok(())
}

const BUSY: [Row; 5] = [
    Row(Steps(1, 1), Any, Resting, Resting),
    Row(Begins(1, UNLOCK), Any, Awake, Resting),
    Row(Steps(1, 1), Any, Resting, Resting),
    Row(Begins(1, TRY_LOCK), Any, Awake, Resting),
    Row(Steps(1, 1), Any, Awake, Resting),
];

#[test]
fn a_thread_is_busy_in_its_call(rt: HostRuntime) -> Result<(), Fail> {
    let machine = gone_through(rt.alloc(), 2, &BUSY)?;
    assert!(rt; standing_of(&machine, thread(64)?) == Resting);
    Ok(())
}

/// Thread 1 has loaded the free cell, which is at 13. Before each of its exchanges another one is woken, dies, recovers
/// the mutex, or dies with it.
static OVERTAKEN: [Act; 26] = [
    Act::Calls(1, Op::OnMutex(TRY_LOCK), 2),
    Act::Calls(2, Op::OnMutex(LOCK), 8),
    Act::Calls(3, Op::OnMutex(LOCK), 4),
    Act::Calls(2, Op::OnMutex(UNLOCK), 8),
    Act::Is(Look::Word(13, 0x8000_0000)),
    Act::Steps(1, 1),
    Act::Is(Look::Word(13, 0x8000_0000)),
    Act::Steps(3, 7),
    Act::Is(Look::Word(13, 0x8000_0003)),
    Act::Happens(Rare::Dies(3)),
    Act::Is(Look::Word(13, 0x8000_0003)),
    Act::Steps(3, 7),
    Act::Is(Look::Word(13, 0xc000_0000)),
    Act::Steps(1, 1),
    Act::Is(Look::Word(13, 0xc000_0000)),
    Act::Calls(2, Op::OnMutex(LOCK), 8),
    Act::Calls(2, Op::OnMutex(Call::Consistent(0)), 2),
    Act::Is(Look::Word(13, 0x8000_0002)),
    Act::Calls(2, Op::OnMutex(UNLOCK), 9),
    Act::Is(Look::Word(13, 0)),
    Act::Steps(1, 1),
    Act::Calls(4, Op::OnMutex(LOCK), 8),
    Act::Happens(Rare::Dies(4)),
    Act::Is(Look::Word(13, 4)),
    Act::Steps(4, 6),
    Act::Is(Look::Word(13, 0x4000_0000)),
];

#[test]
fn each_exchange_of_an_overtaken_trylock_finds_another_word(rt: HostRuntime) -> Result<(), Fail> {
    let gives_up = [Act::Happens(Rare::IsRaced(1))];
    assert_eq!(rt;
        first_wrong(rt.alloc(), (4, 1, &[]), &[&OVERTAKEN, &gives_up])?,
        None
    );
    Ok(())
}
