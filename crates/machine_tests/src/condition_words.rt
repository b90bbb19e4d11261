//! Calls on a condition variable over a plain list of words: thread 2 alone, that owns mutex 1.

use crate::condition_calls::call;
use condvar::CondProgram;
use lockword::Reply::{self, EPERM, OK, XFULL, XSTATE};
use lockword::Tid;
use memorymap::Layout;
use posixmutex::Operation;
use posixmutex::Operation::{Broadcast, Signal, Wait};
use stepprograms::{Access, Answer, Progress, StepProgram};

/// The words where the mutex's cell and the counter are so: each head leads to itself, but thread 2's to its mutex's
/// entry.
fn held(cell: u64, counter: u64) -> [u64; 15] {
    [0, 1, 0, 0, 11, 0, 0, 0, 0, 0, cell, 4, 4, 0, counter]
}

/// The answer where the word is the expected one; else that it differs.
fn slept(word: u64, expected: u32, answer: Answer) -> Answer {
    if word == u64::from(expected) {
        answer
    } else {
        Answer::Again
    }
}

/// What an access is answered that finds this word, and the word that it leaves. Nobody sleeps; whoever falls asleep is
/// woken at once.
fn made(access: Access, word: u64) -> (Answer, u64) {
    match access {
        Access::Load { .. } => (Answer::Value(word), word),
        Access::Store { value, .. } => (Answer::Stored, value),
        Access::Exchange { expected, new, .. } => {
            if word == expected {
                (Answer::Exchanged, new)
            } else {
                (Answer::Changed(word), word)
            }
        }
        Access::FetchXor { operand, .. } => (Answer::Value(word), word ^ operand),
        Access::FetchOr { operand, .. } => (Answer::Value(word), word | operand),
        Access::FetchAdd { operand, .. } => (Answer::Value(word), word.wrapping_add(operand)),
        Access::Wait { expected, .. } => (slept(word, expected, Answer::Woken), word),
        Access::Wake { .. } => (Answer::Count(0), word),
        Access::CmpRequeue { expected, .. } => {
            (slept(word, expected, Answer::Counts(0, 0)), word)
        }
        Access::FetchAnd { .. } | Access::Requeue { .. } | Access::Trim { .. } => {
            (Answer::Fault, word)
        }
    }
}

/// The place of the word that an access finds.
fn place_of(access: Access) -> u64 {
    match access {
        Access::Load { at }
        | Access::Store { at, .. }
        | Access::Exchange { at, .. }
        | Access::FetchXor { at, .. }
        | Access::FetchOr { at, .. }
        | Access::FetchAnd { at, .. }
        | Access::FetchAdd { at, .. }
        | Access::Wait { at, .. }
        | Access::Wake { at, .. }
        | Access::Trim { at } => at,
        Access::Requeue { from, .. } | Access::CmpRequeue { from, .. } => from,
    }
}

/// Makes an access to one of these words, of which word 0 is none.
fn make(words: &mut [u64], access: Access) -> Answer {
    let place = place_of(access);
    match words.get_mut(place as usize) {
        Some(word) if place != 0 => {
            let (answer, after) = made(access, *word);
            *word = after;
            answer
        }
        _ => Answer::Fault,
    }
}

/// The accesses that a call makes to its return, and its reply.
type Ran = (u64, Option<Reply>);

/// Runs a call of thread 2 to its return, or to where it is about to sleep where that is wanted, and tells the accesses
/// before that and the reply; None where it does neither.
fn runs(words: &mut [u64], operation: Operation, asleep: bool) -> Option<Ran> {
    let thread = Tid::new(2)?;
    let layout = Layout::new(2, 2, &[0, 1]).ok()?;
    let mut program = CondProgram::new(&layout, thread, call(operation, 1));
    for accesses in 0..32_u64 {
        let access = program.next();
        if asleep && matches!(access, Access::Wait { .. }) {
            return Some((accesses, None));
        }
        if let Progress::Returns { reply, .. } = program.resume(make(words, access)) {
            return Some((accesses + 1, Some(reply)));
        }
    }
    None
}

/// A cell and a counter, a call with its accesses and its reply, and the cell and the counter that it leaves.
type Row = ((u64, u64), Operation, u64, Reply, (u64, u64));

/// The place of the first row whose words don't lead the call to its return so, or in which it changes another word.
fn first_wrong(rows: &[Row]) -> Option<usize> {
    for (place, (before, operation, accesses, reply, after)) in rows.iter().enumerate() {
        let mut words = held(before.0, before.1);
        let ran = runs(&mut words, *operation, false);
        if ran != Some((*accesses, Some(*reply))) || words != held(after.0, after.1) {
            return Some(place);
        }
    }
    None
}

#[test]
fn the_entry_is_pending_while_a_wait_sleeps(rt: HostRuntime) {
    let mut words = held(2, 5);
    assert!(rt; runs(&mut words, Wait, true) == Some((7, None)));
    assert!(rt; words == [0, 1, 0, 0, 4, 0, 11, 0, 0, 0, 0, 4, 4, 0, 5]);
}

/// A wait that is woken has its mutex again; a signal leaves the cell, and a broadcast sets WAITERS; and a call that is
/// refused changes nothing.
static CALLS: [Row; 8] = [
    ((2, 5), Wait, 15, OK, (2, 5)),
    ((2, 5), Signal, 4, OK, (2, 6)),
    ((2, 6), Broadcast, 5, OK, (0x8000_0002, 7)),
    ((0x4000_0002, 5), Wait, 1, XSTATE, (0x4000_0002, 5)),
    ((2, 0xffff_ffff), Signal, 2, XFULL, (2, 0xffff_ffff)),
    ((1, 5), Signal, 1, EPERM, (1, 5)),
    ((2, 0xffff_ffff), Broadcast, 2, XFULL, (2, 0xffff_ffff)),
    ((1, 5), Broadcast, 1, EPERM, (1, 5)),
];

#[test]
fn a_call_returns_and_leaves_its_words(rt: HostRuntime) {
    assert_eq!(rt; first_wrong(&CALLS), None);
}
