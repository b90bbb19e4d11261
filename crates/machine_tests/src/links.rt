//! Links and unlinks over the words of one thread and two mutexes: its head at 1, the mutexes' entries at 5 and 8.

use crate::words::{ANSWERS, load, store};
use lockword::Reply;
use robustlist::{Link, Unlink};
use std::process::Abort;
use stepprograms::{Access, Answer, Progress, StepProgram};

const GOES: Progress = Progress::Goes { point: None };

const LINKED: Progress = Progress::Returns {
    reply: Reply::OK,
    point: None,
};

const FAULTED: Progress = Progress::Returns {
    reply: Reply::EFAULT,
    point: None,
};

/// Whether a load or a store may be answered so.
fn is_of_loads_or_stores(answer: Answer) -> bool {
    matches!(answer, Answer::Value(_) | Answer::Stored)
}

/// The right answers of a link that finds the entry at 8 first, and beside each one that belongs to the other kind of
/// access.
const LINK: [(Answer, Answer); 5] = [
    (Answer::Value(8), Answer::Stored),
    (Answer::Stored, Answer::Value(8)),
    (Answer::Stored, Answer::Value(8)),
    (Answer::Stored, Answer::Value(8)),
    (Answer::Stored, Answer::Value(8)),
];

/// The same of an unlink that finds the entry at 8 next.
const UNLINK: [(Answer, Answer); 4] = [
    (Answer::Value(8), Answer::Stored),
    (Answer::Value(1), Answer::Stored),
    (Answer::Stored, Answer::Value(8)),
    (Answer::Stored, Answer::Value(8)),
];

/// Makes a load or a store on words of which word 0 is none.
fn make(words: &mut [u64], access: Access) -> Answer {
    match access {
        Access::Load { at } if at != 0 => load(words, at),
        Access::Store { at, value } if at != 0 => store(words, at, value),
        _ => Answer::Fault,
    }
}

/// A link or an unlink makes this many accesses, and has this reply.
fn ends<P: StepProgram + Drop>(
    rt: &impl Abort,
    words: &mut [u64],
    begun: P,
    accesses: u64,
    reply: Reply,
)
    requires { P.is_under_way begun }
{
    let mut program = begun;
    for made in 1..6_u64 {
        let answer = make(words, program.next());
        if let Progress::Returns { reply: told, .. } = program.resume(answer) {
            assert!(rt; made == accesses);
            assert!(rt; told == reply);
            return;
        }
    }
    assert!(rt; false);
}

/// The link of an entry makes this many accesses, and has this reply.
fn links(rt: &impl Abort, words: &mut [u64], entry: u64, accesses: u64, reply: Reply) {
    ends(rt, words, Link::new(1, entry), accesses, reply);
}

/// The unlink of an entry makes this many accesses, and has this reply.
fn unlinks(rt: &impl Abort, words: &mut [u64], entry: u64, accesses: u64, reply: Reply) {
    ends(rt, words, Unlink::new(1, entry), accesses, reply);
}

#[test]
fn two_entries_are_linked_and_the_first_of_them_unlinked(rt: HostRuntime) {
    let mut words = [0, 1, u64::MAX, 0, 0, 0, 0, 0, 0, 0];
    links(&rt, &mut words, 5, 4, Reply::OK);
    assert!(rt; words == [0, 5, u64::MAX, 0, 0, 1, 1, 0, 0, 0]);
    links(&rt, &mut words, 8, 5, Reply::OK);
    assert!(rt; words == [0, 8, u64::MAX, 0, 0, 1, 8, 0, 5, 1]);
    unlinks(&rt, &mut words, 5, 3, Reply::OK);
    assert!(rt; words == [0, 8, u64::MAX, 0, 0, 1, 8, 0, 1, 1]);
}

#[test]
fn the_entry_in_front_is_unlinked(rt: HostRuntime) {
    let mut words = [0, 8, u64::MAX, 0, 0, 1, 8, 0, 5, 1];
    unlinks(&rt, &mut words, 8, 4, Reply::OK);
    assert!(rt; words == [0, 5, u64::MAX, 0, 0, 1, 1, 0, 5, 1]);
}

#[test]
fn an_invalid_address_is_told(rt: HostRuntime) {
    let mut words = [0, 1, u64::MAX, 0];
    links(&rt, &mut words, u64::MAX, 2, Reply::EFAULT);
    links(&rt, &mut words, 3, 3, Reply::EFAULT);
    assert!(rt; words == [0, 1, u64::MAX, 1]);
    unlinks(&rt, &mut words, 4, 1, Reply::EFAULT);
    assert!(rt; words == [0, 1, u64::MAX, 1]);
}

#[test]
fn addresses_are_summed_in_64_bits(rt: HostRuntime) {
    let mut link = Link::new(8, u64::MAX);
    link.resume(Answer::Value(8));
    link.resume(Answer::Stored);
    assert!(rt; link.next() == Access::Store { at: 0, value: 8 });
}

/// A link or an unlink takes any other answer than these right ones for a fault.
fn takes_no_other<P: StepProgram + Copy + Drop>(
    rt: &impl Abort,
    begun: P,
    answers: &[(Answer, Answer)],
)
    requires { P.is_under_way begun }
{
    let mut program = begun;
    for (right, crossed) in answers {
        for answer in ANSWERS {
            if !is_of_loads_or_stores(answer) {
                let mut other = program;
                assert!(rt; other.resume(answer) == FAULTED);
            }
        }
        let mut other = program;
        assert!(rt; other.resume(*crossed) == FAULTED);
        let made = program.resume(*right);
        if let Progress::Returns { .. } = made {
            assert!(rt; made == LINKED);
            return;
        }
        assert!(rt; made == GOES);
    }
    assert!(rt; false);
}

#[test]
fn a_link_takes_any_other_answer_for_a_fault(rt: HostRuntime) {
    takes_no_other(&rt, Link::new(1, 5), &LINK);
}

#[test]
fn an_unlink_takes_any_other_answer_for_a_fault(rt: HostRuntime) {
    takes_no_other(&rt, Unlink::new(1, 5), &UNLINK);
}
