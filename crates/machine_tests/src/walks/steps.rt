//! Walks of thread 1, access by access.
ghost use Rattle.exitwalk.specs.Walks.{IsGoing};

use super::{BACK, OWNER_DIED, WAITERS, death};
use crate::batches::thread;
use crate::words::ANSWERS;
use exitwalk::Walk;
use lockword::{Reply, Tid};
use std::process::Abort;
use stepprograms::{Access, Answer, Progress, StepProgram};

/// How far an answer brings a walk.
#[derive(Clone, Copy)]
enum Then {
    /// On.
    Goes,
    /// On, by the death of the owner of the word at 7.
    Dies,
    /// Leads to its end.
    Ends,
    /// Leads to its end, by such a death.
    DiesAndEnds,
}

/// An access, the answer that it is given, and where that leads.
#[derive(Clone, Copy)]
enum Step {
    /// The load at an address, of a word.
    Load(u64, u64, Then),
    /// The exchange of the word at 7 that was seen as this, for that.
    Mark(u64, u64, Answer, Then),
    /// The wake of a sleeper on that word.
    Wake(Then),
}

impl Step {
    fn access(self) -> Access {
        match self {
            Step::Load(at, _, _) => Access::Load { at },
            Step::Mark(expected, new, _, _) => Access::Exchange {
                at: 7,
                expected,
                new,
            },
            Step::Wake(_) => Access::Wake { at: 7, most: 1 },
        }
    }

    fn answer(self) -> Answer {
        match self {
            Step::Load(_, word, _) => Answer::Value(word),
            Step::Mark(_, _, answer, _) => answer,
            Step::Wake(_) => Answer::Count(1),
        }
    }

    fn then(self) -> Then {
        match self {
            Step::Load(_, _, then) | Step::Mark(_, _, _, then) | Step::Wake(then) => then,
        }
    }
}

/// The walk has ended, for no death.
const END: Progress = Progress::Returns {
    reply: Reply::OK,
    point: None,
};

fn progress(thread: Tid, then: Then) -> Progress {
    match then {
        Then::Goes => Progress::Goes { point: None },
        Then::Dies => Progress::Goes {
            point: Some(death(thread, 7)),
        },
        Then::Ends => END,
        Then::DiesAndEnds => Progress::Returns {
            reply: Reply::OK,
            point: Some(death(thread, 7)),
        },
    }
}

/// The list of one entry at 8, whose mutex's word is at 7, up to the load of that word.
const TO_THE_LISTED_WORD: [Step; 4] = [
    Step::Load(1, 8, Then::Goes),
    Step::Load(2, BACK, Then::Goes),
    Step::Load(3, 0, Then::Goes),
    Step::Load(8, 1, Then::Goes),
];

/// No list, and the pending entry at 8.
const TO_THE_PENDING_WORD: [Step; 3] = [
    Step::Load(1, 1, Then::Goes),
    Step::Load(2, BACK, Then::Goes),
    Step::Load(3, 8, Then::Goes),
];

/// The walk of the list whose head is at 1 makes first these accesses and then those, and ends with the last.
fn takes(rt: &impl Abort, first: &[Step], rest: &[Step]) {
    let thread = thread(rt, 1);
    let mut walk = Walk::new(thread, 1);
    let count = first.len().wrapping_add(rest.len());
    for index in 0..count {
        let step = if index < first.len() {
            first[index]
        } else {
            let index = index.wrapping_sub(first.len());
            assert!(rt; index < rest.len());
            rest[index]
        };
        assert!(rt; walk.next() == step.access());
        let made = walk.resume(step.answer());
        assert!(rt; made == progress(thread, step.then()));
        if let Progress::Returns { .. } = made {
            assert!(rt; index.wrapping_add(1) == count);
            return;
        }
    }
    assert!(rt; false);
}

/// Where the word is that is treated.
#[derive(Clone, Copy)]
enum Whose {
    Listed,
    Pending,
    /// First the one and then the other.
    Either,
}

/// The walk up to such a word makes these accesses then.
fn follows(rt: &impl Abort, whose: Whose, steps: &[Step]) {
    match whose {
        Whose::Listed => takes(rt, &TO_THE_LISTED_WORD, steps),
        Whose::Pending => takes(rt, &TO_THE_PENDING_WORD, steps),
        Whose::Either => {
            takes(rt, &TO_THE_LISTED_WORD, steps);
            takes(rt, &TO_THE_PENDING_WORD, steps);
        }
    }
}

/// Bits above the low half.
const ABOVE: u64 = 5 << 32;

/// A word of thread 1 with no bit of WAITERS, and the same marked.
const MARKS: [(u64, u64); 3] = [
    (1, OWNER_DIED),
    (ABOVE + 1, ABOVE + OWNER_DIED),
    (OWNER_DIED + 1, OWNER_DIED),
];

#[test]
fn a_word_is_marked_and_a_sleeper_is_woken(rt: HostRuntime) {
    for (word, new) in MARKS {
        let marked = Step::Mark(word, new, Answer::Exchanged, Then::DiesAndEnds);
        follows(
            &rt,
            Whose::Either,
            &[Step::Load(7, word, Then::Goes), marked],
        );
        let (word, new) = (word | WAITERS, new | WAITERS);
        let marked = Step::Mark(word, new, Answer::Exchanged, Then::Dies);
        let woken = Step::Wake(Then::Ends);
        follows(
            &rt,
            Whose::Either,
            &[Step::Load(7, word, Then::Goes), marked, woken],
        );
    }
}

const OF_OTHERS: [u64; 3] = [2, WAITERS + 2, OWNER_DIED + 3];

const UNOWNED: [u64; 3] = [0, WAITERS, OWNER_DIED];

#[test]
fn a_word_of_another_owner_is_left_alone(rt: HostRuntime) {
    for word in OF_OTHERS {
        follows(&rt, Whose::Either, &[Step::Load(7, word, Then::Ends)]);
    }
    for word in UNOWNED {
        follows(&rt, Whose::Listed, &[Step::Load(7, word, Then::Ends)]);
        let seen = Step::Load(7, word, Then::Goes);
        follows(&rt, Whose::Pending, &[seen, Step::Wake(Then::Ends)]);
    }
}

/// The load of a word of thread 1.
const SEEN: Step = Step::Load(7, 1, Then::Goes);

const WAITS: u64 = WAITERS + 1;

/// The first exchange of that word, which found one with WAITERS.
const WAITERS_CAME: Step = Step::Mark(1, OWNER_DIED, Answer::Changed(WAITS), Then::Goes);

const WAITING_MARKED: u64 = WAITERS + OWNER_DIED;

/// A second exchange, and the wake.
const MARKED_LATER: [Step; 4] = [
    SEEN,
    WAITERS_CAME,
    Step::Mark(WAITS, WAITING_MARKED, Answer::Exchanged, Then::Dies),
    Step::Wake(Then::Ends),
];

/// A second exchange that failed too.
const MISSED: [Step; 3] = [
    SEEN,
    WAITERS_CAME,
    Step::Mark(WAITS, WAITING_MARKED, Answer::Changed(1), Then::Ends),
];

/// A first exchange that found another owner.
const TAKEN: [Step; 2] = [
    SEEN,
    Step::Mark(1, OWNER_DIED, Answer::Changed(2), Then::Ends),
];

/// One that found no owner, at an entry of the list.
const FREED: [Step; 2] = [
    SEEN,
    Step::Mark(1, OWNER_DIED, Answer::Changed(WAITERS), Then::Ends),
];

/// The same at the pending entry.
const FREED_PENDING: [Step; 3] = [
    SEEN,
    Step::Mark(1, OWNER_DIED, Answer::Changed(WAITERS), Then::Goes),
    Step::Wake(Then::Ends),
];

#[test]
fn a_changed_word_is_looked_at_once(rt: HostRuntime) {
    follows(&rt, Whose::Either, &MARKED_LATER);
    follows(&rt, Whose::Either, &MISSED);
    follows(&rt, Whose::Either, &TAKEN);
    follows(&rt, Whose::Listed, &FREED);
    follows(&rt, Whose::Pending, &FREED_PENDING);
}

/// A walk with an access of each kind; the word of its pending entry, at 11, is another thread's.
const EACH_ACCESS: [Step; 8] = [
    Step::Load(1, 8, Then::Goes),
    Step::Load(2, BACK, Then::Goes),
    Step::Load(3, 12, Then::Goes),
    Step::Load(8, 1, Then::Goes),
    Step::Load(7, WAITS, Then::Goes),
    Step::Mark(WAITS, WAITING_MARKED, Answer::Exchanged, Then::Dies),
    Step::Wake(Then::Goes),
    Step::Load(11, 2, Then::Ends),
];

/// Whether the access of this step may be answered so.
fn is_answered(step: Step, answer: Answer) -> bool {
    match step {
        Step::Load(_, _, _) => matches!(answer, Answer::Value(_)),
        Step::Mark(_, _, _, _) => matches!(answer, Answer::Exchanged | Answer::Changed(_)),
        Step::Wake(_) => matches!(answer, Answer::Count(_)),
    }
}

/// Any answer of another access ends the walk.
fn others_end(rt: &impl Abort, walk: Walk, step: Step)
    requires { IsGoing walk.row }
{
    for answer in ANSWERS {
        if !is_answered(step, answer) {
            let mut cut = walk;
            assert!(rt; cut.resume(answer) == END);
        }
    }
}

#[test]
fn an_answer_of_another_access_ends_the_walk(rt: HostRuntime) {
    let mut walk = Walk::new(thread(&rt, 1), 1);
    for step in EACH_ACCESS {
        assert!(rt; walk.next() == step.access());
        others_end(&rt, walk, step);
        if let Progress::Returns { .. } = walk.resume(step.answer()) {
            assert!(rt; matches!(step, Step::Load(11, _, _)));
            return;
        }
    }
    assert!(rt; false);
}
