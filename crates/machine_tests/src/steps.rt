//! Calls of thread 2 on mutex 1 of a small layout, and on condition variable 1, which keeps that mutex: what each
//! access is answered, and where that leads. The mutex's cell is at 10, its entry at 11 and 12, the counter at 14, the
//! thread's head at 4, its pending entry at 6.
ghost use Rattle.stepprograms.specs.Programs.{UnlessReturned};
ghost use Rattle.mutex.specs.Whole as mutex;

use lockword::{Reply, Tid};
use mutex::Program;
use posixmutex::{Operation, Point};
use stepprograms::{Access, Answer, Progress, StepProgram};

/// An access and its answer.
#[derive(Clone, Copy)]
pub(crate) enum Made {
    /// Loads the word at an address, which is so.
    Loads(u64, u64),
    /// Stores a word at an address.
    Stores(u64, u64),
    /// The exchange of a cell for a new one succeeds.
    Exchanges(u64, u64),
    /// The exchange of a cell for a new one finds another.
    Finds(u64, u64, u64),
    /// Flips these bits of this cell.
    Flips(u64, u64),
    /// Sleeps at an address, expecting this low half, and is answered.
    Sleeps(u64, u32, Answer),
    /// Wakes this many at an address, at most, and this many were woken.
    Wakes(u64, u32, u32),
    /// Any access, and its answer.
    Is(Access, Answer),
}

/// How far an answer brings a call.
#[derive(Clone, Copy)]
pub(crate) enum Then {
    /// On, with no point.
    Goes,
    /// On, this access being a point.
    Decides(Operation, Reply),
    /// Leads to its return, this access being a point.
    Ends(Operation, Reply),
    /// Leads to its return, with no point.
    Returns(Reply),
}

/// An access, the answer that it is given, and where that leads.
#[derive(Clone, Copy)]
pub(crate) struct Step(pub Made, pub Then);

/// A kind of access, by its answers.
#[derive(Clone, Copy, PartialEq, Eq)]
pub(crate) enum Kind {
    /// It is answered the word.
    OfWord,
    Store,
    Exchange,
    Wait,
    Wake,
    Requeue,
    Trim,
}

/// What an access of each kind may be answered. Any may be answered `Fault` too.
pub(crate) static ANSWERS: [(Kind, &[Answer]); 7] = [
    (Kind::OfWord, &[Answer::Value(0)]),
    (Kind::Store, &[Answer::Stored]),
    (Kind::Exchange, &[Answer::Exchanged, Answer::Changed(0)]),
    (Kind::Wait, &[Answer::Again, Answer::Woken]),
    (Kind::Wake, &[Answer::Count(1)]),
    (Kind::Requeue, &[Answer::Counts(0, 0)]),
    (Kind::Trim, &[Answer::Trimmed(true)]),
];

pub(crate) fn kind_of(access: Access) -> Kind {
    match access {
        Access::Store { .. } => Kind::Store,
        Access::Exchange { .. } => Kind::Exchange,
        Access::Wait { .. } => Kind::Wait,
        Access::Wake { .. } => Kind::Wake,
        Access::Requeue { .. } | Access::CmpRequeue { .. } => Kind::Requeue,
        Access::Trim { .. } => Kind::Trim,
        _ => Kind::OfWord,
    }
}

/// A call in progress, of which some accesses may be left out.
pub(crate) trait Stepping {
    ghost is_under_way: { Self → Type 0 };

    fn access(&self) -> Access
        requires { is_under_way self.now };

    fn answered(&mut self, answer: Answer) -> Progress
        requires { is_under_way self.old }
        ensures { UnlessReturned result (is_under_way self.new) };
}

/// A call with all its accesses.
#[derive(Drop)]
pub(crate) struct Whole<P> {
    pub(crate) program: P,
}

impl<P: StepProgram> Stepping for Whole<P> {
    ghost is_under_way = { λ w. P.is_under_way w.program };

    fn access(&self) -> Access {
        self.program.next()
    }

    fn answered(&mut self, answer: Answer) -> Progress {
        self.program.resume(answer)
    }
}

/// A call on a mutex as the mutex's cell sees it: after an access there come those to its thread's list, if any.
#[derive(Clone, Copy)]
pub(crate) struct AtCell {
    pub(crate) program: Program,
}

impl Stepping for AtCell {
    ghost is_under_way = { λ p. mutex.IsUnderWay p.program.phase };

    fn access(&self) -> Access {
        self.program.next()
    }

    fn answered(&mut self, answer: Answer) -> Progress {
        match self.program.resume(answer) {
            Progress::Goes { point } => past_the_list(&mut self.program, point),
            returned => returned,
        }
    }
}

/// The call makes its accesses to its thread's list, up to one that is none, or to its return. They are to follow this
/// point, where there is one, and to have none.
pub(crate) fn past_the_list(program: &mut Program, point: Option<Point>) -> Progress
    requires { mutex.IsUnderWay program.old.phase }
    ensures { UnlessReturned result (mutex.IsUnderWay program.new.phase) }
{
    for _ in 0..8_u64 {
        let answer = match listed(program.next()) {
            Some(answer) => answer,
            None => return Progress::Goes { point },
        };
        match program.resume(answer) {
            Progress::Goes { point: None } => {}
            Progress::Returns { reply, point: None } => return Progress::Returns { reply, point },
            strange => return strange,
        }
    }
    Progress::Goes { point }
}

/// What an access to the thread's list is answered, of which each word that is loaded leads to the head.
fn listed(access: Access) -> Option<Answer> {
    match access {
        Access::Load { at: 4 | 11 | 12 } => Some(Answer::Value(4)),
        Access::Store {
            at: 4 | 6 | 11 | 12,
            ..
        } => Some(Answer::Stored),
        _ => None,
    }
}

fn access_of(made: Made) -> Access {
    match made {
        Made::Loads(at, _) => Access::Load { at },
        Made::Stores(at, value) => Access::Store { at, value },
        Made::Exchanges(expected, new) | Made::Finds(expected, new, _) => Access::Exchange {
            at: 10,
            expected,
            new,
        },
        Made::Flips(operand, _) => Access::FetchXor { at: 10, operand },
        Made::Sleeps(at, expected, _) => Access::Wait { at, expected },
        Made::Wakes(at, most, _) => Access::Wake { at, most },
        Made::Is(access, _) => access,
    }
}

fn answer_of(made: Made) -> Answer {
    match made {
        Made::Loads(_, word) | Made::Flips(_, word) => Answer::Value(word),
        Made::Stores(_, _) => Answer::Stored,
        Made::Exchanges(_, _) => Answer::Exchanged,
        Made::Finds(_, _, found) => Answer::Changed(found),
        Made::Wakes(_, _, woken) => Answer::Count(woken),
        Made::Sleeps(_, _, answer) | Made::Is(_, answer) => answer,
    }
}

fn progress_of(thread: Tid, then: Then) -> Progress {
    match then {
        Then::Goes => Progress::Goes { point: None },
        Then::Decides(operation, reply) => Progress::Goes {
            point: Some(point(thread, operation, reply)),
        },
        Then::Ends(operation, reply) => Progress::Returns {
            reply,
            point: Some(point(thread, operation, reply)),
        },
        Then::Returns(reply) => Progress::Returns { reply, point: None },
    }
}

fn point(thread: Tid, operation: Operation, reply: Reply) -> Point {
    Point {
        thread,
        at: 10,
        operation,
        reply,
    }
}

/// Whether the thread's call makes these accesses, in these parts, each of which leads where it says, and has returned
/// after them.
pub(crate) fn makes<P: Stepping + Drop>(mut program: P, thread: Tid, parts: &[&[Step]]) -> bool
    requires { P.is_under_way program }
{
    for part in parts {
        for &Step(made, then) in *part {
            if program.access() != access_of(made) {
                return false;
            }
            let progress = program.answered(answer_of(made));
            if progress != progress_of(thread, then) {
                return false;
            }
            if let Progress::Returns { .. } = progress {
                return true;
            }
        }
    }
    false
}

/// An operation, and the accesses of its call, in parts.
pub(crate) type Way = (Operation, &'static [&'static [Step]]);

/// The place of the first call that makes other accesses, by the test of one.
pub(crate) fn first_wrong<F: Fn(Operation, &[&[Step]]) -> bool>(
    calls: &[Way],
    takes: F,
) -> Option<usize>
    requires { F.IsAlwaysCallable takes }
{
    for (place, (operation, parts)) in calls.iter().enumerate() {
        if !takes(*operation, *parts) {
            return Some(place);
        }
    }
    None
}

/// An operation, cells at whose load its call ends, and its reply.
pub(crate) type Refused = (Operation, &'static [u64], Reply);

/// The first operation and cell of these that goes otherwise, by the test of one.
pub(crate) fn first_not_refused<F: Fn(Operation, &[&[Step]]) -> bool>(
    rows: &[Refused],
    takes: F,
) -> Option<(Operation, u64)>
    requires { F.IsAlwaysCallable takes }
{
    for (operation, cells, reply) in rows {
        for cell in *cells {
            let ends = [Step(Made::Loads(10, *cell), Then::Ends(*operation, *reply))];
            if !takes(*operation, &[&ends]) {
                return Some((*operation, *cell));
            }
        }
    }
    None
}

/// Operations whose calls have made these accesses, in two parts, and make this one then.
pub(crate) type Next = (&'static [Operation], [&'static [Step]; 2], Access);

/// The first operation and access of these whose call doesn't return EFAULT where the access is answered no answer of
/// it, by the test of one.
pub(crate) fn first_not_faulted<F: Fn(Operation, &[&[Step]]) -> bool>(
    rows: &[Next],
    takes: F,
) -> Option<(Operation, Access)>
    requires { F.IsAlwaysCallable takes }
{
    for (operations, [way, more], access) in rows {
        for operation in *operations {
            for answer in [Answer::Fault, Answer::Exchanged] {
                let fault = [Step(Made::Is(*access, answer), Then::Returns(Reply::EFAULT))];
                if !takes(*operation, &[*way, *more, &fault]) {
                    return Some((*operation, *access));
                }
            }
        }
    }
    None
}
