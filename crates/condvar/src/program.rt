//! Calls in progress.
ghost use Rattle.std.specs.Prelude.{◌≡◌, ◌<◌, ◌≤◌, length};
ghost use Rattle.condvar.specs.Calls.{condition_of};
ghost use Rattle.condvar.specs.Programs.{point_of};
ghost use Rattle.condvar.specs.Whole.{progress_in, onward, unlinked, from_lock, PhaseKnows};
ghost use Rattle.mutex.specs.Whole as mutex;
ghost use Rattle.robustlist.specs.Unlink.{unlink_moved, UnlinkGoes};

use crate::call::CondCall;
use crate::phase::{CondOnward, CondPhase};
use crate::row::{CondLed, CondRow, Decided};
use crate::wait::WaitRow;
use lockword::{Reply, Tid};
use memorymap::Layout;
use mutex::Program;
use posixmutex::Point;
use robustlist::Unlink;
use std::marker::Model;
use stepprograms::{Access, Answer, Progress, StepProgram};

/// A call of a thread on a condition variable.
#[derive(Clone, Copy, Debug, PartialEq, Eq)]
pub struct CondProgram {
    thread: Tid,
    head: u64,
    entry: u64,
    cell: u64,
    counter: u64,
    phase: CondPhase,
}

impl Model for CondProgram {
    ghost use Rattle.condvar.specs.Standings.{CondWhole};

    ghost Value = { CondWhole };

    ghost view = { λ p. record
        { thread = p.thread; head = p.head; entry = p.entry; cell = p.cell; counter = p.counter; phase = p.phase } };

    ghost use Rattle.condvar.specs.Whole.{PhaseKnows};

    ghost invariant = { λ p. PhaseKnows p.phase };

    ghost inverse = { λ s. record
        { thread = s.thread; head = s.head; entry = s.entry; cell = s.cell; counter = s.counter; phase = s.phase } };
}

impl CondProgram {
    ghost use Rattle.condvar.specs.Whole.{begins, begun_at, cond_at, cond_access, cond_led, cond_moved};
    ghost use Rattle.condvar.specs.Whole.{cond_progress, from_words, lock_of, phase_led, IsUnderWay};

    /// A call of a thread, which speaks of words by their addresses in the thread's process. What it may be refused for
    /// is seen in the mutex's cell and in the counter.
    pub fn new(layout: &Layout, thread: Tid, call: CondCall) -> CondProgram
        requires thread { thread ≤ layout.now.threads }
        requires condition { condition_of call < length layout.now.conditions }
        ensures { result ≡ begins layout.now thread call }
    {
        let mutex = layout.mutex_of_condition(call.condition());
        CondProgram::begin(
            thread,
            layout.address(thread, layout.head(thread)),
            layout.address(thread, layout.entry(mutex)),
            layout.address(thread, layout.cell(mutex)),
            layout.address(thread, layout.counter(call.condition())),
            call,
        )
    }

    /// A call of a thread whose head, whose mutex's entry and cell, and whose counter are at these addresses; the
    /// condition variable's number isn't looked at.
    pub fn begin(
        thread: Tid,
        head: u64,
        entry: u64,
        cell: u64,
        counter: u64,
        call: CondCall,
    ) -> CondProgram
        ensures { result ≡ begun_at thread head entry cell counter call }
    {
        CondProgram {
            thread,
            head,
            entry,
            cell,
            counter,
            phase: CondPhase::AtWords(CondRow::first(call)),
        }
    }

    /// A call that is at a phase: one that was kept elsewhere, as [`CodedCondPhase`](crate::CodedCondPhase) say,
    /// goes on from there.
    pub fn at(
        thread: Tid,
        head: u64,
        entry: u64,
        cell: u64,
        counter: u64,
        phase: CondPhase,
    ) -> CondProgram
        requires { PhaseKnows phase }
        ensures { result ≡ cond_at thread head entry cell counter phase }
    {
        CondProgram {
            thread,
            head,
            entry,
            cell,
            counter,
            phase,
        }
    }

    /// Where the call stands.
    pub fn phase(&self) -> CondPhase
        ensures { result ≡ self.now.phase }
    {
        self.phase
    }

    /// The mutex's lock that it is in, where it is a wait that is awake again.
    pub fn lock(&self) -> Option<Program>
        ensures { result ≡ lock_of self.now.phase }
    {
        match self.phase {
            CondPhase::Locking(lock) => Some(lock),
            _ => None,
        }
    }

    /// Where an answer leads.
    fn led(&self, answer: Answer) -> CondOnward
        requires { IsUnderWay self.now.phase }
        ensures value { result ≡ cond_led self.now answer }
        ensures knows { PhaseKnows result.phase }
    {
        match self.phase {
            CondPhase::AtWords(row) => self.from_words(row.resume(self.thread, answer)),
            CondPhase::Announcing { seen } => self.from_announcing(seen, answer),
            CondPhase::Unlinking { unlink, seen } => from_unlink(unlink, seen, answer),
            CondPhase::Locking(lock) => from_lock(lock, answer),
            CondPhase::Ended(reply) => CondOnward::to(CondPhase::Ended(reply)),
        }
    }

    /// Where a wait goes once its entry is pending: it takes the entry out of the list.
    fn from_announcing(&self, seen: u32, answer: Answer) -> CondOnward
        ensures value { result ≡ phase_led self.now (CondPhase.Announcing seen) answer }
        ensures knows { PhaseKnows result.phase }
    {
        match answer {
            Answer::Stored => CondOnward::to(CondPhase::Unlinking {
                unlink: Unlink::new(self.head, self.entry),
                seen,
            }),
            _ => CondOnward::faults(),
        }
    }

    /// Where a call goes from its cell or its counter: a wait that is to release the mutex announces it first, and one
    /// that is awake takes the mutex again.
    fn from_words(&self, led: CondLed) -> CondOnward
        ensures value { result ≡ from_words self.now led }
        ensures knows { PhaseKnows result.phase }
    {
        let phase = match led.row {
            CondRow::Wait(WaitRow::Release { seen }) => CondPhase::Announcing { seen },
            CondRow::Awake => CondPhase::Locking(Program::retaking(
                self.thread,
                self.head,
                self.entry,
                self.cell,
            )),
            CondRow::Ended(reply) => CondPhase::Ended(reply),
            row => CondPhase::AtWords(row),
        };
        CondOnward {
            phase,
            point: point(self.thread, self.cell, led.decided),
        }
    }
}

impl StepProgram for CondProgram {
    ghost use Rattle.condvar.specs.Whole.{cond_access, cond_led, cond_moved, cond_progress, IsUnderWay};

    ghost is_under_way = { λ p. IsUnderWay p.phase };

    ghost access = { λ p. cond_access p };

    ghost moved = { λ p x. cond_moved p (cond_led p x) };

    ghost progress = { λ p x. cond_progress (cond_led p x) };

    fn next(&self) -> Access {
        match &self.phase {
            CondPhase::AtWords(row) => row.next(self.thread, self.cell, self.counter),
            CondPhase::Announcing { .. } => Access::Store {
                at: self.head.wrapping_add(2),
                value: self.entry,
            },
            CondPhase::Unlinking { unlink, .. } => unlink.next(),
            CondPhase::Locking(lock) => lock.next(),
            CondPhase::Ended(_) => unreachable!(),
        }
    }

    /// Goes on with an answer. One that no such access has counts as `Fault`, after which the call returns `EFAULT`,
    /// and has left what its earlier accesses did.
    fn resume(&mut self, answer: Answer) -> Progress {
        let onward = self.led(answer);
        *self = CondProgram {
            thread: self.thread,
            head: self.head,
            entry: self.entry,
            cell: self.cell,
            counter: self.counter,
            phase: onward.phase,
        };
        progress(&onward.phase, onward.point)
    }
}

/// Where an answer leads an unlink: the wait is to release its mutex once the unlink has returned.
fn from_unlink(mut unlink: Unlink, seen: u32, answer: Answer) -> CondOnward
    requires { UnlinkGoes unlink.row }
    ensures value { result ≡ onward (unlinked (unlink_moved unlink answer) seen) }
    ensures knows { PhaseKnows result.phase }
{
    match unlink.resume(answer) {
        Progress::Goes { .. } => CondOnward::to(CondPhase::Unlinking { unlink, seen }),
        Progress::Returns {
            reply: Reply::OK,
            ..
        } => CondOnward::to(CondPhase::AtWords(CondRow::Wait(WaitRow::Release { seen }))),
        Progress::Returns { .. } => CondOnward::faults(),
    }
}

/// Where an answer leads the lock that ends a wait: the wait returns when it does, and its points are the lock's.
fn from_lock(mut lock: Program, answer: Answer) -> CondOnward
    requires { mutex.IsUnderWay lock.phase }
    ensures value { result
        ≡ from_lock (mutex.whole_moved lock (mutex.whole_led lock answer))
        (mutex.whole_progress lock (mutex.whole_led lock answer)) }
    ensures knows { PhaseKnows result.phase }
{
    match lock.resume(answer) {
        Progress::Goes { point } => CondOnward {
            phase: CondPhase::Locking(lock),
            point,
        },
        Progress::Returns { reply, point } => CondOnward {
            phase: CondPhase::Ended(reply),
            point,
        },
    }
}

/// The point of a thread's call at its mutex's cell, where an access decided something.
fn point(thread: Tid, cell: u64, decided: Option<Decided>) -> Option<Point>
    ensures { result ≡ point_of thread cell decided }
{
    match decided {
        Some(Decided { operation, reply }) => Some(Point {
            thread,
            at: cell,
            operation,
            reply,
        }),
        None => None,
    }
}

/// How far the call is in a phase, with the point where the access before it was one.
fn progress(phase: &CondPhase, point: Option<Point>) -> Progress
    ensures { result ≡ progress_in point phase.now }
{
    match *phase {
        CondPhase::Ended(reply) => Progress::Returns { reply, point },
        _ => Progress::Goes { point },
    }
}
