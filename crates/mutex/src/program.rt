//! Calls in progress.
ghost use Rattle.std.specs.Prelude.{◌≡◌, ◌<◌, ◌≤◌, ◌&&◌, nat_le};
ghost use Rattle.posixmutex.specs.Objects.{held_limit, acquires};
ghost use Rattle.mutex.specs.Calls.{mutex_of, operation_of};
ghost use Rattle.mutex.specs.Whole.{first_phase, progress_in, onward, once_stored, linked, unlinked, PhaseKnows};
ghost use Rattle.robustlist.specs.Link.{link_moved, LinkGoes};
ghost use Rattle.robustlist.specs.Unlink.{unlink_moved, UnlinkGoes};

use crate::call::Call;
use crate::lock::LockRow;
use crate::phase::{Onward, Phase};
use crate::row::{Led, Row};
use crate::unlock::UnlockRow;
use lockword::{Reply, Tid};
use memorymap::Layout;
use posixmutex::{HELD_LIMIT, Operation, Point};
use robustlist::{Link, Unlink};
use std::marker::Model;
use stepprograms::{Access, Answer, Progress, StepProgram};

/// A call of a thread on a mutex.
#[derive(Clone, Copy, Debug, PartialEq, Eq)]
pub struct Program {
    thread: Tid,
    operation: Operation,
    head: u64,
    entry: u64,
    cell: u64,
    phase: Phase,
}

impl Model for Program {
    ghost use Rattle.mutex.specs.Standings.{Whole};

    ghost Value = { Whole };

    ghost view = { λ p. record {
      thread = p.thread;
      operation = p.operation;
      head = p.head;
      entry = p.entry;
      cell = p.cell;
      phase = p.phase;
    } };

    ghost use Rattle.mutex.specs.Whole.{PhaseKnows};

    ghost invariant = { λ p. PhaseKnows p.phase };

    ghost inverse = { λ s. record {
      thread = s.thread;
      operation = s.operation;
      head = s.head;
      entry = s.entry;
      cell = s.cell;
      phase = s.phase;
    } };
}

impl Program {
    ghost use Rattle.mutex.specs.Rows.{Knows};
    ghost use Rattle.mutex.specs.declared.phase.Phase.TheVariants.{AtCell};
    ghost use Rattle.mutex.specs.Whole.{whole_started, whole_at, begun_at, retaking, whole_access};
    ghost use Rattle.mutex.specs.Whole.{whole_led, whole_moved, whole_point, whole_progress, announced};
    ghost use Rattle.mutex.specs.Whole.{expired, from_cell, after_cell, leaving, IsUnderWay, PhaseKnows};

    /// A call of a thread that holds this many mutexes. It speaks of words by their addresses in the thread's
    /// process. A lock or trylock by a thread that holds 2,048 is refused with `XHELD` before any access.
    #[inline(always)]
    pub fn new(layout: &Layout, thread: Tid, held: u16, call: Call) -> Result<Program, Reply>
        requires thread { thread ≤ layout.now.threads }
        requires mutex { mutex_of call < layout.now.mutexes }
        ensures { result ≡ whole_started layout.now thread held call }
    {
        if is_refused(held, call) {
            return Err(Reply::XHELD);
        }
        Ok(Program::begin(
            thread,
            layout.address(thread, layout.head(thread)),
            layout.address(thread, layout.entry(call.mutex())),
            layout.address(thread, layout.cell(call.mutex())),
            call,
        ))
    }

    /// A call of a thread whose head, and whose mutex's entry and cell, are at these addresses; the mutex's number
    /// isn't looked at. Whoever begins a call so has to refuse it where its thread holds 2,048 mutexes.
    #[inline(always)]
    pub fn begin(thread: Tid, head: u64, entry: u64, cell: u64, call: Call) -> Program
        ensures { result ≡ begun_at thread head entry cell call }
    {
        Program {
            thread,
            operation: call.acts_as(),
            head,
            entry,
            cell,
            phase: first_phase(call),
        }
    }

    /// A call that is at a phase: one that was kept elsewhere, as [`CodedPhase`](crate::CodedPhase) say, goes on
    /// from there.
    #[inline(always)]
    pub fn at(
        thread: Tid,
        operation: Operation,
        head: u64,
        entry: u64,
        cell: u64,
        phase: Phase,
    ) -> Program
        requires { PhaseKnows phase }
        ensures { result ≡ whole_at thread operation head entry cell phase }
    {
        Program {
            thread,
            operation,
            head,
            entry,
            cell,
            phase,
        }
    }

    /// A lock that takes its mutex again, as a wait on a condition variable does once it is awake: from the load of the
    /// cell on, the mutex's entry being pending. It is given the addresses of the thread's head and of the mutex's
    /// entry and cell, and is never refused with `XHELD`: its thread held the mutex before.
    pub fn retaking(thread: Tid, head: u64, entry: u64, cell: u64) -> Program
        ensures { result ≡ retaking thread head entry cell }
    {
        Program {
            thread,
            operation: Operation::Lock,
            head,
            entry,
            cell,
            phase: Phase::AtCell(Row::Lock(LockRow::Load)),
        }
    }

    /// Where the call stands.
    #[inline(always)]
    pub fn phase(&self) -> Phase
        ensures { result ≡ self.now.phase }
    {
        self.phase
    }

    /// A lock that sleeps, once its time limit has come: what is left is that it clears its entry and returns
    /// `ETIMEDOUT`. `None` where it doesn't sleep. Whoever asks knows whether it has a time limit.
    pub fn expired(&self) -> Option<Program>
        ensures { result ≡ expired self.now }
    {
        match self.phase {
            Phase::AtCell(Row::Lock(LockRow::Load | LockRow::Sleep { .. })) => Some(Program {
                phase: Phase::Clearing {
                    reply: Reply::ETIMEDOUT,
                },
                ..*self
            }),
            _ => None,
        }
    }

    #[inline(always)]
    fn point(&self, decided: Option<Reply>) -> Option<Point>
        ensures { result ≡ whole_point self.now decided }
    {
        match decided {
            Some(reply) => Some(Point {
                thread: self.thread,
                at: self.cell,
                operation: self.operation,
                reply,
            }),
            None => None,
        }
    }

    /// Where an answer leads.
    #[inline(always)]
    fn led(&self, answer: Answer) -> Onward
        requires { IsUnderWay self.now.phase }
        ensures value { result ≡ whole_led self.now answer }
        ensures knows { PhaseKnows result.phase }
    {
        match self.phase {
            Phase::Announcing { next } => stored(self.announced(next), answer),
            Phase::AtCell(row) => self.from_cell(row.resume(self.thread, answer)),
            Phase::Linking { link, reply } => from_link(link, reply, answer),
            Phase::Unlinking { unlink, died } => from_unlink(unlink, died, answer),
            Phase::Clearing { reply } => stored(Phase::Ended(reply), answer),
            Phase::Ended(reply) => Onward::to(Phase::Ended(reply)),
        }
    }

    /// Where a call goes once its entry is pending: one that is to release the mutex first takes the entry out of the
    /// list.
    #[inline(always)]
    fn announced(&self, next: Row) -> Phase
        requires { PhaseKnows (AtCell next) }
        ensures value { result ≡ announced self.now next }
        ensures knows { PhaseKnows result }
    {
        match next {
            Row::Unlock(UnlockRow::Release { died }) => Phase::Unlinking {
                unlink: Unlink::new(self.head, self.entry),
                died,
            },
            row => Phase::AtCell(row),
        }
    }

    /// Where a call goes from its mutex's cell.
    #[inline(always)]
    fn from_cell(&self, led: Led) -> Onward
        requires { Knows led.row }
        ensures value { result ≡ from_cell self.now led }
        ensures knows { PhaseKnows result.phase }
    {
        let phase = match led.row {
            Row::Ended(reply) => self.leaving(reply),
            Row::Unlock(UnlockRow::Release { died }) => Phase::Announcing {
                next: Row::Unlock(UnlockRow::Release { died }),
            },
            row => Phase::AtCell(row),
        };
        Onward {
            phase,
            point: led.point,
        }
    }

    /// Where a call goes that is finished with the cell: a mutex that was taken is put on the list, and an entry
    /// that is pending is cleared.
    #[inline(always)]
    fn leaving(&self, reply: Reply) -> Phase
        ensures value { result ≡ leaving self.now self.now.operation reply }
        ensures knows { PhaseKnows result }
    {
        match (self.operation, reply) {
            (_, Reply::EFAULT) => Phase::Ended(reply),
            (Operation::Lock | Operation::TryLock, Reply::OK | Reply::EOWNERDEAD) => {
                Phase::Linking {
                    link: Link::new(self.head, self.entry),
                    reply,
                }
            }
            (Operation::Lock | Operation::TryLock, _) => Phase::Clearing { reply },
            (Operation::Unlock, Reply::OK) => Phase::Clearing { reply },
            _ => Phase::Ended(reply),
        }
    }
}

impl StepProgram for Program {
    ghost use Rattle.mutex.specs.Whole.{whole_access, whole_led, whole_moved, whole_progress, IsUnderWay};

    ghost is_under_way = { λ p. IsUnderWay p.phase };

    ghost access = { λ p. whole_access p };

    ghost moved = { λ p x. whole_moved p (whole_led p x) };

    ghost progress = { λ p x. whole_progress p (whole_led p x) };

    #[inline(always)]
    fn next(&self) -> Access {
        match &self.phase {
            Phase::Announcing { .. } => Access::Store {
                at: self.head.wrapping_add(2),
                value: self.entry,
            },
            Phase::AtCell(row) => row.next(self.thread, self.cell),
            Phase::Linking { link, .. } => link.next(),
            Phase::Unlinking { unlink, .. } => unlink.next(),
            Phase::Clearing { .. } => Access::Store {
                at: self.head.wrapping_add(2),
                value: 0,
            },
            Phase::Ended(_) => unreachable!(),
        }
    }

    /// Goes on with an answer. One that no such access has counts as `Fault`, after which the call returns `EFAULT`,
    /// and has left what its earlier accesses did.
    #[inline(always)]
    fn resume(&mut self, answer: Answer) -> Progress {
        let onward = self.led(answer);
        let progress = progress(&onward.phase, self.point(onward.point));
        self.phase = onward.phase;
        progress
    }
}

/// Where the answer of a store leads: on to a phase, once it is stored.
#[inline(always)]
fn stored(phase: Phase, answer: Answer) -> Onward
    requires { PhaseKnows phase }
    ensures value { result ≡ once_stored phase answer }
    ensures knows { PhaseKnows result.phase }
{
    match answer {
        Answer::Stored => Onward::to(phase),
        _ => Onward::faults(),
    }
}

/// Where an answer leads a link: the mutex is on the list, with the reply of its taking, once the link has returned.
#[inline(always)]
fn from_link(mut link: Link, reply: Reply, answer: Answer) -> Onward
    requires { LinkGoes link.row }
    ensures value { result ≡ onward (linked reply (link_moved link answer)) }
    ensures knows { PhaseKnows result.phase }
{
    match link.resume(answer) {
        Progress::Goes { .. } => Onward::to(Phase::Linking { link, reply }),
        Progress::Returns {
            reply: Reply::OK,
            ..
        } => Onward::to(Phase::Clearing { reply }),
        Progress::Returns { .. } => Onward::faults(),
    }
}

/// Where an answer leads an unlink: the mutex is to be released, in which OWNER_DIED is as noted, once the unlink has
/// returned.
#[inline(always)]
fn from_unlink(mut unlink: Unlink, died: bool, answer: Answer) -> Onward
    requires { UnlinkGoes unlink.row }
    ensures value { result ≡ onward (unlinked (unlink_moved unlink answer) died) }
    ensures knows { PhaseKnows result.phase }
{
    match unlink.resume(answer) {
        Progress::Goes { .. } => Onward::to(Phase::Unlinking { unlink, died }),
        Progress::Returns {
            reply: Reply::OK,
            ..
        } => Onward::to(Phase::AtCell(Row::Unlock(UnlockRow::Release { died }))),
        Progress::Returns { .. } => Onward::faults(),
    }
}

/// Whether a thread that holds this many mutexes may not make the call.
#[inline(always)]
fn is_refused(held: u16, call: Call) -> bool
    ensures { result ≡ (acquires (operation_of call) && nat_le held_limit held) }
{
    matches!(call, Call::Lock(_) | Call::TimedLock(_) | Call::TryLock(_)) && HELD_LIMIT <= held
}

/// Where a call begins: a lock or trylock makes its entry pending first.
#[inline(always)]
fn first_phase(call: Call) -> Phase
    ensures value { result ≡ first_phase call }
    ensures knows { PhaseKnows result }
{
    match call {
        Call::Lock(_) | Call::TimedLock(_) | Call::TryLock(_) => Phase::Announcing {
            next: Row::first(call),
        },
        Call::Unlock(_) | Call::Consistent(_) => Phase::AtCell(Row::first(call)),
    }
}

/// How far the call is in a phase, with the point where the access before it was one.
#[inline(always)]
fn progress(phase: &Phase, point: Option<Point>) -> Progress
    ensures { result ≡ progress_in point phase.now }
{
    match *phase {
        Phase::Ended(reply) => Progress::Returns { reply, point },
        _ => Progress::Goes { point },
    }
}
