//! Calls in progress, each with its pass, and what they come to. (Their methods stand apart: a struct with a ghost
//! field reads all definitions that its file names, and those of methods name the struct.)
ghost use Rattle.std.specs.Prelude.{◌≤◌, ◌≡◌};
ghost use Rattle.exitwalk.specs.Walks.{IsGoing};
ghost use Rattle.mutex.specs.Whole.{IsUnderWay};
ghost use Rattle.ruledwords.specs.Calls.{Ready, ready_prop, under_way_prop, most, row_in, standing_of};
ghost use Rattle.ruledwords.specs.Rules.{card_of};
ghost use Rattle.ruledwords.specs.Conditions.{at_condition_prop, cond_row_in, most_behind, IsAtCondition};
ghost use Rattle.ruledwords.specs.Owing.{owing_at};
ghost use Rattle.ruledwords.specs.Walks.{going_prop};

use crate::pass::{Dead, Live, Pass, Reaped};
use condvar::CondProgram;
use exitwalk::Walk;
use lockword::Reply;
use mutex::Program;

/// A pass, and the call that its thread makes, which hasn't returned. Whoever runs it makes its accesses in turn: a
/// step by [`Running::access`]; a futex section under a lock of the caller's own, which reads its word by
/// [`Running::load`] or trims it by [`Running::trim`], and whose answer goes to [`Running::answer`].
#[derive(Drop)]
pub struct Running {
    pub(crate) pass: Pass<Live>,
    pub(crate) program: Program,
    pub ghost ready: { Ready (standing_of program) (card_of pass.seat.me.0) } by { ready_prop (standing_of program) (card_of pass.seat.me.0) },
    pub ghost room: { pass.held ≤ most (row_in program.phase) },
    pub ghost going: { IsUnderWay program.phase } by { under_way_prop program.phase },
}

/// What one access of a call leads to.
#[derive(Drop)]
pub enum Turn {
    /// The call has further accesses.
    Goes(Running),
    /// The call has replied.
    Lives(Pass<Live>, Reply),
}

/// What accesses of a call that are made one after the other lead to.
#[derive(Drop)]
pub enum Stretch {
    /// The call has further accesses.
    Goes(Running),
    /// The call has replied.
    Lives(Pass<Live>, Reply),
    /// The thread died in the call.
    Dead(Pass<Dead>),
}

/// A pass, and the call on a condition variable that its thread makes, which hasn't returned. Whoever runs it makes its
/// accesses in turn, as those of a [`Running`]: a step by [`CondRunning::access`]; a futex section under the caller's
/// own locks, which reads a counter's word by [`CondRunning::load`], and whose answer goes to [`CondRunning::answer`].
#[derive(Drop)]
pub struct CondRunning {
    pub(crate) pass: Pass<Live>,
    pub(crate) program: CondProgram,
    pub ghost mine: { program.thread ≡ (card_of pass.seat.me.0).thread },
    pub ghost room: { pass.held ≤ most_behind (cond_row_in program.phase) },
    pub ghost there: { IsAtCondition program.phase } by { at_condition_prop program.phase },
}

/// What one access of a call on a condition variable leads to.
#[derive(Drop)]
pub enum CondTurn {
    /// The call has further accesses.
    Goes(CondRunning),
    /// The call is a wait that has released its mutex and is awake again: this lock takes the mutex, and ends the wait
    /// with its reply.
    Locks(Running),
    /// The call has replied.
    Lives(Pass<Live>, Reply),
}

/// What a call ends in.
#[derive(Drop)]
pub enum Outcome {
    /// The thread lives, and the call replied.
    Lives(Pass<Live>, Reply),
    /// The thread died in the call.
    Dead(Pass<Dead>),
}

/// How many sleepers a release has to wake.
#[derive(Clone, Copy, Debug, PartialEq, Eq)]
pub enum Wakes {
    Nobody,
    One,
    /// All sleepers of a mutex that became unusable.
    All,
}

/// An unlock whose thread has freed its mutex, and has to wake this many sleepers before it ends. It must be spent:
/// [`Owed::settle`] where nobody is to be woken, [`Running::owed`], or [`Owed::abandon`].
pub struct Owed {
    pub(crate) running: Running,
    pub(crate) wakes: Wakes,
    pub ghost at: { running.program.phase ≡ owing_at wakes },
}

/// What a release ends in.
pub enum Released {
    /// The mutex is freed.
    Owes(Owed),
    /// The thread doesn't own the mutex: the reply is EPERM.
    Refused(Pass<Live>, Reply),
    /// The thread died in the call.
    Dead(Pass<Dead>),
}

/// The pass of a thread that died, and the kernel's walk over its list, which hasn't ended (robust-futexes;
/// get_robust_list(2)). Whoever runs it makes its accesses in turn: a step by [`Reaping::access`]; a wake under a lock
/// of the caller's own, at [`Reaping::place`], whose count goes to [`Reaping::answer`].
#[derive(Drop)]
pub struct Reaping {
    pub(crate) pass: Pass<Dead>,
    pub(crate) walk: Walk,
    pub ghost going: { IsGoing walk.row } by { going_prop walk.row },
}

/// What one access of a walk leads to.
#[derive(Drop)]
pub enum Walked {
    /// The walk has further accesses.
    Goes(Reaping),
    /// The walk has ended, and its thread holds nothing.
    Reaped(Pass<Reaped>),
}
