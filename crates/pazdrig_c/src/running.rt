//! Calls in progress: reading one from its numbers, and going on with it.
ghost use Rattle.std.specs.Prelude.{◌≡◌, IfSome, Some};
ghost use Rattle.posixmutex.specs.declared.point.Operation.{Operation};
ghost use Rattle.pazdrig_c.specs.Accesses.{operation_number};
ghost use Rattle.pazdrig_c.specs.Running.{IsRunning, IsOnMutex, Expires, GoesOn, call_code, expired};
ghost use Rattle.pazdrig_c.specs.declared.running.Running.{Running};
ghost use Rattle.pazdrig_c.specs.declared.running.Running.TheVariants.{OnMutex, OnCondition};

use crate::access::{coded, decided, no_access, with_point};
use crate::structs::{PzAccess, PzCall};
use condvar::{CodedCondPhase, CondProgram};
use lockword::{Reply, Tid};
use mutex::{CodedPhase, Program};
use posixmutex::Operation;
use stepprograms::{Answer, Progress, StepProgram};

/// What is answered of a call that goes on, of one that has returned, and of numbers that no call has.
pub(crate) const GOES: u32 = 0;

pub(crate) const RETURNED: u32 = 1;

pub(crate) const INVALID: u32 = 2;

/// What a call on a condition variable has for its program's number.
pub(crate) const ON_CONDITION: u8 = 4;

/// A call on a mutex, or on a condition variable.
#[derive(Clone, Copy, Debug, PartialEq, Eq)]
pub(crate) enum Running {
    OnMutex(Program),
    OnCondition(CondProgram),
}

/// The call whose numbers these are; `None` where no call in progress has them.
#[inline(always)]
pub(crate) fn read(call: &PzCall) -> Option<Running>
    ensures has_these { IfSome result (λ r. IsRunning r × (call_code r ≡ call.now)) }
    ensures each { (r : Running) → IsRunning r → call_code r ≡ call.now → result ≡ Some r }
{
    let thread = Tid::new(call.thread)?;
    if call.program == ON_CONDITION {
        let phase = call.phase.phase(thread, call.head, call.entry, call.cell)?;
        return Some(Running::OnCondition(CondProgram::at(
            thread,
            call.head,
            call.entry,
            call.cell,
            call.counter,
            phase,
        )));
    }
    let operation = numbered(call.program)?;
    if call.counter != 0 || call.phase.seen != 0 || call.phase.kind != 0 {
        return None;
    }
    let phase = call.phase.lock.phase(call.head, call.entry)?;
    Some(Running::OnMutex(Program::at(thread, operation, call.head, call.entry, call.cell, phase)))
}

/// The operation of a program on a mutex.
#[inline(always)]
fn numbered(program: u8) -> Option<Operation>
    ensures of_mutexes { IfSome result (λ op. IsOnMutex op × (operation_number op ≡ program)) }
    ensures each { (op : Operation) → IsOnMutex op → operation_number op ≡ program → result ≡ Some op }
{
    match program {
        0 => Some(Operation::Lock),
        1 => Some(Operation::TryLock),
        2 => Some(Operation::Unlock),
        3 => Some(Operation::Consistent),
        _ => None,
    }
}

/// Goes on with an answer: the numbers of the call become those of what it leaves, and the next access is recorded,
/// or none where it has returned.
#[inline(always)]
pub(crate) fn go_on(
    running: Running,
    call: &mut PzCall,
    access: &mut PzAccess,
    answer: Answer,
) -> u32
    requires running { IsRunning running }
    requires numbers { call_code running ≡ call.old }
    ensures { GoesOn running answer result call.new access.new }
{
    match running {
        Running::OnMutex(program) => on_mutex(program, call, access, answer),
        Running::OnCondition(program) => on_condition(program, call, access, answer),
    }
}

#[inline(always)]
fn on_mutex(mut program: Program, call: &mut PzCall, access: &mut PzAccess, answer: Answer) -> u32
    requires running { IsRunning (OnMutex program) }
    requires numbers { call_code (OnMutex program) ≡ call.old }
    ensures { GoesOn (OnMutex program) answer result call.new access.new }
{
    let progress = program.resume(answer);
    call.phase.lock = CodedPhase::of(&program.phase());
    match progress {
        Progress::Goes { point } => {
            *access = with_point(point, coded(program.next()));
            GOES
        }
        Progress::Returns { point, .. } => {
            *access = with_point(point, no_access());
            RETURNED
        }
    }
}

fn on_condition(
    mut program: CondProgram,
    call: &mut PzCall,
    access: &mut PzAccess,
    answer: Answer,
) -> u32
    requires running { IsRunning (OnCondition program) }
    requires numbers { call_code (OnCondition program) ≡ call.old }
    ensures { GoesOn (OnCondition program) answer result call.new access.new }
{
    let progress = program.resume(answer);
    call.phase = CodedCondPhase::of(&program.phase());
    match progress {
        Progress::Goes { point } => {
            *access = with_point(point, coded(program.next()));
            GOES
        }
        Progress::Returns { point, .. } => {
            *access = with_point(point, no_access());
            RETURNED
        }
    }
}

/// The time limit of a lock has come: its numbers become those of what is left of it, and its access is recorded; of
/// a call that is no lock that may sleep nothing changes.
pub(crate) fn expire(running: Running, call: &mut PzCall, access: &mut PzAccess) -> u32
    requires { call_code running ≡ call.old }
    ensures { Expires (expired running) result call.old call.new access.old access.new }
{
    let Running::OnMutex(program) = running else {
        return INVALID;
    };
    let Some(left) = program.expired() else {
        return INVALID;
    };
    call.phase.lock = CodedPhase::of(&left.phase());
    *access = decided(Operation::TimedLock, Reply::ETIMEDOUT, coded(left.next()));
    GOES
}
