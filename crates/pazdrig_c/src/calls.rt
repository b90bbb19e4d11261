//! Calls, access by access.
ghost use Rattle.std.specs.Prelude.{◌≡◌, ◌≢◌, Some};
ghost use Rattle.mutex.specs.Calls.{acts_as};
ghost use Rattle.mutex.specs.Whole as mutex;
ghost use Rattle.condvar.specs.Whole as condition;
ghost use Rattle.pazdrig_c.specs.Accesses.{answer_of, operation_number};
ghost use Rattle.pazdrig_c.specs.Running.{IsRunning, Begins, Expires, GoesOn, begun, call_code, expired};
ghost use Rattle.pazdrig_c.specs.declared.running.Running.{Running};
ghost use Rattle.pazdrig_c.specs.declared.running.Running.TheVariants.{OnMutex, OnCondition};

use crate::access::{answer, coded};
use crate::running::{GOES, INVALID, ON_CONDITION, expire, go_on, read};
use crate::structs::{PzAccess, PzCall};
use condvar::{CodedCondPhase, CondCall, CondProgram};
use lockword::Tid;
use mutex::{Call, CodedPhase, Program};
use stepprograms::StepProgram;

/// Begins the call with an operation (0 lock, 1 trylock, 2 unlock, 3 consistent, 4 wait, 5 signal, 6 broadcast) of the
/// thread that `call` names, at the addresses that it has, and tells the call's first access. 0; or 2, and nothing is
/// written, where there is no such operation or thread.
#[unsafe(no_mangle)]
pub extern "C" fn pz_begin(call: &mut PzCall, access: &mut PzAccess, operation: u32) -> u32
    ensures { Begins (begun operation call.old) result call.old call.new access.old access.new }
{
    let Some(thread) = Tid::new(call.thread) else {
        return INVALID;
    };
    match operation {
        0 => begin_on_mutex(call, access, thread, Call::Lock(0), 0),
        1 => begin_on_mutex(call, access, thread, Call::TryLock(0), 1),
        2 => begin_on_mutex(call, access, thread, Call::Unlock(0), 2),
        3 => begin_on_mutex(call, access, thread, Call::Consistent(0), 3),
        4 => begin_on_condition(call, access, thread, CondCall::Wait(0)),
        5 => begin_on_condition(call, access, thread, CondCall::Signal(0)),
        6 => begin_on_condition(call, access, thread, CondCall::Broadcast(0)),
        _ => INVALID,
    }
}

/// Goes on with the answer to the access told last (its kind, and its value where it has one): tells the next access,
/// or that the call has returned, with the point that the answer decided. 0: it goes on; 1: it has returned, and
/// `call.phase.lock.reply` is its reply; 2, and nothing is written: no call in progress has these numbers.
#[unsafe(no_mangle)]
pub extern "C" fn pz_step(call: &mut PzCall, access: &mut PzAccess, kind: u32, value: u64) -> u32
    ensures goes_on { (r : Running) → IsRunning r → call_code r ≡ call.old
        → GoesOn r (answer_of kind value) result call.new access.new }
    ensures refused { ((r : Running) → IsRunning r → call_code r ≢ call.old)
        → (result ≡ 2) × (call.new ≡ call.old) × (access.new ≡ access.old) }
{
    match read(call) {
        Some(running) => go_on(running, call, access, answer(kind, value)),
        None => INVALID,
    }
}

/// The time limit of a lock has come, while it sleeps (pthread_mutex_timedlock(3p)): tells the one access that is left,
/// which clears its entry, with the point; after that it returns `ETIMEDOUT`. 0; or 2, and nothing is written: no
/// lock that sleeps has these numbers. Whoever asks has taken the thread out of its queue, and gave it no wake.
#[unsafe(no_mangle)]
pub extern "C" fn pz_expire(call: &mut PzCall, access: &mut PzAccess) -> u32
    ensures expires { (r : Running) → IsRunning r → call_code r ≡ call.old
        → Expires (expired r) result call.old call.new access.old access.new }
    ensures refused { ((r : Running) → IsRunning r → call_code r ≢ call.old)
        → (result ≡ 2) × (call.new ≡ call.old) × (access.new ≡ access.old) }
{
    match read(call) {
        Some(running) => expire(running, call, access),
        None => INVALID,
    }
}

fn begin_on_mutex(
    call: &mut PzCall,
    access: &mut PzAccess,
    thread: Tid,
    on_mutex: Call,
    number: u8,
) -> u32
    requires thread { thread ≡ call.old.thread }
    requires number { number ≡ operation_number (acts_as on_mutex) }
    ensures { Begins (Some (OnMutex (mutex.begun_at thread call.old.head call.old.entry call.old.cell on_mutex))) result
        call.old call.new access.old access.new }
{
    let program = Program::begin(thread, call.head, call.entry, call.cell, on_mutex);
    call.counter = 0;
    call.phase = CodedCondPhase {
        lock: CodedPhase::of(&program.phase()),
        seen: 0,
        kind: 0,
    };
    call.program = number;
    *access = coded(program.next());
    GOES
}

fn begin_on_condition(
    call: &mut PzCall,
    access: &mut PzAccess,
    thread: Tid,
    on_condition: CondCall,
) -> u32
    requires { thread ≡ call.old.thread }
    ensures { Begins
        (Some
        (OnCondition
        (condition.begun_at thread call.old.head call.old.entry call.old.cell call.old.counter on_condition))) result
        call.old call.new access.old access.new }
{
    let program = CondProgram::begin(
        thread,
        call.head,
        call.entry,
        call.cell,
        call.counter,
        on_condition,
    );
    call.phase = CodedCondPhase::of(&program.phase());
    call.program = ON_CONDITION;
    *access = coded(program.next());
    GOES
}
