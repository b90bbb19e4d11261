//! What scripts ask of real threads: what each thread does in each phase, and when it dies, written out by hand.

use crate::built::joined;
use crate::events::playing;
use crate::faults::{Refused, is_or_wants_memory, read};
use condvar::{CondCall, Op};
use mutex::Call;
use script::{Jobs, Mode, Phase, jobs};
use std::alloc::Global;

const LOCK: Op = Op::OnMutex(Call::Lock(0));

const TRY_LOCK: Op = Op::OnMutex(Call::TryLock(0));

const UNLOCK: Op = Op::OnMutex(Call::Unlock(0));

const CONSISTENT: Op = Op::OnMutex(Call::Consistent(0));

/// Of the first condition variable and of the second one.
const WAIT: Op = Op::OnCondition(CondCall::Wait(0));

const SIGNAL: Op = Op::OnCondition(CondCall::Signal(1));

const BROADCAST: Op = Op::OnCondition(CondCall::Broadcast(0));

/// A job: the number of its thread, and its calls.
type Calls = (u8, &'static [Op]);

fn has_jobs(phase: &Phase, want: &[Calls]) -> bool {
    if phase.jobs.len() != want.len() {
        return false;
    }
    for (job, (thread, calls)) in phase.jobs.iter().zip(want) {
        if job.thread.get() != *thread || job.calls.as_slice() != *calls {
            return false;
        }
    }
    true
}

fn has_phases(phases: &[Phase], want: &[&[Calls]]) -> bool {
    if phases.len() != want.len() {
        return false;
    }
    for (phase, jobs) in phases.iter().zip(want) {
        if !has_jobs(phase, *jobs) {
            return false;
        }
    }
    true
}

/// What a script asks of real threads.
fn jobs_of(alloc: Global, bytes: &[u8], mode: Mode) -> Result<Jobs, Refused> {
    let script = read(alloc, bytes, mode)?;
    match jobs(alloc, &script) {
        Ok(jobs) => Ok(jobs),
        Err(refused) => Err((refused.fault.number(), refused.line)),
    }
}

/// Whether a script asks for these phases.
fn asks_for(alloc: Global, text: &str, mode: Mode, want: &[&[Calls]]) -> bool {
    match jobs_of(alloc, text.as_bytes(), mode) {
        Ok(jobs) => has_phases(&jobs.phases, want),
        Err(_) => false,
    }
}

/// Is in front of commands of three threads.
const THREE_THREADS: &str = "thread a\nthread b\nthread c\nmutex m\ncond q m 0\ncond r m 7\n";

/// The commands of three threads, and the phases that they ask for.
static PHASES: [(&str, &[&[Calls]]); 8] = [
    ("", &[&[]]),
    ("phase\n", &[&[], &[]]),
    (
        "call c trylock m\ncall a unlock m\n# c again\ncall c unlock m\nphase\nphase\ncall b trylock m\nphase\n",
        &[
            &[(1, &[UNLOCK]), (3, &[TRY_LOCK, UNLOCK])],
            &[],
            &[(2, &[TRY_LOCK])],
            &[],
        ],
    ),
    (
        "call a trylock m\nphase\ncall b trylock m\nphase\ncall a unlock m\nphase\ncall b trylock m\n",
        &[
            &[(1, &[TRY_LOCK])],
            &[(2, &[TRY_LOCK])],
            &[(1, &[UNLOCK])],
            &[(2, &[TRY_LOCK])],
        ],
    ),
    (
        "call b unlock m\ncall a trylock m\ncall b trylock m\ncall b trylock m\n",
        &[&[(1, &[TRY_LOCK]), (2, &[UNLOCK, TRY_LOCK, TRY_LOCK])]],
    ),
    (
        "call b lock m\ncall b consistent m\nphase\ncall a lock m\n",
        &[&[(2, &[LOCK, CONSISTENT])], &[(1, &[LOCK])]],
    ),
    (
        "die b 4\ncall b lock m\nphase\ncall b unlock m\ndie a 1\n",
        &[&[(2, &[LOCK])], &[(2, &[UNLOCK])]],
    ),
    (
        "call c lock m\nphase\ncall c wait q\ncall a signal r\ncall a lock m\ncall c unlock m\ncall a broadcast q\n",
        &[
            &[(3, &[LOCK])],
            &[(1, &[SIGNAL, LOCK, BROADCAST]), (3, &[WAIT, UNLOCK])],
        ],
    ),
];

fn ask_for(alloc: Global, commands: &str, want: &[&[Calls]]) -> bool {
    match joined(alloc, THREE_THREADS, commands, "") {
        Ok(text) => asks_for(alloc, text.as_str(), Mode::Threads, want),
        Err(_) => false,
    }
}

#[test]
fn phases(rt: HostRuntime) {
    for (commands, want) in &PHASES {
        assert!(rt; ask_for(rt.alloc(), *commands, *want), "by {commands}");
    }
}

/// The commands of three threads, and before which of its accesses each dies.
static DEATHS: [(&str, [Option<u32>; 3]); 5] = [
    ("", [None, None, None]),
    ("die a 4\n", [Some(4), None, None]),
    (
        "die b 100000\ncall b lock m\nphase\n",
        [None, Some(100_000), None],
    ),
    (
        "call c lock m\ndie c 7\nphase\ncall a lock m\ndie a 1\n",
        [Some(1), None, Some(7)],
    ),
    ("die c 3\ndie b 2\ndie a 3\n", [Some(3), Some(2), Some(3)]),
];

fn die_so(alloc: Global, commands: &str, want: &[Option<u32>]) -> bool {
    let Ok(text) = joined(alloc, THREE_THREADS, commands, "") else {
        return false;
    };
    match jobs_of(alloc, text.as_bytes(), Mode::Threads) {
        Ok(jobs) => jobs.dies.as_slice() == want,
        Err(_) => false,
    }
}

#[test]
fn deaths(rt: HostRuntime) {
    for (commands, want) in &DEATHS {
        assert!(rt;
            die_so(rt.alloc(), *commands, want.as_slice()),
            "by {commands}"
        );
    }
}

/// What only the machine runs asks for nothing of real threads, and the end of a phase and a thread's death before an
/// access for nothing of the machine.
#[test]
fn other_modes(rt: HostRuntime) {
    let run = "thread a\nmutex m\nbegin a trylock m\nstep a 2\ncall a unlock m\n";
    assert!(rt; asks_for(rt.alloc(), run, Mode::Run, &[&[(1, &[UNLOCK])]]));
    let threads = "thread a\nmutex m\ndie a 2\ncall a trylock m\nphase\nphase\ncall a unlock m\n";
    assert!(rt; playing(rt.alloc(), threads, Mode::Threads) == Ok(17));
}

/// How many phases a script for real threads has, or the number of its fault and its line.
fn phases_of(alloc: Global, text: &[u8]) -> Result<usize, Refused> {
    match jobs_of(alloc, text, Mode::Threads) {
        Ok(jobs) => Ok(jobs.phases.len()),
        Err(refused) => Err(refused),
    }
}

/// Passes too where any one allocation fails: the answer is then fault 6, at a line that says something or, once the
/// script is read, at line 1.
#[test]
fn memory(rt: HostRuntime) {
    let text = b"thread a\n#\nmutex m\ncall a trylock m\nphase\ncall a unlock m\ndie a 4\n";
    assert!(rt; is_or_wants_memory(phases_of(rt.alloc(), text), 2, &[1, 3, 4, 5, 6, 7]));
}
