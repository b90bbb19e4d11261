//! What scripts declare and command, and the texts of faults. Which scripts are refused is in cases/scripts.

use crate::built::joined;
use crate::faults::{Refused, is_or_wants_memory, read};
use condvar::Op;
use lockword::Tid;
use mutex::Call;
use script::{Action, Command, Fault, Mode, Script, ScriptFault};
use std::alloc::{AllocError, Global};
use std::test::Fail;

fn at(line: usize, action: Action) -> Command {
    Command { line, action }
}

/// Whether a run's script has these commands.
fn has_commands(alloc: Global, text: &[u8], wanted: &[Command]) -> bool {
    match read(alloc, text, Mode::Run) {
        Ok(script) => script.mode() == Mode::Run && script.commands() == wanted,
        Err(_) => false,
    }
}

const TRY_LOCK: Op = Op::OnMutex(Call::TryLock(0));

const UNLOCK: Op = Op::OnMutex(Call::Unlock(0));

const ADA_AND_BOB: &[u8] =
    b"# two threads\nthread ada\nthread bob\n\nmutex bob\nbegin bob trylock bob\nstep bob 3\n# now the other\ncall ada unlock bob\nbegin ada unlock bob\ncall bob trylock bob\nstep ada 100000\n";

const WITH_A_DEATH: &[u8] =
    b"thread a\nthread b\nmutexes m 3\nlocks b m1 2\nkill b\ngo b\ncall a lock m2\nbegin a consistent m2\n";

fn commands_of_ada_and_bob(ada: Tid, bob: Tid) -> [Command; 6] {
    let three = Action::Step {
        thread: bob,
        count: 3,
    };
    let many = Action::Step {
        thread: ada,
        count: 100_000,
    };
    [
        at(6, Action::Begin(bob, TRY_LOCK)),
        at(7, three),
        at(9, Action::Call(ada, UNLOCK)),
        at(10, Action::Begin(ada, UNLOCK)),
        at(11, Action::Call(bob, TRY_LOCK)),
        at(12, many),
    ]
}

/// Whether the script has two threads, `ada` and `bob`, and one mutex, `bob`.
fn is_of_ada_and_bob(script: &Script, ada: Tid, bob: Tid) -> bool {
    ada.get() <= script.threads()
        && bob.get() <= script.threads()
        && script.threads() == 2
        && script.mutexes() == 1
        && script.thread_name(ada) == "ada"
        && script.thread_name(bob) == "bob"
        && script.mutex_name(0) == "bob"
}

fn declares_ada_and_bob(alloc: Global, text: &[u8], ada: Tid, bob: Tid) -> bool {
    match read(alloc, text, Mode::Run) {
        Ok(script) => is_of_ada_and_bob(&script, ada, bob),
        Err(_) => false,
    }
}

fn commands_with_a_death(a: Tid, b: Tid) -> [Command; 5] {
    let locks = Action::Locks {
        thread: b,
        mutex: 1,
        count: 2,
    };
    [
        at(4, locks),
        at(5, Action::Kill(b)),
        at(6, Action::Go(b)),
        at(7, Action::Call(a, Op::OnMutex(Call::Lock(2)))),
        at(8, Action::Begin(a, Op::OnMutex(Call::Consistent(2)))),
    ]
}

#[test]
fn scripts_have_their_commands(rt: HostRuntime) -> Result<(), Fail> {
    let first = Tid::new(1).ok_or("an id")?;
    let second = Tid::new(2).ok_or("an id")?;
    assert!(rt; declares_ada_and_bob(rt.alloc(), ADA_AND_BOB, first, second));
    assert!(rt;
        has_commands(
            rt.alloc(),
            ADA_AND_BOB,
            &commands_of_ada_and_bob(first, second)
        )
    );
    assert!(rt;
        has_commands(
            rt.alloc(),
            WITH_A_DEATH,
            &commands_with_a_death(first, second)
        )
    );
    Ok(())
}

/// How many commands a script has, or the fault that it is refused for and its line.
fn commands_of(alloc: Global, text: &[u8]) -> Result<usize, Refused> {
    match read(alloc, text, Mode::Run) {
        Ok(script) => Ok(script.commands().len()),
        Err(refused) => Err(refused),
    }
}

/// Passes too where any one allocation fails: the answer is then fault 6 at a line that adds something.
#[test]
fn memory(rt: HostRuntime) {
    let text = b"thread a\n# between\nmutexes m 2\n\nlocks a m0 2\nkill a\n";
    assert!(rt; is_or_wants_memory(commands_of(rt.alloc(), text), 2, &[1, 3, 5, 6]));
}

/// Each fault, its text, and the text of it at line 7.
static TEXTS: [(Fault, &str, &str); 6] = [
    (Fault::NotUtf8, "not UTF-8", "line 7: fault 1: not UTF-8"),
    (
        Fault::UnknownWord,
        "unknown word",
        "line 7: fault 2: unknown word",
    ),
    (
        Fault::OutOfRange,
        "number out of range",
        "line 7: fault 3: number out of range",
    ),
    (
        Fault::NoSuchName,
        "no such name",
        "line 7: fault 4: no such name",
    ),
    (Fault::TooLong, "too long", "line 7: fault 5: too long"),
    (
        Fault::OutOfMemory,
        "out of memory",
        "line 7: fault 6: out of memory",
    ),
];

fn is_told(alloc: Global, fault: Fault, short: &str, long: &str) -> Result<bool, AllocError> {
    let refused = ScriptFault { line: 7, fault };
    let told = format!(in alloc; "{fault}, {refused}")?;
    let wanted = joined(alloc, short, ", ", long)?;
    Ok(told.as_str() == wanted.as_str())
}

#[test]
fn texts(rt: HostRuntime) -> Result<(), Fail> {
    for (fault, short, long) in &TEXTS {
        assert!(rt; is_told(rt.alloc(), *fault, *short, *long)?);
    }
    Ok(())
}
