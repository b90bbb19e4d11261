//! Threads that live again after they were killed.
ghost use Rattle.ruledwords.specs.Passes.{IsLive};
ghost use Rattle.std.specs.Prelude.{IfSome};

use condvar::Op::OnMutex;
use lockword::Reply::{self, EOWNERDEAD, OK};
use memorymap::Layout;
use mutex::Call::{self, Consistent, Lock, Unlock};
use ruledwords::{Live, Never, Outcome, Pass};
use std::sync::Wait;
use std::test::Fail;
use thread_fixtures::{Left, makes, team};
use threadbench::Bench;

/// Makes a call. None where its thread dies in it, or it is answered otherwise.
fn is_told<R: Wait>(
    rt: &R,
    bench: &Bench,
    pass: Pass<Live>,
    call: Call,
    reply: Reply,
) -> Option<Pass<Live>>
    requires { IsLive bench.now pass }
    ensures { IfSome result (λ p. IsLive bench.now p) }
{
    let (pass, told) = makes(rt, bench, pass, OnMutex(call), &mut Never)?;
    if told == reply { Some(pass) } else { None }
}

/// Is killed, dies in its next call, is reaped, killed again and lives again. None where it doesn't die.
fn begins_anew<R: Wait>(rt: &R, bench: &Bench, pass: Pass<Live>, thread: u8) -> Option<Pass<Live>>
    requires { IsLive bench.now pass }
    ensures { IfSome result (λ p. IsLive bench.now p) }
{
    if bench.kill(rt, thread) != Ok(()) || bench.words().layout().mutexes() < 2 {
        return None;
    }
    match bench.lock(rt, pass, 1, &mut Never) {
        Outcome::Lives(_, _) => None,
        Outcome::Dead(dead) => {
            let reaped = bench.exit(rt, dead);
            // killed once more, before its id is used again
            if bench.kill(rt, thread) != Ok(()) {
                return None;
            }
            Some(bench.renew(rt, reaped))
        }
    }
}

/// Dies as the owner of mutex 0, and learns of that in its next life, which isn't killed again.
fn one_life<R: Wait>(rt: &R, bench: &Bench, pass: Pass<Live>) -> Option<Pass<Live>>
    requires { IsLive bench.now pass }
    ensures { IfSome result (λ p. IsLive bench.now p) }
{
    let pass = is_told(rt, bench, pass, Lock(0), OK)?;
    let pass = begins_anew(rt, bench, pass, 1)?;
    let pass = is_told(rt, bench, pass, Lock(0), EOWNERDEAD)?;
    let pass = is_told(rt, bench, pass, Consistent(0), OK)?;
    let pass = is_told(rt, bench, pass, Unlock(0), OK)?;
    let pass = is_told(rt, bench, pass, Lock(1), OK)?;
    is_told(rt, bench, pass, Unlock(1), OK)
}

/// Three lives.
fn three_lives<R: Wait>(rt: &R, bench: &Bench, pass: Pass<Live>) -> Option<Pass<Live>>
    requires { IsLive bench.now pass }
    ensures { IfSome result (λ p. IsLive bench.now p) }
{
    let pass = one_life(rt, bench, pass)?;
    let pass = one_life(rt, bench, pass)?;
    one_life(rt, bench, pass)
}

/// A server's worker dies three times, and each time its id is used again: the kill of an earlier life doesn't end the
/// next one, it owns nothing at first, and it learns what the last one left.
#[test]
fn a_thread_lives_four_times(rt: HostRuntime) -> Result<(), Fail> {
    let (bench, first, _, _, _, _) = team(rt.alloc(), Layout::new(5, 2, &[])?, &[])?;
    let last = three_lives(&rt, &bench, first).expect(&rt, "each life is told what it should be");
    assert!(rt; Left::of(bench, last).cells == [0, 0]);
    Ok(())
}
