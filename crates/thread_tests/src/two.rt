//! Words with two threads, and calls that these make by turns.
ghost use Rattle.std.specs.Prelude.{◌<◌, ◌≡◌, All, IfOk};
ghost use Rattle.lockword.specs.declared.reply.Reply.TheVariants.{OK};
ghost use Rattle.mutex.specs.declared.phase.Phase.TheVariants.{Clearing};
ghost use Rattle.ruledwords.specs.declared.turn.Wakes.TheVariants.{Nobody};
ghost use Rattle.ruledwords.specs.Outcomes.{owed_wakes, IsOwedOf};
ghost use Rattle.ruledwords.specs.Passes.{layout_of, last_layout, IsLive, IsPassOf};
ghost use Rattle.ruledwords.specs.Turns.{running_call, IsRunningOf};

use lockword::Reply;
use memorymap::{Layout, NoMem};
use mutex::Call;
use ruledwords::{Last, Live, Never, Outcome, Owed, Pass, Released, Running, Turn, Words};
use std::alloc::Global;
use stepprograms::{Access, Answer};

/// Words and the passes of their two threads, which are in no call.
#[derive(Drop)]
pub(crate) struct Two(
    pub(crate) Words,
    pub(crate) Pass<Live>,
    pub(crate) Pass<Live>,
);

/// One of the two threads.
#[derive(Clone, Copy)]
pub(crate) enum Who {
    First,
    Second,
}

/// A thread, its calls, one after the other, and what each returns.
pub(crate) type Step = (Who, &'static [(Call, Reply)]);

/// The last of these passes. Where there is none, it is refused as when memory runs out.
fn popped(_words: &Words, passes: &mut Vec<Pass<Live>>) -> Result<Pass<Live>, NoMem>
    requires { All (λ p. IsLive _words.now p) passes.old.items }
    ensures pass { IfOk result (λ p. IsLive _words.now p) }
    ensures rest { All (λ p. IsLive _words.now p) passes.new.items }
{
    passes.pop().ok_or(NoMem)
}

/// The words of a layout of two threads, with these presets for its condition variables. It is refused as when
/// memory runs out where there are other threads, or not as many presets.
pub(crate) fn of_two(alloc: Global, layout: Layout, presets: &[u32]) -> Result<Two, NoMem>
    ensures first { IfOk result (λ t. IsLive t.0 t.1) }
    ensures second { IfOk result (λ t. IsLive t.0 t.2) }
{
    if presets.len() != usize::from(layout.conditions()) || layout.threads() != 2 {
        return Err(NoMem);
    }
    let (words, mut passes) = Words::new(alloc, layout, presets)?;
    let second = popped(&words, &mut passes)?;
    let first = popped(&words, &mut passes)?;
    Ok(Two(words, first, second))
}

/// Makes the last access of an unlock, which clears the thread's pending entry.
fn clear(words: &Words, running: Running) -> Pass<Live>
    requires words { IsRunningOf words.now running }
    requires clears { (running_call running).phase ≡ Clearing OK }
    ensures { IsLive words.now result }
{
    match running.access(words) {
        Turn::Lives(pass, _) => pass,
        Turn::Goes(_) => unreachable!(),
    }
}

/// Ends an unlock that has somebody to wake, where nobody sleeps. It trims nothing.
fn wake_nobody(words: &Words, owed: Owed) -> Pass<Live>
    requires owed { IsOwedOf words.now owed }
    requires wakes { ¬ (owed_wakes owed ≡ Nobody) }
    ensures { IsLive words.now result }
{
    let Turn::Goes(woken) = Running::owed(owed).answer(Answer::Count(0)) else {
        unreachable!()
    };
    match woken.next() {
        Access::Trim { .. } => match woken.answer(Answer::Trimmed(false)) {
            Turn::Goes(trimmed) => clear(words, trimmed),
            Turn::Lives(_, _) => unreachable!(),
        },
        _ => clear(words, woken),
    }
}

/// The pass and the reply of an unlock; EAGAIN where it had somebody to wake.
fn unlock(words: &Words, pass: Pass<Live>, mutex: u16) -> (Pass<Live>, Reply)
    requires pass { IsLive words.now pass }
    requires mutex { mutex < (layout_of words.now).mutexes }
    ensures { IsLive words.now result.0 }
{
    match words.release(pass, mutex, &mut Never) {
        Released::Owes(owed) => match owed.settle(words) {
            Ok(pass) => (pass, Reply::OK),
            Err(owed) => (wake_nobody(words, owed), Reply::EAGAIN),
        },
        Released::Refused(pass, reply) => (pass, reply),
        Released::Dead(_) => unreachable!(),
    }
}

/// The pass and the reply of a call that waits for nobody: a lock is made as a trylock. EINVAL where the words have no
/// such mutex.
pub(crate) fn makes(words: &Words, pass: Pass<Live>, call: Call) -> (Pass<Live>, Reply)
    requires { IsLive words.now pass }
    ensures { IsLive words.now result.0 }
{
    let mutex = call.mutex();
    if mutex >= words.layout().mutexes() {
        return (pass, Reply::EINVAL);
    }
    let outcome = match call {
        Call::Unlock(_) => return unlock(words, pass, mutex),
        Call::Consistent(_) => words.consistent(pass, mutex, &mut Never),
        Call::Lock(_) | Call::TimedLock(_) | Call::TryLock(_) => {
            words.try_lock(pass, mutex, &mut Never)
        }
    };
    match outcome {
        Outcome::Lives(pass, reply) => (pass, reply),
        Outcome::Dead(_) => unreachable!(),
    }
}

/// Makes calls one after the other: the pass after them, and whether each got what stands beside it.
pub(crate) fn told(words: &Words, pass: Pass<Live>, calls: &[(Call, Reply)]) -> (Pass<Live>, bool)
    requires { IsLive words.now pass }
    ensures { IsLive words.now result.0 }
{
    let mut pass = pass;
    let mut well = true;
    for (call, want) in calls {
        let (after, reply) = makes(words, pass, *call);
        pass = after;
        well = well && reply == *want;
    }
    (pass, well)
}

/// Makes calls of one of the two.
fn turn(two: Two, who: Who, calls: &[(Call, Reply)]) -> (Two, bool)
    requires first { IsLive two.0 two.1 }
    requires second { IsLive two.0 two.2 }
    ensures first { IsLive result.0.0 result.0.1 }
    ensures second { IsLive result.0.0 result.0.2 }
{
    let Two(words, first, second) = two;
    match who {
        Who::First => {
            let (first, well) = told(&words, first, calls);
            (Two(words, first, second), well)
        }
        Who::Second => {
            let (second, well) = told(&words, second, calls);
            (Two(words, first, second), well)
        }
    }
}

/// Makes these steps' calls one after the other. Whether each got what is in its step.
pub(crate) fn plays(two: Two, steps: &[Step]) -> (Two, bool)
    requires first { IsLive two.0 two.1 }
    requires second { IsLive two.0 two.2 }
    ensures first { IsLive result.0.0 result.0.1 }
    ensures second { IsLive result.0.0 result.0.2 }
{
    let mut two = two;
    let mut well = true;
    for (who, calls) in steps {
        let (after, went) = turn(two, *who, *calls);
        two = after;
        well = well && went;
    }
    (two, well)
}

/// How many cells tests look at.
pub(crate) const CELLS: usize = 4;

/// The words of the first cells; 0 where there are no such mutexes.
pub(crate) fn cells(last: &Last, mutexes: u16) -> [u64; CELLS]
    requires { mutexes ≡ (last_layout last.now).mutexes }
{
    let cell = |mutex: u16| -> u64
        requires { mutexes ≡ (last_layout last.now).mutexes }
    { if mutex < mutexes { last.cell(mutex) } else { 0 } };
    [cell(0), cell(1), cell(2), cell(3)]
}

/// Ends the words, where the two meet: the words of the first cells.
pub(crate) fn left(two: Two) -> [u64; CELLS]
    requires first { IsPassOf two.0 two.1 }
    requires second { IsPassOf two.0 two.2 }
{
    let Two(words, first, second) = two;
    let mutexes = words.layout().mutexes();
    let (_first, second) = words.meet(first, second);
    let last = words.close(second);
    cells(&last, mutexes)
}
