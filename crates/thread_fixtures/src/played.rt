//! Calls that threads make by turns.
ghost use Rattle.std.specs.Prelude.{IfSome};
ghost use Rattle.ruledwords.specs.Passes.{IsLive};
ghost use Rattle.thread_fixtures.specs.Fours.{AreLive};

use crate::left::Left;
use crate::made::makes;
use crate::threads::team;
use condvar::Op;
use lockword::Reply;
use memorymap::{Layout, NoMem};
use ruledwords::{Live, Never, Pass};
use std::alloc::Global;
use std::sync::Wait;
use threadbench::Bench;

/// One of the first four of a team.
#[derive(Clone, Copy)]
pub enum Who {
    First,
    Second,
    Third,
    Fourth,
}

/// What happens next.
#[derive(Clone, Copy)]
pub enum Step {
    /// The thread makes these calls, one after the other, and is told so by each; None: it dies in the first.
    Calls(Who, &'static [Op], Option<Reply>),
    /// The thread with this id is killed.
    Kills(u8),
    /// The process with this number is killed.
    KillsProcess(u8),
}

/// The first four of a team, as far as they live.
#[derive(Drop)]
struct Four {
    first: Option<Pass<Live>>,
    second: Option<Pass<Live>>,
    third: Option<Pass<Live>>,
    fourth: Option<Pass<Live>>,
}

/// What a thread gets, if it lives. Its pass is gone where it dies.
fn told<R: Wait>(rt: &R, bench: &Bench, pass: &mut Option<Pass<Live>>, op: Op) -> Option<Reply>
    requires { IfSome pass.old (λ p. IsLive bench.now p) }
    ensures { IfSome pass.new (λ p. IsLive bench.now p) }
{
    let living = pass.take()?;
    let (after, reply) = makes(rt, bench, living, op, &mut Never)?;
    *pass = Some(after);
    Some(reply)
}

/// Whether a thread is told so by each of its calls.
fn calls<R: Wait>(
    rt: &R,
    bench: &Bench,
    pass: &mut Option<Pass<Live>>,
    ops: &[Op],
    want: Option<Reply>,
) -> bool
    requires { IfSome pass.old (λ p. IsLive bench.now p) }
    ensures { IfSome pass.new (λ p. IsLive bench.now p) }
{
    let mut well = true;
    for op in ops {
        let reply = told(rt, bench, pass, *op);
        well = well && reply == want;
    }
    well
}

/// Whether a step goes as it should.
fn goes<R: Wait>(rt: &R, bench: &Bench, four: &mut Four, step: Step) -> bool
    requires { AreLive bench.now four.old }
    ensures { AreLive bench.now four.new }
{
    match step {
        Step::Calls(Who::First, ops, want) => calls(rt, bench, &mut four.first, ops, want),
        Step::Calls(Who::Second, ops, want) => calls(rt, bench, &mut four.second, ops, want),
        Step::Calls(Who::Third, ops, want) => calls(rt, bench, &mut four.third, ops, want),
        Step::Calls(Who::Fourth, ops, want) => calls(rt, bench, &mut four.fourth, ops, want),
        Step::Kills(thread) => bench.kill(rt, thread) == Ok(()),
        Step::KillsProcess(process) => bench.kill_process(rt, process) == Ok(()),
    }
}

/// Plays steps with a team of such a bench, one after the other: what is left then, if each call got what is
/// in its step.
pub fn plays<R: Wait>(
    rt: &R,
    alloc: Global,
    layout: Layout,
    presets: &[u32],
    steps: &[Step],
) -> Result<Option<Left>, NoMem> {
    let (bench, first, second, third, fourth, fifth) = team(alloc, layout, presets)?;
    let mut four = Four {
        first: Some(first),
        second: Some(second),
        third: Some(third),
        fourth: Some(fourth),
    };
    let mut well = true;
    for step in steps {
        let went = goes(rt, &bench, &mut four, *step);
        well = well && went;
    }
    let left = Left::of(bench, fifth);
    Ok(if well { Some(left) } else { None })
}
