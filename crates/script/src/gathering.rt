//! What a script asks of real threads.

ghost use Rattle.std.specs.Prelude.{◌≡◌, ◌<◌, ◌≤◌, ℕ, List, [], ◌∷◌, ◌++◌, length, OnOk};
ghost use Rattle.std.specs.Prelude.{map, position, IfOk, IfErr, IfSome, MatchOption};
ghost use Rattle.script.specs.declared.command.Command.{Command};
ghost use Rattle.std.specs.List.{slice_split, range_with_len};
ghost use Rattle.script.specs.Deaths.{death_of};
ghost use Rattle.script.specs.Limits.{max_threads};
ghost use Rattle.script.specs.Jobs.{AreCalls, dies_of, ends_phase, jobs_up_to, jobs_seen, jobs_of, lists_seen};

use crate::command::{Action, Command};
use crate::deaths::death_of;
use crate::fault::{Fault, ScriptFault};
use crate::parsed::Script;
use crate::workload::{Job, Jobs, Phase};
use condvar::Op;
use lockword::Tid;
use std::alloc::{AllocError, Global};

/// Where the phase ends.
fn end_of(commands: &[Command]) -> Option<usize>
    ensures { result ≡ position ends_phase commands.now }
{
    commands
        .iter()
        .position(|command| matches!(command.action, Action::Phase))
}

/// The first phase, and what stands after its end.
fn cut_phase(commands: &[Command]) -> Option<(&[Command], &[Command])>
    ensures parts { MatchOption result
        (slice_split ends_phase commands.now ≡ commands.now ∷ [])
        (λ x. slice_split ends_phase commands.now ≡ x.0.now ∷ slice_split ends_phase x.1.now) }
    ensures shorter { IfSome result (λ x. length x.1.now < length commands.now) }
{
    let end = end_of(commands)?;
    Some((&commands[..end], &commands[end + 1..]))
}

/// An empty list for each thread.
fn no_calls(alloc: Global, threads: u8) -> Result<Vec<Vec<Op>>, AllocError>
    ensures { IfOk result (λ calls. AreCalls threads [] (lists_seen calls.items)) }
{
    let mut calls = Vec::new(alloc);
    for _thread in 0..threads {
        calls.push(Vec::new(alloc))?;
    }
    Ok(calls)
}

/// Adds a command's call to the list of its thread, where that has one.
fn add_call(calls: &mut Vec<Vec<Op>>, command: &Command) -> Result<(), AllocError>
    ensures { OnOk result
        ((n : ℕ) (cs : List Command) → AreCalls n cs (lists_seen calls.old.items)
        → AreCalls n (cs ++ command.now ∷ []) (lists_seen calls.new.items)) }
{
    let Action::Call(thread, call) = command.action else {
        return Ok(());
    };
    let index = thread.as_index();
    if index < calls.len() {
        calls[index].push(call)?;
    }
    Ok(())
}

/// A job of each thread that has calls.
fn jobs_with(alloc: Global, calls: Vec<Vec<Op>>) -> Result<Phase, AllocError>
    requires { length calls.items ≤ max_threads }
    ensures { IfOk result
        (λ phase. (n : ℕ) (cs : List Command) → AreCalls n cs (lists_seen calls.items)
        → jobs_seen phase ≡ jobs_up_to n cs) }
{
    let mut jobs = Vec::new(alloc);
    let mut id = 0;
    for calls in calls {
        id += 1;
        if !calls.is_empty() {
            let thread = Tid::new(id).unwrap();
            jobs.push(Job { thread, calls })?;
        }
    }
    Ok(Phase { jobs })
}

/// What real threads do in a phase that consists of these commands.
fn phase_of(alloc: Global, threads: u8, commands: &[Command]) -> Result<Phase, AllocError>
    requires { threads ≤ max_threads }
    ensures { IfOk result (λ phase. jobs_seen phase ≡ jobs_up_to threads commands.now) }
{
    let mut calls = no_calls(alloc, threads)?;
    for command in commands {
        add_call(&mut calls, command)?;
    }
    jobs_with(alloc, calls)
}

/// The phases of all the commands.
fn phases_of(alloc: Global, threads: u8, commands: &[Command]) -> Result<Vec<Phase>, AllocError>
    requires { threads ≤ max_threads }
    ensures { IfOk result
        (λ phases. map jobs_seen phases.items ≡ map (jobs_up_to threads) (slice_split ends_phase commands.now)) }
{
    let mut phases = Vec::new(alloc);
    let mut rest = commands;
    while let Some((first, after)) = cut_phase(rest) {
        phases.push(phase_of(alloc, threads, first)?)?;
        rest = after;
    }
    phases.push(phase_of(alloc, threads, rest)?)?;
    Ok(phases)
}

/// Of each thread the access before which it dies, where the commands let it die.
fn dies_of(alloc: Global, threads: u8, commands: &[Command]) -> Result<Vec<Option<u32>>, AllocError>
    requires { threads ≤ max_threads }
    ensures { IfOk result (λ dies. dies.items ≡ map (λ t. death_of t commands.now) (range_with_len 1 threads)) }
{
    let mut dies = Vec::new(alloc);
    for earlier in 0..threads {
        let thread = Tid::new(earlier + 1).unwrap();
        dies.push(death_of(commands, thread))?;
    }
    Ok(dies)
}

/// What a script asks of real threads, unless no memory is left.
fn gather(alloc: Global, script: &Script) -> Result<Jobs, AllocError>
    ensures phases { IfOk result (λ jobs. map jobs_seen jobs.phases.items ≡ jobs_of script.now) }
    ensures dies { IfOk result (λ jobs. jobs.dies.items ≡ dies_of script.now) }
{
    let phases = phases_of(alloc, script.threads(), script.commands())?;
    let dies = dies_of(alloc, script.threads(), script.commands())?;
    Ok(Jobs { phases, dies })
}

/// What a script asks of real threads: for each phase and each thread the calls, in the order of their lines. `begin`
/// and `step` lines, which only the machine runs, ask for nothing here. And for each thread the access before which its
/// `die` line lets it die.
///
/// Each command is looked at once for the calls and once for each thread's death, and at each end of a phase each
/// thread's list; memory is taken for the calls, the phases, the deaths and a list for each thread. Refused at line 1
/// where no memory is left, as [`Fault::OutOfMemory`], and for nothing else.
pub fn jobs(alloc: Global, script: &Script) -> Result<Jobs, ScriptFault>
    ensures ok { IfOk result (λ jobs. map jobs_seen jobs.phases.items ≡ jobs_of script.now) }
    ensures dies { IfOk result (λ jobs. jobs.dies.items ≡ dies_of script.now) }
    ensures err { IfErr result (λ e. e ≡ record { line = 1; fault = Fault.OutOfMemory }) }
{
    match gather(alloc, script) {
        Ok(jobs) => Ok(jobs),
        Err(_) => Err(ScriptFault {
            line: 1,
            fault: Fault::OutOfMemory,
        }),
    }
}
