//! The first position of a plan.
ghost use Rattle.std.specs.Prelude.{◌≡◌, IfOk, replicate, true};
ghost use Rattle.protocol.specs.Machine.{start};
ghost use Rattle.interleave.specs.Shown.{state_of};
ghost use Rattle.outcomes.specs.Plans.{first_state};
ghost use Rattle.outcomes.specs.Positions.{first, first_place};
ghost use Rattle.outcomes.specs.Kept.{places_in, position_in, IsKept};

use crate::adding::{add, shared};
use crate::kept::{Kept, Life};
use crate::plan::Plan;
use interleave::Machine;
use memorymap::NoMem;
use std::alloc::Global;

/// Sets the counters to what the plan begins them with.
fn preset_all(machine: &mut Machine, plan: &Plan)
    requires starts { state_of machine.old ≡ start plan.now.layout (λ k. 0) }
    requires fresh { machine.old.fresh ≡ true }
    ensures { state_of machine.new ≡ first_state plan.now }
{
    for condition in 0..plan.layout.conditions() {
        let value = match plan.presets.get(usize::from(condition)) {
            Some(value) => *value,
            None => 0,
        };
        machine.preset(condition, value);
    }
}

/// The machine of a plan at its start.
pub(crate) fn first_machine(alloc: Global, plan: &Plan) -> Result<Machine, NoMem>
    ensures { IfOk result (λ m. state_of m ≡ first_state plan.now) }
{
    let mut machine = Machine::new(alloc, plan.layout.copy())?;
    preset_all(&mut machine, plan);
    Ok(machine)
}

/// Threads that haven't begun.
fn first_lives(alloc: Global, count: u8) -> Result<Vec<Life>, NoMem>
    ensures { IfOk result (λ v. places_in v.items ≡ replicate count first_place) }
{
    let mut lives = Vec::with_capacity(alloc, usize::from(count))?;
    for index in 0..count {
        let _number = index;
        let replies = Vec::new(alloc);
        add(&mut lives, Life { at: 0, replies })?;
    }
    Ok(lives)
}

/// The first position of a plan, of its machine at its start.
pub(crate) fn first_kept(alloc: Global, plan: &Plan, machine: &Machine) -> Result<Kept, NoMem>
    requires { state_of machine.now ≡ first_state plan.now }
    ensures first { IfOk result (λ k. position_in plan.now.layout k ≡ first plan.now) }
    ensures kept { IfOk result (IsKept plan.now) }
{
    let saved = machine.save(alloc)?;
    let first = first_lives(alloc, plan.layout.threads())?;
    let lives = shared(alloc, first)?;
    Ok(Kept {
        saved,
        phase: 0,
        lives,
    })
}
