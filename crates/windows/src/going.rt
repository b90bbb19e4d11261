//! Where steps leave threads and mutexes.

ghost use Rattle.std.specs.Prelude.{◌≤◌, length, IfOk, IfSome};
ghost use Rattle.certificates.specs.States.{IsSound};
ghost use Rattle.histories.specs.Reading.{IsHead};
ghost use Rattle.windows.specs.Places.{Reaches, Takes, told};

use crate::stop::Stop;
use certificates::State;
use histories::{Entry, Head};
use std::alloc::Global;

/// Takes a step, if it fits.
pub fn take(state: &mut State, step: &Entry) -> Option<()>
    requires { IsSound state.old }
    ensures takes { IfSome result (λ _. Takes state.old step.now state.new) }
    ensures sound { IsSound state.new }
{
    match *step {
        Entry::Told(fact) => state.accept(&fact),
        Entry::Doom(_) => Some(()),
    }
}

/// Takes the steps from here to there, if they fit.
pub fn go(state: &mut State, steps: &[Entry], from: usize, to: usize) -> Option<()>
    requires sound { IsSound state.old }
    requires order { from ≤ to }
    requires within { to ≤ length steps.now }
    requires here { Reaches state.old (told from steps.now) }
    ensures there { IfSome result (λ _. Reaches state.new (told to steps.now)) }
    ensures sound { IsSound state.new }
{
    for at in from..to {
        take(state, &steps[at])?;
    }
    Some(())
}

/// Where all of the steps leave threads and mutexes.
pub fn behind(alloc: Global, head: &Head, steps: &[Entry]) -> Result<State, Stop>
    requires { IsHead head.now }
    ensures there { IfOk result (λ s. Reaches s (told (length steps.now) steps.now)) }
    ensures sound { IfOk result IsSound }
{
    let mut state = State::new(alloc, head)?;
    match go(&mut state, steps, 0, steps.len()) {
        Some(()) => Ok(state),
        None => Err(Stop::Refused),
    }
}
