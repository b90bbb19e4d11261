//! Cutting a certificate into windows.

ghost use Rattle.std.specs.Prelude.{◌≡◌, ◌<◌, ◌≤◌, ◌++◌, length, List, IfOk, IfSome, IfNone, OnOk};
ghost use Rattle.facts.specs.declared.fact.Line.{Line};
ghost use Rattle.verdict.specs.Limits.{max_events};
ghost use Rattle.histories.specs.declared.entry.Entry.{Entry};
ghost use Rattle.histories.specs.Reading.{IsHead};
ghost use Rattle.certificates.specs.States.{IsSound};
ghost use Rattle.windows.specs.Places.{LeaveAlike, Reaches, told};
ghost use Rattle.windows.specs.Texts.{certificate_text, steps_count};
ghost use Rattle.windows.specs.Windows.{Begins, IsAt, IsLegalText, IsWindow};

use crate::alike::are_alike;
use crate::going::{behind, go, take};
use crate::place::suits;
use crate::preamble::preamble;
use crate::stop::Stop;
use crate::writing::{events_of, write_certificate};
use certificates::State;
use histories::{Entry, Head};
use std::alloc::Global;
use verdict::{Fault, Finding, MAX_CONDITIONS, MAX_EVENTS, MAX_MUTEXES, explain};

/// A part of a certificate, as a trace of its own.
#[derive(Drop)]
pub struct Window {
    /// The place of its first step among the certificate's, counted from 0.
    pub from: usize,
    /// The place after its last step.
    pub to: usize,
    /// How many lines stand before those of its steps: without the `trace` line.
    pub preamble: usize,
    pub text: Vec<u8>,
}

/// Where a certificate is cut next.
#[derive(Drop)]
pub struct Cutter {
    /// How many of its steps are cut off.
    pub from: usize,
    /// Where these leave threads and mutexes.
    pub state: State,
}

/// The last place after this one where the steps can be cut, so that at most this many lines stand between; the last
/// of all, where they go so far.
fn farthest(
    state: &mut State,
    steps: &[Entry],
    from: usize,
    room: usize,
) -> Result<Option<usize>, Stop>
    requires sound { IsSound state.old }
    requires within { from ≤ length steps.now }
    ensures behind { IfOk result (λ found. IfSome found (λ to. from < to)) }
    ensures within { IfOk result (λ found. IfSome found (λ to. to ≤ length steps.now)) }
{
    let mut found = None;
    let mut lines: usize = 0;
    for at in from..steps.len() {
        if matches!(steps[at], Entry::Told(_)) {
            if lines >= room {
                return Ok(found);
            }
            lines += 1;
        }
        if take(state, &steps[at]).is_none() {
            return Err(Stop::Refused);
        }
        if at + 1 == steps.len() || suits(state) {
            found = Some(at + 1);
        }
    }
    Ok(found)
}

/// The steps' text.
fn text_of(alloc: Global, head: &Head, steps: &[Entry]) -> Result<Vec<u8>, Stop>
    ensures { IfOk result (λ v. v.items ≡ certificate_text head.now steps.now) }
{
    let mut text = Vec::new(alloc);
    match write_certificate(&mut text, head, steps) {
        Ok(()) => Ok(text),
        Err(_) => Err(Stop::Memory),
    }
}

/// Asks the judge of traces.
fn judge(alloc: Global, text: &[u8]) -> Result<(), Stop>
    ensures { IfOk result (λ _. IsLegalText text.now) }
{
    match explain(alloc, text) {
        Ok(Finding::Legal { .. }) => Ok(()),
        Ok(Finding::Illegal(_)) => Err(Stop::Refused),
        Err(why) => {
            if why.fault == Fault::OutOfMemory {
                Err(Stop::Memory)
            } else {
                Err(Stop::Refused)
            }
        }
    }
}

/// The text of these lines and of those of a part after them, where the judge of traces finds it legal.
fn legal_text(alloc: Global, head: &Head, before: &[Entry], part: &[Entry]) -> Result<Vec<u8>, Stop>
    ensures text { IfOk result (λ v. v.items ≡ certificate_text head.now (before.now ++ part.now)) }
    ensures legal { IfOk result (λ v. IsLegalText v.items) }
    ensures few { IfOk result (λ _. steps_count (before.now ++ part.now) ≤ max_events) }
{
    let mut steps = Vec::from_slice(alloc, before)?;
    steps.extend_from_slice(part)?;
    if events_of(&steps) > MAX_EVENTS as usize {
        return Err(Stop::Refused);
    }
    let text = text_of(alloc, head, &steps)?;
    judge(alloc, &text)?;
    Ok(text)
}

/// Lines that leave threads and mutexes as these steps do, and where that is.
fn begin(alloc: Global, head: &Head, state: &State) -> Result<(Vec<Entry>, State), Stop>
    requires { IsHead head.now }
    ensures joins { IfOk result (λ r. (lines : List Line) → Reaches state.now lines
        → LeaveAlike (told (length r.0.items) r.0.items) lines) }
    ensures sound { IfOk result (λ r. IsSound r.1) }
{
    let before = preamble(alloc, state)?;
    let reached = behind(alloc, head, &before)?;
    if are_alike(&reached, state) {
        Ok((before, reached))
    } else {
        Err(Stop::Refused)
    }
}

/// The window of the steps that begins at this place, where the steps before it leave threads and mutexes so.
fn cut_off(
    alloc: Global,
    head: &Head,
    steps: &[Entry],
    from: usize,
    state: &State,
) -> Result<Window, Stop>
    requires head { IsHead head.now }
    requires within { from ≤ length steps.now }
    requires here { Reaches state.now (told from steps.now) }
    ensures window { IfOk result (IsWindow head.now steps.now) }
    ensures from { IfOk result (λ w. w.from ≡ from) }
{
    let (before, mut reached) = begin(alloc, head, state)?;
    let preamble = events_of(&before);
    let room = (MAX_EVENTS as usize).saturating_sub(preamble);
    let Some(to) = farthest(&mut reached, steps, from, room)? else {
        return Err(Stop::NoPlace);
    };
    let text = legal_text(alloc, head, &before, &steps[from..to])?;
    Ok(Window {
        from,
        to,
        preamble,
        text,
    })
}

impl Cutter {
    /// Before the first step.
    pub fn new(alloc: Global, head: &Head) -> Result<Cutter, Stop>
        requires { IsHead head.now }
        ensures { (steps : List Entry) → Begins head.now steps result }
    {
        if head.mutexes > MAX_MUTEXES || head.conditions > MAX_CONDITIONS {
            return Err(Stop::TooMany);
        }
        let state = State::new(alloc, head)?;
        Ok(Cutter { from: 0, state })
    }

    /// Cuts off the next window of the steps, which are the same at each call; None after the last. After an error
    /// there is no further one. Memory is asked for what a window has, and no more than once for what is kept.
    pub fn next(
        &mut self,
        alloc: Global,
        head: &Head,
        steps: &[Entry],
    ) -> Result<Option<Window>, Stop>
        requires head { IsHead head.now }
        requires at { IsAt steps.now self.old }
        ensures window { IfOk result (λ found. IfSome found (IsWindow head.now steps.now)) }
        ensures from { IfOk result (λ found. IfSome found (λ w. w.from ≡ self.old.from)) }
        ensures to { IfOk result (λ found. IfSome found (λ w. self.new.from ≡ w.to)) }
        ensures last { IfOk result (λ found. IfNone found (self.old.from ≡ length steps.now)) }
        ensures at { OnOk result (IsAt steps.now self.new) }
    {
        if self.from == steps.len() {
            return Ok(None);
        }
        let window = cut_off(alloc, head, steps, self.from, &self.state)?;
        match go(&mut self.state, steps, self.from, window.to) {
            Some(()) => {
                self.from = window.to;
                Ok(Some(window))
            }
            None => Err(Stop::Refused),
        }
    }
}
