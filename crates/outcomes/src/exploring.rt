//! Exploring a plan.
ghost use Rattle.std.specs.Prelude.{◌≡◌, ◌≤◌, ◌<◌, true, false, IfOk, OnOk, length};
ghost use Rattle.outcomes.specs.Outcomes.{IsListed, AreWitnessed, AreDifferent, HasAll, Outcome', outcome_in, outcome_of};
ghost use Rattle.outcomes.specs.Kept.{position_in, IsKept};
ghost use Rattle.outcomes.specs.Positions.{Position};
ghost use Rattle.outcomes.specs.Runs.{IsOver};
ghost use Rattle.outcomes.specs.Searches.{AreReached, IsAt};

use crate::adding::add;
use crate::kept::Kept;
use crate::outcome::Outcome;
use crate::plan::Plan;
use crate::reading::outcome_of;
use crate::sameness::same_outcomes;
use crate::search::Search;
use memorymap::NoMem;
use protocol::Event;
use std::alloc::Global;

/// How many positions are looked at from one report to the next.
const REPORTED: usize = 4096;

/// A listener that learns now and then how far the search is.
pub trait Progress {
    /// This many positions were reached.
    fn reached(&mut self, states: usize);

    /// The search has ended, or memory was refused.
    fn ended(&mut self) {}
}

/// An outcome, and a run to it.
#[derive(Debug, Drop)]
pub struct Witnessed {
    pub outcome: Outcome,
    /// The events of the run, in order.
    pub events: Vec<Event>,
}

/// What was found.
#[derive(Debug, Drop)]
pub struct Found {
    /// No outcome is missing.
    pub complete: bool,
    /// How many positions were reached.
    pub states: usize,
    /// Each outcome once, in the order of discovery.
    pub outcomes: Vec<Witnessed>,
}

/// Whether an outcome is among those that were found.
fn is_listed(found: &[Witnessed], outcome: &Outcome) -> bool
    ensures listed { result ≡ true → IsListed (outcome_in outcome.now) found.now }
    ensures new { result ≡ false → IsListed (outcome_in outcome.now) found.now → ⊥ }
{
    for witnessed in found {
        if same_outcomes(&witnessed.outcome, outcome) {
            return true;
        }
    }
    false
}

impl Search {
    /// Adds the outcome of a position, if no run goes on from there, with the run that led there; unless the outcome is
    /// there already.
    fn witness(
        &self,
        alloc: Global,
        plan: &Plan,
        place: usize,
        kept: &Kept,
        on: bool,
        found: &mut Vec<Witnessed>,
    ) -> Result<(), NoMem>
        requires reached { AreReached plan.now self.now.reached.items }
        requires place { place < length self.now.reached.items }
        requires kept { IsKept plan.now kept.now }
        requires at { IsAt plan.now.layout self.now.reached.items place (position_in plan.now.layout kept.now) }
        requires over { on ≡ false
            → (p : Position) → IsAt plan.now.layout self.now.reached.items place p → IsOver plan.now p }
        ensures sound { OnOk result (AreWitnessed plan.now found.old.items → AreWitnessed plan.now found.new.items) }
        ensures once { OnOk result (AreDifferent found.old.items → AreDifferent found.new.items) }
        ensures listed { OnOk result
            (on ≡ false → (p : Position) → IsAt plan.now.layout self.now.reached.items place p
            → IsListed (outcome_of plan.now p) found.new.items) }
        ensures keeps { OnOk result ((o : Outcome') → IsListed o found.old.items → IsListed o found.new.items) }
    {
        if on {
            return Ok(());
        }
        let outcome = outcome_of(alloc, plan, kept)?;
        if is_listed(found, &outcome) {
            return Ok(());
        }
        let events = self.run_to(alloc, plan, place)?;
        add(found, Witnessed { outcome, events })?;
        Ok(())
    }
}

/// Reports how far the search is, now and then.
fn report<P: Progress>(progress: &mut P, done: usize, states: usize) {
    if done % REPORTED == 0 {
        progress.reached(states);
    }
}

/// Searches through a plan.
fn search_through<P: Progress>(
    alloc: Global,
    plan: &Plan,
    limit: usize,
    progress: &mut P,
) -> Result<Found, NoMem>
    ensures sound { IfOk result (λ f. AreWitnessed plan.now f.outcomes.items) }
    ensures complete { IfOk result (λ f. f.complete ≡ true → HasAll plan.now f.outcomes.items) }
    ensures once { IfOk result (λ f. AreDifferent f.outcomes.items) }
    ensures few { IfOk result (λ f. f.states ≤ limit) }
    ensures stopped { IfOk result (λ f. f.complete ≡ false → f.states ≡ limit) }
{
    let mut search = Search::new(alloc, plan, limit)?;
    let mut outcomes = Vec::new(alloc);
    let mut done = 0;
    let mut complete = 0 < search.reached.len();
    while complete && done < search.reached.len() {
        let kept = search.reached[done].stored.kept(alloc)?;
        let expanded = search.expand(alloc, plan, done, &kept)?;
        complete = expanded.room;
        search.witness(alloc, plan, done, &kept, expanded.on, &mut outcomes)?;
        done += 1;
        report(progress, done, search.reached.len());
    }
    Ok(Found {
        complete,
        states: search.reached.len(),
        outcomes,
    })
}

/// Every outcome of the plan's runs that are over, each with the events of a run to it, in the order of their discovery. At
/// most `limit` positions are stored. `progress` learns how many there are after each 4,096 that were looked at, and that
/// the search has ended. The search is breadth first, so no other run to an outcome has fewer events, but no clause says
/// so.
///
/// If `complete`, then every list of events of the plan that leads from its first position to one that is over has its
/// outcome in the list. If not, then `limit` positions were reached, there was no room for another one, and outcomes may be
/// missing. Refused as `NoMem` if memory is refused.
pub fn explore<P: Progress>(
    alloc: Global,
    plan: &Plan,
    limit: usize,
    progress: &mut P,
) -> Result<Found, NoMem>
    ensures sound { IfOk result (λ f. AreWitnessed plan.now f.outcomes.items) }
    ensures complete { IfOk result (λ f. f.complete ≡ true → HasAll plan.now f.outcomes.items) }
    ensures once { IfOk result (λ f. AreDifferent f.outcomes.items) }
    ensures few { IfOk result (λ f. f.states ≤ limit) }
    ensures stopped { IfOk result (λ f. f.complete ≡ false → f.states ≡ limit) }
{
    let found = search_through(alloc, plan, limit, progress);
    progress.ended();
    found
}
