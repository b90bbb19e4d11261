//! What a position leads to, and which events led to it.
ghost use Rattle.std.specs.Prelude.{◌≡◌, ◌<◌, ◌≤◌, ◌||◌, ◌&&◌, true, false, length, IfOk, OnOk};
ghost use Rattle.outcomes.specs.Positions.{first, Position};
ghost use Rattle.outcomes.specs.Kept.{position_in, IsKept};
ghost use Rattle.outcomes.specs.Runs.{IsRun};
ghost use Rattle.outcomes.specs.Searches.{AreReached, AreThreads, Grows, IsAt, IsThread, came, had_room};

use crate::adding::add;
use crate::events::Kind;
use crate::kept::Kept;
use crate::plan::Plan;
use crate::search::{Search, Tried};
use lockword::Tid;
use memorymap::NoMem;
use protocol::Event;
use std::alloc::Global;

/// What became of the events at a position.
#[derive(Clone, Copy, Debug, PartialEq, Eq)]
pub(crate) struct Expanded {
    /// A run goes on from there by a begin, a step or an expiry.
    pub on: bool,
    /// There was room for all that they lead to.
    pub room: bool,
}

/// Whether an event came.
fn came(tried: Tried) -> bool
    ensures { result ≡ came tried }
{
    match tried {
        Tried::Never => false,
        Tried::Found | Tried::NoRoom => true,
    }
}

/// Whether there was room for where it leads.
fn had_room(tried: Tried) -> bool
    ensures { result ≡ had_room tried }
{
    match tried {
        Tried::Never | Tried::Found => true,
        Tried::NoRoom => false,
    }
}

/// Whether a run goes on: a begin, a step or an expiry came.
fn goes_on(begin: Tried, step: Tried, expire: Tried) -> bool
    ensures { result ≡ ((came begin || came step) || came expire) }
{
    came(begin) || came(step) || came(expire)
}

/// Whether there was room for where three events lead.
fn had_room_for(first: Tried, second: Tried, third: Tried) -> bool
    ensures { result ≡ ((had_room first && had_room second) && had_room third) }
{
    had_room(first) && had_room(second) && had_room(third)
}

/// Both.
fn both(first: bool, second: bool) -> bool
    ensures { result ≡ (first && second) }
{
    first && second
}

/// Either.
fn either(first: bool, second: bool) -> bool
    ensures { result ≡ (first || second) }
{
    first || second
}

impl Search {
    /// Tries the events of a thread at a position.
    fn expand_thread(
        &mut self,
        alloc: Global,
        plan: &Plan,
        place: usize,
        kept: &Kept,
        thread: Tid,
    ) -> Result<Expanded, NoMem>
        requires layout { self.old.machine.layout ≡ plan.now.layout }
        requires reached { AreReached plan.now self.old.reached.items }
        requires few { length self.old.reached.items ≤ self.old.limit }
        requires place { place < length self.old.reached.items }
        requires kept { IsKept plan.now kept.now }
        requires at { IsAt plan.now.layout self.old.reached.items place (position_in plan.now.layout kept.now) }
        requires known { thread ≤ plan.now.layout.threads }
        ensures layout { OnOk result (self.new.machine.layout ≡ plan.now.layout) }
        ensures limit { self.new.limit ≡ self.old.limit }
        ensures reached { OnOk result (AreReached plan.now self.new.reached.items) }
        ensures few { OnOk result (length self.new.reached.items ≤ self.old.limit) }
        ensures grows { OnOk result (Grows self.old.reached.items self.new.reached.items) }
        ensures tried { IfOk result (λ x. (p : Position) → IsAt plan.now.layout self.old.reached.items place p
            → IsThread plan.now p self.old.limit self.new.reached.items thread x.on x.room) }
    {
        let begin = self.try_kind(alloc, plan, place, kept, thread, Kind::Begin)?;
        let step = self.try_kind(alloc, plan, place, kept, thread, Kind::Step)?;
        let expire = self.try_kind(alloc, plan, place, kept, thread, Kind::Expire)?;
        let kill = self.try_kind(alloc, plan, place, kept, thread, Kind::Kill)?;
        let leave = self.try_kind(alloc, plan, place, kept, thread, Kind::Leave)?;
        let spare = self.try_kind(alloc, plan, place, kept, thread, Kind::Spare)?;
        let on = goes_on(begin, step, expire);
        let room = both(
            had_room_for(begin, step, expire),
            had_room_for(kill, leave, spare),
        );
        Ok(Expanded { on, room })
    }

    /// Tries all events at a position.
    pub(crate) fn expand(
        &mut self,
        alloc: Global,
        plan: &Plan,
        place: usize,
        kept: &Kept,
    ) -> Result<Expanded, NoMem>
        requires layout { self.old.machine.layout ≡ plan.now.layout }
        requires reached { AreReached plan.now self.old.reached.items }
        requires few { length self.old.reached.items ≤ self.old.limit }
        requires place { place < length self.old.reached.items }
        requires kept { IsKept plan.now kept.now }
        requires at { IsAt plan.now.layout self.old.reached.items place (position_in plan.now.layout kept.now) }
        ensures layout { OnOk result (self.new.machine.layout ≡ plan.now.layout) }
        ensures limit { self.new.limit ≡ self.old.limit }
        ensures reached { OnOk result (AreReached plan.now self.new.reached.items) }
        ensures few { OnOk result (length self.new.reached.items ≤ self.old.limit) }
        ensures grows { OnOk result (Grows self.old.reached.items self.new.reached.items) }
        ensures tried { IfOk result (λ x. (p : Position) → IsAt plan.now.layout self.old.reached.items place p
            → AreThreads plan.now p self.old.limit self.new.reached.items plan.now.layout.threads x.on x.room) }
    {
        let mut on = false;
        let mut room = true;
        for before in 0..plan.layout.threads() {
            let Some(thread) = Tid::new(before + 1) else {
                unreachable!()
            };
            let expanded = self.expand_thread(alloc, plan, place, kept, thread)?;
            on = either(on, expanded.on);
            room = both(room, expanded.room);
        }
        Ok(Expanded { on, room })
    }

    /// The events that led to a position, in order.
    pub(crate) fn run_to(
        &self,
        alloc: Global,
        plan: &Plan,
        place: usize,
    ) -> Result<Vec<Event>, NoMem>
        requires reached { AreReached plan.now self.now.reached.items }
        requires place { place < length self.now.reached.items }
        ensures { IfOk result (λ es. (p : Position) → IsAt plan.now.layout self.now.reached.items place p
            → IsRun plan.now (first plan.now) es.items p) }
    {
        let mut events = Vec::new(alloc);
        let mut here = place;
        while let Some((from, event)) = self.reached[here].by {
            add(&mut events, event)?;
            here = from;
        }
        events.reverse();
        Ok(events)
    }
}
