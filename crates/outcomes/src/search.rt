//! The search: positions in the order in which they were reached, breadth first, each with the event that led to it.
ghost use Rattle.std.specs.Prelude.{◌≡◌, ◌<◌, ◌≤◌, true, false, length, IfOk, OnOk, IfSome, Some};
ghost use Rattle.outcomes.specs.declared.plan.Plan.{Plan};
ghost use Rattle.outcomes.specs.Positions.{first, Position};
ghost use Rattle.outcomes.specs.Runs.{IsRun};
ghost use Rattle.outcomes.specs.Events.{IsAsked};
ghost use Rattle.outcomes.specs.Comparisons.{AreComparable};
ghost use Rattle.outcomes.specs.Kept.{position_in, IsKept};
ghost use Rattle.outcomes.specs.Searches.{AreReached, AreThreads, CameBy, Grows, Has, IsAt, IsThread, IsTried, IsTriedOf};

use crate::adding::add;
use crate::digest::digests_of;
use crate::events::{Kind, event_of, thread_of};
use crate::first::{first_kept, first_machine};
use crate::kept::Kept;
use crate::plan::Plan;
use crate::sameness::is_same;
use crate::standing::Standing;
use crate::stock::Stock;
use crate::stored::Stored;
use crate::succession::successor;
use crate::table::Table;
use interleave::Machine;
use lockword::Tid;
use memorymap::NoMem;
use protocol::Event;
use std::alloc::Global;
use std::rc::Rc;

/// A position that was reached.
#[derive(Drop)]
pub(crate) struct Reached {
    pub stored: Stored,
    pub digest: u64,
    /// The number of an earlier one, and the event that leads from there; None of the first position.
    pub by: Option<(usize, Event)>,
}

/// What became of an event at a position.
#[derive(Clone, Copy, Debug, PartialEq, Eq)]
pub(crate) enum Tried {
    /// The event doesn't come there.
    Never,
    /// Where it leads was reached, now or before.
    Found,
    /// Where it leads wasn't reached before, and there is no room for it.
    NoRoom,
}

/// How the threads stand at the position with this number.
fn standings_at(reached: &[Reached], number: usize) -> &[Rc<Standing, Global>] {
    match reached.get(number) {
        Some(one) => &one.stored.standings,
        None => &[],
    }
}

/// What was reached of a plan.
#[derive(Drop)]
pub(crate) struct Search {
    pub machine: Machine,
    pub reached: Vec<Reached>,
    stock: Stock,
    table: Table,
    pub limit: usize,
}

impl Search {
    /// A search that has reached the first position, if there is room for any.
    pub(crate) fn new(alloc: Global, plan: &Plan, limit: usize) -> Result<Search, NoMem>
        ensures layout { IfOk result (λ s. s.machine.layout ≡ plan.now.layout) }
        ensures limit { IfOk result (λ s. s.limit ≡ limit) }
        ensures reached { IfOk result (λ s. AreReached plan.now s.reached.items) }
        ensures few { IfOk result (λ s. length s.reached.items ≤ limit) }
        ensures first { IfOk result (λ s. 0 < length s.reached.items
            → IsAt plan.now.layout s.reached.items 0 (first plan.now)) }
        ensures empty { IfOk result (λ s. length s.reached.items ≡ 0 → limit ≡ 0) }
    {
        let machine = first_machine(alloc, plan)?;
        let kept = first_kept(alloc, plan, &machine)?;
        let mut reached = Vec::new(alloc);
        let mut stock = Stock::new(alloc)?;
        let mut table = Table::new(alloc)?;
        if limit == 0 {
            return Ok(Search {
                machine,
                reached,
                stock,
                table,
                limit,
            });
        }
        let digests = digests_of(&kept, &[], 0);
        table.put(digests.position, 0);
        let stored = stock.store(alloc, kept, &[], digests.scene)?;
        let first = Reached {
            stored,
            digest: digests.position,
            by: None,
        };
        add(&mut reached, first)?;
        Ok(Search {
            machine,
            reached,
            stock,
            table,
            limit,
        })
    }

    /// The number of a position, if the table leads there.
    fn find(&self, kept: &Kept, digest: u64) -> Option<usize>
        ensures { IfSome result
            (λ i. (plan : Plan) → AreReached plan self.now.reached.items → IsKept plan kept.now
            → IsAt plan.layout self.now.reached.items i (position_in plan.layout kept.now)) }
    {
        let mut slot = self.table.first(digest);
        for _tried in 0..=self.table.len() {
            let number = self.table.number(slot)?;
            if self.table.suits(slot, digest)
                && number < self.reached.len()
                && is_same(&self.reached[number].stored, kept)
            {
                return Some(number);
            }
            slot = self.table.after(slot);
        }
        None
    }

    /// A table with more room, of all that was reached.
    fn spread(&mut self, alloc: Global) -> Result<(), NoMem>
        ensures reached { self.new.reached ≡ self.old.reached }
        ensures machine { self.new.machine ≡ self.old.machine }
        ensures limit { self.new.limit ≡ self.old.limit }
    {
        if !self.table.is_crowded() {
            return Ok(());
        }
        let mut table = self.table.twice(alloc)?;
        for number in 0..self.reached.len() {
            table.put(self.reached[number].digest, number);
        }
        self.table = table;
        Ok(())
    }

    /// Keeps a position, unless it was reached before; false where there is no room for it.
    fn keep(&mut self, alloc: Global, kept: Kept, from: usize, event: Event) -> Result<bool, NoMem>
        requires comparable { AreComparable kept.saved.threads.items }
        requires long { length kept.saved.threads.items ≡ length kept.lives.value.items }
        ensures machine { self.new.machine ≡ self.old.machine }
        ensures limit { self.new.limit ≡ self.old.limit }
        ensures grows { OnOk result (Grows self.old.reached.items self.new.reached.items) }
        ensures few { OnOk result (length self.old.reached.items ≤ self.old.limit
            → length self.new.reached.items ≤ self.old.limit) }
        ensures reached { OnOk result ((plan : Plan) → AreReached plan self.old.reached.items → IsKept plan kept
            → CameBy plan self.old.reached.items (length self.old.reached.items) (Some (from, event))
            (position_in plan.layout kept) → AreReached plan self.new.reached.items) }
        ensures there { IfOk result
            (λ b. b ≡ true → (plan : Plan) → AreReached plan self.old.reached.items → IsKept plan kept
            → Has plan.layout self.new.reached.items (position_in plan.layout kept)) }
        ensures full { IfOk result (λ b. b ≡ false → self.old.limit ≤ length self.new.reached.items) }
    {
        let changed = thread_of(&event).as_index();
        let digests = digests_of(&kept, standings_at(&self.reached, from), changed);
        if let Some(_number) = self.find(&kept, digests.position) {
            return Ok(true);
        }
        let number = self.reached.len();
        if self.limit <= number {
            return Ok(false);
        }
        let earlier = standings_at(&self.reached, from);
        let stored = self.stock.store(alloc, kept, earlier, digests.scene)?;
        let one = Reached {
            stored,
            digest: digests.position,
            by: Some((from, event)),
        };
        add(&mut self.reached, one)?;
        self.table.put(digests.position, number);
        self.spread(alloc)?;
        Ok(true)
    }

    /// Tries an event that the plan has come at a position, if it does something there.
    fn try_event(
        &mut self,
        alloc: Global,
        plan: &Plan,
        place: usize,
        kept: &Kept,
        event: Event,
    ) -> Result<Tried, NoMem>
        requires layout { self.old.machine.layout ≡ plan.now.layout }
        requires reached { AreReached plan.now self.old.reached.items }
        requires few { length self.old.reached.items ≤ self.old.limit }
        requires place { place < length self.old.reached.items }
        requires kept { IsKept plan.now kept.now }
        requires at { IsAt plan.now.layout self.old.reached.items place (position_in plan.now.layout kept.now) }
        requires asked { (p : Position) → IsAt plan.now.layout self.old.reached.items place p → IsAsked plan.now p event }
        ensures layout { OnOk result (self.new.machine.layout ≡ plan.now.layout) }
        ensures limit { self.new.limit ≡ self.old.limit }
        ensures reached { OnOk result (AreReached plan.now self.new.reached.items) }
        ensures few { OnOk result (length self.new.reached.items ≤ self.old.limit) }
        ensures grows { OnOk result (Grows self.old.reached.items self.new.reached.items) }
        ensures tried { IfOk result (λ t. (p : Position) → IsAt plan.now.layout self.old.reached.items place p
            → IsTried plan.now p self.old.limit self.new.reached.items event t) }
    {
        let next = successor(&mut self.machine, alloc, plan, kept, &event)?;
        match next {
            None => Ok(Tried::Never),
            Some(next) => {
                if self.keep(alloc, next, place, event)? {
                    Ok(Tried::Found)
                } else {
                    Ok(Tried::NoRoom)
                }
            }
        }
    }

    /// Tries the event of a kind and of a thread at a position, if the plan has one come there.
    pub(crate) fn try_kind(
        &mut self,
        alloc: Global,
        plan: &Plan,
        place: usize,
        kept: &Kept,
        thread: Tid,
        kind: Kind,
    ) -> Result<Tried, NoMem>
        requires layout { self.old.machine.layout ≡ plan.now.layout }
        requires reached { AreReached plan.now self.old.reached.items }
        requires few { length self.old.reached.items ≤ self.old.limit }
        requires place { place < length self.old.reached.items }
        requires kept { IsKept plan.now kept.now }
        requires at { IsAt plan.now.layout self.old.reached.items place (position_in plan.now.layout kept.now) }
        requires known { thread ≤ plan.now.layout.threads }
        ensures layout { OnOk result (self.new.machine.layout ≡ plan.now.layout) }
        ensures limit { self.new.limit ≡ self.old.limit }
        ensures reached { OnOk result (AreReached plan.now self.new.reached.items) }
        ensures few { OnOk result (length self.new.reached.items ≤ self.old.limit) }
        ensures grows { OnOk result (Grows self.old.reached.items self.new.reached.items) }
        ensures tried { IfOk result (λ t. (p : Position) → IsAt plan.now.layout self.old.reached.items place p
            → IsTriedOf plan.now p self.old.limit self.new.reached.items kind thread t) }
    {
        match event_of(plan, kept, kind, thread) {
            None => Ok(Tried::Never),
            Some(event) => self.try_event(alloc, plan, place, kept, event),
        }
    }
}
