//! A table of numbers by digests. Nothing rests on what it says: whoever asks it compares what has that number.

use memorymap::NoMem;
use std::alloc::{AllocError, Global};

/// How many slots a table has at first: a power of two, as ever after.
const FIRST_SLOTS: usize = 1024;

/// What a slot has.
#[derive(Clone, Copy, Debug, PartialEq, Eq)]
struct Slot {
    /// 0 where nothing is, else one more than a number.
    number: u32,
    /// The high half of the digest that led there.
    high: u32,
}

const FREE: Slot = Slot { number: 0, high: 0 };

/// The half of a digest that a slot keeps.
fn high_of(digest: u64) -> u32 {
    (digest / 0x1_0000_0000) as u32
}

/// Numbers, each in the first free slot from that on to which its digest leads.
#[derive(Drop)]
pub(crate) struct Table {
    slots: Vec<Slot>,
    taken: usize,
}

impl Table {
    /// A table with nothing in it.
    pub(crate) fn new(alloc: Global) -> Result<Table, AllocError> {
        Table::with_slots(alloc, FIRST_SLOTS)
    }

    fn with_slots(alloc: Global, count: usize) -> Result<Table, AllocError> {
        Ok(Table {
            slots: vec![in alloc; FREE; count]?,
            taken: 0,
        })
    }

    /// An empty table with twice as many slots.
    pub(crate) fn twice(&self, alloc: Global) -> Result<Table, NoMem> {
        let count = self.slots.len().saturating_mul(2);
        Ok(Table::with_slots(alloc, count)?)
    }

    /// The slot to which a digest leads.
    pub(crate) fn first(&self, digest: u64) -> usize {
        digest as usize & self.slots.len().saturating_sub(1)
    }

    /// The slot after a slot: the first one, after the last.
    pub(crate) fn after(&self, slot: usize) -> usize {
        let next = slot.saturating_add(1);
        if next < self.slots.len() { next } else { 0 }
    }

    /// The number in a slot; None where nothing is.
    pub(crate) fn number(&self, slot: usize) -> Option<usize> {
        let number = self.slots.get(slot)?.number;
        if number == 0 {
            None
        } else {
            Some(number as usize - 1)
        }
    }

    /// Whether the digest may have led to what is in a slot.
    pub(crate) fn suits(&self, slot: usize, digest: u64) -> bool {
        match self.slots.get(slot) {
            Some(there) => there.high == high_of(digest),
            None => false,
        }
    }

    /// How many slots there are.
    pub(crate) fn len(&self) -> usize {
        self.slots.len()
    }

    /// Half of the slots are taken.
    pub(crate) fn is_crowded(&self) -> bool {
        self.slots.len() / 2 <= self.taken
    }

    /// Puts a number into the first free slot from that on to which its digest leads. One past the largest that a
    /// slot can have isn't put anywhere.
    pub(crate) fn put(&mut self, digest: u64, number: usize) {
        let Ok(number) = u32::try_from(number.saturating_add(1)) else {
            return;
        };
        let mut slot = self.first(digest);
        for _tried in 0..=self.slots.len() {
            if self.number(slot).is_none() {
                break;
            }
            slot = self.after(slot);
        }
        if slot < self.slots.len() {
            let high = high_of(digest);
            self.slots[slot] = Slot { number, high };
            self.taken = self.taken.saturating_add(1);
        }
    }
}
