//! A bucket as one list of all that sleep, in the order in which they fell asleep: what the rings are compared with.

use std::alloc::Global;
use std::test::Fail;

/// A thread that sleeps on a key, by its id.
#[derive(Clone, Copy)]
struct Sleeper {
    id: u8,
    key: u64,
}

/// Which threads sleep, with room for this many.
#[derive(Drop)]
pub(crate) struct Slow {
    alloc: Global,
    capacity: usize,
    sleepers: Vec<Sleeper>,
}

impl Slow {
    pub(crate) fn new(alloc: Global, capacity: usize) -> Slow {
        Slow {
            alloc,
            capacity,
            sleepers: Vec::new(alloc),
        }
    }

    /// Where the first sleeper of a key stands; how many sleep, where nobody sleeps on that key.
    fn place_on(&self, key: u64) -> usize {
        for place in 0..self.sleepers.len() {
            if self.sleepers[place].key == key {
                return place;
            }
        }
        self.sleepers.len()
    }

    /// Where a thread stands; how many sleep, where it doesn't sleep.
    fn place_of(&self, id: u8) -> usize {
        for place in 0..self.sleepers.len() {
            if self.sleepers[place].id == id {
                return place;
            }
        }
        self.sleepers.len()
    }

    pub(crate) fn enqueue(&mut self, id: u8, key: u64) -> Result<(), Fail> {
        self.sleepers.push(Sleeper { id, key })?;
        Ok(())
    }

    pub(crate) fn take(&mut self, key: u64, n: u32) -> Result<Vec<u8>, Fail> {
        let mut taken = Vec::new(self.alloc);
        for _ in 0..n {
            let place = self.place_on(key);
            if place >= self.sleepers.len() {
                return Ok(taken);
            }
            let sleeper = self.sleepers.remove(place);
            taken.push(sleeper.id)?;
        }
        Ok(taken)
    }

    fn enqueue_all(&mut self, ids: &[u8], key: u64) -> Result<(), Fail> {
        for id in ids {
            self.enqueue(*id, key)?;
        }
        Ok(())
    }

    pub(crate) fn move_within(&mut self, key: u64, n: u32, to: u64) -> Result<Vec<u8>, Fail> {
        let moved = self.take(key, n)?;
        self.enqueue_all(&moved, to)?;
        Ok(moved)
    }

    pub(crate) fn move_to(
        &mut self,
        other: &mut Slow,
        key: u64,
        n: u32,
        to: u64,
    ) -> Result<Vec<u8>, Fail> {
        let moved = self.take(key, n)?;
        other.enqueue_all(&moved, to)?;
        Ok(moved)
    }

    pub(crate) fn fits(&self, other: &Slow, key: u64, n: u32) -> Result<bool, Fail> {
        let queue = self.sleepers(key)?;
        let mut moved = 0_usize;
        for id in &queue {
            if moved == n as usize {
                break;
            }
            if other.stands(*id) {
                return Ok(false);
            }
            moved = moved.wrapping_add(1);
        }
        Ok(other.sleepers.len().wrapping_add(moved) <= other.capacity)
    }

    pub(crate) fn remove(&mut self, id: u8) -> bool {
        let place = self.place_of(id);
        if place >= self.sleepers.len() {
            return false;
        }
        self.sleepers.remove(place);
        true
    }

    pub(crate) fn stands(&self, id: u8) -> bool {
        self.place_of(id) < self.sleepers.len()
    }

    pub(crate) fn full(&self) -> bool {
        self.sleepers.len() == self.capacity
    }

    pub(crate) fn sleepers(&self, key: u64) -> Result<Vec<u8>, Fail> {
        let mut queue = Vec::new(self.alloc);
        for sleeper in &self.sleepers {
            if sleeper.key == key {
                queue.push(sleeper.id)?;
            }
        }
        Ok(queue)
    }
}
