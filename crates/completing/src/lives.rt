//! What threads' own lines say of them.

use crate::stop::{Stop, keep};
use lockword::Reply;
use posixmutex::{HELD_LIMIT, Operation};
use std::alloc::Global;
use std::mem;

/// Where a thread is in its life.
#[derive(Clone, Copy, PartialEq, Eq)]
pub enum Turn {
    Resting,
    /// In a call on this mutex.
    Calling(u16),
    /// Dead or doomed, in no call.
    Dying,
    Reaped,
}

/// What is known of a thread.
#[derive(Drop)]
pub struct Life {
    pub turn: Turn,
    /// The mutexes that it owns by its own lines.
    pub owned: Vec<u16>,
    /// Those that it may have owned when it died.
    pub left: Vec<u16>,
}

/// Adds a mutex to those of a list, unless it is there.
fn include(mutexes: &mut Vec<u16>, mutex: u16) -> Result<(), Stop> {
    if mutexes.contains(&mutex) {
        return Ok(());
    }
    keep(mutexes, mutex)
}

impl Life {
    /// A thread that rests and owns nothing.
    pub fn new(alloc: Global) -> Life {
        Life {
            turn: Turn::Resting,
            owned: Vec::new(alloc),
            left: Vec::new(alloc),
        }
    }

    /// Whether it owns the mutex.
    pub fn owns(&self, mutex: u16) -> bool {
        self.owned.contains(&mutex)
    }

    /// Whether it owns as many as it may.
    pub fn is_full(&self) -> bool {
        self.owned.len() >= usize::from(HELD_LIMIT)
    }

    /// The call has returned.
    pub fn settle(&mut self, mutex: u16, operation: Operation, reply: Reply) -> Result<(), Stop> {
        self.turn = Turn::Resting;
        match (operation, reply) {
            (
                Operation::Lock | Operation::TryLock | Operation::TimedLock,
                Reply::OK | Reply::EOWNERDEAD,
            ) => keep(&mut self.owned, mutex),
            (Operation::Unlock, Reply::OK)
            | (Operation::Wait | Operation::TimedWait, Reply::ENOTRECOVERABLE) => {
                self.owned.retain(|owned| *owned != mutex);
                Ok(())
            }
            _ => Ok(()),
        }
    }

    /// Dies, perhaps in a call on this mutex.
    pub fn leave(&mut self, alloc: Global, calls: Option<u16>) -> Result<(), Stop> {
        self.left = mem::replace(&mut self.owned, Vec::new(alloc));
        match calls {
            Some(mutex) => include(&mut self.left, mutex),
            None => Ok(()),
        }
    }
}
