//! The pass over a history's lines.

use crate::closing::{Moment, close};
use crate::contended::Contended;
use crate::fates::{Fate, fates};
use crate::lives::{Life, Turn};
use crate::pending::Pending;
use crate::replies::{allows, only_looks, told_as};
use crate::stop::{IDS, Stop, keep, place};
use facts::{Begun, Fact};
use histories::{Entry, Head, HistoryLine};
use lockword::{Reply, Tid};
use posixmutex::Operation;
use std::alloc::Global;

/// A point that changes nothing, of a call that returned.
#[derive(Clone, Copy)]
pub struct Look {
    pub thread: Tid,
    pub mutex: u16,
    pub operation: Operation,
    pub reply: Reply,
    pub begin: u32,
    pub end: u32,
}

/// What is known after the lines so far.
#[derive(Drop)]
pub struct Pass {
    pub(crate) alloc: Global,
    pub(crate) mutexes: Vec<Contended>,
    pub(crate) lives: Vec<Life>,
    pub(crate) dead: [bool; IDS],
    pub(crate) looks: Vec<Look>,
    fates: Vec<Fate>,
    now: u32,
}

impl Pass {
    /// Before the first of these lines.
    pub fn new(alloc: Global, head: &Head, lines: &[HistoryLine]) -> Result<Pass, Stop> {
        let mut mutexes = Vec::new(alloc);
        for _ in 0..head.mutexes {
            push_mutex(&mut mutexes, Contended::new(alloc)?)?;
        }
        let mut lives = Vec::new(alloc);
        for _ in 0..IDS {
            push_life(&mut lives, Life::new(alloc))?;
        }
        Ok(Pass {
            alloc,
            mutexes,
            lives,
            dead: [false; IDS],
            looks: Vec::new(alloc),
            fates: fates(alloc, lines)?,
            now: 0,
        })
    }

    pub(crate) fn turn(&self, thread: Tid) -> Turn {
        match self.lives.get(place(thread)) {
            Some(life) => life.turn,
            None => Turn::Reaped,
        }
    }

    pub(crate) fn set_turn(&mut self, thread: Tid, turn: Turn) {
        if let Some(life) = self.lives.get_mut(place(thread)) {
            life.turn = turn;
        }
    }

    /// Whether the thread owns the mutex, by its own lines, and whether it owns as many as it may.
    fn owns(&self, thread: Tid, mutex: u16) -> (bool, bool) {
        match self.lives.get(place(thread)) {
            Some(life) => (life.owns(mutex), life.is_full()),
            None => (false, false),
        }
    }

    /// Adds what may follow at this moment.
    pub(crate) fn close(&mut self, mutex: u16) -> Result<(), Stop> {
        let moment = Moment {
            now: self.now,
            dead: &self.dead,
        };
        let alloc = self.alloc;
        match self.mutexes.get_mut(usize::from(mutex)) {
            Some(contended) => close(contended, alloc, &moment),
            None => Err(Stop::Lost),
        }
    }

    fn begin(&mut self, thread: Tid, begun: Begun) -> Result<(), Stop> {
        if self.turn(thread) != Turn::Resting {
            return Err(Stop::Refused);
        }
        let (owned, full) = self.owns(thread, begun.mutex);
        let fate = match self.fates.get((self.now as usize).wrapping_sub(1)) {
            Some(fate) => *fate,
            None => return Err(Stop::Lost),
        };
        let begin = self.now;
        let Some(contended) = self.mutexes.get_mut(usize::from(begun.mutex)) else {
            return Err(Stop::Lost);
        };
        let mark = match begun.operation {
            Operation::Reinit => contended.mark()?,
            _ => 0,
        };
        let call = Pending {
            thread,
            operation: begun.operation,
            begin,
            owned,
            inconsistent: owned && contended.states.iter().any(|state| state.inconsistent),
            full,
            doomed: false,
            mark,
            fate,
        };
        keep(&mut contended.pending, call)?;
        self.set_turn(thread, Turn::Calling(begun.mutex));
        self.close(begun.mutex)
    }

    /// Keeps a look of a call that returned.
    fn look(&mut self, call: &Pending, mutex: u16, reply: Reply) -> Result<(), Stop> {
        if !only_looks(call.operation, reply) {
            return Ok(());
        }
        let look = Look {
            thread: call.thread,
            mutex,
            operation: told_as(call.operation, reply),
            reply,
            begin: call.begin,
            end: self.now,
        };
        keep(&mut self.looks, look)
    }

    fn return_from(&mut self, thread: Tid, reply: Reply) -> Result<(), Stop> {
        let Turn::Calling(mutex) = self.turn(thread) else {
            return Err(Stop::Refused);
        };
        if self.dead[place(thread)] {
            return Err(Stop::Refused);
        }
        let Some(contended) = self.mutexes.get_mut(usize::from(mutex)) else {
            return Err(Stop::Lost);
        };
        let Some((at, call)) = contended.call_of(thread) else {
            return Err(Stop::Lost);
        };
        contended.states.retain(|state| allows(&call, reply, state));
        if contended.states.is_empty() {
            return Err(Stop::Refused);
        }
        contended.end(at, &call);
        contended.merge(self.alloc)?;
        match self.lives.get_mut(place(thread)) {
            Some(life) => life.settle(mutex, call.operation, reply)?,
            None => return Err(Stop::Lost),
        }
        self.look(&call, mutex, reply)?;
        self.close(mutex)
    }

    /// Takes the next line, if some order of the calls explains the lines up to it.
    pub fn take(&mut self, entry: &Entry) -> Result<(), Stop> {
        self.now = self.now.wrapping_add(1);
        match *entry {
            Entry::Doom(thread) => self.die(thread, true),
            Entry::Told(fact) => match fact {
                Fact::Begin(thread, begun) => self.begin(thread, begun),
                Fact::Return(thread, reply) => self.return_from(thread, reply),
                Fact::Kill(thread) => self.die(thread, false),
                Fact::Reap(thread) => self.reap(thread),
                Fact::Renew(thread) => self.renew(thread),
                _ => Err(Stop::Lost),
            },
        }
    }

    /// Decides the way to one of the states of each mutex.
    pub fn decide(&mut self) -> Result<(), Stop> {
        for contended in self.mutexes.iter_mut() {
            if let Some(first) = contended.states.first().copied() {
                contended.decide(self.alloc, &first)?;
            }
        }
        Ok(())
    }
}

fn push_mutex(mutexes: &mut Vec<Contended>, contended: Contended) -> Result<(), Stop> {
    match mutexes.push(contended) {
        Ok(()) => Ok(()),
        Err(_) => Err(Stop::Memory),
    }
}

fn push_life(lives: &mut Vec<Life>, life: Life) -> Result<(), Stop> {
    match lives.push(life) {
        Ok(()) => Ok(()),
        Err(_) => Err(Stop::Memory),
    }
}
