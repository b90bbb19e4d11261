//! One mutex: every state that some order of its calls leads to.

use crate::pending::{FRESH, Pending, State, covers};
use crate::stop::{Stop, keep};
use lockword::{Reply, Tid};
use posixmutex::Operation;
use std::alloc::Global;

/// A step of the mutex on the way to a state.
#[derive(Clone, Copy)]
pub struct Step {
    /// The step before it, counted from 1; 0 where there is none.
    pub before: u32,
    /// When it was found possible: after this line.
    pub at: u32,
    /// When its call began; 0 of a death.
    pub begin: u32,
    pub thread: Tid,
    pub operation: Operation,
    pub reply: Reply,
}

/// What is known of a mutex.
#[derive(Drop)]
pub struct Contended {
    /// What the orders of its calls have led to.
    pub states: Vec<State>,
    pub pending: Vec<Pending>,
    /// The steps on the ways to these states.
    pub steps: Vec<Step>,
    /// The steps before them, which all ways share.
    pub decided: Vec<Step>,
    /// The marks that calls have.
    pub marks: u64,
}

/// A step from a state, and what it leads to.
#[derive(Clone, Copy)]
pub struct Onward {
    pub state: State,
    pub step: Step,
}

impl Contended {
    pub fn new(alloc: Global) -> Result<Contended, Stop> {
        let mut states = Vec::new(alloc);
        keep(&mut states, FRESH)?;
        Ok(Contended {
            states,
            pending: Vec::new(alloc),
            steps: Vec::new(alloc),
            decided: Vec::new(alloc),
            marks: 0,
        })
    }

    /// A mark that no other call has.
    pub fn mark(&mut self) -> Result<u64, Stop> {
        let unused = !self.marks;
        let mark = unused & unused.wrapping_neg();
        if mark == 0 {
            return Err(Stop::Lost);
        }
        self.marks |= mark;
        Ok(mark)
    }

    /// Adds a state, unless another one covers it.
    pub fn add(&mut self, onward: Onward) -> Result<(), Stop> {
        let mut state = onward.state;
        for known in &self.states {
            if covers(&self.pending, known, &state) {
                return Ok(());
            }
        }
        keep(&mut self.steps, onward.step)?;
        let Ok(way) = u32::try_from(self.steps.len()) else {
            return Err(Stop::Lost);
        };
        state.way = way;
        keep(&mut self.states, state)
    }

    /// The call of this thread, and where it stands.
    pub fn call_of(&self, thread: Tid) -> Option<(usize, Pending)> {
        for (at, call) in self.pending.iter().enumerate() {
            if call.thread == thread {
                return Some((at, *call));
            }
        }
        None
    }

    /// Takes a call away, which has ended.
    pub fn end(&mut self, at: usize, call: &Pending) {
        if at < self.pending.len() {
            self.pending.swap_remove(at);
        }
        self.marks &= !call.mark;
        for state in self.states.iter_mut() {
            state.acted &= !call.mark;
            if state.owner == Some(call.thread) {
                state.retaken = false;
            }
        }
    }

    /// Of states that became the same one stays, unless each had a moment that the other hadn't.
    pub fn merge(&mut self, alloc: Global) -> Result<(), Stop> {
        if self.states.len() < 2 {
            return Ok(());
        }
        let mut kept: Vec<State> = Vec::new(alloc);
        for state in &self.states {
            let pending = &self.pending;
            if kept.iter().any(|known| covers(pending, known, state)) {
                continue;
            }
            kept.retain(|known| !covers(pending, state, known));
            keep(&mut kept, *state)?;
        }
        self.states = kept;
        Ok(())
    }

    /// The steps on the way to a state, the newest first.
    pub fn way(&self, alloc: Global, state: &State) -> Result<Vec<Step>, Stop> {
        let mut way = Vec::new(alloc);
        let mut at = state.way;
        for _ in 0..self.steps.len() {
            let Some(step) = self.steps.get((at as usize).wrapping_sub(1)) else {
                break;
            };
            keep(&mut way, *step)?;
            at = step.before;
        }
        Ok(way)
    }

    /// Decides the way to this state, and forgets the other states.
    pub fn decide(&mut self, alloc: Global, state: &State) -> Result<(), Stop> {
        let way = self.way(alloc, state)?;
        for step in way.iter().rev() {
            keep(&mut self.decided, *step)?;
        }
        let mut last = *state;
        last.way = 0;
        self.steps.clear();
        self.states.clear();
        keep(&mut self.states, last)
    }
}
