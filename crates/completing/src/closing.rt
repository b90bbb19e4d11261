//! What may follow at a moment, at one mutex: its owner's call or death, or the next that takes it.

use crate::contended::{Contended, Onward, Step};
use crate::fates::{End, NEVER};
use crate::pending::{Outlook, Pending, State, forget, look_ahead};
use crate::stop::{IDS, Stop, place};
use lockword::{Reply, Tid};
use posixmutex::Operation;
use std::alloc::Global;

/// What holds of all mutexes after the newest line.
#[derive(Clone, Copy)]
pub struct Moment<'a> {
    pub now: u32,
    /// Indexed by the threads' ids, who is killed or doomed.
    pub dead: &'a [bool; IDS],
}

fn step_of(state: &State, call: &Pending, now: u32, operation: Operation, reply: Reply) -> Step {
    Step {
        before: state.way,
        at: now,
        begin: call.begin,
        thread: call.thread,
        operation,
        reply,
    }
}

/// What the owner's call does to the state.
fn owners_step(state: &State, call: &Pending, now: u32) -> Option<Onward> {
    if !call.owned {
        return None;
    }
    let mut after = *state;
    after.held = now;
    match call.operation {
        Operation::Unlock => {
            after.owner = None;
            after.unusable = state.inconsistent;
            after.inconsistent = false;
            let step = step_of(state, call, now, Operation::Unlock, Reply::OK);
            Some(Onward { state: after, step })
        }
        Operation::Wait | Operation::TimedWait if !state.retaken && !state.inconsistent => {
            after.owner = None;
            let step = step_of(state, call, now, Operation::Unlock, Reply::OK);
            Some(Onward { state: after, step })
        }
        Operation::Consistent if state.inconsistent => {
            after.inconsistent = false;
            let step = step_of(state, call, now, Operation::Consistent, Reply::OK);
            Some(Onward { state: after, step })
        }
        _ => None,
    }
}

/// What the owner's death makes of the state; `acted` is the mark of the call in which it may have died.
fn death(state: &State, owner: Tid, acted: u64, now: u32) -> Onward {
    let mut after = *state;
    after.held = now;
    after.owner = None;
    after.inconsistent = true;
    after.retaken = false;
    after.acted |= acted;
    let step = Step {
        before: state.way,
        at: now,
        begin: 0,
        thread: owner,
        operation: Operation::Death,
        reply: Reply::OK,
    };
    Onward { state: after, step }
}

/// Adds what may follow a state in which this thread owns the mutex.
fn follow_owner(
    contended: &mut Contended,
    state: &State,
    owner: Tid,
    moment: &Moment,
) -> Result<(), Stop> {
    let mut dies = moment.dead[place(owner)];
    let mut acted = 0;
    if let Some((_, call)) = contended.call_of(owner) {
        if call.doomed {
            dies = true;
            acted = call.mark;
        }
        if let Some(onward) = owners_step(state, &call, moment.now) {
            contended.add(onward)?;
        }
    }
    if dies {
        contended.add(death(state, owner, acted, moment.now))?;
    }
    Ok(())
}

/// Whether the call may be the next that takes a free mutex.
fn is_next(state: &State, call: &Pending, outlook: &Outlook) -> bool {
    match call.fate.end {
        End::Returns(reply) => {
            outlook.next == Some(call.thread) && (reply == Reply::EOWNERDEAD) == state.inconsistent
        }
        End::Open => outlook.open == Some(call.thread) && outlook.by == NEVER,
        End::Killed => call.fate.at <= outlook.by,
        End::Doomed => true,
    }
}

/// What a call makes of a state in which nobody owns the mutex.
fn takers_step(state: &State, call: &Pending, now: u32) -> Option<Onward> {
    if call.has_acted(state) {
        return None;
    }
    let mut after = *state;
    if state.unusable {
        if call.operation != Operation::Reinit {
            return None;
        }
        after.unusable = false;
        after.inconsistent = false;
        after.acted |= call.mark;
        after.spoiled = now;
        let step = step_of(state, call, now, Operation::Reinit, Reply::OK);
        return Some(Onward { state: after, step });
    }
    if !call.may_take() {
        return None;
    }
    after.owner = Some(call.thread);
    after.free = now;
    after.retaken = matches!(call.operation, Operation::Wait | Operation::TimedWait);
    let operation = match call.operation {
        Operation::Wait | Operation::TimedWait | Operation::TimedLock => Operation::Lock,
        operation => operation,
    };
    let reply = if state.inconsistent {
        Reply::EOWNERDEAD
    } else {
        Reply::OK
    };
    let step = step_of(state, call, now, operation, reply);
    Some(Onward { state: after, step })
}

/// Adds what may follow a state in which nobody owns the mutex.
fn follow_free(
    contended: &mut Contended,
    state: &State,
    outlook: &Outlook,
    moment: &Moment,
) -> Result<(), Stop> {
    // of those who are doomed and never reaped one is as good as another
    let mut lasting = false;
    for at in 0..contended.pending.len() {
        let Some(call) = contended.pending.get(at).copied() else {
            return Ok(());
        };
        if call.operation != Operation::Reinit {
            if !is_next(state, &call, outlook) {
                continue;
            }
            if call.fate.end == End::Doomed && call.fate.gone == NEVER && call.doomed {
                if lasting || call.has_acted(state) {
                    continue;
                }
                lasting = true;
            }
        }
        if let Some(onward) = takers_step(state, &call, moment.now) {
            contended.add(onward)?;
        }
    }
    Ok(())
}

/// Adds every state that calls and deaths may lead to at this moment. Where one is left, its way is decided.
pub fn close(contended: &mut Contended, alloc: Global, moment: &Moment) -> Result<(), Stop> {
    let outlook = look_ahead(&contended.pending);
    forget(&mut contended.states, &outlook);
    let known = contended.states.len();
    for at in 0..usize::MAX {
        let Some(state) = contended.states.get(at).copied() else {
            break;
        };
        match state.owner {
            Some(owner) => follow_owner(contended, &state, owner, moment)?,
            None => follow_free(contended, &state, &outlook, moment)?,
        }
    }
    if known < contended.states.len() {
        contended.merge(alloc)?;
    }
    if contended.states.len() == 1 {
        if let Some(only) = contended.states.first().copied() {
            if only.way != 0 {
                contended.decide(alloc, &only)?;
            }
        }
    }
    Ok(())
}
