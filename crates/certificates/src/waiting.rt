//! Which calls still wait and shouldn't.

ghost use Rattle.std.specs.Prelude.{◌≡◌, reverse, IfOk};
ghost use Rattle.certificates.specs.Walks.{HasRoom, IsWaiterFor, IsWaiterOf};
ghost use Rattle.certificates.specs.Waiters.{added, waiters};

use crate::walk::{Walk, walked};
use histories::Entry;
use lockword::{NAMED_THREADS, Tid};
use std::alloc::{AllocError, Global};

/// A call that still waits and shouldn't: a lock without a point, with a time limit or without, of a mutex that nobody
/// owns.
#[derive(Clone, Copy, Debug, PartialEq, Eq)]
pub struct Waiter {
    pub thread: Tid,
    pub mutex: u16,
    /// The mutex is unusable: each lock of it has to learn that.
    pub unusable: bool,
    /// The line of the history where the call began, counted from 1.
    pub begin: usize,
    /// How many lines of the history stand before the step that left the mutex without an owner for the last time; None
    /// where nobody has owned it.
    pub since: Option<usize>,
}

/// The call that began at this line, by which the thread locks the mutex, if nobody owns that.
fn waiter_for(walk: &Walk, thread: Tid, mutex: u16, begin: usize) -> Option<Waiter>
    requires { HasRoom walk.now }
    ensures { IsWaiterFor walk.now thread begin mutex result }
{
    let kept = walk.mutexes[usize::from(mutex)];
    if kept.object.owner.is_some() {
        return None;
    }
    Some(Waiter {
        thread,
        mutex,
        unusable: kept.object.unusable,
        begin,
        since: kept.since,
    })
}

/// The thread's call that still waits and shouldn't, if it is in one.
fn waiter_of(walk: &Walk, thread: Tid) -> Option<Waiter>
    requires { HasRoom walk.now }
    ensures { IsWaiterOf walk.now thread result }
{
    let kept = walk.threads[usize::from(thread.get())];
    if kept.doomed {
        return None;
    }
    let mutex = kept.locks?;
    waiter_for(walk, thread, mutex, kept.begin)
}

/// Adds a call, if there is one.
fn add(found: &mut Vec<Waiter>, waiter: Option<Waiter>) -> Result<(), AllocError>
    ensures { IfOk result (λ _. found.new.items ≡ added found.old.items waiter) }
{
    if let Some(waiter) = waiter {
        found.push(waiter)?;
    }
    Ok(())
}

/// The calls that still wait and shouldn't, after the steps of a certificate, in the order of their threads' ids.
/// Memory is asked for once, for every thread and every mutex that steps may name, and for each such call.
pub fn still_waiting(alloc: Global, steps: &[Entry]) -> Result<Vec<Waiter>, AllocError>
    ensures { IfOk result (λ ws. ws.items ≡ waiters (reverse steps.now)) }
{
    let walk = walked(alloc, steps)?;
    let mut found = Vec::new(alloc);
    for before in 0..NAMED_THREADS {
        let thread = Tid::new(before + 1).unwrap();
        add(&mut found, waiter_of(&walk, thread))?;
    }
    Ok(found)
}
