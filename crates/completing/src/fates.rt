//! What becomes of each call in the lines that are looked at.

use crate::stop::{IDS, Stop, keep};
use facts::Fact;
use histories::{Entry, HistoryLine};
use lockword::{Reply, Tid};
use std::alloc::Global;

/// A moment that doesn't come. The others are numbers of lines, from 1; 0 is before the first.
pub const NEVER: u32 = u32::MAX;

/// How a call ends.
#[derive(Clone, Copy, PartialEq, Eq)]
pub enum End {
    Returns(Reply),
    /// By its thread's kill.
    Killed,
    /// By its thread's death, whose moment isn't known.
    Doomed,
    /// The call doesn't, in these lines.
    Open,
}

/// What becomes of a call.
#[derive(Clone, Copy)]
pub struct Fate {
    pub end: End,
    /// When it returns or its thread is killed.
    pub at: u32,
    /// When its thread is reaped, if that dies in the call.
    pub gone: u32,
}

const OPEN: Fate = Fate {
    end: End::Open,
    at: NEVER,
    gone: NEVER,
};

/// Indexed by the threads' ids, when the call began that hasn't ended; 0 where there is none.
#[derive(Drop)]
struct Begins([u32; IDS]);

impl Begins {
    fn of(&self, thread: Tid) -> u32 {
        self.0[usize::from(thread.get())]
    }

    fn set(&mut self, thread: Tid, moment: u32) {
        self.0[usize::from(thread.get())] = moment;
    }
}

/// Ends the call that began then, if it is still open.
fn finish(fates: &mut Vec<Fate>, begin: u32, end: End, at: u32) {
    if let Some(fate) = fates.get_mut((begin as usize).wrapping_sub(1)) {
        if fate.end == End::Open {
            fate.end = end;
            fate.at = at;
        }
    }
}

/// The thread is reaped that died in the call that began then.
fn bury(fates: &mut Vec<Fate>, begin: u32, at: u32) {
    if let Some(fate) = fates.get_mut((begin as usize).wrapping_sub(1)) {
        fate.gone = at;
    }
}

fn tell(fates: &mut Vec<Fate>, begins: &mut Begins, entry: &Entry, now: u32) {
    match *entry {
        Entry::Doom(thread) => finish(fates, begins.of(thread), End::Doomed, NEVER),
        Entry::Told(fact) => match fact {
            Fact::Begin(thread, _) => begins.set(thread, now),
            Fact::Return(thread, reply) => {
                finish(fates, begins.of(thread), End::Returns(reply), now);
                begins.set(thread, 0);
            }
            Fact::Kill(thread) => {
                finish(fates, begins.of(thread), End::Killed, now);
                begins.set(thread, 0);
            }
            Fact::Reap(thread) => {
                bury(fates, begins.of(thread), now);
                begins.set(thread, 0);
            }
            Fact::Renew(thread) => begins.set(thread, 0),
            _ => {}
        },
    }
}

/// For each line, what becomes of the call that it begins, if it does. What stands after these lines isn't looked at.
pub fn fates(alloc: Global, lines: &[HistoryLine]) -> Result<Vec<Fate>, Stop> {
    let mut fates = Vec::new(alloc);
    let mut begins = Begins([0; IDS]);
    let mut now: u32 = 0;
    for line in lines {
        now = now.wrapping_add(1);
        keep(&mut fates, OPEN)?;
        tell(&mut fates, &mut begins, &line.entry, now);
    }
    Ok(fates)
}
