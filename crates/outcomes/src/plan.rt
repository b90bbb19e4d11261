//! Plans: what is explored.

use condvar::Op;
use lockword::Reply;
use memorymap::Layout;

/// What an item of a thread's list has the thread do.
#[derive(Clone, Copy, Debug, PartialEq, Eq)]
pub enum Act {
    /// The thread makes this call.
    Call(Op),
    /// The thread makes no call any more.
    Stop,
}

/// An item of a thread's list.
#[derive(Clone, Copy, Debug, PartialEq, Eq)]
pub struct Item {
    /// The phase in which it comes, from 0 on. It never falls along the list.
    pub phase: u16,
    /// The item is skipped unless this is the thread's last reply; None where it is never skipped.
    pub after: Option<Reply>,
    pub act: Act,
}

/// Which events are explored besides begins and steps.
#[derive(Debug, Drop)]
pub struct Asked {
    /// How many threads are killed at most.
    pub kills: u8,
    /// Which threads may be killed, in the order of their ids. One that isn't in the list may not.
    pub killable: Vec<bool>,
    /// Time limits come, too.
    pub expire: bool,
    /// Sleepers leave their queues, too, woken by nobody.
    pub leave: bool,
    /// Wakes are spared, too, for which another thread answers.
    pub spare: bool,
}

/// Threads with what each of them calls, in order, and which events may come in between.
#[derive(Debug, Drop)]
pub struct Plan {
    pub layout: Layout,
    /// What the counters of the condition variables begin with; 0 where the list is no longer.
    pub presets: Vec<u32>,
    /// The items of each thread, in the order of their ids; none where the list is no longer.
    pub threads: Vec<Vec<Item>>,
    pub asked: Asked,
}
