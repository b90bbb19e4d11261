//! What the lines of a history tell.

use facts::Fact;
use lockword::Tid;

/// What one line of a history tells.
#[derive(Clone, Copy, Debug, PartialEq, Eq)]
pub enum Entry {
    /// A line of a trace that is seen from outside: a begin, a return, a kill, a reaping or a renewal.
    Told(Fact),
    /// The thread tells nothing more: it dies at some moment after this line, and before its reaping.
    Doom(Tid),
}

/// A line of a history, and where it stands.
#[derive(Clone, Copy, Debug, PartialEq, Eq)]
pub struct HistoryLine {
    /// The line of the file, from 1, which is the first line's.
    pub number: u64,
    /// The event that the line names, from 1.
    pub event: u64,
    pub entry: Entry,
}
