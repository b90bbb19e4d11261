//! The first line of a trace.

/// How many threads, mutexes and condition variables a trace tells of: its first line.
#[derive(Clone, Copy, Debug, PartialEq, Eq)]
pub struct Head {
    /// 1 to 64; their ids are 1 to this.
    pub threads: u8,
    /// 1 to 4,096; their numbers are below this.
    pub mutexes: u16,
    /// At most 256; their numbers are below this.
    pub conditions: u16,
}
