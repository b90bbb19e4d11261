//! The first line of a history.

/// How many threads, mutexes and condition variables a history tells of: its first line.
#[derive(Clone, Copy, Debug, PartialEq, Eq)]
pub struct Head {
    /// 1 to 64; their ids are 1 to this.
    pub threads: u8,
    /// 1 to 65,536; their numbers are below this.
    pub mutexes: u32,
    /// At most 65,536; their numbers are below this.
    pub conditions: u32,
}
