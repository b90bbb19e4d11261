//! How many futex hash buckets there are.

/// The number of hash buckets, those of a kernel and those that running threads share alike: a key's bucket is its
/// remainder by it (`memorymap::bucket_of`).
pub const BUCKETS: usize = 256;
