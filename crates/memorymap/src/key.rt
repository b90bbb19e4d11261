//! Keys: a word's sleepers are filed under its key, which is the same in every process (futex(2)); and the bucket of a
//! key.
ghost use Rattle.std.specs.Prelude.{◌≡◌, ◌<◌, ◌%◌};

/// The key of a word. Sleepers on one shared word meet by its place (futex(2), shared futexes).
#[derive(Clone, Copy, Debug, PartialEq, Eq)]
pub struct Key(pub u64);

/// The key of the word at a place.
pub fn key_of(place: u64) -> Key
    ensures { result.0 ≡ place }
{
    Key(place)
}

/// The bucket of a key, among this many buckets.
pub fn bucket_of(key: Key, buckets: usize) -> usize
    requires { 0 < buckets }
    ensures value { result ≡ key.0 % buckets }
    ensures inside { result < buckets }
{
    (key.0 % buckets as u64) as usize
}
