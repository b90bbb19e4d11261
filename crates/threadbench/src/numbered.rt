//! Buckets after their locks, each with its number.
ghost use Rattle.std.specs.Prelude.{◌≡◌, IfSome, MatchOption};
ghost use Rattle.std.specs.Sync.Mutex.{mutex_guard_value};
ghost use Rattle.buckets.specs.Queues.{IsEmptied, Stands, StandsNowhere};

use buckets::Bucket;
use crossbeam_utils::CachePadded;
use lockword::Tid;
use std::sync::{Mutex, MutexGuard, Wait};

/// A futex hash bucket with a lock of its own, its number among all, and how many threads it was made for.
#[derive(Drop)]
pub(crate) struct Numbered {
    number: usize,
    /// How many threads it has room for.
    threads: u8,
    bucket: CachePadded<Mutex<Bucket>>,
}

/// The bucket with that number, by whoever holds its lock. Nothing makes one but [`Numbered::hold`].
#[derive(Drop)]
pub(crate) struct Held<'a> {
    number: usize,
    pub(crate) bucket: MutexGuard<'a, Bucket>,
}

/// Evidence that a thread which slept is in the bucket with this number no more, as a look under its lock told. Nothing makes
/// one but [`Held::left_by`].
#[derive(Drop)]
pub(crate) struct Gone {
    thread: Tid,
    number: usize,
}

/// Evidence that a thread which slept stands in neither of two buckets any more, as a look at the first told, and then one at the
/// second. (A move takes a sleeper from the first to the second, under both locks, and never back.) Nothing makes one but
/// [`Held::left_too`].
#[derive(Drop)]
pub(crate) struct Away {
    thread: Tid,
    first: usize,
    second: usize,
}

impl Numbered {
    /// One where nobody stands, which has room for this many threads.
    pub(crate) fn new(number: usize, bucket: Bucket, threads: u8) -> Numbered
        requires { IsEmptied bucket threads }
        ensures number { result.number ≡ number }
        ensures threads { result.threads ≡ threads }
    {
        Numbered {
            number,
            threads,
            bucket: CachePadded::new(Mutex::new(bucket)),
        }
    }

    /// The bucket, under its lock.
    pub(crate) fn lock<R: Wait>(&self, rt: &R) -> MutexGuard<'_, Bucket> {
        self.bucket.lock(rt)
    }

    /// The same, which tells its number.
    pub(crate) fn hold<R: Wait>(&self, rt: &R) -> Held<'_>
        ensures { result.number ≡ self.now.number }
    {
        Held {
            number: self.number,
            bucket: self.bucket.lock(rt),
        }
    }
}

impl Held<'_> {
    /// The number.
    pub(crate) fn number(&self) -> usize
        ensures { result ≡ self.now.number }
    {
        self.number
    }

    /// Checks whether the thread is in the bucket, and tells where it doesn't.
    pub(crate) fn left_by(&self, thread: Tid) -> Option<Gone>
        ensures looks { MatchOption result (Stands (mutex_guard_value self.now.bucket) thread)
            (λ g. StandsNowhere (mutex_guard_value self.now.bucket) thread) }
        ensures whose { IfSome result (λ g. (g.thread ≡ thread) × (g.number ≡ self.now.number)) }
    {
        look(&self.bucket, self.number, thread)
    }

    /// The same of a thread that is in another bucket no more, which was looked at before.
    pub(crate) fn left_too(&self, gone: Gone) -> Option<Away>
        ensures looks { MatchOption result (Stands (mutex_guard_value self.now.bucket) gone.thread)
            (λ a. StandsNowhere (mutex_guard_value self.now.bucket) gone.thread) }
        ensures whose { IfSome result
            (λ a. (a.thread ≡ gone.thread) × (a.first ≡ gone.number) × (a.second ≡ self.now.number)) }
    {
        match self.left_by(gone.thread) {
            None => None,
            Some(too) => Some(Away {
                thread: too.thread,
                first: gone.number,
                second: too.number,
            }),
        }
    }
}

/// Checks whether the thread is in the bucket with this number.
fn look(bucket: &Bucket, number: usize, thread: Tid) -> Option<Gone>
    ensures looks { MatchOption result (Stands bucket.now thread) (λ g. StandsNowhere bucket.now thread) }
    ensures whose { IfSome result (λ g. (g.thread ≡ thread) × (g.number ≡ number)) }
{
    if bucket.stands(thread) {
        return None;
    }
    Some(Gone { thread, number })
}
