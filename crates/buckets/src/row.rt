//! The rows of the threads that sleep.
ghost use Rattle.std.specs.Prelude.{ℕ, ◌≡◌, ◌<◌, ◌≤◌, ◌+◌, None, length};
ghost use Rattle.lockword.specs.Threads.{most_threads};
ghost use Rattle.buckets.specs.Rings.{row_of, put, joined, behind, follow};

use crate::batch::{Batch, THREADS};
use lockword::Tid;
use memorymap::Key;

/// A thread that sleeps on a key, and the threads before and after it in the key's queue. The queue is a ring: the last
/// thread is before the first, and one that is alone is before and after itself.
#[derive(Clone, Copy, Debug, PartialEq, Eq)]
pub struct Row {
    pub key: Key,
    pub before: Tid,
    pub after: Tid,
}

/// The rows of all threads, that of the thread with id t at index t - 1; None for a thread that doesn't sleep.
pub(crate) type Rows = [Option<Row>; THREADS];

/// The rows where nobody sleeps.
pub(crate) fn no_rows() -> Rows
    ensures { (t : ℕ) → row_of result t ≡ None }
{
    [None; THREADS]
}

/// The same rows.
pub(crate) fn copy(rows: &Rows) -> Rows
    ensures { result ≡ rows.now }
{
    let mut copy = no_rows();
    copy.copy_from_slice(rows);
    copy
}

/// The rows as a slice.
pub(crate) fn all(rows: &Rows) -> &[Option<Row>]
    ensures value { result.now ≡ rows.now }
    ensures long { length result.now ≡ most_threads }
{
    rows
}

/// The index of the thread's row, from 0 on.
pub(crate) fn index_of(thread: Tid) -> usize
    ensures value { result + 1 ≡ thread }
    ensures inside { result < most_threads }
{
    thread.get() as usize - 1
}

/// The thread's row; None where it doesn't sleep.
pub(crate) fn read(rows: &Rows, thread: Tid) -> Option<Row>
    ensures { result ≡ row_of rows.now thread }
{
    rows[index_of(thread)]
}

/// Writes the thread's row.
pub(crate) fn write(rows: &mut Rows, thread: Tid, row: Option<Row>)
    ensures { (u : ℕ) → row_of rows.new u ≡ put (row_of rows.old) thread row u }
{
    rows[index_of(thread)] = row;
}

/// Makes two threads that sleep neighbours: each one's row tells of the other.
pub(crate) fn join(rows: &mut Rows, before: Tid, after: Tid)
    ensures { (u : ℕ) → row_of rows.new u ≡ joined (row_of rows.old) before after u }
{
    let row = read(rows, before).map(|row| Row { after, ..row });
    write(rows, before, row);
    let row = read(rows, after).map(|row| Row { before, ..row });
    write(rows, after, row);
}

/// Puts a thread that is a ring of its own at the end of the ring that begins with `first`: between its last thread and
/// its first.
pub(crate) fn append(rows: &mut Rows, thread: Tid, first: Tid)
    ensures { (u : ℕ) → row_of rows.new u ≡ behind (row_of rows.old first) (row_of rows.old) thread first u }
{
    if let Some(row) = read(rows, first) {
        join(rows, row.before, thread);
        join(rows, thread, first);
    }
}

/// This many threads of a ring from this one on, in order: at most so many as there are threads.
pub(crate) fn batch_from(rows: &Rows, first: Tid, count: usize) -> Batch
    requires { count ≤ most_threads }
    ensures { result ≡ follow (row_of rows.now) count first }
{
    let mut batch = Batch::new();
    let mut thread = first;
    for _ in 0..count {
        batch.push(thread);
        if let Some(row) = read(rows, thread) {
            thread = row.after;
        }
    }
    batch
}
