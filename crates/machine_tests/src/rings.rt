//! Many calls of a bucket against the slow form.
ghost use Rattle.std.specs.Prelude.{◌≡◌, ◌<◌, ◌≤◌};

use crate::batches::{has_ids, thread};
use crate::slow::Slow;
use buckets::{Bucket, Row};
use memorymap::Key;
use std::alloc::Global;
use std::process::Abort;
use std::test::Fail;

/// Keys from 0 to below here take part.
const KEYS: u64 = 4;

/// The words that a wait may see that expects 1, and whether it sleeps.
const SEEN: [(u64, bool); 6] = [
    (0, false),
    (1, true),
    (2, false),
    (0x1_0000_0000, false),
    (0x1_0000_0001, true),
    (0x1_0000_0002, false),
];

/// A bucket, and the slow form that it is to agree with.
#[derive(Drop)]
struct Forms {
    fast: Bucket,
    slow: Slow,
}

/// Goes on to the next number of a linear congruential generator.
fn advance(state: &mut u64) {
    *state = state
        .wrapping_mul(6364136223846793005)
        .wrapping_add(1442695040888963407);
}

/// The next number, below a limit.
fn next(state: &mut u64, limit: u64) -> u64
    requires { 0 < limit }
    ensures { result < limit }
{
    advance(state);
    (*state >> 33) % limit
}

fn row_of(rt: &impl Abort, rows: &[Option<Row>], id: u8) -> Option<Row> {
    let index = usize::from(id).wrapping_sub(1);
    assert!(rt; index < rows.len());
    rows[index]
}

/// The thread's row has this key, and these threads before and after it.
fn has_row(rt: &impl Abort, row: Option<Row>, key: u64, before: u8, after: u8) {
    match row {
        Some(row) => {
            assert!(rt; row.key.0 == key);
            assert!(rt; row.before.get() == before);
            assert!(rt; row.after.get() == after);
        }
        None => assert!(rt; false),
    }
}

/// The rows have this queue as a ring.
fn has_ring(rt: &impl Abort, rows: &[Option<Row>], key: u64, queue: &[u8]) {
    if queue.is_empty() {
        return;
    }
    let mut before = queue[queue.len() - 1];
    for place in 0..queue.len() {
        let id = queue[place];
        let behind = place + 1;
        let after = if behind < queue.len() {
            queue[behind]
        } else {
            queue[0]
        };
        has_row(rt, row_of(rt, rows, id), key, before, after);
        before = id;
    }
}

/// How many threads have a row.
fn standing(rows: &[Option<Row>]) -> usize {
    let mut standing = 0_usize;
    for row in rows {
        if row.is_some() {
            standing = standing.wrapping_add(1);
        }
    }
    standing
}

/// Both forms have the same queues, and the rows are their rings.
fn same_queues(rt: &impl Abort, forms: &Forms) -> Result<(), Fail> {
    let rows = forms.fast.rows();
    assert!(rt; rows.len() == 250);
    let mut stand = 0_usize;
    for key in 0..KEYS {
        let queue = forms.slow.sleepers(key)?;
        has_ids(rt, &forms.fast.sleepers(Key(key)), &queue);
        assert!(rt; forms.fast.count(Key(key)) == queue.len());
        has_ring(rt, rows, key, &queue);
        stand = stand.wrapping_add(queue.len());
    }
    assert!(rt; standing(rows) == stand);
    Ok(())
}

/// Both forms tell the same of each thread, and of their room.
fn same_threads(rt: &impl Abort, forms: &Forms, threads: u8) {
    for id in 1..=threads {
        assert!(rt; forms.fast.stands(thread(rt, id)) == forms.slow.stands(id));
    }
    assert!(rt; forms.fast.full() == forms.slow.full());
}

/// A wake of both forms.
fn take_both(rt: &impl Abort, forms: &mut Forms, key: u64, n: u32) -> Result<(), Fail> {
    let taken = forms.slow.take(key, n)?;
    has_ids(rt, &forms.fast.take(Key(key), n), &taken);
    Ok(())
}

/// A move to another key of the same bucket.
fn move_both_within(
    rt: &impl Abort,
    forms: &mut Forms,
    key: u64,
    n: u32,
    to: u64,
) -> Result<(), Fail> {
    if key == to {
        return Ok(());
    }
    let moved = forms.slow.move_within(key, n, to)?;
    has_ids(rt, &forms.fast.move_within(Key(key), n, Key(to)), &moved);
    Ok(())
}

/// A move into the other bucket, where it fits.
fn move_both(
    rt: &impl Abort,
    forms: &mut Forms,
    other: &mut Forms,
    key: u64,
    n: u32,
    to: u64,
) -> Result<(), Fail> {
    let fits = forms.fast.fits(&other.fast, Key(key), n);
    assert!(rt; fits == forms.slow.fits(&other.slow, key, n)?);
    if fits {
        let moved = forms.slow.move_to(&mut other.slow, key, n, to)?;
        let batch = forms.fast.move_to(&mut other.fast, Key(key), n, Key(to));
        has_ids(rt, &batch, &moved);
    }
    Ok(())
}

/// A thread that stands nowhere falls asleep where there is room: by a wait that saw this word, or without a word.
fn sleep_both(
    rt: &impl Abort,
    forms: &mut Forms,
    id: u8,
    key: u64,
    seen: Option<(u64, bool)>,
) -> Result<(), Fail> {
    let thread = thread(rt, id);
    if forms.fast.full() || forms.fast.stands(thread) {
        return Ok(());
    }
    match seen {
        Some((seen, sleeps)) => {
            assert!(rt; forms.fast.wait_section(thread, Key(key), seen, 1) == sleeps);
            if !sleeps {
                return Ok(());
            }
        }
        None => forms.fast.enqueue(thread, Key(key)),
    }
    forms.slow.enqueue(id, key)
}

/// One call of both forms, of one of this many threads.
fn step_both(
    rt: &impl Abort,
    forms: &mut Forms,
    other: &mut Forms,
    threads: u8,
    state: &mut u64,
) -> Result<(), Fail>
    requires { 0 < threads }
{
    let id = next(state, u64::from(threads)) as u8 + 1;
    let key = next(state, KEYS);
    let to = next(state, KEYS);
    let n = next(state, 5) as u32;
    let seen = SEEN[next(state, 6) as usize];
    match next(state, 12) {
        0 => take_both(rt, forms, key, n),
        1 | 2 => {
            assert!(rt; forms.fast.remove(thread(rt, id)) == forms.slow.remove(id));
            Ok(())
        }
        3 | 4 => move_both_within(rt, forms, key, n, to),
        5 | 6 => move_both(rt, forms, other, key, n, to),
        7 | 8 => sleep_both(rt, forms, id, key, Some(seen)),
        _ => sleep_both(rt, forms, id, key, None),
    }
}

fn both_forms(alloc: Global, capacity: usize) -> Result<Forms, Fail>
    requires first { 1 ≤ capacity }
    requires last { capacity ≤ 250 }
{
    Ok(Forms {
        fast: Bucket::new(alloc, capacity)?,
        slow: Slow::new(alloc, capacity),
    })
}

/// This many calls of either of two buckets, of this many threads. After each one both forms have the same queues.
/// Answers the second bucket.
fn agree(
    rt: &impl Abort,
    mut first: Forms,
    mut second: Forms,
    threads: u8,
    calls: u32,
) -> Result<Forms, Fail>
    requires { 0 < threads }
{
    let mut state = 2024;
    for _ in 0..calls {
        step_both(rt, &mut first, &mut second, threads, &mut state)?;
        step_both(rt, &mut second, &mut first, threads, &mut state)?;
        same_queues(rt, &first)?;
        same_queues(rt, &second)?;
        same_threads(rt, &first, threads);
        same_threads(rt, &second, threads);
    }
    Ok(second)
}

/// A wake of all that sleep leaves nobody.
fn empties(rt: &impl Abort, forms: &mut Forms) -> Result<(), Fail> {
    for key in 0..KEYS {
        take_both(rt, forms, key, u32::MAX)?;
        assert!(rt; forms.fast.count(Key(key)) == 0);
    }
    Ok(())
}

#[test]
fn many_calls_of_two_small_buckets(rt: HostRuntime) -> Result<(), Fail> {
    let first = both_forms(rt.alloc(), 8)?;
    let second = both_forms(rt.alloc(), 8)?;
    let mut second = agree(&rt, first, second, 12, 2000)?;
    empties(&rt, &mut second)
}

/// A copy has the same queues.
fn copies(rt: &impl Abort, forms: &Forms) -> Result<(), Fail> {
    let copy = forms.fast.clone()?;
    for key in 0..KEYS {
        has_ids(rt, &copy.sleepers(Key(key)), &forms.slow.sleepers(key)?);
    }
    Ok(())
}

#[test]
fn ten_thousand_calls_leave_both_forms_the_same_queues(rt: HostRuntime) -> Result<(), Fail> {
    let small = both_forms(rt.alloc(), 8)?;
    let large = both_forms(rt.alloc(), 250)?;
    let large = agree(&rt, small, large, 20, 10_000)?;
    copies(&rt, &large)
}
