//! How long an uncontended round of a robust mutex takes, beside what its accesses and its two exchanges alone take.

ghost use Rattle.std.specs.Prelude.{◌<◌, IfSome};
ghost use Rattle.ruledwords.specs.Passes.{layout_of, IsLive};

use lockword::Reply;
use memorymap::Layout;
use ruledwords::{Live, Never, Outcome, Pass, Released, Words};
use std::io;
use std::sync::atomic::{AtomicU64, Ordering};
use std::time::{Duration, Instant};

/// A compare-and-exchange and an exchange of one word, and whether both found what they left.
fn plain_round(word: &AtomicU64) -> bool {
    let taken = word.compare_exchange(0, 1, Ordering::SeqCst, Ordering::SeqCst);
    let freed = word.swap(0, Ordering::SeqCst);
    taken.is_ok() && freed == 1
}

/// Makes this many plain rounds, and tells how many went well.
fn plain_rounds(count: u64) -> u64 {
    let word = AtomicU64::new(0);
    let mut well = 0_u64;
    for _ in 0..count {
        well = well.wrapping_add(u64::from(plain_round(&word)));
    }
    well
}

/// The words that a round meets: its thread's head and pending entry, the cell, and the entry's two links.
#[derive(Drop)]
struct Met {
    head: AtomicU64,
    pending: AtomicU64,
    cell: AtomicU64,
    next: AtomicU64,
    previous: AtomicU64,
}

/// The accesses of a trylock and an unlock by a thread that holds nothing else, one after the other and in the same
/// memory order, and whether each found what it should.
fn same_round(met: &Met) -> bool {
    met.pending.store(8, Ordering::SeqCst);
    let free = met.cell.load(Ordering::SeqCst);
    let taken = met
        .cell
        .compare_exchange(free, 1, Ordering::SeqCst, Ordering::SeqCst);
    let first = met.head.load(Ordering::SeqCst);
    met.next.store(first, Ordering::SeqCst);
    met.previous.store(1, Ordering::SeqCst);
    met.head.store(8, Ordering::SeqCst);
    met.pending.store(0, Ordering::SeqCst);
    let owned = met.cell.load(Ordering::SeqCst);
    met.pending.store(8, Ordering::SeqCst);
    let behind = met.next.load(Ordering::SeqCst);
    let before = met.previous.load(Ordering::SeqCst);
    met.head.store(behind, Ordering::SeqCst);
    let freed = met.cell.fetch_xor(1, Ordering::SeqCst);
    met.pending.store(0, Ordering::SeqCst);
    taken.is_ok() && owned == 1 && freed == 1 && before == 1
}

/// Makes this many rounds of the same accesses, and tells how many went well.
fn same_rounds(count: u64) -> u64 {
    let met = Met {
        head: AtomicU64::new(1),
        pending: AtomicU64::new(0),
        cell: AtomicU64::new(0),
        next: AtomicU64::new(0),
        previous: AtomicU64::new(0),
    };
    let mut well = 0_u64;
    for _ in 0..count {
        well = well.wrapping_add(u64::from(same_round(&met)));
    }
    well
}

/// A trylock and an unlock. There is no pass where one of them wasn't returned OK, or somebody was to be woken: then
/// the thread has stopped.
fn round(words: &Words, pass: Pass<Live>) -> Option<Pass<Live>>
    requires pass { IsLive words.now pass }
    requires mutex { 0 < (layout_of words.now).mutexes }
    ensures { IfSome result (λ p. IsLive words.now p) }
{
    let Outcome::Lives(pass, Reply::OK) = words.try_lock(pass, 0, &mut Never) else {
        return None;
    };
    match words.release(pass, 0, &mut Never) {
        Released::Owes(owed) => match owed.settle(words) {
            Ok(pass) => Some(pass),
            Err(owed) => {
                owed.abandon();
                None
            }
        },
        Released::Refused(_, _) | Released::Dead(_) => None,
    }
}

/// Makes this many rounds, and tells how many went well.
fn rounds(words: &Words, first: Pass<Live>, count: u64) -> u64
    requires pass { IsLive words.now first }
    requires mutex { 0 < (layout_of words.now).mutexes }
{
    let mut pass = first;
    let mut well = 0_u64;
    for _ in 0..count {
        let Some(after) = round(words, pass) else {
            return well;
        };
        pass = after;
        well = well.wrapping_add(1);
    }
    well
}

fn tell(rt: &HostRuntime, what: &str, count: u64, well: u64, took: Duration) -> io::Result<()> {
    let each = took.as_nanos() / u128::from(count.max(1));
    println!(rt; "{what}: {each} ns a round, {well} of {count} went well")
}

/// Makes this many rounds of each, in one thread, and prints nanoseconds a round.
pub(crate) fn tell_all(rt: &HostRuntime, count: u64) -> io::Result<()> {
    let Ok(layout) = Layout::new(1, 1, &[]) else {
        return Ok(());
    };
    let Ok((words, mut passes)) = Words::new(rt.alloc(), layout, &[]) else {
        return Ok(());
    };
    let Some(pass) = passes.pop() else {
        return Ok(());
    };
    let start = Instant::now(rt)?;
    let well = plain_rounds(count);
    tell(rt, "plain exchanges", count, well, start.elapsed(rt)?)?;
    let start = Instant::now(rt)?;
    let well = same_rounds(count);
    tell(rt, "the same accesses", count, well, start.elapsed(rt)?)?;
    let start = Instant::now(rt)?;
    let well = rounds(&words, pass, count);
    tell(rt, "robust mutex", count, well, start.elapsed(rt)?)
}
