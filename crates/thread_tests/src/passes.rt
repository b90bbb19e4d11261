//! Threads at mutexes, by turns and two at once.
ghost use Rattle.ruledwords.specs.Passes.{IsLive};

use crate::two::Who::{First, Second};
use crate::two::{CELLS, Step, Two, left, makes, of_two, plays};
use lockword::Reply::{EBUSY, EINVAL, EPERM, OK, XHELD};
use memorymap::Layout;
use mutex::Call::{Consistent, TryLock, Unlock};
use ruledwords::{Live, Never, Pass, Released, Wakes, Words};
use std::alloc::Global;
use std::test::Fail;
use std::thread;

/// Whether the two get what is in these steps, and leave these cells.
fn goes(alloc: Global, layout: Layout, steps: &[Step], want: [u64; CELLS]) -> Result<bool, Fail> {
    let (two, well) = plays(of_two(alloc, layout, &[])?, steps);
    Ok(well && left(two) == want)
}

static REPLIES: [Step; 4] = [
    (First, &[(Unlock(1), EPERM), (TryLock(1), OK)]),
    (Second, &[(TryLock(1), EBUSY), (Unlock(1), EPERM)]),
    (First, &[(TryLock(1), EBUSY), (Unlock(1), OK)]),
    (Second, &[(TryLock(1), OK)]),
];

/// Nobody marks what a dead owner had yet, so no mutex is inconsistent.
static CONSISTENT: [Step; 4] = [
    (First, &[(Consistent(1), EPERM)]),
    (First, &[(TryLock(1), OK), (Consistent(1), EINVAL)]),
    (Second, &[(Consistent(1), EPERM)]),
    (First, &[(Unlock(1), OK)]),
];

/// Of three mutexes the middle one of the list is released first, then the last of it, then the only one left.
static ANY_ORDER: [Step; 3] = [
    (First, &[(TryLock(0), OK), (TryLock(1), OK)]),
    (First, &[(TryLock(2), OK), (Unlock(1), OK)]),
    (First, &[(Unlock(0), OK), (Unlock(2), OK)]),
];

#[test]
fn two_threads_by_turns(rt: HostRuntime) -> Result<(), Fail> {
    assert!(rt; goes(rt.alloc(), Layout::new(2, 2, &[])?, &REPLIES, [0, 2, 0, 0])?);
    assert!(rt; goes(rt.alloc(), Layout::new(2, 2, &[])?, &CONSISTENT, [0; CELLS])?);
    assert!(rt; goes(rt.alloc(), Layout::new(2, 3, &[])?, &ANY_ORDER, [0; CELLS])?);
    Ok(())
}

static ONE_MUTEX: [Step; 4] = [
    (First, &[(TryLock(0), OK)]),
    (Second, &[(TryLock(0), EBUSY)]),
    (First, &[(Unlock(0), OK)]),
    (Second, &[(TryLock(0), OK)]),
];

/// A thread releases two mutexes in the order in which it took them, so the first one from the end of its list; a
/// thread of another process takes both then.
static ONE_AFTER_THE_OTHER: [Step; 5] = [
    (Second, &[(TryLock(0), OK), (TryLock(1), OK)]),
    (Second, &[(Unlock(0), OK)]),
    (First, &[(TryLock(0), OK)]),
    (Second, &[(Unlock(1), OK)]),
    (First, &[(TryLock(1), OK)]),
];

/// They are of two processes, which map the words at 1000 and at 2000.
#[test]
fn threads_of_two_processes(rt: HostRuntime) -> Result<(), Fail> {
    let layout = Layout::with_processes(&[0, 1], &[1000, 2000], 1, &[])?;
    assert!(rt; goes(rt.alloc(), layout, &ONE_MUTEX, [2, 0, 0, 0])?);
    let layout = Layout::with_processes(&[0, 1], &[1000, 2000], 2, &[])?;
    assert!(rt; goes(rt.alloc(), layout, &ONE_AFTER_THE_OTHER, [1, 1, 0, 0])?);
    Ok(())
}

const ROUNDS: u32 = 10_000;

/// The rounds that were won, and the pass.
fn rounds(words: &Words, first: Pass<Live>) -> (u32, Pass<Live>)
    requires pass { IsLive words.now first }
    ensures { IsLive words.entry.now result.1 }
{
    let mut pass = first;
    let mut won: u32 = 0;
    for _ in 0..ROUNDS {
        let (after, reply) = makes(words, pass, TryLock(0));
        pass = after;
        if reply == OK {
            let (after, _reply) = makes(words, pass, Unlock(0));
            pass = after;
            won = won.wrapping_add(1);
        }
    }
    (won, pass)
}

#[test]
fn two_threads_try_one_mutex(rt: HostRuntime) -> Result<(), Fail> {
    let Two(words, first, second) = of_two(rt.alloc(), Layout::new(2, 1, &[])?, &[])?;
    let shared = &words;
    let (a, b) = thread::join(
        &rt,
        || -> (u32, Pass<Live>)
            requires { IsLive shared.now first }
            ensures { IsLive shared.entry.now result.1 }
        { rounds(shared, first) },
        || -> (u32, Pass<Live>)
            requires { IsLive shared.now second }
            ensures { IsLive shared.entry.now result.1 }
        { rounds(shared, second) },
    );
    assert!(rt; a.0 <= ROUNDS && b.0 <= ROUNDS);
    assert!(rt; left(Two(words, a.1, b.1)) == [0; CELLS]);
    Ok(())
}

#[test]
fn all_passes_close_the_words(rt: HostRuntime) -> Result<(), Fail> {
    let layout = Layout::new(3, 1, &[0, 0])?;
    let (words, passes) = Words::new(rt.alloc(), layout, &[9, 4_294_967_295])?;
    let last = words.close_all(passes);
    assert!(rt; last.cell(0) == 0 && last.counter(0) == 9 && last.counter(1) == 4_294_967_295);
    Ok(())
}

/// Whom an unlock of mutex 0 has to wake, with nobody asleep; None where it is refused.
fn owed_wakes(words: &Words, pass: Pass<Live>) -> Option<Wakes>
    requires { IsLive words.now pass }
{
    let _mutexes = words.layout().mutexes();
    match words.release(pass, 0, &mut Never) {
        Released::Owes(owed) => {
            let wakes = owed.wakes();
            let _pass = owed.abandon();
            Some(wakes)
        }
        Released::Refused(_, _) | Released::Dead(_) => None,
    }
}

#[test]
fn release_owes_nobody(rt: HostRuntime) -> Result<(), Fail> {
    let Two(words, first, second) = of_two(rt.alloc(), Layout::new(2, 1, &[])?, &[])?;
    let (first, taken) = makes(&words, first, TryLock(0));
    assert!(rt; taken == OK && owed_wakes(&words, first) == Some(Wakes::Nobody));
    assert!(rt; owed_wakes(&words, second) == None);
    Ok(())
}

/// Takes the first 2,048 mutexes: the pass, and how many it was given.
fn takes_2048(words: &Words, first: Pass<Live>) -> (Pass<Live>, u32)
    requires { IsLive words.now first }
    ensures { IsLive words.entry.now result.0 }
{
    let mut pass = first;
    let mut taken: u32 = 0;
    for mutex in 0..2048_u16 {
        let (after, reply) = makes(words, pass, TryLock(mutex));
        pass = after;
        taken = taken.wrapping_add(u32::from(reply == OK));
    }
    (pass, taken)
}

static ONE_MORE: [Step; 2] = [
    (First, &[(TryLock(2048), XHELD), (Unlock(7), OK)]),
    (First, &[(TryLock(2048), OK)]),
];

static HAVE_OWNERS: [Step; 1] = [(Second, &[(TryLock(7), OK), (TryLock(2048), EBUSY)])];

#[test]
fn the_2049th_mutex_is_refused(rt: HostRuntime) -> Result<(), Fail> {
    let Two(words, first, second) = of_two(rt.alloc(), Layout::new(2, 2049, &[])?, &[])?;
    let (first, taken) = takes_2048(&words, first);
    let (two, well) = plays(Two(words, first, second), &ONE_MORE);
    assert!(rt; taken == 2048 && well);
    let (_two, others) = plays(two, &HAVE_OWNERS);
    assert!(rt; others);
    Ok(())
}
