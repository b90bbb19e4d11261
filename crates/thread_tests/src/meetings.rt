//! Two callers' threads, which meet between two calls.
ghost use Rattle.ruledwords.specs.Passes.{IsLive};

use crate::two::{Two, left, makes, of_two};
use lockword::Reply;
use lockword::Reply::{EBUSY, OK};
use memorymap::Layout;
use mutex::Call;
use mutex::Call::TryLock;
use ruledwords::{Live, Pass, Words};
use std::test::Fail;
use std::thread;
use std::thread::Threads;

/// The two calls at the same time, one by each thread.
fn at_once<R: Threads + Sync>(
    rt: &R,
    words: &Words,
    first: (Pass<Live>, Call),
    second: (Pass<Live>, Call),
) -> ((Pass<Live>, Reply), (Pass<Live>, Reply))
    requires first { IsLive words.now first.0 }
    requires second { IsLive words.now second.0 }
    ensures first { IsLive words.now result.0.0 }
    ensures second { IsLive words.now result.1.0 }
{
    thread::join(
        rt,
        || -> (Pass<Live>, Reply)
            requires { IsLive words.now first.0 }
            ensures { IsLive words.entry.now result.0 }
        { makes(words, first.0, first.1) },
        || -> (Pass<Live>, Reply)
            requires { IsLive words.now second.0 }
            ensures { IsLive words.entry.now result.0 }
        { makes(words, second.0, second.1) },
    )
}

/// Each of two threads takes a mutex, they meet, and then each tries the other's: both locks stand before both tries.
#[test]
fn locks_before_a_meeting_are_seen_behind_it(rt: HostRuntime) -> Result<(), Fail> {
    let Two(words, first, second) = of_two(rt.alloc(), Layout::new(2, 2, &[])?, &[])?;
    let ((first, one), (second, other)) = at_once(
        &rt,
        &words,
        (first, TryLock(0)),
        (second, TryLock(1)),
    );
    let (first, second) = words.meet(first, second);
    let ((first, third), (second, fourth)) = at_once(
        &rt,
        &words,
        (first, TryLock(1)),
        (second, TryLock(0)),
    );
    assert!(rt; (one, other, third, fourth) == (OK, OK, EBUSY, EBUSY));
    assert!(rt; left(Two(words, first, second)) == [1, 2, 0, 0]);
    Ok(())
}
