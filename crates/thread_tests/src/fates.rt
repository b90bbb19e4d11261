//! Threads that die at an access of a call.
ghost use Rattle.std.specs.Prelude.{◌<◌};
ghost use Rattle.ruledwords.specs.Passes.{layout_of, IsLive};

use crate::two::{Two, cells, makes, of_two};
use lockword::Reply;
use memorymap::Layout;
use mutex::Call::{self, Consistent, TryLock, Unlock};
use ruledwords::{Fate, Live, Outcome, Pass, Released, Words};
use std::alloc::Global;
use std::test::Fail;

/// Stops before one access, and counts how often it was asked.
#[derive(Clone, Copy)]
struct StopsAt {
    access: u32,
    asked: u32,
    has_stopped: bool,
}

impl StopsAt {
    fn access(access: u32) -> StopsAt {
        StopsAt {
            access,
            asked: 0,
            has_stopped: false,
        }
    }
}

impl Fate for StopsAt {
    ghost use Rattle.std.specs.Prelude.{if◌then◌else◌};

    ghost stopped = { λ f. if f.has_stopped then 1 else 0 };

    fn stops(&mut self) -> bool {
        self.asked = self.asked.wrapping_add(1);
        let stops = self.asked == self.access && !self.has_stopped;
        self.has_stopped = self.has_stopped || stops;
        stops
    }
}

/// The reply of an unlock with this fate, up to the waking; EAGAIN where it has somebody to wake; None where its thread
/// died before it freed the mutex.
fn unlock(words: &Words, pass: Pass<Live>, mutex: u16, fate: &mut StopsAt) -> Option<Reply>
    requires pass { IsLive words.now pass }
    requires mutex { mutex < (layout_of words.now).mutexes }
{
    match words.release(pass, mutex, fate) {
        Released::Owes(owed) => match owed.settle(words) {
            Ok(_) => Some(Reply::OK),
            Err(owed) => {
                let _dead = owed.abandon();
                Some(Reply::EAGAIN)
            }
        },
        Released::Refused(_, reply) => Some(reply),
        Released::Dead(_) => None,
    }
}

/// The reply of a call with this fate that waits for nobody; None where its thread died in it.
fn reply_of(words: &Words, pass: Pass<Live>, call: Call, fate: &mut StopsAt) -> Option<Reply>
    requires { IsLive words.now pass }
{
    let mutex = call.mutex();
    if mutex >= words.layout().mutexes() {
        return Some(Reply::EINVAL);
    }
    let outcome = match call {
        Call::Unlock(_) => return unlock(words, pass, mutex, fate),
        Call::Consistent(_) => words.consistent(pass, mutex, fate),
        Call::Lock(_) | Call::TimedLock(_) | Call::TryLock(_) => {
            words.try_lock(pass, mutex, fate)
        }
    };
    match outcome {
        Outcome::Lives(_, reply) => Some(reply),
        Outcome::Dead(_) => None,
    }
}

/// A call on mutex 0 by a thread that may hold mutex 1, and what it makes.
#[derive(Clone, Copy)]
struct Case {
    /// The thread's calls before it.
    before: &'static [Call],
    call: Call,
    /// How many accesses it makes; its fate was asked before each.
    accesses: u32,
    /// What it gets after them.
    reply: Reply,
    /// The thread owns the mutex before this access, and those after it..
    owns_from: u32,
    /// ..up to this one.
    owns_until: u32,
    /// The cell of mutex 1.
    other: u64,
}

/// Whether the thread dies before this access of the case's call, or lives where it makes fewer. A dead thread's mutex
/// stays its own, and nobody else can take it then.
fn dies_before(alloc: Global, case: &Case, access: u32) -> Result<bool, Fail> {
    let Two(words, mut pass, second) = of_two(alloc, Layout::new(2, 2, &[])?, &[])?;
    for call in case.before {
        pass = makes(&words, pass, *call).0;
    }
    let mut fate = StopsAt::access(access);
    let reply = reply_of(&words, pass, case.call, &mut fate);
    let (second, told) = makes(&words, second, TryLock(0));
    let mutexes = words.layout().mutexes();
    let last = cells(&words.close(second), mutexes);
    let lives = access > case.accesses;
    let owns = case.owns_from <= access && access <= case.owns_until;
    Ok(
        reply == (if lives { Some(case.reply) } else { None })
            && fate.asked == access.min(case.accesses)
            && told == (if owns { Reply::EBUSY } else { Reply::OK })
            && last == [if owns { 1 } else { 2 }, case.other, 0, 0],
    )
}

/// The first access before which the case's thread doesn't die as it should; None where there is none, and the thread
/// lives that makes them all.
fn first_wrong(alloc: Global, case: &Case) -> Result<Option<u32>, Fail> {
    for access in 1..12 {
        if !dies_before(alloc, case, access)? {
            return Ok(Some(access));
        }
    }
    Ok(None)
}

/// By a thread that holds nothing: it announces the mutex, loads and exchanges its cell, puts it in front of the empty
/// list by 4, and clears what it announced.
const TRYLOCK: Case = Case {
    before: &[],
    call: TryLock(0),
    accesses: 8,
    reply: Reply::OK,
    owns_from: 4,
    owns_until: 99,
    other: 0,
};

/// Loads the cell, announces the mutex, takes it out of the list by 3, and flips the cell.
const RELEASE: Case = Case {
    before: &[TryLock(0)],
    call: Unlock(0),
    accesses: 6,
    owns_from: 1,
    owns_until: 6,
    ..TRYLOCK
};

static CASES: [Case; 5] = [
    TRYLOCK,
    // it puts its mutex in front of the other one by 5
    Case {
        before: &[TryLock(1)],
        accesses: 9,
        other: 1,
        ..TRYLOCK
    },
    // the mutex is consistent, so its load finds nothing to declare
    Case {
        before: &[TryLock(0)],
        call: Consistent(0),
        accesses: 1,
        reply: Reply::EINVAL,
        owns_from: 1,
        ..TRYLOCK
    },
    RELEASE,
    // it takes the mutex out of the list, where another one stands after it, by 4
    Case {
        before: &[TryLock(1), TryLock(0)],
        accesses: 7,
        owns_until: 7,
        other: 1,
        ..RELEASE
    },
];

#[test]
fn a_thread_dies_before_each_access_of_its_call(rt: HostRuntime) -> Result<(), Fail> {
    for (place, case) in CASES.iter().enumerate() {
        assert_eq!(rt; first_wrong(rt.alloc(), case)?, None, "in case {place}");
    }
    Ok(())
}
