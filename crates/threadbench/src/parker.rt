//! Where threads sleep: tokens, and the bells by which sleepers learn of them. What a sleep and a wake have
//! to show is made here alone.
ghost use Rattle.std.specs.Prelude.{◌≡◌, ◌<◌, ◌+◌, true, false, Some, length, slice_get, IfOk};
ghost use Rattle.std.specs.Sync.Mutex.{mutex_guard_value};
ghost use Rattle.lockword.specs.Threads.{most_threads};
ghost use Rattle.threadbench.specs.declared.kill.note.KillStage.TheVariants.{Looked};
ghost use Rattle.threadbench.specs.Parkers.{AreParkers};

use crate::bench::THREADS;
use crate::kill::note::Kill;
use crate::kill::thread_after;
use crate::room::push_in_room;
use buckets::Batch;
use lockword::Tid;
use memorymap::NoMem;
use std::alloc::Global;
use std::sync::{Condvar, Mutex, MutexGuard, Wait};

/// Where one thread waits for a token and others give it one. A thread that was given one before it parks goes on at
/// once.
#[derive(Drop)]
pub(crate) struct Parker {
    pub(crate) thread: Tid,
    pub(crate) token: Mutex<Token>,
    pub(crate) bell: Bell,
}

/// Whether there is a token. Nothing makes one but [`parkers`], for a bench.
#[derive(Drop)]
pub(crate) struct Token {
    there: bool,
}

/// What tells a sleeper that there is a token.
#[derive(Drop)]
pub(crate) struct Bell {
    rung: Condvar,
}

/// Evidence that a thread took its token, so that it sleeps again where it parks again. Nothing makes one but [`Token::take`].
#[derive(Drop)]
pub(crate) struct Taken {
    left: bool,
}

/// Evidence that a thread is out of the queue in which it slept, if it did, and is to be given a token. It is of a thread that a
/// wake took ([`Due::woken`]), or that a kill has looked for in each bucket ([`Due::killed`]). It can't be let go:
/// whoever has one gives the token. (It is no stage of a [`Kill`], since a wake takes threads that nobody killed.)
pub(crate) struct Due {
    thread: Tid,
}

/// Evidence that a thread was given a token. Nothing makes one but [`Bell::ring`].
#[derive(Drop)]
pub(crate) struct Given {
    thread: Tid,
}

/// Evidence that there is no token any more for a thread that was reaped, so that none of its last life ends a sleep of its next
/// one. Nothing makes one but [`Parker::drained`].
#[derive(Drop)]
pub(crate) struct Drained {
    thread: Tid,
}

/// Those of a batch who were given tokens, this many from its first on.
#[derive(Drop)]
pub(crate) struct Roused {
    count: u32,
}

impl Parker {
    /// The parker of a thread, without a token.
    fn new(thread: Tid) -> Parker
        ensures { result.thread ≡ thread }
    {
        Parker {
            thread,
            token: Mutex::new(Token { there: false }),
            bell: Bell {
                rung: Condvar::new(),
            },
        }
    }
}

impl Token {
    /// Puts a token there, for a thread that is to be given one. There is one at most.
    pub(crate) fn put(&mut self, due: &Due)
        ensures { self.new.there ≡ true }
    {
        let _due = due;
        self.there = true;
    }

    /// Takes the token away, if there is one.
    pub(crate) fn clear(&mut self)
        ensures { self.new.there ≡ false }
    {
        self.there = false;
    }

    /// Takes the token away.
    pub(crate) fn take(&mut self) -> Taken
        requires { self.old.there ≡ true }
        ensures token { self.new.there ≡ false }
        ensures left { result.left ≡ false }
    {
        self.there = false;
        Taken { left: false }
    }
}

impl Parker {
    /// There is no token for the thread whose parker it is.
    pub(crate) fn drained(&self, token: MutexGuard<'_, Token>) -> Drained
        requires { (mutex_guard_value token).there ≡ false }
        ensures { result.thread ≡ self.now.thread }
    {
        drop(token);
        Drained {
            thread: self.thread,
        }
    }
}

impl Bell {
    /// Waits until there is a token.
    pub(crate) fn wait<'a, R: Wait>(
        &self,
        rt: &R,
        token: MutexGuard<'a, Token>,
    ) -> MutexGuard<'a, Token>
        ensures { (mutex_guard_value result).there ≡ true }
    {
        self.rung.wait_while(rt, token, |token| !token.there)
    }

    /// Tells the thread of the token that was put there.
    pub(crate) fn ring(&self, token: MutexGuard<'_, Token>, due: Due) -> Given
        requires { (mutex_guard_value token).there ≡ true }
        ensures { result.thread ≡ due.thread }
    {
        drop(token);
        self.rung.notify_one();
        let Due { thread } = due;
        Given { thread }
    }
}

impl Due {
    /// The one at that place among those that a wake took.
    pub(crate) fn woken(woken: &Batch, place: usize) -> Due
        requires { place < length woken.now }
        ensures { slice_get woken.now place ≡ Some result.thread }
    {
        match woken.get(place) {
            Some(thread) => Due { thread },
            None => unreachable!(),
        }
    }

    /// The one who is to die, once it was looked for in each bucket.
    pub(crate) fn killed(kill: &Kill) -> Due
        requires { kill.now.stage ≡ Looked 256 }
        ensures { result.thread ≡ kill.now.thread }
    {
        Due {
            thread: kill.thread(),
        }
    }

    /// The thread.
    pub(crate) fn thread(&self) -> Tid
        ensures { result ≡ self.now.thread }
    {
        self.thread
    }
}

impl Roused {
    /// Nobody yet.
    pub(crate) fn nobody() -> Roused
        ensures { result.count ≡ 0 }
    {
        Roused { count: 0 }
    }

    /// The next of the batch was given one.
    pub(crate) fn one_more(&mut self, woken: &Batch, given: Given)
        requires few { self.old.count < most_threads }
        requires next { slice_get woken.now self.old.count ≡ Some given.thread }
        ensures { self.new.count ≡ self.old.count + 1 }
    {
        let _woken = woken;
        let _given = given;
        self.count += 1;
    }

    /// How many they are.
    pub(crate) fn count(&self) -> u32
        ensures { result ≡ self.now.count }
    {
        self.count
    }
}

/// A parker for each id, without a token.
pub(crate) fn parkers(alloc: Global) -> Result<Vec<Parker>, NoMem>
    ensures count { IfOk result (λ v. length v.items ≡ most_threads) }
    ensures parkers { IfOk result (λ v. AreParkers v.items) }
{
    let mut parkers = Vec::with_capacity(alloc, usize::from(THREADS))?;
    for before in 0..THREADS {
        push_in_room(&mut parkers, Parker::new(thread_after(before)));
    }
    Ok(parkers)
}
