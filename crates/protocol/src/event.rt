//! Events: what a schedule lets happen, one thread's begin, access, death, leave, renewal or remake at a time, or what
//! becomes of one access.

use condvar::Op;
use lockword::Tid;

/// Who answers for a mutex when its wake is spared.
#[derive(Clone, Copy, Debug, PartialEq, Eq)]
pub enum LeftTo {
    /// Another thread, which is awake: it will look at the mutex's word, or is about to wake one itself; or it was
    /// killed with the mutex pending, and its walk, which hasn't begun, will look. So the scripts of `rfx` have it.
    Thread,
    /// The mutex's owner: it has taken the mutex, and releases it with WAITERS set.
    Owner,
    /// A walk, which may be under way: it has the mutex pending and will look at its word, or is about to wake one.
    Walk,
}

/// One event of a schedule.
#[derive(Clone, Copy, Debug, PartialEq, Eq)]
pub enum Event {
    /// The thread begins a call.
    Begin(Tid, Op),
    /// The thread makes the next access of its call; or the kernel makes the next one of its walk, where the thread was
    /// killed.
    Step(Tid),
    /// The thread dies.
    Kill(Tid),
    /// The thread leaves the queue in which it sleeps, woken by nobody, and goes on as if it had been: a signal handler
    /// ran (futex(2), EINTR), say.
    Leave(Tid),
    /// The time limit of the thread's lock comes while it sleeps on the mutex, or that of its wait while it sleeps on the
    /// condition variable: it leaves the queue, out of time. A wait then locks its mutex again, without any limit.
    Expire(Tid),
    /// The next access of the thread's call, a trim, is declined: whatever the word is, it stays, and the thread is
    /// answered so.
    Decline(Tid),
    /// The thread, which was reaped, lives again, with the same id: in no call, with an empty list and nothing
    /// pending, the owner of nothing.
    Renew(Tid),
    /// The thread, which is in no call, reinitialises the mutex with this number, which is unusable
    /// (pthread_mutex_destroy(3p), pthread_mutex_init(3p)): by the exchange that ends such a call, whose look at the word
    /// and question who sleeps came before, and changed nothing. WAITERS stays, for whoever sleeps on it by now.
    Remake(Tid, u16),
    /// The next access of the thread's call, the wake of one sleeper of its mutex, is spared: nobody is woken, and the
    /// thread is answered as if one had been. The mutex is left to another, who answers for it.
    Spare(Tid, LeftTo),
}
