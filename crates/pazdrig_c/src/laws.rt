//! What holds of the plans, and of calls that are out of time.

ghost use Rattle.pazdrig_c.specs.Expiring.{OnlySleepersExpire};
ghost use Rattle.pazdrig_c.specs.Plans.{LocksByPlan, UnlocksByPlan};
ghost use Rattle.pazdrig_c.specs.Shorts.{SignalsByPlan, BroadcastsByPlan, DeclaresByPlan, RefusalsByPlan};

/// The lock or the trylock of a free mutex that meets what it expects makes just the accesses of its plan. It returns
/// the reply of a call that takes such a cell, and makes its exchange at the row that takes. Its loads find the same if
/// they come before its first store.
pub fn locks_by_plan()
    ensures { LocksByPlan }
{}

/// The unlock of a consistent mutex by its owner makes just the accesses of its plan, if its release finds that nobody
/// waits. Up to the release it does so in any case, and is then at the row that releases. It returns OK, also if
/// somebody may wait and nobody was woken. Its loads find the same if they come before its first store.
pub fn unlocks_by_plan()
    ensures { UnlocksByPlan }
{}

/// The signal (pthread_cond_signal) of an owner whose counter isn't full loads the cell and the counter, counts, which
/// is its point, and wakes one sleeper of the counter. It returns OK, however many were woken. After the count it is at
/// the row that wakes.
pub fn signals_by_plan()
    ensures { SignalsByPlan }
{}

/// The broadcast (pthread_cond_broadcast) of an owner whose counter isn't full counts, sets WAITERS in the cell, and
/// moves all sleepers of the counter to it. Before it counts, which is its point, it loads the cell and the counter. It
/// returns OK, also if the move found nobody or the counter changed. After the count it is at the row that sets
/// WAITERS, and after that at the row that moves.
pub fn broadcasts_by_plan()
    ensures { BroadcastsByPlan }
{}

/// A declaration (pthread_mutex_consistent) by the owner of an inconsistent mutex loads the cell and clears OWNER_DIED
/// in it, which is its point, and returns OK.
pub fn declares_by_plan()
    ensures { DeclaresByPlan }
{}

/// A call that its look at the cell refuses makes no access after that look, and before it only looks. In a signal or
/// broadcast, the look at the counter may refuse, too. A lock and a trylock store the entry as the pending one before,
/// and 0 after; they find the same if they look before that. The look is the call's point, and the call returns what
/// refuses it. A trylock returns EBUSY for an owned mutex, and ENOTRECOVERABLE for an unusable one. A lock returns
/// EDEADLK for the thread's own mutex, and ENOTRECOVERABLE for an unusable one without WAITERS. Each other call of a
/// thread that isn't the owner returns EPERM, consistent of a consistent mutex EINVAL, a wait of an inconsistent one
/// X_STATE, and a signal or broadcast whose counter is full X_FULL. A call that isn't refused so continues undecided,
/// except for a lock of an unusable mutex with WAITERS: that wakes all that sleep there, and this law doesn't cover it.
pub fn refusals_by_plan()
    ensures { RefusalsByPlan }
{}

/// A lock whose deadline passes (`pz_expire`) has its look at the mutex's cell next, or its sleep on it. So it gives up
/// no mutex that it is about to take, and no wake that it owes.
pub fn only_sleepers_expire()
    ensures { OnlySleepersExpire }
{}
