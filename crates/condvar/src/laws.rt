//! What holds of every call.
ghost use Rattle.condvar.specs.Laws.{CallsAreRight, AccessesAreThere, MovesAreRight, NeedsAreOwned, PointsArePermitted};
ghost use Rattle.condvar.specs.Wakes.{WakesAreRight};
ghost use Rattle.condvar.specs.Faults.{FaultsAreTold};
ghost use Rattle.condvar.specs.Expiries.{TimedWaitsAreRight};
ghost use Rattle.condvar.specs.WholeLaws.{WholeCallsAreRight, WholeCallsWake};

/// Whatever words an access of a call meets, it is a step of the mutex as POSIX sees it. The counter goes up by one
/// exactly if a signal or a broadcast is OK, and the words are as the call's next access needs them.
pub fn calls_are_right()
    ensures { CallsAreRight }
{}

/// Except for its thread's robust list, a call's accesses are at its mutex's cell and at its condition variable's
/// counter.
#[tactic(auto, using(crate::proofs::Rights::there))]
pub fn accesses_are_there()
    ensures { AccessesAreThere }
{}

/// A broadcast moves sleepers only to a cell that its thread owns and that has WAITERS, and it compares the counter
/// with its current value, so the move never fails for it.
#[tactic(auto, using(crate::proofs::Rights::moves))]
pub fn moves_are_right()
    ensures { MovesAreRight }
{}

/// Whatever its accesses return, a call wakes one sleeper of its mutex after a wait's release that found `WAITERS`, and
/// one of its condition variable if a signal counted. Otherwise it wakes nobody. A broadcast moves sleepers instead.
/// (The lock that ends a wait is a call of `mutex`.)
#[tactic(auto, using(crate::proofs::Wakes::woken_right))]
pub fn wakes_are_right()
    ensures { WakesAreRight }
{}

/// A whole call begins a wake exactly after an access at the cell or the counter whose point asks for that wake, of one
/// sleeper on that word. In the lock that ends a wait, it does so exactly when a call of `mutex` does. Whatever the
/// call's accesses return, it doesn't begin with a wake, and no wake follows an access of its thread's robust list.
#[tactic(auto, using(crate::proofs::WholeWakes::whole_wakes))]
pub fn whole_calls_wake()
    ensures { WholeCallsWake }
{}

/// What a call needs of the words stays while its thread owns the mutex, whatever other threads do that leave an owned
/// mutex alone.
#[tactic(auto, using(crate::proofs::Rights::owned))]
pub fn needs_are_owned()
    ensures { NeedsAreOwned }
{}

/// Whatever a call's accesses return, a reply that its first load decides is one that POSIX permits for the cell met
/// there. The call goes on from that load only as the mutex's owner.
#[tactic(auto, using(crate::proofs::Replies::permitted))]
pub fn points_are_permitted()
    ensures { PointsArePermitted }
{}

/// Whatever its accesses return, a whole call that has returned without a fault has had exactly its points, the last
/// with the reply that it returned. A wait was refused, or it unlocked its mutex and later locked it again. Each point
/// except that of a lock has a reply that POSIX permits for the cell that the call's first load met. When a wait takes
/// its mutex again, it is a call of lock, and all holds that `mutex` says of whole calls.
#[tactic(auto, using(crate::proofs::Wholes::whole))]
pub fn whole_calls_are_right()
    ensures { WholeCallsAreRight }
{}

/// Whatever its accesses return, a whole call returns `EFAULT` exactly after an answer that its access doesn't have.
#[tactic(auto, using(crate::proofs::Faults::told))]
pub fn faults_are_told()
    ensures { FaultsAreTold }
{}

/// A wait with a deadline is a wait, access by access. When it sleeps, it has unlocked its mutex and had no other
/// point, so its deadline passes after that. Then it continues like a wait that is woken, by locking its mutex. It
/// returns a wait's reply, except that it is `ETIMEDOUT` instead of `OK` if the wait is out of time.
#[tactic(auto, using(crate::proofs::Expiries::timed))]
pub fn timed_waits_are_right()
    ensures { TimedWaitsAreRight }
{}
