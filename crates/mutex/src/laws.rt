//! What holds of every call.
ghost use Rattle.mutex.specs.Laws.{ProgramsAreRight, WaitersAreKept, UnlocksTrim};
ghost use Rattle.mutex.specs.Laws.{RacedAfterFour, GivesUpAfterFour, PointsArePermitted};
ghost use Rattle.mutex.specs.Wakes.{WakesAreRight};
ghost use Rattle.mutex.specs.WholeLaws.{WholeCallsAreRight, WholeCallsWake, WholeUnlocksTrim};
ghost use Rattle.mutex.specs.WholeLists.{WholeListsAreKept};
ghost use Rattle.mutex.specs.Decisions.{WholeCallsAreDecided};
ghost use Rattle.mutex.specs.Expiries.{ExpiriesAreRight};

/// Whatever word an access of a call meets, it is a step of the mutex as POSIX sees it, and leaves what the call's next
/// access needs.
pub fn programs_are_right()
    ensures { ProgramsAreRight }
{}

/// Every access of a call except for a trim leaves `WAITERS` where it is set.
pub fn waiters_are_kept()
    ensures { WaitersAreKept }
{}

/// A call comes to a trim exactly if an unlock was to wake one thread and woke nobody.
pub fn unlocks_trim_after_waking_nobody()
    ensures at_the_cell { UnlocksTrim }
    ensures whole { WholeUnlocksTrim }
{}

/// A call wakes sleepers exactly after a release, or after a lock that finds the mutex unusable, if the cell that it
/// met had `WAITERS`. It wakes one sleeper if the mutex is left usable, and all if it is unusable. A trylock and a
/// declaration wake nobody.
pub fn wakes_are_right()
    ensures { WakesAreRight }
{}

/// A whole call begins a wake exactly after an access at its mutex's cell whose point asks for that wake. The wake is
/// of as many sleepers of that cell as the point asks for. Whatever the call's accesses return, it doesn't begin with a
/// wake, and no wake follows an access of its thread's robust list.
pub fn whole_calls_wake()
    ensures { WholeCallsWake }
{}

/// Whatever its accesses return, a trylock gives up only after four exchanges that each found a changed cell.
#[tactic(auto, using(crate::proofs::Races::raced))]
pub fn raced_after_four()
    ensures { RacedAfterFour }
{}

/// A trylock that hasn't given up has met at most three changed cells: after the fourth it gives up.
#[tactic(auto, using(crate::proofs::Races::gives_up))]
pub fn gives_up_after_four()
    ensures { GivesUpAfterFour }
{}

/// Whatever a call's accesses return, its reply is one that POSIX permits for the cell that it met.
pub fn points_are_permitted()
    ensures { PointsArePermitted }
{}

/// Whatever its accesses return, a whole call is at rows of its operation, and has points only at the cell, with
/// replies that POSIX permits there. It goes on to release a mutex only from a cell that it owns. A trylock gives up
/// only after four exchanges that each found a changed cell.
pub fn whole_calls_are_right()
    ensures { WholeCallsAreRight }
{}

/// Whatever its accesses return, a whole call that has returned without a fault has had exactly one point, and returned
/// that point's reply. Each point, also that of a release or a declaration, has a reply that POSIX permits for the cell
/// that the call met there, or met last before. The call returns `EFAULT` exactly after an answer that its access
/// doesn't have.
pub fn whole_calls_are_decided()
    ensures { WholeCallsAreDecided }
{}

/// Whatever other threads do at the cell, a whole call keeps its thread's own words a list of just the mutexes that the
/// thread owns. During a change the list is whole or as the change leaves it at that access. Only the thread writes
/// these words. Whenever it dies, the kernel finds in them all that it owns.
pub fn whole_calls_keep_lists()
    ensures { WholeListsAreKept }
{}

/// A lock that is out of time has had no point, so it never owned the mutex. The one access that is left clears its
/// pending entry, and it returns `ETIMEDOUT`. Its thread's list is as between calls.
#[tactic(auto, using(crate::proofs::Expiries::right))]
pub fn expiries_are_right()
    ensures { ExpiriesAreRight }
{}
