//! What holds of calls that still wait and shouldn't, and of the points of steps.

ghost use Rattle.certificates.specs.Laws.{NamedCallsAreStuck, PointsAreTheJudges, SinceIsTheLast};
ghost use Rattle.certificates.specs.Laws.{StuckCallsAreNamed, WaitersAreInOrder};

/// After a certificate, each call that is named still waits and shouldn't. Its thread is alive. It is a lock, with a
/// deadline or without, that has had no point. Nobody owns its mutex, which would have a reply for it, and which is
/// unusable if the report says that. The call began at the line of the history that is named.
pub fn named_calls_are_stuck()
    ensures { NamedCallsAreStuck }
{}

/// After the steps, each lock of a thread that is neither killed nor doomed is named if it has had no point and nobody
/// owns its mutex.
pub fn stuck_calls_are_named()
    ensures { StuckCallsAreNamed }
{}

/// A named call comes with how many lines of the history precede the step that last left its mutex without an owner, or
/// with None if no step did.
pub fn since_is_the_last()
    ensures { SinceIsTheLast }
{}

/// The named calls are of different threads, in the order of their ids, so each is named once. A thread that was doomed
/// has been killed since, and lives again.
pub fn waiters_are_in_order()
    ensures { WaitersAreInOrder }
{}

/// Steps have as many points as the judge of traces counts in the trace of these steps.
pub fn points_are_the_judges()
    ensures { PointsAreTheJudges }
{}
