//! What holds of the definitions.
ghost use Rattle.facts.specs.Lives.{OnlyLateWaitsDiffer};

/// A call that returns another reply than its last point's is a wait with a deadline: that point's reply was OK, and
/// the wait returns ETIMEDOUT.
pub fn only_late_waits_differ()
    ensures { OnlyLateWaitsDiffer }
{}
