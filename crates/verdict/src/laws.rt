//! What holds of every trace that is found legal.

ghost use Rattle.verdict.specs.Laws.{WithoutRenewalsAsBefore};

/// If a legal trace has no renewal, each thread has one life. After its kill, the deaths of the mutexes that it owned
/// then are recorded, each at most once, and exactly once if the thread was reaped.
pub fn without_renewals_as_before()
    ensures { WithoutRenewalsAsBefore }
{}
