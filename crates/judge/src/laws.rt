//! What holds of the reasons and replies that are recorded of illegal lines.

ghost use Rattle.judge.specs.Evidence.{ChangesAreTheObjects, DeathIsNamed, EvidenceIsNewest};
ghost use Rattle.judge.specs.Reasons.{AreGivenReasons, ReasonsHold};
ghost use Rattle.judge.specs.Replies.{PointsHaveTheseReplies};

/// What is recorded as the reason of an illegal line is true: it is out of its thread's turn, by the thread's newest
/// line, or it is the return of the call that began at the line that is named.
pub fn reasons_hold()
    ensures { ReasonsHold }
{}

/// A line of a history that is out of its thread's turn has a reason that says so. Such a line is a begin in a call, a
/// return in no call, any line of a dead or reaped thread, a reaping of a living thread, or a renewal of one that isn't
/// reaped. A return of a call has a reason, too, which names the call.
pub fn turns_have_reasons()
    ensures { AreGivenReasons }
{}

/// Each reply that a step of a mutex gives a call is one of its operation's, which are tried at an illegal return.
pub fn points_have_these_replies()
    ensures { PointsHaveTheseReplies }
{}

/// A reply is named for giving a thread a mutex exactly if the thread owns the mutex after the object's step with that
/// reply. A reply is named for leaving it exactly if after that step nobody owns it, or a wait's thread doesn't. A
/// reply is named for declaring it consistent exactly if that step makes an inconsistent mutex consistent, and its
/// thread still owns it.
pub fn changes_are_the_objects()
    ensures { ChangesAreTheObjects }
{}

/// The line that is named for giving a thread a mutex is the newest one that did, if any did. The line that is named
/// for declaring it consistent is the newest one that did, and newer; so is the line that is named for leaving it.
pub fn evidence_is_newest()
    ensures { EvidenceIsNewest }
{}

/// The line that is named for a death reports that a thread died which may have owned the mutex. A thread may own a
/// mutex if it is in a call on it, or if its newest reply gave it the mutex. In a new life it owns nothing.
pub fn death_is_named()
    ensures { DeathIsNamed }
{}
