//! What holds of every explanation.

ghost use Rattle.explain.specs.Laws.{AllOfTheKindAreOrigins, OriginsAreOfTheirKind};
ghost use Rattle.explain.specs.Laws.{RepliesAreThoseAllowed, SpoilingWaitsAreFound, TitlesSayWhatIsFound};
ghost use Rattle.explain.specs.Laws.{WaitsAreAskedAsWaits};

/// The first line of an explanation names the line of a fault, the fault's number and its words; of an illegal trace the line
/// that doesn't fit, and the reason; and which programs take a good script. The exit status is 0 for a good script and a
/// legal trace, and 1 otherwise.
pub fn titles_say_what_is_found()
    ensures { TitlesSayWhatIsFound }
{}

/// An explanation says that an operation may have a reply exactly if the mutex, as it is, permits this reply to the
/// thread. If it permits several, `or` is between them; if it permits none, the explanation says so.
pub fn replies_are_those_allowed()
    ensures { RepliesAreThoseAllowed }
{}

/// The replies that are named for an unlock that a wait makes of another thread's mutex are those of the wait, with a time
/// limit or without; for any other point, they are those of its own operation.
pub fn waits_are_asked_as_waits()
    ensures { WaitsAreAskedAsWaits }
{}

/// The earlier line that an explanation goes back to is of the kind that the reason speaks of: the begin of the thread's
/// call, its last point, its return, its sleep, its wake, its kill, its reaping or its renewal; a point or a death of the
/// mutex; or a line of the same event.
pub fn origins_are_of_their_kind()
    ensures { OriginsAreOfTheirKind }
{}

/// No line of that kind is passed over: if an earlier line isn't taken, then it isn't of the kind that the reason speaks
/// of.
pub fn all_of_the_kind_are_origins()
    ensures { AllOfTheKindAreOrigins }
{}

/// A legal trace's line is named as one that no run has exactly if it is the unlock of a wait, with a time limit or
/// without, whose mutex is inconsistent. This step makes the mutex unusable.
pub fn spoiling_waits_are_found()
    ensures { SpoilingWaitsAreFound }
{}
