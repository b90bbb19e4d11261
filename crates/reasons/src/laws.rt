//! What holds of every reason.

ghost use Rattle.reasons.specs.Truths.{EndHasItsWords, MutexesAreTrue, ReasonsAreTrue};

/// If a line doesn't fit the lines before it, the text of the reason is the one that belongs to this reason. What the text
/// says of the line's event, its thread and its mutex is so:
///
/// - the thread is asleep, or isn't; it is in this call, or in none; it lives, was killed or was reaped;
/// - the call has had no point yet, or all of them, with this reply;
/// - the thread holds this number of mutexes; the mutex is in this state.
pub fn reasons_are_true()
    ensures { ReasonsAreTrue }
{}

/// The words for a mutex are those of its state: it is unusable, nobody owns it, its owner died, or this thread owns it
/// and has or hasn't declared it consistent.
pub fn mutexes_are_true()
    ensures { MutexesAreTrue }
{}

/// If the number on the last line is below the last event's, the text says so and names that event.
pub fn end_has_its_words()
    ensures { EndHasItsWords }
{}
