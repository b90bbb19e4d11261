//! What follows from what is reported of real threads.
ghost use Rattle.report.specs.Lone.{MutexesPermitOnlyAnswers, PhasesAreDetermined};

/// If each phase has calls of one thread only, and nobody dies, all replies follow from the calls alone. At first
/// nobody has locked a mutex, and the counters are those of the script's lines. Each call returns what its mutex allows
/// then, and its condition variable's counter, to a thread that holds this many mutexes. X_RACED never comes there.
/// ([`serve`](crate::serve) says that a script's phases are played so, up to the first in which two threads have
/// calls.)
pub fn phases_of_one_thread_are_determined()
    ensures { PhasesAreDetermined }
{}

/// While no other thread is in a call, a thread may get each reply that `posixmutex::Object::step` permits except for
/// X_RACED, and no other. A full counter's owner gets what the counter permits. X_RACED needs changes by other threads.
pub fn mutexes_permit_only_answers()
    ensures { MutexesPermitOnlyAnswers }
{}
