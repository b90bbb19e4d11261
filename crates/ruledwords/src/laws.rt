//! What follows from what calls promise, and where the words lie.
ghost use Rattle.ruledwords.specs.Apart.{HeadsAndMutexesLieApart};
ghost use Rattle.ruledwords.specs.Meetings.{MeetingsOrderCalls};

/// If two threads met ([`Words::meet`](crate::Words::meet)) after a call of one had ended and before a call of the
/// other began, the first call comes before the second. All points of the second come after all that the first thread
/// had seen at the meeting.
pub fn meetings_order_calls()
    ensures { MeetingsOrderCalls }
{}

/// No two threads' heads have words in one cache line of 64 bytes, nor two mutexes, each with its cell and its two
/// links, nor a head and a mutex. So threads that work on different mutexes take no line from one another.
pub fn heads_and_mutexes_lie_apart()
    ensures { HeadsAndMutexesLieApart }
{}
