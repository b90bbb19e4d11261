//! What holds of every run with store buffers.
ghost use Rattle.storebuffers.specs.LoadsFirst.{LoadsMayComeFirst};
ghost use Rattle.storebuffers.specs.OwnWords.{OwnWordsStay};
ghost use Rattle.storebuffers.specs.Runs.{BuffersChangeNothing, BuffersDrain, PromisesHoldWithBuffers};

/// Whenever stores reach memory, the machine with buffers records what the machine without them records of the same
/// events. Memory, with all stores that still wait, is the state to which the events lead that machine. Only a thread's
/// own words wait, those of its head and of the links of mutexes that it owns, and no other thread meets them in the
/// meantime. So in memory the words of mutexes and the counters are as in that state. No store of a dead thread waits.
pub fn buffers_change_nothing()
    ensures { BuffersChangeNothing }
{}

/// Whenever stores reach memory, the promises hold of memory as it is. The recorded points and deaths are one legal
/// history, which says of each mutex what its word in memory says, and the trace is explained. No reaped thread owns a
/// mutex, and deaths are recorded, once. Whenever a mutex that nobody owns has sleepers, some awake thread, run alone,
/// takes it or wakes one of them within 9,000 steps; a thread that runs alone comes to rest within as many. Calls that
/// no other event divides reply as their mutex permits, and no signal or broadcast passes a wait by. The next event is
/// noted as what it is if it applies, and otherwise does nothing.
pub fn promises_hold_with_buffers()
    ensures { PromisesHoldWithBuffers }
{}

/// In any state, as many drains of a thread as it has waiting stores bring them all to memory, in their order, and
/// change nothing else. So no store waits for an event of any thread.
pub fn buffers_drain()
    ensures { BuffersDrain }
{}

/// The words of a thread's head, and the links of the mutexes that it owns, stay as it left them, and its own, whatever
/// others do. So a load of one of them finds the same wherever it comes between the thread's own stores, also before
/// the first one.
pub fn own_words_stay()
    ensures { OwnWordsStay }
{}

/// A lock, a trylock and an unlock may load all that they need before they store anything, whatever others do and
/// whenever stores reach memory. What they announce waits, and until then memory is as it was. A lock or a trylock
/// finds the cell as it was before it announced. The first entry of its list stays the same from then on until its
/// exchange, and, if nobody interfered, also after it, when the call loads it. The links of an unlock's entry are the
/// same before it announces and afterwards, when the call loads one and then the other.
pub fn loads_may_come_first()
    ensures { LoadsMayComeFirst }
{}
