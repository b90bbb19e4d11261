//! What holds of every run.
ghost use Rattle.protocol.specs.Expiries.{ExpiriesAreLone};
ghost use Rattle.protocol.specs.TimeLimits.{LateWaitsTimeOut, LocksWithoutLimits, NobodyTimesOutEarly, WaitedIsOwned};
ghost use Rattle.protocol.specs.Headline.{HistoryIsLegal, NoReapedOwner};
ghost use Rattle.protocol.specs.Explained.{TraceIsExplained};
ghost use Rattle.protocol.specs.Sleepers.{NoSleeperIsStranded, LoneThreadsComeToRest, UndividedCallsReply};
ghost use Rattle.protocol.specs.Lists.{ListsAreKept};
ghost use Rattle.protocol.specs.Deaths.{DeathsAreTold};
ghost use Rattle.protocol.specs.Applies.{EventsApply};
ghost use Rattle.protocol.specs.Wakings.{SleepsAreTold};
ghost use Rattle.protocol.specs.PassedBy.{NobodyIsPassedBy};
ghost use Rattle.protocol.specs.Wakes.{WakesAreRight};
ghost use Rattle.protocol.specs.Signals.{SignalsAreRight};
ghost use Rattle.protocol.specs.WaitersBit.{WaitersAreKept};
ghost use Rattle.protocol.specs.WalksOn.{WalksGoOn};
ghost use Rattle.protocol.specs.Leaves.{LeavesAreLone, FrontsAreWoken};
ghost use Rattle.protocol.specs.Renewals.{RenewalsBeginAnew, LivesAreOne};
ghost use Rattle.protocol.specs.Bounded.{OnlyLocksAndWaitsWait};
ghost use Rattle.protocol.specs.Changes.{EventsLeaveTheRest};
ghost use Rattle.protocol.specs.Counting.{CountersCountUp};
ghost use Rattle.protocol.specs.Releases.{WaitsReleaseConsistentMutexes};
ghost use Rattle.protocol.specs.Reinits.{NobodyJoinsAnUnusableMutex, UnusableStays, RemakesForgetNobody};
ghost use Rattle.protocol.specs.Spares.{SparesAreLone};
ghost use Rattle.protocol.specs.Promises.{Promises};

/// The promises of the algorithm, in every run: one legal history, one moment for each call, each death once, no reaped
/// owner, no lost wake, bounded steps, no wait that is passed by, and no event that is ignored.
pub fn promises_are_kept()
    ensures { Promises }
{}

/// After any events, the points and deaths are one legal history of POSIX robust mutexes, which leads to what each cell
/// says of its owner, OWNER_DIED and UNUSABLE.
pub fn history_is_legal()
    ensures { HistoryIsLegal }
{}

/// After any events, a thread whose list has been walked owns no mutex until it is renewed.
pub fn no_reaped_owner()
    ensures { NoReapedOwner }
{}

/// After any kill, and at each moment until the thread is renewed, its death is recorded once for each mutex that it
/// owned and has lost since, and for no other mutex. Once the thread is reaped, it is recorded for each of them. So
/// each life of a thread has the deaths of its own mutexes.
pub fn deaths_are_told()
    ensures { DeathsAreTold }
{}

/// After any events, the lines of each thread are one life after the other, and each life is a list of calls with their
/// points. Its reaping, and then its renewal, ends each life except for the last. In a life, each call begins, has one
/// point and returns that point's reply, each at an event of that thread, and no point belongs to any other call. A
/// wait that isn't refused has two points: it unlocks its mutex, and later locks it again, with the reply that it
/// returns. Among the lines of one event, a begin is the first, a return or a reaping the last, and a renewal the only
/// one; wakes and moves come after the point.
pub fn trace_is_explained()
    ensures { TraceIsExplained }
{}

/// Whenever a mutex that nobody owns has sleepers, some awake thread, run alone, takes it or wakes one of them within
/// 9,000 steps. That thread is in a call or dying. ([`nobody_is_passed_by`] is about the sleepers of condition
/// variables.)
pub fn no_sleeper_is_stranded()
    ensures { NoSleeperIsStranded }
{}

/// After any events, an awake thread that runs alone ends its call, falls asleep or is reaped within 9,000 steps.
pub fn lone_threads_come_to_rest()
    ensures { LoneThreadsComeToRest }
{}

/// A call that no other event divides returns within 9,000 steps, or sleeps. It returns a reply that the mutex's object
/// permits, and never `XRACED`. It sleeps only if it locks a mutex that another thread owns, or if it waits as the
/// owner of a consistent mutex; then it is in its condition variable's queue.
pub fn undivided_calls_reply()
    ensures { UndividedCallsReply }
{}

/// After any events, the words from each living thread's head are a list of at most 2,048 mutexes that it owns. All
/// that it owns are on it, except for the one whose entry is pending. So the kernel would find at any moment what the
/// thread owns.
pub fn lists_are_kept()
    ensures { ListsAreKept }
{}

/// An event is noted as what it is exactly if it applies, by what the trace has so far; every other event changes
/// nothing. A begin applies if its thread is in no call and names a mutex or condition variable of the layout; it is
/// refused only if it is to take a mutex and the thread owns 2,048. A kill applies to a living thread. A step applies
/// to a thread that is in a call, or was killed and not reaped, and is in no queue. A leave applies to a thread in a
/// queue, and an expiry to a thread that is in a lock with a deadline and sleeps, or in a wait with a deadline and
/// sleeps on the condition variable. A decline applies if the thread's next access is a trim. A renewal applies to a
/// thread that was reaped and hasn't been renewed since. A remake applies if its thread lives and is in no call, and
/// the mutex, one of the layout, is unusable, even while threads sleep on it. [`spares_are_lone`] says when a spare
/// applies.
pub fn events_apply()
    ensures { EventsApply }
{}

/// A thread is in a queue exactly if the last of its lines among sleep, move, wake and kill is a sleep or a move, which
/// names that queue. So its sleeps and wakes alternate. It has a sleep exactly when it enters a queue, and a move
/// exactly when it goes from a condition variable's queue to its mutex's. It has a wake exactly when it leaves all
/// queues, except by its kill. The threads of a queue are in the order in which they came, by the trace. A thread that
/// another one's event wakes or moves is the front of a queue ([`wakes_are_right`] says of which); a thread that leaves
/// by itself may be anywhere. A sleep is recorded only of a thread in a lock of that mutex, or in a wait on it or on
/// that condition variable.
pub fn sleeps_are_told()
    ensures { SleepsAreTold }
{}

/// A step wakes or moves nobody, or just those that its thread's call has to wake or move, by the trace. Once the call
/// has had a point, it may wake the first of its mutex's queue, or all of it, in its order, if its last point left that
/// mutex unusable. A signal may wake the first of its condition variable's queue. A broadcast moves all of its
/// condition variable's queue, in its order, to its mutex's. The walk over a dead thread's list wakes the first of a
/// mutex's queue. A leave wakes its own thread or nobody, and moves nobody. No other event wakes or moves anybody.
pub fn wakes_are_right()
    ensures { WakesAreRight }
{}

/// If no counter is above 2^32 - 1 at first, no wait that released its mutex before a signal or broadcast counted falls
/// asleep after it. The event at which a signal returns OK wakes the first of its condition variable's queue, and
/// nobody only if it was empty. The event at which a broadcast returns OK moves all of that queue, in its order, and
/// leaves it empty. No counter wraps, since signals and broadcasts are refused at 2^32 - 1, with `XFULL`.
pub fn nobody_is_passed_by()
    ensures { NobodyIsPassedBy }
{}

/// An owner's signal or broadcast that no other event divides is refused exactly if the counter is full (2^32 - 1), and
/// then changes nothing. Otherwise it counts. A signal takes the front of the condition variable's queue. A broadcast
/// moves the whole queue, in its order, to the end of the mutex's, whose cell has WAITERS then. This holds if no
/// counter was above 2^32 - 1 at first.
pub fn signals_are_right()
    ensures { SignalsAreRight }
{}

/// Whenever a thread sleeps on a mutex, the mutex's word has WAITERS. An event takes WAITERS only from a word that
/// nobody owned and on which nobody slept. Let an unlock have released a mutex on which nobody sleeps, and have to wake
/// one sleeper. Then the next two steps of its thread, the wake and the trim, leave the word 0 if it says nothing but
/// WAITERS. A declined trim leaves the word as it was.
pub fn waiters_are_kept()
    ensures { WaitersAreKept }
{}

/// As long as the kernel's walk over a dead thread's list has to mark a word, that thread owns it. So a walk that was
/// kept, and is to mark a word that another thread or nobody owns by now, has gone on since.
pub fn walks_go_on()
    ensures { WalksGoOn }
{}

/// A leave or a declined trim changes no word, and takes no other thread out of a queue. A leave is recorded as its
/// thread's wake, once, and as nothing else, and the thread continues like one that was woken. A declined trim records
/// nothing, and its thread continues as after the trim.
pub fn leaves_and_declines_are_lone()
    ensures { LeavesAreLone }
{}

/// If no thread leaves by itself or at a deadline, each wake names the front of a queue, by what was recorded before
/// it.
pub fn without_leaves_as_before()
    ensures { FrontsAreWoken }
{}

/// A reaped thread that is renewed is in no call and no queue, owns nothing and has an empty list, with nothing
/// pending. Only that is recorded, and no other word, thread or queue changes.
pub fn renewals_begin_anew()
    ensures { RenewalsBeginAnew }
{}

/// If no thread is renewed, each has one life, and its death is recorded for the mutexes that it owned, however much
/// happens after it.
pub fn without_renewals_as_before()
    ensures { LivesAreOne }
{}

/// A remake applies exactly if its thread lives and is in no call, and the mutex is unusable, even while threads sleep
/// on it. Then the mutex is free, as at first, and its word keeps WAITERS, so that the next release finds it, and
/// nothing else. No other word or mutex, no queue and no thread changes, and a call of one event is recorded: its
/// begin, its point and its return with OK.
pub fn remakes_forget_nobody()
    ensures { RemakesForgetNobody }
{}

/// If nobody reinitialises it, a mutex that became unusable stays unusable.
pub fn without_reinits_as_before()
    ensures { UnusableStays }
{}

/// No thread comes to sleep on a mutex that is unusable, until the mutex is reinitialised. So a thread that sees that
/// nobody sleeps there finds nobody asleep there later either.
pub fn nobody_joins_an_unusable_mutex()
    ensures { NobodyJoinsAnUnusableMutex }
{}

/// Whatever others do, a trylock returns within 12 steps of its living thread, an unlock within 10, a declaration
/// within 2, a signal within 4, and a broadcast within 5. None of them ever sleeps.
pub fn only_locks_and_waits_wait()
    ensures { OnlyLocksAndWaitsWait }
{}

/// A begin changes no word and no queue, a kill takes its thread out of its queue, and a step changes one word at most.
/// A begin and a kill leave their thread with as many mutexes. A step in a call may change a word of its thread's head,
/// a link of a mutex that its thread owns, the cell of the call's mutex, or in a signal or broadcast the counter. A
/// step of a dead thread's walk may change the cell of a mutex that the thread owns. It changes at most the queues of
/// that mutex and that condition variable, or after a death those of mutexes. None of them changes another thread.
pub fn events_leave_the_rest()
    ensures { EventsLeaveTheRest }
{}

/// A counter is what it was at first, or at any later moment, and one more for each signal and broadcast with OK on its
/// condition variable since. This holds if no counter was above 2^32 - 1 at first. Signals and broadcasts are refused
/// at 2^32 - 1, with `XFULL`, so no counter wraps.
pub fn counters_count_up()
    ensures { CountersCountUp }
{}

/// If a wait unlocks a mutex with OK, then directly before, its thread owned that mutex, and the mutex was consistent.
/// So no wait makes its mutex unusable.
pub fn waits_release_consistent_mutexes()
    ensures { WaitsReleaseConsistentMutexes }
{}

/// A wake of one sleeper is spared exactly if what it is left to answers for the mutex, and then nobody is woken and
/// nothing else changes. Another thread answers if it is awake and in a lock of the mutex, and has still to look at its
/// word or is about to wake a sleeper; so does one that was killed with the mutex pending, until its walk begins. The
/// owner answers if there is one. A walk answers if it has the mutex pending and has still to look at its word, or is
/// about to wake a sleeper. The trace records nothing, and the thread continues like one that woke a sleeper.
pub fn spares_are_lone()
    ensures { SparesAreLone }
{}

/// A deadline that passes takes its thread out of its queue, and changes no word and no other thread. A lock's expiry
/// is recorded as its thread's wake, and then as the call's point; the number of mutexes that the thread owns stays. By
/// its next step the thread clears its pending entry and the call returns ETIMEDOUT; no other word, no queue and no
/// other thread changes. A wait's expiry is recorded as its thread's wake; the wait is out of time, and otherwise
/// continues as if it had been woken.
pub fn expiries_are_lone()
    ensures { ExpiriesAreLone }
{}

/// A lock gets ETIMEDOUT only if, by the trace, another thread owned its mutex at some moment since the call began. So
/// no lock gets it that could have taken the mutex at each moment since it began.
pub fn nobody_times_out_early()
    ensures { NobodyTimesOutEarly }
{}

/// A lock may be out of time if, by the trace, another thread owned its mutex at its begin or at a later moment.
/// Neither the thread itself nor an owner from before the begin counts.
pub fn waited_is_owned()
    ensures { WaitedIsOwned }
{}

/// A wait with a deadline returns ETIMEDOUT only if the deadline passed while it slept on its condition variable, and
/// OK only if it didn't. So, by [`trace_is_explained`], a wait that is out of time returns ETIMEDOUT as its mutex's
/// owner, or the reply of the lock that ends it, if that isn't OK.
pub fn late_waits_time_out()
    ensures { LateWaitsTimeOut }
{}

/// If no deadline passes, no call returns ETIMEDOUT, and all is as if no call had a deadline. If all calls had begun
/// without deadlines, every event would have been noted as it was, except for the operations' names. Each word and each
/// queue would be the same.
pub fn without_expiries_as_before()
    ensures { LocksWithoutLimits }
{}
