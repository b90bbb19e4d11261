//! Laws of the layer. Each is the contract of a function without a body.
ghost use Rattle.slots.specs.Accesses.{AnnouncingRowsAreEvents, AwakeIsCleared, AwakeIsSet};
ghost use Rattle.slots.specs.Accesses.{ClearingRowsAreEvents, ListRowsAreEvents, LooksAreEvents};
ghost use Rattle.slots.specs.Accesses.{MissesAreNoEvents, PendingAgainIsNoEvent, ReleasesAreEvents};
ghost use Rattle.slots.specs.Accesses.{TakesAreEvents, WakesAreEvents};
ghost use Rattle.slots.specs.Alone.{LoneCallsComeToRest};
ghost use Rattle.slots.specs.Deadlines.{NoCallTimesOutEarly};
ghost use Rattle.slots.specs.Each.{EachAccessIsEvents};
ghost use Rattle.slots.specs.Fits.{NextRowsFit};
ghost use Rattle.slots.specs.Premises.{AllHold, HeirsTakeOver, PremisesFollow, RunsKeepCounts, RunsKeepHeirs, RunsKeepOwners, RunsKeepRoom, RunsKeepSlept, RunsKeepTurns, SlotsStayQuiet, WordsStaySound};
ghost use Rattle.slots.specs.Goes.{OthersStandStill, RowsLeadOn, RunsKeepTheirRows};
ghost use Rattle.slots.specs.Goes.{AccessesOfRunsAreEvents, ThreadsKeepTheirRows};
ghost use Rattle.slots.specs.Further.{AnnouncedReleasesAreEvents, CountsAreEvents, DecidingLooksAreEvents};
ghost use Rattle.slots.specs.Further.{FirstLooksAreEvents, MarksAreEvents, MendsAreEvents, MovesAreEvents};
ghost use Rattle.slots.specs.Further.{SleepsAreEvents, SparesAreEvents, TrimsAreEvents};
ghost use Rattle.slots.specs.Heirs.{DeathsLeaveAll, DeathsLeaveHeirs, OthersAnswerStill, OthersLeaveHeirs};
ghost use Rattle.slots.specs.Heirs.{OthersLeaveWhatIsOwned, WalksLeaveAll, WalksLeaveHeirs};
ghost use Rattle.slots.specs.Kernels.{AnyKernelWillDo, RousesNobody, WakesWithoutWaitersWakeNobody};
ghost use Rattle.slots.specs.Laws.{HeirsLetSpare, NobodyJoinsAFreeMutex, ReleasesTell, SlotsRunTheMachine};
ghost use Rattle.slots.specs.Laws.{StandingHeirsAnswer, TrimsAreTheMachines, TurnsStayKnown};
ghost use Rattle.slots.specs.Laws.{TurnsStayKnownByAll, WakesOfNobodyTell};
ghost use Rattle.slots.specs.Stores.{AccessesAreMadeSo, PlainStoresAreOwn, PlainStoresWaitApart, RunsMayBuffer};
ghost use Rattle.slots.specs.Outcomes.{CallsReturnTheirPoints, CountsAreSignals, WrongDeadlinesAreRefused};
ghost use Rattle.slots.specs.Late.{AccessesFindTheSame, LateMemoryTellsTheSame};
ghost use Rattle.slots.specs.Refused.{RefusalsAreTheMachines};
ghost use Rattle.slots.specs.Replies.{CallsAreOneHistory, CallsBeginUndecided, CallsDecideOnce};
ghost use Rattle.slots.specs.Conditions.{BroadcastsReachAll, ConditionCallsAreOurs};
ghost use Rattle.slots.specs.Overdue.{DeadlinesEndSleeps, LateHeirsGiveUp};
ghost use Rattle.slots.specs.Moments.{AccessesAreFew, AnnouncingIsOneStore, GivingUpIsALook, GivingUpLeavesNothing};
ghost use Rattle.slots.specs.Moments.{HeirTakesAreEvents, HeirsGoOn, LastLooksAreEvents, TakesAreOneExchange};
ghost use Rattle.slots.specs.Moments.{TakesAreTheExchange};

/// Everything that happens in the layer is events of the machine, in their order. So each law of `protocol` about what
/// states are, and what runs record, holds of the layer. A law about threads that run alone is about the machine's steps:
/// some accesses are none.
#[tactic(auto, using(crate::proofs::MachineRuns::runs_are))]
pub fn slots_run_the_machine()
    ensures { SlotsRunTheMachine }
{}

/// Whatever happened before, and whatever happens next: a thread that sleeps afterwards on a mutex that nobody owned slept
/// there before.
#[tactic(auto, using(crate::proofs::Free::nobody_joins))]
pub fn nobody_joins_a_free_mutex()
    ensures { NobodyJoinsAFreeMutex }
{}

/// A call that has released a mutex knows the mutex's turn after every event. Either the mutex was taken or reinitialised
/// since, and its turn is higher. Or nobody owns it, and nobody sleeps there if the call's wake woke nobody.
#[tactic(auto, using(crate::proofs::Free::turns_stay))]
pub fn turns_stay_known()
    ensures { TurnsStayKnown }
{}

/// What a call knows of a turn stays known after any number of events.
#[tactic(auto, using(crate::proofs::Free::turns_stay_all))]
pub fn turns_stay_known_by_all()
    ensures { TurnsStayKnownByAll }
{}

/// After a release, nobody owns the mutex, and the word that the release left has the mutex's current turn.
#[tactic(auto, using(crate::proofs::Releases::releases_tell))]
pub fn releases_tell()
    ensures { ReleasesTell }
{}

/// If a wake of one finds nobody asleep, then nobody sleeps there as long as the turn stays.
pub fn wakes_of_nobody_tell()
    ensures { WakesOfNobodyTell }
{}

/// If the exchange that is to clear WAITERS finds the word that the call's release left, then nobody owns the mutex and
/// nobody sleeps on it. So this exchange is the machine's trim, which clears the word.
#[tactic(auto, using(crate::proofs::Trims::trims_are))]
pub fn trims_are_the_machines()
    ensures { TrimsAreTheMachines }
{}

/// A call is about to wake one sleeper, and finds a slot with AWAKE and an owner, without OWNER_DIED. If heirs are as the
/// layer's invariant says, the machine lets the call leave its wake to that owner: it has still to look at the cell's word,
/// or owns the cell, or was killed, and its walk has still to look.
pub fn heirs_let_spare()
    ensures { HeirsLetSpare }
{}

/// A living thread that is where its row says is the heir of each mutex whose slot it owns with AWAKE and without
/// OWNER_DIED. So an invariant has to speak of dead heirs only.
pub fn standing_heirs_answer()
    ensures { StandingHeirsAnswer }
{}

/// Whatever other threads do, an heir stays an heir.
pub fn others_leave_heirs()
    ensures { OthersLeaveHeirs }
{}

/// What a mutex says of its owner stays after an event of another thread. So only its owner changes a slot that is owned.
pub fn others_leave_what_is_owned()
    ensures { OthersLeaveWhatIsOwned }
{}

/// Whatever events a thread makes at one moment, the slots of all other threads that have AWAKE still have heirs.
pub fn others_answer_still()
    ensures { OthersAnswerStill }
{}

/// An heir that is killed is still an heir, since the cell was pending.
pub fn deaths_leave_heirs()
    ensures { DeathsLeaveHeirs }
{}

/// After a death, all slots that have AWAKE still have heirs.
pub fn deaths_leave_all()
    ensures { DeathsLeaveAll }
{}

/// A dead heir stays an heir after each access of its walk while it owns its slot: the slot is on its list, and Linux looks
/// at what was pending after the list.
pub fn walks_leave_heirs()
    ensures { WalksLeaveHeirs }
{}

/// After each access of a dead thread's walk, all slots that have AWAKE still have heirs.
pub fn walks_leave_all()
    ensures { WalksLeaveAll }
{}

/// An heir that has AWAKE set, or is setting it, and hasn't taken the cell is the cell's heir after its next access, whatever
/// that finds: the heir still looks, or it has taken the cell.
pub fn heirs_go_on()
    ensures { HeirsGoOn }
{}

/// The machine's lock gives up a mutex that another thread owns, with WAITERS, by a load, a sleep and a timeout at one moment.
/// Then its own call is decided, and nothing else has changed: no word, no queue and no other thread.
pub fn giving_up_leaves_nothing()
    ensures { GivingUpLeavesNothing }
{}

/// A look after which a lock gives up changes nothing in memory as it is shown: it is a load.
pub fn giving_up_is_a_look()
    ensures { GivingUpIsALook }
{}

/// An access is eight events of the machine at most, whatever it finds.
#[tactic(auto, using(crate::proofs::Few::accesses_few))]
pub fn accesses_are_few()
    ensures { AccessesAreFew }
{}

/// Load and exchange of the machine's lock at one moment, if nobody owns the mutex, change the mutex's word alone, as one
/// exchange does.
pub fn takes_are_one_exchange()
    ensures { TakesAreOneExchange }
{}

/// Load and exchange of the machine's lock are the one exchange that the C library makes: of the cell's word as memory shows
/// it, with its turn, for the same word, taken, with one turn more.
pub fn takes_are_the_exchange()
    ensures { TakesAreTheExchange }
{}

/// A call that has still to clear what it had pending, and a lock that begins then and announces its mutex, change one word
/// at one moment: the pending one. So the C library's one store is these three events.
pub fn announcing_is_one_store()
    ensures { AnnouncingIsOneStore }
{}

/// An heir's exchange that takes the cell is the events that the table has: they leave memory, as it is shown, and the queues
/// as that access does.
#[tactic(auto, using(crate::proofs::OneRow::heir_takes))]
pub fn heir_takes_are_events()
    ensures { HeirTakesAreEvents }
{}

/// An heir's last look is the events that the table has, if it finds that another thread owns the cell, with WAITERS.
#[tactic(auto, using(crate::proofs::OneRow::last_looks))]
pub fn last_looks_are_events()
    ensures { LastLooksAreEvents }
{}

/// A load for which the table has no events changes nothing, whatever it finds and wherever the call continues.
#[tactic(auto, using(crate::proofs::Looks::looks_are))]
pub fn looks_are_events()
    ensures { LooksAreEvents }
{}

/// An exchange that finds another word than it expects, and for which the table has no events, changes nothing.
#[tactic(auto, using(crate::proofs::Looks::misses_are))]
pub fn misses_are_no_events()
    ensures { MissesAreNoEvents }
{}

/// Each load and each store by which a call puts an entry on its thread's list, or takes it off, is one Step of the machine.
#[tactic(auto, using(crate::proofs::OneStep::list_rows))]
pub fn list_rows_are_events()
    ensures { ListRowsAreEvents }
{}

/// The store that clears the pending word at the end of a call is one Step of the machine.
#[tactic(auto, using(crate::proofs::OneStep::clearing_rows))]
pub fn clearing_rows_are_events()
    ensures { ClearingRowsAreEvents }
{}

/// A store of the entry that is pending already changes nothing: after a sleep, and while an heir waits awake.
#[tactic(auto, using(crate::proofs::Again::pending_again))]
pub fn pending_again_is_no_event()
    ensures { PendingAgainIsNoEvent }
{}

/// A wake of one or of all that sleep on a cell is one Step of the machine: by an unlock, by a wait's release, and by a call
/// that has found the mutex unusable. So is a signal's wake of one that sleeps on a counter.
#[tactic(auto, using(crate::proofs::Wakes::wakes_are))]
pub fn wakes_are_events()
    ensures { WakesAreEvents }
{}

/// An heir's exchange that says when it is awake sets AWAKE, and is no event of the machine.
#[tactic(auto, using(crate::proofs::Flags::awake_set))]
pub fn awake_is_set()
    ensures { AwakeIsSet }
{}

/// Clearing AWAKE is no event of the machine: by an heir that has taken the cell or gives up, and by a thread that has taken
/// a marked slot.
#[tactic(auto, using(crate::proofs::Flags::awake_cleared))]
pub fn awake_is_cleared()
    ensures { AwakeIsCleared }
{}

/// An exchange that finds the word that it expects, of a free mutex, is load and exchange of the machine's trylock or lock.
/// So the cell is taken by a lock, a trylock, an heir or the lock that ends a wait, and the slot by a lock.
#[tactic(auto, using(crate::proofs::TakeRows::takes_are))]
pub fn takes_are_events()
    ensures { TakesAreEvents }
{}

/// The release of a cell or of a slot is one Step of the machine: it changes the word that memory shows, with its turn and
/// AWAKE, as it changes the machine's word. So does a release that makes the mutex unusable, and that of a wait.
#[tactic(auto, using(crate::proofs::GiveRows::releases_are))]
pub fn releases_are_events()
    ensures { ReleasesAreEvents }
{}

/// The store that makes an entry pending is the beginning of a trylock or of a lock of the machine, which announces its mutex;
/// and before that the end of the last call, if that has still to clear what it had pending.
#[tactic(auto, using(crate::proofs::Announcing::announcing_rows))]
pub fn announcing_rows_are_events()
    ensures { AnnouncingRowsAreEvents }
{}

/// A store by which an unlock of a cell or of a slot makes its entry pending is several events of the machine: the unlock
/// begins, looks at the mutex's word, finds that its thread is the owner, and announces the mutex. A wait looks at its
/// counter, too.
#[tactic(auto, using(crate::proofs::Releasing::announced_releases))]
pub fn announced_releases_are_events()
    ensures { AnnouncedReleasesAreEvents }
{}

/// A call's first look changes nothing, whatever it finds. If it refuses the call, the machine's thread is in no call
/// afterwards.
#[tactic(auto, using(crate::proofs::Refusals::first_looks))]
pub fn first_looks_are_events()
    ensures { FirstLooksAreEvents }
{}

/// A look of a lock that decides changes nothing, whatever it finds: by a load, or by an exchange that finds another word
/// than it expects. The machine's call looks too; or it sleeps and times out; or it ends, and another begins and looks.
#[tactic(auto, using(crate::proofs::Decisions::deciding_looks))]
pub fn deciding_looks_are_events()
    ensures { DecidingLooksAreEvents }
{}

/// An exchange of a lock that finds the word that it expects, of a mutex that another thread owns, sets WAITERS as the
/// machine's lock does. That lock then sleeps and times out, or is about to sleep. A broadcast sets WAITERS by one Step.
#[tactic(auto, using(crate::proofs::Marking::marks_are))]
pub fn marks_are_events()
    ensures { MarksAreEvents }
{}

/// A sleep on a cell or on a counter is the machine's, whether the word is as expected or not.
#[tactic(auto, using(crate::proofs::Sleeping::sleeps_are))]
pub fn sleeps_are_events()
    ensures { SleepsAreEvents }
{}

/// A broadcast's move of all that sleep on a counter is one Step of the machine.
#[tactic(auto, using(crate::proofs::Moving::moves_are))]
pub fn moves_are_events()
    ensures { MovesAreEvents }
{}

/// After a release, a look at the slot changes nothing, whether it leaves the wake to the heir or not.
#[tactic(auto, using(crate::proofs::Moving::spares_are))]
pub fn spares_are_events()
    ensures { SparesAreEvents }
{}

/// Clearing OWNER_DIED of a cell or of a slot is the machine's consistent, and the exchange that makes a cell usable is its
/// remake.
#[tactic(auto, using(crate::proofs::Mending::mends_are))]
pub fn mends_are_events()
    ensures { MendsAreEvents }
{}

/// The exchange that is to clear WAITERS after a release is the machine's trim, if it finds the word that the release left;
/// if not, the machine declines its trim.
#[tactic(auto, using(crate::proofs::Mending::trims_are_events))]
pub fn trims_are_events()
    ensures { TrimsAreEvents }
{}

/// A store of a counter's word is a count of the machine's signal or broadcast, or sets or clears SLEPT.
#[tactic(auto, using(crate::proofs::Counting::counts_are))]
pub fn counts_are_events()
    ensures { CountsAreEvents }
{}

/// Each access of the C library is the events that the table has for it, at every row, and whatever it finds: memory, as it
/// is shown, and the queues are afterwards what that access makes of them. The row's premises are named.
#[tactic(auto, using(crate::proofs::Each::each_access))]
pub fn each_access_is_events()
    ensures { EachAccessIsEvents }
{}

/// Whatever happens to another thread, a thread is still at its row, and in the machine it is where it was.
pub fn others_stand_still()
    ensures { OthersStandStill }
{}

/// After each access, whatever it finds, the machine's thread is where the next row says. The row's premises are named.
#[tactic(auto, using(crate::proofs::LeadsOn::rows_lead))]
pub fn rows_lead_on()
    ensures { RowsLeadOn }
{}

/// A thread that is at its row is at its row after whatever happens to it, if it lives then: a call, an access, an
/// interruption, a timeout, or a new life. What an access and a timeout assume is named.
#[tactic(auto, using(crate::proofs::Keeping::threads_keep))]
pub fn threads_keep_their_rows()
    ensures { ThreadsKeepTheirRows }
{}

/// After any run whose happenings have what they assume, each thread that lives is where its row says. So when a call ends, its
/// last call of the machine has the same reply, with two exceptions that are named (`specs/Stands.antt`: `RepliesAs`).
#[tactic(auto, using(crate::proofs::AllRows::runs_keep))]
pub fn runs_keep_their_rows()
    ensures { RunsKeepTheirRows }
{}

/// In any run whose happenings have what they assume, each access of a thread that lives and is awake is the events that the
/// table has for it.
#[tactic(auto, using(crate::proofs::AllRows::runs_are_events))]
pub fn accesses_of_runs_are_events()
    ensures { AccessesOfRunsAreEvents }
{}

/// A row's mutex and condition variable are the layout's, and the words that its call has seen say what led the call there.
/// After each access, whatever it finds, this holds of the next row.
#[tactic(auto, using(crate::proofs::FitsOn::next_rows_fit))]
pub fn next_rows_fit()
    ensures { NextRowsFit }
{}

/// In any run, what happenings assume follows from less: rows fit, calls are about their rows' mutexes, sleeps with a deadline
/// are of locks that have been to the slot or have slept, and dead threads are in none of our calls. What is still assumed
/// of an access are two bounds (`specs/Premises.antt`: `Trusts`).
#[tactic(auto, using(crate::proofs::Following::premises_follow))]
pub fn premises_follow()
    ensures { PremisesFollow }
{}

/// In every state of the machine, nothing is above UNUSABLE in the word of a mutex, and an unusable mutex has no OWNER_DIED.
#[tactic(auto, using(crate::proofs::Rooms::words_sound))]
pub fn words_stay_sound()
    ensures { WordsStaySound }
{}

/// In any run, nobody sleeps on a slot: its WAITERS is never set, and it is never unusable.
pub fn slots_stay_quiet()
    ensures { SlotsStayQuiet }
{}

/// In any run, each thread owns the slot and the cell that its row says, marked or not. A lock that has been to the slot
/// doesn't own the cell.
#[tactic(auto, using(crate::proofs::Following::owners_kept))]
pub fn runs_keep_owners()
    ensures { RunsKeepOwners }
{}

/// In any run, a call that has released its mutex in an unlock knows the mutex's turn, up to its trim: the mutex was taken or
/// reinitialised since, or nobody owns it.
#[tactic(auto, using(crate::proofs::Following::turns_kept))]
pub fn runs_keep_turns()
    ensures { RunsKeepTurns }
{}

/// In any run, a thread may own one mutex more when its next access begins a call of the machine that takes one: the cell or
/// the slot, which are two of the machine's.
#[tactic(auto, using(crate::proofs::Following::room_kept))]
pub fn runs_keep_room()
    ensures { RunsKeepRoom }
{}

/// In any run, a call that has seen a counter's word, to wait or to count, has seen it as it is until the call stores it or
/// releases the mutex: a counter changes only by the owner of its mutex.
#[tactic(auto, using(crate::proofs::Following::counts_kept))]
pub fn runs_keep_counts()
    ensures { RunsKeepCounts }
{}

/// In any run, when a signal or a broadcast is about to count and the counter has no SLEPT, nobody sleeps on the counter. So
/// if the call makes no wake, there was nobody to wake.
#[tactic(auto, using(crate::proofs::Following::slept_kept))]
pub fn runs_keep_slept()
    ensures { RunsKeepSlept }
{}

/// In any run, if a slot has AWAKE and an owner, and isn't marked, its owner is the cell's heir: it has still to look at the
/// cell's word, or has taken the cell, or was killed, and Linux has still to look.
pub fn runs_keep_heirs()
    ensures { RunsKeepHeirs }
{}

/// In any run, if a call that has released its mutex finds a slot that shows an heir, the machine lets it leave its wake to
/// that heir.
#[tactic(auto, using(crate::proofs::Following::heirs_over))]
pub fn heirs_take_over()
    ensures { HeirsTakeOver }
{}

/// In any run, each access of a thread that lives and is awake is the events that the table has for it. Two bounds are still
/// assumed (`specs/Premises.antt`: `Trusts`).
#[tactic(auto, using(crate::proofs::Following::all_hold))]
pub fn all_hold()
    ensures { AllHold }
{}

/// In every state of the machine, nobody sleeps on a mutex whose word has no WAITERS, and a wake there changes nothing. Newer
/// kernels' walks make such a wake, at the pending word of a mutex that another thread owns.
pub fn wakes_without_waiters_wake_nobody()
    ensures { WakesWithoutWaitersWakeNobody }
{}

/// If a kernel wakes one that sleeps on a mutex whose word has no WAITERS, nothing changes in the layer.
#[tactic(auto, using(crate::proofs::AnyKernel::rouses_nobody))]
pub fn rouses_nobody()
    ensures { RousesNobody }
{}

/// Whatever happens, and whenever a kernel wakes one that sleeps on a mutex: a run without these wakes leads to the same state.
/// So all laws of runs hold of kernels whose walks make more wakes.
#[tactic(auto, using(crate::proofs::AnyKernel::any_kernel))]
pub fn any_kernel_will_do()
    ensures { AnyKernelWillDo }
{}

/// A call begins undecided, and knows its operation.
#[tactic(auto, using(crate::proofs::Deciding::begins_called))]
pub fn calls_begin_undecided()
    ensures { CallsBeginUndecided }
{}

/// In any run, whatever the next access of a call finds, the access is the call's point or does nothing. A call has one point,
/// of its own operation and mutex, and is decided from then on. A wait unlocks its mutex before. A lock whose deadline isn't a
/// time may be refused without a point.
pub fn calls_decide_once()
    ensures { CallsDecideOnce }
{}

/// In any run, the points of the C library's calls, with the replies that the calls return, and the deaths that Linux marks are
/// one legal history from free mutexes. After it, each mutex is as its cell says.
#[tactic(auto, using(crate::proofs::OneHistory::one_history))]
pub fn calls_are_one_history()
    ensures { CallsAreOneHistory }
{}

/// Each access is a load, a plain store, a locked instruction or a call to Linux, as its row says, whatever it finds.
#[tactic(auto, using(crate::proofs::PlainStores::accesses_made_so))]
pub fn accesses_are_made_so()
    ensures { AccessesAreMadeSo }
{}

/// In any run, each plain store is of the thread's own head, of a link of a mutex that it owns, or of a counter whose mutex it
/// owns. If it is of a counter, the count stays, or no wait that has released its mutex has seen it.
#[tactic(auto, using(crate::proofs::OwnStores::own_stores))]
pub fn plain_stores_are_own()
    ensures { PlainStoresAreOwn }
{}

/// In any run, the plain stores of a thread since its last locked instruction are at places that are still the thread's own: none
/// is at a cell or a slot, or at a place of another thread. A dead thread's stores don't wait.
#[tactic(auto, using(crate::proofs::Waiting::wait_apart))]
pub fn plain_stores_wait_apart()
    ensures { PlainStoresWaitApart }
{}

/// In any run, the machine's stores may wait in buffers, and reach memory at any moment: with all that waits, memory is the
/// layer's machine. In memory, mutexes and counters are as the layer shows them, and only a thread's own words wait.
pub fn runs_may_buffer()
    ensures { RunsMayBuffer }
{}

/// In any run, whenever plain stores reach memory, a load finds what the layer shows, of each cell and slot, of the
/// thread's own words, and of counters whose mutex it owns. In memory, cells and slots are always as the layer shows
/// them.
#[tactic(auto, using(crate::proofs::LateRuns::late_same))]
pub fn late_memory_tells_the_same()
    ensures { LateMemoryTellsTheSame }
{}

/// In any run, each access but two finds its word as the layer shows it, whenever plain stores reach memory. The two are of a
/// wait that has released its mutex: Linux compares the count, and a late wait looks at the counter.
#[tactic(auto, using(crate::proofs::LateAccesses::find_the_same))]
pub fn accesses_find_the_same()
    ensures { AccessesFindTheSame }
{}

/// In any run, only calls with a deadline return ETIMEDOUT, and only after it has passed: in a sleep, or as a clock said when
/// an heir asked. A lock returns ETIMEDOUT only if another thread has owned the mutex since the call began.
pub fn no_call_times_out_early()
    ensures { NoCallTimesOutEarly }
{}

/// In any run, a call returns the reply of its only point, except for waits, wrong deadlines and reinits of usable
/// mutexes. The point is of the call's own operation. A wait that isn't refused has two: it unlocks its mutex, and
/// later locks it again. It returns what that lock got, or ETIMEDOUT for OK, if its deadline passed in its sleep and
/// no signal and no broadcast had come since the unlock when it went on. A lock whose deadline passes in its sleep
/// returns ETIMEDOUT. A lock whose deadline isn't a time may return EINVAL without a point. A reinit of a usable mutex
/// has neither a point nor a reply.
#[tactic(auto, using(crate::proofs::Outcomes::return_points))]
pub fn calls_return_their_points()
    ensures { CallsReturnTheirPoints }
{}

/// In any run, a count rises by one at a signal and at a broadcast of its condition variable, and stays at everything
/// else.
#[tactic(auto, using(crate::proofs::Signals::counts_signals))]
pub fn counts_are_signals()
    ensures { CountsAreSignals }
{}

/// In any run, a lock whose deadline isn't a time never waits. If an access refuses a call that then has no point, the call is
/// such a lock, another thread owns the mutex, and the call returns EINVAL.
#[tactic(auto, using(crate::proofs::Outcomes::wrong_refused))]
pub fn wrong_deadlines_are_refused()
    ensures { WrongDeadlinesAreRefused }
{}

/// In any run, a call that is decided at its first look is a whole call of the machine, with the same point: of the same
/// thread and operation on the mutex's cell, with the same reply, and of the same condition variable. So the machine's
/// history has each refused call.
#[tactic(auto, using(crate::proofs::Refused::refusals_are))]
pub fn refusals_are_the_machines()
    ensures { RefusalsAreTheMachines }
{}

/// In any run, if a thread sleeps in a call with a deadline, it doesn't sleep any more when that passes. The lock that ends
/// a wait has no deadline.
#[tactic(auto, using(crate::proofs::Overdue::sleeps_end))]
pub fn deadlines_end_sleeps()
    ensures { DeadlinesEndSleeps }
{}

/// In any run, an heir whose clock says that its deadline has passed doesn't watch on. If its last look finds that another
/// thread owns the mutex, it times out.
#[tactic(auto, using(crate::proofs::Overdue::heirs_give_up))]
pub fn late_heirs_give_up()
    ensures { LateHeirsGiveUp }
{}

/// In any run, when a broadcast returns OK, nobody sleeps on its condition variable any more.
pub fn broadcasts_reach_all()
    ensures { BroadcastsReachAll }
{}

/// In any run, a call of the machine on a condition variable has the operation and the condition variable of the library's
/// call. A wait has a deadline just if the library's has one.
#[tactic(auto, using(crate::proofs::Conditions::calls_are_ours))]
pub fn condition_calls_are_ours()
    ensures { ConditionCallsAreOurs }
{}

/// After any run, a lone call returns or sleeps after at most 63 accesses, and 63 more for each look again. A clock or
/// a hint asks for these looks, or keeps an heir from a free mutex.
#[tactic(auto, using(crate::proofs::LoneCalls::lone_calls))]
pub fn lone_calls_come_to_rest()
    ensures { LoneCallsComeToRest }
{}
