//! The protocol of robust mutexes as a pure machine, and what holds of every run of it.
//!
//! A state is the words, who sleeps on each, and for each thread the call that it is in. An [`Event`] begins a call,
//! makes its next access, kills a thread, takes a sleeper out of its queue, lets the time limit of a lock or a wait
//! come, declines a trim, renews a reaped thread or reinitialises an unusable mutex; `specs/` says what each event
//! does and notes ([`Note`]), and a trace is what the notes tell ([`Note::facts`]). The theorems about every run,
//! wherever threads are killed and renewed, and mutexes reinitialised:
//!
//! - `promises_are_kept`: what README promises, in one record; the other laws stand under it;
//! - `history_is_legal`: the points and the deaths are one legal history of POSIX robust mutexes;
//! - `trace_is_explained`, `events_apply`: each call has its points and returns their reply, and no event is passed
//!   over;
//! - `no_reaped_owner`, `deaths_are_told`, `lists_are_kept`: what a dead thread owned is found, marked and told, once;
//! - `no_sleeper_is_stranded`, `lone_threads_come_to_rest`, `undivided_calls_reply`: what threads do alone comes to an
//!   end;
//! - `sleeps_are_told`, `waiters_are_kept`: who sleeps where, and WAITERS in the word while somebody does;
//! - `wakes_are_right`: whom an event wakes or moves;
//! - `leaves_and_declines_are_lone`, `without_leaves_as_before`: what sleepers that leave and trims that are declined
//!   do;
//! - `expiries_are_lone`, `nobody_times_out_early`, `waited_is_owned`, `late_waits_time_out`,
//!   `without_expiries_as_before`: what a time limit does that comes; that a lock is out of time only where one came and
//!   another thread owned its mutex since it began; that a wait returns ETIMEDOUT only where its limit came, and OK only
//!   where it didn't; and that locks and waits with a limit that never comes are as those without one;
//! - `renewals_begin_anew`, `without_renewals_as_before`: what a reaped thread that lives again finds, and leaves as
//!   it is;
//! - `remakes_forget_nobody`, `without_reinits_as_before`, `nobody_joins_an_unusable_mutex`: what it is to make an
//!   unusable mutex as new, and that nothing else does;
//! - `only_locks_and_waits_wait`: the other calls return in time, whatever others do;
//! - `events_leave_the_rest`: what an event may change;
//! - `nobody_is_passed_by`, `signals_are_right`, `counters_count_up`, `waits_release_consistent_mutexes`: of condition
//!   variables.
//!
//! Depends on `mutex` and `condvar`, for the calls' programs, on `robustlist` and `exitwalk`, for lists and the walk
//! over them, on `memorymap`, `stepprograms` and `posixmutex`, for layouts, accesses and histories, on `buckets`, for
//! who is woken or moved, on `facts`, for what notes tell, and on `lockword`, for cells and replies.
//!
//! ```text
//! // Thread 1 begins a lock, announces the mutex, loads its cell, takes it, and dies before it has linked the entry.
//! let lock = Op::OnMutex(Call::Lock(0));
//! let schedule = [
//!     Event::Begin(first, lock),
//!     Event::Step(first),
//!     Event::Step(first),
//!     Event::Step(first),
//!     Event::Kill(first),
//! ];
//! // `interleave` runs it. The fourth note is a `Note::Stepped` whose point says that the lock was decided with OK,
//! // the fifth `Note::Killed`. From then on the thread's steps are the kernel's walk, which finds the mutex pending:
//! // `Note::Walked`.
//! ```
#![tactic(auto)]

mod event;
mod laws;
mod note;
mod thread;

pub use event::{Event, LeftTo};
pub use laws::{
    counters_count_up, deaths_are_told, events_apply, events_leave_the_rest, expiries_are_lone,
    history_is_legal, late_waits_time_out, leaves_and_declines_are_lone, lists_are_kept,
    lone_threads_come_to_rest, no_reaped_owner, no_sleeper_is_stranded, nobody_is_passed_by,
    nobody_joins_an_unusable_mutex, nobody_times_out_early, only_locks_and_waits_wait,
    promises_are_kept, remakes_forget_nobody, renewals_begin_anew, signals_are_right,
    sleeps_are_told, spares_are_lone, trace_is_explained, undivided_calls_reply, waited_is_owned,
    waiters_are_kept, waits_release_consistent_mutexes, wakes_are_right, walks_go_on,
    without_expiries_as_before, without_leaves_as_before, without_reinits_as_before,
    without_renewals_as_before,
};
pub use note::{Facts, Note};
pub use thread::{Stage, Thread};
