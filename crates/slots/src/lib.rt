//! The calls of the C library as calls of the protocol's machine.
//!
//! Each mutex of the library is two of the machine's, a cell and a slot (`specs/Places.antt`). The library's calls are a
//! table: for each row, it has the access to a shared word that the C library makes, the events of the machine that this
//! access is, and the next row (`specs/Rows.antt`, `specs/Table.antt`, with `specs/Words.antt` and `specs/Seen.antt`). All
//! these events are of the same thread, and happen at the moment of the access. Memory shows the machine's words with a turn
//! above them, and AWAKE in a slot (`specs/Shown.antt`). What can happen between accesses is in `specs/Runs.antt`.
//!
//! - *Runs*: `slots_run_the_machine`, so every law of `protocol` holds here.
//! - *Rows whose access is their events*: loads without events (`looks_are_events`), a call's first look
//!   (`first_looks_are_events`), looks of locks that decide (`deciding_looks_are_events`), an heir's last look
//!   (`last_looks_are_events`), and a look at the slot after a release (`spares_are_events`); exchanges that find another
//!   word, without events (`misses_are_no_events`), that take (`takes_are_events`, `heir_takes_are_events`), that set
//!   WAITERS (`marks_are_events`) and that are to clear it (`trims_are_events`); releases (`releases_are_events`);
//!   consistent and reinit (`mends_are_events`); accesses of a thread's list (`list_rows_are_events`); stores of the
//!   pending word (`announcing_rows_are_events`, `announced_releases_are_events`, `clearing_rows_are_events`,
//!   `pending_again_is_no_event`); sleeps (`sleeps_are_events`), wakes (`wakes_are_events`) and moves
//!   (`moves_are_events`); counters (`counts_are_events`); AWAKE (`awake_is_set`, `awake_is_cleared`).
//! - *Runs of the layer*: `others_stand_still`, `rows_lead_on`, `threads_keep_their_rows`,
//!   `runs_keep_their_rows`, `accesses_of_runs_are_events`; `next_rows_fit`, and so `premises_follow`: what rows assume of
//!   their mutexes and of the words that they have seen. `words_stay_sound`: the machine's words of mutexes.
//!   `slots_stay_quiet`, `runs_keep_owners`, `runs_keep_turns`, `runs_keep_room`, `runs_keep_counts`, `runs_keep_slept`,
//!   `runs_keep_heirs`: slots, who owns what, turns, how many mutexes a thread owns, counters and who sleeps there, and
//!   heirs, to whom wakes are left (`heirs_take_over`). So `all_hold`: each access of a run is its events.
//! - *Replies* (`specs/Replies.antt`): `calls_begin_undecided`, `calls_decide_once`: each call takes effect at one access,
//!   its point. `calls_are_one_history`: the points and the deaths that Linux marks are one legal history.
//!   `calls_return_their_points` (`specs/Outcomes.antt`): a call returns its point's reply, and a late wait ETIMEDOUT for OK;
//!   `counts_are_signals`: counts rise by signals and broadcasts. `refusals_are_the_machines` (`specs/Refused.antt`): a first
//!   look that decides its call is a whole call of the machine.
//! - *Condition variables* (`specs/Conditions.antt`): `broadcasts_reach_all`: nobody sleeps on after a broadcast;
//!   `condition_calls_are_ours`: the machine's calls are of the same kind.
//! - *Deadlines* (`specs/Deadlines.antt`): `no_call_times_out_early`; `wrong_deadlines_are_refused` (`specs/Outcomes.antt`): a
//!   lock whose deadline isn't a time never waits. `deadlines_end_sleeps`, `late_heirs_give_up` (`specs/Overdue.antt`).
//! - *Progress* (`specs/Alone.antt`): `lone_calls_come_to_rest`.
//! - *Several events at one moment*: `accesses_are_few`, `giving_up_leaves_nothing`, `giving_up_is_a_look`, `takes_are_one_exchange`,
//!   `takes_are_the_exchange`, `announcing_is_one_store`.
//! - *Newer kernels*, whose walks make one more wake: `wakes_without_waiters_wake_nobody`, `rouses_nobody`,
//!   `any_kernel_will_do`.
//! - *Store buffers* (x86-TSO, `specs/Stores.antt`): `accesses_are_made_so`, by loads, plain stores, locked instructions and
//!   calls to Linux; `plain_stores_are_own`, `plain_stores_wait_apart`: of the thread's own words, and of counters whose
//!   mutex it owns; `runs_may_buffer`: the machine's stores may wait. `late_memory_tells_the_same` and
//!   `accesses_find_the_same` (`specs/Late.antt`): what accesses find while plain stores of the layer wait.
//! - *The turn*: `trims_are_the_machines`, with `releases_tell`, `wakes_of_nobody_tell`, `turns_stay_known`,
//!   `turns_stay_known_by_all` and `nobody_joins_a_free_mutex`.
//! - *The heir*: `heirs_let_spare`. `standing_heirs_answer` says which threads are heirs. Heirs stay heirs: `heirs_go_on`,
//!   `others_leave_heirs`, `others_leave_what_is_owned`, `others_answer_still`, `deaths_leave_heirs`, `deaths_leave_all`,
//!   `walks_leave_heirs`, `walks_leave_all`.
//!
//! So each access is its events, at every row, and whatever it finds: `each_access_is_events`. The laws of rows name what
//! they assume: where the machine's thread is (`specs/Stands.antt`), what its call knows, and what a word doesn't have
//! (`specs/Each.antt`). All of this is so in every run, except for two bounds (`premises_follow`, `all_hold`,
//! `specs/Premises.antt`; `UNPROVED.md`).
#![tactic(auto)]

mod laws;

pub use laws::{
    accesses_are_few, accesses_are_made_so, accesses_find_the_same, accesses_of_runs_are_events,
    all_hold, announced_releases_are_events, announcing_is_one_store, announcing_rows_are_events,
    any_kernel_will_do, awake_is_cleared, awake_is_set, broadcasts_reach_all,
    calls_are_one_history, calls_begin_undecided, calls_decide_once, calls_return_their_points,
    clearing_rows_are_events, condition_calls_are_ours, counts_are_events, counts_are_signals,
    deadlines_end_sleeps, deaths_leave_all, deaths_leave_heirs, deciding_looks_are_events,
    each_access_is_events, first_looks_are_events, giving_up_is_a_look, giving_up_leaves_nothing,
    heir_takes_are_events, heirs_go_on, heirs_let_spare, heirs_take_over, last_looks_are_events,
    late_heirs_give_up, late_memory_tells_the_same, list_rows_are_events, lone_calls_come_to_rest,
    looks_are_events, marks_are_events, mends_are_events, misses_are_no_events, moves_are_events,
    next_rows_fit, no_call_times_out_early, nobody_joins_a_free_mutex, others_answer_still,
    others_leave_heirs, others_leave_what_is_owned, others_stand_still, pending_again_is_no_event,
    plain_stores_are_own, plain_stores_wait_apart, premises_follow, refusals_are_the_machines,
    releases_are_events, releases_tell, rouses_nobody, rows_lead_on, runs_keep_counts,
    runs_keep_heirs, runs_keep_owners, runs_keep_room, runs_keep_slept, runs_keep_their_rows,
    runs_keep_turns, runs_may_buffer, sleeps_are_events, slots_run_the_machine, slots_stay_quiet,
    spares_are_events, standing_heirs_answer, takes_are_events, takes_are_one_exchange,
    takes_are_the_exchange, threads_keep_their_rows, trims_are_events, trims_are_the_machines,
    turns_stay_known, turns_stay_known_by_all, wakes_are_events, wakes_of_nobody_tell,
    wakes_without_waiters_wake_nobody, walks_leave_all, walks_leave_heirs, words_stay_sound,
    wrong_deadlines_are_refused,
};
