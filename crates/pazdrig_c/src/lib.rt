//! The step programs of calls on robust mutexes and condition variables, and of the walk over a dead thread's list, for
//! programs in C.
//!
//! `include/pz_steps.h` declares these functions and says what each is for. A call in progress is a plain struct of
//! numbers. [`pz_begin`] tells its first access; whoever runs it makes that access on its own shared memory, and hands
//! the answer to [`pz_step`], which tells the next access, or that the call has returned. So which access comes next,
//! where each answer leads, and which reply a call returns, is proved; who makes the accesses is trusted. No function
//! touches memory but the structs it is given, and no caller in C can be held to a `requires`: numbers that no call has
//! are answered 2, and nothing is written then.
//!
//! A plan ([`pz_plan_lock`], [`pz_plan_unlock`]) is a whole call in one go, where nobody is in the way: the laws
//! [`locks_by_plan`] and [`unlocks_by_plan`] say that it makes the accesses of the step program. Of short calls, those
//! that what they load decides ([`pz_plan_signal`], [`pz_plan_broadcast`], [`pz_plan_consistent`],
//! [`pz_plan_refusal`]), [`signals_by_plan`], [`broadcasts_by_plan`], [`declares_by_plan`] and [`refusals_by_plan`] say
//! so. A lock may be out of time ([`pz_expire`]) where it looks or sleeps, and nowhere else ([`only_sleepers_expire`]).
//!
//! Depends on `mutex`, `condvar` and `exitwalk`, whose programs these are, on `stepprograms` for accesses, on
//! `memorymap` and `posixmutex` for addresses and points, and on `lockword` for replies.
//!
//! ```text
//! struct pz_call call = {.head = head, .entry = entry, .cell = cell, .thread = 3};
//! struct pz_access access;
//! int state = pz_begin(&call, &access, PZ_OP_LOCK);
//! while (state == PZ_GOES) {
//!     uint64_t value = 0;
//!     uint32_t answer = make(&access, &value);        /* loads, stores, exchanges, sleeps */
//!     state = pz_step(&call, &access, answer, value);
//! }
//! return call.phase.lock.reply;                         /* 0, EOWNERDEAD, .. */
//! ```
#![tactic(auto)]

mod access;
mod calls;
mod laws;
mod plans;
mod running;
mod shorts;
mod structs;
mod walks;

pub use laws::{
    broadcasts_by_plan, declares_by_plan, locks_by_plan, only_sleepers_expire, refusals_by_plan,
    signals_by_plan, unlocks_by_plan,
};
