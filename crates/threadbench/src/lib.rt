//! Real threads at work on shared words.
//!
//! A [`Bench`] has the words of a layout, 256 futex hash buckets, each with a lock of its own, and a place to sleep
//! for each thread. [`Bench::lock`] sleeps while another thread owns the mutex, and [`Bench::pay`] wakes those that a
//! release has to wake, and trims the word where there is nobody. [`Bench::wait`] sleeps on a condition variable's
//! counter; [`Bench::signal`] wakes a sleeper of it, and [`Bench::broadcast`] moves them all to the mutex's cell. Under
//! a bucket's lock they do what the machine's kernel does there, as far as the contracts say (`docs/TESTED.md` has what
//! is only tested). A call speaks of words by the addresses that its thread's process has for them; sleepers meet by
//! places.
//!
//! [`Bench::work`] runs one worker for each [`Job`] that has calls, all of them at once, and joins them: each makes its
//! job's calls, on mutexes and on condition variables, in their order, as far as a [`Gate`] lets it, and its [`Record`]
//! has their replies. So a caller works a phase at a time. Workers begin once each has its thread; where one can't be
//! made none begins, and the jobs are given back. The thread of a job with a `die` number dies before its access with
//! that number, and its list is walked as the kernel does it ([`Bench::exit`]). A thread that was reaped may live
//! again ([`Bench::renew`]).
//!
//! A call that may wait promises only what holds if it returns: nothing is claimed of when a sleeper is woken, nor that
//! a mutex is ever had.
#![tactic(auto)]

mod begins;
mod bench;
mod calls;
mod condition;
mod condition_section;
mod countdown;
mod ending;
mod exit;
mod gate;
mod hand;
mod job;
mod kill;
mod killing;
mod numbered;
mod parker;
mod parking;
mod phase;
mod renewal;
mod room;
mod section;
mod sleep;
mod starting;
mod work;
mod worker;

pub use bench::Bench;
pub use gate::{Gate, Open, WorkerCall};
pub use job::{Job, Record, WorkerPass};
