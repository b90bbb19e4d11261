//! The words of running threads.
//!
//! Callers' own threads call these mutexes at the same time. [`Words`] are the shared words, and each thread steps on
//! them with its one [`Pass`]. Contracts say what a pass has *seen*: of each mutex a legal history, which grows with
//! each call by the call's own point, and by other threads' points before it. Two passes that meet ([`Words::meet`])
//! have *joined* what they saw, and so have all that meet at once ([`Words::meet_all`]); calls after a meeting stand
//! after those before it ([`meetings_order_calls`]). The calls run the same step programs ([`mutex`]) as the machine
//! does. Each thread keeps its robust list in words that it alone writes: between its calls, of just the mutexes that
//! it holds; and wherever it dies, the kernel would find them all. A thread that was reaped may live again
//! ([`Pass::renew`]): its id is used again, with an empty list, and what its pass has seen goes on. Whoever lets
//! threads sleep runs a call itself, turn by turn ([`Running`]; on a condition variable [`CondRunning`]), and first in one
//! straight line, where nobody crosses it ([`Running::lock`], [`Running::unlock`]).
//!
//! Nothing is claimed of the order between passes that never met, nor that a trylock is ever won.
#![tactic(auto)]

mod access;
mod away;
mod calls;
mod close;
mod condition;
mod counter;
mod fate;
mod laws;
mod meeting;
mod open;
mod pass;
mod renewal;
mod rule;
mod running;
mod step;
mod turn;
mod uncrossed;
mod walk;

pub use counter::CounterWord;
pub use fate::{Fate, Never, either_stops};
pub use laws::{heads_and_mutexes_lie_apart, meetings_order_calls};
pub use pass::{Card, Dead, EitherPass, Last, Live, Pass, Reaped, Spent, Words};
pub use turn::{
    CondRunning, CondTurn, Outcome, Owed, Reaping, Released, Running, Stretch, Turn, Wakes, Walked,
};
pub use uncrossed::{Crossing, Straight};
