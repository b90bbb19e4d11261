//! What tests of a bench share: a team of threads, calls that are known by their replies, steps that are played by
//! turns, a fate that counts, and waiting for one another.
//!
//! It is on `threadbench`. Its contracts say what tests need to go on: that passes are passes of the bench still,
//! of threads that are in no call. Here each is proved once, and tests that call it see no more than that of what the
//! bench promises:
//!
//! ```text
//! static STEPS: [Step; 2] = [
//!     Step::Calls(Who::First, &[Op::OnMutex(Call::Lock(0))], Some(Reply::OK)),
//!     Step::Calls(Who::Second, &[Op::OnMutex(Call::TryLock(0))], Some(Reply::EBUSY)),
//! ];
//!
//! let left = plays(&rt, rt.alloc(), Layout::new(5, 1, &[])?, &[], &STEPS)?;
//! ```
#![tactic(auto)]

mod asked;
mod left;
mod made;
mod played;
mod threads;
mod waits;

pub use asked::Asked;
pub use left::Left;
pub use made::{dies, makes};
pub use played::{Step, Who, plays};
pub use threads::{last_of, team};
pub use waits::{are_asleep, ends_unless, fall_asleep, waits_for};
