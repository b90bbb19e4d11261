//! The robust mutex as POSIX sees it, with no bits.
//!
//! An [`Object`] is who owns the mutex, whether its state is inconsistent, and whether it is unusable. [`Object::step`]
//! says for each [`Operation`] and reply whether it may come, and what it leaves. Laws in plain words are above that
//! table: a step leaves no choice (`steps_are_determined`); whoever doesn't own a mutex changes it only by taking a
//! free one, or by reinitialising an unusable one (`changes_have_reasons`); each reply has its reason
//! (`replies_have_reasons`) and may come where it has it (`reasons_suffice`), X_HELD exactly its own
//! (`limit_is_exact`); and no call goes without one that could have it (`calls_are_answered`). A [`Point`] is the step
//! at which a call takes effect; a [`Decision`] is a point as traces tell it. `specs/Histories.antt` says which lists
//! of them are legal. An operation's word is read back as that operation (`operations_are_read_back`).
//!
//! Depends on `lockword`, for thread ids, replies and what cells say, and on `thiserror`, for the message of what is
//! refused.
//!
//! ```text
//! let first = Tid::new(1).ok_or("no thread 1")?;
//! let second = Tid::new(2).ok_or("no thread 2")?;
//! // Who locks a mutex whose owner died isn't told OK.
//! let locked = Object::new().step(0, first, Operation::Lock, Reply::OK).ok_or("not locked")?;
//! let left = locked.step(1, first, Operation::Death, Reply::OK).ok_or("not left")?;
//! assert_eq!(rt; left.step(0, second, Operation::Lock, Reply::OK), None);
//! ```
#![tactic(auto)]

mod object;
mod point;

pub use object::{
    HELD_LIMIT, Object, calls_are_answered, changes_have_reasons, limit_is_exact, reasons_suffice,
    replies_have_reasons, steps_are_determined,
};
pub use point::{Decision, Operation, ParseOperationError, Point, operations_are_read_back};
