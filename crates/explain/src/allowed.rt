//! The replies that a mutex allows.

ghost use Rattle.std.specs.Prelude.{◌≡◌, ◌++◌, ◌||◌, false, IfOk, OnOk};
ghost use Rattle.lockword.specs.Replies.{all_replies};
ghost use Rattle.explain.specs.Allowed.{AllowedArePermitted, allowed_text, allowed_words, allows, before_reply};
ghost use Rattle.explain.specs.Allowed.{behind_replies, end_words, reply_words, standing_of, unanswered};
ghost use Rattle.posixmutex.specs.Histories.{is_thread};

use crate::explanation::Standing;
use lockword::{Reply, Tid};
use posixmutex::{Object, Operation};
use reasons::add;
use std::alloc::AllocError;

/// Every reply, in the order of their numbers.
fn replies() -> &'static [Reply]
    ensures { result.now ≡ all_replies }
{
    &[
        Reply::OK,
        Reply::EPERM,
        Reply::ESRCH,
        Reply::EAGAIN,
        Reply::EFAULT,
        Reply::EBUSY,
        Reply::EINVAL,
        Reply::EDEADLK,
        Reply::ETIMEDOUT,
        Reply::EOWNERDEAD,
        Reply::ENOTRECOVERABLE,
        Reply::XNOMEM,
        Reply::XRACED,
        Reply::XHELD,
        Reply::XFULL,
        Reply::XSTATE,
    ]
}

/// Whether the thread owns the mutex.
fn owns(object: &Object, thread: Tid) -> bool
    ensures { result ≡ is_thread thread object.now.owner }
{
    match object.owner {
        None => false,
        Some(owner) => owner == thread,
    }
}

/// How the mutex stands to the thread.
pub fn standing_of(object: &Object, thread: Tid) -> Standing
    ensures value { result ≡ standing_of object.now thread }
    ensures allowed { AllowedArePermitted object.now thread result }
{
    Standing {
        owns: owns(object, thread),
        free: object.owner.is_none(),
        inconsistent: object.inconsistent,
        unusable: object.unusable,
    }
}

/// Whether a lock may have this reply.
fn allows_lock(standing: Standing, reply: Reply) -> bool
    ensures { result ≡ allows standing Operation.Lock reply }
{
    let free = standing.free && !standing.unusable;
    match reply {
        Reply::OK => free && !standing.inconsistent,
        Reply::EOWNERDEAD => free && standing.inconsistent,
        Reply::ENOTRECOVERABLE => standing.unusable,
        Reply::EDEADLK => standing.owns,
        _ => false,
    }
}

/// Whether a trylock may.
fn allows_trylock(standing: Standing, reply: Reply) -> bool
    ensures { result ≡ allows standing Operation.TryLock reply }
{
    let free = standing.free && !standing.unusable;
    match reply {
        Reply::OK => free && !standing.inconsistent,
        Reply::EOWNERDEAD => free && standing.inconsistent,
        Reply::ENOTRECOVERABLE => standing.unusable,
        Reply::EBUSY => !standing.free,
        Reply::XRACED => free,
        _ => false,
    }
}

/// Whether a consistent may.
fn allows_consistent(standing: Standing, reply: Reply) -> bool
    ensures { result ≡ allows standing Operation.Consistent reply }
{
    match reply {
        Reply::OK => standing.owns && standing.inconsistent,
        Reply::EINVAL => standing.owns && !standing.inconsistent,
        Reply::EPERM => !standing.owns,
        _ => false,
    }
}

/// Whether a wait may.
fn allows_wait(standing: Standing, reply: Reply) -> bool
    ensures { result ≡ allows standing Operation.Wait reply }
{
    match reply {
        Reply::XSTATE => standing.owns && standing.inconsistent,
        Reply::EPERM => !standing.owns,
        _ => false,
    }
}

/// Whether a signal or a broadcast may.
fn allows_signal(standing: Standing, reply: Reply) -> bool
    ensures signal { result ≡ allows standing Operation.Signal reply }
    ensures broadcast { result ≡ allows standing Operation.Broadcast reply }
{
    match reply {
        Reply::OK | Reply::XFULL => standing.owns,
        Reply::EPERM => !standing.owns,
        _ => false,
    }
}

/// Whether an unlock may.
fn allows_unlock(standing: Standing, reply: Reply) -> bool
    ensures { result ≡ allows standing Operation.Unlock reply }
{
    match reply {
        Reply::OK => standing.owns,
        Reply::EPERM => !standing.owns,
        _ => false,
    }
}

/// Whether the operation of a thread that holds fewer mutexes than it may can have this reply, where the mutex stands
/// so to the thread.
fn allows(standing: Standing, operation: Operation, reply: Reply) -> bool
    ensures { result ≡ allows standing operation reply }
{
    match operation {
        Operation::Lock => allows_lock(standing, reply),
        Operation::TryLock => allows_trylock(standing, reply),
        Operation::TimedLock => reply == Reply::ETIMEDOUT,
        Operation::Unlock => allows_unlock(standing, reply),
        Operation::Consistent => allows_consistent(standing, reply),
        Operation::Wait => allows_wait(standing, reply),
        Operation::TimedWait => false,
        Operation::Signal | Operation::Broadcast => allows_signal(standing, reply),
        Operation::Death => reply == Reply::OK && standing.owns,
        Operation::Reinit => reply == Reply::OK && standing.free && standing.unusable,
    }
}

/// What comes before a reply, where another one was said or none.
fn before_reply(told: bool) -> &'static str
    ensures { result.now ≡ before_reply told }
{
    if told { " or " } else { " may reply " }
}

/// What such an operation does where it has no reply.
fn unanswered(operation: Operation) -> &'static str
    ensures { result.now ≡ unanswered operation }
{
    match operation {
        Operation::Lock => " sleeps",
        Operation::Wait => " isn't refused",
        Operation::TimedWait => " has no point of its own",
        _ => " has no reply",
    }
}

/// What comes after the replies: a time limit may come only after another's ownership, which this mutex needn't show
/// any more, and a lock whose limit doesn't come is named as a lock without one; a wait with a limit is named as a wait.
fn behind_replies(operation: Operation) -> &'static str
    ensures { result.now ≡ behind_replies operation }
{
    match operation {
        Operation::TimedLock => {
            " where another thread owned the mutex since the call began, and else its point is a `lock`\n"
        }
        Operation::TimedWait => ": its first is a `wait` or an `unlock`\n",
        _ => " here\n",
    }
}

/// Adds the reply, if it is allowed, and returns whether one was said up to there.
fn add_reply(
    text: &mut Vec<u8>,
    standing: Standing,
    operation: Operation,
    told: bool,
    reply: Reply,
) -> Result<bool, AllocError>
    ensures text { OnOk result (text.new.items ≡ text.old.items ++ reply_words standing operation told reply) }
    ensures told { IfOk result (λ b. b ≡ (told || allows standing operation reply)) }
{
    if !allows(standing, operation, reply) {
        return Ok(told);
    }
    add(text, &[before_reply(told), reply.name()])?;
    Ok(true)
}

/// Says that there is none, if none was said.
fn add_end(text: &mut Vec<u8>, operation: Operation, told: bool) -> Result<(), AllocError>
    ensures { OnOk result (text.new.items ≡ text.old.items ++ end_words operation told) }
{
    if told {
        Ok(())
    } else {
        add(text, &[unanswered(operation)])
    }
}

/// The replies that the mutex allows the operation, or that there is none.
fn add_replies(
    text: &mut Vec<u8>,
    standing: Standing,
    operation: Operation,
) -> Result<(), AllocError>
    ensures { OnOk result (text.new.items ≡ text.old.items ++ allowed_words standing operation false all_replies) }
{
    let replies = replies();
    let mut told = false;
    for reply in replies {
        let now = add_reply(text, standing, operation, told, *reply)?;
        told = now;
    }
    add_end(text, operation, told)?;
    Ok(())
}

/// What the mutex, as it is, allows the thread's operation.
pub fn add_allowed(
    text: &mut Vec<u8>,
    standing: Standing,
    operation: Operation,
) -> Result<(), AllocError>
    ensures { OnOk result (text.new.items ≡ text.old.items ++ allowed_text standing operation) }
{
    add(text, &["  = ", operation.word()])?;
    add_replies(text, standing, operation)?;
    add(text, &[behind_replies(operation)])
}
