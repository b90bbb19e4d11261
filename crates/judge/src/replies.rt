//! Which replies a return could have told.

ghost use Rattle.std.specs.Prelude.{◌≡◌, true, [], ◌∷◌, ◌++◌, IfOk, if◌then◌else◌};
ghost use Rattle.histories.specs.Reading.{IsHead};
ghost use Rattle.judge.specs.Judgements.{ArePossible, AreSome, CouldBeTold, IsWithReturn};
ghost use Rattle.judge.specs.Replies.{replies_of};
ghost use Rattle.certificates.specs.Certificates.{whose};

use crate::certificate::has_certificate;
use crate::reason::{Reason, whose};
use facts::Fact;
use histories::{Entry, Head, HistoryLine};
use lockword::Reply;
use posixmutex::Operation;
use std::alloc::{AllocError, Global};

/// The replies that a call of this operation may have, in the order of their numbers.
fn replies_of(operation: Operation) -> &'static [Reply]
    ensures { result.now ≡ replies_of operation }
{
    match operation {
        Operation::Lock => &[
            Reply::OK,
            Reply::EDEADLK,
            Reply::EOWNERDEAD,
            Reply::ENOTRECOVERABLE,
            Reply::XHELD,
        ],
        Operation::TryLock => &[
            Reply::OK,
            Reply::EBUSY,
            Reply::EOWNERDEAD,
            Reply::ENOTRECOVERABLE,
            Reply::XRACED,
            Reply::XHELD,
        ],
        Operation::TimedLock => &[
            Reply::OK,
            Reply::EDEADLK,
            Reply::ETIMEDOUT,
            Reply::EOWNERDEAD,
            Reply::ENOTRECOVERABLE,
            Reply::XHELD,
        ],
        Operation::Unlock => &[Reply::OK, Reply::EPERM],
        Operation::Consistent => &[Reply::OK, Reply::EPERM, Reply::EINVAL],
        Operation::Wait => &[
            Reply::OK,
            Reply::EPERM,
            Reply::EOWNERDEAD,
            Reply::ENOTRECOVERABLE,
            Reply::XSTATE,
        ],
        Operation::TimedWait => &[
            Reply::OK,
            Reply::EPERM,
            Reply::ETIMEDOUT,
            Reply::EOWNERDEAD,
            Reply::ENOTRECOVERABLE,
            Reply::XSTATE,
        ],
        Operation::Signal | Operation::Broadcast => &[Reply::OK, Reply::EPERM, Reply::XFULL],
        Operation::Reinit => &[Reply::OK],
        Operation::Death => &[],
    }
}

/// These lines, and a return after them, which tells the thread of this line that.
fn with_return(
    alloc: Global,
    lines: &[HistoryLine],
    line: &HistoryLine,
    reply: Reply,
) -> Result<Vec<HistoryLine>, AllocError>
    ensures { IfOk result (λ told. IsWithReturn lines.now (whose line.now.entry) reply told.items) }
{
    let mut told = Vec::from_slice(alloc, lines)?;
    told.push(HistoryLine {
        number: line.number,
        event: line.event,
        entry: Entry::Told(Fact::Return(whose(&line.entry), reply)),
    })?;
    Ok(told)
}

/// Whether a certificate is found of these lines and a return after them, which tells the thread of this line that.
fn could_be_told(
    alloc: Global,
    head: &Head,
    lines: &[HistoryLine],
    line: &HistoryLine,
    reply: Reply,
) -> Result<bool, AllocError>
    requires { IsHead head.now }
    ensures { IfOk result (λ found. found ≡ true → CouldBeTold head.now lines.now (whose line.now.entry) reply) }
{
    let told = with_return(alloc, lines, line, reply)?;
    match has_certificate(alloc, head, &told) {
        Ok(found) => Ok(found),
        Err(_) => Err(AllocError),
    }
}

/// Adds a reply, if it is possible.
fn add(found: &mut Vec<Reply>, reply: Reply, could: bool) -> Result<(), AllocError>
    ensures { IfOk result (λ _. found.new.items ≡ (if could then found.old.items ++ reply ∷ [] else found.old.items)) }
{
    if could {
        found.push(reply)?;
    }
    Ok(())
}

/// Those of these replies with which a certificate is found, in their order.
fn possible_among(
    alloc: Global,
    head: &Head,
    lines: &[HistoryLine],
    line: &HistoryLine,
    replies: &[Reply],
) -> Result<Vec<Reply>, AllocError>
    requires { IsHead head.now }
    ensures { IfOk result (λ found. AreSome head.now lines.now (whose line.now.entry) replies.now found.items) }
{
    let mut found = Vec::new(alloc);
    for reply in replies {
        let could = could_be_told(alloc, head, lines, line, *reply)?;
        add(&mut found, *reply, could)?;
    }
    Ok(found)
}

/// The replies that the line could have told after these lines, where it is a return in its turn: those with which a
/// certificate is found. That each possible reply is found isn't proved.
pub fn possible_at(
    alloc: Global,
    head: &Head,
    lines: &[HistoryLine],
    line: &HistoryLine,
    why: &Reason,
) -> Result<Vec<Reply>, AllocError>
    requires { IsHead head.now }
    ensures { IfOk result (λ found. ArePossible head.now lines.now (whose line.now.entry) why.now found.items) }
{
    match *why {
        Reason::OutOfTurn(_) => Ok(Vec::new(alloc)),
        Reason::NoOrder { operation, .. } => {
            possible_among(alloc, head, lines, line, replies_of(operation))
        }
    }
}
