//! Replies of calls.
ghost use Rattle.std.specs.Prelude.{◌≡◌};
ghost use Rattle.std.specs.Array.Iter.{array_into_iter_items};
ghost use Rattle.std.specs.Result.{result_ok};
ghost use Rattle.lockword.specs.Replies.{RepliesAreReadBack, all_replies, number_of, reply_of, reply_word};

use std::array;
use std::str::FromStr;
use thiserror::Error;

/// How a call answers. The names and numbers are Linux's (errno(3)); those with an X are this project's own.
#[derive(Clone, Copy, Debug, PartialEq, Eq)]
pub enum Reply {
    OK,
    EPERM,
    ESRCH,
    EAGAIN,
    EFAULT,
    EBUSY,
    EINVAL,
    EDEADLK,
    /// The time limit of a timed call came before the mutex could be taken.
    ETIMEDOUT,
    EOWNERDEAD,
    ENOTRECOVERABLE,
    /// No memory was left.
    XNOMEM,
    /// A trylock gave up: the cell changed under each of its exchanges.
    XRACED,
    /// The thread holds as many mutexes as it may.
    XHELD,
    /// The condition's counter is at its largest value.
    XFULL,
    /// The mutex has to be declared consistent first.
    XSTATE,
}

impl Reply {
    /// The number, as errno(3) gives it on Linux.
    pub fn number(self) -> u16
        ensures { result ≡ number_of self }
    {
        match self {
            Reply::OK => 0,
            Reply::EPERM => 1,
            Reply::ESRCH => 3,
            Reply::EAGAIN => 11,
            Reply::EFAULT => 14,
            Reply::EBUSY => 16,
            Reply::EINVAL => 22,
            Reply::EDEADLK => 35,
            Reply::ETIMEDOUT => 110,
            Reply::EOWNERDEAD => 130,
            Reply::ENOTRECOVERABLE => 131,
            Reply::XNOMEM => 1000,
            Reply::XRACED => 1001,
            Reply::XHELD => 1002,
            Reply::XFULL => 1003,
            Reply::XSTATE => 1004,
        }
    }

    /// The name that it is printed by.
    pub fn name(self) -> &'static str
        ensures { result.now ≡ reply_word self }
    {
        match self {
            Reply::OK => "OK",
            Reply::EPERM => "EPERM",
            Reply::ESRCH => "ESRCH",
            Reply::EAGAIN => "EAGAIN",
            Reply::EFAULT => "EFAULT",
            Reply::EBUSY => "EBUSY",
            Reply::EINVAL => "EINVAL",
            Reply::EDEADLK => "EDEADLK",
            Reply::ETIMEDOUT => "ETIMEDOUT",
            Reply::EOWNERDEAD => "EOWNERDEAD",
            Reply::ENOTRECOVERABLE => "ENOTRECOVERABLE",
            Reply::XNOMEM => "X_NOMEM",
            Reply::XRACED => "X_RACED",
            Reply::XHELD => "X_HELD",
            Reply::XFULL => "X_FULL",
            Reply::XSTATE => "X_STATE",
        }
    }
}

/// A text that is no reply's name.
#[derive(Clone, Copy, Debug, PartialEq, Eq, Error)]
#[error("no reply has this name")]
pub struct ParseReplyError;

/// Every reply, in the order of their numbers.
fn replies() -> array::IntoIter<Reply, 16>
    ensures { array_into_iter_items result ≡ all_replies }
{
    [
        Reply::OK,
        Reply::EPERM,
        Reply::ESRCH,
        Reply::EAGAIN,
        Reply::EFAULT,
        Reply::EBUSY,
        Reply::EINVAL,
        Reply::EDEADLK,
        Reply::ETIMEDOUT,
        Reply::EOWNERDEAD,
        Reply::ENOTRECOVERABLE,
        Reply::XNOMEM,
        Reply::XRACED,
        Reply::XHELD,
        Reply::XFULL,
        Reply::XSTATE,
    ]
    .into_iter()
}

/// Reads a reply's name.
impl FromStr for Reply {
    type Err = ParseReplyError;

    ghost from_str_gives = { λ text r. result_ok r ≡ reply_of text };

    fn from_str(text: &str) -> Result<Reply, ParseReplyError> {
        for reply in replies() {
            if reply.name() == text {
                return Ok(reply);
            }
        }
        Err(ParseReplyError)
    }
}

/// A reply's name is read as that reply, and no other text is.
#[tactic(auto, using(crate::proofs::Names::replies_read_back))]
pub fn replies_are_read_back()
    ensures { RepliesAreReadBack }
{}
