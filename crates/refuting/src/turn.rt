//! Where threads are in their lives, as their own lines say.

ghost use Rattle.std.specs.Prelude.{◌≡◌};
ghost use Rattle.refuting.specs.Turns.{after_fact, call_on, entry_thread, turn_after};

use facts::{Begun, Fact};
use histories::Entry;
use lockword::{Reply, Tid};

/// Where a thread is in its life.
#[derive(Clone, Copy, Debug, PartialEq, Eq)]
pub enum Turn {
    Resting,
    /// In a call; and what that returns in later lines, if it does.
    Calling(Begun, Option<Reply>),
    /// Killed, in no call; or doomed, perhaps in this call: it may be alive.
    Dying(Option<Begun>),
    Reaped,
}

/// Whose line it is.
pub fn thread_of(entry: &Entry) -> Tid
    ensures { result ≡ entry_thread entry.now }
{
    match *entry {
        Entry::Told(fact) => fact.thread(),
        Entry::Doom(thread) => thread,
    }
}

impl Turn {
    /// Where a line leaves its thread; None where it can't be recorded of it. `reply` is what the thread's next
    /// return says.
    pub fn after(self, entry: &Entry, reply: Option<Reply>) -> Option<Turn>
        ensures { result ≡ turn_after self entry.now reply }
    {
        match *entry {
            Entry::Told(fact) => self.after_fact(&fact, reply),
            Entry::Doom(_) => match self {
                Turn::Resting => Some(Turn::Dying(None)),
                Turn::Calling(call, _) => Some(Turn::Dying(Some(call))),
                Turn::Dying(_) | Turn::Reaped => None,
            },
        }
    }

    fn after_fact(self, fact: &Fact, reply: Option<Reply>) -> Option<Turn>
        ensures { result ≡ after_fact self fact.now reply }
    {
        match self {
            Turn::Resting => match *fact {
                Fact::Begin(_, call) => Some(Turn::Calling(call, reply)),
                Fact::Kill(_) => Some(Turn::Dying(None)),
                _ => None,
            },
            Turn::Calling(..) => match *fact {
                Fact::Return(..) => Some(Turn::Resting),
                Fact::Kill(_) => Some(Turn::Dying(None)),
                _ => None,
            },
            Turn::Dying(_) => match *fact {
                Fact::Reap(_) => Some(Turn::Reaped),
                _ => None,
            },
            Turn::Reaped => match *fact {
                Fact::Renew(_) => Some(Turn::Resting),
                _ => None,
            },
        }
    }

    /// The call on the mutex that the thread is in, or may be in.
    pub fn call_on(self, mutex: u16) -> Option<Begun>
        ensures { result ≡ call_on mutex self }
    {
        let call = match self {
            Turn::Calling(call, _) | Turn::Dying(Some(call)) => call,
            Turn::Resting | Turn::Dying(None) | Turn::Reaped => return None,
        };
        if call.mutex == mutex {
            Some(call)
        } else {
            None
        }
    }
}
