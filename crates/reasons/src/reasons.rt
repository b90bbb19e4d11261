//! Why a line of a trace doesn't fit, in words.

ghost use Rattle.std.specs.Prelude.{◌≡◌, ◌++◌, OnOk};
ghost use Rattle.reasons.specs.Reasons.{object_text, reason_text, with_number};

use crate::adding::add;
use itoa::Buffer;
use posixmutex::Object;
use std::alloc::AllocError;
use verdict::Misfit;

/// A text with a number between two pieces.
fn add_number(text: &mut Vec<u8>, before: &str, number: u32, behind: &str) -> Result<(), AllocError>
    ensures { OnOk result (text.new.items ≡ text.old.items ++ with_number before.now number behind.now) }
{
    let mut numbers = Buffer::new();
    add(text, &[before, numbers.format(number), behind])
}

/// What a mutex is.
fn add_object(text: &mut Vec<u8>, object: &Object) -> Result<(), AllocError>
    ensures { OnOk result (text.new.items ≡ text.old.items ++ object_text object.now) }
{
    match (object.owner, object.inconsistent, object.unusable) {
        (_, _, true) => add(text, &["it is unusable"]),
        (None, false, false) => add(text, &["nobody owns it"]),
        (None, true, false) => add(text, &["nobody owns it, since its owner died"]),
        (Some(owner), false, false) => add_number(text, "t", u32::from(owner.get()), " owns it"),
        (Some(owner), true, false) => add_number(
            text,
            "t",
            u32::from(owner.get()),
            " owns it, and has not declared it consistent",
        ),
    }
}

/// Why the line doesn't fit those before it.
pub fn add_reason(text: &mut Vec<u8>, misfit: &Misfit) -> Result<(), AllocError>
    ensures { OnOk result (text.new.items ≡ text.old.items ++ reason_text misfit.now) }
{
    match *misfit {
        Misfit::EventFalls { latest } => {
            add_number(
                text,
                "its event is before event ",
                latest,
                ", of which a line was told",
            )
        }
        Misfit::AnothersEvent { thread } => {
            add_number(
                text,
                "the event is one of thread t",
                u32::from(thread.get()),
                "",
            )
        }
        Misfit::EventDecided => add(text, &["the event has a point or a death already"]),
        Misfit::KillShares => add(
            text,
            &["a kill is an event of its own, and this event has a line already"],
        ),
        Misfit::EventKilled => add(text, &["the event is a kill, and has no other line"]),
        Misfit::InCall { call } => {
            add(
                text,
                &["the thread is in a call already: ", call.operation.word()],
            )?;
            add_number(text, " of m", u32::from(call.mutex), "")
        }
        Misfit::NoCall => add(text, &["the thread is in no call"]),
        Misfit::Asleep => add(text, &["the thread is asleep"]),
        Misfit::Awake => add(text, &["the thread isn't asleep"]),
        Misfit::Killed => add(text, &["the thread was killed"]),
        Misfit::NotReaped => add(text, &["the thread was killed, and isn't reaped yet"]),
        Misfit::Reaped => add(text, &["the thread was reaped"]),
        Misfit::Alive => add(text, &["the thread lives"]),
        Misfit::OtherMutex { mutex } => add_number(
            text,
            "the thread's call is on m",
            u32::from(mutex),
            "",
        ),
        Misfit::OtherOperation { operation } => {
            add(
                text,
                &["a call of ", operation.word(), " has no such point"],
            )
        }
        Misfit::ReleaseRefused => add(text, &["the unlock of a wait replies OK"]),
        Misfit::Released => add(
            text,
            &["the wait has released its mutex, and locks it next"],
        ),
        Misfit::Decided { reply } => {
            add(
                text,
                &[
                    "the call has its points already, and the last replied ",
                    reply.name(),
                ],
            )
        }
        Misfit::Undecided => add(text, &["the call has had no point yet"]),
        Misfit::OtherReply { reply } => add(text, &["the call's point replied ", reply.name()]),
        Misfit::NotAllowed { object, reply } => {
            add(
                text,
                &["the mutex doesn't allow the reply ", reply.name(), ": "],
            )?;
            add_object(text, &object)
        }
        Misfit::AtLimit { held } => {
            add_number(
                text,
                "the thread holds ",
                u32::from(held),
                " mutexes, so that the reply is X_HELD",
            )
        }
        Misfit::NotOwner { object } => {
            add(text, &["the thread doesn't own the mutex: "])?;
            add_object(text, &object)
        }
        Misfit::TooEarly { began } => {
            add_number(
                text,
                "no other thread owned the mutex since event ",
                began,
                ", in which the call began",
            )
        }
        Misfit::StillOwns { mutex } => add_number(
            text,
            "the thread still owns m",
            u32::from(mutex),
            "",
        ),
        Misfit::EndFalls { latest } => {
            add_number(
                text,
                "the end is before event ",
                latest,
                ", of which a line was told",
            )
        }
    }
}
