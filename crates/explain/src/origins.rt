//! The earlier line of a trace that one which doesn't fit goes back to.

ghost use Rattle.std.specs.Prelude.{◌≡◌, ◌&&◌, ◌==◌, not, reverse};
ghost use Rattle.facts.specs.Facts.{decision_of, is_passive, is_renewal, thread_of};
ghost use Rattle.explain.specs.Origins.{is_begin, is_origin, is_reap, is_return, is_sleep};
ghost use Rattle.explain.specs.Origins.{is_step_like, is_step_of, is_wake, newest_line, origin_of};

use facts::{Fact, Line};
use lockword::Tid;
use verdict::{Misfit, TraceMisfit};

/// Whether the line is one of the thread.
fn is_of(line: &Line, thread: Tid) -> bool
    ensures { result ≡ (thread_of line.now.fact == thread) }
{
    line.fact.thread() == thread
}

/// Whether the line is of the event, and tells what its own thread did.
fn is_own_of(line: &Line, event: u32) -> bool
    ensures { result ≡ ((line.now.event == event) && not (is_passive line.now.fact)) }
{
    line.event == event && !line.fact.is_passive()
}

/// Whether the earlier line is one that the reason speaks of, for the entry that doesn't fit.
fn is_origin(why: &Misfit, entry: &Line, earlier: &Line) -> bool
    ensures { result ≡ is_origin why.now entry.now earlier.now }
{
    let own = is_of(earlier, entry.fact.thread());
    match *why {
        Misfit::EventFalls { .. } | Misfit::EndFalls { .. } => true,
        Misfit::AnothersEvent { .. } => is_own_of(earlier, entry.event),
        Misfit::EventDecided => earlier.event == entry.event && earlier.fact.decides(),
        Misfit::KillShares => earlier.event == entry.event,
        Misfit::EventKilled => earlier.event == entry.event && earlier.fact.is_kill(),
        Misfit::InCall { .. }
        | Misfit::OtherMutex { .. }
        | Misfit::OtherOperation { .. }
        | Misfit::ReleaseRefused
        | Misfit::Undecided
        | Misfit::TooEarly { .. } => own && matches!(earlier.fact, Fact::Begin(..)),
        Misfit::NoCall => own && matches!(earlier.fact, Fact::Return(..) | Fact::Renew(_)),
        Misfit::Asleep => own && matches!(earlier.fact, Fact::Sleep(..)),
        Misfit::Awake => own && matches!(earlier.fact, Fact::Wake(_) | Fact::Renew(_)),
        Misfit::Killed | Misfit::NotReaped => own && earlier.fact.is_kill(),
        Misfit::Reaped => own && matches!(earlier.fact, Fact::Reap(_)),
        Misfit::Alive => own && matches!(earlier.fact, Fact::Renew(_)),
        Misfit::AtLimit { .. } => false,
        Misfit::Released | Misfit::Decided { .. } | Misfit::OtherReply { .. } => {
            own && earlier.fact.is_point()
        }
        Misfit::NotAllowed { .. } | Misfit::NotOwner { .. } => match entry.fact.decision() {
            Some(decision) => decides_on(earlier, decision.mutex),
            None => false,
        },
        Misfit::StillOwns { mutex } => decides_on(earlier, mutex),
    }
}

/// Whether the line is a point or a death on the mutex.
fn decides_on(line: &Line, mutex: u16) -> bool
    ensures { result ≡ is_step_of mutex (decision_of line.now.fact) }
{
    match line.fact.decision() {
        Some(decision) => decision.mutex == mutex,
        None => false,
    }
}

/// The newest of these entries, the first of which is at line 2, that is one of which the reason speaks.
fn newest(entries: &[Line], why: &Misfit, entry: &Line) -> Option<usize>
    ensures { result ≡ newest_line (λ e. is_origin why.now entry.now e) (reverse entries.now) }
{
    let mut found = None;
    for (index, earlier) in entries.iter().enumerate() {
        if is_origin(why, entry, earlier) {
            found = Some(index + 2);
        }
    }
    found
}

/// The newest line before the one that doesn't fit of which its reason speaks, from 1; of the last line, the one before
/// it.
pub fn origin_of(entries: &[Line], why: TraceMisfit) -> Option<usize>
    ensures { result ≡ origin_of entries.now why }
{
    let at = why.line.saturating_sub(2);
    if at < entries.len() {
        newest(&entries[..at], &why.misfit, &entries[at])
    } else {
        Some(why.line.saturating_sub(1))
    }
}
