//! The events that a plan has come at a position.
ghost use Rattle.std.specs.Prelude.{◌≡◌, ◌≤◌, length};
ghost use Rattle.outcomes.specs.Positions.{may_kill};
ghost use Rattle.outcomes.specs.Plans.{is_killable};
ghost use Rattle.outcomes.specs.Kept.{position_in};
ghost use Rattle.outcomes.specs.Searches.{begin_for, event_for, if_wanted, thread_of};

use crate::kept::Kept;
use crate::plan::{Asked, Plan};
use lockword::Tid;
use protocol::{Event, LeftTo};

/// The kinds of events that are explored.
#[derive(Clone, Copy, Debug, PartialEq, Eq)]
pub(crate) enum Kind {
    Begin,
    Step,
    Kill,
    Expire,
    Leave,
    Spare,
}

/// Whose event it is.
pub(crate) fn thread_of(event: &Event) -> Tid
    ensures { result ≡ thread_of event.now }
{
    match *event {
        Event::Begin(thread, _) | Event::Remake(thread, _) | Event::Spare(thread, _) => thread,
        Event::Step(thread) | Event::Kill(thread) | Event::Leave(thread) => thread,
        Event::Expire(thread) | Event::Decline(thread) | Event::Renew(thread) => thread,
    }
}

/// Whether the plan lets a thread be killed.
fn is_killable(asked: &Asked, thread: Tid) -> bool
    ensures { result ≡ is_killable asked.now thread }
{
    let index = thread.as_index();
    index < asked.killable.len() && asked.killable[index]
}

/// Whether a thread may be killed.
fn may_kill(plan: &Plan, kept: &Kept, thread: Tid) -> bool
    requires threads { length kept.now.saved.threads.items ≡ plan.now.layout.threads }
    requires known { thread ≤ plan.now.layout.threads }
    ensures { result ≡ may_kill plan.now (position_in plan.now.layout kept.now) thread }
{
    is_killable(&plan.asked, thread)
        && kept.killed(plan) < usize::from(plan.asked.kills)
        && kept.is_under_way(plan, thread)
}

/// The begin of a thread's next call, if it is its turn.
fn begin_of(plan: &Plan, kept: &Kept, thread: Tid) -> Option<Event>
    requires { length kept.now.saved.threads.items ≡ plan.now.layout.threads }
    ensures { result ≡ begin_for plan.now (position_in plan.now.layout kept.now) thread }
{
    let next = kept.next_call(plan, thread)?;
    if kept.is_turn(plan, next.phase) {
        Some(Event::Begin(thread, next.op))
    } else {
        None
    }
}

/// The event, if it is asked for.
fn wanted(wanted: bool, event: Event) -> Option<Event>
    ensures { result ≡ if_wanted wanted event }
{
    if wanted { Some(event) } else { None }
}

/// The event of a kind and of a thread that the plan has come at a position, if it does something there.
pub(crate) fn event_of(plan: &Plan, kept: &Kept, kind: Kind, thread: Tid) -> Option<Event>
    requires threads { length kept.now.saved.threads.items ≡ plan.now.layout.threads }
    requires known { thread ≤ plan.now.layout.threads }
    ensures { result ≡ event_for plan.now (position_in plan.now.layout kept.now) kind thread }
{
    let asked = &plan.asked;
    match kind {
        Kind::Begin => begin_of(plan, kept, thread),
        Kind::Step => Some(Event::Step(thread)),
        Kind::Kill => wanted(may_kill(plan, kept, thread), Event::Kill(thread)),
        Kind::Expire => wanted(asked.expire, Event::Expire(thread)),
        Kind::Leave => wanted(asked.leave, Event::Leave(thread)),
        Kind::Spare => wanted(asked.spare, Event::Spare(thread, LeftTo::Thread)),
    }
}
