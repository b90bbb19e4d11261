//! Positions as the search keeps them.
ghost use Rattle.std.specs.Prelude.{◌≡◌, ◌≤◌, ◌<◌, ◌&&◌, true, is_some, length, IfOk, if◌then◌else◌};
ghost use Rattle.memorymap.specs.Layouts.{Layout'};
ghost use Rattle.protocol.specs.Machine.{happens, is_idle, is_alive};
ghost use Rattle.interleave.specs.Notes.{is_nothing};
ghost use Rattle.interleave.specs.Saved.{saved_state};
ghost use Rattle.interleave.specs.Shown.{thread_at};
ghost use Rattle.outcomes.specs.Positions.{rests, next_call, is_earlier, some_earlier, all_rest, is_turn};
ghost use Rattle.outcomes.specs.Positions.{killed_among, is_under_way};
ghost use Rattle.outcomes.specs.Kept.{places_in, position_in};
ghost use Rattle.outcomes.specs.Events.{is_out};

use crate::adding::add;
use crate::events::thread_of;
use crate::next::{Next, next_among};
use crate::plan::Plan;
use interleave::Saved;
use lockword::{Reply, Tid};
use memorymap::NoMem;
use protocol::{Event, Stage};
use std::alloc::Global;
use std::rc::Rc;

/// How far a thread has come.
#[derive(Drop)]
pub(crate) struct Life {
    /// How many of its items the thread has passed.
    pub at: usize,
    /// What its calls returned, in order.
    pub replies: Vec<Reply>,
}

/// Where a run of a plan is.
#[derive(Drop)]
pub(crate) struct Kept {
    pub saved: Saved,
    pub phase: u16,
    /// How far the threads have come, which may be as far as before.
    pub lives: Rc<Vec<Life>, Global>,
}

/// A copy of how far threads have come.
pub(crate) fn same_lives(alloc: Global, lives: &[Life]) -> Result<Vec<Life>, NoMem>
    ensures { IfOk result (λ v. places_in v.items ≡ places_in lives.now) }
{
    let mut copy = Vec::with_capacity(alloc, lives.len())?;
    for life in lives {
        let replies = Vec::from_slice(alloc, &life.replies)?;
        add(
            &mut copy,
            Life {
                at: life.at,
                replies,
            },
        )?;
    }
    Ok(copy)
}

/// Whether a thread that is there is in no call, and not dying.
fn rests(stage: &Stage) -> bool
    ensures { result ≡ rests stage.now }
{
    match *stage {
        Stage::Idle | Stage::Reaped => true,
        Stage::Calling(_, _) | Stage::AtCondition(_, _) | Stage::Dying(_) => false,
    }
}

/// Whether a thread that is there lives and is in no call.
fn is_idle(stage: &Stage) -> bool
    ensures { result ≡ is_idle stage.now }
{
    match *stage {
        Stage::Idle => true,
        Stage::Calling(_, _) | Stage::AtCondition(_, _) | Stage::Dying(_) | Stage::Reaped => false,
    }
}

/// Whether a thread that is there lives.
fn is_alive(stage: &Stage) -> bool
    ensures { result ≡ is_alive stage.now }
{
    match *stage {
        Stage::Idle | Stage::Calling(_, _) | Stage::AtCondition(_, _) => true,
        Stage::Dying(_) | Stage::Reaped => false,
    }
}

/// Whether a thread that is there can't make an event: begin a call in another one, or step where it rests.
fn is_out(stage: &Stage, event: &Event) -> bool
    ensures { result ≡ is_out stage.now event.now }
{
    match *event {
        Event::Begin(_, _) => !is_idle(stage),
        Event::Step(_) => rests(stage),
        _ => false,
    }
}

impl Kept {
    /// How far the threads have come.
    pub(crate) fn lives(&self) -> &[Life]
        ensures { result.now ≡ self.now.lives.value.items }
    {
        self.lives.as_slice()
    }

    /// The call that a thread makes next, where it is in no call.
    pub(crate) fn next_call(&self, plan: &Plan, thread: Tid) -> Option<Next>
        ensures { result ≡ next_call plan.now (places_in self.now.lives.value.items) thread }
    {
        let index = thread.as_index();
        if index >= plan.threads.len() {
            return None;
        }
        let items = &plan.threads[index];
        let lives = self.lives();
        if index >= lives.len() {
            return next_among(items, 0, None);
        }
        let life = &lives[index];
        next_among(items, life.at, life.replies.last().copied())
    }

    /// Whether a thread isn't where it can make an event.
    fn is_out(&self, thread: Tid, event: &Event) -> bool
        requires { thread ≤ length self.now.saved.threads.items }
        ensures { result ≡ is_out (thread_at self.now.saved.threads.items thread).stage event.now }
    {
        is_out(&self.saved.threads[thread.as_index()].stage, event)
    }

    /// Whether an event does nothing, as its thread isn't where it can make it.
    pub(crate) fn rules_out(&self, event: &Event) -> bool
        ensures { result ≡ true
            → (l : Layout') → is_nothing (happens (saved_state l self.now.saved) event.now).note ≡ true }
    {
        let thread = thread_of(event);
        if self.saved.threads.len() < usize::from(thread.get()) {
            return false;
        }
        self.is_out(thread, event)
    }

    /// Nobody is in a call or dying.
    fn all_rest(&self, plan: &Plan) -> bool
        requires { length self.now.saved.threads.items ≡ plan.now.layout.threads }
        ensures { result ≡ all_rest (position_in plan.now.layout self.now).state plan.now.layout.threads }
    {
        for thread in &self.saved.threads {
            if !rests(&thread.stage) {
                return false;
            }
        }
        true
    }

    /// Whether a thread lives, is in no call, and has a next call of an earlier phase.
    fn is_earlier(&self, plan: &Plan, thread: Tid, phase: u16) -> bool
        requires { thread ≤ length self.now.saved.threads.items }
        ensures { result
            ≡ (is_idle (thread_at self.now.saved.threads.items thread).stage
            && is_earlier phase (next_call plan.now (places_in self.now.lives.value.items) thread)) }
    {
        if !is_idle(&self.saved.threads[thread.as_index()].stage) {
            return false;
        }
        match self.next_call(plan, thread) {
            Some(next) => next.phase < phase,
            None => false,
        }
    }

    /// Whether any thread does.
    fn some_earlier(&self, plan: &Plan, phase: u16) -> bool
        requires { length self.now.saved.threads.items ≡ plan.now.layout.threads }
        ensures { result
            ≡ some_earlier plan.now (position_in plan.now.layout self.now) phase plan.now.layout.threads }
    {
        for before in 0..plan.layout.threads() {
            let Some(thread) = Tid::new(before + 1) else {
                unreachable!()
            };
            if self.is_earlier(plan, thread, phase) {
                return true;
            }
        }
        false
    }

    /// Whether calls of a phase may begin.
    pub(crate) fn is_turn(&self, plan: &Plan, phase: u16) -> bool
        requires { length self.now.saved.threads.items ≡ plan.now.layout.threads }
        ensures { result ≡ is_turn plan.now (position_in plan.now.layout self.now) phase }
    {
        phase == self.phase
            || (self.phase < phase && self.all_rest(plan) && !self.some_earlier(plan, phase))
    }

    /// 1 of a thread that was killed, else 0.
    fn deaths(&self, thread: Tid) -> usize
        requires { thread ≤ length self.now.saved.threads.items }
        ensures { result ≡ (if is_alive (thread_at self.now.saved.threads.items thread).stage then 0 else 1) }
    {
        if is_alive(&self.saved.threads[thread.as_index()].stage) {
            0
        } else {
            1
        }
    }

    /// How many threads were killed.
    pub(crate) fn killed(&self, plan: &Plan) -> usize
        requires { length self.now.saved.threads.items ≡ plan.now.layout.threads }
        ensures { result ≡ killed_among (position_in plan.now.layout self.now).state plan.now.layout.threads }
    {
        let mut killed = 0;
        for before in 0..plan.layout.threads() {
            let Some(thread) = Tid::new(before + 1) else {
                unreachable!()
            };
            killed += self.deaths(thread);
        }
        killed
    }

    /// Whether a thread lives and has something left to do.
    pub(crate) fn is_under_way(&self, plan: &Plan, thread: Tid) -> bool
        requires { thread ≤ length self.now.saved.threads.items }
        ensures { result
            ≡ is_under_way plan.now (places_in self.now.lives.value.items) thread
            (thread_at self.now.saved.threads.items thread).stage }
    {
        match self.saved.threads[thread.as_index()].stage {
            Stage::Idle => self.next_call(plan, thread).is_some(),
            Stage::Calling(_, _) | Stage::AtCondition(_, _) => true,
            Stage::Dying(_) | Stage::Reaped => false,
        }
    }
}
