//! How far the lines of a trace have come in the newest event.
ghost use Rattle.std.specs.Prelude.{◌≡◌, MatchResult};
ghost use Rattle.verdict.specs.Places.{Admits, Clashes, ClashesHere, IsAnothers};
ghost use Rattle.verdict.specs.Places.{Shares, Stands, caller, nowhere, placed};

use crate::misfit::Misfit;
use facts::{Fact, Line};
use lockword::Tid;

/// What the lines of the newest event told so far.
#[derive(Clone, Copy)]
pub struct Place {
    /// The number; 0 before the first.
    pub event: u32,
    /// Whose event it is, where a line has told.
    pub thread: Option<Tid>,
    /// It had a point or a death.
    pub decided: bool,
    /// The event is a kill.
    pub killed: bool,
}

impl Place {
    /// Before the first line.
    pub fn new() -> Place
        ensures { result ≡ nowhere }
    {
        Place {
            event: 0,
            thread: None,
            decided: false,
            killed: false,
        }
    }

    /// Evidence that the entry may be after the lines so far, by its number; or why not.
    pub fn stands(&self, entry: &Line) -> Result<(), Misfit>
        ensures { MatchResult result (λ _. Stands self.now entry.now) (λ m. Clashes m self.now entry.now) }
    {
        if self.event < entry.event {
            return Ok(());
        }
        if entry.event < self.event {
            return Err(Misfit::EventFalls { latest: self.event });
        }
        self.shared(&entry.fact)
    }

    /// Evidence that the newest event may have a further line; or why not.
    fn shared(&self, fact: &Fact) -> Result<(), Misfit>
        ensures { MatchResult result (λ _. Shares self.now fact.now) (λ m. ClashesHere m self.now fact.now) }
    {
        if self.killed {
            return Err(Misfit::EventKilled);
        }
        if fact.is_kill() {
            return Err(Misfit::KillShares);
        }
        self.admits(fact)?;
        if self.decided && fact.decides() {
            return Err(Misfit::EventDecided);
        }
        Ok(())
    }

    /// Evidence that the fact may be of the newest event by its thread; or why not.
    fn admits(&self, fact: &Fact) -> Result<(), Misfit>
        ensures { MatchResult result (λ _. Admits self.now.thread fact.now)
            (λ m. IsAnothers m self.now.thread fact.now) }
    {
        if fact.is_passive() {
            return Ok(());
        }
        match self.thread {
            None => Ok(()),
            Some(thread) => {
                if thread == fact.thread() {
                    Ok(())
                } else {
                    Err(Misfit::AnothersEvent { thread })
                }
            }
        }
    }

    /// The place after the entry.
    pub fn behind(&self, entry: &Line) -> Place
        ensures { result ≡ placed self.now entry.now }
    {
        let same = self.event == entry.event;
        let decides = entry.fact.decides();
        Place {
            event: entry.event,
            thread: self.caller(same, entry),
            decided: decides || (same && self.decided),
            killed: entry.fact.is_kill(),
        }
    }

    /// Whose event the entry's is, as far as lines have told.
    fn caller(&self, same: bool, entry: &Line) -> Option<Tid>
        ensures { result ≡ caller same self.now.thread entry.now.fact }
    {
        if !entry.fact.is_passive() {
            Some(entry.fact.thread())
        } else if same {
            self.thread
        } else {
            None
        }
    }
}
