//! Positions as the search stores them: what many positions have in common is stored once.
ghost use Rattle.std.specs.Prelude.{◌≡◌, IfOk, map};
ghost use Rattle.outcomes.specs.Kept.{place_in, places_in};
ghost use Rattle.outcomes.specs.Stored.{places_among, threads_in, Holds};

use crate::adding::{add, shared};
use crate::kept::{Kept, Life};
use crate::standing::Standing;
use interleave::{Saved, Sleeper};
use memorymap::NoMem;
use protocol::Thread;
use std::alloc::Global;
use std::rc::Rc;

/// The machine's words, and who sleeps where.
#[derive(Drop)]
pub(crate) struct Scene {
    pub words: Vec<u64>,
    pub sleepers: Vec<Sleeper>,
    /// The digest of both.
    pub digest: u64,
}

/// A position.
#[derive(Drop)]
pub(crate) struct Stored {
    pub scene: Rc<Scene, Global>,
    /// The threads, in the order of their ids.
    pub standings: Vec<Rc<Standing, Global>>,
    pub phase: u16,
}

/// The threads that stand so.
fn threads_of(alloc: Global, standings: &[Rc<Standing, Global>]) -> Result<Vec<Thread>, NoMem>
    ensures { IfOk result (λ v. v.items ≡ threads_in standings.now) }
{
    let mut threads = Vec::with_capacity(alloc, standings.len())?;
    for index in 0..standings.len() {
        // (the prover wants the type named here)
        let Thread { stage, held } = standings[index].thread;
        add(&mut threads, Thread { stage, held })?;
    }
    Ok(threads)
}

/// A copy of how far a thread has come.
pub(crate) fn same_life(alloc: Global, life: &Life) -> Result<Life, NoMem>
    ensures { IfOk result (λ x. place_in x ≡ place_in life.now) }
{
    let replies = Vec::from_slice(alloc, &life.replies)?;
    Ok(Life {
        at: life.at,
        replies,
    })
}

/// How far they have come.
fn lives_of(alloc: Global, standings: &[Rc<Standing, Global>]) -> Result<Vec<Life>, NoMem>
    ensures { IfOk result (λ v. places_in v.items ≡ places_among standings.now) }
{
    let mut lives = Vec::with_capacity(alloc, standings.len())?;
    for index in 0..standings.len() {
        add(&mut lives, same_life(alloc, &standings[index].life)?)?;
    }
    Ok(lives)
}

impl Stored {
    /// The position, to go on from.
    pub(crate) fn kept(&self, alloc: Global) -> Result<Kept, NoMem>
        ensures { IfOk result (Holds self.now) }
    {
        let saved = Saved {
            words: Vec::from_slice(alloc, &self.scene.words)?,
            threads: threads_of(alloc, &self.standings)?,
            sleepers: Vec::from_slice(alloc, &self.scene.sleepers)?,
        };
        let lives = shared(alloc, lives_of(alloc, &self.standings)?)?;
        Ok(Kept {
            saved,
            phase: self.phase,
            lives,
        })
    }
}
