//! What positions have in common: each scene and each standing once.
ghost use Rattle.std.specs.Prelude.{◌≡◌, IfOk, IfSome, length};
ghost use Rattle.outcomes.specs.Comparisons.{AreComparable, IsComparable};
ghost use Rattle.outcomes.specs.Kept.{place_in, places_in};
ghost use Rattle.outcomes.specs.Stored.{places_among, threads_in, Holds};

use crate::adding::{add, shared};
use crate::digest::digest_of_standing;
use crate::kept::{Kept, Life};
use crate::sameness::{is_scene, is_standing};
use crate::standing::Standing;
use crate::stored::{Scene, Stored, same_life};
use crate::table::Table;
use interleave::{Saved, Sleeper};
use memorymap::NoMem;
use protocol::Thread;
use std::alloc::Global;
use std::rc::Rc;

/// The scenes and standings of what was reached.
#[derive(Drop)]
pub(crate) struct Stock {
    scenes: Vec<Rc<Scene, Global>>,
    by_scene: Table,
    standings: Vec<Rc<Standing, Global>>,
    by_standing: Table,
}

impl Stock {
    /// Nothing yet.
    pub(crate) fn new(alloc: Global) -> Result<Stock, NoMem> {
        Ok(Stock {
            scenes: Vec::new(alloc),
            by_scene: Table::new(alloc)?,
            standings: Vec::new(alloc),
            by_standing: Table::new(alloc)?,
        })
    }

    /// A scene, if the table leads there.
    fn find_scene(
        &self,
        digest: u64,
        words: &[u64],
        sleepers: &[Sleeper],
    ) -> Option<&Rc<Scene, Global>>
        ensures { IfSome result
            (λ r. (r.now.value.words.items ≡ words.now) × (r.now.value.sleepers.items ≡ sleepers.now)) }
    {
        let mut slot = self.by_scene.first(digest);
        for _tried in 0..=self.by_scene.len() {
            let number = self.by_scene.number(slot)?;
            if self.by_scene.suits(slot, digest)
                && number < self.scenes.len()
                && is_scene(&self.scenes[number], words, sleepers)
            {
                return Some(&self.scenes[number]);
            }
            slot = self.by_scene.after(slot);
        }
        None
    }

    /// A table with more room, of all scenes.
    fn spread_scenes(&mut self, alloc: Global) -> Result<(), NoMem> {
        if !self.by_scene.is_crowded() {
            return Ok(());
        }
        let mut table = self.by_scene.twice(alloc)?;
        for number in 0..self.scenes.len() {
            table.put(self.scenes[number].digest, number);
        }
        self.by_scene = table;
        Ok(())
    }

    /// The scene with these words and sleepers, which has this digest.
    fn scene(
        &mut self,
        alloc: Global,
        words: Vec<u64>,
        sleepers: Vec<Sleeper>,
        digest: u64,
    ) -> Result<Rc<Scene, Global>, NoMem>
        ensures { IfOk result
            (λ r. (r.value.words.items ≡ words.items) × (r.value.sleepers.items ≡ sleepers.items)) }
    {
        if let Some(scene) = self.find_scene(digest, &words, &sleepers) {
            return Ok(scene.clone()?);
        }
        let scene = Scene {
            words,
            sleepers,
            digest,
        };
        let scene = shared(alloc, scene)?;
        let number = self.scenes.len();
        add(&mut self.scenes, scene.clone()?)?;
        self.by_scene.put(digest, number);
        self.spread_scenes(alloc)?;
        Ok(scene)
    }

    /// A standing, if the table leads there.
    fn find_standing(
        &self,
        digest: u64,
        thread: &Thread,
        life: &Life,
    ) -> Option<&Rc<Standing, Global>>
        requires { IsComparable thread.now.stage }
        ensures { IfSome result
            (λ r. (r.now.value.thread ≡ thread.now) × (r.now.value.place ≡ place_in life.now)) }
    {
        let mut slot = self.by_standing.first(digest);
        for _tried in 0..=self.by_standing.len() {
            let number = self.by_standing.number(slot)?;
            if self.by_standing.suits(slot, digest)
                && number < self.standings.len()
                && is_standing(&self.standings[number], thread, life)
            {
                return Some(&self.standings[number]);
            }
            slot = self.by_standing.after(slot);
        }
        None
    }

    /// A table with more room, of all standings.
    fn spread_standings(&mut self, alloc: Global) -> Result<(), NoMem> {
        if !self.by_standing.is_crowded() {
            return Ok(());
        }
        let mut table = self.by_standing.twice(alloc)?;
        for number in 0..self.standings.len() {
            table.put(self.standings[number].digest, number);
        }
        self.by_standing = table;
        Ok(())
    }

    /// The standing of this thread that has come so far.
    fn standing(
        &mut self,
        alloc: Global,
        thread: &Thread,
        life: &Life,
    ) -> Result<Rc<Standing, Global>, NoMem>
        requires { IsComparable thread.now.stage }
        ensures { IfOk result (λ r. (r.value.thread ≡ thread.now) × (r.value.place ≡ place_in life.now)) }
    {
        let digest = digest_of_standing(thread, life);
        if let Some(standing) = self.find_standing(digest, thread, life) {
            return Ok(standing.clone()?);
        }
        let life = same_life(alloc, life)?;
        let thread = *thread;
        let standing = Standing {
            thread,
            life,
            digest,
        };
        let standing = shared(alloc, standing)?;
        let number = self.standings.len();
        add(&mut self.standings, standing.clone()?)?;
        self.by_standing.put(digest, number);
        self.spread_standings(alloc)?;
        Ok(standing)
    }

    /// The standing of this thread, which may be the same as an earlier one.
    fn standing_again(
        &mut self,
        alloc: Global,
        earlier: Option<&Rc<Standing, Global>>,
        thread: &Thread,
        life: &Life,
    ) -> Result<Rc<Standing, Global>, NoMem>
        requires { IsComparable thread.now.stage }
        ensures { IfOk result (λ r. (r.value.thread ≡ thread.now) × (r.value.place ≡ place_in life.now)) }
    {
        match earlier {
            Some(standing) => {
                if is_standing(standing, thread, life) {
                    return Ok(standing.clone()?);
                }
                self.standing(alloc, thread, life)
            }
            None => self.standing(alloc, thread, life),
        }
    }

    /// The standings of these threads, most of which may be the same as earlier ones.
    fn standings(
        &mut self,
        alloc: Global,
        earlier: &[Rc<Standing, Global>],
        threads: &[Thread],
        lives: &[Life],
    ) -> Result<Vec<Rc<Standing, Global>>, NoMem>
        requires comparable { AreComparable threads.now }
        requires long { length threads.now ≡ length lives.now }
        ensures { IfOk result
            (λ v. (threads_in v.items ≡ threads.now) × (places_among v.items ≡ places_in lives.now)) }
    {
        let mut standings = Vec::with_capacity(alloc, threads.len())?;
        for index in 0..threads.len() {
            let (thread, life) = (&threads[index], &lives[index]);
            let standing = self.standing_again(alloc, earlier.get(index), thread, life)?;
            add(&mut standings, standing)?;
        }
        Ok(standings)
    }

    /// A position as it is stored. Its scene has this digest, and most threads may stand as they did earlier.
    pub(crate) fn store(
        &mut self,
        alloc: Global,
        kept: Kept,
        earlier: &[Rc<Standing, Global>],
        scene_digest: u64,
    ) -> Result<Stored, NoMem>
        requires comparable { AreComparable kept.saved.threads.items }
        requires long { length kept.saved.threads.items ≡ length kept.lives.value.items }
        ensures { IfOk result (λ s. Holds s kept) }
    {
        let Kept {
            saved,
            phase,
            lives,
        } = kept;
        let Saved {
            words,
            threads,
            sleepers,
        } = saved;
        let standings = self.standings(alloc, earlier, &threads, &lives)?;
        let scene = self.scene(alloc, words, sleepers, scene_digest)?;
        Ok(Stored {
            scene,
            standings,
            phase,
        })
    }
}
