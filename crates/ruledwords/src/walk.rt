//! The kernel's walk over a dead thread's list.
ghost use Rattle.std.specs.Prelude.{◌≡◌, ◌<◌, ◌≤◌, ℕ};
ghost use Rattle.lockword.specs.Cells.{fields_of};
ghost use Rattle.memorymap.specs.Layouts.{cell_place};
ghost use Rattle.exitwalk.specs.Walks.{access_of, marked_word};
ghost use Rattle.ruledwords.specs.Deaths.{card_after, reaping_access, reaping_pass, reaping_place, reaping_walk};
ghost use Rattle.ruledwords.specs.Deaths.{remembering, FoundByWalk, HasWalked, IsCount, IsReapingOf};
ghost use Rattle.ruledwords.specs.Deaths.{IsSeatedWalk, IsWake, KeepsWalking, Marks, MindsWaiters, WentOn, WentOnFound};
ghost use Rattle.ruledwords.specs.Looks.{Finds};
ghost use Rattle.ruledwords.specs.Passes.{card, layout_of, IsDying, IsPassOf};
ghost use Rattle.ruledwords.specs.Rules.{card_of, IsOne};

use crate::pass::{Dead, Pass, Reaped, View, Words};
use crate::rule::{Examine, Mark, Placing};
use crate::running::{address, answer, count};
use crate::turn::{Reaping, Walked};
use atomic_table::Seat;
use exitwalk::{Row, Walk};
use lockword::Tid;
use std::marker::{Brand, PhantomData};
use stepprograms::{Access, Answer, Progress, StepProgram};

impl Reaping {
    /// Begins the walk over a dead thread's list, from its head.
    pub fn walk(words: &Words, pass: Pass<Dead>) -> Reaping
        requires pass { IsDying words.now pass }
        ensures pass { reaping_pass result ≡ pass }
        ensures words { IsReapingOf words.now result }
        ensures walked { HasWalked (layout_of words.now) (card pass) (card (reaping_pass result)) }
    {
        let head = words
            .layout
            .address(pass.thread, words.layout.head(pass.thread));
        let walk = Walk::new(pass.thread, head);
        Reaping { pass, walk }
    }

    /// The access that comes next, by the address that the thread's process has for its word.
    pub fn next(&self) -> Access
        ensures { result ≡ reaping_access self.now }
    {
        self.walk.next()
    }

    /// The place of the word that the access that comes next reads or changes.
    pub fn place(&self, words: &Words) -> u64
        requires { IsReapingOf words.now self.now }
        ensures { result ≡ reaping_place (layout_of words.now) self.now }
    {
        words.place(self.pass.thread, address(self.walk.next()))
    }

    /// Makes the access that comes next, which is one step on one word. A mutex that it marks has its owner's death as
    /// its last point that the thread has seen.
    pub fn access(self, words: &Words) -> Walked
        requires words { IsReapingOf words.now self }
        requires step { ¬ IsWake (reaping_access self) }
        ensures keeps { KeepsWalking words.now self result }
        ensures onward { WentOnFound (layout_of words.now) self result }
    {
        let Reaping { mut pass, mut walk } = self;
        let access = walk.next();
        let thread = pass.thread;
        let found = words.found_by_walk(&mut pass.seat, thread, &walk);
        match walk.resume(answer(access, found)) {
            Progress::Goes { point } => {
                pass.held = count(pass.held, point);
                Walked::Goes(Reaping { pass, walk })
            }
            Progress::Returns { point, .. } => {
                pass.held = count(pass.held, point);
                Walked::Reaped(pass.reaped())
            }
        }
    }

    /// Goes on with the count that a wake was answered, which its caller has made. Nothing new is seen.
    pub fn answer(self, answer: Answer) -> Walked
        requires wake { IsWake (reaping_access self) }
        requires count { IsCount answer }
        ensures keeps { (w : Words) → IsReapingOf w self → KeepsWalking w self result }
        ensures onward { WentOn (reaping_walk self) answer result }
        ensures still { card_after result ≡ card (reaping_pass self) }
    {
        let Reaping { pass, mut walk } = self;
        match walk.resume(answer) {
            Progress::Goes { .. } => Walked::Goes(Reaping { pass, walk }),
            Progress::Returns { .. } => Walked::Reaped(pass.reaped()),
        }
    }
}

impl Pass<Dead> {
    /// The thread's list has been walked. What it has seen stays.
    fn reaped(self) -> Pass<Reaped>
        ensures card { card result ≡ card self }
        ensures words { (w : Words) → IsPassOf w self → IsPassOf w result }
    {
        let Pass {
            seat,
            thread,
            held,
            state: _,
        } = self;
        Pass {
            seat,
            thread,
            held,
            state: PhantomData,
        }
    }
}

impl Words {
    /// Makes the walk's next access, which is no wake, and gives the word that it found.
    fn found_by_walk(&self, seat: &mut Seat<(), View>, thread: Tid, walk: &Walk) -> u64
        requires walk { IsSeatedWalk self.now seat.old thread walk.now }
        requires step { ¬ IsWake (access_of walk.now) }
        ensures { FoundByWalk self.now seat.old seat.new walk.now result }
    {
        match walk.next() {
            Access::Exchange { at, expected, new } => {
                self.mark::<Brand>(seat, self.place(thread, at), expected, new)
            }
            Access::Load { at } => {
                let place = self.place(thread, at);
                match walk.row() {
                    Row::LoadWord { .. } => self.examine(seat, place),
                    _ => self.recall(seat, place),
                }
            }
            _ => unreachable!(),
        }
    }

    /// The word of a mutex's cell, as it is. The thread remembers whether WAITERS was set in it.
    fn examine(&self, seat: &mut Seat<(), View>, at: u64) -> u64
        requires table { seat.old.table_id ≡ self.now.places.table.shared.table_id }
        requires one { IsOne seat.old.me }
        requires place { (m : ℕ) × (m < self.now.layout.mutexes) × (at ≡ cell_place self.now.layout m) }
        ensures table { seat.new.table_id ≡ seat.old.table_id }
        ensures one { IsOne seat.new.me }
        ensures card { card_of seat.new.me.0 ≡ remembering (card_of seat.old.me.0) at result }
        ensures finds { Finds (card_of seat.old.me.0) at result }
        ensures minds { MindsWaiters (card_of seat.old.me.0) at result }
    {
        self.places.load::<Examine>(seat, at as usize)
    }

    /// Marks the word of a mutex's cell, if it is the one expected, whose owner is the thread: the owner's death. Gives
    /// the word that it found.
    fn mark<L: Placing>(&self, seat: &mut Seat<(), View>, at: u64, expected: u64, new: u64) -> u64
        requires table { seat.old.table_id ≡ self.now.places.table.shared.table_id }
        requires one { IsOne seat.old.me }
        requires place { (m : ℕ) × (m < self.now.layout.mutexes) × (at ≡ cell_place self.now.layout m) }
        requires thread { (1 ≤ (card_of seat.old.me.0).thread)
            × ((card_of seat.old.me.0).thread ≤ self.now.layout.threads) }
        requires owner { (fields_of expected).owner ≡ (card_of seat.old.me.0).thread }
        requires new { new ≡ marked_word expected }
        requires layout { L.layout ≡ self.now.layout }
        ensures table { seat.new.table_id ≡ seat.old.table_id }
        ensures one { IsOne seat.new.me }
        ensures marks { Marks self.now.layout at expected (card_of seat.old.me.0) result (card_of seat.new.me.0) }
    {
        self.places
            .compare_exchange::<Mark<L>>(seat, at as usize, expected, new)
    }
}
