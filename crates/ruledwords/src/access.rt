//! Accesses to words of each kind: a thread's own words, the cell of a call, the words of a call on a condition
//! variable; and looks and trims, by which nothing new is seen.
ghost use Rattle.std.specs.Prelude.{◌≡◌, ◌<◌, ◌≤◌, ℕ, Some, ◌+◌, ◌==◌, if◌then◌else◌, length};
ghost use Rattle.stepprograms.specs.Accesses.{address_of, answer_at};
ghost use Rattle.memorymap.specs.Layouts.{base_of, words_of, place_in, cell_place, counter_place};
ghost use Rattle.robustlist.specs.Words.{answer_on};
ghost use Rattle.mutex.specs.Programs.{access_of};
ghost use Rattle.mutex.specs.Rows.{IsGoing};
ghost use Rattle.mutex.specs.Steps.{IsStep};
ghost use Rattle.condvar.specs.Whole.{cond_access, IsUnderWay};
ghost use Rattle.condvar.specs.Laws.{largest_counter};
ghost use Rattle.ruledwords.specs.Cards.{value_at};
ghost use Rattle.ruledwords.specs.Lists.{known};
ghost use Rattle.ruledwords.specs.OwnWords.{IsOwn, KnowsOwn, knowing, own_after};
ghost use Rattle.ruledwords.specs.Rules.{card_of, IsOne};
ghost use Rattle.ruledwords.specs.Turns.{IsLoadOrStore, IsAtCell};
ghost use Rattle.ruledwords.specs.Calls.{Ready, IsOnMutex, IsInLayout, Made, OwnKept, standing_of};
ghost use Rattle.ruledwords.specs.Passes.{IsCardOf};
ghost use Rattle.ruledwords.specs.ConditionCalls.{CanAct, HasActed, IsSeatedCondCall, FindsCondWord, IsCondStep};
ghost use Rattle.ruledwords.specs.Changes.{Writes};
ghost use Rattle.ruledwords.specs.Found.{place_found, word_found};
ghost use Rattle.ruledwords.specs.Looks.{Finds, noted};

use crate::counter::CounterWord;
use crate::pass::{Live, Pass, View, Words};
use crate::rule::{Look, LookAtCounter, Recall, Store, Trim};
use atomic_table::{Play, Seat};
use condvar::{CondPhase, CondProgram};
use lockword::{Tid, WAITERS};
use memorymap::seen_at;
use mutex::Program;
use std::marker::{Brand, PhantomData};
use stepprograms::{Access, StepProgram};

impl Words {
    /// Makes a load or a store of one of the thread's own words, by its address in the thread's process, which maps the
    /// words at this base, and gives the word of a load.
    #[inline(always)]
    pub(crate) fn access_own(&self, seat: &mut Seat<(), View>, base: u64, access: Access) -> u64
        requires table { seat.old.table_id ≡ self.now.places.table.shared.table_id }
        requires one { IsOne seat.old.me }
        requires base { base ≡ base_of self.now.layout (card_of seat.old.me.0).thread }
        requires thread { (1 ≤ (card_of seat.old.me.0).thread)
            × ((card_of seat.old.me.0).thread ≤ self.now.layout.threads) }
        requires kind { IsLoadOrStore access }
        requires own { IsOwn self.now.layout (card_of seat.old.me.0)
            (place_in self.now.layout (card_of seat.old.me.0).thread (address_of access)) }
        requires knows { KnowsOwn self.now.layout (card_of seat.old.me.0) }
        requires address { address_of access < 0x1_0000_0000_0000_0000 }
        ensures table { seat.new.table_id ≡ seat.old.table_id }
        ensures one { IsOne seat.new.me }
        ensures card { card_of seat.new.me.0 ≡ own_after self.now.layout (card_of seat.old.me.0) access }
        ensures answer { answer_at access result ≡ answer_on access (known self.now.layout (card_of seat.old.me.0)) }
    {
        match access {
            Access::Load { at } => {
                let place = seen_at(base, at);
                self.recall(seat, place)
            }
            Access::Store { at, value } => {
                let place = seen_at(base, at);
                self.store(seat, place, value);
                0
            }
            _ => unreachable!(),
        }
    }

    /// The word at a place, which is the one that the thread knows there, if it knows one.
    #[inline(always)]
    pub(crate) fn recall(&self, seat: &mut Seat<(), View>, at: u64) -> u64
        requires table { seat.old.table_id ≡ self.now.places.table.shared.table_id }
        requires one { IsOne seat.old.me }
        requires place { at < words_of self.now.layout }
        ensures table { seat.new.table_id ≡ seat.old.table_id }
        ensures me { seat.new.me ≡ seat.old.me }
        ensures value { (x : ℕ) → value_at (card_of seat.old.me.0).values at ≡ Some x → result ≡ x }
    {
        self.places.load::<Recall>(seat, at as usize)
    }

    /// Stores a word at one of the thread's own places, and knows it from then on.
    #[inline(always)]
    pub(crate) fn store(&self, seat: &mut Seat<(), View>, at: u64, value: u64)
        requires table { seat.old.table_id ≡ self.now.places.table.shared.table_id }
        requires one { IsOne seat.old.me }
        requires thread { (1 ≤ (card_of seat.old.me.0).thread)
            × ((card_of seat.old.me.0).thread ≤ self.now.layout.threads) }
        requires own { IsOwn self.now.layout (card_of seat.old.me.0) at }
        ensures table { seat.new.table_id ≡ seat.old.table_id }
        ensures one { IsOne seat.new.me }
        ensures card { card_of seat.new.me.0 ≡ knowing (card_of seat.old.me.0) at value }
    {
        self.places.store::<Store>(seat, at as usize, value);
    }
}

/// The call whose access is made, for the proofs.
pub(crate) trait Making {
    ghost use Rattle.mutex.specs.Standings.{Standing};

    ghost program: { Standing };

    ghost use Rattle.memorymap.specs.Layouts.{Layout'};

    ghost layout: { Layout' };
}

impl Making for Brand {
    ghost use Rattle.lockword.specs.declared.reply.Reply.TheVariants.{OK};
    ghost use Rattle.mutex.specs.declared.row.Row.TheVariants.{Ended};

    ghost program = { record { thread = 0; cell = 0; row = Ended OK } };

    ghost use Rattle.std.specs.Prelude.{[]};

    ghost layout = { record { threads = 0; mutexes = 0; conditions = []; bases = []; processes = [] } };
}

pub(crate) struct Make<M> {
    making: PhantomData<M>,
}

impl<M: Making> Play<(), View> for Make<M> {
    ghost use Rattle.ruledwords.specs.Calls.{made};

    ghost then = { made M.layout M.program };
}

impl Words {
    /// The place of the word that a thread's process has at an address.
    #[inline(always)]
    pub(crate) fn place(&self, thread: Tid, address: u64) -> u64
        requires thread { thread ≤ self.now.layout.threads }
        ensures { result ≡ place_in self.now.layout thread address }
    {
        address.wrapping_sub(self.layout.base(thread))
    }

    /// Makes the call's next access, which is one step on its cell, and gives the word that it found. The thread's
    /// process maps the words at this base.
    #[inline(always)]
    pub(crate) fn make<M: Making>(
        &self,
        seat: &mut Seat<(), View>,
        base: u64,
        program: &Program,
    ) -> u64
        requires table { seat.old.table_id ≡ self.now.places.table.shared.table_id }
        requires one { IsOne seat.old.me }
        requires base { base ≡ base_of self.now.layout M.program.thread }
        requires place { IsInLayout self.now.layout M.program }
        requires cell { IsAtCell program.now.phase }
        requires is { M.program ≡ standing_of program.now }
        requires layout { M.layout ≡ self.now.layout }
        requires going { IsGoing M.program.row }
        requires step { IsStep (access_of M.program) }
        requires ready { Ready M.program (card_of seat.old.me.0) }
        requires card { IsCardOf self.now.layout (card_of seat.old.me.0) }
        ensures table { seat.new.table_id ≡ seat.old.table_id }
        ensures one { IsOne seat.new.me }
        ensures own { OwnKept self.now.layout (card_of seat.old.me.0) (card_of seat.new.me.0) }
        ensures made { (m : ℕ) × IsOnMutex self.now.layout M.program m
            × Made M.program (cell_place self.now.layout m) (card_of seat.old.me.0) result (card_of seat.new.me.0) }
    {
        let places = &self.places;
        match program.next() {
            Access::Load { at } => { places.load::<Make<M>>(seat, seen_at(base, at) as usize) }
            Access::Exchange { at, expected, new } => {
                places.compare_exchange::<Make<M>>(seat, seen_at(base, at) as usize, expected, new)
            }
            Access::FetchXor { at, operand } => {
                places.fetch_xor::<Make<M>>(seat, seen_at(base, at) as usize, operand)
            }
            Access::FetchOr { at, operand } => {
                places.fetch_or::<Make<M>>(seat, seen_at(base, at) as usize, operand)
            }
            Access::FetchAnd { at, operand } => {
                places.fetch_and::<Make<M>>(seat, seen_at(base, at) as usize, operand)
            }
            _ => unreachable!(),
        }
    }
}

/// The call whose access is made, for the proofs.
pub(crate) trait Acting {
    ghost use Rattle.std.specs.Prelude.{ℕ};
    ghost use Rattle.memorymap.specs.Layouts.{Layout'};
    ghost use Rattle.ruledwords.specs.Conditions.{CondStanding};

    ghost layout: { Layout' };

    ghost condition: { ℕ };

    ghost standing: { CondStanding };
}

impl Acting for Brand {
    ghost use Rattle.std.specs.Prelude.{[]};
    ghost use Rattle.condvar.specs.declared.row.CondRow.TheVariants.{Awake};

    ghost layout = { record { threads = 0; mutexes = 0; conditions = []; bases = []; processes = [] } };

    ghost condition = { 0 };

    ghost standing = { record { thread = 0; cell = 0; counter = 0; row = Awake } };
}

pub(crate) struct Act<A> {
    acting: PhantomData<A>,
}

impl<A: Acting> Play<(), View> for Act<A> {
    ghost use Rattle.ruledwords.specs.Conditions.{acted};

    ghost then = { acted A.layout A.condition A.standing };
}

impl Words {
    /// Makes the access of a call, which is one step on its mutex's cell or on its counter, and gives the word that it
    /// found.
    pub(crate) fn act<A: Acting>(
        &self,
        seat: &mut Seat<(), View>,
        thread: Tid,
        program: &CondProgram,
    ) -> u64
        requires call { CanAct self.now seat.old thread A.layout A.condition A.standing (cond_access program.now) }
        requires going { IsUnderWay program.now.phase }
        ensures { HasActed self.now seat.old seat.new A.condition A.standing result }
    {
        let places = &self.places;
        match program.next() {
            Access::Load { at } => places.load::<Act<A>>(seat, self.place(thread, at) as usize),
            Access::FetchXor { at, operand } => {
                places.fetch_xor::<Act<A>>(seat, self.place(thread, at) as usize, operand)
            }
            Access::FetchOr { at, operand } => {
                places.fetch_or::<Act<A>>(seat, self.place(thread, at) as usize, operand)
            }
            Access::FetchAdd { at, operand } => {
                places.fetch_add::<Act<A>>(seat, self.place(thread, at) as usize, operand)
            }
            _ => unreachable!(),
        }
    }

    /// The word that the access of a call on a condition variable finds: at the mutex's cell or at the counter, or at a
    /// word that the thread alone writes.
    pub(crate) fn found_in_condition(
        &self,
        seat: &mut Seat<(), View>,
        thread: Tid,
        program: &CondProgram,
        access: Access,
    ) -> u64
        requires call { IsSeatedCondCall self.now seat.old thread program.now }
        requires step { IsCondStep (cond_access program.now) }
        requires access { access ≡ cond_access program.now }
        ensures { FindsCondWord self.now seat.old seat.new program.now result }
    {
        match program.phase() {
            CondPhase::AtWords(_) => self.act::<Brand>(seat, thread, program),
            _ => {
                let base = self.layout.base(thread);
                self.access_own(seat, base, access)
            }
        }
    }
}

impl Words {
    /// The word of a mutex's cell, as it is.
    pub(crate) fn look(&self, pass: &mut Pass<Live>, at: u64) -> u64
        requires table { pass.old.seat.table_id ≡ self.now.places.table.shared.table_id }
        requires place { (m : ℕ) × (m < self.now.layout.mutexes) × (at ≡ cell_place self.now.layout m) }
        ensures table { pass.new.seat.table_id ≡ pass.old.seat.table_id }
        ensures card { card_of pass.new.seat.me.0
            ≡ noted (card_of pass.old.seat.me.0) result (card_of pass.old.seat.me.0).trims
            (card_of pass.old.seat.me.0).changes }
        ensures held { pass.new.held ≡ pass.old.held }
        ensures finds { Finds (card_of pass.old.seat.me.0) at result }
    {
        let _thread = pass.thread;
        self.places.load::<Look>(&mut pass.seat, at as usize)
    }

    /// The word of a condition variable's counter, as it is.
    pub(crate) fn look_at_counter(&self, pass: &mut Pass<Live>, at: u64) -> CounterWord
        requires table { pass.old.seat.table_id ≡ self.now.places.table.shared.table_id }
        requires place { (q : ℕ) × (q < length self.now.layout.conditions) × (at ≡ counter_place self.now.layout q) }
        ensures table { pass.new.seat.table_id ≡ pass.old.seat.table_id }
        ensures place { place_found result ≡ at }
        ensures card { card_of pass.new.seat.me.0
            ≡ noted (card_of pass.old.seat.me.0) (word_found result) (card_of pass.old.seat.me.0).trims
            (card_of pass.old.seat.me.0).changes }
        ensures held { pass.new.held ≡ pass.old.held }
        ensures small { word_found result ≤ largest_counter }
        ensures known { (x : ℕ) → value_at (card_of pass.old.seat.me.0).values at ≡ Some x → word_found result ≡ x }
    {
        let _thread = pass.thread;
        CounterWord {
            at,
            word: self
                .places
                .load::<LookAtCounter>(&mut pass.seat, at as usize),
        }
    }

    /// Makes the word of a mutex's cell 0 where WAITERS is all that it says, and gives the word that it found.
    pub(crate) fn trim_cell(&self, pass: &mut Pass<Live>, at: u64) -> u64
        requires table { pass.old.seat.table_id ≡ self.now.places.table.shared.table_id }
        requires place { (m : ℕ) × (m < self.now.layout.mutexes) × (at ≡ cell_place self.now.layout m) }
        ensures table { pass.new.seat.table_id ≡ pass.old.seat.table_id }
        ensures card { card_of pass.new.seat.me.0
            ≡ noted (card_of pass.old.seat.me.0) result ((card_of pass.old.seat.me.0).trims + 1)
            (card_of pass.new.seat.me.0).changes }
        ensures held { pass.new.held ≡ pass.old.held }
        ensures finds { Finds (card_of pass.old.seat.me.0) at result }
        ensures writes { Writes (card_of pass.old.seat.me.0) at result (if result == 0x8000_0000 then 0 else result)
            (card_of pass.new.seat.me.0) }
    {
        let _thread = pass.thread;
        self.places
            .compare_exchange::<Trim>(&mut pass.seat, at as usize, WAITERS, 0)
    }
}
