//! Single steps on the word of a place, and views that are cut in two or made one.
ghost use Rattle.std.specs.Prelude.{◌≡◌, ◌+◌, ◌%◌, ◌^◌, ◌<◌, [], ◌==◌, bit_and, bit_or, bit_xor};
ghost use mathlib.Core.Option.{none};
ghost use prog.Atomic.{either};
ghost use Rattle.atomic_table.specs.Table.{step, Allows, Splits, Joins};

use crate::places::Places;
use crate::rule::{At, PlaceRule};
use crate::slot::slot;
use atomic_table::{Join, Play, Seat, Split};

impl<V, K, P: PlaceRule<V, K>> Places<V, K, P> {
    /// A view cut in two.
    pub fn split_seat<M: Split<V>>(&self, seat: &mut Seat<(), V>) -> Seat<(), V>
        requires all { self.now.count ≡ P.how_many self.now.table.shared.key }
        requires step { (seat.old.table_id ≡ self.now.table.shared.table_id)
            × Splits (P.holds self.now.table.shared.key) seat.old.id seat.old.me.0 (M.left seat.old.me.0)
            (M.right seat.old.me.0) }
        ensures { (seat.new.table_id ≡ seat.old.table_id) × (seat.new.id ≡ seat.old.id)
            × (seat.new.me ≡ (M.left seat.old.me.0, seat.old.me.1)) × (result.table_id ≡ seat.old.table_id)
            × (result.me ≡ (M.right seat.old.me.0, [])) }
    {
        self.table.shared.split_seat::<M>(seat)
    }

    /// Two views made one.
    pub fn join_seat<M: Join<V>>(&self, seat: &mut Seat<(), V>, other: Seat<(), V>)
        requires all { self.now.count ≡ P.how_many self.now.table.shared.key }
        requires step { (seat.old.table_id ≡ self.now.table.shared.table_id)
            × (other.table_id ≡ self.now.table.shared.table_id) × (other.me.1 ≡ [])
            × Joins (P.holds self.now.table.shared.key) seat.old.id seat.old.me.0 other.id other.me.0
            (M.both seat.old.me.0 other.me.0) M.spent }
        ensures { (seat.new.table_id ≡ seat.old.table_id) × (seat.new.id ≡ seat.old.id)
            × (seat.new.me ≡ (M.both seat.old.me.0 other.me.0, seat.old.me.1)) }
    {
        self.table.shared.join_seat::<M>(seat, other);
    }

    #[inline(always)]
    pub fn load<M: Play<(), V>>(&self, seat: &mut Seat<(), V>, place: usize) -> u64
        requires all { self.now.count ≡ P.how_many self.now.table.shared.key }
        requires step { (seat.old.table_id ≡ self.now.table.shared.table_id) × (place < self.now.count)
            × Allows (P.holds self.now.table.shared.key) self.now.table.shared.table_id.slots seat.old.id seat.old.me
            place (λ n. n) (M.then (step self.now.table.shared.table_id.slots place 0 0 none) seat.old.me) }
        ensures { (seat.new.table_id ≡ seat.old.table_id) × (seat.new.id ≡ seat.old.id)
            × M.then (step self.now.table.shared.table_id.slots place 0 0 none) seat.old.me result seat.new.me }
    {
        self.table.shared.load::<At<M>>(seat, slot(place))
    }

    #[inline(always)]
    pub fn store<M: Play<(), V>>(&self, seat: &mut Seat<(), V>, place: usize, new: u64)
        requires all { self.now.count ≡ P.how_many self.now.table.shared.key }
        requires step { (seat.old.table_id ≡ self.now.table.shared.table_id) × (place < self.now.count)
            × Allows (P.holds self.now.table.shared.key) self.now.table.shared.table_id.slots seat.old.id seat.old.me
            place (λ _. new)
            (λ _. M.then (step self.now.table.shared.table_id.slots place new 0 none) seat.old.me new) }
        ensures { (seat.new.table_id ≡ seat.old.table_id) × (seat.new.id ≡ seat.old.id)
            × M.then (step self.now.table.shared.table_id.slots place new 0 none) seat.old.me new seat.new.me }
    {
        self.table.shared.store::<At<M>>(seat, slot(place), new);
    }

    #[inline(always)]
    pub fn fetch_add<M: Play<(), V>>(&self, seat: &mut Seat<(), V>, place: usize, k: u64) -> u64
        requires all { self.now.count ≡ P.how_many self.now.table.shared.key }
        requires step { (seat.old.table_id ≡ self.now.table.shared.table_id) × (place < self.now.count)
            × Allows (P.holds self.now.table.shared.key) self.now.table.shared.table_id.slots seat.old.id seat.old.me
            place (λ n. (n + k) % 2 ^ 64)
            (M.then (step self.now.table.shared.table_id.slots place k 0 none) seat.old.me) }
        ensures { (seat.new.table_id ≡ seat.old.table_id) × (seat.new.id ≡ seat.old.id)
            × M.then (step self.now.table.shared.table_id.slots place k 0 none) seat.old.me result seat.new.me }
    {
        self.table.shared.fetch_add::<At<M>>(seat, slot(place), k)
    }

    #[inline(always)]
    pub fn fetch_and<M: Play<(), V>>(&self, seat: &mut Seat<(), V>, place: usize, k: u64) -> u64
        requires all { self.now.count ≡ P.how_many self.now.table.shared.key }
        requires step { (seat.old.table_id ≡ self.now.table.shared.table_id) × (place < self.now.count)
            × Allows (P.holds self.now.table.shared.key) self.now.table.shared.table_id.slots seat.old.id seat.old.me
            place (λ n. bit_and n k) (M.then (step self.now.table.shared.table_id.slots place k 0 none) seat.old.me) }
        ensures { (seat.new.table_id ≡ seat.old.table_id) × (seat.new.id ≡ seat.old.id)
            × M.then (step self.now.table.shared.table_id.slots place k 0 none) seat.old.me result seat.new.me }
    {
        self.table.shared.fetch_and::<At<M>>(seat, slot(place), k)
    }

    #[inline(always)]
    pub fn fetch_or<M: Play<(), V>>(&self, seat: &mut Seat<(), V>, place: usize, k: u64) -> u64
        requires all { self.now.count ≡ P.how_many self.now.table.shared.key }
        requires step { (seat.old.table_id ≡ self.now.table.shared.table_id) × (place < self.now.count)
            × Allows (P.holds self.now.table.shared.key) self.now.table.shared.table_id.slots seat.old.id seat.old.me
            place (λ n. bit_or n k) (M.then (step self.now.table.shared.table_id.slots place k 0 none) seat.old.me) }
        ensures { (seat.new.table_id ≡ seat.old.table_id) × (seat.new.id ≡ seat.old.id)
            × M.then (step self.now.table.shared.table_id.slots place k 0 none) seat.old.me result seat.new.me }
    {
        self.table.shared.fetch_or::<At<M>>(seat, slot(place), k)
    }

    #[inline(always)]
    pub fn fetch_xor<M: Play<(), V>>(&self, seat: &mut Seat<(), V>, place: usize, k: u64) -> u64
        requires all { self.now.count ≡ P.how_many self.now.table.shared.key }
        requires step { (seat.old.table_id ≡ self.now.table.shared.table_id) × (place < self.now.count)
            × Allows (P.holds self.now.table.shared.key) self.now.table.shared.table_id.slots seat.old.id seat.old.me
            place (λ n. bit_xor n k) (M.then (step self.now.table.shared.table_id.slots place k 0 none) seat.old.me) }
        ensures { (seat.new.table_id ≡ seat.old.table_id) × (seat.new.id ≡ seat.old.id)
            × M.then (step self.now.table.shared.table_id.slots place k 0 none) seat.old.me result seat.new.me }
    {
        self.table.shared.fetch_xor::<At<M>>(seat, slot(place), k)
    }

    /// Returns the word as it was, which has become `new` if it was `old`.
    #[inline(always)]
    pub fn compare_exchange<M: Play<(), V>>(
        &self,
        seat: &mut Seat<(), V>,
        place: usize,
        old: u64,
        new: u64,
    ) -> u64
        requires all { self.now.count ≡ P.how_many self.now.table.shared.key }
        requires step { (seat.old.table_id ≡ self.now.table.shared.table_id) × (place < self.now.count)
            × Allows (P.holds self.now.table.shared.key) self.now.table.shared.table_id.slots seat.old.id seat.old.me
            place (λ n. either (n == old) new n)
            (M.then (step self.now.table.shared.table_id.slots place old new none) seat.old.me) }
        ensures { (seat.new.table_id ≡ seat.old.table_id) × (seat.new.id ≡ seat.old.id)
            × M.then (step self.now.table.shared.table_id.slots place old new none) seat.old.me result seat.new.me }
    {
        self.table
            .shared
            .compare_exchange::<At<M>>(seat, slot(place), old, new)
    }
}
