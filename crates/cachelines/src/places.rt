//! Shared words by place: how they are made, and what takes them back.
ghost use Rattle.std.specs.Prelude.{◌≡◌, ◌<◌, ◌≤◌, ◌^◌, ℕ, [], length, IfOk, slice_index};
ghost use Rattle.std.specs.Mem.Slots.{slots_items};
ghost use Rattle.atomic_table.specs.Table.{opening, Final, Seen};
ghost use Rattle.cachelines.specs.Spread.{slot_of, slots_for, words_from};
ghost use Rattle.cachelines.specs.Closings.{words_at};

use crate::closed::Closed;
use crate::rule::{PlaceRule, Spread};
use crate::slot::{room, slot};
use atomic_table::{Seat, Table};
use std::alloc::{AllocError, Global};

/// Shared words by place, under a rule. They have no slots.
#[derive(Drop)]
pub struct Places<V, K, P: PlaceRule<V, K>> {
    pub table: Table<(), V, K, Spread<P>, Global>,
    /// How many.
    pub(crate) count: usize,
    pub ghost wide: { table.shared.table_id.words ≡ slots_for count },
    pub ghost few: { count < 2 ^ 60 },
    pub ghost bare: { table.shared.table_id.slots ≡ 0 },
}

impl<V, K, P: PlaceRule<V, K>> Places<V, K, P> {
    /// Words with these values, in the order of their places, and the first seat.
    pub fn of_words(
        alloc: Global,
        words: &[u64],
        about: &K,
    ) -> Result<(Places<V, K, P>, Seat<(), V>), AllocError>
        requires holds { P.holds about.now (opening words.now [] (P.first about.now)) }
        requires count { P.how_many about.now ≡ length words.now }
        ensures { IfOk result
            (λ t. (t.0.table.shared.key ≡ about.now) × (t.1.table_id ≡ t.0.table.shared.table_id) × (t.1.id ≡ 0)
            × (t.1.me ≡ (P.first about.now, [])) × (t.0.count ≡ length words.now)) }
    {
        let count = words.len();
        let apart = apart(alloc, words)?;
        let (table, seat) = Table::of_words(alloc, apart.as_slice(), about)?;
        Ok((Places { table, count }, seat))
    }

    /// The words after the last step.
    pub fn close(self) -> Closed
        requires { self.count ≡ P.how_many self.table.shared.key }
        ensures count { result.count ≡ self.count }
        ensures last { Final (P.holds self.table.shared.key) (words_at result) (slots_items result.closed.slots) }
    {
        let Places { table, count } = self;
        let closed = table.close();
        Closed { closed, count }
    }

    /// The same, and the last state has the seat's view.
    pub fn close_with(self, seat: Seat<(), V>) -> Closed
        requires all { self.count ≡ P.how_many self.table.shared.key }
        requires seat { seat.table_id ≡ self.table.shared.table_id }
        ensures count { result.count ≡ self.count }
        ensures last { Final (Seen (P.holds self.table.shared.key) seat.id seat.me.0) (words_at result)
            (slots_items result.closed.slots) }
    {
        let Places { table, count } = self;
        let closed = table.close_with(seat);
        Closed { closed, count }
    }
}

/// These words as they lie in memory; each gap is 0.
fn apart(alloc: Global, words: &[u64]) -> Result<Vec<u64>, AllocError>
    ensures count { IfOk result (λ v. length v.items ≡ slots_for (length words.now)) }
    ensures words { IfOk result (λ v. words_from (length words.now) 0 v.items ≡ words.now) }
{
    let mut apart = vec![in alloc; 0_u64; room(words.len())]?;
    for place in 0..words.len() {
        apart[slot(place)] = words[place];
    }
    Ok(apart)
}
