//! A rule of words by place, as a rule of a table.
use atomic_table::{Play, TableRule};
use std::marker::PhantomData;

/// A rule of words by place: what holds of them and of all views between any two steps, and of how many words it is.
pub trait PlaceRule<V, K> {
    ghost use Rattle.std.specs.Prelude.{ℕ};
    ghost use Rattle.atomic_table.specs.Table.{State};

    ghost holds: { K → State (Unit {0}) V → Type 0 };

    // The view of the first seat.
    ghost first: { K → V };

    ghost how_many: { K → ℕ };
}

/// The rule of the table in which these words lie.
pub struct Spread<P> {
    rule: PhantomData<P>,
}

impl<V, K, P: PlaceRule<V, K>> TableRule<(), V, K> for Spread<P> {
    ghost use Rattle.cachelines.specs.Spread.{spread};

    ghost holds = { λ k. spread (P.how_many k) (P.holds k) };

    ghost first = { P.first };
}

/// What a step by place tells, of the step in memory.
pub(crate) struct At<M> {
    play: PhantomData<M>,
}

impl<V, M: Play<(), V>> Play<(), V> for At<M> {
    ghost use Rattle.cachelines.specs.Spread.{at_place};

    ghost then = { λ st. M.then (at_place st) };
}
