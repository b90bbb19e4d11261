//! The rule of the words, and what each kind of step tells its pass.
use crate::pass::{Opening, View};
use atomic_table::{Join, Play, Split};
use cachelines::PlaceRule;
use std::marker::{Brand, PhantomData};

/// Each mutex has one legal history, and counters count the signals and the broadcasts in it that were returned OK.
pub struct History;

impl PlaceRule<View, Opening> for History {
    ghost use Rattle.memorymap.specs.Layouts.{words_of};
    ghost use Rattle.ruledwords.specs.Rules.{Kept, presets_in, hand};

    ghost holds = { λ o. Kept o.layout (presets_in o) };

    ghost first = { λ o. hand o.layout (presets_in o) 1 o.layout.threads };

    ghost how_many = { λ o. words_of o.layout };
}

/// A load by a seat that has the cards of two threads.
pub(crate) struct Meet;

impl Play<(), View> for Meet {
    ghost use Rattle.ruledwords.specs.Rules.{met};

    ghost then = { met };
}

/// A load by a seat that has the cards of all threads that meet.
pub(crate) struct MeetAll;

impl Play<(), View> for MeetAll {
    ghost use Rattle.ruledwords.specs.Meetings.{met_all};

    ghost then = { met_all };
}

/// A load of a cell, by which nothing new is seen.
pub(crate) struct Look;

impl Play<(), View> for Look {
    ghost use Rattle.ruledwords.specs.Looks.{looked};

    ghost then = { looked };
}

/// A load of a counter, by which nothing new is seen.
pub(crate) struct LookAtCounter;

impl Play<(), View> for LookAtCounter {
    ghost use Rattle.ruledwords.specs.Conditions.{looked_at_counter};

    ghost then = { looked_at_counter };
}

/// A trim of a cell: an exchange from WAITERS alone to 0. Nothing new is seen by it.
pub(crate) struct Trim;

impl Play<(), View> for Trim {
    ghost use Rattle.ruledwords.specs.Looks.{trimmed};

    ghost then = { trimmed };
}

/// A load of a cell by which nothing new is seen, but that the thread remembers whether WAITERS was set there.
pub(crate) struct Examine;

impl Play<(), View> for Examine {
    ghost use Rattle.ruledwords.specs.Deaths.{examined};

    ghost then = { examined };
}

/// The layout of the words, for the proofs.
pub(crate) trait Placing {
    ghost use Rattle.memorymap.specs.Layouts.{Layout'};

    ghost layout: { Layout' };
}

impl Placing for Brand {
    ghost use Rattle.std.specs.Prelude.{[]};

    ghost layout = { record { threads = 0; mutexes = 0; conditions = []; bases = []; processes = [] } };
}

/// An exchange of a cell's word for the same one marked: the death of the mutex's owner.
pub(crate) struct Mark<L> {
    placing: PhantomData<L>,
}

impl<L: Placing> Play<(), View> for Mark<L> {
    ghost use Rattle.ruledwords.specs.Deaths.{marked};

    ghost then = { marked L.layout };
}

/// A load of one of the thread's own words.
pub(crate) struct Recall;

impl Play<(), View> for Recall {
    ghost use Rattle.ruledwords.specs.OwnWords.{recalled};

    ghost then = { recalled };
}

/// A store to one of the thread's own words.
pub(crate) struct Store;

impl Play<(), View> for Store {
    ghost use Rattle.ruledwords.specs.OwnWords.{stored};

    ghost then = { stored };
}

/// The first card goes to a seat of its own.
pub(crate) struct Deal;

impl Split<View> for Deal {
    ghost use Rattle.ruledwords.specs.Rules.{first_of, rest_of};

    ghost left = { rest_of };

    ghost right = { first_of };
}

/// Two seats' cards come to one.
pub(crate) struct Gather;

impl Join<View> for Gather {
    ghost use Rattle.std.specs.Prelude.{[], ◌++◌};

    ghost both = { λ v w. v ++ w };

    ghost spent = { [] };
}
