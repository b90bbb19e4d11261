//! Two passes that meet, and what is known of the words once all passes are given back.
ghost use Rattle.std.specs.Prelude.{◌≡◌, ◌<◌, List, [], ◌∷◌, ◌++◌, Some, All, IfSome, length, map, slice_index};
ghost use Rattle.memorymap.specs.Layouts.{cell_place, counter_place};
ghost use Rattle.ruledwords.specs.Seen.{Joined, AreExclusive};
ghost use Rattle.ruledwords.specs.Lists.{StaysSo};
ghost use Rattle.ruledwords.specs.Passes.{card, layout_of, IsPassOf, presets_of, last_layout, last_words};
ghost use Rattle.ruledwords.specs.declared.pass.Card.{Card};
ghost use Rattle.ruledwords.specs.declared.pass.Words.{Words};
ghost use Rattle.ruledwords.specs.Gathered.{HaveCome};
ghost use Rattle.ruledwords.specs.Rules.{Ends};

use crate::pass::{Last, Pass, Spent, View, Words};
use crate::rule::{Deal, Gather, Meet};
use atomic_table::Seat;
use std::marker::PhantomData;

impl Words {
    /// Joins what two passes have seen. After it no mutex is held by both their threads.
    pub fn meet<A, B>(&self, first: Pass<A>, second: Pass<B>) -> (Pass<A>, Pass<B>)
        requires first { IsPassOf self.now first }
        requires second { IsPassOf self.now second }
        ensures passes { IsPassOf self.now result.0 × IsPassOf self.now result.1 }
        ensures lists { StaysSo (layout_of self.now) (card first) (card result.0)
            × StaysSo (layout_of self.now) (card second) (card result.1) }
        ensures joined { Joined (card first) (card second) (card result.0) (card result.1) }
        ensures exclusive { AreExclusive (card result.0) (card result.1) }
    {
        let Pass {
            mut seat,
            thread,
            held,
            state,
        } = first;
        let Pass {
            seat: other_seat,
            thread: other_thread,
            held: other_held,
            state: other_state,
        } = second;
        let places = &self.places;
        places.join_seat::<Gather>(&mut seat, other_seat);
        places.load::<Meet>(&mut seat, 0);
        let mine = places.split_seat::<Deal>(&mut seat);
        (
            Pass {
                seat: mine,
                thread,
                held,
                state,
            },
            Pass {
                seat,
                thread: other_thread,
                held: other_held,
                state: other_state,
            },
        )
    }
}

impl<A> Pass<A> {
    /// Puts the pass aside for the end of the words, where those of the living and of the reaped meet
    /// ([`Words::close_all`]). What it has seen stays.
    pub fn spent(self) -> Pass<Spent>
        ensures card { card result ≡ card self }
        ensures words { (w : Words) → IsPassOf w self → IsPassOf w result }
    {
        let Pass {
            seat,
            thread,
            held,
            state: _,
        } = self;
        Pass {
            seat,
            thread,
            held,
            state: PhantomData,
        }
    }
}

impl Words {
    /// Ends the words. The history of each mutex begins with what the pass has seen, and counters count what counts in
    /// it.
    pub fn close<A>(self, pass: Pass<A>) -> Last
        requires { IsPassOf self pass }
        ensures layout { last_layout result ≡ layout_of self }
        ensures ends { Ends (layout_of self) (presets_of self) (card pass ∷ []) (last_words result) }
    {
        let Words { places, layout } = self;
        let Pass {
            seat,
            thread: _,
            held: _,
            state: _,
        } = pass;
        let closed = places.close_with(seat);
        Last { closed, layout }
    }

    /// Ends the words, and all these passes meet. One history of each mutex has what any of them has seen, with of each
    /// of their threads just the thread's own points; and counters count what counts in it.
    pub fn close_all<A: Drop>(self, passes: Vec<Pass<A>>) -> Last
        requires { All (λ p. IsPassOf self p) passes.items }
        ensures layout { last_layout result ≡ layout_of self }
        ensures ends { Ends (layout_of self) (presets_of self) (map (λ p. card p) passes.items) (last_words result) }
    {
        let seat = self.gathered(passes);
        match seat {
            Some(seat) => self.ended_with(seat),
            None => self.ended_alone(),
        }
    }

    /// The end of the words, with a seat that has the cards of all passes.
    fn ended_with(self, seat: Seat<(), View>) -> Last
        requires { seat.table_id ≡ self.places.table.shared.table_id }
        ensures layout { last_layout result ≡ layout_of self }
        ensures ends { Ends (layout_of self) (presets_of self) seat.me.0 (last_words result) }
    {
        let Words { places, layout } = self;
        let last = places.close_with(seat);
        Last {
            closed: last,
            layout,
        }
    }

    /// The end of words that nobody's pass has seen.
    fn ended_alone(self) -> Last
        ensures layout { last_layout result ≡ layout_of self }
        ensures ends { Ends (layout_of self) (presets_of self) [] (last_words result) }
    {
        let Words { places, layout } = self;
        let closed = places.close();
        Last { closed, layout }
    }

    /// The seats of all passes as one, if there are any.
    fn gathered<A: Drop>(&self, passes: Vec<Pass<A>>) -> Option<Seat<(), View>>
        requires { All (λ p. IsPassOf self.now p) passes.items }
        ensures { HaveCome self.now (map (λ p. card p) passes.items) result }
    {
        let mut seat = None;
        for pass in passes {
            seat = Some(self.joined(seat, pass));
        }
        seat
    }

    /// One seat more.
    pub(crate) fn joined<A>(&self, seat: Option<Seat<(), View>>, pass: Pass<A>) -> Seat<(), View>
        requires seat { IfSome seat (λ s. s.table_id ≡ self.now.places.table.shared.table_id) }
        requires pass { IsPassOf self.now pass }
        ensures { (cards : List Card) → HaveCome self.now cards seat
            → HaveCome self.now (cards ++ card pass ∷ []) (Some result) }
    {
        let Pass {
            seat: other,
            thread: _,
            held: _,
            state: _,
        } = pass;
        match seat {
            Some(mut seat) => {
                self.places.join_seat::<Gather>(&mut seat, other);
                seat
            }
            None => other,
        }
    }
}

impl Last {
    /// The word of a mutex's cell.
    pub fn cell(&self, mutex: u16) -> u64
        requires { mutex < (last_layout self.now).mutexes }
        ensures { result ≡ slice_index (last_words self.now) (cell_place (last_layout self.now) mutex) }
    {
        self.closed.word(self.layout.cell(mutex) as usize)
    }

    /// The word of a condition variable's counter.
    pub fn counter(&self, condition: u16) -> u64
        requires { condition < length (last_layout self.now).conditions }
        ensures { result ≡ slice_index (last_words self.now) (counter_place (last_layout self.now) condition) }
    {
        self.closed.word(self.layout.counter(condition) as usize)
    }
}
