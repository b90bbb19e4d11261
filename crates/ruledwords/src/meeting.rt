//! Passes that meet, all of them at once.
ghost use Rattle.std.specs.Prelude.{◌≡◌, List, [], ◌∷◌, ◌++◌, Some, All, length, map, IfOk, IfSome};
ghost use Rattle.ruledwords.specs.declared.pass.Card.{Card};
ghost use Rattle.ruledwords.specs.declared.pass.Words.{Words};
ghost use Rattle.ruledwords.specs.Aways.{away_of, kind_of, AreTheirs, IsAt};
ghost use Rattle.ruledwords.specs.Gathered.{HaveCome};
ghost use Rattle.ruledwords.specs.Meetings.{card_in, is_first, HaveMet, IsEitherOf, KnowAll};
ghost use Rattle.ruledwords.specs.Rules.{card_of, IsOne};
ghost use Rattle.ruledwords.specs.Seen.{held};

use crate::away::Away;
use crate::pass::{EitherPass, Pass, View, Words};
use crate::rule::{Deal, MeetAll};
use atomic_table::Seat;
use std::alloc::{AllocError, Global};
use std::marker::PhantomData;

impl Away {
    /// The pass, with a seat of its own again.
    fn back<A, B>(self, seat: Seat<(), View>) -> EitherPass<A, B>
        requires one { IsOne seat.me }
        requires own { (card_of seat.me.0).thread ≡ self.thread }
        requires count { self.held ≡ held (card_of seat.me.0) }
        ensures card { card_in result ≡ card_of seat.me.0 }
        ensures kind { is_first result ≡ self.is_first }
        ensures words { (w : Words) → seat.table_id ≡ w.places.table.shared.table_id → IsAt w result }
    {
        let Away {
            thread,
            held,
            is_first,
        } = self;
        if is_first {
            EitherPass::First(Pass {
                seat,
                thread,
                held,
                state: PhantomData,
            })
        } else {
            EitherPass::Second(Pass {
                seat,
                thread,
                held,
                state: PhantomData,
            })
        }
    }
}

impl<A, B> EitherPass<A, B> {
    /// What is left of it without its seat.
    fn away(&self) -> Away
        ensures { result ≡ away_of self.now }
    {
        match self {
            EitherPass::First(pass) => Away {
                thread: pass.thread,
                held: pass.held,
                is_first: true,
            },
            EitherPass::Second(pass) => Away {
                thread: pass.thread,
                held: pass.held,
                is_first: false,
            },
        }
    }
}

/// What is left of each pass without its seat.
fn aways_of<A, B>(alloc: Global, passes: &[EitherPass<A, B>]) -> Result<Vec<Away>, AllocError>
    ensures { IfOk result (λ aways. aways.items ≡ map away_of passes.now) }
{
    let mut aways = Vec::new(alloc);
    for pass in passes {
        aways.push(pass.away())?;
    }
    Ok(aways)
}

impl Words {
    /// All these passes meet. Each comes to know all that any of them knows: of each mutex one legal history, in which
    /// each of their threads has just its own points; and it is of the kind that it was of. Passes are lost where no
    /// memory is left.
    pub fn meet_all<A: Drop, B: Drop>(
        &self,
        alloc: Global,
        passes: Vec<EitherPass<A, B>>,
    ) -> Result<Vec<EitherPass<A, B>>, AllocError>
        requires { All (IsEitherOf self.now) passes.items }
        ensures { IfOk result (λ met. HaveMet self.now passes.items met.items) }
    {
        let aways = aways_of(alloc, passes.as_slice())?;
        match self.together(passes) {
            Some(mut seat) => {
                self.places.load::<MeetAll>(&mut seat, 0);
                self.dealt(alloc, seat, aways.as_slice())
            }
            None => Ok(Vec::new(alloc)),
        }
    }

    /// The seats of all passes as one, if there are any.
    fn together<A: Drop, B: Drop>(&self, passes: Vec<EitherPass<A, B>>) -> Option<Seat<(), View>>
        requires { All (IsEitherOf self.now) passes.items }
        ensures { HaveCome self.now (map card_in passes.items) result }
    {
        let mut seat = None;
        for pass in passes {
            seat = Some(self.come(seat, pass));
        }
        seat
    }

    /// One seat more.
    fn come<A, B>(&self, seat: Option<Seat<(), View>>, pass: EitherPass<A, B>) -> Seat<(), View>
        requires seat { IfSome seat (λ s. s.table_id ≡ self.now.places.table.shared.table_id) }
        requires pass { IsEitherOf self.now pass }
        ensures { (cards : List Card) → HaveCome self.now cards seat
            → HaveCome self.now (cards ++ card_in pass ∷ []) (Some result) }
    {
        match pass {
            EitherPass::First(pass) => self.joined(seat, pass),
            EitherPass::Second(pass) => self.joined(seat, pass),
        }
    }

    /// A pass for each thread that is away, with its card of those that one seat has.
    fn dealt<A: Drop, B: Drop>(
        &self,
        alloc: Global,
        seat: Seat<(), View>,
        aways: &[Away],
    ) -> Result<Vec<EitherPass<A, B>>, AllocError>
        requires table { seat.table_id ≡ self.now.places.table.shared.table_id }
        requires none { seat.me.1 ≡ [] }
        requires as_many { length seat.me.0 ≡ length aways.now }
        requires theirs { AreTheirs aways.now seat.me.0 }
        ensures cards { IfOk result (λ passes. map card_in passes.items ≡ seat.me.0) }
        ensures kinds { IfOk result (λ passes. map is_first passes.items ≡ map kind_of aways.now) }
        ensures words { IfOk result (λ passes. All (IsAt self.now) passes.items) }
    {
        let mut seat = seat;
        let mut passes = Vec::new(alloc);
        for away in aways {
            let mine = self.places.split_seat::<Deal>(&mut seat);
            passes.push(away.back(mine))?;
        }
        Ok(passes)
    }
}
