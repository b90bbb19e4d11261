//! Calls whose accesses are made one after the other, where the call stands: to their end, or up to a futex section.
ghost use Rattle.std.specs.Prelude.{◌≡◌, ◌+◌, true, false};
ghost use Rattle.mutex.specs.declared.call.Call.{Call};
ghost use Rattle.ruledwords.specs.declared.pass.Live.{Live};
ghost use Rattle.ruledwords.specs.declared.pass.Pass.{Pass};
ghost use Rattle.ruledwords.specs.Fates.{Heeds};
ghost use Rattle.ruledwords.specs.Outcomes.{card_after, Finishes, stops_in};
ghost use Rattle.ruledwords.specs.Passes.{card};
ghost use Rattle.ruledwords.specs.Stretches.{StepsOn, StepsOnce, StepsTo, Stretches, StretchesAlone, stops_stretching};
ghost use Rattle.ruledwords.specs.Turns.{EndsIn, IsCallOf, IsInNonblocking, IsOneStep, IsRunningOf};
ghost use Rattle.ruledwords.specs.Turns.{running_call, running_pass, stops_with, stops_within, TrimsNone};

use crate::fate::{Fate, Never, either_stops};
use crate::pass::{Live, Pass, Words};
use crate::turn::{Outcome, Running, Stretch};
use lockword::Reply;
use mutex::{Phase, Program, Row, TryLockRow};
use stepprograms::{Access, StepProgram};

/// How many accesses a stretch has at most after its first ones: what is left of a call that isn't crossed again and
/// again.
const STRETCH: u8 = 32;

/// How a call ends whose thread may die in it.
#[derive(Clone, Copy, Debug, PartialEq, Eq)]
pub(crate) enum End {
    /// The thread's fate told it to stop.
    Stopped,
    /// The call replied.
    Replied(Reply),
}

impl Words {
    /// Makes the call's next access, unless one of the thread's fates tells it to stop: its caller's, or the note of a
    /// kill. A call that comes to a futex section stays where it is.
    #[inline(always)]
    fn step<F: Fate, N: Fate>(
        &self,
        pass: &mut Pass<Live>,
        program: &mut Program,
        fate: &mut F,
        note: &mut N,
    ) -> Result<(), End>
        requires { IsCallOf self.now pass.old program.old }
        ensures steps { StepsOn self.now pass.old program.old pass.new program.new result }
        ensures once { StepsOnce self.now pass.old program.old pass.new program.new result }
        ensures fate { Heeds (F.stopped fate.old) (F.stopped fate.new) (N.stopped note.old) (N.stopped note.new)
            (stops_within result) }
    {
        if !is_step(program.next()) {
            return Ok(());
        }
        if either_stops(fate, note) {
            return Err(End::Stopped);
        }
        match self.advance(pass, program) {
            None => Ok(()),
            Some(reply) => Err(End::Replied(reply)),
        }
    }

    /// The accesses of a trylock that nobody crosses, one after the other: so the compiler knows at each where the call
    /// stands. Of one that meets an owned or a changed cell some of them, of other calls none. It is here for speed
    /// alone: its contract lets it make fewer.
    #[inline(always)]
    fn first_steps<F: Fate, N: Fate>(
        &self,
        pass: &mut Pass<Live>,
        begun: Program,
        fate: &mut F,
        note: &mut N,
    ) -> Result<Program, End>
        requires { IsCallOf self.now pass.old begun }
        ensures steps { StepsTo self.now pass.old begun pass.new result }
        ensures fate { Heeds (F.stopped fate.old) (F.stopped fate.new) (N.stopped note.old) (N.stopped note.new)
            (stops_within result) }
    {
        let mut program = begun;
        if !begins(program.phase()) {
            return Ok(program);
        }
        self.step(pass, &mut program, fate, note)?;
        self.step(pass, &mut program, fate, note)?;
        if !takes(program.phase()) {
            return Ok(program);
        }
        self.step(pass, &mut program, fate, note)?;
        let Phase::Linking { .. } = program.phase() else {
            return Ok(program);
        };
        self.step(pass, &mut program, fate, note)?;
        self.step(pass, &mut program, fate, note)?;
        self.step(pass, &mut program, fate, note)?;
        self.step(pass, &mut program, fate, note)?;
        self.step(pass, &mut program, fate, note)?;
        self.step(pass, &mut program, fate, note)?;
        Ok(program)
    }

    /// All further accesses of the call.
    pub(crate) fn last_steps<F: Fate>(
        &self,
        pass: &mut Pass<Live>,
        begun: Program,
        fate: &mut F,
    ) -> End
        requires { IsInNonblocking self.now pass.old begun }
        ensures ends { EndsIn self.now pass.old begun pass.new result }
        ensures trims { TrimsNone (card pass.old) (card pass.new) }
        ensures fate { F.stopped fate.new ≡ F.stopped fate.old + stops_with result }
    {
        let mut program = begun;
        loop {
            if let Err(end) = self.step(pass, &mut program, fate, &mut Never) {
                return end;
            }
        }
    }

    /// All accesses of the call, from where it stands.
    #[inline(always)]
    fn all_steps<F: Fate>(&self, pass: &mut Pass<Live>, program: Program, fate: &mut F) -> End
        requires { IsInNonblocking self.now pass.old program }
        ensures ends { EndsIn self.now pass.old program pass.new result }
        ensures trims { TrimsNone (card pass.old) (card pass.new) }
        ensures fate { F.stopped fate.new ≡ F.stopped fate.old + stops_with result }
    {
        match self.first_steps(pass, program, fate, &mut Never) {
            Ok(program) => self.last_steps(pass, program, fate),
            Err(end) => end,
        }
    }

    /// The call from where it stands to its end.
    #[inline(always)]
    pub(crate) fn finish<F: Fate>(&self, running: Running, fate: &mut F) -> Outcome
        requires { IsInNonblocking self.now (running_pass running) (running_call running) }
        ensures finishes { Finishes self.now (running_pass running) (running_call running) result }
        ensures trims { TrimsNone (card (running_pass running)) (card_after result) }
        ensures fate { F.stopped fate.new ≡ F.stopped fate.old + stops_in result }
    {
        let Running { mut pass, program } = running;
        match self.all_steps(&mut pass, program, fate) {
            End::Replied(reply) => Outcome::Lives(pass, reply),
            End::Stopped => Outcome::Dead(pass.died()),
        }
    }

    /// Further accesses of the call, up to a futex section, and not too many of them, as a lock that is crossed again
    /// and again has no last one.
    fn more_steps<F: Fate, N: Fate>(
        &self,
        pass: &mut Pass<Live>,
        begun: Program,
        fate: &mut F,
        note: &mut N,
    ) -> Result<Program, End>
        requires { IsCallOf self.now pass.old begun }
        ensures steps { StepsTo self.now pass.old begun pass.new result }
        ensures fate { Heeds (F.stopped fate.old) (F.stopped fate.new) (N.stopped note.old) (N.stopped note.new)
            (stops_within result) }
    {
        let mut program = begun;
        for _ in 0..STRETCH {
            if !is_step(program.next()) {
                return Ok(program);
            }
            self.step(pass, &mut program, fate, note)?;
        }
        Ok(program)
    }
}

impl Running {
    /// Makes accesses that come next, one after the other where the call stands, up to a futex section, or its end, or
    /// its thread's death, and not too many of them: the fate is asked before each, and then the note, by which others
    /// can tell the thread to stop ([`Never`](crate::Never) where nobody can). It goes on where it is called again or
    /// where the next access is made by [`Running::access`]. It is here for speed: an access by itself moves the call.
    pub fn more<F: Fate, N: Fate>(self, words: &Words, fate: &mut F, note: &mut N) -> Stretch
        requires words { IsRunningOf words.now self }
        ensures stretches { Stretches words.now self result }
        ensures alone { StretchesAlone words.now (running_pass self) (running_call self) result }
        ensures fate { Heeds (F.stopped fate.old) (F.stopped fate.new) (N.stopped note.old) (N.stopped note.new)
            (stops_stretching result) }
    {
        let Running { mut pass, program } = self;
        match words.more_steps(&mut pass, program, fate, note) {
            Ok(program) => Stretch::Goes(Running { pass, program }),
            Err(end) => match end {
                End::Replied(said) => Stretch::Lives(pass, said),
                End::Stopped => Stretch::Dead(pass.died()),
            },
        }
    }
}

/// Whether a trylock begins there.
#[inline(always)]
fn begins(phase: Phase) -> bool {
    matches!(
        phase,
        Phase::Announcing {
            next: Row::TryLock(TryLockRow::Load)
        }
    )
}

/// Whether a trylock takes its mutex there.
#[inline(always)]
fn takes(phase: Phase) -> bool {
    matches!(phase, Phase::AtCell(Row::TryLock(TryLockRow::Take { .. })))
}

/// Whether an access is one step on one word, and no futex section.
#[inline(always)]
fn is_step(access: Access) -> bool
    ensures step { result ≡ true → IsOneStep access }
    ensures section { result ≡ false → ¬ IsOneStep access }
{
    matches!(
        access,
        Access::Load { .. }
            | Access::Store { .. }
            | Access::Exchange { .. }
            | Access::FetchXor { .. }
            | Access::FetchOr { .. }
            | Access::FetchAnd { .. }
    )
}
