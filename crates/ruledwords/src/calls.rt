//! The calls on mutexes, which wait for nobody; unlocks up to the waking of sleepers, and their end.
ghost use Rattle.std.specs.Prelude.{◌≡◌, ◌<◌, ◌+◌, ℕ};
ghost use Rattle.ruledwords.specs.Calls.{IsOnMutex};
ghost use Rattle.lockword.specs.declared.reply.Reply.TheVariants.{OK};
ghost use Rattle.ruledwords.specs.Outcomes.{Tried, Frees, Declared, stops_in, stops_releasing, FreesFrom};
ghost use Rattle.ruledwords.specs.Outcomes.{owed_pass, owed_running, owed_wakes, IsOwedOf, Settles, Abandons};
ghost use Rattle.ruledwords.specs.Passes.{layout_of, IsLive, card};
ghost use Rattle.ruledwords.specs.declared.pass.Live.{Live};
ghost use Rattle.ruledwords.specs.declared.pass.Pass.{Pass};
ghost use Rattle.ruledwords.specs.Owing.{OwesThere};
ghost use Rattle.ruledwords.specs.Releases.{IsInRelease, ReleaseSteps, ReleasesAll, ReleasesOnce, ReleasesTo};
ghost use Rattle.ruledwords.specs.Turns.{running_call, running_pass, stops_within, running_program, IsDecided};
ghost use Rattle.ruledwords.specs.declared.pass.Words.{Words};

use crate::fate::Fate;
use crate::pass::{Dead, Live, Pass, Words};
use crate::step::End;
use crate::turn::{Outcome, Owed, Released, Running, Wakes};
use lockword::{Reply, Tid};
use mutex::{Call, Phase, Program, Row, UnlockRow};

impl Words {
    /// Takes a mutex if it is free (pthread_mutex_trylock). The reply is OK; EOWNERDEAD where its last owner died and
    /// nobody declared it consistent; EBUSY where it is owned; ENOTRECOVERABLE where it can't be used any more; XRACED
    /// after four exchanges that each found a changed cell; XHELD, with no access, where the thread holds 2,048
    /// mutexes. The fate is asked before each access, and the thread dies where it says so.
    pub fn try_lock<F: Fate>(&self, pass: Pass<Live>, mutex: u16, fate: &mut F) -> Outcome
        requires pass { IsLive self.now pass }
        requires mutex { mutex < (layout_of self.now).mutexes }
        ensures tried { Tried self.now mutex pass result }
        ensures fate { F.stopped fate.new ≡ F.stopped fate.old + stops_in result }
    {
        match Running::call(self, pass, Call::TryLock(mutex)) {
            Ok(running) => self.finish(running, fate),
            Err((pass, reply)) => Outcome::Lives(pass, reply),
        }
    }

    /// Declares that what a mutex guards is consistent again (pthread_mutex_consistent). The reply is OK to the owner
    /// of an inconsistent mutex, one that it took with EOWNERDEAD and hasn't declared consistent since; EINVAL to the
    /// owner of any other; EPERM where the thread doesn't own the mutex. Where it isn't OK, the mutex stays as it is.
    /// The fate is asked before each access, and the thread dies where it says so.
    pub fn consistent<F: Fate>(&self, pass: Pass<Live>, mutex: u16, fate: &mut F) -> Outcome
        requires pass { IsLive self.now pass }
        requires mutex { mutex < (layout_of self.now).mutexes }
        ensures declared { Declared self.now mutex pass result }
        ensures fate { F.stopped fate.new ≡ F.stopped fate.old + stops_in result }
    {
        match Running::call(self, pass, Call::Consistent(mutex)) {
            Ok(running) => self.finish(running, fate),
            Err((pass, reply)) => Outcome::Lives(pass, reply),
        }
    }

    /// Frees a mutex that the thread owns (pthread_mutex_unlock), up to the waking of sleepers. One that is
    /// inconsistent becomes unusable. Another's mutex is refused with EPERM. The fate is asked before each access, and
    /// the thread dies where it says so.
    #[inline(always)]
    pub fn release<F: Fate>(&self, pass: Pass<Live>, mutex: u16, fate: &mut F) -> Released
        requires pass { IsLive self.now pass }
        requires mutex { mutex < (layout_of self.now).mutexes }
        ensures frees { Frees self.now mutex pass result }
        ensures fate { F.stopped fate.new ≡ F.stopped fate.old + stops_releasing result }
    {
        match Running::call(self, pass, Call::Unlock(mutex)) {
            Ok(running) => self.release_to_wake(running, fate),
            Err((pass, reply)) => Released::Refused(pass, reply),
        }
    }
}

impl Words {
    /// Makes the unlock's next access, unless the thread's fate tells it to stop. One that has released its mutex stays
    /// where it is.
    #[inline(always)]
    fn release_step<F: Fate>(
        &self,
        pass: &mut Pass<Live>,
        program: &mut Program,
        fate: &mut F,
    ) -> Result<(), End>
        requires { IsInRelease self.now pass.old program.old }
        ensures steps { ReleaseSteps self.now pass.old program.old pass.new program.new result }
        ensures once { ReleasesOnce self.now pass.old program.old pass.new program.new result }
        ensures fate { F.stopped fate.new ≡ F.stopped fate.old + stops_within result }
    {
        if owing(program.phase()).is_some() {
            return Ok(());
        }
        if fate.stops() {
            return Err(End::Stopped);
        }
        match self.advance(pass, program) {
            None => Ok(()),
            Some(reply) => Err(End::Replied(reply)),
        }
    }

    /// The accesses of an unlock whose mutex stands last in its thread's list, which is the one taken first, one after
    /// the other: so the compiler knows at each where the call stands. Of any other, some of them. It is here for speed
    /// alone: its contract lets it make fewer.
    #[inline(always)]
    fn first_release_steps<F: Fate>(
        &self,
        pass: &mut Pass<Live>,
        begun: Program,
        fate: &mut F,
    ) -> Result<Program, End>
        requires { IsInRelease self.now pass.old begun }
        ensures steps { ReleasesTo self.now pass.old begun pass.new result }
        ensures fate { F.stopped fate.new ≡ F.stopped fate.old + stops_within result }
    {
        let mut program = begun;
        let Phase::AtCell(Row::Unlock(UnlockRow::Load)) = program.phase() else {
            return Ok(program);
        };
        self.release_step(pass, &mut program, fate)?;
        let Phase::Announcing {
            next: Row::Unlock(UnlockRow::Release { .. }),
        } = program.phase()
        else {
            return Ok(program);
        };
        self.release_step(pass, &mut program, fate)?;
        self.release_step(pass, &mut program, fate)?;
        self.release_step(pass, &mut program, fate)?;
        self.release_step(pass, &mut program, fate)?;
        let Phase::AtCell(Row::Unlock(UnlockRow::Release { .. })) = program.phase() else {
            return Ok(program);
        };
        self.release_step(pass, &mut program, fate)?;
        Ok(program)
    }

    /// All further accesses of the unlock up to the waking, and whom it has to wake.
    fn last_release_steps<F: Fate>(
        &self,
        pass: &mut Pass<Live>,
        begun: Program,
        fate: &mut F,
    ) -> Result<(Program, Wakes), End>
        requires { IsInRelease self.now pass.old begun }
        ensures steps { ReleasesAll self.now pass.old begun pass.new result }
        ensures fate { F.stopped fate.new ≡ F.stopped fate.old + stops_within result }
    {
        let mut program = begun;
        loop {
            if let Some(wakes) = owing(program.phase()) {
                return Ok((program, wakes));
            }
            self.release_step(pass, &mut program, fate)?;
        }
    }

    /// All accesses of the unlock up to the waking.
    #[inline(always)]
    fn release_steps<F: Fate>(
        &self,
        pass: &mut Pass<Live>,
        begun: Program,
        fate: &mut F,
    ) -> Result<(Program, Wakes), End>
        requires { IsInRelease self.now pass.old begun }
        ensures steps { ReleasesAll self.now pass.old begun pass.new result }
        ensures fate { F.stopped fate.new ≡ F.stopped fate.old + stops_within result }
    {
        let program = self.first_release_steps(pass, begun, fate)?;
        match owing(program.phase()) {
            Some(wakes) => Ok((program, wakes)),
            None => self.last_release_steps(pass, program, fate),
        }
    }

    /// The unlock from where it stands up to the waking.
    #[inline(always)]
    pub(crate) fn release_to_wake<F: Fate>(&self, running: Running, fate: &mut F) -> Released
        requires { IsInRelease self.now (running_pass running) (running_call running) }
        ensures frees { FreesFrom self.now (running_pass running) (running_call running) result }
        ensures fate { F.stopped fate.new ≡ F.stopped fate.old + stops_releasing result }
    {
        let Running { mut pass, program } = running;
        match self.release_steps(&mut pass, program, fate) {
            Ok(freed) => Released::Owes(Owed {
                running: Running {
                    pass,
                    program: freed.0,
                },
                wakes: freed.1,
            }),
            Err(end) => match end {
                End::Replied(reply) => Released::Refused(pass, reply),
                End::Stopped => Released::Dead(pass.died()),
            },
        }
    }
}

/// Whom an unlock has to wake that is there, once it has freed its mutex.
#[inline(always)]
fn owing(phase: Phase) -> Option<Wakes>
    ensures { OwesThere phase result }
{
    match phase {
        Phase::AtCell(Row::Unlock(UnlockRow::Wake { all: true })) => Some(Wakes::All),
        Phase::AtCell(Row::Unlock(UnlockRow::Wake { all: false })) => Some(Wakes::One),
        Phase::Clearing { reply: Reply::OK } => Some(Wakes::Nobody),
        _ => None,
    }
}

impl Owed {
    /// The thread whose unlock it is.
    pub fn thread(&self) -> Tid
        ensures { result ≡ (running_program (owed_running self.now)).thread }
    {
        self.running.thread()
    }

    /// How many sleepers are to be woken.
    pub fn wakes(&self) -> Wakes
        ensures { result ≡ owed_wakes self.now }
    {
        self.wakes
    }

    /// Ends the unlock where nobody is to be woken: clears the thread's pending entry. Else it is given back.
    #[inline(always)]
    pub fn settle(self, words: &Words) -> Result<Pass<Live>, Owed>
        requires { IsOwedOf words.now self }
        ensures { Settles words.now self result }
    {
        let Wakes::Nobody = self.wakes else {
            return Err(self);
        };
        let Owed { running, wakes: _ } = self;
        let Running {
            mut pass,
            mut program,
        } = running;
        match words.advance(&mut pass, &mut program) {
            Some(_) => Ok(pass),
            None => unreachable!(),
        }
    }
}

impl Running {
    /// Goes on with an unlock that has freed its mutex: the access that comes next is its wake, or, where nobody is to
    /// be woken, clears the thread's pending entry.
    pub fn owed(owed: Owed) -> Running
        ensures value { result ≡ owed_running owed }
        ensures decided { (w : Words) (m : ℕ) → IsOwedOf w owed
            → IsOnMutex (layout_of w) (running_program (owed_running owed)) m
            → IsDecided w m (card (owed_pass owed)) OK result }
    {
        let Owed { running, wakes: _ } = owed;
        running
    }
}

impl Owed {
    /// The thread dies before the unlock's end, and wakes nobody. What it has seen stays.
    pub fn abandon(self) -> Pass<Dead>
        ensures { Abandons self result }
    {
        let Owed { running, wakes: _ } = self;
        running.die()
    }
}
