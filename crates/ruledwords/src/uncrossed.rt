//! Locks and unlocks that nobody crosses, each in one straight line.
//!
//! Before each access the call is built again where it stands, of what the line knows, so the compiler knows which
//! access it is, and nothing of the call need be kept. What isn't met as hoped goes on by the call's rows.
ghost use Rattle.std.specs.Prelude.{◌≡◌, ◌<◌, ◌≤◌};
ghost use Rattle.memorymap.specs.Layouts.{base_of};
ghost use Rattle.posixmutex.specs.declared.point.Operation.TheVariants.{Lock as LockOf, Unlock as UnlockOf};
ghost use Rattle.robustlist.specs.Link.{LinkGoes};
ghost use Rattle.robustlist.specs.Unlink.{UnlinkGoes};
ghost use Rattle.mutex.specs.Whole.{whole_access, PhaseKnows};
ghost use Rattle.ruledwords.specs.Fates.{Heeds};
ghost use Rattle.ruledwords.specs.Passes.{layout_of, IsLive};
ghost use Rattle.robustlist.specs.declared.link.LinkRow.TheVariants.{LoadFirst, StoreFirst};
ghost use Rattle.robustlist.specs.declared.unlink.UnlinkRow.TheVariants.{LoadNext};
ghost use Rattle.mutex.specs.declared.call.Call.TheVariants.{Unlock as UnlockCall};
ghost use Rattle.ruledwords.specs.Turns.{GoesOn, IsCallOf, IsOneStep, stops_within};
ghost use Rattle.mutex.specs.declared.call.Call.{Call};
ghost use Rattle.ruledwords.specs.declared.pass.Live.{Live};
ghost use Rattle.ruledwords.specs.declared.pass.Pass.{Pass};
ghost use Rattle.ruledwords.specs.declared.pass.Words.{Words};
ghost use Rattle.ruledwords.specs.InLine.{announcing_lock, is_free, is_held, line_of, linking, loading_unlock};
ghost use Rattle.ruledwords.specs.InLine.{releasing, stands, told_in, unlinking, Leads, LeadsOn, LeadsTo};
ghost use Rattle.ruledwords.specs.Straight.{crossed_answer, crossed_phase, stops_straight, ComesAcross, CrossedFrom};
ghost use Rattle.ruledwords.specs.Straight.{FreesStraight, IsCrossingOf, LocksStraight, RepliesStraight};
ghost use Rattle.ruledwords.specs.Straight.{StandsWhereLed, StraightFrom};

use crate::fate::{Fate, either_stops};
use crate::pass::{Dead, Live, Pass, Words};
use crate::running::{answer, count};
use crate::step::End;
use crate::turn::{Running, Turn};
use lockword::{Cell, Reply, Tid};
use mutex::{LockRow, Phase, Program, Row, UnlockRow};
use posixmutex::{HELD_LIMIT, Operation, Point};
use robustlist::{Link, LinkRow, Unlink, UnlinkRow};
use stepprograms::{Answer, Progress, StepProgram};

/// A thread's call on a mutex: what it does, and the addresses of the thread's head and of the mutex's entry and cell.
#[derive(Clone, Copy)]
pub(crate) struct Line {
    thread: Tid,
    operation: Operation,
    head: u64,
    entry: u64,
    cell: u64,
}

/// Where a lock or an unlock left its line.
#[derive(Clone, Copy)]
pub(crate) enum Crossed {
    /// A lock found this word, by which it doesn't take the cell with OK.
    Locking { word: u64 },
    /// A lock met this word, and not the cell that it saw, by the exchange that takes it.
    Meeting { seen: Cell, met: u64 },
    /// An unlock found this word, by which its thread doesn't own the cell, or that isn't consistent.
    Unlocking { word: u64 },
    /// An unlock found this word by its release: somebody waits.
    Releasing { found: u64 },
}

/// A pass, and a lock or an unlock of its thread that left its line: [`Crossing::go_on`] gives what it comes to, by its
/// rows. It is small, so that it costs a call little that stays in the line.
#[derive(Drop)]
pub struct Crossing {
    pass: Pass<Live>,
    line: Line,
    at: Crossed,
}

/// What a lock or an unlock comes to in one straight line.
#[derive(Drop)]
pub enum Straight {
    /// Somebody crossed it, or the mutex isn't consistent, or isn't the thread's: it goes on.
    Crossed(Crossing),
    /// The call has replied.
    Lives(Pass<Live>, Reply),
    /// The thread died in the call.
    Dead(Pass<Dead>),
}

impl Line {
    /// The call where it is at a phase.
    #[inline(always)]
    fn at(&self, phase: Phase) -> Program
        requires { PhaseKnows phase }
        ensures { result ≡ stands self.now phase }
    {
        Program::at(
            self.thread,
            self.operation,
            self.head,
            self.entry,
            self.cell,
            phase,
        )
    }

    /// A lock that took its mutex with OK, at a row of its link.
    #[inline(always)]
    fn linking(&self, row: LinkRow) -> Program
        requires { LinkGoes row }
        ensures { result ≡ stands self.now (linking self.now row) }
    {
        self.at(Phase::Linking {
            link: Link::at(self.head, self.entry, row),
            reply: Reply::OK,
        })
    }

    /// An unlock of a consistent mutex, at a row of its unlink.
    #[inline(always)]
    fn unlinking(&self, row: UnlinkRow) -> Program
        requires { UnlinkGoes row }
        ensures { result ≡ stands self.now (unlinking self.now row) }
    {
        self.at(Phase::Unlinking {
            unlink: Unlink::at(self.head, self.entry, row),
            died: false,
        })
    }
}

impl Words {
    /// A thread's call on a mutex.
    #[inline(always)]
    fn line(&self, thread: Tid, operation: Operation, mutex: u16) -> Line
        requires thread { thread ≤ self.now.layout.threads }
        requires mutex { mutex < self.now.layout.mutexes }
        ensures { result ≡ line_of self.now.layout thread operation mutex }
    {
        Line {
            thread,
            operation,
            head: self.layout.address(thread, self.layout.head(thread)),
            entry: self.layout.address(thread, self.layout.entry(mutex)),
            cell: self.layout.address(thread, self.layout.cell(mutex)),
        }
    }

    /// Makes the access that comes next in a call, which is one step on one word, and gives the word that it found. The
    /// thread's process maps the words at this base.
    #[inline(always)]
    fn find_next(&self, pass: &mut Pass<Live>, base: u64, program: &Program) -> u64
        requires call { IsCallOf self.now pass.old program.now }
        requires step { IsOneStep (whole_access program.now) }
        requires base { base ≡ base_of self.now.layout program.now.thread }
        ensures { Leads self.now pass.old program.now pass.new result }
    {
        let access = program.next();
        let found = self.found(&mut pass.seat, base, program, access);
        let mut after = *program;
        let point = point_in(after.resume(answer(access, found)));
        pass.held = count(pass.held, point);
        found
    }

    /// The same, unless one of the thread's fates tells it to stop.
    #[inline(always)]
    fn find<F: Fate, N: Fate>(
        &self,
        pass: &mut Pass<Live>,
        base: u64,
        program: &Program,
        fate: &mut F,
        note: &mut N,
    ) -> Result<u64, End>
        requires call { IsCallOf self.now pass.old program.now }
        requires step { IsOneStep (whole_access program.now) }
        requires base { base ≡ base_of self.now.layout program.now.thread }
        ensures leads { LeadsOn self.now pass.old program.now pass.new result }
        ensures fate { Heeds (F.stopped fate.old) (F.stopped fate.new) (N.stopped note.old) (N.stopped note.new)
            (stops_within result) }
    {
        if either_stops(fate, note) {
            return Err(End::Stopped);
        }
        Ok(self.find_next(pass, base, program))
    }

    /// Puts the entry of a mutex in front of its thread's list, which has just taken it with OK, and ends the lock.
    #[inline(always)]
    fn link_in_line<F: Fate, N: Fate>(
        &self,
        pass: &mut Pass<Live>,
        base: u64,
        line: &Line,
        fate: &mut F,
        note: &mut N,
    ) -> Result<Crossed, End>
        requires call { IsCallOf self.now pass.old (stands line.now (linking line.now LoadFirst)) }
        requires base { base ≡ base_of self.now.layout line.now.thread }
        ensures steps { ComesAcross self.now pass.old (stands line.now (linking line.now LoadFirst)) pass.new line.now result }
        ensures fate { Heeds (F.stopped fate.old) (F.stopped fate.new) (N.stopped note.old) (N.stopped note.new)
            (stops_within result) }
    {
        let first = self.find(pass, base, &line.linking(LinkRow::LoadFirst), fate, note)?;
        self.find(
            pass,
            base,
            &line.linking(LinkRow::StoreNext { first }),
            fate,
            note,
        )?;
        self.find(
            pass,
            base,
            &line.linking(LinkRow::StorePrevious { first }),
            fate,
            note,
        )?;
        if first == line.head {
            return self.end_in_line(pass, base, line, fate, note);
        }
        self.find(
            pass,
            base,
            &line.linking(LinkRow::StoreBehind { first }),
            fate,
            note,
        )?;
        self.end_in_line(pass, base, line, fate, note)
    }

    /// Makes the last store of a link, and ends the lock.
    #[inline(always)]
    fn end_in_line<F: Fate, N: Fate>(
        &self,
        pass: &mut Pass<Live>,
        base: u64,
        line: &Line,
        fate: &mut F,
        note: &mut N,
    ) -> Result<Crossed, End>
        requires call { IsCallOf self.now pass.old (stands line.now (linking line.now StoreFirst)) }
        requires base { base ≡ base_of self.now.layout line.now.thread }
        ensures steps { ComesAcross self.now pass.old (stands line.now (linking line.now StoreFirst)) pass.new line.now result }
        ensures fate { Heeds (F.stopped fate.old) (F.stopped fate.new) (N.stopped note.old) (N.stopped note.new)
            (stops_within result) }
    {
        self.find(pass, base, &line.linking(LinkRow::StoreFirst), fate, note)?;
        let clearing = line.at(Phase::Clearing { reply: Reply::OK });
        self.find(pass, base, &clearing, fate, note)?;
        Err(End::Replied(Reply::OK))
    }

    /// A lock from its beginning: to its end where it finds the mutex free and consistent, and takes it so; else on by
    /// its rows.
    #[inline(always)]
    fn lock_in_line<F: Fate, N: Fate>(
        &self,
        pass: &mut Pass<Live>,
        base: u64,
        line: &Line,
        fate: &mut F,
        note: &mut N,
    ) -> Result<Crossed, End>
        requires operation { line.now.operation ≡ LockOf }
        requires call { IsCallOf self.now pass.old (stands line.now announcing_lock) }
        requires base { base ≡ base_of self.now.layout line.now.thread }
        ensures steps { ComesAcross self.now pass.old (stands line.now announcing_lock) pass.new line.now result }
        ensures fate { Heeds (F.stopped fate.old) (F.stopped fate.new) (N.stopped note.old) (N.stopped note.new)
            (stops_within result) }
    {
        let announcing = line.at(Phase::Announcing {
            next: Row::Lock(LockRow::Load),
        });
        self.find(pass, base, &announcing, fate, note)?;
        let loading = line.at(Phase::AtCell(Row::Lock(LockRow::Load)));
        let word = self.find(pass, base, &loading, fate, note)?;
        let seen = Cell::new(word);
        if !is_free(seen) {
            return Ok(Crossed::Locking { word });
        }
        let taking = line.at(Phase::AtCell(Row::Lock(LockRow::Take { seen })));
        let met = self.find(pass, base, &taking, fate, note)?;
        if met == seen.word() {
            return self.link_in_line(pass, base, line, fate, note);
        }
        Ok(Crossed::Meeting { seen, met })
    }

    /// Takes the entry of a mutex out of its thread's list, before it is released.
    #[inline(always)]
    fn unlink_in_line<F: Fate, N: Fate>(
        &self,
        pass: &mut Pass<Live>,
        base: u64,
        line: &Line,
        fate: &mut F,
        note: &mut N,
    ) -> Result<(), End>
        requires call { IsCallOf self.now pass.old (stands line.now (unlinking line.now LoadNext)) }
        requires base { base ≡ base_of self.now.layout line.now.thread }
        ensures steps { LeadsTo self.now pass.old (stands line.now (unlinking line.now LoadNext)) pass.new
            (stands line.now releasing) result }
        ensures fate { Heeds (F.stopped fate.old) (F.stopped fate.new) (N.stopped note.old) (N.stopped note.new)
            (stops_within result) }
    {
        let loading = line.unlinking(UnlinkRow::LoadNext);
        let next = self.find(pass, base, &loading, fate, note)?;
        let going_on = line.unlinking(UnlinkRow::LoadPrevious { next });
        let previous = self.find(pass, base, &going_on, fate, note)?;
        let storing = line.unlinking(UnlinkRow::StoreNext { next, previous });
        self.find(pass, base, &storing, fate, note)?;
        if next == line.head {
            return Ok(());
        }
        let behind = line.unlinking(UnlinkRow::StorePrevious { next, previous });
        self.find(pass, base, &behind, fate, note)?;
        Ok(())
    }

    /// An unlock from its beginning: to its end where its thread owns the mutex, which is consistent, and nobody waits;
    /// else on by its rows.
    #[inline(always)]
    fn unlock_in_line<F: Fate, N: Fate>(
        &self,
        pass: &mut Pass<Live>,
        base: u64,
        line: &Line,
        fate: &mut F,
        note: &mut N,
    ) -> Result<Crossed, End>
        requires operation { line.now.operation ≡ UnlockOf }
        requires call { IsCallOf self.now pass.old (stands line.now loading_unlock) }
        requires base { base ≡ base_of self.now.layout line.now.thread }
        ensures steps { ComesAcross self.now pass.old (stands line.now loading_unlock) pass.new line.now result }
        ensures fate { Heeds (F.stopped fate.old) (F.stopped fate.new) (N.stopped note.old) (N.stopped note.new)
            (stops_within result) }
    {
        let loading = line.at(Phase::AtCell(Row::Unlock(UnlockRow::Load)));
        let word = self.find(pass, base, &loading, fate, note)?;
        let seen = Cell::new(word);
        if !is_held(seen, line.thread) {
            return Ok(Crossed::Unlocking { word });
        }
        let announcing = line.at(Phase::Announcing {
            next: Row::Unlock(UnlockRow::Release { died: false }),
        });
        self.find(pass, base, &announcing, fate, note)?;
        self.unlink_in_line(pass, base, line, fate, note)?;
        let releasing = line.at(Phase::AtCell(Row::Unlock(UnlockRow::Release { died: false })));
        let found = self.find(pass, base, &releasing, fate, note)?;
        if Cell::new(found).waiters() {
            return Ok(Crossed::Releasing { found });
        }
        let clearing = line.at(Phase::Clearing { reply: Reply::OK });
        self.find(pass, base, &clearing, fate, note)?;
        Err(End::Replied(Reply::OK))
    }
}

/// Whether a thread may take such a cell, and is returned OK then.
#[inline(always)]
fn is_free(cell: Cell) -> bool
    ensures { result ≡ is_free cell }
{
    cell.owner() == 0 && !cell.unusable() && !cell.owner_died()
}

/// Whether a thread owns such a cell, which is consistent.
#[inline(always)]
fn is_held(cell: Cell, thread: Tid) -> bool
    ensures { result ≡ is_held cell thread }
{
    cell.owner() == u32::from(thread.get()) && !cell.owner_died()
}

impl Crossed {
    /// Where the call stood.
    fn phase(&self) -> Phase
        ensures { result ≡ crossed_phase self.now }
    {
        match *self {
            Crossed::Locking { .. } => Phase::AtCell(Row::Lock(LockRow::Load)),
            Crossed::Meeting { seen, .. } => Phase::AtCell(Row::Lock(LockRow::Take { seen })),
            Crossed::Unlocking { .. } => Phase::AtCell(Row::Unlock(UnlockRow::Load)),
            Crossed::Releasing { .. } => {
                Phase::AtCell(Row::Unlock(UnlockRow::Release { died: false }))
            }
        }
    }

    /// What its access was answered.
    fn answer(&self) -> Answer
        ensures { result ≡ crossed_answer self.now }
    {
        match *self {
            Crossed::Locking { word } | Crossed::Unlocking { word } => Answer::Value(word),
            Crossed::Meeting { met, .. } => Answer::Changed(met),
            Crossed::Releasing { found } => Answer::Value(found),
        }
    }
}

impl Crossing {
    /// What the call comes to by the answer of the access at which it left its line, and by that answer alone. No access
    /// is made.
    pub fn go_on(self) -> Turn
        requires { (w : Words) × IsCrossingOf w self }
        ensures stands { StandsWhereLed self result }
        ensures goes { (w : Words) (a : Pass Live) (call : Call) → CrossedFrom w a call self → GoesOn w a call result }
    {
        let Crossing { pass, line, at } = self;
        let mut program = line.at(at.phase());
        match program.resume(at.answer()) {
            Progress::Goes { .. } => Turn::Goes(Running { pass, program }),
            Progress::Returns { reply, .. } => Turn::Lives(pass, reply),
        }
    }
}

/// The point that an access was, if it was one.
#[inline(always)]
fn point_in(progress: Progress) -> Option<Point>
    ensures { result ≡ told_in progress }
{
    match progress {
        Progress::Goes { point } | Progress::Returns { point, .. } => point,
    }
}

impl Running {
    /// Begins a lock, and makes accesses of it one after the other, while nobody crosses it: mostly all. It is answered
    /// there with OK alone; or, without an access, with `XHELD` where the thread holds 2,048 mutexes. The fate is asked
    /// before each access, and then the note, by which others can tell the thread to stop.
    #[inline(always)]
    pub fn lock<F: Fate, N: Fate>(
        words: &Words,
        pass: Pass<Live>,
        mutex: u16,
        fate: &mut F,
        note: &mut N,
    ) -> Straight
        requires pass { IsLive words.now pass }
        requires mutex { mutex < (layout_of words.now).mutexes }
        ensures locks { LocksStraight words.now mutex pass result }
        ensures replies { RepliesStraight result }
        ensures fate { Heeds (F.stopped fate.old) (F.stopped fate.new) (N.stopped note.old) (N.stopped note.new)
            (stops_straight result) }
    {
        if HELD_LIMIT <= pass.held {
            return Straight::Lives(pass, Reply::XHELD);
        }
        let mut pass = pass;
        let base = words.layout.base(pass.thread);
        let line = words.line(pass.thread, Operation::Lock, mutex);
        match words.lock_in_line(&mut pass, base, &line, fate, note) {
            Ok(at) => Straight::Crossed(Crossing { pass, line, at }),
            Err(end) => match end {
                End::Replied(reply) => Straight::Lives(pass, reply),
                End::Stopped => Straight::Dead(pass.died()),
            },
        }
    }

    /// Begins an unlock, and makes accesses of it one after the other, while nobody crosses it: mostly all. It is
    /// returned OK there only where nobody is to be woken. The fate is asked before each access, and then the note,
    /// by which others can tell the thread to stop.
    #[inline(always)]
    pub fn unlock<F: Fate, N: Fate>(
        words: &Words,
        pass: Pass<Live>,
        mutex: u16,
        fate: &mut F,
        note: &mut N,
    ) -> Straight
        requires pass { IsLive words.now pass }
        requires mutex { mutex < (layout_of words.now).mutexes }
        ensures unlocks { StraightFrom words.now pass (UnlockCall mutex) result }
        ensures frees { FreesStraight words.now mutex pass result }
        ensures fate { Heeds (F.stopped fate.old) (F.stopped fate.new) (N.stopped note.old) (N.stopped note.new)
            (stops_straight result) }
    {
        let mut pass = pass;
        let base = words.layout.base(pass.thread);
        let line = words.line(pass.thread, Operation::Unlock, mutex);
        match words.unlock_in_line(&mut pass, base, &line, fate, note) {
            Ok(at) => Straight::Crossed(Crossing { pass, line, at }),
            Err(end) => match end {
                End::Replied(reply) => Straight::Lives(pass, reply),
                End::Stopped => Straight::Dead(pass.died()),
            },
        }
    }
}
