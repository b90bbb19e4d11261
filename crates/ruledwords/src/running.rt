//! A pass in the middle of a call: access by access, at a futex section, which its caller makes, and where its thread
//! dies.
ghost use Rattle.std.specs.Prelude.{◌≡◌, ◌<◌, ◌≤◌, ℕ, Some, ◌+◌, ◌==◌, if◌then◌else◌};
ghost use Rattle.posixmutex.specs.Objects.{held_limit};
ghost use Rattle.stepprograms.specs.Accesses.{answer_at, address_of};
ghost use Rattle.stepprograms.specs.declared.access.Access.TheVariants.{Trim as AtTrim};
ghost use Rattle.memorymap.specs.Layouts.{base_of, cell_place};
ghost use Rattle.mutex.specs.Calls.{mutex_of};
ghost use Rattle.mutex.specs.Whole.{whole_access};
ghost use Rattle.mutex.specs.declared.call.Call.{Call};
ghost use Rattle.ruledwords.specs.Calls.{count_after, count_by as count_after_by, IsOnMutex};
ghost use Rattle.ruledwords.specs.Passes.{layout_of, IsLive, card, IsDying, IsPassOf};
ghost use Rattle.ruledwords.specs.Turns.{access_in, running_call, running_pass, Begun, IsCallOf, IsOneStep};
ghost use Rattle.ruledwords.specs.Turns.{IsRunningOf, IsSeatedCall, IsTurnOf, Advances, FindsWord, Turned, Keeps};
ghost use Rattle.ruledwords.specs.Turns.{KeepsDecided, place_at, running_program, IsAnswerOf, Unmoved, Onward};
ghost use Rattle.ruledwords.specs.Turns.{IsUnderWay, HasDied};
ghost use Rattle.ruledwords.specs.declared.pass.Words.{Words};
ghost use Rattle.ruledwords.specs.Changes.{Writes};
ghost use Rattle.ruledwords.specs.Looks.{Finds};
ghost use Rattle.ruledwords.specs.Rules.{card_of};
ghost use Rattle.ruledwords.specs.declared.pass.Live.{Live};
ghost use Rattle.ruledwords.specs.declared.pass.Pass.{Pass};

use crate::pass::{Dead, Live, Pass, View, Words};
use crate::turn::{Running, Turn};
use atomic_table::Seat;
use lockword::{Reply, Tid, WAITERS};
use mutex::{Call, Phase, Program};
use posixmutex::{Operation, Point};
use std::marker::{Brand, PhantomData};
use stepprograms::{Access, Answer, Progress, StepProgram};

impl Running {
    /// Begins a call. Without an access it is refused where it would take a mutex and the thread holds 2,048.
    #[inline(always)]
    pub fn call(words: &Words, pass: Pass<Live>, call: Call) -> Result<Running, (Pass<Live>, Reply)>
        requires pass { IsLive words.now pass }
        requires mutex { mutex_of call < (layout_of words.now).mutexes }
        ensures { Begun words.now pass call result }
    {
        match Program::new(&words.layout, pass.thread, pass.held, call) {
            Ok(program) => Ok(Running { pass, program }),
            Err(reply) => Err((pass, reply)),
        }
    }

    /// The access that comes next, by the address that the thread's process has for its word.
    pub fn next(&self) -> Access
        ensures { result ≡ access_in self.now }
    {
        self.program.next()
    }

    /// Makes the access that comes next, which is one step on one word. Its point, if it is one, is seen.
    pub fn access(self, words: &Words) -> Turn
        requires words { IsRunningOf words.now self }
        requires step { IsOneStep (access_in self) }
        ensures words { IsTurnOf words.now result }
        ensures turned { Turned (layout_of words.now) (running_call self) (running_pass self) result }
        ensures keeps { Keeps words.now self result }
        ensures decided { KeepsDecided words.now self result }
    {
        let Running {
            mut pass,
            mut program,
        } = self;
        match words.advance(&mut pass, &mut program) {
            None => Turn::Goes(Running { pass, program }),
            Some(reply) => Turn::Lives(pass, reply),
        }
    }
}

impl Words {
    /// Makes the access that comes next in a call, which is one step on one word, and gives the call's reply where that
    /// was its last. It changes the pass and the call where they stand: moved by value at each access, they would go
    /// through memory.
    #[inline(always)]
    pub(crate) fn advance(&self, pass: &mut Pass<Live>, program: &mut Program) -> Option<Reply>
        requires call { IsCallOf self.now pass.old program.old }
        requires step { IsOneStep (whole_access program.old) }
        ensures { Advances self.now pass.old program.old pass.new program.new result }
    {
        let access = program.next();
        let base = self.layout.base(pass.thread);
        let found = self.found(&mut pass.seat, base, program, access);
        match program.resume(answer(access, found)) {
            Progress::Goes { point } => {
                pass.held = count(pass.held, point);
                None
            }
            Progress::Returns { reply, point } => {
                pass.held = count(pass.held, point);
                Some(reply)
            }
        }
    }

    /// The word that the access finds: at the mutex's cell, or at a word that the thread alone writes. The thread's
    /// process maps the words at this base.
    #[inline(always)]
    pub(crate) fn found(
        &self,
        seat: &mut Seat<(), View>,
        base: u64,
        program: &Program,
        access: Access,
    ) -> u64
        requires call { IsSeatedCall self.now seat.old program.now }
        requires base { base ≡ base_of self.now.layout (card_of seat.old.me.0).thread }
        requires step { IsOneStep (whole_access program.now) }
        requires access { access ≡ whole_access program.now }
        ensures { FindsWord self.now seat.old seat.new program.now result }
    {
        match program.phase() {
            Phase::AtCell(_) => self.make::<Brand>(seat, base, program),
            _ => self.access_own(seat, base, access),
        }
    }
}

/// What an access answers that found this word.
#[inline(always)]
pub(crate) fn answer(access: Access, found: u64) -> Answer
    ensures { result ≡ answer_at access found }
{
    match access {
        Access::Load { .. }
        | Access::FetchXor { .. }
        | Access::FetchOr { .. }
        | Access::FetchAnd { .. }
        | Access::FetchAdd { .. } => Answer::Value(found),
        Access::Store { .. } => Answer::Stored,
        Access::Exchange { expected, .. } => {
            if found == expected {
                Answer::Exchanged
            } else {
                Answer::Changed(found)
            }
        }
        Access::Wait { .. } => Answer::Again,
        Access::Wake { .. } => Answer::Count(0),
        Access::Requeue { .. } | Access::CmpRequeue { .. } => Answer::Counts(0, 0),
        Access::Trim { .. } => Answer::Trimmed(found == WAITERS),
    }
}

/// How many mutexes a thread holds that held this many before its point.
#[inline(always)]
pub(crate) fn count(held: u16, point: Option<Point>) -> u16
    requires { held ≤ held_limit }
    ensures { result ≡ count_after held point }
{
    match point {
        Some(point) => count_by(held, point.operation, point.reply),
        None => held,
    }
}

#[inline(always)]
fn count_by(held: u16, operation: Operation, reply: Reply) -> u16
    requires { held ≤ held_limit }
    ensures { result ≡ count_after_by held operation reply }
{
    let replied = reply == Reply::OK;
    match operation {
        Operation::Lock | Operation::TryLock if replied || reply == Reply::EOWNERDEAD => held + 1,
        Operation::Unlock | Operation::Death if replied => held.saturating_sub(1),
        _ => held,
    }
}

impl Running {
    /// The place of the word that the access that comes next reads or changes.
    pub fn place(&self, words: &Words) -> u64
        requires { IsRunningOf words.now self.now }
        ensures { result ≡ place_at (layout_of words.now) self.now }
    {
        words.place(self.pass.thread, address(self.program.next()))
    }

    /// The word of the access that comes next, for a section that looks at it. Nothing new is seen.
    pub fn load(&mut self, words: &Words) -> u64
        requires words { IsRunningOf words.now self.old }
        requires section { ¬ IsOneStep (access_in self.old) }
        ensures unmoved { Unmoved words.now self.old self.new }
        ensures finds { (m : ℕ) → IsOnMutex (layout_of words.now) (running_program self.old) m
            → Finds (card (running_pass self.old)) (cell_place (layout_of words.now) m) result }
        ensures last { ((card (running_pass self.new)).last ≡ result)
            × ((card (running_pass self.new)).trims ≡ (card (running_pass self.old)).trims) }
    {
        let at = self.place(words);
        words.look(&mut self.pass, at)
    }

    /// Where the access that comes next is a trim: makes the word of its cell 0 where WAITERS is all that it says, and
    /// tells whether it was. Whoever calls it holds the lock under which nobody falls asleep on that word, and has seen
    /// that nobody sleeps there. Nothing new is seen.
    pub fn trim(&mut self, words: &Words) -> bool
        requires words { IsRunningOf words.now self.old }
        requires trim { (at : ℕ) × (access_in self.old ≡ AtTrim at) }
        ensures unmoved { Unmoved words.now self.old self.new }
        ensures finds { (m : ℕ) → IsOnMutex (layout_of words.now) (running_program self.old) m
            → Finds (card (running_pass self.old)) (cell_place (layout_of words.now) m)
            (card (running_pass self.new)).last }
        ensures leaves { (m : ℕ) → IsOnMutex (layout_of words.now) (running_program self.old) m
            → Writes (card (running_pass self.old)) (cell_place (layout_of words.now) m)
            (card (running_pass self.new)).last
            (if (card (running_pass self.new)).last == 0x8000_0000 then 0 else (card (running_pass self.new)).last)
            (card (running_pass self.new)) }
        ensures trims { (result ≡ ((card (running_pass self.new)).last == 0x8000_0000))
            × ((card (running_pass self.new)).trims ≡ (card (running_pass self.old)).trims + 1) }
    {
        let at = self.place(words);
        words.trim_cell(&mut self.pass, at) == WAITERS
    }

    /// Goes on with the answer of a section, which its caller has made. Nothing new is seen.
    pub fn answer(self, answer: Answer) -> Turn
        requires { IsAnswerOf (access_in self) answer }
        ensures turned { Onward (running_call self) answer (running_pass self) result }
        ensures words { (w : Words) → IsRunningOf w self → IsTurnOf w result }
        ensures keeps { (w : Words) → Keeps w self result }
        ensures decided { (w : Words) → KeepsDecided w self result }
    {
        let Running { pass, mut program } = self;
        match program.resume(answer) {
            Progress::Goes { .. } => Turn::Goes(Running { pass, program }),
            Progress::Returns { reply, .. } => Turn::Lives(pass, reply),
        }
    }
}

/// The address of the word that an access reads or changes.
pub(crate) fn address(access: Access) -> u64
    ensures { result ≡ address_of access }
{
    match access {
        Access::Load { at }
        | Access::Store { at, .. }
        | Access::Exchange { at, .. }
        | Access::FetchXor { at, .. }
        | Access::FetchOr { at, .. }
        | Access::FetchAnd { at, .. }
        | Access::FetchAdd { at, .. }
        | Access::Wait { at, .. }
        | Access::Wake { at, .. }
        | Access::Trim { at } => at,
        Access::Requeue { from, .. } | Access::CmpRequeue { from, .. } => from,
    }
}

impl Running {
    /// The thread that makes the call.
    pub fn thread(&self) -> Tid
        ensures { result ≡ (running_program self.now).thread }
    {
        self.pass.thread
    }
}

impl Pass<Live> {
    /// The thread has died. What it has seen stays.
    pub(crate) fn died(self) -> Pass<Dead>
        ensures card { card result ≡ card self }
        ensures words { (w : Words) → IsPassOf w self → IsPassOf w result }
    {
        let Pass {
            seat,
            thread,
            held,
            state: _,
        } = self;
        Pass {
            seat,
            thread,
            held,
            state: PhantomData,
        }
    }
}

impl Running {
    /// The thread dies before the access that comes next. What it has seen stays: of its call's points those that were
    /// made. What it holds will be found.
    pub fn die(self) -> Pass<Dead>
        ensures card { card result ≡ card (running_pass self) }
        ensures words { (w : Words) → IsRunningOf w self → IsDying w result }
        ensures died { (w : Words) (a : Pass Live) (call : Call) → IsUnderWay w a call self → HasDied w a call result }
    {
        let Running { pass, program: _ } = self;
        pass.died()
    }
}
