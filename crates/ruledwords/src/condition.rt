//! Calls on condition variables, access by access.
ghost use Rattle.std.specs.Prelude.{◌≡◌, ◌<◌, ◌≤◌, ℕ, Some, length};
ghost use Rattle.memorymap.specs.Layouts.{counter_place};
ghost use Rattle.condvar.specs.Calls.{condition_of};
ghost use Rattle.condvar.specs.Laws.{largest_counter};
ghost use Rattle.condvar.specs.Whole.{begins};
ghost use Rattle.condvar.specs.declared.call.CondCall.{CondCall};
ghost use Rattle.ruledwords.specs.declared.pass.Live.{Live};
ghost use Rattle.ruledwords.specs.declared.pass.Pass.{Pass};
ghost use Rattle.ruledwords.specs.declared.pass.Words.{Words};
ghost use Rattle.ruledwords.specs.Cards.{value_at};
ghost use Rattle.ruledwords.specs.ConditionCalls.{cond_access_in, cond_call, cond_pass, cond_place_at};
ghost use Rattle.ruledwords.specs.ConditionCalls.{CondOnward, CondTurned, CondUnmoved};
ghost use Rattle.ruledwords.specs.ConditionCalls.{IsCondAnswerOf, IsCondRunningOf, IsCondStep, IsCondTurnOf};
ghost use Rattle.ruledwords.specs.Conditions.{condition_at, Compares, IsMove};
ghost use Rattle.ruledwords.specs.ConditionStands.{CondKeeps, HasDiedInCondition, IsCondUnderWay};
ghost use Rattle.ruledwords.specs.Counts.{cell_at};
ghost use Rattle.ruledwords.specs.Found.{place_found, word_found};
ghost use Rattle.ruledwords.specs.Passes.{card, layout_of, IsDying, IsLive};

use crate::counter::CounterWord;
use crate::pass::{Dead, Live, Pass, Words};
use crate::running::{address, answer, count};
use crate::turn::{CondRunning, CondTurn, Running};
use condvar::{CondCall, CondProgram};
use lockword::Tid;
use stepprograms::{Access, Answer, Progress, StepProgram};

impl CondRunning {
    /// Begins a call. What it may be refused for is seen by its first accesses.
    pub fn call(words: &Words, pass: Pass<Live>, call: CondCall) -> CondRunning
        requires pass { IsLive words.now pass }
        requires condition { condition_of call < length (layout_of words.now).conditions }
        ensures begins { cond_call result ≡ begins (layout_of words.now) (card pass).thread call }
        ensures pass { cond_pass result ≡ pass }
        ensures words { IsCondRunningOf words.now result }
        ensures under_way { IsCondUnderWay words.now pass call result }
    {
        let program = CondProgram::new(&words.layout, pass.thread, call);
        CondRunning { pass, program }
    }

    /// The thread that makes the call.
    pub fn thread(&self) -> Tid
        ensures { result ≡ (card (cond_pass self.now)).thread }
    {
        self.pass.thread
    }

    /// The access that comes next, by the address that the thread's process has for its word.
    pub fn next(&self) -> Access
        ensures { result ≡ cond_access_in self.now }
    {
        self.program.next()
    }

    /// The place of the word that the access that comes next reads or changes; of a requeue, the place from which it
    /// moves.
    pub fn place(&self, words: &Words) -> u64
        requires { IsCondRunningOf words.now self.now }
        ensures { result ≡ cond_place_at (layout_of words.now) self.now }
    {
        words.place(self.pass.thread, address(self.program.next()))
    }

    /// The place of its mutex's cell, to which a broadcast moves sleepers.
    pub fn target(&self, words: &Words) -> u64
        requires words { IsCondRunningOf words.now self.now }
        requires moves { IsMove (cond_access_in self.now) }
        ensures { result ≡ cell_at (layout_of words.now) (condition_at (layout_of words.now) (cond_call self.now)) }
    {
        match self.program.next() {
            Access::CmpRequeue { to, .. } => words.place(self.pass.thread, to),
            _ => unreachable!(),
        }
    }

    /// Makes the access that comes next, which is one step on one word. Its point, if it is one, is seen.
    pub fn access(self, words: &Words) -> CondTurn
        requires words { IsCondRunningOf words.now self }
        requires step { IsCondStep (cond_access_in self) }
        ensures words { IsCondTurnOf words.now result }
        ensures turned { CondTurned (layout_of words.now) (cond_call self) (cond_pass self) result }
        ensures keeps { CondKeeps words.now self result }
    {
        let CondRunning {
            mut pass,
            mut program,
        } = self;
        let access = program.next();
        let thread = pass.thread;
        let found = words.found_in_condition(&mut pass.seat, thread, &program, access);
        match program.resume(answer(access, found)) {
            Progress::Goes { point } => {
                pass.held = count(pass.held, point);
                CondTurn::Goes(CondRunning { pass, program })
            }
            Progress::Returns { reply, point } => {
                pass.held = count(pass.held, point);
                CondTurn::Lives(pass, reply)
            }
        }
    }

    /// The word of its condition variable's counter, for a section that compares it: a wait's sleep, or a broadcast's
    /// move. Nothing new is seen.
    pub fn load(&mut self, words: &Words) -> CounterWord
        requires words { IsCondRunningOf words.now self.old }
        requires section { Compares (cond_access_in self.old) }
        ensures unmoved { CondUnmoved words.now self.old self.new }
        ensures counter { place_found result
            ≡ counter_place (layout_of words.now) (condition_at (layout_of words.now) (cond_call self.old)) }
        ensures last { ((card (cond_pass self.new)).last ≡ word_found result)
            × ((card (cond_pass self.new)).trims ≡ (card (cond_pass self.old)).trims) }
        ensures small { word_found result ≤ largest_counter }
        ensures known { (x : ℕ)
            → value_at (card (cond_pass self.old)).values
            (counter_place (layout_of words.now) (condition_at (layout_of words.now) (cond_call self.old))) ≡ Some x
            → word_found result ≡ x }
    {
        let at = self.place(words);
        words.look_at_counter(&mut self.pass, at)
    }

    /// Goes on with the answer of a section, which its caller has made. Nothing new is seen.
    pub fn answer(self, answer: Answer) -> CondTurn
        requires { IsCondAnswerOf (cond_access_in self) answer }
        ensures onward { CondOnward (cond_call self) answer (cond_pass self) result }
        ensures words { (w : Words) → IsCondRunningOf w self → IsCondTurnOf w result }
        ensures keeps { (w : Words) → CondKeeps w self result }
    {
        let CondRunning { pass, mut program } = self;
        match program.resume(answer) {
            Progress::Goes { .. } => match program.lock() {
                Some(lock) => CondTurn::Locks(Running {
                    pass,
                    program: lock,
                }),
                None => CondTurn::Goes(CondRunning { pass, program }),
            },
            Progress::Returns { reply, .. } => CondTurn::Lives(pass, reply),
        }
    }

    /// The thread dies before the access that comes next. What it has seen stays: of its call's points those that were
    /// made. What it holds will be found.
    pub fn die(self) -> Pass<Dead>
        ensures card { card result ≡ card (cond_pass self) }
        ensures words { (w : Words) → IsCondRunningOf w self → IsDying w result }
        ensures died { (w : Words) (a : Pass Live) (call : CondCall) → IsCondUnderWay w a call self
            → HasDiedInCondition w a call result }
    {
        let CondRunning { pass, program: _ } = self;
        pass.died()
    }
}
