//! What the lines of a script say, one after another.

ghost use Rattle.std.specs.Prelude.{◌≡◌, ◌^◌, ◌<◌, ◌≤◌, false, length, map, OnOk, IfOk, IfErr, string_bytes};
ghost use Rattle.script.specs.Forms.{is_silent};
ghost use Rattle.script.specs.Limits.{max_conditions, max_lines, max_mutexes, max_processes, max_threads};
ghost use Rattle.script.specs.Outcome.{Gives};
ghost use Rattle.script.specs.Reading.{all_killed, asked, begun, call_of, condition_declared};
ghost use Rattle.script.specs.Reading.{condition_names, declares, declined, died, enter, expired, first_of, gone, killed};
ghost use Rattle.script.specs.Reading.{wake_spared};
ghost use Rattle.script.specs.Reading.{left, line_read, locked, made, mutex_declared, mutexes_declared};
ghost use Rattle.script.specs.Reading.{nothing, place_of, process_declared, process_of, remade, renewed};
ghost use Rattle.script.specs.Reading.{stepped, thread_declared, thread_of, with_action, with_thread};
ghost use Rattle.script.specs.Scope.{IsWithinLimits};

use crate::command::{Action, Command, Condition, Mode};
use crate::deaths::death_of;
use crate::fault::Fault;
use crate::limits::{MAX_CONDITIONS, MAX_LINES, MAX_MUTEXES, MAX_PROCESSES, MAX_THREADS};
use crate::line::{Line, NamedCall, is_silent_line, line_of};
use crate::naming::{add_entry, add_name, declare, declare_numbered, entry_place, place};
use condvar::{CondCall, Limit, Op};
use indexmap::{IndexMap, IndexSet};
use lockword::Tid;
use mutex::Call;
use std::alloc::Global;

/// What the lines so far declared and asked for.
#[derive(Drop)]
pub struct Draft {
    pub mode: Mode,
    /// Each with its base. The first has number 1.
    pub processes: IndexMap<String, u64>,
    pub threads: IndexSet<String>,
    /// The number of each thread's process, 0 for a thread whose line names none.
    pub members: Vec<u8>,
    pub mutexes: IndexSet<String>,
    pub conditions: IndexMap<String, Condition>,
    pub commands: Vec<Command>,
}

impl Draft {
    ghost use Rattle.script.specs.Seen.{call_seen, form_seen, scope_of};

    /// Before the first line.
    pub fn new(alloc: Global, mode: Mode) -> Draft
        ensures { scope_of result ≡ nothing mode }
    {
        Draft {
            mode,
            processes: IndexMap::new(alloc),
            threads: IndexSet::new(alloc),
            members: Vec::new(alloc),
            mutexes: IndexSet::new(alloc),
            conditions: IndexMap::new(alloc),
            commands: Vec::new(alloc),
        }
    }

    fn process(&self, name: &str) -> Result<u8, Fault>
        requires { length (scope_of self.now).processes ≤ max_processes }
        ensures { result ≡ process_of (scope_of self.now) name.now }
    {
        let place = entry_place(&self.processes, name)?;
        Ok(place as u8 + 1)
    }

    fn thread(&self, name: &str) -> Result<Tid, Fault>
        requires { length (scope_of self.now).threads ≤ max_threads }
        ensures { result ≡ thread_of (scope_of self.now) name.now }
    {
        let place = place(&self.threads, name)?;
        Ok(Tid::new(place as u8 + 1).unwrap())
    }

    /// The first of `count` mutexes from the named one on.
    fn first_mutex(&self, name: &str, count: u32) -> Result<usize, Fault>
        ensures { result ≡ first_of (scope_of self.now) name.now count }
    {
        let place = place(&self.mutexes, name)?;
        if count as usize > self.mutexes.len() - place {
            return Err(Fault::OutOfRange);
        }
        Ok(place)
    }

    fn mutex(&self, name: &str) -> Result<u16, Fault>
        requires { length (scope_of self.now).mutexes ≤ max_mutexes }
        ensures { result ≡ place_of name.now (scope_of self.now).mutexes }
    {
        Ok(place(&self.mutexes, name)? as u16)
    }

    fn condition(&self, name: &str) -> Result<u16, Fault>
        requires { length (scope_of self.now).conditions ≤ max_conditions }
        ensures { result ≡ place_of name.now (condition_names (scope_of self.now)) }
    {
        Ok(entry_place(&self.conditions, name)? as u16)
    }

    fn call(&self, call: NamedCall<'_>) -> Result<Op, Fault>
        requires { IsWithinLimits (scope_of self.now) }
        ensures { result ≡ call_of (scope_of self.now) (call_seen call.entry) }
    {
        Ok(match call {
            NamedCall::Lock(name) => Op::OnMutex(Call::Lock(self.mutex(name)?)),
            NamedCall::TryLock(name) => Op::OnMutex(Call::TryLock(self.mutex(name)?)),
            NamedCall::TimedLock(name) => Op::OnMutex(Call::TimedLock(self.mutex(name)?)),
            NamedCall::Unlock(name) => Op::OnMutex(Call::Unlock(self.mutex(name)?)),
            NamedCall::Consistent(name) => Op::OnMutex(Call::Consistent(self.mutex(name)?)),
            NamedCall::Wait(name) => Op::OnCondition(CondCall::Wait(self.condition(name)?)),
            NamedCall::TimedWait(name) => {
                Op::OnCondition(CondCall::TimedWait(self.condition(name)?, Limit::Ahead))
            }
            NamedCall::Signal(name) => Op::OnCondition(CondCall::Signal(self.condition(name)?)),
            NamedCall::Broadcast(name) => {
                Op::OnCondition(CondCall::Broadcast(self.condition(name)?))
            }
        })
    }

    fn declares(&self) -> Result<(), Fault>
        ensures { result ≡ declares (scope_of self.now) }
    {
        if !self.commands.is_empty() {
            return Err(Fault::UnknownWord);
        }
        Ok(())
    }

    fn declare_process(&mut self, alloc: Global, word: &str, base: Option<u32>) -> Result<(), Fault>
        ensures gives { Gives (λ _. scope_of self.new) result (process_declared (scope_of self.old) word.now base) }
        ensures mode { self.new.mode ≡ self.old.mode }
    {
        self.declares()?;
        let base = base.ok_or(Fault::OutOfRange)?;
        if self.processes.len() >= MAX_PROCESSES {
            return Err(Fault::OutOfRange);
        }
        add_entry(alloc, &mut self.processes, word, u64::from(base))
    }

    /// Adds a thread of the process with this number, unless there is one of this name.
    fn add_thread(&mut self, alloc: Global, word: &str, process: u8) -> Result<(), Fault>
        ensures gives { Gives (λ _. scope_of self.new) result (with_thread (scope_of self.old) word.now process) }
        ensures mode { self.new.mode ≡ self.old.mode }
    {
        add_name(alloc, &mut self.threads, word)?;
        self.members.push(process)?;
        Ok(())
    }

    /// A thread of process 0.
    fn declare_thread(&mut self, alloc: Global, word: &str) -> Result<(), Fault>
        ensures gives { Gives (λ _. scope_of self.new) result (thread_declared (scope_of self.old) word.now (Ok 0)) }
        ensures mode { self.new.mode ≡ self.old.mode }
    {
        self.declares()?;
        if self.threads.len() >= MAX_THREADS {
            return Err(Fault::OutOfRange);
        }
        self.add_thread(alloc, word, 0)
    }

    /// A thread of a named process.
    fn declare_member(&mut self, alloc: Global, word: &str, process: &str) -> Result<(), Fault>
        requires { IsWithinLimits (scope_of self.old) }
        ensures gives { Gives (λ _. scope_of self.new) result
            (thread_declared (scope_of self.old) word.now (process_of (scope_of self.old) process.now)) }
        ensures mode { self.new.mode ≡ self.old.mode }
    {
        self.declares()?;
        if self.threads.len() >= MAX_THREADS {
            return Err(Fault::OutOfRange);
        }
        let process = self.process(process)?;
        self.add_thread(alloc, word, process)
    }

    fn declare_mutex(&mut self, alloc: Global, word: &str) -> Result<(), Fault>
        ensures gives { Gives (λ _. scope_of self.new) result (mutex_declared (scope_of self.old) word.now) }
        ensures mode { self.new.mode ≡ self.old.mode }
    {
        self.declares()?;
        declare(alloc, &mut self.mutexes, MAX_MUTEXES, word)
    }

    fn declare_mutexes(
        &mut self,
        alloc: Global,
        word: &str,
        count: Option<u32>,
    ) -> Result<(), Fault>
        requires { length (scope_of self.old).mutexes ≤ max_mutexes }
        ensures gives { Gives (λ _. scope_of self.new) result (mutexes_declared (scope_of self.old) word.now count) }
        ensures mode { self.new.mode ≡ self.old.mode }
    {
        self.declares()?;
        let count = count.ok_or(Fault::OutOfRange)?;
        declare_numbered(alloc, &mut self.mutexes, MAX_MUTEXES, word, count)
    }

    fn declare_condition(
        &mut self,
        alloc: Global,
        name: &str,
        mutex: &str,
        counter: Option<u32>,
    ) -> Result<(), Fault>
        requires { IsWithinLimits (scope_of self.old) }
        ensures gives { Gives (λ _. scope_of self.new) result
            (condition_declared (scope_of self.old) name.now mutex.now counter) }
        ensures mode { self.new.mode ≡ self.old.mode }
    {
        self.declares()?;
        let counter = counter.ok_or(Fault::OutOfRange)?;
        if self.conditions.len() >= MAX_CONDITIONS {
            return Err(Fault::OutOfRange);
        }
        let mutex = self.mutex(mutex)?;
        add_entry(
            alloc,
            &mut self.conditions,
            name,
            Condition { mutex, counter },
        )
    }

    /// Adds the command of line `number`.
    fn ask(&mut self, number: usize, action: Action) -> Result<(), Fault>
        ensures gives { Gives (λ _. scope_of self.new) result (Ok (with_action number (scope_of self.old) action)) }
        ensures mode { self.new.mode ≡ self.old.mode }
    {
        self.commands.push(Command {
            line: number,
            action,
        })?;
        Ok(())
    }

    fn begin(&mut self, number: usize, thread: &str, call: NamedCall<'_>) -> Result<(), Fault>
        requires { IsWithinLimits (scope_of self.old) }
        ensures gives { Gives (λ _. scope_of self.new) result
            (asked number (scope_of self.old) (begun (scope_of self.old) thread.now (call_seen call.entry))) }
        ensures mode { self.new.mode ≡ self.old.mode }
    {
        let action = Action::Begin(self.thread(thread)?, self.call(call)?);
        self.ask(number, action)
    }

    fn step(&mut self, number: usize, thread: &str, count: Option<u32>) -> Result<(), Fault>
        requires { IsWithinLimits (scope_of self.old) }
        ensures gives { Gives (λ _. scope_of self.new) result
            (asked number (scope_of self.old) (stepped (scope_of self.old) thread.now count)) }
        ensures mode { self.new.mode ≡ self.old.mode }
    {
        let count = count.ok_or(Fault::OutOfRange)?;
        let thread = self.thread(thread)?;
        self.ask(number, Action::Step { thread, count })
    }

    fn kill(&mut self, number: usize, thread: &str) -> Result<(), Fault>
        requires { IsWithinLimits (scope_of self.old) }
        ensures gives { Gives (λ _. scope_of self.new) result
            (asked number (scope_of self.old) (killed (scope_of self.old) thread.now)) }
        ensures mode { self.new.mode ≡ self.old.mode }
    {
        let thread = self.thread(thread)?;
        self.ask(number, Action::Kill(thread))
    }

    fn kill_all(&mut self, number: usize, process: &str) -> Result<(), Fault>
        requires { IsWithinLimits (scope_of self.old) }
        ensures gives { Gives (λ _. scope_of self.new) result
            (asked number (scope_of self.old) (all_killed (scope_of self.old) process.now)) }
        ensures mode { self.new.mode ≡ self.old.mode }
    {
        let process = self.process(process)?;
        self.ask(number, Action::KillAll(process))
    }

    fn leave(&mut self, number: usize, thread: &str) -> Result<(), Fault>
        requires { IsWithinLimits (scope_of self.old) }
        ensures gives { Gives (λ _. scope_of self.new) result
            (asked number (scope_of self.old) (left (scope_of self.old) thread.now)) }
        ensures mode { self.new.mode ≡ self.old.mode }
    {
        let thread = self.thread(thread)?;
        self.ask(number, Action::Leave(thread))
    }

    fn decline(&mut self, number: usize, thread: &str) -> Result<(), Fault>
        requires { IsWithinLimits (scope_of self.old) }
        ensures gives { Gives (λ _. scope_of self.new) result
            (asked number (scope_of self.old) (declined (scope_of self.old) thread.now)) }
        ensures mode { self.new.mode ≡ self.old.mode }
    {
        let thread = self.thread(thread)?;
        self.ask(number, Action::Decline(thread))
    }

    fn expire(&mut self, number: usize, thread: &str) -> Result<(), Fault>
        requires { IsWithinLimits (scope_of self.old) }
        ensures gives { Gives (λ _. scope_of self.new) result
            (asked number (scope_of self.old) (expired (scope_of self.old) thread.now)) }
        ensures mode { self.new.mode ≡ self.old.mode }
    {
        let thread = self.thread(thread)?;
        self.ask(number, Action::Expire(thread))
    }

    fn renew(&mut self, number: usize, thread: &str) -> Result<(), Fault>
        requires { IsWithinLimits (scope_of self.old) }
        ensures gives { Gives (λ _. scope_of self.new) result
            (asked number (scope_of self.old) (renewed (scope_of self.old) thread.now)) }
        ensures mode { self.new.mode ≡ self.old.mode }
    {
        let thread = self.thread(thread)?;
        self.ask(number, Action::Renew(thread))
    }

    fn remake(&mut self, number: usize, thread: &str, mutex: &str) -> Result<(), Fault>
        requires { IsWithinLimits (scope_of self.old) }
        ensures gives { Gives (λ _. scope_of self.new) result
            (asked number (scope_of self.old) (remade (scope_of self.old) thread.now mutex.now)) }
        ensures mode { self.new.mode ≡ self.old.mode }
    {
        let action = Action::Remake(self.thread(thread)?, self.mutex(mutex)?);
        self.ask(number, action)
    }

    fn spare(&mut self, number: usize, thread: &str) -> Result<(), Fault>
        requires { IsWithinLimits (scope_of self.old) }
        ensures gives { Gives (λ _. scope_of self.new) result
            (asked number (scope_of self.old) (wake_spared (scope_of self.old) thread.now)) }
        ensures mode { self.new.mode ≡ self.old.mode }
    {
        let thread = self.thread(thread)?;
        self.ask(number, Action::Spare(thread))
    }

    fn go(&mut self, number: usize, thread: &str) -> Result<(), Fault>
        requires { IsWithinLimits (scope_of self.old) }
        ensures gives { Gives (λ _. scope_of self.new) result
            (asked number (scope_of self.old) (gone (scope_of self.old) thread.now)) }
        ensures mode { self.new.mode ≡ self.old.mode }
    {
        let thread = self.thread(thread)?;
        self.ask(number, Action::Go(thread))
    }

    fn make(&mut self, number: usize, thread: &str, call: NamedCall<'_>) -> Result<(), Fault>
        requires { IsWithinLimits (scope_of self.old) }
        ensures gives { Gives (λ _. scope_of self.new) result
            (asked number (scope_of self.old) (made (scope_of self.old) thread.now (call_seen call.entry))) }
        ensures mode { self.new.mode ≡ self.old.mode }
    {
        let action = Action::Call(self.thread(thread)?, self.call(call)?);
        self.ask(number, action)
    }

    fn lock_several(
        &mut self,
        number: usize,
        thread: &str,
        mutex: &str,
        count: Option<u32>,
    ) -> Result<(), Fault>
        requires { IsWithinLimits (scope_of self.old) }
        ensures gives { Gives (λ _. scope_of self.new) result
            (asked number (scope_of self.old) (locked (scope_of self.old) thread.now mutex.now count)) }
        ensures mode { self.new.mode ≡ self.old.mode }
    {
        let count = count.ok_or(Fault::OutOfRange)?;
        let mutex = self.first_mutex(mutex, count)? as u16;
        let thread = self.thread(thread)?;
        let count = count as u16;
        self.ask(
            number,
            Action::Locks {
                thread,
                mutex,
                count,
            },
        )
    }

    /// A thread dies once: a second such line of it is refused.
    fn die(&mut self, number: usize, thread: &str, access: Option<u32>) -> Result<(), Fault>
        requires { IsWithinLimits (scope_of self.old) }
        ensures gives { Gives (λ _. scope_of self.new) result
            (asked number (scope_of self.old) (died (scope_of self.old) thread.now access)) }
        ensures mode { self.new.mode ≡ self.old.mode }
    {
        let access = access.ok_or(Fault::OutOfRange)?;
        let thread = self.thread(thread)?;
        if death_of(&self.commands, thread).is_some() {
            return Err(Fault::NoSuchName);
        }
        self.ask(number, Action::Die { thread, access })
    }

    fn enter(&mut self, alloc: Global, number: usize, line: Line<'_>) -> Result<(), Fault>
        requires { IsWithinLimits (scope_of self.old) }
        ensures gives { Gives (λ _. scope_of self.new) result
            (enter number (scope_of self.old) (form_seen line.entry)) }
        ensures mode { self.new.mode ≡ self.old.mode }
    {
        match line {
            Line::Process(word, base) => self.declare_process(alloc, word, base),
            Line::Thread(word) => self.declare_thread(alloc, word),
            Line::Member(word, process) => self.declare_member(alloc, word, process),
            Line::Mutex(word) => self.declare_mutex(alloc, word),
            Line::Mutexes(word, count) => self.declare_mutexes(alloc, word, count),
            Line::Cond(name, mutex, counter) => {
                self.declare_condition(alloc, name, mutex, counter)
            }
            Line::Begin(thread, call) => self.begin(number, thread, call),
            Line::Step(thread, count) => self.step(number, thread, count),
            Line::Kill(thread) => self.kill(number, thread),
            Line::KillAll(process) => self.kill_all(number, process),
            Line::Leave(thread) => self.leave(number, thread),
            Line::Decline(thread) => self.decline(number, thread),
            Line::Expire(thread) => self.expire(number, thread),
            Line::Renew(thread) => self.renew(number, thread),
            Line::Remake(thread, mutex) => self.remake(number, thread, mutex),
            Line::Spare(thread) => self.spare(number, thread),
            Line::Go(thread) => self.go(number, thread),
            Line::Call(thread, call) => self.make(number, thread, call),
            Line::Locks(thread, mutex, count) => self.lock_several(number, thread, mutex, count),
            Line::Phase => self.ask(number, Action::Phase),
            Line::Die(thread, access) => self.die(number, thread, access),
        }
    }

    /// Reads line `number`, which a line feed ends.
    pub fn read_line(&mut self, alloc: Global, number: usize, text: &str) -> Result<(), Fault>
        requires { IsWithinLimits (scope_of self.old) }
        ensures gives { Gives (λ _. scope_of self.new) result
            (line_read number (scope_of self.old) text.now) }
        ensures mode { self.new.mode ≡ self.old.mode }
        ensures few { OnOk result (number ≤ max_lines) }
        ensures memory { IfErr result (λ f. f ≡ Fault.OutOfMemory → is_silent text.now ≡ false) }
    {
        if number > MAX_LINES {
            return Err(Fault::TooLong);
        }
        if is_silent_line(text) {
            return Ok(());
        }
        let line = line_of(text, self.mode).ok_or(Fault::UnknownWord)?;
        self.enter(alloc, number, line)
    }
}
