//! A script that was read.

ghost use Rattle.std.specs.Prelude.{option_map, ◌≡◌, ◌-◌, ◌≤◌, ◌<◌, Some, length, slice_get};

use crate::command::{Command, Condition, Mode};
use crate::draft::Draft;
use indexmap::{IndexMap, IndexSet};
use lockword::Tid;
use std::marker::Model;

/// A script without fault: the names that it declares, each at its number, and its commands.
/// It has at least one thread and one mutex, and its commands name only what it declares.
#[derive(Drop)]
pub struct Script {
    mode: Mode,
    processes: IndexMap<String, u64>,
    threads: IndexSet<String>,
    members: Vec<u8>,
    mutexes: IndexSet<String>,
    conditions: IndexMap<String, Condition>,
    commands: Vec<Command>,
}

impl Model for Script {
    ghost use Rattle.script.specs.Scope.{Scope};

    ghost Value = { Scope };

    ghost use Rattle.script.specs.Script.{contents, IsWhole};

    ghost view = { contents };

    ghost invariant = { IsWhole };
}

impl Script {
    ghost use Rattle.script.specs.Scope.{IsWellFormed};
    ghost use Rattle.script.specs.Seen.{scope_of};

    pub(crate) fn of(draft: Draft) -> Script
        requires { IsWellFormed (scope_of draft) }
        ensures { result ≡ scope_of draft }
    {
        Script {
            mode: draft.mode,
            processes: draft.processes,
            threads: draft.threads,
            members: draft.members,
            mutexes: draft.mutexes,
            conditions: draft.conditions,
            commands: draft.commands,
        }
    }

    /// What it is written for.
    pub fn mode(&self) -> Mode
        ensures mode { result ≡ self.now.mode }
        ensures well_formed { IsWellFormed self.now }
    {
        self.mode
    }

    /// How many processes it declares, at most [`MAX_PROCESSES`](crate::MAX_PROCESSES). They have the numbers from 1 to
    /// this; process 0 is always there, with base 0.
    pub fn processes(&self) -> u8
        ensures count { result ≡ length self.now.processes }
        ensures well_formed { IsWellFormed self.now }
    {
        self.processes.len() as u8
    }

    /// The base of a process that it declares, at most [`MAX_BASE`](crate::MAX_BASE).
    pub fn base(&self, process: u8) -> u64
        requires first { 1 ≤ process }
        requires last { process ≤ length self.now.processes }
        ensures { option_map (λ p. p.1) (slice_get self.now.processes (process - 1)) ≡ Some result }
    {
        let (_, base) = self.processes.get_index(usize::from(process) - 1).unwrap();
        *base
    }

    /// The process of each thread, in the order of their ids: 0 where the thread's line names none.
    pub fn members(&self) -> &[u8]
        ensures value { result.now ≡ self.now.members }
        ensures well_formed { IsWellFormed self.now }
    {
        self.members.as_slice()
    }

    /// How many threads it declares, from 1 to [`MAX_THREADS`](crate::MAX_THREADS). They have the
    /// ids from 1 to this.
    pub fn threads(&self) -> u8
        ensures count { result ≡ length self.now.threads }
        ensures well_formed { IsWellFormed self.now }
    {
        self.threads.len() as u8
    }

    /// How many mutexes it declares, from 1 to [`MAX_MUTEXES`](crate::MAX_MUTEXES). They have the numbers below this.
    pub fn mutexes(&self) -> u16
        ensures count { result ≡ length self.now.mutexes }
        ensures well_formed { IsWellFormed self.now }
    {
        self.mutexes.len() as u16
    }

    /// How many condition variables it declares, at most [`MAX_CONDITIONS`](crate::MAX_CONDITIONS). They have the
    /// numbers below this.
    pub fn conditions(&self) -> u16
        ensures count { result ≡ length self.now.conditions }
        ensures well_formed { IsWellFormed self.now }
    {
        self.conditions.len() as u16
    }

    /// What a condition variable was declared with.
    pub fn condition(&self, condition: u16) -> Condition
        requires { condition < length self.now.conditions }
        ensures { option_map (λ c. c.1) (slice_get self.now.conditions condition) ≡ Some result }
    {
        let (_, declared) = self.conditions.get_index(usize::from(condition)).unwrap();
        *declared
    }

    /// The commands, in the order of their lines.
    pub fn commands(&self) -> &[Command]
        ensures value { result.now ≡ self.now.commands }
        ensures well_formed { IsWellFormed self.now }
    {
        self.commands.as_slice()
    }

    /// The name of a thread that it declares.
    pub fn thread_name(&self, thread: Tid) -> &str
        requires { thread ≤ length self.now.threads }
        ensures { slice_get self.now.threads (thread - 1) ≡ Some result.now }
    {
        self.threads.get_index(thread.as_index()).unwrap().as_str()
    }

    /// The name of a mutex that it declares.
    pub fn mutex_name(&self, mutex: u16) -> &str
        requires { mutex < length self.now.mutexes }
        ensures { slice_get self.now.mutexes mutex ≡ Some result.now }
    {
        self.mutexes.get_index(usize::from(mutex)).unwrap().as_str()
    }

    /// The name of a condition variable that it declares.
    pub fn condition_name(&self, condition: u16) -> &str
        requires { condition < length self.now.conditions }
        ensures { option_map (λ c. c.0) (slice_get self.now.conditions condition) ≡ Some result.now }
    {
        let (name, _) = self.conditions.get_index(usize::from(condition)).unwrap();
        name.as_str()
    }
}
