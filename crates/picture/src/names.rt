//! What things are called in a picture.

ghost use Rattle.std.specs.Prelude.{◌≡◌, ◌≤◌, [], length, map, min, slice_index_or, string_bytes};
ghost use Rattle.picture.specs.Names.{condition_head, condition_tail, head_of, letters_of, longest_of};
ghost use Rattle.picture.specs.Names.{most_letters, mutex_head, mutex_tail, nameless, tail_of, thread_head};
ghost use Rattle.picture.specs.Names.{thread_tail};

use itoa::Buffer;
use std::alloc::Global;
use std::marker::Model;

/// For how many letters of a name a picture has room at most.
const MOST_LETTERS: usize = 16;

/// The names of threads, mutexes and condition variables. What has none is called by a letter and its number, as in the
/// trace.
#[derive(Drop)]
pub struct Names {
    threads: Vec<String>,
    mutexes: Vec<String>,
    conditions: Vec<String>,
}

impl Model for Names {
    ghost use Rattle.picture.specs.Inside.{contents};
    ghost use Rattle.picture.specs.Names.{Called};

    ghost Value = { Called };

    ghost view = { contents };
}

/// A name in two pieces: itself and nothing, or a letter and a number.
#[derive(Clone, Copy)]
pub struct Label<'a> {
    pub head: &'a str,
    pub tail: &'a str,
}

/// The name at this place, or else the letter and the number.
fn label_of<'a>(names: &'a [String], index: usize, letter: &'a str, number: &'a str) -> Label<'a>
    ensures head { result.head.now ≡ head_of (map string_bytes names.now) index letter.now }
    ensures tail { result.tail.now ≡ tail_of (map string_bytes names.now) index number.now }
{
    if index < names.len() {
        Label {
            head: names[index].as_str(),
            tail: "",
        }
    } else {
        Label {
            head: letter,
            tail: number,
        }
    }
}

/// The most letters of these names, or `most`.
fn longest(names: &[String], most: usize) -> usize
    ensures { result ≡ longest_of most (map string_bytes names.now) }
{
    let mut most = most;
    for name in names {
        most = most.max(name.len());
    }
    most
}

impl Names {
    /// Names by numbers: of threads from 1, of mutexes and of condition variables from 0.
    pub fn new(threads: Vec<String>, mutexes: Vec<String>, conditions: Vec<String>) -> Names
        ensures threads { result.threads ≡ map string_bytes threads.items }
        ensures mutexes { result.mutexes ≡ map string_bytes mutexes.items }
        ensures conditions { result.conditions ≡ map string_bytes conditions.items }
    {
        Names {
            threads,
            mutexes,
            conditions,
        }
    }

    /// No names.
    pub fn none(alloc: Global) -> Names
        ensures { result ≡ nameless }
    {
        Names {
            threads: Vec::new(alloc),
            mutexes: Vec::new(alloc),
            conditions: Vec::new(alloc),
        }
    }

    /// What a thread is called.
    pub fn thread<'a>(&'a self, thread: u8, digits: &'a mut Buffer) -> Label<'a>
        ensures head { result.head.now ≡ thread_head self.now thread }
        ensures tail { result.tail.now ≡ thread_tail self.now thread }
    {
        let index = usize::from(thread).saturating_sub(1);
        label_of(&self.threads, index, "t", digits.format(thread))
    }

    /// What a mutex is called.
    pub fn mutex<'a>(&'a self, mutex: u16, digits: &'a mut Buffer) -> Label<'a>
        ensures head { result.head.now ≡ mutex_head self.now mutex }
        ensures tail { result.tail.now ≡ mutex_tail self.now mutex }
    {
        label_of(&self.mutexes, usize::from(mutex), "m", digits.format(mutex))
    }

    /// What a condition variable is called.
    pub fn condition<'a>(&'a self, condition: u16, digits: &'a mut Buffer) -> Label<'a>
        ensures head { result.head.now ≡ condition_head self.now condition }
        ensures tail { result.tail.now ≡ condition_tail self.now condition }
    {
        label_of(
            &self.conditions,
            usize::from(condition),
            "c",
            digits.format(condition),
        )
    }

    /// How many threads have a name of their own.
    pub fn threads(&self) -> usize
        ensures { result ≡ length self.now.threads }
    {
        self.threads.len()
    }

    /// The name of the thread after that many others; nothing where it has none.
    pub fn lane(&self, index: u8) -> &str
        ensures { result.now ≡ slice_index_or self.now.threads index [] }
    {
        let index = usize::from(index);
        if index < self.threads.len() {
            self.threads[index].as_str()
        } else {
            ""
        }
    }

    /// How many letters the longest name of a thread has, 1 at least, as far as there is room.
    pub fn thread_letters(&self) -> usize
        ensures value { result ≡ min most_letters (longest_of 1 self.now.threads) }
        ensures some { 1 ≤ result }
    {
        longest(&self.threads, 1).min(MOST_LETTERS)
    }

    /// For how many letters of a name there is room: for those of the longest name, and for that many at least.
    pub fn letters(&self, least: usize) -> u8
        ensures { result ≡ letters_of least self.now }
    {
        let most = longest(
            &self.conditions,
            longest(&self.mutexes, longest(&self.threads, least)),
        );
        most.min(MOST_LETTERS) as u8
    }
}
