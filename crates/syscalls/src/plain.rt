//! A memory in a vector.
ghost use Rattle.std.specs.Prelude.{◌≡◌, replicate, IfOk};

use crate::memory::Memory;
use memorymap::NoMem;
use std::alloc::{AllocError, Global};
use std::marker::Model;

/// Words in a vector.
#[derive(Drop)]
pub struct PlainMemory {
    words: Vec<u64>,
}

impl Model for PlainMemory {
    ghost use Rattle.std.specs.Prelude.{ℕ, List};

    ghost Value = { List ℕ };

    ghost view = { λ m. m.words.items };
}

impl Clone for PlainMemory {
    ghost is_clone = { λ old new. new ≡ old };

    /// A memory of the same words.
    fn clone(&self) -> Result<PlainMemory, AllocError> {
        Ok(PlainMemory {
            words: self.words.clone()?,
        })
    }
}

impl PlainMemory {
    /// This many words, all of them 0.
    pub fn new(alloc: Global, count: usize) -> Result<PlainMemory, NoMem>
        ensures { IfOk result (λ m. m ≡ replicate count 0) }
    {
        let words = vec![in alloc; 0; count]?;
        Ok(PlainMemory { words })
    }
}

impl From<Vec<u64>> for PlainMemory {
    ghost from_gives = { λ v m. m ≡ v.items };

    fn from(words: Vec<u64>) -> PlainMemory {
        PlainMemory { words }
    }
}

impl Memory for PlainMemory {
    ghost words = { λ m. m };

    fn load(&self, at: u64) -> Option<u64> {
        if at < 1 || self.words.len() as u64 <= at {
            return None;
        }
        Some(self.words[at as usize])
    }

    fn store(&mut self, at: u64, value: u64) -> Option<()> {
        self.load(at)?;
        self.words[at as usize] = value;
        Some(())
    }

    fn exchange(&mut self, at: u64, expected: u64, new: u64) -> Option<u64> {
        let word = self.load(at)?;
        if word == expected {
            self.words[at as usize] = new;
        }
        Some(word)
    }

    fn fetch_xor(&mut self, at: u64, operand: u64) -> Option<u64> {
        let word = self.load(at)?;
        self.words[at as usize] = word ^ operand;
        Some(word)
    }

    fn fetch_or(&mut self, at: u64, operand: u64) -> Option<u64> {
        let word = self.load(at)?;
        self.words[at as usize] = word | operand;
        Some(word)
    }

    fn fetch_and(&mut self, at: u64, operand: u64) -> Option<u64> {
        let word = self.load(at)?;
        self.words[at as usize] = word & operand;
        Some(word)
    }

    fn fetch_add(&mut self, at: u64, operand: u64) -> Option<u64> {
        let word = self.load(at)?;
        self.words[at as usize] = word.wrapping_add(operand);
        Some(word)
    }
}
