//! What a memory of words is.
ghost use Rattle.std.specs.Prelude.{ℕ, List, ◌≡◌, is_some};
ghost use Rattle.stepprograms.specs.declared.access.Access.{Access};
ghost use Rattle.syscalls.specs.Memories.{is_valid, word_at, words_after};

/// Words of 64 bits, by their places, numbered from 0. A place is valid if it is at least 1 and less than the number of
/// words; word 0 is null.
///
/// Each method is one atomic step, which reads or changes the word at its place alone. At an invalid place it answers
/// None, and nothing changes.
pub trait Memory {
    /// The words, in their order.
    ghost words: { Self → List ℕ };

    /// The word.
    fn load(&self, at: u64) -> Option<u64>
        ensures { result ≡ word_at (words self.now) at };

    /// Writes the word.
    fn store(&mut self, at: u64, value: u64) -> Option<()>
        ensures answer { is_some result ≡ is_valid (words self.old) at }
        ensures words { words self.new ≡ words_after (Access.Store at value) (words self.old) };

    /// Writes the new word where the word is the expected one. The answer is the word that it met.
    fn exchange(&mut self, at: u64, expected: u64, new: u64) -> Option<u64>
        ensures answer { result ≡ word_at (words self.old) at }
        ensures words { words self.new ≡ words_after (Access.Exchange at expected new) (words self.old) };

    /// Turns those bits of the word that are set in the operand. The answer is the word that it met.
    fn fetch_xor(&mut self, at: u64, operand: u64) -> Option<u64>
        ensures answer { result ≡ word_at (words self.old) at }
        ensures words { words self.new ≡ words_after (Access.FetchXor at operand) (words self.old) };

    /// Sets those bits of the word that are set in the operand. The answer is the word that it met.
    fn fetch_or(&mut self, at: u64, operand: u64) -> Option<u64>
        ensures answer { result ≡ word_at (words self.old) at }
        ensures words { words self.new ≡ words_after (Access.FetchOr at operand) (words self.old) };

    /// Clears those bits of the word that are clear in the operand. The answer is the word that it met.
    fn fetch_and(&mut self, at: u64, operand: u64) -> Option<u64>
        ensures answer { result ≡ word_at (words self.old) at }
        ensures words { words self.new ≡ words_after (Access.FetchAnd at operand) (words self.old) };

    /// Adds the operand to the word, modulo 2^64. The answer is the word that it met.
    fn fetch_add(&mut self, at: u64, operand: u64) -> Option<u64>
        ensures answer { result ≡ word_at (words self.old) at }
        ensures words { words self.new ≡ words_after (Access.FetchAdd at operand) (words self.old) };
}
