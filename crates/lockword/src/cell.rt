//! The cell of a mutex.
ghost use Rattle.std.specs.Prelude.{◌≡◌, ◌<◌, ◌%◌, ◌^◌, true};
ghost use Rattle.lockword.specs.Cells.{fields_of, word_of, waiting, taken, marked, released, spoiled, trimmable};

use crate::tid::Tid;
use std::marker::Model;

const OWNER: u64 = 0x3fff_ffff;

/// Bit 30: the last owner died, and nobody has declared the mutex consistent since (futex(2)).
pub const OWNER_DIED: u64 = 0x4000_0000;

/// Bit 31: somebody may sleep on the word (futex(2)).
pub const WAITERS: u64 = 0x8000_0000;

/// Bit 32, above the futex word: the mutex can't be locked any more.
pub const UNUSABLE: u64 = 0x1_0000_0000;

/// The 64-bit word of a mutex, seen as its owner, its flags and the bits above them.
#[derive(Clone, Copy, Debug, PartialEq, Eq)]
pub struct Cell(u64);

impl Model for Cell {
    ghost use Rattle.lockword.specs.Cells.{Fields, fields_of, word_of};

    ghost Value = { Fields };

    ghost view = { λ c. fields_of c.0 };

    ghost inverse = { λ c. record { 0 = word_of c } };

    ghost use Rattle.lockword.specs.Coding.{word_of-fields_of};

    ghost inverse_ok = { λ a h. λ i. record { 0 = word_of-fields_of a.0 i } };
}

impl Cell {
    /// The cell that a word of memory is, whatever its bits.
    pub fn new(word: u64) -> Cell
        ensures { result ≡ fields_of word }
    {
        Cell(word)
    }

    /// The word.
    pub fn word(self) -> u64
        ensures value { result ≡ word_of self }
        ensures cell { fields_of result ≡ self }
    {
        self.0
    }

    /// The id of the thread that owns the mutex, or 0.
    pub fn owner(self) -> u32
        ensures value { result ≡ self.owner }
        ensures small { result < 2 ^ 30 }
    {
        (self.word() & OWNER) as u32
    }

    /// Somebody may sleep on it.
    #[tactic(auto, using(crate::proofs::Bits::and_waiters))]
    pub fn waiters(self) -> bool
        ensures { result ≡ self.waiters }
    {
        self.word() & WAITERS != 0
    }

    /// An owner died holding it, and nobody has declared it consistent.
    #[tactic(auto, using(crate::proofs::Bits::and_died))]
    pub fn owner_died(self) -> bool
        ensures { result ≡ self.died }
    {
        self.word() & OWNER_DIED != 0
    }

    /// The mutex can't be locked any more.
    #[tactic(auto, using(crate::proofs::Bits::and_unusable))]
    pub fn unusable(self) -> bool
        ensures { result ≡ self.unusable }
    {
        self.word() & UNUSABLE != 0
    }

    /// WAITERS is all that it says: nobody owns it, and it can be locked. Where nobody sleeps on it, nothing is lost if
    /// it becomes 0.
    pub fn trimmable(self) -> bool
        ensures { result ≡ trimmable self }
    {
        self.word() == WAITERS
    }

    /// The low half: the futex word.
    pub fn low(self) -> u32
        ensures { result ≡ word_of self % 2 ^ 32 }
    {
        (self.word() & 0xffff_ffff) as u32
    }

    /// WAITERS is set.
    #[tactic(auto, using(crate::proofs::Bits::or_waiting))]
    pub fn waiting(self) -> Cell
        ensures { result ≡ waiting self }
    {
        Cell(self.word() | WAITERS)
    }

    /// An unowned cell, taken by a thread.
    pub fn taken(self, thread: Tid) -> Cell
        requires { self.owner ≡ 0 }
        ensures { result ≡ taken self thread }
    {
        Cell(self.word() | u64::from(thread.get()))
    }

    /// The owner is dead: OWNER_DIED takes its place.
    #[tactic(auto, using(crate::proofs::Bits::and_or_marked))]
    pub fn marked(self) -> Cell
        ensures { result ≡ marked self }
    {
        Cell((self.word() & !OWNER) | OWNER_DIED)
    }

    /// A cell that its owner releases.
    pub fn released(self, thread: Tid) -> Cell
        requires { self.owner ≡ thread }
        ensures { result ≡ released self }
    {
        Cell(self.word() ^ u64::from(thread.get()))
    }

    /// A cell that its owner releases with OWNER_DIED set: UNUSABLE is flipped instead.
    pub fn spoiled(self, thread: Tid) -> Cell
        requires owned { self.owner ≡ thread }
        requires inconsistent { self.died ≡ true }
        ensures { result ≡ spoiled self }
    {
        Cell(self.word() ^ (u64::from(thread.get()) | OWNER_DIED | UNUSABLE))
    }
}
