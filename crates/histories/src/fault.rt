//! Why a history was refused.
ghost use Rattle.std.specs.Prelude.{◌≡◌};
ghost use Rattle.histories.specs.Faults.{number_of, words_of};

use std::alloc::AllocError;
use thiserror::Error;

/// What is wrong with the text of a history.
#[derive(Clone, Copy, Debug, PartialEq, Eq, Error)]
pub enum Fault {
    /// The line is no text.
    #[error("not UTF-8")]
    NotUtf8,
    /// The line has no form of a history's lines, or no line feed ends it.
    #[error("unknown word")]
    UnknownWord,
    /// A number is out of its range, or below one before it.
    #[error("number out of range")]
    OutOfRange,
    /// There is no `end` line, or something stands after it.
    #[error("cut")]
    Cut,
    /// No memory was left.
    #[error("out of memory")]
    OutOfMemory,
}

impl Fault {
    /// The number, as that of a trace's fault with these words: 1, 2, 3, 5 or 6.
    pub fn number(self) -> u8
        ensures { result ≡ number_of self }
    {
        match self {
            Fault::NotUtf8 => 1,
            Fault::UnknownWord => 2,
            Fault::OutOfRange => 3,
            Fault::Cut => 5,
            Fault::OutOfMemory => 6,
        }
    }

    /// The words, as its message has them.
    pub fn words(self) -> &'static str
        ensures { result.now ≡ words_of self }
    {
        match self {
            Fault::NotUtf8 => "not UTF-8",
            Fault::UnknownWord => "unknown word",
            Fault::OutOfRange => "number out of range",
            Fault::Cut => "cut",
            Fault::OutOfMemory => "out of memory",
        }
    }
}

/// A fault and where it was met.
#[derive(Clone, Copy, Debug, PartialEq, Eq, Error)]
#[error("line {line}: fault {}: {fault}", .fault.number())]
pub struct HistoryFault {
    /// The line, from 1.
    pub line: u64,
    /// What is wrong there.
    pub fault: Fault,
}

impl From<AllocError> for Fault {
    ghost use Rattle.histories.specs.declared.fault.Fault.TheVariants.{OutOfMemory};

    ghost from_gives = { λ _ e. e ≡ OutOfMemory };

    fn from(_e: AllocError) -> Fault {
        Fault::OutOfMemory
    }
}
