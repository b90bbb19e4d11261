//! Why a script was refused.
ghost use Rattle.std.specs.Prelude.{◌≡◌};
ghost use Rattle.script.specs.Faults.{number_of, words_of};

use std::alloc::{AllocError, AllocFailed};
use thiserror::Error;

/// What is wrong with a script.
#[derive(Clone, Copy, Debug, PartialEq, Eq, Error)]
pub enum Fault {
    /// The bytes are no text.
    #[error("not UTF-8")]
    NotUtf8,
    /// The line has no form of a script's lines, or stands where it may not.
    #[error("unknown word")]
    UnknownWord,
    /// A number, or how many things are declared, is out of its range.
    #[error("number out of range")]
    OutOfRange,
    /// A name isn't declared, or is declared twice, or a thread is to die a second time.
    #[error("no such name")]
    NoSuchName,
    /// There are too many bytes or lines.
    #[error("too long")]
    TooLong,
    /// No memory was left for what the line adds.
    #[error("out of memory")]
    OutOfMemory,
}

impl Fault {
    /// The number, from 1 to 6.
    pub fn number(self) -> u8
        ensures { result ≡ number_of self }
    {
        match self {
            Fault::NotUtf8 => 1,
            Fault::UnknownWord => 2,
            Fault::OutOfRange => 3,
            Fault::NoSuchName => 4,
            Fault::TooLong => 5,
            Fault::OutOfMemory => 6,
        }
    }

    /// The words, as its message has them.
    pub fn words(self) -> &'static str
        ensures { result.now ≡ words_of self }
    {
        match self {
            Fault::NotUtf8 => "not UTF-8",
            Fault::UnknownWord => "unknown word",
            Fault::OutOfRange => "number out of range",
            Fault::NoSuchName => "no such name",
            Fault::TooLong => "too long",
            Fault::OutOfMemory => "out of memory",
        }
    }
}

/// A fault and where it was met.
#[derive(Clone, Copy, Debug, PartialEq, Eq, Error)]
#[error("line {line}: fault {}: {fault}", .fault.number())]
pub struct ScriptFault {
    /// The line, from 1.
    pub line: usize,
    /// What is wrong there.
    pub fault: Fault,
}

impl From<AllocError> for Fault {
    ghost use Rattle.script.specs.declared.fault.Fault.TheVariants.{OutOfMemory};

    ghost from_gives = { λ _ e. e ≡ OutOfMemory };

    fn from(_e: AllocError) -> Fault {
        Fault::OutOfMemory
    }
}

impl<T: Drop> From<AllocFailed<T>> for Fault {
    ghost use Rattle.script.specs.declared.fault.Fault.TheVariants.{OutOfMemory};

    ghost from_gives = { λ _ e. e ≡ OutOfMemory };

    fn from(_e: AllocFailed<T>) -> Fault {
        Fault::OutOfMemory
    }
}
