//! Why a certificate isn't cut.

ghost use Rattle.std.specs.Prelude.{◌≡◌};

use std::alloc::AllocError;

/// Why a certificate isn't cut, or not further.
#[derive(Clone, Copy, Debug, PartialEq, Eq)]
pub enum Stop {
    /// There is no place to cut as far as a window may go: everywhere a thread is in a call whose reply can't be had
    /// again.
    NoPlace,
    /// There are more mutexes or condition variables than a trace may have.
    TooMany,
    /// The steps are no certificate: one doesn't fit those before it, or a window was found not to be legal.
    Refused,
    /// No memory was left.
    Memory,
}

impl From<AllocError> for Stop {
    ghost use Rattle.windows.specs.declared.stop.Stop.TheVariants.{Memory};

    ghost from_gives = { λ _ e. e ≡ Memory };

    fn from(_e: AllocError) -> Stop {
        Stop::Memory
    }
}
