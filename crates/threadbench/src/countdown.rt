//! When a job's thread dies.
ghost use Rattle.std.specs.Prelude.{◌≡◌, false, if◌then◌else◌};

use ruledwords::Fate;

/// How many accesses a thread has before it dies.
#[derive(Drop)]
pub(crate) struct Countdown {
    left: u32,
    died: bool,
}

impl Countdown {
    /// The thread dies before its access with this number, counted from the next one as 1. 0 is read as 1.
    pub(crate) fn before(access: u32) -> Countdown {
        Countdown {
            left: access,
            died: false,
        }
    }

    /// Before which of its further accesses the thread dies.
    pub(crate) fn left(&self) -> u32 {
        self.left
    }
}

impl Fate for Countdown {
    ghost stopped = { λ c. if c.died then 1 else 0 };

    fn stops(&mut self) -> bool {
        // It is told to stop once.
        if self.died {
            return false;
        }
        if self.left > 1 {
            self.left -= 1;
        } else {
            self.died = true;
        }
        self.died
    }
}
